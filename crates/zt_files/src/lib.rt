//! Reads and writes the files of the three programs, and shows the progress of loading one.
#![tactic(auto)]

mod progress;
mod read_file;
mod whole_file;
mod writable;

pub use progress::Progress;
pub use read_file::{is_regular, open, read_rest, read_whole, rewind};
pub use whole_file::write_whole;
pub use writable::warn_ahead;
