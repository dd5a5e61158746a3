//! Rights, signals, statuses and kinds of kernel objects, with the default rights and the settable signals of each
//! kind. Nothing here allocates.
#![tactic(auto)]

mod kinds;
mod right_bits;
mod signal_bits;
mod statuses;

pub use kinds::Kind;
pub use right_bits::{Rights, asked, defaults};
pub use signal_bits::{Signals, settable};
pub use statuses::Status;
