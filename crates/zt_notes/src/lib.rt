//! Adds the notes and names of a session text to the lines that answer a question about it.
#![tactic(auto)]

mod cuts;
mod elements;
mod forms;
mod found;
mod shapes;
mod shown_lines;
mod walks;

pub use found::has_text;
pub use shapes::Shape;
pub use shown_lines::shown;
