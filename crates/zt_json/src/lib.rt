//! Turns the lines that `zxtt look` prints into JSON: one object a line.
#![tactic(auto)]

mod calls;
mod lines;
mod lives;
mod members;
mod names;
mod parts;
mod rows;
mod steps;
mod texts;
mod values;
mod words;

pub use texts::json_lines;
