//! Reads the words of a command line, explains lines that were refused, and says how a program ended.
#![tactic(auto)]

mod advice;
mod explanation;
mod fault;
mod fields;
mod heard;
mod look_words;
mod no_question;
mod question;
mod reason;
mod trace_lines;
mod wanted;
mod words;

pub use fault::{Fault, answered, ended};
pub use fields::field;
pub use heard::{Heading, said_of};
pub use look_words::Look;
pub use no_question::NoQuestion;
pub use question::{Options, Question, Topic};
pub use trace_lines::TraceLine;
pub use words::{Asked, RunWords, ServeWords, Words, from_word, save_tree_word};
