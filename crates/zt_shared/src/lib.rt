//! Shares one book between several clients. One log has all answers and replays; each client keeps its own rows of it.
#![tactic(auto)]

pub mod account;
mod answered_command;
mod closed_book;
mod gate;
mod locked_book;
mod opened_book;
mod pass;
mod shared;

pub use closed_book::{close, close_book};
pub use gate::Gate;
pub use opened_book::{Blanks, open, open_book};
pub use pass::{Beginning, Pass, Said};
pub use shared::{OpenedBook, Shared};
