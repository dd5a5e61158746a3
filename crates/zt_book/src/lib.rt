//! A book is a session: a tree of moments, the clients that stand in it, and a log of all answered commands.
#![tactic(auto)]

mod book;
mod branch_name;
mod calls_in_a_row;
mod client;
pub mod laws;
mod load_progress;
mod loaded_clients;
mod loaded_history;
mod loaded_tree;
mod log;
mod session_state;
mod tree_look;

pub use book::Book;
pub use calls_in_a_row::CallsInARow;
pub use client::{Client, Cursor};
pub use load_progress::{LoadProgress, NoProgress};
pub use log::{Log, Recorded};
pub use tree_look::TreeLook;
