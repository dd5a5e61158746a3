//! The handle table of a process, over a step of the store.
#![tactic(auto)]

mod handle_table;

pub use handle_table::{duplicate, find, install, install_pair, remove};
