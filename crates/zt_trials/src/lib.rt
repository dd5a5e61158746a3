//! Tests of what no clause says and no run over lines shows.
//!
//! - Answers if no allocation fails, and what a failed allocation leaves.
//! - Runs whose reads or writes fail.
//! - A text of a million calls is loaded and saved in good time.
//! - A session is saved as a tree and loaded again.
//! - The last moment of a history can be reached.
//! - Clients on threads of their own all get their answers.
//! - A book refuses too many clients.
//!
//! The tests stand above the crates that they call, since a crate with tests of its own is proved twice. They are in one
//! crate, since each crate pays for what it stands on before its first function.
#![tactic(auto)]

#[cfg(test)]
mod tests;
