//! The tree of moments: every call that was answered, on branches, with a store that moves to any moment by exchanging
//! rows.
#![tactic(auto)]

mod branches;
mod copied_calls;
mod history;
pub mod laws;
mod moment_nodes;
mod moments;
mod object_notes;
mod row_happenings;
mod same_calls;
mod working_store;

pub use branches::BranchId;
pub use copied_calls::push_call;
pub use history::History;
pub use row_happenings::RowHappening;
