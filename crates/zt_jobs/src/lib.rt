//! Jobs and processes, over a step of the store: where they stand in the tree of jobs, how they are made, and how they
//! end.
#![tactic(auto)]

mod critical_task;
mod ended_tables;
mod ended_tasks;
mod ended_waits;
mod ending_set;
mod found_koids;
mod found_set;
pub mod laws;
mod new_task;
mod task_tree;

pub use critical_task::set_critical;
pub use ended_tasks::{end_process, end_subtree};
pub use new_task::{make_job, make_process};
pub use task_tree::{depth, is_under};
