//! The system calls. Each checks its arguments in order, changes rows in a step of the store, and answers.
#![tactic(auto)]

mod applied_call;
mod channel_calls;
mod failure;
mod handle_arguments;
mod handle_calls;
mod job_calls;
mod new_objects;
mod object_calls;
mod port_calls;
mod received_message;
mod sent_message;
mod taken_handles;

pub use applied_call::{apply, has_live_process, run_on};
