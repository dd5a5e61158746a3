//! The message queue of an endpoint, over a step of the store. Messages are pushed at its end and taken from its front.
#![tactic(auto)]

mod queue_end;
mod queue_front;

pub use queue_end::push;
pub use queue_front::{front, pop, take_all};
