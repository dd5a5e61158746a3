//! The signals of one object, over a step of the store: those that calls set, and those that follow from the rows. Also
//! the waits for signals, which are added and taken away.
#![tactic(auto)]

mod derived_signals;
mod object_signals;
mod wait;
mod wait_group;

pub use object_signals::{refresh, set_bits};
pub use wait::{add_wait, cancel_waits, drop_waits};
