//! Operations on the packets of a port, over a step of the store: append, take from the front, count and cancel
//! packets, and fire waits.
#![tactic(auto)]

mod cancelled_waits;
mod fired_wait;
mod packet_walk;
mod pending_packets;
mod port_end;
mod port_front;

pub use cancelled_waits::cancel;
pub use fired_wait::{fire, is_met};
pub use pending_packets::pending;
pub use port_end::queue;
pub use port_front::{front, take_front};
