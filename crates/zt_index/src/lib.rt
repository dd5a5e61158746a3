//! Counts and hash buckets that are kept beside the rows of a state and follow them. They tell how often rows name each
//! koid, and how many user packets each port has. Waits, and live jobs and processes, are found by the buckets.
#![tactic(auto)]

mod chains;
mod index;
mod optional_number;
mod packet_counts;
mod support_counts;

pub use index::Index;
pub use packet_counts::{PacketCounts, is_user_packet};
pub use support_counts::{KoidCounts, SupportCounts};
