//! Where the handle of a place came from: a place is an entry of a process, or a handle in a queued message.
#![tactic(auto)]

mod endings;
mod handle_life;
pub mod laws;
mod limits;
mod origins;
mod places;

pub use endings::Ending;
pub use handle_life::{HandleLife, LifeStep, end_at, life, origin_at, target_at};
pub use origins::{Origin, origin_of};
pub use places::{Place, held_at};
