//! The consequences of a call's direct change. First, a worklist removes the objects that lost their last support, each
//! once. Then the derived signals are renewed and waits are fired.
#![tactic(auto)]

mod fired_waits;
pub mod laws;
mod lost_objects;
mod raised_waits;
mod removed_rows;
mod settled_signals;
mod worklist;

pub use settled_signals::settle;
pub use worklist::release;
