//! The questions that people ask of a trace, and the lines that show the answers.
//!
//! - The calls of a path with their replies, and the rows that a call changed, or that differ between two moments.
//! - What happened to objects, and everything that is known of one object.
//! - What was made on a path and is there at its end.
//! - The handles of a process, and the messages of an endpoint; the lines of the life of a handle.
//! - The handles that named an object, as a tree.
//! - Where branches leave one another, and the summary of a path.
#![tactic(auto)]

mod alive_list;
mod branch_list;
mod call_counts;
mod call_list;
mod changes;
mod changes_between;
mod event_list;
mod fates;
mod handle_list;
mod handle_tree;
pub mod laws;
mod limits;
mod lines;
pub mod message_laws;
mod message_list;
mod object_handles;
mod object_look;
mod object_rows;
mod path_summary;
mod signaled;
mod unleaked_search;
mod unleaked_set;

pub use alive_list::{AliveObject, alive};
pub use branch_list::{BranchLook, branches};
pub use call_counts::CallCount;
pub use call_list::{CallFilter, CallMade, calls};
pub use changes::{Change, changed};
pub use changes_between::changed_between;
pub use event_list::{EventFilter, HappeningSet, ObjectEvent, events, events_between};
pub use fates::{Fate, ObjectFate};
pub use handle_list::{Handle, handles_at};
pub use handle_tree::{LineageStep, lineage};
pub use lines::{
    Naming, print_alive, print_branch, print_call_count, print_call_made, print_change,
    print_event, print_fate, print_handle, print_life_end, print_life_step, print_lineage_step,
    print_object, print_queued_message, print_when, print_whereabouts,
};
pub use message_list::{MessageEnd, QueuedMessage, messages};
pub use object_handles::{Leaving, ObjectHandle};
pub use object_look::{ObjectLook, object_at};
pub use path_summary::{PathSummary, summary};
pub use signaled::{kind_of_call, kinds_between};
