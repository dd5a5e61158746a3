//! The debugger's model of a kernel: rows of objects, handles, messages, packets and waits under their keys. The crate
//! also has calls, replies, commands, refusals and saved trees.
#![tactic(auto)]

mod calls;
mod items;
mod keys;
pub mod laws;
mod limits;
mod numbers;
mod refusals;
mod rows;
mod saved;
mod supports;

pub use calls::{Answer, Call, Command, Event, Happening, Parcel, Reply};
pub use items::Items;
pub use keys::RowKey;
pub use limits::{
    CLIENT_ROWS, CLIENTS, FIRST_HANDLE, LAST_MOMENT, MESSAGE_BYTES, MESSAGE_HANDLES, ROOT_JOB,
    ROOT_PROCESS,
};
pub use numbers::{HandleValue, Koid, Moment};
pub use refusals::Refusal;
pub use rows::{Counters, Held, Life, Message, ObjectRow, Packet, Row, Wait};
pub use saved::{Cursor, Saved, SavedBranch, SavedCall};
pub use supports::Support;
