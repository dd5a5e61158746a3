//! The questions whose answers are shown with notes and names, and what the fields of their lines are.

use zt_rows::Koid;

/// A question, by the form of the lines that answer it.
#[derive(Clone, Copy)]
pub enum Shape {
    Calls,
    /// The answer of `changed`, with one moment or two.
    Changes,
    Events,
    Object,
    /// The handles of this process.
    Handles(Koid),
    Messages,
    Branches,
    Summary,
    Alive,
    /// The answer of `handle`.
    Life,
    Lineage,
}

/// What a field of a line is, or each element of a field that lists some.
#[derive(Clone, Copy)]
pub enum Field {
    /// Nothing with a name.
    Plain,
    /// The moment of the call that the line shows.
    Moment,
    /// The koid of an object.
    Object,
    /// The koid of a process. The handle values behind it are those of this process.
    Process,
    /// A handle value.
    Handle,
    /// The koid of an object with the rights of a handle, `1028:0x0000d003`.
    Held,
    /// The koid of a job behind a word, `critical:1026`.
    Critical,
    /// The name of a call. It tells what the arguments and the values of the reply are.
    Call,
    /// The status of a reply. The values of the call follow `ok`.
    Status,
    /// The first word of a row, or of a line about an object. It tells what follows.
    Row,
    /// Whether a message's line has its content or one of its calls.
    Message,
    /// Whether a line of `summary` counts calls or tells of an object.
    Count,
    /// A word of a step in the life of a handle; `entry` and `message` begin a place.
    Step,
    /// Behind a place and its rights: `from`, with another place behind it, or the caller.
    Origin,
    /// A word of the tree of handles; `entry` and `message` begin a place.
    Place,
}
