//! Supports: what keeps an object.

use crate::numbers::{HandleValue, Koid};

/// A support of an object: something that keeps it. An object without supports is destroyed.
#[derive(Clone, Copy, Debug, PartialEq, Eq)]
pub enum Support {
    /// An entry of a process's handle table.
    Entry(Koid, HandleValue),
    /// A handle in a message: the endpoint, the message's number, and the handle's place in the message, from 0.
    Message(Koid, u64, u64),
    /// A live process or job, which supports the live job that is its parent.
    Child(Koid),
    /// The object itself: a live process supports itself, and so does the root job.
    Itself,
}
