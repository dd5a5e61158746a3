//! The calls that an import asks of a history, and why.

use zt_bits::Kind;
use zt_rows::{HandleValue, Moment};

/// Why a call was asked of the history. Adopted handles have numbers, counted from 0.
#[derive(Clone, Copy, Debug)]
pub enum Origin {
    /// It makes the process that stands for the log's process of this number, which nothing in the log made.
    Adopted(u64),
    /// The process of this number, which nothing in the log made, needs it.
    Process(u64),
    /// It makes the object of the adopted handle of this number.
    Handle(usize),
    /// It makes two ends of the log that are joined. The adopted handle of this number names one of them.
    Pair(usize),
    /// It makes the duplicate for the adopted handle of this number, whose object has an earlier adopted handle.
    Duplicate(usize),
    /// It makes the message from outside that the call of the log with this number, counted from 0, is the first to find.
    Outside(usize),
    /// It is the call of the log with this number, counted from 0.
    Logged(usize),
}

/// A handle that the log uses and never got, and what a call makes for it.
#[derive(Clone, Copy, Debug)]
pub(crate) enum HandleOrigin {
    Object(AdoptedObject),
    /// An end with the end that is joined with it.
    Pair(AdoptedObject, JoinedEnd),
    /// A duplicate of the first handle that the log has of the same object.
    Duplicate {
        process: u64,
        handle: HandleValue,
        first_process: u64,
        first_handle: HandleValue,
    },
}

/// An object that the log uses and never got.
#[derive(Clone, Copy, Debug)]
pub(crate) struct AdoptedObject {
    /// The process of the first handle that the log has of it.
    pub(crate) process: u64,
    pub(crate) handle: HandleValue,
    pub(crate) kind: Kind,
    /// Whether a use of the handle tells the kind.
    pub(crate) is_told: bool,
    /// How many objects of this kind were made before for other handles. Each of them may really be the same object.
    pub(crate) others: u64,
}

/// The end with which an adopted end is joined, and by what.
#[derive(Clone, Copy, Debug)]
pub(crate) struct JoinedEnd {
    /// The process of the first handle that the log has of that end.
    pub(crate) process: u64,
    pub(crate) handle: HandleValue,
    /// How many messages were read at one end and written at the other, both ways; 0 if koids tell that the ends are
    /// joined.
    pub(crate) messages: usize,
    /// The lines that wrote and read the first of these messages; 0 if koids join the ends.
    pub(crate) written: u64,
    pub(crate) read: u64,
}

/// A call that was asked of the history, with the moment that it made. It has none if its process was not alive.
#[derive(Clone, Copy, Debug)]
pub struct TrailStep {
    pub origin: Origin,
    pub moment: Option<Moment>,
}

/// A call of the log, counted from 0, whose line has a reply that differs. It is the last call of its line. The moment is
/// that of the line's first call that was not ok, or else of its last. There is none if the process of that call was not
/// alive.
#[derive(Debug, Drop)]
pub struct Difference {
    pub call: usize,
    pub moment: Option<Moment>,
    /// Whether the reply differs by the schedule: a `port_wait` got another packet, or timed out on one side.
    pub by_schedule: bool,
}
