//! Finds why a line without a parse error was refused.

use crate::fields::{field, last_place};
use zt_rows::Refusal;

/// Why a line without a parse error was refused.
#[derive(Clone, Copy)]
pub enum Reason {
    NoProcess,
    NoMoment,
    /// A `pinned` line, before any `pin`.
    NothingPinned,
    NoBranch,
    /// In a saved tree: the first branch is not `main`.
    NotMain,
    /// In a saved tree: a cursor comes before any branch.
    NoBranches,
    NameTaken,
    BadName,
    NoObject,
    AtStart,
    Detached,
    Full,
    ClientFull,
    LineTooLong,
    OutOfMemory,
}

impl Reason {
    /// Returns the reason in words. Some reasons need the wrong field after these words.
    pub fn text(self) -> &'static str {
        match self {
            Reason::NoProcess => "no live process at this moment has koid ",
            Reason::NoMoment => "there is no moment ",
            Reason::NothingPinned => "nothing is pinned yet; use `pin` first",
            Reason::NoBranch => "there is no branch ",
            Reason::NotMain => "the first branch must be main",
            Reason::NoBranches => "a branch line must come first",
            Reason::NameTaken => "there is already a branch ",
            Reason::BadName => {
                "a branch name has 1 to 32 of a to z, 0 to 9, _ and -, and begins with a letter"
            }
            Reason::NoObject => "there is no object ",
            Reason::AtStart => "fewer moments come before this one than ",
            Reason::Detached =>
                "calls need a branch; make one here with `branch`, or go to one with `follow`",
            _ => self.text_of_limit(),
        }
    }

    /// Returns the reason in words, if it is a limit that was reached.
    fn text_of_limit(self) -> &'static str {
        match self {
            Reason::Full => "the history is full; it has at most 1048576 moments",
            Reason::ClientFull => "this client has reached its limit of 4096 commands",
            Reason::LineTooLong => "the line has more than 140000 bytes",
            _ => "allocation failed",
        }
    }

    /// Whether the wrong field comes after the words of the reason.
    pub fn names_field(self) -> bool {
        matches!(
            self,
            Reason::NoProcess
                | Reason::NoMoment
                | Reason::NoBranch
                | Reason::NameTaken
                | Reason::NoObject
                | Reason::AtStart
        )
    }
}

/// Returns the place, counted from 0, of the wrong field of a refused line, and why it is wrong. Returns `None` for a refusal
/// that no line gets.
pub fn reason_of(line: &[u8], refusal: Refusal) -> Option<(usize, Reason)> {
    match refusal {
        Refusal::NoProcess => Some((0, Reason::NoProcess)),
        Refusal::NoMoment if field(line, 0) == b"pinned".as_slice() => {
            Some((0, Reason::NothingPinned))
        }
        Refusal::NoMoment => Some((1, Reason::NoMoment)),
        Refusal::NoBranch => Some((1, Reason::NoBranch)),
        Refusal::NoObject => Some((last_place(line), Reason::NoObject)),
        Refusal::AtStart => Some((1, Reason::AtStart)),
        Refusal::Detached => Some((0, Reason::Detached)),
        _ => reason_in_any_line(refusal),
    }
}

/// Returns the place and the reason for a line of a session text of version 2.
pub fn tree_reason_of(line: &[u8], refusal: Refusal) -> Option<(usize, Reason)> {
    let word = field(line, 0);
    match refusal {
        Refusal::NoProcess => Some((2, Reason::NoProcess)),
        Refusal::NoMoment if word == b"call".as_slice() => Some((1, Reason::NoMoment)),
        Refusal::NoMoment => Some((last_place(line), Reason::NoMoment)),
        Refusal::NoBranch if word == b"branch".as_slice() => Some((1, Reason::NotMain)),
        Refusal::NoBranch if field(line, 2) == b"follow".as_slice() => Some((3, Reason::NoBranch)),
        Refusal::NoBranch => Some((0, Reason::NoBranches)),
        _ => reason_in_any_line(refusal),
    }
}

/// Returns the place and the reason for a refusal that concerns the same field in every kind of line.
fn reason_in_any_line(refusal: Refusal) -> Option<(usize, Reason)> {
    match refusal {
        Refusal::NameTaken => Some((1, Reason::NameTaken)),
        Refusal::BadName => Some((1, Reason::BadName)),
        Refusal::Full => Some((0, Reason::Full)),
        Refusal::ClientFull => Some((0, Reason::ClientFull)),
        Refusal::LineTooLong => Some((0, Reason::LineTooLong)),
        Refusal::OutOfMemory => Some((0, Reason::OutOfMemory)),
        _ => None,
    }
}
