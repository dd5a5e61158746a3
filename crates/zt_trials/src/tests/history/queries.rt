//! Questions to a history if no allocation fails, from each position, and over a long path with the third allocation
//! failing.

use super::branch_calls::{answers, answers_often, close, sends};
use super::branches::are_branches_made;
use crate::tests::commands::mark;
use std::alloc::Global;
use zt_bits::Kind;
use zt_history::History;
use zt_queries::{
    Frozen, ended, holders, holders_at, leaked_since, leaks, leaks_at, made, peer_closed, rows,
    rows_at,
};
use zt_rows::{Call, Happening, Items, Koid, Moment, Refusal, Support};

/// The moment on the path to `at` at which this happened to the object.
fn when(
    alloc: Global,
    history: &History,
    at: Moment,
    koid: Koid,
    what: Happening,
) -> Result<Option<Moment>, Refusal> {
    if at > history.last() {
        return Err(Refusal::NoMoment);
    }
    match what {
        Happening::Made => made(history, at, koid),
        Happening::Ended => ended(history, at, koid),
        Happening::PeerClosed => peer_closed(history, at, koid),
        Happening::Leaked => leaked_since(alloc, history, at, koid),
    }
}

/// Whether the object was made at this moment on the path to `at`.
fn is_made(alloc: Global, history: &History, at: u32, koid: u64, moment: u32) -> bool {
    let found = when(alloc, history, Moment(at), Koid(koid), Happening::Made);
    found == Ok(Some(Moment(moment)))
}

fn never(alloc: Global, history: &History, at: u32, koid: u64, what: Happening) -> bool {
    when(alloc, history, Moment(at), Koid(koid), what) == Ok(None)
}

fn is_unknown(alloc: Global, history: &History, at: u32, koid: u64, what: Happening) -> bool {
    when(alloc, history, Moment(at), Koid(koid), what) == Err(Refusal::NoObject)
}

/// Whether the three objects on `main` were made at the right moments.
fn tells_main(alloc: Global, history: &History) -> bool {
    is_made(alloc, history, 3, 1026, 1)
        && is_made(alloc, history, 3, 1027, 2)
        && is_made(alloc, history, 3, 1028, 3)
}

/// Whether the three objects on the other branch were made at the right moments.
fn tells_fix(alloc: Global, history: &History) -> bool {
    is_made(alloc, history, 5, 1026, 4)
        && is_made(alloc, history, 5, 1027, 5)
        && is_made(alloc, history, 5, 1028, 5)
}

/// Whether nothing happened to the object after it was made.
fn stays(alloc: Global, history: &History, at: u32, koid: u64) -> bool {
    never(alloc, history, at, koid, Happening::Ended)
        && never(alloc, history, at, koid, Happening::PeerClosed)
        && never(alloc, history, at, koid, Happening::Leaked)
}

fn all_stay(alloc: Global, history: &History, at: u32) -> bool {
    stays(alloc, history, at, 1026)
        && stays(alloc, history, at, 1027)
        && stays(alloc, history, at, 1028)
}

/// Whether there is no further object yet.
fn knows_no_more(alloc: Global, history: &History, at: u32) -> bool {
    is_unknown(alloc, history, at, 1029, Happening::Made)
        && is_unknown(alloc, history, at, 1029, Happening::Ended)
        && is_unknown(alloc, history, at, 1029, Happening::PeerClosed)
        && is_unknown(alloc, history, at, 1029, Happening::Leaked)
}

/// Whether all answers about both branches are right, wherever the history stands.
fn tells_all(alloc: Global, history: &History) -> bool {
    tells_main(alloc, history)
        && tells_fix(alloc, history)
        && all_stay(alloc, history, 3)
        && all_stay(alloc, history, 5)
        && knows_no_more(alloc, history, 3)
        && knows_no_more(alloc, history, 5)
}

fn tells_all_from(alloc: Global, history: &mut History, position: u32) -> bool {
    history.goto(Moment(position)).is_ok() && tells_all(alloc, history)
}

/// Whether the answers are the same from the opening and from the heads of both branches.
pub(super) fn do_positions_agree(alloc: Global, history: &mut History) -> bool {
    are_branches_made(history)
        && tells_all_from(alloc, history, 0)
        && tells_all_from(alloc, history, 3)
        && tells_all_from(alloc, history, 5)
}

/// Sends a channel's far end through its near end, which is then closed.
fn leaks_one(alloc: Global, history: &mut History) -> bool {
    answers(history, &Call::ChannelCreate)
        && sends(alloc, history, 7, 11)
        && answers(history, &close(7))
}

/// Whether this happened to the object at this moment.
fn turns(alloc: Global, history: &History, koid: u64, what: Happening, moment: u32) -> bool {
    when(alloc, history, Moment(3), Koid(koid), what) == Ok(Some(Moment(moment)))
}

/// Whether each event is found at its moment.
fn tells_when(alloc: Global, history: &History) -> bool {
    turns(alloc, history, 1027, Happening::Made, 1)
        && turns(alloc, history, 1027, Happening::Leaked, 2)
        && turns(alloc, history, 1027, Happening::PeerClosed, 3)
        && turns(alloc, history, 1026, Happening::Ended, 3)
}

/// Whether the holder of the far end is found, at the position and in the copy.
fn tells_holders(alloc: Global, history: &History, copy: &Frozen) -> bool {
    let wanted = [Support::Message(Koid(1027), 0, 0)];
    are(&holders_at(alloc, history, Koid(1027)), wanted.as_slice())
        && are(&holders(alloc, copy, Koid(1027)), wanted.as_slice())
}

/// Whether the leak is found, at the position and in the copy.
fn tells_leaks(alloc: Global, history: &History, copy: &Frozen) -> bool {
    let wanted = [(Koid(1027), Kind::Channel)];
    are(&leaks_at(alloc, history), wanted.as_slice()) && are(&leaks(alloc, copy), wanted.as_slice())
}

/// Whether these were found.
fn are<T: PartialEq>(found: &Result<Items<T>, Refusal>, wanted: &[T]) -> bool {
    match found {
        Ok(found) => found.as_slice() == wanted,
        Err(_) => false,
    }
}

/// Whether the position and the copy have the same rows.
fn has_same_rows(alloc: Global, history: &History, copy: &Frozen) -> bool {
    match rows_at(alloc, history) {
        Ok(wanted) => are(&rows(alloc, copy), wanted.as_slice()),
        Err(_) => false,
    }
}

/// Whether holders, leaks and rows are right at the position and in a copy of it.
fn tells_what_is_there(alloc: Global, history: &History) -> bool {
    match Frozen::copy(alloc, history) {
        Ok(copy) => {
            tells_holders(alloc, history, &copy)
                && tells_leaks(alloc, history, &copy)
                && has_same_rows(alloc, history, &copy)
        }
        Err(_) => false,
    }
}

/// Whether a leak is found, and when it happened.
pub(super) fn is_leak_told(alloc: Global, history: &mut History) -> bool {
    leaks_one(alloc, history) && tells_when(alloc, history) && tells_what_is_there(alloc, history)
}

/// Whether a path of 1,000 moments is read, with the third allocation failing.
pub(super) fn is_long_path_read(alloc: Global, history: &mut History) -> bool {
    answers_often(history, &Call::EventCreate, 1_000)
        && mark(alloc)
        && is_made(alloc, history, 1_000, 1026, 1)
}
