//! A history of two branches, and calls at moments of both, with each allocation failing in turn.

use super::branch_calls::{
    FIX, MAIN, answers_often, close, head_of, is_last_told, refusal_on, values_of,
};
use super::twins::make_both;
use crate::tests::commands::mark;
use std::alloc::Global;
use zt_bits::Status;
use zt_history::History;
use zt_rows::{Call, Moment};

/// Whether the other branch is made at the opening, with a port and a channel on it.
fn is_fix_made(history: &mut History) -> bool {
    history.goto(Moment(0)).is_ok()
        && history.branch(FIX, Moment(0)).is_ok()
        && refusal_on(history, FIX, &Call::PortCreate).is_none()
        && refusal_on(history, FIX, &Call::ChannelCreate).is_none()
}

/// Makes three events on `main`, and the other branch from the opening.
pub(super) fn are_branches_made(history: &mut History) -> bool {
    answers_often(history, &Call::EventCreate, 3) && is_fix_made(history)
}

/// Whether the moment's reply has these values.
fn tells(history: &History, moment: u32, first: u32, second: u64) -> bool {
    values_of(history.reply_of(Moment(moment))) == Some((first, second))
}

/// Whether the replies on `main` are right.
fn tells_main(history: &History) -> bool {
    tells(history, 1, 7, 0) && tells(history, 2, 11, 0) && tells(history, 3, 15, 0)
}

/// Whether the replies on the other branch are right.
fn tells_fix(history: &History) -> bool {
    tells(history, 4, 7, 0) && tells(history, 5, 11, 15)
}

fn has_heads(history: &History) -> bool {
    head_of(history, MAIN) == Some(Moment(3)) && head_of(history, FIX) == Some(Moment(5))
}

/// Whether both branches are made, and their replies and heads are right.
pub(super) fn are_branches_told(history: &mut History) -> bool {
    are_branches_made(history) && tells_main(history) && tells_fix(history) && has_heads(history)
}

/// Makes calls in both histories: at the head of `main`, at that of the other branch, and at the opening.
fn are_made_apart(tried: &mut History, other: &mut History) -> bool {
    make_both(tried, other, Moment(3), &close(7))
        && is_last_told(tried, 6, Status::Ok)
        && make_both(tried, other, Moment(5), &close(11))
        && is_last_told(tried, 7, Status::Ok)
        && make_both(tried, other, Moment(0), &Call::EventCreate)
        && tells(tried, 8, 7, 0)
}

/// Whether calls at moments of either branch are made whole or not at all, and move no head.
pub(super) fn are_calls_apart_whole(
    alloc: Global,
    tried: &mut History,
    other: &mut History,
) -> bool {
    are_branches_made(tried)
        && are_branches_made(other)
        && mark(alloc)
        && are_made_apart(tried, other)
        && has_heads(tried)
}
