//! Moves over a history with each allocation failing in turn, and over a long one with the third failing.

use super::branch_calls::{answers_often, close, is_last_told, sends};
use super::twins::{call_both, fork_both, go_both};
use crate::tests::commands::mark;
use std::alloc::Global;
use zt_bits::Status;
use zt_history::History;
use zt_rows::{Call, Moment};

/// Sends the far end of each of 64 channels but the last through the next: 63 calls.
fn sends_each(alloc: Global, history: &mut History) -> bool {
    for i in 1..64_u32 {
        if !sends(alloc, history, 8 * i + 7, 8 * i + 3) {
            return false;
        }
    }
    true
}

/// Makes 64 channels, each of which but the last lies in the queue of the next: 127 moments.
fn nests(alloc: Global, history: &mut History) -> bool {
    answers_often(history, &Call::ChannelCreate, 64) && sends_each(alloc, history)
}

/// Makes the close that ends all of them, a branch, and the moves to the opening and back, in both histories.
fn asks_both(tried: &mut History, other: &mut History) -> bool {
    call_both(tried, other, &close(515))
        && is_last_told(tried, 128, Status::Ok)
        && fork_both(tried, other)
        && go_both(tried, other, Moment(0))
        && go_both(tried, other, Moment(128))
}

/// Whether each of these is made whole or not at all.
pub(super) fn are_moves_whole(alloc: Global, tried: &mut History, other: &mut History) -> bool {
    nests(alloc, tried) && nests(alloc, other) && mark(alloc) && asks_both(tried, other)
}

/// Whether the history goes to the moment at the first try.
fn goes_at_once(alloc: Global, history: &mut History, moment: u32) -> bool {
    mark(alloc) && history.goto(Moment(moment)).is_ok() && history.position() == Moment(moment)
}

/// Whether the history goes over 1,000 moments and back, with the third allocation of each move failing.
pub(super) fn is_long_move_made(alloc: Global, history: &mut History) -> bool {
    answers_often(history, &Call::EventCreate, 1_000)
        && goes_at_once(alloc, history, 0)
        && goes_at_once(alloc, history, 1_000)
}
