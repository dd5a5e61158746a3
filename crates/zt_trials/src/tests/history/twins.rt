//! Two histories that were made by the same calls. If an allocation fails in one, it must be equal to the other, and answer
//! when it is asked again.

use super::branch_calls::{FIX, MAIN, answers, head_of};
use super::same::is_same;
use std::alloc::Global;
use zt_history::History;
use zt_rows::{Call, Moment, ROOT_PROCESS};

fn goes(history: &mut History, moment: Moment) -> bool {
    history.goto(moment).is_ok()
}

/// Makes the branch `fix` at the position.
fn forks(history: &mut History) -> bool {
    let at = history.position();
    history.branch(FIX, at).is_ok()
}

/// Whether a history that refused a call on `main` may stand at the moment. It may stand where it stood, as the other still
/// does, or at the head.
fn may_stand(other: &History, moment: Moment) -> bool {
    moment == other.position() || Some(moment) == head_of(other, MAIN)
}

/// Whether a history that refused a call is equal to the other, once the other goes where it stands. It may stand only
/// where `may_stand` says.
fn is_followed(tried: &History, other: &mut History) -> bool {
    let stands = tried.position();
    may_stand(other, stands) && goes(other, stands) && is_same(tried, other)
}

/// Makes a call on `main` in the history in which an allocation may fail.
fn is_answered(tried: &mut History, other: &mut History, call: &Call) -> bool {
    answers(tried, call) || (is_followed(tried, other) && answers(tried, call))
}

/// Makes a call on `main` in both. An allocation may fail in the other too; it then answers when it is asked again.
pub(super) fn call_both(tried: &mut History, other: &mut History, call: &Call) -> bool {
    is_answered(tried, other, call)
        && (answers(other, call) || answers(other, call))
        && is_same(tried, other)
}

fn is_gone(tried: &mut History, other: &History, moment: Moment) -> bool {
    goes(tried, moment) || (is_same(tried, other) && goes(tried, moment))
}

/// Goes to the moment in both.
pub(super) fn go_both(tried: &mut History, other: &mut History, moment: Moment) -> bool {
    is_gone(tried, other, moment)
        && (goes(other, moment) || goes(other, moment))
        && is_same(tried, other)
}

fn is_forked(tried: &mut History, other: &History) -> bool {
    forks(tried) || (is_same(tried, other) && forks(tried))
}

/// Makes the branch `fix` at the position in both.
pub(super) fn fork_both(tried: &mut History, other: &mut History) -> bool {
    is_forked(tried, other) && (forks(other) || forks(other)) && is_same(tried, other)
}

/// Makes a call of the first process at the moment.
fn makes(history: &mut History, at: Moment, call: &Call) -> bool {
    history.call_at(at, ROOT_PROCESS, call).is_ok()
}

/// Whether a history that refused a call at a moment is equal to the other, once the other goes where it stands. It may
/// stand there or where it stood.
fn is_followed_at(tried: &History, other: &mut History, at: Moment) -> bool {
    let stands = tried.position();
    (stands == other.position() || stands == at) && goes(other, stands) && is_same(tried, other)
}

fn is_made(tried: &mut History, other: &mut History, at: Moment, call: &Call) -> bool {
    makes(tried, at, call) || (is_followed_at(tried, other, at) && makes(tried, at, call))
}

/// Makes a call at the moment in both.
pub(super) fn make_both(tried: &mut History, other: &mut History, at: Moment, call: &Call) -> bool {
    is_made(tried, other, at, call)
        && (makes(other, at, call) || makes(other, at, call))
        && is_same(tried, other)
}
