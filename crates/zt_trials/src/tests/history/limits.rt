//! The last moment that a history can have.

use super::branch_calls::{MAIN, answers_often, close, head_of, refusal_on};
use zt_history::History;
use zt_rows::{LAST_MOMENT, Moment, Refusal};

/// Whether the head of `main` is the last moment that there can be.
fn is_at_last(history: &History) -> bool {
    head_of(history, MAIN) == Some(Moment(LAST_MOMENT))
}

/// Whether one more call is refused as `Full`.
fn refuses_more(history: &mut History) -> bool {
    refusal_on(history, MAIN, &close(0)) == Some(Refusal::Full)
}

/// Whether every moment that there can be is made, and one more is refused.
pub(super) fn is_last_moment_reached(history: &mut History) -> bool {
    answers_often(history, &close(0), LAST_MOMENT)
        && is_at_last(history)
        && refuses_more(history)
        && is_at_last(history)
}
