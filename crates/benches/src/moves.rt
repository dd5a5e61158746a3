//! Moves over a history.

use zt_history::History;
use zt_rows::Moment;

/// How many moves of ten moments `turned` makes.
const TURNS: u32 = 1_000;

/// Goes to the moment. Returns whether it could.
pub(crate) fn goes(history: &mut History, moment: u32) -> bool {
    history.goto(Moment(moment)).is_ok()
}

/// Goes back to the opening and forth again. Returns how many moments it went over.
pub(crate) fn moved_over(history: &mut History, count: u32) -> Option<u32> {
    if goes(history, 0) && goes(history, count) {
        Some(count.saturating_mul(2))
    } else {
        None
    }
}

/// Makes moves of ten moments, back from the last moment and forth to it. Returns how many it made.
pub(crate) fn turned(history: &mut History, count: u32) -> Option<u32> {
    for _ in 0..TURNS / 2 {
        if !goes(history, count.saturating_sub(10)) || !goes(history, count) {
            return None;
        }
    }
    Some(TURNS)
}
