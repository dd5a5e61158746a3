//! Asks a history questions at its last moment.

use crate::FIRST;
use std::alloc::Global;
use zt_history::History;
use zt_queries::{ended, leaked_since, leaks_at, made, peer_closed};
use zt_rows::{Happening, Koid, Moment, Refusal};

/// How many questions `questions` asks.
const QUESTIONS: u32 = 250;

/// The moment at which this happened to the object.
fn when(
    alloc: Global,
    history: &History,
    koid: Koid,
    what: Happening,
) -> Result<Option<Moment>, Refusal> {
    let at = history.last();
    match what {
        Happening::Made => made(history, at, koid),
        Happening::Ended => ended(history, at, koid),
        Happening::PeerClosed => peer_closed(history, at, koid),
        Happening::Leaked => leaked_since(alloc, history, at, koid),
    }
}

/// Asks when this happened to objects that were made all along the history. Returns how many questions it asked. Twelve
/// mixed calls give three koids.
pub(crate) fn questions(alloc: Global, history: &History, what: Happening) -> Option<u32> {
    let given_out = u64::from(history.last().0 / 4);
    for number in 0..u64::from(QUESTIONS) {
        let behind = given_out.saturating_mul(number) / u64::from(QUESTIONS);
        let koid = FIRST.saturating_add(behind);
        if when(alloc, history, Koid(koid), what).is_err() {
            return None;
        }
    }
    Some(QUESTIONS)
}

/// Asks which objects are leaked.
pub(crate) fn asks_leaks(alloc: Global, history: &History) -> bool {
    leaks_at(alloc, history).is_ok()
}
