//! Workloads over a history. Each returns a time in nanoseconds.
//!
//! - `calls` makes COUNT mixed calls: the time of one call.
//! - `moves` makes COUNT mixed calls, then goes back to the opening and forth again: the time of one moment.
//! - `turns` makes COUNT mixed calls, then 1,000 moves of ten moments at their end: the time of one move.
//! - `made`, `ended`, `peer_closed` and `leaked` make COUNT mixed calls, then ask when that happened to each of 250
//!   objects: the time of one question. The questions are asked once untimed, and then again and again. The objects are so
//!   few that what is looked at stays in the caches, however long the history is.
//! - `leaks` asks what is leaked among COUNT objects: the time of one object.
//! - `edges` changes an event 10,000 times. On another event, whose signal is set, there are COUNT waits on edges: the time
//!   of one call.
//! - `critical` kills the process that is critical to the job above all others. COUNT processes end with their jobs. Then
//!   it goes back over the kill: the time of one process.
//! - `own_job` makes COUNT processes under the caller's own job, with an event after each. Then it goes back to the opening
//!   and forth again: the time of one process.
//! - `fired_back` goes back over calls that fired COUNT waits, and forth again: the time of one wait.

use crate::critical_jobs::{kills_critical, makes_critical};
use crate::edge_waits::{changes_other, makes_edge_waits};
use crate::fired_waits::{fires_waits, makes_waits};
use crate::histories::{makes_leaks, makes_mixed};
use crate::moves::{goes, moved_over, turned};
use crate::own_job::makes_siblings;
use crate::questions::{asks_leaks, questions};
use std::alloc::Global;
use std::rt::Clock;
use std::time::Instant;
use zt_history::History;
use zt_rows::Happening;

/// The time in nanoseconds of a workload. None if there is no such workload, or if a call or a question is refused.
pub(crate) fn time_of(rt: &impl Clock, alloc: Global, workload: &str, count: u32) -> Option<u128> {
    match History::new(alloc) {
        Ok(mut history) => time_over(rt, alloc, &mut history, workload, count),
        Err(_) => None,
    }
}

/// The time of a workload over this history, which is at the opening.
fn time_over(
    rt: &impl Clock,
    alloc: Global,
    history: &mut History,
    workload: &str,
    count: u32,
) -> Option<u128> {
    match workload {
        "calls" => time_of_calls(rt, alloc, history, count),
        "leaks" => time_of_leaks(rt, alloc, history, count),
        "edges" => time_beside_edges(rt, history, count),
        "critical" => time_of_ending(rt, history, count),
        "own_job" => time_of_siblings(rt, history, count),
        "fired_back" => time_of_fired(rt, history, count),
        _ => time_behind_calls(rt, alloc, history, workload, count),
    }
}

/// The nanoseconds of one of this many steps since `start`.
fn time_since(rt: &impl Clock, start: Instant, steps: u32) -> Option<u128> {
    match start.elapsed(rt) {
        Ok(time) => Some(time.as_nanos() / u128::from(steps.max(1))),
        Err(_) => None,
    }
}

/// The time of one mixed call, of this many.
fn time_of_calls(
    rt: &impl Clock,
    alloc: Global,
    history: &mut History,
    count: u32,
) -> Option<u128> {
    let start = Instant::now(rt).ok()?;
    if !makes_mixed(alloc, history, count) {
        return None;
    }
    time_since(rt, start, count)
}

/// The time for one object of a question about what is leaked among this many.
fn time_of_leaks(
    rt: &impl Clock,
    alloc: Global,
    history: &mut History,
    count: u32,
) -> Option<u128> {
    if !makes_leaks(alloc, history, count / 2) {
        return None;
    }
    let start = Instant::now(rt).ok()?;
    if !asks_leaks(alloc, history) {
        return None;
    }
    time_since(rt, start, count)
}

/// The time of one call that changes an event, beside another with this many waits.
fn time_beside_edges(rt: &impl Clock, history: &mut History, count: u32) -> Option<u128> {
    if !makes_edge_waits(history, count) {
        return None;
    }
    let start = Instant::now(rt).ok()?;
    let changes = changes_other(history)?;
    time_since(rt, start, changes)
}

/// The time in which one of this many processes ends and is there again.
fn time_of_ending(rt: &impl Clock, history: &mut History, count: u32) -> Option<u128> {
    if !makes_critical(history, count) {
        return None;
    }
    let before = history.last().0;
    let start = Instant::now(rt).ok()?;
    if !kills_critical(history, count) || !goes(history, before) {
        return None;
    }
    time_since(rt, start, count)
}

/// The time in which one of this many processes under the caller's own job is made, gone and there again.
fn time_of_siblings(rt: &impl Clock, history: &mut History, count: u32) -> Option<u128> {
    let start = Instant::now(rt).ok()?;
    if !makes_siblings(history, count) {
        return None;
    }
    let after = history.last().0;
    if !goes(history, 0) || !goes(history, after) {
        return None;
    }
    time_since(rt, start, count)
}

/// The time in which one of this many waits that fired is there again and fires again, by moves.
fn time_of_fired(rt: &impl Clock, history: &mut History, count: u32) -> Option<u128> {
    if !makes_waits(history, count / 2) {
        return None;
    }
    let before = history.last().0;
    if !fires_waits(history, count / 2) {
        return None;
    }
    let after = history.last().0;
    let start = Instant::now(rt).ok()?;
    if !goes(history, before) || !goes(history, after) {
        return None;
    }
    time_since(rt, start, count)
}

/// The time of one step of a workload that begins with this many mixed calls.
fn time_behind_calls(
    rt: &impl Clock,
    alloc: Global,
    history: &mut History,
    workload: &str,
    count: u32,
) -> Option<u128> {
    if !makes_mixed(alloc, history, count) {
        return None;
    }
    match happening(workload) {
        Some(what) => time_of_questions(rt, alloc, history, what),
        None => time_of_moves(rt, history, workload, count),
    }
}

/// How often each question is asked.
const ROUNDS: u32 = 64;

/// The time of one question that was asked before.
fn time_of_questions(
    rt: &impl Clock,
    alloc: Global,
    history: &History,
    what: Happening,
) -> Option<u128> {
    questions(alloc, history, what)?;
    let start = Instant::now(rt).ok()?;
    let mut asked: u32 = 0;
    for _ in 0..ROUNDS {
        asked = asked.saturating_add(questions(alloc, history, what)?);
    }
    time_since(rt, start, asked)
}

/// The time of one moment of a move, or of one move.
fn time_of_moves(
    rt: &impl Clock,
    history: &mut History,
    workload: &str,
    count: u32,
) -> Option<u128> {
    let start = Instant::now(rt).ok()?;
    let steps = match workload {
        "moves" => moved_over(history, count)?,
        "turns" => turned(history, count)?,
        _ => return None,
    };
    time_since(rt, start, steps)
}

/// The happening that a workload asks about.
fn happening(word: &str) -> Option<Happening> {
    match word {
        "made" => Some(Happening::Made),
        "ended" => Some(Happening::Ended),
        "peer_closed" => Some(Happening::PeerClosed),
        "leaked" => Some(Happening::Leaked),
        _ => None,
    }
}
