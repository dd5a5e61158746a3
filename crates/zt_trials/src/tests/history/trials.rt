//! Trials over one history each.

use super::branches::are_branches_told;
use super::limits::is_last_moment_reached;
use super::moves::is_long_move_made;
use super::queries::{do_positions_agree, is_leak_told, is_long_path_read};
use std::alloc::Global;
use zt_history::History;

/// A trial over a history at the opening.
#[derive(Clone, Copy)]
enum HistoryTrial {
    Branches,
    Limits,
    LongMove,
    LongPath,
    Positions,
    Leak,
}

fn try_over(alloc: Global, history: &mut History, trial: HistoryTrial) -> bool {
    match trial {
        HistoryTrial::Branches => are_branches_told(history),
        HistoryTrial::Limits => is_last_moment_reached(history),
        HistoryTrial::LongMove => is_long_move_made(alloc, history),
        HistoryTrial::LongPath => is_long_path_read(alloc, history),
        HistoryTrial::Positions => do_positions_agree(alloc, history),
        HistoryTrial::Leak => is_leak_told(alloc, history),
    }
}

/// Whether the trial holds over a new history.
fn holds(alloc: Global, trial: HistoryTrial) -> bool {
    match History::new(alloc) {
        Ok(mut history) => try_over(alloc, &mut history, trial),
        Err(_) => false,
    }
}

#[test]
fn both_branches_are_told(rt: HostRuntime) {
    assert!(rt; holds(rt.alloc(), HistoryTrial::Branches));
}

#[test]
fn the_last_moment_is_reached(rt: HostRuntime) {
    assert!(rt; holds(rt.alloc(), HistoryTrial::Limits));
}

#[test]
fn third_refused_a_long_move_is_made(rt: HostRuntime) {
    assert!(rt; holds(rt.alloc(), HistoryTrial::LongMove));
}

#[test]
fn third_refused_a_long_path_is_read(rt: HostRuntime) {
    assert!(rt; holds(rt.alloc(), HistoryTrial::LongPath));
}

#[test]
fn each_position_tells_the_same(rt: HostRuntime) {
    assert!(rt; holds(rt.alloc(), HistoryTrial::Positions));
}

#[test]
fn a_leak_is_told(rt: HostRuntime) {
    assert!(rt; holds(rt.alloc(), HistoryTrial::Leak));
}
