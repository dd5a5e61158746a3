//! Trials over two histories each. One is asked while allocations fail.

use super::branches::are_calls_apart_whole;
use super::cascades::{
    are_edges_whole, are_links_whole, is_cascade_whole, is_kill_whole, is_write_whole,
};
use super::moves::are_moves_whole;
use std::alloc::Global;
use zt_history::History;

/// A trial over two histories at the opening.
#[derive(Clone, Copy)]
enum PairTrial {
    Cascade,
    Write,
    Kill,
    Links,
    Edges,
    Moves,
    Apart,
}

fn try_over(alloc: Global, tried: &mut History, other: &mut History, trial: PairTrial) -> bool {
    match trial {
        PairTrial::Cascade => is_cascade_whole(alloc, tried, other),
        PairTrial::Write => is_write_whole(alloc, tried, other),
        PairTrial::Kill => is_kill_whole(alloc, tried, other),
        PairTrial::Links => are_links_whole(alloc, tried, other),
        PairTrial::Edges => are_edges_whole(alloc, tried, other),
        PairTrial::Moves => are_moves_whole(alloc, tried, other),
        PairTrial::Apart => are_calls_apart_whole(alloc, tried, other),
    }
}

/// Whether the trial holds over this history and a new one.
fn holds_beside(alloc: Global, tried: &mut History, trial: PairTrial) -> bool {
    match History::new(alloc) {
        Ok(mut other) => try_over(alloc, tried, &mut other, trial),
        Err(_) => false,
    }
}

/// Whether the trial holds over two new histories.
fn holds(alloc: Global, trial: PairTrial) -> bool {
    match History::new(alloc) {
        Ok(mut tried) => holds_beside(alloc, &mut tried, trial),
        Err(_) => false,
    }
}

#[test]
fn refused_after_mark_no_cascade_is_half_made(rt: HostRuntime) {
    assert!(rt; holds(rt.alloc(), PairTrial::Cascade));
}

#[test]
fn refused_after_mark_a_failed_write_closes_nothing(rt: HostRuntime) {
    assert!(rt; holds(rt.alloc(), PairTrial::Write));
}

#[test]
fn refused_after_mark_each_key_is_recorded_once(rt: HostRuntime) {
    assert!(rt; holds(rt.alloc(), PairTrial::Kill));
}

#[test]
fn refused_after_mark_no_critical_link_is_half_followed(rt: HostRuntime) {
    assert!(rt; holds(rt.alloc(), PairTrial::Links));
}

#[test]
fn refused_after_mark_no_edge_is_half_met(rt: HostRuntime) {
    assert!(rt; holds(rt.alloc(), PairTrial::Edges));
}

#[test]
fn refused_after_mark_no_move_is_half_made(rt: HostRuntime) {
    assert!(rt; holds(rt.alloc(), PairTrial::Moves));
}

#[test]
fn refused_after_mark_no_moment_is_half_made(rt: HostRuntime) {
    assert!(rt; holds(rt.alloc(), PairTrial::Apart));
}
