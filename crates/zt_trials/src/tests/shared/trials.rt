//! Trials over a shared book of two clients each.

ghost use Rattle.std.specs.Prelude.{◌≡◌};
ghost use Rattle.zt_shared.specs.OpenedBook.{IsNamed};

use super::opened_books::{Opened, at_opening, over_loaded};
use super::same_logs::{Told, is_same_log, tells};
use super::saved::tells_the_same_loaded;
use super::threads::{asks_on_threads, replays};
use super::twins::{Twins, closed, closed_book};
use super::wholes::{is_ask_whole, is_pin_whole};
use std::alloc::Global;
use std::marker::Brand;
use std::sync::Wait;
use std::thread::Threads;
use zt_book::{Book, Log};
use zt_rows::Refusal;
use zt_shared::account::Naming;
use zt_shared::{Beginning, Blanks, OpenedBook, Shared};

/// One client closes an end of a channel. The other writes to it, and asks who closed its peer.
const CLOSED_END: [Told; 4] = [
    (1, "1025 channel_create", "1 ok 7 11\n"),
    (2, "1025 handle_close 11", "2 ok\n"),
    (1, "1025 channel_write 7 - -", "3 peer_closed\n"),
    (1, "when peer_closed 1026", "2 1025 handle_close 11\n"),
];

/// The rows of a loaded book, in which an event was made and closed.
const LOADED: [Told; 1] = [(
    1,
    "show",
    "rows 2 4\ncounters 1027 0\nobject 1024 job 0x00000010 0 live 0\nobject 1025 process 0x00000000 1024 live 2\nentry 1025 3 1024 0x0003d203\n",
)];

/// A trial over a shared book.
#[derive(Clone, Copy)]
enum SharedTrial {
    ClosedEnd,
    Loaded,
    Saved,
    Threads,
    Ask,
    Pin,
}

/// The lines with their answers, if a trial has some.
fn told_in(trial: SharedTrial) -> &'static [Told] {
    match trial {
        SharedTrial::ClosedEnd | SharedTrial::Saved => CLOSED_END.as_slice(),
        SharedTrial::Loaded => LOADED.as_slice(),
        _ => &[],
    }
}

/// Whether both books answer each of the lines.
fn asks_each<A: Naming + Beginning, B: Naming, C: Naming, D: Naming, R: Wait>(
    rt: &R,
    alloc: Global,
    shared: &Shared<A, B, C, D>,
    twins: &mut Twins<A, B, C, D>,
    told: &[Told],
) -> bool {
    for (client, line, _) in told {
        if !twins.asks_both(rt, alloc, shared, *client, line) {
            return false;
        }
    }
    twins.have_same_rows(alloc)
}

fn try_over<
    A: Naming + Beginning + Send + Sync,
    B: Naming + Send + Sync,
    C: Naming + Send + Sync,
    D: Naming + Send + Sync,
    R: Threads + Wait + Sync,
>(
    rt: &R,
    alloc: Global,
    shared: &Shared<A, B, C, D>,
    twins: &mut Twins<A, B, C, D>,
    trial: SharedTrial,
) -> bool {
    match trial {
        SharedTrial::ClosedEnd | SharedTrial::Loaded | SharedTrial::Saved => asks_each(
            rt,
            alloc,
            shared,
            twins,
            told_in(trial),
        ),
        SharedTrial::Threads => asks_on_threads(rt, shared, twins),
        SharedTrial::Ask => is_ask_whole(rt, alloc, shared, twins),
        SharedTrial::Pin => is_pin_whole(rt, alloc, shared, twins),
    }
}

/// Whether the log has what the trial wants.
fn is_told(alloc: Global, log: &Log, twin: &mut Book, trial: SharedTrial) -> bool {
    match trial {
        SharedTrial::ClosedEnd | SharedTrial::Loaded | SharedTrial::Saved => {
            tells(alloc, log, told_in(trial))
        }
        SharedTrial::Threads => replays(twin, log),
        SharedTrial::Ask | SharedTrial::Pin => true,
    }
}

/// Whether the log that closing gives has what the trial wants, and is the twin's.
fn closes_to_a_log<A: Naming + Beginning, B: Naming, C: Naming, D: Naming>(
    alloc: Global,
    opened: OpenedBook<A, B, C, D>,
    twins: Twins<A, B, C, D>,
    trial: SharedTrial,
) -> bool
    requires { A.clients ≡ 2 }
{
    let Twins { one, two, mut twin } = twins;
    match closed(alloc, opened, one, two) {
        Some(log) => {
            is_told(alloc, &log, &mut twin, trial) && is_same_log(alloc, &log, twin.log())
        }
        None => false,
    }
}

/// Whether the book that closing gives has such a log, and can be saved and loaded again.
fn closes_to_a_book<A: Naming + Beginning, B: Naming, C: Naming, D: Naming>(
    alloc: Global,
    opened: OpenedBook<A, B, C, D>,
    twins: Twins<A, B, C, D>,
    trial: SharedTrial,
) -> bool
    requires { A.clients ≡ 2 }
{
    let Twins { one, two, mut twin } = twins;
    match closed_book(alloc, opened, one, two) {
        Some(mut book) => {
            is_told(alloc, book.log(), &mut twin, trial)
                && is_same_log(alloc, book.log(), twin.log())
                && tells_the_same_loaded(alloc, &mut book)
        }
        None => false,
    }
}

/// Whether closing gives what the trial wants.
fn closes<A: Naming + Beginning, B: Naming, C: Naming, D: Naming>(
    alloc: Global,
    opened: OpenedBook<A, B, C, D>,
    twins: Twins<A, B, C, D>,
    trial: SharedTrial,
) -> bool
    requires { A.clients ≡ 2 }
{
    match trial {
        SharedTrial::Saved => closes_to_a_book(alloc, opened, twins, trial),
        _ => closes_to_a_log(alloc, opened, twins, trial),
    }
}

fn opened<A: Naming + Beginning, B: Naming, C: Naming, D: Naming>(
    alloc: Global,
    blanks: Blanks,
    trial: SharedTrial,
) -> Option<Opened<A, B, C, D>>
    requires base { (blanks.base ≡ A.base) × (blanks.clients ≡ A.clients) }
    requires first { IsNamed A.name A.parts A.cells blanks.first }
    requires second { IsNamed B.name B.parts B.cells blanks.second }
    requires third { IsNamed C.name C.parts C.cells blanks.third }
    requires fourth { IsNamed D.name D.parts D.cells blanks.fourth }
    requires two { blanks.clients ≡ 2 }
{
    match trial {
        SharedTrial::Loaded => over_loaded(alloc, blanks),
        _ => at_opening(alloc, blanks),
    }
}

fn holds_over<
    A: Naming + Beginning + Send + Sync,
    B: Naming + Send + Sync,
    C: Naming + Send + Sync,
    D: Naming + Send + Sync,
    R: Threads + Wait + Sync,
>(rt: &R, alloc: Global, blanks: Blanks, trial: SharedTrial) -> bool
    requires base { (blanks.base ≡ A.base) × (blanks.clients ≡ A.clients) }
    requires first { IsNamed A.name A.parts A.cells blanks.first }
    requires second { IsNamed B.name B.parts B.cells blanks.second }
    requires third { IsNamed C.name C.parts C.cells blanks.third }
    requires fourth { IsNamed D.name D.parts D.cells blanks.fourth }
    requires two { blanks.clients ≡ 2 }
{
    match opened::<A, B, C, D>(alloc, blanks, trial) {
        Some((whole, mut twins)) => {
            try_over(rt, alloc, whole.shared(), &mut twins, trial)
                && closes(alloc, whole, twins, trial)
        }
        None => false,
    }
}

/// Whether the trial holds over a new shared book of two clients.
fn holds<R: Threads + Wait + Sync>(rt: &R, alloc: Global, trial: SharedTrial) -> bool {
    match Blanks::new(alloc, 2) {
        Ok(blanks) => holds_over::<Brand, Brand, Brand, Brand, R>(rt, alloc, blanks, trial),
        Err(_) => false,
    }
}

#[test]
fn two_clients_share_one_log(rt: HostRuntime) {
    assert!(rt; holds(&rt, rt.alloc(), SharedTrial::ClosedEnd));
}

#[test]
fn a_loaded_book_goes_on(rt: HostRuntime) {
    assert!(rt; holds(&rt, rt.alloc(), SharedTrial::Loaded));
}

#[test]
fn a_closed_book_is_saved_and_loaded(rt: HostRuntime) {
    assert!(rt; holds(&rt, rt.alloc(), SharedTrial::Saved));
}

#[test]
fn threads_share_one_log(rt: HostRuntime) {
    assert!(rt; holds(&rt, rt.alloc(), SharedTrial::Threads));
}

#[test]
fn refused_after_mark_no_command_is_half_answered(rt: HostRuntime) {
    assert!(rt; holds(&rt, rt.alloc(), SharedTrial::Ask));
}

#[test]
fn refused_after_mark_no_pin_is_half_made(rt: HostRuntime) {
    assert!(rt; holds(&rt, rt.alloc(), SharedTrial::Pin));
}

#[test]
fn five_clients_are_too_many(rt: HostRuntime) {
    assert!(rt; Blanks::new(rt.alloc(), 5).err() == Some(Refusal::TooManyClients));
}
