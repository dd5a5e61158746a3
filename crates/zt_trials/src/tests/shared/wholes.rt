//! Commands that are answered whole or not at all, with each allocation failing in turn.

use super::same_logs::{Told, looks_same, tells_last};
use super::twins::{Twins, refusal, twin_settled};
use crate::tests::commands::mark;
use std::alloc::Global;
use std::sync::Wait;
use zt_book::Book;
use zt_queries::{Frozen, rows};
use zt_shared::account::Naming;
use zt_shared::{Beginning, Shared};

/// A client with its line.
type ClientLine = (u8, &'static str);

/// Makes a channel, of which client 2 later closes an end.
const CHANNEL: [ClientLine; 1] = [(1, "1025 channel_create")];

/// Client 2 makes a channel and an event, and the clients then stand at different moments.
const APART: [ClientLine; 4] = [
    (2, "1025 channel_create"),
    (2, "1025 event_create"),
    (1, "branch fix"),
    (1, "goto 1"),
];

/// The lines that look at the books: where each client stands, each moment with its rows, and that there is no further
/// moment. Then what keeps an end of the first channel, and the heads of both branches. At the end both clients follow
/// `main`.
const LOOKS: [ClientLine; 18] = [
    (1, "show"),
    (2, "show"),
    (1, "holders 1026"),
    (1, "goto 0"),
    (1, "show"),
    (1, "goto 1"),
    (1, "show"),
    (1, "goto 2"),
    (1, "show"),
    (1, "goto 3"),
    (1, "show"),
    (1, "goto 4"),
    (1, "show"),
    (1, "goto 5"),
    (1, "goto 6"),
    (2, "follow fix"),
    (1, "follow main"),
    (2, "follow main"),
];

/// Client 2 closes an end of the channel.
const CLOSED: Told = (2, "1025 handle_close 11", "2 ok\n");

/// Client 2 sends a message with a handle to its event.
const SENT: Told = (2, "1025 channel_write 15 6869 23", "5 ok\n");

/// Client 2 pins the moment of the channel.
const PINNED: Told = (2, "pin", "pinned 1\n");

/// Client 2 pins the moment of its event.
const PINNED_APART: Told = (2, "pin", "pinned 3\n");

// No clause tells what these functions return. So a proof of their callers does not go over the bytes.

fn channel() -> &'static [ClientLine] {
    CHANNEL.as_slice()
}

fn apart() -> &'static [ClientLine] {
    APART.as_slice()
}

fn looks() -> &'static [ClientLine] {
    LOOKS.as_slice()
}

fn closed() -> Told {
    CLOSED
}

fn sent() -> Told {
    SENT
}

fn pinned_first() -> Told {
    PINNED
}

fn pinned_apart() -> Told {
    PINNED_APART
}

fn asks_all<A: Naming + Beginning, B: Naming, C: Naming, D: Naming, R: Wait>(
    rt: &R,
    alloc: Global,
    shared: &Shared<A, B, C, D>,
    twins: &mut Twins<A, B, C, D>,
    lines: &[ClientLine],
) -> bool {
    for (client, line) in lines {
        if !twins.asks_both(rt, alloc, shared, *client, line) {
            return false;
        }
    }
    true
}

/// Whether the books are equal in all that is looked at.
fn is_twin<A: Naming + Beginning, B: Naming, C: Naming, D: Naming, R: Wait>(
    rt: &R,
    alloc: Global,
    shared: &Shared<A, B, C, D>,
    twins: &mut Twins<A, B, C, D>,
) -> bool {
    twins.have_same_rows(alloc)
        && asks_all(rt, alloc, shared, twins, looks())
        && twins.have_same_rows(alloc)
}

/// Whether the shared book answers client 2's line.
fn is_answered<A: Naming + Beginning, B: Naming, C: Naming, D: Naming, R: Wait>(
    rt: &R,
    alloc: Global,
    shared: &Shared<A, B, C, D>,
    twins: &mut Twins<A, B, C, D>,
    line: &str,
) -> bool {
    refusal(rt, alloc, shared, &mut twins.two, line).is_none()
}

/// Whether the line is answered. If it is refused first, nothing may show that.
fn is_answered_whole<A: Naming + Beginning, B: Naming, C: Naming, D: Naming, R: Wait>(
    rt: &R,
    alloc: Global,
    shared: &Shared<A, B, C, D>,
    twins: &mut Twins<A, B, C, D>,
    line: &str,
) -> bool {
    is_answered(rt, alloc, shared, twins, line)
        || (is_twin(rt, alloc, shared, twins) && is_answered(rt, alloc, shared, twins, line))
}

/// Whether client 2's command is answered whole or not at all, and with this answer.
fn is_told_whole<A: Naming + Beginning, B: Naming, C: Naming, D: Naming, R: Wait>(
    rt: &R,
    alloc: Global,
    shared: &Shared<A, B, C, D>,
    twins: &mut Twins<A, B, C, D>,
    told: Told,
) -> bool {
    let (client, line, _) = told;
    mark(alloc)
        && is_answered_whole(rt, alloc, shared, twins, line)
        && twin_settled(alloc, &mut twins.twin, client, line).is_none()
        && tells_last(alloc, twins.twin.log(), told)
        && is_twin(rt, alloc, shared, twins)
}

/// Whether two commands of client 2 are answered whole or not at all. The first closes an end of client 1's channel. The
/// second sends a message while the clients stand apart.
pub(super) fn is_ask_whole<A: Naming + Beginning, B: Naming, C: Naming, D: Naming, R: Wait>(
    rt: &R,
    alloc: Global,
    shared: &Shared<A, B, C, D>,
    twins: &mut Twins<A, B, C, D>,
) -> bool {
    asks_all(rt, alloc, shared, twins, channel())
        && is_told_whole(rt, alloc, shared, twins, closed())
        && asks_all(rt, alloc, shared, twins, apart())
        && is_told_whole(rt, alloc, shared, twins, sent())
}

/// The copy that client 2 pins. If the pin is refused first, nothing may show that.
fn pinned<A: Naming + Beginning, B: Naming, C: Naming, D: Naming, R: Wait>(
    rt: &R,
    alloc: Global,
    shared: &Shared<A, B, C, D>,
    twins: &mut Twins<A, B, C, D>,
) -> Option<Frozen> {
    match shared.pin(rt, &mut twins.two) {
        Ok((_, copy)) => Some(copy),
        Err(_) => pinned_again(rt, alloc, shared, twins),
    }
}

/// The copy that client 2 pins after a refusal that nothing may show.
fn pinned_again<A: Naming + Beginning, B: Naming, C: Naming, D: Naming, R: Wait>(
    rt: &R,
    alloc: Global,
    shared: &Shared<A, B, C, D>,
    twins: &mut Twins<A, B, C, D>,
) -> Option<Frozen> {
    if !is_twin(rt, alloc, shared, twins) {
        return None;
    }
    match shared.pin(rt, &mut twins.two) {
        Ok((_, copy)) => Some(copy),
        Err(_) => None,
    }
}

/// Whether both copies are of the same moment, with the same calls and rows. It can be no if an allocation fails.
fn looks_same_copy(alloc: Global, first: &Frozen, second: &Frozen) -> bool {
    first.moment() == second.moment()
        && looks_same(alloc, &first.calls(), &second.calls())
        && looks_same(alloc, &rows(alloc, first).ok(), &rows(alloc, second).ok())
}

fn is_same_copy(alloc: Global, first: &Frozen, second: &Frozen) -> bool {
    looks_same_copy(alloc, first, second) || looks_same_copy(alloc, first, second)
}

/// Whether the twin pins the same copy for client 2.
fn twin_pins(alloc: Global, twin: &mut Book, copy: &Frozen) -> bool {
    match twin_pinned(twin) {
        Some(pinned) => is_same_copy(alloc, copy, &pinned),
        None => false,
    }
}

/// The copy that the twin pins for client 2.
fn twin_pinned(twin: &mut Book) -> Option<Frozen> {
    if twin.clients() != 2 {
        return None;
    }
    match twin.pin(2) {
        Ok((_, copy)) => Some(copy),
        Err(_) => match twin.pin(2) {
            Ok((_, copy)) => Some(copy),
            Err(_) => None,
        },
    }
}

/// Whether two pins of client 2 are answered whole or not at all: one of a channel, and one while the clients stand apart.
pub(super) fn is_pin_whole<A: Naming + Beginning, B: Naming, C: Naming, D: Naming, R: Wait>(
    rt: &R,
    alloc: Global,
    shared: &Shared<A, B, C, D>,
    twins: &mut Twins<A, B, C, D>,
) -> bool {
    asks_all(rt, alloc, shared, twins, channel())
        && is_pinned_whole(rt, alloc, shared, twins, pinned_first())
        && asks_all(rt, alloc, shared, twins, apart())
        && is_pinned_whole(rt, alloc, shared, twins, pinned_apart())
}

/// Whether client 2's pin is answered whole or not at all, and with this answer.
fn is_pinned_whole<A: Naming + Beginning, B: Naming, C: Naming, D: Naming, R: Wait>(
    rt: &R,
    alloc: Global,
    shared: &Shared<A, B, C, D>,
    twins: &mut Twins<A, B, C, D>,
    told: Told,
) -> bool {
    mark(alloc)
        && pins_same(rt, alloc, shared, twins)
        && tells_last(alloc, twins.twin.log(), told)
        && is_twin(rt, alloc, shared, twins)
}

/// Whether both books pin the same copy for client 2.
fn pins_same<A: Naming + Beginning, B: Naming, C: Naming, D: Naming, R: Wait>(
    rt: &R,
    alloc: Global,
    shared: &Shared<A, B, C, D>,
    twins: &mut Twins<A, B, C, D>,
) -> bool {
    match pinned(rt, alloc, shared, twins) {
        Some(copy) => twin_pins(alloc, &mut twins.twin, &copy),
        None => false,
    }
}
