//! Calls that change much, with each allocation failing in turn.

use super::branch_calls::{
    answers, answers_often, close, is_last_told, kill, make_job, send, sends, set_critical, signal,
    spawn, wait, wait_for,
};
use super::same::keys_of;
use super::twins::call_both;
use crate::tests::commands::mark;
use std::alloc::Global;
use zt_bits::Status;
use zt_history::History;
use zt_rows::{Call, Koid, Moment, ROOT_JOB, RowKey};

/// Makes three channels, and puts the far end of each but the last into the queue of the next.
fn nests_three(alloc: Global, history: &mut History) -> bool {
    answers_often(history, &Call::ChannelCreate, 3)
        && sends(alloc, history, 15, 11)
        && sends(alloc, history, 23, 19)
}

/// Whether the close that ends all three channels is made whole or not at all.
pub(super) fn is_cascade_whole(alloc: Global, tried: &mut History, other: &mut History) -> bool {
    nests_three(alloc, tried)
        && nests_three(alloc, other)
        && mark(alloc)
        && call_both(tried, other, &close(27))
        && is_last_told(tried, 6, Status::Ok)
}

/// Makes a channel whose far end is closed, and an event.
fn loses_peer(history: &mut History) -> bool {
    answers(history, &Call::ChannelCreate)
        && answers(history, &Call::EventCreate)
        && answers(history, &close(11))
}

/// Whether a write that fails, and closes the event's handle, is made whole or not at all.
pub(super) fn is_write_whole(alloc: Global, tried: &mut History, other: &mut History) -> bool {
    match send(alloc, 7, 15) {
        Ok(write) => {
            loses_peer(tried)
                && loses_peer(other)
                && mark(alloc)
                && call_both(tried, other, &write)
                && is_last_told(tried, 4, Status::PeerClosed)
        }
        Err(_) => false,
    }
}

/// Makes a job, a wait for its end, and forty processes under it.
fn spawns_forty(history: &mut History) -> bool {
    answers(history, &make_job(3))
        && answers(history, &Call::PortCreate)
        && answers(history, &wait(7, 11, 5))
        && answers_often(history, &spawn(7), 40)
}

/// The `place`-th key that a kill changes. First come the root job and the objects that calls made, `objects` in all. Then
/// come the packet of a wait for the port, and the wait.
fn killed_key(place: u64, objects: u64, port: Koid) -> RowKey {
    if place == 0 {
        RowKey::Object(ROOT_JOB)
    } else if place < objects {
        RowKey::Object(Koid(place.saturating_add(1025)))
    } else if place == objects {
        RowKey::Packet(port, 0)
    } else {
        RowKey::Wait(0)
    }
}

/// Whether these are the keys that a kill changes, each once.
fn are_killed(keys: &[RowKey], objects: u64, port: Koid) -> bool {
    let mut place: u64 = 0;
    for key in keys {
        if *key != killed_key(place, objects, port) {
            return false;
        }
        place = place.saturating_add(1);
    }
    place == objects.saturating_add(2)
}

/// Whether the kill is made whole or not at all, and its record has each key once.
pub(super) fn is_kill_whole(alloc: Global, tried: &mut History, other: &mut History) -> bool {
    spawns_forty(tried)
        && spawns_forty(other)
        && mark(alloc)
        && call_both(tried, other, &kill(7))
        && is_last_told(tried, 44, Status::Ok)
        && are_killed(keys_of(tried, Moment(44)), 43, Koid(1027))
}

/// Makes three jobs, each under the last. Under the lowest job it makes two processes, and the first of them critical to
/// that job.
fn makes_lowest(history: &mut History) -> bool {
    answers(history, &make_job(3))
        && answers(history, &make_job(7))
        && answers(history, &make_job(11))
        && answers_often(history, &spawn(15), 2)
        && answers(history, &set_critical(15, 19))
}

/// Makes the second process critical to the middle job, and a process under each of the two higher jobs.
fn makes_higher(history: &mut History) -> bool {
    answers(history, &set_critical(11, 23))
        && answers(history, &spawn(11))
        && answers(history, &spawn(7))
}

/// Makes a wait for the end of the highest process.
fn waits_for_highest(history: &mut History) -> bool {
    answers(history, &Call::PortCreate) && answers(history, &wait(31, 35, 5))
}

fn makes_links(history: &mut History) -> bool {
    makes_lowest(history) && makes_higher(history) && waits_for_highest(history)
}

/// Whether a third link, and then the kill that goes through all three links, are made whole or not at all. The record of
/// the kill has each key once.
pub(super) fn are_links_whole(alloc: Global, tried: &mut History, other: &mut History) -> bool {
    makes_links(tried)
        && makes_links(other)
        && mark(alloc)
        && call_both(tried, other, &set_critical(7, 27))
        && is_last_told(tried, 12, Status::Ok)
        && call_both(tried, other, &kill(19))
        && is_last_told(tried, 13, Status::Ok)
        && are_killed(keys_of(tried, Moment(13)), 9, Koid(1033))
}

const EVENT: Koid = Koid(1026);

const PORT: Koid = Koid(1027);

/// The keys that change when one signal rises, and another that stands is cleared and set. They are the event, the port,
/// and three waits with their packets.
const FIRED: [RowKey; 8] = [
    RowKey::Object(EVENT),
    RowKey::Object(PORT),
    RowKey::Packet(PORT, 0),
    RowKey::Packet(PORT, 1),
    RowKey::Packet(PORT, 2),
    RowKey::Wait(0),
    RowKey::Wait(2),
    RowKey::Wait(3),
];

/// The keys that change when the other signal falls.
const FELL: [RowKey; 1] = [RowKey::Object(EVENT)];

/// The keys that change when the other signal rises again: the event, the port, and the wait that is left with its packet.
const FIRED_LATER: [RowKey; 4] = [
    RowKey::Object(EVENT),
    RowKey::Object(PORT),
    RowKey::Packet(PORT, 3),
    RowKey::Wait(1),
];

/// Makes an event with a signal that stands, and a port.
fn makes_signalled(history: &mut History) -> bool {
    answers(history, &Call::EventCreate)
        && answers(history, &Call::PortCreate)
        && answers(history, &signal(7, 0, 0x8))
}

/// Makes four waits on the event. The first two are on edges: one of the signal that stands or another, one of the signal
/// that stands alone. The last two are for the other signal.
fn makes_waits(history: &mut History) -> bool {
    answers(history, &wait_for(7, 11, 1, 0x100_0008, true))
        && answers(history, &wait_for(7, 11, 2, 0x8, true))
        && answers(history, &wait_for(7, 11, 3, 0x100_0000, false))
        && answers(history, &wait_for(7, 11, 4, 0x100_0000, false))
}

fn waits_on_edges(history: &mut History) -> bool {
    makes_signalled(history) && makes_waits(history)
}

/// Whether a call is made whole or not at all and is ok, and its record has these keys.
fn is_signal_whole(
    tried: &mut History,
    other: &mut History,
    call: &Call,
    moment: u32,
    keys: &[RowKey],
) -> bool {
    call_both(tried, other, call)
        && is_last_told(tried, moment, Status::Ok)
        && keys_of(tried, Moment(moment)) == keys
}

/// Whether two calls are made whole or not at all. In the first, one wait on an edge and two others fire. In the second,
/// the other wait on an edge fires.
pub(super) fn are_edges_whole(alloc: Global, tried: &mut History, other: &mut History) -> bool {
    waits_on_edges(tried)
        && waits_on_edges(other)
        && mark(alloc)
        && is_signal_whole(
            tried,
            other,
            &signal(7, 0x8, 0x100_0008),
            8,
            FIRED.as_slice(),
        )
        && is_signal_whole(tried, other, &signal(7, 0x8, 0), 9, FELL.as_slice())
        && is_signal_whole(tried, other, &signal(7, 0, 0x8), 10, FIRED_LATER.as_slice())
}
