//! Waits that send to one port. Half of them are on one event, and one signal fires them together. The other half are on an
//! event each, and fire one after another.

use crate::calls::{signal, wait};
use crate::histories::{does, makes};
use zt_history::History;
use zt_rows::{Call, HandleValue};

/// The first process's handle to the event that many waits are on.
const SHARED: HandleValue = HandleValue(11);

/// The first process's handle to the event of this number, from 0, that one wait is on.
fn own(number: u32) -> HandleValue {
    HandleValue(number.saturating_mul(4).saturating_add(15))
}

/// Makes this many waits on the shared event.
fn makes_shared(history: &mut History, count: u32) -> bool {
    for _ in 0..count {
        if !does(history, wait(SHARED)) {
            return false;
        }
    }
    true
}

/// Makes this many events, with a wait on each.
fn makes_own(history: &mut History, count: u32) -> bool {
    for number in 0..count {
        if !makes(history, &Ok(Call::EventCreate)) || !does(history, wait(own(number))) {
            return false;
        }
    }
    true
}

/// Fires the waits on this many events, one after another.
fn fires_own(history: &mut History, count: u32) -> bool {
    for number in 0..count {
        if !does(history, signal(own(number), 0, 0x8)) {
            return false;
        }
    }
    true
}

/// Makes this many waits on one event, and as many on an event each.
pub(crate) fn makes_waits(history: &mut History, count: u32) -> bool {
    makes(history, &Ok(Call::PortCreate))
        && makes(history, &Ok(Call::EventCreate))
        && makes_shared(history, count)
        && makes_own(history, count)
}

/// Fires all waits: those on the shared event by one signal, and then each other wait by its own.
pub(crate) fn fires_waits(history: &mut History, count: u32) -> bool {
    does(history, signal(SHARED, 0, 0x8)) && fires_own(history, count)
}
