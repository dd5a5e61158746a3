//! Waits on edges at an event whose signal is already set, and calls that change another event.

use crate::calls::signal;
use crate::histories::makes;
use zt_bits::Signals;
use zt_history::History;
use zt_rows::{Call, HandleValue};

/// The event that is waited on.
const WAITED_ON: HandleValue = HandleValue(7);

/// The event that the calls change.
const CHANGED: HandleValue = HandleValue(11);

const PORT: HandleValue = HandleValue(15);

/// How many calls change that event.
const CHANGES: u32 = 10_000;

/// Makes both events, sets the signal of the first, and makes the port.
fn makes_events(history: &mut History) -> bool {
    makes(history, &Ok(Call::EventCreate))
        && makes(history, &Ok(Call::EventCreate))
        && makes(history, &Ok(Call::PortCreate))
        && makes(history, &Ok(signal(WAITED_ON, 0, 0x8)))
}

/// Makes this many waits on the edge of the signal that is already set. None of them fires.
pub(crate) fn makes_edge_waits(history: &mut History, count: u32) -> bool {
    if !makes_events(history) {
        return false;
    }
    let wait = Ok(Call::ObjectWaitAsync {
        handle: WAITED_ON,
        port: PORT,
        key: 1,
        signals: Signals(0x8),
        edge: true,
    });
    for _ in 0..count {
        if !makes(history, &wait) {
            return false;
        }
    }
    true
}

/// Sets and clears the signal of the other event. Returns how many calls that took.
pub(crate) fn changes_other(history: &mut History) -> Option<u32> {
    let set = Ok(signal(CHANGED, 0, 0x8));
    let clear = Ok(signal(CHANGED, 0x8, 0));
    for _ in 0..CHANGES / 2 {
        if !makes(history, &set) || !makes(history, &clear) {
            return None;
        }
    }
    Some(CHANGES)
}
