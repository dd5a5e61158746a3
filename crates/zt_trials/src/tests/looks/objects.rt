//! Looks at an event that is made, and closed in the third call.

use super::three_calls;
use std::alloc::Global;
use zt_history::History;
use zt_look::{ObjectLook, object_at};
use zt_rows::{Koid, Moment};

/// Whether the event is there with one holder and no message, packet or wait, made at the first moment.
fn is_there(look: &ObjectLook) -> bool {
    let holders = look.holders.len();
    let waiting = look.messages.len() == 0 && look.packets.len() == 0 && look.waits.len() == 0;
    look.row.is_some() && holders == 1 && waiting && look.made == Some(Moment(1))
}

/// Whether the event is gone since the third moment, and nothing holds it.
fn is_gone(look: &ObjectLook) -> bool {
    look.row.is_none() && look.holders.len() == 0 && look.ended == Some(Moment(3))
}

/// Whether this is what is known of the event at the position.
fn is_told(alloc: Global, history: &History, gone: bool) -> bool {
    match object_at(alloc, history, Koid(1026)) {
        Ok(look) => {
            if gone {
                is_gone(&look)
            } else {
                is_there(&look)
            }
        }
        Err(_) => false,
    }
}

/// Whether the event is known before and after it is closed.
fn are_both_told(alloc: Global) -> bool {
    match three_calls(alloc) {
        Some(mut history) => {
            let closed = is_told(alloc, &history, true);
            history.goto(Moment(2)).is_ok() && closed && is_told(alloc, &history, false)
        }
        None => false,
    }
}

#[test]
fn an_event_is_made_and_closed(rt: HostRuntime) {
    assert!(rt; are_both_told(rt.alloc()));
}
