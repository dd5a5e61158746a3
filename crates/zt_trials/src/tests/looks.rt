//! Questions to a history of a few calls, if no allocation fails.

mod branch_list;
mod lines;
mod message_list;
mod objects;
mod summaries;

use std::alloc::Global;
use zt_bits::Kind;
use zt_history::History;
use zt_look::{
    CallFilter, CallMade, Change, Handle, HappeningSet, ObjectEvent, calls, changed, events,
    handles_at,
};
use zt_rows::{Call, HandleValue, Happening, Koid, Moment, Parcel, ROOT_JOB, ROOT_PROCESS, RowKey};

/// The history in which the first process makes an event.
fn one_event(alloc: Global) -> Option<History> {
    let Ok(mut history) = History::new(alloc) else {
        return None;
    };
    match history.find(b"main") {
        Some(main) => match history.call(main, ROOT_PROCESS, &Call::EventCreate) {
            Ok(_) => Some(history),
            Err(_) => None,
        },
        None => None,
    }
}

/// Whether these are the rows of an event that is made: the counters, the process, the event, and its handle.
fn are_of_an_event(list: &[Change]) -> bool {
    match list {
        [counters, process, event, entry] => {
            counters.key == RowKey::Counters
                && process.key == RowKey::Object(ROOT_PROCESS)
                && event.key == RowKey::Object(Koid(1026))
                && event.before.is_none()
                && event.after.is_some()
                && entry.key == RowKey::Entry(ROOT_PROCESS, HandleValue(7))
        }
        _ => false,
    }
}

/// Whether these are the handles of the root job and of the event.
fn are_both(list: &[Handle]) -> bool {
    match list {
        [job, event] => {
            job.koid == ROOT_JOB && event.koid == Koid(1026) && event.value == HandleValue(7)
        }
        _ => false,
    }
}

/// Whether the right rows changed in the call, and the process has two handles after it.
fn is_told(alloc: Global) -> bool {
    match one_event(alloc) {
        Some(mut history) => match changed(alloc, &mut history, Moment(1)) {
            Ok(list) => match handles_at(alloc, &history, ROOT_PROCESS) {
                Ok(handles) => are_of_an_event(list.as_slice()) && are_both(handles.as_slice()),
                Err(_) => false,
            },
            Err(_) => false,
        },
        None => false,
    }
}

#[test]
fn an_event_is_made(rt: HostRuntime) {
    assert!(rt; is_told(rt.alloc()));
}

/// The call that closes a handle.
fn closing(handle: u32) -> Call {
    Call::HandleClose {
        handle: HandleValue(handle),
    }
}

/// Whether the first process makes this call on `main`.
fn is_called(history: &mut History, call: &Call) -> bool {
    match history.find(b"main") {
        Some(main) => history.call(main, ROOT_PROCESS, call).is_ok(),
        None => false,
    }
}

/// The history in which the first process makes an event, fails to close another handle, and closes the event's.
fn three_calls(alloc: Global) -> Option<History> {
    match one_event(alloc) {
        Some(mut history) => {
            if is_called(&mut history, &closing(11)) && is_called(&mut history, &closing(7)) {
                Some(history)
            } else {
                None
            }
        }
        None => None,
    }
}

/// Which of the three calls are asked for.
#[derive(Clone, Copy)]
enum AskedCalls {
    All,
    Failed,
    About,
}

/// The filter for the calls that are asked for, up to the third moment.
fn filter_of(question: AskedCalls) -> CallFilter {
    let (failed, object) = match question {
        AskedCalls::All => (false, None),
        AskedCalls::Failed => (true, None),
        AskedCalls::About => (false, Some(Koid(1026))),
    };
    CallFilter {
        first: Moment(1),
        last: Moment(3),
        failed,
        process: None,
        object,
    }
}

/// Whether these are the calls that are asked for: all three, the second, or the first and the last.
fn are_those(question: AskedCalls, told: &[CallMade]) -> bool {
    match question {
        AskedCalls::All => told.len() == 3,
        AskedCalls::Failed => match told {
            [missed] => missed.moment == Moment(2),
            _ => false,
        },
        AskedCalls::About => match told {
            [made, closed] => made.moment == Moment(1) && closed.moment == Moment(3),
            _ => false,
        },
    }
}

/// Whether the calls that are asked for are found.
fn are_told(alloc: Global, question: AskedCalls) -> bool {
    match three_calls(alloc) {
        Some(mut history) => {
            match calls(alloc, &mut history, Moment(3), &filter_of(question)) {
                Ok(told) => are_those(question, told.as_slice()),
                Err(_) => false,
            }
        }
        None => false,
    }
}

#[test]
fn all_calls_are_told(rt: HostRuntime) {
    assert!(rt; are_told(rt.alloc(), AskedCalls::All));
}

#[test]
fn calls_that_failed_are_told(rt: HostRuntime) {
    assert!(rt; are_told(rt.alloc(), AskedCalls::Failed));
}

#[test]
fn calls_about_an_object_are_told(rt: HostRuntime) {
    assert!(rt; are_told(rt.alloc(), AskedCalls::About));
}

/// The call that sends the far end of the first channel through the near end, so that the far end waits at itself.
fn sending_itself(alloc: Global) -> Option<Call> {
    let mut handles = Vec::new(alloc);
    match handles.push(HandleValue(11)) {
        Ok(()) => match Parcel::new(Vec::new(alloc), handles) {
            Some(parcel) => Some(Call::ChannelWrite {
                handle: HandleValue(7),
                parcel,
            }),
            None => None,
        },
        Err(_) => None,
    }
}

/// Whether the first process makes a channel, sends its far end to itself, and closes the near end.
fn is_cycle_made(alloc: Global, history: &mut History) -> bool {
    match sending_itself(alloc) {
        Some(call) => {
            is_called(history, &Call::ChannelCreate)
                && is_called(history, &call)
                && is_called(history, &closing(7))
        }
        None => false,
    }
}

/// The place of the happening in the list of happenings.
fn number_of(what: Happening) -> u8 {
    match what {
        Happening::Made => 0,
        Happening::Ended => 1,
        Happening::PeerClosed => 2,
        Happening::Leaked => 3,
    }
}

/// Whether this happened to this end of the channel at the moment.
fn is_at(event: &ObjectEvent, moment: u32, koid: u64, number: u8) -> bool {
    event.moment == Moment(moment)
        && event.koid == Koid(koid)
        && number_of(event.what) == number
        && event.kind == Kind::Channel
}

/// Whether these are all events of the cycle.
fn are_all_events(list: &[ObjectEvent]) -> bool {
    match list {
        [first, second, leaked, ended, closed] => {
            is_at(first, 1, 1026, 0)
                && is_at(second, 1, 1027, 0)
                && is_at(leaked, 2, 1027, 3)
                && is_at(ended, 3, 1026, 1)
                && is_at(closed, 3, 1027, 2)
        }
        _ => false,
    }
}

/// Whether these are all events of the cycle but the leak.
fn are_shown_events(list: &[ObjectEvent]) -> bool {
    match list {
        [first, second, ended, closed] => {
            is_at(first, 1, 1026, 0)
                && is_at(second, 1, 1027, 0)
                && is_at(ended, 3, 1026, 1)
                && is_at(closed, 3, 1027, 2)
        }
        _ => false,
    }
}

/// Whether the events of the cycle are found, with the leak or without it.
fn are_events_told(alloc: Global, history: &mut History, leaked: bool) -> bool {
    let asked = HappeningSet {
        made: true,
        ended: true,
        peer_closed: true,
        leaked,
    };
    match events(alloc, history, Moment(3), &asked) {
        Ok(list) => {
            if leaked {
                are_all_events(list.as_slice())
            } else {
                are_shown_events(list.as_slice())
            }
        }
        Err(_) => false,
    }
}

/// Whether the events of the cycle are found in a new history.
fn is_cycle_told(alloc: Global, leaked: bool) -> bool {
    match History::new(alloc) {
        Ok(mut history) => {
            is_cycle_made(alloc, &mut history) && are_events_told(alloc, &mut history, leaked)
        }
        Err(_) => false,
    }
}

#[test]
fn events_are_told(rt: HostRuntime) {
    assert!(rt; is_cycle_told(rt.alloc(), true));
}

#[test]
fn events_without_leaks_are_told(rt: HostRuntime) {
    assert!(rt; is_cycle_told(rt.alloc(), false));
}
