//! The summary of three calls: an event is made, a handle is not there, and the event ends.

use super::three_calls;
use std::alloc::Global;
use zt_bits::Status;
use zt_look::{CallCount, Fate, ObjectFate, summary};
use zt_rows::{Koid, Moment, ROOT_PROCESS};

/// Whether two calls were ok and one had a bad handle.
fn are_counted(calls: &[CallCount]) -> bool {
    match calls {
        [well, missed] => {
            let first = well.process == ROOT_PROCESS
                && well.status == Status::Ok
                && well.count == 2;
            first && missed.status == Status::BadHandle && missed.count == 1
        }
        _ => false,
    }
}

/// Whether the root job and the root process are alive since the opening, and the event is dead since the third call.
fn are_told(objects: &[ObjectFate]) -> bool {
    match objects {
        [job, process, event] => {
            let both = is_alive(job) && is_alive(process);
            both && event.koid == Koid(1026) && is_dead(event.fate) && event.since == Moment(3)
        }
        _ => false,
    }
}

fn is_alive(object: &ObjectFate) -> bool {
    matches!(object.fate, Fate::Alive) && object.since == Moment(0)
}

fn is_dead(fate: Fate) -> bool {
    matches!(fate, Fate::Dead)
}

/// Whether the summary of the three calls is right.
fn is_summed(alloc: Global) -> bool {
    match three_calls(alloc) {
        Some(mut history) => match summary(alloc, &mut history, Moment(3)) {
            Ok(short) => are_counted(short.calls.as_slice()) && are_told(short.objects.as_slice()),
            Err(_) => false,
        },
        None => false,
    }
}

#[test]
fn three_calls_in_short(rt: HostRuntime) {
    assert!(rt; is_summed(rt.alloc()));
}
