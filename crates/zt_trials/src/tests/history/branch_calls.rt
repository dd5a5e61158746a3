//! Calls of the first process on branches that are named, and short forms of calls.

ghost use Rattle.std.specs.Prelude.{◌<◌, length, IfSome};

use std::alloc::{AllocError, Global};
use zt_bits::{Signals, Status};
use zt_history::{BranchId, History};
use zt_rows::{Call, HandleValue, Moment, Parcel, ROOT_PROCESS, Refusal, Reply};

pub(super) const MAIN: &[u8] = b"main";

pub(super) const FIX: &[u8] = b"fix";

/// The branch of this name.
fn branch_of(history: &History, name: &[u8]) -> Option<BranchId>
    ensures { IfSome result (λ id. id < length history.now.tree.branches) }
{
    history.find(name)
}

/// Why a call at the head of the branch of this name is refused, if it is.
pub(super) fn refusal_on(history: &mut History, name: &[u8], call: &Call) -> Option<Refusal> {
    match branch_of(history, name) {
        Some(id) => history.call(id, ROOT_PROCESS, call).err(),
        None => Some(Refusal::NoBranch),
    }
}

/// Whether the call on `main` is answered.
pub(super) fn answers(history: &mut History, call: &Call) -> bool {
    refusal_on(history, MAIN, call).is_none()
}

/// Whether the call on `main` is answered this many times.
pub(super) fn answers_often(history: &mut History, call: &Call, times: u32) -> bool {
    for _ in 0..times {
        if !answers(history, call) {
            return false;
        }
    }
    true
}

/// Whether a message on `main` that sends one handle is answered.
pub(super) fn sends(alloc: Global, history: &mut History, through: u32, sent: u32) -> bool {
    match send(alloc, through, sent) {
        Ok(call) => answers(history, &call),
        Err(_) => false,
    }
}

/// The head of the branch of this name.
pub(super) fn head_of(history: &History, name: &[u8]) -> Option<Moment> {
    match branch_of(history, name) {
        Some(id) => Some(history.head(id)),
        None => None,
    }
}

/// The first handle of a reply, and its second handle or its koid; 0 if it has no second value.
pub(super) fn values_of(reply: Option<&Reply>) -> Option<(u32, u64)> {
    match reply {
        Some(Reply::Handle(handle)) => Some((handle.0, 0)),
        Some(Reply::Handles(first, second)) => Some((first.0, u64::from(second.0))),
        Some(Reply::Spawned(handle, koid)) => Some((handle.0, koid.0)),
        _ => None,
    }
}

/// Whether this is the last moment, and its call was answered with this status alone.
pub(super) fn is_last_told(history: &History, moment: u32, told: Status) -> bool {
    let last = Moment(moment);
    match history.reply_of(last) {
        Some(Reply::Status(status)) => history.last() == last && *status == told,
        _ => false,
    }
}

pub(super) fn close(handle: u32) -> Call {
    Call::HandleClose {
        handle: HandleValue(handle),
    }
}

/// A message that sends one handle and no bytes.
pub(super) fn send(alloc: Global, through: u32, sent: u32) -> Result<Call, AllocError> {
    let mut handles = Vec::new(alloc);
    handles.push(HandleValue(sent))?;
    let parcel = Parcel::new(Vec::new(alloc), handles).ok_or(AllocError)?;
    Ok(Call::ChannelWrite {
        handle: HandleValue(through),
        parcel,
    })
}

/// A wait for the signal that a task has ended.
pub(super) fn wait(handle: u32, port: u32, key: u64) -> Call {
    wait_for(handle, port, key, 0x8, false)
}

/// A wait for any of these signals, or for the edge of one.
pub(super) fn wait_for(handle: u32, port: u32, key: u64, signals: u32, edge: bool) -> Call {
    Call::ObjectWaitAsync {
        handle: HandleValue(handle),
        port: HandleValue(port),
        key,
        signals: Signals(signals),
        edge,
    }
}

pub(super) fn signal(handle: u32, clear: u32, set: u32) -> Call {
    Call::ObjectSignal {
        handle: HandleValue(handle),
        clear: Signals(clear),
        set: Signals(set),
    }
}

/// A job under the job of this handle. Handle 3 names the root job.
pub(super) fn make_job(job: u32) -> Call {
    Call::JobCreate {
        job: HandleValue(job),
    }
}

pub(super) fn spawn(job: u32) -> Call {
    Call::Spawn {
        job: HandleValue(job),
        argument: HandleValue(0),
    }
}

pub(super) fn set_critical(job: u32, process: u32) -> Call {
    Call::JobSetCritical {
        job: HandleValue(job),
        process: HandleValue(process),
    }
}

pub(super) fn kill(task: u32) -> Call {
    Call::TaskKill {
        handle: HandleValue(task),
    }
}
