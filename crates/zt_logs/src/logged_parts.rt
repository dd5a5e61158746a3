//! Appends the calls of a line to those of the lines before it.

ghost use Rattle.std.specs.Prelude.{◌≡◌, ◌++◌, ◌∷◌, [], OnOk, IfOk, length};
ghost use Rattle.std.specs.Option.{option_to_list};
ghost use Rattle.zt_logs.specs.LineCalls.{alone};
ghost use Rattle.zt_logs.specs.Logged.{IsPart, part_status};
ghost use Rattle.zt_logs.specs.ProofsOnly.ReadLines.{AddsAhead, AddsParts, calls_in};

use crate::faults::Cause;
use crate::koids::HandleKoid;
use crate::line_calls::{LineCalls, PartCall};
use crate::line_parts::{LineForm, LinePart};
use crate::logged::{LoggedCall, RecordedReply};
use crate::members::push_handle;
use crate::recorded_packet::RecordedPacket;
use crate::times::CallTimes;
use std::alloc::{AllocError, Global};
use zt_bits::Status;
use zt_rows::{Call, HandleValue, Items};

/// The facts that all calls of a line share.
#[derive(Clone, Copy)]
pub(crate) struct LineHead {
    pub(crate) line: u64,
    pub(crate) process: u64,
    pub(crate) form: LineForm,
    /// How many calls the line has.
    pub(crate) count: usize,
    pub(crate) times: CallTimes,
}

impl LineHead {
    /// The call of the line that has `ahead` calls of it ahead.
    #[inline(always)]
    fn call(
        self,
        ahead: usize,
        part: PartCall,
        recorded: RecordedReply,
        koids: Vec<HandleKoid>,
    ) -> LoggedCall
        ensures part { IsPart self.line self.count ahead part result }
        ensures recorded { result.recorded ≡ recorded }
    {
        let PartCall {
            gives,
            given: _,
            call,
        } = part;
        LoggedCall {
            line: self.line,
            process: self.process,
            times: self.times,
            koids,
            call,
            part: LinePart {
                form: self.form,
                ahead,
                count: self.count,
                gives,
                is_apart: false,
            },
            recorded,
        }
    }
}

/// Appends the call of a line that is one call.
#[inline(always)]
pub(crate) fn push_one(
    calls: &mut Vec<LoggedCall>,
    head: LineHead,
    call: Call,
    recorded: RecordedReply,
    koids: Vec<HandleKoid>,
) -> Result<(), Cause>
    requires { head.count ≡ 1 }
    ensures { OnOk result (AddsParts head.line (alone call ∷ []) recorded calls.old.items calls.new.items) }
{
    let part = PartCall {
        gives: None,
        given: None,
        call,
    };
    push_logged(calls, head.call(0, part, recorded, koids))?;
    Ok(())
}

/// Appends the calls of a line. The last has the reply and the koids of the line. Those ahead of it have the status that
/// follows from that reply.
#[tactic(auto, using(crate::proofs::LineCallLaws::parts_added, crate::proofs::LineCallLaws::none_added))]
pub(crate) fn push_parts(
    alloc: Global,
    calls: &mut Vec<LoggedCall>,
    head: LineHead,
    parts: LineCalls,
    recorded: RecordedReply,
    koids: Vec<HandleKoid>,
) -> Result<(), Cause>
    requires { head.count ≡ length (calls_in parts.ahead.items parts.last) }
    ensures { OnOk result (AddsParts head.line (calls_in parts.ahead.items parts.last) recorded calls.old.items calls.new.items) }
{
    let LineCalls { ahead, last } = parts;
    let Some(last) = last else {
        return Ok(());
    };
    let status = part_status(recorded.status);
    push_ahead(alloc, calls, head, ahead.as_slice(), status)?;
    push_logged(calls, head.call(ahead.len(), last, recorded, koids))
}

/// Appends the calls ahead of the last.
fn push_ahead(
    alloc: Global,
    calls: &mut Vec<LoggedCall>,
    head: LineHead,
    parts: &[PartCall],
    status: Option<Status>,
) -> Result<(), Cause>
    ensures { OnOk result (AddsAhead head.line head.count status parts.now calls.old.items calls.new.items) }
{
    for ahead in 0..parts.len() {
        let part = copy_of(&parts[ahead])?;
        let recorded = ahead_answer(alloc, status, part.given)?;
        push_logged(calls, head.call(ahead, part, recorded, Vec::new(alloc)))?;
    }
    Ok(())
}

/// A copy of a call of a line.
fn copy_of(part: &PartCall) -> Result<PartCall, AllocError>
    ensures { IfOk result (λ copy. copy ≡ part.now) }
{
    let call = part.call.copy()?;
    Ok(PartCall {
        gives: part.gives,
        given: part.given,
        call,
    })
}

/// The status of the calls ahead of the last, if the line has this status. They were ok if the last found its peer closed,
/// or had too little room for an answer.
fn part_status(status: Option<Status>) -> Option<Status>
    ensures { result ≡ part_status status }
{
    match status {
        Some(Status::PeerClosed | Status::BufferTooSmall) => Some(Status::Ok),
        _ => status,
    }
}

/// The reply of a call ahead of the last of its line: this status, and the handle that it gave.
fn ahead_answer(
    alloc: Global,
    status: Option<Status>,
    given: Option<HandleValue>,
) -> Result<RecordedReply, Cause>
    ensures status { IfOk result (λ recorded. recorded.status ≡ status) }
    ensures handles { IfOk result (λ recorded. recorded.handles ≡ option_to_list given) }
{
    let handles = given_handles(alloc, given)?;
    Ok(RecordedReply {
        status,
        handles: Items::new(handles),
        bytes: None,
        packet: RecordedPacket::none(),
        process: None,
    })
}

/// The list of the handle that was given; empty if none was.
fn given_handles(alloc: Global, given: Option<HandleValue>) -> Result<Vec<HandleValue>, Cause>
    ensures { IfOk result (λ handles. handles.items ≡ option_to_list given) }
{
    let mut handles = Vec::new(alloc);
    match given {
        Some(handle) => {
            push_handle(&mut handles, handle)?;
            Ok(handles)
        }
        None => Ok(handles),
    }
}

/// Appends a call. A push that can fail would copy the call once more.
#[inline(always)]
fn push_logged(calls: &mut Vec<LoggedCall>, logged: LoggedCall) -> Result<(), Cause>
    ensures { OnOk result (calls.new.items ≡ calls.old.items ++ logged ∷ []) }
{
    match calls.reserve(1) {
        Ok(()) => {
            calls.push_reserved(logged);
            Ok(())
        }
        Err(_) => Err(Cause::OutOfMemory),
    }
}
