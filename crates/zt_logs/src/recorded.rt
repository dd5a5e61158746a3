//! Reads what a line says that its call answered.

ghost use Rattle.std.specs.Prelude.{◌≡◌, ◌∷◌, [], IfOk};
ghost use Rattle.zt_logs.specs.Members.{field};
ghost use Rattle.zt_logs.specs.ProofsOnly.Tokens.{data_at};
ghost use Rattle.zt_logs.specs.declared.places.Member.TheVariants as member;
ghost use Rattle.zt_logs.specs.Answered.{IsOnlyGiven, AreBothGiven, AreGivenBy, IsAnswered, first_word, other_word, first_name_of, other_name_of, status_of, status_in, answered_status};
ghost use Rattle.zt_logs.specs.ProofsOnly.Walks.{IsWalked};

use crate::call_names::{CallName, is};
use crate::faults::{Cause, WantedValue};
use crate::line_members::LineMembers;
use crate::logged::{LoggedPacket, RecordedReply};
use crate::members::{Members, push_handle};
use crate::places::{LineObject, Member};
use crate::process_names::{NamedPlace, Naming};
use crate::recorded_packet::RecordedPacket;
use std::alloc::Global;
use zt_bits::Status;
use zt_rows::{HandleValue, Items};

/// The reply of a line. `call` is the place of the line's last call in the log's calls. The error is `Missing`, `Member` or
/// `OutOfMemory`.
#[inline(always)]
pub(crate) fn recorded_of(
    alloc: Global,
    name: CallName,
    line: &LineMembers<'_, '_>,
    naming: &mut Naming,
    call: usize,
) -> Result<RecordedReply, Cause>
    requires { IsWalked line.now }
    ensures { IfOk result (λ recorded. IsAnswered name (data_at line.now.whole.value) recorded.status recorded.handles) }
{
    let status = answered_status(name, status_in(line)?);
    let out = line.out()?;
    let Some(Status::Ok) = status else {
        return Ok(RecordedReply {
            status,
            handles: Items::new(Vec::new(alloc)),
            process: None,
            bytes: None,
            packet: RecordedPacket::none(),
        });
    };
    let packet = match name {
        CallName::PortWait => recorded_packet(alloc, out)?,
        _ => RecordedPacket::none(),
    };
    let process = match name {
        CallName::Spawn | CallName::ProcessCreate | CallName::ProcessStart => {
            made_process(out, naming, call)?
        }
        _ => None,
    };
    let handles = given_handles(alloc, name, out)?;
    let bytes = match name {
        CallName::ChannelRead | CallName::ChannelReadEtc => {
            out.bytes_if_any(alloc, Member::Bytes)?
        }
        CallName::ChannelCall | CallName::ChannelCallEtc => {
            out.bytes_if_any(alloc, Member::ReadBytes)?
        }
        _ => None,
    };
    Ok(RecordedReply {
        status,
        handles: Items::new(handles),
        process,
        bytes,
        packet,
    })
}

/// The number of the process that a call made, if the line tells it.
fn made_process(
    out: &Members<'_, '_>,
    naming: &mut Naming,
    call: usize,
) -> Result<Option<u64>, Cause> {
    match out.process_if_any(Member::Process)? {
        Some(process) => Ok(Some(naming.number(NamedPlace::Made(call), process)?)),
        None => Ok(None),
    }
}

/// The handles that a call of this name gave: from a list, or each by a name of its own.
fn given_handles(
    alloc: Global,
    name: CallName,
    out: &Members<'_, '_>,
) -> Result<Vec<HandleValue>, Cause>
    ensures { IfOk result (λ handles. AreGivenBy (field member.Handles (data_at out.now.value)) name (data_at out.now.value) handles.items) }
{
    match name {
        CallName::ChannelReadEtc => return out.read_handles(alloc, Member::Handles),
        CallName::ChannelCallEtc => return out.read_handles(alloc, Member::ReadHandles),
        CallName::ChannelCall => return out.handles(alloc, Member::ReadHandles),
        CallName::ProcessCreate => return named_handle(alloc, out, Member::ProcessHandle),
        _ => {}
    }
    if out.has(Member::Handles) {
        return out.handles(alloc, Member::Handles);
    }
    match name {
        CallName::EventCreate
        | CallName::PortCreate
        | CallName::HandleDuplicate
        | CallName::HandleReplace
        | CallName::JobCreate => only_handle(alloc, out),
        CallName::EventPairCreate | CallName::ChannelCreate => both_handles(alloc, out),
        CallName::Made(kind) if kind.has_ends() => both_handles(alloc, out),
        CallName::Made(_) => only_handle(alloc, out),
        CallName::HandleClose
        | CallName::HandleCloseMany
        | CallName::ChannelWriteEtc
        | CallName::ChannelReadEtc
        | CallName::ChannelCall
        | CallName::ChannelCallEtc
        | CallName::ProcessCreate
        | CallName::ProcessStart
        | CallName::ObjectSignal
        | CallName::ObjectSignalPeer
        | CallName::ChannelWrite
        | CallName::ChannelRead
        | CallName::ObjectWaitAsync
        | CallName::PortQueue
        | CallName::PortWait
        | CallName::PortCancel
        | CallName::Spawn
        | CallName::JobSetCritical
        | CallName::TaskKill
        | CallName::ProcessExit => Ok(Vec::new(alloc)),
    }
}

/// The one handle that a call gave; none if the line does not tell it.
fn only_handle(alloc: Global, out: &Members<'_, '_>) -> Result<Vec<HandleValue>, Cause>
    ensures { IfOk result (λ handles. IsOnlyGiven (field member.OnlyHandle (data_at out.now.value)) handles.items) }
{
    named_handle(alloc, out, Member::OnlyHandle)
}

/// The handle under this name; none if the line does not have it.
#[tactic(auto, using(crate::proofs::AnswerLaws::only_none, crate::proofs::AnswerLaws::only_one))]
fn named_handle(
    alloc: Global,
    out: &Members<'_, '_>,
    name: Member,
) -> Result<Vec<HandleValue>, Cause>
    ensures { IfOk result (λ handles. IsOnlyGiven (field name (data_at out.now.value)) handles.items) }
{
    if !out.has(name) {
        return Ok(Vec::new(alloc));
    }
    one_handle(alloc, out.handle(name)?)
}

fn one_handle(alloc: Global, handle: HandleValue) -> Result<Vec<HandleValue>, Cause>
    ensures { IfOk result (λ handles. handles.items ≡ handle ∷ []) }
{
    let mut handles = Vec::new(alloc);
    push_handle(&mut handles, handle)?;
    Ok(handles)
}

/// The status of the last call of a line. A `channel_call` that timed out has written, and its write was ok.
fn answered_status(name: CallName, status: Option<Status>) -> Option<Status>
    ensures { result ≡ answered_status name status }
{
    match (name, status) {
        (CallName::ChannelCall | CallName::ChannelCallEtc, Some(Status::TimedOut)) => {
            Some(Status::Ok)
        }
        _ => status,
    }
}

/// The two handles that a call gave; none if the line has neither. If it has only one, the other is `Missing`.
fn both_handles(alloc: Global, out: &Members<'_, '_>) -> Result<Vec<HandleValue>, Cause>
    ensures { IfOk result (λ handles. AreBothGiven (field member.FirstHandle (data_at out.now.value)) (field member.SecondHandle (data_at out.now.value)) handles.items) }
{
    let mut handles = Vec::new(alloc);
    if out.has(Member::FirstHandle) || out.has(Member::SecondHandle) {
        push_handle(&mut handles, out.handle(Member::FirstHandle)?)?;
        push_handle(&mut handles, out.handle(Member::SecondHandle)?)?;
    }
    Ok(handles)
}

/// The packet that a wait got, as it is kept.
fn recorded_packet(alloc: Global, out: &Members<'_, '_>) -> Result<RecordedPacket, Cause> {
    match packet_of(out)? {
        Some(packet) => Ok(RecordedPacket::new(alloc, packet)?),
        None => Ok(RecordedPacket::none()),
    }
}

/// The packet that a wait got; none if the line does not tell it.
fn packet_of(out: &Members<'_, '_>) -> Result<Option<LoggedPacket>, Cause> {
    if !out.has(Member::Packet) {
        return Ok(None);
    }
    let packet = out.object(Member::Packet, LineObject::Packet)?;
    let key = packet.wide(Member::Key)?;
    match packet.text(Member::Type)? {
        "user" | "ZX_PKT_TYPE_USER" => {
            let bytes = packet.packet_bytes(Member::PacketBytes)?;
            Ok(Some(LoggedPacket::User { key, bytes }))
        }
        "signal" | "ZX_PKT_TYPE_SIGNAL_ONE" => Ok(Some(signal_packet(&packet, key)?)),
        _ => Err(packet.fault(Member::Type, WantedValue::PacketType)),
    }
}

/// The signals that a packet has, in the packet itself or in its object `signal`.
fn signal_packet(packet: &Members<'_, '_>, key: u64) -> Result<LoggedPacket, Cause> {
    if packet.has(Member::Signal) {
        let seen = packet.object(Member::Signal, LineObject::PacketSignals)?;
        seen_signals(&seen, key)
    } else {
        seen_signals(packet, key)
    }
}

/// The packet with the signals that an object tells.
fn seen_signals(seen: &Members<'_, '_>, key: u64) -> Result<LoggedPacket, Cause> {
    let trigger = seen.signals(Member::Trigger)?;
    let observed = seen.signals(Member::Observed)?;
    Ok(LoggedPacket::Signal {
        key,
        trigger,
        observed,
    })
}

/// The status of a line; none if no call of the semantics gives it.
pub(crate) fn status_in(line: &LineMembers<'_, '_>) -> Result<Option<Status>, Cause>
    requires { IsWalked line.now }
    ensures { IfOk result (λ status. status ≡ status_in (data_at line.now.whole.value)) }
{
    Ok(status_of(line.status()?))
}

/// The status of a status word, or of a name with `ZX_ERR_` ahead. None if no call of the semantics gives it.
fn status_of(text: &str) -> Option<Status>
    ensures { result ≡ status_of text.now }
{
    let bytes = text.as_bytes();
    match bytes.strip_prefix(b"ZX_ERR_") {
        Some(name) => first_name_of(name).or_else(|| other_name_of(name)),
        None => first_word(bytes).or_else(|| other_word(bytes)),
    }
}

/// Statuses that most calls give, by their words.
#[tactic(auto, unfolding(crate::specs::Answered::first_word))]
fn first_word(text: &[u8]) -> Option<Status>
    ensures { result ≡ first_word text.now }
{
    if is(text, b"ok") {
        Some(Status::Ok)
    } else if is(text, b"ZX_OK") {
        Some(Status::Ok)
    } else if is(text, b"bad_handle") {
        Some(Status::BadHandle)
    } else if is(text, b"wrong_type") {
        Some(Status::WrongType)
    } else if is(text, b"access_denied") {
        Some(Status::AccessDenied)
    } else if is(text, b"invalid_args") {
        Some(Status::InvalidArgs)
    } else if is(text, b"not_supported") {
        Some(Status::NotSupported)
    } else {
        None
    }
}

/// The other statuses, by their words.
#[tactic(auto, unfolding(crate::specs::Answered::other_word))]
fn other_word(text: &[u8]) -> Option<Status>
    ensures { result ≡ other_word text.now }
{
    if is(text, b"peer_closed") {
        Some(Status::PeerClosed)
    } else if is(text, b"should_wait") {
        Some(Status::ShouldWait)
    } else if is(text, b"buffer_too_small") {
        Some(Status::BufferTooSmall)
    } else if is(text, b"timed_out") {
        Some(Status::TimedOut)
    } else if is(text, b"bad_state") {
        Some(Status::BadState)
    } else if is(text, b"out_of_range") {
        Some(Status::OutOfRange)
    } else if is(text, b"not_found") {
        Some(Status::NotFound)
    } else if is(text, b"already_bound") {
        Some(Status::AlreadyBound)
    } else {
        None
    }
}

/// Statuses that most calls give, by what follows `ZX_ERR_`.
#[tactic(auto, unfolding(crate::specs::Answered::first_name_of))]
fn first_name_of(text: &[u8]) -> Option<Status>
    ensures { result ≡ first_name_of text.now }
{
    if is(text, b"BAD_HANDLE") {
        Some(Status::BadHandle)
    } else if is(text, b"WRONG_TYPE") {
        Some(Status::WrongType)
    } else if is(text, b"ACCESS_DENIED") {
        Some(Status::AccessDenied)
    } else if is(text, b"INVALID_ARGS") {
        Some(Status::InvalidArgs)
    } else if is(text, b"NOT_SUPPORTED") {
        Some(Status::NotSupported)
    } else if is(text, b"PEER_CLOSED") {
        Some(Status::PeerClosed)
    } else {
        None
    }
}

/// The other statuses, by what follows `ZX_ERR_`.
#[tactic(auto, unfolding(crate::specs::Answered::other_name_of))]
fn other_name_of(text: &[u8]) -> Option<Status>
    ensures { result ≡ other_name_of text.now }
{
    if is(text, b"SHOULD_WAIT") {
        Some(Status::ShouldWait)
    } else if is(text, b"BUFFER_TOO_SMALL") {
        Some(Status::BufferTooSmall)
    } else if is(text, b"TIMED_OUT") {
        Some(Status::TimedOut)
    } else if is(text, b"BAD_STATE") {
        Some(Status::BadState)
    } else if is(text, b"OUT_OF_RANGE") {
        Some(Status::OutOfRange)
    } else if is(text, b"NOT_FOUND") {
        Some(Status::NotFound)
    } else if is(text, b"ALREADY_BOUND") {
        Some(Status::AlreadyBound)
    } else {
        None
    }
}
