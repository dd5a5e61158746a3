//! Which calls of the semantics a line of a log is: none, one or several.

ghost use Rattle.std.specs.Prelude.{◌≡◌, ◌++◌, ◌∷◌, [], length, Some, None, IfOk, OnOk};
ghost use Rattle.zt_logs.specs.Members.{field};
ghost use Rattle.zt_logs.specs.ProofsOnly.Tokens.{data_at};
ghost use Rattle.zt_rows.specs.declared.calls.Call.TheVariants as call;
ghost use Rattle.zt_logs.specs.declared.places.Member.TheVariants as member;
ghost use Rattle.zt_logs.specs.LineCalls.{AreCallsOf, AreCloses, AreWrites, AreMade, AreWritten, AreRequests, AreCallsWith, AreCreates, AreSpaces, IsSpaceAt, has_read, closes_of, gives};
ghost use Rattle.zt_logs.specs.Answered.{status_in};
ghost use Rattle.zt_logs.specs.LoggedCalls.{IsCallOf};
ghost use Rattle.zt_logs.specs.ProofsOnly.ReadLines.{AddsAnswer, calls_in};
ghost use Rattle.zt_logs.specs.ProofsOnly.Walks.{IsWalked};

use crate::call_names::CallName;
use crate::dispositions::{copies_of, dispositions, sources_of};
use crate::faults::Cause;
use crate::line_members::LineMembers;
use crate::line_parts::LineForm;
use crate::logged_calls::{call_of, too_many_bytes};
use crate::members::Members;
use crate::other_kinds::OtherKind;
use crate::places::Member;
use crate::recorded::status_in;
use std::alloc::Global;
use zt_bits::Status;
use zt_rows::{Call, HandleValue, Parcel};

/// One of the calls that a line is.
#[derive(Debug, Drop)]
pub struct PartCall {
    /// The place, in the message that the line writes, of the handle that this call gives. None if the message has no
    /// handle of it.
    pub gives: Option<usize>,
    /// The handle of the log that this call gives, if it stands ahead of the last call of its line and gives one.
    pub given: Option<HandleValue>,
    pub call: Call,
}

/// The calls that a line is, in the order in which they run. Most lines are one call, which takes no memory.
#[derive(Drop)]
pub(crate) struct LineCalls {
    pub(crate) ahead: Vec<PartCall>,
    /// The last of them. If there is none, there are none ahead.
    pub(crate) last: Option<PartCall>,
}

impl LineCalls {
    /// A line that is one call.
    fn one(alloc: Global, call: Call) -> LineCalls
        ensures { calls_in result.ahead.items result.last ≡ record { gives = None; given = None; call = call } ∷ [] }
    {
        LineCalls {
            ahead: Vec::new(alloc),
            last: Some(PartCall {
                gives: None,
                given: None,
                call,
            }),
        }
    }

    /// A line that is these calls.
    fn of(parts: Vec<PartCall>) -> LineCalls
        ensures { calls_in result.ahead.items result.last ≡ parts.items }
    {
        let mut ahead = parts;
        let last = ahead.pop();
        LineCalls { ahead, last }
    }

    /// How many calls the line is.
    pub(crate) fn count(&self) -> usize
        ensures { result ≡ length (calls_in self.now.ahead.items self.now.last) }
    {
        match self.last {
            Some(_) => self.ahead.len() + 1,
            None => 0,
        }
    }
}

/// The form of lines with a call of this name.
pub(crate) fn form_of(name: CallName) -> LineForm {
    match name {
        CallName::HandleCloseMany => LineForm::CloseMany,
        CallName::ChannelWriteEtc => LineForm::WriteEtc,
        CallName::ChannelReadEtc => LineForm::ReadEtc,
        CallName::ChannelCall => LineForm::ChannelCall,
        CallName::ChannelCallEtc => LineForm::ChannelCallEtc,
        CallName::ProcessCreate => LineForm::Create,
        CallName::ProcessStart => LineForm::Start,
        CallName::Made(kind) => LineForm::StandIn(kind),
        _ => LineForm::Plain,
    }
}

/// The calls that a line of this name is, in the order in which they run. The error is `Missing`, `Member` or
/// `OutOfMemory`.
pub(crate) fn calls_of(
    alloc: Global,
    name: CallName,
    line: &LineMembers<'_, '_>,
    args: &Members<'_, '_>,
    options: u64,
) -> Result<LineCalls, Cause>
    requires walked { IsWalked line.now }
    requires args { data_at args.now.value ≡ field member.Args (data_at line.now.whole.value) }
    ensures { IfOk result (λ parts. AreCallsOf name (data_at line.now.whole.value) options (calls_in parts.ahead.items parts.last)) }
{
    Ok(match name {
        CallName::Made(kind) => LineCalls::of(made(alloc, kind, line)?),
        CallName::HandleCloseMany => LineCalls::of(close_many(alloc, args)?),
        CallName::ChannelWriteEtc => LineCalls::of(write_etc(alloc, args)?),
        CallName::ChannelCall => LineCalls::of(channel_call(alloc, line, args)?),
        CallName::ChannelCallEtc => LineCalls::of(channel_call_etc(alloc, line, args)?),
        CallName::ProcessCreate => LineCalls::of(process_create(alloc, line, args)?),
        _ => LineCalls::one(alloc, call_of(alloc, name, args, options)?),
    })
}

/// The list of a line that is one call.
fn one_call(alloc: Global, call: Call) -> Result<Vec<PartCall>, Cause>
    ensures { IfOk result (λ parts. parts.items ≡ record { gives = None; given = None; call = call } ∷ []) }
{
    let mut parts = Vec::new(alloc);
    push_part(&mut parts, None, call)?;
    Ok(parts)
}

/// The event or event pair that stands in for an object of this kind. No call if the line failed or gives no handle.
fn made(alloc: Global, kind: OtherKind, line: &LineMembers<'_, '_>) -> Result<Vec<PartCall>, Cause>
    requires { IsWalked line.now }
    ensures { IfOk result (λ parts. AreMade kind (data_at line.now.whole.value) parts.items) }
{
    let status = status_in(line)?;
    let out = line.out()?;
    if !matches!(status, Some(Status::Ok)) || !gives(kind, out) {
        return Ok(Vec::new(alloc));
    }
    if kind.has_ends() {
        one_call(alloc, Call::EventPairCreate)
    } else {
        one_call(alloc, Call::EventCreate)
    }
}

/// Whether a line gives the handles of an object of this kind.
fn gives(kind: OtherKind, out: &Members<'_, '_>) -> bool
    ensures { result ≡ gives kind (data_at out.now.value) }
{
    out.has(Member::Handles)
        || if kind.has_ends() {
            out.has(Member::FirstHandle)
        } else {
            out.has(Member::OnlyHandle)
        }
}

/// A close of each handle of a list; a close of 0 if the list has none.
fn close_many(alloc: Global, args: &Members<'_, '_>) -> Result<Vec<PartCall>, Cause>
    ensures { IfOk result (λ parts. AreCloses (data_at args.now.value) parts.items) }
{
    let handles = args.all_handles(alloc, Member::Handles)?;
    closes_of(alloc, handles.as_slice())
}

fn closes_of(alloc: Global, handles: &[HandleValue]) -> Result<Vec<PartCall>, Cause>
    ensures { IfOk result (λ parts. parts.items ≡ closes_of handles.now) }
{
    if handles.is_empty() {
        return one_call(
            alloc,
            Call::HandleClose {
                handle: HandleValue(0),
            },
        );
    }
    let mut parts = Vec::new(alloc);
    for place in 0..handles.len() {
        let handle = handles[place];
        push_part(&mut parts, None, Call::HandleClose { handle })?;
    }
    Ok(parts)
}

/// The calls of `channel_write_etc`: those that make the handles that are sent, and a write of what they give.
fn write_etc(alloc: Global, args: &Members<'_, '_>) -> Result<Vec<PartCall>, Cause>
    ensures { IfOk result (λ parts. AreWrites (data_at args.now.value) parts.items) }
{
    written(alloc, args, Member::Bytes, Member::Handles)
}

/// The calls that make the handles that are sent, and the write. `bytes` and `handles` name the members that have the
/// message.
fn written(
    alloc: Global,
    args: &Members<'_, '_>,
    bytes: Member,
    handles: Member,
) -> Result<Vec<PartCall>, Cause>
    ensures { IfOk result (λ parts. AreWritten bytes handles (data_at args.now.value) parts.items) }
{
    let handle = args.handle(Member::Handle)?;
    let bytes = args.bytes_or_none(alloc, bytes)?;
    let sent = dispositions(alloc, args, handles)?;
    let mut parts = copies_of(alloc, sent.as_slice())?;
    let handles = sources_of(alloc, sent.as_slice())?;
    match Parcel::new(bytes, handles) {
        Some(parcel) => {
            push_part(&mut parts, None, Call::ChannelWrite { handle, parcel })?;
            Ok(parts)
        }
        None => Err(too_many_bytes()),
    }
}

/// The calls of `channel_call`: a write of the handles as they are, and a read if the status says that the line reads.
fn channel_call(
    alloc: Global,
    line: &LineMembers<'_, '_>,
    args: &Members<'_, '_>,
) -> Result<Vec<PartCall>, Cause>
    requires walked { IsWalked line.now }
    requires args { data_at args.now.value ≡ field member.Args (data_at line.now.whole.value) }
    ensures { IfOk result (λ parts. AreCallsWith AreRequests (data_at line.now.whole.value) parts.items) }
{
    let mut parts = request(alloc, args)?;
    push_answer(&mut parts, line, args)?;
    Ok(parts)
}

/// The calls of `channel_call_etc`: those that make the handles that are sent, the write, and a read if the status says so.
fn channel_call_etc(
    alloc: Global,
    line: &LineMembers<'_, '_>,
    args: &Members<'_, '_>,
) -> Result<Vec<PartCall>, Cause>
    requires walked { IsWalked line.now }
    requires args { data_at args.now.value ≡ field member.Args (data_at line.now.whole.value) }
    ensures { IfOk result (λ parts. AreCallsWith (AreWritten member.WrittenBytes member.WrittenHandles) (data_at line.now.whole.value) parts.items) }
{
    let mut parts = written(alloc, args, Member::WrittenBytes, Member::WrittenHandles)?;
    push_answer(&mut parts, line, args)?;
    Ok(parts)
}

/// Appends the read of the answer, if the status says that the line reads.
fn push_answer(
    parts: &mut Vec<PartCall>,
    line: &LineMembers<'_, '_>,
    args: &Members<'_, '_>,
) -> Result<(), Cause>
    requires { IsWalked line.now }
    ensures { OnOk result (AddsAnswer (status_in (data_at line.now.whole.value)) (data_at args.now.value) parts.old.items parts.new.items) }
{
    let handle = args.handle(Member::Handle)?;
    let bytes = args.narrow(Member::ReadByteRoom)?;
    let handles = args.narrow(Member::ReadHandleRoom)?;
    if !has_read(status_in(line)?) {
        return Ok(());
    }
    let discard = true;
    push_part(
        parts,
        None,
        Call::ChannelRead {
            handle,
            bytes,
            handles,
            discard,
        },
    )
}

/// Whether a line with this status reads: an answer came, or its peer was closed.
fn has_read(status: Option<Status>) -> bool
    ensures { result ≡ has_read status }
{
    matches!(
        status,
        Some(Status::Ok | Status::PeerClosed | Status::BufferTooSmall)
    )
}

/// The write of a `channel_call`, which sends the handles as they are.
fn request(alloc: Global, args: &Members<'_, '_>) -> Result<Vec<PartCall>, Cause>
    ensures { IfOk result (λ parts. AreRequests (data_at args.now.value) parts.items) }
{
    let handle = args.handle(Member::Handle)?;
    let bytes = args.bytes_or_none(alloc, Member::WrittenBytes)?;
    let handles = args.handles(alloc, Member::WrittenHandles)?;
    match Parcel::new(bytes, handles) {
        Some(parcel) => one_call(alloc, Call::ChannelWrite { handle, parcel }),
        None => Err(too_many_bytes()),
    }
}

/// The calls of `process_create`: an event for the address space if the line gives a handle to it, and a spawn.
fn process_create(
    alloc: Global,
    line: &LineMembers<'_, '_>,
    args: &Members<'_, '_>,
) -> Result<Vec<PartCall>, Cause>
    requires walked { IsWalked line.now }
    requires args { data_at args.now.value ≡ field member.Args (data_at line.now.whole.value) }
    ensures { IfOk result (λ parts. AreCreates (data_at line.now.whole.value) parts.items) }
{
    let job = args.handle(Member::Job)?;
    let mut parts = spaces(alloc, line)?;
    let argument = HandleValue(0);
    push_part(&mut parts, None, Call::Spawn { job, argument })?;
    Ok(parts)
}

/// The event that stands in for an address space, if the line is ok and gives a handle to it.
fn spaces(alloc: Global, line: &LineMembers<'_, '_>) -> Result<Vec<PartCall>, Cause>
    requires { IsWalked line.now }
    ensures { IfOk result (λ parts. AreSpaces (status_in (data_at line.now.whole.value)) (field member.VmarHandle (field member.Out (data_at line.now.whole.value))) parts.items) }
{
    let out = line.out()?;
    match status_in(line)? {
        Some(Status::Ok) => space_in(alloc, out),
        _ => Ok(Vec::new(alloc)),
    }
}

#[tactic(auto, using(crate::proofs::AnswerLaws::space_none, crate::proofs::AnswerLaws::space_one))]
fn space_in(alloc: Global, out: &Members<'_, '_>) -> Result<Vec<PartCall>, Cause>
    ensures { IfOk result (λ parts. IsSpaceAt (field member.VmarHandle (data_at out.now.value)) parts.items) }
{
    if !out.has(Member::VmarHandle) {
        return Ok(Vec::new(alloc));
    }
    space_of(alloc, out.handle(Member::VmarHandle)?)
}

fn space_of(alloc: Global, handle: HandleValue) -> Result<Vec<PartCall>, Cause>
    ensures { IfOk result (λ parts. parts.items ≡ record { gives = None; given = Some handle; call = call.EventCreate } ∷ []) }
{
    let mut parts = Vec::new(alloc);
    push_given(&mut parts, None, Some(handle), Call::EventCreate)?;
    Ok(parts)
}

/// Appends a call that gives no handle of the log ahead of the last call.
pub(crate) fn push_part(
    parts: &mut Vec<PartCall>,
    gives: Option<usize>,
    call: Call,
) -> Result<(), Cause>
    ensures { OnOk result (parts.new.items ≡ parts.old.items ++ record { gives = gives; given = None; call = call } ∷ []) }
{
    push_given(parts, gives, None, call)
}

/// Appends a call.
fn push_given(
    parts: &mut Vec<PartCall>,
    gives: Option<usize>,
    given: Option<HandleValue>,
    call: Call,
) -> Result<(), Cause>
    ensures { OnOk result (parts.new.items ≡ parts.old.items ++ record { gives = gives; given = given; call = call } ∷ []) }
{
    match parts.push(PartCall { gives, given, call }) {
        Ok(()) => Ok(()),
        Err(_) => Err(Cause::OutOfMemory),
    }
}
