//! Reads lines that are one call of the semantics.

ghost use Rattle.std.specs.Prelude.{◌≡◌, true, IfOk};
ghost use Rattle.zt_logs.specs.LineCalls.{is_one_call};
ghost use Rattle.zt_logs.specs.declared.call_names.CallName.TheVariants as called;
ghost use Rattle.zt_logs.specs.ProofsOnly.Tokens.{data_at};
ghost use Rattle.zt_logs.specs.LoggedCalls.{IsCallOf};

use crate::call_names::CallName;
use crate::faults::{Cause, WantedValue};
use crate::members::Members;
use crate::options::{EDGE, MAY_DISCARD};
use crate::places::{LineObject, Member, Place};
use std::alloc::Global;
use zt_rows::{Call, MESSAGE_BYTES, Parcel};

/// The call of this name, with the arguments and options of a line. The error is `Missing`, `Member` or `OutOfMemory`.
pub(crate) fn call_of(
    alloc: Global,
    name: CallName,
    args: &Members<'_, '_>,
    options: u64,
) -> Result<Call, Cause>
    requires { is_one_call name ≡ true }
    ensures { IfOk result (IsCallOf name (data_at args.now.value) options) }
{
    match name {
        CallName::EventCreate => Ok(Call::EventCreate),
        CallName::EventPairCreate => Ok(Call::EventPairCreate),
        CallName::HandleClose => handle_close(args),
        CallName::HandleDuplicate => handle_duplicate(args),
        CallName::HandleReplace => handle_replace(args),
        CallName::ObjectSignal => object_signal(args),
        CallName::ObjectSignalPeer => object_signal_peer(args),
        CallName::ChannelCreate => Ok(Call::ChannelCreate),
        CallName::ChannelWrite => channel_write(alloc, args),
        CallName::ChannelRead | CallName::ChannelReadEtc => channel_read(args, options),
        CallName::ProcessStart => process_start(args),
        CallName::HandleCloseMany
        | CallName::ChannelWriteEtc
        | CallName::ChannelCall
        | CallName::ChannelCallEtc
        | CallName::ProcessCreate
        | CallName::Made(_) => unreachable!(),
        CallName::PortCreate => Ok(Call::PortCreate),
        CallName::ObjectWaitAsync => object_wait_async(args, options),
        CallName::PortQueue => port_queue(args),
        CallName::PortWait => port_wait(args),
        CallName::PortCancel => port_cancel(args),
        CallName::JobCreate => job_create(args),
        CallName::Spawn => spawn(args),
        CallName::JobSetCritical => job_set_critical(args),
        CallName::TaskKill => task_kill(args),
        CallName::ProcessExit => process_exit(args),
    }
}

fn handle_close(args: &Members<'_, '_>) -> Result<Call, Cause>
    ensures { IfOk result (IsCallOf called.HandleClose (data_at args.now.value) 0) }
{
    let handle = args.handle(Member::Handle)?;
    Ok(Call::HandleClose { handle })
}

fn handle_duplicate(args: &Members<'_, '_>) -> Result<Call, Cause>
    ensures { IfOk result (IsCallOf called.HandleDuplicate (data_at args.now.value) 0) }
{
    let handle = args.handle(Member::Handle)?;
    let rights = args.rights(Member::Rights)?;
    Ok(Call::HandleDuplicate { handle, rights })
}

fn handle_replace(args: &Members<'_, '_>) -> Result<Call, Cause>
    ensures { IfOk result (IsCallOf called.HandleReplace (data_at args.now.value) 0) }
{
    let handle = args.handle(Member::Handle)?;
    let rights = args.rights(Member::Rights)?;
    Ok(Call::HandleReplace { handle, rights })
}

fn object_signal(args: &Members<'_, '_>) -> Result<Call, Cause>
    ensures { IfOk result (IsCallOf called.ObjectSignal (data_at args.now.value) 0) }
{
    let handle = args.handle(Member::Handle)?;
    let clear = args.signals(Member::Clear)?;
    let set = args.signals(Member::Set)?;
    Ok(Call::ObjectSignal { handle, clear, set })
}

fn object_signal_peer(args: &Members<'_, '_>) -> Result<Call, Cause>
    ensures { IfOk result (IsCallOf called.ObjectSignalPeer (data_at args.now.value) 0) }
{
    let handle = args.handle(Member::Handle)?;
    let clear = args.signals(Member::Clear)?;
    let set = args.signals(Member::Set)?;
    Ok(Call::ObjectSignalPeer { handle, clear, set })
}

fn channel_write(alloc: Global, args: &Members<'_, '_>) -> Result<Call, Cause>
    ensures { IfOk result (IsCallOf called.ChannelWrite (data_at args.now.value) 0) }
{
    let handle = args.handle(Member::Handle)?;
    let bytes = args.bytes_or_none(alloc, Member::Bytes)?;
    let handles = args.handles(alloc, Member::Handles)?;
    match Parcel::new(bytes, handles) {
        Some(parcel) => Ok(Call::ChannelWrite { handle, parcel }),
        None => Err(too_many_bytes()),
    }
}

/// The error of a message that has too many bytes.
pub(crate) fn too_many_bytes() -> Cause {
    let place = Place {
        object: LineObject::Args,
        member: Member::Bytes,
        is_second: false,
        item: None,
    };
    let wanted = WantedValue::AtMost(MESSAGE_BYTES);
    Cause::Member { place, wanted }
}

fn channel_read(args: &Members<'_, '_>, options: u64) -> Result<Call, Cause>
    ensures { IfOk result (IsCallOf called.ChannelRead (data_at args.now.value) options) }
{
    let handle = args.handle(Member::Handle)?;
    let bytes = args.narrow(Member::ByteRoom)?;
    let handles = args.narrow(Member::HandleRoom)?;
    let discard = args.flag(Member::Discard)? || options & MAY_DISCARD != 0;
    Ok(Call::ChannelRead {
        handle,
        bytes,
        handles,
        discard,
    })
}

fn object_wait_async(args: &Members<'_, '_>, options: u64) -> Result<Call, Cause>
    ensures { IfOk result (IsCallOf called.ObjectWaitAsync (data_at args.now.value) options) }
{
    let port = args.handle(Member::Port)?;
    let handle = args.handle(Member::Handle)?;
    let key = args.wide(Member::Key)?;
    let signals = args.signals(Member::Signals)?;
    let edge = args.flag(Member::Edge)? || options & EDGE != 0;
    Ok(Call::ObjectWaitAsync {
        handle,
        port,
        key,
        signals,
        edge,
    })
}

fn port_wait(args: &Members<'_, '_>) -> Result<Call, Cause>
    ensures { IfOk result (IsCallOf called.PortWait (data_at args.now.value) 0) }
{
    let port = args.handle(Member::CalledPort)?;
    Ok(Call::PortWait { port })
}

fn port_cancel(args: &Members<'_, '_>) -> Result<Call, Cause>
    ensures { IfOk result (IsCallOf called.PortCancel (data_at args.now.value) 0) }
{
    let port = args.handle(Member::CalledPort)?;
    let source = args.handle(Member::Source)?;
    let key = args.wide(Member::Key)?;
    Ok(Call::PortCancel { port, source, key })
}

/// The packet is a text of its bytes next to `key`, or an object that has both.
fn port_queue(args: &Members<'_, '_>) -> Result<Call, Cause>
    ensures { IfOk result (IsCallOf called.PortQueue (data_at args.now.value) 0) }
{
    let port = args.handle(Member::CalledPort)?;
    if args.has_object(Member::Packet) {
        let packet = args.object(Member::Packet, LineObject::QueuedPacket)?;
        is_user_packet(&packet)?;
        let key = packet.wide(Member::Key)?;
        let bytes = packet.packet_bytes(Member::PacketBytes)?;
        return Ok(Call::PortQueue { port, key, bytes });
    }
    let key = args.wide(Member::Key)?;
    let bytes = args.packet_bytes(Member::Packet)?;
    Ok(Call::PortQueue { port, key, bytes })
}

/// Checks that a packet is a user packet; one without a type counts as one. Otherwise the error is `Member`.
fn is_user_packet(packet: &Members<'_, '_>) -> Result<(), Cause> {
    if !packet.has(Member::Type) {
        return Ok(());
    }
    match packet.text(Member::Type)? {
        "user" | "ZX_PKT_TYPE_USER" => Ok(()),
        _ => Err(packet.fault(Member::Type, WantedValue::UserPacket)),
    }
}

fn job_create(args: &Members<'_, '_>) -> Result<Call, Cause>
    ensures { IfOk result (IsCallOf called.JobCreate (data_at args.now.value) 0) }
{
    let job = args.handle(Member::ParentJob)?;
    Ok(Call::JobCreate { job })
}

fn spawn(args: &Members<'_, '_>) -> Result<Call, Cause>
    ensures { IfOk result (IsCallOf called.Spawn (data_at args.now.value) 0) }
{
    let job = args.handle(Member::Job)?;
    let argument = args.handle_or_none(Member::Argument)?;
    Ok(Call::Spawn { job, argument })
}

/// A spawn that has the started process in place of its job. `join_starts` of `zt_import` puts the job in.
fn process_start(args: &Members<'_, '_>) -> Result<Call, Cause>
    ensures { IfOk result (IsCallOf called.ProcessStart (data_at args.now.value) 0) }
{
    let job = args.handle(Member::StartedProcess)?;
    let argument = args.handle_or_none(Member::FirstArgument)?;
    Ok(Call::Spawn { job, argument })
}

fn job_set_critical(args: &Members<'_, '_>) -> Result<Call, Cause>
    ensures { IfOk result (IsCallOf called.JobSetCritical (data_at args.now.value) 0) }
{
    let job = args.handle(Member::Job)?;
    let process = args.handle(Member::CriticalProcess)?;
    Ok(Call::JobSetCritical { job, process })
}

fn task_kill(args: &Members<'_, '_>) -> Result<Call, Cause>
    ensures { IfOk result (IsCallOf called.TaskKill (data_at args.now.value) 0) }
{
    let handle = args.handle(Member::Task)?;
    Ok(Call::TaskKill { handle })
}

fn process_exit(args: &Members<'_, '_>) -> Result<Call, Cause>
    ensures { IfOk result (IsCallOf called.ProcessExit (data_at args.now.value) 0) }
{
    let code = args.signed(Member::Code)?;
    Ok(Call::ProcessExit { code })
}
