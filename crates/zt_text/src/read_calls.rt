//! Reads a call and its arguments.

ghost use Rattle.std.specs.Prelude.{◌≡◌, IfOk, IfErr};
ghost use Rattle.zt_text.specs.ReadLines.{IsUnread, has_parcel};
ghost use Rattle.zt_text.specs.ProofsOnly.CallNames.{call_with};
ghost use Rattle.zt_text.specs.ReadCalls.{call, channel_create, channel_write, channel_read, port_create, object_wait_async, port_queue, port_wait, port_cancel, job_create, spawn, job_set_critical, task_kill, process_exit, event_create, eventpair_create, handle_close, handle_duplicate, handle_replace, object_signal, object_signal_peer};

use crate::call_names::CallName;
use crate::fields::Fields;
use crate::write_arguments::Write;
use std::alloc::Global;
use zt_rows::{Call, Refusal};

/// Reads a call from the fields after the process. It is inlined because a call is large, and would go through memory at each
/// return.
#[inline(always)]
#[tactic(auto, using(crate::proofs::CallNames::named), unfolding(crate::specs::ReadCalls::call))]
pub fn call(alloc: Global, fields: Fields<'_>) -> Result<Call, Refusal>
    ensures read { IfOk result (λ made. call fields.entry ≡ Ok made) }
    ensures refused { IfErr result (λ refusal. IsUnread has_parcel (call fields.entry) refusal) }
{
    let (name, rest) = fields.next()?;
    match CallName::of(name.bytes()) {
        Some(named) => call_named(alloc, named, rest),
        None => Err(name.fault()),
    }
}

/// Reads the arguments of a call of this name. The functions that read them are inlined, except for a parcel's, because fields
/// would go through memory at a call.
#[inline(always)]
#[tactic(auto, unfolding(crate::specs::ProofsOnly::CallNames::call_with))]
fn call_named(alloc: Global, name: CallName, rest: Fields<'_>) -> Result<Call, Refusal>
    ensures read { IfOk result (λ made. call_with name rest.entry ≡ Ok made) }
    ensures refused { IfErr result (λ refusal. IsUnread has_parcel (call_with name rest.entry) refusal) }
{
    match name {
        CallName::ChannelWrite => write_call(alloc, rest),
        CallName::EventCreate => event_create(rest),
        CallName::EventPairCreate => eventpair_create(rest),
        CallName::ObjectSignal => object_signal(rest),
        CallName::ObjectSignalPeer => object_signal_peer(rest),
        CallName::HandleClose => handle_close(rest),
        CallName::HandleDuplicate => handle_duplicate(rest),
        CallName::HandleReplace => handle_replace(rest),
        CallName::ChannelCreate => channel_create(rest),
        CallName::ChannelRead => channel_read(rest),
        CallName::PortCreate => port_create(rest),
        CallName::ObjectWaitAsync => object_wait_async(rest),
        CallName::PortQueue => port_queue(rest),
        CallName::PortWait => port_wait(rest),
        CallName::PortCancel => port_cancel(rest),
        CallName::JobCreate => job_create(rest),
        CallName::Spawn => spawn(rest),
        CallName::JobSetCritical => job_set_critical(rest),
        CallName::TaskKill => task_kill(rest),
        CallName::ProcessExit => process_exit(rest),
    }
}

#[inline(always)]
#[tactic(auto, unfolding(crate::specs::ReadCalls::job_create))]
fn job_create(fields: Fields<'_>) -> Result<Call, Refusal>
    ensures { result ≡ job_create fields.entry }
{
    let (job, rest) = fields.handle()?;
    rest.end()?;
    Ok(Call::JobCreate { job })
}

#[inline(always)]
#[tactic(auto, unfolding(crate::specs::ReadCalls::spawn))]
fn spawn(fields: Fields<'_>) -> Result<Call, Refusal>
    ensures { result ≡ spawn fields.entry }
{
    let (job, rest) = fields.handle()?;
    let (argument, rest) = rest.handle()?;
    rest.end()?;
    Ok(Call::Spawn { job, argument })
}

#[inline(always)]
#[tactic(auto, unfolding(crate::specs::ReadCalls::job_set_critical))]
fn job_set_critical(fields: Fields<'_>) -> Result<Call, Refusal>
    ensures { result ≡ job_set_critical fields.entry }
{
    let (job, rest) = fields.handle()?;
    let (process, rest) = rest.handle()?;
    rest.end()?;
    Ok(Call::JobSetCritical { job, process })
}

#[inline(always)]
#[tactic(auto, unfolding(crate::specs::ReadCalls::task_kill))]
fn task_kill(fields: Fields<'_>) -> Result<Call, Refusal>
    ensures { result ≡ task_kill fields.entry }
{
    let (handle, rest) = fields.handle()?;
    rest.end()?;
    Ok(Call::TaskKill { handle })
}

#[inline(always)]
#[tactic(auto, unfolding(crate::specs::ReadCalls::process_exit))]
fn process_exit(fields: Fields<'_>) -> Result<Call, Refusal>
    ensures { result ≡ process_exit fields.entry }
{
    let (code, rest) = fields.code()?;
    rest.end()?;
    Ok(Call::ProcessExit { code })
}

#[inline(always)]
#[tactic(auto, unfolding(crate::specs::ReadCalls::port_create))]
fn port_create(fields: Fields<'_>) -> Result<Call, Refusal>
    ensures { result ≡ port_create fields.entry }
{
    fields.end()?;
    Ok(Call::PortCreate)
}

#[inline(always)]
#[tactic(auto, unfolding(crate::specs::ReadCalls::object_wait_async))]
fn object_wait_async(fields: Fields<'_>) -> Result<Call, Refusal>
    ensures { result ≡ object_wait_async fields.entry }
{
    let (handle, rest) = fields.handle()?;
    let (port, rest) = rest.handle()?;
    let (key, rest) = rest.key()?;
    let (signals, rest) = rest.signals()?;
    let edge = rest.flag("edge")?;
    Ok(Call::ObjectWaitAsync {
        handle,
        port,
        key,
        signals,
        edge,
    })
}

#[inline(always)]
#[tactic(auto, unfolding(crate::specs::ReadCalls::port_queue))]
fn port_queue(fields: Fields<'_>) -> Result<Call, Refusal>
    ensures { result ≡ port_queue fields.entry }
{
    let (port, rest) = fields.handle()?;
    let (key, rest) = rest.key()?;
    let (bytes, rest) = rest.packet_bytes()?;
    rest.end()?;
    Ok(Call::PortQueue { port, key, bytes })
}

#[inline(always)]
#[tactic(auto, unfolding(crate::specs::ReadCalls::port_wait))]
fn port_wait(fields: Fields<'_>) -> Result<Call, Refusal>
    ensures { result ≡ port_wait fields.entry }
{
    let (port, rest) = fields.handle()?;
    rest.end()?;
    Ok(Call::PortWait { port })
}

#[inline(always)]
#[tactic(auto, unfolding(crate::specs::ReadCalls::port_cancel))]
fn port_cancel(fields: Fields<'_>) -> Result<Call, Refusal>
    ensures { result ≡ port_cancel fields.entry }
{
    let (port, rest) = fields.handle()?;
    let (source, rest) = rest.handle()?;
    let (key, rest) = rest.key()?;
    rest.end()?;
    Ok(Call::PortCancel { port, source, key })
}

#[inline(always)]
#[tactic(auto, unfolding(crate::specs::ReadCalls::channel_create))]
fn channel_create(fields: Fields<'_>) -> Result<Call, Refusal>
    ensures { result ≡ channel_create fields.entry }
{
    fields.end()?;
    Ok(Call::ChannelCreate)
}

#[tactic(auto, unfolding(crate::specs::ReadCalls::channel_write))]
fn channel_write(fields: Fields<'_>) -> Result<Write<'_>, Refusal>
    ensures { result ≡ channel_write fields.entry }
{
    let (handle, rest) = fields.handle()?;
    let (bytes, rest) = rest.bytes()?;
    let (handles, rest) = rest.handles()?;
    rest.end()?;
    Ok(Write::new(handle, bytes, handles))
}

/// Reads a `channel_write`. It is never inlined: only this call allocates, and no other call should pay for that.
#[inline(never)]
fn write_call(alloc: Global, fields: Fields<'_>) -> Result<Call, Refusal>
    ensures read { IfOk result (λ made. channel_write fields.entry ≡ Ok made) }
    ensures refused { IfErr result (λ refusal. IsUnread has_parcel (channel_write fields.entry) refusal) }
{
    channel_write(fields)?.to_call(alloc)
}

#[inline(always)]
#[tactic(auto, unfolding(crate::specs::ReadCalls::channel_read))]
fn channel_read(fields: Fields<'_>) -> Result<Call, Refusal>
    ensures { result ≡ channel_read fields.entry }
{
    let (handle, rest) = fields.handle()?;
    let (bytes, rest) = rest.amount()?;
    let (handles, rest) = rest.amount()?;
    let discard = rest.flag("discard")?;
    Ok(Call::ChannelRead {
        handle,
        bytes,
        handles,
        discard,
    })
}

#[inline(always)]
#[tactic(auto, unfolding(crate::specs::ReadCalls::event_create))]
fn event_create(fields: Fields<'_>) -> Result<Call, Refusal>
    ensures { result ≡ event_create fields.entry }
{
    fields.end()?;
    Ok(Call::EventCreate)
}

#[inline(always)]
#[tactic(auto, unfolding(crate::specs::ReadCalls::eventpair_create))]
fn eventpair_create(fields: Fields<'_>) -> Result<Call, Refusal>
    ensures { result ≡ eventpair_create fields.entry }
{
    fields.end()?;
    Ok(Call::EventPairCreate)
}

#[inline(always)]
#[tactic(auto, unfolding(crate::specs::ReadCalls::handle_close))]
fn handle_close(fields: Fields<'_>) -> Result<Call, Refusal>
    ensures { result ≡ handle_close fields.entry }
{
    let (handle, rest) = fields.handle()?;
    rest.end()?;
    Ok(Call::HandleClose { handle })
}

#[inline(always)]
#[tactic(auto, unfolding(crate::specs::ReadCalls::handle_duplicate))]
fn handle_duplicate(fields: Fields<'_>) -> Result<Call, Refusal>
    ensures { result ≡ handle_duplicate fields.entry }
{
    let (handle, rest) = fields.handle()?;
    let (rights, rest) = rest.mask()?;
    rest.end()?;
    Ok(Call::HandleDuplicate { handle, rights })
}

#[inline(always)]
#[tactic(auto, unfolding(crate::specs::ReadCalls::handle_replace))]
fn handle_replace(fields: Fields<'_>) -> Result<Call, Refusal>
    ensures { result ≡ handle_replace fields.entry }
{
    let (handle, rest) = fields.handle()?;
    let (rights, rest) = rest.mask()?;
    rest.end()?;
    Ok(Call::HandleReplace { handle, rights })
}

#[inline(always)]
#[tactic(auto, unfolding(crate::specs::ReadCalls::object_signal))]
fn object_signal(fields: Fields<'_>) -> Result<Call, Refusal>
    ensures { result ≡ object_signal fields.entry }
{
    let (handle, rest) = fields.handle()?;
    let (clear, rest) = rest.signals()?;
    let (set, rest) = rest.signals()?;
    rest.end()?;
    Ok(Call::ObjectSignal { handle, clear, set })
}

#[inline(always)]
#[tactic(auto, unfolding(crate::specs::ReadCalls::object_signal_peer))]
fn object_signal_peer(fields: Fields<'_>) -> Result<Call, Refusal>
    ensures { result ≡ object_signal_peer fields.entry }
{
    let (handle, rest) = fields.handle()?;
    let (clear, rest) = rest.signals()?;
    let (set, rest) = rest.signals()?;
    rest.end()?;
    Ok(Call::ObjectSignalPeer { handle, clear, set })
}
