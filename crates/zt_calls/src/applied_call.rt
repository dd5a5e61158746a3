//! Runs one system call on a store, with everything that follows it.

ghost use Rattle.std.specs.Prelude.{◌≡◌, ◌↔◌, ◌⊎◌, true, false, IfOk, IfErr, OnOk, OnErr, IsErrOf};
ghost use Rattle.zt_rows.specs.declared.calls.Reply.{Reply};
ghost use Rattle.zt_rows.specs.Reads.{has_live_process};
ghost use Rattle.zt_rows.specs.Room.{HasRoom};
ghost use Rattle.zt_rows.specs.State.{State};
ghost use Rattle.zt_rows.specs.Step.{direct, step};
ghost use Rattle.zt_rows.specs.Change.{before};
ghost use Rattle.zt_rows.specs.Consistent.{IsSound, IsConsistent};
ghost use Rattle.zt_store.specs.Places.{Keeps, fits};
ghost use Rattle.zt_store.specs.StepView.{Advanced, AsBegun, IsAtRest, Stepping};
ghost use Rattle.zt_calls.specs.ProofsOnly.CallOutcomes.{Does};

use crate::channel_calls::{channel_create, channel_read, channel_write};
use crate::failure::Failure;
use crate::handle_calls::{handle_close, handle_duplicate, handle_replace};
use crate::job_calls::{job_create, job_set_critical, process_exit, spawn, task_kill};
use crate::object_calls::{event_create, eventpair_create, object_signal, object_signal_peer};
use crate::port_calls::{object_wait_async, port_cancel, port_create, port_queue, port_wait};
use std::alloc::{AllocError, Global};
use std::mem;
use zt_bits::Status;
use zt_cascade::{release, settle};
use zt_rows::{Call, Held, Koid, Refusal, Reply};
use zt_store::{Record, Step, Store};

/// Whether the koid is that of a live process. Only a live process may call.
pub fn has_live_process(store: &Store, process: Koid) -> bool
    ensures { result ≡ has_live_process store.now.state process }
{
    match store.object(process) {
        Some(object) => object.is_live_process(),
        None => false,
    }
}

/// Runs one call of a process, so that the store has the rows after it. Returns the reply, and the record by which the
/// call is undone. The record fits the store.
///
/// Errors: `NoProcess` if the caller is not a live process, `OutOfMemory` if an allocation fails. The store's rows are
/// then as before.
pub fn apply(
    alloc: Global,
    store: &mut Store,
    process: Koid,
    call: &Call,
) -> Result<(Reply, Record), Refusal>
    requires room { HasRoom store.old.state }
    requires consistent { IsConsistent store.old.state }
    ensures ok { IfOk result (λ answer. (store.new.state, answer.0) ≡ step store.old.state process call.now) }
    ensures recorded { IfOk result (λ answer. answer.1 ≡ before store.old.state store.new.state) }
    ensures fits { IfOk result (λ answer. fits store.new.places answer.1 ≡ true) }
    ensures no_process { IsErrOf result Refusal.NoProcess ↔ (has_live_process store.old.state process ≡ false) }
    ensures refusals { IfErr result (λ refusal. (refusal ≡ Refusal.NoProcess) ⊎ (refusal ≡ Refusal.OutOfMemory)) }
    ensures err { OnErr result (store.new.state ≡ store.old.state) }
    ensures consistent { IsConsistent store.new.state }
    ensures kept { Keeps store.old.places store.new.places }
{
    if !has_live_process(store, process) {
        return Err(Refusal::NoProcess);
    }
    let mut step = Step::begin(mem::replace(store, Store::hollow(alloc)));
    let mut reply = Reply::Status(Status::Ok);
    let done = run_on(alloc, &mut step, process, call, &mut reply);
    put_in_place(store, step.abandon());
    match done {
        Ok(record) => Ok((reply, record)),
        Err(_) => Err(Refusal::OutOfMemory),
    }
}

/// Runs one call of a process that is known to run, as `apply` does, on the store of a step at rest. The step is at
/// rest again afterwards. After the call's own change come the removal of what nothing supports, the derived signals
/// and the firing of waits.
///
/// The reply is written to `reply`: a reply is large, and would go through memory at each return. Fails only if an
/// allocation fails, and leaves the rows as they were.
#[tactic(auto, unfolding(zt_rows::specs::Step::step))]
pub fn run_on(
    alloc: Global,
    resting: &mut Step,
    process: Koid,
    call: &Call,
    reply: &mut Reply,
) -> Result<Record, AllocError>
    requires rest { IsAtRest resting.old }
    requires room { HasRoom resting.old.current }
    requires consistent { IsConsistent resting.old.current }
    requires running { has_live_process resting.old.current process ≡ true }
    ensures rest { IsAtRest resting.new }
    ensures ok { OnOk result ((resting.new.current, reply.new) ≡ step resting.old.current process call.now) }
    ensures recorded { IfOk result (λ change. change ≡ before resting.old.current resting.new.current) }
    ensures fits { IfOk result (λ change. fits resting.new.places change ≡ true) }
    ensures err { OnErr result (resting.new.current ≡ resting.old.current) }
    ensures consistent { IsConsistent resting.new.current }
    ensures kept { Keeps resting.old.places resting.new.places }
{
    call.limits();
    let mut released = Vec::new(alloc);
    let done = direct(alloc, resting, process, call, &mut released);
    leave(done, reply)?;
    release(resting, released.as_slice())?;
    settle(resting)?;
    Ok(resting.commit())
}

/// Puts the store in the place of a hollow one. The hollow one has no memory to be given back.
fn put_in_place(place: &mut Store, store: Store)
    ensures { place.new ≡ store }
{
    mem::forget(mem::replace(place, store));
}

/// Writes what the function of a call answered to `place`. Fails if an allocation failed in that function.
#[inline(always)]
fn leave(done: Result<Reply, Failure>, place: &mut Reply) -> Result<(), AllocError>
    ensures ok { OnOk result ((d : State × Reply) (old new : Stepping) → Does d old new done → Advanced old new d.0 × (place.new ≡ d.1)) }
    ensures err { OnErr result ((d : State × Reply) (old new : Stepping) → Does d old new done → AsBegun old new) }
{
    *place = match done {
        Ok(reply) => reply,
        Err(Failure::Status(status)) => Reply::Status(status),
        Err(Failure::OutOfMemory) => return Err(AllocError),
    };
    Ok(())
}

/// Runs the function of the call with the call's arguments: its checks in order, and then its change of rows. Leaves
/// the handles of what it ends in `released`.
#[inline(always)]
#[tactic(auto, unfolding(zt_rows::specs::Step::direct))]
fn direct(
    alloc: Global,
    step: &mut Step,
    process: Koid,
    call: &Call,
    released: &mut Vec<Held>,
) -> Result<Reply, Failure>
    requires room { HasRoom step.old.current }
    requires sound { IsSound step.old.current }
    requires running { has_live_process step.old.current process ≡ true }
    ensures does { Does (direct step.old.current process call.now) step.old step.new result }
    ensures kept { Keeps step.old.places step.new.places }
{
    match call {
        Call::EventCreate => event_create(step, process),
        Call::EventPairCreate => eventpair_create(step, process),
        Call::HandleClose { handle } => handle_close(step, process, *handle),
        Call::HandleDuplicate { handle, rights } => {
            handle_duplicate(step, process, *handle, *rights)
        }
        Call::HandleReplace { handle, rights } => {
            handle_replace(step, process, *handle, *rights)
        }
        Call::ObjectSignal { handle, clear, set } => {
            object_signal(step, process, *handle, *clear, *set)
        }
        Call::ObjectSignalPeer { handle, clear, set } => {
            object_signal_peer(step, process, *handle, *clear, *set)
        }
        Call::ChannelCreate => channel_create(step, process),
        Call::ChannelWrite { handle, parcel } => {
            channel_write(alloc, step, process, *handle, parcel)
        }
        Call::ChannelRead {
            handle,
            bytes,
            handles,
            discard,
        } => channel_read(alloc, step, process, *handle, *bytes, *handles, *discard),
        Call::PortCreate => port_create(step, process),
        Call::ObjectWaitAsync {
            handle,
            port,
            key,
            signals,
            edge,
        } => object_wait_async(step, process, *handle, *port, *key, *signals, *edge),
        Call::PortQueue { port, key, bytes } => port_queue(step, process, *port, *key, *bytes),
        Call::PortWait { port } => port_wait(step, process, *port),
        Call::PortCancel { port, source, key } => {
            port_cancel(step, process, *port, *source, *key)
        }
        Call::JobCreate { job } => job_create(step, process, *job),
        Call::Spawn { job, argument } => spawn(step, process, *job, *argument),
        Call::JobSetCritical {
            job,
            process: critical,
        } => job_set_critical(step, process, *job, *critical),
        Call::TaskKill { handle } => task_kill(alloc, step, process, *handle, released),
        Call::ProcessExit { code } => process_exit(alloc, step, process, *code, released),
    }
}
