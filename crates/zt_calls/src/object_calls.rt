//! The system calls that make events and event pairs, and those that set signals.

ghost use Rattle.std.specs.Prelude.{◌≡◌, true};
ghost use Rattle.zt_rows.specs.Reads.{has_live_process};
ghost use Rattle.zt_rows.specs.Room.{HasRoom};
ghost use Rattle.zt_rows.specs.Tests.{is_endpoint};
ghost use Rattle.zt_rows.specs.ObjectCalls.{create, create_pair, event_create, eventpair_create, object_signal, object_signal_peer};
ghost use Rattle.zt_rows.specs.Consistent.{IsSound};
ghost use Rattle.zt_store.specs.Places.{Keeps};
ghost use Rattle.zt_calls.specs.ProofsOnly.CallOutcomes.{Does};

use crate::failure::Failure;
use crate::handle_arguments::{ExpectedKind, handle_to, may_set};
use crate::new_objects::{new_object, new_pair, whole};
use zt_bits::{Kind, Rights, Signals, Status};
use zt_rows::{HandleValue, Koid, Reply};
use zt_signals::set_bits;
use zt_store::Step;
use zt_tables::{install, install_pair};

/// Makes an object of the kind, and answers with the caller's handle to it.
pub(crate) fn create(step: &mut Step, process: Koid, kind: Kind) -> Result<Reply, Failure>
    requires room { HasRoom step.old.current }
    requires sound { IsSound step.old.current }
    requires running { has_live_process step.old.current process ≡ true }
    ensures does { Does (create kind step.old.current process) step.old step.new result }
    ensures kept { Keeps step.old.places step.new.places }
{
    let koid = new_object(step, kind, Koid(0))?;
    let handle = install(step, process, whole(koid, kind))?;
    Ok(Reply::Handle(handle))
}

/// Makes two objects of the kind, each the other's peer, and answers with the caller's handles to them, in order.
pub fn create_pair(step: &mut Step, process: Koid, kind: Kind) -> Result<Reply, Failure>
    requires endpoint { is_endpoint kind ≡ true }
    requires room { HasRoom step.old.current }
    requires sound { IsSound step.old.current }
    requires running { has_live_process step.old.current process ≡ true }
    ensures does { Does (create_pair kind step.old.current process) step.old step.new result }
    ensures kept { Keeps step.old.places step.new.places }
{
    let (near, far) = new_pair(step, kind)?;
    let (first, second) = install_pair(step, process, whole(near, kind), whole(far, kind))?;
    Ok(Reply::Handles(first, second))
}

/// Makes an event.
pub fn event_create(step: &mut Step, process: Koid) -> Result<Reply, Failure>
    requires room { HasRoom step.old.current }
    requires sound { IsSound step.old.current }
    requires running { has_live_process step.old.current process ≡ true }
    ensures does { Does (event_create step.old.current process) step.old step.new result }
    ensures kept { Keeps step.old.places step.new.places }
{
    create(step, process, Kind::Event)
}

/// Makes a pair of events.
pub fn eventpair_create(step: &mut Step, process: Koid) -> Result<Reply, Failure>
    requires room { HasRoom step.old.current }
    requires sound { IsSound step.old.current }
    requires running { has_live_process step.old.current process ≡ true }
    ensures does { Does (eventpair_create step.old.current process) step.old step.new result }
    ensures kept { Keeps step.old.places step.new.places }
{
    create_pair(step, process, Kind::EventPair)
}

/// Clears and then sets signals of the object that the handle names. Answers with the status of `handle_to`, or with
/// `InvalidArgs` if a call may not set or clear these signals on its kind.
pub fn object_signal(
    step: &mut Step,
    process: Koid,
    handle: HandleValue,
    clear: Signals,
    set: Signals,
) -> Result<Reply, Failure>
    ensures does { Does (object_signal step.old.current process handle clear.0 set.0) step.old step.new result }
    ensures kept { Keeps step.old.places step.new.places }
{
    let (held, object) = handle_to(step, process, handle, ExpectedKind::Any, Rights::SIGNAL)?;
    if !may_set(object.kind, clear, set) {
        return Err(Failure::Status(Status::InvalidArgs));
    }
    set_bits(step, held.koid, clear, set)?;
    Ok(Reply::Status(Status::Ok))
}

/// Clears and then sets signals of the peer of the endpoint that the handle names.
///
/// Statuses, in the order of the checks: those of `handle_to`, `InvalidArgs` if a call may not set or clear these
/// signals on the kind, and `PeerClosed` if the peer is gone.
pub fn object_signal_peer(
    step: &mut Step,
    process: Koid,
    handle: HandleValue,
    clear: Signals,
    set: Signals,
) -> Result<Reply, Failure>
    ensures does { Does (object_signal_peer step.old.current process handle clear.0 set.0) step.old step.new result }
    ensures kept { Keeps step.old.places step.new.places }
{
    let (_, object) = handle_to(
        step,
        process,
        handle,
        ExpectedKind::Endpoint,
        Rights::SIGNAL_PEER,
    )?;
    if !may_set(object.kind, clear, set) {
        return Err(Failure::Status(Status::InvalidArgs));
    }
    step.store().object(object.link).ok_or(Status::PeerClosed)?;
    set_bits(step, object.link, clear, set)?;
    Ok(Reply::Status(Status::Ok))
}
