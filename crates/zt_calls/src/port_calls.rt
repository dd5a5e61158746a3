//! The system calls on ports, and the waits that send packets to them.

ghost use Rattle.std.specs.Prelude.{◌≡◌, true};
ghost use Rattle.zt_rows.specs.Reads.{has_live_process};
ghost use Rattle.zt_rows.specs.Room.{HasRoom};
ghost use Rattle.zt_rows.specs.Consistent.{IsSound};
ghost use Rattle.zt_rows.specs.PortCalls.{object_wait_async, port_cancel, port_create, port_queue, port_wait};
ghost use Rattle.zt_store.specs.Places.{Keeps};
ghost use Rattle.zt_calls.specs.ProofsOnly.CallOutcomes.{Does};

use crate::failure::Failure;
use crate::handle_arguments::{ExpectedKind, handle_to};
use crate::object_calls::create;
use zt_bits::{Kind, Rights, Signals, Status};
use zt_ports::{cancel, pending, queue, take_front};
use zt_rows::{HandleValue, Koid, Packet, Reply, Wait};
use zt_signals::add_wait;
use zt_store::Step;

/// The most packets of users that a port holds.
const MOST_PENDING: u64 = 2048;

/// Makes a port.
pub fn port_create(step: &mut Step, process: Koid) -> Result<Reply, Failure>
    requires room { HasRoom step.old.current }
    requires sound { IsSound step.old.current }
    requires running { has_live_process step.old.current process ≡ true }
    ensures does { Does (port_create step.old.current process) step.old step.new result }
    ensures kept { Keeps step.old.places step.new.places }
{
    create(step, process, Kind::Port)
}

/// Waits once for any of the signals on the object that the handle names, or for an edge of one. The packet will come
/// to the port under the key. Fails with the status of `handle_to` for the handle, and then for the port.
pub fn object_wait_async(
    step: &mut Step,
    process: Koid,
    handle: HandleValue,
    port: HandleValue,
    key: u64,
    signals: Signals,
    edge: bool,
) -> Result<Reply, Failure>
    requires { HasRoom step.old.current }
    ensures does { Does (object_wait_async step.old.current process handle port key signals.0 edge) step.old step.new result }
    ensures kept { Keeps step.old.places step.new.places }
{
    handle_to(step, process, handle, ExpectedKind::Any, Rights::WAIT)?;
    let (held, _) = handle_to(step, process, port, ExpectedKind::Port, Rights::WRITE)?;
    let wait = Wait {
        process,
        handle,
        port: held.koid,
        key,
        signals,
        edge,
    };
    add_wait(step, wait)?;
    Ok(Reply::Status(Status::Ok))
}

/// Appends a packet of the caller's own to the port. Answers with the status of `handle_to`, or with `ShouldWait` if
/// the port holds the most packets of users.
pub fn port_queue(
    step: &mut Step,
    process: Koid,
    port: HandleValue,
    key: u64,
    bytes: [u8; 32],
) -> Result<Reply, Failure>
    requires room { HasRoom step.old.current }
    requires sound { IsSound step.old.current }
    ensures does { Does (port_queue step.old.current process port key bytes) step.old step.new result }
    ensures kept { Keeps step.old.places step.new.places }
{
    let (held, _) = handle_to(step, process, port, ExpectedKind::Port, Rights::WRITE)?;
    if pending(step, held.koid) >= MOST_PENDING {
        return Err(Failure::Status(Status::ShouldWait));
    }
    queue(step, held.koid, Packet::User { key, bytes })?;
    Ok(Reply::Status(Status::Ok))
}

/// Takes the first packet from the port. Answers with the status of `handle_to`, or with `TimedOut` if there is no
/// packet.
pub fn port_wait(step: &mut Step, process: Koid, port: HandleValue) -> Result<Reply, Failure>
    ensures does { Does (port_wait step.old.current process port) step.old step.new result }
    ensures kept { Keeps step.old.places step.new.places }
{
    let (held, _) = handle_to(step, process, port, ExpectedKind::Port, Rights::READ)?;
    let packet = take_front(step, held.koid)?.ok_or(Status::TimedOut)?;
    Ok(Reply::Packet(packet))
}

/// Takes the caller's waits on the handle under the key, and their packets, out of the port.
///
/// Statuses, in the order of the checks: those of `handle_to` for the port and then for the handle, and `NotFound` if
/// there is no such wait or packet.
pub fn port_cancel(
    step: &mut Step,
    process: Koid,
    port: HandleValue,
    source: HandleValue,
    key: u64,
) -> Result<Reply, Failure>
    ensures does { Does (port_cancel step.old.current process port source key) step.old step.new result }
    ensures kept { Keeps step.old.places step.new.places }
{
    let (held, _) = handle_to(step, process, port, ExpectedKind::Port, Rights::WRITE)?;
    handle_to(step, process, source, ExpectedKind::Any, Rights::WAIT)?;
    if !cancel(step, held.koid, process, source, key)? {
        return Err(Failure::Status(Status::NotFound));
    }
    Ok(Reply::Status(Status::Ok))
}
