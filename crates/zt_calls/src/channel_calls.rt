//! The system calls on channels.

ghost use Rattle.std.specs.Prelude.{◌≡◌, true};
ghost use Rattle.zt_rows.specs.Reads.{has_live_process};
ghost use Rattle.zt_rows.specs.Room.{HasRoom};
ghost use Rattle.zt_rows.specs.ChannelCalls.{channel_create, channel_write, channel_read};
ghost use Rattle.zt_rows.specs.Consistent.{IsSound};
ghost use Rattle.zt_store.specs.Places.{Keeps};
ghost use Rattle.zt_calls.specs.ProofsOnly.CallOutcomes.{Does};

use crate::failure::Failure;
use crate::handle_arguments::{ExpectedKind, handle_to};
use crate::object_calls::create_pair;
use crate::received_message::{has_room_for, take_message};
use crate::sent_message::message_for;
use crate::taken_handles::take_out_all;
use std::alloc::Global;
use zt_bits::{Kind, Rights, Status};
use zt_queues::{front, push};
use zt_rows::{HandleValue, Koid, Parcel, Reply, RowKey};
use zt_store::Step;

/// Makes a channel: two endpoints, each the other's peer.
pub fn channel_create(step: &mut Step, process: Koid) -> Result<Reply, Failure>
    requires room { HasRoom step.old.current }
    requires sound { IsSound step.old.current }
    requires running { has_live_process step.old.current process ≡ true }
    ensures does { Does (channel_create step.old.current process) step.old step.new result }
    ensures kept { Keeps step.old.places step.new.places }
{
    create_pair(step, process, Kind::Channel)
}

/// Sends a message with the parcel's bytes and handles to the peer of the channel that the handle names. The listed
/// handles leave the caller's table in any case: if the write fails, they are closed.
///
/// A write fails with the status of `message_for`. If an allocation fails, the step is reset.
pub fn channel_write(
    alloc: Global,
    step: &mut Step,
    process: Koid,
    handle: HandleValue,
    parcel: &Parcel,
) -> Result<Reply, Failure>
    requires room { HasRoom step.old.current }
    requires sound { IsSound step.old.current }
    ensures does { Does (channel_write step.old.current process handle parcel.now.bytes parcel.now.handles) step.old step.new result }
    ensures kept { Keeps step.old.places step.new.places }
{
    let values = parcel.handles().as_slice();
    match message_for(alloc, step, process, handle, parcel) {
        Ok((endpoint, message)) => {
            take_out_all(step, process, values)?;
            push(step, endpoint, message)?;
            Ok(Reply::Status(Status::Ok))
        }
        Err(Failure::Status(wrong)) => {
            take_out_all(step, process, values)?;
            Err(Failure::Status(wrong))
        }
        Err(Failure::OutOfMemory) => {
            step.reset();
            Err(Failure::OutOfMemory)
        }
    }
}

/// Takes the first message from the queue of the channel's endpoint that the handle names. The message must have at
/// most this many bytes and handles.
///
/// If it has more, the answer `TooSmall` tells its numbers of bytes and handles. With `discard`, a message that is too
/// large is dropped with its handles; otherwise it stays. An empty queue is answered `PeerClosed` if the peer is gone,
/// and `ShouldWait` if not.
pub fn channel_read(
    alloc: Global,
    step: &mut Step,
    process: Koid,
    handle: HandleValue,
    bytes: u32,
    handles: u32,
    discard: bool,
) -> Result<Reply, Failure>
    requires room { HasRoom step.old.current }
    requires sound { IsSound step.old.current }
    requires running { has_live_process step.old.current process ≡ true }
    ensures does { Does (channel_read step.old.current process handle bytes handles discard) step.old step.new result }
    ensures kept { Keeps step.old.places step.new.places }
{
    let (held, object) = handle_to(step, process, handle, ExpectedKind::Channel, Rights::READ)?;
    let Some((number, message)) = front(step, held.koid) else {
        let peer_is_gone = object.link == Koid(0);
        let empty = if peer_is_gone {
            Status::PeerClosed
        } else {
            Status::ShouldWait
        };
        return Err(Failure::Status(empty));
    };
    if has_room_for(bytes, handles, message) {
        return take_message(alloc, step, process, held.koid);
    }
    let size = Reply::TooSmall(message.bytes().len() as u32, message.handles().len() as u32);
    if discard {
        step.put(RowKey::Msg(held.koid, number), None)?;
    }
    Ok(size)
}
