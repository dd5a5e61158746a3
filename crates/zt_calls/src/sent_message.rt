//! Composes the message that a write sends.

ghost use Rattle.std.specs.Prelude.{◌≡◌, []};
ghost use Rattle.zt_rows.specs.ChannelCalls.{sent};
ghost use Rattle.zt_calls.specs.ProofsOnly.SentMessage.{Finds, message_for, sendable};

use crate::failure::Failure;
use crate::handle_arguments::{ExpectedKind, handle_to};
use std::alloc::Global;
use zt_bits::{Rights, Status};
use zt_rows::{HandleValue, Held, Items, Koid, Message, Parcel};
use zt_store::Step;

/// The message that a write sends, and the endpoint that it is for: the peer of the channel that the handle names. The
/// entries stay in the caller's table.
///
/// The checks in order: the channel's handle as in `handle_to`, then the list from its left, then `PeerClosed` if the
/// peer is gone.
pub fn message_for(
    alloc: Global,
    step: &Step,
    process: Koid,
    handle: HandleValue,
    parcel: &Parcel,
) -> Result<(Koid, Message), Failure>
    ensures { Finds (message_for step.now.current process handle parcel.now.bytes parcel.now.handles) result }
{
    let (_, object) = handle_to(step, process, handle, ExpectedKind::Channel, Rights::WRITE)?;
    let handles = sent(alloc, step, process, handle, parcel.handles().as_slice())?;
    step.store().object(object.link).ok_or(Status::PeerClosed)?;
    parcel.limits();
    let bytes = parcel.bytes().copy()?;
    let message = Message::new(bytes, handles).unwrap();
    Ok((object.link, message))
}

/// The held objects of the listed values, in order. Fails with the fault of the first value that cannot be sent.
fn sent(
    alloc: Global,
    step: &Step,
    process: Koid,
    channel: HandleValue,
    values: &[HandleValue],
) -> Result<Items<Held>, Failure>
    ensures { Finds (sent step.now.current process channel [] values.now) result }
{
    let mut handles = Vec::with_capacity(alloc, values.len())?;
    for (i, value) in values.iter().enumerate() {
        let held = sendable(step, process, channel, &values[..i], *value)?;
        let Ok(()) = handles.push(held) else {
            return Err(Failure::OutOfMemory);
        };
    }
    Ok(Items::new(handles))
}

/// The held object of the value, if it can be sent.
///
/// Errors, in the order of the checks:
///
/// - `BadHandle`, if the value is not valid or stands among the earlier ones;
/// - `NotSupported`, if it is the channel's own;
/// - `AccessDenied`, if it may not be transferred.
fn sendable(
    step: &Step,
    process: Koid,
    channel: HandleValue,
    earlier: &[HandleValue],
    value: HandleValue,
) -> Result<Held, Status>
    ensures { result ≡ sendable step.now.current process channel earlier.now value }
{
    let held = step.store().entry(process, value).ok_or(Status::BadHandle)?;
    if earlier.contains(&value) {
        return Err(Status::BadHandle);
    }
    if value == channel {
        return Err(Status::NotSupported);
    }
    if !held.rights.allows(Rights::TRANSFER) {
        return Err(Status::AccessDenied);
    }
    Ok(held)
}
