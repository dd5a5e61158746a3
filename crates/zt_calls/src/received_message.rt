//! Takes a message from a queue and gives its handles to the reader.

ghost use Rattle.std.specs.Prelude.{◌≡◌, ◌≤◌, ◌+◌, ◌-◌, ◌^◌, true, length, IfOk, OnErr};
ghost use Rattle.zt_rows.specs.Reads.{queue, has_live_process};
ghost use Rattle.zt_rows.specs.Tests.{first, next_at};
ghost use Rattle.zt_rows.specs.Room.{HasRoom};
ghost use Rattle.zt_rows.specs.Handles.{caller, install_all, values_from};
ghost use Rattle.zt_rows.specs.ChannelCalls.{has_room_for};
ghost use Rattle.zt_store.specs.Places.{Keeps};
ghost use Rattle.zt_store.specs.StepView.{Advanced, AsBegun};
ghost use Rattle.zt_calls.specs.ProofsOnly.CallOutcomes.{Does};
ghost use Rattle.zt_calls.specs.ProofsOnly.ReceivedMessage.{received};

use crate::failure::Failure;
use std::alloc::{AllocError, Global};
use zt_bits::Status;
use zt_queues::pop;
use zt_rows::{HandleValue, Held, Items, Koid, Message, Reply};
use zt_store::Step;
use zt_tables::install;

/// Whether the message has at most this many bytes and handles.
pub fn has_room_for(bytes: u32, handles: u32, message: &Message) -> bool
    ensures { result ≡ has_room_for bytes handles message.now }
{
    message.bytes().len() <= bytes as usize && message.handles().len() <= handles as usize
}

/// Takes the first message of the endpoint's queue. Its handles become the process's, in their order. Fails with
/// `ShouldWait` if the queue is empty.
pub fn take_message(
    alloc: Global,
    step: &mut Step,
    process: Koid,
    endpoint: Koid,
) -> Result<Reply, Failure>
    requires room { HasRoom step.old.current }
    requires running { has_live_process step.old.current process ≡ true }
    ensures does { let S = step.old.current in
        Does (received (first (queue S endpoint)) S process endpoint) step.old step.new result }
    ensures kept { Keeps step.old.places step.new.places }
{
    let message = pop(step, endpoint)?.ok_or(Status::ShouldWait)?;
    let values = install_all(alloc, step, process, message.handles().as_slice())?;
    let (bytes, _) = message.into_parts();
    Ok(Reply::Message(bytes, Items::new(values)))
}

/// Gives the process a handle for each of these, in order, and returns the handle values. If an allocation fails, the
/// step is reset.
fn install_all(
    alloc: Global,
    step: &mut Step,
    process: Koid,
    handles: &[Held],
) -> Result<Vec<HandleValue>, AllocError>
    requires { next_at step.old.current process + length handles.now ≤ 2 ^ 30 }
    ensures values { IfOk result (λ values. values.items ≡ values_from (next_at step.old.current process) handles.now) }
    ensures installed { let S = step.old.current in
        IfOk result (λ _. Advanced step.old step.new (install_all process (caller S process) handles.now S)) }
    ensures err { OnErr result (AsBegun step.old step.new) }
    ensures kept { Keeps step.old.places step.new.places }
{
    let mut values = Vec::new(alloc);
    for held in handles {
        let value = install(step, process, *held)?;
        let Ok(()) = values.push(value) else {
            step.reset();
            return Err(AllocError);
        };
    }
    Ok(values)
}
