//! The front of an endpoint's queue, where messages are taken.

ghost use Rattle.std.specs.Prelude.{◌≡◌, IfOk, OnOk, OnErr};
ghost use Rattle.std.specs.Option.{option_map};
ghost use Rattle.zt_rows.specs.Reads.{queue};
ghost use Rattle.zt_rows.specs.Tests.{first};
ghost use Rattle.zt_store.specs.Places.{Keeps};
ghost use Rattle.zt_store.specs.StepView.{Advanced, AsBegun};
ghost use Rattle.zt_queues.specs.QueueFront.{handles_of, popped, without_messages};

use std::alloc::{AllocError, Global};
use zt_rows::{Held, Koid, Message, RowKey};
use zt_store::Step;

/// The first message of the endpoint's queue, with its number. Never allocates.
pub fn front(step: &Step, endpoint: Koid) -> Option<(u64, &Message)>
    ensures { option_map (λ f. (f.0, f.1.now)) result ≡ first (queue step.now.current endpoint) }
{
    let store = step.store();
    let number = store.first_message(endpoint)?;
    let message = store.message(endpoint, number)?;
    Some((number, message))
}

/// Takes away the first message of the endpoint's queue, and returns a copy of it. If the queue is empty, nothing
/// changes. If an allocation fails, all puts of the step are taken back.
#[tactic(auto, using(crate::proofs::TakenLaws::popped_some, crate::proofs::TakenLaws::popped_none))]
pub fn pop(step: &mut Step, endpoint: Koid) -> Result<Option<Message>, AllocError>
    ensures message { IfOk result (λ message. message ≡ option_map (λ e. e.1) (first (queue step.old.current endpoint))) }
    ensures popped { OnOk result (Advanced step.old step.new (popped step.old.current endpoint)) }
    ensures err { OnErr result (AsBegun step.old step.new) }
    ensures kept { Keeps step.old.places step.new.places }
{
    let Some((number, message)) = front(step, endpoint) else {
        return Ok(None);
    };
    let Ok(copied) = message.copy() else {
        step.reset();
        return Err(AllocError);
    };
    step.put(RowKey::Msg(endpoint, number), None)?;
    Ok(Some(copied))
}

/// Takes away all messages of the endpoint, and returns what their handles hold, in the order of the queue. If an
/// allocation fails, all puts of the step are taken back.
pub fn take_all(alloc: Global, step: &mut Step, endpoint: Koid) -> Result<Vec<Held>, AllocError>
    ensures handles { IfOk result (λ taken. taken.items ≡ handles_of (queue step.old.current endpoint)) }
    ensures taken { OnOk result (Advanced step.old step.new (without_messages step.old.current endpoint)) }
    ensures err { OnErr result (AsBegun step.old step.new) }
    ensures kept { Keeps step.old.places step.new.places }
{
    let mut taken = Vec::new(alloc);
    while let Some((number, message)) = front(step, endpoint) {
        let Ok(()) = taken.extend_from_slice(message.handles().as_slice()) else {
            step.reset();
            return Err(AllocError);
        };
        step.put(RowKey::Msg(endpoint, number), None)?;
    }
    Ok(taken)
}
