//! The end of an endpoint's queue, where messages are pushed.

ghost use Rattle.std.specs.Prelude.{◌<◌, ◌+◌, ◌^◌, OnOk, OnErr};
ghost use Rattle.zt_rows.specs.Reads.{object};
ghost use Rattle.zt_rows.specs.Tests.{next_at};
ghost use Rattle.zt_store.specs.Places.{Keeps};
ghost use Rattle.zt_store.specs.StepView.{Advanced, AsBegun};
ghost use Rattle.zt_queues.specs.QueueEnd.{pushed};

use std::alloc::AllocError;
use zt_rows::{Koid, Message, ObjectRow, Row, RowKey};
use zt_store::Step;

/// Adds the message at the end of the endpoint's queue, under the endpoint's next number. If there is no such object,
/// nothing changes. If an allocation fails, all puts of the step are taken back.
#[tactic(auto, using(crate::proofs::PutOrder::message_last))]
pub fn push(step: &mut Step, endpoint: Koid, message: Message) -> Result<(), AllocError>
    requires { next_at step.old.current endpoint + 1 < 2 ^ 64 }
    ensures ok { OnOk result (Advanced step.old step.new (pushed step.old.current endpoint message)) }
    ensures err { OnErr result (AsBegun step.old step.new) }
    ensures kept { Keeps step.old.places step.new.places }
{
    let Some(object) = step.store().object(endpoint) else {
        return Ok(());
    };
    let raised = ObjectRow {
        next: object.next + 1,
        ..object
    };
    step.put(RowKey::Object(endpoint), Some(Row::Object(raised)))?;
    step.put(RowKey::Msg(endpoint, object.next), Some(Row::Msg(message)))
}
