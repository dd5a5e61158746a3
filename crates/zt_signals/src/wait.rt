//! Adds waits, and takes away those on a handle.

ghost use Rattle.std.specs.Prelude.{◌≡◌, ◌<◌, ◌+◌, ◌^◌, IfOk, OnOk, OnErr};
ghost use Rattle.zt_rows.specs.PortCalls.{add_wait};
ghost use Rattle.zt_rows.specs.Reads.{counters};
ghost use Rattle.zt_rows.specs.State.{change};
ghost use Rattle.zt_rows.specs.Tests.{any_row};
ghost use Rattle.zt_store.specs.Places.{Keeps};
ghost use Rattle.zt_store.specs.StepView.{Advanced, AsBegun};
ghost use Rattle.zt_signals.specs.DroppedWaits.{is_cancelled_wait, without_cancelled_waits, without_waits_on};

use crate::wait_group::{WaitGroup, drop_picked};
use std::alloc::AllocError;
use zt_rows::{Counters, HandleValue, Koid, Row, RowKey, Wait};
use zt_store::Step;

/// Adds the wait under the next wait number. If an allocation fails, all puts of the step are taken back.
#[tactic(auto, using(crate::proofs::PutOrder::wait_last))]
pub fn add_wait(step: &mut Step, wait: Wait) -> Result<(), AllocError>
    requires { (counters step.old.current).next_wait + 1 < 2 ^ 64 }
    ensures ok { let S = step.old.current in OnOk result (Advanced step.old step.new (add_wait (counters S) wait S)) }
    ensures err { OnErr result (AsBegun step.old step.new) }
    ensures kept { Keeps step.old.places step.new.places }
{
    let counters = step.store().counters();
    let raised = Counters {
        next_wait: counters.next_wait + 1,
        ..counters
    };
    step.put(RowKey::Counters, Some(Row::Counters(raised)))?;
    step.put(RowKey::Wait(counters.next_wait), Some(Row::Wait(wait)))
}

/// Takes away the waits that the process made on the handle. It finds them in the handle's hash bucket, and looks at no
/// waits outside it. If an allocation fails, all puts of the step are taken back.
pub fn drop_waits(step: &mut Step, process: Koid, handle: HandleValue) -> Result<(), AllocError>
    ensures ok { OnOk result (Advanced step.old step.new (change (without_waits_on process handle) step.old.current)) }
    ensures err { OnErr result (AsBegun step.old step.new) }
    ensures kept { Keeps step.old.places step.new.places }
{
    drop_picked(step, WaitGroup::On(process, handle))?;
    Ok(())
}

/// Takes away the waits for the port that the process made on the handle under the key. Returns whether there was any.
/// It finds them in the handle's hash bucket, and looks at no waits outside it. If an allocation fails, all puts of the
/// step are taken back.
pub fn cancel_waits(
    step: &mut Step,
    port: Koid,
    process: Koid,
    handle: HandleValue,
    key: u64,
) -> Result<bool, AllocError>
    ensures ok { OnOk result (Advanced step.old step.new (change (without_cancelled_waits port process handle key) step.old.current)) }
    ensures any { IfOk result (λ any. any ≡ any_row (is_cancelled_wait port process handle key) step.old.current) }
    ensures err { OnErr result (AsBegun step.old step.new) }
    ensures kept { Keeps step.old.places step.new.places }
{
    drop_picked(step, WaitGroup::Under(port, process, handle, key))
}
