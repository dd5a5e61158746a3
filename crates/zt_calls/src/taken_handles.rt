//! Takes entries out of the caller's handle table, with the waits made on them.

ghost use Rattle.std.specs.Prelude.{IsSome, OnOk, OnErr};
ghost use Rattle.zt_rows.specs.Reads.{entry};
ghost use Rattle.zt_rows.specs.Tests.{among};
ghost use Rattle.zt_rows.specs.Handles.{take_out, take_out_all};
ghost use Rattle.zt_rows.specs.Consistent.{IsSound};
ghost use Rattle.zt_store.specs.Places.{Keeps};
ghost use Rattle.zt_store.specs.StepView.{Advanced, AsBegun};

use std::alloc::AllocError;
use zt_rows::{HandleValue, Koid};
use zt_signals::drop_waits;
use zt_store::Step;
use zt_tables::remove;

/// Takes an entry of the process out, with the waits made on it. If an allocation fails, the step is reset.
#[inline(always)]
pub fn take_out(step: &mut Step, process: Koid, handle: HandleValue) -> Result<(), AllocError>
    requires there { IsSome (entry step.old.current process handle) }
    ensures ok { OnOk result (Advanced step.old step.new (take_out step.old.current process handle)) }
    ensures err { OnErr result (AsBegun step.old step.new) }
    ensures kept { Keeps step.old.places step.new.places }
{
    remove(step, process, handle)?;
    drop_waits(step, process, handle)
}

/// Takes the entries of the process with the listed values out, with the waits made on them. Skips values without an
/// entry. If an allocation fails, the step is reset.
pub fn take_out_all(
    step: &mut Step,
    process: Koid,
    values: &[HandleValue],
) -> Result<(), AllocError>
    requires sound { IsSound step.old.current }
    ensures ok { OnOk result (Advanced step.old step.new (take_out_all step.old.current process (among values.now))) }
    ensures err { OnErr result (AsBegun step.old step.new) }
    ensures kept { Keeps step.old.places step.new.places }
{
    for value in values {
        take_out_if_there(step, process, *value)?;
    }
    Ok(())
}

/// Takes an entry of the process out, with the waits made on it, if there is one.
fn take_out_if_there(step: &mut Step, process: Koid, handle: HandleValue) -> Result<(), AllocError>
    requires sound { IsSound step.old.current }
    ensures ok { OnOk result (Advanced step.old step.new (take_out step.old.current process handle)) }
    ensures err { OnErr result (AsBegun step.old step.new) }
    ensures kept { Keeps step.old.places step.new.places }
{
    match step.store().entry(process, handle) {
        Some(_) => take_out(step, process, handle),
        None => Ok(()),
    }
}
