//! Takes away the waits of processes that end.

ghost use Rattle.std.specs.Prelude.{◌≡◌, OnOk};
ghost use Rattle.zt_rows.specs.State.{change};
ghost use Rattle.zt_rows.specs.Tests.{among};
ghost use Rattle.zt_store.specs.ProofsOnly.StepView.{IsAhead};
ghost use Rattle.zt_store.specs.KoidSets.{only};
ghost use Rattle.zt_jobs.specs.ProofsOnly.EndedTasks.{without_waits};

use std::alloc::AllocError;
use zt_rows::{Koid, RowKey};
use zt_store::Step;

/// Takes away all waits that the members made. Finds them by their process, so that other waits are not looked at.
pub(crate) fn drop_waits(step: &mut Step, members: &[Koid]) -> Result<(), AllocError>
    ensures ahead { IsAhead step.old step.new }
    ensures ok { OnOk result (step.new.current ≡ change (without_waits (among members.now)) step.old.current) }
{
    for koid in members {
        drop_waits_by(step, *koid)?;
    }
    Ok(())
}

/// Takes away all waits that the process made. Looks for the next wait while the one before it still stands in its
/// place, so that no wait is passed twice.
fn drop_waits_by(step: &mut Step, process: Koid) -> Result<(), AllocError>
    ensures ahead { IsAhead step.old step.new }
    ensures ok { OnOk result (step.new.current ≡ change (without_waits (only process)) step.old.current) }
{
    let mut next = step.store().wait_by(process, None);
    'waits: while let Some(number) = next {
        next = step.store().wait_by(process, next);
        step.put(RowKey::Wait(number), None)?;
    }
    Ok(())
}
