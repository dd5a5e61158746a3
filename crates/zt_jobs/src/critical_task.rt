//! Makes a process critical to a job.

ghost use Rattle.std.specs.Prelude.{OnOk, OnErr};
ghost use Rattle.zt_store.specs.Places.{Keeps};
ghost use Rattle.zt_store.specs.StepView.{Advanced, AsBegun};
ghost use Rattle.zt_jobs.specs.CriticalTask.{made_critical};

use std::alloc::AllocError;
use zt_rows::{Koid, ObjectRow, Row, RowKey};
use zt_store::Step;

/// Makes the process critical to the job: writes that field of the process's row, and nothing else. If the process has
/// no row, writes nothing. If an allocation fails, the step is reset.
pub fn set_critical(step: &mut Step, process: Koid, job: Koid) -> Result<(), AllocError>
    ensures ok { let S = step.old.current in
        OnOk result (Advanced step.old step.new (made_critical S process job)) }
    ensures err { OnErr result (AsBegun step.old step.new) }
    ensures kept { Keeps step.old.places step.new.places }
{
    let Some(object) = step.store().object(process) else {
        return Ok(());
    };
    let bound = ObjectRow {
        critical: job,
        ..object
    };
    step.put(RowKey::Object(process), Some(Row::Object(bound)))
}
