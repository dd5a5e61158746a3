//! Ends a process, or a job with its subtree, and everything else that ends with it.

ghost use Rattle.std.specs.Prelude.{◌≡◌, ◌==◌, ℕ, Bool, true, IfOk, OnOk, OnErr};
ghost use Rattle.zt_rows.specs.declared.keys.RowKey.TheVariants as key_variant;
ghost use Rattle.zt_rows.specs.declared.rows.Life.TheVariants as life_variant;
ghost use Rattle.zt_rows.specs.End.{end};
ghost use Rattle.zt_rows.specs.State.{change};
ghost use Rattle.zt_rows.specs.Tests.{among};
ghost use Rattle.zt_store.specs.Places.{Keeps};
ghost use Rattle.zt_store.specs.StepView.{Advanced, AsBegun};
ghost use Rattle.zt_store.specs.ProofsOnly.StepView.{IsAhead};
ghost use Rattle.zt_store.specs.KoidSets.{only};
ghost use Rattle.zt_jobs.specs.EndingWalk.{IsWalkable, all_but};
ghost use Rattle.zt_jobs.specs.ProofsOnly.TaskTree.{IsRising};
ghost use Rattle.zt_jobs.specs.EndedTasks.{handles_of};
ghost use Rattle.zt_jobs.specs.ProofsOnly.EndedTasks.{left_behind, with_end, with_life};

use crate::ended_tables::take_tables;
use crate::ended_waits::drop_waits;
use crate::ending_set::members_ending;
use std::alloc::{AllocError, Global};
use zt_rows::{Held, Koid, Life, ObjectRow, Row, RowKey};
use zt_store::Step;

/// Ends the process as `how` says, and kills everything else that the walk from it finds. In a sound state, this is
/// what ends with the process.
///
/// All of these lose their parents, their entries and the waits that they made. Returns what the entries held, by
/// rising process and handle value. The work grows with what ends, with its entries and with its waits. No other row is
/// looked at. If an allocation fails, the step is reset.
pub fn end_process(
    alloc: Global,
    step: &mut Step,
    process: Koid,
    how: Life,
) -> Result<Vec<Held>, AllocError>
    ensures found { IfOk result (λ _. (ending : ℕ → Bool) × IsWalkable step.old.current process ending) }
    ensures handles { let S = step.old.current in (ending : ℕ → Bool) → IsWalkable S process ending
        → IfOk result (λ taken. taken.items ≡ handles_of S ending) }
    ensures ended { let S = step.old.current in (ending : ℕ → Bool) → IsWalkable S process ending
        → OnOk result (Advanced step.old step.new
        (end (end S (λ x. x == process) how) (all_but process ending) life_variant.Killed)) }
    ensures err { OnErr result (AsBegun step.old step.new) }
    ensures kept { Keeps step.old.places step.new.places }
{
    let Ok(members) = members_ending(alloc, step, process) else {
        step.reset();
        return Err(AllocError);
    };
    let done = exit_all(alloc, step, members.as_slice(), process, how);
    if done.is_err() {
        step.reset();
    }
    done
}

/// Ends, as `how` says, the job and everything else that the walk from it finds. In a sound state, this is what ends
/// with the job.
///
/// All of these lose their parents, their entries and the waits that they made. Returns what the entries held, by
/// rising process and handle value. The work grows with what ends, with its entries and with its waits. No other row is
/// looked at. If an allocation fails, the step is reset.
pub fn end_subtree(
    alloc: Global,
    step: &mut Step,
    job: Koid,
    how: Life,
) -> Result<Vec<Held>, AllocError>
    ensures found { IfOk result (λ _. (ending : ℕ → Bool) × IsWalkable step.old.current job ending) }
    ensures handles { let S = step.old.current in (ending : ℕ → Bool) → IsWalkable S job ending
        → IfOk result (λ taken. taken.items ≡ handles_of S ending) }
    ensures ended { let S = step.old.current in (ending : ℕ → Bool) → IsWalkable S job ending
        → OnOk result (Advanced step.old step.new (end S ending how)) }
    ensures err { OnErr result (AsBegun step.old step.new) }
    ensures kept { Keeps step.old.places step.new.places }
{
    let Ok(members) = members_ending(alloc, step, job) else {
        step.reset();
        return Err(AllocError);
    };
    let done = end_all(alloc, step, members.as_slice(), how);
    if done.is_err() {
        step.reset();
    }
    done
}

/// Ends the process, which is one of the members, as `how` says, and kills the other members. Returns what the entries
/// of all members held. If an allocation fails, the step is left half done.
fn exit_all(
    alloc: Global,
    step: &mut Step,
    members: &[Koid],
    process: Koid,
    how: Life,
) -> Result<Vec<Held>, AllocError>
    requires rising { IsRising members.now }
    requires member { among members.now process ≡ true }
    ensures ahead { IsAhead step.old step.new }
    ensures handles { IfOk result (λ taken. taken.items ≡ handles_of step.old.current (among members.now)) }
    ensures ended { OnOk result (step.new.current
        ≡ end (end step.old.current (λ x. x == process) how) (all_but process (among members.now)) life_variant.Killed) }
{
    let taken = end_all(alloc, step, members, Life::Killed)?;
    set_life(step, process, how)?;
    Ok(taken)
}

/// Ends the members, and returns what their entries held. If an allocation fails, the step is left half done.
fn end_all(
    alloc: Global,
    step: &mut Step,
    members: &[Koid],
    how: Life,
) -> Result<Vec<Held>, AllocError>
    requires { IsRising members.now }
    ensures ahead { IsAhead step.old step.new }
    ensures handles { IfOk result (λ taken. taken.items ≡ handles_of step.old.current (among members.now)) }
    ensures ended { OnOk result (step.new.current ≡ end step.old.current (among members.now) how) }
{
    end_tasks(step, members, how)?;
    let taken = take_tables(alloc, step, members)?;
    drop_waits(step, members)?;
    Ok(taken)
}

/// Writes into the rows of the members that they ended as `how` says.
fn end_tasks(step: &mut Step, members: &[Koid], how: Life) -> Result<(), AllocError>
    ensures ahead { IsAhead step.old step.new }
    ensures ok { OnOk result (step.new.current ≡ change (with_end (among members.now) how) step.old.current) }
{
    for koid in members {
        end_task(step, *koid, how)?;
    }
    Ok(())
}

/// Writes into the row of the object that it ended as `how` says, and clears its parent and the job that it is critical
/// to.
fn end_task(step: &mut Step, koid: Koid, how: Life) -> Result<(), AllocError>
    ensures ahead { IsAhead step.old step.new }
    ensures ok { OnOk result (step.new.current ≡ left_behind (with_end (only koid) how) step.old.current (key_variant.Object koid)) }
{
    let Some(object) = step.store().object(koid) else {
        return Ok(());
    };
    let ended = ObjectRow {
        link: Koid(0),
        life: how,
        critical: Koid(0),
        ..object
    };
    step.put(RowKey::Object(koid), Some(Row::Object(ended)))
}

/// Writes into the row of the object that it ended as `how` says, and leaves the rest of the row.
fn set_life(step: &mut Step, koid: Koid, how: Life) -> Result<(), AllocError>
    ensures ahead { IsAhead step.old step.new }
    ensures ok { OnOk result (step.new.current ≡ left_behind (with_life koid how) step.old.current (key_variant.Object koid)) }
{
    let Some(object) = step.store().object(koid) else {
        return Ok(());
    };
    let ended = ObjectRow {
        life: how,
        ..object
    };
    step.put(RowKey::Object(koid), Some(Row::Object(ended)))
}
