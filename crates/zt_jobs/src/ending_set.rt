//! Finds what ends with a process or job, by a walk from task to task.

ghost use Rattle.std.specs.Prelude.{◌≡◌, ◌==◌, ◌||◌, ℕ, IfOk, OnOk};
ghost use Rattle.zt_rows.specs.Tests.{among};
ghost use Rattle.zt_store.specs.KoidSets.{only};
ghost use Rattle.zt_jobs.specs.EndingWalk.{IsWalkable, ends_next, is_child_in, is_critical_to};
ghost use Rattle.zt_jobs.specs.ProofsOnly.TaskTree.{IsRising};
ghost use Rattle.zt_jobs.specs.ProofsOnly.FoundKoids.{found};
ghost use Rattle.zt_jobs.specs.ProofsOnly.EndingWalk.{IsNoted};

use crate::found_set::FoundKoids;
use crate::task_tree::critical_of;
use std::alloc::{AllocError, Global};
use zt_rows::Koid;
use zt_store::Step;

/// The koids that the walk over what ends with the process or job finds, in rising order.
pub(crate) fn members_ending(
    alloc: Global,
    step: &Step,
    task: Koid,
) -> Result<Vec<Koid>, AllocError>
    ensures members { IfOk result (λ members. IsWalkable step.now.current task (among members.items)) }
    ensures rising { IfOk result (λ members. IsRising members.items) }
{
    let known = known_ending(alloc, step, task)?;
    let members = known.by_koid(alloc)?;
    Ok(members)
}

/// The koids that the walk over what ends with the process or job finds.
///
/// The walk finds what ends next to a known task by the parent and by the critical job. So it looks at no other object.
/// Each task waits for this once.
fn known_ending(alloc: Global, step: &Step, task: Koid) -> Result<FoundKoids, AllocError>
    ensures { IfOk result (λ known. IsWalkable step.now.current task (found known)) }
{
    let mut known = FoundKoids::new(alloc);
    let mut waiting = Vec::new(alloc);
    note(task, &mut known, &mut waiting)?;
    for _ in 0..u64::MAX {
        let Some(at) = waiting.pop() else {
            return Ok(known);
        };
        add_next(step, at, &mut known, &mut waiting)?;
    }
    Err(AllocError)
}

/// Adds what ends next to this task to the known koids. A koid that was not known is put on the waiting list.
fn add_next(
    step: &Step,
    task: Koid,
    known: &mut FoundKoids,
    waiting: &mut Vec<Koid>,
) -> Result<(), AllocError>
    ensures known { OnOk result ((x : ℕ) → found known.new x
        ≡ (found known.old x || ends_next step.now.current task x)) }
    ensures noted { OnOk result (IsNoted (found known.old) waiting.old.items (found known.new) waiting.new.items) }
{
    add_below(step, task, known, waiting)?;
    add_critical(step, task, known, waiting)?;
    Ok(())
}

/// Adds the job that this task is critical to, if there is one. If the job was not known, it is put on the waiting
/// list.
fn add_critical(
    step: &Step,
    task: Koid,
    known: &mut FoundKoids,
    waiting: &mut Vec<Koid>,
) -> Result<(), AllocError>
    ensures known { OnOk result ((x : ℕ) → found known.new x
        ≡ (found known.old x || is_critical_to step.now.current task x)) }
    ensures noted { OnOk result (IsNoted (found known.old) waiting.old.items (found known.new) waiting.new.items) }
{
    let job = critical_of(step, task);
    if job == Koid(0) {
        return Ok(());
    }
    note(job, known, waiting)?;
    Ok(())
}

/// Adds the live processes and jobs whose parent is this one to the known koids. Those that were not known are put on
/// the waiting list.
fn add_below(
    step: &Step,
    parent: Koid,
    known: &mut FoundKoids,
    waiting: &mut Vec<Koid>,
) -> Result<(), AllocError>
    ensures known { OnOk result ((x : ℕ) → found known.new x
        ≡ (found known.old x || is_child_in step.now.current (only parent) x)) }
    ensures noted { OnOk result (IsNoted (found known.old) waiting.old.items (found known.new) waiting.new.items) }
{
    if parent == Koid(0) {
        return Ok(());
    }
    let mut low = None;
    'tasks: while let Some(task) = step.store().task_below(parent, low) {
        note(task, known, waiting)?;
        low = Some(task);
    }
    Ok(())
}

/// Adds the koid to the known ones. If it was not known, it is put on the waiting list.
fn note(koid: Koid, known: &mut FoundKoids, waiting: &mut Vec<Koid>) -> Result<(), AllocError>
    ensures known { OnOk result ((x : ℕ) → found known.new x ≡ (found known.old x || (koid == x))) }
    ensures noted { OnOk result (IsNoted (found known.old) waiting.old.items (found known.new) waiting.new.items) }
{
    let is_new = known.insert(koid)?;
    if !is_new {
        return Ok(());
    }
    waiting.push(koid)?;
    Ok(())
}
