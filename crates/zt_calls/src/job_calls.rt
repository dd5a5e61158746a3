//! The system calls on jobs and processes.

ghost use Rattle.std.specs.Prelude.{◌≡◌, ◌<◌, ◌+◌, ◌^◌, true, IfSome, IsSome, OnOk, OnErr};
ghost use Rattle.zt_rows.specs.Consistent.{IsSound};
ghost use Rattle.zt_rows.specs.Handles.{next_koid};
ghost use Rattle.zt_rows.specs.JobCalls.{argument, give_up, job_create, job_set_critical, process_exit, spawn, task_kill};
ghost use Rattle.zt_rows.specs.Reads.{entry, has_live_process};
ghost use Rattle.zt_rows.specs.Room.{HasRoom};
ghost use Rattle.zt_rows.specs.Tests.{next_at};
ghost use Rattle.zt_store.specs.Places.{Keeps};
ghost use Rattle.zt_store.specs.StepView.{Advanced, AsBegun};
ghost use Rattle.zt_calls.specs.ProofsOnly.CallOutcomes.{Does};
ghost use Rattle.zt_calls.specs.ProofsOnly.NewTasks.{job_made, process_made};

use crate::failure::Failure;
use crate::handle_arguments::{ExpectedKind, handle_to};
use crate::new_objects::whole;
use crate::taken_handles::take_out;
use std::alloc::{AllocError, Global};
use zt_bits::{Kind, Rights, Status};
use zt_jobs::{depth, end_process, end_subtree, is_under, make_job, make_process, set_critical};
use zt_rows::{HandleValue, Held, Koid, Life, Reply};
use zt_store::Step;
use zt_tables::install;

/// The most jobs above a job. The root job has none.
const MOST_DEPTH: u64 = 32;

// ---- making jobs and processes

/// Makes a live job under the job that the handle names, and answers with the caller's handle to it.
///
/// Statuses, in the order of the checks: those of `handle_to`, `BadState` if the parent has ended, and `OutOfRange` if
/// too many jobs are above it.
pub fn job_create(step: &mut Step, process: Koid, job: HandleValue) -> Result<Reply, Failure>
    requires room { HasRoom step.old.current }
    requires sound { IsSound step.old.current }
    requires running { has_live_process step.old.current process ≡ true }
    ensures does { Does (job_create step.old.current process job) step.old step.new result }
    ensures kept { Keeps step.old.places step.new.places }
{
    let (held, parent) = handle_to(step, process, job, ExpectedKind::Job, Rights::MANAGE_JOB)?;
    if parent.life != Life::Live {
        return Err(Failure::Status(Status::BadState));
    }
    if depth(step, held.koid) >= MOST_DEPTH {
        return Err(Failure::Status(Status::OutOfRange));
    }
    add_job(step, process, held.koid)
}

/// Makes a live job under the parent, and answers with the caller's handle to it.
fn add_job(step: &mut Step, process: Koid, parent: Koid) -> Result<Reply, Failure>
    requires koids { next_koid step.old.current + 1 < 2 ^ 64 }
    requires values { next_at step.old.current process < 2 ^ 30 }
    requires sound { IsSound step.old.current }
    requires running { has_live_process step.old.current process ≡ true }
    ensures does { Does (job_made step.old.current process parent) step.old step.new result }
    ensures kept { Keeps step.old.places step.new.places }
{
    let koid = make_job(step, parent)?;
    let handle = install(step, process, whole(koid, Kind::Job))?;
    Ok(Reply::Handle(handle))
}

/// Makes a live process under the job that the handle names. Answers with the caller's handle to the process, and with
/// its koid. The caller gives up the handle `value`, which becomes the process's first one. With 0 it hands over
/// nothing.
///
/// Statuses, in the order of the checks: those of `handle_to` for the job and then for `value`, and `BadState` if the
/// job has ended.
pub fn spawn(
    step: &mut Step,
    process: Koid,
    job: HandleValue,
    value: HandleValue,
) -> Result<Reply, Failure>
    requires room { HasRoom step.old.current }
    requires sound { IsSound step.old.current }
    requires running { has_live_process step.old.current process ≡ true }
    ensures does { Does (spawn step.old.current process job value) step.old step.new result }
    ensures kept { Keeps step.old.places step.new.places }
{
    let (held, parent) = handle_to(
        step,
        process,
        job,
        ExpectedKind::Job,
        Rights::MANAGE_PROCESS,
    )?;
    let given = argument(step, process, value)?;
    if parent.life != Life::Live {
        return Err(Failure::Status(Status::BadState));
    }
    give_up(step, process, value, &given)?;
    add_process(step, process, held.koid, given)
}

/// The held object that the value hands over to a new process, or none for 0. Fails with the status of `handle_to`.
fn argument(step: &Step, process: Koid, value: HandleValue) -> Result<Option<Held>, Status>
    ensures { result ≡ argument step.now.current process value }
{
    if value == HandleValue(0) {
        return Ok(None);
    }
    let (held, _) = handle_to(step, process, value, ExpectedKind::Any, Rights::TRANSFER)?;
    Ok(Some(held))
}

/// Takes what is handed over out of the caller's table.
fn give_up(
    step: &mut Step,
    process: Koid,
    value: HandleValue,
    given: &Option<Held>,
) -> Result<(), AllocError>
    requires { IfSome given.now (λ _. IsSome (entry step.old.current process value)) }
    ensures ok { OnOk result (Advanced step.old step.new (give_up given.now process value step.old.current)) }
    ensures err { OnErr result (AsBegun step.old step.new) }
    ensures kept { Keeps step.old.places step.new.places }
{
    match given {
        Some(_) => take_out(step, process, value),
        None => Ok(()),
    }
}

/// Makes a live process under the job, and hands it what the caller gave up. Answers with the caller's handle to the
/// process, and with its koid.
fn add_process(
    step: &mut Step,
    process: Koid,
    job: Koid,
    given: Option<Held>,
) -> Result<Reply, Failure>
    requires koids { next_koid step.old.current + 1 < 2 ^ 64 }
    requires values { next_at step.old.current process < 2 ^ 30 }
    requires sound { IsSound step.old.current }
    requires running { has_live_process step.old.current process ≡ true }
    ensures does { Does (process_made step.old.current process job given) step.old step.new result }
    ensures kept { Keeps step.old.places step.new.places }
{
    let koid = make_process(step, job, given)?;
    let handle = install(step, process, whole(koid, Kind::Process))?;
    Ok(Reply::Spawned(handle, koid))
}

// ---- ending them

/// Makes the process critical to the job, which is above it. A process is critical to one job at most.
///
/// Statuses, in the order of the checks:
///
/// - those of `handle_to` for the job, and then for the process;
/// - `AlreadyBound`, if the process is critical to a job already;
/// - `InvalidArgs`, if the process is not under the job.
pub fn job_set_critical(
    step: &mut Step,
    process: Koid,
    job: HandleValue,
    critical: HandleValue,
) -> Result<Reply, Failure>
    ensures does { Does (job_set_critical step.old.current process job critical) step.old step.new result }
    ensures kept { Keeps step.old.places step.new.places }
{
    let (above, _) = handle_to(step, process, job, ExpectedKind::Job, Rights::DESTROY)?;
    let (held, object) = handle_to(step, process, critical, ExpectedKind::Process, Rights::WAIT)?;
    if object.critical != Koid(0) {
        return Err(Failure::Status(Status::AlreadyBound));
    }
    if !is_under(step, above.koid, held.koid) {
        return Err(Failure::Status(Status::InvalidArgs));
    }
    set_critical(step, held.koid, above.koid)?;
    Ok(Reply::Status(Status::Ok))
}

/// Kills the process or the job that the handle names, and what ends with it. Leaves the handles of all these in
/// `released`, to be released. Killing what has ended is ok and changes nothing. Fails with the status of `handle_to`.
pub fn task_kill(
    alloc: Global,
    step: &mut Step,
    process: Koid,
    handle: HandleValue,
    released: &mut Vec<Held>,
) -> Result<Reply, Failure>
    requires sound { IsSound step.old.current }
    ensures does { Does (task_kill step.old.current process handle) step.old step.new result }
    ensures kept { Keeps step.old.places step.new.places }
{
    let (held, task) = handle_to(step, process, handle, ExpectedKind::Task, Rights::DESTROY)?;
    if task.life == Life::Live {
        *released = end_subtree(alloc, step, held.koid, Life::Killed)?;
    }
    Ok(Reply::Status(Status::Ok))
}

/// Ends the caller with the code, and kills what else ends with it. Leaves the handles of all these in `released`, to
/// be released.
pub fn process_exit(
    alloc: Global,
    step: &mut Step,
    process: Koid,
    code: i64,
    released: &mut Vec<Held>,
) -> Result<Reply, Failure>
    requires sound { IsSound step.old.current }
    requires running { has_live_process step.old.current process ≡ true }
    ensures does { Does (process_exit step.old.current process code) step.old step.new result }
    ensures kept { Keeps step.old.places step.new.places }
{
    *released = end_process(alloc, step, process, Life::Exited(code))?;
    Ok(Reply::Status(Status::Ok))
}
