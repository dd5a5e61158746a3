//! A job with many jobs under it, and a hundred processes under each of these. The last process is critical to the job
//! above all of them.

use crate::histories::{does, makes};
use zt_history::History;
use zt_rows::{Call, FIRST_HANDLE, HandleValue};

/// The first process's handle to the job above all others of the workload.
const ABOVE: HandleValue = HandleValue(7);

/// How many processes each job below has.
const PROCESSES: u32 = 100;

/// The distance between the handles of one job below and those of the next: four for the job, and four for each of its
/// processes.
const APART: u32 = 404;

/// The handle to the job of this number, from 0.
fn job(number: u32) -> HandleValue {
    HandleValue(number.saturating_mul(APART).saturating_add(11))
}

/// The handle that was given last before the job of this number was made.
fn last_before(number: u32) -> HandleValue {
    HandleValue(number.saturating_mul(APART).saturating_add(7))
}

/// Makes the job of this number, and the processes under it.
fn makes_job(history: &mut History, number: u32) -> bool {
    if !makes(history, &Ok(Call::JobCreate { job: ABOVE })) {
        return false;
    }
    let spawn = Ok(Call::Spawn {
        job: job(number),
        argument: HandleValue(0),
    });
    for _ in 0..PROCESSES {
        if !makes(history, &spawn) {
            return false;
        }
    }
    true
}

/// Makes `count` jobs with their processes.
fn makes_jobs(history: &mut History, count: u32) -> bool {
    for number in 0..count {
        if !makes_job(history, number) {
            return false;
        }
    }
    true
}

/// Makes this many processes, a hundred under each job. The last becomes critical to the job above all of them.
pub(crate) fn makes_critical(history: &mut History, count: u32) -> bool {
    let jobs = count / PROCESSES;
    let critical = Call::JobSetCritical {
        job: ABOVE,
        process: last_before(jobs),
    };
    makes(history, &Ok(Call::JobCreate { job: FIRST_HANDLE }))
        && makes_jobs(history, jobs)
        && does(history, critical)
}

/// Kills the critical process of this many.
pub(crate) fn kills_critical(history: &mut History, count: u32) -> bool {
    let handle = last_before(count / PROCESSES);
    does(history, Call::TaskKill { handle })
}
