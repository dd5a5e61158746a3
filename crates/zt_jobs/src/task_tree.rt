//! Looks at where a process or job stands in the tree of jobs.

ghost use Rattle.std.specs.Prelude.{◌≡◌, ◌<◌, ◌^◌};
ghost use Rattle.zt_rows.specs.End.{chain, depth, is_live_task, is_under};
ghost use Rattle.zt_rows.specs.Reads.{object};
ghost use Rattle.zt_rows.specs.Tests.{among, link_at};
ghost use Rattle.zt_jobs.specs.EndingWalk.{critical_at};

use zt_bits::Kind;
use zt_rows::{Koid, Life};
use zt_store::Step;

/// How many jobs are above the process or job. Never allocates. Follows at most `koid.0 + 1` links.
pub fn depth(step: &Step, koid: Koid) -> u64
    requires { depth step.now.current koid < 2 ^ 64 }
    ensures { result ≡ depth step.now.current koid }
{
    let mut at = koid;
    let mut above = 0;
    'links: while above <= koid.0 {
        at = link_of(step, at);
        if at == Koid(0) {
            return above;
        }
        above += 1;
    }
    above
}

/// Whether the koid is that of the job itself, or of a live process or job that has the job above it. Never allocates.
pub fn is_under(step: &Step, job: Koid, koid: Koid) -> bool
    ensures { result ≡ is_under step.now.current job koid }
{
    koid == job || is_live_task(step, koid) && has_above(step, koid, job)
}

/// Whether parent links lead from the koid to the job. Follows at most `koid.0 + 1` links.
fn has_above(step: &Step, koid: Koid, job: Koid) -> bool
    ensures { result ≡ among (chain step.now.current koid) job }
{
    let mut at = koid;
    let mut left = koid.0;
    'links: loop {
        at = link_of(step, at);
        if at == Koid(0) {
            return false;
        }
        if at == job {
            return true;
        }
        if left == 0 {
            return false;
        }
        left -= 1;
    }
}

/// Whether the koid is that of a live process or job. Never allocates.
pub(crate) fn is_live_task(step: &Step, koid: Koid) -> bool
    ensures { result ≡ is_live_task (object step.now.current koid) }
{
    match step.store().object(koid) {
        Some(object) => {
            object.life == Life::Live && (object.kind == Kind::Job || object.kind == Kind::Process)
        }
        None => false,
    }
}

/// The link of the object, or 0 if it has none. Never allocates.
pub(crate) fn link_of(step: &Step, koid: Koid) -> Koid
    ensures { result ≡ link_at step.now.current koid }
{
    match step.store().object(koid) {
        Some(object) => object.link,
        None => Koid(0),
    }
}

/// The job that the object is critical to, or 0 if there is none. Never allocates.
pub(crate) fn critical_of(step: &Step, koid: Koid) -> Koid
    ensures { result ≡ critical_at step.now.current koid }
{
    match step.store().object(koid) {
        Some(object) => object.critical,
        None => Koid(0),
    }
}
