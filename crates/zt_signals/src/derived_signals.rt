//! Derived signals: those that follow from the rows, and that no call sets.

ghost use Rattle.std.specs.Prelude.{◌≡◌, bit_or};
ghost use Rattle.zt_rows.specs.Settle.{bit_if, derived, derived_mask, no_jobs, no_processes, peer_closed, readable, renewed, terminated, writable};

use bitflags::Flags;
use zt_bits::{Kind, Signals};
use zt_rows::{Koid, Life, ObjectRow};
use zt_store::Step;

/// The derived signals of a job: `TERMINATED`, `NO_JOBS` and `NO_PROCESSES`.
const JOB_SIGNALS: Signals = Signals(0x38);

/// The derived signals of a channel's endpoint: `READABLE`, `WRITABLE` and `PEER_CLOSED`.
const CHANNEL_SIGNALS: Signals = Signals(0x7);

/// All signals of the object, with the derived ones computed anew. Never allocates.
pub(crate) fn renewed_signals(step: &Step, koid: Koid, object: &ObjectRow) -> Signals
    ensures { result.0 ≡ renewed step.now.current koid object.now }
{
    let lasting = object.signals.difference(derived_mask(object.kind));
    lasting.union(derived_signals(step, koid, object))
}

/// The derived signals of the kind: those that follow from the rows.
fn derived_mask(kind: Kind) -> Signals
    ensures { result.0 ≡ derived_mask kind }
{
    match kind {
        Kind::Job => JOB_SIGNALS,
        Kind::Process => Signals::TERMINATED,
        Kind::Channel => CHANNEL_SIGNALS,
        Kind::EventPair => Signals::PEER_CLOSED,
        Kind::Event | Kind::Port => Signals(0),
    }
}

/// The derived signals that the rows give the object.
fn derived_signals(step: &Step, koid: Koid, object: &ObjectRow) -> Signals
    ensures { result.0 ≡ derived step.now.current koid object.now }
{
    match object.kind {
        Kind::Job => terminated(object).union(no_children(step, koid)),
        Kind::Process => terminated(object),
        Kind::Channel => {
            let of_peer = writable(object).union(peer_closed(object));
            readable(step, koid).union(of_peer)
        }
        Kind::EventPair => peer_closed(object),
        Kind::Event | Kind::Port => Signals(0),
    }
}

/// `READABLE` while a message is queued.
fn readable(step: &Step, endpoint: Koid) -> Signals
    ensures { result.0 ≡ readable step.now.current endpoint }
{
    let first = step.store().first_message(endpoint);
    signal_if(first.is_some(), Signals::READABLE)
}

/// `WRITABLE` while the peer is there.
fn writable(endpoint: &ObjectRow) -> Signals
    ensures { result.0 ≡ writable endpoint.now }
{
    signal_if(endpoint.link != Koid(0), Signals::WRITABLE)
}

/// `PEER_CLOSED` once the peer is gone.
fn peer_closed(endpoint: &ObjectRow) -> Signals
    ensures { result.0 ≡ peer_closed endpoint.now }
{
    signal_if(endpoint.link == Koid(0), Signals::PEER_CLOSED)
}

/// `TERMINATED` once the task has ended.
fn terminated(task: &ObjectRow) -> Signals
    ensures { result.0 ≡ terminated task.now }
{
    signal_if(task.life != Life::Live, Signals::TERMINATED)
}

/// `NO_JOBS` while no live job is a child of the job, and `NO_PROCESSES` while no live process is.
fn no_children(step: &Step, job: Koid) -> Signals
    ensures { result.0 ≡ bit_or (no_jobs step.now.current job) (no_processes step.now.current job) }
{
    no_jobs(step, job).union(no_processes(step, job))
}

/// `NO_JOBS` while no live job is a child of the job.
fn no_jobs(step: &Step, job: Koid) -> Signals
    ensures { result.0 ≡ no_jobs step.now.current job }
{
    let children = step.store().child_jobs(job);
    signal_if(children == 0, Signals::NO_JOBS)
}

/// `NO_PROCESSES` while no live process is a child of the job.
fn no_processes(step: &Step, job: Koid) -> Signals
    ensures { result.0 ≡ no_processes step.now.current job }
{
    let children = step.store().child_processes(job);
    signal_if(children == 0, Signals::NO_PROCESSES)
}

/// The signal if the test holds, else none.
fn signal_if(holds: bool, signal: Signals) -> Signals
    ensures { result.0 ≡ bit_if holds signal.0 }
{
    if holds { signal } else { Signals(0) }
}
