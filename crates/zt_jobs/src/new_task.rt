//! Makes jobs and processes.

ghost use Rattle.std.specs.Prelude.{◌≡◌, ◌+◌, ◌<◌, ◌^◌, IfOk, OnErr, if◌then◌else◌};
ghost use Rattle.zt_bits.specs.declared.kinds.Kind.TheVariants as kind_variant;
ghost use Rattle.zt_rows.specs.Handles.{fresh, make, next_koid};
ghost use Rattle.zt_rows.specs.JobCalls.{child, hand_over};
ghost use Rattle.zt_rows.specs.Reads.{counters};
ghost use Rattle.zt_store.specs.Places.{Keeps};
ghost use Rattle.zt_store.specs.StepView.{Advanced, AsBegun};

use std::alloc::AllocError;
use zt_bits::Kind;
use zt_rows::{Counters, FIRST_HANDLE, Held, Koid, ObjectRow, Row, RowKey};
use zt_store::Step;

/// Makes a live job under the parent, and returns its koid, the next one of the system. If an allocation fails, the
/// step is reset.
pub fn make_job(step: &mut Step, parent: Koid) -> Result<Koid, AllocError>
    requires { next_koid step.old.current + 1 < 2 ^ 64 }
    ensures koid { IfOk result (λ koid. koid ≡ next_koid step.old.current) }
    ensures made { let S = step.old.current in
        IfOk result (λ _. Advanced step.old step.new (make (counters S) (fresh kind_variant.Job parent) S)) }
    ensures err { OnErr result (AsBegun step.old step.new) }
    ensures kept { Keeps step.old.places step.new.places }
{
    make(step, ObjectRow::new(Kind::Job, parent))
}

/// Makes a live process under the job, and returns its koid, the next one of the system. If something is given, it
/// becomes the process's first handle. If an allocation fails, the step is reset.
pub fn make_process(step: &mut Step, job: Koid, given: Option<Held>) -> Result<Koid, AllocError>
    requires { next_koid step.old.current + 1 < 2 ^ 64 }
    ensures koid { IfOk result (λ koid. koid ≡ next_koid step.old.current) }
    ensures made { let S = step.old.current in IfOk result (λ _. Advanced step.old step.new
        (hand_over given (next_koid S) (make (counters S) (child given job) S))) }
    ensures err { OnErr result (AsBegun step.old step.new) }
    ensures kept { Keeps step.old.places step.new.places }
{
    let process = make(step, child(given.is_some(), job))?;
    if let Some(held) = given {
        step.put(RowKey::Entry(process, FIRST_HANDLE), Some(Row::Entry(held)))?;
    }
    Ok(process)
}

/// Puts the object under the next koid of the system, and returns that koid.
#[tactic(auto, using(crate::proofs::PutOrder::object_last))]
fn make(step: &mut Step, object: ObjectRow) -> Result<Koid, AllocError>
    requires { next_koid step.old.current + 1 < 2 ^ 64 }
    ensures koid { IfOk result (λ koid. koid ≡ next_koid step.old.current) }
    ensures made { let S = step.old.current in
        IfOk result (λ _. Advanced step.old step.new (make (counters S) object S)) }
    ensures err { OnErr result (AsBegun step.old step.new) }
    ensures kept { Keeps step.old.places step.new.places }
{
    let counters = step.store().counters();
    let koid = counters.next_koid;
    let raised = Counters {
        next_koid: Koid(koid.0 + 1),
        ..counters
    };
    step.put(RowKey::Counters, Some(Row::Counters(raised)))?;
    step.put(RowKey::Object(koid), Some(Row::Object(object)))?;
    Ok(koid)
}

/// The row of a new live process under the job, which has received a handle or none.
fn child(has_handle: bool, job: Koid) -> ObjectRow
    ensures { result ≡ record (fresh kind_variant.Process job) { next = if has_handle then 1 else 0 } }
{
    ObjectRow {
        next: u64::from(has_handle),
        ..ObjectRow::new(Kind::Process, job)
    }
}
