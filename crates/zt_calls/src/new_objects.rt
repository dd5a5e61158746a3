//! Makes objects, with the handles that a call gives for them.

ghost use Rattle.std.specs.Prelude.{◌≡◌, ◌<◌, ◌+◌, ◌^◌, IfOk, OnErr};
ghost use Rattle.zt_rows.specs.Reads.{counters};
ghost use Rattle.zt_rows.specs.Handles.{fresh, make, make_pair, next_koid, whole};
ghost use Rattle.zt_store.specs.Places.{Keeps};
ghost use Rattle.zt_store.specs.StepView.{Advanced, AsBegun};

use std::alloc::AllocError;
use zt_bits::{Kind, defaults};
use zt_rows::{Counters, Held, Koid, ObjectRow, Row, RowKey};
use zt_store::Step;

/// A handle to the object, with the rights that its kind begins with.
pub fn whole(koid: Koid, kind: Kind) -> Held
    ensures { result ≡ whole koid kind }
{
    Held {
        koid,
        rights: defaults(kind),
    }
}

/// Makes a live object of the kind, and returns its koid, the next one of the system. If an allocation fails, the step
/// is reset.
#[tactic(auto, using(crate::proofs::PutOrder::object_last))]
pub fn new_object(step: &mut Step, kind: Kind, link: Koid) -> Result<Koid, AllocError>
    requires { next_koid step.old.current < 2 ^ 63 }
    ensures koid { IfOk result (λ koid. koid ≡ next_koid step.old.current) }
    ensures made { let S = step.old.current in
        IfOk result (λ _. Advanced step.old step.new (make (counters S) (fresh kind link) S)) }
    ensures err { OnErr result (AsBegun step.old step.new) }
    ensures kept { Keeps step.old.places step.new.places }
{
    let counters = step.store().counters();
    let koid = counters.next_koid;
    let raised = Counters {
        next_koid: Koid(koid.0 + 1),
        ..counters
    };
    step.put(RowKey::Counters, Some(Row::Counters(raised)))?;
    step.put(
        RowKey::Object(koid),
        Some(Row::Object(ObjectRow::new(kind, link))),
    )?;
    Ok(koid)
}

/// Makes two live objects of the kind, each the other's peer. Returns their koids, the next two of the system, in
/// order. If an allocation fails, the step is reset.
#[tactic(auto, using(crate::proofs::PutOrder::objects_last))]
pub fn new_pair(step: &mut Step, kind: Kind) -> Result<(Koid, Koid), AllocError>
    requires { next_koid step.old.current < 2 ^ 63 }
    ensures koids { let k = next_koid step.old.current in IfOk result (λ koids. koids ≡ (k, k + 1)) }
    ensures made { let S = step.old.current in
        IfOk result (λ _. Advanced step.old step.new (make_pair (counters S) kind S)) }
    ensures err { OnErr result (AsBegun step.old step.new) }
    ensures kept { Keeps step.old.places step.new.places }
{
    let counters = step.store().counters();
    let near = counters.next_koid;
    let far = Koid(near.0 + 1);
    let raised = Counters {
        next_koid: Koid(near.0 + 2),
        ..counters
    };
    step.put(RowKey::Counters, Some(Row::Counters(raised)))?;
    step.put(
        RowKey::Object(near),
        Some(Row::Object(ObjectRow::new(kind, far))),
    )?;
    step.put(
        RowKey::Object(far),
        Some(Row::Object(ObjectRow::new(kind, near))),
    )?;
    Ok((near, far))
}
