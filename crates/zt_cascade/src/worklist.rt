//! Removes by a worklist the objects that nothing supports.

ghost use Rattle.std.specs.Prelude.{◌≡◌, ◌≤◌, ◌+◌, ◌∷◌, OnErr, OnOk, Option, if◌then◌else◌, length, not};
ghost use Rattle.zt_rows.specs.Collect.{collect, goes, without};
ghost use Rattle.zt_rows.specs.Reads.{object};
ghost use Rattle.zt_rows.specs.Support.{is_supported};
ghost use Rattle.zt_store.specs.Places.{Keeps};
ghost use Rattle.zt_store.specs.StepView.{Advanced, AsBegun};
ghost use Rattle.zt_store.specs.ProofsOnly.StepView.{IsAhead};
ghost use Rattle.zt_store.specs.KoidSets.{only};
ghost use Rattle.zt_cascade.specs.ToldObjects.{IsCovered};
ghost use Rattle.zt_cascade.specs.JoinedLinks.{IsJoined};
ghost use Rattle.zt_cascade.specs.ProofsOnly.RemovedObject.{Covers, weight};

use crate::lost_objects::list_told;
use crate::removed_rows::take_out;
use std::alloc::AllocError;
use zt_rows::{Held, Koid, ObjectRow};
use zt_store::Step;

/// Removes all objects that nothing supports, with what they own, and everything that goes after them. Releasing is
/// collecting: the state is then what `collect` gives.
///
/// The released handles are out of the rows already. The handles and the step have to tell of each object that goes: a
/// released handle names it, it is new, or it had a support when the step began. A step that began with every object
/// supported tells of all (`laws::what_a_step_loses_is_told`).
///
/// The work grows with what goes, with the handles and with the keys that the step put. It does not grow with the rows
/// of the store. If an allocation fails, the step is reset.
pub fn release(step: &mut Step, released: &[Held]) -> Result<(), AllocError>
    requires joined { IsJoined step.old.current }
    requires covered { IsCovered step.old released.now }
    ensures ok { OnOk result (Advanced step.old step.new (collect step.old.current)) }
    ensures err { OnErr result (AsBegun step.old step.new) }
    ensures kept { Keeps step.old.places step.new.places }
{
    let done = release_all(step, released);
    if done.is_err() {
        step.reset();
    }
    done
}

/// Removes everything that goes. If an allocation fails, the step is left half done.
fn release_all(step: &mut Step, released: &[Held]) -> Result<(), AllocError>
    requires joined { IsJoined step.old.current }
    requires covered { IsCovered step.old released.now }
    ensures ahead { IsAhead step.old step.new }
    ensures ok { OnOk result (step.new.current ≡ collect step.old.current) }
{
    let mut list = step.take_koids();
    list_told(step, &mut list, released)?;
    follow(step, &mut list)?;
    step.keep_koids(list);
    Ok(())
}

/// Removes the objects of the list that nothing supports, and what goes after them, until nothing goes.
fn follow(step: &mut Step, list: &mut Vec<Koid>) -> Result<(), AllocError>
    requires joined { IsJoined step.old.current }
    requires covered { Covers list.old.items step.old.current }
    ensures ahead { IsAhead step.old step.new }
    ensures ok { OnOk result (step.new.current ≡ collect step.old.current) }
{
    while let Some(koid) = list.pop() {
        look_at(step, koid, list)?;
    }
    Ok(())
}

/// Removes the object if nothing supports it, and adds to the list the objects that it may release.
fn look_at(step: &mut Step, koid: Koid, list: &mut Vec<Koid>) -> Result<(), AllocError>
    requires joined { IsJoined step.old.current }
    ensures ahead { IsAhead step.old step.new }
    ensures ok { OnOk result (step.new.current ≡ (if goes step.old.current koid then without step.old.current (only koid) else step.old.current)) }
    ensures covered { OnOk result (Covers (koid ∷ list.old.items) step.old.current → Covers list.new.items step.new.current) }
    ensures lighter { OnOk result (weight step.new.current + length list.new.items ≤ weight step.old.current + length list.old.items) }
{
    match unsupported(step, koid) {
        Some(object) => take_out(step, koid, &object, list),
        None => Ok(()),
    }
}

/// The object, if it is there and nothing supports it.
fn unsupported(step: &Step, koid: Koid) -> Option<ObjectRow>
    ensures { result ≡ (if goes step.now.current koid then object step.now.current koid else Option.None) }
{
    if is_free(step, koid) {
        step.store().object(koid)
    } else {
        None
    }
}

/// Whether nothing supports the object.
#[tactic(auto, using(crate::proofs::ReleasingLaws::counted))]
pub(crate) fn is_free(step: &Step, koid: Koid) -> bool
    ensures { result ≡ not (is_supported step.now.current koid) }
{
    step.count(koid) == 0
}
