//! Settles a state after a call: renews the derived signals and fires the waits that are met.

ghost use Rattle.std.specs.Prelude.{◌≡◌, ◌<◌, ◌^◌, true, OnErr, OnOk, Option};
ghost use Rattle.std.specs.Option.{option_copied};
ghost use Rattle.zt_rows.specs.Consistent.{IsConsistent};
ghost use Rattle.zt_rows.specs.Reads.{object};
ghost use Rattle.zt_rows.specs.Settle.{refresh, settle};
ghost use Rattle.zt_rows.specs.State.{row};
ghost use Rattle.zt_rows.specs.Tests.{among};
ghost use Rattle.zt_store.specs.Places.{Keeps};
ghost use Rattle.zt_store.specs.StepView.{Advanced, AsBegun, DiffersAtTouched};
ghost use Rattle.zt_store.specs.ProofsOnly.StepView.{IsAhead};
ghost use Rattle.zt_cascade.specs.PacketRoom.{HasRoomToFire};
ghost use Rattle.zt_cascade.specs.ProofsOnly.NearObjects.{StaysAlike, HasAllNear, HasItself, HasNear, HasNearObject, HasParent};
ghost use Rattle.zt_cascade.specs.ProofsOnly.RaisedWaits.{IsLonger};

use crate::fired_waits::fire_all;
use std::alloc::AllocError;
use zt_bits::Kind;
use zt_rows::{Koid, ObjectRow, Row, RowKey};
use zt_store::Step;

/// Renews the derived signals, and then fires the waits that are met, by rising number. A wait on an edge fires for a
/// signal that did not stand when the step began.
///
/// The step began consistent, so only objects near a key that it put can have other signals than before. The work grows
/// with these keys and with the waits on what changed. It does not grow with the rows of the store. If an allocation
/// fails, the step is reset.
pub fn settle(step: &mut Step) -> Result<(), AllocError>
    requires began { IsConsistent step.old.beginning }
    requires room { HasRoomToFire step.old.beginning step.old.current }
    ensures ok { OnOk result (Advanced step.old step.new (settle step.old.beginning step.old.current)) }
    ensures err { OnErr result (AsBegun step.old step.new) }
    ensures kept { Keeps step.old.places step.new.places }
{
    let done = settle_all(step);
    if done.is_err() {
        step.reset();
    }
    done
}

/// Renews the derived signals and fires waits. If an allocation fails, the step is left half done.
fn settle_all(step: &mut Step) -> Result<(), AllocError>
    requires began { IsConsistent step.old.beginning }
    requires room { HasRoomToFire step.old.beginning step.old.current }
    ensures ahead { IsAhead step.old step.new }
    ensures ok { OnOk result (step.new.current ≡ settle step.old.beginning step.old.current) }
{
    renew_near(step)?;
    fire_all(step)
}

/// Renews the derived signals of all objects near a key that was put in this step.
fn renew_near(step: &mut Step) -> Result<(), AllocError>
    requires { IsConsistent step.old.beginning }
    ensures ahead { IsAhead step.old step.new }
    ensures ok { OnOk result (step.new.current ≡ refresh step.old.current) }
{
    // All are gathered before the first is renewed, since renewing puts rows.
    let mut near = step.take_koids();
    list_near(step, &mut near)?;
    for koid in &near {
        zt_signals::refresh(step, *koid)?;
    }
    step.keep_koids(near);
    Ok(())
}

/// Adds to the list the objects near the keys that were put in this step. The step differs from its beginning only
/// under these keys.
fn list_near(step: &Step, list: &mut Vec<Koid>) -> Result<(), AllocError>
    ensures near { OnOk result (HasAllNear step.now list.new.items) }
    ensures differs { OnOk result (DiffersAtTouched step.now) }
{
    for i in 0..step.touched_len() {
        let (key, first) = step.touched_at(i);
        add_near(step, key, first, list)?;
    }
    Ok(())
}

/// Adds to the list the objects whose derived signals can follow from the row under the key. That row was `first` at
/// the beginning of the step.
fn add_near(
    step: &Step,
    key: RowKey,
    first: Option<&Row>,
    list: &mut Vec<Koid>,
) -> Result<(), AllocError>
    requires { option_copied first ≡ row step.now.beginning key }
    ensures near { OnOk result (HasNear step.now.beginning step.now.current key list.new.items) }
    ensures longer { OnOk result (IsLonger list.old.items list.new.items) }
{
    match key {
        RowKey::Object(koid) => add_near_object(step, koid, Row::as_object(first), list),
        RowKey::Msg(endpoint, _) => add_koid(endpoint, list),
        _ => Ok(()),
    }
}

/// Adds the koid to the list.
fn add_koid(koid: Koid, list: &mut Vec<Koid>) -> Result<(), AllocError>
    ensures listed { OnOk result (among list.new.items koid ≡ true) }
    ensures longer { OnOk result (IsLonger list.old.items list.new.items) }
{
    list.push(koid)?;
    Ok(())
}

/// Adds to the list the object, and its parents at the beginning and now. Adds nothing if no derived signal tells the
/// rows of then and now apart. If the object is gone, adds the parent that it had.
fn add_near_object(
    step: &Step,
    koid: Koid,
    first: Option<&ObjectRow>,
    list: &mut Vec<Koid>,
) -> Result<(), AllocError>
    ensures near { OnOk result (HasNearObject koid (option_copied first.entry) (object step.now.current koid) list.new.items) }
    ensures longer { OnOk result (IsLonger list.old.items list.new.items) }
{
    match step.store().object(koid) {
        Some(now) => add_changed(koid, first, &now, list),
        None => add_parent(first, list),
    }
}

/// Adds to the list the object, whose row is now this one, and its parents at the beginning and now. Adds nothing if no
/// derived signal tells the rows of then and now apart.
fn add_changed(
    koid: Koid,
    first: Option<&ObjectRow>,
    now: &ObjectRow,
    list: &mut Vec<Koid>,
) -> Result<(), AllocError>
    ensures near { OnOk result (HasNearObject koid (option_copied first.entry) (Option.Some now.now) list.new.items) }
    ensures longer { OnOk result (IsLonger list.old.items list.new.items) }
{
    if is_alike(first, now) {
        return Ok(());
    }
    add_itself(koid, now, list)?;
    add_parent(first, list)?;
    add_parent(Some(now), list)
}

/// Whether the object was there, and no derived signal tells its rows of then and now apart.
fn is_alike(first: Option<&ObjectRow>, now: &ObjectRow) -> bool
    ensures { result ≡ true → StaysAlike (option_copied first.entry) now.now }
{
    match first {
        Some(first) => {
            first.kind == now.kind
                && first.life == now.life
                && first.link == now.link
                && first.signals == now.signals
        }
        None => false,
    }
}

/// Adds the object to the list, if its kind has derived signals.
fn add_itself(koid: Koid, now: &ObjectRow, list: &mut Vec<Koid>) -> Result<(), AllocError>
    ensures listed { OnOk result (HasItself koid now.now list.new.items) }
    ensures longer { OnOk result (IsLonger list.old.items list.new.items) }
{
    limits(now.signals.0);
    match now.kind {
        Kind::Event | Kind::Port => Ok(()),
        _ => add_koid(koid, list),
    }
}

/// States the limit of a mask of signals: it has 32 bits.
fn limits(_signals: u32)
    ensures { _signals < 2 ^ 32 }
{}

/// If this is a job or a process, adds its parent to the list.
fn add_parent(task: Option<&ObjectRow>, list: &mut Vec<Koid>) -> Result<(), AllocError>
    ensures listed { OnOk result (HasParent (option_copied task.entry) list.new.items) }
    ensures longer { OnOk result (IsLonger list.old.items list.new.items) }
{
    match task {
        Some(task) if task.is_task() => add_koid(task.link, list),
        _ => Ok(()),
    }
}
