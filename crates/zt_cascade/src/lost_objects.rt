//! Lists the objects that may go after a call, since they are new or may have lost a support.

ghost use Rattle.std.specs.Prelude.{◌≡◌, ◌++◌, true, OnOk};
ghost use Rattle.std.specs.Option.{option_copied};
ghost use Rattle.zt_rows.specs.State.{row};
ghost use Rattle.zt_store.specs.StepView.{DiffersAtTouched, listed};
ghost use Rattle.zt_cascade.specs.ToldObjects.{IsCovered};
ghost use Rattle.zt_cascade.specs.ProofsOnly.LostObjects.{HasAllLost, HasLost, HasLostObject, IsListedFree, SupportsAlike, named_by};
ghost use Rattle.zt_cascade.specs.ProofsOnly.RaisedWaits.{IsLonger};
ghost use Rattle.zt_cascade.specs.ProofsOnly.RemovedObject.{Covers, koids};

use crate::removed_rows::add_koids;
use crate::worklist::is_free;
use std::alloc::AllocError;
use zt_rows::{Held, Koid, ObjectRow, Row, RowKey};
use zt_store::Step;

/// Adds to the list all objects that may go: those that are new or may have lost a support in the step, and those that
/// the released handles name.
pub(crate) fn list_told(
    step: &Step,
    list: &mut Vec<Koid>,
    released: &[Held],
) -> Result<(), AllocError>
    requires { IsCovered step.now released.now }
    ensures { OnOk result (Covers list.new.items step.now.current) }
{
    list_lost(step, list)?;
    add_koids(list, released)
}

/// Adds to the list the objects that are new or may have lost a support in the step. The step differs from its
/// beginning only under the keys that it put.
fn list_lost(step: &Step, list: &mut Vec<Koid>) -> Result<(), AllocError>
    ensures differs { OnOk result (DiffersAtTouched step.now) }
    ensures lost { OnOk result (HasAllLost step.now list.new.items) }
{
    for i in 0..step.touched_len() {
        let (key, first) = step.touched_at(i);
        add_lost(step, key, first, list)?;
    }
    Ok(())
}

/// Adds to the list what may have lost a support by a change of the row under the key, which was `first` at the
/// beginning. These are the object and its parent, if nothing supports them, or what the entry or message named.
fn add_lost(
    step: &Step,
    key: RowKey,
    first: Option<&Row>,
    list: &mut Vec<Koid>,
) -> Result<(), AllocError>
    requires { option_copied first ≡ row step.now.beginning key }
    ensures lost { OnOk result (HasLost step.now.beginning step.now.current key list.new.items) }
    ensures longer { OnOk result (IsLonger list.old.items list.new.items) }
{
    match key {
        RowKey::Object(koid) => add_lost_object(step, koid, Row::as_object(first), list),
        _ => add_named(first, list),
    }
}

/// Adds to the list what the entry or the message names.
fn add_named(row: Option<&Row>, list: &mut Vec<Koid>) -> Result<(), AllocError>
    ensures { OnOk result (list.new.items ≡ list.old.items ++ koids (named_by (option_copied row.entry))) }
{
    match row {
        Some(Row::Entry(held)) => {
            list.push(held.koid)?;
            Ok(())
        }
        Some(Row::Msg(message)) => add_koids(list, message.handles().as_slice()),
        _ => Ok(()),
    }
}

/// Adds to the list the object and the one that its link named at the beginning, if nothing supports them. Adds neither
/// if the rows of then and now support alike.
fn add_lost_object(
    step: &Step,
    koid: Koid,
    first: Option<&ObjectRow>,
    list: &mut Vec<Koid>,
) -> Result<(), AllocError>
    ensures lost { OnOk result (HasLostObject step.now.current koid (option_copied first.entry) list.new.items) }
    ensures longer { OnOk result (IsLonger list.old.items list.new.items) }
{
    let Some(first) = first else {
        return add_free(step, koid, list);
    };
    if supports_alike(first, step.store().object(koid)) {
        return Ok(());
    }
    add_free(step, koid, list)?;
    add_free(step, first.link, list)
}

/// Whether the object is still there, with equal kind, life and link. Then it and its parent are supported as before.
fn supports_alike(first: &ObjectRow, now: Option<ObjectRow>) -> bool
    ensures { result ≡ true → SupportsAlike first.now now }
{
    match now {
        Some(now) => { first.kind == now.kind && first.life == now.life && first.link == now.link }
        None => false,
    }
}

/// Adds the object to the list, if nothing supports it.
fn add_free(step: &Step, koid: Koid, list: &mut Vec<Koid>) -> Result<(), AllocError>
    ensures listed { OnOk result (IsListedFree step.now.current koid list.new.items) }
    ensures longer { OnOk result (IsLonger list.old.items list.new.items) }
{
    if is_free(step, koid) {
        list.push(koid)?;
    }
    Ok(())
}
