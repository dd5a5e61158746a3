//! Lists the waits that a step may have satisfied.

ghost use Rattle.std.specs.Prelude.{◌≡◌, IfOk, OnOk};
ghost use Rattle.std.specs.Option.{option_copied};
ghost use Rattle.zt_rows.specs.Consistent.{IsConsistent};
ghost use Rattle.zt_rows.specs.Reads.{object};
ghost use Rattle.zt_rows.specs.State.{row};
ghost use Rattle.zt_rows.specs.Tests.{has_all, signals_at};
ghost use Rattle.zt_index.specs.Criteria.{is_at, is_on};
ghost use Rattle.zt_cascade.specs.ProofsOnly.RaisedWaits.{HasMet, HasCandidates, HasCandidatesAt, IsLonger, Lists, ListsMet};

use std::alloc::AllocError;
use zt_ports::is_met;
use zt_rows::{HandleValue, Koid, ObjectRow, Row, RowKey};
use zt_store::Step;

/// Adds to the list the numbers of the waits that can have come to be met in this step. All waits that are met are
/// among them, since the step began consistent and none was met then.
pub(crate) fn candidate_waits(step: &Step, mut list: Vec<u64>) -> Result<Vec<u64>, AllocError>
    requires { IsConsistent step.now.beginning }
    ensures { IfOk result (λ list. HasMet step.now.beginning step.now.current list.items) }
{
    for i in 0..step.touched_len() {
        let (key, first) = step.touched_at(i);
        add_candidates(step, key, first, &mut list)?;
    }
    Ok(list)
}

/// Adds to the list the waits that can have come to be met by a put under the key:
///
/// - the wait itself, if it is met;
/// - the waits on an entry that was there;
/// - the waits at an object that was there, if a signal rose on it.
fn add_candidates(
    step: &Step,
    key: RowKey,
    first: Option<&Row>,
    list: &mut Vec<u64>,
) -> Result<(), AllocError>
    requires { option_copied first ≡ row step.now.beginning key }
    ensures candidates { OnOk result (HasCandidates step.now.beginning step.now.current key list.new.items) }
    ensures longer { OnOk result (IsLonger list.old.items list.new.items) }
{
    match key {
        RowKey::Wait(number) => add_if_met(step, number, list)?,
        RowKey::Entry(process, handle) => {
            if first.is_some() {
                add_waits_on(step, process, handle, list)?;
            }
        }
        RowKey::Object(koid) => add_waits_near(step, koid, Row::as_object(first), list)?,
        _ => {}
    }
    Ok(())
}

/// Adds the wait of this number to the list, if it is met.
fn add_if_met(step: &Step, number: u64, list: &mut Vec<u64>) -> Result<(), AllocError>
    ensures listed { OnOk result (ListsMet step.now.beginning step.now.current number list.new.items) }
    ensures longer { OnOk result (IsLonger list.old.items list.new.items) }
{
    let Some(wait) = step.store().wait(number) else {
        return Ok(());
    };
    if is_met(step, &wait) {
        list.push(number)?;
    }
    Ok(())
}

/// Adds to the list the waits that the process made on the handle.
fn add_waits_on(
    step: &Step,
    process: Koid,
    handle: HandleValue,
    list: &mut Vec<u64>,
) -> Result<(), AllocError>
    ensures listed { OnOk result (Lists step.now.current (is_on process handle) list.new.items) }
    ensures longer { OnOk result (IsLonger list.old.items list.new.items) }
{
    let mut low = None;
    'waits: while let Some(number) = step.store().wait_on(process, handle, low) {
        list.push(number)?;
        low = Some(number);
    }
    Ok(())
}

/// Adds to the list the waits at the object, if it was there when the step began and a signal has risen on it since.
fn add_waits_near(
    step: &Step,
    koid: Koid,
    first: Option<&ObjectRow>,
    list: &mut Vec<u64>,
) -> Result<(), AllocError>
    requires { object step.now.beginning koid ≡ option_copied first }
    ensures listed { OnOk result (HasCandidatesAt step.now.beginning step.now.current koid list.new.items) }
    ensures longer { OnOk result (IsLonger list.old.items list.new.items) }
{
    let Some(first) = first else {
        return Ok(());
    };
    if has_all(first.signals.0, signals_now(step, koid)) {
        Ok(())
    } else {
        add_waits_at(step, koid, list)
    }
}

/// Whether every wanted bit is among the bits.
fn has_all(bits: u32, wanted: u32) -> bool
    ensures { result ≡ has_all bits wanted }
{
    bits & wanted == wanted
}

/// Adds to the list the waits at the object.
fn add_waits_at(step: &Step, koid: Koid, list: &mut Vec<u64>) -> Result<(), AllocError>
    ensures listed { OnOk result (Lists step.now.current (is_at step.now.current koid) list.new.items) }
    ensures longer { OnOk result (IsLonger list.old.items list.new.items) }
{
    let mut low = None;
    'waits: while let Some(number) = step.store().wait_at(koid, low) {
        list.push(number)?;
        low = Some(number);
    }
    Ok(())
}

/// The signals on the object, or none if there is no object.
fn signals_now(step: &Step, koid: Koid) -> u32
    ensures { result ≡ signals_at step.now.current koid }
{
    match step.store().object(koid) {
        Some(object) => object.signals.0,
        None => 0,
    }
}
