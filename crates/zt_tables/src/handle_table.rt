//! Finds, gives and takes away entries of a process's handle table.

ghost use Rattle.std.specs.Prelude.{◌≡◌, ◌<◌, ◌+◌, ◌^◌, IfOk, OnErr};
ghost use Rattle.zt_rows.specs.Reads.{entry};
ghost use Rattle.zt_rows.specs.Tests.{next_at};
ghost use Rattle.zt_rows.specs.Handles.{caller, install, value_of};
ghost use Rattle.zt_store.specs.Places.{Keeps};
ghost use Rattle.zt_store.specs.StepView.{Advanced, AsBegun};
ghost use Rattle.zt_tables.specs.Entries.{with_rights, without_entry};

use std::alloc::AllocError;
use zt_bits::{Kind, Rights, Signals};
use zt_rows::{FIRST_HANDLE, HandleValue, Held, Koid, Life, ObjectRow, Row, RowKey};
use zt_store::{Step, Store};

/// The distance between a handle value and the one that its process received before.
const VALUE_STEP: u64 = 4;

/// What the process holds by this handle value. Never allocates.
pub fn find(store: &Store, process: Koid, value: HandleValue) -> Option<Held>
    ensures { result ≡ entry store.now.state process value }
{
    store.entry(process, value)
}

/// Gives the process a handle under its next value, and returns the value. A process without a row counts as one that
/// had no handle so far. If an allocation fails, all puts of the step are taken back.
#[tactic(auto, using(crate::proofs::PutOrder::entry_last))]
#[inline(always)]
pub fn install(step: &mut Step, process: Koid, held: Held) -> Result<HandleValue, AllocError>
    requires { next_at step.old.current process < 2 ^ 30 }
    ensures value { IfOk result (λ value. value ≡ value_of (next_at step.old.current process)) }
    ensures installed { let S = step.old.current in
        IfOk result (λ _. Advanced step.old step.new (install process (caller S process) held S)) }
    ensures err { OnErr result (AsBegun step.old step.new) }
    ensures kept { Keeps step.old.places step.new.places }
{
    let owner = owner_of(step, process);
    let value = value_of(owner.next);
    let raised = ObjectRow {
        next: owner.next + 1,
        ..owner
    };
    step.put(RowKey::Object(process), Some(Row::Object(raised)))?;
    step.put(RowKey::Entry(process, value), Some(Row::Entry(held)))?;
    Ok(value)
}

/// Gives the process two handles in turn, under its next two values, and returns the values. It does the same as two
/// calls of `install`, and puts the process's row once. If an allocation fails, all puts of the step are taken back.
#[tactic(auto, using(crate::proofs::PutOrder::entries_last))]
pub fn install_pair(
    step: &mut Step,
    process: Koid,
    first: Held,
    second: Held,
) -> Result<(HandleValue, HandleValue), AllocError>
    requires { next_at step.old.current process + 1 < 2 ^ 30 }
    ensures values { let n = next_at step.old.current process in
        IfOk result (λ values. values ≡ (value_of n, value_of (n + 1))) }
    ensures installed { let S = step.old.current in let T = install process (caller S process) first S in
        IfOk result (λ _. Advanced step.old step.new (install process (caller T process) second T)) }
    ensures err { OnErr result (AsBegun step.old step.new) }
    ensures kept { Keeps step.old.places step.new.places }
{
    let owner = owner_of(step, process);
    let near = value_of(owner.next);
    let far = value_of(owner.next + 1);
    let raised = ObjectRow {
        next: owner.next + 2,
        ..owner
    };
    step.put(RowKey::Object(process), Some(Row::Object(raised)))?;
    step.put(RowKey::Entry(process, near), Some(Row::Entry(first)))?;
    step.put(RowKey::Entry(process, far), Some(Row::Entry(second)))?;
    Ok((near, far))
}

/// Takes away the entry, and returns what it held. No later handle gets its value. If an allocation fails, all puts of
/// the step are taken back.
#[inline(always)]
pub fn remove(
    step: &mut Step,
    process: Koid,
    value: HandleValue,
) -> Result<Option<Held>, AllocError>
    ensures held { IfOk result (λ held. held ≡ entry step.old.current process value) }
    ensures removed { IfOk result (λ _. Advanced step.old step.new (without_entry step.old.current process value)) }
    ensures err { OnErr result (AsBegun step.old step.new) }
    ensures kept { Keeps step.old.places step.new.places }
{
    let held = step.store().entry(process, value);
    step.put(RowKey::Entry(process, value), None)?;
    Ok(held)
}

/// Gives the process one more handle to what is held, with these rights, and returns its value. If an allocation fails,
/// all puts of the step are taken back.
pub fn duplicate(
    step: &mut Step,
    process: Koid,
    held: Held,
    rights: Rights,
) -> Result<HandleValue, AllocError>
    requires { next_at step.old.current process < 2 ^ 30 }
    ensures value { IfOk result (λ value. value ≡ value_of (next_at step.old.current process)) }
    ensures installed { let S = step.old.current in
        IfOk result (λ _. Advanced step.old step.new (install process (caller S process) (with_rights held rights) S)) }
    ensures err { OnErr result (AsBegun step.old step.new) }
    ensures kept { Keeps step.old.places step.new.places }
{
    install(step, process, Held { rights, ..held })
}

/// The value of the n-th handle that a process receives, counted from 0.
#[inline(always)]
fn value_of(n: u64) -> HandleValue
    requires { n < 2 ^ 30 }
    ensures { result ≡ value_of n }
{
    HandleValue((VALUE_STEP * n + u64::from(FIRST_HANDLE.0)) as u32)
}

/// The row of the process. If there is none, the row of a killed process that had no handle.
#[inline(always)]
fn owner_of(step: &Step, process: Koid) -> ObjectRow
    ensures row { result ≡ caller step.now.current process }
    ensures next { result.next ≡ next_at step.now.current process }
{
    match step.store().object(process) {
        Some(object) => object,
        None => ObjectRow {
            kind: Kind::Process,
            signals: Signals(0),
            link: Koid(0),
            life: Life::Killed,
            next: 0,
            critical: Koid(0),
        },
    }
}
