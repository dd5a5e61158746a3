//! Lists the handles of a process.

ghost use Rattle.std.specs.Prelude.{◌≡◌, ◌++◌, true, Some, IfOk, IfErr, OnOk};
ghost use Rattle.zt_rows.specs.declared.refusals.Refusal.TheVariants as refusal;
ghost use Rattle.zt_rows.specs.Reads.{has_live_process};
ghost use Rattle.zt_rows.specs.Tests.{exists, kind_at};
ghost use Rattle.zt_history.specs.HistoryRefusals.{IsHistoryRefusal, check};
ghost use Rattle.zt_history.specs.Tree.{state_at};
ghost use Rattle.zt_look.specs.HandleList.{AreHandles};
ghost use Rattle.zt_look.specs.ProofsOnly.HandlesSoFar.{handle_by, with_handle, NamesObjects};

use crate::limits::limits;
use std::alloc::{AllocError, Global};
use zt_bits::{Kind, Rights};
use zt_history::History;
use zt_rows::{HandleValue, Held, Koid, Refusal};
use zt_store::Store;

/// A handle of a process: its value, the object that it names, and its rights.
#[derive(Clone, Copy)]
pub struct Handle {
    pub value: HandleValue,
    pub koid: Koid,
    pub kind: Kind,
    pub rights: Rights,
}

/// The handles of a process at a history's position, by rising handle value. Looks at the table of this process alone.
/// Errors: `NoProcess` if the process is not live there, `OutOfMemory` if an allocation fails.
pub fn handles_at(alloc: Global, history: &History, process: Koid) -> Result<Vec<Handle>, Refusal>
    ensures ok { IfOk result (λ list. AreHandles (state_at history.now.tree.made history.now.position) process list.items) }
    ensures running { OnOk result (has_live_process (state_at history.now.tree.made history.now.position) process ≡ true) }
    ensures refused { IfErr result
        (IsHistoryRefusal (check (has_live_process (state_at history.now.tree.made history.now.position) process) refusal.NoProcess)) }
{
    limits(history);
    let kept = history.store();
    if !has_live_process(kept, process) {
        return Err(Refusal::NoProcess);
    }
    let list = handles_of(alloc, kept, process)?;
    Ok(list)
}

/// Whether the koid is that of a live process.
fn has_live_process(store: &Store, process: Koid) -> bool
    ensures { result ≡ has_live_process store.now.state process }
{
    match store.object(process) {
        Some(object) => object.is_live_process(),
        None => false,
    }
}

/// The handles of a process, by rising handle value.
fn handles_of(alloc: Global, store: &Store, process: Koid) -> Result<Vec<Handle>, AllocError>
    requires { NamesObjects store.now.state process }
    ensures { IfOk result (λ list. AreHandles store.now.state process list.items) }
{
    let mut list = Vec::new(alloc);
    let mut next = store.handle_of(process, None);
    'handles: while let Some(value) = next {
        push_handle(&mut list, store, process, value)?;
        next = store.handle_of(process, Some(value));
    }
    Ok(list)
}

/// Appends the handle of a value, if the process has one.
fn push_handle(
    list: &mut Vec<Handle>,
    store: &Store,
    process: Koid,
    value: HandleValue,
) -> Result<(), AllocError>
    requires { NamesObjects store.now.state process }
    ensures { OnOk result (list.new.items ≡ with_handle store.now.state process value list.old.items) }
{
    match store.entry(process, value) {
        Some(held) => {
            push_held(list, store, value, held)?;
            Ok(())
        }
        None => Ok(()),
    }
}

/// Appends the handle of this value, which holds `held`.
fn push_held(
    list: &mut Vec<Handle>,
    store: &Store,
    value: HandleValue,
    held: Held,
) -> Result<(), AllocError>
    requires { exists store.now.state held.koid ≡ true }
    ensures { OnOk result (list.new.items ≡ list.old.items ++ handle_by value (Some held) (kind_at store.now.state held.koid)) }
{
    match store.object(held.koid) {
        Some(object) => {
            let handle = Handle {
                value,
                koid: held.koid,
                kind: object.kind,
                rights: held.rights,
            };
            list.push(handle)?;
            Ok(())
        }
        None => unreachable!(),
    }
}
