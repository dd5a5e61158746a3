//! Tests by the rows before and after a call whether an object lost a name or a live child.

ghost use Rattle.std.specs.Prelude.{◌≡◌};
ghost use Rattle.std.specs.Option.{option_copied};
ghost use Rattle.zt_rows.specs.State.{row};
ghost use Rattle.zt_history.specs.LostChild.{is_child_row};
ghost use Rattle.zt_history.specs.ProofsOnly.ObjectNotes.{is_released, is_lost, parent_in, parent_of};

use zt_rows::{Koid, ObjectRow, Row, RowKey};
use zt_store::Store;

/// Whether the object is there and the row under the key, if any, does not name it.
pub(super) fn is_released(koid: Koid, key: &RowKey, store: &Store) -> bool
    ensures { result ≡ is_released koid (row store.now.state key.now) store.now.state }
{
    store.object(koid).is_some() && !Row::names(store.row(*key), koid)
}

/// Whether the object is there and the row is not that of a live child of it.
pub(super) fn is_lost(parent: Koid, after: Option<&Row>, store: &Store) -> bool
    ensures { result ≡ is_lost parent (option_copied after.entry) store.now.state }
{
    !is_child_row(parent, after) && store.object(parent).is_some()
}

/// Whether the row is that of a live process or job whose parent is the object.
fn is_child_row(parent: Koid, row: Option<&Row>) -> bool
    ensures { result ≡ is_child_row parent (option_copied row.entry) }
{
    match row {
        Some(Row::Object(task)) => task.is_live_task() && task.link == parent,
        _ => false,
    }
}

/// The parent, if the row is that of a live process or job.
pub(super) fn parent_in(row: Option<&Row>) -> Option<Koid>
    ensures { result ≡ parent_in (option_copied row.entry) }
{
    match row {
        Some(Row::Object(task)) => parent_of(task),
        _ => None,
    }
}

/// The parent of the object, if it is a live process or job.
fn parent_of(task: &ObjectRow) -> Option<Koid>
    ensures { result ≡ parent_of task.now }
{
    if task.is_live_task() {
        Some(task.link)
    } else {
        None
    }
}
