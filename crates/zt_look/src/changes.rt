//! Lists the rows that the call of a moment changed.

ghost use Rattle.std.specs.Prelude.{◌≡◌, ◌++◌, ◌∷◌, [], map, Ok, IfOk, IfErr, OnOk, OnErr};
ghost use Rattle.std.specs.Option.{option_copied};
ghost use Rattle.zt_history.specs.HistoryRefusals.{IsHistoryRefusal, moment_on};
ghost use Rattle.zt_history.specs.Timeline.{IsMovedAtMost, moved_to, unmoved};
ghost use Rattle.zt_look.specs.Changes.{changed_on, changes_at};
ghost use Rattle.zt_look.specs.ProofsOnly.RecordSides.{row_before, change_under};

use crate::limits::limits;
use std::alloc::{AllocError, Global};
use zt_history::History;
use zt_rows::{Moment, Refusal, Row, RowKey};
use zt_store::{Record, Store};

/// A row that a call changed: the row under the key before the call, and the row there after it. Between two moments, it
/// is the row at the first, and the row at the second.
#[derive(Drop)]
pub struct Change {
    pub key: RowKey,
    pub before: Option<Row>,
    pub after: Option<Row>,
}

/// The rows that the call of a moment changed, in the order of their keys, the counters first. There are none at the
/// opening.
///
/// The history goes to the moment, at the cost of the records on the way. Errors: `NoMoment` beyond the last moment,
/// `OutOfMemory` if an allocation fails. The history then stands at the moment or where it stood.
pub fn changed(alloc: Global, history: &mut History, moment: Moment) -> Result<Vec<Change>, Refusal>
    ensures ok { IfOk result (λ list. changed_on history.old.tree moment ≡ Ok list.items) }
    ensures refused { IfErr result (IsHistoryRefusal (changed_on history.old.tree moment)) }
    ensures moved { OnOk result (history.new ≡ moved_to history.old moment) }
    ensures stands { OnErr result (IsMovedAtMost history.old history.new moment) }
    ensures nowhere { IfErr (moment_on history.old.tree moment) (λ _. history.new ≡ unmoved history.old) }
    ensures tree { OnErr result (history.new.tree ≡ history.old.tree) }
{
    history.goto(moment)?;
    let list = changed_here(alloc, history)?;
    Ok(list)
}

/// The rows that the call of the position changed.
fn changed_here(alloc: Global, history: &History) -> Result<Vec<Change>, AllocError>
    ensures { IfOk result (λ list. list.items ≡ changes_at history.now.tree.made history.now.position) }
{
    limits(history);
    match history.record_of(history.position()) {
        Some(kept) => Ok(changes_by(alloc, kept, history.store())?),
        None => Ok(Vec::new(alloc)),
    }
}

/// The rows under the keys of the record, as they are in the record and in the store.
fn changes_by(alloc: Global, kept: &Record, store: &Store) -> Result<Vec<Change>, AllocError>
    ensures { IfOk result (λ list. list.items ≡ map (change_under kept.now store.now.state) (map (λ e. e.0) kept.now)) }
{
    let mut list = Vec::new(alloc);
    for key in kept.keys() {
        push_change(&mut list, kept, store, *key)?;
    }
    Ok(list)
}

/// Appends the rows under a key, as they are in the record and in the store.
fn push_change(
    list: &mut Vec<Change>,
    kept: &Record,
    store: &Store,
    key: RowKey,
) -> Result<(), AllocError>
    ensures { OnOk result (list.new.items ≡ list.old.items ++ change_under kept.now store.now.state key ∷ []) }
{
    let after = store.row(key);
    let before = row_before(kept, key, after);
    let change = Change {
        key,
        before: copied(before)?,
        after: copied(after)?,
    };
    list.push(change)?;
    Ok(())
}

/// The row under the key before a call, if `after` is the row after it: the record's row if the record has the key,
/// otherwise `after`.
pub(crate) fn row_before<'a>(
    kept: &'a Record,
    key: RowKey,
    after: Option<&'a Row>,
) -> Option<&'a Row>
    ensures { option_copied result ≡ row_before kept.now key (option_copied after.entry) }
{
    match kept.held(key) {
        Some(held) => held,
        None => after,
    }
}

/// A copy of the row in memory of its own, if there is a row.
pub(crate) fn copied(row: Option<&Row>) -> Result<Option<Row>, AllocError>
    ensures { IfOk result (λ copied. copied ≡ option_copied row.entry) }
{
    match row {
        Some(row) => Ok(Some(row.copy()?)),
        None => Ok(None),
    }
}
