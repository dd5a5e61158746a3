//! Lists the rows in which the states of two moments differ.

ghost use Rattle.std.specs.Prelude.{◌≡◌, ◌⊎◌, ◌<◌, ◌≤◌, ◌++◌, ◌∷◌, ◌||◌, [], length, Ok, IfOk, IfErr, OnOk, OnErr};
ghost use Rattle.std.specs.BTreeSet.{contains, IsOrdered};
ghost use Rattle.std.specs.List.{flat_map};
ghost use Rattle.std.specs.Option.{option_copied};
ghost use Rattle.zt_rows.specs.Change.{differ_at, option_row_eq, rows_under};
ghost use Rattle.zt_rows.specs.Keys.{rowkey_cmp, rowkey_eq};
ghost use Rattle.zt_rows.specs.State.{row};
ghost use Rattle.zt_history.specs.HistoryRefusals.{IsHistoryRefusal};
ghost use Rattle.zt_history.specs.Timeline.{IsMovedAtMost, moved_to};
ghost use Rattle.zt_history.specs.Tree.{parent_at, state_at};
ghost use Rattle.zt_look.specs.Changes.{both_on, changed_between};
ghost use Rattle.zt_look.specs.ProofsOnly.TwoStates.{CoversChanges, change_from, is_key_of};

use crate::changes::{Change, copied};
use crate::limits::limits;
use std::alloc::{AllocError, Global};
use std::collections::BTreeSet;
use zt_history::History;
use zt_rows::{Moment, Refusal, Row, RowKey};
use zt_store::Store;

/// The rows that differ between the states of two moments, of whatever branches: each as it is at `from` and at `to`,
/// in the order of their keys, the counters first.
///
/// Collects the keys that the calls between both moments changed. These are the calls of the moments on only one of the
/// two paths. Then the history goes to `from` and to `to`, at the cost of the records on the way, and the rows under
/// these keys are compared.
///
/// Errors: `NoMoment` if one of both is beyond the last moment, `OutOfMemory` if an allocation fails. The history then
/// stands where it stood, at `from` or at `to`.
pub fn changed_between(
    alloc: Global,
    history: &mut History,
    from: Moment,
    to: Moment,
) -> Result<Vec<Change>, Refusal>
    ensures ok { IfOk result (λ list. changed_between history.old.tree from to ≡ Ok list.items) }
    ensures refused { IfErr result (IsHistoryRefusal (changed_between history.old.tree from to)) }
    ensures moved { OnOk result (history.new ≡ moved_to history.old to) }
    ensures stands { OnErr result ((history.new ≡ history.old) ⊎ IsMovedAtMost history.old history.new from ⊎ (history.new ≡ moved_to history.old to)) }
    ensures nowhere { IfErr (both_on history.old.tree from to) (λ _. history.new ≡ history.old) }
    ensures tree { OnErr result (history.new.tree ≡ history.old.tree) }
{
    check_both(history, from, to)?;
    let keys = keys_between(alloc, history, from, to)?;
    history.goto(from)?;
    let rows = rows_under(alloc, history.store(), keys)?;
    history.goto(to)?;
    let list = changes_from(alloc, history.store(), rows.as_slice())?;
    Ok(list)
}

/// Fails with `NoMoment` if one of both moments is beyond the last one.
pub(crate) fn check_both(history: &History, from: Moment, to: Moment) -> Result<(), Refusal>
    ensures ok { OnOk result (both_on history.now.tree from to ≡ Ok to) }
    ensures from { OnOk result (from ≤ length history.now.tree.made) }
    ensures to { OnOk result (to ≤ length history.now.tree.made) }
    ensures refused { IfErr result (IsHistoryRefusal (both_on history.now.tree from to)) }
{
    let last = history.last();
    if from > last || to > last {
        Err(Refusal::NoMoment)
    } else {
        Ok(())
    }
}

/// The keys that the calls between two moments changed: those of the moments on only one of the two paths.
fn keys_between(
    alloc: Global,
    history: &History,
    from: Moment,
    to: Moment,
) -> Result<BTreeSet<RowKey>, AllocError>
    requires from { from ≤ length history.now.tree.made }
    requires to { to ≤ length history.now.tree.made }
    ensures covers { IfOk result (CoversChanges (state_at history.now.tree.made from) (state_at history.now.tree.made to)) }
    ensures ordered { IfOk result (IsOrdered rowkey_cmp) }
{
    limits(history);
    let mut keys = BTreeSet::new(alloc);
    let mut left = from;
    let mut right = to;
    'moments: while left != right {
        if left < right {
            add_keys(&mut keys, history, right)?;
            right = history.parent_of(right);
        } else {
            add_keys(&mut keys, history, left)?;
            left = history.parent_of(left);
        }
    }
    let _count = keys.len();
    Ok(keys)
}

/// Adds the keys of the rows that the moment's call changed.
fn add_keys(
    keys: &mut BTreeSet<RowKey>,
    history: &History,
    moment: Moment,
) -> Result<(), AllocError>
    requires made { 0 < moment }
    requires there { moment ≤ length history.now.tree.made }
    ensures { OnOk result ((key : RowKey) → contains rowkey_cmp keys.new key
        ≡ (contains rowkey_cmp keys.old key
        || differ_at (state_at history.now.tree.made (parent_at history.now.tree.made moment)) (state_at history.now.tree.made moment) key)) }
{
    limits(history);
    match history.record_of(moment) {
        Some(kept) => add_all(keys, kept.keys()),
        None => Ok(()),
    }
}

/// Adds these keys.
fn add_all(keys: &mut BTreeSet<RowKey>, more: &[RowKey]) -> Result<(), AllocError>
    ensures { OnOk result ((key : RowKey) → contains rowkey_cmp keys.new key ≡ (contains rowkey_cmp keys.old key || is_key_of more.now key)) }
{
    for key in more {
        add_key(keys, *key)?;
    }
    Ok(())
}

/// Adds a key.
fn add_key(keys: &mut BTreeSet<RowKey>, key: RowKey) -> Result<(), AllocError>
    ensures { OnOk result ((other : RowKey) → contains rowkey_cmp keys.new other ≡ (contains rowkey_cmp keys.old other || rowkey_eq other key)) }
{
    keys.insert(key)?;
    Ok(())
}

/// Copies of the rows under these keys, with their keys in order.
fn rows_under(
    alloc: Global,
    store: &Store,
    keys: BTreeSet<RowKey>,
) -> Result<Vec<(RowKey, Option<Row>)>, AllocError>
    ensures { IfOk result (λ rows. rows.items ≡ rows_under store.now.state keys.keys) }
{
    let mut left = keys;
    let mut rows = Vec::new(alloc);
    'keys: while let Some(key) = left.pop_first() {
        push_row(&mut rows, store, key)?;
    }
    Ok(rows)
}

/// Appends the row under a key, or that there is none.
fn push_row(
    rows: &mut Vec<(RowKey, Option<Row>)>,
    store: &Store,
    key: RowKey,
) -> Result<(), AllocError>
    ensures { OnOk result (rows.new.items ≡ rows.old.items ++ (key, row store.now.state key) ∷ []) }
{
    rows.push((key, copied(store.row(key))?))?;
    Ok(())
}

/// The rows that are different in the store, with the row there.
fn changes_from(
    alloc: Global,
    store: &Store,
    rows: &[(RowKey, Option<Row>)],
) -> Result<Vec<Change>, AllocError>
    ensures { IfOk result (λ list. list.items ≡ flat_map (change_from store.now.state) rows.now) }
{
    let mut list = Vec::new(alloc);
    for (key, before) in rows {
        push_if_other(&mut list, store, *key, before)?;
    }
    Ok(list)
}

/// Appends a row and the row under its key in the store, if they differ.
fn push_if_other(
    list: &mut Vec<Change>,
    store: &Store,
    key: RowKey,
    before: &Option<Row>,
) -> Result<(), AllocError>
    ensures { OnOk result (list.new.items ≡ list.old.items ++ change_from store.now.state (key, before.now)) }
{
    let after = store.row(key);
    if is_same(before.as_ref(), after) {
        return Ok(());
    }
    let change = Change {
        key,
        before: copied(before.as_ref())?,
        after: copied(after)?,
    };
    list.push(change)?;
    Ok(())
}

/// Whether both rows are the same, or there is none of both.
fn is_same(row: Option<&Row>, other: Option<&Row>) -> bool
    ensures { result ≡ option_row_eq (option_copied row.entry) (option_copied other.entry) }
{
    match (row, other) {
        (Some(row), Some(other)) => row == other,
        (None, None) => true,
        _ => false,
    }
}
