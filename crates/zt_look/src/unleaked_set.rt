//! The set of all objects that are there and not leaked: found at the position, and taken back over a moment's call by
//! the moment's record.

ghost use Rattle.std.specs.Prelude.{◌≡◌, ◌==◌, ◌<◌, ◌≤◌, ◌&&◌, ◌||◌, ℕ, not, Some, IfOk, OnOk, length, map};
ghost use Rattle.std.specs.List.{list_any};
ghost use Rattle.std.specs.Ordering.{nat_cmp};
ghost use Rattle.std.specs.BTreeSet.{contains};
ghost use Rattle.zt_rows.specs.Change.{keys};
ghost use Rattle.zt_rows.specs.Tests.{among};
ghost use Rattle.zt_history.specs.Tree.{parent_at, state_at};
ghost use Rattle.zt_history.specs.TreeInvariant.{recorded_at};
ghost use Rattle.zt_queries.specs.Happenings.{leaked};
ghost use Rattle.zt_look.specs.ProofsOnly.UnleakedSearch.{is_object};
ghost use Rattle.zt_look.specs.ProofsOnly.UnleakedSet.{IsStart, IsUnleakedSet};

use crate::limits::limits;
use crate::unleaked_search::{Search, go_on, search_from, take_gone, unknown_gone};
use std::alloc::{AllocError, Global};
use std::collections::BTreeSet;
use std::mem;
use zt_bits::Kind;
use zt_history::History;
use zt_queries::leaks_at;
use zt_rows::{Koid, Moment, RowKey};
use zt_store::{Record, Store};

/// The koids of the objects that are there and not leaked, at the position.
pub(crate) fn unleaked_at(alloc: Global, history: &History) -> Result<BTreeSet<u64>, AllocError>
    ensures { IfOk result (λ set. IsUnleakedSet (state_at history.now.tree.made history.now.position) set) }
{
    limits(history);
    let all = keys_of(alloc, history.store())?;
    let mut set = objects_of(alloc, all.as_slice())?;
    match leaks_at(alloc, history) {
        Ok(leaks) => {
            take_leaked(&mut set, leaks.as_slice());
            Ok(set)
        }
        Err(_) => Err(AllocError),
    }
}

/// The keys of the store, in their order.
fn keys_of(alloc: Global, store: &Store) -> Result<Vec<RowKey>, AllocError>
    ensures { IfOk result (λ list. list.items ≡ keys store.now.state) }
{
    let mut list = Vec::new(alloc);
    let mut next = store.after(None);
    while let Some(key) = next {
        let listed = key;
        list.push(listed)?;
        next = store.after(Some(key));
    }
    Ok(list)
}

/// The koids of the objects that have these keys.
fn objects_of(alloc: Global, all: &[RowKey]) -> Result<BTreeSet<u64>, AllocError>
    ensures { IfOk result (λ set. (x : ℕ) → contains nat_cmp set x ≡ list_any (is_object x) all.now) }
{
    let mut set = BTreeSet::new(alloc);
    for key in all {
        add_object(&mut set, *key)?;
    }
    Ok(set)
}

/// Adds the koid of the key, if it is the key of an object.
fn add_object(set: &mut BTreeSet<u64>, key: RowKey) -> Result<(), AllocError>
    ensures { OnOk result ((x : ℕ) → contains nat_cmp set.new x ≡ (contains nat_cmp set.old x || is_object x key)) }
{
    match key {
        RowKey::Object(koid) => {
            set.insert(koid.0)?;
            Ok(())
        }
        _ => Ok(()),
    }
}

/// Takes the leaked objects out of the set.
fn take_leaked(set: &mut BTreeSet<u64>, leaks: &[(Koid, Kind)])
    ensures { (x : ℕ) → contains nat_cmp set.new x ≡ (contains nat_cmp set.old x && not (among (map (λ e. e.0) leaks.now) x)) }
{
    for leak in leaks {
        take_koid(set, leak.0);
    }
}

/// Takes the koid out of the set.
fn take_koid(set: &mut BTreeSet<u64>, koid: Koid)
    ensures { (x : ℕ) → contains nat_cmp set.new x ≡ (contains nat_cmp set.old x && not (koid == x)) }
{
    let number = koid.0;
    set.remove(&number);
}

/// Takes the set of a moment back to the moment's parent, at which the history stands. Returns the objects that the
/// moment's call leaked. This costs the moment's record, and the queues of the endpoints that come into reach.
pub(crate) fn back_over(
    alloc: Global,
    set: &mut BTreeSet<u64>,
    history: &History,
    moment: Moment,
) -> Result<BTreeSet<u64>, AllocError>
    requires made { 0 < moment }
    requires there { moment ≤ length history.now.tree.made }
    requires parent { history.now.position ≡ parent_at history.now.tree.made moment }
    requires unleaked { IsUnleakedSet (state_at history.now.tree.made moment) set.old }
    ensures set { OnOk result (IsUnleakedSet (state_at history.now.tree.made history.now.position) set.new) }
    ensures leaked { IfOk result (λ found. (x : ℕ) → contains nat_cmp found x ≡ leaked x (state_at history.now.tree.made history.now.position) (state_at history.now.tree.made moment)) }
{
    limits(history);
    match history.record_of(moment) {
        Some(kept) => step_back(alloc, set, history, moment, kept),
        None => unreachable!(),
    }
}

/// Takes the set back by the moment's record, and returns the objects that the call leaked.
fn step_back(
    alloc: Global,
    set: &mut BTreeSet<u64>,
    history: &History,
    moment: Moment,
    kept: &Record,
) -> Result<BTreeSet<u64>, AllocError>
    requires made { 0 < moment }
    requires there { moment ≤ length history.now.tree.made }
    requires parent { history.now.position ≡ parent_at history.now.tree.made moment }
    requires unleaked { IsUnleakedSet (state_at history.now.tree.made moment) set.old }
    requires kept { recorded_at history.now.tree.made history.now.position moment ≡ Some kept.now }
    ensures set { OnOk result (IsUnleakedSet (state_at history.now.tree.made history.now.position) set.new) }
    ensures leaked { IfOk result (λ found. (x : ℕ) → contains nat_cmp found x ≡ leaked x (state_at history.now.tree.made history.now.position) (state_at history.now.tree.made moment)) }
{
    limits(history);
    let mut search = begun(alloc, set, history, moment, kept)?;
    let store = history.store();
    search_from(&mut search, kept, store, kept.keys())?;
    go_on(&mut search, kept, store)?;
    let Search {
        set: grown,
        waiting: _waiting,
        found: lost,
    } = search;
    *set = grown;
    Ok(lost)
}

/// The search at its beginning. Its set has those objects of the moment's set that are there at the position. It has
/// found the objects that the call made and leaked.
fn begun(
    alloc: Global,
    set: &mut BTreeSet<u64>,
    history: &History,
    moment: Moment,
    kept: &Record,
) -> Result<Search, AllocError>
    requires made { 0 < moment }
    requires there { moment ≤ length history.now.tree.made }
    requires parent { history.now.position ≡ parent_at history.now.tree.made moment }
    requires unleaked { IsUnleakedSet (state_at history.now.tree.made moment) set.old }
    requires kept { recorded_at history.now.tree.made history.now.position moment ≡ Some kept.now }
    ensures { IfOk result (λ search. IsStart (state_at history.now.tree.made history.now.position) (state_at history.now.tree.made moment) kept.now search) }
{
    limits(history);
    let (store, all) = (history.store(), kept.keys());
    let found = unknown_gone(alloc, set, store, all)?;
    take_gone(set, store, all);
    Ok(Search {
        set: mem::replace(set, BTreeSet::new(alloc)),
        waiting: Vec::new(alloc),
        found,
    })
}
