//! Signs that an object is not leaked, in its own row, in the store and in the records of a path. None of them
//! allocates. If a sign is found, no search for what is reached is needed.

ghost use Rattle.std.specs.Prelude.{◌≡◌, ◌≤◌, ◌<◌, ℕ, true, false, Some, length};
ghost use Rattle.std.specs.Option.{option_copied};
ghost use Rattle.zt_rows.specs.declared.keys.RowKey.TheVariants as key_variant;
ghost use Rattle.zt_rows.specs.State.{State};
ghost use Rattle.zt_rows.specs.Tests.{exists};
ghost use Rattle.zt_store.specs.RecordLook.{held};
ghost use Rattle.zt_history.specs.TreeInvariant.{recorded_at};
ghost use Rattle.zt_queries.specs.Leaks.{is_leaked};
ghost use Rattle.zt_queries.specs.ProofsOnly.FirstLeak.{state_after, IsLast, is_sure, names_object, names_in, has_none, HoldsRowsOf, ShowsReached};
ghost use Rattle.zt_queries.specs.ProofsOnly.RowHappenings.{AreWays};

use crate::path_pair::{PathPair, is_there, row_at_fork, row_over};
use zt_history::History;
use zt_rows::{Koid, Moment, ROOT_JOB, Row, RowKey};
use zt_store::{Record, Store};

/// A place of a path, and whether an object surely is not leaked there.
#[derive(Clone, Copy)]
pub(crate) struct PathPlace {
    pub(crate) place: usize,
    pub(crate) sure: bool,
}

/// The last place of the way at which the object is there, or else the first place.
pub(crate) fn last_there(history: &History, ways: &PathPair, koid: Koid) -> PathPlace
    requires { AreWays history.now ways.now.way.items ways.now.here.items ways.now.shared }
    ensures last { IsLast history.now.tree.made ways.now.way.items koid result.place }
    ensures sure { result.sure ≡ true → is_leaked (state_after history.now.tree.made ways.now.way.items result.place) koid ≡ false }
{
    let key = RowKey::Object(koid);
    let mut row = row_at_fork(history, ways, &key);
    let mut there = is_there(row);
    let mut place = ways.shared;
    let mut sure = is_sure(row, koid);
    for i in ways.shared..ways.way.len() {
        row = row_over(history, ways.way[i], &key, row);
        if is_there(row) {
            there = true;
            place = i + 1;
            sure = is_sure(row, koid);
        }
    }
    if there {
        PathPlace { place, sure }
    } else {
        last_shared_there(history, ways, koid)
    }
}

/// The last place of the way at which the object is there, or else the first place. The object is at no place beyond
/// those that both paths share.
fn last_shared_there(history: &History, ways: &PathPair, koid: Koid) -> PathPlace
    requires ways { AreWays history.now ways.now.way.items ways.now.here.items ways.now.shared }
    requires gone { (j : ℕ) → ways.now.shared < j → j ≤ length ways.now.way.items → exists (state_after history.now.tree.made ways.now.way.items j) koid ≡ false }
    ensures last { IsLast history.now.tree.made ways.now.way.items koid result.place }
    ensures sure { result.sure ≡ true → is_leaked (state_after history.now.tree.made ways.now.way.items result.place) koid ≡ false }
{
    let key = RowKey::Object(koid);
    let mut row = row_at_fork(history, ways, &key);
    let mut place = ways.shared;
    while place > 0 && !is_there(row) {
        place -= 1;
        row = row_over(history, ways.here[place], &key, row);
    }
    PathPlace {
        place,
        sure: is_sure(row, koid),
    }
}

/// Whether the row tells that the object is not there, or that it keeps itself.
pub(crate) fn is_sure(row: Option<&Row>, koid: Koid) -> bool
    ensures { result ≡ is_sure (option_copied row.entry) koid }
{
    match Row::as_object(row) {
        Some(found) => koid == ROOT_JOB || found.is_live_process(),
        None => true,
    }
}

/// Whether a sign shows that the object is not leaked at a place that both paths share. The sign is in the record of
/// the next call, or is an entry if the place is the position.
pub(crate) fn is_unleaked_at(history: &History, ways: &PathPair, koid: Koid, place: usize) -> bool
    requires ways { AreWays history.now ways.now.way.items ways.now.here.items ways.now.shared }
    requires shared { place ≤ ways.now.shared }
    ensures { result ≡ true → is_leaked (state_after history.now.tree.made ways.now.way.items place) koid ≡ false }
{
    if place < ways.here.len() {
        shows_unleaked(history, ways.here[place], koid)
    } else {
        is_entered(history.store(), koid)
    }
}

/// A place not behind this one at which the object is not leaked: the last one that the records show, or else the
/// first.
pub(crate) fn unleaked_before(history: &History, ways: &PathPair, koid: Koid, place: usize) -> usize
    requires ways { AreWays history.now ways.now.way.items ways.now.here.items ways.now.shared }
    requires shared { place ≤ ways.now.shared }
    ensures low { result ≤ place }
    ensures before { is_leaked (state_after history.now.tree.made ways.now.way.items result) koid ≡ false }
{
    let mut i = place;
    while i > 0 {
        i -= 1;
        if shows_unleaked(history, ways.here[i], koid) {
            return i;
        }
    }
    0
}

/// Whether the store has an entry that names the object.
pub(crate) fn is_entered(store: &Store, koid: Koid) -> bool
    ensures { result ≡ true → is_leaked store.now.state koid ≡ false }
{
    let mut next = store.after(Some(RowKey::Object(Koid(u64::MAX))));
    for _ in 0..u64::MAX {
        let Some(key) = next else {
            return false;
        };
        let (asked, named) = (key, key);
        if names(store.row(asked), named, koid) {
            return true;
        }
        next = entry_after(store, key);
    }
    false
}

/// The key behind that of an entry. There is none for any other key.
fn entry_after(store: &Store, key: RowKey) -> Option<RowKey> {
    let low = key;
    match key {
        RowKey::Entry(_, _) => store.after(Some(low)),
        _ => None,
    }
}

/// Whether the record of a moment shows that the object was not leaked on its side of the call.
fn shows_unleaked(history: &History, moment: Moment, koid: Koid) -> bool
    ensures { result ≡ true → (S : State) → HoldsRowsOf (recorded_at history.now.tree.made history.now.position moment) S → is_leaked S koid ≡ false }
{
    let Some(record) = history.record_of(moment) else {
        return false;
    };
    tells_unleaked(record, koid)
}

/// Whether the record tells that the object is not there, or has an entry that names it.
fn tells_unleaked(change: &Record, koid: Koid) -> bool
    ensures { result ≡ true → (S : State) → HoldsRowsOf (Some change.now) S → is_leaked S koid ≡ false }
{
    has_none(change, koid) || is_entered_in(change, koid)
}

/// Whether the record has an entry that names the object.
pub(crate) fn is_entered_in(change: &Record, koid: Koid) -> bool
    ensures { result ≡ true → ShowsReached change.now koid }
{
    for key in change.keys() {
        if names_under(change, *key, koid) {
            return true;
        }
    }
    false
}

/// Whether the record tells that the object is not there.
fn has_none(change: &Record, koid: Koid) -> bool
    ensures { result ≡ has_none (held change.now (key_variant.Object koid)) }
{
    match change.held(RowKey::Object(koid)) {
        Some(None) => true,
        _ => false,
    }
}

/// Whether the record has an entry under the key that names the object.
fn names_under(change: &Record, key: RowKey, koid: Koid) -> bool
    ensures { result ≡ names_in key (held change.now key) koid }
{
    let asked = key;
    match change.held(asked) {
        Some(row) => names(row, key, koid),
        None => false,
    }
}

/// Whether the row is an entry that names the object.
pub(crate) fn names(row: Option<&Row>, key: RowKey, koid: Koid) -> bool
    ensures { result ≡ names_object key (option_copied row.entry) koid }
{
    let RowKey::Entry(_, _) = key else {
        return false;
    };
    match row {
        Some(Row::Entry(held)) => held.koid == koid,
        _ => false,
    }
}
