//! Signs that an object was never leaked, found without a path: in the record of the call by which it went, or at the
//! position. None of them allocates.

ghost use Rattle.std.specs.Prelude.{◌≡◌, ◌≤◌, true, false, None, length};
ghost use Rattle.zt_rows.specs.declared.calls.Happening.TheVariants as happening;
ghost use Rattle.zt_rows.specs.declared.keys.RowKey.TheVariants as key_variant;
ghost use Rattle.zt_rows.specs.State.{State};
ghost use Rattle.zt_rows.specs.Tests.{exists};
ghost use Rattle.zt_store.specs.RecordLook.{held};
ghost use Rattle.zt_history.specs.TreeInvariant.{IsTree, recorded_at};
ghost use Rattle.zt_history.specs.Tree.{state_at};
ghost use Rattle.zt_queries.specs.HappeningTimes.{happens, is_known, last_on};
ghost use Rattle.zt_queries.specs.Leaks.{is_leaked};
ghost use Rattle.zt_queries.specs.ProofsOnly.FirstLeak.{HoldsRowsOf, PassesUnleaked, is_passing_kind, is_passing_in};

use crate::leak_graph::record_reach::tells_reached;
use crate::leak_graph::unleaked_signs::{is_sure, names};
use crate::path_pair::is_there;
use zt_bits::Kind;
use zt_history::{History, RowHappening};
use zt_rows::{Koid, Moment, Row, RowKey};
use zt_store::{Record, Store};

/// Whether a sign shows that the object is leaked at no moment up to `at`. The sign is in the call by which the object
/// went, or at the position.
pub(crate) fn is_never_leaked(history: &History, at: Moment, koid: Koid) -> bool
    requires there { at ≤ length history.now.tree.made }
    requires known { is_known (state_at history.now.tree.made at) koid ≡ true }
    ensures never { result ≡ true → last_on (happens happening.Leaked koid) history.now.tree.made at ≡ None }
    ensures tree { IsTree history.now.tree }
{
    let position = history.position();
    match history.last_shown(RowHappening::Ended, koid, at) {
        Some(moment) => went_unleaked(history, moment, koid),
        None => at == position && stands_unleaked(history, koid),
    }
}

/// Whether the object is there at the position, and a sign shows that it is not leaked there.
fn stands_unleaked(history: &History, koid: Koid) -> bool
    ensures there { result ≡ true → exists (state_at history.now.tree.made history.now.position) koid ≡ true }
    ensures unleaked { result ≡ true → is_leaked (state_at history.now.tree.made history.now.position) koid ≡ false }
{
    let row = history.store().row(RowKey::Object(koid));
    is_there(row) && (is_sure(row, koid) || is_entered_here(history, koid))
}

/// Whether an entry at the position names the object and was put by one of two calls. These are the call that made the
/// object, and the last one that took a name of it away. If a process holds the object, there mostly is such an entry.
fn is_entered_here(history: &History, koid: Koid) -> bool
    ensures { result ≡ true → is_leaked (state_at history.now.tree.made history.now.position) koid ≡ false }
{
    let position = history.position();
    is_entered_by(
        history,
        history.last_shown(RowHappening::Made, koid, position),
        koid,
    ) || is_entered_by(history, history.last_released(koid, position), koid)
}

/// Whether an entry at the position names the object and was put by the call of this moment, if there is a moment.
fn is_entered_by(history: &History, moment: Option<Moment>, koid: Koid) -> bool
    ensures { result ≡ true → is_leaked (state_at history.now.tree.made history.now.position) koid ≡ false }
{
    let Some(moment) = moment else {
        return false;
    };
    match history.record_of(moment) {
        Some(record) => is_entered_among(record.keys(), history.store(), koid),
        None => false,
    }
}

/// Whether the store has an entry under one of the keys that names the object.
fn is_entered_among(keys: &[RowKey], store: &Store, koid: Koid) -> bool
    ensures { result ≡ true → is_leaked store.now.state koid ≡ false }
{
    for key in keys {
        let (asked, named) = (*key, *key);
        if names(store.row(asked), named, koid) {
            return true;
        }
    }
    false
}

/// Whether the record of a moment shows that the object was not leaked on its side of the call. The record has to have
/// the object, of a kind that is gone when it ends.
fn went_unleaked(history: &History, moment: Moment, koid: Koid) -> bool
    ensures { result ≡ true → (S : State) → HoldsRowsOf (recorded_at history.now.tree.made history.now.position moment) S → PassesUnleaked S koid }
{
    let Some(record) = history.record_of(moment) else {
        return false;
    };
    is_passing(record, koid) && tells_reached(record, koid)
}

/// Whether the record has the object, of a kind that is gone when it ends: no process and no job.
fn is_passing(change: &Record, koid: Koid) -> bool
    ensures { result ≡ is_passing_in (held change.now (key_variant.Object koid)) }
{
    match change.held(RowKey::Object(koid)) {
        Some(Some(Row::Object(found))) => is_passing_kind(found.kind),
        _ => false,
    }
}

/// Whether objects of the kind are gone when they end.
fn is_passing_kind(kind: Kind) -> bool
    ensures { result ≡ is_passing_kind kind }
{
    !matches!(kind, Kind::Job | Kind::Process)
}
