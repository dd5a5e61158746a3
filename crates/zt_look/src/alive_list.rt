//! Lists what was made on a path and is there at its end.

ghost use Rattle.std.specs.Prelude.{◌≡◌, ◌⊎◌, ◌≤◌, ◌++◌, [], length, Ok, IfOk, IfErr, OnOk, OnErr};
ghost use Rattle.std.specs.List.{cons_option};
ghost use Rattle.zt_rows.specs.Reads.{counters};
ghost use Rattle.zt_history.specs.HistoryRefusals.{IsHistoryRefusal};
ghost use Rattle.zt_history.specs.Timeline.{IsMovedAtMost, moved_to};
ghost use Rattle.zt_queries.specs.LaterMoments.{leads_to};
ghost use Rattle.zt_look.specs.AliveList.{AreAlive, since_on};
ghost use Rattle.zt_look.specs.ProofsOnly.AliveSoFar.{alive_shown, living_kind};

use crate::limits::limits;
use std::alloc::{AllocError, Global};
use zt_bits::Kind;
use zt_history::{History, RowHappening};
use zt_rows::{Koid, Life, Moment, Refusal};
use zt_store::Store;

/// An object that was made on a path, is there at its end and has not ended: its kind, how many supports it has there,
/// and the moment whose call made it.
#[derive(Clone, Copy)]
pub struct AliveObject {
    pub koid: Koid,
    pub kind: Kind,
    pub holders: u64,
    pub made: Moment,
}

/// The objects that were made behind `since` on the path to `at`, are there at its end and have not ended, leaked or
/// not. They are by rising koid, which is the order in which they were made. With the opening for `since`, these are
/// all that a call made. The root job and the first process were made by none.
///
/// Goes up from `at` to `since`, and looks at each koid that was given out by `at`. The history's notes of a live object
/// tell when it was made. The history goes to `at`, at the cost of the records on the way.
///
/// Errors: `NoMoment` if `at` is beyond the last moment, or `since` is not on the path to `at`. `OutOfMemory` if an
/// allocation fails; the history then stands where it stood, or at `at`.
pub fn alive(
    alloc: Global,
    history: &mut History,
    at: Moment,
    since: Moment,
) -> Result<Vec<AliveObject>, Refusal>
    ensures ok { IfOk result (λ list. AreAlive history.old.tree.made at since list.items) }
    ensures within { OnOk result (since_on history.old.tree at since ≡ Ok at) }
    ensures refused { IfErr result (IsHistoryRefusal (since_on history.old.tree at since)) }
    ensures moved { OnOk result (history.new ≡ moved_to history.old at) }
    ensures stands { OnErr result ((history.new ≡ history.old) ⊎ IsMovedAtMost history.old history.new at) }
    ensures nowhere { IfErr (since_on history.old.tree at since) (λ _. history.new ≡ history.old) }
    ensures tree { OnErr result (history.new.tree ≡ history.old.tree) }
{
    check_since(history, at, since)?;
    history.goto(at)?;
    let list = alive_here(alloc, history, since)?;
    Ok(list)
}

/// Fails with `NoMoment` if `at` is beyond the last moment, or `since` is not on the path there.
fn check_since(history: &History, at: Moment, since: Moment) -> Result<(), Refusal>
    ensures ok { OnOk result (since_on history.now.tree at since ≡ Ok at) }
    ensures refused { IfErr result (IsHistoryRefusal (since_on history.now.tree at since)) }
{
    if at > history.last() || !leads_to(history, since, at) {
        Err(Refusal::NoMoment)
    } else {
        Ok(())
    }
}

/// Whether a moment is the opening, or on the path to `at`.
fn leads_to(history: &History, moment: Moment, at: Moment) -> bool
    requires { at ≤ length history.now.tree.made }
    ensures { result ≡ leads_to history.now.tree.made moment at }
{
    limits(history);
    let mut here = at;
    while here > moment {
        here = history.parent_of(here);
    }
    here == moment
}

/// The objects that live at the position and were made behind `since` on the path there, by rising koid.
fn alive_here(
    alloc: Global,
    history: &History,
    since: Moment,
) -> Result<Vec<AliveObject>, AllocError>
    ensures { IfOk result (λ list. AreAlive history.now.tree.made history.now.position since list.items) }
{
    limits(history);
    let next_koid = next_koid(history.store());
    let mut list = Vec::new(alloc);
    for number in 0..next_koid {
        push_alive(&mut list, history, since, Koid(number))?;
    }
    Ok(list)
}

/// The number of the koid that is given out next.
fn next_koid(store: &Store) -> u64
    ensures { result ≡ (counters store.now.state).next_koid }
{
    store.counters().next_koid.0
}

/// Appends the object, if it lives at the position and was made behind `since`.
fn push_alive(
    list: &mut Vec<AliveObject>,
    history: &History,
    since: Moment,
    koid: Koid,
) -> Result<(), AllocError>
    ensures { OnOk result (list.new.items
        ≡ list.old.items ++ cons_option (alive_shown history.now.tree.made history.now.position since koid) []) }
{
    match alive_object(history, since, koid) {
        Some(object) => {
            list.push(object)?;
            Ok(())
        }
        None => Ok(()),
    }
}

/// The object, if it lives at the position and was made behind `since`.
fn alive_object(history: &History, since: Moment, koid: Koid) -> Option<AliveObject>
    ensures { result ≡ alive_shown history.now.tree.made history.now.position since koid }
{
    let kind = living_kind(history.store(), koid)?;
    let made = history.last_shown(RowHappening::Made, koid, history.position())?;
    if made <= since {
        return None;
    }
    Some(AliveObject {
        koid,
        kind,
        holders: history.store().count(koid),
        made,
    })
}

/// The kind of the object, if it is there and has not ended.
fn living_kind(store: &Store, koid: Koid) -> Option<Kind>
    ensures { result ≡ living_kind store.now.state koid }
{
    let object = store.object(koid)?;
    if object.life == Life::Live {
        Some(object.kind)
    } else {
        None
    }
}
