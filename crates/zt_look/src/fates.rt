//! Tells the fate of each object of a path, from the path's events.

ghost use Rattle.std.specs.Prelude.{◌≡◌, ◌<◌, ◌≤◌, ◌++◌, ℕ, [], length, if◌then◌else◌, ◌==◌, is_some, slice_index_or, IfOk, OnOk};
ghost use Rattle.std.specs.List.{cons_option};
ghost use Rattle.std.specs.Option.{unwrap_or};
ghost use Rattle.zt_rows.specs.Reads.{is_live};
ghost use Rattle.zt_history.specs.Tree.{path};
ghost use Rattle.zt_look.specs.EventList.{AreEvents};
ghost use Rattle.zt_look.specs.Fates.{AreFates, fate_by};
ghost use Rattle.zt_look.specs.ProofsOnly.FatesSoFar.{AreFatesUpTo, AreFateTimes, fate_shown, no_fate_times, of_fates, moment_in, shown, turned};

use crate::event_list::ObjectEvent;
use crate::limits::limits;
use std::alloc::{AllocError, Global};
use zt_bits::Kind;
use zt_history::History;
use zt_rows::{Happening, Koid, Life, Moment, ObjectRow};
use zt_store::Store;

/// The fate of an object: it lives, it is leaked, or it has ended or is gone.
#[derive(Clone, Copy)]
pub enum Fate {
    Alive,
    Leaked,
    Dead,
}

/// The fate of an object at the end of a path, and the moment since which it holds. That is 0 if it held at the
/// opening.
#[derive(Clone, Copy)]
pub struct ObjectFate {
    pub koid: Koid,
    pub kind: Kind,
    pub fate: Fate,
    pub since: Moment,
}

/// The kind and the moments that the events of a path tell of an object.
#[derive(Clone, Copy)]
struct FateTimes {
    kind: Option<Kind>,
    made: Option<Moment>,
    ended: Option<Moment>,
    leaked: Option<Moment>,
}

/// No kind and no moments, since there are no events.
const NO_FATE_TIMES: FateTimes = FateTimes {
    kind: None,
    made: None,
    ended: None,
    leaked: None,
};

/// The limit of koids: all koids that are told of are below it.
const MOST_KOIDS: u64 = 1 << 48;

/// The fate of each object that was there at some moment of the path to the position, by rising koid. `events` has to
/// be the events of that path. Each event and each koid costs one look.
pub(crate) fn fates(
    alloc: Global,
    history: &History,
    events: &[ObjectEvent],
) -> Result<Vec<ObjectFate>, AllocError>
    requires { AreEvents history.now.tree.made of_fates (path history.now.tree.made history.now.position) events.now }
    ensures { IfOk result (λ list. AreFates history.now.tree.made history.now.position list.items) }
{
    limits(history);
    let store = history.store();
    let all_times = fate_times_of(alloc, events)?;
    let list = listed(alloc, store, all_times.as_slice())?;
    Ok(list)
}

/// The times that the events tell of each object, by koid.
fn fate_times_of(alloc: Global, events: &[ObjectEvent]) -> Result<Vec<FateTimes>, AllocError>
    ensures { IfOk result (λ all_times. AreFateTimes events.now all_times.items) }
{
    let mut all_times = Vec::new(alloc);
    for event in events {
        add_event(&mut all_times, event)?;
    }
    Ok(all_times)
}

/// Adds the moment that an event tells of its object.
fn add_event(all_times: &mut Vec<FateTimes>, event: &ObjectEvent) -> Result<(), AllocError>
    ensures { OnOk result ((x : ℕ) → slice_index_or all_times.new.items x no_fate_times
        ≡ (if event.now.koid == x then turned event.now (slice_index_or all_times.old.items x no_fate_times) else slice_index_or all_times.old.items x no_fate_times)) }
{
    let koid = event.koid;
    grow_to(all_times, koid)?;
    let place = koid.0 as usize;
    all_times[place] = turned(event, all_times[place]);
    Ok(())
}

/// Makes a place for the koid. A koid from 2^48 on counts as an allocation failure.
fn grow_to(all_times: &mut Vec<FateTimes>, koid: Koid) -> Result<(), AllocError>
    ensures same { (x : ℕ) → slice_index_or all_times.new.items x no_fate_times ≡ slice_index_or all_times.old.items x no_fate_times }
    ensures made { OnOk result (koid < length all_times.new.items) }
{
    if koid.0 < all_times.len() as u64 {
        return Ok(());
    }
    if koid.0 >= MOST_KOIDS {
        return Err(AllocError);
    }
    all_times.resize(koid.0 as usize + 1, NO_FATE_TIMES)
}

/// The times with those that the event tells.
fn turned(event: &ObjectEvent, times: FateTimes) -> FateTimes
    ensures { result ≡ turned event.now times }
{
    let kind = Some(event.kind);
    let moment = Some(event.moment);
    match event.what {
        Happening::Made => FateTimes {
            kind,
            made: moment,
            ..times
        },
        Happening::Ended => FateTimes {
            kind,
            ended: moment,
            ..times
        },
        Happening::Leaked => FateTimes {
            kind,
            leaked: moment,
            ..times
        },
        Happening::PeerClosed => FateTimes { kind, ..times },
    }
}

/// The fate of each object of the store, and of each object of which events tell. Skips koids that no object has or
/// had.
fn listed(
    alloc: Global,
    store: &Store,
    all_times: &[FateTimes],
) -> Result<Vec<ObjectFate>, AllocError>
    ensures { IfOk result (λ list. AreFatesUpTo store.now.state all_times.now list.items) }
{
    let known = store.counters().next_koid.0;
    let end = known.max(all_times.len() as u64);
    let mut list = Vec::new(alloc);
    for number in 0..end {
        push_fate(&mut list, store, all_times, Koid(number))?;
    }
    Ok(list)
}

/// Appends the fate of the object, if there is or was one.
fn push_fate(
    list: &mut Vec<ObjectFate>,
    store: &Store,
    all_times: &[FateTimes],
    koid: Koid,
) -> Result<(), AllocError>
    ensures { OnOk result (list.new.items ≡ list.old.items ++ cons_option (shown store.now.state all_times.now koid) []) }
{
    let times = times_at(all_times, koid);
    match fate_shown(koid, store.object(koid), &times) {
        Some(fate) => {
            list.push(fate)?;
            Ok(())
        }
        None => Ok(()),
    }
}

/// The times that the events tell of the koid.
fn times_at(all_times: &[FateTimes], koid: Koid) -> FateTimes
    ensures { result ≡ slice_index_or all_times.now koid no_fate_times }
{
    match all_times.get(koid.0 as usize) {
        Some(times) => *times,
        None => NO_FATE_TIMES,
    }
}

/// The fate of the object, from its row, if it is there, and from the times that the events tell.
fn fate_shown(koid: Koid, object: Option<ObjectRow>, times: &FateTimes) -> Option<ObjectFate>
    ensures { result ≡ fate_shown koid object times.now }
{
    match object {
        Some(object) => {
            let kind = object.kind;
            let fate = fate_by(times.leaked.is_some(), object.life == Life::Live);
            let since = since(fate, times);
            Some(ObjectFate {
                koid,
                kind,
                fate,
                since,
            })
        }
        None => match times.kind {
            Some(kind) => {
                let fate = Fate::Dead;
                let since = since(fate, times);
                Some(ObjectFate {
                    koid,
                    kind,
                    fate,
                    since,
                })
            }
            None => None,
        },
    }
}

/// The fate of an object that is leaked or not, and lives or not.
fn fate_by(leaked: bool, lives: bool) -> Fate
    ensures { result ≡ fate_by leaked lives }
{
    if leaked {
        Fate::Leaked
    } else if lives {
        Fate::Alive
    } else {
        Fate::Dead
    }
}

/// The moment since which the fate holds, or 0 if no event tells.
fn since(fate: Fate, times: &FateTimes) -> Moment
    ensures { result ≡ unwrap_or (moment_in fate times.now) 0 }
{
    let found = match fate {
        Fate::Alive => times.made,
        Fate::Leaked => times.leaked,
        Fate::Dead => times.ended,
    };
    match found {
        Some(moment) => moment,
        None => Moment(0),
    }
}
