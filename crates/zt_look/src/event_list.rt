//! Lists what happened to objects in the calls of a path.

ghost use Rattle.std.specs.Prelude.{◌≡◌, ◌⊎◌, ◌++◌, ◌∷◌, [], ◌||◌, ◌<◌, ◌≤◌, nat_le, nat_lt, position, ℕ, true, length, map, drop, Ok, IfOk, IfErr, IfSome, OnOk, OnErr};
ghost use Rattle.std.specs.BTreeSet.{contains, IsOrdered};
ghost use Rattle.std.specs.List.{flat_map, list_any, position_or_len};
ghost use Rattle.std.specs.Ordering.{nat_cmp};
ghost use Rattle.zt_history.specs.HistoryRefusals.{IsHistoryRefusal, moment_on};
ghost use Rattle.zt_history.specs.Timeline.{moved_to, IsPath};
ghost use Rattle.zt_history.specs.Tree.{end_of, parent_at, path, state_at};
ghost use Rattle.zt_look.specs.EventList.{AreEvents, between, is_asked, up_to};
ghost use Rattle.zt_look.specs.ProofsOnly.EventsSoFar.{AddsMoment, AreLeaked, event_shown, events_shown, is_object, kind_shown, object_over, shows, change_over};
ghost use Rattle.zt_look.specs.ProofsOnly.UnleakedSet.{IsUnleakedSet};
ghost use Rattle.zt_history.specs.RowHappenings.{is_cut_off};
ghost use Rattle.zt_rows.specs.Reads.{is_live, on_object};

use crate::limits::limits;
use crate::unleaked_set::{back_over, unleaked_at};
use bitflags::Flags;
use std::alloc::{AllocError, Global};
use std::collections::BTreeSet;
use zt_bits::{Kind, Signals};
use zt_history::History;
use zt_rows::{Happening, Koid, Life, Moment, ObjectRow, Refusal, Row, RowKey};
use zt_store::{Record, Store};

/// Something that happened to an object in the call of a moment. `kind` is the object's kind after the call, or before
/// it if the object is gone then.
#[derive(Clone, Copy)]
pub struct ObjectEvent {
    pub moment: Moment,
    pub koid: Koid,
    pub what: Happening,
    pub kind: Kind,
}

/// Which happenings are asked for.
#[derive(Clone, Copy)]
pub struct HappeningSet {
    pub made: bool,
    pub ended: bool,
    pub peer_closed: bool,
    pub leaked: bool,
}

/// Which events are asked for: those of the moments from the first to the last that are of these happenings.
#[derive(Clone, Copy)]
pub struct EventFilter {
    pub first: Moment,
    pub last: Moment,
    pub happenings: HappeningSet,
}

/// A change of an object by a moment's call: its rows before and after the call, and whether the call leaked it.
#[derive(Clone, Copy)]
struct ObjectChange {
    moment: Moment,
    koid: Koid,
    before: Option<ObjectRow>,
    after: Option<ObjectRow>,
    leaked: bool,
}

/// The events on the path to `at` that are asked for. They are in the order of the moments, and at one moment by rising
/// koid. The events of one object at one moment are in the order of the fields of `HappeningSet`.
///
/// The history goes back along the path and then to `at`, at the cost of the path's records. It does so also after an
/// allocation failure on the way. If leaks are asked for, their search comes to the cost.
///
/// Errors: `NoMoment` if `at` is beyond the last moment, `OutOfMemory` if an allocation fails.
pub fn events(
    alloc: Global,
    history: &mut History,
    at: Moment,
    asked: &HappeningSet,
) -> Result<Vec<ObjectEvent>, Refusal>
    ensures ok { IfOk result (λ list. AreEvents history.old.tree.made asked.now (path history.old.tree.made at) list.items) }
    ensures within { OnOk result (moment_on history.old.tree at ≡ Ok at) }
    ensures refused { IfErr result (IsHistoryRefusal (moment_on history.old.tree at)) }
    ensures moved { OnOk result (history.new ≡ moved_to history.old at) }
    ensures stands { OnErr result ((history.new ≡ history.old) ⊎ (history.new ≡ moved_to history.old at)) }
    ensures nowhere { IfErr (moment_on history.old.tree at) (λ _. history.new ≡ history.old) }
    ensures tree { OnErr result (history.new.tree ≡ history.old.tree) }
{
    let way = history.path(at)?;
    let list = events_along(alloc, history, way.as_slice(), 0, asked)?;
    Ok(list)
}

/// The events on the path to `at` at the moments that are asked for, in the order of `events`.
///
/// The history goes to the last of these moments, back over them, and to the last one again, at the cost of their
/// records. If leaks are asked for, their search there comes to the cost. Errors are those of `events`.
pub fn events_between(
    alloc: Global,
    history: &mut History,
    at: Moment,
    asked: &EventFilter,
) -> Result<Vec<ObjectEvent>, Refusal>
    ensures ok { IfOk result (λ list. AreEvents history.old.tree.made asked.now.happenings
        (between asked.now.first asked.now.last (path history.old.tree.made at)) list.items) }
    ensures within { OnOk result (moment_on history.old.tree at ≡ Ok at) }
    ensures refused { IfErr result (IsHistoryRefusal (moment_on history.old.tree at)) }
    ensures moved { OnOk result (history.new ≡ moved_to history.old (end_of (up_to asked.now.last (path history.old.tree.made at)))) }
    ensures stands { OnErr result ((history.new ≡ history.old)
        ⊎ (history.new ≡ moved_to history.old (end_of (up_to asked.now.last (path history.old.tree.made at))))) }
    ensures nowhere { IfErr (moment_on history.old.tree at) (λ _. history.new ≡ history.old) }
    ensures tree { OnErr result (history.new.tree ≡ history.old.tree) }
{
    limits(history);
    let path = history.path(at)?;
    let way = up_to(path.as_slice(), asked.last);
    let start = place_from(way, asked.first);
    let list = events_along(alloc, history, way, start, &asked.happenings)?;
    Ok(list)
}

/// The moments of a path up to this one.
fn up_to(way: &[Moment], last: Moment) -> &[Moment]
    ensures { result.now ≡ up_to last way.now }
{
    match first_beyond(way, last) {
        Some(place) => &way[..place],
        None => way,
    }
}

/// The place of the first moment of a path that is `first` or a later one, or the path's length if there is none.
#[tactic(auto, using(crate::proofs::EventLaws::place_none))]
fn place_from(way: &[Moment], first: Moment) -> usize
    ensures place { result ≡ position_or_len (λ moment. nat_le first moment) way.now }
    ensures within { result ≤ length way.now }
{
    match first_from(way, first) {
        Some(place) => place,
        None => way.len(),
    }
}

/// The place of the first moment that is later than this one.
fn first_beyond(way: &[Moment], last: Moment) -> Option<usize>
    ensures at { result ≡ position (λ moment. nat_lt last moment) way.now }
    ensures inside { IfSome result (λ place. place < length way.now) }
{
    way.iter().position(|moment| *moment > last)
}

/// The place of the first moment that is this one or a later one.
fn first_from(way: &[Moment], first: Moment) -> Option<usize>
    ensures at { result ≡ position (λ moment. nat_le first moment) way.now }
    ensures inside { IfSome result (λ place. place < length way.now) }
{
    way.iter().position(|moment| *moment >= first)
}

/// The events on a path from this place of it on. The history goes back along the path and then to its end, also after
/// an allocation failure.
fn events_along(
    alloc: Global,
    history: &mut History,
    way: &[Moment],
    start: usize,
    asked: &HappeningSet,
) -> Result<Vec<ObjectEvent>, AllocError>
    requires path { IsPath history.old.tree.made way.now }
    requires start { start ≤ length way.now }
    ensures ok { IfOk result (λ list. AreEvents history.old.tree.made asked.now (drop start way.now) list.items) }
    ensures moved { history.new ≡ moved_to history.old (end_of way.now) }
{
    let list = events_back(alloc, history, way, start, asked);
    history.along(way);
    list
}

/// The events on a path from this place of it on. The history goes to the path's end, and back along it.
fn events_back(
    alloc: Global,
    history: &mut History,
    way: &[Moment],
    start: usize,
    asked: &HappeningSet,
) -> Result<Vec<ObjectEvent>, AllocError>
    requires path { IsPath history.old.tree.made way.now }
    requires start { start ≤ length way.now }
    ensures ok { IfOk result (λ list. AreEvents history.old.tree.made asked.now (drop start way.now) list.items) }
    ensures tree { history.new.tree ≡ history.old.tree }
{
    limits(history);
    history.along(way);
    let mut set = unleaked_if(alloc, history, asked)?;
    let mut list = Vec::new(alloc);
    for place in (start..way.len()).rev() {
        let moment = way[place];
        history.along(&way[..place]);
        push_moment(alloc, &mut list, &mut set, history, moment, asked)?;
    }
    list.reverse();
    Ok(list)
}

/// Appends the events of the moment's call, the last first. Takes the set of unleaked objects back to the moment's
/// parent, at which the history stands. The set is there only if leaks are asked for.
fn push_moment(
    alloc: Global,
    list: &mut Vec<ObjectEvent>,
    set: &mut BTreeSet<u64>,
    history: &History,
    moment: Moment,
    asked: &HappeningSet,
) -> Result<(), AllocError>
    requires made { 0 < moment }
    requires there { moment ≤ length history.now.tree.made }
    requires parent { history.now.position ≡ parent_at history.now.tree.made moment }
    requires unleaked { asked.now.leaked ≡ true → IsUnleakedSet (state_at history.now.tree.made moment) set.old }
    ensures list { OnOk result (AddsMoment history.now.tree.made asked.now moment list.old.items list.new.items) }
    ensures set { OnOk result (asked.now.leaked ≡ true → IsUnleakedSet (state_at history.now.tree.made history.now.position) set.new) }
{
    let leaked = leaked_by(alloc, set, history, moment, asked)?;
    let mut here = events_at(alloc, history, moment, asked, &leaked)?;
    here.reverse();
    list.extend_from_slice(here.as_slice())?;
    Ok(())
}

/// The objects that are not leaked at the position, if leaks are asked for.
fn unleaked_if(
    alloc: Global,
    history: &History,
    asked: &HappeningSet,
) -> Result<BTreeSet<u64>, AllocError>
    ensures { IfOk result (λ set. asked.now.leaked ≡ true → IsUnleakedSet (state_at history.now.tree.made history.now.position) set) }
{
    if asked.leaked {
        unleaked_at(alloc, history)
    } else {
        Ok(BTreeSet::new(alloc))
    }
}

/// The objects that the moment's call leaked, if leaks are asked for. The set goes back to the moment's parent.
fn leaked_by(
    alloc: Global,
    set: &mut BTreeSet<u64>,
    history: &History,
    moment: Moment,
    asked: &HappeningSet,
) -> Result<BTreeSet<u64>, AllocError>
    requires made { 0 < moment }
    requires there { moment ≤ length history.now.tree.made }
    requires parent { history.now.position ≡ parent_at history.now.tree.made moment }
    requires unleaked { asked.now.leaked ≡ true → IsUnleakedSet (state_at history.now.tree.made moment) set.old }
    ensures leaked { IfOk result (λ found. AreLeaked history.now.tree.made asked.now moment found) }
    ensures set { OnOk result (asked.now.leaked ≡ true → IsUnleakedSet (state_at history.now.tree.made history.now.position) set.new) }
{
    if asked.leaked {
        back_over(alloc, set, history, moment)
    } else {
        Ok(BTreeSet::new(alloc))
    }
}

/// The events of the moment's call. The history stands at the moment's parent, and `leaked` has what the call leaked.
fn events_at(
    alloc: Global,
    history: &History,
    moment: Moment,
    asked: &HappeningSet,
    leaked: &BTreeSet<u64>,
) -> Result<Vec<ObjectEvent>, AllocError>
    requires made { 0 < moment }
    requires there { moment ≤ length history.now.tree.made }
    requires parent { history.now.position ≡ parent_at history.now.tree.made moment }
    requires leaked { AreLeaked history.now.tree.made asked.now moment leaked.now }
    ensures { IfOk result (λ here. AreEvents history.now.tree.made asked.now (moment ∷ []) here.items) }
{
    limits(history);
    match history.record_of(moment) {
        Some(kept) => {
            let koids = koids_of(kept, leaked)?;
            events_among(alloc, kept, history.store(), moment, asked, leaked, koids)
        }
        None => Ok(Vec::new(alloc)),
    }
}

/// The koids of the leaked objects, and of the objects that have a row in the record.
fn koids_of(kept: &Record, leaked: &BTreeSet<u64>) -> Result<BTreeSet<u64>, AllocError>
    ensures has { IfOk result (λ koids. (x : ℕ) → contains nat_cmp koids x
        ≡ (contains nat_cmp leaked.now x || list_any (is_object x) (map (λ e. e.0) kept.now))) }
    ensures ordered { IfOk result (IsOrdered nat_cmp) }
{
    let mut koids = leaked.clone()?;
    for key in kept.keys() {
        add_object(&mut koids, key)?;
    }
    let _count = koids.len();
    Ok(koids)
}

/// Adds the koid of the key, if it is that of an object.
fn add_object(koids: &mut BTreeSet<u64>, key: &RowKey) -> Result<(), AllocError>
    ensures { OnOk result ((x : ℕ) → contains nat_cmp koids.new x ≡ (contains nat_cmp koids.old x || is_object x key.now)) }
{
    match key {
        RowKey::Object(koid) => {
            koids.insert(koid.0)?;
            Ok(())
        }
        _ => Ok(()),
    }
}

/// The events of these objects in the moment's call, from the call's record and the store before it.
fn events_among(
    alloc: Global,
    kept: &Record,
    store: &Store,
    moment: Moment,
    asked: &HappeningSet,
    leaked: &BTreeSet<u64>,
    koids: BTreeSet<u64>,
) -> Result<Vec<ObjectEvent>, AllocError>
    ensures { IfOk result (λ here. here.items
        ≡ flat_map (λ x. events_shown asked.now (change_over kept.now store.now.state moment leaked.now x)) koids.keys) }
{
    let mut left = koids;
    let mut here = Vec::new(alloc);
    'koids: while let Some(koid) = left.pop_first() {
        let change = change_over(kept, store, moment, leaked, Koid(koid));
        push_events(&mut here, asked, &change)?;
    }
    Ok(here)
}

/// The change of the object by the moment's call, from the call's record and the store before it.
fn change_over(
    kept: &Record,
    store: &Store,
    moment: Moment,
    leaked: &BTreeSet<u64>,
    koid: Koid,
) -> ObjectChange
    ensures { result ≡ change_over kept.now store.now.state moment leaked.now koid }
{
    ObjectChange {
        moment,
        koid,
        before: store.object(koid),
        after: object_over(kept, store, koid),
        leaked: leaked.contains(&koid.0),
    }
}

/// The object on the other side of the record's call.
fn object_over(kept: &Record, store: &Store, koid: Koid) -> Option<ObjectRow>
    ensures { result ≡ object_over kept.now store.now.state koid }
{
    match kept.held(RowKey::Object(koid)) {
        Some(held) => Row::as_object(held).copied(),
        None => store.object(koid),
    }
}

/// Appends the events of the object that are asked for.
fn push_events(
    list: &mut Vec<ObjectEvent>,
    asked: &HappeningSet,
    change: &ObjectChange,
) -> Result<(), AllocError>
    ensures { OnOk result (list.new.items ≡ list.old.items ++ events_shown asked.now change.now) }
{
    push_event(list, asked, change, Happening::Made)?;
    push_event(list, asked, change, Happening::Ended)?;
    push_event(list, asked, change, Happening::PeerClosed)?;
    push_event(list, asked, change, Happening::Leaked)
}

/// Appends the event, if it happened and is asked for.
fn push_event(
    list: &mut Vec<ObjectEvent>,
    asked: &HappeningSet,
    change: &ObjectChange,
    what: Happening,
) -> Result<(), AllocError>
    ensures { OnOk result (list.new.items ≡ list.old.items ++ event_shown asked.now change.now what) }
{
    if !is_asked(asked, what) || !shows(what, change) {
        return Ok(());
    }
    match kind_shown(change) {
        Some(kind) => {
            let event = ObjectEvent {
                moment: change.moment,
                koid: change.koid,
                what,
                kind,
            };
            list.push(event)?;
            Ok(())
        }
        None => Ok(()),
    }
}

/// Whether the happening is asked for.
fn is_asked(asked: &HappeningSet, what: Happening) -> bool
    ensures { result ≡ is_asked asked.now what }
{
    match what {
        Happening::Made => asked.made,
        Happening::Ended => asked.ended,
        Happening::PeerClosed => asked.peer_closed,
        Happening::Leaked => asked.leaked,
    }
}

/// Whether the change shows the happening.
fn shows(what: Happening, change: &ObjectChange) -> bool
    ensures { result ≡ shows what change.now }
{
    match what {
        Happening::Made => change.before.is_none() && change.after.is_some(),
        Happening::Ended => is_living(&change.before) && !is_living(&change.after),
        Happening::PeerClosed => !is_alone(&change.before) && is_alone(&change.after),
        Happening::Leaked => change.leaked,
    }
}

/// The kind after the call, or before it if the object is gone.
fn kind_shown(change: &ObjectChange) -> Option<Kind>
    ensures { result ≡ kind_shown change.now }
{
    match change.after {
        Some(object) => Some(object.kind),
        None => match change.before {
            Some(object) => Some(object.kind),
            None => None,
        },
    }
}

/// Whether there is an object that has not ended.
fn is_living(object: &Option<ObjectRow>) -> bool
    ensures { result ≡ on_object (λ o. is_live o.life) object.now }
{
    match object {
        Some(found) => found.life == Life::Live,
        None => false,
    }
}

/// Whether there is an endpoint on which the signal stands that its peer is closed.
fn is_alone(object: &Option<ObjectRow>) -> bool
    ensures { result ≡ on_object is_cut_off object.now }
{
    match object {
        Some(found) => is_cut_off(found),
        None => false,
    }
}

/// Whether the object is an endpoint on which the signal stands that its peer is closed.
fn is_cut_off(object: &ObjectRow) -> bool
    ensures { result ≡ is_cut_off object.now }
{
    matches!(object.kind, Kind::Channel | Kind::EventPair)
        && object.signals.contains(Signals::PEER_CLOSED)
}
