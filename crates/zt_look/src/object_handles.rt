//! Lists the handles that named an object on a path: how each came to its place, and how it left.

ghost use Rattle.std.specs.Prelude.{◌≡◌, ◌⊎◌, ◌≤◌, ◌<◌, ◌++◌, ◌∷◌, [], length, reverse, Ok, IfOk, IfErr, OnOk, OnErr};
ghost use Rattle.std.specs.BTreeMap.{get};
ghost use Rattle.std.specs.List.{cons_option, filter_map, flat_map};
ghost use Rattle.std.specs.Option.{option_copied};
ghost use Rattle.zt_rows.specs.declared.refusals.Refusal.TheVariants as refusal;
ghost use Rattle.zt_rows.specs.Reads.{as_message};
ghost use Rattle.zt_rows.specs.State.{row};
ghost use Rattle.zt_history.specs.HistoryRefusals.{moment_on};
ghost use Rattle.zt_history.specs.Timeline.{moved_to, IsPath};
ghost use Rattle.zt_history.specs.Tree.{end_of, parent_at, state_at};
ghost use Rattle.zt_lineage.specs.declared.places.Place.{Place};
ghost use Rattle.zt_lineage.specs.declared.places.Place.TheVariants as place;
ghost use Rattle.zt_lineage.specs.Places.{held_at, place_cmp};
ghost use Rattle.zt_queries.specs.HappeningTimes.{IsRefusedWhen};
ghost use Rattle.zt_look.specs.MessageList.{names_it};
ghost use Rattle.zt_look.specs.ObjectHandles.{came, coming_at, comings_at, first_handle, handle_count, handles_of, handles_on, holds, leaving_at, message_places, named, places_under};
ghost use Rattle.zt_look.specs.ProofsOnly.Departures.{departed, departed_in, departs};

use crate::changes::row_before;
use crate::limits::limits;
use crate::message_list::is_known;
use std::alloc::{AllocError, Global};
use std::collections::BTreeMap;
use zt_history::History;
use zt_lineage::{Ending, Origin, Place, end_at, held_at, origin_at, target_at};
use zt_rows::{HandleValue, Held, Koid, Moment, ROOT_PROCESS, Refusal, Row, RowKey};
use zt_store::Store;

/// How a handle leaves a place: to another place, or by its end.
#[derive(Clone, Copy)]
pub enum Leaving {
    Moved(Place),
    Ended(Ending),
}

/// A handle to an object at one place: the moment at which it came there, where it came from, and at which moment and how
/// it left, if it did. One that came at moment 0, whose origin is `Stayed`, was there from the opening.
#[derive(Clone, Copy)]
pub struct ObjectHandle {
    pub moment: Moment,
    pub place: Place,
    pub held: Held,
    pub origin: Origin,
    pub left: Option<(Moment, Leaving)>,
}

/// The moments at which places lost their handles to the object, and how.
type Departures = BTreeMap<Place, (Moment, Leaving)>;

/// The handles that named the object on the path to `at`, in the order in which they came to their places. Those that came
/// by one call are in the order of their places.
///
/// The history goes back along the path and forth again to `at`, at the cost of the path's records. It does so also after
/// an allocation failure on the way.
///
/// Errors: `NoMoment` if `at` is beyond the last moment, `NoObject` if the koid was not given out by `at`, `OutOfMemory` if
/// an allocation fails.
pub(crate) fn object_handles(
    alloc: Global,
    history: &mut History,
    at: Moment,
    koid: Koid,
) -> Result<Vec<ObjectHandle>, Refusal>
    ensures ok { IfOk result (λ list. handles_on history.old.tree at koid ≡ Ok list.items) }
    ensures refused { IfErr result (IsRefusedWhen (handles_on history.old.tree at koid)) }
    ensures moment { IfErr result (λ refusal. IfErr (moment_on history.old.tree at) (λ reason. refusal ≡ reason)) }
    ensures moved { OnOk result (history.new ≡ moved_to history.old at) }
    ensures stands { OnErr result ((history.new ≡ history.old) ⊎ (history.new ≡ moved_to history.old at)) }
    ensures nowhere { IfErr (moment_on history.old.tree at) (λ _. history.new ≡ history.old) }
    ensures unknown { IfErr result (λ why. why ≡ refusal.NoObject → history.new ≡ moved_to history.old at) }
    ensures tree { OnErr result (history.new.tree ≡ history.old.tree) }
{
    let way = history.path(at)?;
    history.along(way.as_slice());
    if !is_known(history.store(), koid) {
        return Err(Refusal::NoObject);
    }
    let list = handles_along(alloc, history, way.as_slice(), koid)?;
    Ok(list)
}

/// The handles to the object on a path. The history goes back along the path and forth again, also after an allocation
/// failure.
fn handles_along(
    alloc: Global,
    history: &mut History,
    way: &[Moment],
    koid: Koid,
) -> Result<Vec<ObjectHandle>, AllocError>
    requires { IsPath history.old.tree.made way.now }
    ensures ok { IfOk result (λ list. list.items ≡ handles_of history.old.tree.made koid way.now) }
    ensures moved { history.new ≡ moved_to history.old (end_of way.now) }
{
    let list = handles_back(alloc, history, way, koid);
    history.along(way);
    list
}

/// The handles to the object on a path. The history goes back along the path.
fn handles_back(
    alloc: Global,
    history: &mut History,
    way: &[Moment],
    koid: Koid,
) -> Result<Vec<ObjectHandle>, AllocError>
    requires { IsPath history.old.tree.made way.now }
    ensures ok { IfOk result (λ list. list.items ≡ handles_of history.old.tree.made koid way.now) }
    ensures tree { history.new.tree ≡ history.old.tree }
{
    limits(history);
    let mut departures = BTreeMap::new(alloc);
    let mut list = Vec::new(alloc);
    for place in (0..way.len()).rev() {
        let moment = way[place];
        history.along(&way[..place]);
        push_moment(alloc, &mut list, &mut departures, history, moment, koid)?;
    }
    history.along(&way[..0]);
    push_first(&mut list, &departures, history, koid)?;
    list.reverse();
    Ok(list)
}

/// Appends the handle of the opening, at which the history is, if it names the object.
fn push_first(
    list: &mut Vec<ObjectHandle>,
    departures: &Departures,
    history: &History,
    koid: Koid,
) -> Result<(), AllocError>
    requires { history.now.position ≡ 0 }
    ensures { OnOk result (reverse list.new.items ≡ cons_option (first_handle (get place_cmp departures.now) history.now.tree.made koid) (reverse list.old.items)) }
{
    let place = Place::Entry(ROOT_PROCESS, HandleValue(3));
    match named(held_at(history.store(), &place), koid) {
        Some(held) => {
            let handle = ObjectHandle {
                moment: Moment(0),
                place,
                held,
                origin: Origin::Stayed,
                left: departures.get(&place).copied(),
            };
            list.push(handle)?;
            Ok(())
        }
        None => Ok(()),
    }
}

/// Appends the handles that come by the moment's call, the last first, and notes those that leave by it. The history is at
/// the moment's parent.
fn push_moment(
    alloc: Global,
    list: &mut Vec<ObjectHandle>,
    departures: &mut Departures,
    history: &History,
    moment: Moment,
    koid: Koid,
) -> Result<(), AllocError>
    requires made { 0 < moment }
    requires there { moment ≤ length history.now.tree.made }
    requires parent { history.now.position ≡ parent_at history.now.tree.made moment }
    ensures list { OnOk result (reverse list.new.items ≡ comings_at (get place_cmp departures.old) history.now.tree.made koid moment ++ reverse list.old.items) }
    ensures departures { OnOk result ((at : Place) → get place_cmp departures.new at
        ≡ departed history.now.tree.made koid moment at (get place_cmp departures.old at)) }
{
    limits(history);
    match history.record_of(moment) {
        Some(kept) => {
            let keys = kept.keys();
            let mut here = comings_under(alloc, departures, history, keys, moment, koid)?;
            here.reverse();
            list.extend_from_slice(here.as_slice())?;
            note_departures(departures, history, keys, moment, koid)
        }
        None => unreachable!(),
    }
}

/// The handles that come by the moment's call under these keys.
fn comings_under(
    alloc: Global,
    departures: &Departures,
    history: &History,
    keys: &[RowKey],
    moment: Moment,
    koid: Koid,
) -> Result<Vec<ObjectHandle>, AllocError>
    requires made { 0 < moment }
    requires there { moment ≤ length history.now.tree.made }
    requires parent { history.now.position ≡ parent_at history.now.tree.made moment }
    ensures { IfOk result (λ list. list.items
        ≡ flat_map (λ k. filter_map (coming_at (get place_cmp departures.now) history.now.tree.made koid moment) (places_under (state_at history.now.tree.made moment) k)) keys.now) }
{
    let mut list = Vec::new(alloc);
    for key in keys {
        push_under(&mut list, departures, history, *key, moment, koid)?;
    }
    Ok(list)
}

/// Appends the handles that come by the moment's call under a key.
fn push_under(
    list: &mut Vec<ObjectHandle>,
    departures: &Departures,
    history: &History,
    key: RowKey,
    moment: Moment,
    koid: Koid,
) -> Result<(), AllocError>
    requires made { 0 < moment }
    requires there { moment ≤ length history.now.tree.made }
    requires parent { history.now.position ≡ parent_at history.now.tree.made moment }
    ensures { OnOk result (list.new.items ≡ list.old.items
        ++ filter_map (coming_at (get place_cmp departures.now) history.now.tree.made koid moment) (places_under (state_at history.now.tree.made moment) key)) }
{
    match key {
        RowKey::Entry(process, handle) => {
            let place = Place::Entry(process, handle);
            push_coming(list, departures, history, &place, moment, koid)
        }
        RowKey::Msg(endpoint, number) => {
            let count = handle_count(row_after(history, moment, &key));
            push_message(
                list, departures, history, endpoint, number, count, moment, koid,
            )
        }
        _ => Ok(()),
    }
}

/// Appends the handles that come by the moment's call at the first places of a message.
fn push_message(
    list: &mut Vec<ObjectHandle>,
    departures: &Departures,
    history: &History,
    endpoint: Koid,
    number: u64,
    count: usize,
    moment: Moment,
    koid: Koid,
) -> Result<(), AllocError>
    requires made { 0 < moment }
    requires there { moment ≤ length history.now.tree.made }
    requires parent { history.now.position ≡ parent_at history.now.tree.made moment }
    ensures { OnOk result (list.new.items ≡ list.old.items
        ++ filter_map (coming_at (get place_cmp departures.now) history.now.tree.made koid moment) (message_places endpoint number count)) }
{
    for index in 0..count {
        let place = Place::Message(endpoint, number, index as u64);
        push_coming(list, departures, history, &place, moment, koid)?;
    }
    Ok(())
}

/// Appends the handle that comes to the place by the moment's call, if there is one.
fn push_coming(
    list: &mut Vec<ObjectHandle>,
    departures: &Departures,
    history: &History,
    place: &Place,
    moment: Moment,
    koid: Koid,
) -> Result<(), AllocError>
    requires made { 0 < moment }
    requires there { moment ≤ length history.now.tree.made }
    requires parent { history.now.position ≡ parent_at history.now.tree.made moment }
    ensures { OnOk result (list.new.items ≡ list.old.items
        ++ cons_option (coming_at (get place_cmp departures.now) history.now.tree.made koid moment place.now) []) }
{
    match came(history, place, moment, koid) {
        Some(held) => {
            let handle = ObjectHandle {
                moment,
                place: *place,
                held,
                origin: origin_at(history, moment, place),
                left: departures.get(place).copied(),
            };
            list.push(handle)?;
            Ok(())
        }
        None => Ok(()),
    }
}

/// The handle to the object that the place holds after the moment's call, and did not hold before it.
fn came(history: &History, place: &Place, moment: Moment, koid: Koid) -> Option<Held>
    requires made { 0 < moment }
    requires there { moment ≤ length history.now.tree.made }
    requires parent { history.now.position ≡ parent_at history.now.tree.made moment }
    ensures { result ≡ came koid (state_at history.now.tree.made (parent_at history.now.tree.made moment)) (state_at history.now.tree.made moment) place.now }
{
    if holds(history.store(), koid, place) {
        None
    } else {
        named(held_after(history, moment, place), koid)
    }
}

/// Whether the place holds a handle to the object.
fn holds(store: &Store, koid: Koid, place: &Place) -> bool
    ensures { result ≡ holds koid store.now.state place.now }
{
    names_it(held_at(store, place), koid)
}

/// Whether there is a handle that names the object.
fn names_it(held: Option<Held>, koid: Koid) -> bool
    ensures { result ≡ names_it koid held }
{
    match held {
        Some(held) => held.koid == koid,
        None => false,
    }
}

/// The handle, if it names the object.
fn named(held: Option<Held>, koid: Koid) -> Option<Held>
    ensures { result ≡ named koid held }
{
    match held {
        Some(held) if held.koid == koid => Some(held),
        _ => None,
    }
}

/// What the place holds after the moment's call.
fn held_after(history: &History, moment: Moment, place: &Place) -> Option<Held>
    requires made { 0 < moment }
    requires there { moment ≤ length history.now.tree.made }
    requires parent { history.now.position ≡ parent_at history.now.tree.made moment }
    ensures { result ≡ held_at (state_at history.now.tree.made moment) place.now }
{
    match place {
        Place::Entry(process, handle) => {
            Row::as_entry(row_after(history, moment, &RowKey::Entry(*process, *handle)))
        }
        Place::Message(endpoint, number, index) => {
            let row = row_after(history, moment, &RowKey::Msg(*endpoint, *number));
            match Row::as_message(row) {
                Some(message) => message.handles().as_slice().get(*index as usize).copied(),
                None => None,
            }
        }
    }
}

/// The row under the key after the moment's call.
fn row_after<'a>(history: &'a History, moment: Moment, key: &RowKey) -> Option<&'a Row>
    requires made { 0 < moment }
    requires there { moment ≤ length history.now.tree.made }
    requires parent { history.now.position ≡ parent_at history.now.tree.made moment }
    ensures { option_copied result ≡ row (state_at history.now.tree.made moment) key.now }
{
    limits(history);
    let before = history.store().row(*key);
    match history.record_of(moment) {
        Some(kept) => row_before(kept, *key, before),
        None => before,
    }
}

/// How many handles the message under a key has; 0 if the row is no message.
fn handle_count(row: Option<&Row>) -> usize
    ensures { result ≡ handle_count (as_message (option_copied row.entry)) }
{
    match Row::as_message(row) {
        Some(message) => message.handles().len(),
        None => 0,
    }
}

/// Notes how the handles under these keys leave by the moment's call. The history is at the moment's parent.
fn note_departures(
    departures: &mut Departures,
    history: &History,
    keys: &[RowKey],
    moment: Moment,
    koid: Koid,
) -> Result<(), AllocError>
    requires made { 0 < moment }
    requires there { moment ≤ length history.now.tree.made }
    requires parent { history.now.position ≡ parent_at history.now.tree.made moment }
    ensures { OnOk result ((at : Place) → get place_cmp departures.new at
        ≡ departed_in history.now.tree.made koid moment (flat_map (places_under (state_at history.now.tree.made (parent_at history.now.tree.made moment))) keys.now) at (get place_cmp departures.old at)) }
{
    for key in keys {
        note_under(departures, history, *key, moment, koid)?;
    }
    Ok(())
}

/// Notes how the handles under a key leave by the moment's call.
fn note_under(
    departures: &mut Departures,
    history: &History,
    key: RowKey,
    moment: Moment,
    koid: Koid,
) -> Result<(), AllocError>
    requires made { 0 < moment }
    requires there { moment ≤ length history.now.tree.made }
    requires parent { history.now.position ≡ parent_at history.now.tree.made moment }
    ensures { OnOk result ((at : Place) → get place_cmp departures.new at
        ≡ departed_in history.now.tree.made koid moment (places_under (state_at history.now.tree.made (parent_at history.now.tree.made moment)) key) at (get place_cmp departures.old at)) }
{
    match key {
        RowKey::Entry(process, handle) => {
            note_place(
                departures,
                history,
                &Place::Entry(process, handle),
                moment,
                koid,
            )
        }
        RowKey::Msg(endpoint, number) => {
            let count = handle_count(history.store().row(key));
            note_message(departures, history, endpoint, number, count, moment, koid)
        }
        _ => Ok(()),
    }
}

/// Notes how the first handles of a message leave by the moment's call.
fn note_message(
    departures: &mut Departures,
    history: &History,
    endpoint: Koid,
    number: u64,
    count: usize,
    moment: Moment,
    koid: Koid,
) -> Result<(), AllocError>
    requires made { 0 < moment }
    requires there { moment ≤ length history.now.tree.made }
    requires parent { history.now.position ≡ parent_at history.now.tree.made moment }
    ensures { OnOk result ((at : Place) → get place_cmp departures.new at
        ≡ departed_in history.now.tree.made koid moment (message_places endpoint number count) at (get place_cmp departures.old at)) }
{
    for index in 0..count {
        let place = Place::Message(endpoint, number, index as u64);
        note_place(departures, history, &place, moment, koid)?;
    }
    Ok(())
}

/// Notes how a handle leaves the place by the moment's call, if it does.
fn note_place(
    departures: &mut Departures,
    history: &History,
    place: &Place,
    moment: Moment,
    koid: Koid,
) -> Result<(), AllocError>
    requires made { 0 < moment }
    requires there { moment ≤ length history.now.tree.made }
    requires parent { history.now.position ≡ parent_at history.now.tree.made moment }
    ensures { OnOk result ((at : Place) → get place_cmp departures.new at
        ≡ departed_in history.now.tree.made koid moment (place.now ∷ []) at (get place_cmp departures.old at)) }
{
    if departs(history, place, moment, koid) {
        let how = leaving_at(history, moment, place);
        departures.insert(*place, (moment, how))?;
    }
    Ok(())
}

/// Whether the place holds a handle to the object before the moment's call, and none after it.
fn departs(history: &History, place: &Place, moment: Moment, koid: Koid) -> bool
    requires made { 0 < moment }
    requires there { moment ≤ length history.now.tree.made }
    requires parent { history.now.position ≡ parent_at history.now.tree.made moment }
    ensures { result ≡ departs history.now.tree.made koid moment place.now }
{
    holds(history.store(), koid, place) && !names_it(held_after(history, moment, place), koid)
}

/// How a handle leaves the place by the moment's call.
fn leaving_at(history: &History, moment: Moment, place: &Place) -> Leaving
    requires made { 0 < moment }
    requires there { moment ≤ length history.now.tree.made }
    requires parent { history.now.position ≡ parent_at history.now.tree.made moment }
    ensures { result ≡ leaving_at history.now.tree.made moment place.now }
{
    match target_at(history, moment, place) {
        Some(other) if held_after(history, moment, &other).is_some() => Leaving::Moved(other),
        _ => Leaving::Ended(end_at(history, moment, place)),
    }
}
