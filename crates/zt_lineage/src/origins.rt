//! Where what a place holds after a call came from.

ghost use Rattle.std.specs.Prelude.{◌≡◌};
ghost use Rattle.std.specs.Option.{option_map};
ghost use Rattle.zt_rows.specs.Reads.{queue};
ghost use Rattle.zt_rows.specs.Tests.{first};
ghost use Rattle.zt_lineage.specs.Origins.{origin, filled_by, sent_from, taken_from, given_from, from_first, received_as};

use crate::places::{Place, held_at};
use zt_rows::{Call, HandleValue, Koid, Message, Parcel};
use zt_store::Store;

/// What a place holds after a call: it was there before, the call made its object, or it came from another place.
#[derive(Clone, Copy)]
pub enum Origin {
    Stayed,
    Made,
    From(Place),
}

/// Where what the place holds after the call of the process came from. The store is the one before the call.
pub fn origin_of(store: &Store, process: Koid, call: &Call, place: &Place) -> Origin
    ensures { result ≡ origin store.now.state process call.now place.now }
{
    if held_at(store, place).is_some() {
        Origin::Stayed
    } else {
        filled_by(store, process, call, place)
    }
}

/// Where the handle comes from that the call puts into an empty place.
fn filled_by(store: &Store, process: Koid, call: &Call, place: &Place) -> Origin
    ensures { result ≡ filled_by store.now.state process call.now place.now }
{
    match call {
        Call::HandleDuplicate { handle, .. } => Origin::From(Place::Entry(process, *handle)),
        Call::HandleReplace { handle, .. } => Origin::From(Place::Entry(process, *handle)),
        Call::ChannelWrite { parcel, .. } => sent_from(process, parcel, place),
        Call::ChannelRead { handle, .. } => taken_from(store, process, *handle, place),
        Call::Spawn { argument, .. } => given_from(process, *argument, place),
        _ => Origin::Made,
    }
}

/// Where a handle comes from that the process sends in a message.
fn sent_from(process: Koid, parcel: &Parcel, place: &Place) -> Origin
    ensures { result ≡ sent_from process parcel.now.handles place.now }
{
    match place {
        Place::Message(_, _, index) => match parcel.handles().as_slice().get(*index as usize) {
            Some(value) => Origin::From(Place::Entry(process, *value)),
            None => Origin::Made,
        },
        Place::Entry(_, _) => Origin::Made,
    }
}

/// Where a handle comes from that the process takes by a read through its handle.
fn taken_from(store: &Store, process: Koid, handle: HandleValue, place: &Place) -> Origin
    ensures { result ≡ taken_from store.now.state process handle place.now }
{
    match place {
        Place::Entry(_, value) => {
            let index = received_as(store, process, *value);
            match store.entry(process, handle) {
                Some(held) => from_first(store, held.koid, index),
                None => Origin::Made,
            }
        }
        Place::Message(_, _, _) => Origin::Made,
    }
}

/// Where a handle comes from that a spawn of the process gives.
fn given_from(process: Koid, argument: HandleValue, place: &Place) -> Origin
    ensures { result ≡ given_from process argument place.now }
{
    match place {
        Place::Entry(owner, _) if *owner != process => Origin::From(Place::Entry(
            process, argument,
        )),
        _ => Origin::Made,
    }
}

/// The place of this index in the first message of the endpoint, if there is a message.
fn from_first(store: &Store, endpoint: Koid, index: u64) -> Origin
    ensures { result ≡ from_first endpoint index (first (queue store.now.state endpoint)) }
{
    match front(store, endpoint) {
        Some((number, _)) => Origin::From(Place::Message(endpoint, number, index)),
        None => Origin::Made,
    }
}

/// The first message of the endpoint's queue, with its number.
fn front(store: &Store, endpoint: Koid) -> Option<(u64, &Message)>
    ensures { option_map (λ f. (f.0, f.1.now)) result ≡ first (queue store.now.state endpoint) }
{
    let number = store.first_message(endpoint)?;
    let message = store.message(endpoint, number)?;
    Some((number, message))
}

/// Which of the handles that the process receives in a call has this value, from 0.
fn received_as(store: &Store, process: Koid, value: HandleValue) -> u64
    ensures { result ≡ received_as store.now.state process value }
{
    let received = match store.object(process) {
        Some(caller) => caller.next,
        None => 0,
    };
    (value.0.saturating_sub(3) as u64 / 4).saturating_sub(received)
}
