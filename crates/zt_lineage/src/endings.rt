//! Where a handle goes from a place that a call takes it from, or how it ends.

ghost use Rattle.std.specs.Prelude.{◌≡◌, ◌==◌, position};
ghost use Rattle.zt_rows.specs.Tests.{link_at, next_at};
ghost use Rattle.zt_lineage.specs.Lives.{ending_by, ended_if, given_to, if_from, is_from, is_listed, is_queued_at, is_too_small, lost, message_place, replaced_to, sent_to, successor, taken_to};

use crate::origins::{Origin, origin_of};
use crate::places::Place;
use zt_rows::{Call, HandleValue, Held, Koid, Parcel, Reply};
use zt_store::Store;

/// How a handle ends.
#[derive(Clone, Copy)]
pub enum Ending {
    /// Closed by its process.
    Closed,
    /// Closed by a write or a replacement that failed.
    Failed,
    /// In a message that a read discarded, since its caller had too little room.
    Discarded,
    /// Its process ended.
    ProcessEnded,
    /// In a message whose endpoint went.
    QueueGone,
}

/// Where what the place held goes by the call of the process, with this reply. The store is the one before the call.
pub(crate) fn target(
    before: &Store,
    process: Koid,
    call: &Call,
    reply: &Reply,
    place: &Place,
) -> Option<Place>
    ensures { result ≡ if_from before.now.state process call.now place.now (successor before.now.state process call.now reply.now place.now) }
{
    match successor(before, process, call, reply, place) {
        Some(other) if is_from(&origin_of(before, process, call, &other), place) => Some(other),
        _ => None,
    }
}

/// Whether the origin is this place.
fn is_from(origin: &Origin, place: &Place) -> bool
    ensures { result ≡ is_from origin.now place.now }
{
    match origin {
        Origin::From(other) => other == place,
        _ => false,
    }
}

/// The only place to which the call of the process, with this reply, can bring what the place held.
fn successor(
    before: &Store,
    process: Koid,
    call: &Call,
    reply: &Reply,
    place: &Place,
) -> Option<Place>
    ensures { result ≡ successor before.now.state process call.now reply.now place.now }
{
    match call {
        Call::HandleReplace { .. } => replaced_to(process, reply),
        Call::ChannelWrite { handle, parcel } => sent_to(before, process, *handle, parcel, place),
        Call::ChannelRead { .. } => taken_to(process, reply, place),
        Call::Spawn { .. } => given_to(reply),
        _ => None,
    }
}

/// The entry that a replacement gave.
fn replaced_to(process: Koid, reply: &Reply) -> Option<Place>
    ensures { result ≡ replaced_to process reply.now }
{
    match reply {
        Reply::Handle(value) => Some(Place::Entry(process, *value)),
        _ => None,
    }
}

/// The first entry of the process that a spawn made.
fn given_to(reply: &Reply) -> Option<Place>
    ensures { result ≡ given_to reply.now }
{
    match reply {
        Reply::Spawned(_, child) => Some(Place::Entry(*child, HandleValue(3))),
        _ => None,
    }
}

/// The entry that a read gave for a handle of the message.
fn taken_to(process: Koid, reply: &Reply, place: &Place) -> Option<Place>
    ensures { result ≡ taken_to process reply.now place.now }
{
    match (reply, place) {
        (Reply::Message(_, values), Place::Message(_, _, index)) => {
            match values.as_slice().get(*index as usize) {
                Some(value) => Some(Place::Entry(process, *value)),
                None => None,
            }
        }
        _ => None,
    }
}

/// The place in the message that a write through the handle queues, if the parcel lists the entry's value.
fn sent_to(
    before: &Store,
    process: Koid,
    handle: HandleValue,
    parcel: &Parcel,
    place: &Place,
) -> Option<Place>
    ensures { result ≡ sent_to before.now.state process handle parcel.now.handles place.now }
{
    match place {
        Place::Entry(_, value) => message_place(
            before,
            before.entry(process, handle),
            index_of(parcel, *value),
        ),
        Place::Message(_, _, _) => None,
    }
}

/// At which place of the parcel the value is listed first.
fn index_of(parcel: &Parcel, value: HandleValue) -> Option<usize>
    ensures { result ≡ position (λ v. v == value) parcel.now.handles }
{
    parcel
        .handles()
        .as_slice()
        .iter()
        .position(|listed| *listed == value)
}

/// The place of this index in the message that a write queues at the peer of the endpoint that is held.
fn message_place(before: &Store, held: Option<Held>, index: Option<usize>) -> Option<Place>
    ensures { result ≡ message_place before.now.state held index }
{
    let held = held?;
    let index = index?;
    let peer = link_at(before, held.koid);
    Some(Place::Message(peer, next_at(before, peer), index as u64))
}

/// The peer of the endpoint, 0 if there is none.
fn link_at(store: &Store, koid: Koid) -> Koid
    ensures { result ≡ link_at store.now.state koid }
{
    match store.object(koid) {
        Some(object) => object.link,
        None => Koid(0),
    }
}

/// The number of the next message of the endpoint.
fn next_at(store: &Store, koid: Koid) -> u64
    ensures { result ≡ next_at store.now.state koid }
{
    match store.object(koid) {
        Some(object) => object.next,
        None => 0,
    }
}

/// How what the place held ends by the call of the process, with this reply.
pub(crate) fn ending_by(
    before: &Store,
    process: Koid,
    call: &Call,
    reply: &Reply,
    place: &Place,
) -> Ending
    ensures { result ≡ ending_by before.now.state process call.now reply.now place.now }
{
    match call {
        Call::HandleClose { handle } => {
            ended_if(
                *place == Place::Entry(process, *handle),
                Ending::Closed,
                place,
            )
        }
        Call::HandleReplace { handle, .. } => {
            ended_if(
                *place == Place::Entry(process, *handle),
                Ending::Failed,
                place,
            )
        }
        Call::ChannelWrite { parcel, .. } => {
            ended_if(is_listed(process, parcel, place), Ending::Failed, place)
        }
        Call::ChannelRead { handle, .. } => {
            let discards = is_too_small(reply)
                && is_queued_at(before.entry(process, *handle), place);
            ended_if(discards, Ending::Discarded, place)
        }
        _ => lost(place),
    }
}

/// How a handle ends without a call of its own.
pub(crate) fn lost(place: &Place) -> Ending
    ensures { result ≡ lost place.now }
{
    match place {
        Place::Entry(_, _) => Ending::ProcessEnded,
        Place::Message(_, _, _) => Ending::QueueGone,
    }
}

/// This ending if the test holds.
fn ended_if(test: bool, how: Ending, place: &Place) -> Ending
    ensures { result ≡ ended_if test how place.now }
{
    if test { how } else { lost(place) }
}

/// Whether it is an entry of the process whose value the parcel lists.
fn is_listed(process: Koid, parcel: &Parcel, place: &Place) -> bool
    ensures { result ≡ is_listed process parcel.now.handles place.now }
{
    match place {
        Place::Entry(owner, value) => *owner == process
            && parcel.handles().as_slice().contains(value),
        Place::Message(_, _, _) => false,
    }
}

/// Whether the reply says that a message had no room.
fn is_too_small(reply: &Reply) -> bool
    ensures { result ≡ is_too_small reply.now }
{
    matches!(reply, Reply::TooSmall(_, _))
}

/// Whether it is in a message of the endpoint that is held.
fn is_queued_at(held: Option<Held>, place: &Place) -> bool
    ensures { result ≡ is_queued_at held place.now }
{
    match (held, place) {
        (Some(held), Place::Message(endpoint, _, _)) => *endpoint == held.koid,
        _ => false,
    }
}
