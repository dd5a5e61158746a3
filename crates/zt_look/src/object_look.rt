//! Looks at one object: its row, what keeps it, what waits at it, and when the four happenings happened to it.

ghost use Rattle.std.specs.Prelude.{◌≡◌, true, Ok, IfOk, IfErr};
ghost use Rattle.zt_rows.specs.declared.calls.Happening.TheVariants as happening;
ghost use Rattle.zt_rows.specs.declared.refusals.Refusal.TheVariants as refusal;
ghost use Rattle.zt_history.specs.HistoryRefusals.{IsHistoryRefusal, check};
ghost use Rattle.zt_history.specs.Tree.{state_at};
ghost use Rattle.zt_queries.specs.HappeningTimes.{is_known, when_on};
ghost use Rattle.zt_queries.specs.LaterMoments.{TellsWhenLeaked};
ghost use Rattle.zt_look.specs.ObjectLook.{IsObjectLook, holders_of, rows_where, is_message_of, is_packet_of, is_wait_about};

use crate::limits::limits;
use crate::object_rows::{Owned, owned_of, waits_of};
use std::alloc::Global;
use zt_history::History;
use zt_queries::{ended, holders_at, leaked_since, made, peer_closed};
use zt_rows::{Items, Koid, Moment, ObjectRow, ROOT_JOB, Refusal, Row, RowKey, Support};
use zt_store::Store;

/// An object at a moment: its row, if it is there, what keeps it, and what waits in it, for it and on it. The last four
/// fields are the moments of the path at which it was made, ended, lost its peer and was leaked.
#[derive(Drop)]
pub struct ObjectLook {
    pub koid: Koid,
    pub row: Option<ObjectRow>,
    pub holders: Items<Support>,
    pub messages: Vec<(RowKey, Row)>,
    pub packets: Vec<(RowKey, Row)>,
    pub waits: Vec<(RowKey, Row)>,
    pub made: Option<Moment>,
    pub ended: Option<Moment>,
    pub peer_closed: Option<Moment>,
    pub leaked: Option<Moment>,
}

/// Everything that is told of an object at a history's position.
///
/// - It looks at the messages and packets of this object.
/// - It looks at the waits for it and on it, and at waits that share a bucket with these.
/// - It goes over the entries, the messages and the objects for what keeps it, until it has as many supports as the
///   store counts.
/// - The history's notes of the object tell when it was made, ended and lost its peer. `leaked_since` finds when it was
///   leaked: from notes and records of the history, or by a graph.
///
/// Errors: `NoObject` if the koid was not given out by the position, `OutOfMemory` if an allocation fails.
pub fn object_at(alloc: Global, history: &History, koid: Koid) -> Result<ObjectLook, Refusal>
    ensures ok { IfOk result (IsObjectLook history.now.tree.made history.now.position koid) }
    ensures refused { IfErr result
        (IsHistoryRefusal (check (is_known (state_at history.now.tree.made history.now.position) koid) refusal.NoObject)) }
{
    let store = history.store();
    if !is_known(store, koid) {
        return Err(Refusal::NoObject);
    }
    let row = store.object(koid);
    let times = times_of(alloc, history, koid)?;
    let parts = parts_of(alloc, history, koid)?;
    Ok(ObjectLook {
        koid,
        row,
        holders: parts.holders,
        messages: parts.messages,
        packets: parts.packets,
        waits: parts.waits,
        made: times.made,
        ended: times.ended,
        peer_closed: times.peer_closed,
        leaked: times.leaked,
    })
}

/// Whether the koid was given out.
fn is_known(store: &Store, koid: Koid) -> bool
    ensures { result ≡ is_known store.now.state koid }
{
    koid >= ROOT_JOB && koid < store.counters().next_koid
}

/// The moments at which each of the four happenings happened to an object.
#[derive(Clone, Copy)]
struct ObjectTimes {
    made: Option<Moment>,
    ended: Option<Moment>,
    peer_closed: Option<Moment>,
    leaked: Option<Moment>,
}

/// The moments at which each of the four happenings happened to the object, on the path to the position.
fn times_of(alloc: Global, history: &History, koid: Koid) -> Result<ObjectTimes, Refusal>
    requires { is_known (state_at history.now.tree.made history.now.position) koid ≡ true }
    ensures made { IfOk result (λ times. when_on happening.Made history.now.tree.made history.now.position koid ≡ Ok times.made) }
    ensures ended { IfOk result (λ times. when_on happening.Ended history.now.tree.made history.now.position koid ≡ Ok times.ended) }
    ensures peer { IfOk result (λ times. when_on happening.PeerClosed history.now.tree.made history.now.position koid ≡ Ok times.peer_closed) }
    ensures leaked { IfOk result (λ times. when_on happening.Leaked history.now.tree.made history.now.position koid ≡ Ok times.leaked) }
    ensures tells { IfOk result (λ times. TellsWhenLeaked history.now.tree.made history.now.position koid times.leaked) }
    ensures refused { IfErr result (λ refusal. refusal ≡ Refusal.OutOfMemory) }
{
    let at = history.position();
    let made = made(history, at, koid)?;
    let ended = ended(history, at, koid)?;
    let peer_closed = peer_closed(history, at, koid)?;
    let leaked = leaked_since(alloc, history, at, koid)?;
    Ok(ObjectTimes {
        made,
        ended,
        peer_closed,
        leaked,
    })
}

/// The supports of an object, and the rows that wait in it, for it and on it.
#[derive(Drop)]
struct ObjectParts {
    holders: Items<Support>,
    messages: Vec<(RowKey, Row)>,
    packets: Vec<(RowKey, Row)>,
    waits: Vec<(RowKey, Row)>,
}

/// Finds the supports of the object at the position, and the rows that wait in it, for it and on it.
fn parts_of(alloc: Global, history: &History, koid: Koid) -> Result<ObjectParts, Refusal>
    ensures holders { IfOk result (λ parts. parts.holders ≡ holders_of (state_at history.now.tree.made history.now.position) koid) }
    ensures messages { IfOk result (λ parts. parts.messages.items ≡ rows_where (state_at history.now.tree.made history.now.position) (is_message_of koid)) }
    ensures packets { IfOk result (λ parts. parts.packets.items ≡ rows_where (state_at history.now.tree.made history.now.position) (is_packet_of koid)) }
    ensures waits { IfOk result (λ parts. parts.waits.items
        ≡ rows_where (state_at history.now.tree.made history.now.position) (is_wait_about (state_at history.now.tree.made history.now.position) koid)) }
    ensures refused { IfErr result (λ refusal. refusal ≡ Refusal.OutOfMemory) }
{
    limits(history);
    let store = history.store();
    let messages = owned_of(alloc, store, Owned::Messages, koid)?;
    let packets = owned_of(alloc, store, Owned::Packets, koid)?;
    let waits = waits_of(alloc, store, koid)?;
    let holders = holders_of(alloc, history, koid)?;
    Ok(ObjectParts {
        holders,
        messages,
        packets,
        waits,
    })
}

/// Finds the supports of the object at the position. An object that is gone has none.
fn holders_of(alloc: Global, history: &History, koid: Koid) -> Result<Items<Support>, Refusal>
    ensures ok { IfOk result (λ found. found ≡ holders_of (state_at history.now.tree.made history.now.position) koid) }
    ensures refused { IfErr result (λ refusal. refusal ≡ Refusal.OutOfMemory) }
{
    match history.store().object(koid) {
        Some(_) => holders_at(alloc, history, koid),
        None => Ok(Items::new(Vec::new(alloc))),
    }
}
