//! Finds the kind of the object whose signals a call, its reply or a row tells. Signals are shown by their names, and
//! the name of one of them depends on this kind.

ghost use Rattle.std.specs.Prelude.{◌≡◌, ◌++◌, ◌∷◌, [], map, IfErr, IfOk, OnOk};
ghost use Rattle.zt_history.specs.HistoryRefusals.{IsHistoryRefusal, moment_on};
ghost use Rattle.zt_history.specs.Timeline.{moved_to};
ghost use Rattle.zt_history.specs.Tree.{state_at};
ghost use Rattle.zt_look.specs.Changes.{both_on};
ghost use Rattle.zt_look.specs.Signaled.{in_answered, in_call, in_packet, in_row, kind_between, kind_in, kind_named, kind_of_call, kind_of_row};

use crate::call_list::CallMade;
use crate::changes::Change;
use crate::changes_between::check_both;
use crate::limits::limits;
use std::alloc::{AllocError, Global};
use zt_bits::Kind;
use zt_history::History;
use zt_rows::{Call, HandleValue, Koid, Moment, Packet, Refusal, Reply, Row};
use zt_store::Store;

/// The kind of the object whose signals a call or its reply tells, in the state right after the call. There is none if
/// they tell no signals, or if the handle names no object there.
///
/// The history goes to the moment of the call. Errors: `NoMoment` if there is no such moment, `OutOfMemory` if an
/// allocation fails.
pub fn kind_of_call(history: &mut History, made: &CallMade) -> Result<Option<Kind>, Refusal>
    ensures ok { IfOk result (λ kind. kind ≡ kind_of_call history.old.tree.made made.now) }
    ensures refused { IfErr result (IsHistoryRefusal (moment_on history.old.tree made.now.moment)) }
    ensures moved { OnOk result (history.new ≡ moved_to history.old made.now.moment) }
    ensures tree { history.new.tree ≡ history.old.tree }
{
    history.goto(made.moment)?;
    let named = in_answered(made.process, &made.call, &made.reply);
    Ok(kind_named(history.store(), named))
}

/// The kinds of the objects whose signals the rows tell that differ between two moments, one for each change. A kind is
/// read in the state of `to`, or else in the state of `from`. For what a call changed, these are its moment and the
/// parent of that.
///
/// The history goes to `to` and then to `from`. Errors: `NoMoment` if one of both is beyond the last moment,
/// `OutOfMemory` if an allocation fails.
pub fn kinds_between(
    alloc: Global,
    history: &mut History,
    from: Moment,
    to: Moment,
    changes: &[Change],
) -> Result<Vec<Option<Kind>>, Refusal>
    ensures ok { IfOk result (λ kinds. kinds.items ≡ map (kind_between history.old.tree.made from to) changes.now) }
    ensures refused { IfErr result (IsHistoryRefusal (both_on history.old.tree from to)) }
    ensures moved { OnOk result (history.new ≡ moved_to history.old from) }
    ensures tree { history.new.tree ≡ history.old.tree }
{
    check_both(history, from, to)?;
    history.goto(to)?;
    let after = kinds_after(alloc, history.store(), changes)?;
    history.goto(from)?;
    let mut kinds = Vec::new(alloc);
    for place in 0..changes.len() {
        let before = kind_in(history.store(), &changes[place].before);
        push_kind(&mut kinds, after[place].or(before))?;
    }
    Ok(kinds)
}

/// Appends a kind.
fn push_kind(kinds: &mut Vec<Option<Kind>>, kind: Option<Kind>) -> Result<(), AllocError>
    ensures { OnOk result (kinds.new.items ≡ kinds.old.items ++ kind ∷ []) }
{
    kinds.push(kind)?;
    Ok(())
}

/// The kinds by the rows after the call.
fn kinds_after(
    alloc: Global,
    store: &Store,
    changes: &[Change],
) -> Result<Vec<Option<Kind>>, AllocError>
    ensures { IfOk result (λ kinds. kinds.items ≡ map (λ change. kind_in store.now.state change.after) changes.now) }
{
    let mut kinds = Vec::new(alloc);
    for change in changes {
        kinds.push(kind_in(store, &change.after))?;
    }
    Ok(kinds)
}

/// The kind of the object whose signals a row tells, if there is a row.
fn kind_in(store: &Store, row: &Option<Row>) -> Option<Kind>
    ensures { result ≡ kind_in store.now.state row.now }
{
    match row {
        Some(row) => kind_of_row(store, row),
        None => None,
    }
}

/// The kind of the object whose signals a row tells.
pub(crate) fn kind_of_row(store: &Store, row: &Row) -> Option<Kind>
    ensures { result ≡ kind_of_row store.now.state row.now }
{
    kind_named(store, in_row(row))
}

/// The kind of the object that a handle names, if it names one.
fn kind_named(store: &Store, named: Option<(Koid, HandleValue)>) -> Option<Kind>
    ensures { result ≡ kind_named store.now.state named }
{
    let (process, handle) = named?;
    let held = store.entry(process, handle)?;
    let object = store.object(held.koid)?;
    Some(object.kind)
}

/// The handle, with its process, by which a call or the packet in its reply names an object with signals.
fn in_answered(process: Koid, call: &Call, reply: &Reply) -> Option<(Koid, HandleValue)>
    ensures { result ≡ in_answered process call.now reply.now }
{
    match reply {
        Reply::Packet(packet) => in_packet(packet),
        _ => in_call(process, call),
    }
}

/// The handle, with its process, by which a call names an object with signals.
fn in_call(process: Koid, call: &Call) -> Option<(Koid, HandleValue)>
    ensures { result ≡ in_call process call.now }
{
    match *call {
        Call::ObjectSignal {
            handle,
            clear: _,
            set: _,
        } => Some((process, handle)),
        Call::ObjectSignalPeer {
            handle,
            clear: _,
            set: _,
        } => Some((process, handle)),
        Call::ObjectWaitAsync {
            handle,
            port: _,
            key: _,
            signals: _,
            edge: _,
        } => Some((process, handle)),
        _ => None,
    }
}

/// The handle, with its process, of a wait, or of the wait that sent a packet.
fn in_row(row: &Row) -> Option<(Koid, HandleValue)>
    ensures { result ≡ in_row row.now }
{
    match row {
        Row::Wait(wait) => Some((wait.process, wait.handle)),
        Row::Packet(packet) => in_packet(packet),
        _ => None,
    }
}

/// The handle, with its process, of the wait that sent the packet.
fn in_packet(packet: &Packet) -> Option<(Koid, HandleValue)>
    ensures { result ≡ in_packet packet.now }
{
    match *packet {
        Packet::User { key: _, bytes: _ } => None,
        Packet::Signal {
            key: _,
            trigger: _,
            observed: _,
            process,
            handle,
        } => Some((process, handle)),
    }
}
