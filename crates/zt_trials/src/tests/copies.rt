//! Copies, if no allocation fails.

use super::checks::check;
use std::alloc::{AllocError, Global};
use zt_bits::Signals;
use zt_rows::{
    Call, Cursor, Event, HandleValue, Items, Koid, Message, Moment, Parcel, ROOT_PROCESS, Reply,
    Row, Saved, SavedBranch, SavedCall, Wait,
};

/// The bytes that are copied. No clause tells them, so a proof of the callers does not go over them.
fn hi() -> &'static [u8] {
    b"hi"
}

const HANDLES: [HandleValue; 1] = [HandleValue(7)];

fn is_list_copied(list: &Items<u8>) -> Result<bool, AllocError> {
    let copied = list.copy()?;
    Ok(copied.as_slice() == list.as_slice())
}

fn is_parcel_copied(parcel: &Parcel) -> Result<bool, AllocError> {
    let copied = parcel.copy()?;
    Ok(copied.bytes().as_slice() == hi() && copied.handles().as_slice() == HANDLES.as_slice())
}

fn is_message_copied(message: &Message) -> Result<bool, AllocError> {
    let copied = message.copy()?;
    Ok(copied == *message)
}

fn is_row_copied(row: &Row) -> Result<bool, AllocError> {
    let copied = row.copy()?;
    Ok(copied == *row)
}

fn bytes_of(reply: &Reply) -> &[u8] {
    match reply {
        Reply::Message(bytes, _) => bytes.as_slice(),
        _ => &[],
    }
}

fn is_reply_copied(reply: &Reply) -> Result<bool, AllocError> {
    let copied = reply.copy()?;
    Ok(bytes_of(&copied) == hi())
}

fn bytes(alloc: Global) -> Result<Items<u8>, AllocError> {
    Ok(Items::new(hi().to_vec(alloc)?))
}

/// A parcel to copy.
fn parcel(alloc: Global) -> Result<Parcel, AllocError> {
    let parcel = Parcel::new(hi().to_vec(alloc)?, HANDLES.to_vec(alloc)?);
    parcel.ok_or(AllocError)
}

#[test]
fn parcels_are_copied(rt: HostRuntime) {
    let copied = match parcel(rt.alloc()) {
        Ok(parcel) => is_parcel_copied(&parcel),
        Err(error) => Err(error),
    };
    check(&rt, copied == Ok(true));
}

fn message(alloc: Global) -> Result<Message, AllocError> {
    let message = Message::new(bytes(alloc)?, Items::new(Vec::new(alloc)));
    message.ok_or(AllocError)
}

#[test]
fn messages_are_copied(rt: HostRuntime) {
    let copied = match message(rt.alloc()) {
        Ok(message) => is_message_copied(&message),
        Err(error) => Err(error),
    };
    check(&rt, copied == Ok(true));
}

#[test]
fn rows_are_copied(rt: HostRuntime) {
    let wait = Wait {
        process: ROOT_PROCESS,
        handle: HandleValue(7),
        port: Koid(1027),
        key: 9,
        signals: Signals(8),
        edge: true,
    };
    check(&rt, is_row_copied(&Row::Wait(wait)) == Ok(true));
}

/// Whether the list is copied, and a reply that has it.
fn are_both_copied(list: Items<u8>, handles: Items<HandleValue>) -> bool {
    is_list_copied(&list) == Ok(true) && is_reply_copied(&Reply::Message(list, handles)) == Ok(true)
}

#[test]
fn lists_and_replies_are_copied(rt: HostRuntime) {
    let copied = match bytes(rt.alloc()) {
        Ok(list) => are_both_copied(list, Items::new(Vec::new(rt.alloc()))),
        Err(_) => false,
    };
    check(&rt, copied);
}

/// The handle that the call closes.
fn closed_by(call: &Call) -> Option<HandleValue> {
    match call {
        Call::HandleClose { handle } => Some(*handle),
        _ => None,
    }
}

fn is_event_copied(event: &Event) -> Result<bool, AllocError> {
    let copied = event.copy()?;
    Ok(
        copied.moment == event.moment
            && copied.process == event.process
            && closed_by(&copied.call) == Some(HandleValue(7)),
    )
}

#[test]
fn events_are_copied(rt: HostRuntime) {
    let event = Event {
        moment: Moment(2),
        process: ROOT_PROCESS,
        call: Call::HandleClose {
            handle: HandleValue(7),
        },
    };
    check(&rt, is_event_copied(&event) == Ok(true));
}

/// A tree of one moment. It is the head of a branch, which one cursor follows, and another cursor is at the moment.
fn saved(alloc: Global) -> Result<Saved, AllocError> {
    let mut moments = Vec::new(alloc);
    moments.push(SavedCall {
        parent: Moment(0),
        process: ROOT_PROCESS,
        call: Call::HandleClose {
            handle: HandleValue(7),
        },
    })?;
    let mut branches = Vec::new(alloc);
    branches.push(SavedBranch {
        name: bytes(alloc)?,
        head: Moment(1),
    })?;
    let mut cursors = Vec::new(alloc);
    cursors.push(Cursor::Follows(bytes(alloc)?))?;
    cursors.push(Cursor::At(Moment(1)))?;
    Ok(Saved {
        moments: Items::new(moments),
        branches: Items::new(branches),
        cursors: Items::new(cursors),
    })
}

fn has_the_moment(saved: &Saved) -> bool {
    match saved.moments.as_slice() {
        [made] => {
            made.parent == Moment(0)
                && made.process == ROOT_PROCESS
                && closed_by(&made.call) == Some(HandleValue(7))
        }
        _ => false,
    }
}

fn has_the_branch(saved: &Saved) -> bool {
    match saved.branches.as_slice() {
        [branch] => branch.name.as_slice() == hi() && branch.head == Moment(1),
        _ => false,
    }
}

fn has_the_cursors(saved: &Saved) -> bool {
    match saved.cursors.as_slice() {
        [Cursor::Follows(name), Cursor::At(moment)] => {
            name.as_slice() == hi() && *moment == Moment(1)
        }
        _ => false,
    }
}

fn is_tree_copied(saved: &Saved) -> Result<bool, AllocError> {
    let copied = saved.copy()?;
    Ok(has_the_moment(&copied) && has_the_branch(&copied) && has_the_cursors(&copied))
}

#[test]
fn saved_trees_are_copied(rt: HostRuntime) {
    let copied = match saved(rt.alloc()) {
        Ok(saved) => is_tree_copied(&saved),
        Err(error) => Err(error),
    };
    check(&rt, copied == Ok(true));
}
