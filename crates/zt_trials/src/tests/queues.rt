//! The queues of a channel's ends, with each allocation failing in turn.

ghost use Rattle.std.specs.Prelude.{◌≡◌, ◌<◌, ◌+◌, ◌^◌, ◌↔◌, IsTrue};
ghost use Rattle.zt_rows.specs.Tests.{next_at, object_next};

use super::checks::check;
use std::alloc::{AllocError, Global};
use std::process::Abort;
use std::test::Fail;
use zt_bits::{Kind, Rights, Signals};
use zt_queues::{front, pop, push, take_all};
use zt_rows::{Held, Items, Koid, Life, Message, ObjectRow, ROOT_JOB, Row, RowKey};
use zt_store::{Step, Store};

const NEAR: Koid = Koid(1026);

const FAR: Koid = Koid(1027);

const FIRST: Held = Held {
    koid: ROOT_JOB,
    rights: Rights(3),
};

const SECOND: Held = Held {
    koid: Koid(1027),
    rights: Rights(4),
};

// No clause tells the bytes, so a proof of the callers does not go over them.

fn first() -> &'static [u8] {
    b"first"
}

fn second() -> &'static [u8] {
    b"second"
}

fn third() -> &'static [u8] {
    b"third"
}

fn put_end(step: &mut Step, koid: Koid, link: Koid) -> Result<(), AllocError> {
    let end = ObjectRow {
        kind: Kind::Channel,
        signals: Signals(0),
        link,
        life: Life::Live,
        next: 0,
        critical: Koid(0),
    };
    step.put(RowKey::Object(koid), Some(Row::Object(end)))
}

/// Puts both ends of a channel, with empty queues.
fn put_ends(step: &mut Step) -> Result<(), AllocError> {
    put_end(step, NEAR, FAR)?;
    put_end(step, FAR, NEAR)
}

fn message(alloc: Global, bytes: &[u8], handles: &[Held]) -> Result<Message, AllocError> {
    let bytes = Items::new(Vec::from_slice(alloc, bytes)?);
    let handles = Items::new(Vec::from_slice(alloc, handles)?);
    Message::new(bytes, handles).ok_or(AllocError)
}

/// Whether the endpoint has numbers left for one more message.
fn has_room(step: &Step, endpoint: Koid) -> bool
    ensures { IsTrue result ↔ (next_at step.now.current endpoint + 1 < 2 ^ 64) }
{
    next_in(step.store().object(endpoint)) < u64::MAX
}

fn next_in(object: Option<ObjectRow>) -> u64
    ensures { result ≡ object_next object }
{
    match object {
        Some(object) => object.next,
        None => 0,
    }
}

fn pushed(rt: &impl Abort, step: &mut Step, sent: Message) -> Result<(), AllocError> {
    assert!(rt; has_room(step, NEAR));
    push(step, NEAR, sent)
}

/// Puts both ends of a channel, and two messages that wait at the near end.
fn put_messages(rt: &impl Abort, alloc: Global, step: &mut Step) -> Result<(), AllocError> {
    put_ends(step)?;
    pushed(rt, step, message(alloc, first(), &[FIRST])?)?;
    pushed(rt, step, message(alloc, second(), &[SECOND, FIRST])?)
}

/// A step that begins with two messages at the near end.
fn over_messages(rt: &impl Abort, alloc: Global) -> Result<Step, AllocError> {
    let mut step = Step::begin(Store::opening(alloc)?);
    put_messages(rt, alloc, &mut step)?;
    let (store, _) = step.finish();
    Ok(Step::begin(store))
}

fn is_first(step: &Step, number: u64, bytes: &[u8]) -> bool {
    match front(step, NEAR) {
        Some((found, message)) => found == number && message.bytes().as_slice() == bytes,
        None => false,
    }
}

/// Whether one more message is pushed.
fn is_pushed(rt: &(impl Abort + AllocGlobal), step: &mut Step) -> bool {
    match message(rt.alloc(), third(), &[]) {
        Ok(third) => pushed(rt, step, third).is_ok(),
        Err(_) => false,
    }
}

fn check_push(rt: &(impl Abort + AllocGlobal), step: &mut Step) {
    if !is_pushed(rt, step) {
        check(rt, is_first(step, 0, first()));
        check(rt, step.store().message(NEAR, 2).is_none());
        check(rt, is_pushed(rt, step));
    }
    check(rt, step.store().message(NEAR, 2).is_some());
}

#[test]
fn refused_memory_pushes_nothing(rt: HostRuntime) {
    if let Ok(mut step) = over_messages(&rt, rt.alloc()) {
        check_push(&rt, &mut step);
    }
}

fn check_pop(rt: &impl Abort, step: &mut Step) {
    if pop(step, NEAR).is_err() {
        check(rt, is_first(step, 0, first()));
        check(rt, pop(step, NEAR).is_ok());
    }
    check(rt, is_first(step, 1, second()));
}

#[test]
fn refused_memory_pops_nothing(rt: HostRuntime) {
    if let Ok(mut step) = over_messages(&rt, rt.alloc()) {
        check_pop(&rt, &mut step);
    }
}

fn check_take(rt: &(impl Abort + AllocGlobal), step: &mut Step) {
    if take_all(rt.alloc(), step, NEAR).is_err() {
        check(rt, is_first(step, 0, first()));
        let again = take_all(rt.alloc(), step, NEAR);
        check(rt, again.is_ok());
    }
    check(rt, front(step, NEAR).is_none());
}

#[test]
fn refused_memory_takes_nothing(rt: HostRuntime) {
    if let Ok(mut step) = over_messages(&rt, rt.alloc()) {
        check_take(&rt, &mut step);
    }
}

/// Whether the message that is popped is the first that was pushed.
fn is_popped(alloc: Global, step: &mut Step) -> Result<bool, AllocError> {
    let first = message(alloc, first(), &[FIRST])?;
    Ok(pop(step, NEAR)? == Some(first))
}

#[test]
fn a_message_is_taken(rt: HostRuntime) -> Result<(), Fail> {
    let mut step = over_messages(&rt, rt.alloc())?;
    let popped = is_popped(rt.alloc(), &mut step);
    check(&rt, popped == Ok(true));
    Ok(())
}

/// Whether the handles that are taken are those that were sent, in order.
fn are_taken(alloc: Global, step: &mut Step) -> Result<bool, AllocError> {
    let taken = take_all(alloc, step, NEAR)?;
    Ok(taken.as_slice() == [FIRST, SECOND, FIRST].as_slice())
}

#[test]
fn all_handles_are_taken_in_order(rt: HostRuntime) -> Result<(), Fail> {
    let mut step = over_messages(&rt, rt.alloc())?;
    let taken = are_taken(rt.alloc(), &mut step);
    check(&rt, taken == Ok(true));
    Ok(())
}
