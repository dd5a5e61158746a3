//! The handle table of the first process, with each allocation failing in turn.

ghost use Rattle.std.specs.Prelude.{◌≡◌, ◌<◌, ◌^◌, ◌↔◌, IsTrue};
ghost use Rattle.zt_rows.specs.Tests.{next_at, object_next};

use super::checks::check;
use std::alloc::{AllocError, Global};
use std::process::Abort;
use zt_bits::Rights;
use zt_rows::{FIRST_HANDLE, HandleValue, Held, Koid, ObjectRow, ROOT_PROCESS};
use zt_store::{Step, Store};
use zt_tables::{duplicate, find, install, remove};

const SECOND: HandleValue = HandleValue(7);

/// A handle with all rights of an event.
const TO_EVENT: Held = Held {
    koid: Koid(1026),
    rights: Rights(0xd003),
};

/// A duplicate of it with only one right.
const DUPLICATE: Held = Held {
    koid: Koid(1026),
    rights: Rights(1),
};

/// Whether the first process has numbers left for one more handle.
fn has_room(step: &Step) -> bool
    ensures { IsTrue result ↔ (next_at step.now.current 1025 < 2 ^ 30) }
{
    next_in(step.store().object(ROOT_PROCESS)) < 1 << 30
}

fn next_in(object: Option<ObjectRow>) -> u64
    ensures { result ≡ object_next object }
{
    match object {
        Some(object) => object.next,
        None => 0,
    }
}

fn installed(rt: &impl Abort, step: &mut Step) -> Result<HandleValue, AllocError> {
    assert!(rt; has_room(step));
    install(step, ROOT_PROCESS, TO_EVENT)
}

fn duplicated(rt: &impl Abort, step: &mut Step) -> Result<HandleValue, AllocError> {
    assert!(rt; has_room(step));
    duplicate(step, ROOT_PROCESS, TO_EVENT, Rights(1))
}

fn opened(alloc: Global) -> Result<Step, AllocError> {
    Ok(Step::begin(Store::opening(alloc)?))
}

/// Whether the first process has only its first handle, and gives the second next.
fn is_as_begun(step: &Step) -> bool {
    let store = step.store();
    next_in(store.object(ROOT_PROCESS)) == 1
        && store.entry(ROOT_PROCESS, FIRST_HANDLE).is_some()
        && store.entry(ROOT_PROCESS, SECOND).is_none()
}

/// The object and rights of the second handle, in the store after the step.
fn second_of(step: Step) -> Option<Held> {
    let (store, _) = step.finish();
    find(&store, ROOT_PROCESS, SECOND)
}

fn check_install(rt: &impl Abort, step: &mut Step) {
    let mut made = installed(rt, step);
    if made.is_err() {
        check(rt, is_as_begun(step));
        made = installed(rt, step);
    }
    check(rt, made == Ok(SECOND));
}

#[test]
fn refused_memory_installs_nothing(rt: HostRuntime) {
    if let Ok(mut step) = opened(rt.alloc()) {
        check_install(&rt, &mut step);
        check(&rt, second_of(step) == Some(TO_EVENT));
    }
}

fn check_duplicate(rt: &impl Abort, step: &mut Step) {
    let mut made = duplicated(rt, step);
    if made.is_err() {
        check(rt, is_as_begun(step));
        made = duplicated(rt, step);
    }
    check(rt, made == Ok(SECOND));
}

#[test]
fn refused_memory_duplicates_nothing(rt: HostRuntime) {
    if let Ok(mut step) = opened(rt.alloc()) {
        check_duplicate(&rt, &mut step);
        let held = second_of(step);
        check(&rt, held == Some(DUPLICATE));
    }
}

fn check_remove(rt: &impl Abort, step: &mut Step) {
    let mut taken = remove(step, ROOT_PROCESS, FIRST_HANDLE);
    if taken.is_err() {
        check(rt, is_as_begun(step));
        taken = remove(step, ROOT_PROCESS, FIRST_HANDLE);
    }
    check(rt, matches!(&taken, Ok(Some(_))));
    check(rt, step.store().entry(ROOT_PROCESS, FIRST_HANDLE).is_none());
}

#[test]
fn refused_memory_removes_nothing(rt: HostRuntime) {
    if let Ok(mut step) = opened(rt.alloc()) {
        check_remove(&rt, &mut step);
    }
}
