//! Steps of a store and the records that take them back. Each allocation fails in turn, and in other runs all allocations
//! from one on.

ghost use Rattle.std.specs.Prelude.{◌≡◌, true, IfOk};
ghost use Rattle.zt_store.specs.Places.{fits};

use super::checks::check;
use std::alloc::{AllocError, Global};
use std::process::Abort;
use std::test::Fail;
use zt_bits::{Kind, Rights, Signals};
use zt_rows::{
    Counters, HandleValue, Held, Items, Koid, Life, Message, ObjectRow, Packet, ROOT_PROCESS, Row,
    RowKey, Wait,
};
use zt_store::{Record, Step, Store, swap};

const EVENT: Koid = Koid(1026);

const PORT: Koid = Koid(1027);

const NEAR_END: Koid = Koid(1028);

const CHILD: Koid = Koid(1029);

fn put_counters(step: &mut Step, next_koid: u64) -> Result<(), AllocError> {
    let counters = Counters {
        next_koid: Koid(next_koid),
        next_wait: 1,
    };
    step.put(RowKey::Counters, Some(Row::Counters(counters)))
}

fn put_object(
    step: &mut Step,
    koid: Koid,
    kind: Kind,
    link: u64,
    next: u64,
) -> Result<(), AllocError> {
    let object = ObjectRow {
        kind,
        signals: Signals(0),
        link: Koid(link),
        life: Life::Live,
        next,
        critical: Koid(0),
    };
    step.put(RowKey::Object(koid), Some(Row::Object(object)))
}

fn held(koid: Koid) -> Held {
    Held {
        koid,
        rights: Rights(0xc003),
    }
}

fn put_entry(step: &mut Step, process: Koid, handle: u32, koid: Koid) -> Result<(), AllocError> {
    let key = RowKey::Entry(process, HandleValue(handle));
    step.put(key, Some(Row::Entry(held(koid))))
}

/// A message with a handle to each of these objects.
fn message(alloc: Global, koids: &[Koid]) -> Result<Message, AllocError> {
    let mut handles = Vec::new(alloc);
    for koid in koids {
        handles.push(held(*koid))?;
    }
    let bytes = Vec::from_slice(alloc, [1, 2, 3].as_slice())?;
    Message::new(Items::new(bytes), Items::new(handles)).ok_or(AllocError)
}

fn put_message(step: &mut Step, number: u64, message: Message) -> Result<(), AllocError> {
    step.put(RowKey::Msg(NEAR_END, number), Some(Row::Msg(message)))
}

fn put_packet(step: &mut Step, number: u64) -> Result<(), AllocError> {
    let packet = Packet::User {
        key: 5,
        bytes: [9; 32],
    };
    step.put(RowKey::Packet(PORT, number), Some(Row::Packet(packet)))
}

fn put_wait(step: &mut Step, number: u64) -> Result<(), AllocError> {
    let wait = Wait {
        process: ROOT_PROCESS,
        handle: HandleValue(7),
        port: PORT,
        key: 5,
        signals: Signals(8),
        edge: true,
    };
    step.put(RowKey::Wait(number), Some(Row::Wait(wait)))
}

/// Puts the `n`-th of ten rows of all six variants. One has a handle value that no process gives.
fn put_one(alloc: Global, step: &mut Step, n: u8) -> Result<(), AllocError> {
    match n {
        0 => put_counters(step, 1030),
        1 => put_object(step, EVENT, Kind::Event, 0, 0),
        2 => put_object(step, PORT, Kind::Port, 0, 1),
        3 => put_object(step, CHILD, Kind::Job, 1024, 0),
        4 => put_entry(step, ROOT_PROCESS, 7, EVENT),
        5 => put_entry(step, ROOT_PROCESS, 6, CHILD),
        6 => put_object(step, NEAR_END, Kind::Channel, 1029, 1),
        7 => put_message(step, 2, message(alloc, &[EVENT, PORT, EVENT])?),
        8 => put_packet(step, 0),
        _ => put_wait(step, 0),
    }
}

/// Puts rows of all six variants over the opening's.
fn put_all_variants(alloc: Global, step: &mut Step) -> Result<(), AllocError> {
    for n in 0..10 {
        put_one(alloc, step, n)?;
    }
    Ok(())
}

/// Changes or removes the `n`-th of those rows, or puts a row under a key beyond all others.
fn put_over_one(alloc: Global, step: &mut Step, n: u8) -> Result<(), AllocError> {
    match n {
        0 => put_counters(step, 1036),
        1 => step.put(RowKey::Object(EVENT), None),
        2 => put_object(step, CHILD, Kind::Process, 1024, 0),
        3 => put_entry(step, ROOT_PROCESS, 7, PORT),
        4 => put_entry(step, Koid(1100), 999, Koid(1200)),
        5 => put_message(step, 2, message(alloc, &[PORT])?),
        6 => put_message(step, 1, message(alloc, &[PORT])?),
        7 => step.put(RowKey::Packet(PORT, 0), None),
        8 => put_packet(step, 70),
        9 => step.put(RowKey::Wait(0), None),
        _ => put_wait(step, 90),
    }
}

/// Changes or removes those rows, and puts rows under keys beyond all others.
fn put_over_all_variants(alloc: Global, step: &mut Step) -> Result<(), AllocError> {
    for n in 0..11 {
        put_over_one(alloc, step, n)?;
    }
    Ok(())
}

/// A store with rows of all six variants.
fn all_variants(alloc: Global) -> Result<Store, AllocError> {
    let mut step = Step::begin(Store::opening(alloc)?);
    put_all_variants(alloc, &mut step)?;
    let (store, _) = step.finish();
    Ok(store)
}

/// Whether both stores have the same row under the key, and the same next key.
fn agree_at(first: &Store, second: &Store, key: &RowKey) -> bool {
    first.row(*key) == second.row(*key) && first.after(Some(*key)) == second.after(Some(*key))
}

/// Whether both stores have the same numbers for the koid.
fn agree_on(first: &Store, second: &Store, koid: Koid) -> bool {
    first.count(koid) == second.count(koid)
        && first.child_jobs(koid) == second.child_jobs(koid)
        && first.child_processes(koid) == second.child_processes(koid)
        && first.first_message(koid) == second.first_message(koid)
        && first.first_packet(koid) == second.first_packet(koid)
}

fn has_same_numbers(first: &Store, second: &Store) -> bool {
    (1020..1040).all(|koid| agree_on(first, second, Koid(koid)))
}

/// Whether both stores have the same rows and the same numbers.
pub(super) fn is_same(first: &Store, second: &Store) -> bool {
    let mut next = second.after(None);
    for _ in 0..100 {
        let Some(key) = next else {
            return has_same_numbers(first, second);
        };
        if !agree_at(first, second, &key) {
            return false;
        }
        next = second.after(Some(key));
    }
    false
}

/// Gives up a step in which an allocation failed. Its store is as before, and the puts then succeed.
fn put_again(rt: &impl Abort, alloc: Global, step: Step, before: &Store) -> Step {
    let store = step.abandon();
    check(rt, is_same(&store, before));
    let mut step = Step::begin(store);
    check(rt, put_over_all_variants(alloc, &mut step).is_ok());
    step
}

/// Checks the numbers of a step that put rows over those of all variants. Then gives the step up.
fn check_put(rt: &impl Abort, step: Step, before: &Store) {
    let store = step.store();
    check(rt, store.count(EVENT) == 0);
    check(rt, store.count(PORT) == 3);
    check(rt, store.first_message(NEAR_END) == Some(1));
    check(rt, is_same(&step.abandon(), before));
}

/// Puts rows over those of all variants, in a store that is equal to `before`. `Ok` only if no allocation failed.
fn put_over(
    rt: &impl Abort,
    alloc: Global,
    store: Store,
    before: &Store,
) -> Result<(), AllocError> {
    let mut step = Step::begin(store);
    let put = put_over_all_variants(alloc, &mut step);
    if put.is_err() {
        step = put_again(rt, alloc, step, before);
    }
    check_put(rt, step, before);
    put
}

/// A store with rows of all six variants, and a copy of it.
fn all_variants_twice(alloc: Global) -> Result<(Store, Store), AllocError> {
    let store = all_variants(alloc)?;
    let before = store.copy()?;
    Ok((store, before))
}

/// Puts rows over those of all variants. If an allocation fails, the store that is given up is as before, and the puts then
/// succeed. `Ok` only if no allocation failed.
fn rows_are_put(rt: &impl Abort, alloc: Global) -> Result<(), AllocError> {
    let (store, before) = all_variants_twice(alloc)?;
    put_over(rt, alloc, store, &before)
}

#[test]
fn refused_memory_leaves_the_step_as_begun(rt: HostRuntime) {
    let _ = rows_are_put(&rt, rt.alloc());
}

#[test]
fn rows_of_all_variants_are_put(rt: HostRuntime) -> Result<(), Fail> {
    rows_are_put(&rt, rt.alloc())?;
    Ok(())
}

/// Finishes a step that puts rows over those of all variants.
fn finished(alloc: Global, store: Store) -> Result<(Store, Record), AllocError>
    ensures { IfOk result (λ after. fits after.0.places after.1 ≡ true) }
{
    let mut step = Step::begin(store);
    match put_over_all_variants(alloc, &mut step) {
        Ok(()) => Ok(step.finish()),
        Err(error) => Err(error),
    }
}

/// Finishes a step, takes it back, makes it again and takes it back. It never allocates after the last put. `Ok` only if no
/// allocation failed before.
fn a_step_is_taken_back(rt: &impl Abort, alloc: Global) -> Result<(), AllocError> {
    let (store, before) = all_variants_twice(alloc)?;
    match finished(alloc, store) {
        Ok((mut store, mut kept)) => {
            exchange_twice(rt, &before, &mut store, &mut kept);
            Ok(())
        }
        Err(error) => Err(error),
    }
}

/// Takes the step that led to this store back by its record, makes it again, and takes it back.
fn exchange_twice(rt: &impl Abort, before: &Store, store: &mut Store, kept: &mut Record)
    requires { fits store.old.places kept.old ≡ true }
{
    check(rt, kept.keys().len() == 11);
    check(rt, store.count(PORT) == 3);
    swap(store, kept);
    check(rt, is_same(store, before));
    swap(store, kept);
    check(rt, store.first_packet(PORT) == Some(70));
    swap(store, kept);
    check(rt, is_same(store, before));
}

#[test]
fn refused_from_then_on_a_step_is_taken_back(rt: HostRuntime) {
    let _ = a_step_is_taken_back(&rt, rt.alloc());
}

#[test]
fn a_record_takes_its_step_back(rt: HostRuntime) -> Result<(), Fail> {
    a_step_is_taken_back(&rt, rt.alloc())?;
    Ok(())
}

/// The opening, and a copy of it.
fn opened_twice(alloc: Global) -> Result<(Store, Store), AllocError> {
    let store = Store::opening(alloc)?;
    let before = store.copy()?;
    Ok((store, before))
}

fn check_place_beyond_all_memory(rt: &impl Abort, store: Store, before: &Store) {
    let mut step = Step::begin(store);
    let put = put_object(&mut step, Koid(u64::MAX), Kind::Event, 0, 0);
    check(rt, put.is_err());
    check(rt, is_same(&step.abandon(), before));
}

#[test]
fn a_place_beyond_all_memory_is_refused(rt: HostRuntime) -> Result<(), Fail> {
    let (store, before) = opened_twice(rt.alloc())?;
    check_place_beyond_all_memory(&rt, store, &before);
    Ok(())
}
