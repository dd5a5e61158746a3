//! Workloads over a store of OBJECTS objects. `steps` makes COUNT steps of two puts, one after another over the objects.
//! `swaps` exchanges one record of two rows COUNT times. Each returns the time of one step or exchange, in nanoseconds.

ghost use Rattle.std.specs.Prelude.{◌≡◌, true, IfOk};
ghost use Rattle.zt_store.specs.Places.{fits};

use crate::FIRST;
use anyhow::{Result, bail};
use std::alloc::{AllocError, Global};
use std::rt::Clock;
use std::time::{Duration, Instant};
use zt_bits::{Kind, Signals};
use zt_rows::{Counters, Koid, Life, ObjectRow, Row, RowKey};
use zt_store::{Record, Step, Store, swap};

/// The time in nanoseconds of one step or exchange. The error says that there is no such workload, that an allocation
/// failed, or that the clock could not be read.
pub(crate) fn time_of(
    rt: &impl Clock,
    alloc: Global,
    workload: &str,
    objects: u32,
    count: u32,
) -> Result<u128> {
    let time = match workload {
        "steps" => time_of_steps(rt, alloc, u64::from(objects), u64::from(count))?,
        "swaps" => time_of_swaps(rt, alloc, u64::from(objects), u64::from(count))?,
        _ => bail!("no such workload"),
    };
    Ok(time.as_nanos() / u128::from(count.max(1)))
}

/// The opening with this many events added.
fn store_of(alloc: Global, objects: u64) -> Result<Store, AllocError> {
    let mut step = Step::begin(Store::opening(alloc)?);
    for i in 0..objects {
        put_event(&mut step, FIRST.saturating_add(i), i)?;
    }
    let (store, _) = step.finish();
    Ok(store)
}

/// The time of this many steps of two puts each, one after another over the objects. As in a history, each step begins
/// where the last ended.
fn time_of_steps(rt: &impl Clock, alloc: Global, objects: u64, count: u64) -> Result<Duration> {
    let mut step = Step::begin(store_of(alloc, objects)?);
    let start = Instant::now(rt)?;
    for i in 0..count {
        let koid = FIRST.saturating_add(i % objects.max(1));
        record_of_two(&mut step, koid, i)?;
    }
    Ok(start.elapsed(rt)?)
}

/// The time of this many exchanges of one record of two rows.
fn time_of_swaps(rt: &impl Clock, alloc: Global, objects: u64, count: u64) -> Result<Duration> {
    let (mut store, mut kept) = step_of_two(store_of(alloc, objects)?, FIRST, 1)?;
    let start = Instant::now(rt)?;
    swap_often(&mut store, &mut kept, count);
    Ok(start.elapsed(rt)?)
}

/// Exchanges the record's rows with the store's this many times.
fn swap_often(store: &mut Store, kept: &mut Record, count: u64)
    requires { fits store.old.places kept.old ≡ true }
{
    'swaps: for _ in 0..count {
        swap(store, kept);
    }
}

/// Makes a step that puts the counters and one object, and returns its record.
fn step_of_two(store: Store, koid: u64, number: u64) -> Result<(Store, Record), AllocError>
    ensures { IfOk result (λ done. fits done.0.places done.1 ≡ true) }
{
    let mut step = Step::begin(store);
    let kept = record_of_two(&mut step, koid, number)?;
    Ok((step.abandon(), kept))
}

/// Puts the counters and one object, and ends the step with its record.
fn record_of_two(step: &mut Step, koid: u64, number: u64) -> Result<Record, AllocError>
    ensures { IfOk result (λ kept. fits step.new.places kept ≡ true) }
{
    put_counters(step, number)?;
    put_event(step, koid, number)?;
    Ok(step.commit())
}

fn put_counters(step: &mut Step, number: u64) -> Result<(), AllocError> {
    let row = Row::Counters(Counters {
        next_koid: Koid(number),
        next_wait: 0,
    });
    step.put(RowKey::Counters, Some(row))
}

fn put_event(step: &mut Step, koid: u64, number: u64) -> Result<(), AllocError> {
    let row = Row::Object(ObjectRow {
        kind: Kind::Event,
        signals: Signals(0),
        link: Koid(0),
        life: Life::Live,
        next: number,
        critical: Koid(0),
    });
    step.put(RowKey::Object(Koid(koid)), Some(row))
}
