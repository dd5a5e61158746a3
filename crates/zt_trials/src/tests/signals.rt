//! The signals of a channel, with each allocation failing in turn.

use super::checks::check;
use std::alloc::{AllocError, Global};
use std::process::Abort;
use std::test::Fail;
use zt_bits::{Kind, Signals};
use zt_rows::{Koid, Life, ObjectRow, Row, RowKey};
use zt_signals::{refresh, set_bits};
use zt_store::{Step, Store};

const MADE: Koid = Koid(1026);

/// A channel without a peer, whose signals do not yet follow from the rows.
fn channel(signals: u32) -> ObjectRow {
    ObjectRow {
        kind: Kind::Channel,
        signals: Signals(signals),
        link: Koid(0),
        life: Life::Live,
        next: 1,
        critical: Koid(0),
    }
}

fn has_channel(step: &Step, signals: u32) -> bool {
    step.store().object(MADE) == Some(channel(signals))
}

/// A step over a channel.
fn over_channel(alloc: Global) -> Result<Step, AllocError> {
    let mut step = Step::begin(Store::opening(alloc)?);
    step.put(RowKey::Object(MADE), Some(Row::Object(channel(0x1000000))))?;
    let (store, _) = step.finish();
    Ok(Step::begin(store))
}

fn set(step: &mut Step) -> Result<(), AllocError> {
    set_bits(step, MADE, Signals(0), Signals(0x2000000))
}

fn check_set(rt: &impl Abort, step: &mut Step) {
    if set(step).is_err() {
        check(rt, has_channel(step, 0x1000000));
        check(rt, set(step).is_ok());
    }
    check(rt, has_channel(step, 0x3000000));
}

#[test]
fn refused_memory_sets_nothing(rt: HostRuntime) {
    if let Ok(mut step) = over_channel(rt.alloc()) {
        check_set(&rt, &mut step);
    }
}

/// If an allocation of a refresh fails, all that the step did is taken back, also the bits that were set.
fn check_refresh(rt: &impl Abort, step: &mut Step) {
    if set(step).is_err() {
        return;
    }
    let mut signals = 0x3000004;
    if refresh(step, MADE).is_err() {
        check(rt, has_channel(step, 0x1000000));
        check(rt, refresh(step, MADE).is_ok());
        signals = 0x1000004;
    }
    check(rt, has_channel(step, signals));
}

#[test]
fn refused_memory_refreshes_nothing(rt: HostRuntime) {
    if let Ok(mut step) = over_channel(rt.alloc()) {
        check_refresh(&rt, &mut step);
    }
}
