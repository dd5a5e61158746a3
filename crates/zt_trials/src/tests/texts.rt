//! Calls, replies and rows as text, if no allocation fails.

use super::checks::check;
use std::alloc::{AllocError, Global};
use std::test::Fail;
use zt_bits::{Kind, Rights, Signals};
use zt_rows::{
    Call, Counters, FIRST_HANDLE, HandleValue, Held, Koid, Life, ObjectRow, Packet, ROOT_JOB,
    ROOT_PROCESS, Reply, Row, RowKey,
};
use zt_text::{print_call, print_reply, print_rows};

/// The line of the call. No clause tells it, so a proof of the callers does not go over its bytes.
fn call_line() -> &'static [u8] {
    b"1025 handle_duplicate 7 0x80000000"
}

fn is_call_printed(alloc: Global) -> Result<bool, AllocError> {
    let call = Call::HandleDuplicate {
        handle: HandleValue(7),
        rights: 0x8000_0000,
    };
    let text = print_call(alloc, ROOT_PROCESS, &call)?;
    Ok(text.as_slice() == call_line())
}

#[test]
fn a_call_is_printed(rt: HostRuntime) -> Result<(), Fail> {
    check(&rt, is_call_printed(rt.alloc())?);
    Ok(())
}

fn reply_line() -> &'static [u8] {
    b"ok signal 5 0x00000004 0x00000006"
}

/// A packet is printed without the process and the handle that made the wait.
fn is_reply_printed(alloc: Global) -> Result<bool, AllocError> {
    let reply = Reply::Packet(Packet::Signal {
        key: 5,
        trigger: Signals(4),
        observed: Signals(6),
        process: ROOT_PROCESS,
        handle: HandleValue(7),
    });
    let text = print_reply(alloc, &reply)?;
    Ok(text.as_slice() == reply_line())
}

#[test]
fn a_reply_is_printed(rt: HostRuntime) -> Result<(), Fail> {
    check(&rt, is_reply_printed(rt.alloc())?);
    Ok(())
}

const COUNTERS: Counters = Counters {
    next_koid: Koid(1026),
    next_wait: 4,
};

const EXITED: ObjectRow = ObjectRow {
    kind: Kind::Process,
    signals: Signals(0x8),
    link: Koid(0),
    life: Life::Exited(-7),
    next: 2,
    critical: Koid(0),
};

const TO_ROOT_JOB: Held = Held {
    koid: ROOT_JOB,
    rights: Rights(0x3d203),
};

fn row_lines() -> &'static [u8] {
    b"counters 1026 4\nobject 1025 process 0x00000008 0 exit:-7 2\nentry 1025 3 1024 0x0003d203\n"
}

fn are_rows_printed(alloc: Global, rows: &[(RowKey, Row)]) -> Result<bool, AllocError> {
    let text = print_rows(alloc, rows)?;
    Ok(text.as_slice() == row_lines())
}

#[test]
fn rows_are_printed(rt: HostRuntime) {
    let rows = [
        (RowKey::Counters, Row::Counters(COUNTERS)),
        (RowKey::Object(ROOT_PROCESS), Row::Object(EXITED)),
        (
            RowKey::Entry(ROOT_PROCESS, FIRST_HANDLE),
            Row::Entry(TO_ROOT_JOB),
        ),
    ];
    check(
        &rt,
        are_rows_printed(rt.alloc(), rows.as_slice()) == Ok(true),
    );
}
