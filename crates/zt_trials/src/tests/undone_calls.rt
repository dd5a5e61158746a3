//! Calls of several processes on a store, taken back by their records.

ghost use Rattle.std.specs.Prelude.{◌≡◌, true};
ghost use Rattle.zt_rows.specs.Consistent.{IsConsistent};
ghost use Rattle.zt_rows.specs.Opening.{opening};
ghost use Rattle.zt_store.specs.Places.{fits};
ghost use Rattle.zt_store.specs.RecordRows.{all_fit};

use super::stores::is_same;
use std::alloc::Global;
use zt_calls::apply;
use zt_rows::laws::opening_is_consistent;
use zt_rows::{Call, FIRST_HANDLE, Koid, ROOT_JOB, ROOT_PROCESS, Reply, RowKey};
use zt_store::{Record, Store, undo};
use zt_text::{print_reply, read_session};

/// How many calls `asked` has.
const CALLS: usize = 26;

/// Calls of the first process and of two that it makes, one under a job of its own. A channel end goes to the first child.
/// The child is sent an event, waits on an edge of it and on the end, takes the packets, and sends the event back. The
/// other child is killed with its job. Then each process that is left exits. No clause tells the lines, so a proof of the
/// callers does not go over their bytes.
fn asked() -> &'static [u8] {
    b"zxtt 1\n1025 channel_create\n1025 spawn 3 11\n1025 event_create\n1025 handle_duplicate 19 0x80000000\n1025 channel_write 7 6869 23\n1028 channel_read 3 2 1\n1028 port_create\n1028 object_wait_async 7 11 5 0x00000008 edge\n1028 object_wait_async 3 11 6 0x00000004\n1028 port_queue 11 9 0123456789abcdef0123456789abcdef0123456789abcdef0123456789abcdef\n1025 object_signal 19 0x00000000 0x00000008\n1028 port_wait 11\n1028 port_wait 11\n1028 port_wait 11\n1028 channel_write 3 - 7\n1025 channel_read 7 0 0\n1025 job_create 3\n1025 spawn 27 0\n1032 eventpair_create\n1032 object_signal_peer 3 0x00000000 0x01000000\n1032 handle_replace 7 0x00004000\n1025 task_kill 27\n1025 handle_close 99\n1025 handle_close 7\n1028 process_exit -7\n1025 process_exit 0\n"
}

/// The answers to these calls.
fn answers() -> &'static [u8] {
    b"ok 7 11\nok 15 1028\nok 19\nok 23\nok\nok 6869 7\nok 11\nok\nok\nok\nok\nok user 9 0123456789abcdef0123456789abcdef0123456789abcdef0123456789abcdef\nok signal 5 0x00000008 0x00000008\ntimed_out\nok\nbuffer_too_small 0 1\nok 27\nok 31 1032\nok 3 7\nok\nok 11\nok\nbad_handle\nok\nok\nok\n"
}

/// Adds the line of the reply.
fn is_told(alloc: Global, told: &mut Vec<u8>, reply: &Reply) -> bool {
    match print_reply(alloc, reply) {
        Ok(line) => told.extend_from_slice(line.as_slice()).is_ok() && told.push(b'\n').is_ok(),
        Err(_) => false,
    }
}

/// Keeps the record of a call that was made on the store.
#[tactic(auto, using(crate::proofs::FitLaws::fit_laws))]
fn is_kept(store: &Store, records: &mut Vec<Record>, kept: Record) -> bool
    requires one { fits store.now.places kept ≡ true }
    requires fit { all_fit store.now.places records.old.items ≡ true }
    ensures { all_fit store.now.places records.new.items ≡ true }
{
    records.push(kept).is_ok()
}

/// Makes the call, keeps its record, and adds the line of its reply.
#[tactic(auto, using(crate::proofs::FitLaws::fit_laws))]
fn is_made(
    alloc: Global,
    store: &mut Store,
    records: &mut Vec<Record>,
    told: &mut Vec<u8>,
    process: Koid,
    call: &Call,
) -> bool
    requires consistent { IsConsistent store.old.state }
    requires fit { all_fit store.old.places records.old.items ≡ true }
    ensures consistent { IsConsistent store.new.state }
    ensures fit { all_fit store.new.places records.new.items ≡ true }
{
    if !store.room() {
        return false;
    }
    match apply(alloc, store, process, call) {
        Ok((reply, kept)) => is_kept(store, records, kept) && is_told(alloc, told, &reply),
        Err(_) => false,
    }
}

/// Makes the calls in order.
fn are_made(
    alloc: Global,
    store: &mut Store,
    records: &mut Vec<Record>,
    told: &mut Vec<u8>,
    calls: &[(Koid, Call)],
) -> bool
    requires consistent { IsConsistent store.old.state }
    requires fit { all_fit store.old.places records.old.items ≡ true }
    ensures { all_fit store.new.places records.new.items ≡ true }
{
    for (process, call) in calls {
        if !is_made(alloc, store, records, told, *process, call) {
            return false;
        }
    }
    true
}

/// The keys of the opening.
const FIRST: [RowKey; 4] = [
    RowKey::Counters,
    RowKey::Object(ROOT_JOB),
    RowKey::Object(ROOT_PROCESS),
    RowKey::Entry(ROOT_PROCESS, FIRST_HANDLE),
];

/// How many rows of the opening are as they were.
fn untouched(store: &Store, fresh: &Store) -> usize {
    FIRST
        .iter()
        .filter(|key| store.row(**key) == fresh.row(**key))
        .count()
}

/// Whether the rows differ from those of the opening as they must. Before the first call they are the same. After any call
/// they differ, and after the last no row of the opening is as it was.
fn has_changed(store: &Store, fresh: &Store, many: usize) -> bool {
    match many {
        0 => is_same(store, fresh) && untouched(store, fresh) == 4,
        CALLS => !is_same(store, fresh) && untouched(store, fresh) == 0,
        _ => !is_same(store, fresh),
    }
}

/// Takes all calls back. Whether the rows and numbers are then equal to those of the opening, both ways.
fn is_undone(store: &mut Store, fresh: &Store, records: &mut [Record]) -> bool
    requires { all_fit store.old.places records.old ≡ true }
{
    undo(store, records);
    is_same(store, fresh) && is_same(fresh, store)
}

/// Whether the calls are answered as they must be, change the opening, and are taken back.
fn are_taken_back(alloc: Global, store: &mut Store, fresh: &Store, calls: &[(Koid, Call)]) -> bool
    requires { store.old.state ≡ opening }
{
    opening_is_consistent();
    let mut records = Vec::new(alloc);
    let mut told = Vec::new(alloc);
    are_made(alloc, store, &mut records, &mut told, calls)
        && answers().starts_with(told.as_slice())
        && has_changed(store, fresh, calls.len())
        && is_undone(store, fresh, records.as_mut_slice())
}

/// Checks as `are_taken_back` does, with a new opening to compare with.
fn are_beside(alloc: Global, store: &mut Store, calls: &[(Koid, Call)]) -> bool
    requires { store.old.state ≡ opening }
{
    match Store::opening(alloc) {
        Ok(fresh) => are_taken_back(alloc, store, &fresh, calls),
        Err(_) => false,
    }
}

/// Checks as `are_taken_back` does, over a new opening.
fn are_over_new(alloc: Global, calls: &[(Koid, Call)]) -> bool {
    match Store::opening(alloc) {
        Ok(mut store) => are_beside(alloc, &mut store, calls),
        Err(_) => false,
    }
}

/// Whether the first `many` of the calls are taken back.
fn are_first_taken_back(alloc: Global, many: usize) -> bool {
    match read_session(alloc, asked()) {
        Ok(calls) => {
            calls.len() == CALLS
                && are_over_new(alloc, calls.as_slice().split_at(many.min(calls.len())).0)
        }
        Err(_) => false,
    }
}

#[test]
fn calls_of_several_processes_are_taken_back(rt: HostRuntime) {
    for many in 0..=CALLS {
        assert!(rt; are_first_taken_back(rt.alloc(), many), "{many} calls");
    }
}
