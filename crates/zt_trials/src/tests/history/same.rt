//! Whether two histories are equal.

use super::branch_calls::{FIX, MAIN, head_of, values_of};
use zt_history::History;
use zt_rows::{Koid, Moment, Row, RowKey};
use zt_store::Store;

/// Whether both stores have the same row under the key, and the same next key.
fn agree_at(first: &Store, second: &Store, key: &RowKey) -> bool {
    first.row(*key) == second.row(*key) && first.after(Some(*key)) == second.after(Some(*key))
}

/// Whether both stores have the same rows.
fn has_same_rows(first: &Store, second: &Store) -> bool {
    let mut next = second.after(None);
    for _ in 0..10_000 {
        let Some(key) = next else {
            return first.after(None) == second.after(None);
        };
        if !agree_at(first, second, &key) {
            return false;
        }
        next = second.after(Some(key));
    }
    false
}

/// Whether both stores have the same numbers for the koid.
fn agree_on(first: &Store, second: &Store, koid: Koid) -> bool {
    first.count(koid) == second.count(koid)
        && first.child_jobs(koid) == second.child_jobs(koid)
        && first.child_processes(koid) == second.child_processes(koid)
        && first.first_message(koid) == second.first_message(koid)
        && first.first_packet(koid) == second.first_packet(koid)
}

fn has_same_numbers(first: &Store, second: &Store) -> bool {
    (1020..1300).all(|koid| agree_on(first, second, Koid(koid)))
}

/// The keys of the moment's record.
pub(super) fn keys_of(history: &History, moment: Moment) -> &[RowKey] {
    match history.record_of(moment) {
        Some(kept) => kept.keys(),
        None => &[],
    }
}

/// The row that the moment's record holds under the key, or that there was none.
fn held(history: &History, moment: Moment, key: RowKey) -> Option<Option<&Row>> {
    history.record_of(moment)?.held(key)
}

/// Whether both records of the moment have the same keys, and the same rows under them.
fn has_same_record(first: &History, second: &History, moment: Moment) -> bool {
    let keys = keys_of(first, moment);
    keys == keys_of(second, moment)
        && keys.iter().all(|key| held(first, moment, *key) == held(second, moment, *key))
}

/// The process that made the moment.
fn caller_of(history: &History, moment: Moment) -> Option<Koid> {
    match history.call_of(moment) {
        Some((process, _)) => Some(process),
        None => None,
    }
}

/// Whether both histories have the same caller, reply and record for the moment.
fn agree_about(first: &History, second: &History, moment: Moment) -> bool {
    caller_of(first, moment) == caller_of(second, moment)
        && values_of(first.reply_of(moment)) == values_of(second.reply_of(moment))
        && has_same_record(first, second, moment)
}

fn has_same_moments(first: &History, second: &History) -> bool {
    let last = first.last();
    last == second.last() && (0..=last.0).all(|moment| agree_about(first, second, Moment(moment)))
}

fn has_same_heads(first: &History, second: &History) -> bool {
    head_of(first, MAIN) == head_of(second, MAIN) && head_of(first, FIX) == head_of(second, FIX)
}

fn has_same_tree(first: &History, second: &History) -> bool {
    has_same_heads(first, second) && has_same_moments(first, second)
}

fn has_same_store(first: &History, second: &History) -> bool {
    has_same_rows(first.store(), second.store()) && has_same_numbers(first.store(), second.store())
}

/// Whether both histories are equal: position, rows, numbers, moments with their records, and heads.
pub(super) fn is_same(first: &History, second: &History) -> bool {
    first.position() == second.position()
        && has_same_tree(first, second)
        && has_same_store(first, second)
}
