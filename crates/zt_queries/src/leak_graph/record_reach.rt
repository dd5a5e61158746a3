//! Tells from the record of the call by which an object went that the object was reached before that call. Never
//! allocates.
//!
//! The record has an entry that names the object, or a message that names it. The message waited at an endpoint that
//! was reached in the same way.

ghost use Rattle.std.specs.Prelude.{◌≡◌, true, false, Some};
ghost use Rattle.zt_rows.specs.State.{State};
ghost use Rattle.zt_queries.specs.Leaks.{is_leaked};
ghost use Rattle.zt_queries.specs.ProofsOnly.FirstLeak.{HoldsRowsOf, ShowsReachedWith};

use crate::leak_graph::name_search::times_named;
use crate::leak_graph::unleaked_signs::is_entered_in;
use zt_rows::{Koid, RowKey};
use zt_store::Record;

/// The most passes over the messages of a record in search of an endpoint further up. One pass goes up through all
/// endpoints above each other, if each upper one was made before the lower one.
const MOST_PASSES: usize = 16;

/// Whether the record shows that the object was reached on its side of the call: by an entry, or by messages that wait
/// one above the other under an entry.
///
/// An object that goes with its holders goes by the last name of each. So it is enough to follow one message at each
/// step.
pub(crate) fn tells_reached(change: &Record, koid: Koid) -> bool
    ensures { result ≡ true → (S : State) → HoldsRowsOf (Some change.now) S → is_leaked S koid ≡ false }
{
    let mut named = koid;
    for _ in 0..MOST_PASSES {
        if is_entered_in(change, named) {
            return true;
        }
        let above = end_above(change, named);
        if above == named {
            return false;
        }
        named = above;
    }
    false
}

/// An endpoint above the object: wherever the endpoint was reached, so was the object. Goes from message to message of
/// the record, from the last one on. Returns the object itself if no message of the record names it.
fn end_above(change: &Record, koid: Koid) -> Koid
    ensures { ShowsReachedWith change.now koid result }
{
    let keys = change.keys();
    let mut end = koid;
    let mut place = keys.len();
    while place > 0 {
        place -= 1;
        end = end_under(change, keys[place], end);
    }
    end
}

/// The endpoint of the record's message under the key, if that message names the object. Otherwise the object itself.
fn end_under(change: &Record, key: RowKey, koid: Koid) -> Koid
    ensures { ShowsReachedWith change.now koid result }
{
    let RowKey::Msg(endpoint, _) = key else {
        return koid;
    };
    match change.held(key) {
        Some(row) if times_named(row, koid) > 0 => endpoint,
        _ => koid,
    }
}
