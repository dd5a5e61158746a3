//! Lists the messages, packets and waits of an object.

ghost use Rattle.std.specs.Prelude.{◌≡◌, ◌≤◌, ◌<◌, ◌++◌, Some, IfOk, IfSome, OnOk};
ghost use Rattle.std.specs.Option.{option_copied};
ghost use Rattle.zt_rows.specs.Consistent.{IsConsistent};
ghost use Rattle.zt_rows.specs.State.{row};
ghost use Rattle.zt_rows.specs.Tests.{next_at};
ghost use Rattle.zt_index.specs.Chains.{IsBehind, IsNext};
ghost use Rattle.zt_index.specs.Criteria.{is_at, is_for, waits_where};
ghost use Rattle.zt_look.specs.ObjectLook.{rows_where, is_wait_about};
ghost use Rattle.zt_look.specs.ProofsOnly.RowWalk.{is_owned, key_of, IsFirstOwned, under, lesser, AreNextWaits};

use std::alloc::{AllocError, Global};
use zt_rows::{Koid, Row, RowKey};
use zt_store::Store;

/// The kinds of rows that an object owns and numbers.
#[derive(Clone, Copy)]
pub(crate) enum Owned {
    Messages,
    Packets,
}

/// Copies of the rows of an endpoint's messages, or of a port's packets, by rising number. Looks at the numbers from
/// the first that is there to the last that was given out.
pub(crate) fn owned_of(
    alloc: Global,
    store: &Store,
    owned: Owned,
    koid: Koid,
) -> Result<Vec<(RowKey, Row)>, AllocError>
    requires { IsConsistent store.now.state }
    ensures { IfOk result (λ list. list.items ≡ rows_where store.now.state (is_owned owned koid)) }
{
    match first_of(store, owned, koid) {
        Some(first) => owned_from(alloc, store, owned, koid, first),
        None => Ok(Vec::new(alloc)),
    }
}

/// Copies of the rows of the object's messages or packets by rising number, of which `first` is the least.
fn owned_from(
    alloc: Global,
    store: &Store,
    owned: Owned,
    koid: Koid,
    first: u64,
) -> Result<Vec<(RowKey, Row)>, AllocError>
    requires sound { IsConsistent store.now.state }
    requires first { IsFirstOwned store.now.state owned koid (Some first) }
    ensures { IfOk result (λ list. list.items ≡ rows_where store.now.state (is_owned owned koid)) }
{
    let mut list = Vec::new(alloc);
    let end = next_of(store, koid);
    for number in first..end {
        push_row(&mut list, store, key_of(owned, koid, number))?;
    }
    Ok(list)
}

/// The least number of a message or a packet of the object.
fn first_of(store: &Store, owned: Owned, koid: Koid) -> Option<u64>
    ensures { IsFirstOwned store.now.state owned koid result }
{
    match owned {
        Owned::Messages => store.first_message(koid),
        Owned::Packets => store.first_packet(koid),
    }
}

/// The next number of the object's messages or packets.
fn next_of(store: &Store, koid: Koid) -> u64
    ensures { result ≡ next_at store.now.state koid }
{
    match store.object(koid) {
        Some(object) => object.next,
        None => 0,
    }
}

/// The key of the message or the packet of this number.
fn key_of(owned: Owned, koid: Koid, number: u64) -> RowKey
    ensures { result ≡ key_of owned koid number }
{
    match owned {
        Owned::Messages => RowKey::Msg(koid, number),
        Owned::Packets => RowKey::Packet(koid, number),
    }
}

/// Appends a copy of the row under the key with the key, if there is a row.
fn push_row(list: &mut Vec<(RowKey, Row)>, store: &Store, key: RowKey) -> Result<(), AllocError>
    ensures { OnOk result (list.new.items ≡ list.old.items ++ under key (row store.now.state key)) }
{
    match store.row(key) {
        Some(row) => {
            list.push((key, row.copy()?))?;
            Ok(())
        }
        None => Ok(()),
    }
}

/// The waits behind a low number: the least of those for a port, and the least of those on handles that name it.
#[derive(Clone, Copy)]
struct NextWaits {
    low: Option<u64>,
    by_port: Option<u64>,
    by_handle: Option<u64>,
}

/// Copies of the rows of the waits for a port, or on handles that name the object, each once, by rising number. Looks
/// at these waits, and at those that share a bucket with them.
pub(crate) fn waits_of(
    alloc: Global,
    store: &Store,
    koid: Koid,
) -> Result<Vec<(RowKey, Row)>, AllocError>
    ensures { IfOk result (λ list. list.items ≡ rows_where store.now.state (is_wait_about store.now.state koid)) }
{
    let mut list = Vec::new(alloc);
    let mut next = first_waits(store, koid);
    'waits: while let Some(number) = lesser(next.by_port, next.by_handle) {
        push_row(&mut list, store, RowKey::Wait(number))?;
        next = waits_behind(store, koid, next, number);
    }
    Ok(list)
}

/// The first waits of all.
fn first_waits(store: &Store, koid: Koid) -> NextWaits
    ensures next { AreNextWaits store.now.state koid result.low result.by_port result.by_handle }
    ensures first { result.low ≡ None }
{
    NextWaits {
        low: None,
        by_port: store.wait_for(koid, None),
        by_handle: store.wait_at(koid, None),
    }
}

/// The waits behind `number`, which is the least of these.
fn waits_behind(store: &Store, koid: Koid, next: NextWaits, number: u64) -> NextWaits
    requires next { AreNextWaits store.now.state koid next.low next.by_port next.by_handle }
    requires least { lesser next.by_port next.by_handle ≡ Some number }
    ensures next { AreNextWaits store.now.state koid result.low result.by_port result.by_handle }
    ensures low { result.low ≡ Some number }
{
    NextWaits {
        low: Some(number),
        by_port: by_port_behind(store, koid, next, number),
        by_handle: by_handle_behind(store, koid, next, number),
    }
}

/// The least wait for a port behind this number. `next.by_port` was the least behind a lower number.
fn by_port_behind(store: &Store, koid: Koid, next: NextWaits, number: u64) -> Option<u64>
    requires next { IsNext (waits_where store.now.state (is_for koid)) next.low next.by_port }
    requires above { IsBehind (λ a b. a < b) next.low number }
    requires least { IfSome next.by_port (λ n. number ≤ n) }
    ensures { IsNext (waits_where store.now.state (is_for koid)) (Some number) result }
{
    match next.by_port {
        Some(wait) if wait == number => store.wait_for(koid, Some(number)),
        found => found,
    }
}

/// The least wait on a handle that names the object behind this number. `next.by_handle` was the least behind a lower
/// number.
fn by_handle_behind(store: &Store, koid: Koid, next: NextWaits, number: u64) -> Option<u64>
    requires next { IsNext (waits_where store.now.state (is_at store.now.state koid)) next.low next.by_handle }
    requires above { IsBehind (λ a b. a < b) next.low number }
    requires least { IfSome next.by_handle (λ n. number ≤ n) }
    ensures { IsNext (waits_where store.now.state (is_at store.now.state koid)) (Some number) result }
{
    match next.by_handle {
        Some(wait) if wait == number => store.wait_at(koid, Some(number)),
        found => found,
    }
}

/// The lesser of two numbers, or the one that is there.
fn lesser(a: Option<u64>, b: Option<u64>) -> Option<u64>
    ensures { result ≡ lesser a b }
{
    match (a, b) {
        (Some(x), Some(y)) => Some(x.min(y)),
        (Some(x), None) => Some(x),
        (None, _) => b,
    }
}
