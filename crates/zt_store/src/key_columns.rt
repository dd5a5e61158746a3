//! Finds the next key of a store, and whether its numbers leave room for one more call.

ghost use Rattle.std.specs.Prelude.{◌≡◌, ◌≤◌, ◌<◌, ◌^◌, ◌↔◌, ℕ, IsTrue, IfSome, Some, find, is_some};
ghost use Rattle.std.specs.Option.{MatchOption};
ghost use Rattle.zt_rows.specs.declared.keys.RowKey.TheVariants as key_variant;
ghost use Rattle.zt_rows.specs.declared.rows.ObjectRow.{ObjectRow};
ghost use Rattle.zt_rows.specs.Change.{keys};
ghost use Rattle.zt_rows.specs.Reads.{object};
ghost use Rattle.zt_rows.specs.Room.{HasRoom, NextFits, is_above, next_key};
ghost use Rattle.zt_rows.specs.State.{row};
ghost use Rattle.zt_index.specs.Chains.{IsBehind, IsNext};
ghost use Rattle.zt_index.specs.Criteria.{has_entry, has_packet};
ghost use Rattle.zt_store.specs.ProofsOnly.KeyColumns.{is_from, key_in, next_column, numbers_end};

use zt_bits::Kind;
use zt_cells::Cells;
use zt_rows::{Counters, HandleValue, Koid, RowKey};

/// From this number on there is no handle value.
const VALUES_END: u64 = 1 << 32;

/// The greatest next number of koids, waits, messages or packets that leaves room for one more call.
const LAST_NUMBER: u64 = 1 << 62;

/// The greatest next number of a process's handles that leaves room for one more call.
const LAST_HANDLE: u64 = (1 << 30) - 64;

/// A column of keys: those that differ only in their last number. In the order of all keys, a column stands in one piece.
#[derive(Clone, Copy)]
enum KeyColumn {
    Objects,
    Entries(Koid),
    Messages(Koid),
    Packets(Koid),
    Waits,
}

impl KeyColumn {
    /// The key with this number.
    fn key(&self, number: u64) -> RowKey
        requires { number < numbers_end self.now }
        ensures { result ≡ key_in self.now number }
    {
        match *self {
            KeyColumn::Objects => RowKey::Object(Koid(number)),
            KeyColumn::Entries(process) => RowKey::Entry(process, HandleValue(number as u32)),
            KeyColumn::Messages(endpoint) => RowKey::Msg(endpoint, number),
            KeyColumn::Packets(port) => RowKey::Packet(port, number),
            KeyColumn::Waits => RowKey::Wait(number),
        }
    }

    /// From this number on, the column has no row.
    fn end(&self, cells: &Cells) -> u64
        ensures past { (n : ℕ) → result ≤ n → row cells.now.state (key_in self.now n) ≡ None }
        ensures few { result ≤ numbers_end self.now }
    {
        match *self {
            KeyColumn::Objects => cells.objects_end(),
            KeyColumn::Entries(process) => values_end(cells, process),
            KeyColumn::Messages(endpoint) => cells.messages_end(endpoint),
            KeyColumn::Packets(port) => cells.packets_end(port),
            KeyColumn::Waits => cells.waits_end(),
        }
    }

    /// The column of the next keys, if no owner has a koid from `owners` on; `None` for the last column.
    fn next(&self, owners: u64) -> Option<KeyColumn>
        ensures { result ≡ next_column owners self.now }
    {
        match *self {
            KeyColumn::Objects => Some(KeyColumn::Entries(Koid(0))),
            KeyColumn::Entries(Koid(x)) if x < owners => Some(KeyColumn::Entries(Koid(x + 1))),
            KeyColumn::Entries(_) => Some(KeyColumn::Messages(Koid(0))),
            KeyColumn::Messages(Koid(x)) if x < owners => Some(KeyColumn::Messages(Koid(x + 1))),
            KeyColumn::Messages(_) => Some(KeyColumn::Packets(Koid(0))),
            KeyColumn::Packets(Koid(x)) if x < owners => Some(KeyColumn::Packets(Koid(x + 1))),
            KeyColumn::Packets(_) => Some(KeyColumn::Waits),
            KeyColumn::Waits => None,
        }
    }
}

/// From this handle value on the process has no entry.
fn values_end(cells: &Cells, process: Koid) -> u64
    ensures past { (h : ℕ) → result ≤ h → row cells.now.state (key_variant.Entry process h) ≡ None }
    ensures few { result ≤ 2 ^ 32 }
{
    cells.limits();
    cells.entries_end(process).min(VALUES_END)
}

/// Whether a row stands under the key.
fn has_row(cells: &Cells, key: &RowKey) -> bool
    ensures { result ≡ is_some (row cells.now.state key.now) }
{
    cells.row(*key).is_some()
}

/// The least handle value above `low` under which the process has an entry; the least of all if `low` is `None`. Never
/// allocates, and walks over no handle that was closed.
pub(crate) fn handle_of(
    cells: &Cells,
    process: Koid,
    low: Option<HandleValue>,
) -> Option<HandleValue>
    ensures { IsNext (has_entry cells.now.state process) low result }
{
    cells.next_entry(process, value_above(low))
}

/// The least number above `low`, or 0 if `low` is `None`.
fn value_above(low: Option<HandleValue>) -> u64
    ensures { (h : ℕ) → (result ≤ h) ↔ IsBehind (λ a b. a < b) low h }
{
    match low {
        Some(low) => u64::from(low.0) + 1,
        None => 0,
    }
}

/// The least number above `low` of a packet in the port; the least of all if `low` is `None`. Never allocates, and
/// walks over no packet that went.
pub(crate) fn packet_of(cells: &Cells, port: Koid, low: Option<u64>) -> Option<u64>
    ensures { IsNext (has_packet cells.now.state port) low result }
{
    match low {
        Some(number) => packet_behind(cells, port, number),
        None => cells.first_packet(port),
    }
}

/// The least number above this one of a packet in the port.
fn packet_behind(cells: &Cells, port: Koid, number: u64) -> Option<u64>
    ensures { IsNext (has_packet cells.now.state port) (Some number) result }
{
    if number < cells.packets_end(port) {
        cells.next_packet(port, number + 1)
    } else {
        None
    }
}

/// The first key of the column, from this number on, that has a row. It is then the least key of all from there on.
fn first_in(cells: &Cells, column: &KeyColumn, from: u64) -> Option<RowKey>
    ensures { MatchOption result
        ((n : ℕ) → from ≤ n → row cells.now.state (key_in column.now n) ≡ None)
        (λ key. Some key ≡ find (is_from (key_in column.now from)) (keys cells.now.state)) }
{
    let end = column.end(cells);
    for number in from..end {
        let key = column.key(number);
        if has_row(cells, &key) {
            return Some(key);
        }
    }
    None
}

/// The least key that has a row, from this number of the column on.
fn key_from(cells: &Cells, first: KeyColumn, from: u64) -> Option<RowKey>
    ensures { result ≡ find (is_from (key_in first from)) (keys cells.now.state) }
{
    let owners = cells.owners_end();
    let mut column = first;
    let mut low = from;
    'columns: loop {
        if let Some(key) = first_in(cells, &column, low) {
            return Some(key);
        }
        match column.next(owners) {
            Some(next) => column = next,
            None => return None,
        }
        low = 0;
    }
}

/// The least key that has a row, above the key with this number of the column.
fn key_above_in(cells: &Cells, column: KeyColumn, number: u64) -> Option<RowKey>
    ensures { result ≡ find (is_above (Some (key_in column number))) (keys cells.now.state) }
{
    if number < column.end(cells) {
        key_from(cells, column, number + 1)
    } else {
        key_from(cells, column, number)
    }
}

/// The least key above `low`, or the least of all if `low` is `None`. Never allocates.
pub(crate) fn key_after(cells: &Cells, low: Option<RowKey>) -> Option<RowKey>
    ensures { result ≡ next_key cells.now.state low }
{
    match low {
        Some(low) => key_above(cells, low),
        None => first_key(cells),
    }
}

/// The least key above `low`.
fn key_above(cells: &Cells, low: RowKey) -> Option<RowKey>
    ensures { result ≡ next_key cells.now.state (Some low) }
{
    match low {
        RowKey::Counters => key_from(cells, KeyColumn::Objects, 0),
        RowKey::Object(koid) => key_above_in(cells, KeyColumn::Objects, koid.0),
        RowKey::Entry(process, handle) => {
            key_above_in(cells, KeyColumn::Entries(process), u64::from(handle.0))
        }
        RowKey::Msg(endpoint, number) => key_above_in(cells, KeyColumn::Messages(endpoint), number),
        RowKey::Packet(port, number) => key_above_in(cells, KeyColumn::Packets(port), number),
        RowKey::Wait(number) => key_above_in(cells, KeyColumn::Waits, number),
    }
}

/// The least key of all, which is that of the counters.
fn first_key(cells: &Cells) -> Option<RowKey>
    ensures { result ≡ next_key cells.now.state None }
{
    cells.limits();
    Some(RowKey::Counters)
}

/// Whether every number that a call may raise leaves room for one more call. Never allocates.
pub(crate) fn has_room(cells: &Cells) -> bool
    ensures { IsTrue result ↔ HasRoom cells.now.state }
{
    let counters = cells.counters();
    counters.next_koid.0 <= LAST_NUMBER && counters.next_wait <= LAST_NUMBER && objects_fit(cells)
}

/// Whether the next number of each owner leaves room for one more call.
fn objects_fit(cells: &Cells) -> bool
    ensures { IsTrue result
        ↔ ((x : ℕ) (o : ObjectRow) → object cells.now.state x ≡ Some o → NextFits o.kind o.next) }
{
    for koid in 0..cells.objects_end() {
        if !object_fits(cells, Koid(koid)) {
            return false;
        }
    }
    true
}

/// Whether the next number of the object, if there is one, leaves room for one more call.
fn object_fits(cells: &Cells, koid: Koid) -> bool
    ensures { IsTrue result ↔ IfSome (object cells.now.state koid) (λ o. NextFits o.kind o.next) }
{
    match cells.object(koid) {
        Some(object) => next_fits(object.kind, object.next),
        None => true,
    }
}

/// Whether this next number of an owner of this kind leaves room for one more call.
fn next_fits(kind: Kind, next: u64) -> bool
    ensures { IsTrue result ↔ NextFits kind next }
{
    match kind {
        Kind::Process => next <= LAST_HANDLE,
        Kind::Channel | Kind::Port => next <= LAST_NUMBER,
        _ => true,
    }
}
