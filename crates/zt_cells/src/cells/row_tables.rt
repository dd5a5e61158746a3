//! All tables of a store, by kinds of keys.

ghost use Rattle.std.specs.Prelude.{◌≡◌, ◌≤◌, ◌<◌, ◌+◌, ◌^◌, ℕ, length, IfOk, IsTrue, OnOk, OnErr, Some, false};
ghost use Rattle.std.specs.Option.{option_copied};
ghost use Rattle.zt_rows.specs.declared.keys.RowKey.TheVariants as key_variant;
ghost use Rattle.zt_rows.specs.declared.rows.Row.TheVariants as rows;
ghost use Rattle.zt_cells.specs.AlikeObjects.{AreAlike};
ghost use Rattle.zt_cells.specs.RowSlots.{decode_slot};
ghost use Rattle.zt_cells.specs.ProofsOnly.RowTables.{row_tables_of, look, places_in, sizes_of, Exchanged, MadeFor, Widened};
ghost use Rattle.zt_cells.specs.ProofsOnly.TablePlaces.{table};
ghost use Rattle.zt_cells.specs.TableSizes.{objects_after, packets_after, waits_after, has_place, length_at, place_of};

use crate::cells::handle_tables::Entries;
use crate::cells::table::Table;
use crate::cells::tables_by_owner::TablesByOwner;
use std::alloc::{AllocError, Global};
use std::mem;
use zt_rows::{Koid, ObjectRow, Row, RowKey};

/// All tables of a store. Each key has one place in one of them.
pub(crate) struct RowTables {
    pub counters: Row,
    pub objects: Table,
    pub entries: Entries,
    pub messages: TablesByOwner,
    pub packets: TablesByOwner,
    pub waits: Table,
}

/// Drops all tables in one call. So the proof of a function that owns a store does not go through them at each exit.
impl Drop for RowTables {
    fn drop(self) {
        let RowTables {
            counters: _counters,
            objects: _objects,
            entries: _entries,
            messages: _messages,
            packets: _packets,
            waits: _waits,
        } = self;
    }
}

impl RowTables {
    /// Tables with the counters, and without any other row or place. Never allocates.
    pub fn new(alloc: Global, counters: Row) -> RowTables
        ensures { result ≡ row_tables_of counters }
    {
        RowTables {
            counters,
            objects: Table::new(alloc),
            entries: Entries::new(alloc),
            messages: TablesByOwner::new(alloc),
            packets: TablesByOwner::new(alloc),
            waits: Table::new(alloc),
        }
    }

    /// Copies the tables into memory of their own.
    pub fn copy(&self) -> Result<RowTables, AllocError>
        ensures { IfOk result (λ copied. copied ≡ self.now) }
    {
        Ok(RowTables {
            counters: self.counters.copy()?,
            objects: self.objects.copy()?,
            entries: self.entries.copy()?,
            messages: self.messages.copy()?,
            packets: self.packets.copy()?,
            waits: self.waits.copy()?,
        })
    }

    /// The row in the place of the key. Never allocates.
    #[inline(always)]
    #[tactic(auto, unfolding(crate::specs::ProofsOnly::RowTables::look))]
    pub fn row(&self, key: RowKey) -> Option<&Row>
        ensures { option_copied result ≡ look self.now key }
    {
        match key {
            RowKey::Counters => Some(&self.counters),
            RowKey::Object(koid) => self.objects.row(koid.0 as usize),
            RowKey::Entry(process, value) => self.entries.row(process, value),
            RowKey::Msg(owner, number) => self.messages.row(owner.0 as usize, number as usize),
            RowKey::Packet(owner, number) => self.packets.row(owner.0 as usize, number as usize),
            RowKey::Wait(number) => self.waits.row(number as usize),
        }
    }

    /// How many places the table of the key has.
    #[inline(always)]
    #[tactic(auto, using(crate::proofs::RowTableLaws::length_laws), unfolding(crate::specs::ProofsOnly::RowTables::sizes_of))]
    pub fn len_at(&self, key: RowKey) -> usize
        ensures { result ≡ length_at (sizes_of self.now) key }
    {
        match key {
            RowKey::Counters => 1,
            RowKey::Object(_) => self.objects.len(),
            RowKey::Entry(process, value) => self.entries.len_of(process, value),
            RowKey::Msg(owner, _) => self.messages.len_of(owner.0 as usize),
            RowKey::Packet(owner, _) => self.packets.len_of(owner.0 as usize),
            RowKey::Wait(_) => self.waits.len(),
        }
    }

    /// Whether the key has its place.
    #[inline(always)]
    #[tactic(auto, using(crate::proofs::RowTableLaws::length_laws), unfolding(crate::specs::ProofsOnly::RowTables::sizes_of, crate::specs::TableSizes::has_place))]
    pub fn has_place(&self, key: RowKey) -> bool
        ensures { result ≡ has_place (sizes_of self.now) key }
    {
        match key {
            RowKey::Counters => true,
            RowKey::Object(koid) => (koid.0 as usize) < self.objects.len(),
            RowKey::Entry(process, value) => self.entries.has(process, value),
            RowKey::Msg(owner, number) => {
                (number as usize) < self.messages.len_of(owner.0 as usize)
            }
            RowKey::Packet(owner, number) => {
                (number as usize) < self.packets.len_of(owner.0 as usize)
            }
            RowKey::Wait(number) => (number as usize) < self.waits.len(),
        }
    }

    /// Exchanges the slot with the one in the place of the key. Either may stand for none. Never allocates.
    #[inline(always)]
    #[tactic(auto, using(crate::proofs::RowTableLaws::length_laws), unfolding(crate::specs::ProofsOnly::RowTables::sizes_of))]
    pub fn exchange(&mut self, key: RowKey, kept: &mut Row)
        requires { place_of key < length_at (sizes_of self.old) key }
        ensures { Exchanged self.old self.new key (decode_slot key kept.old) (decode_slot key kept.new) }
    {
        match key {
            RowKey::Counters => mem::swap(&mut self.counters, kept),
            RowKey::Object(koid) => self.objects.exchange(koid.0 as usize, kept),
            RowKey::Entry(process, value) => self.entries.exchange(process, value, kept),
            RowKey::Msg(owner, number) => {
                self.messages
                    .exchange(owner.0 as usize, number as usize, kept);
            }
            RowKey::Packet(owner, number) => {
                self.packets
                    .exchange(owner.0 as usize, number as usize, kept);
            }
            RowKey::Wait(number) => self.waits.exchange(number as usize, kept),
        }
    }

    /// If an object that is alike has this koid, exchanges the two and returns `true`. Else nothing changes. Never allocates.
    #[inline(always)]
    pub fn exchange_alike(&mut self, koid: Koid, object: &mut ObjectRow) -> bool
        requires { koid < length self.old.objects }
        ensures done { IsTrue result → Exchanged self.old self.new (key_variant.Object koid) (Some (rows.Object object.old)) (Some (rows.Object object.new)) }
        ensures alike { IsTrue result → AreAlike object.new object.old }
        ensures same { result ≡ false → (self.new ≡ self.old) × (object.new ≡ object.old) }
    {
        self.objects.exchange_alike(koid.0 as usize, object)
    }

    /// Makes empty places in the table of the key, up to its own.
    #[inline(always)]
    #[tactic(auto, using(crate::proofs::RowTableLaws::length_laws), unfolding(crate::specs::ProofsOnly::RowTables::sizes_of))]
    pub fn grow(&mut self, key: RowKey) -> Result<(), AllocError>
        requires absent { length_at (sizes_of self.old) key ≤ place_of key }
        requires near { place_of key < 2 ^ 62 }
        ensures widened { Widened self.old self.new }
        ensures waits { length self.new.waits ≤ waits_after key (length self.old.waits) }
        ensures objects { length self.new.objects ≤ objects_after key (length self.old.objects) }
        ensures packets { (x : ℕ) → length (table self.new.packets x) ≤ packets_after key x (length (table self.old.packets x)) }
        ensures ok { OnOk result (MadeFor key self.old self.new) }
        ensures err { OnErr result (places_in self.new ≡ places_in self.old) }
    {
        // `place_of` gets a copy of the key, since the key is matched on below.
        let asked = key;
        let len = place_of(asked) + 1;
        match key {
            RowKey::Counters => Ok(()),
            RowKey::Object(_) => self.objects.grow(len),
            RowKey::Entry(process, value) => self.entries.grow(process, value),
            RowKey::Msg(owner, _) => self.messages.grow(owner.0 as usize, len),
            RowKey::Packet(owner, _) => self.packets.grow(owner.0 as usize, len),
            RowKey::Wait(_) => self.waits.grow(len),
        }
    }
}

/// The place of the key in its table.
#[inline(always)]
pub(crate) fn place_of(key: RowKey) -> usize
    ensures { result ≡ place_of key }
{
    match key {
        RowKey::Counters => 0,
        RowKey::Object(koid) => koid.0 as usize,
        RowKey::Entry(_, value) => (value.0 / 4) as usize,
        RowKey::Msg(_, number) | RowKey::Packet(_, number) | RowKey::Wait(number) => {
            number as usize
        }
    }
}
