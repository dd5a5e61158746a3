//! Undo records: the rows that a step changed, as they were, by which the step is undone.

ghost use Rattle.std.specs.Option.{option_copied, option_map};
ghost use Rattle.std.specs.Prelude.{◌≡◌, ◌<◌, ◌≤◌, true, Some, length, map, slice_get, IfOk, OnOk};
ghost use Rattle.std.specs.List.{IsDistinct};
ghost use Rattle.zt_rows.specs.Change.{before, with_rows};
ghost use Rattle.zt_rows.specs.Keys.{rowkey_eq};
ghost use Rattle.zt_store.specs.Places.{fits};
ghost use Rattle.zt_store.specs.RecordLook.{held};
ghost use Rattle.zt_store.specs.ProofsOnly.ChangedRows.{IsOrder, picked};
ghost use Rattle.zt_store.specs.ProofsOnly.KeptRows.{AreOf, keys_in, room_in, rows_in, rows_of};
ghost use Rattle.zt_store.specs.ProofsOnly.StoreView.{AllSuit};

use crate::before_images::BeforeImages;
use crate::changed_rows::find_changed;
use crate::kept_rows::{KeptRows, RowLists};
use crate::store::Store;
use std::alloc::{AllocError, Global};
use std::marker::Model;
use zt_cells::decode_slot;
use zt_rows::{Row, RowKey};

/// An undo record: the rows under some keys at another moment, or that there was none. They are in the order of the
/// keys, and each row stands at the place of its key.
#[derive(Drop)]
pub struct Record {
    pub(crate) rows: KeptRows,
}

impl Model for Record {
    ghost use Rattle.std.specs.Prelude.{List, Option};
    ghost use Rattle.zt_rows.specs.declared.keys.RowKey.{RowKey};
    ghost use Rattle.zt_rows.specs.declared.rows.Row.{Row};
    ghost use Rattle.zt_store.specs.ProofsOnly.RecordRows.{IsSlotRecord};
    ghost use Rattle.zt_store.specs.ProofsOnly.KeptRows.{keys_in, rows_in, pairs_of};

    ghost Value = { List (RowKey × Option Row) };

    ghost view = { λ r. pairs_of (keys_in r.rows) (rows_in r.rows) };

    ghost invariant = { λ r. IsSlotRecord (keys_in r.rows) (rows_in r.rows) };
}

impl Record {
    /// The keys in their order. Never allocates.
    pub fn keys(&self) -> &[RowKey]
        ensures { result.now ≡ map (λ e. e.0) self.now }
    {
        self.rows.keys()
    }

    /// Lends the keys and the rows. Never allocates.
    pub fn rows(&self) -> RecordRows<'_>
        ensures { result ≡ self.now }
    {
        let (keys, rows) = self.rows.keys_and_rows();
        RecordRows { keys, rows }
    }

    /// What the record has under the key: a row, or that there was none. The outer `None` means that it does not have
    /// the key. Never allocates, and makes as many looks as the number of keys has binary digits.
    pub fn held(&self, key: RowKey) -> Option<Option<&Row>>
        ensures { option_map option_copied result ≡ held self.now key }
    {
        match self.rows.keys().binary_search(&key) {
            Ok(place) => Some(decode_slot(key, &self.rows.rows()[place])),
            Err(_) => None,
        }
    }
}

/// The keys and the rows of a record, lent without the form in which it keeps them. So a walk over all of them finds
/// out the form only once.
#[derive(Drop)]
pub struct RecordRows<'a> {
    keys: &'a [RowKey],
    rows: &'a [Row],
}

impl<'a> Model for RecordRows<'a> {
    ghost use Rattle.std.specs.Prelude.{List, Option};
    ghost use Rattle.zt_rows.specs.declared.keys.RowKey.{RowKey};
    ghost use Rattle.zt_rows.specs.declared.rows.Row.{Row};
    ghost use Rattle.zt_store.specs.ProofsOnly.RecordRows.{IsSlotRecord};
    ghost use Rattle.zt_store.specs.ProofsOnly.KeptRows.{pairs_of};

    ghost Value = { List (RowKey × Option Row) };

    ghost view = { λ r. pairs_of r.keys.now r.rows.now };

    ghost invariant = { λ r. IsSlotRecord r.keys.now r.rows.now };
}

impl<'a> RecordRows<'a> {
    /// How many keys there are. Never allocates.
    pub fn len(&self) -> usize
        ensures { result ≡ length self.now }
    {
        self.keys.len()
    }

    /// The key at the place. Never allocates.
    #[inline(always)]
    pub fn key(&self, place: usize) -> RowKey
        requires { place < length self.now }
        ensures { option_map (λ e. e.0) (slice_get self.now place) ≡ Some result }
    {
        let keys = self.keys;
        keys[place]
    }

    /// The row under the key at the place, or `None` if there was none. Never allocates.
    #[inline(always)]
    pub fn row(&self, place: usize) -> Option<&'a Row>
        requires { place < length self.now }
        ensures row { option_map (λ e. e.1) (slice_get self.now place) ≡ Some (option_copied result) }
        ensures held { (key : RowKey) → option_map (λ e. e.0) (slice_get self.now place) ≡ Some key → held self.now key ≡ Some (option_copied result) }
    {
        let (keys, rows) = (self.keys, self.rows);
        decode_slot(keys[place], &rows[place])
    }
}

/// Room for a record that is still to be made, used if the allocation of the record fails: empty lists, or none yet.
/// Beside it stand the places of the rows that come into the record.
#[derive(Drop)]
pub(crate) struct RecordLists {
    alloc: Global,
    lists: Option<Box<RowLists>>,
    order: Vec<usize>,
    /// How many rows there is room for in all of these.
    room: usize,
}

impl Model for RecordLists {
    ghost use Rattle.std.specs.Prelude.{ℕ, vec_capacity};
    ghost use Rattle.zt_store.specs.ProofsOnly.KeptRows.{AreRoomy};

    ghost Value = { ℕ };

    ghost view = { λ r. r.room };

    ghost invariant = { λ r. AreRoomy r.room r.lists (vec_capacity r.order) };
}

impl RecordLists {
    /// Room for no row.
    pub(crate) fn new(alloc: Global) -> RecordLists {
        RecordLists {
            alloc,
            lists: None,
            order: Vec::new(alloc),
            room: 0,
        }
    }

    /// Makes room for so many rows. If an allocation fails, the room that was there stays.
    #[inline(always)]
    pub(crate) fn grow_to(&mut self, count: usize) -> Result<(), AllocError>
        ensures ok { OnOk result (count ≤ self.new) }
        ensures kept { self.old ≤ self.new }
    {
        if count <= self.room {
            Ok(())
        } else {
            self.widen_to(count)
        }
    }

    /// Makes room for so many rows when there is less. If an allocation fails, the room that was there stays.
    #[inline(never)]
    fn widen_to(&mut self, count: usize) -> Result<(), AllocError>
        requires { self.old ≤ count }
        ensures ok { OnOk result (count ≤ self.new) }
        ensures kept { self.old ≤ self.new }
    {
        self.order.clear();
        self.order.reserve(count)?;
        let places = self.order.capacity();
        let rows = grow_lists(self.alloc, &mut self.lists, count)?;
        self.room = rows.min(places);
        Ok(())
    }

    /// Makes the record of those before-images of a step that differ from the rows now, in memory of just their size. It
    /// cannot fail: if an allocation for the record fails, it takes the memory of these lists.
    pub(crate) fn record_of(&mut self, store: &Store, firsts: &mut BeforeImages) -> Record
        requires room { length firsts.old.rows ≤ self.old }
        requires distinct { IsDistinct rowkey_eq (map (λ e. e.0) (rows_of firsts.old.rows)) }
        requires suited { AllSuit (rows_of firsts.old.rows) }
        requires placed { fits store.now.places (rows_of firsts.old.rows) ≡ true }
        ensures recorded { result ≡ before (with_rows store.now.state (rows_of firsts.old.rows)) store.now.state }
        ensures fits { fits store.now.places result ≡ true }
    {
        find_changed(store, firsts, &mut self.order);
        let rows = match KeptRows::take(self.alloc, firsts, self.order.as_slice()) {
            Ok(rows) => rows,
            Err(_) => {
                self.room = 0;
                give(&mut self.lists, firsts, self.order.as_slice())
            }
        };
        Record { rows }
    }
}

/// Makes room for so many rows in the lists, and returns how many rows there is room for.
fn grow_lists(
    alloc: Global,
    lists: &mut Option<Box<RowLists>>,
    count: usize,
) -> Result<usize, AllocError>
    ensures ok { IfOk result (λ room. (count ≤ room) × (room ≤ room_in lists.new)) }
    ensures kept { room_in lists.old ≤ room_in lists.new }
{
    match lists {
        Some(lists) => {
            lists.grow_to(count)?;
            Ok(lists.room())
        }
        None => {
            let fresh = RowLists::with_room(alloc, count)?;
            let room = fresh.room();
            *lists = Some(fresh);
            Ok(room)
        }
    }
}

/// Takes the rows at these places into the lists, and gives the lists away.
fn give(lists: &mut Option<Box<RowLists>>, firsts: &mut BeforeImages, order: &[usize]) -> KeptRows
    requires order { IsOrder order.now (length firsts.old.rows) }
    requires room { length order.now ≤ room_in lists.old }
    ensures { AreOf (keys_in result) (rows_in result) (picked firsts.old.rows order.now) }
{
    match lists.take() {
        Some(mut lists) => {
            lists.take(firsts, order);
            KeptRows::Many(lists)
        }
        None => KeptRows::NoRow,
    }
}
