//! A table: a list of places for rows.

ghost use Rattle.std.specs.Prelude.{◌≡◌, ◌≤◌, ◌<◌, ◌-◌, ◌^◌, ℕ, length, vec_len, IfOk, OnOk, OnErr, slice_set, IsSome, IsTrue, None, [], false};
ghost use Rattle.std.specs.Vec.{vec_capacity};
ghost use Rattle.std.specs.Option.{option_copied};
ghost use Rattle.zt_cells.specs.RowSlots.{row_in};
ghost use Rattle.zt_cells.specs.ProofsOnly.AlikeRows.{AlikeCells};
ghost use Rattle.zt_cells.specs.ProofsOnly.TablePlaces.{cell};

use crate::cells::place::Place;
use std::alloc::{AllocError, Global};
use std::marker::Model;
use zt_rows::{ObjectRow, Row};

/// Places for rows, from 0 on. A place that was made is never given up.
#[derive(Drop)]
pub(crate) struct Table {
    places: Vec<Place>,
}

/// The most places of a table, so that the number of objects plus one fits in 32 bits.
pub(crate) const MOST_IN_TABLE: usize = u32::MAX as usize - 1;

impl Model for Table {
    ghost use Rattle.std.specs.Prelude.{List, Option, length, ◌<◌, ◌-◌, ◌^◌};
    ghost use Rattle.zt_rows.specs.declared.rows.Row.{Row};

    ghost Value = { List (Option Row) };

    ghost view = { λ t. t.places.items };

    ghost invariant = { λ t. length t.places.items < 2 ^ 32 - 1 };
}

impl Table {
    /// A table without places. Never allocates.
    pub fn new(alloc: Global) -> Table
        ensures { result ≡ [] }
    {
        Table {
            places: Vec::new(alloc),
        }
    }

    /// How many places there are.
    pub fn len(&self) -> usize
        ensures { result ≡ length self.now }
    {
        self.places.len()
    }

    pub fn allocator(&self) -> Global {
        *self.places.allocator()
    }

    /// States that there are fewer than 2^32 - 1 places.
    pub fn limits(&self)
        ensures { length self.now < 2 ^ 32 - 1 }
    {
        let _ = &self.places;
    }

    /// The row at the place. Never allocates.
    pub fn row(&self, index: usize) -> Option<&Row>
        ensures { option_copied result ≡ cell self.now index }
    {
        match self.places.get(index) {
            Some(place) => place.row(),
            None => None,
        }
    }

    /// Adds empty places until there are so many. Fails if an allocation fails, and for more than 2^32 - 2 places; the
    /// table is then as it was.
    #[inline(always)]
    pub fn grow(&mut self, len: usize) -> Result<(), AllocError>
        requires { length self.old ≤ len }
        ensures cells { (n : ℕ) → cell self.new n ≡ cell self.old n }
        ensures longer { length self.old ≤ length self.new }
        ensures bound { length self.new ≤ len }
        ensures ok { OnOk result (length self.new ≡ len) }
        ensures err { OnErr result (self.new ≡ self.old) }
    {
        if len > MOST_IN_TABLE {
            return Err(AllocError);
        }
        if len > self.places.capacity() {
            make_room(&mut self.places, len)?;
        }
        while self.places.len() < len {
            self.places.push_reserved(Place::empty());
        }
        Ok(())
    }

    /// Exchanges the slot with the one at the place. Either may stand for none. Never allocates.
    #[inline(always)]
    pub fn exchange(&mut self, index: usize, kept: &mut Row)
        requires { index < length self.old }
        ensures put { self.new ≡ slice_set self.old index (row_in kept.old) }
        ensures was { row_in kept.new ≡ cell self.old index }
    {
        let place = &mut self.places[index];
        place.exchange(kept);
    }

    /// If an object that is alike stands at the place, exchanges the two and returns `true`. Else nothing changes.
    /// Never allocates.
    #[inline(always)]
    pub fn exchange_alike(&mut self, index: usize, object: &mut ObjectRow) -> bool
        requires { index < length self.old }
        ensures done { IsTrue result → AlikeCells self.old self.new index object.old object.new }
        ensures same { result ≡ false → (self.new ≡ self.old) × (object.new ≡ object.old) }
    {
        let place = &mut self.places[index];
        place.exchange_alike(object)
    }

    /// Copies the table into memory of its own.
    pub fn copy(&self) -> Result<Table, AllocError>
        ensures { IfOk result (λ copied. copied ≡ self.now) }
    {
        let mut places = Vec::with_capacity(*self.places.allocator(), self.places.len())?;
        for place in &self.places {
            places.push(place.copy()?)?;
        }
        Ok(Table { places })
    }
}

/// Allocates room for so many places. The first request is for just these, since most queues stay short. Each later one
/// at least doubles the room.
#[inline(never)]
fn make_room(places: &mut Vec<Place>, len: usize) -> Result<(), AllocError>
    requires { vec_len places.old ≤ len }
    ensures same { places.new.items ≡ places.old.items }
    ensures len { vec_len places.new ≡ vec_len places.old }
    ensures room { OnOk result (len ≤ vec_capacity places.new) }
{
    let more = len - places.len();
    if places.is_empty() {
        places.reserve_exact(more)
    } else {
        places.reserve(more)
    }
}
