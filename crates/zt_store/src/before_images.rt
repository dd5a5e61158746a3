//! The before-images of a step: what stood under each key before the step's first put there.

ghost use Rattle.std.specs.Prelude.{◌≡◌, ◌<◌, ◌-◌, ◌^◌, [], length, map, slice_set, IfOk, OnOk, OnErr};
ghost use Rattle.zt_store.specs.ProofsOnly.ChangedRows.{IsOrder, first_at, picked};
ghost use Rattle.zt_store.specs.ProofsOnly.KeptRows.{AreOf};

use crate::arranged_rows::{arrange, numbers};
use crate::kept_rows::RowLists;
use std::alloc::{AllocError, Global};
use std::marker::Model;
use std::mem::swap;
use zt_rows::{Row, RowKey};

/// The before-images of a step, as slots in the order in which they came. Each stands at the place of its key.
#[derive(Drop)]
pub(crate) struct BeforeImages {
    pub(crate) keys: Vec<RowKey>,
    pub(crate) rows: Vec<Row>,
}

impl Model for BeforeImages {
    ghost use Rattle.std.specs.Prelude.{◌≡◌, length, min, vec_capacity};
    ghost use Rattle.std.specs.List.{zip};
    ghost use Rattle.zt_store.specs.ProofsOnly.BeforeImages.{Firsts};

    ghost Value = { Firsts };

    ghost view = { λ f. record {
      rows = zip f.keys.items f.rows.items;
      room = min (vec_capacity f.keys) (vec_capacity f.rows);
    } };

    ghost invariant = { λ f. length f.rows.items ≡ length f.keys.items };
}

impl BeforeImages {
    /// No rows. Never allocates.
    pub fn new(alloc: Global) -> BeforeImages
        ensures { result.rows ≡ [] }
    {
        BeforeImages {
            keys: Vec::new(alloc),
            rows: Vec::new(alloc),
        }
    }

    /// How many rows there are.
    pub fn len(&self) -> usize
        ensures count { result ≡ length self.now.rows }
        ensures few { result < 2 ^ 64 - 1 }
    {
        self.keys.len()
    }

    /// The keys.
    #[inline(always)]
    pub fn keys(&self) -> &[RowKey]
        ensures { result.now ≡ map (λ e. e.0) self.now.rows }
    {
        self.keys.as_slice()
    }

    /// The key at the place.
    #[inline(always)]
    pub fn key(&self, place: usize) -> RowKey
        requires { place < length self.now.rows }
        ensures { result ≡ (first_at self.now.rows place).0 }
    {
        self.keys[place]
    }

    /// The row at the place.
    #[inline(always)]
    pub fn row(&self, place: usize) -> &Row
        requires { place < length self.now.rows }
        ensures { result.now ≡ (first_at self.now.rows place).1 }
    {
        &self.rows[place]
    }

    /// Makes room for one more row.
    #[inline(always)]
    pub fn reserve_one(&mut self) -> Result<(), AllocError>
        ensures same { self.new.rows ≡ self.old.rows }
        ensures ok { OnOk result (length self.new.rows < self.new.room) }
    {
        let count = self.len();
        if count < self.keys.capacity() && count < self.rows.capacity() {
            return Ok(());
        }
        self.widen()
    }

    /// Makes room for one more row when one of the lists is full.
    #[inline(never)]
    fn widen(&mut self) -> Result<(), AllocError>
        ensures same { self.new.rows ≡ self.old.rows }
        ensures ok { OnOk result (length self.new.rows < self.new.room) }
    {
        self.keys.reserve(1)?;
        self.rows.reserve(1)?;
        Ok(())
    }

    /// Exchanges the row at the place, and returns its key.
    #[inline(always)]
    pub fn exchange(&mut self, place: usize, row: &mut Row) -> RowKey
        requires { place < length self.old.rows }
        ensures was { (result, row.new) ≡ first_at self.old.rows place }
        ensures put { self.new.rows ≡ slice_set self.old.rows place (result, row.old) }
    {
        swap(&mut self.rows[place], row);
        self.keys[place]
    }

    /// Removes all rows, and keeps the memory of the lists.
    pub fn clear(&mut self)
        ensures { self.new.rows ≡ [] }
    {
        self.keys.clear();
        self.rows.clear();
    }

    /// Gives away the rows at these places, in this order and with their keys, together with the memory in which they
    /// stand. The other rows are dropped. It allocates for a while, to tell where each row is while rows are moved. If
    /// an allocation fails, nothing changes.
    pub fn give_memory(
        &mut self,
        alloc: Global,
        order: &[usize],
    ) -> Result<Box<RowLists>, AllocError>
        requires { IsOrder order.now (length self.old.rows) }
        ensures ok { IfOk result (λ lists. AreOf lists.value.keys.items lists.value.rows.items (picked self.old.rows order.now)) }
        ensures err { OnErr result (self.new ≡ self.old) }
    {
        let mut standing = numbers(alloc, self.keys.len())?;
        let mut places = numbers(alloc, self.keys.len())?;
        let mut lists = RowLists::empty(alloc)?;
        arrange(
            self.keys.as_mut_slice(),
            self.rows.as_mut_slice(),
            order,
            standing.as_mut_slice(),
            places.as_mut_slice(),
        );
        self.keys.truncate(order.len());
        self.rows.truncate(order.len());
        self.keys.shrink_to_fit();
        self.rows.shrink_to_fit();
        swap(&mut lists.keys, &mut self.keys);
        swap(&mut lists.rows, &mut self.rows);
        Ok(lists)
    }
}
