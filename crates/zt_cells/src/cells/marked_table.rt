//! A table of rows that marks which of its places have a row.

ghost use Rattle.std.specs.Prelude.{◌≡◌, ◌≤◌, ◌<◌, ℕ, [], length, IfOk, OnOk, OnErr, slice_set};
ghost use Rattle.std.specs.Option.{option_copied};
ghost use Rattle.zt_cells.specs.RowSlots.{row_in};
ghost use Rattle.zt_cells.specs.ProofsOnly.TablePlaces.{cell, IsNextCell};

use crate::cells::marks::Marks;
use crate::cells::table::{MOST_IN_TABLE, Table};
use std::alloc::{AllocError, Global};
use std::marker::Model;
use zt_rows::Row;

/// A table that marks which of its places have a row. So it finds the next row without a walk over empty places.
#[derive(Drop)]
pub(crate) struct MarkedTable {
    table: Table,
    marks: Marks,
}

impl Model for MarkedTable {
    ghost use Rattle.std.specs.Prelude.{List, Option};
    ghost use Rattle.zt_rows.specs.declared.rows.Row.{Row};
    ghost use Rattle.zt_cells.specs.ProofsOnly.MarkedPlaces.{AreMarks};

    ghost Value = { List (Option Row) };

    ghost view = { λ t. t.table };

    ghost invariant = { λ t. AreMarks t.marks t.table };
}

impl MarkedTable {
    /// A table without places. Never allocates.
    pub fn new(alloc: Global) -> MarkedTable
        ensures { result ≡ [] }
    {
        MarkedTable {
            table: Table::new(alloc),
            marks: Marks::new(),
        }
    }

    /// How many places there are.
    pub fn len(&self) -> usize
        ensures { result ≡ length self.now }
    {
        self.table.len()
    }

    /// The row at the place. Never allocates.
    pub fn row(&self, index: usize) -> Option<&Row>
        ensures { option_copied result ≡ cell self.now index }
    {
        self.table.row(index)
    }

    /// Adds empty places until there are so many. Fails if an allocation fails, and for more than 2^32 - 2 places; the
    /// table is then as it was.
    #[inline(always)]
    pub fn grow(&mut self, len: usize) -> Result<(), AllocError>
        requires { length self.old ≤ len }
        ensures cells { (n : ℕ) → cell self.new n ≡ cell self.old n }
        ensures longer { length self.old ≤ length self.new }
        ensures bound { length self.new ≤ len }
        ensures ok { OnOk result (length self.new ≡ len) }
        ensures err { OnErr result (self.new ≡ self.old) }
    {
        if len > MOST_IN_TABLE {
            return Err(AllocError);
        }
        self.marks.grow(self.table.allocator(), len)?;
        self.table.grow(len)
    }

    /// Exchanges the slot with the one at the place. Either may stand for none. Never allocates.
    pub fn exchange(&mut self, index: usize, kept: &mut Row)
        requires { index < length self.old }
        ensures put { self.new ≡ slice_set self.old index (row_in kept.old) }
        ensures was { row_in kept.new ≡ cell self.old index }
    {
        self.table.exchange(index, kept);
        match self.table.row(index) {
            Some(_) => self.marks.mark(index),
            None => self.marks.unmark(index),
        }
    }

    /// The first place, from this one on, that has a row. Never allocates, and does not walk over places.
    pub fn next_from(&self, from: usize) -> Option<usize>
        ensures { IsNextCell self.now from result }
    {
        self.marks.next_from(from)
    }

    /// Copies the table into memory of its own.
    pub fn copy(&self) -> Result<MarkedTable, AllocError>
        ensures { IfOk result (λ copied. copied ≡ self.now) }
    {
        Ok(MarkedTable {
            table: self.table.copy()?,
            marks: self.marks.copy(self.table.allocator())?,
        })
    }
}
