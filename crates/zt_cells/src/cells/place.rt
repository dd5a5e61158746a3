//! A place of a table, with a row or none.

ghost use Rattle.std.specs.Prelude.{◌≡◌, IfOk, IsTrue, None, false};
ghost use Rattle.std.specs.Option.{option_copied, is_none};
ghost use Rattle.zt_cells.specs.ProofsOnly.AlikeRows.{AlikePlaces};
ghost use Rattle.zt_cells.specs.RowSlots.{row_in};

use crate::cells::alike_objects::exchange_alike;
use crate::row_slots::{NO_ROW, row_in};
use std::alloc::AllocError;
use std::marker::Model;
use std::mem;
use zt_rows::{ObjectRow, Row};

/// A row or none, kept as a slot. The counters have no place in a table.
#[derive(Drop)]
pub(crate) struct Place {
    held: Row,
}

impl Model for Place {
    ghost use Rattle.std.specs.Prelude.{Option};
    ghost use Rattle.zt_rows.specs.declared.rows.Row.{Row};
    ghost use Rattle.zt_cells.specs.RowSlots.{row_in};

    ghost Value = { Option Row };

    ghost view = { λ p. row_in p.held };
}

impl Place {
    /// A place without a row.
    pub fn empty() -> Place
        ensures { result ≡ None }
    {
        Place { held: NO_ROW }
    }

    /// Whether there is no row.
    #[inline(always)]
    pub fn is_empty(&self) -> bool
        ensures { result ≡ is_none self.now }
    {
        matches!(&self.held, Row::Counters(_))
    }

    /// The row, if there is one.
    #[inline(always)]
    pub fn row(&self) -> Option<&Row>
        ensures { option_copied result ≡ self.now }
    {
        row_in(&self.held)
    }

    /// Exchanges the row, or none, with what this slot stands for.
    #[inline(always)]
    pub fn exchange(&mut self, kept: &mut Row)
        ensures put { self.new ≡ row_in kept.old }
        ensures was { row_in kept.new ≡ self.old }
    {
        mem::swap(&mut self.held, kept);
    }

    /// If an object that is alike stands here, exchanges the two and returns `true`. Else nothing changes.
    #[inline(always)]
    pub fn exchange_alike(&mut self, object: &mut ObjectRow) -> bool
        ensures done { IsTrue result → AlikePlaces self.old self.new object.old object.new }
        ensures same { result ≡ false → (self.new ≡ self.old) × (object.new ≡ object.old) }
    {
        exchange_alike(&mut self.held, object)
    }

    /// Copies the place into memory of its own.
    pub fn copy(&self) -> Result<Place, AllocError>
        ensures { IfOk result (λ copied. copied ≡ self.now) }
    {
        Ok(Place {
            held: self.held.copy()?,
        })
    }
}
