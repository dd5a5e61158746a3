//! The pass of one client of a shared book.

ghost use Rattle.std.specs.Prelude.{◌≡◌, length};
ghost use Rattle.std.specs.Option.{option_map};
ghost use Rattle.zt_shared.specs.Sharing.{row_at};
ghost use Rattle.zt_shared.specs.ClientSlots.{slot_number, slot_rows};

use crate::account::{Naming, PassSide};
use once_cell::race::Note;
use std::marker::{Brand, Model};
use zt_rows::{Answer, Command, Saved};

/// A command of a client, with its answer.
pub type Said = (Command, Answer);

/// Where a log begins: the name of the base cell, which holds the saved tree, and the number of clients.
pub trait Beginning {
    ghost use Rattle.std.specs.Prelude.{ℕ};

    ghost base: { ℕ };

    ghost clients: { ℕ };
}

impl Beginning for Brand {
    ghost base = { 0 };

    ghost clients = { 0 };
}

/// A client's side of its account. Each of the four clients has an account, which is named by a type of its own.
#[derive(Drop)]
pub(crate) enum Slot<A: Naming, B: Naming, C: Naming, D: Naming> {
    First(PassSide<A, Said>),
    Second(PassSide<B, Said>),
    Third(PassSide<C, Said>),
    Fourth(PassSide<D, Said>),
}

/// One client's part of a shared book: the client's number, its answered commands, and where the log begins. The owner of a pass
/// asks for its client.
#[derive(Drop)]
pub struct Pass<A: Naming + Beginning, B: Naming, C: Naming, D: Naming> {
    pub(crate) slot: Slot<A, B, C, D>,
    pub(crate) told: Note<Saved>,
}

impl<A: Naming + Beginning, B: Naming, C: Naming, D: Naming> Model for Pass<A, B, C, D> {
    ghost use Rattle.std.specs.Prelude.{◌≡◌, ◌≤◌, IsSome};
    ghost use Rattle.zt_shared.specs.Sharing.{PassView};
    ghost use Rattle.zt_shared.specs.Sharing.{begun};

    ghost Value = { PassView };

    ghost use Rattle.zt_shared.specs.ClientSlots.{slot_number, slot_rows};

    ghost view = { λ p. record { client = slot_number p.slot; base = begun A.clients p.told.known; rows = slot_rows p.slot } };

    ghost invariant = { λ p. (p.told.cell ≡ A.base) × IsSome p.told.known × (slot_number p.slot ≤ A.clients) };
}

impl<A: Naming + Beginning, B: Naming, C: Naming, D: Naming> Slot<A, B, C, D> {
    /// The rows.
    fn rows(&self) -> &[Said]
        ensures { result.now ≡ slot_rows self.now }
    {
        match self {
            Slot::First(side) => side.rows(),
            Slot::Second(side) => side.rows(),
            Slot::Third(side) => side.rows(),
            Slot::Fourth(side) => side.rows(),
        }
    }

    /// The client's number.
    pub(crate) fn number(&self) -> u8
        ensures { result ≡ slot_number self.now }
    {
        match self {
            Slot::First(_) => 1,
            Slot::Second(_) => 2,
            Slot::Third(_) => 3,
            Slot::Fourth(_) => 4,
        }
    }
}

impl<A: Naming + Beginning, B: Naming, C: Naming, D: Naming> Pass<A, B, C, D> {
    /// Returns the client's number. Never allocates.
    pub fn client(&self) -> u8
        ensures { result ≡ self.now.client }
    {
        self.slot.number()
    }

    /// Returns how many rows the client has. Never allocates.
    pub fn len(&self) -> usize
        ensures { result ≡ length self.now.rows }
    {
        self.slot.rows().len()
    }

    /// Returns the client's row of this number, counted from 1, or `None` for 0 and beyond the last row. Never allocates.
    pub fn row(&self, n: usize) -> Option<(&Command, &Answer)>
        ensures { option_map (λ r. (r.0.now, r.1.now)) result ≡ row_at self.now.rows n }
    {
        if n == 0 {
            return None;
        }
        match self.slot.rows().get(n - 1) {
            Some(row) => Some((&row.0, &row.1)),
            None => None,
        }
    }
}
