//! An account: a list of rows that two sides have in common, though only one of the sides is at hand at a time. An account does
//! not depend on what its rows mean.
ghost use Rattle.std.specs.Prelude.{◌≡◌, ℕ, ◌≤◌, ◌<◌, ◌++◌, ◌∷◌, [], length, slice_index, slice_index_or, vec_len, vec_capacity, OnOk, OnErr, IfSome, None, Some};
ghost use Rattle.once_cell.specs.Once.{cell_name, Agrees};
ghost use Rattle.zt_shared.specs.Accounts.{most, cells_of, known_of};

use once_cell::race::{Note, OnceBox};
use std::alloc::{AllocError, Global};
use std::marker::{Brand, Model};
use std::sync::ledger;
use std::sync::ledger::{Book, Ledger, Share};
use zt_rows::CLIENT_ROWS;

/// The name of an account: the ledger's name, and the names of the cells in order.
pub trait Naming: Ledger {
    ghost use Rattle.std.specs.Prelude.{ℕ, List};

    ghost cells: { List ℕ };
}

impl Naming for Brand {
    ghost use Rattle.std.specs.Prelude.{[]};

    ghost cells = { [] };
}

/// An account without rows, before a type names it.
#[derive(Drop)]
pub struct Blank<T> {
    cells: Vec<OnceBox<T>>,
    ledger: ledger::Blank,
}

impl<T> Model for Blank<T> {
    ghost use Rattle.std.specs.Prelude.{◌≡◌, map, length};
    ghost use Rattle.once_cell.specs.Once.{cell_name};
    ghost use Rattle.zt_shared.specs.Accounts.{Unnamed, most};

    ghost Value = { Unnamed };

    ghost view = { λ b. record { ledger = b.ledger.name; cells = map cell_name b.cells.items } };

    ghost invariant = { λ b. (b.ledger.parts ≡ 1) × (length b.cells.items ≡ most) };
}

/// A note in a list. The number gives it a size: a note alone has no bytes, and a list needs items that have some.
#[derive(Drop)]
struct NoteSlot<T> {
    number: usize,
    note: Note<T>,
}

/// The side of the account that lies under a lock. Contracts see its rows, though it does not hold them, and its room.
#[derive(Drop)]
pub struct LockSide<N: Naming, T> {
    cells: Vec<OnceBox<T>>,
    notes: Vec<NoteSlot<T>>,
    book: Book<N>,
}

impl<N: Naming, T> Model for LockSide<N, T> {
    ghost use Rattle.std.specs.Prelude.{◌≡◌, ◌-◌, map, length, vec_len, vec_capacity};
    ghost use Rattle.once_cell.specs.Once.{cell_name};
    ghost use Rattle.zt_shared.specs.Accounts.{Side, KnowsItsRows, known_of, somes};

    ghost Value = { Side T };

    ghost view = { λ k. record { rows = somes (known_of k.notes.items); room = vec_capacity k.notes - vec_len k.notes } };

    ghost invariant = { λ k. (map cell_name k.cells.items ≡ N.cells) × KnowsItsRows N.cells k.notes.items (somes (known_of k.notes.items)) × (k.book.total ≡ length k.notes.items) };
}

/// The side of the account that a client has. Contracts see its rows and its room.
#[derive(Drop)]
pub struct PassSide<N: Naming, T> {
    rows: Vec<T>,
    notes: Vec<NoteSlot<T>>,
    share: Share<N>,
}

impl<N: Naming, T> Model for PassSide<N, T> {
    ghost use Rattle.std.specs.Prelude.{◌≡◌, ◌-◌, length, vec_len, vec_capacity};
    ghost use Rattle.zt_shared.specs.Accounts.{Side, KnowsItsRows, smaller};

    ghost Value = { Side T };

    ghost view = { λ p. record { rows = p.rows.items; room = smaller (vec_capacity p.notes - vec_len p.notes) (vec_capacity p.rows - vec_len p.rows) } };

    ghost invariant = { λ p. KnowsItsRows N.cells p.notes.items p.rows.items × (p.share.parts ≡ 1) × (N.parts ≡ 1) × (p.share.amount ≡ length p.notes.items) };
}

impl<T: Drop> Blank<T> {
    /// Makes an account with `CLIENT_ROWS` empty cells, one for each row that it can take.
    pub fn new(alloc: Global) -> Result<Blank<T>, AllocError> {
        let mut cells = Vec::with_capacity(alloc, CLIENT_ROWS as usize)?;
        for _ in 0..CLIENT_ROWS {
            cells.push(OnceBox::new(alloc))?;
        }
        Ok(Blank {
            cells,
            ledger: ledger::Blank::new(1),
        })
    }

    /// Returns the two sides of the account, under the name that was chosen for it. Never allocates.
    pub fn open<N: Naming>(self, alloc: Global) -> (LockSide<N, T>, PassSide<N, T>)
        requires ledger { self.ledger ≡ N.name }
        requires whole { N.parts ≡ 1 }
        requires cells { self.cells ≡ N.cells }
        ensures lock { result.0.rows ≡ [] }
        ensures pass { result.1.rows ≡ [] }
    {
        let Blank { cells, ledger } = self;
        let (book, share) = ledger.open::<N>();
        (
            LockSide {
                cells,
                notes: Vec::new(alloc),
                book,
            },
            PassSide {
                rows: Vec::new(alloc),
                notes: Vec::new(alloc),
                share,
            },
        )
    }
}

/// A row was not added, because an allocation failed or its cell was not empty.
#[derive(Debug, Drop)]
pub struct Refused;

impl<N: Naming, T: Drop> LockSide<N, T> {
    /// Shows that both sides have the same rows. Changes nothing, and never allocates.
    pub fn agree(&mut self, side: &mut PassSide<N, T>)
        ensures lock { self.new ≡ self.old }
        ensures pass { side.new ≡ side.old }
        ensures same { self.old.rows ≡ side.old.rows }
    {
        self.book.audit(&mut side.share);
        compare_all(&mut self.notes, &mut side.notes);
    }

    /// Allocates room for one more row on both sides. Adding the row then allocates nothing but the row itself. Fails with
    /// `Refused` if an allocation fails.
    pub fn reserve(&mut self, side: &mut PassSide<N, T>) -> Result<(), Refused>
        ensures lock { self.new.rows ≡ self.old.rows }
        ensures pass { side.new.rows ≡ side.old.rows }
        ensures room { OnOk result ((1 ≤ self.new.room) × (1 ≤ side.new.room)) }
    {
        room(&mut self.notes, &mut side.notes, &mut side.rows)
    }

    /// Adds a row to both sides, and puts the equal `shown` into the row's cell. Fails with `Refused` if an allocation fails or
    /// the cell is not empty; then neither side has the row.
    pub fn add(&mut self, side: &mut PassSide<N, T>, shown: Box<T>, row: T) -> Result<(), Refused>
        requires room { length self.old.rows < most }
        requires equal { shown.value ≡ row }
        ensures lock { OnOk result (self.new.rows ≡ self.old.rows ++ row ∷ []) }
        ensures pass { OnOk result (side.new.rows ≡ side.old.rows ++ row ∷ []) }
        ensures unchanged { OnErr result ((self.new.rows ≡ self.old.rows) × (side.new.rows ≡ side.old.rows)) }
    {
        self.book.audit(&mut side.share);
        let Ok(()) = room(&mut self.notes, &mut side.notes, &mut side.rows) else {
            return Err(Refused);
        };
        let at = self.notes.len();
        let Some(mut note) = claim(&self.cells[at], shown) else {
            return Err(Refused);
        };
        self.notes.push_reserved(NoteSlot {
            number: at,
            note: note.again(),
        });
        side.notes.push_reserved(NoteSlot { number: at, note });
        side.rows.push_reserved(row);
        self.book.add(&mut side.share, 1);
        Ok(())
    }
}

impl<N: Naming, T> PassSide<N, T> {
    /// Returns the rows.
    pub fn rows(&self) -> &[T]
        ensures { result.now ≡ self.now.rows }
    {
        self.rows.as_slice()
    }
}

/// Makes room for one more item in each of the three lists.
fn room<T>(
    ours: &mut Vec<NoteSlot<T>>,
    theirs: &mut Vec<NoteSlot<T>>,
    rows: &mut Vec<T>,
) -> Result<(), Refused>
    ensures ours { ours.new.items ≡ ours.old.items }
    ensures theirs { theirs.new.items ≡ theirs.old.items }
    ensures rows { rows.new.items ≡ rows.old.items }
    ensures room_of_ours { OnOk result (vec_len ours.new < vec_capacity ours.new) }
    ensures room_of_theirs { OnOk result (vec_len theirs.new < vec_capacity theirs.new) }
    ensures room_of_rows { OnOk result (vec_len rows.new < vec_capacity rows.new) }
{
    let Ok(()) = ours.try_reserve(1) else {
        return Err(Refused);
    };
    let Ok(()) = theirs.try_reserve(1) else {
        return Err(Refused);
    };
    let Ok(()) = rows.try_reserve(1) else {
        return Err(Refused);
    };
    Ok(())
}

/// Shows that notes of the same cells, in the same order, know the same rows.
fn compare_all<T>(ours: &mut Vec<NoteSlot<T>>, theirs: &mut Vec<NoteSlot<T>>)
    requires many { length ours.old.items ≡ length theirs.old.items }
    requires cells { cells_of ours.old.items ≡ cells_of theirs.old.items }
    ensures ours { ours.new.items ≡ ours.old.items }
    ensures theirs { theirs.new.items ≡ theirs.old.items }
    ensures room_of_ours { vec_capacity ours.new ≡ vec_capacity ours.old }
    ensures room_of_theirs { vec_capacity theirs.new ≡ vec_capacity theirs.old }
    ensures all { (at : ℕ) → at < length ours.old.items → IfSome (slice_index_or (known_of theirs.old.items) at None) (Agrees (slice_index_or (known_of ours.old.items) at None)) }
{
    for at in 0..ours.len() {
        compare(ours, theirs, at);
    }
}

/// Shows that the two notes at this place, which are of one cell, know the same row.
fn compare<T>(ours: &mut Vec<NoteSlot<T>>, theirs: &mut Vec<NoteSlot<T>>, at: usize)
    requires ours { at < length ours.old.items }
    requires theirs { at < length theirs.old.items }
    requires cell { slice_index (cells_of ours.old.items) at ≡ slice_index (cells_of theirs.old.items) at }
    ensures ours { ours.new.items ≡ ours.old.items }
    ensures theirs { theirs.new.items ≡ theirs.old.items }
    ensures room_of_ours { vec_capacity ours.new ≡ vec_capacity ours.old }
    ensures room_of_theirs { vec_capacity theirs.new ≡ vec_capacity theirs.old }
    ensures one { IfSome (slice_index_or (known_of theirs.old.items) at None) (Agrees (slice_index_or (known_of ours.old.items) at None)) }
{
    let mine = &mut ours[at];
    let other = &mut theirs[at];
    let note = other.note.again();
    mine.note.compare(note);
}

/// Sets an empty cell, and returns a note of its content. Returns `None` if the cell is not empty.
pub(crate) fn claim<T: Drop>(cell: &OnceBox<T>, shown: Box<T>) -> Option<Note<T>>
    ensures { IfSome result (λ note. (note.cell ≡ cell_name cell.now) × (note.known ≡ Some shown.value)) }
{
    let mut note = cell.note();
    match cell.set_as(shown, &mut note) {
        Ok(()) => Some(note),
        Err(_) => None,
    }
}
