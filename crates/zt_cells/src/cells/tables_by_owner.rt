//! Tables by owner: messages by endpoint, packets by port, entries by process.

ghost use Rattle.std.specs.Prelude.{◌≡◌, ◌≤◌, ◌<◌, ◌≢◌, ◌+◌, ◌-◌, ◌^◌, ℕ, List, [], length, vec_len, IfOk, OnOk, OnErr};
ghost use Rattle.std.specs.List.{sum};
ghost use Rattle.std.specs.Option.{option_copied, unwrap_or};
ghost use Rattle.zt_cells.specs.RowSlots.{row_in};
ghost use Rattle.zt_cells.specs.ProofsOnly.NumberedTables.{AreNumbers, numbered, number_of};
ghost use Rattle.zt_cells.specs.ProofsOnly.TablePlaces.{cell_at, lengths, set_at, table, IsNextCell};

use crate::cells::marked_table::MarkedTable;
use crate::limits::MOST_PLACES;
use std::alloc::{AllocError, Global};
use std::marker::Model;
use zt_rows::Row;

/// Tables of places for rows, one for each owner, by koid from 0 on. Only an owner that was to have a place takes
/// memory for a table. Most koids own nothing, and take the four bytes of a number.
#[derive(Drop)]
pub(crate) struct TablesByOwner {
    /// The place of each owner's table in `tables`, or `NO_TABLE`.
    numbers: Vec<u32>,
    tables: Vec<MarkedTable>,
}

/// The number of an owner without a table, which has no places.
const NO_TABLE: u32 = u32::MAX;

impl Model for TablesByOwner {
    ghost use Rattle.std.specs.Prelude.{List, Option, length};
    ghost use Rattle.zt_rows.specs.declared.rows.Row.{Row};
    ghost use Rattle.zt_cells.specs.ProofsOnly.NumberedTables.{AreNumbers, numbered};

    ghost Value = { List (List (Option Row)) };

    ghost view = { λ s. numbered s.numbers.items s.tables.items };

    ghost invariant = { λ s. AreNumbers s.numbers.items (length s.tables.items) };
}

impl TablesByOwner {
    /// No tables. Never allocates.
    #[tactic(auto, using(crate::proofs::NumberLaws::owner_laws))]
    pub fn new(alloc: Global) -> TablesByOwner
        ensures { result ≡ [] }
    {
        TablesByOwner {
            numbers: Vec::new(alloc),
            tables: Vec::new(alloc),
        }
    }

    /// From this owner on, none has a table.
    #[tactic(auto, using(crate::proofs::NumberLaws::owner_laws))]
    pub fn owners(&self) -> usize
        ensures { result ≡ length self.now }
    {
        self.numbers.len()
    }

    /// The owner's table. An owner without one has no places.
    #[inline(always)]
    fn table_of(&self, owner: usize) -> Option<&MarkedTable>
        ensures { unwrap_or (option_copied result) [] ≡ table self.now owner }
    {
        match self.numbers.get(owner) {
            Some(number) => self.tables.get(*number as usize),
            None => None,
        }
    }

    /// How many places the owner has.
    pub fn len_of(&self, owner: usize) -> usize
        ensures { result ≡ length (table self.now owner) }
    {
        match self.table_of(owner) {
            Some(table) => table.len(),
            None => 0,
        }
    }

    /// The row at the owner's place. Never allocates.
    pub fn row(&self, owner: usize, index: usize) -> Option<&Row>
        ensures { option_copied result ≡ cell_at self.now owner index }
    {
        match self.table_of(owner) {
            Some(table) => table.row(index),
            None => None,
        }
    }

    /// The owner's first place, from this one on, that has a row. Never allocates.
    #[inline(always)]
    pub fn next_from(&self, owner: usize, from: u64) -> Option<u64>
        ensures { IsNextCell (table self.now owner) from result }
    {
        match self.table_of(owner) {
            Some(table) => table.next_from(from as usize).map(|index| index as u64),
            None => None,
        }
    }

    /// Exchanges the slot with the one at the owner's place. Either may stand for none. Never allocates.
    #[inline(always)]
    pub fn exchange(&mut self, owner: usize, index: usize, kept: &mut Row)
        requires { index < length (table self.old owner) }
        ensures put { self.new ≡ set_at self.old owner index (row_in kept.old) }
        ensures was { row_in kept.new ≡ cell_at self.old owner index }
    {
        let number = self.numbers[owner] as usize;
        let table = &mut self.tables[number];
        table.exchange(index, kept);
    }

    /// Adds empty places for the owner until it has so many. Fails if an allocation fails, and for owners from 2^48 on.
    /// Fails also beyond 2^32 - 2 places, or 2^32 - 1 tables.
    #[inline(always)]
    pub fn grow(&mut self, owner: usize, len: usize) -> Result<(), AllocError>
        requires { length (table self.old owner) ≤ len }
        ensures cells { (x n : ℕ) → cell_at self.new x n ≡ cell_at self.old x n }
        ensures longer { (x : ℕ) → length (table self.old x) ≤ length (table self.new x) }
        ensures others { (x : ℕ) → x ≢ owner → table self.new x ≡ table self.old x }
        ensures bound { length (table self.new owner) ≤ len }
        ensures ok { OnOk result (length (table self.new owner) ≡ len) }
        ensures counted { OnOk result (sum (lengths self.new) + length (table self.old owner) ≡ sum (lengths self.old) + len) }
        ensures err { OnErr result (sum (lengths self.new) ≡ sum (lengths self.old)) }
    {
        let number = make_table(&mut self.numbers, &mut self.tables, owner)?;
        let table = &mut self.tables[number];
        table.grow(len)
    }

    /// Copies the tables into memory of their own.
    pub fn copy(&self) -> Result<TablesByOwner, AllocError>
        ensures { IfOk result (λ copied. copied ≡ self.now) }
    {
        let numbers = Vec::from_slice(*self.numbers.allocator(), self.numbers.as_slice())?;
        let tables = copy_tables(&self.tables)?;
        Ok(TablesByOwner { numbers, tables })
    }
}

/// The place of the owner's table in `tables`. An owner without a table gets one without places.
#[inline(always)]
fn make_table(
    numbers: &mut Vec<u32>,
    tables: &mut Vec<MarkedTable>,
    owner: usize,
) -> Result<usize, AllocError>
    requires { AreNumbers numbers.old.items (length tables.old.items) }
    ensures numbers { AreNumbers numbers.new.items (length tables.new.items) }
    ensures same { (x : ℕ) → table (numbered numbers.new.items tables.new.items) x ≡ table (numbered numbers.old.items tables.old.items) x }
    ensures at { IfOk result (λ number. number ≡ number_of numbers.new.items owner) }
    ensures there { IfOk result (λ number. number < length tables.new.items) }
{
    if let Some(number) = numbers.get(owner) {
        if *number != NO_TABLE {
            return Ok(*number as usize);
        }
    }
    add_table(numbers, tables, owner)
}

/// Makes a table without places for the owner, which has none. Fails if an allocation fails, for owners from 2^48 on,
/// and beyond 2^32 - 1 tables.
#[inline(never)]
fn add_table(
    numbers: &mut Vec<u32>,
    tables: &mut Vec<MarkedTable>,
    owner: usize,
) -> Result<usize, AllocError>
    requires numbers { AreNumbers numbers.old.items (length tables.old.items) }
    requires none { number_of numbers.old.items owner ≡ NO_TABLE }
    ensures numbers { AreNumbers numbers.new.items (length tables.new.items) }
    ensures same { (x : ℕ) → table (numbered numbers.new.items tables.new.items) x ≡ table (numbered numbers.old.items tables.old.items) x }
    ensures at { IfOk result (λ number. number ≡ number_of numbers.new.items owner) }
    ensures there { IfOk result (λ number. number < length tables.new.items) }
{
    make_number(numbers, owner)?;
    let number = tables.len();
    if number >= NO_TABLE as usize {
        return Err(AllocError);
    }
    let alloc = *tables.allocator();
    tables.push(MarkedTable::new(alloc))?;
    numbers[owner] = number as u32;
    Ok(number)
}

/// Makes a number for the owner: `NO_TABLE`, if it has none yet. Fails if an allocation fails, and for owners from 2^48 on.
fn make_number(numbers: &mut Vec<u32>, owner: usize) -> Result<(), AllocError>
    ensures same { (x : ℕ) → number_of numbers.new.items x ≡ number_of numbers.old.items x }
    ensures there { OnOk result (owner < vec_len numbers.new) }
{
    if owner < numbers.len() {
        return Ok(());
    }
    if owner >= MOST_PLACES as usize {
        return Err(AllocError);
    }
    numbers.resize(owner + 1, NO_TABLE)
}

/// Copies the tables into memory of their own.
fn copy_tables(tables: &Vec<MarkedTable>) -> Result<Vec<MarkedTable>, AllocError>
    ensures { IfOk result (λ copied. copied.items ≡ tables.now.items) }
{
    let mut copied = Vec::with_capacity(*tables.allocator(), tables.len())?;
    for table in tables {
        copied.push(table.copy()?)?;
    }
    Ok(copied)
}
