//! The tables of handle entries, four for each process.

ghost use Rattle.std.specs.Prelude.{◌≡◌, ◌≤◌, ◌<◌, ◌↔◌, ◌+◌, ◌-◌, ◌/◌, ◌%◌, ◌*◌, ◌^◌, ℕ, List, [], ◌∷◌, length, map, IfOk, OnOk, OnErr, None, nat_lt};
ghost use Rattle.std.specs.Option.{option_copied};
ghost use Rattle.zt_cells.specs.RowSlots.{row_in};
ghost use Rattle.zt_cells.specs.ProofsOnly.NextValues.{lesser_of, IsNextValue};
ghost use Rattle.zt_cells.specs.ProofsOnly.TablePlaces.{entry, entry_places, entry_table, lengths, set_entry, by_owner, table};
ghost use Rattle.zt_cells.specs.TableSizes.{most_owners, most_places};

use crate::cells::tables_by_owner::TablesByOwner;
use std::alloc::{AllocError, Global};
use std::marker::Model;
use zt_rows::{HandleValue, Koid, Row};

/// The places for the entries of processes. The semantics gives out only the handle values 4n + 3. So the entries stand
/// in four lists of tables, by the remainder of the handle value divided by 4. A table then spends one place on each
/// value that is given out, and entries under other values have places too.
#[derive(Drop)]
pub(crate) struct Entries {
    sizes: [TablesByOwner; 4],
}

impl Model for Entries {
    ghost use Rattle.std.specs.Prelude.{List, Option};
    ghost use Rattle.zt_rows.specs.declared.rows.Row.{Row};
    ghost use Rattle.zt_cells.specs.ProofsOnly.TablePlaces.{IsNarrow};

    ghost Value = { List (List (List (Option Row))) };

    ghost view = { λ e. e.sizes };

    ghost invariant = { λ e. IsNarrow e.sizes };
}

impl Entries {
    /// No entries, and no places for them. Never allocates.
    pub fn new(alloc: Global) -> Entries
        ensures { result ≡ [] ∷ [] ∷ [] ∷ [] ∷ [] }
    {
        Entries {
            sizes: [
                TablesByOwner::new(alloc),
                TablesByOwner::new(alloc),
                TablesByOwner::new(alloc),
                TablesByOwner::new(alloc),
            ],
        }
    }

    /// The row under the process's handle value. Never allocates.
    pub fn row(&self, process: Koid, value: HandleValue) -> Option<&Row>
        ensures { option_copied result ≡ entry self.now process value }
    {
        let by_owner = &self.sizes[remainder(value)];
        by_owner.row(process.0 as usize, quotient(value))
    }

    /// Exchanges the slot with the one under the process's handle value. Either may stand for none. Never allocates.
    pub fn exchange(&mut self, process: Koid, value: HandleValue, kept: &mut Row)
        requires { value / 4 < length (entry_table self.old process value) }
        ensures put { self.new ≡ set_entry self.old process value (row_in kept.old) }
        ensures was { row_in kept.new ≡ entry self.old process value }
    {
        let by_owner = &mut self.sizes[remainder(value)];
        by_owner.exchange(process.0 as usize, quotient(value), kept);
    }

    /// How many places the process has for values with the remainder of this one.
    pub fn len_of(&self, process: Koid, value: HandleValue) -> usize
        ensures { result ≡ length (entry_table self.now process value) }
    {
        let by_owner = &self.sizes[remainder(value)];
        by_owner.len_of(process.0 as usize)
    }

    /// Whether the process has the place of the value.
    pub fn has(&self, process: Koid, value: HandleValue) -> bool
        ensures { result ≡ nat_lt (value / 4) (length (entry_table self.now process value)) }
    {
        quotient(value) < self.len_of(process, value)
    }

    /// Makes empty places for the process, up to that of the value.
    #[inline(always)]
    #[tactic(auto, using(crate::proofs::GridLaws::entry_laws))]
    pub fn grow(&mut self, process: Koid, value: HandleValue) -> Result<(), AllocError>
        requires { length (entry_table self.old process value) ≤ value / 4 }
        ensures entries { (x h : ℕ) → entry self.new x h ≡ entry self.old x h }
        ensures longer { (x h : ℕ) → length (entry_table self.old x h) ≤ length (entry_table self.new x h) }
        ensures ok { OnOk result (length (entry_table self.new process value) ≡ value / 4 + 1) }
        ensures counted { OnOk result (entry_places self.new + length (entry_table self.old process value) ≡ entry_places self.old + (value / 4 + 1)) }
        ensures err { OnErr result (entry_places self.new ≡ entry_places self.old) }
    {
        let len = quotient(value) + 1;
        let by_owner = &mut self.sizes[remainder(value)];
        by_owner.grow(process.0 as usize, len)
    }

    /// The least handle value, from this one on, under which the process has an entry. Never allocates, and does not
    /// walk over values.
    pub fn next_from(&self, process: Koid, from: u64) -> Option<HandleValue>
        ensures { IsNextValue self.now process from (λ r. r < 4) result }
    {
        let mut least = None;
        for remainder in 0..4 {
            let next = self.next_in(process, from, remainder);
            least = lesser(least, next);
        }
        least
    }

    /// The least handle value with this remainder, from `from` on, under which the process has an entry.
    fn next_in(&self, process: Koid, from: u64, remainder: usize) -> Option<HandleValue>
        requires { remainder < 4 }
        ensures { IsNextValue self.now process from (λ r. r ≡ remainder) result }
    {
        let by_owner = &self.sizes[remainder];
        let low = quotient_from(from, remainder as u64);
        match by_owner.next_from(process.0 as usize, low) {
            Some(quotient) => Some(HandleValue((4 * quotient + remainder as u64) as u32)),
            None => None,
        }
    }

    /// States that no entry stands under a number that is no handle value.
    pub fn limits(&self)
        ensures { (x h : ℕ) → 2 ^ 32 ≤ h → entry self.now x h ≡ None }
    {
        let _ = &self.sizes;
    }

    /// From this koid on no process has entries.
    pub fn owners(&self) -> usize
        ensures end { (x h : ℕ) → result ≤ x → entry self.now x h ≡ None }
        ensures places { result ≡ most_owners (map lengths self.now) }
    {
        let mut most = 0;
        for by_owner in &self.sizes {
            most = most.max(by_owner.owners());
        }
        most
    }

    /// From this value on the process has no entry.
    #[tactic(auto, using(crate::proofs::GridLaws::entry_laws))]
    pub fn end_of(&self, process: Koid) -> usize
        requires { entry_places self.now ≤ 2 ^ 48 }
        ensures end { (h : ℕ) → result ≤ h → entry self.now process h ≡ None }
        ensures places { result ≡ 4 * most_places (map lengths self.now) process }
        ensures few { result ≤ 2 ^ 50 }
    {
        let mut most = 0;
        for by_owner in &self.sizes {
            most = most.max(by_owner.len_of(process.0 as usize));
        }
        4 * most
    }

    /// Copies the entries into memory of their own.
    pub fn copy(&self) -> Result<Entries, AllocError>
        ensures { IfOk result (λ copied. copied ≡ self.now) }
    {
        let [zero, one, two, three] = &self.sizes;
        Ok(Entries {
            sizes: [zero.copy()?, one.copy()?, two.copy()?, three.copy()?],
        })
    }
}

fn remainder(value: HandleValue) -> usize
    ensures { result ≡ value % 4 }
{
    (value.0 % 4) as usize
}

fn quotient(value: HandleValue) -> usize
    ensures place { result ≡ value / 4 }
    ensures few { result < 2 ^ 30 }
{
    (value.0 / 4) as usize
}

/// The least n for which 4n + `remainder` is not below `from`.
fn quotient_from(from: u64, remainder: u64) -> u64
    requires { remainder < 4 }
    ensures { (n : ℕ) → (result ≤ n) ↔ (from ≤ 4 * n + remainder) }
{
    if from % 4 <= remainder {
        from / 4
    } else {
        from / 4 + 1
    }
}

/// The lesser of the two values, or the one that is there.
fn lesser(a: Option<HandleValue>, b: Option<HandleValue>) -> Option<HandleValue>
    ensures { result ≡ lesser_of a b }
{
    match (a, b) {
        (Some(a), Some(b)) => Some(a.min(b)),
        (Some(a), None) => Some(a),
        (None, b) => b,
    }
}
