//! Marks in three levels, for tables of more than 64 places.

ghost use Rattle.std.specs.Prelude.{◌≡◌, ◌≤◌, ◌<◌, ◌*◌, ◌/◌, ℕ, [], ◌∷◌, length, IfOk, OnOk};
ghost use Rattle.zt_cells.specs.ProofsOnly.MarkedNumbers.{mark, AreAbove, IsMarkedAs, IsNextMark};

use crate::cells::mark_words::MarkWords;
use std::alloc::{AllocError, Global};
use std::marker::Model;

/// Marks of numbers in three levels. The lowest level has a bit for each number. Each of the two levels above has a bit for each
/// word of the level below, set if that word is not 0. So the next marked number is found by at most two looks at each of the
/// lower levels, however far it is. Only the top level is walked, and each of its words stands for 64 * 64 * 64 numbers.
#[derive(Drop)]
pub(crate) struct MarkLevels {
    numbers: MarkWords,
    words: MarkWords,
    groups: MarkWords,
}

impl Model for MarkLevels {
    ghost use Rattle.std.specs.Prelude.{List, ℕ};
    ghost use Rattle.zt_cells.specs.ProofsOnly.MarkedNumbers.{AreAbove};

    ghost Value = { List ℕ };

    ghost view = { λ m. m.numbers };

    ghost invariant = { λ m. AreAbove m.words m.numbers × AreAbove m.groups m.words };
}

impl MarkLevels {
    /// The marks of this one word.
    pub fn of(alloc: Global, word: u64) -> Result<MarkLevels, AllocError>
        ensures { IfOk result (λ levels. levels ≡ word ∷ []) }
    {
        let any = word.min(1);
        Ok(MarkLevels {
            numbers: MarkWords::of(alloc, word)?,
            words: MarkWords::of(alloc, any)?,
            groups: MarkWords::of(alloc, any)?,
        })
    }

    /// The number of words of the lowest level.
    pub fn len(&self) -> usize
        ensures { result ≡ length self.now }
    {
        self.numbers.len()
    }

    /// Makes room for the marks of so many numbers.
    pub fn grow(&mut self, len: usize) -> Result<(), AllocError>
        ensures same { (n : ℕ) → mark self.new n ≡ mark self.old n }
        ensures longer { length self.old ≤ length self.new }
        ensures room { OnOk result (len ≤ 64 * length self.new) }
    {
        let words = len / 64 + 1;
        let groups = words / 64 + 1;
        self.groups.grow(groups / 64 + 1)?;
        self.words.grow(groups)?;
        self.numbers.grow(words)
    }

    /// Marks the number.
    pub fn mark(&mut self, index: usize)
        requires { index < 64 * length self.old }
        ensures { IsMarkedAs self.old self.new index 1 }
    {
        let word = index / 64;
        if self.numbers.mark(index) && self.words.mark(word) {
            self.groups.mark(word / 64);
        }
    }

    /// Removes the mark of the number.
    pub fn unmark(&mut self, index: usize)
        requires { index < 64 * length self.old }
        ensures { IsMarkedAs self.old self.new index 0 }
    {
        let word = index / 64;
        if self.numbers.unmark(index) && self.words.unmark(word) {
            self.groups.unmark(word / 64);
        }
    }

    /// The first marked number from this one on.
    pub fn next_from(&self, from: usize) -> Option<usize>
        ensures { IsNextMark self.now from result }
    {
        if let Some(index) = self.numbers.next_in_word(from) {
            return Some(index);
        }
        match next_word(&self.words, &self.groups, from / 64 + 1) {
            Some(word) => Some(self.numbers.first_of(word)),
            None => None,
        }
    }

    /// Copies the marks into memory of their own.
    pub fn copy(&self) -> Result<MarkLevels, AllocError>
        ensures { IfOk result (λ copied. copied ≡ self.now) }
    {
        Ok(MarkLevels {
            numbers: self.numbers.copy()?,
            words: self.words.copy()?,
            groups: self.groups.copy()?,
        })
    }
}

/// The first word, from this one on, in which a number is marked.
fn next_word(words: &MarkWords, groups: &MarkWords, from: usize) -> Option<usize>
    requires { AreAbove groups.now words.now }
    ensures { IsNextMark words.now from result }
{
    if let Some(word) = words.next_in_word(from) {
        return Some(word);
    }
    match groups.next_from(from / 64 + 1) {
        Some(group) => Some(words.first_of(group)),
        None => None,
    }
}
