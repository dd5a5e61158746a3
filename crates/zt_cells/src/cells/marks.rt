//! Marks that tell which places of a table have a row.

ghost use Rattle.std.specs.Prelude.{◌≡◌, ◌≤◌, ◌<◌, ◌*◌, ℕ, [], ◌∷◌, length, IfOk, OnOk};
ghost use Rattle.zt_cells.specs.ProofsOnly.MarkedNumbers.{mark, IsMarkedAs, IsNextMark};
ghost use Rattle.zt_cells.specs.ProofsOnly.WordsOfMarks.{words_in};

use crate::cells::mark_levels::MarkLevels;
use crate::cells::mark_words::{lowest_from, with_bit, without_bit};
use std::alloc::{AllocError, Global};

/// Marks of numbers from 0 on. Most tables are short: the marks of up to 64 numbers take one word and no allocation.
#[derive(Drop)]
pub(crate) enum Marks {
    Few(u64),
    Many(Box<MarkLevels>),
}

impl Marks {
    /// No number is marked. Never allocates.
    pub fn new() -> Marks
        ensures { words_in result ≡ 0 ∷ [] }
    {
        Marks::Few(0)
    }

    /// Makes room for the marks of so many numbers.
    #[inline(always)]
    pub fn grow(&mut self, alloc: Global, len: usize) -> Result<(), AllocError>
        ensures same { (n : ℕ) → mark (words_in self.new) n ≡ mark (words_in self.old) n }
        ensures longer { length (words_in self.old) ≤ length (words_in self.new) }
        ensures room { OnOk result (len ≤ 64 * length (words_in self.new)) }
    {
        match self {
            Marks::Few(_) if len <= 64 => Ok(()),
            Marks::Few(word) => {
                *self = Marks::Many(many_of(alloc, *word, len)?);
                Ok(())
            }
            Marks::Many(levels) if len / 64 < levels.len() => Ok(()),
            Marks::Many(levels) => levels.grow(len),
        }
    }

    /// Marks the number.
    pub fn mark(&mut self, index: usize)
        requires { index < 64 * length (words_in self.old) }
        ensures { IsMarkedAs (words_in self.old) (words_in self.new) index 1 }
    {
        match self {
            Marks::Few(word) => *word = with_bit(*word, index),
            Marks::Many(levels) => levels.mark(index),
        }
    }

    /// Removes the mark of the number.
    pub fn unmark(&mut self, index: usize)
        requires { index < 64 * length (words_in self.old) }
        ensures { IsMarkedAs (words_in self.old) (words_in self.new) index 0 }
    {
        match self {
            Marks::Few(word) => *word = without_bit(*word, index),
            Marks::Many(levels) => levels.unmark(index),
        }
    }

    /// The first marked number from this one on. It looks at a few words, and at one more for each 262,144 numbers between.
    pub fn next_from(&self, from: usize) -> Option<usize>
        ensures { IsNextMark (words_in self.now) from result }
    {
        match self {
            Marks::Few(word) if from < 64 => lowest_from(*word, from),
            Marks::Few(_) => None,
            Marks::Many(levels) => levels.next_from(from),
        }
    }

    /// Copies the marks into memory of their own.
    pub fn copy(&self, alloc: Global) -> Result<Marks, AllocError>
        ensures { IfOk result (λ copied. words_in copied ≡ words_in self.now) }
    {
        match self {
            Marks::Few(word) => Ok(Marks::Few(*word)),
            Marks::Many(levels) => Ok(Marks::Many(Box::new(alloc, levels.copy()?)?)),
        }
    }
}

/// The marks of this word, with room for so many numbers.
#[inline(never)]
fn many_of(alloc: Global, word: u64, len: usize) -> Result<Box<MarkLevels>, AllocError>
    ensures same { IfOk result (λ levels. (n : ℕ) → mark levels.value n ≡ mark (word ∷ []) n) }
    ensures longer { IfOk result (λ levels. 1 ≤ length levels.value) }
    ensures room { IfOk result (λ levels. len ≤ 64 * length levels.value) }
{
    let mut levels = MarkLevels::of(alloc, word)?;
    levels.grow(len)?;
    Ok(Box::new(alloc, levels)?)
}
