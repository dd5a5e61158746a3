//! One level of marks: bits in a list of words.

ghost use Rattle.std.specs.Prelude.{◌≡◌, ◌≤◌, ◌<◌, ◌+◌, ◌*◌, ◌/◌, ◌^◌, ◌↔◌, ℕ, [], ◌∷◌, length, max, IfOk, IsTrue, OnOk, OnErr};
ghost use Rattle.std.specs.Int.{bit_at};
ghost use Rattle.std.specs.Option.{MatchOption};
ghost use Rattle.zt_cells.specs.ProofsOnly.MarkedNumbers.{mark, word, IsLowestFrom, IsMarkedAs, IsNextAt, IsNextInWord, IsNextMark, IsWordWith};

use std::alloc::{AllocError, Global};
use std::marker::Model;

/// Marks of numbers from 0 on, a bit for each: 64 to a word.
#[derive(Drop)]
pub(crate) struct MarkWords {
    words: Vec<u64>,
}

/// The most words, so that the numbers of their bits fit a `usize`.
const MOST_WORDS: usize = 1 << 32;

impl Model for MarkWords {
    ghost use Rattle.std.specs.Prelude.{List, ℕ, length, ◌≤◌, ◌^◌};

    ghost Value = { List ℕ };

    ghost view = { λ m. m.words.items };

    ghost invariant = { λ m. length m.words.items ≤ 2 ^ 32 };
}

impl MarkWords {
    /// The marks of this one word.
    pub fn of(alloc: Global, word: u64) -> Result<MarkWords, AllocError>
        ensures { IfOk result (λ words. words ≡ word ∷ []) }
    {
        let mut words = Vec::new(alloc);
        words.push(word)?;
        Ok(MarkWords { words })
    }

    /// How many words there are.
    pub fn len(&self) -> usize
        ensures { result ≡ length self.now }
    {
        self.words.len()
    }

    /// Adds words without marks until there are so many. Fails if an allocation fails, and for more than 2^32 words.
    pub fn grow(&mut self, len: usize) -> Result<(), AllocError>
        ensures same { (k : ℕ) → word self.new k ≡ word self.old k }
        ensures longer { length self.old ≤ length self.new }
        ensures bound { length self.new ≤ max (length self.old) len }
        ensures ok { OnOk result (len ≤ length self.new) }
    {
        if len > MOST_WORDS {
            return Err(AllocError);
        }
        if self.words.len() < len {
            self.words.resize(len, 0)?;
        }
        Ok(())
    }

    /// Marks the number. Returns whether nothing in its word was marked before.
    pub fn mark(&mut self, index: usize) -> bool
        requires { index / 64 < length self.old }
        ensures marked { IsMarkedAs self.old self.new index 1 }
        ensures first { IsTrue result ↔ (word self.old (index / 64) ≡ 0) }
    {
        let word = &mut self.words[index / 64];
        let was = *word;
        *word = with_bit(was, index % 64);
        was == 0
    }

    /// Removes the mark of the number. Returns whether nothing in its word is marked any more.
    pub fn unmark(&mut self, index: usize) -> bool
        requires { index / 64 < length self.old }
        ensures marked { IsMarkedAs self.old self.new index 0 }
        ensures last { IsTrue result ↔ (word self.new (index / 64) ≡ 0) }
        ensures less { word self.new (index / 64) ≤ word self.old (index / 64) }
    {
        let word = &mut self.words[index / 64];
        let left = without_bit(*word, index % 64);
        *word = left;
        left == 0
    }

    /// The first marked number from this one on, in the word of this one.
    pub fn next_in_word(&self, from: usize) -> Option<usize>
        ensures { IsNextInWord self.now from result }
    {
        let place = from / 64;
        match self.words.get(place) {
            Some(word) => match lowest_from(*word, from % 64) {
                Some(bit) => Some(64 * place + bit),
                None => None,
            },
            None => None,
        }
    }

    /// The first marked number of this word, which has one.
    pub fn first_of(&self, place: usize) -> usize
        requires { 0 < word self.now place }
        ensures { IsNextAt self.now (64 * place) result }
    {
        let word = self.words[place];
        64 * place + lowest(word)
    }

    /// The first marked number from this one on. It walks from word to word.
    pub fn next_from(&self, from: usize) -> Option<usize>
        ensures { IsNextMark self.now from result }
    {
        if let Some(index) = self.next_in_word(from) {
            return Some(index);
        }
        for place in from / 64 + 1..self.words.len() {
            if self.words[place] != 0 {
                return Some(self.first_of(place));
            }
        }
        None
    }

    /// Copies the marks into memory of their own.
    pub fn copy(&self) -> Result<MarkWords, AllocError>
        ensures { IfOk result (λ copied. copied ≡ self.now) }
    {
        let words = Vec::from_slice(*self.words.allocator(), self.words.as_slice())?;
        Ok(MarkWords { words })
    }
}

/// The word with this bit set.
pub(crate) fn with_bit(word: u64, bit: usize) -> u64
    requires { bit < 64 }
    ensures { IsWordWith word result bit 1 }
{
    word | 1 << bit
}

/// The word with this bit cleared.
pub(crate) fn without_bit(word: u64, bit: usize) -> u64
    requires { bit < 64 }
    ensures without { IsWordWith word result bit 0 }
    ensures less { result ≤ word }
{
    word & !(1 << bit)
}

/// The place of the lowest bit that is set in the word, which is not 0.
fn lowest(word: u64) -> usize
    requires { 0 < word }
    ensures within { result < 64 }
    ensures set { bit_at word result ≡ 1 }
    ensures first { (i : ℕ) → i < result → bit_at word i ≡ 0 }
{
    word.trailing_zeros() as usize
}

/// The place of the lowest bit that is set in the word, from `low` on.
pub(crate) fn lowest_from(word: u64, low: usize) -> Option<usize>
    requires { low < 64 }
    ensures { MatchOption result
        ((i : ℕ) → low ≤ i → bit_at word i ≡ 0)
        (IsLowestFrom word low) }
{
    let rest = word >> low;
    if rest == 0 {
        None
    } else {
        Some(low + lowest(rest))
    }
}
