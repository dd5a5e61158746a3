//! Where the notes of moments end in one list of bytes.

ghost use Rattle.std.specs.Prelude.{◌≡◌, ◌≤◌, [], ◌∷◌, ◌++◌, length, OnOk, OnErr};
ghost use Rattle.zt_text.specs.ProofsOnly.Notes.{end_after};

use std::alloc::{AllocError, Global};
use std::marker::Model;

/// The ends of notes, in their order. Those at the front that are 0 are only counted, so that a text without notes takes no memory.
#[derive(Drop)]
pub struct NoteEnds {
    empty: usize,
    others: Vec<usize>,
}

impl Model for NoteEnds {
    ghost use Rattle.std.specs.Prelude.{ℕ, ◌+◌, ◌<◌, ◌^◌, List, length};
    ghost use Rattle.zt_text.specs.ProofsOnly.Notes.{all_ends};

    ghost Value = { List ℕ };

    ghost view = { λ e. all_ends e.empty e.others.items };

    ghost invariant = { λ e. e.empty + length e.others.items < 2 ^ 64 };
}

impl NoteEnds {
    /// No ends yet. Allocates nothing.
    pub fn new(alloc: Global) -> NoteEnds
        ensures { result ≡ [] }
    {
        NoteEnds {
            empty: 0,
            others: Vec::new(alloc),
        }
    }

    /// How many ends there are.
    #[tactic(auto, using(crate::proofs::PieceLemmas::length_of_all))]
    pub fn len(&self) -> usize
        ensures { result ≡ length self.now }
    {
        self.empty + self.others.len()
    }

    /// Appends an end. An error leaves the ends as they are.
    #[tactic(auto, using(crate::proofs::PieceLemmas::length_of_all, crate::proofs::PieceLemmas::empty_and_one, crate::proofs::PieceLemmas::all_and_one))]
    pub fn push(&mut self, end: usize) -> Result<(), AllocError>
        ensures pushed { OnOk result (self.new ≡ self.old ++ (end ∷ [])) }
        ensures err { OnErr result (self.new ≡ self.old) }
    {
        if self.len() == usize::MAX {
            return Err(AllocError);
        }
        if end == 0 && self.others.is_empty() {
            self.empty += 1;
        } else {
            self.others.push(end)?;
        }
        Ok(())
    }

    /// Returns the end of the first `count` notes.
    #[tactic(auto, using(crate::proofs::PieceLemmas::length_of_all, crate::proofs::PieceLemmas::end_of_empty, crate::proofs::PieceLemmas::end_of_other))]
    pub fn after(&self, count: usize) -> usize
        requires { count ≤ length self.now }
        ensures { result ≡ end_after count 0 self.now }
    {
        if count <= self.empty {
            0
        } else {
            self.others[count - self.empty - 1]
        }
    }

    /// Gives back the memory that holds nothing.
    pub fn shrink_to_fit(&mut self)
        ensures { self.new ≡ self.old }
    {
        self.others.shrink_to_fit();
    }
}
