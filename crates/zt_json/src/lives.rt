//! The forms of the lines about the life of a handle, and about all handles to an object.

ghost use Rattle.std.specs.Prelude.{◌≡◌, Some, None};
ghost use Rattle.std.specs.Bool.{MatchBool};
ghost use Rattle.zt_json.specs.ProofsOnly.Done.{Gives};
ghost use Rattle.zt_json.specs.Lives.{place, came_from, life_rest, when_moved, life_line, moved_from, lineage_line, skipped, tree_line};

use crate::members::Members;
use crate::rows::place_of;
use crate::steps;
use crate::words::Word;
use std::alloc::AllocError;

impl<'a> Members<'a> {
    /// Reads a place, as an object behind this key.
    fn place(&mut self, key: Word) -> Result<bool, AllocError>
        ensures { Gives result (place key self.old) self.new }
    {
        self.begin_within(key)?;
        let Some(name) = self.word(Word::Place)? else {
            return Ok(false);
        };
        if !self.perform_all(place_of(name))? {
            return Ok(false);
        }
        self.end()?;
        Ok(true)
    }

    /// Reads the place that a handle came from, if there is one.
    fn moved_from(&mut self) -> Result<bool, AllocError>
        ensures { Gives result (moved_from self.old) self.new }
    {
        if !self.next_is(Word::From) {
            return Ok(true);
        }
        if !self.exactly(Word::From) {
            return Ok(false);
        }
        self.place(Word::From)
    }

    /// Reads the place that a handle came from with its rights there, if there is one.
    fn came_from(&mut self) -> Result<bool, AllocError>
        ensures { Gives result (came_from self.old) self.new }
    {
        if !self.next_is(Word::From) {
            return Ok(true);
        }
        if !self.moved_from()? {
            return Ok(false);
        }
        self.perform_all(&steps::RIGHTS_FROM)
    }

    /// Reads a step of a life behind its name.
    fn life_rest(&mut self) -> Result<bool, AllocError>
        ensures { Gives result (life_rest self.old) self.new }
    {
        if !self.place(Word::At)? {
            return Ok(false);
        }
        if !self.perform_all(&steps::RIGHTS)? {
            return Ok(false);
        }
        if !self.came_from()? {
            return Ok(false);
        }
        if self.is_read() {
            return Ok(true);
        }
        self.call_alone()
    }

    /// Reads the moment of a step of a life; `gone` and `held` have none.
    fn when_moved(&mut self) -> Result<bool, AllocError>
        ensures { Gives result (when_moved self.old) self.new }
    {
        if self.next_is(Word::Gone) || self.next_is(Word::Held) {
            return Ok(true);
        }
        self.perform_all(&steps::MOMENT)
    }

    /// Reads a line of `handle`.
    pub fn life_line(&mut self) -> Result<bool, AllocError>
        ensures { Gives result (life_line self.old) self.new }
    {
        if !self.when_moved()? {
            return Ok(false);
        }
        if !self.text(Word::Step)? {
            return Ok(false);
        }
        if self.is_read() {
            return Ok(true);
        }
        self.life_rest()
    }

    /// Reads so many fields, and makes nothing of them.
    #[tactic(auto, using(crate::proofs::SkipLemmas::skipped_some, crate::proofs::SkipLemmas::skipped_none, crate::proofs::SkipLemmas::skipped_all))]
    fn skip(&mut self, count: usize) -> bool
        ensures { MatchBool result (skipped count self.old ≡ Some self.new) (skipped count self.old ≡ None) }
    {
        for _ in 0..count {
            if self.take().is_none() {
                return false;
            }
        }
        true
    }

    /// Reads a line of `lineage` with so many spaces ahead.
    pub fn tree_line(&mut self, spaces: usize) -> Result<bool, AllocError>
        ensures { Gives result (tree_line spaces self.old) self.new }
    {
        if !self.skip(spaces) {
            return Ok(false);
        }
        self.depth(spaces as u64 / 2)?;
        self.lineage_line()
    }

    /// Reads a line of `lineage` behind the spaces ahead of it.
    fn lineage_line(&mut self) -> Result<bool, AllocError>
        ensures { Gives result (lineage_line self.old) self.new }
    {
        if !self.perform_all(&steps::CAME)? {
            return Ok(false);
        }
        if !self.place(Word::At)? {
            return Ok(false);
        }
        if !self.perform_all(&steps::RIGHTS)? {
            return Ok(false);
        }
        if !self.moved_from()? {
            return Ok(false);
        }
        if !self.text(Word::End)? {
            return Ok(false);
        }
        if self.is_read() {
            return Ok(true);
        }
        self.perform_all(&steps::END_MOMENT)
    }
}
