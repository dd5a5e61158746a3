//! The forms of the lines of each answer.

ghost use Rattle.std.specs.Prelude.{◌≡◌};
ghost use Rattle.zt_json.specs.ProofsOnly.Done.{Gives, GivesWord};
ghost use Rattle.zt_json.specs.Lines.{called, called_alone, replied, values_made, call_line, change_line, event_line, is_support, is_happening, when_line, support_line, object_line, message_line, branch_line, summary_line, alive_line};
ghost use Rattle.zt_json.specs.Made.{first_word};

use crate::calls::{arguments_of, values_of};
use crate::members::Members;
use crate::rows::place_of;
use crate::steps;
use crate::words::Word;
use std::alloc::AllocError;

/// Whether a line that begins with this word tells what keeps an object.
#[tactic(auto, unfolding(crate::specs::Lines::is_support))]
fn is_support(word: &str) -> bool
    ensures { result ≡ is_support word.now }
{
    word == "entry" || word == "message" || word == "child" || word == "self"
}

/// Whether a line that begins with this word tells when something happened to an object.
#[tactic(auto, unfolding(crate::specs::Lines::is_happening))]
fn is_happening(word: &str) -> bool
    ensures { result ≡ is_happening word.now }
{
    word == "made" || word == "ended" || word == "peer_closed" || word == "leaked"
}

impl<'a> Members<'a> {
    /// Reads a call, and returns its name.
    fn call(&mut self) -> Result<Option<&'a str>, AllocError>
        ensures { GivesWord result (called self.old) self.new }
    {
        if !self.perform_all(&steps::CALLER)? {
            return Ok(None);
        }
        let Some(name) = self.word(Word::Call)? else {
            return Ok(None);
        };
        self.begin_within(Word::Args)?;
        if !self.perform_all(arguments_of(name))? {
            return Ok(None);
        }
        self.end()?;
        Ok(Some(name))
    }

    /// Reads a call whose name does not matter.
    pub fn call_alone(&mut self) -> Result<bool, AllocError>
        ensures { Gives result (called_alone self.old) self.new }
    {
        Ok(self.call()?.is_some())
    }

    /// Reads the values of a call of this name behind its status.
    fn values(&mut self, name: &str, status: &str) -> Result<bool, AllocError>
        ensures { Gives result (values_made name.now status.now self.old) self.new }
    {
        if name == "port_wait" {
            self.packet()
        } else {
            self.perform_all(values_of(name, status))
        }
    }

    /// Reads the reply of a call of this name, from its status on.
    fn reply(&mut self, name: &str) -> Result<bool, AllocError>
        ensures { Gives result (replied name.now self.old) self.new }
    {
        let Some(status) = self.word(Word::Status)? else {
            return Ok(false);
        };
        if self.is_read() {
            return Ok(true);
        }
        self.begin_within(Word::Reply)?;
        if !self.values(name, status)? {
            return Ok(false);
        }
        self.end()?;
        Ok(true)
    }

    /// Reads a line of `calls`.
    pub fn call_line(&mut self) -> Result<bool, AllocError>
        ensures { Gives result (call_line self.old) self.new }
    {
        if !self.perform_all(&steps::MOMENT)? {
            return Ok(false);
        }
        let Some(name) = self.call()? else {
            return Ok(false);
        };
        if !self.exactly(Word::Arrow) {
            return Ok(false);
        }
        self.reply(name)
    }

    /// Reads a line of `changed`.
    pub fn change_line(&mut self) -> Result<bool, AllocError>
        ensures { Gives result (change_line self.old) self.new }
    {
        if !self.text(Word::Change)? {
            return Ok(false);
        }
        self.row()
    }

    /// Reads a line of `events`.
    pub fn event_line(&mut self) -> Result<bool, AllocError>
        ensures { Gives result (event_line self.old) self.new }
    {
        if !self.perform_all(&steps::EVENT)? {
            return Ok(false);
        }
        self.call_alone()
    }

    /// Reads a line that tells when something happened to an object.
    fn when_line(&mut self) -> Result<bool, AllocError>
        ensures { Gives result (when_line self.old) self.new }
    {
        if !self.text(Word::When)? {
            return Ok(false);
        }
        if self.next_is(Word::Never) {
            return self.perform_all(&steps::NEVER);
        }
        if !self.perform_all(&steps::MOMENT)? {
            return Ok(false);
        }
        self.call_alone()
    }

    /// Reads a line that tells what keeps an object.
    fn support_line(&mut self) -> Result<bool, AllocError>
        ensures { Gives result (support_line self.old) self.new }
    {
        let Some(name) = self.word(Word::Support)? else {
            return Ok(false);
        };
        self.perform_all(place_of(name))
    }

    /// Reads a line of `object`.
    pub fn object_line(&mut self) -> Result<bool, AllocError>
        ensures { Gives result (object_line self.old) self.new }
    {
        if self.next_is(Word::Holders) {
            self.perform_all(&steps::HOLDERS)
        } else if is_support(self.first()) {
            self.support_line()
        } else if is_happening(self.first()) {
            self.when_line()
        } else {
            self.row()
        }
    }

    /// Reads a line of `messages`.
    pub fn message_line(&mut self) -> Result<bool, AllocError>
        ensures { Gives result (message_line self.old) self.new }
    {
        if !self.number(Word::Number)? {
            return Ok(false);
        }
        let Some(step) = self.word(Word::Step)? else {
            return Ok(false);
        };
        if step == "message" {
            return self.perform_all(&steps::QUEUED);
        }
        if self.is_read() {
            return Ok(true);
        }
        if !self.perform_all(&steps::MOMENT)? {
            return Ok(false);
        }
        self.call_alone()
    }

    /// Reads a line of `branches`.
    pub fn branch_line(&mut self) -> Result<bool, AllocError>
        ensures { Gives result (branch_line self.old) self.new }
    {
        if !self.perform_all(&steps::BRANCH)? {
            return Ok(false);
        }
        if self.is_read() {
            return Ok(true);
        }
        self.perform_all(&steps::LEAVES)
    }

    /// Reads a line of `summary`.
    pub fn summary_line(&mut self) -> Result<bool, AllocError>
        ensures { Gives result (summary_line self.old) self.new }
    {
        let Some(told) = self.word(Word::Summary)? else {
            return Ok(false);
        };
        if told == "calls" {
            self.perform_all(&steps::CALL_COUNT)
        } else {
            self.perform_all(&steps::FATE)
        }
    }

    /// Reads a line of `alive`.
    pub fn alive_line(&mut self) -> Result<bool, AllocError>
        ensures { Gives result (alive_line self.old) self.new }
    {
        if !self.perform_all(&steps::ALIVE)? {
            return Ok(false);
        }
        self.call_alone()
    }
}
