//! The log of a book: each answered command with its client and its answer, in order.

ghost use Rattle.std.specs.Prelude.{◌≡◌, ◌<◌, ◌++◌, ◌∷◌, [], OnOk, OnErr, length, slice_get};
ghost use Rattle.std.specs.Option.{option_copied};
ghost use Rattle.zt_history.specs.ProofsOnly.Branches.{without_last};

use std::alloc::{AllocError, Global};
use std::marker::Model;
use zt_rows::{Answer, Command};

/// A row of the log: a command, its answer, and the number of the client that asked, counted from 1.
#[derive(Debug, Drop)]
pub struct Recorded {
    pub client: u8,
    pub asked: Command,
    pub answered: Answer,
}

/// The answered commands, in the order in which they were answered.
#[derive(Drop)]
pub struct Log {
    rows: Vec<Recorded>,
}

impl Model for Log {
    ghost use Rattle.std.specs.Prelude.{List};
    ghost use Rattle.zt_book.specs.declared.log.Recorded.{Recorded};

    ghost Value = { List Recorded };

    ghost view = { λ l. l.rows.items };
}

impl Log {
    /// A log without rows.
    pub(crate) fn new(alloc: Global) -> Log
        ensures { result ≡ [] }
    {
        Log {
            rows: Vec::new(alloc),
        }
    }

    /// Returns the number of rows. Never allocates.
    pub fn len(&self) -> usize
        ensures { result ≡ length self.now }
    {
        self.rows.len()
    }

    /// Returns the row of this number, counted from 0, or `None` beyond the last row. Never allocates.
    pub fn row(&self, number: usize) -> Option<&Recorded>
        ensures { option_copied result ≡ slice_get self.now number }
    {
        self.rows.get(number)
    }

    /// Returns all rows, oldest first. Never allocates.
    pub fn rows(&self) -> &[Recorded]
        ensures { result.now ≡ self.now }
    {
        self.rows.as_slice()
    }

    /// Appends a row with copies of the command and the answer. If an allocation fails, the log is unchanged.
    pub(crate) fn add(
        &mut self,
        client: u8,
        asked: &Command,
        answered: &Answer,
    ) -> Result<(), AllocError>
        ensures ok { OnOk result (self.new ≡ self.old ++ record { client = client; asked = asked.now; answered = answered.now } ∷ []) }
        ensures err { OnErr result (self.new ≡ self.old) }
    {
        let asked = asked.copy()?;
        let Ok(answered) = answered.copy() else {
            drop(asked);
            return Err(AllocError);
        };
        self.rows.push(Recorded {
            client,
            asked,
            answered,
        })?;
        Ok(())
    }

    /// Removes the last row. Never allocates.
    pub(crate) fn remove_last(&mut self)
        requires { 0 < length self.old }
        ensures { self.new ≡ without_last self.old }
    {
        drop(self.rows.pop());
    }

    /// Removes all rows. Never allocates.
    pub(crate) fn clear(&mut self)
        ensures { self.new ≡ [] }
    {
        self.rows.clear();
    }
}
