//! A saved tree whose lines are being read.

ghost use Rattle.std.specs.Prelude.{◌≡◌, OnOk};
ghost use Rattle.zt_text.specs.SavedTexts.{bare, add_call, add_branch, add_cursor, next_client, takes_branches, takes_calls};

use std::alloc::{AllocError, Global};
use std::marker::Model;
use zt_rows::{Cursor, Items, Saved, SavedBranch, SavedCall};

/// The moments, branches and cursors of the lines that were read so far.
#[derive(Drop)]
pub struct SavedLists {
    moments: Vec<SavedCall>,
    branches: Vec<SavedBranch>,
    cursors: Vec<Cursor>,
}

impl Model for SavedLists {
    ghost use Rattle.zt_rows.specs.declared.saved.Saved.{Saved};

    ghost Value = { Saved };

    ghost view = { λ t. record { moments = t.moments.items; branches = t.branches.items; cursors = t.cursors.items } };
}

impl SavedLists {
    /// A saved tree without moments, branches and cursors. Never allocates.
    pub fn new(alloc: Global) -> SavedLists
        ensures { result ≡ bare }
    {
        SavedLists {
            moments: Vec::new(alloc),
            branches: Vec::new(alloc),
            cursors: Vec::new(alloc),
        }
    }

    /// Whether the next line may be a moment. It may not after a branch or a cursor.
    pub fn takes_calls(&self) -> bool
        ensures { result ≡ takes_calls self.now }
    {
        self.branches.is_empty() && self.cursors.is_empty()
    }

    /// Whether the next line may be a branch. It may not after a cursor.
    pub fn takes_branches(&self) -> bool
        ensures { result ≡ takes_branches self.now }
    {
        self.cursors.is_empty()
    }

    /// Returns the client of the next cursor, counted from 1.
    pub fn next_client(&self) -> u64
        ensures { result ≡ next_client self.now }
    {
        self.cursors.len() as u64 + 1
    }

    /// Appends a moment.
    pub fn push_call(&mut self, made: SavedCall) -> Result<(), AllocError>
        ensures { OnOk result (self.new ≡ add_call self.old made) }
    {
        self.moments.push(made)?;
        Ok(())
    }

    /// Appends a branch.
    pub fn push_branch(&mut self, branch: SavedBranch) -> Result<(), AllocError>
        ensures { OnOk result (self.new ≡ add_branch self.old branch) }
    {
        self.branches.push(branch)?;
        Ok(())
    }

    /// Appends a cursor.
    pub fn push_cursor(&mut self, cursor: Cursor) -> Result<(), AllocError>
        ensures { OnOk result (self.new ≡ add_cursor self.old cursor) }
    {
        self.cursors.push(cursor)?;
        Ok(())
    }

    /// Returns the saved tree.
    pub fn into_saved(self) -> Saved
        ensures { result ≡ self }
    {
        let SavedLists {
            moments,
            branches,
            cursors,
        } = self;
        Saved {
            moments: Items::new(moments),
            branches: Items::new(branches),
            cursors: Items::new(cursors),
        }
    }
}
