//! Saved trees: moments, branches and cursors, as they are written down and read again.

ghost use Rattle.std.specs.Prelude.{◌≡◌, IfOk};

use crate::calls::Call;
use crate::items::Items;
use crate::numbers::{Koid, Moment};
use std::alloc::AllocError;

/// How a moment of a saved tree was made: at which moment, by which process, and by which call.
#[derive(Debug, Drop)]
pub struct SavedCall {
    pub parent: Moment,
    pub process: Koid,
    pub call: Call,
}

impl SavedCall {
    /// Copies the saved call into memory of its own.
    pub fn copy(&self) -> Result<SavedCall, AllocError>
        ensures { IfOk result (λ copied. copied ≡ self.now) }
    {
        let call = self.call.copy()?;
        Ok(SavedCall {
            parent: self.parent,
            process: self.process,
            call,
        })
    }
}

/// A branch of a saved tree: its name, and the moment that is its head.
#[derive(Debug, Drop)]
pub struct SavedBranch {
    pub name: Items<u8>,
    pub head: Moment,
}

impl SavedBranch {
    /// Copies the saved branch into memory of its own.
    pub fn copy(&self) -> Result<SavedBranch, AllocError>
        ensures { IfOk result (λ copied. copied ≡ self.now) }
    {
        let name = self.name.copy()?;
        Ok(SavedBranch {
            name,
            head: self.head,
        })
    }
}

/// Where a client of a saved tree stands.
#[derive(Debug, Drop)]
pub enum Cursor {
    /// At the head of the branch of this name, which it follows.
    Follows(Items<u8>),
    /// At a moment, and on no branch.
    At(Moment),
}

impl Cursor {
    /// Copies the cursor into memory of its own.
    pub fn copy(&self) -> Result<Cursor, AllocError>
        ensures { IfOk result (λ copied. copied ≡ self.now) }
    {
        Ok(match self {
            Cursor::Follows(name) => Cursor::Follows(name.copy()?),
            Cursor::At(moment) => Cursor::At(*moment),
        })
    }
}

/// A tree of moments, as it is written down and read again. It is only what somebody wrote: loading it finds out
/// whether there is such a tree.
#[derive(Debug, Drop)]
pub struct Saved {
    /// The moments after the opening. Moment n is the n-th, counted from 1.
    pub moments: Items<SavedCall>,
    /// The branches, in the order in which they were made.
    pub branches: Items<SavedBranch>,
    /// The cursors of the clients 1, 2 and so on.
    pub cursors: Items<Cursor>,
}

impl Saved {
    /// Copies the tree into memory of its own.
    pub fn copy(&self) -> Result<Saved, AllocError>
        ensures { IfOk result (λ copied. copied ≡ self.now) }
    {
        let moments = copied_moments(&self.moments)?;
        let branches = copied_branches(&self.branches)?;
        let cursors = copied_cursors(&self.cursors)?;
        Ok(Saved {
            moments,
            branches,
            cursors,
        })
    }
}

/// Copies the calls of a saved tree into memory of their own.
fn copied_moments(moments: &Items<SavedCall>) -> Result<Items<SavedCall>, AllocError>
    ensures { IfOk result (λ copied. copied ≡ moments.now) }
{
    let mut copied = Vec::with_capacity(moments.allocator(), moments.len())?;
    for saved in moments.as_slice() {
        copied.push(saved.copy()?)?;
    }
    Ok(Items::new(copied))
}

/// Copies the branches of a saved tree into memory of their own.
fn copied_branches(branches: &Items<SavedBranch>) -> Result<Items<SavedBranch>, AllocError>
    ensures { IfOk result (λ copied. copied ≡ branches.now) }
{
    let mut copied = Vec::with_capacity(branches.allocator(), branches.len())?;
    for branch in branches.as_slice() {
        copied.push(branch.copy()?)?;
    }
    Ok(Items::new(copied))
}

/// Copies the cursors into memory of their own.
fn copied_cursors(cursors: &Items<Cursor>) -> Result<Items<Cursor>, AllocError>
    ensures { IfOk result (λ copied. copied ≡ cursors.now) }
{
    let mut copied = Vec::with_capacity(cursors.allocator(), cursors.len())?;
    for cursor in cursors.as_slice() {
        copied.push(cursor.copy()?)?;
    }
    Ok(Items::new(copied))
}
