//! The branches of a history: their names and their heads.

ghost use Rattle.std.specs.Prelude.{◌≡◌, ◌<◌, ◌+◌, ◌++◌, ◌∷◌, [], None, IfOk, OnOk, OnErr, IfSome, length};
ghost use Rattle.zt_history.specs.ProofsOnly.Branches.{without_last};
ghost use Rattle.zt_history.specs.Tree.{Branch, branch_named, head_at, headed, name_at, opening_tree};

use indexmap::IndexMap;
use std::alloc::{AllocError, Global};
use std::marker::Model;
use zt_rows::Moment;

/// The number of a branch, in the order in which branches are made. `main` is 0.
#[derive(Clone, Copy, Debug, PartialEq, Eq)]
pub struct BranchId(pub usize);

impl Model for BranchId {
    ghost use Rattle.std.specs.Prelude.{ℕ};

    ghost Value = { ℕ };

    ghost view = { λ b. b.0 };

    ghost inverse = { λ n. record { 0 = n } };
}

/// The names of the branches with their heads, in the order in which they were made.
#[derive(Drop)]
pub(crate) struct Branches {
    heads: IndexMap<Vec<u8>, Moment>,
}

impl Model for Branches {
    ghost use Rattle.std.specs.Prelude.{List};
    ghost use Rattle.zt_history.specs.ProofsOnly.Branches.{branches_by};
    ghost use Rattle.zt_history.specs.Tree.{Branch};

    ghost Value = { List Branch };

    ghost view = { λ b. branches_by (λ name. name.items) b.heads.entries };
}

impl Branches {
    /// The branch `main`, with its head at the opening.
    pub(crate) fn new(alloc: Global) -> Result<Branches, AllocError>
        ensures { IfOk result (λ branches. branches ≡ opening_tree.branches) }
    {
        let mut heads = IndexMap::new(alloc);
        let name = Vec::from_slice(alloc, b"main")?;
        heads.insert(name, Moment(0))?;
        Ok(Branches { heads })
    }

    /// How many branches there are.
    pub(crate) fn len(&self) -> usize
        ensures { result ≡ length self.now }
    {
        self.heads.len()
    }

    /// The branch of the name, or `None`. Never allocates.
    pub(crate) fn find(&self, name: &[u8]) -> Option<BranchId>
        ensures found { result ≡ branch_named self.now name.now }
        ensures within { IfSome result (λ id. id < length self.now) }
    {
        match self.heads.get_index_of(name) {
            Some(number) => Some(BranchId(number)),
            None => None,
        }
    }

    /// The head of a branch. Never allocates.
    pub(crate) fn head(&self, id: BranchId) -> Moment
        requires { id < length self.now }
        ensures { result ≡ head_at self.now id }
    {
        self.heads[id.0]
    }

    /// The name of a branch. Never allocates.
    pub(crate) fn name(&self, id: BranchId) -> &[u8]
        requires { id < length self.now }
        ensures { result.now ≡ name_at self.now id }
    {
        match self.heads.get_index(id.0) {
            Some((name, _)) => name.as_slice(),
            None => unreachable!(),
        }
    }

    /// Moves the head of a branch. Never allocates.
    pub(crate) fn set_head(&mut self, id: BranchId, head: Moment)
        requires { id < length self.old }
        ensures { self.new ≡ headed self.old id head }
    {
        self.heads[id.0] = head;
    }

    /// Adds a branch of a name that none has. If an allocation fails, nothing changes.
    pub(crate) fn add(&mut self, name: &[u8], head: Moment) -> Result<(), AllocError>
        requires { branch_named self.old name.now ≡ None }
        ensures ok { OnOk result (self.new ≡ self.old ++ record { name = name.now; head = head } ∷ []) }
        ensures err { OnErr result (self.new ≡ self.old) }
    {
        let name = Vec::from_slice(*self.heads.allocator(), name)?;
        self.heads.insert(name, head)?;
        Ok(())
    }

    /// Removes the branch that was made last. Never allocates.
    pub(crate) fn remove_last(&mut self)
        requires { 0 < length self.old }
        ensures { self.new ≡ without_last self.old }
    {
        self.heads.pop();
    }
}
