//! Writes a session down as a saved tree.

ghost use Rattle.std.specs.Prelude.{◌≡◌, ◌<◌, ◌++◌, [], ◌∷◌, IfOk, OnOk, length, map};
ghost use Rattle.std.specs.List.{filter_map};
ghost use Rattle.zt_history.specs.Tree.{head_at, name_at};
ghost use Rattle.zt_book.specs.SavedSessions.{saved_branch, saved_call, saved_of_session, saved_place, without_moments};
ghost use Rattle.zt_book.specs.ProofsOnly.SessionState.{IsCursor};
ghost use Rattle.zt_book.specs.ProofsOnly.SavedSessions.{saved_at, saved_client};

use crate::client::Cursor;
use crate::session_state::SessionState;
use std::alloc::{AllocError, Global};
use zt_history::{BranchId, History};
use zt_rows::{Cursor as SavedCursor, Items, Moment, Saved, SavedBranch, SavedCall};

impl SessionState {
    /// Returns the session as a saved tree.
    pub(crate) fn saved(&self) -> Result<Saved, AllocError>
        ensures { IfOk result (λ saved. saved ≡ saved_of_session self.now.session) }
    {
        let moments = saved_moments(*self.clients.allocator(), &self.history)?;
        let Saved {
            moments: _,
            branches,
            cursors,
        } = self.saved_places()?;
        Ok(Saved {
            moments,
            branches,
            cursors,
        })
    }

    /// Returns the session as a saved tree without moments: the branches, and where each client stands.
    pub(crate) fn saved_places(&self) -> Result<Saved, AllocError>
        ensures { IfOk result (λ saved. saved ≡ without_moments (saved_of_session self.now.session)) }
    {
        let alloc = *self.clients.allocator();
        let branches = saved_branches(alloc, &self.history)?;
        let cursors = self.saved_cursors(alloc)?;
        Ok(Saved {
            moments: Items::new(Vec::new(alloc)),
            branches,
            cursors,
        })
    }

    /// Returns where each client stands.
    fn saved_cursors(&self, alloc: Global) -> Result<Items<SavedCursor>, AllocError>
        ensures { IfOk result (λ cursors. cursors ≡ map (saved_client self.now.session.tree) self.now.session.clients) }
    {
        let clients = self.clients();
        let mut cursors = Vec::with_capacity(alloc, clients as usize)?;
        for number in 0..clients {
            let place = saved_place(alloc, &self.history, self.cursor(number + 1))?;
            cursors.push(place)?;
        }
        Ok(Items::new(cursors))
    }
}

/// Returns the parent, process and call of each moment after the opening, in order.
fn saved_moments(alloc: Global, history: &History) -> Result<Items<SavedCall>, AllocError>
    ensures { IfOk result (λ moments. moments ≡ map saved_call history.now.tree.made) }
{
    let last = history.last();
    let mut moments = Vec::with_capacity(alloc, last.0 as usize)?;
    for number in 0..last.0 {
        push_moment(&mut moments, history, Moment(number + 1))?;
    }
    Ok(Items::new(moments))
}

/// Appends a moment's parent, process and call. Appends nothing for the opening and beyond the last moment.
fn push_moment(
    moments: &mut Vec<SavedCall>,
    history: &History,
    moment: Moment,
) -> Result<(), AllocError>
    ensures { OnOk result (moments.new.items ≡ moments.old.items ++ filter_map (saved_at history.now.tree.made) (moment ∷ [])) }
{
    let parent = history.parent_of(moment);
    match history.call_of(moment) {
        Some((process, call)) => {
            let call = call.copy()?;
            moments.push(SavedCall {
                parent,
                process,
                call,
            })?;
            Ok(())
        }
        None => Ok(()),
    }
}

/// Returns the branches in the order in which they were made.
fn saved_branches(alloc: Global, history: &History) -> Result<Items<SavedBranch>, AllocError>
    ensures { IfOk result (λ branches. branches ≡ map saved_branch history.now.tree.branches) }
{
    let many = history.branches();
    let mut branches = Vec::with_capacity(alloc, many)?;
    for number in 0..many {
        let branch = saved_branch(alloc, history, BranchId(number))?;
        branches.push(branch)?;
    }
    Ok(Items::new(branches))
}

/// Returns a branch's name and head.
fn saved_branch(alloc: Global, history: &History, id: BranchId) -> Result<SavedBranch, AllocError>
    requires { id < length history.now.tree.branches }
    ensures name { IfOk result (λ saved. saved.name ≡ name_at history.now.tree.branches id) }
    ensures head { IfOk result (λ saved. saved.head ≡ head_at history.now.tree.branches id) }
{
    let name = Items::new(Vec::from_slice(alloc, history.name(id))?);
    let head = history.head(id);
    Ok(SavedBranch { name, head })
}

/// Returns where a client stands, with a followed branch by its name.
fn saved_place(alloc: Global, history: &History, cursor: Cursor) -> Result<SavedCursor, AllocError>
    requires { IsCursor history.now.tree cursor }
    ensures { IfOk result (λ saved. saved ≡ saved_place history.now.tree.branches cursor) }
{
    match cursor {
        Cursor::Follows(branch) => {
            let name = Vec::from_slice(alloc, history.name(branch))?;
            Ok(SavedCursor::Follows(Items::new(name)))
        }
        Cursor::At(moment) => Ok(SavedCursor::At(moment)),
    }
}
