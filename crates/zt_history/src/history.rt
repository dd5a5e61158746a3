//! The history: a tree of moments, with one store that moves from moment to moment.

ghost use Rattle.std.specs.Prelude.{◌≡◌, ◌<◌, ◌≤◌, ◌-◌, ◌++◌, ◌↔◌, Option, Some, None, Ok, IsTrue, IfOk, IfErr, IfSome, OnOk, OnErr, length, reverse, take, slice_get, is_some};
ghost use Rattle.std.specs.Option.{option_copied, option_map};
ghost use Rattle.zt_rows.specs.declared.calls.Reply.{Reply};
ghost use Rattle.zt_rows.specs.Handles.{next_koid};
ghost use Rattle.zt_rows.specs.Opening.{opening};
ghost use Rattle.zt_rows.specs.Step.{run};
ghost use Rattle.zt_history.specs.Tree.{call_at, reply_at, parent_at, path, end_of, state_at, calls_to, replies_to, head_at, name_at, branch_named};
ghost use Rattle.zt_history.specs.HistoryRefusals.{IsHistoryRefusal, moment_on, most_moments};
ghost use Rattle.zt_history.specs.ProofsOnly.Forks.{IsAbove};
ghost use Rattle.zt_history.specs.Released.{last_released};
ghost use Rattle.zt_history.specs.LostChild.{last_lost_child};
ghost use Rattle.zt_history.specs.RowHappenings.{last_shown};
ghost use Rattle.zt_history.specs.TreeInvariant.{recorded_at, Falls, IsTree};
ghost use Rattle.zt_history.specs.Timeline.{at_opening, moved_to, unmoved, IsPath};

mod new_moment;
mod tree_changes;

use crate::branches::{BranchId, Branches};
use crate::moments::Moments;
use crate::object_notes::{ObjectNotes, Sought};
use crate::row_happenings::RowHappening;
use crate::working_store::WorkingStore;
use std::alloc::{AllocError, Global};
use std::marker::Model;
use zt_rows::{Call, Koid, Moment, Refusal, Reply};
use zt_store::{Record, Store};

/// The last change, if it can be taken back.
#[derive(Clone, Copy)]
enum Undo {
    Nothing,
    /// A call on this branch, which made the last moment.
    Call(BranchId),
    /// A new branch, which is the last one.
    Branch,
}

/// The tree of moments, with a store at one of them, the position.
///
/// Each moment has the record by which the store goes over the call that made it. The record leads back if the moment
/// is on the path to the position, and forth if it is not.
pub struct History {
    store: WorkingStore,
    moments: Moments,
    notes: ObjectNotes,
    branches: Branches,
    position: Moment,
    undo: Undo,
}

/// Drops all parts in one call. So the proof of a function that owns a history does not go through the parts at each
/// exit.
impl Drop for History {
    fn drop(self) {
        let History {
            store: _store,
            moments: _moments,
            notes: _notes,
            branches: _branches,
            position: _position,
            undo: _undo,
        } = self;
    }
}

impl Model for History {
    ghost use Rattle.zt_history.specs.Timeline.{Timeline};
    ghost use Rattle.zt_history.specs.ProofsOnly.KeptHistory.{timeline_of, IsWhole};

    ghost Value = { Timeline };

    ghost view = { λ h. timeline_of (record { made = h.moments.made; branches = h.branches }) h.position h.undo };

    ghost invariant = { λ h. IsWhole h.store h.moments h.notes h.branches h.position h.undo };
}

impl History {
    /// The history at the opening, with the branch `main`.
    pub fn new(alloc: Global) -> Result<History, AllocError>
        ensures { IfOk result (λ history. history ≡ at_opening) }
    {
        let store = WorkingStore::opening(alloc)?;
        let notes = ObjectNotes::new(alloc, store.store())?;
        let moments = Moments::new(alloc)?;
        let branches = Branches::new(alloc)?;
        Ok(History {
            store,
            moments,
            notes,
            branches,
            position: Moment(0),
            undo: Undo::Nothing,
        })
    }

    /// The branch of the name, or `None`. Never allocates.
    pub fn find(&self, name: &[u8]) -> Option<BranchId>
        ensures found { result ≡ branch_named self.now.tree.branches name.now }
        ensures within { IfSome result (λ id. id < length self.now.tree.branches) }
    {
        self.branches.find(name)
    }

    /// The head of a branch. Never allocates.
    pub fn head(&self, id: BranchId) -> Moment
        requires { id < length self.now.tree.branches }
        ensures head { result ≡ head_at self.now.tree.branches id }
        ensures within { result ≤ length self.now.tree.made }
    {
        self.branches.head(id)
    }

    /// The name of a branch. Never allocates.
    pub fn name(&self, id: BranchId) -> &[u8]
        requires { id < length self.now.tree.branches }
        ensures { result.now ≡ name_at self.now.tree.branches id }
    {
        self.branches.name(id)
    }

    /// How many branches there are. Never allocates.
    pub fn branches(&self) -> usize
        ensures { result ≡ length self.now.tree.branches }
    {
        self.branches.len()
    }

    /// The last moment. Never allocates.
    pub fn last(&self) -> Moment
        ensures last { result ≡ length self.now.tree.made }
        ensures few { result ≤ most_moments }
    {
        self.moments.last()
    }

    /// The moment at which the store stands. Never allocates.
    pub fn position(&self) -> Moment
        ensures position { result ≡ self.now.position }
        ensures within { result ≤ length self.now.tree.made }
        ensures tree { IsTree self.now.tree }
    {
        self.position
    }

    /// The store, which is at the position. Running the calls on the path there from the opening gives its rows, and
    /// the replies of the moments on that path. Never allocates.
    pub fn store(&self) -> &Store
        ensures state { result.now.state ≡ state_at self.now.tree.made self.now.position }
        ensures run { (result.now.state, replies_to self.now.tree.made self.now.position) ≡ run opening (calls_to self.now.tree.made self.now.position) }
    {
        self.store.store()
    }

    /// The reply of a moment's call. There is none for the opening, nor beyond the last moment. Never allocates.
    pub fn reply_of(&self, moment: Moment) -> Option<&Reply>
        ensures { option_copied result ≡ reply_at self.now.tree.made moment }
    {
        self.moments.reply(moment)
    }

    /// The call that made a moment, with its process. There is none for the opening, nor beyond the last moment. Never
    /// allocates.
    pub fn call_of(&self, moment: Moment) -> Option<(Koid, &Call)>
        ensures { option_map (λ p. (p.0, p.1.now)) result ≡ call_at self.now.tree.made moment }
    {
        self.moments.call(moment)
    }

    /// The moment at which a moment's call was made. For the opening, and beyond the last moment, it is the opening.
    /// Never allocates.
    pub fn parent_of(&self, moment: Moment) -> Moment
        ensures { result ≡ parent_at self.now.tree.made moment }
    {
        self.moments.parent(moment)
    }

    /// The record of a moment. It has the rows before the moment's call if the moment is on the path to the position,
    /// and the rows after it if not. There is none for the opening, nor beyond the last moment. Never allocates.
    pub fn record_of(&self, moment: Moment) -> Option<&Record>
        ensures { option_copied result ≡ recorded_at self.now.tree.made self.now.position moment }
    {
        self.moments.change(moment)
    }

    /// Whether the last method called with `&mut self` was `call` or `branch` and was not refused, so that `retract`
    /// can take it back. Never allocates.
    pub fn can_retract(&self) -> bool
        ensures { result ≡ is_some self.now.before }
    {
        match self.undo {
            Undo::Nothing => false,
            Undo::Call(_) => true,
            Undo::Branch => true,
        }
    }

    /// How many moments there are on the path to a moment. Never allocates.
    pub fn depth_of(&self, moment: Moment) -> u32
        requires { moment ≤ length self.now.tree.made }
        ensures { result ≡ length (path self.now.tree.made moment) }
    {
        self.moments.depth(moment)
    }

    /// The next koid at a moment: each koid below it, from the root job's on, was given out by then. Never allocates.
    pub fn next_koid_at(&self, moment: Moment) -> Koid
        requires { moment ≤ length self.now.tree.made }
        ensures { result ≡ next_koid (state_at self.now.tree.made moment) }
    {
        self.notes.next_koid(moment)
    }

    /// The last moment on the path to `at` at which this happened to the object. Never allocates.
    ///
    /// Looks at each note of the object until one tells. For each note of this kind it follows as many parents and
    /// jumps as the logarithm of the path's length.
    pub fn last_shown(&self, what: RowHappening, koid: Koid, at: Moment) -> Option<Moment>
        requires { at ≤ length self.now.tree.made }
        ensures { result ≡ last_shown what koid self.now.tree.made at }
    {
        self.notes
            .find(&self.moments, Sought::Shown(what), koid, at)
    }

    /// The last moment on the path to `at` at which an entry or a message lost a name of the object while the object
    /// stayed. Never allocates, and costs as much as `last_shown`.
    pub fn last_released(&self, koid: Koid, at: Moment) -> Option<Moment>
        requires { at ≤ length self.now.tree.made }
        ensures { result ≡ last_released koid self.now.tree.made at }
    {
        self.notes.find(&self.moments, Sought::Released, koid, at)
    }

    /// The last moment on the path to `at` at which the object lost a live child while the object stayed. A live
    /// process or job whose parent it was has then ended or gone. Never allocates, and costs as much as `last_shown`.
    pub fn last_lost_child(&self, koid: Koid, at: Moment) -> Option<Moment>
        requires { at ≤ length self.now.tree.made }
        ensures { result ≡ last_lost_child koid self.now.tree.made at }
    {
        self.notes.find(&self.moments, Sought::LostChild, koid, at)
    }

    /// The moments after the opening up to a moment, in the order of the path. Pass the list to `along` to go there.
    /// Allocates only the list, in one request.
    ///
    /// Errors: `NoMoment` beyond the last moment, `OutOfMemory` if the allocation fails.
    pub fn path(&self, moment: Moment) -> Result<Vec<Moment>, Refusal>
        ensures ok { IfOk result (λ way. way.items ≡ path self.now.tree.made moment) }
        ensures end { IfOk result (λ way. end_of way.items ≡ moment) }
        ensures within { OnOk result (moment_on self.now.tree moment ≡ Ok moment) }
        ensures refused { IfErr result (IsHistoryRefusal (moment_on self.now.tree moment)) }
    {
        self.moments.limits();
        let last = self.last();
        if moment > last {
            return Err(Refusal::NoMoment);
        }
        Ok(self.moments.path(moment)?)
    }

    /// Moves the store to the last moment of a list that `path` gave. It goes back to the last moment that both paths
    /// share, and forth from there. Never allocates, and cannot fail.
    pub fn along(&mut self, way: &[Moment])
        requires { IsPath self.old.tree.made way.now }
        ensures { self.new ≡ moved_to self.old (end_of way.now) }
    {
        let shared = self.back_to(way);
        for place in shared..way.len() {
            self.redo_moment(way[place]);
        }
    }

    /// Moves the store to a moment. This costs the records on the way, and a list of the moments beyond the fork of
    /// both paths.
    ///
    /// Errors: `NoMoment` beyond the last moment, `OutOfMemory` if the list cannot be allocated. The store then stays
    /// where it is.
    pub fn goto(&mut self, moment: Moment) -> Result<(), Refusal>
        ensures ok { OnOk result (self.new ≡ moved_to self.old moment) }
        ensures within { OnOk result (moment_on self.old.tree moment ≡ Ok moment) }
        ensures refused { IfErr result (IsHistoryRefusal (moment_on self.old.tree moment)) }
        ensures err { OnErr result (self.new ≡ unmoved self.old) }
    {
        self.forget();
        if moment > self.last() {
            return Err(Refusal::NoMoment);
        }
        let fork = self.moments.fork(self.position, moment);
        let beyond = self.moments.beyond(fork, moment)?;
        self.retreat(fork);
        self.advance(beyond);
        Ok(())
    }

    /// Makes the last change permanent: nothing can be taken back any more.
    fn forget(&mut self)
        ensures { self.new ≡ unmoved self.old }
    {
        self.undo = Undo::Nothing;
    }

    /// Moves the store back to the last moment that its path shares with this one. Returns how many moments they share.
    fn back_to(&mut self, way: &[Moment]) -> usize
        requires { IsPath self.old.tree.made way.now }
        ensures moved { self.new ≡ moved_to self.old self.new.position }
        ensures within { result ≤ length way.now }
        ensures shared { path self.old.tree.made self.new.position ≡ take result way.now }
        ensures falls { Falls self.old.tree.made }
    {
        self.forget();
        let mut depth = self.depth() as usize;
        while depth > 0 && !is_at(way, depth - 1, self.position()) {
            self.undo_moment();
            depth -= 1;
        }
        depth
    }

    /// Moves the store back to a moment on the path to the position.
    fn retreat(&mut self, moment: Moment)
        requires { IsAbove self.old.tree.made moment self.old.position }
        ensures { self.new ≡ moved_to self.old moment }
    {
        self.forget();
        while self.position() != moment {
            self.undo_moment();
        }
    }

    /// Moves the store forth over the moments of a list, from the last element to the first.
    fn advance(&mut self, mut beyond: Vec<Moment>)
        requires { IsPath self.old.tree.made (path self.old.tree.made self.old.position ++ reverse beyond.items) }
        ensures { self.new ≡ moved_to self.old (end_of (path self.old.tree.made self.old.position ++ reverse beyond.items)) }
    {
        self.moments.limits();
        self.forget();
        while let Some(next) = beyond.pop() {
            self.redo_moment(next);
        }
    }

    /// How many moments there are on the path to the position.
    fn depth(&self) -> u32
        ensures depth { result ≡ length (path self.now.tree.made self.now.position) }
        ensures falls { Falls self.now.tree.made }
    {
        self.moments.limits();
        self.moments.depth(self.position)
    }

    /// Moves the store to the parent of the position.
    fn undo_moment(&mut self)
        requires { 0 < self.old.position }
        ensures { self.new ≡ moved_to self.old (parent_at self.old.tree.made self.old.position) }
    {
        let position = self.position;
        self.moments.exchange_record(&mut self.store, position);
        self.position = self.moments.parent(position);
        self.undo = Undo::Nothing;
    }

    /// Moves the store to a moment whose parent is the position.
    fn redo_moment(&mut self, moment: Moment)
        requires some { 0 < moment }
        requires there { moment ≤ length self.old.tree.made }
        requires next { parent_at self.old.tree.made moment ≡ self.old.position }
        ensures { self.new ≡ moved_to self.old moment }
    {
        self.moments.exchange_record(&mut self.store, moment);
        self.position = moment;
        self.undo = Undo::Nothing;
    }
}

/// Whether the moment stands at the place of the list.
fn is_at(way: &[Moment], place: usize, moment: Moment) -> bool
    ensures { IsTrue result ↔ (slice_get way.now place ≡ Some moment) }
{
    match way.get(place) {
        Some(there) => *there == moment,
        None => false,
    }
}
