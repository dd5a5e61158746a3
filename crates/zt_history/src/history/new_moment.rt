//! The private steps by which a history changes: go to a moment, run a call there, add or drop a moment, add a branch.

ghost use Rattle.std.specs.Prelude.{◌≡◌, ◌<◌, ◌≤◌, ◌-◌, true, Some, None, IsSome, IfOk, IfErr, OnOk, OnErr, length};
ghost use Rattle.zt_rows.specs.Reads.{has_live_process};
ghost use Rattle.zt_rows.specs.declared.calls.Call.{Call};
ghost use Rattle.zt_history.specs.HistoryRefusals.{IsHistoryRefusal, call_under, most_moments};
ghost use Rattle.zt_history.specs.Timeline.{IsMovedAtMost, after_branch, after_call_at, moved_to, unmoved};
ghost use Rattle.zt_history.specs.Tree.{branch_named, last_moment, reply_at, state_at};
ghost use Rattle.zt_history.specs.TreeInvariant.{AreBranches};
ghost use Rattle.zt_history.specs.ProofsOnly.Timeline.{without_moment};

use crate::branches::BranchId;
use crate::history::{History, Undo};
use std::alloc::AllocError;
use zt_bits::Status;
use zt_calls::has_live_process;
use zt_rows::{Call, Koid, LAST_MOMENT, Moment, Refusal, Reply};

impl History {
    /// Moves the store to a moment. Never allocates if the store stands there already. If an allocation fails, the
    /// store stays where it is.
    pub(super) fn stand_at(&mut self, moment: Moment) -> Result<(), AllocError>
        requires { moment ≤ length self.old.tree.made }
        ensures ok { OnOk result (self.new ≡ moved_to self.old moment) }
        ensures err { OnErr result (self.new ≡ unmoved self.old) }
    {
        if moment == self.position() {
            self.forget();
            return Ok(());
        }
        match self.goto(moment) {
            Ok(()) => Ok(()),
            Err(_) => Err(AllocError),
        }
    }

    /// Moves the store to a moment at which the process is to call.
    ///
    /// Errors, in the order of the checks:
    ///
    /// - `Full`, after 1,048,576 moments;
    /// - `NoMoment`, beyond the last moment;
    /// - `OutOfMemory`, if an allocation fails;
    /// - `NoProcess`, if the caller is not a live process there.
    ///
    /// The store then stands where it stood, or at that moment.
    pub(super) fn stand_ready(&mut self, parent: Moment, process: Koid) -> Result<(), Refusal>
        ensures ok { OnOk result (self.new ≡ moved_to self.old parent) }
        ensures few { OnOk result (length self.old.tree.made < most_moments) }
        ensures there { OnOk result (parent ≤ length self.old.tree.made) }
        ensures running { OnOk result (has_live_process (state_at self.old.tree.made parent) process ≡ true) }
        ensures refused { IfErr result (λ given. (call : Call) → IsHistoryRefusal (call_under self.old.tree parent process call) given) }
        ensures err { OnErr result (IsMovedAtMost self.old self.new parent) }
    {
        self.forget();
        if self.last().0 >= LAST_MOMENT {
            return Err(Refusal::Full);
        }
        if parent > self.last() {
            return Err(Refusal::NoMoment);
        }
        self.stand_at(parent)?;
        if !has_live_process(self.store(), process) {
            return Err(Refusal::NoProcess);
        }
        Ok(())
    }

    /// Runs a call of a live process at the position, notes what it did to each object, and adds the new moment. The
    /// store moves to that moment, and no head moves.
    ///
    /// Moves the call out of `call`, so that neither the call nor its reply is copied. If an allocation fails, for the
    /// notes too, nothing changes.
    pub(super) fn grow(&mut self, process: Koid, call: &mut Call) -> Result<(), AllocError>
        requires few { length self.old.tree.made < most_moments }
        requires running { has_live_process (state_at self.old.tree.made self.old.position) process ≡ true }
        ensures grown { OnOk result (self.new ≡ after_call_at self.old self.old.position process call.old) }
        ensures err { OnErr result (self.new ≡ unmoved self.old) }
    {
        call.limits();
        self.undo = Undo::Nothing;
        self.moments.reserve()?;
        let position = self.position;
        let moment = self.moments.next_moment();
        let mut reply = Reply::Status(Status::Ok);
        let mut change = self.store.apply(process, call, &mut reply)?;
        match self.notes.note(moment, &change, self.store.store()) {
            Ok(()) => {
                self.moments
                    .push(position, process, call, &mut reply, change);
                self.position = moment;
                Ok(())
            }
            Err(e) => {
                self.store.swap(&mut change);
                Err(e)
            }
        }
    }

    /// Copies the reply of the last moment, at which the store stands. If an allocation fails, the moment is dropped,
    /// as `drop_moment` does.
    pub(super) fn last_reply(&mut self) -> Result<Reply, AllocError>
        requires there { IsSome (reply_at self.old.tree.made self.old.position) }
        requires some { 0 < last_moment self.old.tree }
        requires last { self.old.position ≡ last_moment self.old.tree }
        requires heads { AreBranches (last_moment self.old.tree - 1) self.old.tree.branches }
        ensures ok { IfOk result (λ reply. Some reply ≡ reply_at self.old.tree.made self.old.position) }
        ensures same { OnOk result (self.new ≡ self.old) }
        ensures err { OnErr result (self.new ≡ without_moment self.old) }
    {
        match self.reply_here() {
            Ok(reply) => Ok(reply),
            Err(e) => {
                self.drop_moment();
                Err(e)
            }
        }
    }

    /// States what holds of the branches of every history.
    pub(super) fn limits(&self)
        ensures { AreBranches (last_moment self.now.tree) self.now.tree.branches }
    {
        let _branches = &self.branches;
    }

    /// Copies the reply of the moment at which the store stands.
    fn reply_here(&self) -> Result<Reply, AllocError>
        requires { IsSome (reply_at self.now.tree.made self.now.position) }
        ensures { IfOk result (λ reply. Some reply ≡ reply_at self.now.tree.made self.now.position) }
    {
        match self.moments.reply(self.position) {
            Some(reply) => Ok(reply.copy()?),
            None => unreachable!(),
        }
    }

    /// Drops the last moment, and moves the store to its parent. The store stands at the moment, and no branch has its
    /// head there. Never allocates.
    pub(super) fn drop_moment(&mut self)
        requires some { 0 < last_moment self.old.tree }
        requires last { self.old.position ≡ last_moment self.old.tree }
        requires heads { AreBranches (last_moment self.old.tree - 1) self.old.tree.branches }
        ensures { self.new ≡ without_moment self.old }
    {
        let last = self.position;
        let parent = self.moments.parent(last);
        self.moments.exchange_record(&mut self.store, last);
        self.moments.drop_last();
        self.notes.drop_last(last);
        self.position = parent;
        self.undo = Undo::Nothing;
    }

    /// Adds a branch of a name that none has. If an allocation fails, nothing changes.
    pub(super) fn add(&mut self, name: &[u8], at: Moment) -> Result<BranchId, AllocError>
        requires free { branch_named self.old.tree.branches name.now ≡ None }
        requires there { at ≤ length self.old.tree.made }
        ensures ok { IfOk result (λ id. id ≡ length self.old.tree.branches) }
        ensures branched { OnOk result (self.new ≡ after_branch self.old name.now at) }
        ensures err { OnErr result (self.new ≡ unmoved self.old) }
    {
        self.undo = Undo::Nothing;
        let id = BranchId(self.branches.len());
        self.branches.add(name, at)?;
        self.undo = Undo::Branch;
        Ok(id)
    }
}
