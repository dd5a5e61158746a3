//! The changes of a history's tree: calls, branches, heads, and taking the last change back.

ghost use Rattle.std.specs.Prelude.{◌≡◌, ◌<◌, ◌≤◌, Some, None, Ok, Err, IsSome, IfOk, IfErr, OnOk, OnErr, length};
ghost use Rattle.zt_rows.specs.declared.calls.Answer.TheVariants as answer;
ghost use Rattle.zt_history.specs.HistoryRefusals.{IsHistoryRefusal, call_on, call_under, branch_on, moment_on};
ghost use Rattle.zt_history.specs.Timeline.{IsAtMost, IsMovedAtMost, after_branch, after_call_at, after_move_head, at_head, point_of, unmoved};
ghost use Rattle.zt_history.specs.Tree.{last_moment, made_by};

use crate::branches::BranchId;
use crate::history::{History, Undo};
use zt_rows::{Call, Koid, Moment, Refusal, Reply};

impl History {
    /// Runs a call of a process at the head of a branch. The head moves to the new moment, and so does the store.
    ///
    /// Errors: `Full` after 1,048,576 moments, `NoProcess` if the caller is not a live process there, `OutOfMemory` if
    /// an allocation fails. Moments and heads are then as before, and the store stands where it stood or at the head.
    pub fn call(
        &mut self,
        id: BranchId,
        process: Koid,
        call: &Call,
    ) -> Result<(Moment, Reply), Refusal>
        requires { id < length self.old.tree.branches }
        ensures ok { IfOk result (λ made. call_on self.old.tree id process call.now ≡ Ok (answer.Called made.0 made.1, self.new.tree)) }
        ensures position { IfOk result (λ made. self.new.position ≡ made.0) }
        ensures before { OnOk result (self.new.before ≡ Some (at_head self.old id)) }
        ensures refused { IfErr result (IsHistoryRefusal (call_on self.old.tree id process call.now)) }
        ensures err { OnErr result (IsAtMost self.old self.new id) }
    {
        let head = self.branches.head(id);
        let made = self.call_at(head, process, call)?;
        self.branches.set_head(id, made.0);
        self.undo = Undo::Call(id);
        Ok(made)
    }

    /// Runs a call of a process at any moment, and moves the store to the new moment. No head moves, and nothing can be
    /// taken back then.
    ///
    /// Errors: `Full` after 1,048,576 moments, `NoMoment` beyond the last moment, `NoProcess` if the caller is not a
    /// live process there, `OutOfMemory` if an allocation fails. Moments and heads are then as before, and the store
    /// stands where it stood or at the parent.
    pub fn call_at(
        &mut self,
        parent: Moment,
        process: Koid,
        call: &Call,
    ) -> Result<(Moment, Reply), Refusal>
        ensures ok { IfOk result (λ made. call_under self.old.tree parent process call.now ≡ Ok (answer.Called made.0 made.1, self.new.tree)) }
        ensures moved { OnOk result (self.new ≡ after_call_at self.old parent process call.now) }
        ensures position { IfOk result (λ made. self.new.position ≡ made.0) }
        ensures refused { IfErr result (IsHistoryRefusal (call_under self.old.tree parent process call.now)) }
        ensures err { OnErr result (IsMovedAtMost self.old self.new parent) }
    {
        self.stand_ready(parent, process)?;
        self.limits();
        {
            let mut equal = call.copy()?;
            self.grow(process, &mut equal)?;
        }
        let reply = self.last_reply()?;
        Ok((self.last(), reply))
    }

    /// Runs a call of a process at any moment as `call_at` does, and keeps the call itself. So neither the call nor its
    /// reply is copied. The errors are those of `call_at`, and the call is then dropped.
    #[inline(always)]
    pub fn take_call_at(
        &mut self,
        parent: Moment,
        process: Koid,
        mut call: Call,
    ) -> Result<Moment, Refusal>
        ensures ok { IfOk result (λ moment. call_under self.old.tree parent process call ≡ Ok (answer.Called moment (made_by self.old.tree.made parent process call).reply, self.new.tree)) }
        ensures moved { OnOk result (self.new ≡ after_call_at self.old parent process call) }
        ensures position { IfOk result (λ moment. self.new.position ≡ moment) }
        ensures refused { IfErr result (IsHistoryRefusal (call_under self.old.tree parent process call)) }
        ensures err { OnErr result (IsMovedAtMost self.old self.new parent) }
    {
        self.stand_ready(parent, process)?;
        self.grow(process, &mut call)?;
        Ok(self.last())
    }

    /// Moves the head of a branch to any moment. The store stays where it is, and nothing can be taken back then. Never
    /// allocates. Error: `NoMoment` beyond the last moment.
    pub fn move_head(&mut self, id: BranchId, moment: Moment) -> Result<(), Refusal>
        requires { id < length self.old.tree.branches }
        ensures moved { OnOk result (self.new ≡ after_move_head self.old id moment) }
        ensures within { OnOk result (moment ≤ last_moment self.old.tree) }
        ensures refused { IfErr result (λ given. moment_on self.old.tree moment ≡ Err given) }
        ensures err { OnErr result (self.new ≡ unmoved self.old) }
    {
        self.undo = Undo::Nothing;
        if moment > self.moments.last() {
            return Err(Refusal::NoMoment);
        }
        self.branches.set_head(id, moment);
        Ok(())
    }

    /// Makes a branch of a name that none has, with its head at a moment. The store stays where it is.
    ///
    /// Errors: `NoMoment` beyond the last moment, `NameTaken` if a branch has the name, `OutOfMemory` if an allocation
    /// fails. The tree is then as before.
    pub fn branch(&mut self, name: &[u8], at: Moment) -> Result<BranchId, Refusal>
        ensures ok { IfOk result (λ id. branch_on self.old.tree name.now at ≡ Ok (id, self.new.tree)) }
        ensures branched { OnOk result (self.new ≡ after_branch self.old name.now at) }
        ensures refused { IfErr result (IsHistoryRefusal (branch_on self.old.tree name.now at)) }
        ensures err { OnErr result (self.new ≡ unmoved self.old) }
    {
        self.forget();
        if at > self.last() {
            return Err(Refusal::NoMoment);
        }
        if self.find(name).is_some() {
            return Err(Refusal::NameTaken);
        }
        Ok(self.add(name, at)?)
    }

    /// Takes back the last `call` or `branch` that was answered. Moments, branches and heads are then those before it.
    /// After a call, the store stands at the head at which the call ran. Never allocates.
    pub fn retract(&mut self)
        requires { IsSome self.old.before }
        ensures back { self.old.before ≡ Some (point_of self.new) }
        ensures done { self.new.before ≡ None }
    {
        let undo = self.undo;
        match undo {
            Undo::Nothing => unreachable!(),
            Undo::Call(id) => {
                let head = self.moments.parent(self.position);
                self.branches.set_head(id, head);
                self.undo = Undo::Nothing;
                self.drop_moment();
            }
            Undo::Branch => {
                self.branches.remove_last();
                self.undo = Undo::Nothing;
            }
        }
    }
}
