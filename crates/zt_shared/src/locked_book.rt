//! The part of a shared book that lies under its lock.

ghost use Rattle.std.specs.Prelude.{◌≡◌, ◌≢◌, ◌++◌, ◌∷◌, [], All, Ok, Err, IfOk, IfErr, OnErr, IfSome, IsSome, length};
ghost use Rattle.std.specs.List.{AllByRecursion};
ghost use Rattle.zt_rows.specs.declared.calls.Command.TheVariants as command;
ghost use Rattle.zt_rows.specs.declared.refusals.Refusal.TheVariants as refusal;
ghost use Rattle.zt_book.specs.Session.{serve, position_of};
ghost use Rattle.zt_book.specs.Log.{Replays, IsOf, snapshot_at};
ghost use Rattle.once_cell.specs.Once.{Agrees};
ghost use Rattle.zt_shared.specs.Sharing.{IsPartOf, begun, logged};

use crate::account::{LockSide, Naming};
use crate::answered_command::{pin_turn, turn};
use crate::pass::{Beginning, Pass, Said, Slot};
use once_cell::race::{Note, OnceBox};
use std::alloc::Global;
use std::marker::Model;
use zt_book::Book;
use zt_queries::Frozen;
use zt_rows::{Answer, Command, Refusal, Saved};

/// The book, and the lock's side of each client's account. The rows of an account are its client's rows of the log, in the log's
/// order.
#[derive(Drop)]
pub(crate) struct LockedBook<A: Naming + Beginning, B: Naming, C: Naming, D: Naming> {
    pub(crate) book: Book,
    pub(crate) base: OnceBox<Saved>,
    pub(crate) told: Note<Saved>,
    pub(crate) first: LockSide<A, Said>,
    pub(crate) second: LockSide<B, Said>,
    pub(crate) third: LockSide<C, Said>,
    pub(crate) fourth: LockSide<D, Said>,
    pub(crate) alloc: Global,
}

impl<A: Naming + Beginning, B: Naming, C: Naming, D: Naming> Model for LockedBook<A, B, C, D> {
    ghost use Rattle.once_cell.specs.Once.{cell_name};
    ghost use Rattle.zt_shared.specs.Sharing.{begun};
    ghost use Rattle.zt_shared.specs.LockedBooks.{Shown, IsLockedBook};

    ghost Value = { Shown };

    ghost view = { λ d. record { base = begun A.clients d.told.known; session = d.book.session; log = d.book.log } };

    ghost invariant = { λ d. IsLockedBook A.base A.clients (cell_name d.base) d.told d.book.session d.book.log (record { first = d.first.rows; second = d.second.rows; third = d.third.rows; fourth = d.fourth.rows }) };
}

impl<A: Naming + Beginning, B: Naming, C: Naming, D: Naming> LockedBook<A, B, C, D> {
    /// Shows that the pass is a part of the log. Changes nothing, and never allocates.
    pub(crate) fn agree(&mut self, pass: &mut Pass<A, B, C, D>)
        ensures locked { self.new ≡ self.old }
        ensures pass { pass.new ≡ pass.old }
        ensures part { IsPartOf pass.old self.old.log self.old.session }
    {
        agree_on_base(&mut self.told, &mut pass.told);
        match &mut pass.slot {
            Slot::First(side) => self.first.agree(side),
            Slot::Second(side) => self.second.agree(side),
            Slot::Third(side) => self.third.agree(side),
            Slot::Fourth(side) => self.fourth.agree(side),
        }
    }

    /// Answers a command of the pass's client. It is one event of the one history: one more row of the log and of the pass. If
    /// the command is refused, neither has a new row.
    pub(crate) fn ask(
        &mut self,
        pass: &mut Pass<A, B, C, D>,
        asked: Command,
    ) -> Result<Answer, Refusal>
        ensures served { IfOk result (λ said. serve self.old.session pass.old.client asked ≡ Ok (said, self.new.session)) }
        ensures logged { IfOk result (λ said. self.new.log ≡ logged self.old.log pass.old.client asked said) }
        ensures added { IfOk result (λ said. pass.new.rows ≡ pass.old.rows ++ (asked, said) ∷ []) }
        ensures part { IsPartOf pass.new self.new.log self.new.session }
        ensures begins { self.new.base ≡ self.old.base }
        ensures who { pass.new.client ≡ pass.old.client }
        ensures base { pass.new.base ≡ pass.old.base }
        ensures refused { IfErr result (λ why. why ≢ refusal.OutOfMemory → serve self.old.session pass.old.client asked ≡ Err why) }
        ensures unchanged { OnErr result (self.new ≡ self.old) }
        ensures same { OnErr result (pass.new ≡ pass.old) }
    {
        self.agree(pass);
        match &mut pass.slot {
            Slot::First(side) => turn(self.alloc, &mut self.book, &mut self.first, side, 1, asked),
            Slot::Second(side) => turn(
                self.alloc,
                &mut self.book,
                &mut self.second,
                side,
                2,
                asked,
            ),
            Slot::Third(side) => turn(self.alloc, &mut self.book, &mut self.third, side, 3, asked),
            Slot::Fourth(side) => turn(
                self.alloc,
                &mut self.book,
                &mut self.fourth,
                side,
                4,
                asked,
            ),
        }
    }

    /// Answers `Command::Pin` as `ask` answers a command, and also returns a copy of the history at the client's position.
    pub(crate) fn pin(&mut self, pass: &mut Pass<A, B, C, D>) -> Result<(Answer, Frozen), Refusal>
        ensures served { IfOk result (λ pinned. serve self.old.session pass.old.client command.Pin ≡ Ok (pinned.0, self.new.session)) }
        ensures frozen { IfOk result (λ pinned. pinned.1 ≡ snapshot_at self.old.session.tree (position_of self.old.session pass.old.client)) }
        ensures logged { IfOk result (λ pinned. self.new.log ≡ logged self.old.log pass.old.client command.Pin pinned.0) }
        ensures added { IfOk result (λ pinned. pass.new.rows ≡ pass.old.rows ++ (command.Pin, pinned.0) ∷ []) }
        ensures part { IsPartOf pass.new self.new.log self.new.session }
        ensures begins { self.new.base ≡ self.old.base }
        ensures who { pass.new.client ≡ pass.old.client }
        ensures base { pass.new.base ≡ pass.old.base }
        ensures refused { IfErr result (λ why. why ≢ refusal.OutOfMemory → serve self.old.session pass.old.client command.Pin ≡ Err why) }
        ensures unchanged { OnErr result (self.new ≡ self.old) }
        ensures same { OnErr result (pass.new ≡ pass.old) }
    {
        self.agree(pass);
        match &mut pass.slot {
            Slot::First(side) => pin_turn(self.alloc, &mut self.book, &mut self.first, side, 1),
            Slot::Second(side) => pin_turn(self.alloc, &mut self.book, &mut self.second, side, 2),
            Slot::Third(side) => pin_turn(self.alloc, &mut self.book, &mut self.third, side, 3),
            Slot::Fourth(side) => pin_turn(self.alloc, &mut self.book, &mut self.fourth, side, 4),
        }
    }

    /// Shows that the log begins where this note of the base cell says. Changes nothing, and never allocates.
    pub(crate) fn agree_on_beginning(&mut self, told: &mut Note<Saved>)
        requires cell { told.old.cell ≡ A.base }
        requires known { IsSome told.old.known }
        ensures locked { self.new ≡ self.old }
        ensures told { told.new ≡ told.old }
        ensures base { begun A.clients told.old.known ≡ self.old.base }
    {
        agree_on_base(&mut self.told, told);
    }

    /// Shows that each of the passes is a part of the log. Changes nothing, and never allocates.
    pub(crate) fn agree_with_all(&mut self, passes: &mut Vec<Pass<A, B, C, D>>)
        ensures locked { self.new ≡ self.old }
        ensures passes { passes.new.items ≡ passes.old.items }
        ensures parts { All (λ pass. IsPartOf pass self.old.log self.old.session) passes.old.items }
    {
        for at in 0..passes.len() {
            self.agree(&mut passes[at]);
        }
    }

    /// Returns the book. Its log replays, and each row of the log is of one of the clients. Never allocates.
    pub(crate) fn into_book(self) -> Book
        ensures session { result.session ≡ self.session }
        ensures log { result.log ≡ self.log }
        ensures replays { Replays self.base result.log result.session }
        ensures clients { length result.session.clients ≡ A.clients }
        ensures others { AllByRecursion (IsOf A.clients) result.log }
    {
        let book = self.book;
        book.rows_are_counted();
        book
    }
}

/// Shows that two notes of the base cell know the same saved tree.
fn agree_on_base(ours: &mut Note<Saved>, theirs: &mut Note<Saved>)
    requires { ours.old.cell ≡ theirs.old.cell }
    ensures ours { ours.new ≡ ours.old }
    ensures theirs { theirs.new ≡ theirs.old }
    ensures one { IfSome theirs.old.known (Agrees ours.old.known) }
{
    let other = theirs.again();
    ours.compare(other);
}
