//! A shared book: one book under one lock, for up to four clients.

ghost use Rattle.std.specs.Prelude.{◌≡◌, ◌++◌, ◌∷◌, [], IfOk, IfErr, OnErr};
ghost use Rattle.zt_rows.specs.declared.calls.Command.TheVariants as command;
ghost use Rattle.zt_shared.specs.Sharing.{IsAnsweredOnPass, IsRefusedTo, IsPinnedOnPass};

use crate::account::Naming;
use crate::locked_book::LockedBook;
use crate::pass::{Beginning, Pass};
use once_cell::race::Note;
use std::marker::Model;
use std::sync::{Mutex, Wait};
use zt_queries::Frozen;
use zt_rows::{Answer, Command, Refusal, Saved};

/// The part of a shared book that the clients' threads share. Each client asks with its pass.
#[derive(Drop)]
pub struct Shared<A: Naming + Beginning, B: Naming, C: Naming, D: Naming> {
    pub(crate) lock: Mutex<LockedBook<A, B, C, D>>,
}

/// An opened shared book: the part that the clients share, and where its log begins. Its owner lends the shared part to the
/// clients' threads, and closes the book when all passes are back.
#[derive(Drop)]
pub struct OpenedBook<A: Naming + Beginning, B: Naming, C: Naming, D: Naming> {
    pub(crate) shared: Shared<A, B, C, D>,
    pub(crate) told: Note<Saved>,
}

impl<A: Naming + Beginning, B: Naming, C: Naming, D: Naming> Model for OpenedBook<A, B, C, D> {
    ghost use Rattle.std.specs.Prelude.{◌≡◌, IsSome};
    ghost use Rattle.zt_shared.specs.Sharing.{begun};
    ghost use Rattle.zt_shared.specs.OpenedBook.{Opened};

    ghost Value = { Opened };

    ghost view = { λ o. record { base = begun A.clients o.told.known } };

    ghost invariant = { λ o. (o.told.cell ≡ A.base) × IsSome o.told.known };
}

impl<A: Naming + Beginning, B: Naming, C: Naming, D: Naming> OpenedBook<A, B, C, D> {
    /// Returns the part that the clients' threads share.
    pub fn shared(&self) -> &Shared<A, B, C, D> {
        &self.shared
    }
}

impl<A: Naming + Beginning, B: Naming, C: Naming, D: Naming> Shared<A, B, C, D> {
    /// Waits for the lock, and answers a command of the pass's client. The command with its answer is one event of the log, and a
    /// row of the pass. Fails with the book's refusal, or with `OutOfMemory`; then the pass is unchanged.
    pub fn ask<R: Wait>(
        &self,
        rt: &R,
        pass: &mut Pass<A, B, C, D>,
        asked: Command,
    ) -> Result<Answer, Refusal>
        ensures who { pass.new.client ≡ pass.old.client }
        ensures base { pass.new.base ≡ pass.old.base }
        ensures added { IfOk result (λ said. pass.new.rows ≡ pass.old.rows ++ (asked, said) ∷ []) }
        ensures answered { IfOk result (IsAnsweredOnPass pass.new asked) }
        ensures same { OnErr result (pass.new ≡ pass.old) }
        ensures refused { IfErr result (IsRefusedTo pass.old asked) }
    {
        self.lock.lock(rt).ask(pass, asked)
    }

    /// Waits for the lock, pins the position of the pass's client, and copies the history there. The command with its answer is
    /// one event of the log, and a row of the pass. Fails with the book's refusal, or with `OutOfMemory`; then the pass is
    /// unchanged.
    pub fn pin<R: Wait>(
        &self,
        rt: &R,
        pass: &mut Pass<A, B, C, D>,
    ) -> Result<(Answer, Frozen), Refusal>
        ensures who { pass.new.client ≡ pass.old.client }
        ensures base { pass.new.base ≡ pass.old.base }
        ensures added { IfOk result (λ pinned. pass.new.rows ≡ pass.old.rows ++ (command.Pin, pinned.0) ∷ []) }
        ensures answered { IfOk result (λ pinned. IsPinnedOnPass pass.new pinned.0 pinned.1) }
        ensures same { OnErr result (pass.new ≡ pass.old) }
        ensures refused { IfErr result (IsRefusedTo pass.old command.Pin) }
    {
        self.lock.lock(rt).pin(pass)
    }
}
