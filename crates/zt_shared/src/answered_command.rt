//! One turn of a client: its command is answered by the book, and added to both sides of its account.

ghost use Rattle.std.specs.Prelude.{◌≡◌, ◌≢◌, ◌≤◌, ◌<◌, ◌++◌, ◌∷◌, [], Ok, Err, IfOk, IfErr, OnOk, OnErr, length};
ghost use Rattle.zt_rows.specs.declared.calls.Command.TheVariants as command;
ghost use Rattle.zt_rows.specs.declared.refusals.Refusal.TheVariants as refusal;
ghost use Rattle.zt_book.specs.Session.{serve, position_of};
ghost use Rattle.zt_book.specs.Log.{standing_of, snapshot_at};
ghost use Rattle.zt_shared.specs.Accounts.{most};
ghost use Rattle.zt_shared.specs.Sharing.{told_to, logged};

use crate::account::{LockSide, Naming, PassSide, Refused};
use crate::pass::Said;
use std::alloc::{AllocError, Global};
use zt_book::Book;
use zt_queries::Frozen;
use zt_rows::{Answer, Command, Refusal};

/// Adds a command with its answer to both sides of an account. If that fails, neither side has it.
fn enter<N: Naming>(
    alloc: Global,
    ours: &mut LockSide<N, Said>,
    mine: &mut PassSide<N, Said>,
    asked: Command,
    said: &Answer,
) -> Result<(), Refused>
    requires room { length ours.old.rows < most }
    ensures ours { OnOk result (ours.new.rows ≡ ours.old.rows ++ (asked, said.now) ∷ []) }
    ensures mine { OnOk result (mine.new.rows ≡ mine.old.rows ++ (asked, said.now) ∷ []) }
    ensures unchanged { OnErr result ((ours.new.rows ≡ ours.old.rows) × (mine.new.rows ≡ mine.old.rows)) }
{
    match row(alloc, asked, said) {
        Ok((shown, row)) => ours.add(mine, shown, row),
        Err(_) => Err(Refused),
    }
}

/// Makes two equal rows of a command and its answer: one for the cell, and one for the pass.
fn row(alloc: Global, asked: Command, said: &Answer) -> Result<(Box<Said>, Said), AllocError>
    ensures shown { IfOk result (λ rows. rows.0.value ≡ (asked, said.now)) }
    ensures row { IfOk result (λ rows. rows.1 ≡ (asked, said.now)) }
{
    let Ok(shown) = shown(alloc, &asked, said) else {
        drop(asked);
        return Err(AllocError);
    };
    let row = answered(asked, said)?;
    Ok((shown, row))
}

/// Makes a row of a command and its answer for a cell.
fn shown(alloc: Global, asked: &Command, said: &Answer) -> Result<Box<Said>, AllocError>
    ensures { IfOk result (λ shown. shown.value ≡ (asked.now, said.now)) }
{
    let row = copied(asked, said)?;
    Ok(Box::new(alloc, row)?)
}

/// Copies a command and its answer.
fn copied(asked: &Command, said: &Answer) -> Result<Said, AllocError>
    ensures { IfOk result (λ row. row ≡ (asked.now, said.now)) }
{
    let asked = asked.copy()?;
    answered(asked, said)
}

/// Pairs the command with a copy of the answer.
fn answered(asked: Command, said: &Answer) -> Result<Said, AllocError>
    ensures { IfOk result (λ row. row ≡ (asked, said.now)) }
{
    match said.copy() {
        Ok(said) => Ok((asked, said)),
        Err(error) => {
            drop(asked);
            Err(error)
        }
    }
}

/// A client's command, which is answered by the book and put into both sides of its account, or refused, where
/// nothing changes. What the book has answered is taken back where the account has no memory for it.
pub(crate) fn turn<N: Naming>(
    alloc: Global,
    book: &mut Book,
    ours: &mut LockSide<N, Said>,
    mine: &mut PassSide<N, Said>,
    client: u8,
    asked: Command,
) -> Result<Answer, Refusal>
    requires numbered { 1 ≤ client }
    requires known { client ≤ length book.old.session.clients }
    requires told { ours.old.rows ≡ told_to client book.old.log }
    ensures served { IfOk result (λ said. serve book.old.session client asked ≡ Ok (said, book.new.session)) }
    ensures logged { IfOk result (λ said. book.new.log ≡ logged book.old.log client asked said) }
    ensures ours { IfOk result (λ said. ours.new.rows ≡ ours.old.rows ++ (asked, said) ∷ []) }
    ensures mine { IfOk result (λ said. mine.new.rows ≡ mine.old.rows ++ (asked, said) ∷ []) }
    ensures clients { length book.new.session.clients ≡ length book.old.session.clients }
    ensures refused { IfErr result (λ why. why ≢ refusal.OutOfMemory → serve book.old.session client asked ≡ Err why) }
    ensures same { OnErr result ((standing_of book.new ≡ standing_of book.old) × (ours.new.rows ≡ ours.old.rows) × (mine.new.rows ≡ mine.old.rows)) }
{
    let Ok(()) = ours.reserve(mine) else {
        drop(asked);
        return Err(Refusal::OutOfMemory);
    };
    let said = book.serve(client, &asked)?;
    book.rows_are_counted();
    match enter(alloc, ours, mine, asked, &said) {
        Ok(()) => Ok(said),
        Err(_) => {
            drop(said);
            book.take_back();
            Err(Refusal::OutOfMemory)
        }
    }
}

/// As `turn`, of the command that pins.
pub(crate) fn pin_turn<N: Naming>(
    alloc: Global,
    book: &mut Book,
    ours: &mut LockSide<N, Said>,
    mine: &mut PassSide<N, Said>,
    client: u8,
) -> Result<(Answer, Frozen), Refusal>
    requires numbered { 1 ≤ client }
    requires known { client ≤ length book.old.session.clients }
    requires told { ours.old.rows ≡ told_to client book.old.log }
    ensures served { IfOk result (λ pinned. serve book.old.session client command.Pin ≡ Ok (pinned.0, book.new.session)) }
    ensures frozen { IfOk result (λ pinned. pinned.1 ≡ snapshot_at book.old.session.tree (position_of book.old.session client)) }
    ensures logged { IfOk result (λ pinned. book.new.log ≡ logged book.old.log client command.Pin pinned.0) }
    ensures ours { IfOk result (λ pinned. ours.new.rows ≡ ours.old.rows ++ (command.Pin, pinned.0) ∷ []) }
    ensures mine { IfOk result (λ pinned. mine.new.rows ≡ mine.old.rows ++ (command.Pin, pinned.0) ∷ []) }
    ensures clients { length book.new.session.clients ≡ length book.old.session.clients }
    ensures refused { IfErr result (λ why. why ≢ refusal.OutOfMemory → serve book.old.session client command.Pin ≡ Err why) }
    ensures same { OnErr result ((standing_of book.new ≡ standing_of book.old) × (ours.new.rows ≡ ours.old.rows) × (mine.new.rows ≡ mine.old.rows)) }
{
    let Ok(()) = ours.reserve(mine) else {
        return Err(Refusal::OutOfMemory);
    };
    let (said, frozen) = book.pin(client)?;
    book.rows_are_counted();
    match enter(alloc, ours, mine, Command::Pin, &said) {
        Ok(()) => Ok((said, frozen)),
        Err(_) => {
            drop(said);
            drop(frozen);
            book.take_back();
            Err(Refusal::OutOfMemory)
        }
    }
}
