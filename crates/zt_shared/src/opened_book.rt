//! Opens a shared book.

ghost use Rattle.std.specs.Prelude.{◌≡◌, ◌≢◌, ◌≤◌, ◌<◌, ◌+◌, ◌++◌, [], Some, IfOk, IfErr, IsErrOf, IsSome, OnOk, ◌↔◌, vec_len, vec_capacity};
ghost use Rattle.once_cell.specs.Once.{cell_name};
ghost use Rattle.zt_rows.specs.declared.refusals.Refusal.TheVariants as refusal;
ghost use Rattle.zt_book.specs.Session.{opening_session};
ghost use Rattle.zt_book.specs.SavedSessions.{saved_of_session};
ghost use Rattle.zt_shared.specs.Sharing.{IsFresh, begun, first_parts};
ghost use Rattle.zt_shared.specs.OpenedBook.{IsNamed};
ghost use Rattle.zt_shared.specs.ProofsOnly.OpenedBook.{part_of};
ghost use Rattle.zt_shared.specs.ClientSlots.{slot_number, slot_rows};

use crate::account::{Blank, Naming, Refused, claim};
use crate::locked_book::LockedBook;
use crate::pass::{Beginning, Pass, Said, Slot};
use crate::shared::{OpenedBook, Shared};
use once_cell::race::{Note, OnceBox};
use std::alloc::{AllocError, Global};
use std::marker::Model;
use std::sync::Mutex;
use zt_book::Book;
use zt_book::laws::what_was_loaded_is_loaded_again;
use zt_rows::{CLIENTS, Refusal, Saved};

/// The parts of a shared book before types name them: an empty base cell, and an account without rows for each of the four
/// clients. There are four accounts even if there are fewer clients.
#[derive(Drop)]
pub struct Blanks {
    clients: u8,
    base: OnceBox<Saved>,
    first: Blank<Said>,
    second: Blank<Said>,
    third: Blank<Said>,
    fourth: Blank<Said>,
}

impl Model for Blanks {
    ghost use Rattle.std.specs.Prelude.{◌≤◌};
    ghost use Rattle.once_cell.specs.Once.{cell_name};
    ghost use Rattle.zt_shared.specs.OpenedBook.{Unopened};

    ghost Value = { Unopened };

    ghost view = { λ b. record { clients = b.clients; base = cell_name b.base; first = b.first; second = b.second; third = b.third; fourth = b.fourth } };

    ghost invariant = { λ b. b.clients ≤ 4 };
}

impl Blanks {
    /// Makes the parts of a shared book with this many clients. Fails with `TooManyClients` above four clients, and with
    /// `OutOfMemory` if an allocation fails.
    pub fn new(alloc: Global, clients: u8) -> Result<Blanks, Refusal>
        ensures clients { IfOk result (λ blanks. blanks.clients ≡ clients) }
        ensures few { OnOk result (clients ≤ 4) }
        ensures too_many { IsErrOf result refusal.TooManyClients ↔ (4 < clients) }
        ensures refusals { IfErr result (λ why. why ≢ refusal.TooManyClients → why ≡ refusal.OutOfMemory) }
    {
        if clients > CLIENTS {
            return Err(Refusal::TooManyClients);
        }
        Ok(empty_accounts(alloc, clients)?)
    }
}

/// Makes a base cell and four accounts, for at most four clients.
fn empty_accounts(alloc: Global, clients: u8) -> Result<Blanks, AllocError>
    requires { clients ≤ 4 }
    ensures { IfOk result (λ blanks. blanks.clients ≡ clients) }
{
    let first = Blank::new(alloc)?;
    let second = Blank::new(alloc)?;
    let third = Blank::new(alloc)?;
    let fourth = Blank::new(alloc)?;
    Ok(Blanks {
        clients,
        base: OnceBox::new(alloc),
        first,
        second,
        third,
        fourth,
    })
}

/// Opens a shared book at the opening, with a pass for each client, in order of their numbers. Its only error is `OutOfMemory`.
pub fn open<A: Naming + Beginning, B: Naming, C: Naming, D: Naming>(
    alloc: Global,
    blanks: Blanks,
) -> Result<(OpenedBook<A, B, C, D>, Vec<Pass<A, B, C, D>>), Refusal>
    requires base { (blanks.base ≡ A.base) × (blanks.clients ≡ A.clients) }
    requires first { IsNamed A.name A.parts A.cells blanks.first }
    requires second { IsNamed B.name B.parts B.cells blanks.second }
    requires third { IsNamed C.name C.parts C.cells blanks.third }
    requires fourth { IsNamed D.name D.parts D.cells blanks.fourth }
    ensures base { IfOk result (λ opened. opened.0.base ≡ opening_session blanks.clients) }
    ensures passes { IfOk result (λ opened. opened.1.items ≡ first_parts blanks.clients (opening_session blanks.clients)) }
    ensures refused { IfErr result (λ why. why ≡ refusal.OutOfMemory) }
{
    let Ok(book) = Book::new(alloc, blanks.clients) else {
        drop(blanks);
        return Err(Refusal::OutOfMemory);
    };
    match open_book::<A, B, C, D>(alloc, blanks, book) {
        Ok(opened) => Ok(opened),
        Err((_, why)) => Err(why),
    }
}

/// Opens a shared book over a book whose clients were answered nothing yet, with a pass for each client, in order of their
/// numbers. Its only error is `OutOfMemory`, which returns the book unchanged.
pub fn open_book<A: Naming + Beginning, B: Naming, C: Naming, D: Naming>(
    alloc: Global,
    blanks: Blanks,
    book: Book,
) -> Result<(OpenedBook<A, B, C, D>, Vec<Pass<A, B, C, D>>), (Book, Refusal)>
    requires base { (blanks.base ≡ A.base) × (blanks.clients ≡ A.clients) }
    requires first { IsNamed A.name A.parts A.cells blanks.first }
    requires second { IsNamed B.name B.parts B.cells blanks.second }
    requires third { IsNamed C.name C.parts C.cells blanks.third }
    requires fourth { IsNamed D.name D.parts D.cells blanks.fourth }
    requires fresh { IsFresh blanks.clients book }
    ensures base { IfOk result (λ opened. opened.0.base ≡ book.session) }
    ensures passes { IfOk result (λ opened. opened.1.items ≡ first_parts blanks.clients book.session) }
    ensures refused { IfErr result (λ back. (back.0 ≡ book) × (back.1 ≡ refusal.OutOfMemory)) }
{
    match set_out(alloc, &blanks, &book) {
        Ok((passes, told)) => Ok(hand_over(alloc, blanks, book, passes, told)),
        Err(_) => {
            drop(blanks);
            Err((book, Refusal::OutOfMemory))
        }
    }
}

/// Makes a list with room for the passes, and a note of the base cell, which now holds the book's session as a saved tree.
fn set_out<A: Naming + Beginning, B: Naming, C: Naming, D: Naming>(
    alloc: Global,
    blanks: &Blanks,
    book: &Book,
) -> Result<(Vec<Pass<A, B, C, D>>, Note<Saved>), Refused>
    ensures passes { IfOk result (λ set. (set.0.items ≡ []) × (4 ≤ vec_capacity set.0)) }
    ensures told { IfOk result (λ set. (set.1.cell ≡ blanks.now.base) × (set.1.known ≡ Some (saved_of_session book.now.session))) }
{
    let Ok(passes) = Vec::with_capacity(alloc, CLIENTS as usize) else {
        return Err(Refused);
    };
    let told = note_base(alloc, &blanks.base, book)?;
    Ok((passes, told))
}

/// Puts the book and the lock's sides of the accounts under the lock, and makes a pass for each client. Never allocates.
fn hand_over<A: Naming + Beginning, B: Naming, C: Naming, D: Naming>(
    alloc: Global,
    blanks: Blanks,
    book: Book,
    mut passes: Vec<Pass<A, B, C, D>>,
    mut told: Note<Saved>,
) -> (OpenedBook<A, B, C, D>, Vec<Pass<A, B, C, D>>)
    requires base { (blanks.base ≡ A.base) × (blanks.clients ≡ A.clients) }
    requires first { IsNamed A.name A.parts A.cells blanks.first }
    requires second { IsNamed B.name B.parts B.cells blanks.second }
    requires third { IsNamed C.name C.parts C.cells blanks.third }
    requires fourth { IsNamed D.name D.parts D.cells blanks.fourth }
    requires fresh { IsFresh blanks.clients book }
    requires empty { (passes.items ≡ []) × (4 ≤ vec_capacity passes) }
    requires told { (told.cell ≡ blanks.base) × (told.known ≡ Some (saved_of_session book.session)) }
    ensures base { result.0.base ≡ book.session }
    ensures passes { result.1.items ≡ first_parts blanks.clients book.session }
{
    book.log_replays();
    what_was_loaded_is_loaded_again();
    let Blanks {
        clients,
        base,
        first,
        second,
        third,
        fourth,
    } = blanks;
    let (first, one) = first.open::<A>(alloc);
    let (second, two) = second.open::<B>(alloc);
    let (third, three) = third.open::<C>(alloc);
    let (fourth, four) = fourth.open::<D>(alloc);
    hand_out(&mut passes, &mut told, clients, Slot::First(one));
    hand_out(&mut passes, &mut told, clients, Slot::Second(two));
    hand_out(&mut passes, &mut told, clients, Slot::Third(three));
    hand_out(&mut passes, &mut told, clients, Slot::Fourth(four));
    let begins = told.again();
    let locked = LockedBook {
        book,
        base,
        told,
        first,
        second,
        third,
        fourth,
        alloc,
    };
    let lock = Mutex::new(locked);
    let shared = Shared { lock };
    (
        OpenedBook {
            shared,
            told: begins,
        },
        passes,
    )
}

/// Appends the pass of a client if there are at least this many clients; otherwise drops its slot.
fn hand_out<A: Naming + Beginning, B: Naming, C: Naming, D: Naming>(
    passes: &mut Vec<Pass<A, B, C, D>>,
    told: &mut Note<Saved>,
    clients: u8,
    slot: Slot<A, B, C, D>,
)
    requires clients { clients ≡ A.clients }
    requires cell { told.old.cell ≡ A.base }
    requires known { IsSome told.old.known }
    requires first { slot_rows slot ≡ [] }
    requires room { vec_len passes.old < vec_capacity passes.old }
    ensures passes { passes.new.items ≡ passes.old.items ++ part_of clients (begun clients told.old.known) (slot_number slot) }
    ensures few { vec_len passes.new ≤ vec_len passes.old + 1 }
    ensures room { vec_capacity passes.new ≡ vec_capacity passes.old }
    ensures told { told.new ≡ told.old }
{
    if slot.number() <= clients {
        let told = told.again();
        passes.push_reserved(Pass { slot, told });
    } else {
        drop(slot);
    }
}

/// Saves the book's session into the base cell, and returns a note of the cell's content.
fn note_base(alloc: Global, cell: &OnceBox<Saved>, book: &Book) -> Result<Note<Saved>, Refused>
    ensures { IfOk result (λ note. (note.cell ≡ cell_name cell.now) × (note.known ≡ Some (saved_of_session book.now.session))) }
{
    let Ok(saved) = book.save() else {
        return Err(Refused);
    };
    let Ok(shown) = Box::new(alloc, saved) else {
        return Err(Refused);
    };
    match claim(cell, shown) {
        Some(note) => Ok(note),
        None => Err(Refused),
    }
}
