//! Shared books of two clients, with their twins.

ghost use Rattle.std.specs.Prelude.{◌≡◌, IfSome};
ghost use Rattle.zt_shared.specs.OpenedBook.{IsNamed};
ghost use Rattle.zt_shared.specs.Sharing.{IsFresh};

use super::twins::Twins;
use std::alloc::Global;
use zt_book::Book;
use zt_rows::{Call, HandleValue, ROOT_PROCESS};
use zt_shared::account::Naming;
use zt_shared::{Beginning, Blanks, OpenedBook, Pass, open, open_book};

/// A book over an event that was made and closed.
fn loaded(alloc: Global) -> Option<Book>
    ensures { IfSome result (IsFresh 2) }
{
    let calls = [
        (ROOT_PROCESS, Call::EventCreate),
        (
            ROOT_PROCESS,
            Call::HandleClose {
                handle: HandleValue(7),
            },
        ),
    ];
    match Book::load(alloc, 2, calls.as_slice()) {
        Ok(book) => Some(book),
        Err(_) => None,
    }
}

/// A shared book, with the passes of its two clients and an equal book.
pub(super) type Opened<A, B, C, D> = (OpenedBook<A, B, C, D>, Twins<A, B, C, D>);

/// The passes of two clients, and an equal book.
fn twins_of<A: Naming + Beginning, B: Naming, C: Naming, D: Naming>(
    mut passes: Vec<Pass<A, B, C, D>>,
    twin: Option<Book>,
) -> Option<Twins<A, B, C, D>> {
    let two = passes.pop()?;
    let one = passes.pop()?;
    let twin = twin?;
    Some(Twins { one, two, twin })
}

/// The shared book with its twins, if there are any.
fn beside<A: Naming + Beginning, B: Naming, C: Naming, D: Naming>(
    opened: OpenedBook<A, B, C, D>,
    twins: Option<Twins<A, B, C, D>>,
) -> Option<Opened<A, B, C, D>> {
    match twins {
        Some(twins) => Some((opened, twins)),
        None => None,
    }
}

/// Twins at the opening. None if an allocation fails.
pub(super) fn at_opening<A: Naming + Beginning, B: Naming, C: Naming, D: Naming>(
    alloc: Global,
    blanks: Blanks,
) -> Option<Opened<A, B, C, D>>
    requires base { (blanks.base ≡ A.base) × (blanks.clients ≡ A.clients) }
    requires first { IsNamed A.name A.parts A.cells blanks.first }
    requires second { IsNamed B.name B.parts B.cells blanks.second }
    requires third { IsNamed C.name C.parts C.cells blanks.third }
    requires fourth { IsNamed D.name D.parts D.cells blanks.fourth }
{
    match open::<A, B, C, D>(alloc, blanks) {
        Ok((opened, passes)) => beside(opened, twins_of(passes, Book::new(alloc, 2).ok())),
        Err(_) => None,
    }
}

/// Twins over a loaded book. None if an allocation fails.
pub(super) fn over_loaded<A: Naming + Beginning, B: Naming, C: Naming, D: Naming>(
    alloc: Global,
    blanks: Blanks,
) -> Option<Opened<A, B, C, D>>
    requires base { (blanks.base ≡ A.base) × (blanks.clients ≡ A.clients) }
    requires first { IsNamed A.name A.parts A.cells blanks.first }
    requires second { IsNamed B.name B.parts B.cells blanks.second }
    requires third { IsNamed C.name C.parts C.cells blanks.third }
    requires fourth { IsNamed D.name D.parts D.cells blanks.fourth }
    requires two { blanks.clients ≡ 2 }
{
    let book = loaded(alloc)?;
    match open_book::<A, B, C, D>(alloc, blanks, book) {
        Ok((opened, passes)) => beside(opened, twins_of(passes, loaded(alloc))),
        Err(_) => None,
    }
}
