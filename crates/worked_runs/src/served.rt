//! Serves lines to the one client of a shared book.

ghost use Rattle.std.specs.Prelude.{◌≡◌};
ghost use Rattle.zt_shared.specs.OpenedBook.{IsNamed};
ghost use Rattle.zt_shared.specs.Sharing.{IsFresh};

use std::marker::Brand;
use std::sync::Wait;
use zt_console::{Book, Counted, End, session};
use zt_rows::Refusal;
use zt_shared::account::Naming;
use zt_shared::{Beginning, Blanks, Gate, Pass, Shared, open_book};

/// A gate that does nothing.
struct NoGate;

impl Gate for NoGate {
    fn before(&self, _client: u8, _n: u32) {}

    fn after(&self, _client: u8, _n: u32) {}
}

/// What a session over these lines writes, if one client shares the book. The error is what stopped it.
pub fn serve_lines<R: Wait + AllocGlobal>(
    rt: &R,
    book: Book,
    asked: &[u8],
) -> Result<Vec<u8>, Refusal>
    requires { IsFresh 1 book }
{
    let blanks = Blanks::new(rt.alloc(), 1)?;
    serve_named::<Brand, Brand, Brand, Brand, R>(rt, blanks, book, asked)
}

/// Runs the session over a shared book that is made of `blanks`, which these types name.
fn serve_named<A: Naming + Beginning, B: Naming, C: Naming, D: Naming, R: Wait + AllocGlobal>(
    rt: &R,
    blanks: Blanks,
    book: Book,
    asked: &[u8],
) -> Result<Vec<u8>, Refusal>
    requires base { (blanks.base ≡ A.base) × (blanks.clients ≡ A.clients) }
    requires first { IsNamed A.name A.parts A.cells blanks.first }
    requires second { IsNamed B.name B.parts B.cells blanks.second }
    requires third { IsNamed C.name C.parts C.cells blanks.third }
    requires fourth { IsNamed D.name D.parts D.cells blanks.fourth }
    requires one { blanks.clients ≡ 1 }
    requires fresh { IsFresh 1 book }
{
    match open_book::<A, B, C, D>(rt.alloc(), blanks, book) {
        Ok((opened, mut passes)) => match passes.pop() {
            Some(pass) => serve_pass(rt, opened.shared(), pass, asked),
            None => unreachable!(),
        },
        Err((_, refusal)) => Err(refusal),
    }
}

/// What a session over these lines writes to the client of this pass.
fn serve_pass<A: Naming + Beginning, B: Naming, C: Naming, D: Naming, R: Wait + AllocGlobal>(
    rt: &R,
    shared: &Shared<A, B, C, D>,
    pass: Pass<A, B, C, D>,
    asked: &[u8],
) -> Result<Vec<u8>, Refusal> {
    let alloc = rt.alloc();
    let mut reader = Counted::new(asked);
    let mut writer = Counted::new(Vec::new(alloc));
    let (_, end) = session(rt, alloc, &mut reader, &mut writer, shared, pass, &NoGate);
    match end {
        End::Finished => Ok(writer.into_inner()),
        End::Stopped(refusal) => Err(refusal),
    }
}
