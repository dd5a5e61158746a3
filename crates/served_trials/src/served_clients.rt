//! Serves clients over one shared book.

ghost use Rattle.std.specs.Prelude.{◌≡◌, map, All, IfOk};
ghost use Rattle.zt_shared.specs.OpenedBook.{IsNamed};
ghost use Rattle.zt_console.specs.Sessions.{IsCountable};

use std::alloc::Global;
use std::io::{Read, Write};
use std::marker::Brand;
use std::sync::Wait;
use std::thread::Threads;
use zt_book::Log;
use zt_console::{Caller, Counted, Served, sessions};
use zt_rows::Refusal;
use zt_shared::account::Naming;
use zt_shared::{Beginning, Blanks, Gate, Pass, open};

/// The log of a shared book, and what is left of its clients.
pub type Done<I, O> = (Log, Vec<Served<I, O>>);

/// Serves a client for each reader and writer, over a book at the opening. The error is `TooManyClients` or `OutOfMemory`.
pub fn serve<
    R: Threads + Wait + AllocGlobal + Sync,
    I: Read + Send + Drop,
    O: Write + Send + Drop,
    G: Gate + Sync,
>(rt: &R, ends: Vec<(I, O)>, gate: &G) -> Result<Done<I, O>, Refusal> {
    let Ok(clients) = u8::try_from(ends.len()) else {
        return Err(Refusal::TooManyClients);
    };
    let blanks = Blanks::new(rt.alloc(), clients)?;
    serve_named::<Brand, Brand, Brand, Brand, R, I, O, G>(rt, blanks, ends, gate)
}

/// Serves the clients over a shared book that is made of `blanks`, which these types name.
fn serve_named<
    A: Naming + Beginning + Send + Sync,
    B: Naming + Send + Sync,
    C: Naming + Send + Sync,
    D: Naming + Send + Sync,
    R: Threads + Wait + AllocGlobal + Sync,
    I: Read + Send + Drop,
    O: Write + Send + Drop,
    G: Gate + Sync,
>(rt: &R, blanks: Blanks, ends: Vec<(I, O)>, gate: &G) -> Result<Done<I, O>, Refusal>
    requires base { (blanks.base ≡ A.base) × (blanks.clients ≡ A.clients) }
    requires first { IsNamed A.name A.parts A.cells blanks.first }
    requires second { IsNamed B.name B.parts B.cells blanks.second }
    requires third { IsNamed C.name C.parts C.cells blanks.third }
    requires fourth { IsNamed D.name D.parts D.cells blanks.fourth }
{
    let (opened, passes) = match open::<A, B, C, D>(rt.alloc(), blanks) {
        Ok(whole) => whole,
        Err(refusal) => return Err(refusal),
    };
    let callers = callers(rt.alloc(), passes, ends)?;
    match sessions(rt, rt.alloc(), opened, callers, gate) {
        Ok((book, served)) => Ok((book.into_log(), served)),
        Err(_) => Err(Refusal::OutOfMemory),
    }
}

/// A client for each pass, in the order of the readers and writers.
fn callers<I: Drop, O: Drop, A: Naming + Beginning, B: Naming, C: Naming, D: Naming>(
    alloc: Global,
    passes: Vec<Pass<A, B, C, D>>,
    ends: Vec<(I, O)>,
) -> Result<Vec<Caller<I, O, A, B, C, D>>, Refusal>
    ensures passes { IfOk result (λ callers. map (λ caller. caller.2) callers.items ≡ passes.items) }
    ensures counts { IfOk result (λ callers. All IsCountable callers.items) }
{
    let mut ends = ends.into_iter();
    let mut callers = Vec::new(alloc);
    for pass in passes {
        let Some((reader, writer)) = ends.next() else {
            return Err(Refusal::TooManyClients);
        };
        let reader = Counted::new(reader);
        let writer = Counted::new(writer);
        let Ok(()) = callers.push((reader, writer, pass)) else {
            return Err(Refusal::OutOfMemory);
        };
    }
    Ok(callers)
}

/// How many rows of the log are of this client.
pub fn rows_of(log: &Log, client: u8) -> usize {
    log.rows().iter().filter(|row| row.client == client).count()
}
