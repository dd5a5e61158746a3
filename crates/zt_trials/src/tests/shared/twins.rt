//! Two clients of a shared book, beside a book of one thread. Both books are asked the same. If an allocation fails in one,
//! it is asked again.

ghost use Rattle.std.specs.Prelude.{◌≡◌, ◌≤◌, [], map, IfSome, IsPermutation, vec_capacity};
ghost use Rattle.zt_shared.specs.Sharing.{numbers};

use super::same_logs::has_rows_of;
use crate::tests::commands::command;
use std::alloc::Global;
use std::sync::Wait;
use zt_book::{Book, Log};
use zt_rows::Refusal;
use zt_shared::account::Naming;
use zt_shared::{Beginning, OpenedBook, Pass, Shared, close, close_book};

/// The passes of two clients, and the other book.
#[derive(Drop)]
pub(super) struct Twins<A: Naming + Beginning, B: Naming, C: Naming, D: Naming> {
    pub(super) one: Pass<A, B, C, D>,
    pub(super) two: Pass<A, B, C, D>,
    pub(super) twin: Book,
}

/// Why the shared book refuses a client's line, if it does.
pub(super) fn refusal<A: Naming + Beginning, B: Naming, C: Naming, D: Naming, R: Wait>(
    rt: &R,
    alloc: Global,
    shared: &Shared<A, B, C, D>,
    pass: &mut Pass<A, B, C, D>,
    line: &str,
) -> Option<Refusal> {
    match command(alloc, line) {
        Some(asked) => shared.ask(rt, pass, asked).err(),
        None => Some(Refusal::OutOfMemory),
    }
}

/// Why the shared book refuses a client's line, if it does. If an allocation fails, it is asked again.
fn settled<A: Naming + Beginning, B: Naming, C: Naming, D: Naming, R: Wait>(
    rt: &R,
    alloc: Global,
    shared: &Shared<A, B, C, D>,
    pass: &mut Pass<A, B, C, D>,
    line: &str,
) -> Option<Refusal> {
    match refusal(rt, alloc, shared, pass, line) {
        Some(Refusal::OutOfMemory) => refusal(rt, alloc, shared, pass, line),
        other => other,
    }
}

/// Why the other book refuses a client's line, if it does.
pub(super) fn twin_refusal(
    alloc: Global,
    twin: &mut Book,
    client: u8,
    line: &str,
) -> Option<Refusal> {
    if client < 1 || twin.clients() < client {
        return Some(Refusal::TooManyClients);
    }
    match command(alloc, line) {
        Some(asked) => twin.serve(client, &asked).err(),
        None => Some(Refusal::OutOfMemory),
    }
}

/// Why the other book refuses a client's line, if it does. If an allocation fails, it is asked again.
pub(super) fn twin_settled(
    alloc: Global,
    twin: &mut Book,
    client: u8,
    line: &str,
) -> Option<Refusal> {
    match twin_refusal(alloc, twin, client, line) {
        Some(Refusal::OutOfMemory) => twin_refusal(alloc, twin, client, line),
        other => other,
    }
}

impl<A: Naming + Beginning, B: Naming, C: Naming, D: Naming> Twins<A, B, C, D> {
    /// Why the shared book refuses a line of the client of this number, as `settled` says.
    fn settled_of<R: Wait>(
        &mut self,
        rt: &R,
        alloc: Global,
        shared: &Shared<A, B, C, D>,
        client: u8,
        line: &str,
    ) -> Option<Refusal> {
        if client == 1 {
            settled(rt, alloc, shared, &mut self.one, line)
        } else {
            settled(rt, alloc, shared, &mut self.two, line)
        }
    }

    /// Whether both books answer a client's line, or refuse it for the same cause.
    pub(super) fn asks_both<R: Wait>(
        &mut self,
        rt: &R,
        alloc: Global,
        shared: &Shared<A, B, C, D>,
        client: u8,
        line: &str,
    ) -> bool {
        let ours = self.settled_of(rt, alloc, shared, client, line);
        ours == twin_settled(alloc, &mut self.twin, client, line)
    }

    /// Whether each pass has exactly its client's rows of the other book's log.
    pub(super) fn have_same_rows(&self, alloc: Global) -> bool {
        has_rows_of(alloc, &self.one, self.twin.log())
            && has_rows_of(alloc, &self.two, self.twin.log())
    }
}

/// A list with room for the passes of two clients.
fn room<A: Naming + Beginning, B: Naming, C: Naming, D: Naming>(
    alloc: Global,
) -> Option<Vec<Pass<A, B, C, D>>>
    ensures empty { IfSome result (λ passes. passes.items ≡ []) }
    ensures room { IfSome result (λ passes. 2 ≤ vec_capacity passes) }
{
    match Vec::with_capacity(alloc, 2) {
        Ok(passes) => Some(passes),
        Err(_) => Vec::with_capacity(alloc, 2).ok(),
    }
}

/// The passes of two clients, in order.
fn in_a_row<A: Naming + Beginning, B: Naming, C: Naming, D: Naming>(
    alloc: Global,
    one: Pass<A, B, C, D>,
    two: Pass<A, B, C, D>,
) -> Option<Vec<Pass<A, B, C, D>>>
    requires { A.clients ≡ 2 }
    ensures { IfSome result (λ passes. IsPermutation (numbers A.clients) (map (λ pass. pass.client) passes.items)) }
{
    if one.client() != 1 || two.client() != 2 {
        return None;
    }
    let mut passes = room(alloc)?;
    passes.push_reserved(one);
    passes.push_reserved(two);
    Some(passes)
}

/// The log of two clients.
pub(super) fn closed<A: Naming + Beginning, B: Naming, C: Naming, D: Naming>(
    alloc: Global,
    opened: OpenedBook<A, B, C, D>,
    one: Pass<A, B, C, D>,
    two: Pass<A, B, C, D>,
) -> Option<Log>
    requires { A.clients ≡ 2 }
{
    let passes = in_a_row(alloc, one, two)?;
    Some(close(opened, passes))
}

/// The book of two clients.
pub(super) fn closed_book<A: Naming + Beginning, B: Naming, C: Naming, D: Naming>(
    alloc: Global,
    opened: OpenedBook<A, B, C, D>,
    one: Pass<A, B, C, D>,
    two: Pass<A, B, C, D>,
) -> Option<Book>
    requires { A.clients ≡ 2 }
{
    let passes = in_a_row(alloc, one, two)?;
    Some(close_book(opened, passes))
}
