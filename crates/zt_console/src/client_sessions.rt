//! The sessions of all clients of a shared book.

ghost use Rattle.std.specs.Prelude.{◌≡◌, ◌<◌, ◌≤◌, ◌+◌, [], ◌∷◌, ◌++◌, length, map, All, IfOk, IfErr, IsPermutation, vec_len, vec_capacity};
ghost use Rattle.std.specs.List.{AllZip, cons_option, filter_map};
ghost use Rattle.zt_book.specs.Log.{Replays};
ghost use Rattle.zt_shared.specs.Sharing.{IsOneLog, numbers};
ghost use Rattle.zt_console.specs.ProofsOnly.ClientSessions.{place_of, served_at, pass_at};
ghost use Rattle.zt_console.specs.Sessions.{IsCountable, IsServed, told_in};

use crate::client_threads::{ClientThread, serve_all};
use crate::counted_faults::Counted;
use crate::run_loop::End;
use std::alloc::{AllocError, Global};
use std::io::{Read, Write};
use std::sync::Wait;
use std::thread::Threads;
use zt_book::Book;
use zt_shared::account::Naming;
use zt_shared::{Beginning, Gate, OpenedBook, Pass, close_book};

/// A client's reader, writer and pass.
pub type Caller<I, O, A, B, C, D> = (Counted<I>, Counted<O>, Pass<A, B, C, D>);

/// The reader and writer of a client that was served, and how its session ended.
#[derive(Drop)]
pub struct Served<I, O> {
    pub reader: Counted<I>,
    pub writer: Counted<O>,
    pub end: End,
}

/// A client before or after its session.
#[derive(Drop)]
pub(crate) struct ClientSession<I, O, A: Naming + Beginning, B: Naming, C: Naming, D: Naming> {
    pub(crate) reader: Counted<I>,
    pub(crate) writer: Counted<O>,
    pub(crate) pass: Option<Pass<A, B, C, D>>,
    pub(crate) end: End,
}

/// The lists that are needed to serve clients.
#[derive(Drop)]
struct SessionLists<I: Read, O: Write, A: Naming + Beginning, B: Naming, C: Naming, D: Naming> {
    waiting: Vec<ClientSession<I, O, A, B, C, D>>,
    threads: Vec<ClientThread<I, O, A, B, C, D>>,
    places: Vec<ClientSession<I, O, A, B, C, D>>,
    served: Vec<Served<I, O>>,
    passes: Vec<Pass<A, B, C, D>>,
}

/// Serves all clients of a shared book, each by a session on its own thread, and returns the book when all have ended. The
/// clients come in any order.
///
/// All memory but each session's own is allocated first. If an allocation fails, the book and the clients are returned. If no
/// thread can be started for a client, it is not served: it has no rows, and its session ends with `OutOfMemory`. The gate is
/// told at once when a session has ended, and also when a client could not be served.
pub fn sessions<
    R: Threads + Wait + Sync,
    I: Read + Send + Drop,
    O: Write + Send + Drop,
    A: Naming + Beginning + Send + Sync,
    B: Naming + Send + Sync,
    C: Naming + Send + Sync,
    D: Naming + Send + Sync,
    G: Gate + Sync,
>(
    rt: &R,
    alloc: Global,
    opened: OpenedBook<A, B, C, D>,
    callers: Vec<Caller<I, O, A, B, C, D>>,
    gate: &G,
) -> Result<(Book, Vec<Served<I, O>>), (OpenedBook<A, B, C, D>, Vec<Caller<I, O, A, B, C, D>>)>
    requires all { IsPermutation (numbers A.clients) (map (λ caller. caller.2.client) callers.items) }
    requires counts { All IsCountable callers.items }
    ensures log { IfOk result (λ done. IsOneLog A.clients (map (λ caller. told_in done.0.log caller.2) callers.items) done.0.log) }
    ensures end { IfOk result (λ done. All (λ caller. Replays caller.2.base done.0.log done.0.session) callers.items) }
    ensures begun { IfOk result (λ done. Replays opened.base done.0.log done.0.session) }
    ensures clients { IfOk result (λ done. length done.0.session.clients ≡ A.clients) }
    ensures each { IfOk result (λ done. AllZip (λ caller served. IsServed I.remaining O.contents caller (told_in done.0.log caller.2) served.reader served.writer served.end) callers.items done.1.items) }
    ensures refused { IfErr result (λ back. (back.0 ≡ opened) × (back.1 ≡ callers)) }
{
    let Ok(lists) = room_for(alloc, callers.len()) else {
        return Err((opened, callers));
    };
    let SessionLists {
        mut waiting,
        threads,
        places,
        mut served,
        mut passes,
    } = lists;
    take_places(&mut waiting, callers);
    let places = serve_all(rt, alloc, opened.shared(), gate, waiting, threads, places);
    leave_places(places, &mut served, &mut passes);
    let book = close_book(opened, passes);
    Ok((book, served))
}

/// Makes empty lists with room for this many clients.
fn room_for<
    I: Read + Drop,
    O: Write + Drop,
    A: Naming + Beginning,
    B: Naming,
    C: Naming,
    D: Naming,
>(alloc: Global, clients: usize) -> Result<SessionLists<I, O, A, B, C, D>, AllocError>
    ensures empty { IfOk result (λ lists. (lists.waiting.items ≡ []) × (lists.threads.items ≡ []) × (lists.places.items ≡ []) × (lists.served.items ≡ []) × (lists.passes.items ≡ [])) }
    ensures room { IfOk result (λ lists. (clients ≤ vec_capacity lists.waiting) × (clients ≤ vec_capacity lists.threads) × (clients ≤ vec_capacity lists.places) × (clients ≤ vec_capacity lists.served) × (clients ≤ vec_capacity lists.passes)) }
{
    let waiting = Vec::with_capacity(alloc, clients)?;
    let threads = Vec::with_capacity(alloc, clients)?;
    let places = Vec::with_capacity(alloc, clients)?;
    let served = Vec::with_capacity(alloc, clients)?;
    let passes = Vec::with_capacity(alloc, clients)?;
    Ok(SessionLists {
        waiting,
        threads,
        places,
        served,
        passes,
    })
}

/// Makes a session for each client, in order.
fn take_places<I: Drop, O: Drop, A: Naming + Beginning, B: Naming, C: Naming, D: Naming>(
    places: &mut Vec<ClientSession<I, O, A, B, C, D>>,
    callers: Vec<Caller<I, O, A, B, C, D>>,
)
    requires empty { places.old.items ≡ [] }
    requires room { length callers.items ≤ vec_capacity places.old }
    ensures { places.new.items ≡ map place_of callers.items }
{
    for caller in callers {
        let (reader, writer, pass) = caller;
        places.push_reserved(ClientSession {
            reader,
            writer,
            pass: Some(pass),
            end: End::Finished,
        });
    }
}

/// Separates the clients' passes from the rest of their sessions.
fn leave_places<I: Drop, O: Drop, A: Naming + Beginning, B: Naming, C: Naming, D: Naming>(
    places: Vec<ClientSession<I, O, A, B, C, D>>,
    served: &mut Vec<Served<I, O>>,
    passes: &mut Vec<Pass<A, B, C, D>>,
)
    requires empty { (served.old.items ≡ []) × (passes.old.items ≡ []) }
    requires room { (length places.items ≤ vec_capacity served.old) × (length places.items ≤ vec_capacity passes.old) }
    ensures served { served.new.items ≡ map served_at places.items }
    ensures passes { passes.new.items ≡ filter_map pass_at places.items }
{
    for place in places {
        leave_place(place, served, passes);
    }
}

/// Separates a client's pass from the rest of its session.
fn leave_place<I: Drop, O: Drop, A: Naming + Beginning, B: Naming, C: Naming, D: Naming>(
    place: ClientSession<I, O, A, B, C, D>,
    served: &mut Vec<Served<I, O>>,
    passes: &mut Vec<Pass<A, B, C, D>>,
)
    requires room_served { vec_len served.old < vec_capacity served.old }
    requires room_passes { vec_len passes.old < vec_capacity passes.old }
    ensures served { served.new.items ≡ served.old.items ++ served_at place ∷ [] }
    ensures passes { passes.new.items ≡ passes.old.items ++ cons_option (pass_at place) [] }
    ensures one { vec_len served.new ≡ vec_len served.old + 1 }
    ensures most { vec_len passes.new ≤ vec_len passes.old + 1 }
    ensures kept_served { vec_capacity served.new ≡ vec_capacity served.old }
    ensures kept_passes { vec_capacity passes.new ≡ vec_capacity passes.old }
{
    let ClientSession {
        reader,
        writer,
        pass,
        end,
    } = place;
    served.push_reserved(Served {
        reader,
        writer,
        end,
    });
    if let Some(pass) = pass {
        passes.push_reserved(pass);
    }
}
