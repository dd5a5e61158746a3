//! The threads of a shared book's clients: one for each client, all started before the first is joined.
ghost use Rattle.std.specs.Prelude.{◌≡◌, ◌≤◌, [], length, vec_capacity};
ghost use Rattle.std.specs.List.{AllZip};
ghost use Rattle.zt_console.specs.ProofsOnly.ClientSessions.{CanBeServed, HasServed, IsGivenBack, IsStartedFor, IsJoinedTo};

use crate::client_sessions::ClientSession;
use crate::pass_session::session;
use crate::run_loop::End;
use std::alloc::Global;
use std::io::{Read, Write};
use std::snapshot::Snapshot;
use std::sync::Wait;
use std::sync::atomic::{AtomicUsize, Ordering};
use std::thread;
use std::thread::{Promise, PromisedHandle, Scope, Threads};
use zt_rows::Refusal;
use zt_shared::account::Naming;
use zt_shared::{Beginning, Gate, Shared};

/// A number that no client has.
const NOBODY: usize = 0;

/// What a client's thread promises of the session that it returns, in terms of the session that it was given.
#[derive(Drop)]
pub(crate) struct ServedFrom<I, O, A: Naming + Beginning, B: Naming, C: Naming, D: Naming> {
    place: Snapshot<ClientSession<I, O, A, B, C, D>>,
}

impl<I: Read, O: Write, A: Naming + Beginning, B: Naming, C: Naming, D: Naming> Promise<
    ClientSession<I, O, A, B, C, D>,
> for ServedFrom<I, O, A, B, C, D> {
    ghost use Rattle.zt_console.specs.ProofsOnly.ClientSessions.{IsGivenBack};

    ghost kept_by = { λ promise place. IsGivenBack I.remaining O.contents promise.place.value place };
}

/// A client's thread, or its session if no thread could be started.
#[derive(Drop)]
pub(crate) enum ClientThread<
    I: Read,
    O: Write,
    A: Naming + Beginning,
    B: Naming,
    C: Naming,
    D: Naming,
> {
    Running(PromisedHandle<ClientSession<I, O, A, B, C, D>, ServedFrom<I, O, A, B, C, D>>),
    Unserved(ClientSession<I, O, A, B, C, D>),
}

/// Serves all clients, each on its own thread, and returns their sessions when all have ended.
pub(crate) fn serve_all<
    R: Threads + Wait + Sync,
    I: Read + Send + Drop,
    O: Write + Send + Drop,
    A: Naming + Beginning + Send,
    B: Naming + Send,
    C: Naming + Send,
    D: Naming + Send,
    G: Gate + Sync,
>(
    rt: &R,
    alloc: Global,
    shared: &Shared<A, B, C, D>,
    gate: &G,
    waiting: Vec<ClientSession<I, O, A, B, C, D>>,
    threads: Vec<ClientThread<I, O, A, B, C, D>>,
    places: Vec<ClientSession<I, O, A, B, C, D>>,
) -> Vec<ClientSession<I, O, A, B, C, D>>
    requires { CanBeServed waiting.items threads.items (vec_capacity threads) places.items (vec_capacity places) }
    ensures { AllZip (HasServed I.remaining O.contents) waiting.items result.items }
{
    let refused = AtomicUsize::new(NOBODY);
    let turned_away = &refused;
    thread::scope(
        thread::scope_env(),
        rt,
        |scope| -> Vec<ClientSession<I, O, A, B, C, D>>
            requires { CanBeServed waiting.items threads.items (vec_capacity threads) places.items (vec_capacity places) }
            ensures { AllZip (HasServed I.remaining O.contents) waiting.items result.items }
        {
            let all = waiting;
            let started = start_all(rt, alloc, scope, shared, gate, turned_away, all, threads);
            join_all(rt, started, places)
        },
    )
}

/// Starts a thread for each client.
fn start_all<
    's,
    E: 's,
    R: Threads + Wait + Sync + 's,
    I: Read + Send + Drop + 's,
    O: Write + Send + Drop + 's,
    A: Naming + Beginning + Send + 's,
    B: Naming + Send + 's,
    C: Naming + Send + 's,
    D: Naming + Send + 's,
    G: Gate + Sync + 's,
>(
    rt: &'s R,
    alloc: Global,
    scope: &'s Scope<'s, E>,
    shared: &'s Shared<A, B, C, D>,
    gate: &'s G,
    refused: &'s AtomicUsize,
    waiting: Vec<ClientSession<I, O, A, B, C, D>>,
    mut threads: Vec<ClientThread<I, O, A, B, C, D>>,
) -> Vec<ClientThread<I, O, A, B, C, D>>
    requires empty { threads.items ≡ [] }
    requires room { length waiting.items ≤ vec_capacity threads }
    ensures { AllZip (IsStartedFor I.remaining O.contents) waiting.items result.items }
{
    for place in waiting {
        threads.push_reserved(start(rt, alloc, scope, shared, gate, refused, place));
    }
    threads
}

/// Starts a thread for a client. If no thread can be started, the client is not served: its session ends with `OutOfMemory`.
fn start<
    's,
    E: 's,
    R: Threads + Wait + Sync + 's,
    I: Read + Send + Drop + 's,
    O: Write + Send + Drop + 's,
    A: Naming + Beginning + Send + 's,
    B: Naming + Send + 's,
    C: Naming + Send + 's,
    D: Naming + Send + 's,
    G: Gate + Sync + 's,
>(
    rt: &'s R,
    alloc: Global,
    scope: &'s Scope<'s, E>,
    shared: &'s Shared<A, B, C, D>,
    gate: &'s G,
    refused: &'s AtomicUsize,
    place: ClientSession<I, O, A, B, C, D>,
) -> ClientThread<I, O, A, B, C, D>
    ensures { IsStartedFor I.remaining O.contents place result }
{
    let number = client_of(&place);
    let promise = ServedFrom {
        place: Snapshot::of(&place),
    };
    let begun = scope.spawn_with(
        promise,
        move || -> ClientSession<I, O, A, B, C, D>
            ensures { IsGivenBack I.remaining O.contents place result }
        {
            let all = place;
            serve_client(rt, alloc, shared, gate, refused, all)
        },
    );
    match begun {
        Ok(thread) => ClientThread::Running(thread),
        Err(unstarted) => {
            refused.store(number, Ordering::SeqCst);
            ClientThread::Unserved((unstarted.value)())
        }
    }
}

/// Returns the number of a session's client, or `NOBODY` if its pass is gone.
fn client_of<I, O, A: Naming + Beginning, B: Naming, C: Naming, D: Naming>(
    place: &ClientSession<I, O, A, B, C, D>,
) -> usize {
    match &place.pass {
        Some(pass) => usize::from(pass.client()),
        None => NOBODY,
    }
}

/// Serves a client or turns it away, and tells the gate that its session has ended.
fn serve_client<
    R: Wait,
    I: Read,
    O: Write,
    A: Naming + Beginning,
    B: Naming,
    C: Naming,
    D: Naming,
    G: Gate,
>(
    rt: &R,
    alloc: Global,
    shared: &Shared<A, B, C, D>,
    gate: &G,
    refused: &AtomicUsize,
    place: ClientSession<I, O, A, B, C, D>,
) -> ClientSession<I, O, A, B, C, D>
    ensures { IsGivenBack I.remaining O.contents place result }
{
    let place = serve_place(rt, alloc, shared, gate, refused, place);
    tell_end(gate, &place);
    place
}

/// Serves a client, or ends its session with `OutOfMemory` if it is turned away.
fn serve_place<
    R: Wait,
    I: Read,
    O: Write,
    A: Naming + Beginning,
    B: Naming,
    C: Naming,
    D: Naming,
    G: Gate,
>(
    rt: &R,
    alloc: Global,
    shared: &Shared<A, B, C, D>,
    gate: &G,
    refused: &AtomicUsize,
    mut place: ClientSession<I, O, A, B, C, D>,
) -> ClientSession<I, O, A, B, C, D>
    ensures { IsGivenBack I.remaining O.contents place result }
{
    if refused.load(Ordering::SeqCst) == client_of(&place) {
        place.end = End::Stopped(Refusal::OutOfMemory);
    } else {
        serve(rt, alloc, shared, gate, &mut place);
    }
    place
}

/// Tells the gate that a client's session has ended.
fn tell_end<I, O, A: Naming + Beginning, B: Naming, C: Naming, D: Naming, G: Gate>(
    gate: &G,
    place: &ClientSession<I, O, A, B, C, D>,
) {
    if let Some(pass) = &place.pass {
        gate.ended(pass.client());
    }
}

/// Serves one client, if its pass is there and its failures can be counted.
fn serve<
    R: Wait,
    I: Read,
    O: Write,
    A: Naming + Beginning,
    B: Naming,
    C: Naming,
    D: Naming,
    G: Gate,
>(
    rt: &R,
    alloc: Global,
    shared: &Shared<A, B, C, D>,
    gate: &G,
    place: &mut ClientSession<I, O, A, B, C, D>,
)
    ensures { IsGivenBack I.remaining O.contents place.old place.new }
{
    if place.reader.faults() == u64::MAX || place.writer.faults() == u64::MAX {
        return;
    }
    if let Some(pass) = place.pass.take() {
        let (pass, end) = session(
            rt,
            alloc,
            &mut place.reader,
            &mut place.writer,
            shared,
            pass,
            gate,
        );
        place.pass = Some(pass);
        place.end = end;
    }
}

/// Waits for each client's thread, and collects the sessions.
fn join_all<
    R: Threads,
    I: Read + Drop,
    O: Write + Drop,
    A: Naming + Beginning,
    B: Naming,
    C: Naming,
    D: Naming,
>(
    rt: &R,
    threads: Vec<ClientThread<I, O, A, B, C, D>>,
    mut places: Vec<ClientSession<I, O, A, B, C, D>>,
) -> Vec<ClientSession<I, O, A, B, C, D>>
    requires empty { places.items ≡ [] }
    requires room { length threads.items ≤ vec_capacity places }
    ensures { AllZip (IsJoinedTo I.remaining O.contents) threads.items result.items }
{
    for thread in threads {
        places.push_reserved(join(rt, thread));
    }
    places
}

/// Waits for a client's thread, if there is one, and returns its session.
fn join<
    R: Threads,
    I: Read + Drop,
    O: Write + Drop,
    A: Naming + Beginning,
    B: Naming,
    C: Naming,
    D: Naming,
>(rt: &R, thread: ClientThread<I, O, A, B, C, D>) -> ClientSession<I, O, A, B, C, D>
    ensures { IsJoinedTo I.remaining O.contents thread result }
{
    match thread {
        ClientThread::Running(running) => running.join(rt),
        ClientThread::Unserved(place) => place,
    }
}
