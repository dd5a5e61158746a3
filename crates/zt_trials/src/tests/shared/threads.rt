//! Two clients on threads of their own.

use super::twins::Twins;
use std::sync::Wait;
use std::thread::{Threads, join};
use zt_book::{Book, Log, Recorded};
use zt_rows::{Call, Command, ROOT_PROCESS};
use zt_shared::account::Naming;
use zt_shared::{Beginning, Pass, Shared};

/// How many commands each client asks.
const TIMES: usize = 1_000;

/// Whether the client makes `TIMES` events.
fn makes_events<A: Naming + Beginning, B: Naming, C: Naming, D: Naming, R: Wait>(
    rt: &R,
    shared: &Shared<A, B, C, D>,
    pass: &mut Pass<A, B, C, D>,
) -> bool {
    for _ in 0..TIMES {
        let event = Command::Call(ROOT_PROCESS, Call::EventCreate);
        if shared.ask(rt, pass, event).is_err() {
            return false;
        }
    }
    pass.len() == TIMES
}

/// Whether each client, on a thread of its own, gets all its answers.
pub(super) fn asks_on_threads<
    A: Naming + Beginning + Send + Sync,
    B: Naming + Send + Sync,
    C: Naming + Send + Sync,
    D: Naming + Send + Sync,
    R: Threads + Wait + Sync,
>(rt: &R, shared: &Shared<A, B, C, D>, twins: &mut Twins<A, B, C, D>) -> bool {
    let Twins { one, two, .. } = twins;
    let (first, second) = join(
        rt,
        || makes_events(rt, shared, one),
        || makes_events(rt, shared, two),
    );
    first && second
}

/// Whether the book answers the row's command.
fn serves(book: &mut Book, row: &Recorded) -> bool {
    if row.client < 1 || book.clients() < row.client {
        return false;
    }
    book.serve(row.client, &row.asked).is_ok()
}

/// Whether the book answers all commands of both clients, in the order of the log.
pub(super) fn replays(book: &mut Book, log: &Log) -> bool {
    for row in log.rows() {
        if !serves(book, row) {
            return false;
        }
    }
    log.len() == 2 * TIMES
}
