//! A run of two branches, served to a book of one thread beside its twin. A branch is made and rows are shown with each
//! allocation failing in turn.

use super::same_logs::{Told, is_same_log, tells_last};
use super::twins::{twin_refusal, twin_settled};
use crate::tests::commands::mark;
use std::alloc::Global;
use zt_book::Book;

/// A client with its line.
type ClientLine = (u8, &'static str);

/// Makes three events on `main`, and goes back to the opening.
const EVENTS: [ClientLine; 4] = [
    (1, "1025 event_create"),
    (1, "1025 event_create"),
    (1, "1025 event_create"),
    (1, "back 3"),
];

/// Makes a port and a channel on the new branch, and goes to `main` and back to them.
const FIX: [ClientLine; 4] = [
    (1, "1025 port_create"),
    (1, "1025 channel_create"),
    (1, "follow main"),
    (1, "goto 5"),
];

/// Goes back to the events.
const BACK: [ClientLine; 1] = [(1, "goto 3")];

/// The lines that look at the book: where client 1 stands, and all that client 2 asks. Client 2 asks for each moment with
/// its rows, for a further moment, and for the parent of the last. Then it asks what keeps the root job, and for the heads
/// of both branches.
const LOOKS: [ClientLine; 20] = [
    (1, "show"),
    (2, "goto 0"),
    (2, "show"),
    (2, "goto 1"),
    (2, "show"),
    (2, "goto 2"),
    (2, "show"),
    (2, "goto 3"),
    (2, "show"),
    (2, "holders 1024"),
    (2, "goto 4"),
    (2, "show"),
    (2, "back 1"),
    (2, "goto 5"),
    (2, "show"),
    (2, "back 1"),
    (2, "goto 6"),
    (2, "follow fix"),
    (2, "show"),
    (2, "follow main"),
];

const BRANCH: Told = (1, "branch fix", "branch fix 0\n");

const SHOWN_FIX: Told = (
    1,
    "show",
    "rows 5 10\ncounters 1029 0\nobject 1024 job 0x00000010 0 live 0\nobject 1025 process 0x00000000 1024 live 4\nobject 1026 port 0x00000000 0 live 0\nobject 1027 channel 0x00000002 1028 live 0\nobject 1028 channel 0x00000002 1027 live 0\nentry 1025 3 1024 0x0003d203\nentry 1025 7 1026 0x0000800f\nentry 1025 11 1027 0x0000f00e\nentry 1025 15 1028 0x0000f00e\n",
);

const SHOWN_MAIN: Told = (
    1,
    "show",
    "rows 3 10\ncounters 1029 0\nobject 1024 job 0x00000010 0 live 0\nobject 1025 process 0x00000000 1024 live 4\nobject 1026 event 0x00000000 0 live 0\nobject 1027 event 0x00000000 0 live 0\nobject 1028 event 0x00000000 0 live 0\nentry 1025 3 1024 0x0003d203\nentry 1025 7 1026 0x0000d003\nentry 1025 11 1027 0x0000d003\nentry 1025 15 1028 0x0000d003\n",
);

// No clause tells what these functions return. So a proof of their callers does not go over the bytes.

fn events() -> &'static [ClientLine] {
    EVENTS.as_slice()
}

fn fix() -> &'static [ClientLine] {
    FIX.as_slice()
}

fn back() -> &'static [ClientLine] {
    BACK.as_slice()
}

fn looks() -> &'static [ClientLine] {
    LOOKS.as_slice()
}

fn branch() -> Told {
    BRANCH
}

fn shown_fix() -> Told {
    SHOWN_FIX
}

fn shown_main() -> Told {
    SHOWN_MAIN
}

/// Whether both books answer each of the lines, or refuse it for the same cause.
fn serve_all(alloc: Global, tried: &mut Book, twin: &mut Book, lines: &[ClientLine]) -> bool {
    for (client, line) in lines {
        if twin_settled(alloc, tried, *client, line) != twin_settled(alloc, twin, *client, line) {
            return false;
        }
    }
    true
}

/// Whether the books are equal, in all that is looked at and in each row of the log.
fn is_twin(alloc: Global, tried: &mut Book, twin: &mut Book) -> bool {
    serve_all(alloc, tried, twin, looks()) && is_same_log(alloc, tried.log(), twin.log())
}

fn is_served(alloc: Global, tried: &mut Book, told: Told) -> bool {
    let (client, line, _) = told;
    twin_refusal(alloc, tried, client, line).is_none()
}

/// Whether the line is answered. If it is refused first, nothing may show that.
fn is_served_whole(alloc: Global, tried: &mut Book, twin: &mut Book, told: Told) -> bool {
    is_served(alloc, tried, told) || (is_twin(alloc, tried, twin) && is_served(alloc, tried, told))
}

/// Whether the line is answered whole or not at all, and with this answer.
fn is_told_whole(alloc: Global, tried: &mut Book, twin: &mut Book, told: Told) -> bool {
    mark(alloc)
        && is_served_whole(alloc, tried, twin, told)
        && tells_last(alloc, tried.log(), told)
        && (is_served(alloc, twin, told) || is_served(alloc, twin, told))
        && is_twin(alloc, tried, twin)
}

/// Whether the whole run goes so.
fn is_run_whole(alloc: Global, tried: &mut Book, twin: &mut Book) -> bool {
    serve_all(alloc, tried, twin, events())
        && is_told_whole(alloc, tried, twin, branch())
        && serve_all(alloc, tried, twin, fix())
        && is_told_whole(alloc, tried, twin, shown_fix())
        && serve_all(alloc, tried, twin, back())
        && is_told_whole(alloc, tried, twin, shown_main())
}

/// Whether the run goes so over this book and a new one.
fn holds_beside(alloc: Global, tried: &mut Book) -> bool {
    match Book::new(alloc, 2) {
        Ok(mut twin) => is_run_whole(alloc, tried, &mut twin),
        Err(_) => false,
    }
}

/// Whether the run goes so over two new books.
fn holds(alloc: Global) -> bool {
    match Book::new(alloc, 2) {
        Ok(mut tried) => holds_beside(alloc, &mut tried),
        Err(_) => false,
    }
}

#[test]
fn refused_after_mark_no_branch_is_half_made(rt: HostRuntime) {
    assert!(rt; holds(rt.alloc()));
}
