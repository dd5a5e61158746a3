//! Books that are loaded from trees, looked at, and saved again.

use super::trees::{Told, are_told, is_saved_as, loaded};
use crate::tests::checks::check;
use std::alloc::Global;
use zt_book::Book;

/// A book of this many clients over the tree of `text`. It is saved as `saved`, then its clients have the lines and answers
/// of `talk`, and then it is saved as `saved_then`.
#[derive(Clone, Copy)]
struct Session {
    clients: u8,
    text: &'static [u8],
    saved: &'static [u8],
    talk: &'static [Told],
    saved_then: &'static [u8],
}

/// The rows of the opening.
const OPENING: &str =
    "rows 0 4\ncounters 1026 0\nobject 1024 job 0x00000010 0 live 0\nobject 1025 process 0x00000000 1024 live 1\nentry 1025 3 1024 0x0003d203\n";

/// The rows after an event is made at the opening.
const EVENT: &str =
    "rows 1 6\ncounters 1027 0\nobject 1024 job 0x00000010 0 live 0\nobject 1025 process 0x00000000 1024 live 2\nobject 1026 event 0x00000000 0 live 0\nentry 1025 3 1024 0x0003d203\nentry 1025 7 1026 0x0000d003\n";

/// The rows after a port is made there.
const PORT: &str =
    "rows 2 6\ncounters 1027 0\nobject 1024 job 0x00000010 0 live 0\nobject 1025 process 0x00000000 1024 live 2\nobject 1026 port 0x00000000 0 live 0\nentry 1025 3 1024 0x0003d203\nentry 1025 7 1026 0x0000800f\n";

/// One client looks at a port on a branch of its own, and at the event on `main`.
const LOOKS: [Told; 4] = [
    (1, "show", PORT),
    (1, "goto 1", "at 1\n"),
    (1, "show", EVENT),
    (1, "follow fix", "follow fix 2\n"),
];

/// Two clients look. The second follows `main`.
const LOOKS_OF_TWO: [Told; 2] = [(2, "show", EVENT), (1, "show", PORT)];

/// Two clients make calls and a branch.
const CALLS_OF_TWO: [Told; 5] = [
    (1, "1025 handle_close 7", "3 ok\n"),
    (2, "pin", "pinned 1\n"),
    (2, "back 1", "at 0\n"),
    (1, "branch more", "branch more 3\n"),
    (1, "1025 event_create", "4 ok 11\n"),
];

/// Two clients look. The second follows no branch.
const LOOKS_AT_THE_OPENING: [Told; 2] = [(1, "show", PORT), (2, "show", OPENING)];

// No clause tells what these functions return. So a proof of their callers does not go over the bytes.

/// A tree with an event on `main`, a port on another branch, and a client that follows that branch.
fn example() -> &'static [u8] {
    b"zxtt 2\ncall 0 1025 event_create\ncall 0 1025 port_create\nbranch main 1\nbranch fix 2\ncursor 1 follow fix\n"
}

/// The tree of `example` with a second client, which follows `main`.
fn example_of_two() -> &'static [u8] {
    b"zxtt 2\ncall 0 1025 event_create\ncall 0 1025 port_create\nbranch main 1\nbranch fix 2\ncursor 1 follow fix\ncursor 2 follow main\n"
}

/// The tree of `example_of_two` after `CALLS_OF_TWO`.
fn called_of_two() -> &'static [u8] {
    b"zxtt 2\ncall 0 1025 event_create\ncall 0 1025 port_create\ncall 2 1025 handle_close 7\ncall 3 1025 event_create\nbranch main 1\nbranch fix 3\nbranch more 4\ncursor 1 follow more\ncursor 2 at 0\n"
}

/// The tree of `example` with three clients. The second and the third follow no branch.
fn example_of_three() -> &'static [u8] {
    b"zxtt 2\ncall 0 1025 event_create\ncall 0 1025 port_create\nbranch main 1\nbranch fix 2\ncursor 1 follow fix\ncursor 2 at 0\ncursor 3 at 2\n"
}

/// The tree of `example_of_three` without the third client.
fn two_of_three() -> &'static [u8] {
    b"zxtt 2\ncall 0 1025 event_create\ncall 0 1025 port_create\nbranch main 1\nbranch fix 2\ncursor 1 follow fix\ncursor 2 at 0\n"
}

/// A tree with the opening alone, to which `main` leads.
fn bare() -> &'static [u8] {
    b"zxtt 2\nbranch main 0\n"
}

/// The tree of `bare` with a client.
fn bare_of_one() -> &'static [u8] {
    b"zxtt 2\nbranch main 0\ncursor 1 follow main\n"
}

/// Two calls in a row, as a text of version 1.
fn row() -> &'static [u8] {
    b"zxtt 1\n1025 event_create\n1025 port_create\n"
}

/// The calls of `row` as a tree, with a client.
fn row_of_one() -> &'static [u8] {
    b"zxtt 2\ncall 0 1025 event_create\ncall 1 1025 port_create\nbranch main 2\ncursor 1 follow main\n"
}

/// A tree whose `main` leads to a moment in the middle.
fn head_in_the_middle() -> &'static [u8] {
    b"zxtt 2\ncall 0 1025 event_create\ncall 1 1025 event_create\nbranch main 1\ncursor 1 follow main\n"
}

fn looks() -> &'static [Told] {
    LOOKS.as_slice()
}

fn looks_of_two() -> &'static [Told] {
    LOOKS_OF_TWO.as_slice()
}

fn calls_of_two() -> &'static [Told] {
    CALLS_OF_TWO.as_slice()
}

fn looks_at_the_opening() -> &'static [Told] {
    LOOKS_AT_THE_OPENING.as_slice()
}

/// Whether the clients of this book get these answers, and it is saved as expected before and after.
fn goes_over(alloc: Global, book: &mut Book, session: &Session) -> bool {
    is_saved_as(alloc, book, session.saved)
        && are_told(alloc, book, session.talk)
        && is_saved_as(alloc, book, session.saved_then)
}

/// Whether the session goes as expected over the book that is loaded.
fn goes(alloc: Global, session: &Session) -> bool {
    match loaded(alloc, session.clients, session.text) {
        Some(mut book) => goes_over(alloc, &mut book, session),
        None => false,
    }
}

/// Whether a book of this many clients over the tree of `text` is saved as `saved`, both times that it is saved.
fn is_saved(alloc: Global, clients: u8, text: &'static [u8], saved: &'static [u8]) -> bool {
    goes(
        alloc,
        &Session {
            clients,
            text,
            saved,
            talk: &[],
            saved_then: saved,
        },
    )
}

#[test]
fn a_tree_is_loaded_for_one_client(rt: HostRuntime) {
    let session = Session {
        clients: 1,
        text: example(),
        saved: example(),
        talk: looks(),
        saved_then: example(),
    };
    check(&rt, goes(rt.alloc(), &session));
}

#[test]
fn a_client_without_a_cursor_follows_main(rt: HostRuntime) {
    let session = Session {
        clients: 2,
        text: example(),
        saved: example_of_two(),
        talk: looks_of_two(),
        saved_then: example_of_two(),
    };
    check(&rt, goes(rt.alloc(), &session));
}

#[test]
fn what_clients_do_is_saved(rt: HostRuntime) {
    let session = Session {
        clients: 2,
        text: example_of_two(),
        saved: example_of_two(),
        talk: calls_of_two(),
        saved_then: called_of_two(),
    };
    check(&rt, goes(rt.alloc(), &session));
}

#[test]
fn a_cursor_beyond_the_clients_is_left(rt: HostRuntime) {
    let session = Session {
        clients: 2,
        text: example_of_three(),
        saved: two_of_three(),
        talk: looks_at_the_opening(),
        saved_then: two_of_three(),
    };
    check(&rt, goes(rt.alloc(), &session));
    check(
        &rt,
        is_saved(rt.alloc(), 3, example_of_three(), example_of_three()),
    );
}

#[test]
fn trees_are_saved_as_they_were(rt: HostRuntime) {
    check(&rt, is_saved(rt.alloc(), 1, bare(), bare_of_one()));
    check(&rt, is_saved(rt.alloc(), 0, bare(), bare()));
    check(&rt, is_saved(rt.alloc(), 1, row(), row_of_one()));
    check(
        &rt,
        is_saved(rt.alloc(), 1, head_in_the_middle(), head_in_the_middle()),
    );
}
