//! Trees that do not load, each with its fault.

use crate::tests::checks::check;
use std::alloc::Global;
use zt_book::Book;
use zt_rows::Refusal;
use zt_text::read_saved;

/// The lines of a tree behind the first, the number of the item at fault, and why it is refused.
type Faulty = (&'static str, u64, Refusal);

/// Trees with moments that cannot be.
const MOMENTS: [Faulty; 4] = [
    (
        "call 0 1025 event_create\ncall 2 1025 event_create\nbranch main 0\n",
        1,
        Refusal::NoMoment,
    ),
    (
        "call 4294967295 7 event_create\nbranch main 0\n",
        0,
        Refusal::NoMoment,
    ),
    (
        "call 0 1025 event_create\ncall 1 1026 event_create\nbranch fix 9\n",
        1,
        Refusal::NoProcess,
    ),
    (
        "call 0 1025 process_exit 0\ncall 1 1025 event_create\nbranch main 0\n",
        1,
        Refusal::NoProcess,
    ),
];

/// Trees whose first branch cannot be, or that have none.
const FIRST_BRANCHES: [Faulty; 6] = [
    ("call 0 1025 event_create\n", 1, Refusal::NoBranch),
    (
        "call 0 1025 event_create\ncursor 1 at 0\n",
        1,
        Refusal::NoBranch,
    ),
    ("", 0, Refusal::NoBranch),
    (
        "call 0 1025 event_create\nbranch fix 1\nbranch main 1\n",
        1,
        Refusal::NoBranch,
    ),
    ("branch Main 9\n", 0, Refusal::NoBranch),
    (
        "call 0 1025 event_create\nbranch main 2\n",
        1,
        Refusal::NoMoment,
    ),
];

/// Trees with further branches that cannot be.
const BRANCHES: [Faulty; 6] = [
    ("branch main 0\nbranch main 0\n", 1, Refusal::NameTaken),
    (
        "branch main 0\nbranch fix 0\nbranch more 0\nbranch fix 9\n",
        3,
        Refusal::NameTaken,
    ),
    ("branch main 0\nbranch Fix 9\n", 1, Refusal::BadName),
    (
        "branch main 0\nbranch a12345678901234567890123456789012 0\n",
        1,
        Refusal::BadName,
    ),
    (
        "call 0 1025 event_create\nbranch main 0\nbranch fix 2\n",
        2,
        Refusal::NoMoment,
    ),
    (
        "call 0 1025 event_create\nbranch main 0\nbranch fix 3\ncursor 1 follow gone\n",
        2,
        Refusal::NoMoment,
    ),
];

/// Trees with cursors that cannot be. The last such cursor is of no client.
const CURSORS: [Faulty; 4] = [
    ("branch main 0\ncursor 1 follow fix\n", 1, Refusal::NoBranch),
    (
        "call 0 1025 event_create\nbranch main 1\nbranch fix 0\ncursor 1 at 2\n",
        3,
        Refusal::NoMoment,
    ),
    (
        "branch main 0\ncursor 1 follow main\ncursor 2 follow Main\n",
        2,
        Refusal::NoBranch,
    ),
    (
        "branch main 0\ncursor 1 at 0\ncursor 2 at 0\ncursor 3 at 0\ncursor 4 at 1\n",
        4,
        Refusal::NoMoment,
    ),
];

// No clause tells what these functions return. So a proof of their callers does not go over the bytes.

fn moments() -> &'static [Faulty] {
    MOMENTS.as_slice()
}

fn first_branches() -> &'static [Faulty] {
    FIRST_BRANCHES.as_slice()
}

fn branches() -> &'static [Faulty] {
    BRANCHES.as_slice()
}

fn cursors() -> &'static [Faulty] {
    CURSORS.as_slice()
}

fn first_line() -> &'static [u8] {
    b"zxtt 2\n"
}

/// The session text of these lines.
fn text_of(alloc: Global, lines: &str) -> Option<Vec<u8>> {
    let mut text = Vec::new(alloc);
    if text.extend_from_slice(first_line()).is_ok()
        && text.extend_from_slice(lines.as_bytes()).is_ok()
    {
        Some(text)
    } else {
        None
    }
}

/// The fault of a tree that does not load for this many clients.
fn fault_for(alloc: Global, clients: u8, text: &[u8]) -> Option<(u64, Refusal)> {
    match read_saved(alloc, text) {
        Ok(saved) => match Book::load_saved(alloc, clients, &saved) {
            Ok(_) => None,
            Err(fault) => Some(fault),
        },
        Err(_) => None,
    }
}

/// Whether a tree has this fault for one client, and is refused for five clients.
fn is_faulty(alloc: Global, faulty: Faulty) -> bool {
    let (lines, number, refusal) = faulty;
    match text_of(alloc, lines) {
        Some(text) => {
            fault_for(alloc, 1, text.as_slice()) == Some((number, refusal))
                && fault_for(alloc, 5, text.as_slice()) == Some((0, Refusal::TooManyClients))
        }
        None => false,
    }
}

/// Whether each of the trees has its fault.
fn are_faulty(alloc: Global, faults: &[Faulty]) -> bool {
    for faulty in faults {
        if !is_faulty(alloc, *faulty) {
            return false;
        }
    }
    true
}

#[test]
fn moments_of_a_tree_are_refused(rt: HostRuntime) {
    check(&rt, are_faulty(rt.alloc(), moments()));
}

#[test]
fn the_first_branch_of_a_tree_is_main(rt: HostRuntime) {
    check(&rt, are_faulty(rt.alloc(), first_branches()));
}

#[test]
fn branches_of_a_tree_are_refused(rt: HostRuntime) {
    check(&rt, are_faulty(rt.alloc(), branches()));
}

#[test]
fn cursors_of_a_tree_are_refused(rt: HostRuntime) {
    check(&rt, are_faulty(rt.alloc(), cursors()));
}
