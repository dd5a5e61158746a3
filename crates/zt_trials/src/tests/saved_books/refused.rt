//! A tree of several branches that is loaded and saved with each allocation failing in turn. Beside it stands a book that
//! was loaded while none failed.

use super::trees::{loaded, saved_text};
use crate::tests::checks::check;
use crate::tests::commands::mark;
use crate::tests::told_lines::{is_one_text, tell_all_same};
use std::alloc::Global;
use zt_book::Book;
use zt_rows::{Refusal, Saved};
use zt_text::read_saved;

/// The lines that look at the book: where the clients stand, and each moment with its rows. Then that there is no further
/// moment, and where the branches lead.
const LOOKS: [(u8, &str); 22] = [
    (1, "show"),
    (1, "goto 0"),
    (1, "show"),
    (1, "goto 1"),
    (1, "show"),
    (1, "goto 2"),
    (1, "show"),
    (1, "goto 3"),
    (1, "show"),
    (1, "goto 4"),
    (1, "show"),
    (1, "goto 5"),
    (1, "show"),
    (1, "goto 6"),
    (1, "show"),
    (1, "goto 7"),
    (1, "follow main"),
    (1, "follow fix"),
    (1, "follow more"),
    (2, "show"),
    (2, "goto 5"),
    (2, "show"),
];

// No clause tells what these functions return. So a proof of their callers does not go over the bytes.

fn looks() -> &'static [(u8, &'static str)] {
    LOOKS.as_slice()
}

/// Three branches. On `main`, a channel's far end is sent through its near end, which is then closed. On another, a message
/// is written behind the channel. On a third, from the opening, a process is made and makes a port.
fn tree() -> &'static [u8] {
    b"zxtt 2\ncall 0 1025 channel_create\ncall 1 1025 channel_write 7 6869 11\ncall 2 1025 handle_close 7\ncall 0 1025 spawn 3 0\ncall 1 1025 channel_write 7 - -\ncall 4 1026 port_create\nbranch main 3\nbranch fix 5\nbranch more 6\ncursor 1 follow fix\ncursor 2 at 2\n"
}

fn read(alloc: Global) -> Option<Saved> {
    match read_saved(alloc, tree()) {
        Ok(saved) => Some(saved),
        Err(_) => None,
    }
}

fn load(alloc: Global, saved: &Saved) -> Option<Book> {
    match Book::load_saved(alloc, 2, saved) {
        Ok(book) => Some(book),
        Err(_) => None,
    }
}

/// The book of the tree. If an allocation fails, it is loaded again.
fn load_again(alloc: Global, saved: &Saved) -> Option<Book> {
    match Book::load_saved(alloc, 2, saved) {
        Ok(book) => Some(book),
        Err(fault) => {
            if fault == (0, Refusal::OutOfMemory) {
                load(alloc, saved)
            } else {
                None
            }
        }
    }
}

/// Whether both are saved as the same text. The first is saved again, since one allocation may fail.
fn is_saved_as_twin(alloc: Global, tried: &Book, twin: &Option<Vec<u8>>) -> bool {
    is_one_text(&saved_text(alloc, tried), twin) || is_one_text(&saved_text(alloc, tried), twin)
}

/// Whether a book is loaded whole or not at all after the mark, and is then equal to the twin.
fn is_load_whole(alloc: Global, saved: &Saved, twin: &mut Book) -> bool {
    let text = saved_text(alloc, twin);
    if !mark(alloc) {
        return false;
    }
    match load_again(alloc, saved) {
        Some(mut tried) => {
            is_saved_as_twin(alloc, &tried, &text)
                && tell_all_same(alloc, &mut tried, twin, looks())
        }
        None => false,
    }
}

/// Whether a book is saved whole or not at all after the mark, and is then equal to the twin.
fn is_save_whole(alloc: Global, saved: &Saved, twin: &mut Book) -> bool {
    match load(alloc, saved) {
        Some(mut tried) => {
            let text = saved_text(alloc, twin);
            mark(alloc)
                && is_saved_as_twin(alloc, &tried, &text)
                && tell_all_same(alloc, &mut tried, twin, looks())
        }
        None => false,
    }
}

/// A trial beside a book of the tree.
#[derive(Clone, Copy)]
enum SavedTrial {
    Load,
    Save,
}

fn try_beside(alloc: Global, saved: &Saved, twin: &mut Book, trial: SavedTrial) -> bool {
    match trial {
        SavedTrial::Load => is_load_whole(alloc, saved, twin),
        SavedTrial::Save => is_save_whole(alloc, saved, twin),
    }
}

/// Whether the trial holds beside a new book of the tree.
fn holds(alloc: Global, trial: SavedTrial) -> bool {
    match (read(alloc), loaded(alloc, 2, tree())) {
        (Some(saved), Some(mut twin)) => try_beside(alloc, &saved, &mut twin, trial),
        _ => false,
    }
}

#[test]
fn refused_after_mark_no_tree_is_half_loaded(rt: HostRuntime) {
    check(&rt, holds(rt.alloc(), SavedTrial::Load));
}

#[test]
fn refused_after_mark_no_tree_is_half_saved(rt: HostRuntime) {
    check(&rt, holds(rt.alloc(), SavedTrial::Save));
}
