//! Trees that are read and printed if no allocation fails, and with each allocation failing in turn.

use crate::tests::checks::check;
use std::alloc::Global;
use zt_rows::{Refusal, Saved};
use zt_text::{print_saved, read_saved};

// No clause tells what these functions return. So a proof of their callers does not go over the bytes.

/// A tree of three branches, with calls that carry bytes, handles and nothing, and a cursor of each kind.
fn tree() -> &'static [u8] {
    b"zxtt 2\ncall 0 1025 channel_create\ncall 1 1025 event_create\ncall 2 1025 channel_write 7 6869 15\ncall 1 1025 channel_write 7 - -\ncall 0 1025 object_wait_async 3 7 1 0x00000008 edge\nbranch main 3\nbranch fix 4\nbranch more 0\ncursor 1 follow fix\ncursor 2 at 5\ncursor 3 follow main\n"
}

/// The text of `tree` with lines that are skipped, and without the last line feed.
fn skipping() -> &'static [u8] {
    b"zxtt 2\n# a channel\n\ncall 0 1025 channel_create\ncall 1 1025 event_create\ncall 2 1025 channel_write 7 6869 15\ncall 1 1025 channel_write 7 - -\ncall 0 1025 object_wait_async 3 7 1 0x00000008 edge\nbranch main 3\n#\nbranch fix 4\nbranch more 0\ncursor 1 follow fix\ncursor 2 at 5\ncursor 3 follow main"
}

/// Calls of version 1.
fn row() -> &'static [u8] {
    b"zxtt 1\n1025 channel_create\n1025 event_create\n1025 channel_write 7 6869 15\n"
}

/// The calls of `row` as a tree.
fn row_as_tree() -> &'static [u8] {
    b"zxtt 2\ncall 0 1025 channel_create\ncall 1 1025 event_create\ncall 2 1025 channel_write 7 6869 15\nbranch main 3\n"
}

/// Whether an allocation failed.
fn is_for_memory(fault: &(u64, Refusal)) -> bool {
    *fault == (0, Refusal::OutOfMemory)
}

/// The tree of a text. If an allocation fails, the text is read again.
fn read_again(alloc: Global, text: &[u8]) -> Option<Saved> {
    match read_saved(alloc, text) {
        Ok(saved) => Some(saved),
        Err(fault) => {
            if is_for_memory(&fault) {
                read_at_once(alloc, text)
            } else {
                None
            }
        }
    }
}

fn read_at_once(alloc: Global, text: &[u8]) -> Option<Saved> {
    match read_saved(alloc, text) {
        Ok(saved) => Some(saved),
        Err(_) => None,
    }
}

/// Whether the tree is printed as this text.
fn is_printed(alloc: Global, saved: &Saved, text: &[u8]) -> bool {
    match print_saved(alloc, saved) {
        Ok(printed) => printed.as_slice() == text,
        Err(_) => false,
    }
}

/// Whether a text is read as the tree that another text prints. Each is tried again, since an allocation may fail.
fn reads_as(alloc: Global, text: &[u8], printed: &[u8]) -> bool {
    match read_again(alloc, text) {
        Some(saved) => is_printed(alloc, &saved, printed) || is_printed(alloc, &saved, printed),
        None => false,
    }
}

/// Whether a text is read and printed at the first try.
fn reads_at_once(alloc: Global, text: &[u8], printed: &[u8]) -> bool {
    match read_at_once(alloc, text) {
        Some(saved) => is_printed(alloc, &saved, printed),
        None => false,
    }
}

#[test]
fn a_saved_tree_reads_back(rt: HostRuntime) {
    check(&rt, reads_at_once(rt.alloc(), tree(), tree()));
    check(&rt, reads_at_once(rt.alloc(), skipping(), tree()));
    check(&rt, reads_at_once(rt.alloc(), row(), row_as_tree()));
}

#[test]
fn refused_memory_reads_no_half_a_tree(rt: HostRuntime) {
    check(&rt, reads_as(rt.alloc(), tree(), tree()));
}

#[test]
fn refused_memory_reads_no_half_a_row(rt: HostRuntime) {
    check(&rt, reads_as(rt.alloc(), row(), row_as_tree()));
}
