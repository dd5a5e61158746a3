//! Reads a session text of either version as a saved tree.

ghost use Rattle.std.specs.Prelude.{◌≡◌, length, IfOk, IfErr, OnOk};
ghost use Rattle.zt_text.specs.Lines.{lines_of};
ghost use Rattle.zt_text.specs.SavedTexts.{bare, with_lines, tree_lines, saved_of, IsUnreadTree};
ghost use Rattle.zt_text.specs.ProofsOnly.SavedTexts.{IsBehindFirst};

use crate::row_of_calls::read_row;
use crate::saved_lines::take_line;
use crate::saved_lists::SavedLists;
use crate::session_text::{fault_at, next_line};
use std::alloc::Global;
use zt_rows::{Refusal, Saved};

/// Reads a session text of either version as a saved tree. Fails with the line's number, counted from 1, and its parse error; the
/// number is 0 for `OutOfMemory`.
pub fn read_saved(alloc: Global, text: &[u8]) -> Result<Saved, (u64, Refusal)>
    ensures read { IfOk result (λ saved. saved_of text.now ≡ Ok saved) }
    ensures refused { IfErr result (λ fault. IsUnreadTree (saved_of text.now) fault) }
{
    match behind_first(text) {
        Some(left) => read_tree(alloc, left),
        None => read_row(alloc, text),
    }
}

/// Returns the bytes after the first line, or `None` if that line is not `zxtt 2`.
fn behind_first(text: &[u8]) -> Option<&[u8]>
    ensures { IsBehindFirst (tree_lines (lines_of text.now)) result }
{
    if text.is_empty() {
        return None;
    }
    let (first, left) = next_line(text);
    if first == b"zxtt 2".as_slice() {
        Some(left)
    } else {
        None
    }
}

/// Reads the lines after the first line of version 2.
fn read_tree(alloc: Global, text: &[u8]) -> Result<Saved, (u64, Refusal)>
    ensures read { IfOk result (λ saved. with_lines bare 2 (lines_of text.now) ≡ Ok saved) }
    ensures refused { IfErr result (λ fault. IsUnreadTree (with_lines bare 2 (lines_of text.now)) fault) }
{
    let mut tree = SavedLists::new(alloc);
    take_lines(alloc, &mut tree, text)?;
    Ok(tree.into_saved())
}

/// Reads these lines, and adds what they say. The first of them has number 2.
fn take_lines(alloc: Global, tree: &mut SavedLists, text: &[u8]) -> Result<(), (u64, Refusal)>
    ensures taken { OnOk result (with_lines tree.old 2 (lines_of text.now) ≡ Ok tree.new) }
    ensures refused { IfErr result (λ fault. IsUnreadTree (with_lines tree.old 2 (lines_of text.now)) fault) }
{
    let mut left = text;
    let mut number = 2;
    while !left.is_empty() {
        let (line, others) = next_line(left);
        match take_line(alloc, tree, line) {
            Ok(()) => {}
            Err(fault) => return Err(fault_at(number, fault)),
        }
        left = others;
        number += 1;
    }
    Ok(())
}
