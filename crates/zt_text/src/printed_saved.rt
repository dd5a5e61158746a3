//! Prints the session text, of version 2, of a saved tree.

ghost use Rattle.std.specs.Prelude.{◌≡◌, ◌++◌, ◌+◌, IfOk, OnOk, string_bytes};
ghost use Rattle.std.specs.List.{flat_map};
ghost use Rattle.zt_rows.specs.declared.saved.Cursor.TheVariants.{Follows, At};
ghost use Rattle.zt_text.specs.Answers.{as_line};
ghost use Rattle.zt_text.specs.ShownNumbers.{words};
ghost use Rattle.zt_text.specs.SavedTexts.{saved_call_line, branch_line, cursor_words, cursor_lines, saved_text};

use crate::printed_answers::print_name;
use crate::printed_calls::put_call;
use std::alloc::{AllocError, Global};
use zt_rows::{Call, Cursor, Koid, Moment, Saved, SavedBranch, SavedCall};

/// Prints the session text, of version 2, of a saved tree.
#[tactic(auto, unfolding(crate::specs::SavedTexts::saved_text))]
pub fn print_saved(alloc: Global, saved: &Saved) -> Result<Vec<u8>, AllocError>
    ensures { IfOk result (λ text. text.items ≡ saved_text saved.now) }
{
    let mut calls = String::new(alloc);
    calls.push_str("zxtt 2\n")?;
    put_calls(&mut calls, saved.moments.as_slice())?;
    let mut text = calls.into_bytes();
    put_places(
        alloc,
        &mut text,
        saved.branches.as_slice(),
        saved.cursors.as_slice(),
    )?;
    Ok(text)
}

/// Appends a line for each moment.
fn put_calls(text: &mut String, moments: &[SavedCall]) -> Result<(), AllocError>
    ensures { OnOk result (string_bytes text.new ≡ string_bytes text.old ++ flat_map saved_call_line moments.now) }
{
    for made in moments {
        put_moment(text, made.parent, made.process, &made.call)?;
    }
    Ok(())
}

/// Appends the line of a moment: its parent, the process, and the call.
#[tactic(auto, unfolding(crate::specs::Calls::shown_call))]
pub fn put_moment(
    text: &mut String,
    parent: Moment,
    process: Koid,
    call: &Call,
) -> Result<(), AllocError>
    ensures { OnOk result (string_bytes text.new ≡ string_bytes text.old ++ saved_call_line (record { parent = parent; process = process; call = call.now })) }
{
    write!(text, "call {} ", parent.0)?;
    put_call(text, process, call)?;
    text.push_str("\n")
}

/// Appends a line for each branch, and then one for each cursor.
pub fn put_places(
    alloc: Global,
    text: &mut Vec<u8>,
    branches: &[SavedBranch],
    cursors: &[Cursor],
) -> Result<(), AllocError>
    ensures { OnOk result (text.new.items ≡ text.old.items ++ (flat_map branch_line branches.now ++ cursor_lines 1 cursors.now)) }
{
    put_branches(alloc, text, branches)?;
    put_cursors(alloc, text, cursors)
}

/// Appends a line for each branch.
fn put_branches(
    alloc: Global,
    text: &mut Vec<u8>,
    branches: &[SavedBranch],
) -> Result<(), AllocError>
    ensures { OnOk result (text.new.items ≡ text.old.items ++ flat_map branch_line branches.now) }
{
    for branch in branches {
        let line = print_name(alloc, "branch", branch.name.as_slice(), branch.head)?;
        text.extend_from_slice(line.as_slice())?;
    }
    Ok(())
}

/// Appends a line for each client's cursor.
fn put_cursors(alloc: Global, text: &mut Vec<u8>, cursors: &[Cursor]) -> Result<(), AllocError>
    ensures { OnOk result (text.new.items ≡ text.old.items ++ cursor_lines 1 cursors.now) }
{
    for (place, cursor) in cursors.iter().enumerate() {
        put_cursor(alloc, text, place as u64 + 1, cursor)?;
    }
    Ok(())
}

/// Appends the line of a client's cursor.
fn put_cursor(
    alloc: Global,
    text: &mut Vec<u8>,
    client: u64,
    cursor: &Cursor,
) -> Result<(), AllocError>
    ensures { OnOk result (text.new.items ≡ text.old.items ++ as_line (words (cursor_words client cursor.now))) }
{
    match cursor {
        Cursor::Follows(name) => put_follows(alloc, text, client, name.as_slice()),
        Cursor::At(moment) => put_at(alloc, text, client, *moment),
    }
}

/// Appends the line of a client that follows a branch.
fn put_follows(
    alloc: Global,
    text: &mut Vec<u8>,
    client: u64,
    name: &[u8],
) -> Result<(), AllocError>
    ensures { OnOk result (text.new.items ≡ text.old.items ++ as_line (words (cursor_words client (Follows name.now)))) }
{
    let mut words = String::new(alloc);
    write!(words, "cursor {client} follow ")?;
    text.extend_from_slice(words.as_bytes())?;
    text.extend_from_slice(name)?;
    text.push(b'\n')?;
    Ok(())
}

/// Appends the line of a client that stands at a moment.
fn put_at(alloc: Global, text: &mut Vec<u8>, client: u64, moment: Moment) -> Result<(), AllocError>
    ensures { OnOk result (text.new.items ≡ text.old.items ++ as_line (words (cursor_words client (At moment)))) }
{
    let mut line = String::new(alloc);
    writeln!(line, "cursor {client} at {}", moment.0)?;
    text.extend_from_slice(line.as_bytes())
}
