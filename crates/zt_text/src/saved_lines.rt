//! Reads one line of a session text of version 2.

ghost use Rattle.std.specs.Prelude.{◌≡◌, true, IfOk, IfErr, OnOk};
ghost use Rattle.zt_text.specs.ReadLines.{IsUnread};
ghost use Rattle.zt_text.specs.SavedTexts.{saved_call, saved_branch, saved_cursor, place_named, follows, at_moment, with_call, with_branch, with_cursor, with_word, with_fields, with_line};

use crate::fields::{Field, Fields};
use crate::read_lines::{fields_in, only_name};
use crate::saved_lists::SavedLists;
use crate::session_text::process_call;
use std::alloc::Global;
use zt_rows::{Cursor, Refusal, SavedBranch, SavedCall};

/// Reads a line, and adds its moment, branch or cursor to the saved tree. A skipped line adds nothing.
#[tactic(auto, unfolding(crate::specs::SavedTexts::with_line))]
pub fn take_line(alloc: Global, tree: &mut SavedLists, line: &[u8]) -> Result<(), Refusal>
    ensures taken { OnOk result (with_line tree.old line.now ≡ Ok tree.new) }
    ensures refused { IfErr result (λ refusal. IsUnread (λ _. true) (with_line tree.old line.now) refusal) }
{
    match fields_in(line)? {
        None => Ok(()),
        Some(fields) => take_fields(alloc, tree, fields),
    }
}

/// Reads the fields of a line, and adds its moment, branch or cursor.
#[tactic(auto, unfolding(crate::specs::SavedTexts::with_fields))]
fn take_fields(alloc: Global, tree: &mut SavedLists, fields: Fields<'_>) -> Result<(), Refusal>
    ensures taken { OnOk result (with_fields tree.old fields.entry ≡ Ok tree.new) }
    ensures refused { IfErr result (λ refusal. IsUnread (λ _. true) (with_fields tree.old fields.entry) refusal) }
{
    let (word, rest) = fields.next()?;
    take_word(alloc, tree, &word, rest)
}

/// Reads the fields after the first word of a line, and adds its moment, branch or cursor.
#[tactic(auto, unfolding(crate::specs::SavedTexts::with_word))]
fn take_word(
    alloc: Global,
    tree: &mut SavedLists,
    word: &Field<'_>,
    rest: Fields<'_>,
) -> Result<(), Refusal>
    ensures taken { OnOk result (with_word tree.old word.now rest.entry ≡ Ok tree.new) }
    ensures refused { IfErr result (λ refusal. IsUnread (λ _. true) (with_word tree.old word.now rest.entry) refusal) }
{
    if word.is("call") && tree.takes_calls() {
        take_call(alloc, tree, rest)
    } else if word.is("branch") && tree.takes_branches() {
        take_branch(alloc, tree, rest)
    } else if word.is("cursor") {
        take_cursor(alloc, tree, rest)
    } else {
        Err(word.fault())
    }
}

#[tactic(auto, unfolding(crate::specs::SavedTexts::with_call))]
fn take_call(alloc: Global, tree: &mut SavedLists, fields: Fields<'_>) -> Result<(), Refusal>
    ensures taken { OnOk result (with_call tree.old fields.entry ≡ Ok tree.new) }
    ensures refused { IfErr result (λ refusal. IsUnread (λ _. true) (with_call tree.old fields.entry) refusal) }
{
    let made = saved_call(alloc, fields)?;
    tree.push_call(made)?;
    Ok(())
}

#[tactic(auto, unfolding(crate::specs::SavedTexts::with_branch))]
fn take_branch(alloc: Global, tree: &mut SavedLists, fields: Fields<'_>) -> Result<(), Refusal>
    ensures taken { OnOk result (with_branch tree.old fields.entry ≡ Ok tree.new) }
    ensures refused { IfErr result (λ refusal. IsUnread (λ _. true) (with_branch tree.old fields.entry) refusal) }
{
    let branch = saved_branch(alloc, fields)?;
    tree.push_branch(branch)?;
    Ok(())
}

#[tactic(auto, unfolding(crate::specs::SavedTexts::with_cursor))]
fn take_cursor(alloc: Global, tree: &mut SavedLists, fields: Fields<'_>) -> Result<(), Refusal>
    ensures taken { OnOk result (with_cursor tree.old fields.entry ≡ Ok tree.new) }
    ensures refused { IfErr result (λ refusal. IsUnread (λ _. true) (with_cursor tree.old fields.entry) refusal) }
{
    let cursor = saved_cursor(alloc, tree.next_client(), fields)?;
    tree.push_cursor(cursor)?;
    Ok(())
}

/// Reads a moment: its parent, the process, and the call.
#[tactic(auto, unfolding(crate::specs::SavedTexts::saved_call))]
fn saved_call(alloc: Global, fields: Fields<'_>) -> Result<SavedCall, Refusal>
    ensures read { IfOk result (λ made. saved_call fields.entry ≡ Ok made) }
    ensures refused { IfErr result (λ refusal. IsUnread (λ _. true) (saved_call fields.entry) refusal) }
{
    let (parent, rest) = fields.moment()?;
    let (process, call) = process_call(alloc, rest)?;
    Ok(SavedCall {
        parent,
        process,
        call,
    })
}

/// Reads a branch and its head.
#[tactic(auto, unfolding(crate::specs::SavedTexts::saved_branch))]
fn saved_branch(alloc: Global, fields: Fields<'_>) -> Result<SavedBranch, Refusal>
    ensures read { IfOk result (λ branch. saved_branch fields.entry ≡ Ok branch) }
    ensures refused { IfErr result (λ refusal. IsUnread (λ _. true) (saved_branch fields.entry) refusal) }
{
    let (name, rest) = fields.name()?;
    let (head, rest) = rest.moment()?;
    rest.end()?;
    let name = name.to_items(alloc)?;
    Ok(SavedBranch { name, head })
}

/// Reads the cursor of this client. A line with another client's number is an error.
#[tactic(auto, unfolding(crate::specs::SavedTexts::saved_cursor))]
fn saved_cursor(alloc: Global, client: u64, fields: Fields<'_>) -> Result<Cursor, Refusal>
    ensures read { IfOk result (λ cursor. saved_cursor client fields.entry ≡ Ok cursor) }
    ensures refused { IfErr result (λ refusal. IsUnread (λ _. true) (saved_cursor client fields.entry) refusal) }
{
    let (_, rest) = fields.client(client)?;
    let (word, rest) = rest.next()?;
    place_named(alloc, &word, rest)
}

/// Reads where a client stands: at the head of a branch after `follow`, or at a moment after `at`.
#[tactic(auto, unfolding(crate::specs::SavedTexts::place_named))]
fn place_named(alloc: Global, word: &Field<'_>, rest: Fields<'_>) -> Result<Cursor, Refusal>
    ensures read { IfOk result (λ cursor. place_named word.now rest.entry ≡ Ok cursor) }
    ensures refused { IfErr result (λ refusal. IsUnread (λ _. true) (place_named word.now rest.entry) refusal) }
{
    if word.is("follow") {
        follows(alloc, rest)
    } else if word.is("at") {
        at_moment(rest)
    } else {
        Err(word.fault())
    }
}

#[tactic(auto, unfolding(crate::specs::SavedTexts::follows))]
fn follows(alloc: Global, fields: Fields<'_>) -> Result<Cursor, Refusal>
    ensures read { IfOk result (λ cursor. follows fields.entry ≡ Ok cursor) }
    ensures refused { IfErr result (λ refusal. IsUnread (λ _. true) (follows fields.entry) refusal) }
{
    let name = only_name(fields)?;
    Ok(Cursor::Follows(name.to_items(alloc)?))
}

#[tactic(auto, unfolding(crate::specs::SavedTexts::at_moment))]
fn at_moment(fields: Fields<'_>) -> Result<Cursor, Refusal>
    ensures { result ≡ at_moment fields.entry }
{
    let (moment, rest) = fields.moment()?;
    rest.end()?;
    Ok(Cursor::At(moment))
}
