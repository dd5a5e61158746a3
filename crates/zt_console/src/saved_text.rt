//! The session texts of a book.

ghost use Rattle.std.specs.Prelude.{◌≡◌, ◌++◌, [], ◌∷◌, IfOk, IfErr, OnOk, map, string_bytes};
ghost use Rattle.zt_history.specs.Tree.{head_at};
ghost use Rattle.std.specs.List.{filter_map, flat_map};
ghost use Rattle.zt_history.specs.HistoryRefusals.{IsHistoryRefusal, moment_on};
ghost use Rattle.zt_history.specs.Tree.{call_at, calls_to};
ghost use Rattle.zt_book.specs.SavedSessions.{saved_call, saved_of_session};
ghost use Rattle.zt_book.specs.ProofsOnly.SavedSessions.{saved_at};
ghost use Rattle.zt_text.specs.Calls.{session_text};
ghost use Rattle.zt_text.specs.SavedTexts.{saved_call_line, saved_text};

use std::alloc::{AllocError, Global};
use zt_book::Book;
use zt_history::{BranchId, History, push_call};
use zt_rows::{Call, Koid, Moment, Refusal};
use zt_text::{print_session, put_moment, put_places};

/// Returns the session text, of version 1, of the path to the head of `main`. It loads as that path again. Its only error is
/// `OutOfMemory`.
#[tactic(auto, using(crate::proofs::SaveLaws::main_there, crate::proofs::SaveLaws::memory_alone))]
pub fn main_text(alloc: Global, book: &Book) -> Result<Vec<u8>, Refusal>
    ensures ok { IfOk result (λ text. text.items ≡ session_text (calls_to book.now.session.tree.made (head_at book.now.session.tree.branches 0))) }
    ensures refused { IfErr result (λ refusal. refusal ≡ Refusal.OutOfMemory) }
{
    let history = book.history();
    let _position = history.position();
    let head = history.head(BranchId(0));
    path_text(alloc, history, head)
}

/// Returns the session text, of version 2, of the whole tree with its branches and the clients' positions. It loads as that tree
/// again, with the clients where they stand. It leaves out what they pinned and were answered. Its only error is `OutOfMemory`.
#[tactic(auto, unfolding(zt_text::specs::SavedTexts::saved_text))]
pub fn tree_text(alloc: Global, book: &Book) -> Result<Vec<u8>, Refusal>
    ensures ok { IfOk result (λ text. text.items ≡ saved_text (saved_of_session book.now.session)) }
    ensures refused { IfErr result (λ refusal. refusal ≡ Refusal.OutOfMemory) }
{
    let mut moments = String::new(alloc);
    moments.push_str("zxtt 2\n")?;
    put_moments(&mut moments, book.history())?;
    let places = book.save_places()?;
    let mut text = moments.into_bytes();
    put_places(
        alloc,
        &mut text,
        places.branches.as_slice(),
        places.cursors.as_slice(),
    )?;
    Ok(text)
}

/// Appends a line for each moment after the opening.
fn put_moments(text: &mut String, history: &History) -> Result<(), AllocError>
    ensures { OnOk result (string_bytes text.new ≡ string_bytes text.old ++ flat_map saved_call_line (map saved_call history.now.tree.made)) }
{
    let last = history.last();
    for number in 0..last.0 {
        put_line(text, history, Moment(number + 1))?;
    }
    Ok(())
}

/// Appends the line of a moment. Appends nothing for the opening and beyond the last moment.
fn put_line(text: &mut String, history: &History, moment: Moment) -> Result<(), AllocError>
    ensures { OnOk result (string_bytes text.new ≡ string_bytes text.old ++ flat_map saved_call_line (filter_map (saved_at history.now.tree.made) (moment ∷ []))) }
{
    let parent = history.parent_of(moment);
    match history.call_of(moment) {
        Some((process, call)) => put_moment(text, parent, process, call),
        None => Ok(()),
    }
}

/// Returns the session text of the path to a moment. It loads as that path again.
fn path_text(alloc: Global, history: &History, moment: Moment) -> Result<Vec<u8>, Refusal>
    ensures ok { IfOk result (λ text. text.items ≡ session_text (calls_to history.now.tree.made moment)) }
    ensures refused { IfErr result (IsHistoryRefusal (moment_on history.now.tree moment)) }
{
    let way = history.path(moment)?;
    let calls = calls_on(alloc, history, way.as_slice())?;
    Ok(print_session(alloc, calls.as_slice())?)
}

/// Copies the calls of these moments, each with its process.
fn calls_on(
    alloc: Global,
    history: &History,
    way: &[Moment],
) -> Result<Vec<(Koid, Call)>, AllocError>
    ensures { IfOk result (λ calls. calls.items ≡ filter_map (call_at history.now.tree.made) way.now) }
{
    let mut calls = Vec::with_capacity(alloc, way.len())?;
    for moment in way {
        push_call(&mut calls, history, *moment)?;
    }
    Ok(calls)
}
