//! The session texts of a book, with the notes and the names of the text that was loaded.

ghost use Rattle.std.specs.Prelude.{◌≡◌, ◌++◌, [], ◌∷◌, IfOk, IfErr, OnOk, map};
ghost use Rattle.std.specs.List.{filter_map, flat_map};
ghost use Rattle.zt_history.specs.Tree.{head_at};
ghost use Rattle.zt_book.specs.SavedSessions.{saved_call, saved_of_session};
ghost use Rattle.zt_book.specs.ProofsOnly.SavedSessions.{saved_at};
ghost use Rattle.zt_text.specs.NotedTexts.{noted_call_line, noted_lines, noted_saved_text, noted_session_text};
ghost use Rattle.zt_console.specs.NotedPaths.{numbered_call, numbered_calls_to};

use std::alloc::{AllocError, Global};
use zt_book::Book;
use zt_history::{BranchId, History};
use zt_rows::{Moment, Refusal};
use zt_text::{Notes, put_noted_call, put_noted_moment, put_places};

/// Returns what `main_text` does, with notes and names: the names stand behind the first line, the note of each moment before its
/// call, and the comments that belong to no moment at the end. Its only error is `OutOfMemory`.
#[tactic(auto, unfolding(zt_text::specs::NotedTexts::noted_session_text), using(crate::proofs::SaveLaws::main_there, crate::proofs::SaveLaws::memory_alone))]
pub fn main_text_with(alloc: Global, book: &Book, notes: &Notes) -> Result<Vec<u8>, Refusal>
    ensures ok { IfOk result (λ text. text.items ≡ noted_session_text notes.now (numbered_calls_to book.now.session.tree.made (head_at book.now.session.tree.branches 0))) }
    ensures refused { IfErr result (λ refusal. refusal ≡ Refusal.OutOfMemory) }
{
    let history = book.history();
    let _position = history.position();
    let way = history.path(history.head(BranchId(0)))?;
    let mut text = Vec::from_slice(alloc, b"zxtt 1\n")?;
    text.extend_from_slice(notes.name_lines())?;
    put_calls(alloc, &mut text, history, notes, way.as_slice())?;
    text.extend_from_slice(notes.rest())?;
    Ok(text)
}

/// Returns what `tree_text` does, with notes and names: the names stand behind the first line, the note of each moment before the
/// moment's line, and the comments that belong to no moment at the end. Its only error is `OutOfMemory`.
#[tactic(auto, unfolding(zt_text::specs::NotedTexts::noted_saved_text))]
pub fn tree_text_with(alloc: Global, book: &Book, notes: &Notes) -> Result<Vec<u8>, Refusal>
    ensures ok { IfOk result (λ text. text.items ≡ noted_saved_text notes.now (saved_of_session book.now.session)) }
    ensures refused { IfErr result (λ refusal. refusal ≡ Refusal.OutOfMemory) }
{
    let mut text = Vec::from_slice(alloc, b"zxtt 2\n")?;
    text.extend_from_slice(notes.name_lines())?;
    put_moments(alloc, &mut text, book.history(), notes)?;
    let places = book.save_places()?;
    put_places(
        alloc,
        &mut text,
        places.branches.as_slice(),
        places.cursors.as_slice(),
    )?;
    text.extend_from_slice(notes.rest())?;
    Ok(text)
}

/// Appends a line for each moment after the opening, behind the moment's note.
fn put_moments(
    alloc: Global,
    text: &mut Vec<u8>,
    history: &History,
    notes: &Notes,
) -> Result<(), AllocError>
    ensures { OnOk result (text.new.items ≡ text.old.items ++ noted_lines notes.now 1 (map saved_call history.now.tree.made)) }
{
    let last = history.last();
    let mut line = String::new(alloc);
    for number in 0..last.0 {
        put_line(text, &mut line, history, notes, Moment(number + 1))?;
    }
    Ok(())
}

/// Appends the line of a moment, behind its note. Appends nothing for the opening and beyond the last moment.
fn put_line(
    text: &mut Vec<u8>,
    line: &mut String,
    history: &History,
    notes: &Notes,
    moment: Moment,
) -> Result<(), AllocError>
    ensures { OnOk result (text.new.items ≡ text.old.items ++ noted_lines notes.now moment (filter_map (saved_at history.now.tree.made) (moment ∷ []))) }
{
    let parent = history.parent_of(moment);
    match history.call_of(moment) {
        Some((process, call)) => {
            put_noted_moment(text, line, notes.note(moment), parent, process, call)
        }
        None => Ok(()),
    }
}

/// Appends the line of the call of each of these moments, behind the moment's note.
fn put_calls(
    alloc: Global,
    text: &mut Vec<u8>,
    history: &History,
    notes: &Notes,
    way: &[Moment],
) -> Result<(), AllocError>
    ensures { OnOk result (text.new.items ≡ text.old.items ++ flat_map (noted_call_line notes.now) (filter_map (numbered_call history.now.tree.made) way.now)) }
{
    let mut line = String::new(alloc);
    for moment in way {
        put_call_line(text, &mut line, history, notes, *moment)?;
    }
    Ok(())
}

/// Appends the line of a moment's call, behind the moment's note. Appends nothing for the opening and beyond the last moment.
fn put_call_line(
    text: &mut Vec<u8>,
    line: &mut String,
    history: &History,
    notes: &Notes,
    moment: Moment,
) -> Result<(), AllocError>
    ensures { OnOk result (text.new.items ≡ text.old.items ++ flat_map (noted_call_line notes.now) (filter_map (numbered_call history.now.tree.made) (moment ∷ []))) }
{
    match history.call_of(moment) {
        Some((process, call)) => put_noted_call(text, line, notes.note(moment), process, call),
        None => Ok(()),
    }
}
