//! Loads and saves session texts.

ghost use Rattle.std.specs.Prelude.{◌≡◌, IfOk, List, length, ℕ};
ghost use Rattle.zt_console.specs.LoadedText.{IsLoadedOf};
ghost use Rattle.zt_text.specs.Notes.{notes_of};

use std::alloc::Global;
use std::io::Write;
use zt_console::{Book, load_text_told, tree_text_with};
use zt_files::{Progress, read_whole, write_whole};
use zt_text::Notes;
use zt_view::View;
use zt_words::{Fault, TraceLine};

/// Loads a session text from a file into a book with one client, with its notes and names. A person at a terminal sees the
/// progress.
pub fn load(rt: &HostRuntime, path: &str) -> Result<(Book, Notes), Fault>
    ensures loaded { IfOk result (λ loaded. (text : List ℕ) × IsLoadedOf 1 text loaded.0 × (loaded.1 ≡ notes_of text)) }
    ensures clients { IfOk result (λ loaded. length loaded.0.session.clients ≡ 1) }
{
    match read_whole(rt, path) {
        Ok(text) => noted_book(
            rt.alloc(),
            path,
            text.as_slice(),
            &Progress::new(rt, "zxtt-view"),
        ),
        Err(fault) => Err(fault),
    }
}

/// Loads a session text, which was read from `path`, into a book with one client, with its notes and names.
fn noted_book(
    alloc: Global,
    path: &str,
    text: &[u8],
    told: &Progress<'_>,
) -> Result<(Book, Notes), Fault>
    ensures loaded { IfOk result (λ loaded. IsLoadedOf 1 text.now loaded.0 × (loaded.1 ≡ notes_of text.now)) }
    ensures clients { IfOk result (λ loaded. length loaded.0.session.clients ≡ 1) }
{
    let book = book_of(alloc, path, text, told)?;
    match Notes::read(alloc, text) {
        Ok(notes) => Ok((book, notes)),
        Err(_) => Err(Fault::of_memory()),
    }
}

/// Loads a session text, which was read from `path`, into a book with one client. Erases the line of progress at the end.
fn book_of(alloc: Global, path: &str, text: &[u8], told: &Progress<'_>) -> Result<Book, Fault>
    ensures loaded { IfOk result (IsLoadedOf 1 text.now) }
    ensures clients { IfOk result (λ book. length book.session.clients ≡ 1) }
{
    let loaded = load_text_told(alloc, 1, text, told);
    told.wipe();
    match loaded {
        Ok(book) => Ok(book),
        Err((line, refusal)) => Err(Fault::Trace {
            line,
            refusal,
            place: TraceLine::of(alloc, path, text, line),
        }),
    }
}

/// Writes the session text of the whole tree, with its notes and names, if a file is named. `write_whole` says what an existing
/// file has after a failure.
pub fn save_tree(rt: &HostRuntime, view: &View, to: Option<&str>) -> Result<(), Fault> {
    let Some(path) = to else {
        return Ok(());
    };
    match &view.book {
        Some(book) => save_book(rt, book, &view.notes, path),
        None => Err(Fault::of_memory()),
    }
}

/// Writes the session text of the whole tree of a book, with these notes and names.
fn save_book(rt: &HostRuntime, book: &Book, notes: &Notes, path: &str) -> Result<(), Fault> {
    let text = tree_text_with(rt.alloc(), book, notes)?;
    write_whole(rt, path, text.as_slice())
}
