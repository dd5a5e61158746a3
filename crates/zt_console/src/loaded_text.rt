//! Loads a session text into a book.

ghost use Rattle.std.specs.Prelude.{◌≡◌, ◌≤◌, ◌<◌, true, false, Ok, length, IfOk, IfErr, OnOk};
ghost use Rattle.zt_text.specs.Lines.{lines_of};
ghost use Rattle.zt_text.specs.SessionCalls.{calls_left, row_lines};
ghost use Rattle.zt_console.specs.LoadedText.{at_line, IsLoadedOf, IsNotLoaded};
ghost use Rattle.zt_console.specs.ProofsOnly.LoadedText.{with_left, IsFirstOf, IsNotLoadedRow};

use std::alloc::Global;
use zt_book::{Book, CallsInARow, LoadProgress, NoProgress};
use zt_rows::{CLIENTS, Refusal};
use zt_text::laws::calls_one_by_one_are_those_of_the_text;
use zt_text::{SessionCalls, line_of_call, read_saved};

/// Loads a session text of either version into a book with this many clients. Fails with a refusal and the number of its line,
/// counted from 1, skipped lines included. The number is 0 if no line is at fault, as for `OutOfMemory` and `TooManyClients`.
pub fn load_text(alloc: Global, clients: u8, text: &[u8]) -> Result<Book, (u64, Refusal)>
    ensures ok { IfOk result (IsLoadedOf clients text.now) }
    ensures clients { IfOk result (λ book. length book.session.clients ≡ clients) }
    ensures refused { IfErr result (IsNotLoaded clients text.now) }
    ensures few { OnOk result (clients ≤ 4) }
{
    load_text_told(alloc, clients, text, &NoProgress)
}

/// Loads like `load_text`. After each moment it tells `told` how many of all moments are loaded.
pub fn load_text_told<P: LoadProgress>(
    alloc: Global,
    clients: u8,
    text: &[u8],
    told: &P,
) -> Result<Book, (u64, Refusal)>
    ensures ok { IfOk result (IsLoadedOf clients text.now) }
    ensures clients { IfOk result (λ book. length book.session.clients ≡ clients) }
    ensures refused { IfErr result (IsNotLoaded clients text.now) }
    ensures few { OnOk result (clients ≤ 4) }
{
    match SessionCalls::new(text) {
        Ok(calls) if clients <= CLIENTS => load_calls(alloc, clients, text, calls, told),
        _ => load_tree(alloc, clients, text, told),
    }
}

/// Loads a text that is parsed as a whole before any of it is loaded. Errors are those of `load_text`.
fn load_tree<P: LoadProgress>(
    alloc: Global,
    clients: u8,
    text: &[u8],
    told: &P,
) -> Result<Book, (u64, Refusal)>
    ensures ok { IfOk result (IsLoadedOf clients text.now) }
    ensures clients { IfOk result (λ book. length book.session.clients ≡ clients) }
    ensures refused { IfErr result (IsNotLoaded clients text.now) }
    ensures few { OnOk result (clients ≤ 4) }
{
    let saved = read_saved(alloc, text)?;
    match Book::take_saved(alloc, clients, saved, told) {
        Ok(book) => Ok(book),
        Err(fault) => Err(at_line(text, fault)),
    }
}

/// Loads a text of version 1. Each call is loaded as its line is read. Errors are those of `load_text`.
fn load_calls<P: LoadProgress>(
    alloc: Global,
    clients: u8,
    text: &[u8],
    calls: SessionCalls<'_>,
    told: &P,
) -> Result<Book, (u64, Refusal)>
    requires few { clients ≤ 4 }
    requires all { row_lines (lines_of text.now) ≡ Ok calls }
    ensures ok { IfOk result (IsLoadedOf clients text.now) }
    ensures clients { IfOk result (λ book. length book.session.clients ≡ clients) }
    ensures refused { IfErr result (IsNotLoaded clients text.now) }
{
    calls_one_by_one_are_those_of_the_text();
    let Ok(mut row) = CallsInARow::new(alloc) else {
        return Err((0, Refusal::OutOfMemory));
    };
    put_calls(alloc, text, &mut row, calls, told)?;
    match row.finish(alloc, clients) {
        Ok(book) => Ok(book),
        Err(refusal) => Err((0, refusal)),
    }
}

/// Loads these calls in order after those that are loaded, and reports the progress. Errors are those of `load_text`.
pub(crate) fn put_calls<P: LoadProgress>(
    alloc: Global,
    text: &[u8],
    row: &mut CallsInARow,
    calls: SessionCalls<'_>,
    told: &P,
) -> Result<(), (u64, Refusal)>
    ensures ok { OnOk result (with_left row.old calls.entry ≡ Ok row.new) }
    ensures refused { IfErr result (IsNotLoadedRow text.now (with_left row.old calls.entry)) }
{
    let all = counted(&calls, told);
    let mut left = calls;
    'calls: while put_next(alloc, text, row, &mut left)? {
        tell(told, row, all);
    }
    Ok(())
}

/// Counts the calls to be loaded, if anyone sees the progress.
fn counted<P: LoadProgress>(calls: &SessionCalls<'_>, told: &P) -> Option<usize> {
    if told.is_told() {
        Some(calls.count())
    } else {
        None
    }
}

/// Tells how many calls are loaded, if the number of all calls is known.
fn tell<P: LoadProgress>(told: &P, row: &CallsInARow, all: Option<usize>) {
    if let Some(all) = all {
        told.loaded(row.len(), all);
    }
}

/// Loads the next call, and returns whether there was one.
#[inline(always)]
fn put_next(
    alloc: Global,
    text: &[u8],
    row: &mut CallsInARow,
    left: &mut SessionCalls<'_>,
) -> Result<bool, (u64, Refusal)>
    ensures whole { IfOk result (λ some. some ≡ true → with_left row.new left.new ≡ with_left row.old left.old) }
    ensures shorter { IfOk result (λ some. some ≡ true → length left.new.lines < length left.old.lines) }
    ensures end { IfOk result (λ some. some ≡ false → with_left row.old left.old ≡ Ok row.new) }
    ensures refused { IfErr result (IsNotLoadedRow text.now (with_left row.old left.old)) }
{
    calls_one_by_one_are_those_of_the_text();
    match left.next(alloc) {
        Ok(Some((process, call))) => match row.push(process, call) {
            Ok(()) => Ok(true),
            Err(refused) => Err(first_fault(alloc, text, left, refused)),
        },
        Ok(None) => Ok(false),
        Err(fault) => Err(fault),
    }
}

/// Returns the first fault of a text with a refused call. A parse error in the lines `others` comes before the refusal.
fn first_fault(
    alloc: Global,
    text: &[u8],
    others: &mut SessionCalls<'_>,
    refused: (u64, Refusal),
) -> (u64, Refusal)
    ensures { IsFirstOf text.now (calls_left others.old) refused result }
{
    match others.read_rest(alloc) {
        Ok(()) => at_line(text, refused),
        Err(unread) => unread,
    }
}

/// Converts the number of an item to the number of its line. Moments, branches and cursors are counted together from 0.
/// `OutOfMemory` and `TooManyClients` are at no line, and get 0.
fn at_line(text: &[u8], fault: (u64, Refusal)) -> (u64, Refusal)
    ensures { result ≡ at_line text.now fault }
{
    let (number, refusal) = fault;
    match refusal {
        Refusal::OutOfMemory | Refusal::TooManyClients => (0, refusal),
        _ => (line_of_call(text, number), refusal),
    }
}
