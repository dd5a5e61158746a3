//! Session texts of a million calls, and books of too many clients.

use super::checks::check;
use std::alloc::Global;
use std::test::Fail;
use zt_console::{Book, load_text, main_text};
use zt_rows::{Moment, Refusal};

/// How many calls the session text has.
const CALLS: usize = 1_000_000;

/// The first line of a session text. No clause tells it, so a proof of the callers does not go over its bytes.
fn heading() -> &'static [u8] {
    b"zxtt 1\n"
}

/// Four calls of a process: it makes an event, changes the event's signals twice, and makes another event.
fn four_calls() -> &'static [u8] {
    b"1025 event_create\n1025 object_signal 7 0x00000000 0x00000008\n1025 object_signal 7 0x00000008 0x01000000\n1025 event_create\n"
}

/// A session text with the four calls this many times.
fn text_of(alloc: Global, times: usize) -> Result<Vec<u8>, Fail> {
    let mut text = Vec::new(alloc);
    text.extend_from_slice(heading())?;
    for _ in 0..times {
        text.extend_from_slice(four_calls())?;
    }
    Ok(text)
}

#[test]
fn a_million_calls_are_loaded_and_saved(rt: HostRuntime) -> Result<(), Fail> {
    let alloc = rt.alloc();
    let text = text_of(alloc, CALLS / 4)?;
    match load_text(alloc, 1, text.as_slice()) {
        Ok(book) => {
            let saved = main_text(alloc, &book)?;
            check(&rt, saved.as_slice() == text.as_slice());
            Ok(())
        }
        Err((_, refusal)) => Err(refusal.into()),
    }
}

/// Whether a book can have this many clients.
fn has_place_for(alloc: Global, clients: u8) -> Result<bool, Fail> {
    match Book::new(alloc, clients) {
        Ok(_) => Ok(true),
        Err(Refusal::TooManyClients) => Ok(false),
        Err(refusal) => Err(refusal.into()),
    }
}

/// Whether a session text can be loaded for this many clients.
fn loads_for(alloc: Global, clients: u8, text: &[u8]) -> Result<bool, Fail> {
    match load_text(alloc, clients, text) {
        Ok(_) => Ok(true),
        Err((0, Refusal::TooManyClients)) => Ok(false),
        Err((_, refusal)) => Err(refusal.into()),
    }
}

#[test]
fn more_than_four_clients_are_too_many(rt: HostRuntime) -> Result<(), Fail> {
    let alloc = rt.alloc();
    check(&rt, !has_place_for(alloc, 5)?);
    check(&rt, !loads_for(alloc, 5, heading())?);
    check(&rt, has_place_for(alloc, 4)?);
    check(&rt, loads_for(alloc, 4, heading())?);
    Ok(())
}

/// A session text of two calls.
fn two_calls() -> &'static [u8] {
    b"zxtt 1\n1025 event_create\n1025 handle_close 7\n"
}

/// Whether the two calls of a session text are loaded. An allocation failure is reported at line 0.
fn are_two_loaded(alloc: Global) -> Result<bool, Fail> {
    match load_text(alloc, 1, two_calls()) {
        Ok(book) => Ok(book.history().last() == Moment(2)),
        Err((0, Refusal::OutOfMemory)) => Ok(false),
        Err((_, refusal)) => Err(refusal.into()),
    }
}

#[test]
fn refused_memory_loads_no_text(rt: HostRuntime) -> Result<(), Fail> {
    let alloc = rt.alloc();
    if !are_two_loaded(alloc)? {
        check(&rt, are_two_loaded(alloc)?);
    }
    Ok(())
}
