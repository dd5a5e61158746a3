//! Lines of a book's clients, and the answers to them.

ghost use Rattle.std.specs.Prelude.{◌≤◌, length};

use super::commands::command;
use std::alloc::Global;
use zt_book::Book;
use zt_rows::Command;
use zt_text::print_answer;

/// The answer to a command as a text; none if it is refused.
fn answer(alloc: Global, book: &mut Book, client: u8, asked: &Command) -> Option<Vec<u8>>
    requires numbered { 1 ≤ client }
    requires known { client ≤ length book.old.session.clients }
{
    match book.serve(client, asked) {
        Ok(answer) => print_answer(alloc, &answer).ok(),
        Err(_) => None,
    }
}

/// The answer to a client's line as a text; none if it is refused.
pub(super) fn told(alloc: Global, book: &mut Book, client: u8, line: &str) -> Option<Vec<u8>> {
    if client < 1 || book.clients() < client {
        return None;
    }
    match command(alloc, line) {
        Some(asked) => answer(alloc, book, client, &asked),
        None => None,
    }
}

/// Whether both are texts, and the same text.
pub(super) fn is_one_text(first: &Option<Vec<u8>>, second: &Option<Vec<u8>>) -> bool {
    match (first, second) {
        (Some(first), Some(second)) => first.as_slice() == second.as_slice(),
        _ => false,
    }
}

/// Whether both books give a client the same answer, or both refuse its line.
fn tell_same(alloc: Global, first: &mut Book, second: &mut Book, client: u8, line: &str) -> bool {
    let one = told(alloc, first, client, line);
    let other = told(alloc, second, client, line);
    is_one_text(&one, &other) || (one.is_none() && other.is_none())
}

/// Whether both books answer each of the lines alike. Each line may be asked twice, since one allocation may fail.
pub(super) fn tell_all_same(
    alloc: Global,
    first: &mut Book,
    second: &mut Book,
    lines: &[(u8, &'static str)],
) -> bool {
    for (client, line) in lines {
        if !tell_same(alloc, first, second, *client, line)
            && !tell_same(alloc, first, second, *client, line)
        {
            return false;
        }
    }
    true
}
