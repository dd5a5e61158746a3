//! Answers lines over a book.

ghost use Rattle.std.specs.Prelude.{◌≤◌, IfOk, OnErr, length};
ghost use Rattle.zt_view.specs.Answers.{IsPartOfTalk, IsTalk};

use std::alloc::Global;
use zt_console::{Book, Counted, End, explore};
use zt_rows::Refusal;

/// Returns the text that answers these lines over a book, and the book after them. If it stops early, the returned book is the
/// one after the lines that were answered.
pub fn talk(alloc: Global, book: Book, lines: &[u8]) -> (Book, Result<Vec<u8>, Refusal>)
    requires { 1 ≤ length book.session.clients }
    ensures whole { IfOk result.1 (λ text. IsTalk book result.0 lines.now text.items) }
    ensures part { OnErr result.1 (IsPartOfTalk book result.0 lines.now) }
    ensures clients { 1 ≤ length result.0.session.clients }
{
    let mut reader = Counted::new(lines);
    let mut writer = Counted::new(Vec::new(alloc));
    let (book, end) = explore(alloc, book, &mut reader, &mut writer);
    match end {
        End::Finished => (book, Ok(writer.into_inner())),
        End::Stopped(refusal) => (book, Err(refusal)),
    }
}
