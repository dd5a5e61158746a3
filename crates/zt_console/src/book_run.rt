//! A run: the lines of one reader, answered by a book.

ghost use Rattle.std.specs.Prelude.{◌≡◌, ◌<◌, ◌≤◌, ◌-◌, ◌^◌, length, is_ok, OnOk};
ghost use Rattle.std.specs.Io.KnownBytes.{IsAtEnd};
ghost use Rattle.zt_console.specs.BookRun.{is_pin, AsksBook};
ghost use Rattle.zt_console.specs.Run.{HasTalked, IsCause, outcome};

use crate::counted_faults::Counted;
use crate::hearing::Listener;
use crate::responder::Responder;
use crate::run_loop::{End, answer_all};
use std::alloc::Global;
use std::io::{Read, Write};
use std::marker::Model;
use zt_book::Book;
use zt_queries::Frozen;
use zt_rows::{Answer, Command, Refusal};

/// A run asks as this client of the book.
pub(crate) const CLIENT: u8 = 1;

impl Responder for Book {
    ghost use Rattle.std.specs.Prelude.{◌≤◌, length};
    ghost use Rattle.zt_console.specs.BookRun.{AsksBook};

    ghost asks = { AsksBook };

    ghost ready = { λ b. 1 ≤ length b.session.clients };

    fn ask(&mut self, request: &Command) -> Result<(Answer, Option<Frozen>), Refusal> {
        if is_pin(request) {
            let (answer, copy) = self.pin(CLIENT)?;
            return Ok((answer, Some(copy)));
        }
        let answer = self.serve(CLIENT, request)?;
        Ok((answer, None))
    }
}

/// A book with a listener that hears the lines of client 1.
struct HeardBook<'a, L> {
    book: Book,
    listener: &'a L,
}

impl<'a, L> Model for HeardBook<'a, L> {
    ghost use Rattle.zt_book.specs.Log.{BookView};

    ghost Value = { BookView };

    ghost view = { λ h. h.book };
}

impl<L: Listener> Responder for HeardBook<'_, L> {
    ghost use Rattle.std.specs.Prelude.{◌≤◌, length};
    ghost use Rattle.zt_console.specs.BookRun.{AsksBook};

    ghost asks = { AsksBook };

    ghost ready = { λ b. 1 ≤ length b.session.clients };

    fn ask(&mut self, request: &Command) -> Result<(Answer, Option<Frozen>), Refusal> {
        self.book.ask(request)
    }

    fn hear(&self, line: &[u8], text: &[u8]) {
        self.listener.heard(line, text);
    }
}

/// Whether the command is a pin, whose answer comes with a copy of the history.
pub(crate) fn is_pin(request: &Command) -> bool
    ensures { result ≡ is_pin request.now }
{
    matches!(request, Command::Pin)
}

/// Answers the reader's lines, as client 1 of the book, until the input ends or something fails. The returned `End` is `Stopped`
/// with `ReadFault`, `WriteFault` or `OutOfMemory` after a failure. A command that was answered before stands, even if its answer
/// was not written.
#[tactic(auto, using(crate::proofs::KeepLaws::talked_clients))]
pub fn run<R: Read, W: Write>(
    alloc: Global,
    book: Book,
    reader: &mut Counted<R>,
    writer: &mut Counted<W>,
) -> (Book, End)
    requires client { 1 ≤ length book.session.clients }
    requires reads { reader.old.1 < 2 ^ 64 - 1 }
    requires writes { writer.old.1 < 2 ^ 64 - 1 }
    ensures talk { HasTalked AsksBook book result.0 (R.remaining reader.old.0) (W.contents writer.old.0) (W.contents writer.new.0) (is_ok (outcome result.1)) }
    ensures end { OnOk (outcome result.1) (IsAtEnd (R.remaining reader.new.0)) }
    ensures cause { IsCause (reader.old.1, reader.new.1) (writer.old.1, writer.new.1) (R.remaining reader.old.0) (outcome result.1) }
    ensures clients { length result.0.session.clients ≡ length book.session.clients }
{
    let (book, outcome) = answer_all(alloc, book, reader, writer);
    match outcome {
        Ok(()) => (book, End::Finished),
        Err(refusal) => (book, End::Stopped(refusal)),
    }
}

/// Runs like `run`. The listener hears each line with its answer.
#[tactic(auto, using(crate::proofs::KeepLaws::talked_clients))]
pub fn run_heard<R: Read, W: Write, L: Listener>(
    alloc: Global,
    book: Book,
    reader: &mut Counted<R>,
    writer: &mut Counted<W>,
    listener: &L,
) -> (Book, End)
    requires client { 1 ≤ length book.session.clients }
    requires reads { reader.old.1 < 2 ^ 64 - 1 }
    requires writes { writer.old.1 < 2 ^ 64 - 1 }
    ensures talk { HasTalked AsksBook book result.0 (R.remaining reader.old.0) (W.contents writer.old.0) (W.contents writer.new.0) (is_ok (outcome result.1)) }
    ensures end { OnOk (outcome result.1) (IsAtEnd (R.remaining reader.new.0)) }
    ensures cause { IsCause (reader.old.1, reader.new.1) (writer.old.1, writer.new.1) (R.remaining reader.old.0) (outcome result.1) }
    ensures clients { length result.0.session.clients ≡ length book.session.clients }
{
    let (heard, outcome) = answer_all(alloc, HeardBook { book, listener }, reader, writer);
    let HeardBook { book, listener: _ } = heard;
    match outcome {
        Ok(()) => (book, End::Finished),
        Err(refusal) => (book, End::Stopped(refusal)),
    }
}
