//! A run that never meets a client's limit of commands.

ghost use Rattle.std.specs.Prelude.{◌≡◌, ◌<◌, ◌≤◌, ◌-◌, ◌^◌, length, is_ok, OnOk};
ghost use Rattle.std.specs.Io.KnownBytes.{IsAtEnd};
ghost use Rattle.zt_console.specs.Explored.{explored, AsksExplored};
ghost use Rattle.zt_console.specs.Run.{HasTalked, IsCause, outcome};

use crate::book_run::CLIENT;
use crate::counted_faults::Counted;
use crate::responder::Responder;
use crate::run_loop::{End, answer_all};
use std::alloc::Global;
use std::io::{Read, Write};
use std::marker::Model;
use zt_book::Book;
use zt_queries::Frozen;
use zt_rows::{Answer, Command, Refusal};

/// A book that a person explores. It is renewed when client 1 can be answered no more commands.
struct Explorer {
    book: Book,
}

impl Model for Explorer {
    ghost use Rattle.zt_book.specs.Log.{BookView};

    ghost Value = { BookView };

    ghost view = { λ e. e.book };
}

impl Responder for Explorer {
    ghost use Rattle.std.specs.Prelude.{◌≤◌, length};
    ghost use Rattle.zt_console.specs.Explored.{AsksExplored};

    ghost asks = { AsksExplored };

    ghost ready = { λ b. 1 ≤ length b.session.clients };

    fn ask(&mut self, request: &Command) -> Result<(Answer, Option<Frozen>), Refusal> {
        make_room(&mut self.book);
        self.book.ask(request)
    }
}

/// Renews the book if client 1 can be answered no more commands.
fn make_room(book: &mut Book)
    requires { 1 ≤ length book.old.session.clients }
    ensures { book.new ≡ explored book.old }
{
    if !book.has_room(CLIENT) {
        book.renew();
    }
}

/// Runs like `run`, but never refuses a command with `ClientFull`. If client 1 can be answered no more commands, the book is
/// renewed before the next command is served.
#[tactic(auto, using(crate::proofs::KeepLaws::explored_clients))]
pub fn explore<R: Read, W: Write>(
    alloc: Global,
    book: Book,
    reader: &mut Counted<R>,
    writer: &mut Counted<W>,
) -> (Book, End)
    requires client { 1 ≤ length book.session.clients }
    requires reads { reader.old.1 < 2 ^ 64 - 1 }
    requires writes { writer.old.1 < 2 ^ 64 - 1 }
    ensures talk { HasTalked AsksExplored book result.0 (R.remaining reader.old.0) (W.contents writer.old.0) (W.contents writer.new.0) (is_ok (outcome result.1)) }
    ensures end { OnOk (outcome result.1) (IsAtEnd (R.remaining reader.new.0)) }
    ensures cause { IsCause (reader.old.1, reader.new.1) (writer.old.1, writer.new.1) (R.remaining reader.old.0) (outcome result.1) }
    ensures clients { length result.0.session.clients ≡ length book.session.clients }
{
    let (explorer, outcome) = answer_all(alloc, Explorer { book }, reader, writer);
    let Explorer { book } = explorer;
    match outcome {
        Ok(()) => (book, End::Finished),
        Err(refusal) => (book, End::Stopped(refusal)),
    }
}
