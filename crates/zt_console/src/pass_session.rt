//! A session: the lines of one client of a shared book, answered over its pass.

ghost use Rattle.std.specs.Prelude.{◌≡◌, ◌<◌, ◌-◌, ◌^◌, is_ok, OnOk};
ghost use Rattle.std.specs.Io.KnownBytes.{IsAtEnd};
ghost use Rattle.zt_console.specs.Run.{HasTalked, IsCause, outcome};
ghost use Rattle.zt_console.specs.Sessions.{AsksPass};

use crate::book_run::is_pin;
use crate::counted_faults::Counted;
use crate::responder::Responder;
use crate::run_loop::{End, answer_all};
use std::alloc::Global;
use std::io::{Read, Write};
use std::marker::Model;
use std::sync::Wait;
use zt_queries::Frozen;
use zt_rows::{Answer, Command, Refusal};
use zt_shared::account::Naming;
use zt_shared::{Beginning, Gate, Pass, Shared};

/// Answers the commands of one client of a shared book: its pass, with the shared book and the gate.
pub(crate) struct PassResponder<
    'a,
    R: Wait,
    A: Naming + Beginning,
    B: Naming,
    C: Naming,
    D: Naming,
    G: Gate,
> {
    rt: &'a R,
    shared: &'a Shared<A, B, C, D>,
    gate: &'a G,
    pass: Pass<A, B, C, D>,
}

impl<'a, R: Wait, A: Naming + Beginning, B: Naming, C: Naming, D: Naming, G: Gate> Model
    for PassResponder<'a, R, A, B, C, D, G> {
    ghost use Rattle.zt_shared.specs.Sharing.{PassView};

    ghost Value = { PassView };

    ghost view = { λ s. s.pass };
}

impl<'a, R: Wait, A: Naming + Beginning, B: Naming, C: Naming, D: Naming, G: Gate> Responder
    for PassResponder<'a, R, A, B, C, D, G> {
    ghost use Rattle.zt_console.specs.Sessions.{AsksPass};

    ghost asks = { AsksPass };

    ghost ready = { λ s. Unit {0} };

    fn ask(&mut self, request: &Command) -> Result<(Answer, Option<Frozen>), Refusal> {
        let client = self.pass.client();
        let number = next_number(self.pass.len());
        self.gate.before(client, number);
        let given = self.answer(request);
        self.gate.after(client, number);
        given
    }

    fn hear(&self, line: &[u8], text: &[u8]) {
        self.gate.heard(self.pass.client(), line, text);
    }
}

impl<'a, R: Wait, A: Naming + Beginning, B: Naming, C: Naming, D: Naming, G: Gate> PassResponder<
    'a,
    R,
    A,
    B,
    C,
    D,
    G,
> {
    /// Answers a command by the shared book.
    fn answer(&mut self, request: &Command) -> Result<(Answer, Option<Frozen>), Refusal>
        ensures { AsksPass self.old request.now result self.new }
    {
        if is_pin(request) {
            let (answer, copy) = self.shared.pin(self.rt, &mut self.pass)?;
            return Ok((answer, Some(copy)));
        }
        let asked = request.copy()?;
        let answer = self.shared.ask(self.rt, &mut self.pass, asked)?;
        Ok((answer, None))
    }
}

/// Returns one more than this number of rows.
fn next_number(rows: usize) -> u32 {
    match u32::try_from(rows) {
        Ok(count) => count.saturating_add(1),
        Err(_) => u32::MAX,
    }
}

/// Answers the reader's lines, as the pass's client of the shared book, until the input ends or something fails.
///
/// It waits for the book's lock and for the gate. The gate is called outside the lock: before each command, and after it is
/// answered or refused. The gate also hears each line with its answer, whether or not the line is a command.
///
/// The returned `End` is `Stopped` with `ReadFault`, `WriteFault` or `OutOfMemory` after a failure. A command that was answered
/// before stands, even if its answer was not written.
pub fn session<
    R: Wait,
    I: Read,
    O: Write,
    A: Naming + Beginning,
    B: Naming,
    C: Naming,
    D: Naming,
    G: Gate,
>(
    rt: &R,
    alloc: Global,
    reader: &mut Counted<I>,
    writer: &mut Counted<O>,
    shared: &Shared<A, B, C, D>,
    pass: Pass<A, B, C, D>,
    gate: &G,
) -> (Pass<A, B, C, D>, End)
    requires reads { reader.old.1 < 2 ^ 64 - 1 }
    requires writes { writer.old.1 < 2 ^ 64 - 1 }
    ensures talk { HasTalked AsksPass pass result.0 (I.remaining reader.old.0) (O.contents writer.old.0) (O.contents writer.new.0) (is_ok (outcome result.1)) }
    ensures end { OnOk (outcome result.1) (IsAtEnd (I.remaining reader.new.0)) }
    ensures cause { IsCause (reader.old.1, reader.new.1) (writer.old.1, writer.new.1) (I.remaining reader.old.0) (outcome result.1) }
    ensures who { result.0.client ≡ pass.client }
    ensures base { result.0.base ≡ pass.base }
{
    let responder = PassResponder {
        rt,
        shared,
        gate,
        pass,
    };
    let (responder, outcome) = answer_all(alloc, responder, reader, writer);
    let PassResponder {
        rt: _,
        shared: _,
        gate: _,
        pass,
    } = responder;
    match outcome {
        Ok(()) => (pass, End::Finished),
        Err(refusal) => (pass, End::Stopped(refusal)),
    }
}
