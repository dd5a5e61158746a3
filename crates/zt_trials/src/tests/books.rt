//! A client's commands if no allocation fails, and with each allocation failing in turn.

ghost use Rattle.std.specs.Prelude.{◌≡◌, ◌≤◌, length};

use super::checks::check;
use std::alloc::{AllocError, Global};
use std::process::Abort;
use std::test::Fail;
use zt_bits::Signals;
use zt_console::Book;
use zt_rows::{
    Answer, Call, Command, HandleValue, Items, Moment, ROOT_PROCESS, Refusal, Reply, Row, RowKey,
};

const NEAR: HandleValue = HandleValue(7);

const FAR: HandleValue = HandleValue(11);

fn handle_of(answer: &Answer) -> Option<HandleValue> {
    match answer {
        Answer::Called(_, Reply::Handle(handle)) => Some(*handle),
        _ => None,
    }
}

/// The handle of an event that the client makes.
fn made(book: &mut Book) -> Option<HandleValue>
    requires { 1 ≤ length book.old.session.clients }
{
    match book.serve(1, &Command::Call(ROOT_PROCESS, Call::EventCreate)) {
        Ok(answer) => handle_of(&answer),
        Err(_) => None,
    }
}

/// The handle of the first event in a new book.
fn made_first(alloc: Global) -> Option<HandleValue> {
    match Book::new(alloc, 1) {
        Ok(mut book) => made(&mut book),
        Err(_) => None,
    }
}

#[test]
fn always_out_of_memory(rt: HostRuntime) {
    check(&rt, made_first(rt.alloc()) == Some(NEAR));
}

/// All rows at the client's position.
pub(super) fn rows_of(book: &mut Book) -> Result<Items<(RowKey, Row)>, Refusal>
    requires { 1 ≤ length book.old.session.clients }
    ensures { length book.new.session.clients ≡ length book.old.session.clients }
{
    match book.serve(1, &Command::Show) {
        Ok(answer) => rows_in(answer),
        Err(refusal) => Err(refusal),
    }
}

fn rows_in(answer: Answer) -> Result<Items<(RowKey, Row)>, Refusal> {
    match answer {
        Answer::Rows(_, rows) => Ok(rows),
        _ => Err(Refusal::NoMoment),
    }
}

/// Whether the rows at the client's position are these.
pub(super) fn has_rows(book: &mut Book, rows: &Items<(RowKey, Row)>) -> bool
    requires { 1 ≤ length book.old.session.clients }
    ensures { length book.new.session.clients ≡ length book.old.session.clients }
{
    match rows_of(book) {
        Ok(found) => found.as_slice() == rows.as_slice(),
        Err(_) => false,
    }
}

pub(super) fn is_served(book: &mut Book, command: &Command) -> bool
    requires { 1 ≤ length book.old.session.clients }
    ensures { length book.new.session.clients ≡ length book.old.session.clients }
{
    book.serve(1, command).is_ok()
}

/// The number of moments, and the number of rows of the log.
fn sizes(book: &Book) -> (Moment, usize) {
    (book.history().last(), book.log().len())
}

/// Serves a command. If an allocation fails, moments, log and all rows are as before, and the command is served when asked
/// again.
fn ask(rt: &impl Abort, book: &mut Book, command: &Command)
    requires { 1 ≤ length book.old.session.clients }
    ensures { length book.new.session.clients ≡ length book.old.session.clients }
{
    if let Ok(before) = rows_of(book) {
        ask_over(rt, book, command, &before);
    }
}

/// Asks as `ask` does, in a book that has these rows.
fn ask_over(rt: &impl Abort, book: &mut Book, command: &Command, before: &Items<(RowKey, Row)>)
    requires { 1 ≤ length book.old.session.clients }
    ensures { length book.new.session.clients ≡ length book.old.session.clients }
{
    let had = sizes(book);
    if !is_served(book, command) {
        check(rt, sizes(book) == had);
        check(rt, has_rows(book, before));
        check(rt, is_served(book, command));
    }
}

/// How many calls `nth_call` has.
const CALLS: u8 = 7;

/// The `n`-th of seven calls. They make an event pair, duplicate a handle, signal the far end, and replace a handle. Then
/// they close the far end, make an event, and close the duplicate.
fn nth_call(n: u8) -> Call {
    match n {
        0 => Call::EventPairCreate,
        1 => Call::HandleDuplicate {
            handle: NEAR,
            rights: 0x8000_0000,
        },
        2 => Call::ObjectSignalPeer {
            handle: NEAR,
            clear: Signals(0),
            set: Signals(0x8),
        },
        3 => Call::HandleReplace {
            handle: NEAR,
            rights: 0x4000,
        },
        4 => Call::HandleClose { handle: FAR },
        5 => Call::EventCreate,
        _ => Call::HandleClose {
            handle: HandleValue(15),
        },
    }
}

/// Asks for each of the calls, and then goes back over four of them.
fn ask_calls(rt: &impl Abort, book: &mut Book)
    requires { 1 ≤ length book.old.session.clients }
{
    for n in 0..CALLS {
        ask(rt, book, &Command::Call(ROOT_PROCESS, nth_call(n)));
    }
    ask(rt, book, &Command::Back(4));
}

#[test]
fn refused_memory_leaves_the_book(rt: HostRuntime) {
    if let Ok(mut book) = Book::new(rt.alloc(), 1) {
        ask_calls(&rt, &mut book);
    }
}

/// Makes three events, a branch from the first of them, and shows its rows. Each command can be asked even if one before it
/// was left out, because there was no memory for the rows to compare with.
fn ask_branch(rt: &impl Abort, book: &mut Book, name: Items<u8>)
    requires { 1 ≤ length book.old.session.clients }
{
    let call = Command::Call(ROOT_PROCESS, Call::EventCreate);
    ask(rt, book, &call);
    ask(rt, book, &call);
    ask(rt, book, &call);
    ask(rt, book, &Command::Back(2));
    ask(rt, book, &Command::Branch(name));
    ask(rt, book, &Command::Show);
}

fn name(alloc: Global) -> Result<Items<u8>, AllocError> {
    Ok(Items::new(b"fix".to_vec(alloc)?))
}

/// Asks as `ask_branch` does, if there is memory for the name.
fn ask_named_branch(rt: &(impl Abort + AllocGlobal), book: &mut Book)
    requires { 1 ≤ length book.old.session.clients }
{
    if let Ok(name) = name(rt.alloc()) {
        ask_branch(rt, book, name);
    }
}

#[test]
fn refused_memory_makes_no_branch(rt: HostRuntime) {
    if let Ok(mut book) = Book::new(rt.alloc(), 1) {
        ask_named_branch(&rt, &mut book);
    }
}

/// Whether two calls are loaded.
fn are_loaded(alloc: Global) -> bool {
    let calls = [
        (ROOT_PROCESS, Call::EventCreate),
        (ROOT_PROCESS, Call::HandleClose { handle: NEAR }),
    ];
    match Book::load(alloc, 1, calls.as_slice()) {
        Ok(book) => book.history().last() == Moment(2),
        Err(_) => false,
    }
}

#[test]
fn refused_memory_loads_nothing(rt: HostRuntime) {
    if !are_loaded(rt.alloc()) {
        check(&rt, are_loaded(rt.alloc()));
    }
}
