//! Calls that close nested channels, fire waits for several ports and kill many processes, with each allocation failing in
//! turn.

ghost use Rattle.std.specs.Prelude.{◌≡◌, ◌≤◌, IfOk, length};

use super::books::{has_rows, is_served, rows_of};
use super::checks::check;
use super::runs::talk;
use std::alloc::Global;
use std::io;
use std::io::Write;
use std::process::Abort;
use zt_bits::Signals;
use zt_console::Book;
use zt_rows::{Call, Command, HandleValue, Items, ROOT_PROCESS, Refusal, Row, RowKey};

/// The book that these lines leave.
fn book_after(alloc: Global, lines: &[u8]) -> Result<Book, Refusal>
    ensures { IfOk result (λ book. 1 ≤ length book.session.clients) }
{
    let book = Book::new(alloc, 1)?;
    let (book, _, _) = talk(alloc, book, lines, Vec::new(alloc));
    Ok(book)
}

/// Serves a call after these lines, and goes back over it. If an allocation fails, all rows are as before, and the call is
/// served when asked again. After going back, all rows are as before.
fn check_taken_back(rt: &(impl Abort + AllocGlobal), lines: &[u8], call: Call) {
    if let Ok(mut book) = book_after(rt.alloc(), lines) {
        check_command(rt, &mut book, &Command::Call(ROOT_PROCESS, call));
    }
}

/// Checks as `check_taken_back` does, with a command in this book.
fn check_command(rt: &impl Abort, book: &mut Book, command: &Command)
    requires { 1 ≤ length book.old.session.clients }
{
    if let Ok(before) = rows_of(book) {
        check_served(rt, book, command, &before);
        check_gone_back(rt, book, &before);
    }
}

/// Serves a command. If an allocation fails, all rows are as before, and the command is served when asked again.
fn check_served(rt: &impl Abort, book: &mut Book, command: &Command, before: &Items<(RowKey, Row)>)
    requires { 1 ≤ length book.old.session.clients }
    ensures { length book.new.session.clients ≡ length book.old.session.clients }
{
    if !is_served(book, command) {
        check(rt, has_rows(book, before));
        check(rt, is_served(book, command));
    }
}

/// Goes back over the last call. All rows are then as before it.
fn check_gone_back(rt: &impl Abort, book: &mut Book, before: &Items<(RowKey, Row)>)
    requires { 1 ≤ length book.old.session.clients }
{
    let back = Command::Back(1);
    let moved = is_served(book, &back) || is_served(book, &back);
    check(rt, moved);
    let same = has_rows(book, before) || has_rows(book, before);
    check(rt, same);
}

/// Three channels. The far end of each but the last waits in the queue of the next. No clause tells the lines, so a proof
/// of the callers does not go over their bytes.
fn nested_channels() -> &'static [u8] {
    b"1025 channel_create\n1025 channel_create\n1025 channel_create\n1025 event_create\n1025 channel_write 15 6869 11,31\n1025 channel_write 23 - 19\n"
}

#[test]
fn refused_memory_leaves_no_half_a_cascade(rt: HostRuntime) {
    let call = Call::HandleClose {
        handle: HandleValue(27),
    };
    check_taken_back(&rt, nested_channels(), call);
}

/// Ten waits on one event, for three ports.
fn ten_waits() -> &'static [u8] {
    b"1025 event_create\n1025 port_create\n1025 port_create\n1025 port_create\n1025 object_wait_async 7 11 1 0x00000008\n1025 object_wait_async 7 15 2 0x00000008\n1025 object_wait_async 7 19 3 0x00000008\n1025 object_wait_async 7 11 4 0x00000008\n1025 object_wait_async 7 15 5 0x00000008\n1025 object_wait_async 7 19 6 0x00000008\n1025 object_wait_async 7 11 7 0x00000008\n1025 object_wait_async 7 15 8 0x00000008\n1025 object_wait_async 7 19 9 0x00000008\n1025 object_wait_async 7 11 10 0x00000008\n"
}

#[test]
fn refused_memory_fires_no_wait(rt: HostRuntime) {
    let call = Call::ObjectSignal {
        handle: HandleValue(7),
        clear: Signals(0),
        set: Signals(0x8),
    };
    check_taken_back(&rt, ten_waits(), call);
}

/// Adds a process under the job of handle 7, with an event, a port and a wait of its own.
fn add_process(lines: &mut Vec<u8>, process: u64) -> io::Result<()> {
    lines.write_all(b"1025 spawn 7 0\n")?;
    writeln!(lines, "{process} event_create")?;
    writeln!(lines, "{process} port_create")?;
    writeln!(lines, "{process} object_wait_async 3 7 1 0x00000008")
}

/// A job with forty processes. Each process takes three koids.
fn forty_processes(alloc: Global) -> io::Result<Vec<u8>> {
    let mut lines = Vec::new(alloc);
    lines.write_all(b"1025 job_create 3\n")?;
    for n in 0..40 {
        add_process(&mut lines, 1027 + 3 * n)?;
    }
    Ok(lines)
}

#[test]
fn refused_memory_kills_no_process(rt: HostRuntime) {
    let Ok(lines) = forty_processes(rt.alloc()) else {
        return;
    };
    let call = Call::TaskKill {
        handle: HandleValue(7),
    };
    check_taken_back(&rt, lines.as_slice(), call);
}
