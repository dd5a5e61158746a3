//! Runs in which one read or one write fails.

ghost use Rattle.std.specs.Prelude.{◌≡◌, ◌≤◌, IfOk, length};

use super::checks::check;
use std::alloc::Global;
use std::io;
use std::io::{ErrorKind, Read, Write};
use std::process::Abort;
use std::test::Fail;
use zt_console::{Book, Counted, End, run};
use zt_rows::Refusal;

/// Lines, and the answers to them.
#[derive(Clone, Copy)]
struct Script {
    asked: &'static [u8],
    answers: &'static [u8],
}

// No clause tells the lines, so a proof of the callers does not go over their bytes.

/// Two calls and two commands. The last is answered with many rows.
fn stored_run() -> Script {
    Script {
        asked: b"1025 event_create\n1025 object_signal 7 0x00000000 0x00000008\nback 1\nshow\n",
        answers: b"1 ok 7\n2 ok\nat 1\nrows 1 6\ncounters 1027 0\nobject 1024 job 0x00000010 0 live 0\nobject 1025 process 0x00000000 1024 live 2\nobject 1026 event 0x00000000 0 live 0\nentry 1025 3 1024 0x0003d203\nentry 1025 7 1026 0x0000d003\n",
    }
}

/// Three calls, and a question about them. In other trials two clients make these calls, and the second closes the peer of
/// the first client's channel.
fn peer_closed() -> Script {
    Script {
        asked: b"1025 channel_create\n1025 handle_close 11\n1025 channel_write 7 - -\nwhen peer_closed 1026\n",
        answers: b"1 ok 7 11\n2 ok\n3 peer_closed\n2 1025 handle_close 11\n",
    }
}

/// Moves one byte at each use, and fails once, after `good` uses.
#[derive(Drop)]
struct Turns<T> {
    inner: T,
    good: u64,
}

impl<T> Turns<T> {
    fn fails(&mut self) -> bool {
        let fails = self.good == 0;
        self.good = self.good.wrapping_sub(1);
        fails
    }
}

impl<R: Read> Read for Turns<R> {
    fn read(&mut self, buf: &mut [u8]) -> io::Result<usize> {
        if self.fails() {
            return Err(io::Error::from(ErrorKind::Other));
        }
        let size = buf.len().min(1);
        self.inner.read(&mut buf[..size])
    }
}

impl<W: Write> Write for Turns<W> {
    fn write(&mut self, buf: &[u8]) -> io::Result<usize> {
        if self.fails() {
            return Err(io::Error::from(ErrorKind::Other));
        }
        let size = buf.len().min(1);
        self.inner.write(&buf[..size])
    }

    fn flush(&mut self) -> io::Result<()> {
        self.inner.flush()
    }
}

/// A writer that takes nothing and cannot be flushed.
#[derive(Drop)]
struct Stuck;

impl Write for Stuck {
    fn write(&mut self, _buf: &[u8]) -> io::Result<usize> {
        Ok(0)
    }

    fn flush(&mut self) -> io::Result<()> {
        Err(io::Error::from(ErrorKind::Other))
    }
}

/// Runs lines over a book, with new counts of failed reads and writes.
pub(super) fn talk<R: Read + Drop, W: Write>(
    alloc: Global,
    book: Book,
    reader: R,
    writer: W,
) -> (Book, End, W)
    requires { 1 ≤ length book.session.clients }
    ensures { length result.0.session.clients ≡ length book.session.clients }
{
    let mut reader = Counted::new(reader);
    let mut writer = Counted::new(writer);
    let (book, end) = run(alloc, book, &mut reader, &mut writer);
    (book, end, writer.into_inner())
}

fn feeds(text: &[u8]) -> usize
    ensures { result ≤ length text.now }
{
    text.iter().filter(|byte| **byte == b'\n').count()
}

/// The text behind this many line feeds; empty if there are fewer.
fn behind(text: &[u8], feeds: usize) -> &[u8] {
    let mut left = text;
    for _ in 0..feeds {
        left = match left.iter().position(|byte| *byte == b'\n') {
            Some(feed) => &left[feed + 1..],
            None => &[],
        };
    }
    left
}

/// Runs lines of which a read fails after `good` reads, and then the lines that were not read whole. Returns both ends, and
/// what both wrote.
fn read_again(
    alloc: Global,
    lines: &'static [u8],
    good: usize,
) -> Result<(End, End, Vec<u8>), Refusal> {
    let whole = feeds(lines.split_at(good.min(lines.len())).0);
    let reader = Turns {
        inner: lines,
        good: good as u64,
    };
    let book = Book::new(alloc, 1)?;
    let (book, first, told) = talk(alloc, book, reader, Vec::new(alloc));
    let (_, second, told) = talk(alloc, book, behind(lines, whole), told);
    Ok((first, second, told))
}

/// Checks that the lines that were read whole are answered, and that a run over the others goes on from there.
fn check_failed_read(
    rt: &(impl Abort + AllocGlobal),
    talked: Script,
    good: usize,
) -> Result<(), Fail> {
    let (first, second, told) = read_again(rt.alloc(), talked.asked, good)?;
    check(rt, first == End::Stopped(Refusal::ReadFault));
    check(rt, second == End::Finished);
    check(rt, told.as_slice() == talked.answers);
    Ok(())
}

/// Checks that each read of these lines can fail, also the read of the end.
fn check_each_read(rt: &(impl Abort + AllocGlobal), talked: Script) -> Result<(), Fail> {
    let len = talked.asked.len();
    for good in 0..len {
        check_failed_read(rt, talked, good)?;
    }
    check_failed_read(rt, talked, len)
}

#[test]
fn each_read_fails_once(rt: HostRuntime) -> Result<(), Fail> {
    check_each_read(&rt, stored_run())?;
    check_each_read(&rt, peer_closed())
}

/// Runs lines that come byte by byte, so that each is answered before the next is read. A write fails after `good` writes.
/// Returns what was written too.
fn write_some(
    alloc: Global,
    lines: &'static [u8],
    good: usize,
) -> Result<(Book, End, Vec<u8>), Refusal>
    ensures { IfOk result (λ ran. 1 ≤ length ran.0.session.clients) }
{
    let reader = Turns {
        inner: lines,
        good: u64::MAX,
    };
    let writer = Turns {
        inner: Vec::new(alloc),
        good: good as u64,
    };
    let book = Book::new(alloc, 1)?;
    let (book, end, writer) = talk(alloc, book, reader, writer);
    Ok((book, end, writer.inner))
}

/// Runs such lines, and then those that were not served. Returns the end of each run, with what it wrote.
fn write_again(
    alloc: Global,
    lines: &'static [u8],
    good: usize,
    left: &[u8],
) -> Result<(End, Vec<u8>, End, Vec<u8>), Refusal> {
    let (book, first, written) = write_some(alloc, lines, good)?;
    let (_, second, told) = talk(alloc, book, left, Vec::new(alloc));
    Ok((first, written, second, told))
}

/// Checks that what was written is a prefix, and that a run over the lines that were not served goes on behind it.
fn check_failed_write(
    rt: &(impl Abort + AllocGlobal),
    talked: Script,
    good: usize,
) -> Result<(), Fail> {
    let answers = talked.answers;
    let wanted = answers.split_at(good.min(answers.len())).0;
    let served = feeds(wanted) + 1;
    let left = behind(talked.asked, served);
    let (first, written, second, told) = write_again(rt.alloc(), talked.asked, good, left)?;
    check(rt, first == End::Stopped(Refusal::WriteFault));
    check(rt, written.as_slice() == wanted);
    check(rt, second == End::Finished);
    let rest = if left.is_empty() {
        &[]
    } else {
        behind(answers, served)
    };
    check(rt, told.as_slice() == rest);
    Ok(())
}

/// Checks that each write of the answers can fail.
fn check_each_write(rt: &(impl Abort + AllocGlobal), talked: Script) -> Result<(), Fail> {
    for good in 0..talked.answers.len() {
        check_failed_write(rt, talked, good)?;
    }
    Ok(())
}

#[test]
fn each_write_fails_once(rt: HostRuntime) -> Result<(), Fail> {
    check_each_write(&rt, stored_run())?;
    check_each_write(&rt, peer_closed())
}

#[test]
fn a_failed_flush_is_told(rt: HostRuntime) {
    let mut writer = Counted::new(Stuck);
    check(&rt, writer.flush().is_err());
}
