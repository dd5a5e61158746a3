//! Trials in which one client is lost and another goes on.

use crate::faults::TrialFault;
use crate::gates::NoGate;
use crate::served_clients::{rows_of, serve};
use crate::typed::{
    ANSWERS, OTHER_ROWS, line_ends, lines, other_lines, other_told, told, whole_answers,
};
use std::alloc::Global;
use std::io;
use std::io::{ErrorKind, Read, Write};
use std::sync::Wait;
use std::thread::Threads;
use zt_book::Log;
use zt_console::{End, Served};
use zt_rows::Refusal;

/// The lines of a client that goes away in the middle of a line.
fn cut_lines() -> &'static [u8] {
    b"1025 event_create\nback 1\n1025 object_sig"
}

/// The answers to that client.
fn cut_told() -> &'static [u8] {
    b"1 ok 7\nat 0\nrefused 10 BadLine 6\n"
}

/// Moves one byte at each use, and fails once, after `good` uses.
#[derive(Drop)]
pub struct Turns<T> {
    pub inner: T,
    pub good: usize,
}

impl<T> Turns<T> {
    fn fails(&mut self) -> bool {
        let fails = self.good == 0;
        self.good = self.good.wrapping_sub(1);
        fails
    }
}

impl<R: Read> Read for Turns<R> {
    fn read(&mut self, buf: &mut [u8]) -> io::Result<usize> {
        if self.fails() {
            return Err(io::Error::from(ErrorKind::Other));
        }
        let size = buf.len().min(1);
        self.inner.read(&mut buf[..size])
    }
}

impl<W: Write> Write for Turns<W> {
    fn write(&mut self, buf: &[u8]) -> io::Result<usize> {
        if self.fails() {
            return Err(io::Error::from(ErrorKind::Other));
        }
        let size = buf.len().min(1);
        self.inner.write(&buf[..size])
    }

    fn flush(&mut self) -> io::Result<()> {
        self.inner.flush()
    }
}

/// A reader of lines in memory.
type Reader = Turns<&'static [u8]>;

/// A writer to memory.
type Writer = Turns<Vec<u8>>;

/// The ends of a client with these lines. Its reader and its writer fail after this many uses.
fn ends(alloc: Global, lines: &'static [u8], reads: usize, writes: usize) -> (Reader, Writer) {
    let reader = Turns {
        inner: lines,
        good: reads,
    };
    let writer = Turns {
        inner: Vec::new(alloc),
        good: writes,
    };
    (reader, writer)
}

/// How a client is left: how its session ended, what was written to it, and how many rows the log has of it.
#[derive(Drop)]
pub struct Left<'a> {
    pub end: End,
    pub told: &'a [u8],
    pub rows: usize,
}

impl<'a> Left<'a> {
    /// Whether a client is left so, if its session ended so and this was written to it.
    pub fn is_left(&self, log: &Log, client: u8, end: End, written: &[u8]) -> bool {
        end == self.end && written == self.told && rows_of(log, client) == self.rows
    }

    /// Whether a client that was served is left so.
    fn is_served(&self, log: &Log, client: u8, served: Served<Reader, Writer>) -> bool {
        let Served {
            reader: _,
            writer,
            end,
        } = served;
        self.is_left(log, client, end, writer.into_inner().inner.as_slice())
    }
}

/// Serves a client with these ends, which must be left so, and another that goes on to the end of its lines. Returns how
/// many rows the log has, which are those of both.
fn serve_beside<R: Threads + Wait + AllocGlobal + Sync>(
    rt: &R,
    lost: (Reader, Writer),
    left: &Left<'_>,
) -> Result<usize, TrialFault> {
    let other = ends(rt.alloc(), other_lines(), usize::MAX, usize::MAX);
    let mut all = Vec::new(rt.alloc());
    all.push(lost)?;
    all.push(other)?;
    let (log, served) = serve(rt, all, &NoGate)?;
    if are_left(&log, served, left) {
        Ok(log.len())
    } else {
        Err(TrialFault::LeftOtherwise)
    }
}

/// Whether the first client is left so, and the second went on to its end.
fn are_left(log: &Log, served: Vec<Served<Reader, Writer>>, left: &Left<'_>) -> bool {
    let other = Left {
        end: End::Finished,
        told: other_told(),
        rows: OTHER_ROWS,
    };
    let mut served = served.into_iter();
    let (Some(first), Some(second)) = (served.next(), served.next()) else {
        return false;
    };
    left.is_served(log, 1, first)
        && other.is_served(log, 2, second)
        && log.len() == left.rows.saturating_add(other.rows)
}

/// A client whose reader fails after this many reads. The lines that were read whole are answered, and are in the log.
fn read_fails<R: Threads + Wait + AllocGlobal + Sync>(
    rt: &R,
    good: usize,
) -> Result<usize, TrialFault> {
    let typed = lines();
    let whole = line_ends(typed.split_at(good.min(typed.len())).0);
    let told = told(rt.alloc(), whole)?;
    let left = Left {
        end: End::Stopped(Refusal::ReadFault),
        told: told.as_bytes(),
        rows: whole,
    };
    serve_beside(rt, ends(rt.alloc(), typed, good, usize::MAX), &left)
}

/// A client whose writer fails after this many writes. `told` is what it would be told. The command whose answer could not
/// be written is in the log too.
fn write_fails<R: Threads + Wait + AllocGlobal + Sync>(
    rt: &R,
    told: &[u8],
    good: usize,
) -> Result<usize, TrialFault> {
    let told = told.split_at(good.min(told.len())).0;
    let left = Left {
        end: End::Stopped(Refusal::WriteFault),
        told,
        rows: whole_answers(told.len()).saturating_add(1),
    };
    serve_beside(rt, ends(rt.alloc(), lines(), usize::MAX, good), &left)
}

/// Clients, each of which is lost at another read. The last is lost at the read that would find the end.
pub fn reads_fail<R: Threads + Wait + AllocGlobal + Sync>(rt: &R) -> Result<usize, TrialFault> {
    let mut rows = 0usize;
    for good in 0..=lines().len() {
        rows = rows.saturating_add(read_fails(rt, good)?);
    }
    Ok(rows)
}

/// Clients, each of which is lost at another write.
pub fn writes_fail<R: Threads + Wait + AllocGlobal + Sync>(rt: &R) -> Result<usize, TrialFault> {
    let told = told(rt.alloc(), ANSWERS.len())?;
    let mut rows = 0usize;
    for good in 0..told.len() {
        rows = rows.saturating_add(write_fails(rt, told.as_bytes(), good)?);
    }
    Ok(rows)
}

/// A client that goes away in the middle of a line.
pub fn half_a_line<R: Threads + Wait + AllocGlobal + Sync>(rt: &R) -> Result<usize, TrialFault> {
    let left = Left {
        end: End::Finished,
        told: cut_told(),
        rows: 2,
    };
    serve_beside(
        rt,
        ends(rt.alloc(), cut_lines(), usize::MAX, usize::MAX),
        &left,
    )
}
