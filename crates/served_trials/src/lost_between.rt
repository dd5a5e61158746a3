//! Trials in which a second client closes the peer of the first client's channel and is lost, between two lines of the
//! first.

use crate::faults::TrialFault;
use crate::gates::Flag;
use crate::lost_clients::{Left, Turns};
use crate::served_clients::serve;
use std::alloc::Global;
use std::io;
use std::io::{Read, Write};
use std::sync::Wait;
use std::thread::Threads;
use std::time::Clock;
use zt_book::Log;
use zt_console::{End, Served};
use zt_rows::Refusal;
use zt_shared::Gate;

// No clause tells the texts that these functions return. So a proof of their callers does not go over the bytes.

/// The lines of the first client.
fn first_lines() -> &'static [u8] {
    b"1025 channel_create\n1025 channel_write 7 - -\nwhen peer_closed 1026\n"
}

/// The answers to the first client if the second client's command was served.
fn told_of_close() -> &'static [u8] {
    b"1 ok 7 11\n3 peer_closed\n2 1025 handle_close 11\n"
}

/// The answers to the first client if the second client gave no command.
fn told_of_none() -> &'static [u8] {
    b"1 ok 7 11\n2 ok\nnever\n"
}

/// How many commands the first client gives.
const FIRST_ROWS: usize = 3;

/// The line of the second client.
fn second_line() -> &'static [u8] {
    b"1025 handle_close 11\n"
}

/// The answer to the second client.
fn second_told() -> &'static [u8] {
    b"2 ok\n"
}

/// A reader or a writer of a client that raises a flag when it fails.
#[derive(Drop)]
struct Watched<'a, T> {
    end: Turns<T>,
    lost: &'a Flag,
}

impl<R: Read> Read for Watched<'_, R> {
    fn read(&mut self, buf: &mut [u8]) -> io::Result<usize> {
        let came = self.end.read(buf);
        if came.is_err() {
            self.lost.raise();
        }
        came
    }
}

impl<W: Write> Write for Watched<'_, W> {
    fn write(&mut self, buf: &[u8]) -> io::Result<usize> {
        let went = self.end.write(buf);
        if went.is_err() {
            self.lost.raise();
        }
        went
    }

    fn flush(&mut self) -> io::Result<()> {
        self.end.flush()
    }
}

/// Lets the second client in once the first has its channel. Lets the first go on once the second is lost.
#[derive(Drop)]
struct Between<'a, C> {
    clock: &'a C,
    lost: &'a Flag,
    made: Flag,
    in_vain: Flag,
}

impl<C: Clock> Gate for Between<'_, C> {
    fn before(&self, client: u8, n: u32) {
        let goes_on = match (client, n) {
            (1, 2) => self.lost.stands_in_time(self.clock),
            (2, 1) => self.made.stands_in_time(self.clock),
            _ => true,
        };
        if !goes_on {
            self.in_vain.raise();
        }
    }

    fn after(&self, client: u8, n: u32) {
        if client == 1 && n == 1 {
            self.made.raise();
        }
    }
}

/// A reader of lines in memory.
type Reader<'a> = Watched<'a, &'static [u8]>;

/// A writer to memory.
type Writer<'a> = Watched<'a, Vec<u8>>;

/// The ends of a client with these lines. Its reader and its writer fail after this many uses.
fn ends<'a>(
    alloc: Global,
    lost: &'a Flag,
    lines: &'static [u8],
    reads: usize,
    writes: usize,
) -> (Reader<'a>, Writer<'a>) {
    let reader = Watched {
        end: Turns {
            inner: lines,
            good: reads,
        },
        lost,
    };
    let writer = Watched {
        end: Turns {
            inner: Vec::new(alloc),
            good: writes,
        },
        lost,
    };
    (reader, writer)
}

/// How both clients are left.
#[derive(Drop)]
struct BothLeft<'a> {
    first: Left<'a>,
    second: Left<'a>,
}

/// Whether this client is left as expected.
fn is_served(
    left: &Left<'_>,
    log: &Log,
    client: u8,
    served: Served<Reader<'_>, Writer<'_>>,
) -> bool {
    let Served {
        reader: _,
        writer,
        end,
    } = served;
    left.is_left(log, client, end, writer.into_inner().end.inner.as_slice())
}

/// Whether both clients are left as expected, and the log has no other rows.
fn are_left(log: &Log, served: Vec<Served<Reader<'_>, Writer<'_>>>, left: &BothLeft<'_>) -> bool {
    let mut served = served.into_iter();
    let (Some(first), Some(second)) = (served.next(), served.next()) else {
        return false;
    };
    is_served(&left.first, log, 1, first)
        && is_served(&left.second, log, 2, second)
        && log.len() == left.first.rows.saturating_add(left.second.rows)
}

/// Serves both clients. The second is lost after this many reads or writes. Returns how many rows the log has.
fn serve_both<R: Threads + Wait + AllocGlobal + Clock + Sync>(
    rt: &R,
    reads: usize,
    writes: usize,
    left: &BothLeft<'_>,
) -> Result<usize, TrialFault> {
    let lost = Flag::new();
    let gate = Between {
        clock: rt,
        lost: &lost,
        made: Flag::new(),
        in_vain: Flag::new(),
    };
    let mut all = Vec::new(rt.alloc());
    all.push(ends(rt.alloc(), &lost, first_lines(), usize::MAX, usize::MAX))?;
    all.push(ends(rt.alloc(), &lost, second_line(), reads, writes))?;
    let (log, served) = serve(rt, all, &gate)?;
    if gate.in_vain.stands() {
        return Err(TrialFault::HeldInVain);
    }
    if are_left(&log, served, left) {
        Ok(log.len())
    } else {
        Err(TrialFault::LeftOtherwise)
    }
}

/// How the first client is left: `closed` is whether the second client's command was served.
fn first_left(closed: bool) -> Left<'static> {
    Left {
        end: End::Finished,
        told: if closed {
            told_of_close()
        } else {
            told_of_none()
        },
        rows: FIRST_ROWS,
    }
}

/// A second client whose reader fails after this many reads. Its command is served if the whole line was read.
fn read_fails<R: Threads + Wait + AllocGlobal + Clock + Sync>(
    rt: &R,
    good: usize,
) -> Result<usize, TrialFault> {
    let closed = good >= second_line().len();
    let second = Left {
        end: End::Stopped(Refusal::ReadFault),
        told: if closed { second_told() } else { b"" },
        rows: usize::from(closed),
    };
    let left = BothLeft {
        first: first_left(closed),
        second,
    };
    serve_both(rt, good, usize::MAX, &left)
}

/// A second client whose writer fails after this many writes. Its row stays in the log.
fn write_fails<R: Threads + Wait + AllocGlobal + Clock + Sync>(
    rt: &R,
    good: usize,
) -> Result<usize, TrialFault> {
    let told = second_told();
    let second = Left {
        end: End::Stopped(Refusal::WriteFault),
        told: told.split_at(good.min(told.len())).0,
        rows: 1,
    };
    let left = BothLeft {
        first: first_left(true),
        second,
    };
    serve_both(rt, usize::MAX, good, &left)
}

/// Second clients, each of which is lost at another read. The last is lost at the read that would find the end.
pub fn second_reads_fail<R: Threads + Wait + AllocGlobal + Clock + Sync>(
    rt: &R,
) -> Result<usize, TrialFault> {
    let mut rows = 0usize;
    for good in 0..=second_line().len() {
        rows = rows.saturating_add(read_fails(rt, good)?);
    }
    Ok(rows)
}

/// Second clients, each of which is lost at another write.
pub fn second_writes_fail<R: Threads + Wait + AllocGlobal + Clock + Sync>(
    rt: &R,
) -> Result<usize, TrialFault> {
    let mut rows = 0usize;
    for good in 0..second_told().len() {
        rows = rows.saturating_add(write_fails(rt, good)?);
    }
    Ok(rows)
}
