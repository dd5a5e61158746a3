//! One connection of a browser or another program.

use http_server::Connection;
use mio::net::TcpStream;
use std::io;
use std::io::Read;
use std::net::Shutdown;
use std::time::Instant;
use zt_view::View;

/// How many steps one turn has at most, so that a connection that is always ready leaves the others their turn.
const STEPS: usize = 1024;

/// How many bytes are read at once to be discarded.
const UNWANTED: usize = 4096;

/// How many such reads are made at most. The rest of a refused body is read so that its sender gets the answer.
const UNWANTED_READS: u32 = 16_384;

/// A socket, with the bytes that were received and are to be sent on it.
#[derive(Drop)]
pub struct Socket {
    pub stream: TcpStream,
    pub connection: Connection,
    /// When bytes were last read or written.
    pub active: Instant,
    /// How many more reads are made to discard bytes, once everything is sent.
    pub unwanted: Option<u32>,
}

/// How a step or a turn of a socket ended.
#[derive(Clone, Copy, PartialEq, Eq)]
pub enum Turn {
    /// There is more to do at once.
    Goes,
    /// Nothing can be done before the socket is ready again.
    Waits,
    /// The socket is done.
    Gone,
}

impl Socket {
    /// A socket before its first byte.
    pub fn new(stream: TcpStream, connection: Connection, now: Instant) -> Socket {
        Socket {
            stream,
            connection,
            active: now,
            unwanted: None,
        }
    }

    /// Reads, answers and writes until the socket is not ready or done, or it is the turn of others.
    pub fn turn(&mut self, view: &mut View, now: Instant) -> Turn {
        for _ in 0..STEPS {
            match self.step(view) {
                Turn::Goes => self.active = now,
                ended => return ended,
            }
        }
        Turn::Goes
    }

    /// Answers what was received, and then writes or reads once.
    fn step(&mut self, view: &mut View) -> Turn {
        if let Some(reads) = self.unwanted {
            return self.pass_over(reads);
        }
        self.connection.advance(view);
        if self.connection.is_done() {
            let _ = self.stream.shutdown(Shutdown::Write);
            self.unwanted = Some(UNWANTED_READS);
            return Turn::Goes;
        }
        if self.connection.wants_write() {
            return self.write();
        }
        match self.connection.read_from(&mut self.stream) {
            Ok(_) => Turn::Goes,
            Err(error) => turn_after(&error),
        }
    }

    /// Writes once.
    pub fn write(&mut self) -> Turn {
        match self.connection.write_to(&mut self.stream) {
            Ok(0) => Turn::Gone,
            Ok(_) => Turn::Goes,
            Err(error) => turn_after(&error),
        }
    }

    /// Reads once, and discards the bytes.
    fn pass_over(&mut self, reads: u32) -> Turn {
        if reads == 0 {
            return Turn::Gone;
        }
        self.unwanted = Some(reads - 1);
        let mut bytes = [0u8; UNWANTED];
        match self.stream.read(bytes.as_mut_slice()) {
            Ok(0) => Turn::Gone,
            Ok(_) => Turn::Goes,
            Err(error) => turn_after(&error),
        }
    }
}

/// Returns what to do after a failed read or write.
fn turn_after(error: &io::Error) -> Turn {
    match error.kind() {
        io::ErrorKind::Interrupted => Turn::Goes,
        io::ErrorKind::WouldBlock => Turn::Waits,
        _ => Turn::Gone,
    }
}
