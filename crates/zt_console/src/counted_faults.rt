//! Readers and writers that count their failures.

ghost use Rattle.std.specs.Prelude.{◌≡◌, length, is_err};
ghost use Rattle.std.specs.Io.{ReadsAtMost, WritesAtMost};
ghost use Rattle.std.specs.Io.KnownBytes.{Keeps, ReadConsumes, WriteAppends};
ghost use Rattle.zt_console.specs.CountedFaults.{faults_after, write_failed};

use std::io;
use std::io::{Read, Write};
use std::marker::Model;

/// A reader or writer that counts its failed reads and writes. The count stays at `u64::MAX` once it is there. A write that takes
/// none of its bytes is a failure, unless it was given none. A read of no bytes is the end of the input.
#[derive(Drop)]
pub struct Counted<T> {
    inner: T,
    faults: u64,
}

impl<T> Model for Counted<T> {
    ghost use Rattle.std.specs.Prelude.{ℕ};

    ghost Value = { T × ℕ };

    ghost view = { λ c. (c.inner, c.faults) };
}

impl<T> Counted<T> {
    /// Wraps a reader or writer, with no failure so far.
    pub fn new(inner: T) -> Counted<T>
        ensures { result ≡ (inner, 0) }
    {
        Counted { inner, faults: 0 }
    }

    /// Returns the reader or writer itself.
    pub fn into_inner(self) -> T
        ensures { result ≡ self.0 }
    {
        let Counted { inner, faults: _ } = self;
        inner
    }

    /// Returns how many reads and writes failed so far.
    pub fn faults(&self) -> u64
        ensures { result ≡ self.now.1 }
    {
        self.faults
    }
}

impl<R: Read> Read for Counted<R> {
    ghost remaining = { λ c. R.remaining c.0 };

    fn read(&mut self, buf: &mut [u8]) -> io::Result<usize>
        ensures bound { ReadsAtMost result buf.new }
        ensures bytes { ReadConsumes (R.remaining self.old.0) (R.remaining self.new.0) result buf.new }
        ensures counts { self.new.1 ≡ faults_after self.old.1 (is_err result) }
    {
        let result = self.inner.read(buf);
        if result.is_err() {
            self.faults = self.faults.saturating_add(1);
        }
        result
    }
}

impl<W: Write> Write for Counted<W> {
    ghost contents = { λ c. W.contents c.0 };

    fn write(&mut self, buf: &[u8]) -> io::Result<usize>
        ensures bound { WritesAtMost result buf.now }
        ensures bytes { WriteAppends (W.contents self.old.0) (W.contents self.new.0) result buf.now }
        ensures counts { self.new.1 ≡ faults_after self.old.1 (write_failed result (length buf.now)) }
    {
        let result = self.inner.write(buf);
        let failed = match &result {
            Ok(taken) => *taken == 0 && !buf.is_empty(),
            Err(_) => true,
        };
        if failed {
            self.faults = self.faults.saturating_add(1);
        }
        result
    }

    fn flush(&mut self) -> io::Result<()>
        ensures bytes { Keeps (W.contents self.old.0) (W.contents self.new.0) }
        ensures counts { self.new.1 ≡ self.old.1 }
    {
        self.inner.flush()
    }
}
