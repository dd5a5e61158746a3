//! A reader that lets an attendant speak before each read.

ghost use Rattle.std.specs.Prelude.{◌≡◌};
ghost use Rattle.std.specs.Io.{ReadsAtMost};
ghost use Rattle.std.specs.Io.KnownBytes.{ReadConsumes};

use crate::terminal::Attendant;
use std::io;
use std::io::Read;
use std::marker::Model;

/// A reader. Before each read, an attendant says what it has to say. Reads are those of the reader itself.
#[derive(Drop)]
pub struct Attended<'a, R> {
    inner: R,
    attendant: &'a Attendant<'a>,
}

impl<'a, R> Model for Attended<'a, R> {
    ghost Value = { R };

    ghost view = { λ a. a.inner };
}

impl<'a, R> Attended<'a, R> {
    /// Wraps a reader. From now on the attendant speaks before each of its reads.
    pub fn new(inner: R, attendant: &'a Attendant<'a>) -> Attended<'a, R>
        ensures { result ≡ inner }
    {
        Attended { inner, attendant }
    }
}

impl<R: Read> Read for Attended<'_, R> {
    ghost remaining = { λ a. R.remaining a };

    fn read(&mut self, buf: &mut [u8]) -> io::Result<usize>
        ensures bound { ReadsAtMost result buf.new }
        ensures bytes { ReadConsumes (R.remaining self.old) (R.remaining self.new) result buf.new }
    {
        self.attendant.say_told();
        self.inner.read(buf)
    }
}
