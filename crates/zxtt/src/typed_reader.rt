//! Reads the lines that a person types at a terminal.

ghost use Rattle.std.specs.Prelude.{◌≡◌, true, false, take, Ok, None, IfOk};
ghost use Rattle.std.specs.Io.{ReadsAtMost};
ghost use Rattle.std.specs.Io.KnownBytes.{ReadConsumes};
ghost use Rattle.zt_console.specs.Typed.{IsGiven};

use crate::terminal::Attendant;
use std::io;
use std::io::Read;
use std::marker::Model;
use zt_console::Typed;

/// The lines that a person types. An attendant answers some of them. Reads are those of `Typed`.
#[derive(Drop)]
pub struct TypedLines<'a, R> {
    inner: Typed<'a, R, Attendant<'a>>,
}

impl<'a, R> Model for TypedLines<'a, R> {
    ghost use Rattle.std.specs.Prelude.{Bool};

    ghost Value = { R × Bool × Bool };

    ghost view = { λ t. t.inner };
}

impl<'a, R> TypedLines<'a, R> {
    /// Wraps a reader that stands at the beginning of a line.
    pub fn new(inner: R, attendant: &'a Attendant<'a>) -> TypedLines<'a, R>
        ensures { result ≡ (inner, false, false) }
    {
        TypedLines {
            inner: Typed::new(inner, attendant),
        }
    }
}

impl<R: Read> Read for TypedLines<'_, R> {
    ghost remaining = { λ t. None };

    fn read(&mut self, buf: &mut [u8]) -> io::Result<usize>
        ensures bound { ReadsAtMost result buf.new }
        ensures bytes { ReadConsumes None None result buf.new }
        ensures given { self.old.2 ≡ false → IfOk result (λ count. IsGiven (R.remaining self.old.0) (R.remaining self.new.0) self.old.1 self.new.1 (take count buf.new) self.new.2) }
        ensures over { self.old.2 ≡ true → (result ≡ Ok 0) × (self.new ≡ self.old) }
    {
        self.inner.read(buf)
    }
}
