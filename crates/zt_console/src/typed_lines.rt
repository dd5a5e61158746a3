//! A reader of typed lines that answers some of them itself.

ghost use Rattle.std.specs.Prelude.{◌≡◌, ◌<◌, ◌≤◌, ◌∷◌, [], true, false, not, length, take, Ok, None, IfOk, MatchResult};
ghost use Rattle.std.specs.List.{cons_option};
ghost use Rattle.std.specs.Io.{ReadsAtMost};
ghost use Rattle.std.specs.Io.KnownBytes.{Consumes, Keeps, ReadConsumes};
ghost use Rattle.zt_console.specs.Typed.{IsAnswered, IsAskedBy, IsAskedWithin, IsGiven, IsPiece};

use std::io;
use std::io::Read;
use std::marker::Model;

/// What a person can ask of the reader itself, each by a line of its own.
#[derive(Clone, Copy)]
pub enum Aside {
    /// What can be typed.
    Help,
    /// Where the client stands.
    Where,
    /// To end the input.
    Quit,
}

/// Sits beside a person who types, and answers what is asked of the reader.
pub trait Host {
    /// A line, or the rest of one, is about to be typed.
    fn before_read(&self, is_within: bool);

    /// Answers an aside.
    fn answer(&self, asked: Aside);

    /// Nothing more will be typed.
    fn end(&self);
}

/// A reader that passes each line on as it was typed, except for asides. At `quit` its input ends. Its host answers `help` and
/// `where`, and the reader passes on an empty line in their place.
#[derive(Drop)]
pub struct Typed<'a, R, H> {
    inner: R,
    host: &'a H,
    /// Whether the last read ended within a line.
    is_within: bool,
    /// Whether the input has ended.
    has_ended: bool,
}

impl<'a, R, H> Model for Typed<'a, R, H> {
    ghost use Rattle.std.specs.Prelude.{Bool};

    ghost Value = { R × Bool × Bool };

    ghost view = { λ t. (t.inner, t.is_within, t.has_ended) };
}

/// A part of a line that was read into the front of a buffer. It ends at the line feed if it has one.
#[derive(Clone, Copy)]
struct Piece {
    count: usize,
    ends_line: bool,
    is_last: bool,
}

impl<'a, R, H> Typed<'a, R, H> {
    /// Wraps a reader that stands at the beginning of a line.
    pub fn new(inner: R, host: &'a H) -> Typed<'a, R, H>
        ensures { result ≡ (inner, false, false) }
    {
        Typed {
            inner,
            host,
            is_within: false,
            has_ended: false,
        }
    }
}

impl<'a, R: Read, H: Host> Typed<'a, R, H> {
    /// Replaces the piece in the front of the buffer by what is passed on for it, and returns the number of bytes.
    #[tactic(auto, using(crate::proofs::TypedLaws::given_plain))]
    fn give(&mut self, piece: Piece, buf: &mut [u8]) -> usize
        requires { piece.count ≤ length buf.old }
        ensures inner { self.new.0 ≡ self.old.0 }
        ensures within { self.new.1 ≡ not piece.ends_line }
        ensures room { result ≤ length buf.new }
        ensures given { IsAnswered self.old.1 (take piece.count buf.old) (take result buf.new) self.new.2 }
    {
        let (typed, _) = buf.split_at(piece.count);
        let asked = asked_within(self.is_within, typed);
        self.is_within = !piece.ends_line;
        self.has_ended = piece.is_last;
        if piece.is_last {
            self.host.end();
        }
        match asked {
            None => piece.count,
            Some(Aside::Quit) => {
                self.has_ended = true;
                0
            }
            Some(other) => {
                self.host.answer(other);
                put_empty_line(buf)
            }
        }
    }
}

impl<R: Read, H: Host> Read for Typed<'_, R, H> {
    ghost remaining = { λ t. None };

    fn read(&mut self, buf: &mut [u8]) -> io::Result<usize>
        ensures bound { ReadsAtMost result buf.new }
        ensures bytes { ReadConsumes None None result buf.new }
        ensures given { self.old.2 ≡ false → IfOk result (λ count. IsGiven (R.remaining self.old.0) (R.remaining self.new.0) self.old.1 self.new.1 (take count buf.new) self.new.2) }
        ensures over { self.old.2 ≡ true → (result ≡ Ok 0) × (self.new ≡ self.old) }
    {
        if self.has_ended {
            return Ok(0);
        }
        self.host.before_read(self.is_within);
        match read_piece(&mut self.inner, buf) {
            Ok(piece) => Ok(self.give(piece, buf)),
            Err(error) => {
                self.host.end();
                Err(error)
            }
        }
    }
}

/// Reads a line up to its line feed. It stops earlier if the buffer is full, the input ends, or a later byte cannot be read.
/// Fails if the first byte cannot be read.
fn read_piece<R: Read>(inner: &mut R, buf: &mut [u8]) -> io::Result<Piece>
    ensures same { length buf.new ≡ length buf.old }
    ensures room { IfOk result (λ piece. piece.count ≤ length buf.new) }
    ensures taken { IfOk result (λ piece. Consumes (R.remaining inner.old) (R.remaining inner.new) (take piece.count buf.new)) }
    ensures piece { IfOk result (λ piece. IsPiece piece.ends_line (take piece.count buf.new)) }
{
    for place in 0..buf.len() {
        match read_byte(inner) {
            Ok(Some(b'\n')) => {
                buf[place] = b'\n';
                return Ok(whole(place + 1));
            }
            Ok(Some(byte)) => buf[place] = byte,
            Ok(None) => return Ok(cut(place, true)),
            Err(error) if place == 0 => return Err(error),
            Err(_) => return Ok(cut(place, false)),
        }
    }
    Ok(cut(buf.len(), false))
}

/// A piece of this many bytes that ends in a line feed.
fn whole(count: usize) -> Piece
    ensures { (result.count ≡ count) × (result.ends_line ≡ true) }
{
    Piece {
        count,
        ends_line: true,
        is_last: false,
    }
}

/// A piece of this many bytes without a line feed.
fn cut(count: usize, is_last: bool) -> Piece
    ensures { (result.count ≡ count) × (result.ends_line ≡ false) }
{
    Piece {
        count,
        ends_line: false,
        is_last,
    }
}

/// Reads the next byte; `None` at the end of the input.
fn read_byte<R: Read>(inner: &mut R) -> io::Result<Option<u8>>
    ensures { MatchResult result (λ byte. Consumes (R.remaining inner.old) (R.remaining inner.new) (cons_option byte [])) (λ _. Keeps (R.remaining inner.old) (R.remaining inner.new)) }
{
    let mut one = [0u8; 1];
    let count = inner.read(&mut one)?;
    if count == 0 {
        Ok(None)
    } else {
        Ok(Some(one[0]))
    }
}

/// Returns what this piece asks of the reader itself; a piece that begins within a line asks nothing.
fn asked_within(is_within: bool, piece: &[u8]) -> Option<Aside>
    ensures { IsAskedWithin is_within piece.now result }
{
    if is_within { None } else { asked_by(piece) }
}

/// Returns what this line asks of the reader itself, if it is an aside.
fn asked_by(line: &[u8]) -> Option<Aside>
    ensures { IsAskedBy line.now result }
{
    if line == b"help\n".as_slice() {
        Some(Aside::Help)
    } else if line == b"where\n".as_slice() {
        Some(Aside::Where)
    } else if line == b"quit\n".as_slice() {
        Some(Aside::Quit)
    } else {
        None
    }
}

/// Puts an empty line into the front of the buffer, and returns its length.
fn put_empty_line(buf: &mut [u8]) -> usize
    requires { 0 < length buf.old }
    ensures line { take result buf.new ≡ 10 ∷ [] }
    ensures room { result ≤ length buf.new }
{
    buf[0] = b'\n';
    1
}
