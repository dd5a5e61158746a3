//! The part of a line that was read so far.

ghost use Rattle.std.specs.Prelude.{◌≡◌, ◌++◌, ◌≤◌, [], true, length, OnOk, OnErr};
ghost use Rattle.zt_console.specs.ProofsOnly.LineFeed.{decisive, decisive_bytes, has_no_feed};

use std::alloc::{AllocError, Global};
use std::marker::Model;
use zt_text::LINE_BYTES;

/// How many bytes decide how a line reads: one more than the longest line.
const DECISIVE: usize = LINE_BYTES + 1;

/// The bytes of a line that were read so far, up to the number that decides how the line reads.
#[derive(Drop)]
pub(crate) struct LineBuffer {
    bytes: Vec<u8>,
}

impl Model for LineBuffer {
    ghost use Rattle.std.specs.Prelude.{List, ℕ};
    ghost use Rattle.zt_console.specs.ProofsOnly.LineFeed.{IsPart};

    ghost Value = { List ℕ };

    ghost view = { λ p. p.bytes.items };

    ghost invariant = { λ p. IsPart p.bytes.items };
}

impl LineBuffer {
    /// A buffer without bytes.
    pub(crate) fn new(alloc: Global) -> LineBuffer
        ensures { result ≡ [] }
    {
        LineBuffer {
            bytes: Vec::new(alloc),
        }
    }

    /// Appends more bytes of the line; bytes that decide nothing are dropped. If the allocation fails, the buffer is unchanged.
    pub(crate) fn add(&mut self, bytes: &[u8]) -> Result<(), AllocError>
        requires { has_no_feed bytes.now ≡ true }
        ensures ok { OnOk result (self.new ≡ decisive (self.old ++ bytes.now)) }
        ensures err { OnErr result (self.new ≡ self.old) }
        ensures one { has_no_feed self.old ≡ true }
    {
        let room = DECISIVE - self.bytes().len();
        let (kept, _) = bytes.split_at(room.min(bytes.len()));
        self.bytes.extend_from_slice(kept)?;
        Ok(())
    }

    /// Returns the bytes that are kept of the line.
    pub(crate) fn bytes(&self) -> &[u8]
        ensures value { result.now ≡ self.now }
        ensures one { has_no_feed self.now ≡ true }
        ensures short { length self.now ≤ decisive_bytes }
    {
        self.bytes.as_slice()
    }

    /// Removes all bytes, to begin the next line.
    pub(crate) fn clear(&mut self)
        ensures { self.new ≡ [] }
    {
        self.bytes.clear();
    }
}
