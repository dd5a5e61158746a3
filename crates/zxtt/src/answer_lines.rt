//! Writes the lines of an answer to standard output.

use std::alloc::{AllocError, Global};
use std::io;
use std::io::{BufWriter, Stdout, Write};
use zt_notes::{Shape, has_text, shown};
use zt_rows::{Moment, Refusal};
use zt_text::Notes;

/// Why an answer stopped.
#[derive(Debug, Drop)]
pub enum Stopped {
    /// Nobody reads standard output any more.
    Unread,
    /// A write or an allocation failed, or the question was refused.
    By(Refusal),
}

impl From<Refusal> for Stopped {
    fn from(refusal: Refusal) -> Stopped {
        Stopped::By(refusal)
    }
}

impl From<AllocError> for Stopped {
    fn from(_error: AllocError) -> Stopped {
        Stopped::By(Refusal::OutOfMemory)
    }
}

impl From<io::Error> for Stopped {
    fn from(error: io::Error) -> Stopped {
        match error.kind() {
            io::ErrorKind::BrokenPipe => Stopped::Unread,
            io::ErrorKind::OutOfMemory => Stopped::By(Refusal::OutOfMemory),
            _ => Stopped::By(Refusal::WriteFault),
        }
    }
}

/// Lines are written to standard output in pieces of about so many bytes.
const PIECE: usize = 65_536;

/// Where the lines of an answer go.
#[derive(Drop)]
enum Sink {
    /// To standard output.
    Output(BufWriter<Stdout>),
    /// Into memory.
    Memory(Vec<u8>),
}

/// The writer of an answer.
#[derive(Drop)]
pub struct AnswerLines<'a> {
    alloc: Global,
    sink: Sink,
    notes: &'a Notes,
    /// The shape of the lines, if notes and names are shown in them.
    shape: Option<Shape>,
    /// Whether any line was written.
    told: bool,
}

impl<'a> AnswerLines<'a> {
    /// A writer without any lines yet. It shows the notes and names in lines of this shape, if one is given.
    pub fn new(
        rt: &HostRuntime,
        notes: &'a Notes,
        shape: Option<Shape>,
    ) -> Result<AnswerLines<'a>, Stopped> {
        let writer = BufWriter::with_capacity(rt.alloc(), PIECE, rt.stdout())?;
        Ok(AnswerLines {
            alloc: rt.alloc(),
            sink: Sink::Output(writer),
            notes,
            shape,
            told: false,
        })
    }

    /// A writer into memory without any lines yet. It shows no notes and no names.
    pub fn in_memory(alloc: Global, notes: &'a Notes) -> AnswerLines<'a> {
        AnswerLines {
            alloc,
            sink: Sink::Memory(Vec::new(alloc)),
            notes,
            shape: None,
            told: false,
        }
    }

    /// Writes more lines.
    pub fn write(&mut self, text: Vec<u8>) -> Result<(), Stopped> {
        match self.shape {
            Some(shape) => {
                let text = shown(self.alloc, text.as_slice(), shape, self.notes)?;
                self.put(text.as_slice())
            }
            None => self.put(text.as_slice()),
        }
    }

    /// Whether the line of a call or the call's note has this text. Names in the line count if they are asked for.
    pub fn has(
        &self,
        line: &[u8],
        moment: Moment,
        text: &[u8],
        with_names: bool,
    ) -> Result<bool, AllocError> {
        if has_text(line, text) || has_text(self.notes.note(moment), text) {
            return Ok(true);
        }
        if !with_names {
            return Ok(false);
        }
        let noted = shown(self.alloc, line, Shape::Calls, self.notes)?;
        Ok(has_text(noted.as_slice(), text))
    }

    /// Writes the note of a moment as it stands.
    pub fn write_note(&mut self, moment: Moment) -> Result<(), Stopped> {
        let notes = self.notes;
        self.put(notes.note(moment))
    }

    /// Writes these bytes as they are.
    pub fn put(&mut self, text: &[u8]) -> Result<(), Stopped> {
        self.told = self.told || !text.is_empty();
        match &mut self.sink {
            Sink::Output(writer) => writer.write_all(text)?,
            Sink::Memory(bytes) => bytes.extend_from_slice(text)?,
        }
        Ok(())
    }

    /// Whether any line was written.
    pub fn told(&self) -> bool {
        self.told
    }

    /// Writes what is still in the buffer, and returns the lines that went into memory.
    pub fn finish(self) -> Result<Vec<u8>, Stopped> {
        let alloc = self.alloc;
        match self.sink {
            Sink::Output(mut writer) => {
                writer.flush()?;
                Ok(Vec::new(alloc))
            }
            Sink::Memory(bytes) => Ok(bytes),
        }
    }
}
