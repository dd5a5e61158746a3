//! Notes on what is left out of a log.

use std::alloc::{AllocError, Global};
use std::fmt;

/// How many notes are kept; the others are only counted.
const TOLD: usize = 100;

/// Something of a line that is left out.
#[derive(Debug, Drop)]
pub enum LogNote {
    /// The last line, of this number, is cut off in the middle.
    CutOff { line: u64 },
    /// An option of a call that is known but left out here.
    LeftOption { line: u64, name: &'static str },
    /// The bits of a call's options that are not known.
    UnknownOptions { line: u64, options: u64 },
    /// A part of a line that starts a process.
    Start { line: u64, note: StartNote },
    /// The name of an option that is not known.
    UnknownOption { line: u64, name: String },
}

/// The part of a process start that is left out.
#[derive(Clone, Copy, Debug, PartialEq, Eq)]
pub enum StartNote {
    /// The whole start: no line made its process.
    Unknown,
    /// The argument: the process was needed before the start, and the handle of the argument is used since.
    LateArgument,
}

impl StartNote {
    fn words(self) -> &'static str {
        match self {
            StartNote::Unknown => "left out, because no line created its process",
            StartNote::LateArgument => {
                "args.arg1: left out, because its process was used before, and arg1 after"
            }
        }
    }
}

impl LogNote {
    /// The line of which it tells.
    pub fn line(&self) -> u64 {
        match self {
            LogNote::CutOff { line } => *line,
            LogNote::LeftOption { line, .. } => *line,
            LogNote::UnknownOptions { line, .. } => *line,
            LogNote::Start { line, .. } => *line,
            LogNote::UnknownOption { line, .. } => *line,
        }
    }
}

impl fmt::Display for LogNote {
    fn fmt<W: fmt::Write>(&self, f: &mut fmt::Formatter<W>) -> fmt::Result {
        match self {
            LogNote::CutOff { line } => write!(f, "line {line}: cut off, so it is left out"),
            LogNote::LeftOption { line, name } => {
                write!(f, "line {line}: args.options: {name} is left out")
            }
            LogNote::Start { line, note } => {
                write!(f, "line {line}: ")?;
                write!(f, "{}", note.words())
            }
            LogNote::UnknownOptions { line, options } => {
                write!(
                    f,
                    "line {line}: args.options: unknown option 0x{options:x} is left out"
                )
            }
            LogNote::UnknownOption { line, name } => {
                write!(
                    f,
                    "line {line}: args.options: unknown option {name} is left out"
                )
            }
        }
    }
}

/// The notes of a log.
#[derive(Drop)]
pub struct LogNotes {
    told: Vec<LogNote>,
    count: u64,
}

impl LogNotes {
    pub(crate) fn new(alloc: Global) -> LogNotes {
        LogNotes {
            told: Vec::new(alloc),
            count: 0,
        }
    }

    /// The first hundred notes, in the order in which they were added.
    pub fn told(&self) -> &[LogNote] {
        self.told.as_slice()
    }

    /// How many notes there are, also those above a hundred.
    pub fn count(&self) -> u64 {
        self.count
    }

    /// Adds a note on the start of a process. The error is an allocation failure.
    pub fn add_start(&mut self, line: u64, note: StartNote) -> Result<(), AllocError> {
        self.add(LogNote::Start { line, note })
    }

    /// Adds a note. The error is an allocation failure.
    pub(crate) fn add(&mut self, note: LogNote) -> Result<(), AllocError> {
        self.count = self.count.saturating_add(1);
        if self.told.len() >= TOLD {
            return Ok(());
        }
        match self.told.push(note) {
            Ok(()) => Ok(()),
            Err(_) => Err(AllocError),
        }
    }
}
