//! Why the program ends early, and with which exit status.

use std::alloc::AllocError;
use thiserror::Error;
use zt_logs::LogFault;
use zt_rows::Refusal;
use zt_words::Fault as Common;

/// What ends the program before it is done.
#[derive(Debug, Drop, Error)]
pub enum Fault {
    /// The words ask for nothing, or a file could not be opened.
    #[error("{0}")]
    Common(Common),
    /// The log could not be read.
    #[error("cannot read the log")]
    Read,
    /// The trace could not be written.
    #[error("cannot write the trace")]
    Write,
    /// A write failed in the midst of a trace that had to be written through. The whole trace lies in the file `part`.
    #[error("cannot write the trace\nzxtt-import: the whole text is in {part}")]
    Unwritten { part: String },
    /// The log is not taken.
    #[error("{0}")]
    Log(LogFault),
    /// A process that the log has by a name is spawned, and was there before.
    #[error("line {line}: process {name} is spawned, but already exists")]
    SpawnedTwice { line: u64, name: String },
    /// The import is strict, and something of the log is left out.
    #[error("{0}")]
    LeftOut(String),
    /// An allocation failed.
    #[error("out of memory")]
    OutOfMemory,
    /// A reply differs.
    #[error("a reply differs")]
    Differs,
}

impl Fault {
    /// Prints the fault on standard error. A reply that differs was printed before.
    pub fn tell(&self, rt: &HostRuntime) {
        match self {
            Fault::Common(fault) => fault.say(rt, "zxtt-import"),
            Fault::Differs => {}
            _ => {
                let _ = eprintln!(rt; "zxtt-import: {self}");
            }
        }
    }

    /// The exit status of the program.
    pub fn status(&self) -> u8 {
        match self {
            Fault::Common(fault) => fault.status(),
            Fault::Read => 4,
            Fault::Write | Fault::Unwritten { .. } => 5,
            Fault::Log(_) | Fault::SpawnedTwice { .. } | Fault::LeftOut(_) | Fault::OutOfMemory =>
                6,
            Fault::Differs => 7,
        }
    }
}

impl From<Common> for Fault {
    fn from(fault: Common) -> Fault {
        match fault {
            Common::Unwritten { part } => Fault::Unwritten { part },
            Common::Refused(Refusal::ReadFault) => Fault::Read,
            Common::Refused(Refusal::WriteFault) => Fault::Write,
            Common::Refused(_) => Fault::OutOfMemory,
            other => Fault::Common(other),
        }
    }
}

impl From<LogFault> for Fault {
    fn from(fault: LogFault) -> Fault {
        Fault::Log(fault)
    }
}

impl From<AllocError> for Fault {
    fn from(_refused: AllocError) -> Fault {
        Fault::OutOfMemory
    }
}
