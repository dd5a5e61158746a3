//! Why a program ends early, what it says then, and its exit status.

ghost use Rattle.std.specs.Prelude.{◌≡◌};
ghost use Rattle.std.specs.Process.{exit_status};
ghost use Rattle.zt_rows.specs.declared.refusals.Refusal.TheVariants as refusal;
ghost use Rattle.zt_words.specs.declared.fault.Fault.TheVariants as fault;
ghost use Rattle.zt_words.specs.Statuses.{answer_status, end_status, fault_status, stopped_status};

use crate::no_question::NoQuestion;
use crate::trace_lines::TraceLine;
use std::io;
use std::io::IsTerminal;
use std::process::ExitCode;
use thiserror::Error;
use zt_rows::Refusal;
use zt_text::RefusalLine;

/// What ends a program before it is done. The texts have no name of the program in front.
#[derive(Debug, Drop, Error)]
pub enum Fault {
    /// The words were not accepted, or help was asked for.
    #[error("{0}")]
    Words(clap::Error),
    /// The words are no text.
    #[error("cannot read the command line: {0}")]
    Unread(io::Error),
    /// The words ask no question.
    #[error("{0}")]
    Unasked(NoQuestion),
    /// A file could not be opened.
    #[error("{path}: {error}")]
    Unopened {
        path: String,
        error: io::Error,
    },
    /// A write failed in the midst of a file that had to be written through. The whole text lies in the file `part`.
    #[error("{}", RefusalLine(Refusal::WriteFault))]
    Unwritten {
        part: String,
    },
    /// The port of 127.0.0.1 could not be listened on.
    #[error("cannot listen on 127.0.0.1:{port}: {error}")]
    Unlistened {
        port: u16,
        error: io::Error,
    },
    /// A connection could not be accepted, or sockets could not be waited for.
    #[error("{0}")]
    Unconnected(io::Error),
    /// Something was refused.
    #[error("{}", RefusalLine(*.0))]
    Refused(Refusal),
    /// A session text was refused, with the number of the line at fault, or 0, and that line, if it can be shown.
    #[error("line {line}: {}", RefusalLine(*.refusal))]
    Trace {
        line: u64,
        refusal: Refusal,
        place: Option<TraceLine>,
    },
}

/// Says on standard error why a program of this name ends early, if it does, and returns its exit status. If that is asked for, or
/// standard error is a terminal, it also explains the wrong line of a session text.
pub fn ended(rt: &HostRuntime, program: &str, done: &Result<(), Fault>, explains: bool) -> ExitCode
    ensures { exit_status result ≡ end_status done.now }
{
    match done {
        Ok(()) => ExitCode::SUCCESS,
        Err(fault) => {
            fault.say(rt, program);
            if explains || rt.stderr().is_terminal() {
                fault.explain(rt);
            }
            ExitCode::from(fault.status())
        }
    }
}

/// Returns the exit status of a question that was answered. `shows` says whether the status has to show that the answer has a
/// line, and `told` whether it has one.
pub fn answered(shows: bool, told: bool) -> ExitCode
    ensures { exit_status result ≡ answer_status shows told }
{
    if shows && told {
        ExitCode::from(1)
    } else {
        ExitCode::SUCCESS
    }
}

impl Fault {
    /// An allocation failed.
    pub fn of_memory() -> Fault
        ensures { result ≡ fault.Refused refusal.OutOfMemory }
    {
        Fault::Refused(Refusal::OutOfMemory)
    }

    /// Says what happened, behind the name of the program. Errors in the words of a command line have no name in front.
    pub fn say(&self, rt: &HostRuntime, program: &str) {
        let _ = match self {
            Fault::Words(_) | Fault::Unasked(_) => eprintln!(rt; "{self}"),
            _ => eprintln!(rt; "{program}: {self}"),
        };
        if let Fault::Unwritten { part } = self {
            let _ = eprintln!(rt; "{program}: the whole text is in {part}");
        }
    }

    /// Explains the wrong line of a session text.
    fn explain(&self, rt: &HostRuntime) {
        if let Fault::Trace {
            line,
            refusal,
            place: Some(place),
        } = self
        {
            if let Ok(text) = place.explained(rt.alloc(), *line, *refusal) {
                let _ = eprint!(rt; "{text}");
            }
        }
    }

    /// Returns the exit status.
    pub fn status(&self) -> u8
        ensures { result ≡ fault_status self.now }
    {
        match self {
            Fault::Words(_) | Fault::Unread(_) | Fault::Unasked(_) => 2,
            Fault::Unopened { .. } | Fault::Unlistened { .. } | Fault::Unconnected(_) => 3,
            Fault::Unwritten { .. } => 5,
            Fault::Refused(refusal) => stopped_status(*refusal),
            Fault::Trace { .. } => 6,
        }
    }
}

impl From<clap::Error> for Fault {
    fn from(error: clap::Error) -> Fault {
        Fault::Words(error)
    }
}

impl From<io::Error> for Fault {
    fn from(error: io::Error) -> Fault {
        Fault::Unconnected(error)
    }
}

impl From<Refusal> for Fault {
    fn from(refusal: Refusal) -> Fault {
        Fault::Refused(refusal)
    }
}

/// Returns the exit status for a refusal.
fn stopped_status(refusal: Refusal) -> u8
    ensures { result ≡ stopped_status refusal }
{
    match refusal {
        Refusal::ReadFault => 4,
        Refusal::WriteFault => 5,
        _ => 6,
    }
}
