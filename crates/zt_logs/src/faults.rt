//! Why a log is not read, or not imported, and how the error is printed.

use crate::places::Place;
use std::alloc::AllocError;
use std::fmt;
use zt_rows::Refusal;

/// Why a log is refused: the cause, and the number of the line, counted from 1. The number is 0 if no line is at fault.
#[derive(Clone, Copy, Debug)]
pub struct LogFault {
    pub line: u64,
    pub cause: Cause,
}

/// The cause of an error in a log.
#[derive(Clone, Copy, Debug)]
pub enum Cause {
    /// An allocation failed.
    OutOfMemory,
    /// The trace would have more calls than a history has moments for.
    Full,
    /// The line is longer than `LINE_BYTES`.
    TooLong,
    /// The line is not a JSON object.
    NoObject,
    /// A member that a line needs is left out.
    Missing(Place),
    /// A member is not of the form that is wanted.
    Member { place: Place, wanted: WantedValue },
    /// A line spawns the process of this number, which was there before that line.
    SpawnedTwice(u64),
}

/// The form that is wanted of a member.
#[derive(Clone, Copy, Debug)]
pub enum WantedValue {
    /// A number from 0 up to this one.
    Number(u64),
    SignedNumber,
    /// A process, by its number or its name.
    Process,
    /// A mask, as a number or as names.
    Mask,
    /// Options, as a number or as names.
    Options,
    Text,
    Object,
    List,
    Flag,
    /// Bytes, as two hexadecimal digits each.
    Digits,
    /// The 32 bytes of a user packet, as 64 hexadecimal digits.
    PacketDigits,
    PacketType,
    UserPacket,
    /// Whether a handle is moved or duplicated: `ZX_HANDLE_OP_MOVE` or `ZX_HANDLE_OP_DUPLICATE`.
    Operation,
    /// At most this many bytes or items.
    AtMost(usize),
}

impl From<AllocError> for Cause {
    fn from(_refused: AllocError) -> Cause {
        Cause::OutOfMemory
    }
}

impl From<Refusal> for Cause {
    fn from(refusal: Refusal) -> Cause {
        match refusal {
            Refusal::Full => Cause::Full,
            _ => Cause::OutOfMemory,
        }
    }
}

impl Cause {
    /// This cause at a line. An allocation failure is at no line: its number is 0.
    pub fn at(self, line: u64) -> LogFault {
        match self {
            Cause::OutOfMemory => LogFault {
                line: 0,
                cause: self,
            },
            _ => LogFault { line, cause: self },
        }
    }
}

impl fmt::Display for LogFault {
    fn fmt<W: fmt::Write>(&self, f: &mut fmt::Formatter<W>) -> fmt::Result {
        if self.line != 0 {
            write!(f, "line {}: ", self.line)?;
        }
        write!(f, "{}", self.cause)
    }
}

impl fmt::Display for Cause {
    fn fmt<W: fmt::Write>(&self, f: &mut fmt::Formatter<W>) -> fmt::Result {
        match self {
            Cause::OutOfMemory => write!(f, "out of memory"),
            Cause::Full => write!(f, "a trace has at most {} calls", zt_rows::LAST_MOMENT),
            Cause::TooLong => write!(f, "longer than {} bytes", crate::json_lines::LINE_BYTES),
            Cause::NoObject => write!(f, "not a JSON object"),
            Cause::Missing(place) => print_missing(place, f),
            Cause::Member { place, wanted } => write!(f, "{place}: {wanted}"),
            Cause::SpawnedTwice(process) => {
                write!(f, "process {process} is spawned, but already exists")
            }
        }
    }
}

/// Prints the place of the missing member, with the second name that it may have.
fn print_missing<W: fmt::Write>(place: &Place, f: &mut fmt::Formatter<W>) -> fmt::Result {
    match place.member.second_name() {
        Some(second) => write!(f, "{place} or {second}: missing"),
        None => write!(f, "{place}: missing"),
    }
}

impl fmt::Display for WantedValue {
    fn fmt<W: fmt::Write>(&self, f: &mut fmt::Formatter<W>) -> fmt::Result {
        match self {
            WantedValue::Number(most) => write!(f, "expected a number up to {most}"),
            WantedValue::SignedNumber => write!(f, "expected a signed 64-bit number"),
            WantedValue::Process => write!(
                f,
                "expected a number up to {} or a name of 1 to 64 bytes",
                u64::MAX
            ),
            WantedValue::Mask => write!(
                f,
                "expected a number up to {} or known names separated by |",
                u32::MAX
            ),
            WantedValue::Options => { write!(f, "expected a number or names separated by |") }
            WantedValue::Text => write!(f, "expected a string"),
            WantedValue::Object => write!(f, "expected an object"),
            WantedValue::List => write!(f, "expected an array"),
            WantedValue::Flag => write!(f, "expected true or false"),
            WantedValue::Digits => write!(f, "expected an even number of hexadecimal digits"),
            WantedValue::PacketDigits => write!(f, "expected 64 hexadecimal digits"),
            WantedValue::PacketType => write!(f, "expected user or signal"),
            WantedValue::UserPacket => write!(f, "expected user"),
            WantedValue::Operation => write!(
                f,
                "expected ZX_HANDLE_OP_MOVE or ZX_HANDLE_OP_DUPLICATE"
            ),
            WantedValue::AtMost(most) => write!(f, "expected at most {most}"),
        }
    }
}
