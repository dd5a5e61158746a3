//! The calls of a log, as they are read.

use crate::contexts::LineContexts;
use crate::koids::HandleKoid;
use crate::line_parts::{LinePart, SeenForms};
use crate::notes::LogNotes;
use crate::process_names::ProcessNames;
use crate::recorded_packet::RecordedPacket;
use crate::skipped::SkippedCall;
use crate::times::CallTimes;
use zt_bits::{Signals, Status};
use zt_rows::{Call, HandleValue, Items};

/// One call of a line, with what the real system answered. A line can be several calls.
///
/// Fields lie in this order in memory. An import goes over a large log several times, so those that it reads most come
/// first, here and in `RecordedReply`.
#[derive(Debug, Drop)]
pub struct LoggedCall {
    /// The line, counted from 1.
    pub line: u64,
    /// The process that made the call: its number in the log, or the number that stands for its name.
    pub process: u64,
    /// Which of the calls of its line it is.
    pub part: LinePart,
    /// The call, with the handles of the log.
    pub call: Call,
    /// The koids that the line tells of the call's handles.
    pub koids: Vec<HandleKoid>,
    /// The reply of the line, on its last call. A call ahead of the last has what follows from that reply.
    pub recorded: RecordedReply,
    pub times: CallTimes,
}

/// The reply of the real system, as far as the log tells it.
#[derive(Debug, Drop)]
pub struct RecordedReply {
    /// None if no call of the semantics gives this status.
    pub status: Option<Status>,
    /// The handles that the caller got, in order.
    pub handles: Items<HandleValue>,
    /// The number of the process that was made. None if the log does not tell it.
    pub process: Option<u64>,
    /// The bytes of the message that was read. None if the log does not tell them.
    pub bytes: Option<Items<u8>>,
    /// The packet that the caller got. None if the log does not tell it.
    pub packet: RecordedPacket,
}

/// A packet, as a log has it.
#[derive(Clone, Copy, Debug, PartialEq, Eq)]
pub enum LoggedPacket {
    User {
        key: u64,
        bytes: [u8; 32],
    },
    Signal {
        key: u64,
        trigger: Signals,
        observed: Signals,
    },
}

/// A log that was read.
#[derive(Drop)]
pub struct CallLog {
    pub calls: Vec<LoggedCall>,
    pub forms: SeenForms,
    /// How many lines the log has, empty ones too.
    pub lines: u64,
    /// The lines whose call the semantics does not know, except those that change nothing.
    pub skipped: Vec<SkippedCall>,
    /// The names that processes have in the log.
    pub names: ProcessNames,
    /// What the lines tell besides their calls.
    pub contexts: LineContexts,
    /// Notes on what was left out of the log.
    pub notes: LogNotes,
}
