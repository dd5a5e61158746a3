//! Reads a log of calls of a real system. Each line is a JSON object: a call that returned, with its reply.
#![tactic(auto)]

mod bit_names;
mod call_names;
mod contexts;
mod dispositions;
mod faults;
mod fields;
mod json_lines;
mod json_values;
mod koids;
mod line_calls;
mod line_members;
mod line_parts;
mod logged;
mod logged_calls;
mod logged_parts;
mod members;
mod notes;
mod numbers;
mod options;
mod other_kinds;
mod places;
mod process_names;
mod rare_members;
mod recorded;
mod recorded_packet;
mod shown_texts;
mod skipped;
mod times;

pub use contexts::LineContexts;
pub use faults::{Cause, LogFault, WantedValue};
pub use json_lines::{LINE_BYTES, read_log};
pub use koids::HandleKoid;
pub use line_calls::PartCall;
pub use line_parts::{LineForm, LinePart, SeenForms};
pub use logged::{CallLog, LoggedCall, LoggedPacket, RecordedReply};
pub use notes::{LogNote, LogNotes, StartNote};
pub use other_kinds::OtherKind;
pub use places::{LineObject, Member, Place};
pub use process_names::ProcessNames;
pub use recorded_packet::RecordedPacket;
pub use skipped::SkippedCall;
pub use times::{CallTimes, LogTime};
