//! Prints a reply that differs as a line.

use crate::comparison::{handle_count, logged_packet};
use crate::run_log::Imported;
use crate::trail::Difference;
use std::alloc::{AllocError, Global};
use zt_logs::{LoggedCall, LoggedPacket, RecordedReply};
use zt_rows::{Items, Reply};
use zt_text::{put_bytes, put_mask};

/// How many bytes of a message are shown at most.
const SHOWN_BYTES: usize = 32;

/// The line of a difference, without a line feed. The error is an allocation failure.
pub fn print_difference(
    alloc: Global,
    calls: &[LoggedCall],
    import: &Imported,
    difference: &Difference,
) -> Result<String, AllocError> {
    let mut text = String::new(alloc);
    let Some(logged) = calls.get(difference.call) else {
        return Ok(text);
    };
    write!(text, "line {}: ", logged.line)?;
    let mut reply = None;
    match difference.moment {
        Some(moment) => {
            write!(text, "moment {}: ", moment.0)?;
            reply = import.history().reply_of(moment);
        }
        None => text.push_str("no moment: ")?,
    }
    if difference.by_schedule {
        text.push_str("by the schedule: ")?;
    }
    put_recorded(&mut text, &logged.recorded)?;
    put_found(&mut text, reply)?;
    Ok(text)
}

/// Appends what the log has.
fn put_recorded(text: &mut String, recorded: &RecordedReply) -> Result<(), AllocError> {
    let status = match recorded.status {
        Some(status) => status.word(),
        None => "another_status",
    };
    let handles = recorded.handles.len();
    write!(text, "recorded {status} handles={handles}")?;
    if let Some(bytes) = &recorded.bytes {
        put_message(text, bytes)?;
    }
    match recorded.packet.get() {
        Some(packet) => put_packet(text, packet),
        None => Ok(()),
    }
}

/// Appends what the semantics answers.
fn put_found(text: &mut String, reply: Option<&Reply>) -> Result<(), AllocError> {
    let Some(reply) = reply else {
        return text.push_str(", by the semantics no_process handles=0");
    };
    let status = reply.status().word();
    let handles = handle_count(reply);
    write!(text, ", by the semantics {status} handles={handles}")?;
    match reply {
        Reply::Message(bytes, _) => put_message(text, bytes),
        Reply::Packet(packet) => put_packet(text, logged_packet(*packet)),
        _ => Ok(()),
    }
}

/// Appends the bytes of a message. Of a longer one the first 32, and `..`.
fn put_message(text: &mut String, bytes: &Items<u8>) -> Result<(), AllocError> {
    text.push_str(" bytes=")?;
    let shown = shown_part(bytes.as_slice());
    put_bytes(text, shown)?;
    if shown.len() < bytes.len() {
        text.push_str("..")
    } else {
        Ok(())
    }
}

/// The bytes that are shown.
fn shown_part(bytes: &[u8]) -> &[u8] {
    match bytes.get(..SHOWN_BYTES) {
        Some(first) => first,
        None => bytes,
    }
}

fn put_packet(text: &mut String, packet: LoggedPacket) -> Result<(), AllocError> {
    match packet {
        LoggedPacket::User { key, bytes } => {
            write!(text, " packet=user {key} ")?;
            put_bytes(text, &bytes)
        }
        LoggedPacket::Signal {
            key,
            trigger,
            observed,
        } => {
            write!(text, " packet=signal {key} ")?;
            put_mask(text, trigger.0)?;
            text.push_str(" ")?;
            put_mask(text, observed.0)
        }
    }
}
