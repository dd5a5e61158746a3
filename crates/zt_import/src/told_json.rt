//! Prints what an import tells as JSON objects, each on one line.

use crate::comparison::{handle_count, logged_packet};
use crate::moved::moved_in;
use crate::run_log::Imported;
use crate::skipped_names::{SkippedName, skipped_names};
use crate::stand_ins::LeftCalls;
use crate::trail::Difference;
use crate::trail_counts::{adopted_in, calls_in, pairs_in};
use json::Writer;
use std::alloc::{AllocError, Global};
use zt_logs::{CallLog, LogNote, LoggedCall, LoggedPacket, RecordedReply, SkippedCall};
use zt_rows::{Items, Reply};
use zt_text::{put_bytes, put_mask};

/// The object of a difference: its line, its moment, what the log has, and what the semantics answers. The error is an
/// allocation failure.
pub fn difference_json(
    alloc: Global,
    calls: &[LoggedCall],
    import: &Imported,
    difference: &Difference,
) -> Result<String, AllocError> {
    let mut object = Writer::new(Vec::new(alloc));
    let Some(logged) = calls.get(difference.call) else {
        return Ok(String::new(alloc));
    };
    object.begin_object()?;
    object.key("line")?;
    object.u64(logged.line)?;
    object.key("moment")?;
    let mut reply = None;
    match difference.moment {
        Some(moment) => {
            object.u64(u64::from(moment.0))?;
            reply = import.history().reply_of(moment);
        }
        None => object.null()?,
    }
    object.key("by_schedule")?;
    object.boolean(difference.by_schedule)?;
    object.key("recorded")?;
    put_recorded(alloc, &mut object, &logged.recorded)?;
    object.key("semantics")?;
    put_found(alloc, &mut object, reply)?;
    object.end_object()?;
    text_of(alloc, object)
}

/// The object of the skipped calls. The error is an allocation failure.
pub fn skipped_json(
    alloc: Global,
    calls: &[LoggedCall],
    skipped: &[SkippedCall],
) -> Result<String, AllocError> {
    let names = skipped_names(alloc, calls, skipped)?;
    let mut object = Writer::new(Vec::new(alloc));
    object.begin_object()?;
    object.key("skipped")?;
    object.begin_array()?;
    for name in names.as_slice() {
        put_skipped(&mut object, skipped, *name)?;
    }
    object.end_array()?;
    object.end_object()?;
    text_of(alloc, object)
}

/// The object of the calls that are left out since they are on stand-ins. The error is an allocation failure.
pub fn left_json(alloc: Global, left: &LeftCalls) -> Result<String, AllocError> {
    let mut object = Writer::new(Vec::new(alloc));
    object.begin_object()?;
    object.key("on_stand_ins")?;
    object.begin_array()?;
    for name in left.counts() {
        object.begin_object()?;
        object.key("call")?;
        object.string(name.name)?;
        put_count(&mut object, "count", name.count)?;
        object.end_object()?;
    }
    object.end_array()?;
    object.end_object()?;
    text_of(alloc, object)
}

/// The object of something that is left out of a line. The error is an allocation failure.
pub fn note_json(alloc: Global, note: &LogNote) -> Result<String, AllocError> {
    let shown = format!(in alloc; "{note}")?;
    let mut object = Writer::new(Vec::new(alloc));
    object.begin_object()?;
    put_count(&mut object, "line", note.line())?;
    object.key("left_out")?;
    object.string(words_of(shown.as_str()))?;
    object.end_object()?;
    text_of(alloc, object)
}

/// The text behind the number of the line, with which a note begins.
fn words_of(note: &str) -> &str {
    match note.split_once(": ") {
        Some((_, words)) => words,
        None => note,
    }
}

/// The object that counts what is left out besides. The error is an allocation failure.
pub fn more_notes_json(alloc: Global, count: u64) -> Result<String, AllocError> {
    let mut object = Writer::new(Vec::new(alloc));
    object.begin_object()?;
    put_count(&mut object, "more_left_out", count)?;
    object.end_object()?;
    text_of(alloc, object)
}

/// The object that counts the lines and calls of an import, and its differences. The error is an allocation failure.
pub fn counts_json(
    alloc: Global,
    log: &CallLog,
    imported: &Imported,
) -> Result<String, AllocError> {
    let trail = imported.trail();
    let calls = calls_in(log.calls.as_slice(), trail) as u64;
    let mut object = Writer::new(Vec::new(alloc));
    object.begin_object()?;
    put_count(&mut object, "calls", calls)?;
    put_count(&mut object, "lines", log.lines)?;
    put_count(&mut object, "skipped", log.skipped.len() as u64)?;
    put_count(&mut object, "adopted", adopted_in(trail) as u64)?;
    put_count(&mut object, "pairs", pairs_in(trail) as u64)?;
    put_count(&mut object, "moved", moved_in(trail) as u64)?;
    put_count(&mut object, "differences", imported.count())?;
    put_count(&mut object, "by_schedule", imported.by_schedule())?;
    object.end_object()?;
    text_of(alloc, object)
}

/// The text of an object.
fn text_of(alloc: Global, object: Writer) -> Result<String, AllocError> {
    let bytes = object.into_inner();
    match str::from_utf8(bytes.as_slice()) {
        Ok(text) => String::from_str(alloc, text),
        Err(_) => Ok(String::new(alloc)),
    }
}

/// Writes a count under a key.
fn put_count(object: &mut Writer, key: &str, count: u64) -> Result<(), AllocError> {
    object.key(key)?;
    object.u64(count)
}

/// Writes a skipped call with how many lines have it, and whether one of them names a handle of the log.
fn put_skipped(
    object: &mut Writer,
    skipped: &[SkippedCall],
    name: SkippedName,
) -> Result<(), AllocError> {
    let Some(first) = skipped.get(name.first) else {
        return Ok(());
    };
    object.begin_object()?;
    object.key("call")?;
    object.string(first.name.as_str())?;
    put_count(object, "count", name.count)?;
    object.key("with_handles")?;
    object.boolean(name.has_handles)?;
    object.end_object()
}

/// Writes what the log has.
fn put_recorded(
    alloc: Global,
    object: &mut Writer,
    recorded: &RecordedReply,
) -> Result<(), AllocError> {
    let status = match recorded.status {
        Some(status) => status.word(),
        None => "another_status",
    };
    object.begin_object()?;
    put_status(object, status, recorded.handles.len())?;
    if let Some(bytes) = &recorded.bytes {
        put_message(alloc, object, bytes)?;
    }
    if let Some(packet) = recorded.packet.get() {
        put_packet(alloc, object, packet)?;
    }
    object.end_object()
}

/// Writes what the semantics answers.
fn put_found(alloc: Global, object: &mut Writer, reply: Option<&Reply>) -> Result<(), AllocError> {
    object.begin_object()?;
    match reply {
        Some(reply) => {
            put_status(object, reply.status().word(), handle_count(reply))?;
            put_values(alloc, object, reply)?;
        }
        None => put_status(object, "no_process", 0)?,
    }
    object.end_object()
}

/// Writes the message or the packet of a reply, if it has one.
fn put_values(alloc: Global, object: &mut Writer, reply: &Reply) -> Result<(), AllocError> {
    match reply {
        Reply::Message(bytes, _) => put_message(alloc, object, bytes),
        Reply::Packet(packet) => put_packet(alloc, object, logged_packet(*packet)),
        _ => Ok(()),
    }
}

/// Writes the word of a status, and how many handles the reply gives.
fn put_status(object: &mut Writer, status: &str, handles: usize) -> Result<(), AllocError> {
    object.key("status")?;
    object.string(status)?;
    put_count(object, "handles", handles as u64)
}

/// Writes all bytes of a message.
fn put_message(alloc: Global, object: &mut Writer, bytes: &Items<u8>) -> Result<(), AllocError> {
    put_digits(alloc, object, bytes.as_slice())
}

/// Writes bytes by their digits; the empty text for none.
fn put_digits(alloc: Global, object: &mut Writer, bytes: &[u8]) -> Result<(), AllocError> {
    let mut digits = String::new(alloc);
    if !bytes.is_empty() {
        put_bytes(&mut digits, bytes)?;
    }
    object.key("bytes")?;
    object.string(digits.as_str())
}

/// Writes a packet as an object.
fn put_packet(alloc: Global, object: &mut Writer, packet: LoggedPacket) -> Result<(), AllocError> {
    object.key("packet")?;
    object.begin_object()?;
    object.key("packet")?;
    match packet {
        LoggedPacket::User { key, bytes } => {
            object.string("user")?;
            put_count(object, "key", key)?;
            put_digits(alloc, object, &bytes)?;
        }
        LoggedPacket::Signal {
            key,
            trigger,
            observed,
        } => {
            object.string("signal")?;
            put_count(object, "key", key)?;
            put_signals(alloc, object, "trigger", trigger.0)?;
            put_signals(alloc, object, "observed", observed.0)?;
        }
    }
    object.end_object()
}

/// Writes signals under a key, as a mask.
fn put_signals(
    alloc: Global,
    object: &mut Writer,
    key: &str,
    signals: u32,
) -> Result<(), AllocError> {
    let mut mask = String::new(alloc);
    put_mask(&mut mask, signals)?;
    object.key(key)?;
    object.string(mask.as_str())
}
