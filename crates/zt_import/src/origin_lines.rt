//! Prints the comment of a call in a trace: where the call comes from.

ghost use Rattle.std.specs.Prelude.{◌≡◌, ◌++◌, OnOk, string_bytes};
ghost use Rattle.std.specs.Fmt.{decimal};

use crate::trail::{AdoptedObject, HandleOrigin, JoinedEnd, Origin};
use crate::used_handles::handles_in;
use itoa::Buffer;
use std::alloc::AllocError;
use zt_bits::Kind;
use zt_logs::{CallLog, LineForm, LinePart, LoggedCall};
use zt_rows::HandleValue;
use zt_text::put_mask;

/// Appends the comment of a call without its `#`, in the numbers of the log: its origin, and ahead of which call it is
/// moved. The error is an allocation failure.
pub(crate) fn put_origin_line(
    text: &mut String,
    log: &CallLog,
    adopted: &[HandleOrigin],
    origin: Origin,
    ahead: Option<usize>,
) -> Result<(), AllocError> {
    put_origin(text, log, adopted, origin)?;
    put_ahead(text, log, ahead)
}

/// Appends that a call is moved ahead of this one, if it is.
fn put_ahead(text: &mut String, log: &CallLog, ahead: Option<usize>) -> Result<(), AllocError> {
    match ahead {
        Some(index) => match log.calls.get(index) {
            Some(logged) => {
                text.push_str("; moved ahead of line ")?;
                put_number(text, logged.line)
            }
            None => Ok(()),
        },
        None => Ok(()),
    }
}

fn put_origin(
    text: &mut String,
    log: &CallLog,
    adopted: &[HandleOrigin],
    origin: Origin,
) -> Result<(), AllocError> {
    match origin {
        Origin::Adopted(process) | Origin::Process(process) => {
            text.push_str(" adopted: ")?;
            put_process(text, log, process)
        }
        Origin::Handle(number) | Origin::Pair(number) | Origin::Duplicate(number) => {
            match adopted.get(number) {
                Some(told) => put_handle_origin(text, log, *told),
                None => Ok(()),
            }
        }
        Origin::Outside(index) => match log.calls.get(index) {
            Some(logged) => {
                text.push_str(" from outside, for line ")?;
                put_number(text, logged.line)?;
                text.push_str(": ")?;
                put_process(text, log, logged.process)
            }
            None => Ok(()),
        },
        Origin::Logged(index) => match log.calls.get(index) {
            Some(logged) => put_logged(text, log, logged),
            None => Ok(()),
        },
    }
}

/// Appends what a call makes for an adopted handle.
fn put_handle_origin(
    text: &mut String,
    log: &CallLog,
    told: HandleOrigin,
) -> Result<(), AllocError> {
    match told {
        HandleOrigin::Object(object) => put_object(text, log, object),
        HandleOrigin::Pair(object, joined) => {
            put_object(text, log, object)?;
            put_joined(text, log, joined)
        }
        HandleOrigin::Duplicate {
            process,
            handle,
            first_process,
            first_handle,
        } => {
            put_adopted(text, log, process, handle)?;
            text.push_str(", of the object of handle ")?;
            put_mask(text, first_handle.0)?;
            text.push_str(" of ")?;
            put_process(text, log, first_process)
        }
    }
}

/// Appends an object that the log uses and never got.
fn put_object(text: &mut String, log: &CallLog, object: AdoptedObject) -> Result<(), AllocError> {
    put_adopted(text, log, object.process, object.handle)?;
    put_kind(text, object.kind, object.is_told)?;
    put_others(text, object.others)
}

/// Appends an adopted handle with its process.
fn put_adopted(
    text: &mut String,
    log: &CallLog,
    process: u64,
    handle: HandleValue,
) -> Result<(), AllocError> {
    text.push_str(" adopted: ")?;
    put_process(text, log, process)?;
    text.push_str(", handle ")?;
    put_mask(text, handle.0)
}

/// Appends a number in decimal.
pub(crate) fn put_number(text: &mut String, number: u64) -> Result<(), AllocError>
    ensures { OnOk result (string_bytes text.new ≡ string_bytes text.old ++ decimal number) }
{
    text.push_str(Buffer::new().format(number))
}

/// Appends a process, by the number or the name that the log has.
fn put_process(text: &mut String, log: &CallLog, process: u64) -> Result<(), AllocError> {
    text.push_str("process ")?;
    match log.names.shown(process) {
        Some(name) => text.push_str(name),
        None => put_number(text, process),
    }
}

/// Appends a kind, and a remark if no use of the handle tells it.
fn put_kind(text: &mut String, kind: Kind, is_told: bool) -> Result<(), AllocError> {
    text.push_str(", ")?;
    text.push_str(kind.word())?;
    if is_told {
        Ok(())
    } else {
        text.push_str(" (no use tells its kind)")
    }
}

/// Appends that an object is taken for another one than those of its kind before it, if there are any.
fn put_others(text: &mut String, others: u64) -> Result<(), AllocError> {
    match others {
        0 => Ok(()),
        1 => text.push_str("; taken for another object than the one of this kind before it"),
        _ => write!(
            text,
            "; taken for another object than the {others} of this kind before it"
        ),
    }
}

/// Appends the end with which this one is joined, and by what.
fn put_joined(text: &mut String, log: &CallLog, end: JoinedEnd) -> Result<(), AllocError> {
    text.push_str("; joined with handle ")?;
    put_mask(text, end.handle.0)?;
    text.push_str(" of ")?;
    put_process(text, log, end.process)?;
    if end.messages == 0 {
        return text.push_str(" by their koids");
    }
    write!(text, " by {} ", end.messages)?;
    text.push_str(message_word(end.messages))?;
    write!(text, ", the first of line {}, ", end.written)?;
    write!(text, "read by line {}", end.read)
}

/// The word behind this many messages.
fn message_word<'a>(count: usize) -> &'a str {
    if count == 1 { "message" } else { "messages" }
}

/// Appends the line of a call with its process and handles, by their numbers in the log.
fn put_logged(text: &mut String, log: &CallLog, logged: &LoggedCall) -> Result<(), AllocError> {
    text.push_str(" line ")?;
    put_number(text, logged.line)?;
    text.push_str(": ")?;
    put_process(text, log, logged.process)?;
    let used = handles_in(*text.allocator(), &logged.call)?;
    let handles = used.as_slice();
    put_handles(text, handle_word(handles.len()), handles)?;
    put_handles(text, "; gives", logged.recorded.handles.as_slice())?;
    put_part(text, logged.part)
}

/// Appends what an object stands in for. Or appends the name of the line's call, if that is none of the semantics, and
/// which of several calls this is.
fn put_part(text: &mut String, part: LinePart) -> Result<(), AllocError> {
    if let LineForm::StandIn(kind) = part.form {
        text.push_str("; stands in for ")?;
        return text.push_str(kind.words());
    }
    let Some(word) = part.form.word() else {
        return Ok(());
    };
    text.push_str("; by ")?;
    text.push_str(word)?;
    if part.count <= 1 {
        return Ok(());
    }
    write!(text, ", {} of ", part.ahead.saturating_add(1))?;
    write!(text, "{}", part.count)
}

/// The word ahead of this many handles.
fn handle_word<'a>(count: usize) -> &'a str {
    if count == 1 { ", handle" } else { ", handles" }
}

/// Appends handles behind a word; nothing if there are none.
fn put_handles(text: &mut String, word: &str, handles: &[HandleValue]) -> Result<(), AllocError> {
    if handles.is_empty() {
        return Ok(());
    }
    text.push_str(word)?;
    for handle in handles {
        put_handle(text, *handle)?;
    }
    Ok(())
}

const DIGITS: [u8; 16] = *b"0123456789abcdef";

/// Appends a space and a handle, as `put_mask` shows it. Most lines have one, so its digits are written in one go.
fn put_handle(text: &mut String, handle: HandleValue) -> Result<(), AllocError> {
    let mut shown = *b" 0x00000000";
    for place in 0..8u32 {
        let digit = (handle.0 >> (28 - 4 * place)) % 16;
        shown[place as usize + 3] = DIGITS[digit as usize];
    }
    match str::from_utf8(&shown) {
        Ok(shown) => text.push_str(shown),
        Err(_) => {
            text.push_str(" ")?;
            put_mask(text, handle.0)
        }
    }
}
