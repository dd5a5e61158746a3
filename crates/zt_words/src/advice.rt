//! Finds what to say about the wrong field of a refused line.

use crate::fields::{field, place_of, start_of_field};
use crate::reason::{Reason, reason_of, tree_reason_of};
use crate::wanted::{Wanted, fields_of_call, fields_of_command, fields_of_tree_line};
use zt_rows::Refusal;

/// What to say about a field.
#[derive(Clone, Copy)]
pub enum Advice {
    /// The field must be this.
    Wanted(Wanted),
    /// No line begins with this word.
    NoName,
    /// No line begins with this word, but a question of `look` has this name. The second value is a similar command, if there is
    /// one.
    Question(&'static str, Option<&'static str>),
    /// No call has this name.
    NoCall,
    /// The line must end before this field.
    NothingMore,
    /// The field ends in a carriage return, so the line ends in CRLF.
    CarriageReturn,
    /// The field has the right form, and was refused for this reason.
    Refused(Reason),
}

/// What to say about a field of a line, and how many bytes of the line are before that field.
#[derive(Clone, Copy)]
pub struct Remark {
    pub offset: usize,
    pub advice: Advice,
}

/// Returns the remark on a line that was refused for this reason; `None` for a refusal that no line gets.
pub fn remark_on(line: &[u8], refusal: Refusal) -> Option<Remark> {
    match refusal {
        Refusal::BadLine(column) => {
            let offset = offset_of(line, column);
            Some(remark_at(line, offset, advice_at(line, offset)))
        }
        _ => reason_remark(line, reason_of(line, refusal)),
    }
}

/// Returns the remark on a refused line of a session text of version 1. `number` is the line's number.
pub fn session_remark(number: u64, line: &[u8], refusal: Refusal) -> Option<Remark> {
    match refusal {
        Refusal::BadLine(column) => {
            let offset = offset_of(line, column);
            Some(remark_at(line, offset, session_advice(number, line, offset)))
        }
        _ => reason_remark(line, reason_of(line, refusal)),
    }
}

/// Returns the remark on a refused line, after the first, of a session text of version 2.
pub fn tree_remark(line: &[u8], refusal: Refusal) -> Option<Remark> {
    match refusal {
        Refusal::BadLine(column) => {
            let offset = offset_of(line, column);
            Some(remark_at(line, offset, tree_advice(line, offset)))
        }
        _ => reason_remark(line, tree_reason_of(line, refusal)),
    }
}

/// Returns how many bytes of the line are before the column.
fn offset_of(line: &[u8], column: u64) -> usize {
    (column.saturating_sub(1) as usize).min(line.len())
}

/// Makes the remark on a line with a parse error. If `ends_in_return` holds, the remark is about the CRLF instead of `advice`.
fn remark_at(line: &[u8], offset: usize, advice: Advice) -> Remark {
    if ends_in_return(line, offset) {
        Remark {
            offset,
            advice: Advice::CarriageReturn,
        }
    } else {
        Remark { offset, advice }
    }
}

/// Whether the line ends in a carriage return, and the field at `offset` is its last or begins the first line of a session text.
fn ends_in_return(line: &[u8], offset: usize) -> bool {
    let rest = line.get(offset..).unwrap_or(&[]);
    line.last() == Some(&b'\r') && (!rest.contains(&b' ') || rest.starts_with(b"zxtt "))
}

/// Makes the remark on a line of which this field is wrong for this reason.
fn reason_remark(line: &[u8], found: Option<(usize, Reason)>) -> Option<Remark> {
    let (place, reason) = found?;
    Some(Remark {
        offset: start_of_field(line, place).min(line.len()),
        advice: Advice::Refused(reason),
    })
}

/// Returns the advice on the field that begins after this many bytes.
fn advice_at(line: &[u8], offset: usize) -> Advice {
    let place = place_of(line, offset);
    let first = field(line, 0);
    if place == 0 {
        of_beginning(first)
    } else if is_number(first) {
        of_call(line, place)
    } else {
        of_command(line, place)
    }
}

/// Returns the advice on a field of a line of a session text of version 1. `number` is the line's number.
fn session_advice(number: u64, line: &[u8], offset: usize) -> Advice {
    if number == 1 {
        Advice::Wanted(Wanted::SessionLine)
    } else {
        call_advice(line, offset)
    }
}

/// Returns the advice on a field of a line, after the first, of a session text of version 2.
fn tree_advice(line: &[u8], offset: usize) -> Advice {
    let place = place_of(line, offset);
    let first = field(line, 0);
    if place == 0 {
        Advice::Wanted(Wanted::TreeLine)
    } else if place > 1 && first == b"call".as_slice() {
        let before = start_of_field(line, 2);
        call_advice(
            line.get(before..).unwrap_or(&[]),
            offset.saturating_sub(before),
        )
    } else {
        of_field(fields_of_tree_line(first, field(line, 2)), place - 1)
    }
}

/// Returns the advice on a field of a line that can only be a call.
fn call_advice(line: &[u8], offset: usize) -> Advice {
    if offset == 0 {
        Advice::Wanted(Wanted::Process)
    } else {
        advice_at(line, offset)
    }
}

/// Returns the advice on the first field.
fn of_beginning(first: &[u8]) -> Advice {
    if first.is_empty() {
        Advice::Wanted(Wanted::Beginning)
    } else if is_number(first) || fields_of_call(first).is_some() {
        Advice::Wanted(Wanted::Process)
    } else {
        of_other_name(first)
    }
}

/// Returns the advice on a word that is no name of a call or command.
fn of_other_name(name: &[u8]) -> Advice {
    match name {
        b"calls" => Advice::Question("calls", None),
        b"changed" => Advice::Question("changed", None),
        b"events" => Advice::Question("events", Some("when")),
        b"object" => Advice::Question("object", Some("holders")),
        b"handles" => Advice::Question("handles", None),
        b"messages" => Advice::Question("messages", None),
        b"branches" => Advice::Question("branches", None),
        b"summary" => Advice::Question("summary", None),
        b"alive" => Advice::Question("alive", None),
        b"handle" => Advice::Question("handle", None),
        b"lineage" => Advice::Question("lineage", None),
        b"note" => Advice::Question("note", None),
        b"find" => Advice::Question("find", None),
        _ => Advice::NoName,
    }
}

/// Returns the advice on a field after the process of a call.
fn of_call(line: &[u8], place: usize) -> Advice {
    let name = field(line, 1);
    if place > 1 {
        of_field(fields_of_call(name), place - 2)
    } else if name.is_empty() {
        Advice::Wanted(Wanted::CallName)
    } else {
        Advice::NoCall
    }
}

/// Returns the advice on a field after the name of a command. After `pinned`, the next word is a command's name too.
fn of_command(line: &[u8], place: usize) -> Advice {
    let name = field(line, 0);
    if place > 1 && name == b"pinned".as_slice() {
        of_field(fields_of_command(field(line, 1)), place - 2)
    } else {
        of_field(fields_of_command(name), place.saturating_sub(1))
    }
}

/// Returns the advice on the field at this place after a name, by the fields that the name wants.
fn of_field(fields: Option<&[Wanted]>, place: usize) -> Advice {
    match fields.unwrap_or(&[]).get(place) {
        Some(wanted) => Advice::Wanted(*wanted),
        None => Advice::NothingMore,
    }
}

/// Whether the field begins with a digit. A valid first field that does not is the name of a command.
fn is_number(field: &[u8]) -> bool {
    matches!(field, [b'0'..=b'9', ..])
}
