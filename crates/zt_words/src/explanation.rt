//! Prints a refused line with a caret and an explanation.

use crate::advice::{Advice, Remark};
use crate::fields::field;
use crate::reason::Reason;
use std::alloc::{AllocError, Global};

/// How many bytes of a line are shown at most.
const SHOWN: usize = 72;

/// The indentation of an explanation.
const INDENT: &str = "    ";

/// Stands where bytes of a line are left out.
const LEFT_OUT: &str = "..";

/// Prints a line, a caret below its wrong field, and the advice on that field.
pub fn explanation(alloc: Global, line: &[u8], remark: Remark) -> Result<String, AllocError> {
    let offset = remark.offset;
    let mut text = String::new(alloc);
    let start = start_of(line.len(), offset);
    push_line(&mut text, line, start)?;
    text.push_str(INDENT)?;
    if start > 0 {
        push_spaces(&mut text, LEFT_OUT.len())?;
    }
    push_spaces(&mut text, offset.saturating_sub(start))?;
    text.push_str("^\n")?;
    text.push_str(INDENT)?;
    push_advice(&mut text, remark.advice, field_from(line, offset))?;
    text.push('\n')?;
    Ok(text)
}

/// Prints a line of which no column is wrong.
pub fn shown_line(alloc: Global, line: &[u8]) -> Result<String, AllocError> {
    let mut text = String::new(alloc);
    push_line(&mut text, line, 0)?;
    Ok(text)
}

/// Returns the field that begins after this many bytes.
fn field_from(line: &[u8], offset: usize) -> &[u8] {
    field(line.get(offset..).unwrap_or(&[]), 0)
}

/// Returns where the shown part of a line begins. That is 0 if the line is short or `offset` is near its beginning.
fn start_of(length: usize, offset: usize) -> usize {
    offset
        .saturating_sub(SHOWN / 2)
        .min(length.saturating_sub(SHOWN))
}

/// Appends the part of a line from `start` on, with marks where it is cut off.
fn push_line(text: &mut String, line: &[u8], start: usize) -> Result<(), AllocError> {
    let rest = line.get(start..).unwrap_or(&[]);
    text.push_str(INDENT)?;
    if start > 0 {
        text.push_str(LEFT_OUT)?;
    }
    push_bytes(text, rest.get(..SHOWN).unwrap_or(rest))?;
    if rest.len() > SHOWN {
        text.push_str(LEFT_OUT)?;
    }
    text.push('\n')?;
    Ok(())
}

/// Appends each byte as one character, with `?` for any byte that is not a space or `!` to `~`.
fn push_bytes(text: &mut String, bytes: &[u8]) -> Result<(), AllocError> {
    for byte in bytes {
        let shown = match *byte {
            b' '..=b'~' => char::from(*byte),
            _ => '?',
        };
        text.push(shown)?;
    }
    Ok(())
}

/// Appends this many spaces.
fn push_spaces(text: &mut String, count: usize) -> Result<(), AllocError> {
    for _ in 0..count {
        text.push(' ')?;
    }
    Ok(())
}

/// Appends the advice on this field.
fn push_advice(text: &mut String, advice: Advice, field: &[u8]) -> Result<(), AllocError> {
    match advice {
        Advice::Wanted(wanted) => {
            text.push_str("expected ")?;
            text.push_str(wanted.text())
        }
        Advice::NoName => text.push_str(no_name()),
        Advice::Question(name, like) => push_question(text, name, like),
        Advice::NoCall => text.push_str("no call has this name"),
        Advice::NothingMore => text.push_str("expected the end of the line"),
        Advice::CarriageReturn => text.push_str(carriage_return()),
        Advice::Refused(reason) => push_reason(text, reason, field),
    }
}

/// The advice on a word with which no line begins.
fn no_name() -> &'static str {
    "no call or command has this name"
}

/// The advice on a line that ends in CRLF.
fn carriage_return() -> &'static str {
    "the line ends in CRLF; end it in LF only"
}

/// Appends the advice on a word that is the name of a question.
fn push_question(
    text: &mut String,
    name: &str,
    like: Option<&'static str>,
) -> Result<(), AllocError> {
    text.push_str(no_name())?;
    text.push_str("; `")?;
    text.push_str(name)?;
    text.push_str("` is a question of `zxtt look`")?;
    match like {
        Some(command) => {
            text.push_str("; use `")?;
            text.push_str(command)?;
            text.push_str("` here")
        }
        None => Ok(()),
    }
}

/// Appends why this field was refused.
fn push_reason(text: &mut String, reason: Reason, field: &[u8]) -> Result<(), AllocError> {
    text.push_str(reason.text())?;
    if reason.names_field() {
        push_bytes(text, field.get(..SHOWN).unwrap_or(field))?;
    }
    Ok(())
}
