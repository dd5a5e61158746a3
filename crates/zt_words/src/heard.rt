//! Explains lines that were heard with their answers and were refused.

use crate::advice::remark_on;
use crate::explanation::explanation;
use crate::fields::field;
use std::alloc::{AllocError, Global};
use zt_rows::Refusal;
use zt_text::read_line;

/// The heading above an explained line.
#[derive(Clone, Copy)]
pub enum Heading {
    /// No heading, because the line was just typed.
    Nothing,
    /// The number of the line.
    Line(u64),
    /// The client that sent the line, and its number among that client's lines.
    Client(u8, u64),
}

/// Explains a line that was answered with this text. Returns `None` if the line was not refused.
pub fn said_of(
    alloc: Global,
    heading: Heading,
    line: &[u8],
    text: &[u8],
) -> Result<Option<String>, AllocError> {
    match refusal_of(alloc, line, text) {
        Some(refusal) => explained(alloc, heading, line, refusal),
        None => Ok(None),
    }
}

/// Explains a line that was refused for this reason. Returns `None` for a refusal that no line gets.
fn explained(
    alloc: Global,
    heading: Heading,
    line: &[u8],
    refusal: Refusal,
) -> Result<Option<String>, AllocError> {
    let Some(remark) = remark_on(line, refusal) else {
        return Ok(None);
    };
    let mut said = head(alloc, heading)?;
    let shown = explanation(alloc, line, remark)?;
    said.push_str(shown.as_str())?;
    Ok(Some(said))
}

/// Prints a heading.
fn head(alloc: Global, heading: Heading) -> Result<String, AllocError> {
    match heading {
        Heading::Nothing => Ok(String::new(alloc)),
        Heading::Line(number) => format!(in alloc; "line {number}:\n"),
        Heading::Client(client, number) => format!(in alloc; "client {client}, line {number}:\n"),
    }
}

/// Returns the refusal in the text of an answer, if there is one. To find the column of a parse error, it reads the line again.
fn refusal_of(alloc: Global, line: &[u8], text: &[u8]) -> Option<Refusal> {
    if field(text, 0) != b"refused".as_slice() {
        return None;
    }
    match field(text, 1) {
        b"10" => read_line(alloc, line).err(),
        number => refusal_numbered(number),
    }
}

/// Returns the refusal of this number, if a line can get it. A parse error, number 10, is not among these.
fn refusal_numbered(number: &[u8]) -> Option<Refusal> {
    match number {
        b"1" => Some(Refusal::OutOfMemory),
        b"2" => Some(Refusal::NoProcess),
        b"3" => Some(Refusal::Full),
        b"4" => Some(Refusal::NoMoment),
        b"5" => Some(Refusal::NoBranch),
        b"6" => Some(Refusal::NameTaken),
        b"7" => Some(Refusal::Detached),
        b"8" => Some(Refusal::AtStart),
        b"9" => Some(Refusal::NoObject),
        b"11" => Some(Refusal::LineTooLong),
        b"12" => Some(Refusal::ClientFull),
        b"16" => Some(Refusal::BadName),
        _ => None,
    }
}
