//! Reads the comments of a session text that name objects and handles.

ghost use Rattle.std.specs.Prelude.{◌≡◌};
ghost use Rattle.std.specs.Option.{option_map, option_and_then};
ghost use Rattle.std.specs.Str.{is_utf8};
ghost use Rattle.zt_text.specs.Fields.{fields_of};
ghost use Rattle.zt_text.specs.Notes.{begins_control, handle_by, handle_named, has_control, is_comment, is_name_line, is_name_text, is_place_line, name_in, named_by, object_by, object_named, with_text};
ghost use Rattle.zt_text.specs.ProofsOnly.Notes.{IsFirstField};

use crate::numbers::decimal;
use crate::read_lines::LINE_BYTES;
use crate::separator::cut;
use zt_rows::{HandleValue, Koid};

/// The longest text of a name, in bytes.
const NAME_BYTES: usize = 64;

/// What a name line names.
#[derive(Clone, Copy, Debug, Drop)]
pub enum Subject {
    /// An object or a process, by its koid.
    Object(Koid),
    /// A handle of a process.
    Handle(Koid, HandleValue),
}

/// Whether a line is a comment, and no longer than a line can be.
pub(crate) fn is_comment(line: &[u8]) -> bool
    ensures { result ≡ is_comment line.now }
{
    line.starts_with(b"#") && line.len() <= LINE_BYTES
}

/// Whether a line is a comment that names something.
#[tactic(auto, using(crate::proofs::NameLemmas::named_alike))]
pub(crate) fn is_name_line(line: &[u8]) -> bool
    ensures { result ≡ is_name_line line.now }
{
    is_comment(line) && name_in(line).is_some()
}

/// Whether a line is that of a branch or of a cursor.
pub(crate) fn is_place_line(line: &[u8]) -> bool
    ensures { result ≡ is_place_line line.now }
{
    line.starts_with(b"branch ") || line.starts_with(b"cursor ")
}

/// Reads what a line names, and its text. Returns `None` if it names nothing.
#[tactic(auto, using(crate::proofs::NameLemmas::line_alone, crate::proofs::NameLemmas::word_alone, crate::proofs::NameLemmas::signed, crate::proofs::NameLemmas::unsigned))]
pub(crate) fn name_in(line: &[u8]) -> Option<(Subject, &[u8])>
    ensures { option_map (λ named. (named.0, named.1.now)) result ≡ name_in line.now }
{
    let Some((sign, left)) = first_field(line) else {
        return None;
    };
    if sign != b"#".as_slice() {
        return None;
    }
    match first_field(left) {
        Some((word, fields)) => named_by(word, fields),
        None => None,
    }
}

/// Reads what the fields after this word name, and the text.
#[tactic(auto, unfolding(crate::specs::Notes::named_by))]
fn named_by<'a>(word: &[u8], fields: &'a [u8]) -> Option<(Subject, &'a [u8])>
    ensures { option_map (λ named. (named.0, named.1.now)) result ≡ named_by word.now (fields_of fields.now) }
{
    if word == b"name".as_slice() {
        object_named(fields)
    } else if word == b"handle".as_slice() {
        handle_named(fields)
    } else {
        None
    }
}

/// Reads a koid, and the text after it.
#[tactic(auto, using(crate::proofs::NameLemmas::object_alone, crate::proofs::NameLemmas::object_and_text))]
fn object_named(fields: &[u8]) -> Option<(Subject, &[u8])>
    ensures { option_map (λ named. (named.0, named.1.now)) result ≡ object_named (fields_of fields.now) }
{
    match first_field(fields) {
        Some((koid, text)) => with_text(object_by(koid), text),
        None => None,
    }
}

/// Reads a process and a handle value, and the text after them.
#[tactic(auto, using(crate::proofs::NameLemmas::process_alone, crate::proofs::NameLemmas::handle_alone, crate::proofs::NameLemmas::handle_and_text))]
fn handle_named(fields: &[u8]) -> Option<(Subject, &[u8])>
    ensures { option_map (λ named. (named.0, named.1.now)) result ≡ handle_named (fields_of fields.now) }
{
    let Some((process, left)) = first_field(fields) else {
        return None;
    };
    match first_field(left) {
        Some((handle, text)) => with_text(handle_by(process, handle), text),
        None => None,
    }
}

/// Reads the koid of what a line names.
fn object_by(koid: &[u8]) -> Option<Subject>
    ensures { result ≡ object_by koid.now }
{
    match decimal(koid, u64::MAX) {
        Some(koid) => Some(Subject::Object(Koid(koid))),
        None => None,
    }
}

/// Reads the process and the handle value of what a line names.
fn handle_by(process: &[u8], handle: &[u8]) -> Option<Subject>
    ensures { result ≡ handle_by process.now handle.now }
{
    match (
        decimal(process, u64::MAX),
        decimal(handle, u64::from(u32::MAX)),
    ) {
        (Some(process), Some(handle)) => Some(Subject::Handle(
            Koid(process),
            HandleValue(handle as u32),
        )),
        _ => None,
    }
}

/// Returns the subject with this text, or `None` if a name cannot have that text.
fn with_text(subject: Option<Subject>, text: &[u8]) -> Option<(Subject, &[u8])>
    ensures { option_map (λ named. (named.0, named.1.now)) result ≡ option_and_then (with_text text.now) subject }
{
    match subject {
        Some(subject) if is_name_text(text) => Some((subject, text)),
        _ => None,
    }
}

/// Whether a name can have this text: 1 to 64 bytes of UTF-8 without control characters.
#[tactic(auto, unfolding(crate::specs::Notes::is_name_text))]
fn is_name_text(bytes: &[u8]) -> bool
    ensures { result ≡ is_name_text bytes.now }
{
    !bytes.is_empty() && bytes.len() <= NAME_BYTES && is_utf8(bytes) && !has_control(bytes)
}

#[tactic(auto, using(crate::proofs::NameLemmas::utf8_yes, crate::proofs::NameLemmas::utf8_no))]
fn is_utf8(bytes: &[u8]) -> bool
    ensures { result ≡ is_utf8 bytes.now }
{
    str::from_utf8(bytes).is_ok()
}

/// Whether a control character is among these bytes of UTF-8.
fn has_control(bytes: &[u8]) -> bool
    ensures { result ≡ has_control bytes.now }
{
    let mut left = bytes;
    while let [_, others @ ..] = left {
        if begins_control(left) {
            return true;
        }
        left = others;
    }
    false
}

/// Whether a control character begins these bytes.
fn begins_control(bytes: &[u8]) -> bool
    ensures { result ≡ begins_control bytes.now }
{
    match bytes {
        [0..32 | 127, ..] => true,
        [194, second, ..] => *second < 160,
        _ => false,
    }
}

/// Returns the bytes before the first space, and those after it. Returns `None` if there is no space.
fn first_field(bytes: &[u8]) -> Option<(&[u8], &[u8])>
    ensures { IsFirstField bytes.now result }
{
    let (first, left) = cut(bytes, b' ');
    match left {
        Some(left) => Some((first, left)),
        None => None,
    }
}
