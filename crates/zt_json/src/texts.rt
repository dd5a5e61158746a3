//! The JSON of a line, and of all lines of an answer.

ghost use Rattle.std.specs.Prelude.{◌≡◌, ◌++◌, ◌∷◌, [], IfOk};
ghost use Rattle.std.specs.Str.Lossy.{utf8_lossy};
ghost use Rattle.zt_json.specs.ProofsOnly.Done.{Gives};
ghost use Rattle.zt_json.specs.Texts.{line_made, spaces_ahead, first_word_at, process_of, object_made, line_json, unread_json, json_of, json_text};

use crate::members::Members;
use crate::parts::Parts;
use crate::words::Word;
use json::Writer;
use std::alloc::{AllocError, Global};
use zt_notes::Shape;
use zt_rows::Koid;
use zt_text::Notes;

/// Turns the lines of an answer into JSON: one object a line.
///
/// `named` is the same answer with the names of bits. A line that has not the form of its shape becomes an object with the line
/// itself. An empty line becomes nothing.
pub fn json_lines(
    alloc: Global,
    text: &[u8],
    named: &[u8],
    shape: Shape,
    notes: &Notes,
) -> Result<Vec<u8>, AllocError>
    ensures { IfOk result (λ out. out.items ≡ json_text notes.now shape (utf8_lossy text.now) (utf8_lossy named.now)) }
{
    let text = String::from_utf8_lossy(alloc, text)?;
    let named = String::from_utf8_lossy(alloc, named)?;
    all_lines(alloc, text.as_str(), named.as_str(), &shape, notes)
}

/// Writes the JSON of all lines.
#[tactic(auto, unfolding(crate::specs::Texts::json_of))]
fn all_lines<'x>(
    alloc: Global,
    text: &'x str,
    named: &'x str,
    shape: &Shape,
    notes: &'x Notes,
) -> Result<Vec<u8>, AllocError>
    ensures { IfOk result (λ out. out.items ≡ json_text notes.now shape.now text.now named.now) }
{
    let mut out = Vec::new(alloc);
    let mut lines = Parts::of_text(text);
    let mut others = Parts::of_text(named);
    let mut buffer = Vec::new(alloc);
    while let Some(line) = lines.next() {
        let names = match others.next() {
            Some(names) => names,
            None => "",
        };
        buffer = json_of_line(alloc, buffer, line, names, shape, notes)?;
        out.extend_from_slice(buffer.as_slice())?;
    }
    Ok(out)
}

/// Returns the JSON of a line, in the memory of this buffer.
fn json_of_line<'x>(
    alloc: Global,
    mut buffer: Vec<u8>,
    line: &'x str,
    named: &'x str,
    shape: &Shape,
    notes: &'x Notes,
) -> Result<Vec<u8>, AllocError>
    ensures { IfOk result (λ out. out.items ≡ line_json notes.now shape.now line.now named.now) }
{
    buffer.clear();
    if line.is_empty() {
        return Ok(buffer);
    }
    let mut members = Members::begin_line(notes, process_of(shape), line, named, buffer);
    let done = members.object(alloc, shape, spaces_ahead(line))?;
    let mut out = members.into_text();
    if !done {
        out = json_of_unread(out, line)?;
    }
    out.push(b'\n')?;
    Ok(out)
}

/// Returns the object of a line that has not the form of its shape.
fn json_of_unread(mut buffer: Vec<u8>, line: &str) -> Result<Vec<u8>, AllocError>
    ensures { IfOk result (λ out. out.items ≡ unread_json line.now) }
{
    buffer.clear();
    let mut writer = Writer::new(buffer);
    writer.begin_object()?;
    writer.key(Word::Line.text())?;
    writer.string(line)?;
    writer.end_object()?;
    Ok(writer.into_inner())
}

/// Returns the process whose handles the first fields of a line tell, or 0.
fn process_of(shape: &Shape) -> Koid
    ensures { result ≡ process_of shape.now }
{
    match *shape {
        Shape::Handles(process) => process,
        _ => Koid(0),
    }
}

/// Returns the place of the first byte that is no space.
fn first_word_at(bytes: &[u8]) -> Option<usize>
    ensures { result ≡ first_word_at bytes.now }
{
    bytes.iter().position(|byte| !(*byte == b' '))
}

/// Returns how many spaces are ahead of a line.
fn spaces_ahead(line: &str) -> usize
    ensures { result ≡ spaces_ahead line.now }
{
    match first_word_at(line.as_bytes()) {
        Some(place) => place,
        None => line.len(),
    }
}

impl<'a> Members<'a> {
    /// Reads a line of this shape, with so many spaces ahead.
    fn line(&mut self, shape: &Shape, spaces: usize) -> Result<bool, AllocError>
        ensures { Gives result (line_made shape.now spaces self.old) self.new }
    {
        match *shape {
            Shape::Calls => self.call_line(),
            Shape::Changes => self.change_line(),
            Shape::Events => self.event_line(),
            Shape::Object => self.object_line(),
            Shape::Handles(_) => self.perform_all(&crate::steps::HANDLE_LINE),
            Shape::Messages => self.message_line(),
            Shape::Branches => self.branch_line(),
            Shape::Summary => self.summary_line(),
            Shape::Alive => self.alive_line(),
            Shape::Life => self.life_line(),
            Shape::Lineage => self.tree_line(spaces),
        }
    }

    /// Makes the object of a line of this shape, with so many spaces ahead.
    fn object(&mut self, alloc: Global, shape: &Shape, spaces: usize) -> Result<bool, AllocError>
        ensures { Gives result (object_made shape.now spaces self.old) self.new }
    {
        self.begin()?;
        if !self.line(shape, spaces)? {
            return Ok(false);
        }
        if !self.is_read() {
            return Ok(false);
        }
        self.note(alloc)?;
        self.end()?;
        Ok(true)
    }
}
