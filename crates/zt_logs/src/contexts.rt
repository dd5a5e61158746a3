//! Keeps what the lines of a log tell besides their calls, as the comments of a trace show it.

ghost use Rattle.std.specs.Prelude.{◌≡◌};
ghost use Rattle.json.specs.Tree.{HasNumbers};
ghost use Rattle.json.specs.Value.{value_view};
ghost use Rattle.zt_logs.specs.Contexts.{line_text, part, end_of};

use crate::faults::Cause;
use crate::fields::put_field;
use crate::json_values::JsonValue;
use crate::line_members::LineMembers;
use crate::rare_members::RareMember;
use crate::shown_texts::put_shown;
use json::{Error, Scratch, Value};
use std::alloc::{AllocError, Global};

/// The most bytes that are shown of a time, of a thread, and of the name of a field.
const WORD_BYTES: usize = 64;

/// A field of lines that is shown.
#[derive(Drop)]
struct Field {
    /// The name of the member.
    name: String,
    /// The name as comments show it: without spaces, so that no comment of a field reads as a name line.
    shown: String,
}

/// The texts of the lines of a log.
///
/// The text of a line is the end of its comment, such as `; time 41.209; thread 4711`. Each further comment of the line
/// stands behind it without its `#`, after a line feed.
#[derive(Drop)]
pub struct LineContexts {
    fields: Vec<Field>,
    /// The texts of all lines, one behind another.
    text: String,
    /// Where the text of each line ends in `text`, from line 1 to the last line that has a text.
    ends: Vec<usize>,
}

impl LineContexts {
    /// Those of no line. The fields of these names are shown. The error is an allocation failure.
    pub(crate) fn new(alloc: Global, names: &[&str]) -> Result<LineContexts, AllocError> {
        let mut fields = Vec::new(alloc);
        for name in names {
            fields.push(field_of(alloc, name)?)?;
        }
        Ok(LineContexts {
            fields,
            text: String::new(alloc),
            ends: Vec::new(alloc),
        })
    }

    /// The text of the line of this number, counted from 1. It is empty for a line without one.
    pub fn of_line(&self, line: u64) -> &[u8]
        ensures { result.now ≡ line_text self.now line }
    {
        let place = line as usize;
        let Some(end) = end_of(self.ends.as_slice(), place) else {
            return &[];
        };
        let first = match end_of(self.ends.as_slice(), place.saturating_sub(1)) {
            Some(first) => first,
            None => 0,
        };
        part(self.text.as_bytes(), first, end)
    }

    /// Adds the time and the thread of a line, if it has them. Lines come in their order.
    #[inline(always)]
    pub(crate) fn add_times(
        &mut self,
        number: u64,
        line: &LineMembers<'_, '_>,
    ) -> Result<(), AllocError> {
        let time = time_in(line);
        let thread = rare_word(line, RareMember::Thread).or_else(|| rare_word(
            line,
            RareMember::ShortThread,
        ));
        if time.is_none() && thread.is_none() {
            return Ok(());
        }
        self.put_times(number, time, thread)
    }

    /// Adds this time and this thread of a line.
    fn put_times(
        &mut self,
        number: u64,
        time: Option<&str>,
        thread: Option<&str>,
    ) -> Result<(), AllocError> {
        self.begin(number)?;
        put_word(&mut self.text, "; time ", time)?;
        put_word(&mut self.text, "; thread ", thread)?;
        self.end();
        Ok(())
    }

    /// Adds the fields of a line that are shown. Nothing is added if the line is no JSON.
    pub(crate) fn add_fields(
        &mut self,
        alloc: Global,
        line: u64,
        bytes: &[u8],
    ) -> Result<(), Cause> {
        if self.fields.is_empty() {
            return Ok(());
        }
        let mut scratch = Scratch::new(alloc);
        match Value::from_slice(alloc, bytes, &mut scratch) {
            Ok(value) => Ok(self.add_members(alloc, line, &value)?),
            Err(Error::OutOfMemory) => Err(Cause::OutOfMemory),
            Err(_) => Ok(()),
        }
    }

    /// Adds those members of a line that are shown.
    fn add_members(&mut self, alloc: Global, line: u64, value: &Value<'_>) -> Result<(), AllocError>
        requires { HasNumbers (value_view value.now) }
    {
        self.begin(line)?;
        for field in self.fields.as_slice() {
            match value.get(field.name.as_str()) {
                Some(member) => put_field(alloc, &mut self.text, field.shown.as_str(), member)?,
                None => {}
            }
        }
        self.end();
        Ok(())
    }

    /// Begins the text of a line, or goes on with it. The lines before it have none from here on.
    fn begin(&mut self, line: u64) -> Result<(), AllocError> {
        let len = self.text.len();
        for _ in self.ends.len()..line as usize {
            self.ends.push(len)?;
        }
        Ok(())
    }

    /// Ends the text of the last line behind what was appended.
    fn end(&mut self) {
        let len = self.text.len();
        if let Some(end) = self.ends.last_mut() {
            *end = len;
        }
    }
}

/// Where the text of the line at a place, counted from 1, ends. None for place 0 and behind the last line.
fn end_of(ends: &[usize], place: usize) -> Option<usize>
    ensures { result ≡ end_of ends.now place }
{
    if place == 0 {
        return None;
    }
    ends.get(place - 1).copied()
}

/// The bytes from `first` up to `end`; none if they do not lie in `bytes`.
fn part(bytes: &[u8], first: usize, end: usize) -> &[u8]
    ensures { result.now ≡ part bytes.now first end }
{
    if end < first || bytes.len() < end {
        return &[];
    }
    &bytes[first..end]
}

/// The field of this name. As it is shown, `_` stands for each space.
fn field_of(alloc: Global, name: &str) -> Result<Field, AllocError> {
    let mut cut = String::new(alloc);
    put_shown(&mut cut, name, WORD_BYTES, "?")?;
    let mut shown = String::new(alloc);
    for letter in cut.as_str().chars() {
        shown.push(if letter == ' ' { '_' } else { letter })?;
    }
    Ok(Field {
        name: String::from_str(alloc, name)?,
        shown,
    })
}

/// The time of a line, as the log writes it.
#[inline(always)]
fn time_in<'a>(line: &LineMembers<'_, 'a>) -> Option<&'a str> {
    let told = match line.time() {
        Some(time) => word_in(time),
        None => None,
    };
    told.or_else(|| rare_word(line, RareMember::Timestamp))
        .or_else(|| rare_word(line, RareMember::ShortTime))
}

/// The text of a rare member, in the forms of `word_in`.
#[inline(always)]
fn rare_word<'a>(line: &LineMembers<'_, 'a>, member: RareMember) -> Option<&'a str> {
    word_in(&line.rare(member)?)
}

/// The text of a member that is a number or a text. None if it is empty.
fn word_in<'a>(value: &JsonValue<'_, 'a>) -> Option<&'a str> {
    let word = value.as_number().or(value.as_str())?;
    if word.is_empty() { None } else { Some(word) }
}

/// Appends a word behind its label, if there is one.
fn put_word(text: &mut String, label: &str, word: Option<&str>) -> Result<(), AllocError> {
    let Some(word) = word else {
        return Ok(());
    };
    text.push_str(label)?;
    put_shown(text, word, WORD_BYTES, "?")
}
