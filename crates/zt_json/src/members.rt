//! The members of an object, made from the fields of a line one after another.
//!
//! A function that gives `false` or `None` has found a line without its form. It may have read and written a part by then.

ghost use Rattle.std.specs.Prelude.{◌≡◌, [], MatchOption, OnOk};
ghost use Rattle.std.specs.Bool.{MatchBool};
ghost use Rattle.std.specs.Fmt.{decimal};
ghost use Rattle.json.specs.Print.{print};
ghost use Rattle.json.specs.Token as token;
ghost use Rattle.zt_json.specs.ProofsOnly.Done.{Gives, GivesWord};
ghost use Rattle.zt_json.specs.Words.{text_of};

use crate::names::{handle_name, koid, koid_name, moment};
use crate::parts::Parts;
use crate::steps::Step;
use crate::values::{
    any_named, halves_at_colon, put_bytes, put_handle_names, put_handles, put_held, put_mask,
    put_name, put_note, put_number,
};
use crate::words::Word;
use json::Writer;
use std::alloc::{AllocError, Global};
use std::marker::Model;
use zt_rows::{Koid, Moment};
use zt_text::Notes;

/// A field of a line, as it is there and as it is in the line with names.
#[derive(Clone, Copy, Drop)]
pub struct Field<'a> {
    pub text: &'a str,
    pub named: &'a str,
}

/// An object whose members are made from the fields of a line.
#[derive(Drop)]
pub struct Members<'a> {
    fields: Parts<'a>,
    named: Parts<'a>,
    writer: Writer,
    notes: &'a Notes,
    process: Koid,
    moment: Moment,
}

impl<'a> Model for Members<'a> {
    ghost use Rattle.std.specs.Prelude.{◌≡◌, []};
    ghost use Rattle.zt_json.specs.Made.{Made};

    ghost Value = { Made };

    ghost view = { λ m. record { fields = m.fields; named = m.named; tokens = m.writer.tokens; notes = m.notes.now; process = m.process; moment = m.moment } };

    ghost invariant = { λ m. m.writer.before ≡ [] };
}

impl<'a> Members<'a> {
    ghost use Rattle.zt_json.specs.declared.words.Word.TheVariants.{Depth};
    ghost use Rattle.zt_json.specs.Made.{begun, put, put_key, taken, next_is, is_read, first_word};
    ghost use Rattle.zt_json.specs.Members.{exactly, number, text, bytes, mask, handles, held, flag, marked, worded, performed, performed_all, numbered, moment, koid, process, handle, put_names, koid_behind, noted};

    /// Begins with no member, and writes into this empty buffer. The handles of the first fields are those of the process.
    pub fn begin_line(
        notes: &'a Notes,
        process: Koid,
        line: &'a str,
        named: &'a str,
        buffer: Vec<u8>,
    ) -> Members<'a>
        requires { buffer.items ≡ [] }
        ensures { result ≡ begun notes.now process line.now named.now }
    {
        Members {
            fields: Parts::of_line(line),
            named: Parts::of_line(named),
            writer: Writer::new(buffer),
            notes,
            process,
            moment: Moment(0),
        }
    }

    /// Returns what was written.
    pub fn into_text(self) -> Vec<u8>
        ensures { result.items ≡ print self.entry.tokens }
    {
        let Members { writer, .. } = self;
        writer.into_inner()
    }

    /// Reads the next field.
    pub fn take(&mut self) -> Option<Field<'a>>
        ensures { MatchOption result (taken self.old ≡ None)
            (λ field. taken self.old ≡ Some (record { text = field.text.now; named = field.named.now }, self.new)) }
    {
        let text = self.fields.next()?;
        let named = self.named.next()?;
        Some(Field { text, named })
    }

    /// Returns the next field of the line, without reading it; the empty text if there is none.
    pub fn first(&self) -> &'a str
        ensures { result.now ≡ first_word self.now.fields }
    {
        self.fields.first().unwrap_or("")
    }

    /// Whether no field is left.
    pub fn is_read(&self) -> bool
        ensures { result ≡ is_read self.now.fields }
    {
        self.fields.first().is_none()
    }

    /// Whether the next field is this word.
    pub fn next_is(&self, word: Word) -> bool
        ensures { result ≡ next_is word self.now }
    {
        match self.fields.first() {
            Some(field) => field == word.text(),
            None => false,
        }
    }

    /// Begins the object of the line.
    pub fn begin(&mut self) -> Result<(), AllocError>
        ensures { OnOk result (self.new ≡ put token.begin_object self.old) }
    {
        self.writer.begin_object()
    }

    /// Begins an object within, behind a key.
    pub fn begin_within(&mut self, key: Word) -> Result<(), AllocError>
        ensures { OnOk result (self.new ≡ put token.begin_object (put_key key self.old)) }
    {
        self.writer.key(key.text())?;
        self.writer.begin_object()
    }

    /// Ends the last object that was begun.
    pub fn end(&mut self) -> Result<(), AllocError>
        ensures { OnOk result (self.new ≡ put token.end_object self.old) }
    {
        self.writer.end_object()
    }

    /// Writes how deep a line stands.
    pub fn depth(&mut self, depth: u64) -> Result<(), AllocError>
        ensures { OnOk result (self.new ≡ put (token.number (decimal depth)) (put_key Depth self.old)) }
    {
        self.writer.key(Word::Depth.text())?;
        self.writer.u64(depth)
    }

    /// Writes `null` behind a key.
    fn null(&mut self, key: Word) -> Result<(), AllocError>
        ensures { OnOk result (self.new ≡ put token.null (put_key key self.old)) }
    {
        self.writer.key(key.text())?;
        self.writer.null()
    }

    /// Reads a field that has to be this word, and writes nothing.
    pub fn exactly(&mut self, word: Word) -> bool
        ensures { MatchBool result (exactly word self.old ≡ Some self.new) (exactly word self.old ≡ None) }
    {
        match self.take() {
            Some(field) => field.text == word.text(),
            None => false,
        }
    }

    /// Reads a number.
    pub fn number(&mut self, key: Word) -> Result<bool, AllocError>
        ensures { Gives result (number key self.old) self.new }
    {
        let Some(field) = self.take() else {
            return Ok(false);
        };
        self.writer.key(key.text())?;
        put_number(&mut self.writer, field.text)
    }

    /// Reads a number, and returns its field.
    fn numbered(&mut self, key: Word) -> Result<Option<&'a str>, AllocError>
        ensures { GivesWord result (numbered key self.old) self.new }
    {
        let Some(field) = self.take() else {
            return Ok(None);
        };
        self.writer.key(key.text())?;
        if put_number(&mut self.writer, field.text)? {
            Ok(Some(field.text))
        } else {
            Ok(None)
        }
    }

    /// Reads the moment of the call that the line shows.
    fn moment(&mut self, key: Word) -> Result<bool, AllocError>
        ensures { Gives result (moment key self.old) self.new }
    {
        let Some(field) = self.numbered(key)? else {
            return Ok(false);
        };
        self.moment = match moment(field) {
            Some(moment) => moment,
            None => Moment(0),
        };
        Ok(true)
    }

    /// Reads a koid, and writes the name of its object too.
    fn koid(&mut self, key: Word, name: Word) -> Result<bool, AllocError>
        ensures { Gives result (koid key name self.old) self.new }
    {
        let Some(field) = self.numbered(key)? else {
            return Ok(false);
        };
        let named = koid_name(self.notes, field);
        put_name(&mut self.writer, name, named)?;
        Ok(true)
    }

    /// Reads the koid of a process, and writes its name too. The handles behind it are those of this process.
    fn process(&mut self, key: Word, name: Word) -> Result<bool, AllocError>
        ensures { Gives result (process key name self.old) self.new }
    {
        let Some(field) = self.numbered(key)? else {
            return Ok(false);
        };
        self.process = match koid(field) {
            Some(process) => process,
            None => Koid(0),
        };
        let named = koid_name(self.notes, field);
        put_name(&mut self.writer, name, named)?;
        Ok(true)
    }

    /// Reads a handle, and writes its name too.
    fn handle(&mut self, key: Word, name: Word) -> Result<bool, AllocError>
        ensures { Gives result (handle key name self.old) self.new }
    {
        let Some(field) = self.numbered(key)? else {
            return Ok(false);
        };
        let named = handle_name(self.notes, self.process, field);
        put_name(&mut self.writer, name, named)?;
        Ok(true)
    }

    /// Reads a word, and returns it.
    pub fn word(&mut self, key: Word) -> Result<Option<&'a str>, AllocError>
        ensures { GivesWord result (worded key self.old) self.new }
    {
        let Some(field) = self.take() else {
            return Ok(None);
        };
        self.writer.key(key.text())?;
        self.writer.string(field.text)?;
        Ok(Some(field.text))
    }

    /// Reads a word.
    pub fn text(&mut self, key: Word) -> Result<bool, AllocError>
        ensures { Gives result (text key self.old) self.new }
    {
        Ok(self.word(key)?.is_some())
    }

    /// Reads bytes.
    fn bytes(&mut self, key: Word) -> Result<bool, AllocError>
        ensures { Gives result (bytes key self.old) self.new }
    {
        let Some(field) = self.take() else {
            return Ok(false);
        };
        self.writer.key(key.text())?;
        put_bytes(&mut self.writer, field.text)?;
        Ok(true)
    }

    /// Reads a mask.
    fn mask(&mut self, key: Word, names_key: Word) -> Result<bool, AllocError>
        ensures { Gives result (mask key names_key self.old) self.new }
    {
        let Some(field) = self.take() else {
            return Ok(false);
        };
        put_mask(&mut self.writer, key, names_key, field.text, field.named)?;
        Ok(true)
    }

    /// Reads a list of handles, and writes their names too, if one has a name.
    fn handles(&mut self, key: Word, names: Word) -> Result<bool, AllocError>
        ensures { Gives result (handles key names self.old) self.new }
    {
        let Some(field) = self.take() else {
            return Ok(false);
        };
        self.writer.key(key.text())?;
        if !put_handles(&mut self.writer, field.text)? {
            return Ok(false);
        }
        self.names(names, field.text)?;
        Ok(true)
    }

    /// Writes the names of a list of handles, if one has a name.
    fn names(&mut self, key: Word, list: &str) -> Result<(), AllocError>
        ensures { OnOk result (self.new ≡ put_names key list.now self.old) }
    {
        if !any_named(self.notes, self.process, list) {
            return Ok(());
        }
        self.writer.key(key.text())?;
        put_handle_names(&mut self.writer, self.notes, self.process, list)
    }

    /// Reads a list of held handles.
    fn held(&mut self, key: Word) -> Result<bool, AllocError>
        ensures { Gives result (held key self.old) self.new }
    {
        let Some(field) = self.take() else {
            return Ok(false);
        };
        self.writer.key(key.text())?;
        put_held(&mut self.writer, self.notes, field.text, field.named)
    }

    /// Reads a word that may be left out.
    fn flag(&mut self, word: Word) -> Result<bool, AllocError>
        ensures { Gives result (flag word self.old) self.new }
    {
        if !self.next_is(word) {
            return Ok(true);
        }
        if self.take().is_none() {
            return Ok(false);
        }
        self.writer.key(word.text())?;
        self.writer.boolean(true)?;
        Ok(true)
    }

    /// Reads a koid behind a word and a colon, if a field is left.
    fn marked(&mut self, word: Word, name: Word) -> Result<bool, AllocError>
        ensures { Gives result (marked word name self.old) self.new }
    {
        if self.is_read() {
            return Ok(true);
        }
        match self.take() {
            Some(field) => self.koid_behind(word, name, field.text),
            None => Ok(false),
        }
    }

    /// Writes the koid behind a word and a colon, and the name of its object.
    fn koid_behind(&mut self, word: Word, name: Word, field: &str) -> Result<bool, AllocError>
        ensures { Gives result (koid_behind word name field.now self.old) self.new }
    {
        let Some((mark, koid)) = halves_at_colon(field) else {
            return Ok(false);
        };
        if mark != word.text() {
            return Ok(false);
        }
        self.writer.key(word.text())?;
        if !put_number(&mut self.writer, koid)? {
            return Ok(false);
        }
        let named = koid_name(self.notes, koid);
        put_name(&mut self.writer, name, named)?;
        Ok(true)
    }

    /// Writes the note of the moment whose call the line shows, if there is one.
    pub fn note(&mut self, alloc: Global) -> Result<(), AllocError>
        ensures { OnOk result (self.new ≡ noted self.old) }
    {
        let note = self.notes.note(self.moment);
        if note.is_empty() {
            return Ok(());
        }
        let text = String::from_utf8_lossy(alloc, note)?;
        self.writer.key(Word::Note.text())?;
        put_note(&mut self.writer, text.as_str())
    }

    /// Does one step of a table.
    fn perform(&mut self, step: Step) -> Result<bool, AllocError>
        ensures { Gives result (performed step self.old) self.new }
    {
        match step {
            Step::Exactly(word) => Ok(self.exactly(word)),
            Step::Number(key) => self.number(key),
            Step::Moment(key) => self.moment(key),
            Step::Koid(key, name) => self.koid(key, name),
            Step::Process(key, name) => self.process(key, name),
            Step::Handle(key, name) => self.handle(key, name),
            Step::Text(key) => self.text(key),
            Step::Bytes(key) => self.bytes(key),
            Step::Mask(key, names_key) => self.mask(key, names_key),
            Step::Handles(key, names) => self.handles(key, names),
            Step::Held(key) => self.held(key),
            Step::Flag(word) => self.flag(word),
            Step::Marked(word, name) => self.marked(word, name),
            Step::Null(key) => {
                self.null(key)?;
                Ok(true)
            }
        }
    }

    /// Does the steps of a table, one after another.
    #[tactic(auto, unfolding(crate::specs::Members::performed_all))]
    pub fn perform_all(&mut self, steps: &[Step]) -> Result<bool, AllocError>
        ensures { Gives result (performed_all steps.now self.old) self.new }
    {
        for step in steps {
            if !self.perform(*step)? {
                return Ok(false);
            }
        }
        Ok(true)
    }
}
