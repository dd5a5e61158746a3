//! The notes and the names of a session text: its comments, by the moments that they belong to.

ghost use Rattle.std.specs.Prelude.{◌≡◌, ◌<◌, ◌≤◌, ◌-◌, [], length, slice_index_or, IfOk};
ghost use Rattle.zt_text.specs.ProofsOnly.Notes.{pieces, AreEnds};
ghost use Rattle.std.specs.Option.{option_copied};
ghost use Rattle.zt_text.specs.Lines.{lines_of};
ghost use Rattle.zt_text.specs.NotedTexts.{IsNoted};
ghost use Rattle.zt_text.specs.Notes.{behind_first, none_noted, notes_of, note_at, name_of_subject, is_unnoted};
ghost use Rattle.zt_text.specs.declared.name_lines.Subject.TheVariants.{Object, Handle};

use crate::name_table::NameTable;
use crate::note_ends::NoteEnds;
use crate::notes_reader::NotesReader;
use crate::session_text::next_line;
use std::alloc::{AllocError, Global};
use std::marker::Model;
use zt_rows::{HandleValue, Koid, Moment};

/// The notes of a session text, one for each moment, the comments that belong to no moment, and the names of objects and handles.
/// All notes stand in one list of bytes, and take 8 bytes each beside their own;
/// those ahead of the first that is not empty take none.
#[derive(Drop)]
pub struct Notes {
    notes: Vec<u8>,
    ends: NoteEnds,
    rest: Vec<u8>,
    names: Vec<u8>,
    table: NameTable,
}

impl Model for Notes {
    ghost use Rattle.zt_text.specs.Notes.{Noted};
    ghost use Rattle.zt_text.specs.ProofsOnly.Notes.{noted_of, AreKept};

    ghost Value = { Noted };

    ghost view = { λ n. noted_of n.notes.items n.ends n.rest.items n.names.items };

    ghost invariant = { λ n. AreKept n.notes.items n.ends n.rest.items n.names.items n.table };
}

impl Notes {
    /// No notes and no names. Allocates nothing.
    pub fn none(alloc: Global) -> Notes
        ensures { result ≡ none_noted }
    {
        Notes {
            notes: Vec::new(alloc),
            ends: NoteEnds::new(alloc),
            rest: Vec::new(alloc),
            names: Vec::new(alloc),
            table: NameTable::new(alloc),
        }
    }

    /// Reads the notes and the names of a session text of either version. It fails only for want of memory: the lines of the text
    /// need not be calls.
    #[tactic(auto, unfolding(crate::specs::Notes::notes_of))]
    pub fn read(alloc: Global, text: &[u8]) -> Result<Notes, AllocError>
        ensures { IfOk result (λ notes. notes ≡ notes_of text.now) }
    {
        let mut reader = NotesReader::new(alloc);
        reader.take_lines(behind_first(text))?;
        reader.leave_waiting()?;
        reader.trim();
        let NotesReader {
            notes,
            ends,
            rest,
            names,
        } = reader;
        let table = NameTable::of_lines(alloc, names.as_slice())?;
        Ok(Notes {
            notes,
            ends,
            rest,
            names,
            table,
        })
    }

    /// Whether there is no comment and no name.
    #[tactic(auto, using(crate::proofs::NoteLemmas::unnoted_by))]
    pub fn is_empty(&self) -> bool
        ensures { result ≡ is_unnoted self.now }
    {
        self.notes.is_empty() && self.rest.is_empty() && self.names.is_empty()
    }

    /// Returns the note of a moment, with its line feeds. It is empty if the moment has none.
    #[tactic(auto, using(crate::proofs::NoteLemmas::note_beyond, crate::proofs::NoteLemmas::note_of_some))]
    pub fn note(&self, moment: Moment) -> &[u8]
        ensures { result.now ≡ note_at self.now moment }
    {
        let number = moment.0 as usize;
        if number == 0 {
            return &[];
        }
        if number > self.ends.len() {
            return &[];
        }
        piece(self.notes.as_slice(), &self.ends, number)
    }

    /// Returns the comments that belong to no moment: those before branches and cursors, and those at the end of the text.
    pub fn rest(&self) -> &[u8]
        ensures { result.now ≡ self.now.rest }
    {
        self.rest.as_slice()
    }

    /// Returns the name lines in their order, with their line feeds.
    pub fn name_lines(&self) -> &[u8]
        ensures { result.now ≡ self.now.names }
    {
        self.names.as_slice()
    }

    /// The comments are whole lines, and so are the names: what the laws on texts with notes ask for.
    pub fn are_lines(&self)
        ensures { IsNoted self.now }
    {
        let _ = &self.rest;
    }

    /// Returns the name of an object or a process.
    #[tactic(auto, unfolding(crate::specs::Notes::name_of_subject))]
    pub fn koid_name(&self, koid: Koid) -> Option<&[u8]>
        ensures { option_copied result ≡ name_of_subject self.now (Object koid) }
    {
        self.table.object(koid)
    }

    /// Returns the name of a handle of a process.
    #[tactic(auto, unfolding(crate::specs::Notes::name_of_subject))]
    pub fn handle_name(&self, process: Koid, handle: HandleValue) -> Option<&[u8]>
        ensures { option_copied result ≡ name_of_subject self.now (Handle process handle) }
    {
        self.table.handle(process, handle)
    }
}

/// Returns the bytes after the first line.
fn behind_first(text: &[u8]) -> &[u8]
    ensures { lines_of result.now ≡ behind_first (lines_of text.now) }
{
    if text.is_empty() {
        return &[];
    }
    let (_, left) = next_line(text);
    left
}

/// Returns the bytes of the note of this number, counted from 1.
fn piece<'a>(bytes: &'a [u8], ends: &NoteEnds, number: usize) -> &'a [u8]
    requires some { 0 < number }
    requires inside { number ≤ length ends.now }
    requires ascend { AreEnds 0 ends.now (length bytes.now) }
    ensures { result.now ≡ slice_index_or (pieces 0 ends.now bytes.now) (number - 1) [] }
{
    let from = ends.after(number - 1);
    let end = ends.after(number);
    let (front, _) = bytes.split_at(end);
    let (_, note) = front.split_at(from);
    note
}
