//! Gathers the notes and the name lines of a session text, line by line.

ghost use Rattle.std.specs.Prelude.{◌≡◌, ◌≤◌, ◌++◌, length, OnOk};
ghost use Rattle.zt_text.specs.Answers.{as_line};
ghost use Rattle.zt_text.specs.Lines.{lines_of};
ghost use Rattle.zt_text.specs.Notes.{noted_in, nothing_noted, with_comment, with_moment, with_noted, without_moment};

use crate::name_lines::{is_comment, is_name_line, is_place_line};
use crate::note_ends::NoteEnds;
use crate::read_lines::is_skipped;
use crate::session_text::next_line;
use std::alloc::{AllocError, Global};
use std::marker::Model;

/// What the lines so far noted. The comments that wait for the next line stand behind the notes, after their last end.
#[derive(Drop)]
pub struct NotesReader {
    pub notes: Vec<u8>,
    pub ends: NoteEnds,
    pub rest: Vec<u8>,
    pub names: Vec<u8>,
}

impl Model for NotesReader {
    ghost use Rattle.std.specs.Prelude.{length};
    ghost use Rattle.zt_text.specs.Notes.{NotedSoFar};
    ghost use Rattle.zt_text.specs.ProofsOnly.Notes.{so_far, AreEnds};

    ghost Value = { NotedSoFar };

    ghost view = { λ r. so_far r.notes.items r.ends r.rest.items r.names.items };

    ghost invariant = { λ r. AreEnds 0 r.ends (length r.notes.items) };
}

impl NotesReader {
    /// Begins with nothing noted. Allocates nothing.
    pub fn new(alloc: Global) -> NotesReader
        ensures { result ≡ nothing_noted }
    {
        NotesReader {
            notes: Vec::new(alloc),
            ends: NoteEnds::new(alloc),
            rest: Vec::new(alloc),
            names: Vec::new(alloc),
        }
    }

    /// Reads these lines, which are lines after the first of a session text.
    pub fn take_lines(&mut self, lines: &[u8]) -> Result<(), AllocError>
        ensures { OnOk result (self.new ≡ noted_in self.old (lines_of lines.now)) }
    {
        let mut left = lines;
        'lines: while !left.is_empty() {
            let (line, others) = next_line(left);
            self.take_line(line)?;
            left = others;
        }
        Ok(())
    }

    /// Reads a line.
    fn take_line(&mut self, line: &[u8]) -> Result<(), AllocError>
        ensures { OnOk result (self.new ≡ with_noted self.old line.now) }
    {
        if is_skipped(line) {
            self.take_comment(line)
        } else if is_place_line(line) {
            self.leave_waiting()
        } else {
            self.end_note()
        }
    }

    /// Keeps a comment: a name line with the names, and any other with those that wait.
    #[tactic(auto, using(crate::proofs::NoteLemmas::comment_waits, crate::proofs::NoteLemmas::comment_left))]
    fn take_comment(&mut self, line: &[u8]) -> Result<(), AllocError>
        ensures { OnOk result (self.new ≡ with_comment self.old line.now) }
    {
        if is_name_line(line) {
            self.keep_name(line)
        } else if is_comment(line) {
            self.keep_waiting(line)
        } else {
            Ok(())
        }
    }

    /// Appends a name line to the names.
    fn keep_name(&mut self, line: &[u8]) -> Result<(), AllocError>
        ensures { OnOk result (self.new ≡ record self.old { names = self.old.names ++ as_line line.now }) }
    {
        put_line(&mut self.names, line)
    }

    /// Appends a comment to those that wait.
    fn keep_waiting(&mut self, line: &[u8]) -> Result<(), AllocError>
        ensures { OnOk result (self.new ≡ record self.old { waiting = self.old.waiting ++ as_line line.now }) }
    {
        put_line(&mut self.notes, line)
    }

    /// Ends the note of the next moment.
    fn end_note(&mut self) -> Result<(), AllocError>
        ensures { OnOk result (self.new ≡ with_moment self.old) }
    {
        self.ends.push(self.notes.len())?;
        Ok(())
    }

    /// Moves the comments that wait to those that belong to no moment.
    pub fn leave_waiting(&mut self) -> Result<(), AllocError>
        ensures { OnOk result (self.new ≡ without_moment self.old) }
    {
        let last = self.ends.after(self.ends.len());
        let notes = self.notes.as_slice();
        let (_, waiting) = notes.split_at(last);
        self.rest.extend_from_slice(waiting)?;
        self.notes.truncate(last);
        Ok(())
    }

    /// Gives back the memory that holds nothing.
    pub fn trim(&mut self)
        ensures { self.new ≡ self.old }
    {
        self.notes.shrink_to_fit();
        self.ends.shrink_to_fit();
        self.rest.shrink_to_fit();
        self.names.shrink_to_fit();
    }
}

/// Appends a line, with its line feed.
fn put_line(bytes: &mut Vec<u8>, line: &[u8]) -> Result<(), AllocError>
    ensures put { OnOk result (bytes.new.items ≡ bytes.old.items ++ as_line line.now) }
    ensures longer { length bytes.old.items ≤ length bytes.new.items }
{
    bytes.extend_from_slice(line)?;
    bytes.push(b'\n')?;
    Ok(())
}
