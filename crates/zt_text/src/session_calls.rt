//! Reads the calls of a session text of version 1 one by one.

ghost use Rattle.std.specs.Prelude.{◌≡◌, [], Ok, true, is_ok, length, IfOk, IfErr, OnOk, OnErr};
ghost use Rattle.zt_text.specs.Lines.{lines_of};
ghost use Rattle.zt_text.specs.Session.{has_call, IsFaultOf};
ghost use Rattle.zt_text.specs.SessionCalls.{calls_counted, calls_left, next_call, row_lines, IsNotNext};

use crate::read_lines::is_skipped;
use crate::session_text::{call_in, fault_at, first_line, next_line};
use std::alloc::Global;
use std::marker::Model;
use zt_rows::{Call, Koid, Refusal};

/// The calls of a session text of version 1, which are read one after another. Calls that were read are not kept.
#[derive(Drop)]
pub struct SessionCalls<'a> {
    left: &'a [u8],
    number: u64,
}

impl<'a> Model for SessionCalls<'a> {
    ghost use Rattle.zt_text.specs.SessionCalls.{LinesLeft};
    ghost use Rattle.zt_text.specs.ProofsOnly.SessionCalls.{lines_left, HasRoom};

    ghost Value = { LinesLeft };

    ghost view = { λ s. lines_left s.number s.left };

    ghost invariant = { λ s. HasRoom s.number s.left };
}

impl<'a> SessionCalls<'a> {
    /// Begins at the first call of a session text of version 1. If its first line is not `zxtt 1`, fails with line number 1 and
    /// `BadLine` or `LineTooLong`.
    pub fn new(text: &'a [u8]) -> Result<SessionCalls<'a>, (u64, Refusal)>
        ensures { result ≡ row_lines (lines_of text.now) }
    {
        if text.is_empty() {
            return Err((1, Refusal::BadLine(1)));
        }
        let (first, left) = next_line(text);
        match first_line(first) {
            Ok(()) => Ok(SessionCalls { left, number: 2 }),
            Err(fault) => Err(fault_at(1, fault)),
        }
    }

    /// Begins at the first of these lines, which are lines after the first of a session text. The first of them has number 2.
    pub fn of_lines(lines: &'a [u8]) -> SessionCalls<'a>
        ensures { result ≡ record { number = 2; lines = lines_of lines.now } }
    {
        SessionCalls {
            left: lines,
            number: 2,
        }
    }

    /// Returns the next call with its process, or `None` at the end of the text. Fails with the line's number, counted from 1,
    /// and its parse error; the number is 0 for `OutOfMemory`.
    #[inline(always)]
    pub fn next(&mut self, alloc: Global) -> Result<Option<(Koid, Call)>, (u64, Refusal)>
        ensures read { IfOk result (λ made. next_call self.old ≡ Ok (made, self.new)) }
        ensures refused { IfErr result (IsNotNext (next_call self.old)) }
        ensures again { OnErr result (next_call self.new ≡ next_call self.old) }
    {
        'lines: while !self.left.is_empty() {
            let (line, others) = next_line(self.left);
            let made = match call_in(alloc, line) {
                Ok(made) => made,
                Err(fault) => return Err(fault_at(self.number, fault)),
            };
            self.left = others;
            self.number += 1;
            if made.is_some() {
                return Ok(made);
            }
        }
        Ok(None)
    }

    /// Reads all calls that are left, and drops them. Errors are those of `next`.
    pub fn read_rest(&mut self, alloc: Global) -> Result<(), (u64, Refusal)>
        ensures read { OnOk result (is_ok (calls_left self.old) ≡ true) }
        ensures refused { IfErr result (IsFaultOf (has_call self.old.lines) (calls_left self.old)) }
        ensures end { OnOk result (self.new.lines ≡ []) }
    {
        'calls: while let Some(_made) = self.next(alloc)? {}
        Ok(())
    }

    /// Returns how many calls are left, if all lines that are left can be parsed. Never allocates.
    pub fn count(&self) -> usize
        ensures { result ≡ calls_counted self.now.lines }
    {
        let mut left = self.left;
        let mut calls = 0;
        'lines: while !left.is_empty() {
            let (line, others) = next_line(left);
            if !is_skipped(line) {
                calls += 1;
            }
            left = others;
        }
        calls
    }
}
