//! Reads a session text of version 1.

ghost use Rattle.std.specs.Prelude.{◌≡◌, ◌∷◌, ◌<◌, true, length, is_some, IfOk, IfErr};
ghost use Rattle.zt_text.specs.Lines.{lines_of};
ghost use Rattle.zt_text.specs.ReadLines.{IsUnread};
ghost use Rattle.zt_text.specs.ReadCalls.{process_call};
ghost use Rattle.zt_text.specs.Session.{call_in, fault_at, first_line, session_of, session_has_call, line_of_call, line_of_call_in, IsFaultOf};

use crate::fields::Fields;
use crate::read_calls::call;
use crate::read_lines::{LINE_BYTES, fields_in, is_skipped};
use crate::separator::cut;
use crate::session_calls::SessionCalls;
use std::alloc::Global;
use zt_rows::{Call, Koid, Refusal};

/// Reads the calls of a session text of version 1, in order. The first line is `zxtt 1`. Each line after it is a call, or is
/// empty, or begins with `#`.
///
/// Fails with the line's number, counted from 1, and its parse error; the number is 0 for `OutOfMemory`.
pub fn read_session(alloc: Global, text: &[u8]) -> Result<Vec<(Koid, Call)>, (u64, Refusal)>
    ensures read { IfOk result (λ calls. session_of text.now ≡ Ok calls.items) }
    ensures refused { IfErr result (λ fault. IsFaultOf (session_has_call text.now) (session_of text.now) fault) }
{
    let mut left = SessionCalls::new(text)?;
    let mut calls = Vec::new(alloc);
    'calls: while let Some(made) = left.next(alloc)? {
        match calls.push(made) {
            Ok(()) => {}
            Err(_) => return Err((0, Refusal::OutOfMemory)),
        }
    }
    Ok(calls)
}

/// Returns the first line, and the bytes after its line feed.
pub(crate) fn next_line(bytes: &[u8]) -> (&[u8], &[u8])
    requires { 0 < length bytes.now }
    ensures lines { lines_of bytes.now ≡ result.0.now ∷ lines_of result.1.now }
    ensures shorter { length result.1.now < length bytes.now }
{
    let (line, left) = cut(bytes, b'\n');
    match left {
        Some(left) => (line, left),
        None => (line, &[]),
    }
}

/// Fails if this is not the first line of a session text of version 1.
pub(crate) fn first_line(line: &[u8]) -> Result<(), Refusal>
    ensures { result ≡ first_line line.now }
{
    if line.len() > LINE_BYTES {
        Err(Refusal::LineTooLong)
    } else if line == b"zxtt 1".as_slice() {
        Ok(())
    } else {
        Err(Refusal::BadLine(1))
    }
}

/// Pairs a parse error with the number of its line. `OutOfMemory` belongs to no line, and gets 0.
pub(crate) fn fault_at(number: u64, fault: Refusal) -> (u64, Refusal)
    ensures { result ≡ fault_at number fault }
{
    match fault {
        Refusal::OutOfMemory => (0, fault),
        _ => (number, fault),
    }
}

/// Reads the call of a line; `None` if the line is skipped.
#[inline(always)]
#[tactic(auto, unfolding(crate::specs::Session::call_in))]
pub(crate) fn call_in(alloc: Global, line: &[u8]) -> Result<Option<(Koid, Call)>, Refusal>
    ensures read { IfOk result (λ made. call_in line.now ≡ Ok made) }
    ensures refused { IfErr result (λ refusal. IsUnread is_some (call_in line.now) refusal) }
{
    match fields_in(line)? {
        None => Ok(None),
        Some(fields) => Ok(Some(process_call(alloc, fields)?)),
    }
}

/// Reads a process and its call.
#[inline(always)]
#[tactic(auto, unfolding(crate::specs::ReadCalls::process_call))]
pub(crate) fn process_call(alloc: Global, fields: Fields<'_>) -> Result<(Koid, Call), Refusal>
    ensures read { IfOk result (λ made. process_call fields.entry ≡ Ok made) }
    ensures refused { IfErr result (λ refusal. IsUnread (λ _. true) (process_call fields.entry) refusal) }
{
    let (process, rest) = fields.koid()?;
    Ok((process, call(alloc, rest)?))
}

/// Returns the line number of a call in a session text without parse errors. Calls are counted from 0, and lines from 1, skipped
/// lines included. Returns 0 if there are not so many calls. Never allocates.
pub fn line_of_call(text: &[u8], call: u64) -> u64
    ensures { result ≡ line_of_call text.now call }
{
    if text.is_empty() {
        return 0;
    }
    let (_, calls) = next_line(text);
    line_of_call_in(calls, call)
}

/// Returns the line number of a call, as `line_of_call` does, in the lines after the first.
fn line_of_call_in(text: &[u8], call: u64) -> u64
    ensures { result ≡ line_of_call_in 2 call (lines_of text.now) }
{
    let mut left = text;
    let mut line = 2;
    let mut before = call;
    while !left.is_empty() {
        let (bytes, others) = next_line(left);
        if !is_skipped(bytes) {
            if before == 0 {
                return line;
            }
            before -= 1;
        }
        left = others;
        line += 1;
    }
    0
}
