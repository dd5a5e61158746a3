//! Reads the line of a client: a call, another command, or a question to the pinned copy.

ghost use Rattle.std.specs.Prelude.{◌≡◌, IfOk, IfErr};
ghost use Rattle.zt_text.specs.ReadLines.{IsUnread, takes_memory, asked_takes_memory, line_takes_memory, is_skipped, fields_in, read_as, asked_by, word_named, pinned, pinned_named, pinned_show, pinned_holders, pinned_leaks, command_named, plain_command_named, question_named, goto, back, only_name, branch, follow, show, holders, leaks, when, pin};

use crate::fields::{Field, Fields};
use crate::names::Name;
use crate::numbers::decimal;
use crate::read_calls::call;
use std::alloc::Global;
use zt_rows::{Command, Koid, Refusal};

/// The longest line, in bytes.
pub const LINE_BYTES: usize = 140_000;

/// What a line asks for.
#[derive(Debug, Drop)]
pub enum Line {
    Command(Command),
    /// `pinned show`: the rows of the pinned copy.
    PinnedShow,
    /// `pinned holders`: what keeps an object in the pinned copy.
    PinnedHolders(Koid),
    /// `pinned leaks`: the leaked objects of the pinned copy.
    PinnedLeaks,
}

/// Reads a line. Returns `None` for a skipped line: one that is empty or begins with `#`.
///
/// Errors are `LineTooLong` above `LINE_BYTES` bytes, `BadLine` with the column of a parse error, and `OutOfMemory`. It allocates
/// only for the parcel of a call or the name of a branch, and only after the whole line is parsed.
#[tactic(auto, unfolding(crate::specs::ReadLines::read_as))]
pub fn read_line(alloc: Global, line: &[u8]) -> Result<Option<Line>, Refusal>
    ensures read { IfOk result (λ asked. read_as line.now ≡ Ok asked) }
    ensures refused { IfErr result (λ refusal. IsUnread line_takes_memory (read_as line.now) refusal) }
{
    match fields_in(line)? {
        None => Ok(None),
        Some(fields) => Ok(Some(asked_by(alloc, fields)?)),
    }
}

/// Returns the fields of a line, or `None` for a skipped line. Fails with `LineTooLong` above `LINE_BYTES` bytes.
#[tactic(auto, unfolding(crate::specs::ReadLines::fields_in))]
pub fn fields_in(line: &[u8]) -> Result<Option<Fields<'_>>, Refusal>
    ensures { result ≡ fields_in line.now }
{
    if line.len() > LINE_BYTES {
        return Err(Refusal::LineTooLong);
    }
    if is_skipped(line) {
        Ok(None)
    } else {
        Ok(Some(Fields::new(line)))
    }
}

/// Whether a line is skipped: it is empty or begins with `#`.
pub(crate) fn is_skipped(line: &[u8]) -> bool
    ensures { result ≡ is_skipped line.now }
{
    matches!(line, [] | [b'#', ..])
}

/// Reads the fields of a line. If the first is a number, the line is a call of that process.
#[tactic(auto, unfolding(crate::specs::ReadLines::asked_by))]
fn asked_by(alloc: Global, fields: Fields<'_>) -> Result<Line, Refusal>
    ensures read { IfOk result (λ asked. asked_by fields.entry ≡ Ok asked) }
    ensures refused { IfErr result (λ refusal. IsUnread asked_takes_memory (asked_by fields.entry) refusal) }
{
    let (first, rest) = fields.next()?;
    match decimal(first.bytes(), u64::MAX) {
        Some(process) => Ok(Line::Command(Command::Call(Koid(process), call(alloc, rest)?))),
        None => word_named(alloc, &first, rest),
    }
}

/// Reads a line whose first field is not a number. After `pinned` it asks the pinned copy.
#[tactic(auto, unfolding(crate::specs::ReadLines::word_named))]
fn word_named(alloc: Global, first: &Field<'_>, rest: Fields<'_>) -> Result<Line, Refusal>
    ensures read { IfOk result (λ asked. word_named first.now rest.entry ≡ Ok asked) }
    ensures refused { IfErr result (λ refusal. IsUnread asked_takes_memory (word_named first.now rest.entry) refusal) }
{
    if first.is("pinned") {
        pinned(rest)
    } else {
        Ok(Line::Command(command_named(alloc, first, rest)?))
    }
}

/// Reads the question after the word `pinned`.
#[tactic(auto, unfolding(crate::specs::ReadLines::pinned))]
fn pinned(fields: Fields<'_>) -> Result<Line, Refusal>
    ensures { result ≡ pinned fields.entry }
{
    let (name, rest) = fields.next()?;
    pinned_named(&name, rest)
}

#[tactic(auto, unfolding(crate::specs::ReadLines::pinned_named))]
fn pinned_named(name: &Field<'_>, rest: Fields<'_>) -> Result<Line, Refusal>
    ensures { result ≡ pinned_named name.now rest.entry }
{
    if name.is("show") {
        pinned_show(rest)
    } else if name.is("holders") {
        pinned_holders(rest)
    } else if name.is("leaks") {
        pinned_leaks(rest)
    } else {
        Err(name.fault())
    }
}

#[tactic(auto, unfolding(crate::specs::ReadLines::pinned_show))]
fn pinned_show(fields: Fields<'_>) -> Result<Line, Refusal>
    ensures { result ≡ pinned_show fields.entry }
{
    fields.end()?;
    Ok(Line::PinnedShow)
}

#[tactic(auto, unfolding(crate::specs::ReadLines::pinned_holders))]
fn pinned_holders(fields: Fields<'_>) -> Result<Line, Refusal>
    ensures { result ≡ pinned_holders fields.entry }
{
    let (koid, rest) = fields.koid()?;
    rest.end()?;
    Ok(Line::PinnedHolders(koid))
}

#[tactic(auto, unfolding(crate::specs::ReadLines::pinned_leaks))]
fn pinned_leaks(fields: Fields<'_>) -> Result<Line, Refusal>
    ensures { result ≡ pinned_leaks fields.entry }
{
    fields.end()?;
    Ok(Line::PinnedLeaks)
}

/// Reads the arguments of the command of this name.
#[tactic(auto, unfolding(crate::specs::ReadLines::command_named))]
fn command_named(alloc: Global, name: &Field<'_>, rest: Fields<'_>) -> Result<Command, Refusal>
    ensures read { IfOk result (λ asked. command_named name.now rest.entry ≡ Ok asked) }
    ensures refused { IfErr result (λ refusal. IsUnread takes_memory (command_named name.now rest.entry) refusal) }
{
    if name.is("branch") {
        branch(alloc, rest)
    } else if name.is("follow") {
        follow(alloc, rest)
    } else {
        plain_command_named(name, rest)
    }
}

#[tactic(auto, unfolding(crate::specs::ReadLines::branch))]
fn branch(alloc: Global, fields: Fields<'_>) -> Result<Command, Refusal>
    ensures read { IfOk result (λ asked. branch fields.entry ≡ Ok asked) }
    ensures refused { IfErr result (λ refusal. IsUnread takes_memory (branch fields.entry) refusal) }
{
    let name = only_name(fields)?;
    Ok(Command::Branch(name.to_items(alloc)?))
}

#[tactic(auto, unfolding(crate::specs::ReadLines::follow))]
fn follow(alloc: Global, fields: Fields<'_>) -> Result<Command, Refusal>
    ensures read { IfOk result (λ asked. follow fields.entry ≡ Ok asked) }
    ensures refused { IfErr result (λ refusal. IsUnread takes_memory (follow fields.entry) refusal) }
{
    let name = only_name(fields)?;
    Ok(Command::Follow(name.to_items(alloc)?))
}

/// Reads a name that is the last field.
#[tactic(auto, unfolding(crate::specs::ReadLines::only_name))]
pub(crate) fn only_name(fields: Fields<'_>) -> Result<Name<'_>, Refusal>
    ensures { result ≡ only_name fields.entry }
{
    let (name, rest) = fields.name()?;
    rest.end()?;
    Ok(name)
}

/// Reads the arguments of the command of this name, if it is one that needs no allocation.
#[tactic(auto, unfolding(crate::specs::ReadLines::plain_command_named))]
fn plain_command_named(name: &Field<'_>, rest: Fields<'_>) -> Result<Command, Refusal>
    ensures { result ≡ plain_command_named name.now rest.entry }
{
    if name.is("goto") {
        goto(rest)
    } else if name.is("back") {
        back(rest)
    } else {
        question_named(name, rest)
    }
}

/// Reads the arguments of the command of this name, if it asks about the client's position.
#[tactic(auto, unfolding(crate::specs::ReadLines::question_named))]
fn question_named(name: &Field<'_>, rest: Fields<'_>) -> Result<Command, Refusal>
    ensures { result ≡ question_named name.now rest.entry }
{
    if name.is("show") {
        show(rest)
    } else if name.is("holders") {
        holders(rest)
    } else if name.is("leaks") {
        leaks(rest)
    } else if name.is("when") {
        when(rest)
    } else if name.is("pin") {
        pin(rest)
    } else {
        Err(name.fault())
    }
}

#[tactic(auto, unfolding(crate::specs::ReadLines::goto))]
fn goto(fields: Fields<'_>) -> Result<Command, Refusal>
    ensures { result ≡ goto fields.entry }
{
    let (moment, rest) = fields.moment()?;
    rest.end()?;
    Ok(Command::Goto(moment))
}

#[tactic(auto, unfolding(crate::specs::ReadLines::back))]
fn back(fields: Fields<'_>) -> Result<Command, Refusal>
    ensures { result ≡ back fields.entry }
{
    let (count, rest) = fields.count()?;
    rest.end()?;
    Ok(Command::Back(count))
}

#[tactic(auto, unfolding(crate::specs::ReadLines::show))]
fn show(fields: Fields<'_>) -> Result<Command, Refusal>
    ensures { result ≡ show fields.entry }
{
    fields.end()?;
    Ok(Command::Show)
}

#[tactic(auto, unfolding(crate::specs::ReadLines::holders))]
fn holders(fields: Fields<'_>) -> Result<Command, Refusal>
    ensures { result ≡ holders fields.entry }
{
    let (koid, rest) = fields.koid()?;
    rest.end()?;
    Ok(Command::Holders(koid))
}

#[tactic(auto, unfolding(crate::specs::ReadLines::leaks))]
fn leaks(fields: Fields<'_>) -> Result<Command, Refusal>
    ensures { result ≡ leaks fields.entry }
{
    fields.end()?;
    Ok(Command::Leaks)
}

#[tactic(auto, unfolding(crate::specs::ReadLines::when))]
fn when(fields: Fields<'_>) -> Result<Command, Refusal>
    ensures { result ≡ when fields.entry }
{
    let (what, rest) = fields.happening()?;
    let (koid, rest) = rest.koid()?;
    rest.end()?;
    Ok(Command::When(what, koid))
}

#[tactic(auto, unfolding(crate::specs::ReadLines::pin))]
fn pin(fields: Fields<'_>) -> Result<Command, Refusal>
    ensures { result ≡ pin fields.entry }
{
    fields.end()?;
    Ok(Command::Pin)
}
