//! Reads the lines of a log, each a JSON object that is a call.

ghost use Rattle.std.specs.Prelude.{◌≡◌, ◌<◌, ◌==◌, ◌++◌, [], ◌∷◌, length, true, None, IfOk, OnOk};
ghost use Rattle.std.specs.List.{list_all, position};
ghost use Rattle.zt_logs.specs.Lines.{lines_of, without_mark};
ghost use Rattle.zt_logs.specs.Entries.{is_space, json_of, entry_for, entry_of, entries_of};
ghost use Rattle.zt_logs.specs.Logged.{AreLogged};
ghost use Rattle.zt_logs.specs.LineCalls.{is_one_call};
ghost use Rattle.zt_logs.specs.Members.{field};
ghost use Rattle.zt_logs.specs.Numbers.{IsMaskOrNone};
ghost use Rattle.zt_logs.specs.declared.places.Member.TheVariants as member;
ghost use Rattle.zt_logs.specs.ProofsOnly.Tokens.{value_at, data_at};
ghost use Rattle.zt_logs.specs.ProofsOnly.Walks.{IsWalked};
ghost use Rattle.zt_logs.specs.ProofsOnly.ReadLines.{IsParsed, AddsLogged, AddsCalls, IsReadUpTo};

use crate::call_names::{CallName, changes_nothing};
use crate::contexts::LineContexts;
use crate::faults::{Cause, LogFault};
use crate::json_values::JsonValue;
use crate::koids::koids_of;
use crate::line_calls::{calls_of, form_of};
use crate::line_members::LineMembers;
use crate::line_parts::SeenForms;
use crate::logged::CallLog;
use crate::logged_calls::call_of;
use crate::logged_parts::{LineHead, push_one, push_parts};
use crate::members::Members;
use crate::notes::{LogNote, LogNotes};
use crate::options::options_of;
use crate::process_names::{NamedPlace, Naming, ProcessNames, ProcessWord, told_name};
use crate::recorded::recorded_of;
use crate::skipped::{SkippedCall, skipped_of};
use crate::times::times_of;
use bumpalo::Bump;
use json::{Error, Scratch, Tape};
use memchr::memchr;
use std::alloc::{AllocError, Global};

/// The most bytes of a line, without its line feed.
pub const LINE_BYTES: usize = 1_048_576;

/// How many bytes the room for tapes has at first. Few lines have a tape of more.
const ROOM_BYTES: usize = 16_384;

/// Reads the calls of a log, with a JSON object on each line. Empty lines, and calls that change nothing, are left out.
/// Calls that the semantics does not know are kept in `skipped`. A last line that is cut off is left out, with a note. The
/// members of lines that have one of the names in `fields` are kept in `contexts`, with times and threads.
///
/// The error names the first line at fault. It is `TooLong` above `LINE_BYTES`, `NoObject` if the line is not a JSON
/// object, `Missing` or `Member` for one of its members, or `OutOfMemory`.
pub fn read_log(alloc: Global, text: &[u8], fields: &[&str]) -> Result<CallLog, LogFault>
    ensures lines { IfOk result (λ log. log.lines ≡ length (lines_of (without_mark text.now))) }
    ensures calls { IfOk result (λ log. AreLogged (entries_of text.now) log.calls.items) }
{
    let Ok(contexts) = LineContexts::new(alloc, fields) else {
        return Err(Cause::OutOfMemory.at(0));
    };
    let mut log = CallLog {
        calls: Vec::new(alloc),
        forms: SeenForms::none(),
        lines: 0,
        skipped: Vec::new(alloc),
        names: ProcessNames::new(alloc),
        contexts,
        notes: LogNotes::new(alloc),
    };
    let mut naming = Naming::new(alloc);
    let mut scratch = Scratch::new(alloc);
    let Ok(mut room) = Bump::try_with_capacity(alloc, ROOM_BYTES) else {
        return Err(Cause::OutOfMemory.at(0));
    };
    take_lines(
        alloc,
        &mut log,
        &mut naming,
        &mut scratch,
        &mut room,
        without_mark(text),
    )?;
    match naming.finish(alloc, &mut log) {
        Ok(names) => log.names = names,
        Err(_) => return Err(Cause::OutOfMemory.at(0)),
    }
    Ok(log)
}

/// The text behind a byte order mark of UTF-8, or all of it if it has none.
fn without_mark(text: &[u8]) -> &[u8]
    ensures { result.now ≡ without_mark text.now }
{
    match text.strip_prefix(b"\xef\xbb\xbf") {
        Some(rest) => rest,
        None => text,
    }
}

/// Reads all lines and appends their calls.
fn take_lines(
    alloc: Global,
    log: &mut CallLog,
    naming: &mut Naming,
    scratch: &mut Scratch,
    room: &mut Bump,
    text: &[u8],
) -> Result<(), LogFault>
    requires lines { log.old.lines ≡ 0 }
    requires calls { log.old.calls.items ≡ [] }
    ensures { OnOk result (IsReadUpTo text.now [] log.new.lines log.new.calls.items) }
{
    let mut left = text;
    while !left.is_empty() {
        let (line, others) = next_line(left);
        log.lines = log.lines.saturating_add(1);
        let number = log.lines;
        match take_line(alloc, log, naming, scratch, room, line) {
            Ok(()) => {}
            Err(cause) => return Err(cause.at(number)),
        }
        clear(room);
        left = others;
    }
    Ok(())
}

/// Empties the room for tapes if it has become too small. A tape gives its memory back, but not once a long line has made
/// the room grow by a second chunk.
#[inline(always)]
fn clear(room: &mut Bump) {
    if room.chunk_capacity() < ROOM_BYTES / 2 {
        let _ = room.reset();
    }
}

/// A line of a log.
#[derive(Clone, Copy)]
struct Line<'a> {
    bytes: &'a [u8],
    /// Whether a line feed ends it, which only the last line may lack.
    is_ended: bool,
}

/// The first line of `bytes` without its line feed, and the bytes behind that.
fn next_line(bytes: &[u8]) -> (Line<'_>, &[u8])
    requires { 0 < length bytes.now }
    ensures shorter { length result.1.now < length bytes.now }
    ensures lines { lines_of bytes.now ≡ result.0.bytes.now ∷ lines_of result.1.now }
{
    match feed_place(bytes) {
        Some(place) => (
            Line {
                bytes: &bytes[..place],
                is_ended: true,
            },
            &bytes[place + 1..],
        ),
        None => (
            Line {
                bytes,
                is_ended: false,
            },
            &[],
        ),
    }
}

/// The place of the first line feed.
#[tactic(auto, using(crate::proofs::LineLaws::first_feed))]
fn feed_place(bytes: &[u8]) -> Option<usize>
    ensures { result ≡ position (λ byte. byte == 10) bytes.now }
{
    memchr(b'\n', bytes)
}

/// Appends the calls of a line, whose number is `log.lines`. A blank line has none. A line that is cut off gets a note.
fn take_line(
    alloc: Global,
    log: &mut CallLog,
    naming: &mut Naming,
    scratch: &mut Scratch,
    room: &Bump,
    line: Line<'_>,
) -> Result<(), Cause>
    ensures lines { log.new.lines ≡ log.old.lines }
    ensures calls { OnOk result (AddsLogged (entry_of log.old.lines line.entry.bytes.now) log.old.calls.items log.new.calls.items) }
{
    if line.bytes.len() > LINE_BYTES {
        return Err(Cause::TooLong);
    }
    if is_blank(line.bytes) {
        return Ok(());
    }
    match json_in(alloc, line.bytes, scratch, room)? {
        Parsed::Whole(tape) => {
            take_value(alloc, log, naming, JsonValue::of_tape(&tape))?;
            log.contexts.add_fields(alloc, log.lines, line.bytes)
        }
        Parsed::CutOff if !line.is_ended && is_begun(line.bytes) => {
            note_cut_off(&mut log.notes, log.lines)
        }
        _ => Err(Cause::NoObject),
    }
}

/// Notes that the last line, of this number, is cut off.
fn note_cut_off(notes: &mut LogNotes, line: u64) -> Result<(), Cause> {
    match notes.add(LogNote::CutOff { line }) {
        Ok(()) => Ok(()),
        Err(_) => Err(Cause::OutOfMemory),
    }
}

/// Whether the line has nothing but spaces, tabs and carriage returns.
fn is_blank(line: &[u8]) -> bool
    ensures { result ≡ list_all is_space line.now }
{
    line.iter().all(|byte| is_space(*byte))
}

fn is_space(byte: u8) -> bool
    ensures { result ≡ is_space byte }
{
    matches!(byte, b' ' | b'\t' | b'\r')
}

/// Whether the first byte that is not blank opens an object.
fn is_begun(line: &[u8]) -> bool {
    line.iter().find(|byte| !is_space(**byte)) == Some(&b'{')
}

/// Appends the calls of a line with this value. A call that the semantics does not know is kept as skipped, unless it
/// changes nothing.
#[tactic(auto, using(crate::proofs::LineCallLaws::line_added, crate::proofs::LineCallLaws::no_line_added))]
fn take_value(
    alloc: Global,
    log: &mut CallLog,
    naming: &mut Naming,
    value: JsonValue<'_, '_>,
) -> Result<(), Cause>
    ensures lines { log.new.lines ≡ log.old.lines }
    ensures calls { OnOk result (AddsLogged (entry_for log.old.lines (value_at value.entry)) log.old.calls.items log.new.calls.items) }
{
    let line = LineMembers::of_line(value)?;
    let word = line.call()?;
    tell_name(naming, &line)?;
    match CallName::of(word) {
        Some(name) => take_call(alloc, log, naming, name, &line),
        None => {
            if !changes_nothing(word) {
                skip(alloc, &mut log.skipped, naming, word, &line)?;
            }
            Ok(())
        }
    }
}

/// Keeps the name that a line tells of its process, if it tells one.
fn tell_name(naming: &mut Naming, line: &LineMembers<'_, '_>) -> Result<(), AllocError> {
    let Some(name) = told_name(line) else {
        return Ok(());
    };
    match line.process() {
        Ok(process) => naming.tell(process, name),
        Err(_) => Ok(()),
    }
}

/// How a line reads as JSON.
#[derive(Drop)]
enum Parsed<'a, 'room> {
    Whole(Tape<'a, &'room Bump>),
    /// It ends in the middle of a JSON text.
    CutOff,
    Broken,
}

fn json_in<'a, 'room>(
    alloc: Global,
    line: &'a [u8],
    scratch: &'a mut Scratch,
    room: &'room Bump,
) -> Result<Parsed<'a, 'room>, Cause>
    ensures { IfOk result (IsParsed line.now) }
{
    match str::from_utf8(line) {
        Ok(text) => json_of(alloc, text, scratch, room),
        Err(_) => refused(alloc, line),
    }
}

/// The tape of a line. It takes its memory from `room` and gives it back, so that the next line has the same memory.
fn json_of<'a, 'room>(
    alloc: Global,
    text: &'a str,
    scratch: &'a mut Scratch,
    room: &'room Bump,
) -> Result<Parsed<'a, 'room>, Cause>
    ensures { IfOk result (IsParsed text.now) }
{
    match Tape::parse(text, scratch, Vec::new(room)) {
        Ok(tape) => Ok(Parsed::Whole(tape)),
        Err(Error::Invalid) => refused(alloc, text.as_bytes()),
        // `TooLong` comes only above 4 GiB, and `DuplicateKey` only from a strict read.
        Err(Error::OutOfMemory | Error::TooLong | Error::DuplicateKey) => Err(Cause::OutOfMemory),
    }
}

/// Tells whether a line that is not JSON is cut off or broken. `json` does not tell the two apart, and `serde_json` does.
fn refused<'a, 'room>(alloc: Global, line: &[u8]) -> Result<Parsed<'a, 'room>, Cause>
    requires { json_of line.now ≡ None }
    ensures { IfOk result (IsParsed line.now) }
{
    match serde_json::Value::from_slice(alloc, line) {
        Ok(_) => Ok(Parsed::Broken),
        Err(error) => {
            if error.is_memory() {
                Err(Cause::OutOfMemory)
            } else if error.is_eof() {
                Ok(Parsed::CutOff)
            } else {
                Ok(Parsed::Broken)
            }
        }
    }
}

/// Appends the calls of a line with this name.
fn take_call(
    alloc: Global,
    log: &mut CallLog,
    naming: &mut Naming,
    name: CallName,
    line: &LineMembers<'_, '_>,
) -> Result<(), Cause>
    requires { IsWalked line.now }
    ensures lines { log.new.lines ≡ log.old.lines }
    ensures calls { OnOk result (AddsCalls name log.old.lines (data_at line.now.whole.value) log.old.calls.items log.new.calls.items) }
{
    let caller = line.process()?;
    let args = line.args()?;
    let options = options_of(alloc, &mut log.notes, log.lines, name, args)?;
    match name {
        CallName::HandleCloseMany
        | CallName::ChannelWriteEtc
        | CallName::ChannelCall
        | CallName::ChannelCallEtc
        | CallName::ProcessCreate
        | CallName::Made(_) => take_several(alloc, log, naming, name, line, args, caller, options),
        _ => take_one(alloc, log, naming, name, line, args, caller, options),
    }
}

/// Appends the calls of a line that may be several.
fn take_several(
    alloc: Global,
    log: &mut CallLog,
    naming: &mut Naming,
    name: CallName,
    line: &LineMembers<'_, '_>,
    args: &Members<'_, '_>,
    caller: ProcessWord<'_>,
    options: u64,
) -> Result<(), Cause>
    requires walked { IsWalked line.now }
    requires args { data_at args.now.value ≡ field member.Args (data_at line.now.whole.value) }
    requires options { IsMaskOrNone (field member.Options (data_at args.now.value)) options }
    ensures lines { log.new.lines ≡ log.old.lines }
    ensures calls { OnOk result (AddsCalls name log.old.lines (data_at line.now.whole.value) log.old.calls.items log.new.calls.items) }
{
    let parts = calls_of(alloc, name, line, args, options)?;
    let count = parts.count();
    let place = log.calls.len();
    let process = name_parts(naming, caller, place, count)?;
    let last = place.saturating_add(count.saturating_sub(1));
    let recorded = recorded_of(alloc, name, line, naming, last)?;
    let head = head_in(log, name, line, process, count);
    let koids = koids_of(alloc, line)?;
    log.contexts.add_times(log.lines, line)?;
    log.forms.see(head.form);
    push_parts(alloc, &mut log.calls, head, parts, recorded, koids)?;
    Ok(())
}

/// Appends the call of a line that is always one. Most lines are, and the list of calls that `take_several` makes would be
/// copied for each.
#[inline(always)]
fn take_one(
    alloc: Global,
    log: &mut CallLog,
    naming: &mut Naming,
    name: CallName,
    line: &LineMembers<'_, '_>,
    args: &Members<'_, '_>,
    caller: ProcessWord<'_>,
    options: u64,
) -> Result<(), Cause>
    requires one { is_one_call name ≡ true }
    requires walked { IsWalked line.now }
    requires args { data_at args.now.value ≡ field member.Args (data_at line.now.whole.value) }
    requires options { IsMaskOrNone (field member.Options (data_at args.now.value)) options }
    ensures lines { log.new.lines ≡ log.old.lines }
    ensures calls { OnOk result (AddsCalls name log.old.lines (data_at line.now.whole.value) log.old.calls.items log.new.calls.items) }
{
    let call = call_of(alloc, name, args, options)?;
    let place = log.calls.len();
    let process = naming.number(NamedPlace::Caller(place), caller)?;
    let recorded = recorded_of(alloc, name, line, naming, place)?;
    let head = head_in(log, name, line, process, 1);
    let koids = koids_of(alloc, line)?;
    log.contexts.add_times(log.lines, line)?;
    log.forms.see(head.form);
    push_one(&mut log.calls, head, call, recorded, koids)?;
    Ok(())
}

/// What the `count` calls of the last line share.
#[inline(always)]
fn head_in(
    log: &CallLog,
    name: CallName,
    line: &LineMembers<'_, '_>,
    process: u64,
    count: usize,
) -> LineHead
    ensures line { result.line ≡ log.now.lines }
    ensures count { result.count ≡ count }
{
    LineHead {
        line: log.lines,
        process,
        form: form_of(name),
        count,
        times: times_of(line),
    }
}

/// The number of the caller of a line that has `count` calls, the first of them at `place` in the log's calls.
fn name_parts(
    naming: &mut Naming,
    caller: ProcessWord<'_>,
    place: usize,
    count: usize,
) -> Result<u64, AllocError> {
    let mut number = 0;
    for ahead in 0..count {
        number = naming.number(NamedPlace::Caller(place.saturating_add(ahead)), caller)?;
    }
    Ok(number)
}

/// Keeps a line whose call the semantics does not know.
fn skip(
    alloc: Global,
    skipped: &mut Vec<SkippedCall>,
    naming: &mut Naming,
    name: &str,
    line: &LineMembers<'_, '_>,
) -> Result<(), AllocError> {
    let place = NamedPlace::Skipped(skipped.len());
    let process = match line.process() {
        Ok(process) => Some(naming.number(place, process)?),
        Err(_) => None,
    };
    skipped.push(skipped_of(alloc, name, process, line)?)?;
    Ok(())
}
