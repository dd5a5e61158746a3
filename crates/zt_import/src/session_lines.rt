//! Writes an import as a session text.

ghost use Rattle.std.specs.Prelude.{◌≡◌, [], ◌∷◌, Ok, IfOk, OnOk, string_bytes};
ghost use Rattle.std.specs.List.{list_all};
ghost use Rattle.std.specs.Option.{option_to_list};
ghost use Rattle.zt_history.specs.Tree.{call_at};
ghost use Rattle.zt_text.specs.Session.{session_of};
ghost use Rattle.zt_import.specs.Trails.{calls_of};
ghost use Rattle.zt_import.specs.Names.{context_of};
ghost use Rattle.zt_import.specs.ProofsOnly.ReadTexts.{Writes, step_calls, calls_by, is_no_feed, fits};

use crate::mapped::{Mapped, MappedHandle};
use crate::moved::passed_by;
use crate::names::{put_handle_name, put_process};
use crate::origin_lines::put_origin_line;
use crate::run_log::Imported;
use crate::trail::{HandleOrigin, Origin, TrailStep};
use std::alloc::AllocError;
use std::collections::HashMap;
use zt_history::History;
use zt_logs::CallLog;
use zt_rows::{Call, Koid, Moment};
use zt_text::laws::every_call_is_within;
use zt_text::{LINE_BYTES, put_call};

/// The capacity that most comments need, so that printing them seldom allocates.
const USUAL_BYTES: usize = 120;

/// The session text of an import, in the memory of `room`, whose bytes are dropped. Name lines tell the log's processes and
/// handles. A comment ahead of each call tells where the call comes from, and further ones have the fields of its line. The
/// error is an allocation failure.
pub fn trace_text(room: Vec<u8>, log: &CallLog, imported: &Imported) -> Result<Vec<u8>, AllocError>
    ensures { IfOk result (λ text. session_of text.items ≡ Ok (calls_of imported.now.tree.made)) }
{
    let mut text = emptied(room);
    put_steps(&mut text, log, imported)?;
    Ok(text.into_bytes())
}

/// An empty text in the memory of these bytes.
fn emptied(bytes: Vec<u8>) -> String
    ensures { string_bytes result ≡ [] }
{
    let alloc = *bytes.allocator();
    let mut bytes = bytes;
    bytes.clear();
    match String::from_utf8(bytes) {
        Ok(text) => text,
        Err(_) => String::new(alloc),
    }
}

/// Appends the first line, the name lines, and the lines of all steps.
fn put_steps(text: &mut String, log: &CallLog, imported: &Imported) -> Result<(), AllocError>
    requires { string_bytes text.old ≡ [] }
    ensures { OnOk result (session_of (string_bytes text.new) ≡ Ok (calls_of imported.now.tree.made)) }
{
    text.push_str("zxtt 1\n")?;
    let passed = passed_by(*text.allocator(), imported.trail())?;
    let mut comment = String::with_capacity(*text.allocator(), USUAL_BYTES)?;
    put_names(text, &mut comment, log, imported.mapped())?;
    put_trail(
        text,
        &mut comment,
        log,
        imported.history(),
        imported.adopted(),
        imported.trail(),
        passed.as_slice(),
    )?;
    Ok(())
}

/// Appends the name lines of all processes, and of all their handles. `comment` is the buffer for each.
fn put_names(
    text: &mut String,
    comment: &mut String,
    log: &CallLog,
    mapped: &Mapped,
) -> Result<(), AllocError>
    ensures { OnOk result (Writes (string_bytes text.old) (string_bytes text.new) []) }
{
    put_process_names(text, comment, log, mapped.in_order()?.as_slice())?;
    put_handle_names(text, comment, &mapped.processes, mapped.handles.as_slice())?;
    Ok(())
}

/// Appends the name lines of these processes, each with its number in the log.
fn put_process_names(
    text: &mut String,
    comment: &mut String,
    log: &CallLog,
    processes: &[(Koid, u64)],
) -> Result<(), AllocError>
    ensures { OnOk result (Writes (string_bytes text.old) (string_bytes text.new) []) }
{
    for place in 0..processes.len() {
        let (koid, number) = processes[place];
        comment.clear();
        put_process(comment, log, koid, number)?;
        put_comment(text, comment.as_str())?;
    }
    Ok(())
}

/// Appends the name lines of these handles.
fn put_handle_names(
    text: &mut String,
    comment: &mut String,
    processes: &HashMap<u64, Koid>,
    handles: &[MappedHandle],
) -> Result<(), AllocError>
    ensures { OnOk result (Writes (string_bytes text.old) (string_bytes text.new) []) }
{
    for place in 0..handles.len() {
        let mapped = handles[place];
        comment.clear();
        put_handle_name(comment, processes, mapped)?;
        put_comment(text, comment.as_str())?;
    }
    Ok(())
}

/// Appends the lines of these steps, whose adopted handles are these. `comment` is the buffer for their comments.
fn put_trail(
    text: &mut String,
    comment: &mut String,
    log: &CallLog,
    history: &History,
    adopted: &[HandleOrigin],
    trail: &[TrailStep],
    passed: &[Option<usize>],
) -> Result<(), AllocError>
    ensures { OnOk result (Writes (string_bytes text.old) (string_bytes text.new) (calls_by history.now.tree.made trail.now)) }
{
    for place in 0..trail.len() {
        let ahead = ahead_at(passed, place);
        put_step(text, comment, log, history, adopted, &trail[place], ahead)?;
    }
    Ok(())
}

/// The call ahead of which the call at a place is moved, if it is.
fn ahead_at(passed: &[Option<usize>], place: usize) -> Option<usize> {
    match passed.get(place) {
        Some(ahead) => *ahead,
        None => None,
    }
}

/// Appends the lines of a step; none if it made no moment.
fn put_step(
    text: &mut String,
    comment: &mut String,
    log: &CallLog,
    history: &History,
    adopted: &[HandleOrigin],
    step: &TrailStep,
    ahead: Option<usize>,
) -> Result<(), AllocError>
    ensures { OnOk result (Writes (string_bytes text.old) (string_bytes text.new) (step_calls history.now.tree.made step.now)) }
{
    match step.moment {
        Some(moment) => {
            put_origin(text, comment, log, adopted, step, ahead)?;
            put_moment(text, history, moment)?;
            Ok(())
        }
        None => Ok(()),
    }
}

/// Appends the comments of the call of a step.
fn put_origin(
    text: &mut String,
    comment: &mut String,
    log: &CallLog,
    adopted: &[HandleOrigin],
    step: &TrailStep,
    ahead: Option<usize>,
) -> Result<(), AllocError>
    ensures { OnOk result (Writes (string_bytes text.old) (string_bytes text.new) []) }
{
    comment.clear();
    put_origin_line(comment, log, adopted, step.origin, ahead)?;
    match str::from_utf8(context_of(log, &step.origin)) {
        Ok(context) => put_context(text, comment, context),
        Err(_) => put_comment(text, comment.as_str()),
    }
}

/// Appends a comment that ends with the first of these lines, and each other line as a comment.
fn put_context(text: &mut String, comment: &mut String, context: &str) -> Result<(), AllocError>
    ensures { OnOk result (Writes (string_bytes text.old) (string_bytes text.new) []) }
{
    match context.split_once('\n') {
        Some((end, fields)) => {
            comment.push_str(end)?;
            put_comment(text, comment.as_str())?;
            put_fields(text, fields)?;
            Ok(())
        }
        None => {
            comment.push_str(context)?;
            put_comment(text, comment.as_str())
        }
    }
}

/// What the line of a call of the log tells besides the call. It is empty for a call that is none of the log.
fn context_of<'a>(log: &'a CallLog, origin: &Origin) -> &'a [u8]
    ensures { result.now ≡ context_of log.now origin.now }
{
    let Origin::Logged(number) = origin else {
        return &[];
    };
    match log.calls.get(*number) {
        Some(logged) => log.contexts.of_line(logged.line),
        None => &[],
    }
}

/// Appends each of these lines as a comment.
fn put_fields(text: &mut String, fields: &str) -> Result<(), AllocError>
    ensures { OnOk result (Writes (string_bytes text.old) (string_bytes text.new) []) }
{
    for field in fields.split('\n') {
        put_comment(text, field)?;
    }
    Ok(())
}

/// Appends a comment, if it fits on one line.
fn put_comment(text: &mut String, comment: &str) -> Result<(), AllocError>
    ensures { OnOk result (Writes (string_bytes text.old) (string_bytes text.new) []) }
{
    if !fits(comment) {
        return Ok(());
    }
    text.push_str("#")?;
    text.push_str(comment)?;
    text.push_str("\n")?;
    Ok(())
}

/// Whether a comment fits on one line behind a `#`.
fn fits(comment: &str) -> bool
    ensures { result ≡ fits comment.now }
{
    comment.len() < LINE_BYTES && has_no_feed(comment.as_bytes())
}

/// Whether no byte is a line feed.
fn has_no_feed(bytes: &[u8]) -> bool
    ensures { result ≡ list_all is_no_feed bytes.now }
{
    !bytes.contains(&b'\n')
}

/// Appends the line of a moment's call.
fn put_moment(text: &mut String, history: &History, moment: Moment) -> Result<(), AllocError>
    ensures { OnOk result (Writes (string_bytes text.old) (string_bytes text.new) (option_to_list (call_at history.now.tree.made moment))) }
{
    match history.call_of(moment) {
        Some((process, call)) => put_line(text, process, call),
        None => Ok(()),
    }
}

/// Appends the line of a call.
fn put_line(text: &mut String, process: Koid, call: &Call) -> Result<(), AllocError>
    ensures { OnOk result (Writes (string_bytes text.old) (string_bytes text.new) ((process, call.now) ∷ [])) }
{
    every_call_is_within(process, call);
    put_call(text, process, call)?;
    text.push_str("\n")?;
    Ok(())
}
