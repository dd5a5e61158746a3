//! Prints the lines of calls and of moments behind their notes.

ghost use Rattle.std.specs.Prelude.{◌≡◌, ◌++◌, OnOk};
ghost use Rattle.zt_text.specs.Calls.{call_line};
ghost use Rattle.zt_text.specs.SavedTexts.{saved_call_line};

use crate::printed_calls::put_call;
use crate::printed_saved::put_moment;
use std::alloc::AllocError;
use zt_rows::{Call, Koid, Moment};

/// Appends a note, and behind it the line of its moment: the moment's parent, the process, and the call. `line` is emptied, and
/// gives its memory to the next line.
pub fn put_noted_moment(
    text: &mut Vec<u8>,
    line: &mut String,
    note: &[u8],
    parent: Moment,
    process: Koid,
    call: &Call,
) -> Result<(), AllocError>
    ensures { OnOk result (text.new.items ≡ text.old.items ++ (note.now ++ saved_call_line (record { parent = parent; process = process; call = call.now }))) }
{
    line.clear();
    put_moment(line, parent, process, call)?;
    text.extend_from_slice(note)?;
    text.extend_from_slice(line.as_bytes())
}

/// Appends a note, and behind it the line of a process's call. `line` is emptied, and gives its memory to the next line.
pub fn put_noted_call(
    text: &mut Vec<u8>,
    line: &mut String,
    note: &[u8],
    process: Koid,
    call: &Call,
) -> Result<(), AllocError>
    ensures { OnOk result (text.new.items ≡ text.old.items ++ (note.now ++ call_line (process, call.now))) }
{
    line.clear();
    put_call(line, process, call)?;
    line.push_str("\n")?;
    text.extend_from_slice(note)?;
    text.extend_from_slice(line.as_bytes())
}
