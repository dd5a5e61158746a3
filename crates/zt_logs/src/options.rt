//! Reads the options of calls.

ghost use Rattle.std.specs.Prelude.{IfOk};
ghost use Rattle.zt_logs.specs.declared.places.Member.TheVariants as member;
ghost use Rattle.zt_logs.specs.Members.{field};
ghost use Rattle.zt_logs.specs.ProofsOnly.Tokens.{data_at};
ghost use Rattle.zt_logs.specs.Numbers.{IsMaskOrNone};

use crate::call_names::CallName;
use crate::faults::{Cause, WantedValue};
use crate::members::Members;
use crate::notes::{LogNote, LogNotes};
use crate::numbers::{number_in, number_of};
use crate::places::Member;
use crate::process_names::shown_name;
use std::alloc::{AllocError, Global};

/// The option of `channel_read` that discards a message for which there is too little room.
pub(crate) const MAY_DISCARD: u64 = 1;

/// The option of `object_wait_async` that makes a wait one on an edge.
pub(crate) const EDGE: u64 = 2;

/// The two options of `object_wait_async` that ask for a timestamp in the packet.
const TIMESTAMPS: u64 = 5;

/// The options of a call; 0 if the line has none. An option that is not known, or is left out here, gets a note. The error
/// is `Member` or `OutOfMemory`.
pub(crate) fn options_of(
    alloc: Global,
    notes: &mut LogNotes,
    line: u64,
    name: CallName,
    args: &Members<'_, '_>,
) -> Result<u64, Cause>
    ensures { IfOk result (IsMaskOrNone (field member.Options (data_at args.now.value))) }
{
    let Some(value) = args.member(Member::Options) else {
        return Ok(0);
    };
    let options = match number_in(&value) {
        Some(options) => options,
        None => match value.as_str() {
            Some(text) => named_options(alloc, notes, line, name, text)?,
            None => return Err(args.fault(Member::Options, WantedValue::Options)),
        },
    };
    note_others(notes, line, name, options)?;
    Ok(options)
}

/// The options of names with `|` between them. A name that is not known gets a note.
fn named_options(
    alloc: Global,
    notes: &mut LogNotes,
    line: u64,
    call: CallName,
    text: &str,
) -> Result<u64, AllocError> {
    let mut options = 0;
    for part in text.split('|') {
        options |= named_option(alloc, notes, line, call, part.trim())?;
    }
    Ok(options)
}

/// The options of one name, or of a text that is a number. A name that is not known is 0 and gets a note.
fn named_option(
    alloc: Global,
    notes: &mut LogNotes,
    line: u64,
    call: CallName,
    name: &str,
) -> Result<u64, AllocError> {
    if name.is_empty() {
        return Ok(0);
    }
    if let Some(option) = option_named(call, name) {
        return Ok(option);
    }
    if let Some(options) = number_of(name) {
        return Ok(options);
    }
    let name = shown_name(alloc, name)?;
    let note = LogNote::UnknownOption { line, name };
    notes.add(note)?;
    Ok(0)
}

/// The option that a call has under this name.
fn option_named(call: CallName, name: &str) -> Option<u64> {
    Some(match (call, name) {
        (CallName::ChannelRead | CallName::ChannelReadEtc, "ZX_CHANNEL_READ_MAY_DISCARD") =>
            MAY_DISCARD,
        (CallName::ObjectWaitAsync, "ZX_WAIT_ASYNC_ONCE") => 0,
        (CallName::ObjectWaitAsync, "ZX_WAIT_ASYNC_TIMESTAMP") => 1,
        (CallName::ObjectWaitAsync, "ZX_WAIT_ASYNC_EDGE") => EDGE,
        (CallName::ObjectWaitAsync, "ZX_WAIT_ASYNC_BOOT_TIMESTAMP") => 4,
        _ => match left_out(call) {
            Some((option, known)) if known == name => option,
            _ => return None,
        },
    })
}

/// The option of a call that is known but left out here.
fn left_out(call: CallName) -> Option<(u64, &'static str)> {
    Some(match call {
        CallName::ChannelWrite | CallName::ChannelWriteEtc => (2, "ZX_CHANNEL_WRITE_USE_IOVEC"),
        CallName::PortCreate => (1, "ZX_PORT_BIND_TO_INTERRUPT"),
        CallName::JobSetCritical => (1, "ZX_JOB_CRITICAL_PROCESS_RETCODE_NONZERO"),
        _ => return None,
    })
}

/// The options of a call that need no note: those with an effect here, and those that change nothing that a trace has.
fn taken(call: CallName) -> u64 {
    match call {
        CallName::ChannelRead | CallName::ChannelReadEtc => MAY_DISCARD,
        CallName::ObjectWaitAsync => EDGE | TIMESTAMPS,
        _ => 0,
    }
}

/// Adds notes on the options that are left out.
fn note_others(
    notes: &mut LogNotes,
    line: u64,
    call: CallName,
    options: u64,
) -> Result<(), AllocError> {
    let mut others = options & !taken(call);
    if let Some((option, name)) = left_out(call) {
        if others & option != 0 {
            others &= !option;
            let note = LogNote::LeftOption { line, name };
            notes.add(note)?;
        }
    }
    if others != 0 {
        let note = LogNote::UnknownOptions {
            line,
            options: others,
        };
        notes.add(note)?;
    }
    Ok(())
}
