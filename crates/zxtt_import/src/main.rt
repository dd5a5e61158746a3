//! `zxtt-import` makes a trace of a log of a real system's calls, and prints the replies that differ from the semantics.
#![tactic(auto)]

mod faults;
mod files;
mod words;

use faults::Fault;
use files::{read, write};
use std::alloc::AllocError;
use std::mem::forget;
use std::process::ExitCode;
use words::{Asked, read_words};
use zt_import::{
    Imported, LeftCalls, adopted_in, calls_in, counts_json, difference_json, import, join_starts,
    leave_out, left_json, more_notes_json, moved_in, note_json, pairs_in, place_requests,
    print_difference, print_left, print_skipped, skipped_json, skips_handles, trace_text,
};
use zt_logs::{CallLog, Cause, LogFault, LogNote, read_log};
use zt_words::Words;

fn main(rt: HostRuntime) -> ExitCode {
    let words = match Words::of(&rt) {
        Ok(words) => words,
        Err(fault) => return ended(&rt, &Err(Fault::from(fault))),
    };
    let done = match read_words(&words, rt.alloc()) {
        Ok(asked) => make_trace(&rt, &asked),
        Err(fault) => Err(Fault::from(fault)),
    };
    ended(&rt, &done)
}

/// Prints the fault that ended the program, if there is one, and returns the exit status.
fn ended(rt: &HostRuntime, done: &Result<(), Fault>) -> ExitCode {
    match done {
        Ok(()) => ExitCode::SUCCESS,
        Err(fault) => {
            fault.tell(rt);
            ExitCode::from(fault.status())
        }
    }
}

/// Makes the trace of a log, and prints where replies differ.
fn make_trace(rt: &HostRuntime, asked: &Asked<'_>) -> Result<(), Fault> {
    let text = read(rt, asked.log, asked.to)?;
    let mut log = read_log(rt.alloc(), text.as_slice(), asked.notes.as_slice())?;
    join_starts(rt.alloc(), &mut log)?;
    place_requests(rt.alloc(), &mut log)?;
    tell_notes(rt, &log, asked)?;
    let left = match leave_out(rt.alloc(), &mut log) {
        Ok(left) => left,
        Err(fault) => return Err(fault_of(rt, &log, fault)?),
    };
    let imported = match import(rt.alloc(), log.calls.as_slice()) {
        Ok(imported) => imported,
        Err(fault) => return Err(fault_of(rt, &log, fault)?),
    };
    tell_differences(rt, &log, &imported, asked)?;
    tell_left(rt, &left, asked.is_json)?;
    let lacks = tell_skipped(rt, &log, asked.is_json)?;
    if asked.is_strict && (imported.differs() || lacks) {
        return Err(Fault::Differs);
    }
    let trace = trace_text(text, &log, &imported)?;
    write(rt, asked.to, trace.as_slice())?;
    tell_counts(rt, &log, &imported, asked.is_json)?;
    leave(log, imported, trace);
    Ok(())
}

/// Leaves the memory of an import to the system: the program ends, and freeing each call of a large log takes time.
fn leave(log: CallLog, imported: Imported, trace: Vec<u8>) {
    forget(log);
    forget(imported);
    forget(trace);
}

/// Prints a line for each thing that is left out of the log. If the import is strict, the first of them is the error.
fn tell_notes(rt: &HostRuntime, log: &CallLog, asked: &Asked<'_>) -> Result<(), Fault> {
    for note in log.notes.told() {
        if asked.is_strict {
            return Err(Fault::LeftOut(format!(in rt.alloc(); "{note}")?));
        }
        tell_note(rt, note, asked.is_json)?;
    }
    let more = log
        .notes
        .count()
        .saturating_sub(log.notes.told().len() as u64);
    if more > 0 {
        tell_more(rt, more, asked.is_json)?;
    }
    Ok(())
}

/// Prints what is left out of a line.
fn tell_note(rt: &HostRuntime, note: &LogNote, is_json: bool) -> Result<(), AllocError> {
    if is_json {
        let object = note_json(rt.alloc(), note)?;
        let _ = eprintln!(rt; "{object}");
    } else {
        let _ = eprintln!(rt; "{note}");
    }
    Ok(())
}

/// Prints how many things are left out besides.
fn tell_more(rt: &HostRuntime, more: u64, is_json: bool) -> Result<(), AllocError> {
    if is_json {
        let object = more_notes_json(rt.alloc(), more)?;
        let _ = eprintln!(rt; "{object}");
    } else {
        let _ = eprintln!(rt; "and {more} more left out");
    }
    Ok(())
}

/// The fault of the import. It names the process at fault if the log has that by a name.
fn fault_of(rt: &HostRuntime, log: &CallLog, fault: LogFault) -> Result<Fault, AllocError> {
    let Cause::SpawnedTwice(process) = fault.cause else {
        return Ok(Fault::Log(fault));
    };
    match log.names.shown(process) {
        Some(shown) => Ok(Fault::SpawnedTwice {
            line: fault.line,
            name: String::from_str(rt.alloc(), shown)?,
        }),
        None => Ok(Fault::Log(fault)),
    }
}

/// Prints a line for each difference. If the import is strict, the first that is not by the schedule is the last one.
fn tell_differences(
    rt: &HostRuntime,
    log: &CallLog,
    imported: &Imported,
    asked: &Asked<'_>,
) -> Result<(), Fault> {
    let calls = log.calls.as_slice();
    for difference in imported.differences() {
        let line = if asked.is_json {
            difference_json(rt.alloc(), calls, imported, difference)?
        } else {
            print_difference(rt.alloc(), calls, imported, difference)?
        };
        let _ = eprintln!(rt; "{line}");
        if asked.is_strict && !difference.by_schedule {
            return Ok(());
        }
    }
    Ok(())
}

/// Prints the calls that are left out since they are on stand-ins, if there are any.
fn tell_left(rt: &HostRuntime, left: &LeftCalls, is_json: bool) -> Result<(), Fault> {
    if left.is_empty() {
        return Ok(());
    }
    let line = if is_json {
        left_json(rt.alloc(), left)?
    } else {
        print_left(rt.alloc(), left)?
    };
    let _ = eprintln!(rt; "{line}");
    Ok(())
}

/// Prints the skipped calls, if there are any. Returns whether one of them names a handle that its process has in the log.
fn tell_skipped(rt: &HostRuntime, log: &CallLog, is_json: bool) -> Result<bool, Fault> {
    if log.skipped.is_empty() {
        return Ok(false);
    }
    let calls = log.calls.as_slice();
    let skipped = log.skipped.as_slice();
    let line = if is_json {
        skipped_json(rt.alloc(), calls, skipped)?
    } else {
        print_skipped(rt.alloc(), calls, skipped)?
    };
    let _ = eprintln!(rt; "{line}");
    Ok(skips_handles(rt.alloc(), calls, skipped)?)
}

/// Prints how many lines and calls there were, and how many replies differ.
fn tell_counts(
    rt: &HostRuntime,
    log: &CallLog,
    imported: &Imported,
    is_json: bool,
) -> Result<(), Fault> {
    if is_json {
        let object = counts_json(rt.alloc(), log, imported)?;
        let _ = eprintln!(rt; "{object}");
        return Ok(());
    }
    let calls = calls_in(log.calls.as_slice(), imported.trail());
    let lines = log.lines;
    let skipped = log.skipped.len();
    let adopted = adopted_in(imported.trail());
    let pairs = pairs_in(imported.trail());
    let moved = moved_in(imported.trail());
    let differing = imported.count();
    let scheduled = imported.by_schedule();
    let _ = eprintln!(rt;
        "zxtt-import: {calls} calls of {lines} lines, {skipped} skipped, {adopted} adopted, {pairs} pairs by their messages, {moved} moved; {differing} differences, {scheduled} of them by the schedule"
    );
    Ok(())
}
