//! Prints the names that the log has for processes and handles, as name lines.

ghost use Rattle.std.specs.Prelude.{◌≡◌, ◌++◌, OnOk, string_bytes};
ghost use Rattle.zt_import.specs.Names.{process_name, handle_name};
ghost use Rattle.zt_import.specs.ProofsOnly.TakenCalls.{process_in};

use crate::mapped::MappedHandle;
use crate::origin_lines::put_number;
use itoa::Buffer;
use std::alloc::AllocError;
use std::collections::HashMap;
use zt_logs::CallLog;
use zt_rows::Koid;
use zt_text::put_mask;

/// Appends the name line of a process of the log without its `#`: the name that a line tells, or else the name or the number
/// by which the log has it.
pub(crate) fn put_process(
    text: &mut String,
    log: &CallLog,
    koid: Koid,
    process: u64,
) -> Result<(), AllocError> {
    match log.names.told(process).or(log.names.shown(process)) {
        Some(name) => put_process_name(text, koid, name),
        None => put_process_name(text, koid, Buffer::new().format(process)),
    }
}

/// Appends the name line of a process without its `#`.
fn put_process_name(text: &mut String, koid: Koid, name: &str) -> Result<(), AllocError>
    ensures { OnOk result (string_bytes text.new ≡ string_bytes text.old ++ process_name koid name.now) }
{
    text.push_str(" name ")?;
    put_number(text, koid.0)?;
    text.push_str(" ")?;
    text.push_str(name)
}

/// Appends the name line of a handle without its `#`: the process of the trace that stands for its own, its value there, and
/// its value in the log.
pub(crate) fn put_handle_name(
    text: &mut String,
    processes: &HashMap<u64, Koid>,
    mapped: MappedHandle,
) -> Result<(), AllocError>
    ensures { OnOk result (string_bytes text.new ≡ string_bytes text.old
        ++ handle_name (process_in processes.now mapped.process) mapped.value mapped.handle) }
{
    let process = match processes.get(&mapped.process) {
        Some(koid) => *koid,
        None => Koid(0),
    };
    text.push_str(" handle ")?;
    put_number(text, process.0)?;
    text.push_str(" ")?;
    put_number(text, u64::from(mapped.value.0))?;
    text.push_str(" ")?;
    put_mask(text, mapped.handle.0)
}
