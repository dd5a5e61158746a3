//! Reads lines as commands, and sets the mark.

use std::alloc::Global;
use zt_rows::Command;
use zt_text::{Line, read_line};

/// The size of the allocation that `tools/refuse-each-request` takes as the mark. It counts the allocations after the mark.
const MARK: usize = 1_234_567;

/// Sets the mark, after which allocations may fail.
pub(super) fn mark(alloc: Global) -> bool {
    let mark: Result<Vec<u8>, _> = Vec::with_capacity(alloc, MARK);
    mark.is_ok()
}

/// The command of the line. None if the allocation failed.
pub(super) fn command(alloc: Global, line: &str) -> Option<Command> {
    match read_line(alloc, line.as_bytes()) {
        Ok(Some(Line::Command(asked))) => Some(asked),
        _ => None,
    }
}
