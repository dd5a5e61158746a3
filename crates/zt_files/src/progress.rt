//! Shows a person at a terminal how much of a long session text is loaded.

use std::cell::Cell;
use std::io::IsTerminal;
use zt_book::LoadProgress;

/// Progress is shown only for a session text with at least this many calls.
const LONG: usize = 65_536;

/// How many calls are loaded between two updates.
const STEP: usize = 16_384;

/// Shows on standard error how many calls of a long session text are loaded, if standard error is a terminal. It uses one line,
/// overwrites it, and erases it at the end.
#[derive(Drop)]
pub struct Progress<'a> {
    rt: &'a HostRuntime,
    /// The name of the program, at the beginning of the line.
    program: &'a str,
    /// Whether standard error is a terminal.
    is_shown: bool,
    /// Whether the line has text to erase.
    is_said: Cell<bool>,
}

impl<'a> Progress<'a> {
    /// Progress before anything is loaded.
    pub fn new(rt: &'a HostRuntime, program: &'a str) -> Progress<'a> {
        Progress {
            rt,
            program,
            is_shown: rt.stderr().is_terminal(),
            is_said: Cell::new(false),
        }
    }

    /// Erases the line.
    pub fn wipe(&self) {
        if self.is_said.get() {
            self.is_said.set(false);
            let _ = eprint!(self.rt; "{}", blank());
        }
    }
}

impl LoadProgress for Progress<'_> {
    fn loaded(&self, moments: usize, of: usize) {
        if self.is_shown && of >= LONG && (moments % STEP == 0 || moments == of) {
            self.is_said.set(true);
            let _ = eprint!(self.rt; "\r{}: {moments} of {of} calls", self.program);
        }
    }

    fn is_told(&self) -> bool {
        self.is_shown
    }
}

/// Spaces over the longest text that is shown, between two carriage returns.
fn blank() -> &'static str {
    "\r                                   \r"
}
