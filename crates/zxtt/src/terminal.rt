//! The attendant of a person who runs lines: it greets, prompts, answers asides, and explains refused lines.

use crate::place::Place;
use std::alloc::AllocError;
use std::cell::Cell;
use std::io::IsTerminal;
use zt_console::{Aside, Book, Host, Listener};
use zt_words::{Heading, said_of};

/// Hears the lines that are answered, and says on standard error what a person should know beside the answers. If an allocation
/// fails, it explains no more lines.
#[derive(Drop)]
pub struct Attendant<'a> {
    rt: &'a HostRuntime,
    /// Whether refused lines are explained.
    explains: Cell<bool>,
    /// Whether there is a prompt before each line.
    prompts: bool,
    /// How many lines were heard: answered or skipped.
    answered: Cell<u64>,
    /// What to say before the next read.
    told: Cell<String>,
    /// Where the client stands, as far as the answers said.
    place: Cell<Option<Place>>,
}

impl<'a> Attendant<'a> {
    /// Makes the attendant of a run. A person types the lines if standard input is read, and it and standard error are terminals.
    /// Refused lines are explained if that is asked for, or if standard error is a terminal.
    pub fn new(rt: &'a HostRuntime, reads_standard_input: bool, is_asked: bool) -> Attendant<'a> {
        let is_seen = rt.stderr().is_terminal();
        Attendant {
            rt,
            explains: Cell::new(is_asked || is_seen),
            prompts: is_seen && reads_standard_input && rt.stdin().is_terminal(),
            answered: Cell::new(0),
            told: Cell::new(String::new(rt.alloc())),
            place: Cell::new(None),
        }
    }

    /// Whether a person types the lines.
    pub fn sits_at_terminal(&self) -> bool {
        self.prompts
    }

    /// Greets a person who begins with this book.
    pub fn greet(&self, book: &Book) {
        self.place.set(Place::in_book(self.rt.alloc(), book));
        self.say(greeting());
    }

    /// Says what was kept to be said. All lines that were read before are answered by now.
    pub fn say_told(&self) {
        let told = self.told.replace(String::new(self.rt.alloc()));
        if !told.is_empty() {
            self.say(told.as_str());
        }
    }

    /// Says where the client stands.
    fn say_place(&self) {
        let place = self.place.replace(None);
        match &place {
            Some(known) => {
                if let Ok(text) = known.shown(self.rt.alloc()) {
                    self.say(text.as_str());
                }
            }
            None => self.say(no_place()),
        }
        self.place.set(place);
    }

    /// Keeps where the client stands after a line was answered with this text. After a failed allocation that is not known.
    fn follow(&self, line: &[u8], text: &[u8]) {
        if let Some(place) = self.place.replace(None) {
            self.place.set(place.behind(self.rt.alloc(), line, text));
        }
    }

    /// Keeps the explanation of a line that was answered with this text, to be said later. A line that was not typed is numbered.
    fn note(&self, number: u64, line: &[u8], text: &[u8]) -> Result<(), AllocError> {
        let alloc = self.rt.alloc();
        let heading = if self.prompts {
            Heading::Nothing
        } else {
            Heading::Line(number)
        };
        if let Some(said) = said_of(alloc, heading, line, text)? {
            let mut told = self.told.replace(String::new(alloc));
            let added = told.push_str(said.as_str());
            self.told.set(told);
            added?;
        }
        Ok(())
    }

    /// Says the text. If it cannot be written, the run goes on.
    fn say(&self, text: &str) {
        let _ = eprint!(self.rt; "{text}");
    }
}

impl Listener for Attendant<'_> {
    fn heard(&self, line: &[u8], text: &[u8]) {
        let number = self.answered.get().saturating_add(1);
        self.answered.set(number);
        if self.explains.get() && self.note(number, line, text).is_err() {
            self.explains.set(false);
        }
        self.follow(line, text);
    }
}

impl Host for Attendant<'_> {
    fn before_read(&self, is_within: bool) {
        self.say_told();
        if !is_within {
            self.say("> ");
        }
    }

    fn answer(&self, asked: Aside) {
        match asked {
            Aside::Help => self.say(help()),
            Aside::Where => self.say_place(),
            Aside::Quit => {}
        }
    }

    fn end(&self) {
        self.say("\n");
    }
}

/// The first text for a person.
fn greeting() -> &'static str {
    "zxtt 1.0.0: type a call such as `1025 event_create`, or a command such as `show`.
`help` lists all calls and commands; `quit` or Ctrl-D ends the run.
"
}

/// The answer to `where` if the client's place is not known.
fn no_place() -> &'static str {
    "the moment is not known, because an allocation failed; `show` prints it\n"
}

/// The answer to `help`.
fn help() -> &'static str {
    "Calls. Each begins with the process that makes it, such as `1025 event_create`:
  event_create    eventpair_create    channel_create    port_create
  handle_close HANDLE    handle_duplicate HANDLE RIGHTS    handle_replace HANDLE RIGHTS
  object_signal HANDLE CLEAR SET    object_signal_peer HANDLE CLEAR SET
  object_wait_async HANDLE PORT KEY SIGNALS [edge]
  channel_write CHANNEL BYTES HANDLES    channel_read CHANNEL BYTES HANDLES [discard]
  port_queue PORT KEY PACKET    port_wait PORT    port_cancel PORT SOURCE KEY
  job_create JOB    job_set_critical JOB PROCESS    spawn JOB ARGUMENT
  task_kill TASK    process_exit CODE
Commands:
  goto MOMENT    back COUNT    branch NAME    follow NAME
  show    holders KOID    leaks    when made|ended|peer_closed|leaked KOID
  pin    pinned show    pinned holders KOID    pinned leaks
Only at a terminal:
  help    where    quit
"
}
