//! `zxtt-view` shows a history in a browser: it serves a page on a port of 127.0.0.1, and answers the page's requests.
#![tactic(auto)]

ghost use Rattle.std.specs.Prelude.{◌≤◌, IfOk, length};

mod files;
mod server;
mod socket;
mod words;

use files::{load, save_tree};
use mio::net::TcpListener;
use server::{listen, serve};
use std::io::Write;
use std::process::{self, ExitCode};
use std::time::SystemTime;
use words::{Asked, read_words};
use zt_console::Book;
use zt_files::warn_ahead;
use zt_rows::Refusal;
use zt_text::Notes;
use zt_view::View;
use zt_words::{Fault, Words, ended};

fn main(rt: HostRuntime) -> ExitCode {
    let words = match Words::of(&rt) {
        Ok(words) => words,
        Err(fault) => return ended(&rt, "zxtt-view", &Err(fault), false),
    };
    let done = match read_words(&words, rt.alloc()) {
        Ok(asked) => match begin(&rt, &asked) {
            Ok((listener, view)) => save_viewed(&rt, serve(&rt, listener, view), asked.save_tree),
            Err(fault) => Err(fault),
        },
        Err(fault) => Err(fault),
    };
    ended(&rt, "zxtt-view", &done, false)
}

/// Loads the book, listens on a port, and says where the page is.
fn begin(rt: &HostRuntime, asked: &Asked<'_>) -> Result<(TcpListener, View), Fault> {
    let (book, notes) = begun(rt, asked.from)?;
    let (listener, port) = listen(rt, asked.port)?;
    warn_ahead(rt, "zxtt-view", asked.save_tree);
    let trace = file_name(asked.from.unwrap_or(""));
    let view = match View::new(rt.alloc(), port, start_number(rt), trace, notes, book) {
        Ok(view) => view,
        Err(_) => return Err(Fault::of_memory()),
    };
    say(rt, port)?;
    Ok((listener, view))
}

/// Returns the part of a path after the last `/`.
fn file_name(path: &str) -> &str {
    match path.rsplit_once('/') {
        Some((_, name)) => name,
        None => path,
    }
}

/// Returns a number that no other start of the program on this machine should have: the clock in nanoseconds plus the process id.
/// Without a clock, the process id still tells starts apart.
fn start_number(rt: &HostRuntime) -> u64 {
    let seconds_and_rest = match SystemTime::now(rt) {
        Ok(now) => match now.duration_since(SystemTime::UNIX_EPOCH) {
            Ok(since) => (since.as_secs(), since.subsec_nanos()),
            Err(_) => (0, 0),
        },
        Err(_) => (0, 0),
    };
    seconds_and_rest
        .0
        .wrapping_mul(1_000_000_000)
        .wrapping_add(u64::from(seconds_and_rest.1))
        .wrapping_add(u64::from(process::id(rt.process())))
}

/// Saves the whole tree of a book that was viewed, if a file is named.
fn save_viewed(
    rt: &HostRuntime,
    viewed: Result<View, Fault>,
    to: Option<&str>,
) -> Result<(), Fault> {
    let view = viewed?;
    save_tree(rt, &view, to)
}

/// Says where the page is.
fn say(rt: &HostRuntime, port: u16) -> Result<(), Fault> {
    let said = println!(rt; "zxtt-view: http://127.0.0.1:{port}/");
    if said.is_ok() && rt.stdout().flush().is_ok() {
        Ok(())
    } else {
        Err(Fault::Refused(Refusal::WriteFault))
    }
}

/// Makes a book with one client at the opening, without notes, or loads a trace with its notes if one is named.
fn begun(rt: &HostRuntime, from: Option<&str>) -> Result<(Book, Notes), Fault>
    ensures { IfOk result (λ begun. 1 ≤ length begun.0.session.clients) }
{
    match from {
        Some(path) => load(rt, path),
        None => match Book::new(rt.alloc(), 1) {
            Ok(book) => Ok((book, Notes::none(rt.alloc()))),
            Err(refusal) => Err(Fault::Refused(refusal)),
        },
    }
}
