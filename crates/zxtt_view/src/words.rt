//! Reads the command line of `zxtt-view`.

use clap::{Arg, ArgAction, ArgMatches, Command, Error, value_parser};
use std::alloc::Global;
use zt_words::{Fault, Words, from_word, save_tree_word};

// The contracts do not say which texts these functions return, so proofs of their callers need not go over the bytes.

/// The description of the program.
fn about() -> &'static str {
    "Shows a history of Zircon's kernel objects in a browser.

It listens on a port of 127.0.0.1, prints the address of its page, and serves the page
until you end it there. On the page you step through the calls of a trace, back and
forth, try other futures on branches, and see what each call changed. `zxtt` answers
the same lines without a browser."
}

/// The help of `TRACE`.
fn trace_help() -> &'static str {
    "Same as --from TRACE"
}

/// The help of `--port`.
fn port_help() -> &'static str {
    "The port of 127.0.0.1 to listen on; by default a free one"
}

/// The help of `--save-tree`.
fn save_tree_help() -> &'static str {
    "Writes the whole tree as a session file when you end the program from the page; an interrupt saves nothing"
}

/// The text after the help.
fn statuses() -> &'static str {
    "Example:
  zxtt-view --from examples/job-dies.trace

Exit statuses:
  0  you ended it from the page
  2  the command line is invalid, or help or the version was printed
  3  a file could not be opened, or the program could not listen on the port
  4  a read failed            5  a write failed
  6  anything else was refused, such as a line of a loaded trace"
}

/// What the words ask for. `port` is 0 for a free one. The history begins with `from`, and its tree is saved to `save_tree`.
#[derive(Clone, Copy)]
pub struct Asked<'a> {
    pub port: u16,
    pub from: Option<&'a str>,
    pub save_tree: Option<&'a str>,
}

/// Returns what the words ask for. Fails with `Words` if they are not accepted or ask for help.
pub fn read_words<'a>(words: &'a Words, alloc: Global) -> Result<Asked<'a>, Fault> {
    match words.met(command(alloc)?) {
        Ok(matches) => Ok(asked_of(&matches)),
        Err(fault) => Err(fault),
    }
}

/// Returns what the parsed words ask for.
fn asked_of<'a>(matches: &ArgMatches<'a>) -> Asked<'a> {
    Asked {
        port: matches.get_one("port").unwrap_or(0),
        from: match matches.get_str("TRACE") {
            Some(trace) => Some(trace),
            None => matches.get_str("from"),
        },
        save_tree: matches.get_str("save-tree"),
    }
}

/// Declares the command line.
fn command<'a>(alloc: Global) -> Result<Command<'a>, Error> {
    Ok(
        Command::new(alloc, "zxtt-view")
            .version("1.0.0")
            .about(about())
            .after_help(statuses())
            .arg(trace_word(alloc)?)?
            .arg(from_word(alloc))?
            .arg(port_word(alloc))?
            .arg(save_tree_word(alloc).help(save_tree_help()))?,
    )
}

/// The argument `TRACE`: the session text with which the history begins. It excludes `--from`.
fn trace_word<'a>(alloc: Global) -> Result<Arg<'a>, Error> {
    let trace = Arg::new(alloc, "TRACE")
        .action(ArgAction::Set)
        .help(trace_help());
    Ok(trace.conflicts_with("from")?)
}

/// The option `--port`: the port to listen on.
fn port_word<'a>(alloc: Global) -> Arg<'a> {
    Arg::new(alloc, "port")
        .long("port")
        .value_name("PORT")
        .action(ArgAction::Set)
        .value_parser(value_parser!(u16).range(1..=65_535))
        .help(port_help())
}
