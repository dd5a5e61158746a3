//! The command line: its arguments, and its help.

use clap::{Arg, ArgAction, ArgMatches, Command, Error};
use std::alloc::{AllocError, Global};
use zt_rows::Refusal;
use zt_words::{Fault, Words};

// No clause tells the texts that these functions return. So a proof of their callers does not go over the bytes.

/// The text that help prints first.
fn about() -> &'static str {
    "Makes a trace for zxtt from the log of a real system.

Each line of the log is a JSON object: a call that returned, with its answer. The import
replays the calls by zxtt's semantics. It lists on standard error the replies that
differ from the log."
}

/// The help of the argument `LOG`.
fn log_help() -> &'static str {
    "The log to read; `-` is standard input"
}

/// The help of the option `--to`.
fn to_help() -> &'static str {
    "Writes the trace to a file; by default, or with `-`, to standard output"
}

/// The help of the option `--strict`.
fn strict_help() -> &'static str {
    "Stops if something is left out, or at the first reply that differs, and then writes nothing"
}

/// The help of the option `--note`.
fn note_help() -> &'static str {
    "Writes this field of each line as comments ahead of its calls; may be given several times"
}

/// The help of the option `--json`.
fn json_help() -> &'static str {
    "Prints differences, what is skipped or left out, and counts as JSON objects"
}

/// The text that help prints last.
fn statuses<'a>() -> &'a str {
    "Example:
  zxtt-import examples/import/frame-is-lost.log --to frame.trace

Exit statuses:
  0  the trace is written, even if replies differ
  2  the command line is invalid, or help or the version was printed
  3  a file could not be opened
  4  a read failed            5  a write failed
  6  a line of the log is invalid, or an allocation failed; with --strict, something was
     left out
  7  with --strict, a reply differs, or a skipped call names a handle of the log"
}

/// What the arguments ask for.
#[derive(Drop)]
pub struct Asked<'a> {
    /// The path of the log, or `-`.
    pub log: &'a str,
    /// The path of the trace. None is standard output.
    pub to: Option<&'a str>,
    pub is_strict: bool,
    /// The fields of lines that are written as comments.
    pub notes: Vec<&'a str>,
    pub is_json: bool,
}

/// What the words ask for. The error is `Words` if they are not accepted or ask for help or the version.
pub fn read_words<'a>(words: &'a Words, alloc: Global) -> Result<Asked<'a>, Fault> {
    match words.met(command(alloc)?) {
        Ok(matches) => match asked_of(&matches, alloc) {
            Ok(asked) => Ok(asked),
            Err(_) => Err(Fault::Refused(Refusal::OutOfMemory)),
        },
        Err(fault) => Err(fault),
    }
}

/// What the matched arguments ask for.
fn asked_of<'a>(matches: &ArgMatches<'a>, alloc: Global) -> Result<Asked<'a>, AllocError> {
    Ok(Asked {
        log: matches.get_str("LOG").unwrap_or("-"),
        to: match matches.get_str("to") {
            Some("-") => None,
            to => to,
        },
        is_strict: matches.get_flag("strict"),
        notes: notes_of(matches, alloc)?,
        is_json: matches.get_flag("json"),
    })
}

/// The fields that `--note` names.
fn notes_of<'a>(matches: &ArgMatches<'a>, alloc: Global) -> Result<Vec<&'a str>, AllocError> {
    let mut notes = Vec::new(alloc);
    if let Some(names) = matches.get_strs("note") {
        for name in names {
            notes.push(*name)?;
        }
    }
    Ok(notes)
}

/// The command line that `clap` matches.
fn command<'a>(alloc: Global) -> Result<Command<'a>, Error> {
    Ok(
        Command::new(alloc, "zxtt-import")
            .version("1.0.0")
            .about(about())
            .after_help(statuses())
            .arg(log_word(alloc))?
            .arg(to_word(alloc))?
            .arg(strict_word(alloc))?
            .arg(note_word(alloc))?
            .arg(json_word(alloc))?,
    )
}

fn log_word<'a>(alloc: Global) -> Arg<'a> {
    Arg::new(alloc, "LOG")
        .action(ArgAction::Set)
        .required(true)
        .help(log_help())
}

fn to_word<'a>(alloc: Global) -> Arg<'a> {
    Arg::new(alloc, "to")
        .long("to")
        .value_name("TRACE")
        .action(ArgAction::Set)
        .help(to_help())
}

fn strict_word<'a>(alloc: Global) -> Arg<'a> {
    Arg::new(alloc, "strict")
        .long("strict")
        .action(ArgAction::SetTrue)
        .help(strict_help())
}

fn note_word<'a>(alloc: Global) -> Arg<'a> {
    Arg::new(alloc, "note")
        .long("note")
        .value_name("FIELD")
        .action(ArgAction::Append)
        .help(note_help())
}

fn json_word<'a>(alloc: Global) -> Arg<'a> {
    Arg::new(alloc, "json")
        .long("json")
        .action(ArgAction::SetTrue)
        .help(json_help())
}
