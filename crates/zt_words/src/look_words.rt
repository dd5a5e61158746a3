//! Reads the words after `zxtt look`.

ghost use Rattle.std.specs.Prelude.{◌≡◌, IfOk, Some, [], codes, false, is_some, map, unwrap_or};
ghost use Rattle.std.specs.Option.{option_map};
ghost use Rattle.clap.specs.Words.{all_of, app_of, first_of, found_of, one_of, rows_of, rule_of};
ghost use Rattle.clap.specs.declared.builder.command.Command.TheViews.{out-Command as fields_of};
ghost use Rattle.zt_words.specs.LookWords.{alive_line, AreOptionsOf, IsLookOf, IsQuestionIn, at_word, calls_line, koid_word, look_line, moment_word, path_line, place_line, question_line, words_word};
ghost use Rattle.zt_words.specs.Questions.{question_of};
ghost use Rattle.zt_words.specs.Rules.{IsFlagOf, IsOptionalNumberOf, flag, needed, valued};

use crate::no_question::NoQuestion;
use crate::question::{Options, Question, question_of};
use crate::words::told_command;
use clap::{Arg, ArgAction, ArgMatches, Command, Error, value_parser};
use std::alloc::Global;
use zt_rows::{Koid, LAST_MOMENT, Moment};

/// What to look at, and the question about it.
#[derive(Clone, Copy)]
pub struct Look<'a> {
    /// The file of the session text, or `-` for standard input.
    pub file: &'a str,
    /// The moment at the end of the path.
    pub at: Option<Moment>,
    /// The branch whose head is at the end of the path. If `at` and `branch` are both `None`, it is `main`.
    pub branch: Option<&'a str>,
    /// Whether all branches are asked, in place of one path.
    pub all: bool,
    /// Whether rights and signals are shown by name.
    pub names: bool,
    /// Whether notes and names of the text are shown.
    pub notes: bool,
    /// Whether the exit status shows that the answer has a line.
    pub exit_code: bool,
    /// Whether the lines are printed as JSON.
    pub json: bool,
    pub question: Question,
    /// The first word of the question, or no bytes: the text that `find` looks for.
    pub text: &'a str,
}

/// Returns what the parsed words after `look` ask for. Fails with `NoQuestion` if they ask no question.
pub fn look_of<'a>(words: &ArgMatches<'a>) -> Result<Look<'a>, NoQuestion>
    ensures { IfOk result (IsLookOf (rows_of (found_of words.now))) }
{
    match question_in(words) {
        Ok(question) => Ok(Look {
            file: text_in(words, "TRACE"),
            at: moment_in(words, "at"),
            branch: branch_in(words),
            all: flag_in(words, "all"),
            names: flag_in(words, "names"),
            notes: flag_in(words, "notes"),
            exit_code: flag_in(words, "exit-code"),
            json: flag_in(words, "json"),
            question,
            text: text_in(words, "WORD"),
        }),
        Err(fault) => Err(fault),
    }
}

/// Returns the question that the words ask.
fn question_in(words: &ArgMatches<'_>) -> Result<Question, NoQuestion>
    ensures { IfOk result (IsQuestionIn (rows_of (found_of words.now))) }
{
    let options = options_in(words);
    let name = text_in(words, "QUESTION");
    match words.get_strs("WORD") {
        Some(rest) => question_by(name, rest, &options),
        None => question_by(name, &[], &options),
    }
}

/// Returns the question of this name, with the words after it and these options.
fn question_by(name: &str, words: &[&str], options: &Options) -> Result<Question, NoQuestion>
    ensures { IfOk result (λ asked. question_of name.now (map (λ s. s.now) words.now) options.now ≡ Some asked) }
{
    match question_of(name, words, options) {
        Ok(question) => Ok(question),
        Err(about) => Err(NoQuestion::of(about, name, words)),
    }
}

/// Returns the options that only some questions have.
fn options_in(words: &ArgMatches<'_>) -> Options
    ensures { AreOptionsOf (rows_of (found_of words.now)) result }
{
    Options {
        placed: is_given(words, "at") || is_given(words, "branch"),
        all: flag_in(words, "all"),
        failed: flag_in(words, "failed"),
        process: koid_in(words, "process"),
        object: koid_in(words, "object"),
        since: moment_in(words, "since"),
    }
}

/// Whether the option of this name has a value.
fn is_given(words: &ArgMatches<'_>, name: &str) -> bool
    ensures { result ≡ is_some (first_of name.now (rows_of (found_of words.now))) }
{
    words.get_str(name).is_some()
}

/// Whether the flag of this name is given.
pub fn flag_in(words: &ArgMatches<'_>, name: &str) -> bool
    ensures { IsFlagOf (one_of name.now (rows_of (found_of words.now))) result }
{
    words.get_flag(name)
}

/// Returns the first value of an argument, or no bytes without one.
fn text_in<'a>(words: &ArgMatches<'a>, name: &str) -> &'a str
    ensures { result.now ≡ unwrap_or (first_of name.now (rows_of (found_of words.now))) [] }
{
    words.get_str(name).unwrap_or("")
}

/// Returns the branch whose head is at the end of the path, if it is given.
fn branch_in<'a>(words: &ArgMatches<'a>) -> Option<&'a str>
    ensures { option_map (λ s. s.now) result ≡ first_of (codes "branch") (rows_of (found_of words.now)) }
{
    words.get_str("branch")
}

/// Returns the moment of this option, if it is given.
fn moment_in(words: &ArgMatches<'_>, name: &str) -> Option<Moment>
    ensures { IsOptionalNumberOf 32 (one_of name.now (rows_of (found_of words.now))) result }
{
    match words.get_one::<u32>(name) {
        Some(moment) => Some(Moment(moment)),
        None => None,
    }
}

/// Returns the koid of this option, if it is given.
fn koid_in(words: &ArgMatches<'_>, name: &str) -> Option<Koid>
    ensures { IsOptionalNumberOf 64 (one_of name.now (rows_of (found_of words.now))) result }
{
    match words.get_one::<u64>(name) {
        Some(koid) => Some(Koid(koid)),
        None => None,
    }
}

// The contracts do not say which texts these functions return, so proofs of their callers need not go over the bytes.

/// The description of `look`.
pub fn look_about<'a>() -> &'a str {
    "Answers one question about a trace, and exits"
}

/// The questions, after the help.
fn questions<'a>() -> &'a str {
    "Example:
  zxtt look examples/job-dies.trace events ended    which call ended which object

Questions, each about the path to a moment or to the head of a branch, by default `main`:
  calls [FROM [TO]]     the calls of the path, with their replies, between two moments;
                        --failed, --process P and --object K select some of them
  changed MOMENT        the rows that one call changed, before and after it
  changed MOMENT OTHER  the rows that differ between two moments, at the one and at the other
  events [HAPPENING]..  which objects were made, ended, peer_closed or leaked, by which call
  object KOID           one object: its row, what keeps it, its queue, and what happened when
  handles PROCESS       the handles of a process
  messages KOID         the messages that were queued at a channel, and what became of each
  branches              the branches, and where each one leaves another
  summary               how many calls got which status, and what became of each object
  alive [--since M]     what was made, behind M or at all, and is there at the end: for tests
                        that want nothing left
  handle PROCESS VALUE  the life of a handle: how it came there, step by step, and where it went
  lineage KOID          all handles to an object, as a tree: how each came and how it left
  note MOMENT           the note of one moment: the comments ahead of its call in the trace
  find TEXT             the calls that have TEXT in their line or note, as `calls` prints them"
}

fn trace_help() -> &'static str {
    "The session file to look at; `-` is standard input"
}

fn question_help() -> &'static str {
    "calls, changed, events, object, handles, messages, branches, summary, alive, handle, lineage, note or find"
}

fn words_help() -> &'static str {
    "The arguments of the question"
}

fn at_help() -> &'static str {
    "Asks about the path to this moment"
}

fn branch_help() -> &'static str {
    "Asks about the path to the head of this branch"
}

fn all_help() -> &'static str {
    "Asks `calls`, `events` or `find` about all branches, each moment once"
}

fn names_help() -> &'static str {
    "Shows rights and signals by their names"
}

fn notes_help() -> &'static str {
    "Shows the notes of the trace ahead of the calls, and its names behind koids and handles"
}

fn failed_help() -> &'static str {
    "Lists only the calls that failed"
}

fn process_help() -> &'static str {
    "Lists only the calls of this process"
}

fn object_help() -> &'static str {
    "Lists only the calls that changed this object or a handle to it"
}

fn exit_code_help() -> &'static str {
    "Exits with status 1 if the answer has a line"
}

fn json_help() -> &'static str {
    "Prints each line of the answer as a JSON object, with notes and names"
}

fn since_help() -> &'static str {
    "Lists only what is alive of the objects made after this moment"
}

/// The argument `TRACE`: the session text.
fn trace_word<'a>(alloc: Global) -> Arg<'a>
    ensures rule { rule_of result ≡ needed (codes "TRACE") }
    ensures global { result.global ≡ false }
{
    Arg::new(alloc, "TRACE")
        .action(ArgAction::Set)
        .required(true)
        .help(trace_help())
}

/// The argument `QUESTION`: the name of the question.
fn question_word<'a>(alloc: Global) -> Arg<'a>
    ensures rule { rule_of result ≡ needed (codes "QUESTION") }
    ensures global { result.global ≡ false }
{
    Arg::new(alloc, "QUESTION")
        .action(ArgAction::Set)
        .required(true)
        .help(question_help())
}

/// The arguments `WORD`: the words of the question.
fn words_word<'a>(alloc: Global) -> Arg<'a>
    ensures rule { rule_of result ≡ words_word }
    ensures global { result.global ≡ false }
{
    Arg::new(alloc, "WORD")
        .action(ArgAction::Append)
        .num_args(1..)
        .help(words_help())
}

/// The option `--at`: the moment at the end of the path. It excludes `--branch`.
fn at_word<'a>(alloc: Global) -> Result<Arg<'a>, Error>
    ensures rule { IfOk result (λ arg. rule_of arg ≡ at_word) }
    ensures global { IfOk result (λ arg. arg.global ≡ false) }
{
    let word = moment_word(alloc).conflicts_with("branch")?;
    Ok(word)
}

/// The option `--at`, which does not exclude another option yet.
fn moment_word<'a>(alloc: Global) -> Arg<'a>
    ensures rule { rule_of result ≡ moment_word (codes "at") }
    ensures global { result.global ≡ false }
    ensures alone { result.conflicts.items ≡ [] }
{
    Arg::new(alloc, "at")
        .long("at")
        .value_name("MOMENT")
        .action(ArgAction::Set)
        .value_parser(value_parser!(u32).range(0..=i64::from(LAST_MOMENT)))
        .help(at_help())
}

/// The option `--since`: only what was made behind this moment.
fn since_word<'a>(alloc: Global) -> Arg<'a>
    ensures rule { rule_of result ≡ moment_word (codes "since") }
    ensures global { result.global ≡ false }
{
    Arg::new(alloc, "since")
        .long("since")
        .value_name("M")
        .action(ArgAction::Set)
        .value_parser(value_parser!(u32).range(0..=i64::from(LAST_MOMENT)))
        .help(since_help())
}

/// The option `--branch`: the branch whose head is at the end of the path.
fn branch_word<'a>(alloc: Global) -> Arg<'a>
    ensures rule { rule_of result ≡ valued (codes "branch") }
    ensures global { result.global ≡ false }
{
    Arg::new(alloc, "branch")
        .long("branch")
        .value_name("NAME")
        .action(ArgAction::Set)
        .help(branch_help())
}

/// The flag `--all`: all branches are asked.
fn all_word<'a>(alloc: Global) -> Arg<'a>
    ensures rule { rule_of result ≡ flag (codes "all") }
    ensures global { result.global ≡ false }
{
    Arg::new(alloc, "all")
        .long("all")
        .action(ArgAction::SetTrue)
        .help(all_help())
}

/// The flag `--names`: rights and signals by name.
fn names_word<'a>(alloc: Global) -> Arg<'a>
    ensures rule { rule_of result ≡ flag (codes "names") }
    ensures global { result.global ≡ false }
{
    Arg::new(alloc, "names")
        .long("names")
        .action(ArgAction::SetTrue)
        .help(names_help())
}

/// The flag `--notes`: notes and names of the text.
fn notes_word<'a>(alloc: Global) -> Arg<'a>
    ensures rule { rule_of result ≡ flag (codes "notes") }
    ensures global { result.global ≡ false }
{
    Arg::new(alloc, "notes")
        .long("notes")
        .action(ArgAction::SetTrue)
        .help(notes_help())
}

/// The flag `--exit-code`: the exit status shows whether the answer has a line.
fn exit_code_word<'a>(alloc: Global) -> Arg<'a>
    ensures rule { rule_of result ≡ flag (codes "exit-code") }
    ensures global { result.global ≡ false }
{
    Arg::new(alloc, "exit-code")
        .long("exit-code")
        .action(ArgAction::SetTrue)
        .help(exit_code_help())
}

/// The flag `--json`: the lines are printed as JSON.
fn json_word<'a>(alloc: Global) -> Arg<'a>
    ensures rule { rule_of result ≡ flag (codes "json") }
    ensures global { result.global ≡ false }
{
    Arg::new(alloc, "json")
        .long("json")
        .action(ArgAction::SetTrue)
        .help(json_help())
}

/// The flag `--failed`: only calls that failed.
fn failed_word<'a>(alloc: Global) -> Arg<'a>
    ensures rule { rule_of result ≡ flag (codes "failed") }
    ensures global { result.global ≡ false }
{
    Arg::new(alloc, "failed")
        .long("failed")
        .action(ArgAction::SetTrue)
        .help(failed_help())
}

/// The option `--process`: only calls that this process made.
fn process_word<'a>(alloc: Global) -> Arg<'a>
    ensures rule { rule_of result ≡ koid_word (codes "process") }
    ensures global { result.global ≡ false }
{
    Arg::new(alloc, "process")
        .long("process")
        .value_name("P")
        .action(ArgAction::Set)
        .value_parser(value_parser!(u64))
        .help(process_help())
}

/// The option `--object`: only calls that changed this object or a handle to it.
fn object_word<'a>(alloc: Global) -> Arg<'a>
    ensures rule { rule_of result ≡ koid_word (codes "object") }
    ensures global { result.global ≡ false }
{
    Arg::new(alloc, "object")
        .long("object")
        .value_name("K")
        .action(ArgAction::Set)
        .value_parser(value_parser!(u64))
        .help(object_help())
}

/// Declares `look`.
pub fn look_command<'a>(alloc: Global) -> Result<Command<'a>, Error>
    ensures line { IfOk result (λ command. app_of command ≡ look_line) }
    ensures globals { IfOk result (λ command. (fields_of command).has_globals ≡ false) }
{
    Ok(
        alive_command(alloc)?
            .arg(exit_code_word(alloc))?
            .arg(json_word(alloc))?,
    )
}

/// Declares `look` without the flags about the exit status and JSON.
fn alive_command<'a>(alloc: Global) -> Result<Command<'a>, Error>
    ensures line { IfOk result (λ command. app_of command ≡ alive_line) }
    ensures globals { IfOk result (λ command. (fields_of command).has_globals ≡ false) }
{
    Ok(calls_command(alloc)?.arg(since_word(alloc))?)
}

/// Declares `look` without the flags about the exit status and JSON, and the option that only `alive` has.
fn calls_command<'a>(alloc: Global) -> Result<Command<'a>, Error>
    ensures line { IfOk result (λ command. app_of command ≡ calls_line) }
    ensures globals { IfOk result (λ command. (fields_of command).has_globals ≡ false) }
{
    Ok(
        path_command(alloc)?
            .arg(failed_word(alloc))?
            .arg(process_word(alloc))?
            .arg(object_word(alloc))?,
    )
}

/// Declares `look` without options.
fn question_command<'a>(alloc: Global) -> Result<Command<'a>, Error>
    ensures line { IfOk result (λ command. app_of command ≡ question_line) }
    ensures globals { IfOk result (λ command. (fields_of command).has_globals ≡ false) }
{
    Ok(
        told_command(alloc, "look", look_about(), questions())
            .arg(trace_word(alloc))?
            .arg(question_word(alloc))?
            .arg(words_word(alloc))?,
    )
}

/// Declares `look` without the options that only `calls` or `alive` has.
fn path_command<'a>(alloc: Global) -> Result<Command<'a>, Error>
    ensures line { IfOk result (λ command. app_of command ≡ path_line) }
    ensures globals { IfOk result (λ command. (fields_of command).has_globals ≡ false) }
{
    Ok(
        place_command(alloc)?
            .arg(names_word(alloc))?
            .arg(notes_word(alloc))?,
    )
}

/// Declares `look` with the options that say where to ask.
fn place_command<'a>(alloc: Global) -> Result<Command<'a>, Error>
    ensures line { IfOk result (λ command. app_of command ≡ place_line) }
    ensures globals { IfOk result (λ command. (fields_of command).has_globals ≡ false) }
{
    Ok(
        question_command(alloc)?
            .arg(at_word(alloc)?)?
            .arg(branch_word(alloc))?
            .arg(all_word(alloc))?,
    )
}
