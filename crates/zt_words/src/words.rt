//! Reads the words of a command line, and those of `zxtt`.

ghost use Rattle.std.specs.Prelude.{◌≡◌, IfOk, [], codes, false, map, string_bytes};
ghost use Rattle.clap.specs.Words.{HasMatchesOf, app_of, found_of, new_app, rows_of, rule_of, subcommand_of, subcommand_rows_of, with_rule};
ghost use Rattle.clap.specs.declared.builder.command.Command.TheViews.{out-Command as fields_of};
ghost use Rattle.zt_words.specs.Rules.{flag, valued};
ghost use Rattle.zt_words.specs.Words.{IsAskedBy, IsAskedWith, IsRunOf, IsStandardInput, IsServeOf, IsLookedFor, clients_word, command_line, file_word, notes_word, port_word, run_line, save_line, serve_line, talk_line};

use crate::fault::Fault;
use crate::look_words::{Look, flag_in, look_command, look_of};
use clap::{Arg, ArgAction, ArgMatches, Command, Error, value_parser};
use std::alloc::Global;
use std::{env, fs};

// The contracts do not say which texts these functions return, so proofs of their callers need not go over the bytes.

/// The description of the program.
fn about() -> &'static str {
    "A time-travel debugger for traces of Zircon, the kernel of Fuchsia.

It replays system calls on handles and kernel objects. Each line of its input is a call
or a command, and gets an answer at once. A call makes the next moment of the history. A
command looks at the history or moves in it. So you can step back to the call that
leaked a handle, closed a peer or killed a job."
}

/// The description of `run`.
fn run_about<'a>() -> &'a str {
    "Answers the lines of a file or of standard input; `zxtt` alone reads standard input"
}

/// The description of `serve`.
fn serve_about<'a>() -> &'a str {
    "Answers the lines of up to four clients, who share one history"
}

/// The help of `--from`.
fn from_help() -> &'static str {
    "Loads a trace first: the calls or the whole tree of a session file"
}

/// The help of `--save`.
fn save_help() -> &'static str {
    "Writes the calls on `main` as a session file when the input ends"
}

/// The help of `--save-tree`.
fn save_tree_help() -> &'static str {
    "Writes the whole tree as a session file at the end: all branches, and where each client is"
}

/// The help of the `--notes` of `run`.
fn notes_help() -> &'static str {
    "Writes the notes and names of TRACE to the file of --save too; --save-tree always does"
}

/// The help of `--clients`.
fn clients_help() -> &'static str {
    "How many connections to accept, 1 to 4; they become clients 1 to N, in that order"
}

/// The help of `--explain`.
fn explain_help() -> &'static str {
    "Explains each refused line on standard error: its number, the line, a caret and the cause"
}

/// The text after the help.
fn examples<'a>() -> &'a str {
    "Examples:
  zxtt run --from examples/job-dies.trace           load a trace, then answer lines
  zxtt serve 7000 --clients 2                       answer two clients on port 7000
  zxtt look examples/job-dies.trace events ended    answer one question

Lines:
  1025 event_create      process 1025, which exists from the start, makes an event
  1025 handle_close 7    it closes its handle 7
  back 1                 go back one moment; `goto 4` goes to moment 4
  branch fix             make a branch named fix here, and follow it
  follow main            go to the head of `main`, the branch that exists from the start
  show                   print all rows of the state; `holders 1026` prints what keeps 1026
  leaks                  print the objects that no live process can reach
  when leaked 1026       print the call that leaked it; also made, ended, peer_closed
  pin                    keep a copy of the state; `pinned leaks` asks the copy

Exit statuses:
  0  the input ended or the question was answered, even if lines were refused
  1  the answer of `look --exit-code` has a line
  2  the command line is invalid, or help or the version was printed
  3  a file could not be opened, or the program could not listen on the port
  4  a read failed            5  a write failed
  6  anything else was refused, such as a line of a loaded trace"
}

/// The words with which the program was started.
#[derive(Drop)]
pub struct Words {
    pub words: Vec<String>,
}

/// What `run` is asked to do.
#[derive(Clone, Copy)]
pub struct RunWords<'a> {
    /// The file to read lines from, or `-` for standard input.
    pub file: &'a str,
    /// The trace with which the history begins.
    pub from: Option<&'a str>,
    /// The file to which the history of `main` is saved.
    pub save: Option<&'a str>,
    /// Whether notes and names are saved there too.
    pub notes: bool,
    /// The file to which the whole tree is saved.
    pub save_tree: Option<&'a str>,
    /// Whether refused lines are explained.
    pub explain: bool,
}

/// What `serve` is asked to do, on this port and for this many clients.
#[derive(Clone, Copy)]
pub struct ServeWords<'a> {
    pub port: u16,
    pub clients: u8,
    /// The trace with which the history begins.
    pub from: Option<&'a str>,
    /// The file to which the whole tree is saved.
    pub save_tree: Option<&'a str>,
    /// Whether refused lines are explained.
    pub explain: bool,
}

/// What the words ask the program to do.
#[derive(Clone, Copy)]
pub enum Asked<'a> {
    /// Run the lines of a file.
    Run(RunWords<'a>),
    /// Serve clients that connect to a port.
    Serve(ServeWords<'a>),
    /// Answer a question about a session text.
    Look(Look<'a>),
}

impl Words {
    /// Reads the words, with the program's own name first. Fails with `Unread`, or with `Refused` and `OutOfMemory`.
    pub fn of(rt: &HostRuntime) -> Result<Words, Fault> {
        let words = match env::args(rt) {
            Ok(words) => words,
            Err(error) => return Err(Fault::Unread(error)),
        };
        match words.collect(rt.alloc()) {
            Ok(words) => Ok(Words { words }),
            Err(_) => Err(Fault::of_memory()),
        }
    }

    /// Returns what the words ask for. Without words, the program runs standard input. Fails with `Words` if the words are not
    /// accepted or ask for help, and with `Unasked` if they ask `look` no question.
    pub fn asked(&self, alloc: Global) -> Result<Asked<'_>, Fault>
        ensures { IfOk result (IsAskedWith (map string_bytes self.now.words.items)) }
    {
        if self.words.len() <= 1 {
            return Ok(unasked());
        }
        self.parsed(alloc)
    }

    /// Whether `--explain` is among the words.
    pub fn ask_to_explain(&self) -> bool {
        for word in &self.words {
            if word.as_str() == "--explain" {
                return true;
            }
        }
        false
    }

    /// Returns the first word if it is in the place of a subcommand, but names a file or looks like the name of one.
    pub fn file_alone(&self, rt: &HostRuntime) -> Option<&str> {
        let word = self.words.get(1)?.as_str();
        let is_other = word.starts_with('-') || matches!(word, "run" | "serve" | "look" | "help");
        if !is_other && (word.contains('.') || fs::metadata(rt, word).is_ok()) {
            Some(word)
        } else {
            None
        }
    }

    /// Returns what the words ask for, by the declared command line.
    fn parsed(&self, alloc: Global) -> Result<Asked<'_>, Fault>
        ensures { IfOk result (IsAskedBy (subcommand_of command_line (map string_bytes self.now.words.items))) }
    {
        match self.met(command(alloc)?) {
            Ok(matches) => asked_of(&matches),
            Err(fault) => Err(fault),
        }
    }

    /// Parses the words by a declared command line. Fails with `Words` if they are not accepted or ask for help.
    pub fn met<'a>(&'a self, line: Command<'a>) -> Result<ArgMatches<'a>, Fault>
        ensures { IfOk result (HasMatchesOf (app_of line.entry) (map string_bytes self.now.words.items)) }
    {
        match line.try_get_matches_from(self.words.as_slice()) {
            Ok(matches) => Ok(matches),
            Err(error) => Err(Fault::Words(error)),
        }
    }
}

/// The default: run standard input.
fn unasked<'a>() -> Asked<'a>
    ensures { IsStandardInput result }
{
    Asked::Run(RunWords {
        file: "-",
        from: None,
        save: None,
        notes: false,
        save_tree: None,
        explain: false,
    })
}

/// Returns what the parsed words ask for.
fn asked_of<'a>(matches: &ArgMatches<'a>) -> Result<Asked<'a>, Fault>
    ensures { IfOk result (IsAskedBy (subcommand_rows_of matches.now)) }
{
    if let Some(run) = matches.subcommand_matches("run") {
        Ok(run_of(run))
    } else if let Some(serve) = matches.subcommand_matches("serve") {
        Ok(serve_of(serve))
    } else if let Some(look) = matches.subcommand_matches("look") {
        looked_for(look)
    } else {
        Ok(unasked())
    }
}

/// Returns what the parsed words after `look` ask for.
fn looked_for<'a>(words: &ArgMatches<'a>) -> Result<Asked<'a>, Fault>
    ensures { IfOk result (IsLookedFor (rows_of (found_of words.now))) }
{
    match look_of(words) {
        Ok(look) => Ok(Asked::Look(look)),
        Err(reason) => Err(Fault::Unasked(reason)),
    }
}

/// Returns what the parsed words after `run` ask for.
fn run_of<'a>(words: &ArgMatches<'a>) -> Asked<'a>
    ensures { IsRunOf (rows_of (found_of words.now)) result }
{
    Asked::Run(RunWords {
        file: words.get_str("FILE").unwrap_or("-"),
        from: words.get_str("from"),
        save: words.get_str("save"),
        notes: flag_in(words, "notes"),
        save_tree: words.get_str("save-tree"),
        explain: flag_in(words, "explain"),
    })
}

/// Returns what the parsed words after `serve` ask for.
fn serve_of<'a>(words: &ArgMatches<'a>) -> Asked<'a>
    ensures { IsServeOf (rows_of (found_of words.now)) result }
{
    Asked::Serve(ServeWords {
        port: words.get_one("PORT").unwrap_or(0),
        clients: words.get_one("clients").unwrap_or(1),
        from: words.get_str("from"),
        save_tree: words.get_str("save-tree"),
        explain: flag_in(words, "explain"),
    })
}

/// Declares the command line.
fn command<'a>(alloc: Global) -> Result<Command<'a>, Error>
    ensures { IfOk result (λ command. app_of command ≡ command_line) }
{
    Ok(talk_command(alloc)?.subcommand(look_command(alloc)?)?)
}

/// Declares the subcommands that answer line by line.
fn talk_command<'a>(alloc: Global) -> Result<Command<'a>, Error>
    ensures line { IfOk result (λ command. app_of command ≡ talk_line) }
    ensures globals { IfOk result (λ command. (fields_of command).has_globals ≡ false) }
{
    Ok(
        Command::new(alloc, "zxtt")
            .version("1.0.0")
            .about(about())
            .after_help(examples())
            .subcommand_required(true)
            .subcommand(run_command(alloc)?)?
            .subcommand(serve_command(alloc)?)?,
    )
}

/// The option `--from`: the session text with which the history begins.
pub fn from_word<'a>(alloc: Global) -> Arg<'a>
    ensures rule { rule_of result ≡ valued (codes "from") }
    ensures global { result.global ≡ false }
{
    Arg::new(alloc, "from")
        .long("from")
        .value_name("TRACE")
        .action(ArgAction::Set)
        .help(from_help())
}

/// The option `--save`: the session text that a run writes.
fn save_word<'a>(alloc: Global) -> Arg<'a>
    ensures rule { rule_of result ≡ valued (codes "save") }
    ensures global { result.global ≡ false }
{
    Arg::new(alloc, "save")
        .long("save")
        .value_name("OUT")
        .action(ArgAction::Set)
        .help(save_help())
}

/// The flag `--notes` of `run`: notes and names are saved too. It needs `--save`.
fn notes_word<'a>(alloc: Global) -> Result<Arg<'a>, Error>
    ensures rule { IfOk result (λ arg. rule_of arg ≡ notes_word) }
    ensures global { IfOk result (λ arg. arg.global ≡ false) }
{
    let word = notes_flag(alloc).requires_arg("save")?;
    Ok(word)
}

/// The flag `--notes` of `run`, which does not need another option yet.
fn notes_flag<'a>(alloc: Global) -> Arg<'a>
    ensures rule { rule_of result ≡ flag (codes "notes") }
    ensures global { result.global ≡ false }
    ensures alone { result.needs.items ≡ [] }
{
    Arg::new(alloc, "notes")
        .long("notes")
        .action(ArgAction::SetTrue)
        .help(notes_help())
}

/// The option `--save-tree`: the session text of the whole tree that the program writes.
pub fn save_tree_word<'a>(alloc: Global) -> Arg<'a>
    ensures rule { rule_of result ≡ valued (codes "save-tree") }
    ensures global { result.global ≡ false }
{
    Arg::new(alloc, "save-tree")
        .long("save-tree")
        .value_name("OUT")
        .action(ArgAction::Set)
        .help(save_tree_help())
}

/// The flag `--explain`: whether refused lines are explained.
fn explain_word<'a>(alloc: Global) -> Arg<'a>
    ensures rule { rule_of result ≡ flag (codes "explain") }
    ensures global { result.global ≡ false }
{
    Arg::new(alloc, "explain")
        .long("explain")
        .action(ArgAction::SetTrue)
        .help(explain_help())
}

/// The argument `FILE`: the lines to run.
fn file_word<'a>(alloc: Global) -> Arg<'a>
    ensures rule { rule_of result ≡ file_word }
    ensures global { result.global ≡ false }
{
    Arg::new(alloc, "FILE")
        .action(ArgAction::Set)
        .default_value("-")
        .help("The file to read lines from; `-` is standard input")
}

/// The argument `PORT`: the port to listen on.
fn port_word<'a>(alloc: Global) -> Arg<'a>
    ensures rule { rule_of result ≡ port_word }
    ensures global { result.global ≡ false }
{
    Arg::new(alloc, "PORT")
        .action(ArgAction::Set)
        .required(true)
        .value_parser(value_parser!(u16).range(1..=65_535))
        .help("The port of 127.0.0.1 to listen on")
}

/// The option `--clients`: how many clients are served.
fn clients_word<'a>(alloc: Global) -> Arg<'a>
    ensures rule { rule_of result ≡ clients_word }
    ensures global { result.global ≡ false }
{
    Arg::new(alloc, "clients")
        .long("clients")
        .value_name("N")
        .action(ArgAction::Set)
        .value_parser(value_parser!(u8).range(1..=4))
        .default_value("1")
        .help(clients_help())
}

/// A subcommand without arguments, with its description and the text after its help.
pub fn told_command<'a>(
    alloc: Global,
    name: &'a str,
    about: &'a str,
    examples: &'a str,
) -> Command<'a>
    ensures line { app_of result ≡ new_app name.entry.now }
    ensures globals { (fields_of result).has_globals ≡ false }
{
    Command::new(alloc, name).about(about).after_help(examples)
}

/// Adds the options that come last in `run` and in `serve`: `--save-tree` and `--explain`.
fn with_last_words<'a>(alloc: Global, command: Command<'a>) -> Result<Command<'a>, Error>
    requires { (fields_of command).has_globals ≡ false }
    ensures line { IfOk result (λ done. app_of done ≡ with_rule (with_rule (app_of command.entry) (valued (codes "save-tree"))) (flag (codes "explain"))) }
    ensures globals { IfOk result (λ done. (fields_of done).has_globals ≡ false) }
{
    Ok(
        command
            .arg(save_tree_word(alloc))?
            .arg(explain_word(alloc))?,
    )
}

/// Declares `run`.
fn run_command<'a>(alloc: Global) -> Result<Command<'a>, Error>
    ensures line { IfOk result (λ command. app_of command ≡ run_line) }
    ensures globals { IfOk result (λ command. (fields_of command).has_globals ≡ false) }
{
    let words = save_command(alloc)?.arg(notes_word(alloc)?)?;
    with_last_words(alloc, words)
}

/// Declares `run` with the words up to `--save`.
fn save_command<'a>(alloc: Global) -> Result<Command<'a>, Error>
    ensures line { IfOk result (λ command. app_of command ≡ save_line) }
    ensures globals { IfOk result (λ command. (fields_of command).has_globals ≡ false) }
{
    Ok(
        told_command(alloc, "run", run_about(), examples())
            .arg(file_word(alloc))?
            .arg(from_word(alloc))?
            .arg(save_word(alloc))?,
    )
}

/// Declares `serve`.
fn serve_command<'a>(alloc: Global) -> Result<Command<'a>, Error>
    ensures line { IfOk result (λ command. app_of command ≡ serve_line) }
    ensures globals { IfOk result (λ command. (fields_of command).has_globals ≡ false) }
{
    let words = told_command(alloc, "serve", serve_about(), examples())
        .arg(port_word(alloc))?
        .arg(clients_word(alloc))?
        .arg(from_word(alloc))?;
    with_last_words(alloc, words)
}
