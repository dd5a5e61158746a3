//! `zxtt` answers calls and commands line by line, or answers one question about a session text.
#![tactic(auto)]

ghost use Rattle.std.specs.Prelude.{◌≡◌, ◌≤◌, length, IfErr, IfOk};
ghost use Rattle.zt_book.specs.Log.{first_book};
ghost use Rattle.zt_rows.specs.declared.refusals.Refusal.{Refusal};
ghost use Rattle.zt_console.specs.declared.run_loop.End.TheVariants.{Finished, Stopped};
ghost use Rattle.zt_shared.specs.Sharing.{IsFresh};
ghost use Rattle.zt_text.specs.Notes.{none_noted};
ghost use Rattle.zt_words.specs.declared.fault.Fault.TheVariants.{Refused};
ghost use Rattle.zxtt.specs.Traces.{BeginsFrom};

mod all_branches;
mod answer_lines;
mod attended_reader;
mod connections;
mod files;
mod look;
mod place;
mod service;
mod terminal;
mod typed_reader;

use attended_reader::Attended;
use files::{load, load_noted, save, save_tree};
use look::look;
use service::serve;
use std::alloc::Global;
use std::io::Read;
use std::mem::forget;
use std::process::ExitCode;
use terminal::Attendant;
use typed_reader::TypedLines;
use zt_console::{Book, Counted, End, run_heard};
use zt_files::{open, warn_ahead};
use zt_text::Notes;
use zt_words::{Asked, Fault, RunWords, ServeWords, Words, answered, ended};

fn main(rt: HostRuntime) -> ExitCode {
    let words = match Words::of(&rt) {
        Ok(words) => words,
        Err(fault) => return ended(&rt, "zxtt", &Err(fault), false),
    };
    let done = match words.asked(rt.alloc()) {
        Ok(Asked::Run(asked)) => run_asked(&rt, &asked),
        Ok(Asked::Serve(asked)) => match begin_to_serve(&rt, &asked) {
            Ok((book, notes)) => save_served(
                &rt,
                serve(&rt, asked.port, asked.clients, asked.explain, book),
                notes,
                asked.save_tree,
            ),
            Err(fault) => Err(fault),
        },
        Ok(Asked::Look(asked)) => match look(&rt, &asked) {
            Ok(told) => return answered(asked.exit_code, told),
            Err(fault) => Err(fault),
        },
        Err(fault) => Err(fault),
    };
    let status = ended(&rt, "zxtt", &done, words.ask_to_explain());
    say_where_traces_stand(&rt, &words, &done);
    status
}

/// Says where the path of a trace must be, if the words were not accepted and a file is in the place of a subcommand.
fn say_where_traces_stand(rt: &HostRuntime, words: &Words, done: &Result<(), Fault>) {
    if !matches!(done, Err(Fault::Words(_))) {
        return;
    }
    if let Some(file) = words.file_alone(rt) {
        let _ = eprintln!(rt; "{}", traces_stand());
        let _ = eprintln!(rt; "  zxtt look {file} summary");
        let _ = eprintln!(rt; "  zxtt run --from {file}");
    }
}

/// The first line of that hint.
fn traces_stand() -> &'static str {
    "To use a trace, pass it to `look` or `run --from`:"
}

/// Runs the lines of a file. Then it saves the history of `main` and the whole tree, if files are named.
fn run_asked(rt: &HostRuntime, words: &RunWords<'_>) -> Result<(), Fault> {
    let keeps = words.notes || words.save_tree.is_some();
    let (book, notes) = begin(rt, 1, words.from, keeps)?;
    let book = run_file(rt, book, words)?;
    let saved = save_asked(rt, &book, &notes, words);
    leave(book);
    leave(notes);
    saved
}

/// Makes the book to serve, with the notes to save. If the tree could not be saved at the end, it says so before it listens.
fn begin_to_serve(rt: &HostRuntime, words: &ServeWords<'_>) -> Result<(Book, Notes), Fault>
    ensures { IfOk result (λ begun. IsFresh words.now.clients begun.0) }
{
    let begun = begin(rt, words.clients, words.from, words.save_tree.is_some())?;
    warn_ahead(rt, "zxtt", words.save_tree);
    Ok(begun)
}

/// Saves the history of `main`, with notes if they are asked for, and then the whole tree with them, if files are named.
fn save_asked(
    rt: &HostRuntime,
    book: &Book,
    notes: &Notes,
    words: &RunWords<'_>,
) -> Result<(), Fault> {
    let with = if words.notes { Some(notes) } else { None };
    save(rt, book, with, words.save)?;
    save_tree(rt, book, notes, words.save_tree)
}

/// Never frees a value that is needed until the end: the system frees all memory at once when the process exits.
pub(crate) fn leave<T: Drop>(kept: T) {
    forget(kept);
}

/// Saves the whole tree of a book that was served, with these notes, if a file is named.
fn save_served(
    rt: &HostRuntime,
    served: Result<Book, Fault>,
    notes: Notes,
    tree_to: Option<&str>,
) -> Result<(), Fault> {
    let book = served?;
    let saved = save_tree(rt, &book, &notes, tree_to);
    leave(book);
    leave(notes);
    saved
}

/// Makes a book with this many clients at the opening, or loads a trace if one is named, with its notes if they are to be kept.
fn begin(
    rt: &HostRuntime,
    clients: u8,
    from: Option<&str>,
    keeps: bool,
) -> Result<(Book, Notes), Fault>
    ensures begins { IfOk result (λ begun. BeginsFrom clients from.entry keeps begun.0 begun.1) }
    ensures clients { IfOk result (λ begun. length begun.0.session.clients ≡ clients) }
    ensures fresh { IfOk result (λ begun. IsFresh clients begun.0) }
{
    match from {
        Some(path) if keeps => load_noted(rt, clients, path),
        Some(path) => without_notes(rt, load(rt, clients, path)),
        None => without_notes(rt, first_book(rt.alloc(), clients)),
    }
}

/// Makes a book with this many clients at the opening.
fn first_book(alloc: Global, clients: u8) -> Result<Book, Fault>
    ensures { IfOk result (λ book. book ≡ first_book clients) }
{
    match Book::new(alloc, clients) {
        Ok(book) => Ok(book),
        Err(refusal) => Err(Fault::Refused(refusal)),
    }
}

/// Adds that there are no notes.
fn without_notes(rt: &HostRuntime, begun: Result<Book, Fault>) -> Result<(Book, Notes), Fault>
    ensures { IfOk result (λ both. (begun ≡ Ok both.0) × (both.1 ≡ none_noted)) }
{
    match begun {
        Ok(book) => Ok((book, Notes::none(rt.alloc()))),
        Err(fault) => Err(fault),
    }
}

/// Runs the lines of the file, or of standard input for `-`.
fn run_file(rt: &HostRuntime, book: Book, words: &RunWords<'_>) -> Result<Book, Fault>
    requires { 1 ≤ length book.session.clients }
{
    let file = words.file;
    let attendant = Attendant::new(rt, file == "-", words.explain);
    if file == "-" {
        tell_ahead(rt, words);
        run_input(rt, book, &attendant)
    } else {
        let lines = open(rt, file)?;
        tell_ahead(rt, words);
        run_lines(rt, book, Attended::new(lines, &attendant), &attendant)
    }
}

/// Says which files could not be saved at the end, as far as that shows before any line is read.
fn tell_ahead(rt: &HostRuntime, words: &RunWords<'_>) {
    warn_ahead(rt, "zxtt", words.save);
    warn_ahead(rt, "zxtt", words.save_tree);
}

/// Runs the lines of standard input, which a person may type.
fn run_input<'a>(
    rt: &'a HostRuntime,
    book: Book,
    attendant: &'a Attendant<'a>,
) -> Result<Book, Fault>
    requires { 1 ≤ length book.session.clients }
{
    if attendant.sits_at_terminal() {
        attendant.greet(&book);
        run_lines(rt, book, TypedLines::new(rt.stdin(), attendant), attendant)
    } else {
        run_lines(rt, book, Attended::new(rt.stdin(), attendant), attendant)
    }
}

/// Runs the lines of the reader, and answers on standard output. The attendant hears the lines.
fn run_lines<'a, R: Read + Drop>(
    rt: &'a HostRuntime,
    book: Book,
    reader: R,
    attendant: &'a Attendant<'a>,
) -> Result<Book, Fault>
    requires { 1 ≤ length book.session.clients }
{
    let mut reader = Counted::new(reader);
    let mut writer = Counted::new(rt.stdout());
    let (book, end) = run_heard(rt.alloc(), book, &mut reader, &mut writer, attendant);
    if end == End::Finished {
        attendant.say_told();
    }
    left(book, end)
}

/// Returns the book of a finished run, or the refusal that stopped the run.
fn left(book: Book, end: End) -> Result<Book, Fault>
    ensures finished { IfOk result (λ given. (end ≡ Finished) × (given ≡ book)) }
    ensures stopped { IfErr result (λ fault. (cause : Refusal) × (end ≡ Stopped cause) × (fault ≡ Refused cause)) }
{
    match end {
        End::Finished => Ok(book),
        End::Stopped(refusal) => Err(Fault::Refused(refusal)),
    }
}
