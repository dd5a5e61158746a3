//! Runs each case of the current folder twice: over a book, and in a session over a shared book of one client.
//!
//! - The lines of case NAME are in NAME.in, and the answers in NAME.out.
//! - A case begins with the session text NAME.from if there is one, and else at the opening. If that text does not load,
//!   the answer is the fault.
//! - NAME.save, if there is one, has the calls on `main` as they are saved after the run.
//! - NAME.tree, if there is one, has the whole tree as it is saved then.
//!
//! Prints one line for each case, in the order of their names.
#![tactic(auto)]

ghost use Rattle.std.specs.Prelude.{◌≡◌, ◌≤◌, length, IfOk};
ghost use Rattle.zt_shared.specs.Sharing.{IsFresh};

mod differences;
mod served;

use differences::{TextDifference, first_difference};
use served::serve_lines;
use std::alloc::{AllocError, Global};
use std::fmt::{Display, Formatter, Write};
use std::rt::Files;
use std::sync::Wait;
use std::{fmt, fs, io};
use zt_console::{Book, Counted, End, load_text, main_text, run, tree_text};
use zt_rows::Refusal;
use zt_text::RefusalLine;

fn main(rt: HostRuntime) -> io::Result<()> {
    let names = cases(&rt)?;
    report_all(&rt, names.as_slice())
}

/// Prints for each of these cases whether it goes as expected, or where it does not.
fn report_all(rt: &(impl Files + AllocGlobal + Print + Wait), names: &[String]) -> io::Result<()> {
    for name in names {
        report(rt, name.as_str())?;
    }
    Ok(())
}

/// The names of the cases in this folder, in order.
fn cases<R: Files + AllocGlobal + Clone + Drop>(rt: &R) -> io::Result<Vec<String>> {
    let mut names = Vec::new(rt.alloc());
    match add_names(rt, &mut names) {
        Ok(()) => Ok(names),
        Err(error) => Err(error),
    }
}

/// Adds the names of the cases in this folder, and sorts all names.
fn add_names<R: Files + AllocGlobal + Clone + Drop>(
    rt: &R,
    names: &mut Vec<String>,
) -> io::Result<()> {
    for entry in fs::read_dir(rt, ".")? {
        let entry = entry?;
        add_name(rt.alloc(), names, entry.file_name())?;
    }
    names.sort()?;
    Ok(())
}

/// Adds the name of the case of a file, if the file has the lines of one.
fn add_name(alloc: Global, names: &mut Vec<String>, file: &str) -> Result<(), AllocError> {
    if let Some(name) = file.strip_suffix(".in") {
        names.push(String::from_str(alloc, name)?)?;
    }
    Ok(())
}

/// The texts of a case: its lines and their answers. Some cases have more: the session text that they begin with, and the
/// texts of `main` and of the whole tree that are saved.
struct Case {
    asked: Vec<u8>,
    told: Vec<u8>,
    from: Option<Vec<u8>>,
    saved: Option<Vec<u8>>,
    tree: Option<Vec<u8>>,
}

/// Drops all texts in one call. So a proof of a function that has them does not go through them at each return.
impl Drop for Case {
    fn drop(self) {
        let Case {
            asked: _asked,
            told: _told,
            from: _from,
            saved: _saved,
            tree: _tree,
        } = self;
    }
}

/// Reads the file of this name and ending.
fn read(rt: &(impl Files + AllocGlobal), name: &str, ending: &str) -> io::Result<Vec<u8>> {
    fs::read(rt, format!(in rt.alloc(); "{name}.{ending}")?)
}

/// Reads the file of this name and ending; none if it cannot be read.
fn read_some(
    rt: &(impl Files + AllocGlobal),
    name: &str,
    ending: &str,
) -> io::Result<Option<Vec<u8>>> {
    let path = format!(in rt.alloc(); "{name}.{ending}")?;
    Ok(fs::read(rt, path).ok())
}

/// Reads the texts of the case of this name.
fn read_case(rt: &(impl Files + AllocGlobal), name: &str) -> io::Result<Case> {
    let mut case = Case {
        asked: read(rt, name, "in")?,
        told: Vec::new(rt.alloc()),
        from: None,
        saved: None,
        tree: None,
    };
    match read_others(rt, name, &mut case) {
        Ok(()) => Ok(case),
        Err(error) => Err(error),
    }
}

/// Reads the texts of a case other than its lines.
fn read_others(rt: &(impl Files + AllocGlobal), name: &str, case: &mut Case) -> io::Result<()> {
    case.told = read(rt, name, "out")?;
    case.from = read_some(rt, name, "from")?;
    case.saved = read_some(rt, name, "save")?;
    case.tree = read_some(rt, name, "tree")?;
    Ok(())
}

/// Prints whether a case goes as expected, or where it does not.
fn report(rt: &(impl Files + AllocGlobal + Print + Wait), name: &str) -> io::Result<()> {
    match read_case(rt, name) {
        Ok(case) => report_case(rt, name, &case),
        Err(error) => Err(error),
    }
}

/// Runs a case with these texts, and prints whether it goes as expected.
fn report_case(rt: &(impl AllocGlobal + Print + Wait), name: &str, case: &Case) -> io::Result<()> {
    match outcome(rt, &case.from, case.asked.as_slice()) {
        Ok(came) => say(rt, name, &how_it_went(case, &came)),
        Err(refusal) => say_stopped(rt, name, refusal.name()),
    }
}

fn say(rt: &impl Print, name: &str, verdict: &Verdict<'_>) -> io::Result<()> {
    println!(rt; "{name} {verdict}")
}

fn say_stopped(rt: &impl Print, name: &str, cause: &str) -> io::Result<()> {
    println!(rt; "{name} stopped: {cause}")
}

/// The answers that a run wrote, and the session texts that are saved after it: of `main` and of the whole tree.
struct Ran {
    answers: Vec<u8>,
    saved: Vec<u8>,
    tree: Vec<u8>,
}

/// Drops all texts in one call, as `Case` does.
impl Drop for Ran {
    fn drop(self) {
        let Ran {
            answers: _answers,
            saved: _saved,
            tree: _tree,
        } = self;
    }
}

/// The outcome of a run, and the answers that a session wrote.
#[derive(Drop)]
struct Came {
    ran: Ran,
    session: Vec<u8>,
}

/// Runs these lines twice, from a session text if there is one: what the run writes and saves, and what the session writes.
/// If the text does not load, both write the fault, and nothing is saved.
fn outcome(
    rt: &(impl AllocGlobal + Wait),
    from: &Option<Vec<u8>>,
    asked: &[u8],
) -> Result<Came, Refusal> {
    let ran = run_from(rt.alloc(), from, asked)?;
    match session_from(rt, from, asked) {
        Ok(session) => Ok(Came { ran, session }),
        Err(refusal) => Err(refusal),
    }
}

/// What a run over these lines writes and saves. If the session text does not load, the run writes the fault.
fn run_from(alloc: Global, from: &Option<Vec<u8>>, asked: &[u8]) -> Result<Ran, Refusal> {
    match begin(alloc, from) {
        Ok(book) => run_lines(alloc, book, asked),
        Err((line, refusal)) => Ok(unsaved(alloc, fault(alloc, line, refusal)?)),
    }
}

/// The run that wrote these answers and saves nothing.
fn unsaved(alloc: Global, answers: Vec<u8>) -> Ran {
    Ran {
        answers,
        saved: Vec::new(alloc),
        tree: Vec::new(alloc),
    }
}

/// What a session over these lines writes, or the fault of the session text.
fn session_from(
    rt: &(impl AllocGlobal + Wait),
    from: &Option<Vec<u8>>,
    asked: &[u8],
) -> Result<Vec<u8>, Refusal> {
    match begin(rt.alloc(), from) {
        Ok(book) => serve_lines(rt, book, asked),
        Err((line, refusal)) => fault(rt.alloc(), line, refusal),
    }
}

/// The book of one client in which a case begins. The error has the line of the session text at fault, or 0, and the
/// refusal.
#[tactic(auto, using(crate::proofs::Beginning::loaded_is_fresh, crate::proofs::Beginning::first_clients, crate::proofs::Beginning::first_is_fresh))]
fn begin(alloc: Global, from: &Option<Vec<u8>>) -> Result<Book, (u64, Refusal)>
    ensures clients { IfOk result (λ book. length book.session.clients ≡ 1) }
    ensures fresh { IfOk result (IsFresh 1) }
{
    match from {
        Some(text) => match load_text(alloc, 1, text.as_slice()) {
            Ok(book) => Ok(book),
            Err(fault) => Err(fault),
        },
        None => match Book::new(alloc, 1) {
            Ok(book) => Ok(book),
            Err(refusal) => Err((0, refusal)),
        },
    }
}

/// The text that is written if a session text does not load.
fn fault(alloc: Global, line: u64, refusal: Refusal) -> Result<Vec<u8>, Refusal> {
    let text = format!(in alloc; "line {line}: {}\n", RefusalLine(refusal))?;
    Ok(text.into_bytes())
}

/// What a run over these lines writes and saves. The error is what stopped the run.
fn run_lines(alloc: Global, book: Book, asked: &[u8]) -> Result<Ran, Refusal>
    requires { 1 ≤ length book.session.clients }
{
    let mut reader = Counted::new(asked);
    let mut writer = Counted::new(Vec::new(alloc));
    let (book, end) = run(alloc, book, &mut reader, &mut writer);
    match end {
        End::Finished => with_saved(alloc, &book, writer.into_inner()),
        End::Stopped(refusal) => Err(refusal),
    }
}

/// The run that wrote these answers, with the texts that are saved of the book.
fn with_saved(alloc: Global, book: &Book, answers: Vec<u8>) -> Result<Ran, Refusal> {
    let mut ran = unsaved(alloc, answers);
    match save(alloc, book, &mut ran) {
        Ok(()) => Ok(ran),
        Err(refusal) => Err(refusal),
    }
}

/// Saves the texts of the book.
fn save(alloc: Global, book: &Book, ran: &mut Ran) -> Result<(), Refusal> {
    ran.saved = main_text(alloc, book)?;
    ran.tree = tree_text(alloc, book)?;
    Ok(())
}

/// How a case went.
#[derive(Drop)]
enum Verdict<'a> {
    AsTold,
    Answers(TextDifference<'a>),
    Saved(TextDifference<'a>),
    Tree(TextDifference<'a>),
    Session(TextDifference<'a>),
}

/// How a case went: first by the answers of the run and of the session, then by the texts that are saved.
fn how_it_went<'a>(case: &'a Case, came: &'a Came) -> Verdict<'a> {
    let told = case.told.as_slice();
    if let Some(difference) = first_difference(told, came.ran.answers.as_slice()) {
        return Verdict::Answers(difference);
    }
    if let Some(difference) = first_difference(told, came.session.as_slice()) {
        return Verdict::Session(difference);
    }
    if let Some(difference) = difference_from_saved(&case.saved, came.ran.saved.as_slice()) {
        return Verdict::Saved(difference);
    }
    match difference_from_saved(&case.tree, came.ran.tree.as_slice()) {
        None => Verdict::AsTold,
        Some(difference) => Verdict::Tree(difference),
    }
}

/// Where a saved text differs from that of the case, if the case has one.
fn difference_from_saved<'a>(
    told: &'a Option<Vec<u8>>,
    saved: &'a [u8],
) -> Option<TextDifference<'a>> {
    match told {
        Some(told) => first_difference(told.as_slice(), saved),
        None => None,
    }
}

impl<'a> Display for Verdict<'a> {
    fn fmt<W: Write>(&self, f: &mut Formatter<W>) -> fmt::Result {
        match self {
            Verdict::AsTold => f.write_str("as told"),
            Verdict::Answers(difference) => write!(f, "{difference}"),
            Verdict::Saved(difference) => write!(f, "saved: {difference}"),
            Verdict::Tree(difference) => write!(f, "tree: {difference}"),
            Verdict::Session(difference) => write!(f, "session: {difference}"),
        }
    }
}
