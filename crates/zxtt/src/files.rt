//! Loads and saves session texts.

ghost use Rattle.std.specs.Prelude.{◌≡◌, length, true, IfErr, IfOk, List, ℕ};
ghost use Rattle.zt_shared.specs.Sharing.{IsFresh};
ghost use Rattle.zt_console.specs.LoadedText.{IsLoadedOf};
ghost use Rattle.zxtt.specs.Traces.{AreOfText, IsFaultOfText, IsReadOf, TellsOfSomeText};

use std::alloc::Global;
use zt_console::{
    Book, LoadProgress, load_read, load_text_told, main_text, main_text_with, tree_text_with,
};
use zt_files::{Progress, is_regular, open, read_rest, rewind, write_whole};
use zt_text::Notes;
use zt_words::{Fault, TraceLine};

/// Loads a session text from a file into a book with this many clients. A person at a terminal sees the progress.
///
/// If no progress is shown, a text of version 1 is loaded while it is read. If that fails, the file is read again as a whole, and
/// its errors are those of this second read. So if the file changed in between, the later text is loaded or reported. A file that
/// cannot be read twice, such as a pipe, is read as a whole at once.
pub fn load(rt: &HostRuntime, clients: u8, path: &str) -> Result<Book, Fault>
    ensures loaded { IfOk result (λ book. (text : List ℕ) × IsLoadedOf clients text book) }
    ensures refused { IfErr result (TellsOfSomeText clients) }
    ensures clients { IfOk result (λ book. length book.session.clients ≡ clients) }
    ensures fresh { IfOk result (IsFresh clients) }
{
    let mut file = match open(rt, path) {
        Ok(file) => file,
        Err(fault) => return Err(fault),
    };
    let told = Progress::new(rt, "zxtt");
    if !told.is_told() && is_regular(&file) {
        if let Some(book) = load_read(rt.alloc(), clients, &mut file) {
            return Ok(book);
        }
        if let Err(fault) = rewind(&mut file) {
            return Err(fault);
        }
    }
    let text = match read_rest(rt.alloc(), &mut file) {
        Ok(text) => text,
        Err(fault) => return Err(fault),
    };
    book_of(rt.alloc(), clients, path, text.as_slice(), &told)
}

/// Loads a session text from a file like `load`, and reads its notes. The text is read as a whole, so both are of the same bytes.
pub fn load_noted(rt: &HostRuntime, clients: u8, path: &str) -> Result<(Book, Notes), Fault>
    ensures loaded { IfOk result (λ read. IsReadOf true clients read.0 read.1) }
    ensures refused { IfErr result (TellsOfSomeText clients) }
    ensures clients { IfOk result (λ read. length read.0.session.clients ≡ clients) }
    ensures fresh { IfOk result (λ read. IsFresh clients read.0) }
{
    let mut file = match open(rt, path) {
        Ok(file) => file,
        Err(fault) => return Err(fault),
    };
    let text = match read_rest(rt.alloc(), &mut file) {
        Ok(text) => text,
        Err(fault) => return Err(fault),
    };
    noted_of(rt, clients, path, text.as_slice())
}

/// Loads the session text for `look` from a file, or from standard input for `-`.
pub fn load_looked(rt: &HostRuntime, file: &str) -> Result<Book, Fault>
    ensures loaded { IfOk result (λ book. (text : List ℕ) × IsLoadedOf 1 text book) }
    ensures refused { IfErr result (TellsOfSomeText 1) }
{
    if file == "-" {
        load_input(rt, 1)
    } else {
        load(rt, 1, file)
    }
}

/// Loads the session text for `look` with its notes, from a file, or from standard input for `-`.
pub fn load_looked_noted(rt: &HostRuntime, file: &str) -> Result<(Book, Notes), Fault>
    ensures loaded { IfOk result (λ read. IsReadOf true 1 read.0 read.1) }
    ensures refused { IfErr result (TellsOfSomeText 1) }
{
    if file == "-" {
        load_input_noted(rt, 1)
    } else {
        load_noted(rt, 1, file)
    }
}

/// Loads a session text from standard input into a book with this many clients.
#[tactic(auto, using(crate::proofs::Loading::no_line))]
fn load_input(rt: &HostRuntime, clients: u8) -> Result<Book, Fault>
    ensures loaded { IfOk result (λ book. (text : List ℕ) × IsLoadedOf clients text book) }
    ensures refused { IfErr result (TellsOfSomeText clients) }
{
    let told = Progress::new(rt, "zxtt");
    let text = match read_rest(rt.alloc(), &mut rt.stdin()) {
        Ok(text) => text,
        Err(fault) => return Err(fault),
    };
    book_of(rt.alloc(), clients, input_name(), text.as_slice(), &told)
}

/// Loads a session text and its notes from standard input into a book with this many clients.
#[tactic(auto, using(crate::proofs::Loading::no_line))]
fn load_input_noted(rt: &HostRuntime, clients: u8) -> Result<(Book, Notes), Fault>
    ensures loaded { IfOk result (λ read. IsReadOf true clients read.0 read.1) }
    ensures refused { IfErr result (TellsOfSomeText clients) }
{
    let text = match read_rest(rt.alloc(), &mut rt.stdin()) {
        Ok(text) => text,
        Err(fault) => return Err(fault),
    };
    noted_of(rt, clients, input_name(), text.as_slice())
}

/// How standard input is called where its lines are explained.
fn input_name() -> &'static str {
    "standard input"
}

/// Loads a session text, which was read from `path`, into a book with this many clients, and reads its notes.
fn noted_of(rt: &HostRuntime, clients: u8, path: &str, text: &[u8]) -> Result<(Book, Notes), Fault>
    ensures loaded { IfOk result (λ read. AreOfText clients text.now read.0 read.1) }
    ensures refused { IfErr result (TellsOfSomeText clients) }
    ensures clients { IfOk result (λ read. length read.0.session.clients ≡ clients) }
{
    let told = Progress::new(rt, "zxtt");
    let book = match book_of(rt.alloc(), clients, path, text, &told) {
        Ok(book) => book,
        Err(fault) => return Err(fault),
    };
    match Notes::read(rt.alloc(), text) {
        Ok(notes) => Ok((book, notes)),
        Err(_) => Err(Fault::of_memory()),
    }
}

/// Loads a session text, which was read from `path`, into a book with this many clients. Erases the line of progress at the end.
fn book_of(
    alloc: Global,
    clients: u8,
    path: &str,
    text: &[u8],
    told: &Progress<'_>,
) -> Result<Book, Fault>
    ensures loaded { IfOk result (IsLoadedOf clients text.now) }
    ensures refused { IfErr result (IsFaultOfText clients text.now) }
    ensures clients { IfOk result (λ book. length book.session.clients ≡ clients) }
{
    let loaded = load_text_told(alloc, clients, text, told);
    told.wipe();
    match loaded {
        Ok(book) => Ok(book),
        Err((line, refusal)) => {
            let place = TraceLine::of(alloc, path, text, line);
            Err(Fault::Trace {
                line,
                refusal,
                place,
            })
        }
    }
}

/// Writes the session text of the path to the head of `main`, if a file is named, without notes or with them. `write_whole` says
/// what an existing file has after a failure.
pub fn save(
    rt: &HostRuntime,
    book: &Book,
    notes: Option<&Notes>,
    to: Option<&str>,
) -> Result<(), Fault> {
    let Some(path) = to else {
        return Ok(());
    };
    let text = match notes {
        Some(notes) => main_text_with(rt.alloc(), book, notes)?,
        None => main_text(rt.alloc(), book)?,
    };
    write_whole(rt, path, text.as_slice())
}

/// Writes the session text of the whole tree with these notes, if a file is named. `write_whole` says what an existing file has
/// after a failure.
pub fn save_tree(
    rt: &HostRuntime,
    book: &Book,
    notes: &Notes,
    to: Option<&str>,
) -> Result<(), Fault> {
    let Some(path) = to else {
        return Ok(());
    };
    let text = tree_text_with(rt.alloc(), book, notes)?;
    write_whole(rt, path, text.as_slice())
}
