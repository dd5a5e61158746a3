//! The lines of the answers. Each function gives the text of one answer's line or lines. Rights and signals are shown
//! by their names if names are asked for.

ghost use Rattle.std.specs.Prelude.{◌≡◌, ◌++◌, ◌∷◌, [], IfOk, OnOk, string_bytes};
ghost use Rattle.std.specs.Option.{option_map};
ghost use Rattle.std.specs.Fmt.{decimal};
ghost use Rattle.std.specs.List.{flat_map};
ghost use Rattle.zt_text.specs.ShownNumbers.{words};
ghost use Rattle.zt_look.specs.ProofsOnly.SpacedWords.{behind_spaces};
ghost use Rattle.zt_look.specs.Lines.{alive_line, call_made_line, marked_line, change_lines, handle_line, event_line, when_line, content_line, written_line, end_line, message_lines, branch_line, line_in, object_line, holder_lines, object_lines, call_count_line, fate_line, happening_word, end_word, fate_word, when_words, call_words, leaves_words};

mod calls;
mod lives;
mod names;
mod rows;

use crate::alive_list::AliveObject;
use crate::call_counts::CallCount;
use crate::call_list::CallMade;
use crate::changes::Change;
use crate::event_list::ObjectEvent;
use crate::fates::{Fate, ObjectFate};
use crate::handle_list::Handle;
use crate::message_list::{MessageEnd, QueuedMessage};
use crate::object_look::ObjectLook;
use crate::signaled::kind_of_row;
use calls::{put_call, put_reply};
pub use lives::{print_life_end, print_life_step, print_lineage_step, print_whereabouts};
pub use names::Naming;
use names::put_rights;
use rows::{put_content, put_row};
use std::alloc::{AllocError, Global};
use zt_rows::{Call, Happening, Koid, Message, Moment, ObjectRow, Row, RowKey, Support};
use zt_store::Store;
use zt_text::put_supports;

/// A line is begun with room for so many bytes. Few lines are longer, so that most need one allocation.
const LINE_ROOM: usize = 160;

/// A text without bytes, with room for a line.
fn new_line(alloc: Global) -> Result<String, AllocError>
    ensures { IfOk result (λ text. string_bytes text ≡ []) }
{
    String::with_capacity(alloc, LINE_ROOM)
}

/// The line of a call of a path: its moment, the call, and its reply.
pub fn print_call_made(
    alloc: Global,
    made: &CallMade,
    naming: Naming,
) -> Result<Vec<u8>, AllocError>
    ensures { IfOk result (λ text. text.items ≡ call_made_line naming made.now) }
{
    let mut text = new_line(alloc)?;
    write!(text, "{} ", made.moment.0)?;
    put_call(&mut text, made.process, &made.call, naming)?;
    text.push_str(" => ")?;
    put_reply(&mut text, &made.reply, naming)?;
    text.push_str("\n")?;
    Ok(text.into_bytes())
}

/// The lines of a row that a call changed: as it was behind `-`, and as it is behind `+`.
pub fn print_change(alloc: Global, change: &Change, naming: Naming) -> Result<Vec<u8>, AllocError>
    ensures { IfOk result (λ text. text.items ≡ change_lines naming change.now) }
{
    let mut text = new_line(alloc)?;
    put_marked(&mut text, "- ", change.key, &change.before, naming)?;
    put_marked(&mut text, "+ ", change.key, &change.after, naming)?;
    Ok(text.into_bytes())
}

/// Appends a row behind a mark, if there is a row.
fn put_marked(
    text: &mut String,
    mark: &str,
    key: RowKey,
    row: &Option<Row>,
    naming: Naming,
) -> Result<(), AllocError>
    ensures { OnOk result (string_bytes text.new ≡ string_bytes text.old ++ marked_line naming mark.now key row.now) }
{
    match row {
        None => Ok(()),
        Some(row) => {
            text.push_str(mark)?;
            put_row(text, key, row, naming)
        }
    }
}

/// The line of a handle of a process: its value, its object with the kind, and its rights.
pub fn print_handle(alloc: Global, handle: &Handle, names: bool) -> Result<Vec<u8>, AllocError>
    ensures { IfOk result (λ text. text.items ≡ handle_line names handle.now) }
{
    let mut text = new_line(alloc)?;
    write!(
        text,
        "{} {} {} ",
        handle.value.0,
        handle.koid.0,
        handle.kind.word()
    )?;
    put_rights(&mut text, handle.rights.0, names)?;
    text.push_str("\n")?;
    Ok(text.into_bytes())
}

/// The line of an event: its moment, what happened, the object with its kind, and the call of the moment.
pub fn print_event(
    alloc: Global,
    event: &ObjectEvent,
    process: Koid,
    call: &Call,
    names: bool,
) -> Result<Vec<u8>, AllocError>
    ensures { IfOk result (λ text. text.items ≡ event_line names event.now process call.now) }
{
    let mut text = new_line(alloc)?;
    write!(
        text,
        "{} {} {} {} ",
        event.moment.0,
        happening_word(event.what),
        event.koid.0,
        event.kind.word()
    )?;
    put_call(&mut text, process, call, Naming::of_any(names))?;
    text.push_str("\n")?;
    Ok(text.into_bytes())
}

/// The line of an object that is alive at the end of a path: the object with its kind, how many supports it has, and
/// the moment with the call that made it.
pub fn print_alive(
    alloc: Global,
    object: &AliveObject,
    process: Koid,
    call: &Call,
    names: bool,
) -> Result<Vec<u8>, AllocError>
    ensures { IfOk result (λ text. text.items ≡ alive_line names object.now process call.now) }
{
    let mut text = new_line(alloc)?;
    write!(
        text,
        "{} {} {} {} ",
        object.koid.0,
        object.kind.word(),
        object.holders,
        object.made.0
    )?;
    put_call(&mut text, process, call, Naming::of_any(names))?;
    text.push_str("\n")?;
    Ok(text.into_bytes())
}

/// The word of a happening.
fn happening_word(what: Happening) -> &'static str
    ensures { result.now ≡ happening_word what }
{
    match what {
        Happening::Made => "made",
        Happening::Ended => "ended",
        Happening::PeerClosed => "peer_closed",
        Happening::Leaked => "leaked",
    }
}

/// The line that tells when something happened to an object, with the call of the moment, or that it never did.
pub fn print_when(
    alloc: Global,
    what: Happening,
    found: &Option<(Moment, Koid, &Call)>,
    names: bool,
) -> Result<Vec<u8>, AllocError>
    ensures { IfOk result (λ text. text.items ≡ when_line names what (option_map (λ e. (e.0, e.1, e.2.now)) found.now)) }
{
    let mut text = new_line(alloc)?;
    text.push_str(happening_word(what))?;
    put_found(&mut text, found, names)?;
    text.push_str("\n")?;
    Ok(text.into_bytes())
}

/// Appends a moment with its call behind a space, or that there is none.
fn put_found(
    text: &mut String,
    found: &Option<(Moment, Koid, &Call)>,
    names: bool,
) -> Result<(), AllocError>
    ensures { OnOk result (string_bytes text.new ≡ string_bytes text.old
        ++ (32 ∷ words (when_words names (option_map (λ e. (e.0, e.1, e.2.now)) found.now)))) }
{
    match found {
        None => text.push_str(" never"),
        Some((moment, process, call)) => {
            write!(text, " {} ", moment.0)?;
            put_call(text, *process, call, Naming::of_any(names))
        }
    }
}

/// The lines of a message that was queued: its content, the call that wrote it, and what became of it. The last line
/// also has the call that ended it, if `ended` has it.
pub fn print_queued_message(
    alloc: Global,
    queued: &QueuedMessage,
    process: Koid,
    written: &Call,
    ended: &Option<(Koid, &Call)>,
    names: bool,
) -> Result<Vec<u8>, AllocError>
    ensures { IfOk result (λ text. text.items
        ≡ message_lines names queued.now (process, written.now) (option_map (λ e. (e.0, e.1.now)) ended.now)) }
{
    let mut text = new_line(alloc)?;
    put_message(&mut text, queued.number, &queued.message, names)?;
    put_written(&mut text, queued, process, written, names)?;
    put_end(&mut text, queued, ended, names)?;
    Ok(text.into_bytes())
}

/// Appends the line of the content of a message.
fn put_message(
    text: &mut String,
    number: u64,
    message: &Message,
    names: bool,
) -> Result<(), AllocError>
    ensures { OnOk result (string_bytes text.new ≡ string_bytes text.old ++ content_line names number message.now) }
{
    write!(text, "{number} message ")?;
    put_content(text, message, names)?;
    text.push_str("\n")
}

/// Appends the line of the call that wrote a message.
fn put_written(
    text: &mut String,
    queued: &QueuedMessage,
    process: Koid,
    call: &Call,
    names: bool,
) -> Result<(), AllocError>
    ensures { OnOk result (string_bytes text.new ≡ string_bytes text.old
        ++ written_line names queued.now.number queued.now.written (process, call.now)) }
{
    write!(text, "{} written {} ", queued.number, queued.written.0)?;
    put_call(text, process, call, Naming::of_any(names))?;
    text.push_str("\n")
}

/// Appends the line that tells what became of a message.
fn put_end(
    text: &mut String,
    queued: &QueuedMessage,
    by: &Option<(Koid, &Call)>,
    names: bool,
) -> Result<(), AllocError>
    ensures { OnOk result (string_bytes text.new ≡ string_bytes text.old
        ++ end_line names queued.now.number queued.now.ended (option_map (λ e. (e.0, e.1.now)) by.now)) }
{
    match queued.ended {
        None => writeln!(text, "{} waits", queued.number),
        Some((moment, end)) => {
            write!(text, "{} {} {}", queued.number, end_word(end), moment.0)?;
            put_by(text, by, names)?;
            text.push_str("\n")
        }
    }
}

/// Appends a call behind a space, if there is one.
pub(crate) fn put_by(
    text: &mut String,
    by: &Option<(Koid, &Call)>,
    names: bool,
) -> Result<(), AllocError>
    ensures { OnOk result (string_bytes text.new ≡ string_bytes text.old ++ behind_spaces (call_words names (option_map (λ e. (e.0, e.1.now)) by.now))) }
{
    match by {
        None => Ok(()),
        Some((process, call)) => {
            text.push_str(" ")?;
            put_call(text, *process, call, Naming::of_any(names))
        }
    }
}

/// The word of what became of a message.
fn end_word(end: MessageEnd) -> &'static str
    ensures { result.now ≡ end_word end }
{
    match end {
        MessageEnd::Read => "read",
        MessageEnd::Discarded => "discarded",
        MessageEnd::Lost => "lost",
    }
}

/// The line of a branch: its name and its head, and which branch it leaves at which moment. The names may be of any
/// bytes.
pub fn print_branch(
    alloc: Global,
    name: &[u8],
    head: Moment,
    leaves: &Option<(&[u8], Moment)>,
) -> Result<Vec<u8>, AllocError>
    ensures { IfOk result (λ text. text.items ≡ branch_line name.now head (option_map (λ e. (e.0.now, e.1)) leaves.now)) }
{
    let mut text = Vec::from_slice(alloc, b"branch ")?;
    text.extend_from_slice(name)?;
    push_moment(&mut text, head)?;
    push_fork(&mut text, leaves)?;
    text.push(b'\n')?;
    Ok(text)
}

/// If a branch leaves another one, appends which one and at which moment, behind a space.
fn push_fork(text: &mut Vec<u8>, leaves: &Option<(&[u8], Moment)>) -> Result<(), AllocError>
    ensures { OnOk result (text.new.items ≡ text.old.items ++ behind_spaces (leaves_words (option_map (λ e. (e.0.now, e.1)) leaves.now))) }
{
    match leaves {
        None => Ok(()),
        Some((name, moment)) => {
            text.extend_from_slice(b" leaves ")?;
            text.extend_from_slice(name)?;
            push_moment(text, *moment)
        }
    }
}

/// Appends a moment behind a space.
fn push_moment(text: &mut Vec<u8>, moment: Moment) -> Result<(), AllocError>
    ensures { OnOk result (text.new.items ≡ text.old.items ++ (32 ∷ decimal moment)) }
{
    let mut number = String::new(*text.allocator());
    write!(number, " {}", moment.0)?;
    text.extend_from_slice(number.as_bytes())
}

/// The lines of an object: its row, what keeps it, and the rows of its messages, packets and waits. The store tells the
/// kinds of the objects whose signals the packets and waits have.
pub fn print_object(
    alloc: Global,
    object: &ObjectLook,
    names: bool,
    store: &Store,
) -> Result<Vec<u8>, AllocError>
    ensures { IfOk result (λ text. text.items ≡ object_lines names store.now.state object.now) }
{
    let mut text = new_line(alloc)?;
    put_object_line(&mut text, object.koid, object.row, names)?;
    put_holders(
        &mut text,
        object.koid,
        object.row,
        object.holders.as_slice(),
    )?;
    put_rows(&mut text, object.messages.as_slice(), names, store)?;
    put_rows(&mut text, object.packets.as_slice(), names, store)?;
    put_rows(&mut text, object.waits.as_slice(), names, store)?;
    Ok(text.into_bytes())
}

/// Appends the row of an object, or that it is gone.
fn put_object_line(
    text: &mut String,
    koid: Koid,
    row: Option<ObjectRow>,
    names: bool,
) -> Result<(), AllocError>
    ensures { OnOk result (string_bytes text.new ≡ string_bytes text.old ++ object_line names koid row) }
{
    match row {
        None => writeln!(text, "object {} gone", koid.0),
        Some(object) => {
            let row = Row::Object(object);
            put_row(text, RowKey::Object(koid), &row, Naming::of_any(names))
        }
    }
}

/// Appends the lines of what keeps an object, if it has a row.
fn put_holders(
    text: &mut String,
    koid: Koid,
    row: Option<ObjectRow>,
    holders: &[Support],
) -> Result<(), AllocError>
    ensures { OnOk result (string_bytes text.new ≡ string_bytes text.old ++ holder_lines koid row holders.now) }
{
    match row {
        None => Ok(()),
        Some(_) => {
            writeln!(text, "holders {} {}", koid.0, holders.len())?;
            put_supports(text, holders)
        }
    }
}

/// Appends a line for each row.
fn put_rows(
    text: &mut String,
    rows: &[(RowKey, Row)],
    names: bool,
    store: &Store,
) -> Result<(), AllocError>
    ensures { OnOk result (string_bytes text.new ≡ string_bytes text.old ++ flat_map (line_in names store.now.state) rows.now) }
{
    for (key, row) in rows {
        let kind = kind_of_row(store, row);
        put_row(text, *key, row, Naming { names, kind })?;
    }
    Ok(())
}

/// The line of a call count: the process, the status, and how often its calls were answered so.
pub fn print_call_count(alloc: Global, count: &CallCount) -> Result<Vec<u8>, AllocError>
    ensures { IfOk result (λ text. text.items ≡ call_count_line count.now) }
{
    let mut text = new_line(alloc)?;
    writeln!(
        text,
        "calls {} {} {}",
        count.process.0,
        count.status.word(),
        count.count
    )?;
    Ok(text.into_bytes())
}

/// The line of an object's fate: the fate, the object with its kind, and the moment since which it holds.
pub fn print_fate(alloc: Global, object: &ObjectFate) -> Result<Vec<u8>, AllocError>
    ensures { IfOk result (λ text. text.items ≡ fate_line object.now) }
{
    let mut text = new_line(alloc)?;
    writeln!(
        text,
        "{} {} {} {}",
        fate_word(object.fate),
        object.koid.0,
        object.kind.word(),
        object.since.0
    )?;
    Ok(text.into_bytes())
}

/// The word of a fate.
fn fate_word(fate: Fate) -> &'static str
    ensures { result.now ≡ fate_word fate }
{
    match fate {
        Fate::Alive => "alive",
        Fate::Leaked => "leaked",
        Fate::Dead => "dead",
    }
}
