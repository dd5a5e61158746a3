//! Prints replies, refusals, and the keys and rows of a state.

ghost use Rattle.std.specs.Prelude.{◌≡◌, ◌++◌, IfOk, OnOk, string_bytes};
ghost use Rattle.std.specs.Fmt.{decimal};
ghost use Rattle.std.specs.List.{flat_map};
ghost use Rattle.zt_text.specs.ShownNumbers.{shown_mask, shown_bytes, shown_list, shown_held};
ghost use Rattle.zt_text.specs.Answers.{shown_packet, shown_reply, shown_key, shown_life, shown_critical, shown_object, shown_wait, shown_queued, shown_row, row_line, shown_column, shown_refusal};

use crate::printed_words::{put_one, put_two};
use std::alloc::{AllocError, Global};
use std::fmt;
use std::fmt::{Display, Formatter, Write};
use zt_rows::{
    HandleValue, Held, Koid, Life, ObjectRow, Packet, Refusal, Reply, Row, RowKey, Wait,
};

/// Prints the status and the values of a reply, without a line feed.
pub fn print_reply(alloc: Global, reply: &Reply) -> Result<Vec<u8>, AllocError>
    ensures { IfOk result (λ text. text.items ≡ shown_reply reply.now) }
{
    let mut text = String::new(alloc);
    put_reply(&mut text, reply)?;
    Ok(text.into_bytes())
}

/// Prints a line for each row.
pub fn print_rows(alloc: Global, rows: &[(RowKey, Row)]) -> Result<Vec<u8>, AllocError>
    ensures { IfOk result (λ text. text.items ≡ flat_map row_line rows.now) }
{
    let mut text = String::new(alloc);
    put_rows(&mut text, rows)?;
    Ok(text.into_bytes())
}

/// Prints the line of a refusal.
#[tactic(auto, unfolding(crate::specs::Answers::shown_refusal))]
pub fn print_refusal(alloc: Global, refusal: Refusal) -> Result<Vec<u8>, AllocError>
    ensures { IfOk result (λ text. text.items ≡ shown_refusal refusal) }
{
    let mut text = String::new(alloc);
    write!(text, "refused {} {}", refusal.number(), refusal.name())?;
    put_column(&mut text, refusal)?;
    text.push_str("\n")?;
    Ok(text.into_bytes())
}

/// Displays a refusal as its line, without a line feed, for use in other messages.
#[derive(Clone, Copy, Debug)]
pub struct RefusalLine(pub Refusal);

impl Display for RefusalLine {
    ghost use Rattle.std.specs.Prelude.{Some};
    ghost use Rattle.zt_text.specs.Answers.{refusal_words};

    ghost output = { λ shown. Some (refusal_words shown.0) };

    fn fmt<W: Write>(&self, f: &mut Formatter<W>) -> fmt::Result {
        let refusal = self.0;
        write!(f, "refused {} {}", refusal.number(), refusal.name())?;
        match refusal {
            Refusal::BadLine(column) => write!(f, " {column}"),
            _ => Ok(()),
        }
    }
}

/// Appends the column of a `BadLine`.
fn put_column(text: &mut String, refusal: Refusal) -> Result<(), AllocError>
    ensures { OnOk result (string_bytes text.new ≡ string_bytes text.old ++ shown_column refusal) }
{
    match refusal {
        Refusal::BadLine(column) => write!(text, " {column}"),
        _ => Ok(()),
    }
}

/// Appends the status and the values of a reply.
#[tactic(auto, unfolding(crate::specs::Answers::shown_reply))]
pub fn put_reply(text: &mut String, reply: &Reply) -> Result<(), AllocError>
    ensures { OnOk result (string_bytes text.new ≡ string_bytes text.old ++ shown_reply reply.now) }
{
    match reply {
        Reply::Status(status) => text.push_str(status.word()),
        Reply::Handle(handle) => put_one(text, "ok", u64::from(handle.0)),
        Reply::Handles(first, second) => {
            put_two(text, "ok", u64::from(first.0), u64::from(second.0))
        }
        Reply::Spawned(handle, koid) => put_two(text, "ok", u64::from(handle.0), koid.0),
        Reply::Message(bytes, handles) => {
            text.push_str("ok ")?;
            put_bytes(text, bytes.as_slice())?;
            text.push_str(" ")?;
            put_handles(text, handles.as_slice())
        }
        Reply::TooSmall(bytes, handles) => {
            put_two(
                text,
                "buffer_too_small",
                u64::from(*bytes),
                u64::from(*handles),
            )
        }
        Reply::Packet(packet) => {
            text.push_str("ok ")?;
            put_packet(text, packet)
        }
    }
}

/// Appends a packet as the reader of its port gets it.
#[tactic(auto, unfolding(crate::specs::Answers::shown_packet))]
fn put_packet(text: &mut String, packet: &Packet) -> Result<(), AllocError>
    ensures { OnOk result (string_bytes text.new ≡ string_bytes text.old ++ shown_packet packet.now) }
{
    match packet {
        Packet::User { key, bytes } => {
            write!(text, "user {key} ")?;
            put_bytes(text, bytes)
        }
        Packet::Signal {
            key,
            trigger,
            observed,
            process: _,
            handle: _,
        } => {
            write!(text, "signal {key} ")?;
            put_mask(text, trigger.0)?;
            text.push_str(" ")?;
            put_mask(text, observed.0)
        }
    }
}

/// Appends a mask: `0x` and eight digits.
pub fn put_mask(text: &mut String, bits: u32) -> Result<(), AllocError>
    ensures { OnOk result (string_bytes text.new ≡ string_bytes text.old ++ shown_mask bits) }
{
    write!(text, "0x{bits:08x}")
}

/// Appends two digits for each byte, or `-` for none.
pub fn put_bytes(text: &mut String, bytes: &[u8]) -> Result<(), AllocError>
    ensures { OnOk result (string_bytes text.new ≡ string_bytes text.old ++ shown_bytes bytes.now) }
{
    if bytes.is_empty() {
        return text.push_str("-");
    }
    let digits = hex::encode(*text.allocator(), bytes)?;
    text.push_str(digits.as_str())
}

/// Appends the values with commas between, or `-` for none.
pub fn put_handles(text: &mut String, handles: &[HandleValue]) -> Result<(), AllocError>
    ensures { OnOk result (string_bytes text.new ≡ string_bytes text.old ++ shown_list decimal handles.now) }
{
    let [first, others @ ..] = handles else {
        return text.push_str("-");
    };
    write!(text, "{}", first.0)?;
    for handle in others {
        write!(text, ",{}", handle.0)?;
    }
    Ok(())
}

/// Appends held handles with commas between, or `-` for none.
fn put_handles_held(text: &mut String, handles: &[Held]) -> Result<(), AllocError>
    ensures { OnOk result (string_bytes text.new ≡ string_bytes text.old ++ shown_list shown_held handles.now) }
{
    let [first, others @ ..] = handles else {
        return text.push_str("-");
    };
    put_held(text, *first)?;
    for held in others {
        text.push_str(",")?;
        put_held(text, *held)?;
    }
    Ok(())
}

/// Appends an object's koid and the rights of a handle to it.
fn put_held(text: &mut String, held: Held) -> Result<(), AllocError>
    ensures { OnOk result (string_bytes text.new ≡ string_bytes text.old ++ shown_held held) }
{
    write!(text, "{}:", held.koid.0)?;
    put_mask(text, held.rights.0)
}

/// Appends a line for each row.
pub fn put_rows(text: &mut String, rows: &[(RowKey, Row)]) -> Result<(), AllocError>
    ensures { OnOk result (string_bytes text.new ≡ string_bytes text.old ++ flat_map row_line rows.now) }
{
    for (key, row) in rows {
        put_key(text, *key)?;
        text.push_str(" ")?;
        put_row(text, row)?;
        text.push_str("\n")?;
    }
    Ok(())
}

/// Appends the word and the numbers of a key.
#[tactic(auto, unfolding(crate::specs::Answers::shown_key))]
pub fn put_key(text: &mut String, key: RowKey) -> Result<(), AllocError>
    ensures { OnOk result (string_bytes text.new ≡ string_bytes text.old ++ shown_key key) }
{
    match key {
        RowKey::Counters => text.push_str("counters"),
        RowKey::Object(koid) => put_one(text, "object", koid.0),
        RowKey::Entry(process, handle) => put_two(text, "entry", process.0, u64::from(handle.0)),
        RowKey::Msg(endpoint, number) => put_two(text, "msg", endpoint.0, number),
        RowKey::Packet(port, number) => put_two(text, "packet", port.0, number),
        RowKey::Wait(number) => put_one(text, "wait", number),
    }
}

/// Appends a row, without its key.
#[tactic(auto, unfolding(crate::specs::Answers::shown_row))]
fn put_row(text: &mut String, row: &Row) -> Result<(), AllocError>
    ensures { OnOk result (string_bytes text.new ≡ string_bytes text.old ++ shown_row row.now) }
{
    match row {
        Row::Counters(counters) => write!(text, "{} {}", counters.next_koid.0, counters.next_wait),
        Row::Object(object) => put_object(text, object),
        Row::Entry(held) => {
            write!(text, "{} ", held.koid.0)?;
            put_mask(text, held.rights.0)
        }
        Row::Msg(message) => {
            put_bytes(text, message.bytes().as_slice())?;
            text.push_str(" ")?;
            put_handles_held(text, message.handles().as_slice())
        }
        Row::Packet(packet) => put_queued(text, packet),
        Row::Wait(wait) => put_wait(text, wait),
    }
}

#[tactic(auto, unfolding(crate::specs::Answers::shown_object))]
fn put_object(text: &mut String, object: &ObjectRow) -> Result<(), AllocError>
    ensures { OnOk result (string_bytes text.new ≡ string_bytes text.old ++ shown_object object.now) }
{
    write!(text, "{} ", object.kind.word())?;
    put_mask(text, object.signals.0)?;
    write!(text, " {} ", object.link.0)?;
    put_life(text, object.life)?;
    write!(text, " {}", object.next)?;
    put_critical(text, object.critical)
}

/// Appends the job to which a process is critical, if there is one.
pub fn put_critical(text: &mut String, job: Koid) -> Result<(), AllocError>
    ensures { OnOk result (string_bytes text.new ≡ string_bytes text.old ++ shown_critical job) }
{
    if job.0 == 0 {
        Ok(())
    } else {
        write!(text, " critical:{}", job.0)
    }
}

/// Appends whether an object is live, or how it ended.
pub fn put_life(text: &mut String, life: Life) -> Result<(), AllocError>
    ensures { OnOk result (string_bytes text.new ≡ string_bytes text.old ++ shown_life life) }
{
    match life {
        Life::Live => text.push_str("live"),
        Life::Killed => text.push_str("killed"),
        Life::Exited(code) => write!(text, "exit:{code}"),
    }
}

/// Appends a packet in a port: what its reader will get, and for the packet of a wait also the wait's process and handle.
#[tactic(auto, unfolding(crate::specs::Answers::shown_queued))]
fn put_queued(text: &mut String, packet: &Packet) -> Result<(), AllocError>
    ensures { OnOk result (string_bytes text.new ≡ string_bytes text.old ++ shown_queued packet.now) }
{
    put_packet(text, packet)?;
    match packet {
        Packet::User { key: _, bytes: _ } => Ok(()),
        Packet::Signal {
            key: _,
            trigger: _,
            observed: _,
            process,
            handle,
        } => put_two(text, "", process.0, u64::from(handle.0)),
    }
}

#[tactic(auto, unfolding(crate::specs::Answers::shown_wait))]
fn put_wait(text: &mut String, wait: &Wait) -> Result<(), AllocError>
    ensures { OnOk result (string_bytes text.new ≡ string_bytes text.old ++ shown_wait wait.now) }
{
    write!(
        text,
        "{} {} {} {} ",
        wait.process.0, wait.handle.0, wait.port.0, wait.key
    )?;
    put_mask(text, wait.signals.0)?;
    if wait.edge {
        text.push_str(" edge")
    } else {
        Ok(())
    }
}
