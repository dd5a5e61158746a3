//! The lines of rows, with rights and signals by their names if names are asked for.

ghost use Rattle.std.specs.Prelude.{◌≡◌, ◌++◌, ◌∷◌, [], OnOk, string_bytes};
ghost use Rattle.zt_text.specs.ShownNumbers.{words, shown_bytes, shown_list};
ghost use Rattle.zt_look.specs.NamedTexts.{held_text, object_text, packet_text, queued_text, wait_text, row_text, line_of_row};

use crate::lines::names::{Naming, put_rights, put_signals};
use std::alloc::AllocError;
use zt_rows::{Held, Message, ObjectRow, Packet, Row, RowKey, Wait};
use zt_text::{put_bytes, put_critical, put_key, put_life};

/// Appends the line of a row.
pub(crate) fn put_row(
    text: &mut String,
    key: RowKey,
    row: &Row,
    naming: Naming,
) -> Result<(), AllocError>
    ensures { OnOk result (string_bytes text.new ≡ string_bytes text.old ++ line_of_row naming (key, row.now)) }
{
    put_key(text, key)?;
    text.push_str(" ")?;
    put_value(text, row, naming)?;
    text.push_str("\n")
}

/// Appends the row without its key.
#[tactic(auto, unfolding(crate::specs::NamedTexts::row_text))]
fn put_value(text: &mut String, row: &Row, naming: Naming) -> Result<(), AllocError>
    ensures { OnOk result (string_bytes text.new ≡ string_bytes text.old ++ row_text naming row.now) }
{
    match row {
        Row::Counters(counters) => write!(text, "{} {}", counters.next_koid.0, counters.next_wait),
        Row::Object(object) => put_object(text, object, naming.names),
        Row::Entry(held) => {
            write!(text, "{} ", held.koid.0)?;
            put_rights(text, held.rights.0, naming.names)
        }
        Row::Msg(message) => put_content(text, message, naming.names),
        Row::Packet(packet) => put_queued(text, packet, naming),
        Row::Wait(wait) => put_wait(text, wait, naming),
    }
}

#[tactic(auto, unfolding(crate::specs::NamedTexts::object_text))]
fn put_object(text: &mut String, object: &ObjectRow, names: bool) -> Result<(), AllocError>
    ensures { OnOk result (string_bytes text.new ≡ string_bytes text.old ++ object_text names object.now) }
{
    write!(text, "{} ", object.kind.word())?;
    let naming = Naming {
        names,
        kind: Some(object.kind),
    };
    put_signals(text, object.signals, naming)?;
    write!(text, " {} ", object.link.0)?;
    put_life(text, object.life)?;
    write!(text, " {}", object.next)?;
    put_critical(text, object.critical)
}

/// Appends the content of a message.
pub(crate) fn put_content(
    text: &mut String,
    message: &Message,
    names: bool,
) -> Result<(), AllocError>
    ensures { OnOk result (string_bytes text.new ≡ string_bytes text.old
        ++ words (shown_bytes message.now.bytes ∷ shown_list (held_text names) message.now.handles ∷ [])) }
{
    put_bytes(text, message.bytes().as_slice())?;
    text.push_str(" ")?;
    put_handles_held(text, message.handles().as_slice(), names)
}

/// Appends the held objects of handles, with a comma between them, or `-` if there are none.
fn put_handles_held(text: &mut String, handles: &[Held], names: bool) -> Result<(), AllocError>
    ensures { OnOk result (string_bytes text.new ≡ string_bytes text.old ++ shown_list (held_text names) handles.now) }
{
    let [first, others @ ..] = handles else {
        return text.push_str("-");
    };
    put_held(text, *first, names)?;
    for held in others {
        text.push_str(",")?;
        put_held(text, *held, names)?;
    }
    Ok(())
}

/// Appends an object's koid and the rights to it.
fn put_held(text: &mut String, held: Held, names: bool) -> Result<(), AllocError>
    ensures { OnOk result (string_bytes text.new ≡ string_bytes text.old ++ held_text names held) }
{
    write!(text, "{}:", held.koid.0)?;
    put_rights(text, held.rights.0, names)
}

/// Appends a packet as the reader of its port gets it.
#[tactic(auto, unfolding(crate::specs::NamedTexts::packet_text))]
pub(crate) fn put_packet(
    text: &mut String,
    packet: &Packet,
    naming: Naming,
) -> Result<(), AllocError>
    ensures { OnOk result (string_bytes text.new ≡ string_bytes text.old ++ packet_text naming packet.now) }
{
    match packet {
        Packet::User { key, bytes } => {
            write!(text, "user {key} ")?;
            put_bytes(text, bytes)
        }
        Packet::Signal {
            key,
            trigger,
            observed,
            process: _,
            handle: _,
        } => {
            write!(text, "signal {key} ")?;
            put_signals(text, *trigger, naming)?;
            text.push_str(" ")?;
            put_signals(text, *observed, naming)
        }
    }
}

/// Appends a packet that waits in its port. Behind the part that its reader will get, it has the process and the handle
/// that was waited on.
#[tactic(auto, unfolding(crate::specs::NamedTexts::queued_text))]
fn put_queued(text: &mut String, packet: &Packet, naming: Naming) -> Result<(), AllocError>
    ensures { OnOk result (string_bytes text.new ≡ string_bytes text.old ++ queued_text naming packet.now) }
{
    put_packet(text, packet, naming)?;
    match packet {
        Packet::User { key: _, bytes: _ } => Ok(()),
        Packet::Signal {
            key: _,
            trigger: _,
            observed: _,
            process,
            handle,
        } => write!(text, " {} {}", process.0, handle.0),
    }
}

#[tactic(auto, unfolding(crate::specs::NamedTexts::wait_text))]
fn put_wait(text: &mut String, wait: &Wait, naming: Naming) -> Result<(), AllocError>
    ensures { OnOk result (string_bytes text.new ≡ string_bytes text.old ++ wait_text naming wait.now) }
{
    write!(
        text,
        "{} {} {} {} ",
        wait.process.0, wait.handle.0, wait.port.0, wait.key
    )?;
    put_signals(text, wait.signals, naming)?;
    if wait.edge {
        text.push_str(" edge")
    } else {
        Ok(())
    }
}
