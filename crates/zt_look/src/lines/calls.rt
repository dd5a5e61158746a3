//! The texts of calls and replies, with rights and signals by their names if names are asked for.

ghost use Rattle.std.specs.Prelude.{◌≡◌, ◌++◌, ◌∷◌, [], OnOk, string_bytes, codes};
ghost use Rattle.std.specs.Fmt.{decimal};
ghost use Rattle.zt_text.specs.ShownNumbers.{words};
ghost use Rattle.zt_text.specs.Calls.{flag_words};
ghost use Rattle.zt_look.specs.Names.{shown_rights, shown_signals};
ghost use Rattle.zt_look.specs.NamedTexts.{call_text, reply_text};

use crate::lines::names::{Naming, put_rights, put_signals};
use crate::lines::rows::put_packet;
use std::alloc::AllocError;
use zt_bits::Signals;
use zt_rows::{Call, HandleValue, Koid, Reply};

/// Appends a call of a process.
#[tactic(auto, unfolding(crate::specs::NamedTexts::call_text, zt_text::specs::Calls::shown_call))]
pub(crate) fn put_call(
    text: &mut String,
    process: Koid,
    call: &Call,
    naming: Naming,
) -> Result<(), AllocError>
    ensures { OnOk result (string_bytes text.new ≡ string_bytes text.old ++ call_text naming process call.now) }
{
    match *call {
        Call::HandleDuplicate { handle, rights } => {
            put_asked(text, process, "handle_duplicate", handle, rights, naming)
        }
        Call::HandleReplace { handle, rights } => {
            put_asked(text, process, "handle_replace", handle, rights, naming)
        }
        Call::ObjectSignal { handle, clear, set } => {
            put_signaled(text, process, "object_signal", handle, clear, set, naming)
        }
        Call::ObjectSignalPeer { handle, clear, set } => {
            put_signaled(
                text,
                process,
                "object_signal_peer",
                handle,
                clear,
                set,
                naming,
            )
        }
        Call::ObjectWaitAsync {
            handle,
            port,
            key,
            signals,
            edge,
        } => put_wait_async(
            text,
            process,
            "object_wait_async",
            handle,
            port,
            key,
            signals,
            edge,
            naming,
        ),
        _ => zt_text::put_call(text, process, call),
    }
}

/// Appends a call that asks for a handle's rights.
fn put_asked(
    text: &mut String,
    process: Koid,
    name: &str,
    handle: HandleValue,
    rights: u32,
    naming: Naming,
) -> Result<(), AllocError>
    ensures { OnOk result (string_bytes text.new ≡ string_bytes text.old
        ++ words (decimal process ∷ name.now ∷ decimal handle ∷ shown_rights naming.names rights ∷ [])) }
{
    write!(text, "{} {name} {} ", process.0, handle.0)?;
    put_rights(text, rights, naming.names)
}

/// Appends a call that clears signals and sets others.
fn put_signaled(
    text: &mut String,
    process: Koid,
    name: &str,
    handle: HandleValue,
    clear: Signals,
    set: Signals,
    naming: Naming,
) -> Result<(), AllocError>
    ensures { OnOk result (string_bytes text.new ≡ string_bytes text.old
        ++ words (decimal process ∷ name.now ∷ decimal handle ∷ shown_signals naming clear.0 ∷ shown_signals naming set.0 ∷ [])) }
{
    write!(text, "{} {name} {} ", process.0, handle.0)?;
    put_signals(text, clear, naming)?;
    text.push_str(" ")?;
    put_signals(text, set, naming)
}

/// Appends a call that waits for signals on a handle, with a packet of this key to a port.
fn put_wait_async(
    text: &mut String,
    process: Koid,
    name: &str,
    handle: HandleValue,
    port: HandleValue,
    key: u64,
    signals: Signals,
    edge: bool,
    naming: Naming,
) -> Result<(), AllocError>
    ensures { OnOk result (string_bytes text.new ≡ string_bytes text.old
        ++ words (decimal process ∷ name.now ∷ decimal handle ∷ decimal port ∷ decimal key
        ∷ shown_signals naming signals.0 ∷ flag_words (codes "edge") edge)) }
{
    write!(text, "{} {name} {} {} {key} ", process.0, handle.0, port.0)?;
    put_waited(text, signals, edge, naming)
}

/// Appends the signals of a wait, and the word `edge` if it is on an edge.
fn put_waited(
    text: &mut String,
    signals: Signals,
    edge: bool,
    naming: Naming,
) -> Result<(), AllocError>
    ensures { OnOk result (string_bytes text.new ≡ string_bytes text.old
        ++ words (shown_signals naming signals.0 ∷ flag_words (codes "edge") edge)) }
{
    put_signals(text, signals, naming)?;
    if edge { text.push_str(" edge") } else { Ok(()) }
}

/// Appends the status of a reply and its values.
#[tactic(auto, unfolding(crate::specs::NamedTexts::reply_text))]
pub(crate) fn put_reply(text: &mut String, reply: &Reply, naming: Naming) -> Result<(), AllocError>
    ensures { OnOk result (string_bytes text.new ≡ string_bytes text.old ++ reply_text naming reply.now) }
{
    match reply {
        Reply::Packet(packet) => {
            text.push_str("ok ")?;
            put_packet(text, packet, naming)
        }
        _ => zt_text::put_reply(text, reply),
    }
}
