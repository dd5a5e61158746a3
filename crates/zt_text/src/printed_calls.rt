//! Prints calls, and the session texts of version 1.

ghost use Rattle.std.specs.Prelude.{◌≡◌, ◌++◌, [], ◌∷◌, IfOk, OnOk, string_bytes, codes};
ghost use Rattle.std.specs.Fmt.{decimal};
ghost use Rattle.std.specs.List.{flat_map};
ghost use Rattle.zt_text.specs.ShownNumbers.{shown_mask, shown_bytes, shown_list};
ghost use Rattle.zt_text.specs.Calls.{call_name, flag_words, call_arguments, shown_call, call_line, session_text};
ghost use Rattle.zt_text.specs.ProofsOnly.Calls.{spaced};

use crate::printed_rows::{put_bytes, put_handles, put_mask};
use crate::printed_words::{put_one, put_three, put_two};
use std::alloc::{AllocError, Global};
use zt_bits::Signals;
use zt_rows::{Call, HandleValue, Koid, Parcel};

/// Prints the line of a process's call, without a line feed.
pub fn print_call(alloc: Global, process: Koid, call: &Call) -> Result<Vec<u8>, AllocError>
    ensures { IfOk result (λ text. text.items ≡ shown_call process call.now) }
{
    let mut text = String::new(alloc);
    put_call(&mut text, process, call)?;
    Ok(text.into_bytes())
}

/// Prints the session text, of version 1, of these calls.
#[tactic(auto, unfolding(crate::specs::Calls::session_text))]
pub fn print_session(alloc: Global, calls: &[(Koid, Call)]) -> Result<Vec<u8>, AllocError>
    ensures { IfOk result (λ text. text.items ≡ session_text calls.now) }
{
    let mut text = String::new(alloc);
    text.push_str("zxtt 1\n")?;
    put_lines(&mut text, calls)?;
    Ok(text.into_bytes())
}

/// Appends a line for each call.
fn put_lines(text: &mut String, calls: &[(Koid, Call)]) -> Result<(), AllocError>
    ensures { OnOk result (string_bytes text.new ≡ string_bytes text.old ++ flat_map call_line calls.now) }
{
    for (process, call) in calls {
        put_call(text, *process, call)?;
        text.push_str("\n")?;
    }
    Ok(())
}

/// Appends the line of a process's call, without a line feed.
pub fn put_call(text: &mut String, process: Koid, call: &Call) -> Result<(), AllocError>
    ensures { OnOk result (string_bytes text.new ≡ string_bytes text.old ++ shown_call process call.now) }
{
    write!(text, "{} ", process.0)?;
    text.push_str(name(call))?;
    put_arguments(text, call)
}

/// Returns the name of a call.
fn name(call: &Call) -> &'static str
    ensures { result.now ≡ call_name call.now }
{
    match call {
        Call::EventCreate => "event_create",
        Call::EventPairCreate => "eventpair_create",
        Call::HandleClose { .. } => "handle_close",
        Call::HandleDuplicate { .. } => "handle_duplicate",
        Call::HandleReplace { .. } => "handle_replace",
        Call::ObjectSignal { .. } => "object_signal",
        Call::ObjectSignalPeer { .. } => "object_signal_peer",
        Call::ChannelCreate => "channel_create",
        Call::ChannelWrite { .. } => "channel_write",
        Call::ChannelRead { .. } => "channel_read",
        Call::PortCreate => "port_create",
        Call::ObjectWaitAsync { .. } => "object_wait_async",
        Call::PortQueue { .. } => "port_queue",
        Call::PortWait { .. } => "port_wait",
        Call::PortCancel { .. } => "port_cancel",
        Call::JobCreate { .. } => "job_create",
        Call::Spawn { .. } => "spawn",
        Call::JobSetCritical { .. } => "job_set_critical",
        Call::TaskKill { .. } => "task_kill",
        Call::ProcessExit { .. } => "process_exit",
    }
}

/// Appends the arguments of a call, each after a space.
fn put_arguments(text: &mut String, call: &Call) -> Result<(), AllocError>
    ensures { OnOk result (string_bytes text.new ≡ string_bytes text.old ++ spaced (call_arguments call.now)) }
{
    match *call {
        Call::EventCreate | Call::EventPairCreate | Call::ChannelCreate | Call::PortCreate => Ok(
            (),
        ),
        Call::HandleClose { handle }
        | Call::TaskKill { handle }
        | Call::PortWait { port: handle }
        | Call::JobCreate { job: handle } => put_one(text, "", u64::from(handle.0)),
        Call::HandleDuplicate { handle, rights } | Call::HandleReplace { handle, rights } => {
            put_rights(text, handle, rights)
        }
        Call::ObjectSignal { handle, clear, set } | Call::ObjectSignalPeer { handle, clear, set } =>
            { put_change(text, handle, clear, set) }
        Call::ChannelWrite { handle, ref parcel } => put_write(text, handle, parcel),
        Call::ChannelRead {
            handle,
            bytes,
            handles,
            discard,
        } => put_read(text, handle, bytes, handles, discard),
        Call::ObjectWaitAsync {
            handle,
            port,
            key,
            signals,
            edge,
        } => put_wait_async(text, handle, port, key, signals, edge),
        Call::PortQueue {
            port,
            key,
            ref bytes,
        } => put_queue(text, port, key, bytes),
        Call::PortCancel { port, source, key } => {
            put_three(text, "", u64::from(port.0), u64::from(source.0), key)
        }
        Call::Spawn {
            job,
            argument: handle,
        }
        | Call::JobSetCritical {
            job,
            process: handle,
        } => put_two(text, "", u64::from(job.0), u64::from(handle.0)),
        Call::ProcessExit { code } => write!(text, " {code}"),
    }
}

/// Appends a handle and a mask of rights.
fn put_rights(text: &mut String, handle: HandleValue, rights: u32) -> Result<(), AllocError>
    ensures { OnOk result (string_bytes text.new ≡ string_bytes text.old ++ spaced (decimal handle ∷ shown_mask rights ∷ [])) }
{
    write!(text, " {} ", handle.0)?;
    put_mask(text, rights)
}

/// Appends a handle, the mask of signals to clear, and the mask of signals to set.
fn put_change(
    text: &mut String,
    handle: HandleValue,
    clear: Signals,
    set: Signals,
) -> Result<(), AllocError>
    ensures { OnOk result (string_bytes text.new ≡ string_bytes text.old
        ++ spaced (decimal handle ∷ shown_mask clear.0 ∷ shown_mask set.0 ∷ [])) }
{
    write!(text, " {} ", handle.0)?;
    put_mask(text, clear.0)?;
    text.push_str(" ")?;
    put_mask(text, set.0)
}

/// Appends a handle, and the bytes and handles to send.
fn put_write(text: &mut String, handle: HandleValue, parcel: &Parcel) -> Result<(), AllocError>
    ensures { OnOk result (string_bytes text.new ≡ string_bytes text.old
        ++ spaced (decimal handle ∷ shown_bytes parcel.now.bytes ∷ shown_list decimal parcel.now.handles ∷ [])) }
{
    write!(text, " {} ", handle.0)?;
    put_bytes(text, parcel.bytes().as_slice())?;
    text.push_str(" ")?;
    put_handles(text, parcel.handles().as_slice())
}

/// Appends a handle, the port of a wait, its key and its signals, and `edge` for a wait on an edge.
fn put_wait_async(
    text: &mut String,
    handle: HandleValue,
    port: HandleValue,
    key: u64,
    signals: Signals,
    edge: bool,
) -> Result<(), AllocError>
    ensures { OnOk result (string_bytes text.new ≡ string_bytes text.old
        ++ spaced (decimal handle ∷ decimal port ∷ decimal key ∷ shown_mask signals.0 ∷ flag_words (codes "edge") edge)) }
{
    write!(text, " {} {} {key} ", handle.0, port.0)?;
    put_mask(text, signals.0)?;
    if edge { text.push_str(" edge") } else { Ok(()) }
}

/// Appends a port, and the key and bytes of a packet.
fn put_queue(
    text: &mut String,
    port: HandleValue,
    key: u64,
    bytes: &[u8; 32],
) -> Result<(), AllocError>
    ensures { OnOk result (string_bytes text.new ≡ string_bytes text.old
        ++ spaced (decimal port ∷ decimal key ∷ shown_bytes bytes.now ∷ [])) }
{
    write!(text, " {} {key} ", port.0)?;
    put_bytes(text, bytes)
}

/// Appends a handle, the room for bytes and for handles, and `discard` for a read that discards.
fn put_read(
    text: &mut String,
    handle: HandleValue,
    bytes: u32,
    handles: u32,
    discard: bool,
) -> Result<(), AllocError>
    ensures { OnOk result (string_bytes text.new ≡ string_bytes text.old
        ++ spaced (decimal handle ∷ decimal bytes ∷ decimal handles ∷ flag_words (codes "discard") discard)) }
{
    put_three(
        text,
        "",
        u64::from(handle.0),
        u64::from(bytes),
        u64::from(handles),
    )?;
    if discard {
        text.push_str(" discard")
    } else {
        Ok(())
    }
}
