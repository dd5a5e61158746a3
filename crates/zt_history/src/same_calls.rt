//! Compares calls and replies that often come again, as in a loop of a driver or of a test.

ghost use Rattle.std.specs.Prelude.{◌≡◌, IsTrue};

use zt_rows::{Call, Parcel, Reply};

/// Whether the call is of a kind that often comes again. Calls that close a handle or end something seldom do.
pub(crate) fn may_come_again(call: &Call) -> bool {
    matches!(
        call,
        Call::ChannelRead { .. }
            | Call::ChannelWrite { .. }
            | Call::ObjectSignal { .. }
            | Call::ObjectSignalPeer { .. }
            | Call::ObjectWaitAsync { .. }
            | Call::PortQueue { .. }
            | Call::PortWait { .. }
            | Call::HandleDuplicate { .. }
            | Call::Spawn { .. }
    )
}

/// Whether the calls surely are equal. Compares only kinds of calls that often come again.
pub(crate) fn is_same_call(a: &Call, b: &Call) -> bool
    ensures { IsTrue result → a.now ≡ b.now }
{
    match a {
        Call::ChannelRead { .. } => is_same_read(a, b),
        Call::ChannelWrite { .. } => is_same_write(a, b),
        Call::ObjectSignal { .. } | Call::ObjectSignalPeer { .. } => is_same_signal(a, b),
        Call::ObjectWaitAsync { .. } => is_same_wait(a, b),
        Call::PortQueue { .. } | Call::PortWait { .. } => is_same_port_call(a, b),
        Call::HandleDuplicate { .. } | Call::Spawn { .. } => is_same_making(a, b),
        _ => false,
    }
}

/// Whether both calls are `channel_read` with equal arguments.
fn is_same_read(a: &Call, b: &Call) -> bool
    ensures { IsTrue result → a.now ≡ b.now }
{
    match (a, b) {
        (
            Call::ChannelRead {
                handle,
                bytes,
                handles,
                discard,
            },
            Call::ChannelRead {
                handle: other,
                bytes: other_bytes,
                handles: other_handles,
                discard: other_discard,
            },
        ) => {
            handle == other
                && bytes == other_bytes
                && handles == other_handles
                && discard == other_discard
        }
        _ => false,
    }
}

/// Whether both calls are `channel_write` with equal arguments.
fn is_same_write(a: &Call, b: &Call) -> bool
    ensures { IsTrue result → a.now ≡ b.now }
{
    match (a, b) {
        (
            Call::ChannelWrite { handle, parcel },
            Call::ChannelWrite {
                handle: other,
                parcel: other_parcel,
            },
        ) => handle == other && is_same_parcel(parcel, other_parcel),
        _ => false,
    }
}

/// Whether the parcels are equal.
fn is_same_parcel(a: &Parcel, b: &Parcel) -> bool
    ensures { IsTrue result → a.now ≡ b.now }
{
    a.bytes() == b.bytes() && a.handles() == b.handles()
}

/// Whether both calls are `object_signal`, or both `object_signal_peer`, with equal arguments.
fn is_same_signal(a: &Call, b: &Call) -> bool
    ensures { IsTrue result → a.now ≡ b.now }
{
    match (a, b) {
        (
            Call::ObjectSignal { handle, clear, set },
            Call::ObjectSignal {
                handle: other,
                clear: other_clear,
                set: other_set,
            },
        ) => handle == other && clear == other_clear && set == other_set,
        (
            Call::ObjectSignalPeer { handle, clear, set },
            Call::ObjectSignalPeer {
                handle: other,
                clear: other_clear,
                set: other_set,
            },
        ) => handle == other && clear == other_clear && set == other_set,
        _ => false,
    }
}

/// Whether both calls are `object_wait_async` with equal arguments.
fn is_same_wait(a: &Call, b: &Call) -> bool
    ensures { IsTrue result → a.now ≡ b.now }
{
    match (a, b) {
        (
            Call::ObjectWaitAsync {
                handle,
                port,
                key,
                signals,
                edge,
            },
            Call::ObjectWaitAsync {
                handle: other,
                port: other_port,
                key: other_key,
                signals: other_signals,
                edge: other_edge,
            },
        ) => {
            handle == other
                && port == other_port
                && key == other_key
                && signals == other_signals
                && edge == other_edge
        }
        _ => false,
    }
}

/// Whether both calls are `port_wait`, or both `port_queue`, with equal arguments.
fn is_same_port_call(a: &Call, b: &Call) -> bool
    ensures { IsTrue result → a.now ≡ b.now }
{
    match (a, b) {
        (Call::PortWait { port }, Call::PortWait { port: other }) => port == other,
        (
            Call::PortQueue { port, key, bytes },
            Call::PortQueue {
                port: other,
                key: other_key,
                bytes: other_bytes,
            },
        ) => port == other && key == other_key && bytes == other_bytes,
        _ => false,
    }
}

/// Whether both calls are `handle_duplicate`, or both `spawn`, with equal arguments.
fn is_same_making(a: &Call, b: &Call) -> bool
    ensures { IsTrue result → a.now ≡ b.now }
{
    match (a, b) {
        (
            Call::HandleDuplicate { handle, rights },
            Call::HandleDuplicate {
                handle: other,
                rights: other_rights,
            },
        ) => handle == other && rights == other_rights,
        (
            Call::Spawn { job, argument },
            Call::Spawn {
                job: other,
                argument: other_argument,
            },
        ) => job == other && argument == other_argument,
        _ => false,
    }
}

/// Whether the replies surely are equal. Replies with a new handle are not compared, since a process is given each
/// handle value once.
pub(crate) fn is_same_reply(a: &Reply, b: &Reply) -> bool
    ensures { IsTrue result → a.now ≡ b.now }
{
    match (a, b) {
        (Reply::Packet(packet), Reply::Packet(other)) => packet == other,
        (Reply::Message(bytes, handles), Reply::Message(other_bytes, other_handles)) => {
            bytes == other_bytes && handles == other_handles
        }
        (Reply::TooSmall(bytes, handles), Reply::TooSmall(other_bytes, other_handles)) => {
            bytes == other_bytes && handles == other_handles
        }
        _ => false,
    }
}
