//! Whether the reply of a call agrees with what the log has.

ghost use Rattle.std.specs.Prelude.{◌≡◌, Some};
ghost use Rattle.std.specs.Option.{option_copied};
ghost use Rattle.zt_import.specs.Comparison.{handle_count, logged_packet, is_status, same_packet, bytes_agree, packets_agree, agrees, is_wait, waited, may_be_scheduled};

use zt_bits::Status;
use zt_logs::{LoggedCall, LoggedPacket, RecordedReply};
use zt_rows::{Call, Items, Packet, Reply};

/// How many handles the caller got.
pub fn handle_count(reply: &Reply) -> usize
    ensures { result ≡ handle_count reply.now }
{
    match reply {
        Reply::Handle(_) | Reply::Spawned(_, _) => 1,
        Reply::Handles(_, _) => 2,
        Reply::Message(_, handles) => handles.len(),
        _ => 0,
    }
}

/// Whether a reply agrees with all that the log tells of it. A call that was not made has no reply, and does not agree.
pub fn agrees(recorded: &RecordedReply, reply: Option<&Reply>) -> bool
    ensures { result ≡ agrees recorded.now (option_copied reply.entry) }
{
    match reply {
        Some(reply) => reply_agrees(recorded, reply),
        None => false,
    }
}

/// Whether a reply agrees with all that the log tells of it.
fn reply_agrees(recorded: &RecordedReply, reply: &Reply) -> bool
    ensures { result ≡ agrees recorded.now (Some reply.now) }
{
    is_status(recorded.status, reply.status())
        && recorded.handles.len() == handle_count(reply)
        && bytes_agree(&recorded.bytes, reply)
        && packets_agree(recorded.packet.get(), reply)
}

/// Whether this is the status that the log has.
fn is_status(recorded: Option<Status>, status: Status) -> bool
    ensures { result ≡ is_status recorded status }
{
    match recorded {
        Some(recorded) => recorded.number() == status.number(),
        None => false,
    }
}

/// Whether a reply has the bytes that the log has. It does if the log tells none.
fn bytes_agree(recorded: &Option<Items<u8>>, reply: &Reply) -> bool
    ensures { result ≡ bytes_agree recorded.now reply.now }
{
    match recorded {
        Some(bytes) => match reply {
            Reply::Message(read, _) => *read == *bytes,
            _ => false,
        },
        None => true,
    }
}

/// Whether a reply has the packet that the log has. It does if the log tells none.
fn packets_agree(recorded: Option<LoggedPacket>, reply: &Reply) -> bool
    ensures { result ≡ packets_agree recorded reply.now }
{
    match recorded {
        Some(packet) => match reply {
            Reply::Packet(got) => same_packet(packet, logged_packet(*got)),
            _ => false,
        },
        None => true,
    }
}

/// Whether these are the same packet.
pub fn same_packet(packet: LoggedPacket, other: LoggedPacket) -> bool
    ensures { result ≡ same_packet packet other }
{
    match (packet, other) {
        (
            LoggedPacket::User { key: a, bytes: one },
            LoggedPacket::User {
                key: b,
                bytes: another,
            },
        ) => a == b && one == another,
        (
            LoggedPacket::Signal {
                key: a,
                trigger: t,
                observed: o,
            },
            LoggedPacket::Signal {
                key: b,
                trigger: u,
                observed: p,
            },
        ) => a == b && t.0 == u.0 && o.0 == p.0,
        _ => false,
    }
}

/// A packet in the form in which a log has it.
pub fn logged_packet(packet: Packet) -> LoggedPacket
    ensures { result ≡ logged_packet packet }
{
    match packet {
        Packet::User { key, bytes } => LoggedPacket::User { key, bytes },
        Packet::Signal {
            key,
            trigger,
            observed,
            ..
        } => LoggedPacket::Signal {
            key,
            trigger,
            observed,
        },
    }
}

/// Whether the replies may differ by the schedule. They may for a `port_wait` that is ok or timed out on both sides, and
/// differs only in its status or packet.
pub fn may_be_scheduled(logged: &LoggedCall, reply: Option<&Reply>) -> bool
    ensures { result ≡ may_be_scheduled logged.now (option_copied reply.entry) }
{
    match reply {
        Some(reply) => {
            is_wait(&logged.call)
                && waited(logged.recorded.status)
                && waited(Some(reply.status()))
                && logged.recorded.handles.len() == handle_count(reply)
                && bytes_agree(&logged.recorded.bytes, reply)
        }
        None => false,
    }
}

fn is_wait(call: &Call) -> bool
    ensures { result ≡ is_wait call.now }
{
    matches!(call, Call::PortWait { .. })
}

/// Whether this is the status of a `port_wait` that got a packet or timed out.
fn waited(status: Option<Status>) -> bool
    ensures { result ≡ waited status }
{
    matches!(status, Some(Status::Ok | Status::TimedOut))
}
