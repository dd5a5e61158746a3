//! Which calls may be moved so that a reply agrees with the log. Their statuses and arguments tell, before a move is tried.

use zt_bits::Status;
use zt_logs::{LoggedCall, LoggedPacket};
use zt_rows::{Call, Parcel, Reply};

/// Whether a reply that differs may agree in another order. A call whose process had ended may have been made before that.
pub(crate) fn may_be_by_order(logged: &LoggedCall, reply: Option<&Reply>) -> bool {
    match reply {
        Some(reply) => may_change_to(logged.recorded.status, Some(reply.status())),
        None => true,
    }
}

/// Whether calls of other processes can change the answer from one of these statuses to the other.
fn may_change_to(recorded: Option<Status>, answered: Option<Status>) -> bool {
    recorded != answered && is_by_others(recorded) && is_by_others(answered)
}

/// Whether calls of other processes can bring about this status.
fn is_by_others(status: Option<Status>) -> bool {
    matches!(
        status,
        Some(
            Status::Ok
                | Status::PeerClosed
                | Status::ShouldWait
                | Status::BufferTooSmall
                | Status::TimedOut
                | Status::BadState
                | Status::NotFound
        )
    )
}

/// Whether `logged` may get the status that the log has if `cause` is made before it.
pub(crate) fn may_cause(cause: &LoggedCall, logged: &LoggedCall) -> bool {
    match logged.recorded.status {
        Some(Status::Ok) => brings_about(cause, logged),
        Some(Status::BufferTooSmall) => matches!(cause.call, Call::ChannelWrite { .. }),
        Some(Status::PeerClosed | Status::BadState | Status::NotFound) => ends_something(cause),
        Some(Status::ShouldWait) => matches!(cause.call, Call::PortQueue { .. }),
        _ => false,
    }
}

/// Whether `cause` may write the message or queue the packet that `logged` got, or make room for the packet that it queued.
fn brings_about(cause: &LoggedCall, logged: &LoggedCall) -> bool {
    if cause.recorded.status != Some(Status::Ok) {
        return false;
    }
    match (&logged.call, &cause.call) {
        (Call::ChannelRead { .. }, Call::ChannelWrite { parcel, .. }) => is_message(parcel, logged),
        (Call::PortWait { .. }, Call::PortQueue { key, bytes, .. }) => {
            is_packet(*key, bytes, logged)
        }
        (Call::PortWait { .. }, _) => !gives_packets_of_users(logged),
        (Call::PortQueue { .. }, Call::PortWait { .. }) => true,
        _ => false,
    }
}

/// Whether a message is what a call read, as far as the log tells.
fn is_message(parcel: &Parcel, read: &LoggedCall) -> bool {
    if parcel.handles().len() != read.recorded.handles.len() {
        return false;
    }
    match &read.recorded.bytes {
        Some(bytes) => bytes.as_slice() == parcel.bytes().as_slice(),
        None => true,
    }
}

/// Whether a packet is what a call got, as far as the log tells.
fn is_packet(key: u64, bytes: &[u8; 32], waited: &LoggedCall) -> bool {
    match waited.recorded.packet.get() {
        Some(
            LoggedPacket::User {
                key: got,
                bytes: others,
            },
        ) => got == key && others == *bytes,
        Some(_) => false,
        None => true,
    }
}

/// Whether the log says that a call got a user packet.
fn gives_packets_of_users(waited: &LoggedCall) -> bool {
    matches!(
        waited.recorded.packet.get(),
        Some(LoggedPacket::User { .. })
    )
}

/// Whether a call may end an object, release a handle, or take a message, a packet or a wait.
fn ends_something(cause: &LoggedCall) -> bool {
    matches!(
        cause.call,
        Call::HandleClose { .. }
            | Call::TaskKill { .. }
            | Call::ProcessExit { .. }
            | Call::ChannelWrite { .. }
            | Call::ChannelRead { .. }
            | Call::PortWait { .. }
            | Call::PortCancel { .. }
    )
}
