//! Looks for packets in the queue of a port.

ghost use Rattle.std.specs.Prelude.{◌≡◌, Some};
ghost use Rattle.zt_import.specs.Schedule.{holds, is_recorded, port_of};
ghost use Rattle.zt_import.specs.ProofsOnly.PortQueue.{is_queued_under};

use crate::comparison::{logged_packet, same_packet};
use zt_logs::LoggedPacket;
use zt_rows::{Call, Koid, Packet};
use zt_store::Store;

/// Whether the packet that the log has is in the port's queue. Any packet will do if the log tells none.
pub(crate) fn holds(store: &Store, port: Koid, recorded: Option<LoggedPacket>) -> bool
    ensures { result ≡ holds store.now.state port recorded }
{
    let mut next = store.packet_of(port, None);
    'packets: while let Some(number) = next {
        if is_queued_under(store, port, recorded, number) {
            return true;
        }
        next = store.packet_of(port, Some(number));
    }
    false
}

/// Whether the packet of this number is the one that the log has.
fn is_queued_under(store: &Store, port: Koid, recorded: Option<LoggedPacket>, number: u64) -> bool
    ensures { result ≡ is_queued_under store.now.state port recorded number }
{
    match store.packet(port, number) {
        Some(packet) => is_recorded(recorded, packet),
        None => false,
    }
}

/// Whether a packet is the one that the log has. Any packet is, if the log tells none.
fn is_recorded(recorded: Option<LoggedPacket>, packet: Packet) -> bool
    ensures { result ≡ is_recorded recorded packet }
{
    match recorded {
        Some(recorded) => same_packet(recorded, logged_packet(packet)),
        None => true,
    }
}

/// The port of a `port_wait` of a process, by its handles. None for another call, or if the handle names nothing.
pub(crate) fn port_of(store: &Store, process: Koid, call: &Call) -> Option<Koid>
    ensures { result ≡ port_of store.now.state (Some (process, call.now)) }
{
    match call {
        Call::PortWait { port } => match store.entry(process, *port) {
            Some(held) => Some(held.koid),
            None => None,
        },
        _ => None,
    }
}
