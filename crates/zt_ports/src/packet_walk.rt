//! Walks over the packets of one port, from number to number.

ghost use Rattle.zt_signals.specs.ProofsOnly.KeyWalk.{IsNextUnder};
ghost use Rattle.zt_ports.specs.ProofsOnly.PacketWalk.{packet_key};

use zt_rows::Koid;
use zt_store::Step;

/// The number of the port's first packet after the low one. Without a low one, the number of its first packet. Never
/// allocates.
pub(crate) fn packet_after(step: &Step, port: Koid, low: Option<u64>) -> Option<u64>
    ensures { IsNextUnder step.now.current (packet_key port) low result }
{
    step.store().packet_of(port, low)
}
