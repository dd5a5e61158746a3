//! Appends packets to a port.

ghost use Rattle.std.specs.Prelude.{◌<◌, ◌+◌, ◌^◌, OnOk, OnErr};
ghost use Rattle.zt_rows.specs.Reads.{object};
ghost use Rattle.zt_rows.specs.Settle.{push_packet};
ghost use Rattle.zt_rows.specs.Tests.{next_at};
ghost use Rattle.zt_store.specs.Places.{Keeps};
ghost use Rattle.zt_store.specs.StepView.{Advanced, AsBegun};
ghost use Rattle.zt_ports.specs.PortEnd.{queued};

use std::alloc::AllocError;
use zt_rows::{Koid, ObjectRow, Packet, Row, RowKey};
use zt_store::Step;

/// Appends the packet to the port, under the port's next number. If there is no such object, nothing changes. If an
/// allocation fails, the step is reset.
pub fn queue(step: &mut Step, port: Koid, packet: Packet) -> Result<(), AllocError>
    requires { next_at step.old.current port + 1 < 2 ^ 64 }
    ensures ok { OnOk result (Advanced step.old step.new (queued step.old.current port packet)) }
    ensures err { OnErr result (AsBegun step.old step.new) }
    ensures kept { Keeps step.old.places step.new.places }
{
    match step.store().object(port) {
        Some(row) => push_packet(step, port, &row, packet),
        None => Ok(()),
    }
}

/// Appends the packet to the port that has this row, and raises the port's next number.
#[inline(always)]
#[tactic(auto, using(crate::proofs::PutOrder::packet_last))]
pub(crate) fn push_packet(
    step: &mut Step,
    koid: Koid,
    port: &ObjectRow,
    packet: Packet,
) -> Result<(), AllocError>
    requires { port.now.next + 1 < 2 ^ 64 }
    ensures ok { OnOk result (Advanced step.old step.new (push_packet koid port.now packet step.old.current)) }
    ensures err { OnErr result (AsBegun step.old step.new) }
    ensures kept { Keeps step.old.places step.new.places }
{
    let raised = ObjectRow {
        next: port.next + 1,
        ..*port
    };
    step.put(RowKey::Object(koid), Some(Row::Object(raised)))?;
    step.put(RowKey::Packet(koid, port.next), Some(Row::Packet(packet)))
}
