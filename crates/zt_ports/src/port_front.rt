//! Shows and takes the first packet of a port.

ghost use Rattle.std.specs.Prelude.{◌≡◌, IfOk, OnOk, OnErr};
ghost use Rattle.std.specs.Option.{option_map};
ghost use Rattle.zt_rows.specs.Reads.{packets};
ghost use Rattle.zt_rows.specs.Tests.{first};
ghost use Rattle.zt_store.specs.Places.{Keeps};
ghost use Rattle.zt_store.specs.StepView.{Advanced, AsBegun};
ghost use Rattle.zt_ports.specs.PortFront.{without_front};

use std::alloc::AllocError;
use zt_rows::{Koid, Packet, RowKey};
use zt_store::Step;

/// The first packet of the port, with its number. Never allocates.
pub fn front(step: &Step, port: Koid) -> Option<(u64, Packet)>
    ensures { result ≡ first (packets step.now.current port) }
{
    let store = step.store();
    let number = store.first_packet(port)?;
    let packet = store.packet(port, number)?;
    Some((number, packet))
}

/// Takes the first packet away from the port and returns it. If there is none, nothing changes. If an allocation fails,
/// the step is reset.
#[tactic(auto, using(crate::proofs::FrontLaws::taken_some, crate::proofs::FrontLaws::taken_none))]
pub fn take_front(step: &mut Step, port: Koid) -> Result<Option<Packet>, AllocError>
    ensures packet { IfOk result (λ packet. packet ≡ option_map (λ e. e.1) (first (packets step.old.current port))) }
    ensures taken { OnOk result (Advanced step.old step.new (without_front step.old.current port)) }
    ensures err { OnErr result (AsBegun step.old step.new) }
    ensures kept { Keeps step.old.places step.new.places }
{
    let Some((number, packet)) = front(step, port) else {
        return Ok(None);
    };
    step.put(RowKey::Packet(port, number), None)?;
    Ok(Some(packet))
}
