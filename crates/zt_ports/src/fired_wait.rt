//! Fires a wait that is met: replaces the wait by a packet in its port.

ghost use Rattle.std.specs.Prelude.{◌≡◌, ◌<◌, ◌+◌, ◌^◌, true, OnOk, OnErr};
ghost use Rattle.zt_rows.specs.Settle.{fire, is_met, news, observed, signals_by};
ghost use Rattle.zt_rows.specs.Reads.{entry};
ghost use Rattle.zt_rows.specs.Tests.{next_at, object_signals};
ghost use Rattle.zt_store.specs.Places.{Keeps};
ghost use Rattle.zt_store.specs.StepView.{Advanced, AsBegun};

use crate::port_end::push_packet;
use bitflags::Flags;
use std::alloc::AllocError;
use zt_bits::Signals;
use zt_rows::{ObjectRow, Packet, RowKey, Wait};
use zt_store::Step;

/// If the wait of this number is met, takes it away and appends its packet to its port. Only then does the port need a
/// free number for a packet. If an allocation fails, the step is reset.
#[tactic(auto, using(crate::proofs::PutOrder::wait_last))]
pub fn fire(step: &mut Step, number: u64, wait: &Wait) -> Result<(), AllocError>
    requires { is_met step.old.beginning step.old.current wait.now ≡ true → next_at step.old.current wait.now.port + 1 < 2 ^ 64 }
    ensures ok { OnOk result (Advanced step.old step.new (fire step.old.beginning step.old.current (number, wait.now))) }
    ensures err { OnErr result (AsBegun step.old step.new) }
    ensures kept { Keeps step.old.places step.new.places }
{
    let observed = observed(step, wait);
    if !meets(step, wait, observed) {
        return Ok(());
    }
    let Some(port) = step.store().object(wait.port) else {
        return Ok(());
    };
    let parcel = news(wait, observed);
    push_packet(step, wait.port, &port, parcel)?;
    step.put(RowKey::Wait(number), None)
}

/// Whether one of the signals waited for stands. For a wait on an edge, that signal must not have stood when the step
/// began.
pub fn is_met(step: &Step, wait: &Wait) -> bool
    ensures { result ≡ is_met step.now.beginning step.now.current wait.now }
{
    meets(step, wait, observed(step, wait))
}

/// Whether the wait is met, if exactly these signals stand on the object that its handle names.
fn meets(step: &Step, wait: &Wait, signals: Signals) -> bool
    requires { signals.0 ≡ observed step.now.current wait.now }
    ensures { result ≡ is_met step.now.beginning step.now.current wait.now }
{
    let awaited = if wait.edge {
        signals.difference(observed_then(step, wait))
    } else {
        signals
    };
    wait.signals.intersects(awaited)
}

/// The packet that tells that the wait fired, and which signals stood then.
fn news(wait: &Wait, observed: Signals) -> Packet
    ensures { result ≡ Packet.Signal wait.now.key wait.now.signals observed wait.now.process wait.now.handle }
{
    Packet::Signal {
        key: wait.key,
        trigger: wait.signals,
        observed,
        process: wait.process,
        handle: wait.handle,
    }
}

/// All signals that stand on the object that the wait's handle names.
fn observed(step: &Step, wait: &Wait) -> Signals
    ensures { result.0 ≡ observed step.now.current wait.now }
{
    let store = step.store();
    match store.entry(wait.process, wait.handle) {
        Some(held) => signals_of(store.object(held.koid)),
        None => Signals(0),
    }
}

/// The signals that stood, when the step began, on the object that the wait's handle names now.
fn observed_then(step: &Step, wait: &Wait) -> Signals
    ensures { result.0 ≡ signals_by step.now.beginning (entry step.now.current wait.now.process wait.now.handle) }
{
    match step.store().entry(wait.process, wait.handle) {
        Some(held) => signals_of(step.object_was(held.koid)),
        None => Signals(0),
    }
}

/// All signals that stand on the object, or none if there is no object.
fn signals_of(object: Option<ObjectRow>) -> Signals
    ensures { result.0 ≡ object_signals object }
{
    match object {
        Some(object) => object.signals,
        None => Signals(0),
    }
}
