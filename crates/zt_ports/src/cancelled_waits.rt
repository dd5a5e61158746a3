//! Cancels waits: takes them away together with the packets that they sent, as `port_cancel` does.

ghost use Rattle.std.specs.Prelude.{◌≡◌, IfOk, OnOk, OnErr};
ghost use Rattle.std.specs.Option.{option_and_then};
ghost use Rattle.zt_rows.specs.declared.keys.RowKey.TheVariants as key_variant;
ghost use Rattle.zt_rows.specs.PortCalls.{cancel, is_cancelled};
ghost use Rattle.zt_rows.specs.State.{row, put};
ghost use Rattle.zt_rows.specs.Tests.{any_row};
ghost use Rattle.zt_store.specs.Places.{Keeps};
ghost use Rattle.zt_store.specs.StepView.{Advanced, AsBegun};
ghost use Rattle.zt_signals.specs.ProofsOnly.KeyWalk.{passes_under};
ghost use Rattle.zt_ports.specs.ProofsOnly.CancelledWaits.{is_cancelled_packet, is_news_of, without_cancelled};

use crate::packet_walk::packet_after;
use std::alloc::AllocError;
use zt_rows::{HandleValue, Koid, Packet, RowKey};
use zt_signals::cancel_waits;
use zt_store::Step;

/// Takes away the waits for the port that the process made on the handle under the key, and the packets of such waits.
/// Returns whether there was any. Looks at the packets of the port and at the waits on the handle. If an allocation
/// fails, the step is reset.
pub fn cancel(
    step: &mut Step,
    port: Koid,
    process: Koid,
    handle: HandleValue,
    key: u64,
) -> Result<bool, AllocError>
    ensures ok { OnOk result (Advanced step.old step.new (cancel (is_cancelled port process handle key) step.old.current)) }
    ensures any { IfOk result (λ any. any ≡ any_row (is_cancelled port process handle key) step.old.current) }
    ensures err { OnErr result (AsBegun step.old step.new) }
    ensures kept { Keeps step.old.places step.new.places }
{
    let packets = cancel_packets(step, port, process, handle, key)?;
    let waits = cancel_waits(step, port, process, handle, key)?;
    Ok(packets | waits)
}

/// Takes away the port's packets of waits that the process made on the handle under the key. Returns whether there was
/// any.
fn cancel_packets(
    step: &mut Step,
    port: Koid,
    process: Koid,
    handle: HandleValue,
    key: u64,
) -> Result<bool, AllocError>
    ensures ok { OnOk result (Advanced step.old step.new (cancel (is_cancelled_packet port process handle key) step.old.current)) }
    ensures any { IfOk result (λ any. any ≡ any_row (is_cancelled_packet port process handle key) step.old.current) }
    ensures err { OnErr result (AsBegun step.old step.new) }
    ensures kept { Keeps step.old.places step.new.places }
{
    let mut any = false;
    let mut low = None;
    while let Some(number) = packet_after(step, port, low) {
        let told = cancel_packet(step, port, number, process, handle, key)?;
        any |= told;
        low = Some(number);
    }
    Ok(any)
}

/// Takes away the packet of this number, if it comes from a wait that the process made on the handle under the key.
/// Returns whether it does.
fn cancel_packet(
    step: &mut Step,
    port: Koid,
    number: u64,
    process: Koid,
    handle: HandleValue,
    key: u64,
) -> Result<bool, AllocError>
    ensures ok { let k = key_variant.Packet port number in let S = step.old.current in OnOk result
        (Advanced step.old step.new (put S k (option_and_then (without_cancelled port process handle key k) (row S k)))) }
    ensures told { IfOk result (λ told. told
        ≡ passes_under (is_cancelled_packet port process handle key) step.old.current (key_variant.Packet port number)) }
    ensures err { OnErr result (AsBegun step.old step.new) }
    ensures kept { Keeps step.old.places step.new.places }
{
    if is_cancelled(step, port, number, process, handle, key) {
        step.put(RowKey::Packet(port, number), None)?;
        Ok(true)
    } else {
        Ok(false)
    }
}

/// Whether the packet of this number comes from a wait that the process made on the handle under the key.
fn is_cancelled(
    step: &Step,
    port: Koid,
    number: u64,
    process: Koid,
    handle: HandleValue,
    key: u64,
) -> bool
    ensures { result
        ≡ passes_under (is_cancelled_packet port process handle key) step.now.current (key_variant.Packet port number) }
{
    match step.store().packet(port, number) {
        Some(packet) => is_of(&packet, process, handle, key),
        None => false,
    }
}

/// Whether the packet comes from a wait that the process made on the handle under the key.
fn is_of(packet: &Packet, made_by: Koid, made_on: HandleValue, made_under: u64) -> bool
    ensures { result ≡ is_news_of made_by made_on made_under packet.now }
{
    match packet {
        Packet::Signal {
            key,
            process,
            handle,
            ..
        } => *process == made_by && *handle == made_on && *key == made_under,
        Packet::User { .. } => false,
    }
}
