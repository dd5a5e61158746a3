//! Removes one object with the rows that it owns.

ghost use Rattle.std.specs.Prelude.{◌≡◌, ◌≤◌, ◌<◌, ◌+◌, ◌++◌, ◌==◌, ◌&&◌, ℕ, true, OnOk, Option, length};
ghost use Rattle.zt_rows.specs.declared.keys.RowKey.{RowKey};
ghost use Rattle.zt_rows.specs.declared.keys.RowKey.TheVariants as key;
ghost use Rattle.zt_rows.specs.Collect.{without};
ghost use Rattle.zt_rows.specs.Reads.{message, object};
ghost use Rattle.zt_rows.specs.Room.{SuitsKey};
ghost use Rattle.zt_rows.specs.State.{put, row};
ghost use Rattle.zt_rows.specs.Tests.{among, is_endpoint};
ghost use Rattle.zt_store.specs.ProofsOnly.StepView.{IsAhead};
ghost use Rattle.zt_store.specs.KoidSets.{only};
ghost use Rattle.zt_cascade.specs.JoinedLinks.{IsJoined};
ghost use Rattle.zt_cascade.specs.ProofsOnly.RemovedObject.{left_behind, IsLeft, AreHandlesListed, IsPartly, handles_in, koids, weight};
ghost use Rattle.zt_cascade.specs.OneByOne.{IsReleased};

use std::alloc::AllocError;
use zt_bits::Kind;
use zt_rows::{Held, Koid, ObjectRow, Row, RowKey};
use zt_store::Step;

/// Removes the object with what it owns, and adds to the list the objects that it may release.
pub(crate) fn take_out(
    step: &mut Step,
    koid: Koid,
    found: &ObjectRow,
    list: &mut Vec<Koid>,
) -> Result<(), AllocError>
    requires there { object step.old.current koid ≡ Option.Some found.now }
    requires joined { IsJoined step.old.current }
    ensures ahead { IsAhead step.old step.new }
    ensures ok { OnOk result (step.new.current ≡ without step.old.current (only koid)) }
    ensures noted { OnOk result ((y : ℕ) → IsReleased step.old.current koid y → among list.new.items y ≡ true) }
    ensures grown { OnOk result ((y : ℕ) → among list.old.items y ≡ true → among list.new.items y ≡ true) }
    ensures lighter { OnOk result (weight step.new.current + length list.new.items ≤ weight step.old.current + length list.old.items) }
{
    take_row(step, koid, found)?;
    take_messages(step, koid, list)?;
    take_packets(step, koid)?;
    take_waits(step, koid)?;
    list.push(found.link)?;
    Ok(())
}

/// Takes away the row of the object, and cuts the link of its peer.
fn take_row(step: &mut Step, koid: Koid, found: &ObjectRow) -> Result<(), AllocError>
    requires there { object step.old.current koid ≡ Option.Some found.now }
    requires joined { IsJoined step.old.current }
    ensures ahead { IsAhead step.old step.new }
    ensures partly { OnOk result (IsPartly koid step.old.current step.new.current) }
    ensures objects { OnOk result ((y : ℕ) → IsLeft koid step.new.current (key.Object y)) }
    ensures messages { OnOk result ((n : ℕ) → message step.new.current koid n ≡ message step.old.current koid n) }
    ensures lighter { OnOk result (weight step.new.current + 1 ≤ weight step.old.current) }
{
    change(step, RowKey::Object(koid), None)?;
    cut_link(step, koid, found.link)
}

/// Puts the row under the key.
#[inline(always)]
fn change(step: &mut Step, key: RowKey, row: Option<Row>) -> Result<(), AllocError>
    requires { SuitsKey key row }
    ensures ahead { IsAhead step.old step.new }
    ensures ok { OnOk result (step.new.current ≡ put step.old.current key row) }
{
    step.put(key, row)
}

/// Cuts the link of the object of this koid, if it is an endpoint and its peer is the object that went.
#[inline(always)]
fn cut_link(step: &mut Step, went: Koid, koid: Koid) -> Result<(), AllocError>
    requires { object step.old.current went ≡ Option.None }
    ensures ahead { IsAhead step.old step.new }
    ensures ok { OnOk result (step.new.current ≡ left_behind went step.old.current (key.Object koid)) }
{
    let Some(object) = step.store().object(koid) else {
        return Ok(());
    };
    if !has_peer(&object, went) {
        return Ok(());
    }
    let object = ObjectRow {
        link: Koid(0),
        ..object
    };
    change(step, RowKey::Object(koid), Some(Row::Object(object)))
}

/// Whether the object is an endpoint that has this peer.
fn has_peer(object: &ObjectRow, peer: Koid) -> bool
    ensures { result ≡ (is_endpoint object.now.kind && (object.now.link == peer)) }
{
    let is_endpoint = object.kind == Kind::Channel || object.kind == Kind::EventPair;
    is_endpoint && object.link == peer
}

/// Takes away the queue of the endpoint, and adds to the list the objects that its messages name.
fn take_messages(step: &mut Step, endpoint: Koid, list: &mut Vec<Koid>) -> Result<(), AllocError>
    ensures ahead { IsAhead step.old step.new }
    ensures partly { OnOk result (IsPartly endpoint step.old.current step.new.current) }
    ensures noted { OnOk result (AreHandlesListed endpoint step.old.current list.old.items step.new.current list.new.items) }
    ensures gone { OnOk result ((n : ℕ) → row step.new.current (key.Msg endpoint n) ≡ Option.None) }
    ensures suited { OnOk result ((k : RowKey) → SuitsKey k (row step.new.current k)) }
{
    while let Some(number) = step.store().first_message(endpoint) {
        note_handles(step, endpoint, number, list)?;
        change(step, RowKey::Msg(endpoint, number), None)?;
    }
    Ok(())
}

/// Adds to the list the objects that the handles of the message name.
fn note_handles(
    step: &Step,
    endpoint: Koid,
    number: u64,
    list: &mut Vec<Koid>,
) -> Result<(), AllocError>
    ensures { OnOk result (list.new.items ≡ list.old.items ++ koids (handles_in (message step.now.current endpoint number))) }
{
    match step.store().message(endpoint, number) {
        Some(message) => add_koids(list, message.handles().as_slice()),
        None => Ok(()),
    }
}

/// Adds to the list the objects that the handles name.
pub(crate) fn add_koids(list: &mut Vec<Koid>, handles: &[Held]) -> Result<(), AllocError>
    ensures { OnOk result (list.new.items ≡ list.old.items ++ koids handles.now) }
{
    for held in handles {
        list.push(held.koid)?;
    }
    Ok(())
}

/// Takes away the packets of the port.
fn take_packets(step: &mut Step, port: Koid) -> Result<(), AllocError>
    requires suited { (k : RowKey) → SuitsKey k (row step.old.current k) }
    ensures ahead { IsAhead step.old step.new }
    ensures partly { OnOk result (IsPartly port step.old.current step.new.current) }
    ensures gone { OnOk result ((n : ℕ) → row step.new.current (key.Packet port n) ≡ Option.None) }
{
    while let Some(number) = step.store().first_packet(port) {
        change(step, RowKey::Packet(port, number), None)?;
    }
    Ok(())
}

/// Takes away the waits for the object, of whatever kind it is. Finds them by the object, so that other waits are not
/// looked at.
fn take_waits(step: &mut Step, koid: Koid) -> Result<(), AllocError>
    ensures ahead { IsAhead step.old step.new }
    ensures partly { OnOk result (IsPartly koid step.old.current step.new.current) }
    ensures waits { OnOk result ((n : ℕ) → IsLeft koid step.new.current (key.Wait n)) }
{
    'waits: while let Some(number) = step.store().wait_for(koid, None) {
        change(step, RowKey::Wait(number), None)?;
    }
    Ok(())
}
