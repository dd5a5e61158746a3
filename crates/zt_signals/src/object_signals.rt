//! Writes the signals of one object.

ghost use Rattle.std.specs.Prelude.{◌≡◌, OnOk, OnErr};
ghost use Rattle.zt_store.specs.Places.{Keeps};
ghost use Rattle.zt_store.specs.StepView.{Advanced, AsBegun};
ghost use Rattle.zt_signals.specs.ObjectSignals.{refreshed_object, signals_set};

use crate::derived_signals::renewed_signals;
use bitflags::Flags;
use std::alloc::AllocError;
use zt_bits::Signals;
use zt_rows::{Koid, ObjectRow, Row, RowKey};
use zt_store::Step;

/// Clears and then sets signals of the object. If there is no such object, nothing changes. If an allocation fails, all
/// puts of the step are taken back.
#[inline(always)]
pub fn set_bits(step: &mut Step, koid: Koid, clear: Signals, set: Signals) -> Result<(), AllocError>
    ensures ok { OnOk result (Advanced step.old step.new (signals_set step.old.current koid clear.0 set.0)) }
    ensures err { OnErr result (AsBegun step.old step.new) }
    ensures kept { Keeps step.old.places step.new.places }
{
    let Some(object) = step.store().object(koid) else {
        return Ok(());
    };
    let signals = object.signals.difference(clear).union(set);
    let object = ObjectRow { signals, ..object };
    step.put(RowKey::Object(koid), Some(Row::Object(object)))
}

/// Writes the derived signals of the object anew. If there is no such object, or its signals stay as they are, nothing
/// is put. If an allocation fails, all puts of the step are taken back.
#[tactic(auto, using(crate::proofs::DerivedLaws::refreshed_stays))]
pub fn refresh(step: &mut Step, koid: Koid) -> Result<(), AllocError>
    ensures ok { OnOk result (Advanced step.old step.new (refreshed_object step.old.current koid)) }
    ensures err { OnErr result (AsBegun step.old step.new) }
    ensures kept { Keeps step.old.places step.new.places }
{
    let Some(object) = step.store().object(koid) else {
        return Ok(());
    };
    let signals = renewed_signals(step, koid, &object);
    if signals == object.signals {
        return Ok(());
    }
    let object = ObjectRow { signals, ..object };
    step.put(RowKey::Object(koid), Some(Row::Object(object)))
}
