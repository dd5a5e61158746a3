//! Fires all waits that are met after a call.

ghost use Rattle.std.specs.Prelude.{◌≡◌, OnOk};
ghost use Rattle.std.specs.List.{fold};
ghost use Rattle.zt_rows.specs.Consistent.{IsConsistent};
ghost use Rattle.zt_rows.specs.Reads.{wait, waits};
ghost use Rattle.zt_rows.specs.Settle.{fire};
ghost use Rattle.zt_store.specs.ProofsOnly.StepView.{IsAhead};
ghost use Rattle.zt_cascade.specs.PacketRoom.{FiresWithin};
ghost use Rattle.zt_cascade.specs.ProofsOnly.RaisedWaits.{HasRoomFor, fire_number};

use crate::raised_waits::candidate_waits;
use std::alloc::AllocError;
use zt_ports::fire;
use zt_store::Step;

/// Fires the waits that are met, by rising number.
///
/// The step began consistent, so only waits that this step may have satisfied can be met. No other wait is looked at. If
/// there never was a wait, nothing is looked at. If an allocation fails, the step is left half done.
pub(crate) fn fire_all(step: &mut Step) -> Result<(), AllocError>
    requires began { IsConsistent step.old.beginning }
    requires room { let S = step.old.current in FiresWithin step.old.beginning S (fold (fire step.old.beginning) S (waits S)) }
    ensures ahead { IsAhead step.old step.new }
    ensures ok { OnOk result (step.new.current ≡ fold (fire step.old.beginning) step.old.current (waits step.old.current)) }
{
    if !step.store().ever_had_waits() {
        return Ok(());
    }
    let list = step.take_numbers();
    let mut numbers = candidate_waits(step, list)?;
    numbers.sort_unstable();
    for number in &numbers {
        fire_number(step, *number)?;
    }
    step.keep_numbers(numbers);
    Ok(())
}

/// If there is a wait of this number and it is met, takes it away and appends its packet to its port. Only then does
/// the port need a free number for a packet.
fn fire_number(step: &mut Step, number: u64) -> Result<(), AllocError>
    requires { HasRoomFor step.old.beginning step.old.current number }
    ensures ahead { IsAhead step.old step.new }
    ensures ok { OnOk result (step.new.current ≡ fire_number step.old.beginning step.old.current number) }
{
    match step.store().wait(number) {
        Some(wait) => fire(step, number, &wait),
        None => Ok(()),
    }
}
