//! Compares the replies of a log with what the semantics answers.

ghost use Rattle.std.specs.Prelude.{◌≡◌, OnOk};
ghost use Rattle.std.specs.Option.{option_to_list};
ghost use Rattle.zt_import.specs.Trails.{asked_in, difference_at, difference_of, differences_of};
ghost use Rattle.zt_import.specs.ProofsOnly.TakenCalls.{ComparesMore, IsComparedAs, Leaves, nothing_compared};

use crate::compared::Compared;
use crate::comparison::agrees;
use crate::parts::{ahead_of, answering, is_last};
use crate::schedule::{AskedCall, asked_in, is_by_schedule};
use crate::taken::Taken;
use crate::trail::{Origin, TrailStep};
use std::alloc::Global;
use zt_logs::{Cause, LogFault, LoggedCall};
use zt_rows::Moment;

/// Compares the replies of all calls of a log, by the steps that are not known to agree. The error is an allocation failure,
/// at line 0.
pub(crate) fn compare_all(
    alloc: Global,
    taken: &mut Taken,
    compared: &mut Compared,
    calls: &[LoggedCall],
    left: &[TrailStep],
) -> Result<(), LogFault>
    requires none { compared.old ≡ nothing_compared }
    requires left { Leaves calls.now taken.old.tree.made taken.old.trail left.now }
    ensures differences { OnOk result (IsComparedAs (differences_of calls.now taken.old.tree.made taken.old.trail) compared.new) }
    ensures same { taken.new ≡ taken.old }
{
    if left.is_empty() {
        return Ok(());
    }
    let Ok(asked) = asked_in(alloc, calls, taken.trail()) else {
        return Err(Cause::OutOfMemory.at(0));
    };
    let count = left.len();
    for place in 0..count {
        match compare_step(taken, compared, calls, asked.as_slice(), left[place]) {
            Ok(()) => {}
            Err(cause) => return Err(cause.at(0)),
        }
    }
    Ok(())
}

/// Compares the reply of a step, if it is a call of the log.
fn compare_step(
    taken: &mut Taken,
    compared: &mut Compared,
    calls: &[LoggedCall],
    asked: &[AskedCall],
    step: TrailStep,
) -> Result<(), Cause>
    ensures differences { OnOk result (ComparesMore compared.old compared.new
        (option_to_list (difference_at calls.now taken.old.tree.made asked.now step))) }
    ensures same { taken.new ≡ taken.old }
{
    match step.origin {
        Origin::Logged(number) => match calls.get(number) {
            Some(logged) => compare(taken, compared, asked, logged, number, step.moment),
            None => Ok(()),
        },
        _ => Ok(()),
    }
}

/// Compares the reply of a line with what the log has. It is that of the line's first call that was not ok, or else of its
/// last. A call ahead of the last of its line is not compared.
fn compare(
    taken: &mut Taken,
    compared: &mut Compared,
    asked: &[AskedCall],
    logged: &LoggedCall,
    number: usize,
    moment: Option<Moment>,
) -> Result<(), Cause>
    ensures differences { OnOk result (ComparesMore compared.old compared.new
        (option_to_list (difference_of taken.old.tree.made asked.now logged.now number moment))) }
    ensures same { taken.new ≡ taken.old }
{
    if !is_last(logged.part) {
        return Ok(());
    }
    let ahead = ahead_of(asked, number, logged.part.ahead);
    let moment = answering(taken, ahead, moment);
    if agrees(&logged.recorded, taken.reply(&moment)) {
        return Ok(());
    }
    let by_schedule = is_by_schedule(taken, asked, logged, number, moment)?;
    compared.tell(number, moment, by_schedule)?;
    Ok(())
}
