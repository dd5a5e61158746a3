//! Sums up a path: how its calls were answered, and what became of its objects.

ghost use Rattle.std.specs.Prelude.{◌≡◌, ◌⊎◌, Ok, IfOk, IfErr, OnOk, OnErr};
ghost use Rattle.zt_history.specs.HistoryRefusals.{IsHistoryRefusal, moment_on};
ghost use Rattle.zt_history.specs.Timeline.{moved_to};
ghost use Rattle.zt_history.specs.Tree.{path};
ghost use Rattle.zt_look.specs.CallCounts.{AreCallCounts};
ghost use Rattle.zt_look.specs.Fates.{AreFates};

use crate::call_counts::{CallCount, call_counts};
use crate::event_list::{HappeningSet, events};
use crate::fates::{ObjectFate, fates};
use std::alloc::Global;
use zt_history::History;
use zt_rows::{Moment, Refusal};

/// The summary of a path: how its calls were answered, and what became of its objects.
#[derive(Drop)]
pub struct PathSummary {
    pub calls: Vec<CallCount>,
    pub objects: Vec<ObjectFate>,
}

/// The happenings from which fates are told.
const OF_FATES: HappeningSet = HappeningSet {
    made: true,
    ended: true,
    peer_closed: false,
    leaked: true,
};

/// The summary of the path to `at`.
///
/// - How often the calls of each process were answered with each status, by rising process, and then in the order of
///   the statuses.
/// - The fate of each object that was there at some moment of the path, by rising koid, and since when.
///
/// This costs what `events` costs, and a look for each call and each koid. The history goes to `at`. Errors: `NoMoment`
/// if `at` is beyond the last moment, `OutOfMemory` if an allocation fails.
pub fn summary(alloc: Global, history: &mut History, at: Moment) -> Result<PathSummary, Refusal>
    ensures calls { IfOk result (λ summary. AreCallCounts history.old.tree.made (path history.old.tree.made at) summary.calls.items) }
    ensures objects { IfOk result (λ summary. AreFates history.old.tree.made at summary.objects.items) }
    ensures within { OnOk result (moment_on history.old.tree at ≡ Ok at) }
    ensures refused { IfErr result (IsHistoryRefusal (moment_on history.old.tree at)) }
    ensures moved { OnOk result (history.new ≡ moved_to history.old at) }
    ensures stands { OnErr result ((history.new ≡ history.old) ⊎ (history.new ≡ moved_to history.old at)) }
    ensures nowhere { IfErr (moment_on history.old.tree at) (λ _. history.new ≡ history.old) }
    ensures tree { OnErr result (history.new.tree ≡ history.old.tree) }
{
    let way = history.path(at)?;
    let calls = call_counts(alloc, history, way.as_slice())?;
    let list = events(alloc, history, at, &OF_FATES)?;
    let objects = fates(alloc, history, list.as_slice())?;
    Ok(PathSummary { calls, objects })
}
