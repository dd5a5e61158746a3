//! What is asked about all branches of a tree: each moment that is on several of them counts once.

use std::alloc::Global;
use zt_history::History;
use zt_look::{
    BranchLook, CallFilter, CallMade, EventFilter, HappeningSet, ObjectEvent, branches, calls,
    events, events_between,
};
use zt_rows::{LAST_MOMENT, Moment, Refusal};

/// The calls of the path to `at` that the filter selects; or those of all branches, by rising moment.
///
/// For all branches it goes over the path of each of them. Errors are those of `calls`.
pub fn calls_asked(
    alloc: Global,
    history: &mut History,
    at: Moment,
    filter: &CallFilter,
    all: bool,
) -> Result<Vec<CallMade>, Refusal> {
    if !all {
        return calls(alloc, history, at, filter);
    }
    let mut found = Vec::new(alloc);
    for branch in &branches(alloc, history)? {
        let mut own = *filter;
        own.first = filter.first.max(first_own(branch));
        found.append(&mut calls(alloc, history, branch.head, &own)?)?;
    }
    found.sort_by_key(|made| made.moment)?;
    Ok(found)
}

/// The happenings on the path to `at` that are asked for; or those of all branches, by rising moment.
///
/// For all branches it goes over the path of each of them. Errors are those of `events`.
pub fn events_asked(
    alloc: Global,
    history: &mut History,
    at: Moment,
    wanted: &HappeningSet,
    all: bool,
) -> Result<Vec<ObjectEvent>, Refusal> {
    if !all {
        return events(alloc, history, at, wanted);
    }
    let mut found = Vec::new(alloc);
    for branch in &branches(alloc, history)? {
        let own = EventFilter {
            first: first_own(branch),
            last: Moment(LAST_MOMENT),
            happenings: *wanted,
        };
        found.append(&mut events_between(alloc, history, branch.head, &own)?)?;
    }
    found.sort_by_key(|event| event.moment)?;
    Ok(found)
}

/// The first moment that can be on the path of this branch and on that of none before it.
fn first_own(branch: &BranchLook) -> Moment {
    match branch.leaves {
        Some((_, moment)) => Moment(moment.0.saturating_add(1)),
        None => Moment(1),
    }
}
