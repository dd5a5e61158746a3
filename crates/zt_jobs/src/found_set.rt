//! The koids that a walk over what ends has found.

ghost use Rattle.zt_jobs.specs.ProofsOnly.TaskTree.{IsRising};

use std::collections::BTreeSet;

/// Koids that were found. Those that came in rising order, as nearly all do, stand in a list. The others stand in a
/// set.
#[derive(Drop)]
pub(crate) struct FoundKoids {
    pub rising: Vec<u64>,
    pub others: BTreeSet<u64>,
    ghost ordered: { IsRising rising.items },
}
