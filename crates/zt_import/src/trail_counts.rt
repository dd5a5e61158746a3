//! Counts the steps of a trail by their kinds.

ghost use Rattle.std.specs.Prelude.{◌≡◌, count_by};
ghost use Rattle.zt_import.specs.Counts.{is_call, is_adopted, is_pair};

use crate::parts::is_counted;
use crate::trail::{Origin, TrailStep};
use zt_logs::LoggedCall;

/// How many lines of the log are in the trace.
pub fn calls_in(calls: &[LoggedCall], trail: &[TrailStep]) -> usize
    ensures { result ≡ count_by (is_call calls.now) trail.now }
{
    trail.iter().filter(|step| is_call(calls, step)).count()
}

/// How many calls of the trace are none of the log.
pub fn adopted_in(trail: &[TrailStep]) -> usize
    ensures { result ≡ count_by is_adopted trail.now }
{
    trail.iter().filter(|step| is_adopted(step)).count()
}

/// How many pairs of ends are joined in the trace, by their messages or by their koids.
pub fn pairs_in(trail: &[TrailStep]) -> usize
    ensures { result ≡ count_by is_pair trail.now }
{
    trail.iter().filter(|step| is_pair(step)).count()
}

/// Whether a step is a call that counts as its line of the log, and is in the trace.
fn is_call(calls: &[LoggedCall], step: &TrailStep) -> bool
    ensures { result ≡ is_call calls.now step.now }
{
    match step.origin {
        Origin::Logged(number) => match calls.get(number) {
            Some(logged) => is_counted(logged.part) && step.moment.is_some(),
            None => false,
        },
        _ => false,
    }
}

/// Whether a step is no call of the log, and is in the trace.
fn is_adopted(step: &TrailStep) -> bool
    ensures { result ≡ is_adopted step.now }
{
    !matches!(step.origin, Origin::Logged(_)) && step.moment.is_some()
}

/// Whether a step makes two ends of the log that are joined.
fn is_pair(step: &TrailStep) -> bool
    ensures { result ≡ is_pair step.now }
{
    matches!(step.origin, Origin::Pair(_)) && step.moment.is_some()
}
