//! Tells which calls of a trail are moved ahead of calls that the log has before them.

ghost use Rattle.std.specs.Prelude.{◌≡◌};
ghost use Rattle.zt_import.specs.Counts.{moved_in};
ghost use Rattle.zt_import.specs.Trails.{numbers_in};
ghost use Rattle.zt_import.specs.ProofsOnly.Least.{is_below, lesser};

use crate::trail::{Origin, TrailStep};
use std::alloc::{AllocError, Global};

/// How many calls stand ahead of a call that the log has before them.
pub fn moved_in(trail: &[TrailStep]) -> usize
    ensures { result ≡ moved_in (numbers_in trail.now) }
{
    let mut count = 0usize;
    let mut least = None;
    let mut place = trail.len();
    while place > 0 {
        place -= 1;
        if let Origin::Logged(number) = trail[place].origin {
            if is_below(least, number) {
                count += 1;
            }
            least = lesser(least, number);
        }
    }
    count
}

/// Whether `least` is below `number`.
fn is_below(least: Option<usize>, number: usize) -> bool
    ensures { result ≡ is_below least number }
{
    match least {
        Some(least) => least < number,
        None => false,
    }
}

/// The lesser of the two numbers.
fn lesser(least: Option<usize>, number: usize) -> Option<usize>
    ensures { result ≡ lesser least number }
{
    match least {
        Some(least) if least < number => Some(least),
        _ => Some(number),
    }
}

/// For each step, the first call of the log that it is moved ahead of; none if it is not moved. The steps behind the last
/// moved one are left out.
pub(crate) fn passed_by(
    alloc: Global,
    trail: &[TrailStep],
) -> Result<Vec<Option<usize>>, AllocError> {
    let mut passed = Vec::new(alloc);
    let mut run = RunCalls {
        are_run: vec![in alloc; false; trail.len()]?,
        next: 0,
    };
    for place in 0..trail.len() {
        if let Some(ahead) = run.step(trail[place].origin) {
            passed.resize(place, None)?;
            passed.push(Some(ahead))?;
        }
    }
    Ok(passed)
}

/// The calls of a log that were run so far.
#[derive(Drop)]
struct RunCalls {
    are_run: Vec<bool>,
    /// The first call that was not run.
    next: usize,
}

impl RunCalls {
    /// Adds a step. Returns the first call that has not run yet, if the log has it before the call of this step.
    fn step(&mut self, origin: Origin) -> Option<usize> {
        let Origin::Logged(number) = origin else {
            return None;
        };
        if let Some(is_run) = self.are_run.get_mut(number) {
            *is_run = true;
        }
        self.advance();
        if self.next < number {
            Some(self.next)
        } else {
            None
        }
    }

    /// Moves `next` past the calls that were run.
    fn advance(&mut self) {
        for number in self.next..self.are_run.len() {
            if self.are_run.get(number).copied() != Some(true) {
                return;
            }
            self.next = number.saturating_add(1);
        }
    }
}
