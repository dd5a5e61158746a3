//! The order in which the calls of a log run: the order of the log, except for calls that are moved ahead.

ghost use Rattle.std.specs.Prelude.{◌≡◌, ◌∷◌, ◌++◌, [], IfOk, OnOk};
ghost use Rattle.std.specs.Option.{option_copied};
ghost use Rattle.zt_import.specs.Orders.{IsOrder, is_earlier, is_near_behind, is_begun_by, may_pass, may_pass_any, may_precede};
ghost use Rattle.zt_import.specs.Trails.{below};

use std::alloc::{AllocError, Global};
use zt_logs::{LogTime, LoggedCall};

/// The distance in lines within which two calls are near each other. No call is moved ahead of a line that is farther.
pub(crate) const MOST_LINES: u64 = 512;

/// A move of a call to an earlier place.
#[derive(Clone, Copy, Debug)]
pub(crate) struct Move {
    pub(crate) from: usize,
    pub(crate) to: usize,
}

/// The numbers of the calls in the order to which these moves lead, one after another. A call stops where it may pass no
/// further.
pub(crate) fn ordered(
    alloc: Global,
    calls: &[LoggedCall],
    moves: &[Move],
) -> Result<Vec<usize>, AllocError>
    ensures { IfOk result (λ numbers. IsOrder calls.now numbers.items) }
{
    let mut numbers = numbers_below(alloc, calls.len())?;
    for place in 0..moves.len() {
        let _is_there = move_ahead(calls, &mut numbers, moves[place]);
    }
    Ok(numbers)
}

/// The numbers below `count`, in order.
fn numbers_below(alloc: Global, count: usize) -> Result<Vec<usize>, AllocError>
    ensures { IfOk result (λ numbers. numbers.items ≡ below count) }
{
    let mut numbers = Vec::with_capacity(alloc, count)?;
    for number in 0..count {
        push_number(&mut numbers, number)?;
    }
    Ok(numbers)
}

/// Appends a number.
fn push_number(numbers: &mut Vec<usize>, number: usize) -> Result<(), AllocError>
    ensures { OnOk result (numbers.new.items ≡ numbers.old.items ++ number ∷ []) }
{
    match numbers.push(number) {
        Ok(()) => Ok(()),
        Err(_) => Err(AllocError),
    }
}

/// Moves a call ahead as far as it may go. Returns whether it reached its place.
pub(crate) fn move_ahead(calls: &[LoggedCall], numbers: &mut Vec<usize>, made: Move) -> bool
    ensures { IsOrder calls.now numbers.old.items → IsOrder calls.now numbers.new.items }
{
    let mut place = made.from;
    while place > made.to {
        if !pass(calls, numbers, place - 1) {
            return false;
        }
        place -= 1;
    }
    true
}

/// Swaps the calls at `place` and behind it, if the one behind may stand ahead. Returns whether it did.
fn pass(calls: &[LoggedCall], numbers: &mut Vec<usize>, place: usize) -> bool
    ensures { IsOrder calls.now numbers.old.items → IsOrder calls.now numbers.new.items }
{
    if place >= numbers.len() || numbers.len() - place < 2 {
        return false;
    }
    if !may_precede(calls, numbers[place + 1], numbers[place]) {
        return false;
    }
    numbers.swap(place, place + 1);
    true
}

/// Whether call `one` may stand ahead of call `other`: it does in the log, or it may pass that call.
pub(crate) fn may_precede(calls: &[LoggedCall], one: usize, other: usize) -> bool
    ensures { result ≡ may_precede calls.now one other }
{
    one < other || may_pass_any(calls.get(one), calls.get(other))
}

/// Whether the later of two calls may pass the earlier. No if one of them is missing.
fn may_pass_any(later: Option<&LoggedCall>, earlier: Option<&LoggedCall>) -> bool
    ensures { result ≡ may_pass_any (option_copied later.entry) (option_copied earlier.entry) }
{
    match later {
        Some(later) => match earlier {
            Some(earlier) => may_pass(later, earlier),
            None => false,
        },
        None => false,
    }
}

/// Whether a call may be moved ahead of one that returned before it.
fn may_pass(later: &LoggedCall, earlier: &LoggedCall) -> bool
    ensures { result ≡ may_pass later.now earlier.now }
{
    later.process != earlier.process
        && is_near_behind(later.line, earlier.line)
        && is_begun_by(later, earlier)
}

/// Whether `line` is at most `MOST_LINES` lines behind `other`, or is not behind it.
fn is_near_behind(line: u64, other: u64) -> bool
    ensures { result ≡ is_near_behind line other }
{
    line <= other || line - other <= MOST_LINES
}

/// Whether a call had begun when another returned. Yes if the log does not tell.
fn is_begun_by(later: &LoggedCall, earlier: &LoggedCall) -> bool
    ensures { result ≡ is_begun_by later.now earlier.now }
{
    match later.times.began {
        None => true,
        Some(began) => match later.times.ended {
            None => began.whole <= earlier.line,
            Some(_) => match earlier.times.ended {
                Some(ended) => !is_earlier(ended, began),
                None => true,
            },
        },
    }
}

fn is_earlier(time: LogTime, other: LogTime) -> bool
    ensures { result ≡ is_earlier time other }
{
    time.whole < other.whole || time.whole == other.whole && time.part < other.part
}
