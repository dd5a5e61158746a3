//! Looks for an order of a log's calls in which more replies agree with the log.

use crate::adoption::Adoption;
use crate::arranged::Arranged;
use crate::causes::may_cause;
use crate::numbers::Numbers;
use crate::order::may_precede;
use crate::plan::Plan;
use crate::run_log::{learn, run_call};
use crate::scratch::Scratch;
use crate::taken::Taken;
use crate::trail::Origin;
use std::alloc::Global;
use std::collections::HashMap;
use zt_bits::Status;
use zt_logs::{Cause, LogFault, LoggedCall};
use zt_rows::{Call, Moment};

/// The search stays closer than this many places to a call, ahead of it and behind it. A line can be several calls. So next
/// to a long `handle_close_many` the search can cover fewer than `MOST_LINES` lines.
const PLACES: usize = 1_024;

/// The calls of a log, and the plan of what they need.
#[derive(Clone, Copy)]
struct Log<'a> {
    calls: &'a [LoggedCall],
    plan: &'a Plan,
}

/// The call at a place of an order.
fn called_at<'a>(log: Log<'a>, order: &Arranged, place: usize) -> Option<&'a LoggedCall> {
    log.calls.get(order.at(place)?)
}

/// Runs the calls in an order, and moves calls ahead so that replies agree with the log: their own, or that of the call
/// behind. The error is `Full` or `OutOfMemory`, at line 0.
pub(crate) fn look(
    alloc: Global,
    calls: &[LoggedCall],
    plan: &Plan,
    order: &mut Arranged,
) -> Result<(), LogFault> {
    let Ok(mut taken) = Taken::new(alloc, calls.len()) else {
        return Err(Cause::OutOfMemory.at(0));
    };
    let Ok(mut scratch) = Scratch::new(alloc) else {
        return Err(Cause::OutOfMemory.at(0));
    };
    match look_at_all(alloc, Log { calls, plan }, &mut taken, &mut scratch, order) {
        Ok(()) => Ok(()),
        Err(cause) => Err(cause.at(0)),
    }
}

fn look_at_all(
    alloc: Global,
    log: Log<'_>,
    taken: &mut Taken,
    scratch: &mut Scratch,
    order: &mut Arranged,
) -> Result<(), Cause> {
    let mut numbers = Numbers::new(alloc);
    let mut adoption = Adoption::new(alloc);
    adoption.adopt_all(taken, &mut numbers, log.plan)?;
    for place in 0..log.calls.len() {
        scratch.reach(taken.history())?;
        let Some(index) = order.at(place) else {
            return Ok(());
        };
        adoption.write_outside(taken, log.plan, log.calls, index)?;
        if !run_agreeing(taken, &mut numbers, log, index)? {
            scratch.follow(taken.history())?;
            if let Some(next) = arrange(alloc, scratch, &mut numbers, log, order, place)? {
                run_anyway(taken, &mut numbers, log, next)?;
            }
        }
    }
    Ok(())
}

/// Runs a call of the log if its reply agrees with the log, or if no other order can make it agree. Returns whether it ran.
fn run_agreeing(
    taken: &mut Taken,
    numbers: &mut Numbers,
    log: Log<'_>,
    index: usize,
) -> Result<bool, Cause> {
    let Some(logged) = log.calls.get(index) else {
        return Ok(true);
    };
    let call = numbers.call(logged.process, &logged.call)?;
    let process = numbers.process(logged.process);
    if !taken.ask_agreeing(Origin::Logged(index), process, &call, logged)? {
        return Ok(false);
    }
    learn(numbers, log.plan, logged, taken.last_reply())?;
    Ok(true)
}

/// Runs a call of the log, whatever it answers.
fn run_anyway(
    taken: &mut Taken,
    numbers: &mut Numbers,
    log: Log<'_>,
    index: usize,
) -> Result<(), Cause> {
    let Some(logged) = log.calls.get(index) else {
        return Ok(());
    };
    let moment = run_call(taken, numbers, index, logged)?;
    learn(numbers, log.plan, logged, taken.reply(&moment))?;
    Ok(())
}

/// Changes the order so that the reply of the call at `place` agrees with the log, if that can be done. The cause is moved
/// ahead of it, or the call itself to an earlier place. Returns the call to run next, if there is one. A call that is moved
/// ahead of calls that ran is run only if it may have changed something.
fn arrange(
    alloc: Global,
    scratch: &mut Scratch,
    numbers: &mut Numbers,
    log: Log<'_>,
    order: &mut Arranged,
    place: usize,
) -> Result<Option<usize>, Cause> {
    if let Some(parts) = cause_of(alloc, scratch, numbers, log, order, place)? {
        for part in 0..parts.count {
            let from = parts.from.saturating_add(part);
            let _is_moved = order.move_ahead(log.calls, from, place.saturating_add(part))?;
        }
        return Ok(order.at(place));
    }
    let next = order.at(place);
    if let Some(to) = earlier_place(scratch, numbers, log, order, place)? {
        let _is_moved = order.move_ahead(log.calls, place, to)?;
        scratch.move_head(to)?;
        return Ok(next.filter(|index| may_change(log.calls, *index)));
    }
    Ok(next)
}

/// Whether the log says that a call was ok.
fn may_change(calls: &[LoggedCall], index: usize) -> bool {
    match calls.get(index) {
        Some(logged) => logged.recorded.status == Some(Status::Ok),
        None => false,
    }
}

/// Calls of one line, in a row.
#[derive(Clone, Copy)]
struct Parts {
    from: usize,
    count: usize,
}

/// The calls behind this one that make its reply agree with the log if they run first. They are the next of their process:
/// one call, or several of a line from there on.
fn cause_of(
    alloc: Global,
    scratch: &mut Scratch,
    numbers: &mut Numbers,
    log: Log<'_>,
    order: &Arranged,
    place: usize,
) -> Result<Option<Parts>, Cause> {
    let Some(logged) = called_at(log, order, place) else {
        return Ok(None);
    };
    if numbers.has_copies() {
        return Ok(None);
    }
    let mut seen = HashMap::new(alloc);
    see(&mut seen, logged.process)?;
    for from in place.saturating_add(1)..place.saturating_add(PLACES) {
        let Some(other) = called_at(log, order, from) else {
            return Ok(None);
        };
        if see(&mut seen, other.process)? {
            if let Some(parts) = causing(log, order, from, place) {
                if makes_agree(scratch, numbers, log, order, parts, logged)? {
                    return Ok(Some(parts));
                }
            }
        }
    }
    Ok(None)
}

/// Adds a process. Returns whether it was new.
fn see(seen: &mut HashMap<u64, ()>, process: u64) -> Result<bool, Cause> {
    match seen.insert(process, ()) {
        Ok(before) => Ok(before.is_none()),
        Err(_) => Err(Cause::OutOfMemory),
    }
}

/// The calls of a line from the one at `from` up to the first that may be the cause of the reply at `to`. None if one of
/// them may not be moved ahead of `to`.
fn causing(log: Log<'_>, order: &Arranged, from: usize, to: usize) -> Option<Parts> {
    let logged = called_at(log, order, to)?;
    let first = called_at(log, order, from)?;
    for count in 1..=first.part.count.saturating_sub(first.part.ahead) {
        let at = from.saturating_add(count.saturating_sub(1));
        let part = called_at(log, order, at)?;
        if part.process != first.process
            || part.line != first.line
            || !order.can_pass(log.calls, at, to, from)
        {
            return None;
        }
        if may_cause(part, logged) {
            return Some(Parts { from, count });
        }
    }
    None
}

/// Whether these calls agree with the log if they run now, and `logged` agrees behind them.
fn makes_agree(
    scratch: &mut Scratch,
    numbers: &mut Numbers,
    log: Log<'_>,
    order: &Arranged,
    parts: Parts,
    logged: &LoggedCall,
) -> Result<bool, Cause> {
    let mut moment = scratch.head();
    for part in 0..parts.count {
        let Some(cause) = called_at(log, order, parts.from.saturating_add(part)) else {
            return Ok(false);
        };
        match tried(scratch, numbers, moment, cause)? {
            Some(made) => {
                numbers.learn_copy(cause.part, scratch.reply(made))?;
                moment = made;
            }
            None => return Ok(false),
        }
    }
    let agrees = tried(scratch, numbers, moment, logged)?.is_some();
    numbers.forget_copies();
    Ok(agrees)
}

/// Tries a call of the log at a moment. Returns the moment that it makes, if its reply agrees with the log.
fn tried(
    scratch: &mut Scratch,
    numbers: &Numbers,
    at: Moment,
    logged: &LoggedCall,
) -> Result<Option<Moment>, Cause> {
    let call = numbers.call(logged.process, &logged.call)?;
    scratch.tried(at, numbers.process(logged.process), &call, &logged.recorded)
}

/// The search for the next call that takes from the same handle stays closer than this many places.
const NEXT: usize = 8_192;

/// Whether a call that got nothing in the log may have left what the trace has for it. It may if the next call of its
/// process that took something there got exactly that, or if there is no such call.
fn leaves_it(
    scratch: &mut Scratch,
    numbers: &Numbers,
    log: Log<'_>,
    order: &Arranged,
    place: usize,
) -> Result<bool, Cause> {
    let Some(logged) = called_at(log, order, place) else {
        return Ok(false);
    };
    if !takes(logged) || logged.recorded.status == Some(Status::Ok) {
        return Ok(true);
    }
    match next_that_took(log, order, place) {
        Some(next) => {
            let call = numbers.call(logged.process, &logged.call)?;
            let process = numbers.process(logged.process);
            let head = scratch.head();
            let taken = scratch.tried(head, process, &call, &next.recorded)?;
            Ok(taken.is_some())
        }
        None => Ok(true),
    }
}

/// Whether a call takes a message or a packet, if there is one.
fn takes(logged: &LoggedCall) -> bool {
    matches!(
        logged.call,
        Call::ChannelRead { .. } | Call::PortWait { .. }
    )
}

/// The next call of the same process that took something by the same handle value, in the log.
fn next_that_took<'a>(log: Log<'a>, order: &Arranged, place: usize) -> Option<&'a LoggedCall> {
    let first = called_at(log, order, place)?;
    for behind in 1..NEXT {
        let next = called_at(log, order, place.checked_add(behind)?)?;
        if next.process == first.process
            && next.recorded.status == Some(Status::Ok)
            && takes_from_same(&first.call, &next.call)
        {
            return Some(next);
        }
    }
    None
}

/// Whether both calls take a message, or both a packet, by the same handle value.
fn takes_from_same(first: &Call, next: &Call) -> bool {
    match (first, next) {
        (Call::ChannelRead { handle, .. }, Call::ChannelRead { handle: other, .. }) => {
            *handle == *other
        }
        (Call::PortWait { port }, Call::PortWait { port: other }) => *port == *other,
        _ => false,
    }
}

/// The nearest earlier place at which the reply of this call agrees with the log, if it may be moved there.
fn earlier_place(
    scratch: &mut Scratch,
    numbers: &Numbers,
    log: Log<'_>,
    order: &Arranged,
    place: usize,
) -> Result<Option<usize>, Cause> {
    let (Some(index), Some(logged)) = (order.at(place), called_at(log, order, place)) else {
        return Ok(None);
    };
    if !leaves_it(scratch, numbers, log, order, place)? {
        return Ok(None);
    }
    for back in 1..PLACES {
        let Some(to) = place.checked_sub(back) else {
            return Ok(None);
        };
        let Some(passed) = order.at(to) else {
            return Ok(None);
        };
        if !may_precede(log.calls, index, passed) {
            return Ok(None);
        }
        let at = scratch.before(to);
        if tried(scratch, numbers, at, logged)?.is_some() {
            return Ok(Some(to));
        }
    }
    Ok(None)
}
