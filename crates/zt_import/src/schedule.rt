//! Tells which replies differ by the schedule: they may differ only because threads ran in another order.

ghost use Rattle.std.specs.Prelude.{◌≡◌, ◌++◌, ◌∷◌, [], IfOk, OnOk, map, slice_set};
ghost use Rattle.std.specs.Option.{option_copied};
ghost use Rattle.zt_import.specs.Schedule.{around, by_schedule, is_met, is_met_by, is_met_on, is_near, is_shortly_before, sought_for};
ghost use Rattle.zt_import.specs.Trails.{asked_in, not_asked, put_asked, put_call};

use crate::comparison::may_be_scheduled;
use crate::order::MOST_LINES;
use crate::taken::Taken;
use crate::trail::{Origin, TrailStep};
use std::alloc::{AllocError, Global};
use zt_bits::Status;
use zt_logs::{Cause, LoggedCall, LoggedPacket};
use zt_rows::{Koid, Moment};

/// How many calls of the log ahead of a wait are searched, and how many behind it.
const CALLS_NEAR: usize = MOST_LINES as usize;

/// A call of the log with its line, and with its moment if it made one.
#[derive(Clone, Copy, Debug)]
pub(crate) struct AskedCall {
    pub(crate) line: u64,
    pub(crate) moment: Option<Moment>,
}

/// The state of a port's queue that must be found near a `port_wait`, so that it differs by the schedule.
#[derive(Clone, Copy)]
pub(crate) enum Sought {
    /// The queue has the packet that the log has, before the wait or after it. Any packet will do if the log tells none.
    Queued(Option<LoggedPacket>),
    /// The queue is empty before the wait.
    Empty,
}

/// The calls of the log, each at its own place, with the moments that the steps of a trail made. The error is an allocation
/// failure.
pub(crate) fn asked_in(
    alloc: Global,
    calls: &[LoggedCall],
    trail: &[TrailStep],
) -> Result<Vec<AskedCall>, AllocError>
    ensures { IfOk result (λ asked. asked.items ≡ asked_in calls.now trail.now) }
{
    let mut asked = not_asked(alloc, calls)?;
    for place in 0..trail.len() {
        put_asked(&mut asked, calls, trail[place]);
    }
    Ok(asked)
}

/// The calls of the log, without moments.
fn not_asked(alloc: Global, calls: &[LoggedCall]) -> Result<Vec<AskedCall>, AllocError>
    ensures { IfOk result (λ asked. asked.items ≡ map not_asked calls.now) }
{
    let mut asked = Vec::with_capacity(alloc, calls.len())?;
    for place in 0..calls.len() {
        push_call(&mut asked, calls[place].line, None)?;
    }
    Ok(asked)
}

/// Sets the moment of the call that a step is, if it is one of the log.
fn put_asked(asked: &mut Vec<AskedCall>, calls: &[LoggedCall], step: TrailStep)
    ensures { asked.new.items ≡ put_asked calls.now asked.old.items step }
{
    match step.origin {
        Origin::Logged(number) => put_call(asked, number, calls.get(number), step.moment),
        _ => {}
    }
}

/// Sets the moment of the call of this number, if there is one.
fn put_call(
    asked: &mut Vec<AskedCall>,
    number: usize,
    found: Option<&LoggedCall>,
    moment: Option<Moment>,
)
    ensures { asked.new.items ≡ put_call asked.old.items number (option_copied found.entry) moment }
{
    match found {
        Some(logged) => {
            let line = logged.line;
            set_asked(asked, number, AskedCall { line, moment })
        }
        None => {}
    }
}

/// Sets the call at a place, if the place is there.
#[tactic(auto, using(crate::proofs::AskedLaws::set_past))]
fn set_asked(asked: &mut Vec<AskedCall>, place: usize, call: AskedCall)
    ensures { asked.new.items ≡ slice_set asked.old.items place call }
{
    if place < asked.len() {
        asked[place] = call;
    }
}

/// Appends a call.
fn push_call(
    asked: &mut Vec<AskedCall>,
    line: u64,
    moment: Option<Moment>,
) -> Result<(), AllocError>
    ensures { OnOk result (asked.new.items ≡ asked.old.items ++ record { line = line; moment = moment } ∷ []) }
{
    match asked.push(AskedCall { line, moment }) {
        Ok(()) => Ok(()),
        Err(_) => Err(AllocError),
    }
}

/// Whether the reply of this call differs by the schedule. It looks at the states of at most 1,025 calls of the log, and
/// there only at the port's queue.
pub(crate) fn is_by_schedule(
    taken: &mut Taken,
    asked: &[AskedCall],
    logged: &LoggedCall,
    number: usize,
    moment: Option<Moment>,
) -> Result<bool, Cause>
    ensures found { IfOk result (λ found. found ≡ by_schedule taken.old.tree.made asked.now logged.now number moment) }
    ensures same { taken.new ≡ taken.old }
{
    let Some(made) = moment else {
        return Ok(false);
    };
    if !may_be_scheduled(logged, taken.reply(&moment)) {
        return Ok(false);
    }
    let port = taken.port_at(made)?;
    is_met_on(taken, around(asked, number), logged, port, made)
}

/// Whether the state that must be found near a wait on this port is found there.
fn is_met_on(
    taken: &mut Taken,
    asked: &[AskedCall],
    logged: &LoggedCall,
    port: Option<Koid>,
    waited: Moment,
) -> Result<bool, Cause>
    ensures found { IfOk result (λ found. found ≡ is_met_on taken.old.tree.made port logged.now waited asked.now) }
    ensures same { taken.new ≡ taken.old }
{
    match port {
        Some(port) => {
            let sought = sought_for(logged.recorded.status, logged.recorded.packet.get());
            is_met(taken, asked, port, logged.line, waited, sought)
        }
        None => Ok(false),
    }
}

/// The state that must be found near a wait with this status and packet in the log.
fn sought_for(status: Option<Status>, packet: Option<LoggedPacket>) -> Sought
    ensures { result ≡ sought_for status packet }
{
    match status {
        Some(Status::TimedOut) => Sought::Empty,
        _ => Sought::Queued(packet),
    }
}

/// The calls around this one: 512 ahead of it, itself, and 512 behind it. Fewer calls ahead of it mean as many more behind
/// it.
fn around(asked: &[AskedCall], number: usize) -> &[AskedCall]
    ensures { result.now ≡ around number asked.now }
{
    let first = number.saturating_sub(CALLS_NEAR).min(asked.len());
    let behind = &asked[first..];
    &behind[..behind.len().min(2 * CALLS_NEAR + 1)]
}

/// Whether it is found at the moment of one of these calls.
fn is_met(
    taken: &mut Taken,
    asked: &[AskedCall],
    port: Koid,
    line: u64,
    waited: Moment,
    sought: Sought,
) -> Result<bool, Cause>
    ensures found { IfOk result (λ found. found ≡ is_met taken.old.tree.made port line waited sought asked.now) }
    ensures same { taken.new ≡ taken.old }
{
    for place in 0..asked.len() {
        if is_met_by(taken, asked[place], port, line, waited, sought)? {
            return Ok(true);
        }
    }
    Ok(false)
}

/// Whether it is found at the moment of this call.
fn is_met_by(
    taken: &mut Taken,
    asked: AskedCall,
    port: Koid,
    line: u64,
    waited: Moment,
    sought: Sought,
) -> Result<bool, Cause>
    ensures found { IfOk result (λ found. found ≡ is_met_by taken.old.tree.made port line waited sought asked) }
    ensures same { taken.new ≡ taken.old }
{
    let Some(moment) = asked.moment else {
        return Ok(false);
    };
    match sought {
        Sought::Queued(packet) => {
            if !is_near(line, asked.line) {
                return Ok(false);
            }
            taken.holds(moment, port, packet)
        }
        Sought::Empty => {
            if !(is_shortly_before(line, asked.line) && moment < waited) {
                return Ok(false);
            }
            let holds = taken.holds(moment, port, None)?;
            Ok(!holds)
        }
    }
}

/// Whether the lines are at most `MOST_LINES` apart.
fn is_near(line: u64, other: u64) -> bool
    ensures { result ≡ is_near line other }
{
    line.abs_diff(other) <= MOST_LINES
}

/// Whether `other` is 1 to `MOST_LINES` lines before `line`.
fn is_shortly_before(line: u64, other: u64) -> bool
    ensures { result ≡ is_shortly_before line other }
{
    other < line && line - other <= MOST_LINES
}
