//! Joins processes that one line of a log makes and another starts. Each is one spawn here.

use crate::used_handles::handles_in;
use std::alloc::{AllocError, Global};
use std::collections::HashMap;
use zt_bits::Status;
use zt_logs::{
    CallLog, CallTimes, Cause, LineForm, LinePart, LogFault, LoggedCall, OtherKind, StartNote,
};
use zt_rows::{Call, HandleValue};

/// A process that was made and is not yet started.
#[derive(Clone, Copy)]
struct Pending {
    /// The number of the call that made it.
    made: usize,
    /// The number of the first call behind that one that uses its handle.
    used: Option<usize>,
}

/// A process that was made and started.
#[derive(Clone, Copy)]
struct Started {
    pending: Pending,
    /// The number of the call that started it.
    started: usize,
}

/// The calls of a log that stand at another place in the trace, or are not in it.
#[derive(Drop)]
pub(crate) struct Places {
    /// The call ahead of which a call stands, by its number.
    ahead_of: HashMap<usize, usize>,
    /// The numbers of the calls that are not in the trace.
    gone: HashMap<usize, ()>,
}

impl Places {
    pub(crate) fn new(alloc: Global) -> Places {
        Places {
            ahead_of: HashMap::new(alloc),
            gone: HashMap::new(alloc),
        }
    }

    /// Puts a call ahead of another.
    pub(crate) fn put(&mut self, call: usize, other: usize) -> Result<(), AllocError> {
        self.ahead_of.insert(call, other)?;
        Ok(())
    }

    /// Leaves a call out of the trace.
    fn leave(&mut self, call: usize) -> Result<(), AllocError> {
        self.gone.insert(call, ())?;
        Ok(())
    }

    fn is_empty(&self) -> bool {
        self.ahead_of.is_empty() && self.gone.is_empty()
    }

    /// The place of a call, as a number to sort by. Calls that stay have odd numbers, so that others fit between them.
    fn key(&self, call: usize) -> usize {
        match self.ahead_of.get(&call).copied() {
            Some(other) => other.saturating_mul(2),
            None => call.saturating_mul(2).saturating_add(1),
        }
    }

    /// Puts the calls of the log at their places.
    pub(crate) fn apply(&self, alloc: Global, log: &mut CallLog) -> Result<(), AllocError> {
        if self.is_empty() {
            return Ok(());
        }
        let calls = std::mem::replace(&mut log.calls, Vec::new(alloc));
        let mut placed = Vec::new(alloc);
        let mut number = 0usize;
        for logged in calls {
            if !self.gone.contains_key(&number) {
                placed.push(Placed {
                    key: self.key(number),
                    logged,
                })?;
            }
            number = number.saturating_add(1);
        }
        placed.sort_by_key(|placed| placed.key)?;
        for it in placed {
            let Placed { key: _, logged } = it;
            log.calls.push(logged)?;
        }
        Ok(())
    }
}

/// A call with its place.
#[derive(Drop)]
struct Placed {
    key: usize,
    logged: LoggedCall,
}

/// Makes one spawn of each `process_create` and the `process_start` of its process. It stands at the start, or right before
/// the first call in between that uses the process's handle. The error is an allocation failure, at line 0.
pub fn join_starts(alloc: Global, log: &mut CallLog) -> Result<(), LogFault> {
    if !log.forms.starts {
        return Ok(());
    }
    match joined(alloc, log) {
        Ok(()) => Ok(()),
        Err(_) => Err(Cause::OutOfMemory.at(0)),
    }
}

fn is_start(logged: &LoggedCall) -> bool {
    logged.part.form == LineForm::Start
}

fn joined(alloc: Global, log: &mut CallLog) -> Result<(), AllocError> {
    let mut places = Places::new(alloc);
    let started = started_in(alloc, log, &mut places)?;
    for it in started.as_slice() {
        join(alloc, log, &mut places, *it)?;
    }
    places.apply(alloc, log)
}

/// The processes that the log makes and starts. A start of any other process is left out, with a note.
fn started_in(
    alloc: Global,
    log: &mut CallLog,
    places: &mut Places,
) -> Result<Vec<Started>, AllocError> {
    let mut made = MadeProcesses {
        pending: HashMap::new(alloc),
        started: Vec::new(alloc),
        unknown: Vec::new(alloc),
    };
    for number in 0..log.calls.len() {
        made.see(alloc, places, &log.calls[number], number)?;
    }
    for line in made.unknown.as_slice() {
        log.notes.add_start(*line, StartNote::Unknown)?;
    }
    let MadeProcesses {
        pending: _pending,
        started,
        unknown: _unknown,
    } = made;
    Ok(started)
}

/// The processes that one line of a log makes and another starts.
#[derive(Drop)]
struct MadeProcesses {
    /// The processes that were made, by the maker and its handle.
    pending: HashMap<(u64, u32), Pending>,
    started: Vec<Started>,
    /// The lines that start other processes.
    unknown: Vec<u64>,
}

impl MadeProcesses {
    /// Goes over a call of the log.
    fn see(
        &mut self,
        alloc: Global,
        places: &mut Places,
        logged: &LoggedCall,
        number: usize,
    ) -> Result<(), AllocError> {
        if is_start(logged) {
            places.leave(number)?;
            return self.see_start(logged, number);
        }
        use_all(alloc, &mut self.pending, logged, number)?;
        match made_by(logged) {
            Some(handle) => self.see_made(logged.process, handle, number),
            None => Ok(()),
        }
    }

    /// Adds a process that is started, unless the start failed.
    fn see_start(&mut self, logged: &LoggedCall, number: usize) -> Result<(), AllocError> {
        match started_by(&self.pending, logged) {
            Some(pending) => {
                if logged.recorded.status == Some(Status::Ok) {
                    self.started.push(Started {
                        pending,
                        started: number,
                    })?;
                }
                Ok(())
            }
            None => {
                self.unknown.push(logged.line)?;
                Ok(())
            }
        }
    }

    /// Adds a process that the call of this number made.
    fn see_made(
        &mut self,
        process: u64,
        handle: HandleValue,
        number: usize,
    ) -> Result<(), AllocError> {
        let pending = Pending {
            made: number,
            used: None,
        };
        self.pending.insert((process, handle.0), pending)?;
        Ok(())
    }
}

/// The process that a call starts, if the log made it.
fn started_by(all: &HashMap<(u64, u32), Pending>, logged: &LoggedCall) -> Option<Pending> {
    let Call::Spawn { job, .. } = &logged.call else {
        return None;
    };
    all.get(&(logged.process, job.0)).copied()
}

/// The handle to a process that a call made and that another line may start.
fn made_by(logged: &LoggedCall) -> Option<HandleValue> {
    if logged.part.form != LineForm::Create {
        return None;
    }
    match (&logged.call, logged.recorded.handles.as_slice()) {
        (Call::Spawn { .. }, [handle]) => Some(*handle),
        _ => None,
    }
}

/// Notes the first use of each process that was made, if this call names its handle.
fn use_all(
    alloc: Global,
    all: &mut HashMap<(u64, u32), Pending>,
    logged: &LoggedCall,
    number: usize,
) -> Result<(), AllocError> {
    let used = handles_in(alloc, &logged.call)?;
    for handle in used.as_slice() {
        if let Some(pending) = all.get(&(logged.process, handle.0)).copied() {
            if pending.used.is_none() {
                let used = Some(number);
                all.insert((logged.process, handle.0), Pending { used, ..pending })?;
            }
        }
    }
    Ok(())
}

/// Makes one spawn of the call that made a process and the call that started it.
fn join(
    alloc: Global,
    log: &mut CallLog,
    places: &mut Places,
    it: Started,
) -> Result<(), AllocError> {
    let Started { pending, started } = it;
    let Some(start) = start_in(log.calls.as_slice(), started) else {
        return Ok(());
    };
    let is_late = comes_late(alloc, log.calls.as_slice(), &start, pending.used, started)?;
    if is_late {
        log.notes.add_start(start.line, StartNote::LateArgument)?;
    }
    stand_alone(log.calls.as_mut_slice(), pending.made);
    log.forms.stand_ins = true;
    let argument = given(start.argument, is_late);
    if let Some(call) = spawned(log.calls.as_slice(), pending.made, argument) {
        set_call(log.calls.as_mut_slice(), pending.made, call);
    }
    set_line(log.calls.as_mut_slice(), pending, &start);
    set_process(log.calls.as_mut_slice(), pending.made, start.process);
    let place = match pending.used {
        Some(used) => used,
        None => started,
    };
    places.put(pending.made, place)
}

/// The start of a process, as its line has it.
#[derive(Clone, Copy)]
struct Start {
    line: u64,
    caller: u64,
    /// The handle that the process is given.
    argument: HandleValue,
    /// The number of the process, if the line tells it.
    process: Option<u64>,
    times: CallTimes,
}

/// The times of a call of which no line tells when it began or returned.
const NO_TIMES: CallTimes = CallTimes {
    began: None,
    ended: None,
};

fn start_in(calls: &[LoggedCall], number: usize) -> Option<Start> {
    let logged = calls.get(number)?;
    match &logged.call {
        Call::Spawn { argument, .. } => Some(Start {
            line: logged.line,
            caller: logged.process,
            argument: *argument,
            process: logged.recorded.process,
            times: logged.times,
        }),
        _ => None,
    }
}

/// The call that made a process, with the argument of its start.
fn spawned(calls: &[LoggedCall], made: usize, argument: HandleValue) -> Option<Call> {
    let logged = calls.get(made)?;
    match &logged.call {
        Call::Spawn { job, .. } => Some(Call::Spawn {
            job: *job,
            argument,
        }),
        _ => None,
    }
}

fn set_call(calls: &mut [LoggedCall], number: usize, call: Call) {
    let Some(logged) = calls.get_mut(number) else {
        return;
    };
    logged.call = call;
}

/// Gives a spawn the line and the times of its start. If a call in between uses the process, it keeps its own line. It then
/// has no times, since neither line tells when it ran.
fn set_line(calls: &mut [LoggedCall], pending: Pending, start: &Start) {
    let Some(logged) = calls.get_mut(pending.made) else {
        return;
    };
    if pending.used.is_none() {
        logged.line = start.line;
        logged.times = start.times;
    } else {
        logged.times = NO_TIMES;
    }
}

/// Gives the process the number that its start tells, if it tells one.
fn set_process(calls: &mut [LoggedCall], number: usize, process: Option<u64>) {
    let Some(logged) = calls.get_mut(number) else {
        return;
    };
    if process.is_some() {
        logged.recorded.process = process;
    }
}

/// The handle that the process is given; 0 if it comes too late.
fn given(argument: HandleValue, is_late: bool) -> HandleValue {
    if is_late { HandleValue(0) } else { argument }
}

/// Whether the argument of a start comes too late: the caller used or got it after the first use of the process, or in it.
fn comes_late(
    alloc: Global,
    calls: &[LoggedCall],
    start: &Start,
    used: Option<usize>,
    started: usize,
) -> Result<bool, AllocError> {
    match used {
        Some(first) => is_used(alloc, calls, start, first, started),
        None => Ok(false),
    }
}

/// Whether a call of the caller, from `first` up to the start, uses or gives the argument.
fn is_used(
    alloc: Global,
    calls: &[LoggedCall],
    start: &Start,
    first: usize,
    last: usize,
) -> Result<bool, AllocError> {
    let argument = start.argument;
    let caller = start.caller;
    if argument.0 == 0 {
        return Ok(false);
    }
    for number in first..last {
        if let Some(logged) = calls.get(number) {
            if logged.process == caller && names(alloc, logged, argument)? {
                return Ok(true);
            }
        }
    }
    Ok(false)
}

/// Whether a call uses or gives a handle.
fn names(alloc: Global, logged: &LoggedCall, handle: HandleValue) -> Result<bool, AllocError> {
    let used = handles_in(alloc, &logged.call)?;
    Ok(used.as_slice().contains(&handle) || logged.recorded.handles.as_slice().contains(&handle))
}

/// Makes a call the only one of its line. The event for the address space of its process becomes one too.
fn stand_alone(calls: &mut [LoggedCall], number: usize) {
    let Some(logged) = calls.get_mut(number) else {
        return;
    };
    let ahead = logged.part.ahead;
    logged.part = alone(LineForm::Create);
    for place in number.saturating_sub(ahead)..number {
        if let Some(space) = calls.get_mut(place) {
            space.part = alone(LineForm::StandIn(OtherKind::Vmar));
        }
    }
}

fn alone(form: LineForm) -> LinePart {
    LinePart {
        form,
        ahead: 0,
        count: 1,
        gives: None,
        is_apart: false,
    }
}
