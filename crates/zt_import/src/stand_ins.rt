//! Leaves out those calls on stand-ins that no event answers as the real object does.

use crate::arranged::Arranged;
use crate::plan::Plan;
use std::alloc::{AllocError, Global};
use std::collections::{HashMap, HashSet};
use zt_bits::Status;
use zt_logs::{CallLog, Cause, LogFault, LoggedCall, LoggedPacket, OtherKind};
use zt_rows::Call;

/// The rights of an event.
const EVENT_RIGHTS: u32 = 0xd003;

/// The rights of an end of an event pair.
const END_RIGHTS: u32 = 0xf003;

/// The mask that asks for all rights of the old handle.
const SAME_RIGHTS: u32 = 0x8000_0000;

/// The rights of a stand-in for an object of this kind.
pub(crate) fn rights_of(kind: OtherKind) -> u32 {
    if kind.has_ends() {
        END_RIGHTS
    } else {
        EVENT_RIGHTS
    }
}

/// The calls of a log on stand-ins.
#[derive(Drop)]
pub(crate) struct StandInUses {
    /// The rights for which a call asks instead, by its number, if it asks for more than a stand-in has.
    cut: HashMap<usize, u32>,
    /// The numbers of the calls that are left out.
    left: HashSet<usize>,
    /// How many packets of waits on stand-ins a port may still get, by the port's object and the key.
    waits: HashMap<(usize, u64), u64>,
}

impl StandInUses {
    pub(crate) fn new(alloc: Global) -> StandInUses {
        StandInUses {
            cut: HashMap::new(alloc),
            left: HashSet::new(alloc),
            waits: HashMap::new(alloc),
        }
    }

    /// Cuts the rights for which a call asks to those that the stand-in has. `SAME_RIGHTS` stays.
    pub(crate) fn cut(&mut self, call: usize, rights: u32, has: u32) -> Result<(), AllocError> {
        if rights & SAME_RIGHTS == 0 && rights & has != rights {
            self.cut.insert(call, rights & has)?;
        }
        Ok(())
    }

    /// Leaves the call of this number out of the trace.
    pub(crate) fn leave(&mut self, call: usize) -> Result<(), AllocError> {
        self.left.insert(call)?;
        Ok(())
    }

    /// Adds a packet of this key that the port may get and that the trace does not have.
    pub(crate) fn add_wait(&mut self, port: usize, key: u64) -> Result<(), AllocError> {
        let count = self.waits.get(&(port, key)).copied().unwrap_or(0);
        self.waits.insert((port, key), count.saturating_add(1))?;
        Ok(())
    }

    /// Drops the packets of this key that the port may still get.
    pub(crate) fn end_waits(&mut self, port: usize, key: u64) -> Result<(), AllocError> {
        self.waits.insert((port, key), 0)?;
        Ok(())
    }

    /// Whether the port may still get such a packet. If so, takes it from the count.
    pub(crate) fn take_wait(&mut self, port: usize, key: u64) -> Result<bool, AllocError> {
        let count = self.waits.get(&(port, key)).copied().unwrap_or(0);
        if count == 0 {
            return Ok(false);
        }
        self.waits.insert((port, key), count.saturating_sub(1))?;
        Ok(true)
    }
}

/// The key of a signal packet that a call got.
pub(crate) fn signal_key(logged: &LoggedCall) -> Option<u64> {
    match logged.recorded.packet.get() {
        Some(LoggedPacket::Signal { key, .. }) => Some(key),
        _ => None,
    }
}

/// How many calls on stand-ins are left out, by name.
#[derive(Drop)]
pub struct LeftCalls {
    counts: Vec<LeftName>,
}

/// How many calls of one name are left out.
#[derive(Clone, Copy)]
pub(crate) struct LeftName {
    pub(crate) name: &'static str,
    pub(crate) count: u64,
}

impl LeftCalls {
    /// Whether no call is left out.
    pub fn is_empty(&self) -> bool {
        self.counts.is_empty()
    }

    /// Each name with its count, in the order of the log.
    pub(crate) fn counts(&self) -> &[LeftName] {
        self.counts.as_slice()
    }

    fn add(&mut self, name: &'static str) -> Result<(), AllocError> {
        for counted in self.counts.as_mut_slice() {
            if counted.name == name {
                counted.count = counted.count.saturating_add(1);
                return Ok(());
            }
        }
        self.counts.push(LeftName { name, count: 1 })?;
        Ok(())
    }
}

/// The line of the calls that are left out, without a line feed: each name with its count, in the order of the log. The
/// error is an allocation failure.
pub fn print_left(alloc: Global, left: &LeftCalls) -> Result<String, AllocError> {
    let mut text = String::new(alloc);
    text.push_str("on stand-ins: ")?;
    for place in 0..left.counts.len() {
        if place > 0 {
            text.push_str(", ")?;
        }
        let LeftName { name, count } = left.counts[place];
        write!(text, "{count} ")?;
        text.push_str(name)?;
    }
    Ok(text)
}

/// Removes those calls on stand-ins from a log that no event answers as the real object does. They are waits, cancels,
/// signals and `task_kill`, unless they are `bad_handle`, and each `port_wait` that got the packet of such a wait. Cuts the
/// rights that other calls ask for to those of a stand-in. The error is `SpawnedTwice` at a line, or `OutOfMemory`.
pub fn leave_out(alloc: Global, log: &mut CallLog) -> Result<LeftCalls, LogFault> {
    let mut left = LeftCalls {
        counts: Vec::new(alloc),
    };
    if !log.forms.stand_ins {
        return Ok(left);
    }
    let Ok(mut order) = Arranged::of(alloc, log.calls.len()) else {
        return Err(Cause::OutOfMemory.at(0));
    };
    let plan = Plan::of(alloc, log.calls.as_slice(), &mut order)?;
    let calls = std::mem::replace(&mut log.calls, Vec::new(alloc));
    match keep(&plan.uses, calls, &mut log.calls, &mut left) {
        Ok(()) => Ok(left),
        Err(_) => Err(Cause::OutOfMemory.at(0)),
    }
}

/// Keeps the calls that are not left out.
fn keep(
    uses: &StandInUses,
    calls: Vec<LoggedCall>,
    kept: &mut Vec<LoggedCall>,
    left: &mut LeftCalls,
) -> Result<(), AllocError> {
    let mut number = 0usize;
    for logged in calls {
        if uses.left.contains(&number) {
            left.add(name_of(&logged.call))?;
        } else {
            kept.push(cut_of(uses, number, logged))?;
        }
        number = number.saturating_add(1);
    }
    Ok(())
}

/// The call, with its rights cut to those of a stand-in.
fn cut_of(uses: &StandInUses, number: usize, mut logged: LoggedCall) -> LoggedCall {
    let Some(rights) = uses.cut.get(&number).copied() else {
        return logged;
    };
    let Some(call) = with_rights(&logged.call, rights) else {
        return logged;
    };
    logged.call = call;
    logged
}

/// A call that asks for these rights instead of its own. None if it asks for no rights.
fn with_rights(call: &Call, rights: u32) -> Option<Call> {
    match call {
        Call::HandleDuplicate { handle, .. } => Some(Call::HandleDuplicate {
            handle: *handle,
            rights,
        }),
        Call::HandleReplace { handle, .. } => Some(Call::HandleReplace {
            handle: *handle,
            rights,
        }),
        _ => None,
    }
}

/// The name of a call that is left out.
fn name_of(call: &Call) -> &'static str {
    match call {
        Call::ObjectSignal { .. } => "zx_object_signal",
        Call::ObjectSignalPeer { .. } => "zx_object_signal_peer",
        Call::ObjectWaitAsync { .. } => "zx_object_wait_async",
        Call::PortWait { .. } => "zx_port_wait",
        Call::PortCancel { .. } => "zx_port_cancel",
        _ => "zx_task_kill",
    }
}

/// Whether a call with this status found its handles.
pub(crate) fn found(status: Option<Status>) -> bool {
    status != Some(Status::BadHandle)
}
