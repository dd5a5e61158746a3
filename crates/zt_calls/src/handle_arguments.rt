//! Checks the handles and signals that calls take as arguments.

ghost use Rattle.std.specs.Prelude.{◌≡◌};
ghost use Rattle.zt_rows.specs.ObjectCalls.{may_set};
ghost use Rattle.zt_calls.specs.ProofsOnly.ExpectedKinds.{takes, wrong_kind, handle_to};

use bitflags::Flags;
use zt_bits::{Kind, Rights, Signals, Status, settable};
use zt_rows::{HandleValue, Held, Koid, ObjectRow};
use zt_store::Step;

/// The kind of object that a call takes by a handle.
#[derive(Clone, Copy, Debug)]
pub enum ExpectedKind {
    Any,
    Channel,
    Port,
    Job,
    Process,
    /// A process or a job.
    Task,
    /// An end of a channel or of a pair of events.
    Endpoint,
}

impl ExpectedKind {
    /// Whether the kind is among those that are wanted.
    pub fn takes(self, kind: Kind) -> bool
        ensures { result ≡ takes self kind }
    {
        match self {
            ExpectedKind::Any => true,
            ExpectedKind::Channel => kind == Kind::Channel,
            ExpectedKind::Port => kind == Kind::Port,
            ExpectedKind::Job => kind == Kind::Job,
            ExpectedKind::Process => kind == Kind::Process,
            ExpectedKind::Task => kind == Kind::Job || kind == Kind::Process,
            ExpectedKind::Endpoint => kind == Kind::Channel || kind == Kind::EventPair,
        }
    }

    /// The status for a handle to an object of another kind: `NotSupported` if an endpoint is wanted, otherwise
    /// `WrongType`.
    pub fn wrong_kind(self) -> Status
        ensures { result ≡ wrong_kind self }
    {
        match self {
            ExpectedKind::Endpoint => Status::NotSupported,
            _ => Status::WrongType,
        }
    }
}

/// A handle that a call takes as an argument, and the row of the object that it names.
///
/// Errors, in the order of the checks:
///
/// - `BadHandle`, if the handle is not valid;
/// - `WrongType`, if its object is not of a expected kind; `NotSupported` instead, if an endpoint is wanted;
/// - `AccessDenied`, if it lacks the right.
pub fn handle_to(
    step: &Step,
    process: Koid,
    handle: HandleValue,
    wanted: ExpectedKind,
    right: Rights,
) -> Result<(Held, ObjectRow), Status>
    ensures { result ≡ handle_to step.now.current process handle wanted right.0 }
{
    let held = step
        .store()
        .entry(process, handle)
        .ok_or(Status::BadHandle)?;
    let object = step.store().object(held.koid).ok_or(Status::BadHandle)?;
    if !wanted.takes(object.kind) {
        return Err(wanted.wrong_kind());
    }
    if !held.rights.allows(right) {
        return Err(Status::AccessDenied);
    }
    Ok((held, object))
}

/// Whether a call may clear and set these signals on an object of the kind.
pub fn may_set(kind: Kind, clear: Signals, set: Signals) -> bool
    ensures { result ≡ may_set kind clear.0 set.0 }
{
    settable(kind).contains(clear) && settable(kind).contains(set)
}
