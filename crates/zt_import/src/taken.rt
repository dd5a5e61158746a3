//! The history to which a log is taken, and the calls that were asked of it.

ghost use Rattle.std.specs.Prelude.{◌≡◌, ◌<◌, [], ◌∷◌, ◌++◌, true, IfOk, OnOk, OnErr, length, vec_len, vec_capacity};
ghost use Rattle.std.specs.Option.{option_copied};
ghost use Rattle.zt_history.specs.Tree.{opening_tree};
ghost use Rattle.zt_history.specs.Tree.{state_at};
ghost use Rattle.zt_import.specs.Schedule.{holds, port_at};
ghost use Rattle.zt_import.specs.Trails.{answer_at, IsMadeOf};
ghost use Rattle.zt_import.specs.ProofsOnly.TakenCalls.{IsTakenTrail, IsOneStepMore, IsAside, IsCallAt, IsTriedAt, is_beside};

use crate::causes::may_be_by_order;
use crate::comparison::agrees;
use crate::mapped::Mapped;
use crate::port_queue::{holds, port_of};
use crate::trail::{HandleOrigin, Origin, TrailStep};
use std::alloc::{AllocError, Global};
use std::marker::Model;
use zt_history::{BranchId, History};
use zt_logs::{Cause, LoggedCall, LoggedPacket};
use zt_rows::{Call, Koid, Moment, Refusal, Reply};

/// The branch on which all calls are made.
const MAIN: BranchId = BranchId(0);

/// The calls that were asked of a history, each at the head of `main`.
pub(crate) struct Taken {
    history: History,
    trail: Vec<TrailStep>,
    /// The adopted handles, by their numbers.
    adopted: Vec<HandleOrigin>,
    /// What stands for the log's processes and handles, once all calls were asked.
    mapped: Mapped,
}

impl Drop for Taken {
    fn drop(self) {
        let Taken {
            history: _history,
            trail: _trail,
            adopted: _adopted,
            mapped: _mapped,
        } = self;
    }
}

impl Model for Taken {
    ghost use Rattle.zt_import.specs.ProofsOnly.TakenCalls.{TakenView, IsTakenTrail};

    ghost Value = { TakenView };

    ghost view = { λ t. record { tree = t.history.tree; trail = t.trail.items } };

    ghost invariant = { λ t. IsTakenTrail t.history.tree t.trail.items };
}

impl Taken {
    /// A new history, of which no call was asked, with room for the steps of this many calls.
    pub(crate) fn new(alloc: Global, calls: usize) -> Result<Taken, AllocError>
        ensures { IfOk result (λ taken. taken ≡ record { tree = opening_tree; trail = [] }) }
    {
        let history = History::new(alloc)?;
        Ok(Taken {
            history,
            trail: Vec::with_capacity(alloc, calls)?,
            adopted: Vec::new(alloc),
            mapped: Mapped::new(alloc),
        })
    }

    /// Adds an adopted handle. Returns its number.
    pub(crate) fn add_adopted(&mut self, origin: HandleOrigin) -> Result<usize, AllocError>
        ensures { self.new ≡ self.old }
    {
        let number = self.adopted.len();
        self.adopted.push(origin)?;
        Ok(number)
    }

    /// The adopted handles, by their numbers.
    pub(crate) fn adopted(&self) -> &[HandleOrigin] {
        self.adopted.as_slice()
    }

    /// Keeps what stands for the log's processes and handles.
    pub(crate) fn keep(&mut self, mapped: Mapped)
        ensures { self.new ≡ self.old }
    {
        self.mapped = mapped;
    }

    /// What stands for the log's processes and handles.
    pub(crate) fn mapped(&self) -> &Mapped {
        &self.mapped
    }

    /// The history of the calls.
    pub(crate) fn history(&self) -> &History
        ensures tree { result.now.tree ≡ self.now.tree }
        ensures taken { IsTakenTrail self.now.tree self.now.trail }
    {
        &self.history
    }

    /// The calls, in the order in which they were asked.
    pub(crate) fn trail(&self) -> &[TrailStep]
        ensures { result.now ≡ self.now.trail }
    {
        self.trail.as_slice()
    }

    /// Asks a call of a process, and returns the moment that it makes. None if the process is not alive. The error is
    /// `Full` or `OutOfMemory`; then the call is not asked.
    pub(crate) fn ask(
        &mut self,
        origin: Origin,
        process: Koid,
        call: &Call,
    ) -> Result<Option<Moment>, Cause>
        ensures one { IfOk result (λ moment. IsOneStepMore self.old self.new (record { origin = origin; moment = moment })) }
        ensures made { IfOk result (λ moment. IsMadeOf self.new.tree.made moment process call.now) }
    {
        self.trail.reserve(1)?;
        match called(&mut self.history, process, call)? {
            Some(moment) => {
                push_kept(&mut self.trail, origin, Some(moment));
                Ok(Some(moment))
            }
            None => {
                push_kept(&mut self.trail, origin, None);
                Ok(None)
            }
        }
    }

    /// Asks a call of the log, and keeps it if its reply agrees with the log, or if no other order can make it agree.
    /// Returns whether it is kept. The error is `Full` or `OutOfMemory`.
    pub(crate) fn ask_agreeing(
        &mut self,
        origin: Origin,
        process: Koid,
        call: &Call,
        logged: &LoggedCall,
    ) -> Result<bool, Cause> {
        self.trail.reserve(1)?;
        match called_agreeing(&mut self.history, process, call, logged)? {
            Tried::Made(moment) => {
                push_kept(&mut self.trail, origin, moment);
                Ok(true)
            }
            Tried::Undone => Ok(false),
        }
    }

    /// The reply of the last call; none if it was not made.
    pub(crate) fn last_reply(&self) -> Option<&Reply> {
        match self.trail.last() {
            Some(step) => match step.moment {
                Some(moment) => self.history.reply_of(moment),
                None => None,
            },
            None => None,
        }
    }

    /// Asks a call that the log does not have, and that makes no process for it. Returns and fails as `ask` does.
    pub(crate) fn ask_aside(
        &mut self,
        origin: Origin,
        process: Koid,
        call: &Call,
    ) -> Result<Option<Moment>, Cause>
        requires { is_beside origin ≡ true }
        ensures { OnOk result (IsAside self.old self.new) }
    {
        self.ask(origin, process, call)
    }

    /// Whether the packet that the log has is in the port's queue at a moment; any packet, if the log tells none. The
    /// history moves there, which costs time for each call on the way.
    pub(crate) fn holds(
        &mut self,
        moment: Moment,
        port: Koid,
        recorded: Option<LoggedPacket>,
    ) -> Result<bool, Cause>
        ensures found { IfOk result (λ found. found ≡ holds (state_at self.old.tree.made moment) port recorded) }
        ensures same { self.new ≡ self.old }
    {
        self.history.goto(moment)?;
        Ok(holds(self.history.store(), port, recorded))
    }

    /// The port of the `port_wait` that made a moment. The history moves there.
    pub(crate) fn port_at(&mut self, moment: Moment) -> Result<Option<Koid>, Cause>
        ensures found { IfOk result (λ found. found ≡ port_at self.old.tree.made moment) }
        ensures same { self.new ≡ self.old }
    {
        self.history.goto(moment)?;
        match self.history.call_of(moment) {
            Some((process, call)) => Ok(port_of(self.history.store(), process, call)),
            None => Ok(None),
        }
    }

    /// The reply of the call of a moment; none if there is no moment.
    pub(crate) fn reply(&self, moment: &Option<Moment>) -> Option<&Reply>
        ensures { option_copied result ≡ answer_at self.now.tree.made moment.now }
    {
        match moment {
            Some(moment) => self.history.reply_of(*moment),
            None => None,
        }
    }
}

/// The outcome of a call that is kept only if its reply is.
enum Tried {
    /// The call made this moment; none if its process is not alive.
    Made(Option<Moment>),
    /// The call was taken back.
    Undone,
}

/// Makes a call at the head of `main`. Takes it back if its reply is not what the log has and may agree in another order.
fn called_agreeing(
    history: &mut History,
    process: Koid,
    call: &Call,
    logged: &LoggedCall,
) -> Result<Tried, Cause>
    requires { 0 < length history.old.tree.branches }
    ensures ok { IfOk result (IsTriedAt history.old.tree history.new.tree process call.now) }
    ensures err { OnErr result (history.new.tree ≡ history.old.tree) }
{
    match history.call(MAIN, process, call) {
        Ok(made) => {
            let (moment, reply) = made;
            if is_kept(logged, Some(&reply)) {
                Ok(Tried::Made(Some(moment)))
            } else {
                history.retract();
                Ok(Tried::Undone)
            }
        }
        Err(refusal) => match refusal {
            Refusal::NoProcess => {
                if is_kept(logged, None) {
                    Ok(Tried::Made(None))
                } else {
                    Ok(Tried::Undone)
                }
            }
            _ => Err(Cause::from(refusal)),
        },
    }
}

/// Whether a reply agrees with the log, or no other order can make it agree.
fn is_kept(logged: &LoggedCall, reply: Option<&Reply>) -> bool {
    agrees(&logged.recorded, reply) || !may_be_by_order(logged, reply)
}

/// Makes a call at the head of `main`. None if its process is not alive.
fn called(history: &mut History, process: Koid, call: &Call) -> Result<Option<Moment>, Cause>
    requires { 0 < length history.old.tree.branches }
    ensures ok { IfOk result (IsCallAt history.old.tree history.new.tree process call.now) }
    ensures err { OnErr result (history.new.tree ≡ history.old.tree) }
{
    match history.call(MAIN, process, call) {
        Ok(made) => {
            let (moment, _reply) = made;
            Ok(Some(moment))
        }
        Err(refusal) => match refusal {
            Refusal::NoProcess => Ok(None),
            _ => Err(Cause::from(refusal)),
        },
    }
}

/// Appends a step, for which there is room.
fn push_kept(trail: &mut Vec<TrailStep>, origin: Origin, moment: Option<Moment>)
    requires { vec_len trail.old < vec_capacity trail.old }
    ensures { trail.new.items ≡ trail.old.items ++ record { origin = origin; moment = moment } ∷ [] }
{
    match trail.push(TrailStep { origin, moment }) {
        Ok(()) => {}
        Err(_) => unreachable!(),
    }
}
