//! Plans what a trace has to make that a log uses and never got.

use crate::arranged::Arranged;
use crate::evidence::Evidence;
use crate::first_messages::FirstMessages;
use crate::joins::{EndName, Joins};
use crate::kind_signs::Sign;
use crate::seen_objects::{Reading, SeenObjects, Sent, Unread};
use crate::stand_ins::{StandInUses, found, rights_of, signal_key};
use crate::told_koids::ToldKoids;
use crate::trail::JoinedEnd;
use std::alloc::{AllocError, Global};
use std::collections::HashMap;
use zt_bits::{Kind, Status};
use zt_logs::{Cause, LineForm, LogFault, LoggedCall};
use zt_rows::{Call, HandleValue, Parcel};

/// A process that makes calls and that nothing in the log made, with its adopted handles.
#[derive(Drop)]
pub(crate) struct AdoptedProcess {
    pub(crate) number: u64,
    pub(crate) handles: Vec<AdoptedHandle>,
}

/// An adopted handle of a process.
#[derive(Clone, Copy)]
pub(crate) struct AdoptedHandle {
    pub(crate) object: usize,
    pub(crate) process: u64,
    pub(crate) handle: HandleValue,
}

/// A message that calls find and that no call of the log wrote.
#[derive(Drop)]
pub(crate) struct OutsideMessage {
    /// The end at which it is found.
    pub(crate) end: usize,
    pub(crate) content: OutsideContent,
    pub(crate) handles: Vec<AdoptedHandle>,
}

/// The bytes of a message from outside.
#[derive(Clone, Copy)]
pub(crate) enum OutsideContent {
    /// The bytes that the call of this number reads.
    Read(usize),
    /// This many zeros, since no call reads the bytes.
    Unread(usize),
}

/// How a process comes into the log.
#[derive(Clone, Copy)]
enum Coming {
    /// It is adopted, and has this place among the adopted processes.
    Adopted(usize),
    /// A call spawned it and gave it a handle to this object. None if nothing was given, or once it is known which handle
    /// that is.
    Spawned(Option<usize>),
}

/// A handle of a process, with its object.
#[derive(Clone, Copy)]
struct UsedHandle {
    process: u64,
    handle: HandleValue,
    object: usize,
}

/// The plan of what a trace has to make, since a log uses it and never got it.
#[derive(Drop)]
pub(crate) struct Plan {
    pub(crate) processes: Vec<AdoptedProcess>,
    pub(crate) objects: SeenObjects,
    /// The messages from outside, by the first call that finds each, which has to find it there.
    pub(crate) outside: HashMap<usize, OutsideMessage>,
    /// The handle by which a spawned process has its argument.
    pub(crate) arguments: HashMap<u64, HandleValue>,
    comings: HashMap<u64, Coming>,
    /// The process of the last call. It is in `comings`.
    last_seen: Option<u64>,
    /// The object of each handle of each process.
    known: HashMap<(u64, u32), usize>,
    /// The handle that was used last, which is in `known` with this object. A call's handle is looked up to three times.
    last_used: Option<UsedHandle>,
    first_messages: FirstMessages,
    joins: Joins,
    /// The calls on stand-ins.
    pub(crate) uses: StandInUses,
    /// The join of each end that is joined.
    pub(crate) joined: HashMap<usize, JoinedEnd>,
    /// Each adopted object, by the first handle that the log has of it.
    named: HashMap<EndName, usize>,
    /// The koids that the log tells of its objects.
    pub(crate) koids: ToldKoids,
    pub(crate) evidence: Evidence,
    /// The handles that are of one object with an earlier handle, each with that handle.
    merged: HashMap<EndName, EndName>,
}

/// The ends that are joined, and the handles that are of one object with an earlier handle.
#[derive(Drop)]
struct Found {
    joins: HashMap<EndName, EndName>,
    merged: HashMap<EndName, EndName>,
}

/// How often the joined ends are found anew. They follow from what is known of handles in messages, which follows from
/// them.
const ROUNDS: usize = 8;

/// How often more they are found anew, since calls are moved by what is found.
const MOVING_ROUNDS: usize = 16;

impl Plan {
    /// The plan of a log in which ends are joined only if no third end would do. Moves spawns ahead of the calls of their
    /// processes in `order`, and writes ahead of their reads. If that does not settle, no ends are joined by messages, and no
    /// objects are one by what was seen. The error is `SpawnedTwice` at a line, or `OutOfMemory`.
    pub(crate) fn of(
        alloc: Global,
        calls: &[LoggedCall],
        order: &mut Arranged,
    ) -> Result<Plan, LogFault> {
        let mut plan = Plan::first(alloc, calls, order)?;
        for _ in 0..ROUNDS + MOVING_ROUNDS {
            match plan.found_again(alloc, calls, order) {
                Ok(Some(found)) => {
                    let Found { joins, merged } = found;
                    plan = Plan::with(alloc, calls, order, Joins::Found(joins), merged)?;
                }
                Ok(None) => return plan.with_joined(alloc, calls),
                Err(_) => return Err(Cause::OutOfMemory.at(0)),
            }
        }
        let none = HashMap::new(alloc);
        Plan::with(alloc, calls, order, Joins::Found(HashMap::new(alloc)), none)
    }

    /// The plan by which the joined ends are found. Spawns are moved only if a process makes calls ahead of its own spawn,
    /// which the plan finds: looking for such calls takes a pass over the log.
    fn first(alloc: Global, calls: &[LoggedCall], order: &mut Arranged) -> Result<Plan, LogFault> {
        match Plan::guessed(alloc, calls, order) {
            Ok(plan) => Ok(plan),
            Err(fault) => match fault.cause {
                Cause::SpawnedTwice(_) => Plan::with_spawns_moved(alloc, calls, order),
                _ => Err(fault),
            },
        }
    }

    /// The first plan of an order whose spawns are moved. The error is `SpawnedTwice` at a line, or `OutOfMemory`.
    fn with_spawns_moved(
        alloc: Global,
        calls: &[LoggedCall],
        order: &mut Arranged,
    ) -> Result<Plan, LogFault> {
        match order.move_spawns(alloc, calls) {
            Ok(()) => Plan::guessed(alloc, calls, order),
            Err(_) => Err(Cause::OutOfMemory.at(0)),
        }
    }

    /// The plan in which the ends of equal first messages are joined.
    fn guessed(alloc: Global, calls: &[LoggedCall], order: &Arranged) -> Result<Plan, LogFault> {
        let none = HashMap::new(alloc);
        Plan::with(alloc, calls, order, Joins::Guessed, none)
    }

    /// The ends that are joined and the handles that are of one object, as this plan shows them. None if this plan already
    /// has them. If calls were moved, objects are compared anew.
    fn found_again(
        &self,
        alloc: Global,
        calls: &[LoggedCall],
        order: &mut Arranged,
    ) -> Result<Option<Found>, AllocError> {
        let before = order.moves().len();
        let joins = self.joins_again(alloc, calls, order)?;
        let merged = if order.moves().len() > before {
            Some(HashMap::new(alloc))
        } else {
            self.merged_again(alloc)?
        };
        match (joins, merged) {
            (None, None) => Ok(None),
            (joins, merged) => Ok(Some(Found {
                joins: match joins {
                    Some(joins) => joins,
                    None => self.joins_of(alloc, &self.partners(alloc, calls, order)?)?,
                },
                merged: match merged {
                    Some(merged) => merged,
                    None => self.merged_names(alloc)?,
                },
            })),
        }
    }

    /// The handles that are of one object with an earlier handle, if this plan shows more of them than it has.
    fn merged_again(&self, alloc: Global) -> Result<Option<HashMap<EndName, EndName>>, AllocError> {
        let mut merged = self.merged_names(alloc)?;
        let before = merged.len();
        for same in self.same_objects(alloc)?.as_slice() {
            let (one, other) = *same;
            self.merge(&mut merged, one.max(other), one.min(other))?;
        }
        if merged.len() > before {
            Ok(Some(merged))
        } else {
            Ok(None)
        }
    }

    /// Records that the handle of the object `later` is of the object `earlier`, unless that handle is recorded already.
    fn merge(
        &self,
        merged: &mut HashMap<EndName, EndName>,
        later: usize,
        earlier: usize,
    ) -> Result<(), AllocError> {
        if let (Some((process, handle)), Some((first, name))) = (
            self.objects.adopted(later),
            self.objects.adopted(earlier),
        ) {
            if !merged.contains_key(&(process, handle.0)) {
                merged.insert((process, handle.0), (first, name.0))?;
            }
        }
        Ok(())
    }

    fn merged_names(&self, alloc: Global) -> Result<HashMap<EndName, EndName>, AllocError> {
        let mut merged = HashMap::new(alloc);
        for (later, earlier) in &self.merged {
            merged.insert(*later, *earlier)?;
        }
        Ok(merged)
    }

    /// The ends that are joined, after their writes are moved ahead of their reads. None if nothing was moved and this plan
    /// already has them.
    fn joins_again(
        &self,
        alloc: Global,
        calls: &[LoggedCall],
        order: &mut Arranged,
    ) -> Result<Option<HashMap<EndName, EndName>>, AllocError> {
        let partners = self.partners(alloc, calls, order)?;
        let is_moved = self.move_writes(calls, order, &partners)?;
        if !is_moved && self.is_joined_by(&partners) {
            return Ok(None);
        }
        Ok(Some(self.joins_of(alloc, &partners)?))
    }

    /// This plan, with the join of each end that is joined.
    fn with_joined(mut self, alloc: Global, calls: &[LoggedCall]) -> Result<Plan, LogFault> {
        match self.joined_ends(alloc, calls) {
            Ok(joined) => {
                self.joined = joined;
                Ok(self)
            }
            Err(_) => Err(Cause::OutOfMemory.at(0)),
        }
    }

    /// The plan of a log in which these ends are joined and these handles are of one object, from one pass over the log.
    fn with(
        alloc: Global,
        calls: &[LoggedCall],
        order: &Arranged,
        joins: Joins,
        merged: HashMap<EndName, EndName>,
    ) -> Result<Plan, LogFault> {
        let mut plan = Plan::new(alloc, joins);
        plan.merged = merged;
        if plan.known.reserve(calls.len() / 2).is_err() {
            return Err(Cause::OutOfMemory.at(0));
        }
        for index in order.numbers() {
            let index = *index;
            if let Some(logged) = calls.get(index) {
                match plan.see(index, logged) {
                    Ok(()) => {}
                    Err(cause) => return Err(cause.at(logged.line)),
                }
            }
        }
        match plan.leave_unread() {
            Ok(()) => Ok(plan),
            Err(_) => Err(Cause::OutOfMemory.at(0)),
        }
    }

    fn new(alloc: Global, joins: Joins) -> Plan {
        Plan {
            processes: Vec::new(alloc),
            objects: SeenObjects::new(alloc),
            outside: HashMap::new(alloc),
            arguments: HashMap::new(alloc),
            comings: HashMap::new(alloc),
            last_seen: None,
            known: HashMap::new(alloc),
            last_used: None,
            first_messages: FirstMessages::new(alloc),
            joins,
            uses: StandInUses::new(alloc),
            joined: HashMap::new(alloc),
            named: HashMap::new(alloc),
            koids: ToldKoids::new(alloc),
            evidence: Evidence::new(alloc),
            merged: HashMap::new(alloc),
        }
    }

    /// Goes over a call of the log, with the koids and the evidence that it has.
    fn see(&mut self, index: usize, logged: &LoggedCall) -> Result<(), Cause> {
        self.koids.begin_line(logged)?;
        self.see_call(index, logged)?;
        self.see_koids(logged)?;
        self.see_evidence(logged)?;
        Ok(())
    }

    /// Learns the koids that the line tells of objects that are known by now.
    fn see_koids(&mut self, logged: &LoggedCall) -> Result<(), AllocError> {
        for told in logged.koids.as_slice() {
            if let Some(object) = self.object_of(logged.process, told.handle) {
                if let Some(peer) = self.koids.tell(object, *told)? {
                    self.pair_by_koids(object, peer)?;
                }
            }
        }
        Ok(())
    }

    /// The kind of an object, and whether a use tells it. If none does, the uses of the end that koids join with it count.
    pub(crate) fn kind(&self, object: usize) -> (Kind, bool) {
        let (kind, is_told) = self.objects.kind(object);
        if is_told {
            return (kind, is_told);
        }
        match self.koids.joined(object) {
            Some(peer) => self.objects.kind(peer),
            None => (kind, is_told),
        }
    }

    /// Pairs two ends by their koids, if the peers of both may still be found.
    fn pair_by_koids(&mut self, one: usize, other: usize) -> Result<(), AllocError> {
        if one != other && self.objects.is_open(one) && self.objects.is_open(other) {
            self.objects.pair(one, other)?;
            self.koids.join(one, other)?;
        }
        Ok(())
    }

    /// Goes over a call of the log, without its evidence.
    fn see_call(&mut self, index: usize, logged: &LoggedCall) -> Result<(), Cause> {
        self.see_process(logged.process)?;
        self.see_uses(logged)?;
        self.see_koids(logged)?;
        self.see_stand_in_uses(index, logged)?;
        if logged.recorded.status != Some(Status::Ok) {
            self.see_too_large(index, logged)?;
            return Ok(());
        }
        match &logged.call {
            Call::ChannelWrite { handle, parcel } => {
                self.see_write(index, logged.process, *handle, parcel)?;
                Ok(())
            }
            Call::ChannelRead { handle, .. } => {
                self.see_read(index, logged, *handle)?;
                Ok(())
            }
            Call::Spawn { argument, .. } => self.see_spawn(logged, *argument),
            Call::ChannelCreate => {
                self.see_channel(logged)?;
                Ok(())
            }
            Call::HandleDuplicate { handle, .. } | Call::HandleReplace { handle, .. } => {
                self.see_second(logged, *handle)?;
                Ok(())
            }
            _ => {
                self.see_made(logged)?;
                Ok(())
            }
        }
    }

    /// Adds the objects that a call made, which may be stand-ins.
    fn see_made(&mut self, logged: &LoggedCall) -> Result<(), AllocError> {
        let LineForm::StandIn(kind) = logged.part.form else {
            return self.see_new(logged);
        };
        for handle in logged.recorded.handles.as_slice() {
            let object = self.objects.add(None)?;
            self.objects.set_stand_in(object, rights_of(kind));
            self.name(logged.process, *handle, object)?;
        }
        Ok(())
    }

    /// Goes over a call, if it is on a stand-in.
    fn see_stand_in_uses(&mut self, index: usize, logged: &LoggedCall) -> Result<(), AllocError> {
        if !self.objects.has_stand_ins() {
            return Ok(());
        }
        let process = logged.process;
        match &logged.call {
            Call::HandleDuplicate { handle, rights } | Call::HandleReplace { handle, rights } => {
                match self.stand_in(process, *handle) {
                    Some(has) => self.uses.cut(index, *rights, has),
                    None => Ok(()),
                }
            }
            Call::ObjectSignal { handle, .. }
            | Call::ObjectSignalPeer { handle, .. }
            | Call::TaskKill { handle } => {
                if found(logged.recorded.status) && self.stand_in(process, *handle).is_some() {
                    self.uses.leave(index)?;
                }
                Ok(())
            }
            _ => self.see_stand_in_waits(index, logged),
        }
    }

    /// Goes over a wait, a cancel or a `port_wait`, if it has to do with a stand-in.
    fn see_stand_in_waits(&mut self, index: usize, logged: &LoggedCall) -> Result<(), AllocError> {
        let process = logged.process;
        match &logged.call {
            Call::ObjectWaitAsync {
                handle,
                port,
                key,
                ..
            } => self.see_stand_in_wait(index, logged, *handle, *port, *key),
            Call::PortCancel { port, source, key } => {
                if self.stand_in(process, *source).is_none() || !found(logged.recorded.status) {
                    return Ok(());
                }
                self.uses.leave(index)?;
                match self.object_of(process, *port) {
                    Some(port) => self.uses.end_waits(port, *key),
                    None => Ok(()),
                }
            }
            Call::PortWait { port } => {
                if let (Some(port), Some(key)) = (
                    self.object_of(process, *port),
                    signal_key(logged),
                ) {
                    if self.uses.take_wait(port, key)? {
                        self.uses.leave(index)?;
                    }
                }
                Ok(())
            }
            _ => Ok(()),
        }
    }

    /// Leaves a wait on a stand-in out of the trace, and counts the packet that it may bring.
    fn see_stand_in_wait(
        &mut self,
        index: usize,
        logged: &LoggedCall,
        handle: HandleValue,
        port: HandleValue,
        key: u64,
    ) -> Result<(), AllocError> {
        let status = logged.recorded.status;
        if self.stand_in(logged.process, handle).is_none() || !found(status) {
            return Ok(());
        }
        self.uses.leave(index)?;
        match self.object_of(logged.process, port) {
            Some(port) if status == Some(Status::Ok) => self.uses.add_wait(port, key),
            _ => Ok(()),
        }
    }

    /// The rights of a stand-in, if a handle of a process names one.
    fn stand_in(&self, process: u64, handle: HandleValue) -> Option<u32> {
        self.objects.stand_in(self.object_of(process, handle)?)
    }

    /// Adopts a process that nothing made before its first call.
    fn see_process(&mut self, process: u64) -> Result<(), AllocError> {
        if self.last_seen == Some(process) {
            return Ok(());
        }
        self.last_seen = Some(process);
        if self.comings.contains_key(&process) {
            return Ok(());
        }
        let place = self.processes.len();
        let handles = Vec::new(*self.processes.allocator());
        self.processes.push(AdoptedProcess {
            number: process,
            handles,
        })?;
        self.comings.insert(process, Coming::Adopted(place))?;
        Ok(())
    }

    /// Goes over the handles that a call uses.
    fn see_uses(&mut self, logged: &LoggedCall) -> Result<(), AllocError> {
        let process = logged.process;
        let status = logged.recorded.status;
        let first = status != Some(Status::BadHandle);
        match &logged.call {
            Call::HandleClose { handle }
            | Call::HandleDuplicate { handle, .. }
            | Call::HandleReplace { handle, .. }
            | Call::ObjectSignal { handle, .. } => {
                self.see_use(process, *handle, first, Sign::Nothing)
            }
            Call::ObjectSignalPeer { handle, .. } => {
                self.see_use(process, *handle, first, told(status, Sign::Peer))
            }
            Call::ChannelWrite { handle, parcel } => {
                self.see_use(process, *handle, first, told(status, Sign::Channel))?;
                let is_there = matches!(status, Some(Status::Ok | Status::PeerClosed));
                self.see_sent(process, parcel, is_there)
            }
            Call::ChannelRead { handle, .. } => {
                self.see_use(process, *handle, first, told(status, Sign::Channel))
            }
            _ => self.see_other_uses(logged, first),
        }
    }

    /// Goes over the handles that a call on ports, jobs or processes uses.
    fn see_other_uses(&mut self, logged: &LoggedCall, first: bool) -> Result<(), AllocError> {
        let process = logged.process;
        let status = logged.recorded.status;
        match &logged.call {
            Call::ObjectWaitAsync {
                handle,
                port,
                signals,
                ..
            } => {
                self.see_wait(process, *handle, first, signals.0)?;
                let is_there = matches!(status, Some(Status::Ok | Status::WrongType));
                self.see_use(process, *port, is_there, told(status, Sign::Port))
            }
            Call::PortQueue { port, .. } | Call::PortWait { port } => {
                self.see_use(process, *port, first, told(status, Sign::Port))
            }
            Call::PortCancel { port, source, .. } => {
                self.see_use(process, *port, first, told(status, Sign::Port))?;
                let is_there = matches!(status, Some(Status::Ok | Status::NotFound));
                self.see_use(process, *source, is_there, Sign::Nothing)
            }
            _ => self.see_task_uses(logged, first),
        }
    }

    /// Goes over the handles that a call on jobs or processes uses.
    fn see_task_uses(&mut self, logged: &LoggedCall, first: bool) -> Result<(), AllocError> {
        let process = logged.process;
        let status = logged.recorded.status;
        match &logged.call {
            Call::JobCreate { job } => {
                self.see_use(process, *job, first, told(status, Sign::Job))
            }
            Call::Spawn { job, argument } => {
                self.see_use(process, *job, first, told(status, Sign::Job))?;
                let is_there = matches!(status, Some(Status::Ok | Status::BadState));
                self.see_use(process, *argument, is_there, Sign::Nothing)
            }
            Call::JobSetCritical { job, process: task } => {
                self.see_use(process, *job, first, told(status, Sign::Job))?;
                let is_there = matches!(
                    status,
                    Some(Status::Ok | Status::AlreadyBound | Status::InvalidArgs)
                );
                self.see_use(process, *task, is_there, Sign::Process)
            }
            Call::TaskKill { handle } => {
                self.see_use(process, *handle, first, told(status, Sign::Task))
            }
            _ => Ok(()),
        }
    }

    /// Goes over a use of a handle. `is_there` is whether the status shows that the handle was there. `sign` is what the
    /// use tells of the kind.
    fn see_use(
        &mut self,
        process: u64,
        handle: HandleValue,
        is_there: bool,
        sign: Sign,
    ) -> Result<(), AllocError> {
        if let Some(object) = self.used(process, handle, is_there)? {
            self.objects.add_call(object, sign);
        }
        Ok(())
    }

    /// Goes over a use of a handle by a wait for these signals.
    fn see_wait(
        &mut self,
        process: u64,
        handle: HandleValue,
        is_there: bool,
        signals: u32,
    ) -> Result<(), AllocError> {
        if let Some(object) = self.used(process, handle, is_there)? {
            self.objects.add_wait(object, waited_for(signals));
        }
        Ok(())
    }

    /// The object of a handle that a call uses, if the handle was there.
    fn used(
        &mut self,
        process: u64,
        handle: HandleValue,
        is_there: bool,
    ) -> Result<Option<usize>, AllocError> {
        if handle.0 == 0 || !is_there {
            return Ok(None);
        }
        match self.object_of(process, handle) {
            Some(object) => {
                self.last_used = Some(UsedHandle {
                    process,
                    handle,
                    object,
                });
                Ok(Some(object))
            }
            None => self.from_nowhere(process, handle),
        }
    }

    /// Goes over the handles of a message that a call writes.
    fn see_sent(
        &mut self,
        process: u64,
        parcel: &Parcel,
        is_there: bool,
    ) -> Result<(), AllocError> {
        for handle in parcel.handles().as_slice() {
            self.see_use(process, *handle, is_there, Sign::Nothing)?;
        }
        Ok(())
    }

    /// The object of a handle, if it is adopted.
    pub(crate) fn adopted_of(&self, process: u64, handle: HandleValue) -> Option<usize> {
        let object = self.object_of(process, handle)?;
        match self.objects.adopted(object) {
            Some(_) => Some(object),
            None => None,
        }
    }

    /// The object of a handle of a process, if it is known.
    pub(crate) fn object_of(&self, process: u64, handle: HandleValue) -> Option<usize> {
        match self.last_used {
            Some(last) if last.process == process && last.handle == handle => Some(last.object),
            _ => self.known.get(&(process, handle.0)).copied(),
        }
    }

    fn name(&mut self, process: u64, handle: HandleValue, object: usize) -> Result<(), AllocError> {
        self.last_used = None;
        self.known.insert((process, handle.0), object)?;
        Ok(())
    }

    /// The object of a handle that its process never got. An adopted process had it before. In a spawned one, the first
    /// such handle is its argument. None otherwise.
    fn from_nowhere(
        &mut self,
        process: u64,
        handle: HandleValue,
    ) -> Result<Option<usize>, AllocError> {
        match self.comings.get(&process).copied() {
            Some(Coming::Adopted(place)) => {
                let object = self.adopted_object(process, handle)?;
                if let Some(adopted) = self.processes.get_mut(place) {
                    adopted.handles.push(AdoptedHandle {
                        object,
                        process,
                        handle,
                    })?;
                }
                self.name(process, handle, object)?;
                Ok(Some(object))
            }
            Some(Coming::Spawned(Some(object))) => {
                self.comings.insert(process, Coming::Spawned(None))?;
                self.arguments.insert(process, handle)?;
                self.name(process, handle, object)?;
                Ok(Some(object))
            }
            _ => Ok(None),
        }
    }

    /// The object of an adopted handle: one that came before, by its koid or by what was done and seen, or else a new one.
    fn adopted_object(&mut self, process: u64, handle: HandleValue) -> Result<usize, AllocError> {
        let found = match self.koids.object(handle) {
            Some(object) => Some(object),
            None => self.merged_object(process, handle),
        };
        match found {
            Some(object) if self.objects.adopted(object).is_some() => {
                self.objects.add_again(object, process, handle)?;
                Ok(object)
            }
            _ => self.add_adopted(process, handle),
        }
    }

    /// The earlier object that this handle is of, by what was done and seen.
    fn merged_object(&self, process: u64, handle: HandleValue) -> Option<usize> {
        let name = self.merged.get(&(process, handle.0)).copied()?;
        self.named.get(&name).copied()
    }

    /// Adds an adopted object, under the first handle that the log has of it.
    fn add_adopted(&mut self, process: u64, handle: HandleValue) -> Result<usize, AllocError> {
        let object = self.objects.add(Some((process, handle)))?;
        if !self.named.contains_key(&(process, handle.0)) {
            self.named.insert((process, handle.0), object)?;
        }
        Ok(object)
    }

    /// Whether an object is adopted, and its first handle names no earlier adopted object.
    pub(crate) fn is_named(&self, object: usize) -> bool {
        match self.objects.adopted(object) {
            Some((process, handle)) => {
                self.named.get(&(process, handle.0)).copied() == Some(object)
            }
            None => false,
        }
    }

    /// Goes over a write.
    fn see_write(
        &mut self,
        call: usize,
        process: u64,
        handle: HandleValue,
        parcel: &Parcel,
    ) -> Result<(), AllocError> {
        let Some(end) = self.object_of(process, handle) else {
            return Ok(());
        };
        let objects = self.objects_of(process, parcel)?;
        let handles = objects.len();
        self.objects.send(end, Sent { objects })?;
        if self.objects.add_written(end, call)? {
            let bytes = parcel.bytes().as_slice();
            self.first_messages.add(bytes, handles, end)?;
        }
        Ok(())
    }

    /// The objects of the handles of a message.
    fn objects_of(&self, process: u64, parcel: &Parcel) -> Result<Vec<Option<usize>>, AllocError> {
        let mut objects = Vec::new(*self.processes.allocator());
        for handle in parcel.handles().as_slice() {
            objects.push(self.object_of(process, *handle))?;
        }
        Ok(objects)
    }

    /// Goes over a read. Its handles name the objects of the message that was written, if the log has that write.
    fn see_read(
        &mut self,
        index: usize,
        logged: &LoggedCall,
        handle: HandleValue,
    ) -> Result<(), AllocError> {
        let Some(end) = self.object_of(logged.process, handle) else {
            return self.see_new(logged);
        };
        self.objects.add_read(end, Reading::Message(index))?;
        self.find_peer(logged, end)?;
        match self.objects.receive(end) {
            Some(message) => self.see_received(logged, message.objects.as_slice()),
            None => {
                if self.objects.is_alone(end) {
                    self.see_outside(index, logged, end)
                } else {
                    self.see_new(logged)
                }
            }
        }
    }

    /// Goes over a read that had too little room. If it asked for that, the message is discarded.
    fn see_too_large(&mut self, index: usize, logged: &LoggedCall) -> Result<(), AllocError> {
        if logged.recorded.status != Some(Status::BufferTooSmall) {
            return Ok(());
        }
        let Call::ChannelRead {
            handle,
            bytes,
            handles,
            discard,
        } = &logged.call
        else {
            return Ok(());
        };
        let Some(end) = self.object_of(logged.process, *handle) else {
            return Ok(());
        };
        let found = Unread {
            call: index,
            process: logged.process,
            bytes: *bytes as usize,
            handles: *handles as usize,
        };
        self.see_unread(end, found, *discard)
    }

    /// Keeps that a call found the first message at an end and did not read it.
    fn see_unread(
        &mut self,
        end: usize,
        found: Unread,
        is_discarded: bool,
    ) -> Result<(), AllocError> {
        if is_discarded {
            self.objects.add_read(end, Reading::Discarded(found.call))?;
        }
        if self.objects.is_alone(end) {
            self.objects.add_unread(end, found)?;
            if is_discarded {
                self.objects.set_outside(end);
                self.write_unread(end)?;
            }
        } else if is_discarded {
            let _message = self.objects.receive(end);
        }
        Ok(())
    }

    /// Treats each message that calls found and none read as one from outside, at the ends without a peer.
    fn leave_unread(&mut self) -> Result<(), AllocError> {
        for end in 0..self.objects.count() {
            self.write_unread(end)?;
        }
        Ok(())
    }

    /// Treats the first message at an end as one from outside, if calls had too little room for it.
    fn write_unread(&mut self, end: usize) -> Result<(), AllocError> {
        let Some(unread) = self.objects.take_unread(end) else {
            return Ok(());
        };
        let mut handles = Vec::new(*self.processes.allocator());
        for _ in 0..unread.handle_count() {
            let process = unread.process;
            let handle = HandleValue(0);
            let object = self.objects.add(Some((process, handle)))?;
            handles.push(AdoptedHandle {
                object,
                process,
                handle,
            })?;
        }
        let content = OutsideContent::Unread(unread.size());
        self.write_outside(unread.call, end, content, handles)
    }

    fn write_outside(
        &mut self,
        call: usize,
        end: usize,
        content: OutsideContent,
        handles: Vec<AdoptedHandle>,
    ) -> Result<(), AllocError> {
        let message = OutsideMessage {
            end,
            content,
            handles,
        };
        self.outside.insert(call, message)?;
        Ok(())
    }

    /// Finds the peer of an end at which a message is read, if it may still be found.
    fn find_peer(&mut self, logged: &LoggedCall, end: usize) -> Result<(), AllocError> {
        if !self.objects.is_open(end) {
            return Ok(());
        }
        let found = if self.joins.are_guessed() {
            self.guessed_peer(logged, end)?
        } else {
            self.found_peer(end)
        };
        if let Some(other) = found {
            self.objects.pair(other, end)?;
        }
        Ok(())
    }

    /// An end at which the message that is read here was written first.
    fn guessed_peer(
        &mut self,
        logged: &LoggedCall,
        end: usize,
    ) -> Result<Option<usize>, AllocError> {
        let Some(bytes) = &logged.recorded.bytes else {
            return Ok(None);
        };
        let handles = logged.recorded.handles.len();
        self.first_messages
            .take(bytes.as_slice(), handles, &self.objects, end)
    }

    /// The end that is joined with this one.
    fn found_peer(&self, end: usize) -> Option<usize> {
        let (process, handle) = self.objects.adopted(end)?;
        let name = self.joins.other((process, handle.0))?;
        let other = self.named.get(&name).copied()?;
        if self.is_named(end) && self.objects.is_open(other) {
            Some(other)
        } else {
            None
        }
    }

    /// The adopted ends at which the message that a call reads was written first. The error is an allocation failure.
    pub(crate) fn writers_of(&self, read: &LoggedCall) -> Result<&[usize], AllocError> {
        match &read.recorded.bytes {
            Some(bytes) => self
                .first_messages
                .ends(bytes.as_slice(), read.recorded.handles.len()),
            None => Ok(&[]),
        }
    }

    /// Names the handles of a message that was read by these objects.
    fn see_received(
        &mut self,
        logged: &LoggedCall,
        objects: &[Option<usize>],
    ) -> Result<(), AllocError> {
        let handles = logged.recorded.handles.as_slice();
        for place in 0..handles.len() {
            match objects.get(place).copied() {
                Some(Some(object)) => self.name(logged.process, handles[place], object)?,
                _ => self.see_new_one(logged.process, handles[place])?,
            }
        }
        Ok(())
    }

    /// Goes over a read of a message from outside.
    fn see_outside(
        &mut self,
        index: usize,
        logged: &LoggedCall,
        end: usize,
    ) -> Result<(), AllocError> {
        let mut handles = Vec::new(*self.processes.allocator());
        let process = logged.process;
        for handle in logged.recorded.handles.as_slice() {
            let handle = *handle;
            let object = self.adopted_object(process, handle)?;
            self.name(process, handle, object)?;
            handles.push(AdoptedHandle {
                object,
                process,
                handle,
            })?;
        }
        self.objects.set_outside(end);
        let call = match self.objects.take_unread(end) {
            Some(unread) => unread.call,
            None => index,
        };
        self.write_outside(call, end, OutsideContent::Read(index), handles)
    }

    /// Goes over a spawn. The error is `SpawnedTwice` if the process was there before, or `OutOfMemory`.
    fn see_spawn(&mut self, logged: &LoggedCall, argument: HandleValue) -> Result<(), Cause> {
        self.see_new(logged)?;
        let Some(process) = logged.recorded.process else {
            return Ok(());
        };
        if self.comings.contains_key(&process) {
            return Err(Cause::SpawnedTwice(process));
        }
        let given = self.object_of(logged.process, argument);
        self.see_coming(process, given)?;
        Ok(())
    }

    fn see_coming(&mut self, process: u64, given: Option<usize>) -> Result<(), AllocError> {
        self.comings.insert(process, Coming::Spawned(given))?;
        Ok(())
    }

    /// Adds both ends of a channel that a call made.
    fn see_channel(&mut self, logged: &LoggedCall) -> Result<(), AllocError> {
        match logged.recorded.handles.as_slice() {
            [first, second] => {
                let one = self.objects.add(None)?;
                let other = self.objects.add(None)?;
                self.objects.pair(one, other)?;
                self.name(logged.process, *first, one)?;
                self.name(logged.process, *second, other)
            }
            _ => self.see_new(logged),
        }
    }

    /// Names a handle that a call got by the object of `handle`.
    fn see_second(&mut self, logged: &LoggedCall, handle: HandleValue) -> Result<(), AllocError> {
        match (
            self.object_of(logged.process, handle),
            logged.recorded.handles.as_slice(),
        ) {
            (Some(object), [second]) => self.name(logged.process, *second, object),
            _ => self.see_new(logged),
        }
    }

    /// Adds an object for each handle that a call got.
    fn see_new(&mut self, logged: &LoggedCall) -> Result<(), AllocError> {
        for handle in logged.recorded.handles.as_slice() {
            self.see_new_one(logged.process, *handle)?;
        }
        Ok(())
    }

    fn see_new_one(&mut self, process: u64, handle: HandleValue) -> Result<(), AllocError> {
        let object = self.objects.add(None)?;
        self.name(process, handle, object)
    }
}

/// The sign of a use. It tells nothing if the status says that the object is of another kind.
fn told(status: Option<Status>, sign: Sign) -> Sign {
    match status {
        Some(Status::WrongType) => Sign::Nothing,
        Some(Status::NotSupported) if sign == Sign::Peer => Sign::Nothing,
        _ => sign,
    }
}

/// The sign of a wait for these signals.
fn waited_for(signals: u32) -> Sign {
    if signals & 0x3 != 0 {
        Sign::Channel
    } else if signals & 0x30 != 0 {
        Sign::Job
    } else if signals & 0x4 != 0 {
        Sign::Peer
    } else {
        Sign::Nothing
    }
}
