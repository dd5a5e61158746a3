//! Makes the processes and objects that a log uses and never got, and gives each process its handles to them.

ghost use Rattle.std.specs.Prelude.{◌≡◌, true, IfOk, OnOk};
ghost use Rattle.zt_import.specs.ProofsOnly.TakenCalls.{IsAdopting, IsAside, is_beside};

use crate::numbers::{NO_HANDLE, Numbers};
use crate::plan::{AdoptedHandle, AdoptedProcess, OutsideContent, OutsideMessage, Plan};
use crate::taken::Taken;
use crate::trail::{AdoptedObject, HandleOrigin, Origin};
use std::alloc::{AllocError, Global};
use std::collections::{HashMap, VecDeque};
use zt_bits::Kind;
use zt_logs::{Cause, LoggedCall};
use zt_rows::{Call, FIRST_HANDLE, HandleValue, MESSAGE_HANDLES, Parcel, ROOT_PROCESS, Reply};

/// Makes what a log uses and never got, and keeps the root process's handles that are left of it.
#[derive(Drop)]
pub(crate) struct Adoption {
    alloc: Global,
    /// The handles of ends that were made together with their peers, by the ends' objects.
    ends: HashMap<usize, HandleValue>,
    /// The root process's ends of channels and pairs of which the log has only the other end, by that end's object.
    others: HashMap<usize, HandleValue>,
    /// The duplicates that are not yet sent, by their objects.
    duplicates: HashMap<usize, VecDeque<HandleValue>>,
    kinds: MadeKinds,
}

/// How many objects were made of each kind whose handles can be duplicated.
#[derive(Clone, Copy)]
struct MadeKinds {
    events: u64,
    pairs: u64,
    ports: u64,
    jobs: u64,
    processes: u64,
}

impl MadeKinds {
    fn none() -> MadeKinds {
        MadeKinds {
            events: 0,
            pairs: 0,
            ports: 0,
            jobs: 0,
            processes: 0,
        }
    }

    /// Counts an object of this kind. Returns how many there were before; 0 for an end of a channel, which has one handle.
    fn add(&mut self, kind: Kind) -> u64 {
        match kind {
            Kind::Event => counted(&mut self.events),
            Kind::EventPair => counted(&mut self.pairs),
            Kind::Port => counted(&mut self.ports),
            Kind::Job => counted(&mut self.jobs),
            Kind::Process => counted(&mut self.processes),
            Kind::Channel => 0,
        }
    }
}

/// Adds one to a count, and returns what it was before.
fn counted(count: &mut u64) -> u64 {
    let before = *count;
    *count = before.saturating_add(1);
    before
}

impl Adoption {
    pub(crate) fn new(alloc: Global) -> Adoption {
        Adoption {
            alloc,
            ends: HashMap::new(alloc),
            others: HashMap::new(alloc),
            duplicates: HashMap::new(alloc),
            kinds: MadeKinds::none(),
        }
    }

    /// Makes each adopted process, and gives it its adopted handles.
    pub(crate) fn adopt_all(
        &mut self,
        taken: &mut Taken,
        numbers: &mut Numbers,
        plan: &Plan,
    ) -> Result<(), Cause>
        ensures { OnOk result (IsAdopting taken.old taken.new numbers.old.processes numbers.new.processes) }
    {
        for process in plan.processes.as_slice() {
            self.adopt(taken, numbers, plan, process)?;
        }
        Ok(())
    }

    /// Makes a process that has one end of a channel, and sends it its handles over the other end.
    fn adopt(
        &mut self,
        taken: &mut Taken,
        numbers: &mut Numbers,
        plan: &Plan,
        process: &AdoptedProcess,
    ) -> Result<(), Cause>
        ensures { OnOk result (IsAdopting taken.old taken.new numbers.old.processes numbers.new.processes) }
    {
        let number = process.number;
        let (near, far) = ask_two(taken, Origin::Process(number), &Call::ChannelCreate)?;
        let spawn = Call::Spawn {
            job: FIRST_HANDLE,
            argument: far,
        };
        adopt_process(taken, numbers, number, &spawn)?;
        for batch in process.handles.as_slice().chunks(MESSAGE_HANDLES) {
            self.give(taken, numbers, plan, number, near, batch)?;
        }
        Ok(())
    }

    /// Makes objects, sends their handles to a process, and lets the process read them.
    fn give(
        &mut self,
        taken: &mut Taken,
        numbers: &mut Numbers,
        plan: &Plan,
        process: u64,
        near: HandleValue,
        adopted: &[AdoptedHandle],
    ) -> Result<(), Cause>
        ensures { OnOk result (IsAdopting taken.old taken.new numbers.old.processes numbers.new.processes) }
    {
        let handles = self.made(taken, plan, adopted)?;
        let bytes = Vec::new(self.alloc);
        write(taken, Origin::Process(process), near, bytes, handles)?;
        let read = Call::ChannelRead {
            handle: FIRST_HANDLE,
            bytes: 0,
            handles: 64,
            discard: false,
        };
        let reader = numbers.process(process);
        let moment = taken.ask_aside(Origin::Process(process), reader, &read)?;
        name_read(numbers, adopted, taken.reply(&moment))?;
        Ok(())
    }

    /// Makes objects, and returns the root process's handles to them.
    fn made(
        &mut self,
        taken: &mut Taken,
        plan: &Plan,
        adopted: &[AdoptedHandle],
    ) -> Result<Vec<HandleValue>, Cause>
        ensures { OnOk result (IsAside taken.old taken.new) }
    {
        let mut handles = Vec::new(self.alloc);
        for object in adopted {
            let handle = self.handle_to(taken, plan, object.object)?;
            push_handle(&mut handles, handle)?;
        }
        Ok(handles)
    }

    /// Returns a handle of the root process to an object: a duplicate that is left, or else the handle of a new object.
    fn handle_to(
        &mut self,
        taken: &mut Taken,
        plan: &Plan,
        object: usize,
    ) -> Result<HandleValue, Cause>
        ensures { OnOk result (IsAside taken.old taken.new) }
    {
        if let Some(handle) = self.take_duplicate(object) {
            return Ok(handle);
        }
        let handle = self.make(taken, plan, object)?;
        self.duplicate(taken, plan, object, handle)?;
        Ok(handle)
    }

    /// Takes a duplicate that is left of an object's handle.
    fn take_duplicate(&mut self, object: usize) -> Option<HandleValue> {
        self.duplicates.get_mut(&object)?.pop_front()
    }

    /// Makes a duplicate for each further handle that the log has of an object. An end of a channel has none.
    fn duplicate(
        &mut self,
        taken: &mut Taken,
        plan: &Plan,
        object: usize,
        handle: HandleValue,
    ) -> Result<(), Cause>
        ensures { OnOk result (IsAside taken.old taken.new) }
    {
        let mut made = VecDeque::new(self.alloc);
        let (kind, _) = plan.kind(object);
        if kind == Kind::Channel {
            return Ok(());
        }
        for again in plan.objects.again(object) {
            let call = Call::HandleDuplicate {
                handle,
                rights: SAME_RIGHTS,
            };
            let origin = duplicate_origin(taken, plan, object, *again)?;
            let one = ask_one(taken, origin, &call)?;
            push_duplicate(&mut made, one)?;
        }
        self.keep_duplicates(object, made)?;
        Ok(())
    }

    fn keep_duplicates(
        &mut self,
        object: usize,
        made: VecDeque<HandleValue>,
    ) -> Result<(), AllocError> {
        if !made.is_empty() {
            self.duplicates.insert(object, made)?;
        }
        Ok(())
    }

    /// Makes an object, and returns the root process's handle to it.
    fn make(&mut self, taken: &mut Taken, plan: &Plan, object: usize) -> Result<HandleValue, Cause>
        ensures { OnOk result (IsAside taken.old taken.new) }
    {
        let (kind, is_told) = plan.kind(object);
        let others = self.kinds.add(kind);
        let told = told_object(plan, object, kind, is_told, others);
        match kind {
            Kind::Channel => self.make_end(taken, plan, object, told, &Call::ChannelCreate),
            Kind::Port => ask_object(taken, told, &Call::PortCreate),
            Kind::Job => {
                let call = Call::JobCreate { job: FIRST_HANDLE };
                ask_object(taken, told, &call)
            }
            Kind::Process => {
                let call = Call::Spawn {
                    job: FIRST_HANDLE,
                    argument: HandleValue(0),
                };
                ask_object(taken, told, &call)
            }
            Kind::EventPair => self.make_end(taken, plan, object, told, &Call::EventPairCreate),
            Kind::Event => ask_object(taken, told, &Call::EventCreate),
        }
    }

    /// Returns an end of a channel or an event pair, which this call makes unless it was made with its peer.
    fn make_end(
        &mut self,
        taken: &mut Taken,
        plan: &Plan,
        object: usize,
        told: Option<HandleOrigin>,
        call: &Call,
    ) -> Result<HandleValue, Cause>
        ensures { OnOk result (IsAside taken.old taken.new) }
    {
        if let Some(handle) = self.ends.get(&object).copied() {
            return Ok(handle);
        }
        let origin = origin_of(taken, told)?;
        let (end, other) = ask_two(taken, origin, call)?;
        match joined_peer(plan, object) {
            Some(peer) => self.keep_end(peer, other)?,
            None => self.keep_other(object, other)?,
        }
        Ok(end)
    }

    fn keep_end(&mut self, object: usize, handle: HandleValue) -> Result<(), AllocError> {
        self.ends.insert(object, handle)?;
        Ok(())
    }

    fn keep_other(&mut self, object: usize, handle: HandleValue) -> Result<(), AllocError> {
        self.others.insert(object, handle)?;
        Ok(())
    }

    /// Writes the message from outside that this call of the log is the first to find, if it finds one.
    pub(crate) fn write_outside(
        &mut self,
        taken: &mut Taken,
        plan: &Plan,
        calls: &[LoggedCall],
        index: usize,
    ) -> Result<(), Cause>
        ensures { OnOk result (IsAside taken.old taken.new) }
    {
        if !reads(calls, index) {
            return Ok(());
        }
        let Some(message) = plan.outside.get(&index) else {
            return Ok(());
        };
        match self.others.get(&message.end).copied() {
            Some(other) => {
                let bytes = bytes_of(self.alloc, calls, message)?;
                let handles = self.made(taken, plan, message.handles.as_slice())?;
                write(taken, Origin::Outside(index), other, bytes, handles)
            }
            None => Ok(()),
        }
    }
}

/// Whether a call reads messages, so that it may find one from outside.
fn reads(calls: &[LoggedCall], index: usize) -> bool {
    match calls.get(index) {
        Some(logged) => matches!(logged.call, Call::ChannelRead { .. }),
        None => false,
    }
}

/// The bytes of a message from outside. Bytes that no call reads are zeros.
fn bytes_of(
    alloc: Global,
    calls: &[LoggedCall],
    message: &OutsideMessage,
) -> Result<Vec<u8>, AllocError> {
    match message.content {
        OutsideContent::Unread(size) => vec![in alloc; 0u8; size],
        OutsideContent::Read(index) => match calls.get(index) {
            Some(logged) => recorded_bytes(alloc, logged),
            None => Ok(Vec::new(alloc)),
        },
    }
}

/// The bytes that a call read; none if the log does not tell them.
fn recorded_bytes(alloc: Global, logged: &LoggedCall) -> Result<Vec<u8>, AllocError> {
    match &logged.recorded.bytes {
        Some(bytes) => Ok(bytes.copy()?.into_vec()),
        None => Ok(Vec::new(alloc)),
    }
}

/// Makes the process that stands for this one of the log.
fn adopt_process(
    taken: &mut Taken,
    numbers: &mut Numbers,
    number: u64,
    call: &Call,
) -> Result<(), Cause>
    ensures { OnOk result (IsAdopting taken.old taken.new numbers.old.processes numbers.new.processes) }
{
    let moment = taken.ask(Origin::Adopted(number), ROOT_PROCESS, call)?;
    numbers.learn_process(Some(number), taken.reply(&moment))?;
    Ok(())
}

/// What is told of the call that makes an object. None if the log has no handle of it.
fn told_object(
    plan: &Plan,
    object: usize,
    kind: Kind,
    is_told: bool,
    others: u64,
) -> Option<HandleOrigin> {
    let (process, handle) = plan.objects.adopted(object)?;
    let made = AdoptedObject {
        process,
        handle,
        kind,
        is_told,
        others,
    };
    match plan.joined.get(&object).copied() {
        Some(joined) => Some(HandleOrigin::Pair(made, joined)),
        None => Some(HandleOrigin::Object(made)),
    }
}

/// The origin of the call that makes an object of which this is told. The error is an allocation failure.
fn origin_of(taken: &mut Taken, told: Option<HandleOrigin>) -> Result<Origin, AllocError>
    ensures beside { IfOk result (λ origin. is_beside origin ≡ true) }
    ensures same { taken.new ≡ taken.old }
{
    let Some(told) = told else {
        return Ok(Origin::Process(0));
    };
    let is_pair = matches!(told, HandleOrigin::Pair(_, _));
    let number = taken.add_adopted(told)?;
    if is_pair {
        Ok(Origin::Pair(number))
    } else {
        Ok(Origin::Handle(number))
    }
}

/// The mask that asks for all rights of the old handle.
const SAME_RIGHTS: u32 = 0x8000_0000;

/// The origin of the call that makes a duplicate. The error is an allocation failure.
fn duplicate_origin(
    taken: &mut Taken,
    plan: &Plan,
    object: usize,
    again: (u64, HandleValue),
) -> Result<Origin, AllocError>
    ensures beside { IfOk result (λ origin. is_beside origin ≡ true) }
    ensures same { taken.new ≡ taken.old }
{
    let (process, handle) = again;
    let Some((first_process, first_handle)) = plan.objects.adopted(object) else {
        return Ok(Origin::Process(process));
    };
    let number = taken.add_adopted(HandleOrigin::Duplicate {
        process,
        handle,
        first_process,
        first_handle,
    })?;
    Ok(Origin::Duplicate(number))
}

fn push_duplicate(made: &mut VecDeque<HandleValue>, handle: HandleValue) -> Result<(), AllocError> {
    made.push_back(handle)?;
    Ok(())
}

/// The object that is made as the peer of this one, if the log has that peer.
fn joined_peer(plan: &Plan, object: usize) -> Option<usize> {
    if plan.joined.contains_key(&object) {
        plan.objects.peer(object)
    } else {
        None
    }
}

/// Lets the root process write a message. Nothing is written if the message is too large.
fn write(
    taken: &mut Taken,
    origin: Origin,
    handle: HandleValue,
    bytes: Vec<u8>,
    handles: Vec<HandleValue>,
) -> Result<(), Cause>
    requires { is_beside origin ≡ true }
    ensures { OnOk result (IsAside taken.old taken.new) }
{
    match Parcel::new(bytes, handles) {
        Some(parcel) => {
            taken.ask_aside(origin, ROOT_PROCESS, &Call::ChannelWrite { handle, parcel })?;
            Ok(())
        }
        None => Ok(()),
    }
}

/// Maps the log's handles to those that the process read.
fn name_read(
    numbers: &mut Numbers,
    adopted: &[AdoptedHandle],
    reply: Option<&Reply>,
) -> Result<(), AllocError>
    ensures { OnOk result (numbers.new.processes ≡ numbers.old.processes) }
{
    match reply {
        Some(Reply::Message(_, values)) => name_all(numbers, adopted, values.as_slice()),
        _ => Ok(()),
    }
}

/// Maps each handle of the log to the value at its place.
fn name_all(
    numbers: &mut Numbers,
    adopted: &[AdoptedHandle],
    values: &[HandleValue],
) -> Result<(), AllocError>
    ensures { OnOk result (numbers.new.processes ≡ numbers.old.processes) }
{
    for place in 0..adopted.len().min(values.len()) {
        let named = adopted[place];
        numbers.set_handle(named.process, named.handle, values[place])?;
    }
    Ok(())
}

/// Makes an object of which this is told, and returns the root process's handle to it.
fn ask_object(
    taken: &mut Taken,
    told: Option<HandleOrigin>,
    call: &Call,
) -> Result<HandleValue, Cause>
    ensures { OnOk result (IsAside taken.old taken.new) }
{
    let origin = origin_of(taken, told)?;
    ask_one(taken, origin, call)
}

/// Makes a call of the root process that gives one handle, and returns that handle.
fn ask_one(taken: &mut Taken, origin: Origin, call: &Call) -> Result<HandleValue, Cause>
    requires { is_beside origin ≡ true }
    ensures { OnOk result (IsAside taken.old taken.new) }
{
    let moment = taken.ask_aside(origin, ROOT_PROCESS, call)?;
    match taken.reply(&moment) {
        Some(Reply::Handle(handle)) => Ok(*handle),
        Some(Reply::Spawned(handle, _)) => Ok(*handle),
        _ => Ok(NO_HANDLE),
    }
}

/// Makes a call of the root process that gives two handles, and returns them.
fn ask_two(
    taken: &mut Taken,
    origin: Origin,
    call: &Call,
) -> Result<(HandleValue, HandleValue), Cause>
    requires { is_beside origin ≡ true }
    ensures { OnOk result (IsAside taken.old taken.new) }
{
    let moment = taken.ask_aside(origin, ROOT_PROCESS, call)?;
    match taken.reply(&moment) {
        Some(Reply::Handles(first, second)) => Ok((*first, *second)),
        _ => Ok((NO_HANDLE, NO_HANDLE)),
    }
}

fn push_handle(handles: &mut Vec<HandleValue>, handle: HandleValue) -> Result<(), AllocError> {
    handles.push(handle)?;
    Ok(())
}
