//! Maps the processes and handles of a log to those of the trace.

ghost use Rattle.std.specs.Prelude.{◌≡◌, ◌++◌, ℕ, suc, Some, IfOk, OnOk, length, vec_len};
ghost use Rattle.std.specs.Option.{option_copied};
ghost use Rattle.zt_import.specs.Trails.{bare, pair_of, spawned_in};
ghost use Rattle.zt_import.specs.ProofsOnly.TakenCalls.{Learns, process_in, mapped_by};

use crate::mapped::{Mapped, MappedHandle};
use crate::parts::is_last;
use std::alloc::{AllocError, Global};
use std::collections::HashMap;
use zt_logs::LinePart;
use zt_rows::{Call, HandleValue, Koid, Parcel, Reply};

/// A handle value that no handle has.
pub(crate) const NO_HANDLE: HandleValue = HandleValue(4_294_967_292);

/// The processes of the log in the trace, and the handles of each.
#[derive(Drop)]
pub(crate) struct Numbers {
    alloc: Global,
    pub(crate) processes: HashMap<u64, Koid>,
    handles: HashMap<(u64, u32), HandleValue>,
    /// The handles that calls of a line gave for the message that the line writes, by their places in it.
    copies: HashMap<usize, HandleValue>,
    /// All handles that were mapped, those too that were mapped again since.
    mapped: Vec<MappedHandle>,
}

impl Numbers {
    pub(crate) fn new(alloc: Global) -> Numbers
        ensures { (number : ℕ) → process_in result.processes number ≡ 0 }
    {
        Numbers {
            alloc,
            processes: HashMap::new(alloc),
            handles: HashMap::new(alloc),
            copies: HashMap::new(alloc),
            mapped: Vec::new(alloc),
        }
    }

    /// All that was mapped.
    pub(crate) fn into_mapped(self) -> Mapped
        ensures processes { result.processes ≡ self.processes }
        ensures handles { result.handles.items ≡ self.mapped.items }
    {
        Mapped {
            processes: self.processes,
            handles: self.mapped,
        }
    }

    /// The trace's process for this number of the log; 0, which is no process, if it is not known.
    pub(crate) fn process(&self, process: u64) -> Koid
        ensures { result ≡ process_in self.now.processes process }
    {
        match self.processes.get(&process) {
            Some(koid) => *koid,
            None => Koid(0),
        }
    }

    /// Maps a process of the log to this process of the trace.
    fn set_process(&mut self, process: u64, koid: Koid) -> Result<(), AllocError>
        ensures { OnOk result (Learns self.old.processes self.new.processes (Some (process, koid))) }
    {
        match self.processes.insert(process, koid) {
            Ok(_) => Ok(()),
            Err(_) => Err(AllocError),
        }
    }

    /// Maps the child that the log tells, if it tells one, to the process that the reply made, if it made one.
    pub(crate) fn learn_process(
        &mut self,
        child: Option<u64>,
        reply: Option<&Reply>,
    ) -> Result<(), AllocError>
        ensures { OnOk result (Learns self.old.processes self.new.processes (pair_of child (spawned_in (option_copied reply.entry)))) }
    {
        match child {
            Some(child) => match reply {
                Some(Reply::Spawned(_, koid)) => self.set_process(child, *koid),
                _ => Ok(()),
            },
            None => Ok(()),
        }
    }

    /// Maps a handle of a process in the log to its value in the trace. A handle of 0 is left as it is.
    pub(crate) fn set_handle(
        &mut self,
        process: u64,
        handle: HandleValue,
        value: HandleValue,
    ) -> Result<(), AllocError>
        ensures processes { self.new.processes ≡ self.old.processes }
        ensures mapped { OnOk result (self.new.mapped.items ≡ self.old.mapped.items ++ mapped_by process handle value) }
    {
        if handle.0 == 0 {
            return Ok(());
        }
        self.mapped.push(MappedHandle {
            process,
            handle,
            value,
        })?;
        match self.handles.insert((process, handle.0), value) {
            Ok(_) => Ok(()),
            Err(_) => Err(AllocError),
        }
    }

    /// Maps several handles, each to the value at its place.
    pub(crate) fn set_handles(
        &mut self,
        process: u64,
        handles: &[HandleValue],
        values: &[HandleValue],
    ) -> Result<(), AllocError>
        ensures { OnOk result (self.new.processes ≡ self.old.processes) }
    {
        for place in 0..handles.len().min(values.len()) {
            self.set_handle(process, handles[place], values[place])?;
        }
        Ok(())
    }

    /// Keeps the handle that a call gave for the message of its line; `NO_HANDLE` if it gave none. The last call of a line
    /// of several drops them all, if it gives none itself.
    pub(crate) fn learn_copy(
        &mut self,
        part: LinePart,
        reply: Option<&Reply>,
    ) -> Result<(), AllocError>
        ensures { OnOk result (self.new.processes ≡ self.old.processes) }
    {
        match part.gives {
            Some(place) => self.keep_copy(place, given(reply)),
            None => {
                if part.count > 1 && is_last(part) {
                    self.copies = HashMap::new(self.alloc);
                }
                Ok(())
            }
        }
    }

    /// Drops the handles that calls of a line gave for its message.
    pub(crate) fn forget_copies(&mut self)
        ensures { self.new.processes ≡ self.old.processes }
    {
        self.copies = HashMap::new(self.alloc);
    }

    /// Whether a handle is kept for a message that is not yet written.
    pub(crate) fn has_copies(&self) -> bool {
        !self.copies.is_empty()
    }

    fn keep_copy(&mut self, place: usize, value: HandleValue) -> Result<(), AllocError>
        ensures { self.new.processes ≡ self.old.processes }
    {
        match self.copies.insert(place, value) {
            Ok(_) => Ok(()),
            Err(_) => Err(AllocError),
        }
    }

    /// The handle at this place of a message, in the trace.
    fn sent(&self, process: u64, place: usize, handle: HandleValue) -> HandleValue {
        match self.copies.get(&place) {
            Some(value) => *value,
            None => self.handle(process, handle),
        }
    }

    /// The handle of the process in the trace; `NO_HANDLE` if it is not known.
    fn handle(&self, process: u64, handle: HandleValue) -> HandleValue {
        if handle.0 == 0 {
            return handle;
        }
        match self.handles.get(&(process, handle.0)) {
            Some(value) => *value,
            None => NO_HANDLE,
        }
    }

    /// The call of a process of the log, with the handles of the trace.
    pub(crate) fn call(&self, process: u64, call: &Call) -> Result<Call, AllocError>
        ensures { IfOk result (λ named. bare named ≡ bare call.now) }
    {
        match *call {
            Call::HandleClose { handle } => Ok(Call::HandleClose {
                handle: self.handle(process, handle),
            }),
            Call::HandleDuplicate { handle, rights } => Ok(Call::HandleDuplicate {
                handle: self.handle(process, handle),
                rights,
            }),
            Call::HandleReplace { handle, rights } => Ok(Call::HandleReplace {
                handle: self.handle(process, handle),
                rights,
            }),
            Call::ObjectSignal { handle, clear, set } => Ok(Call::ObjectSignal {
                handle: self.handle(process, handle),
                clear,
                set,
            }),
            Call::ObjectSignalPeer { handle, clear, set } => Ok(Call::ObjectSignalPeer {
                handle: self.handle(process, handle),
                clear,
                set,
            }),
            _ => self.call_on_channels(process, call),
        }
    }

    /// Maps the handles of a call on channels. Passes other calls on to `call_on_ports`.
    fn call_on_channels(&self, process: u64, call: &Call) -> Result<Call, AllocError>
        ensures { IfOk result (λ named. bare named ≡ bare call.now) }
    {
        match *call {
            Call::ChannelWrite { handle, ref parcel } => {
                let parcel = self.parcel(process, parcel)?;
                Ok(Call::ChannelWrite {
                    handle: self.handle(process, handle),
                    parcel,
                })
            }
            Call::ChannelRead {
                handle,
                bytes,
                handles,
                discard,
            } => Ok(Call::ChannelRead {
                handle: self.handle(process, handle),
                bytes,
                handles,
                discard,
            }),
            _ => self.call_on_ports(process, call),
        }
    }

    /// Maps the handles of a call on ports. Passes other calls on to `call_on_tasks`.
    fn call_on_ports(&self, process: u64, call: &Call) -> Result<Call, AllocError>
        ensures { IfOk result (λ named. bare named ≡ bare call.now) }
    {
        match *call {
            Call::ObjectWaitAsync {
                handle,
                port,
                key,
                signals,
                edge,
            } => Ok(Call::ObjectWaitAsync {
                handle: self.handle(process, handle),
                port: self.handle(process, port),
                key,
                signals,
                edge,
            }),
            Call::PortQueue { port, key, bytes } => Ok(Call::PortQueue {
                port: self.handle(process, port),
                key,
                bytes,
            }),
            Call::PortWait { port } => Ok(Call::PortWait {
                port: self.handle(process, port),
            }),
            Call::PortCancel { port, source, key } => Ok(Call::PortCancel {
                port: self.handle(process, port),
                source: self.handle(process, source),
                key,
            }),
            _ => self.call_on_tasks(process, call),
        }
    }

    /// Maps the handles of a call on jobs and processes. Copies a call without handles.
    fn call_on_tasks(&self, process: u64, call: &Call) -> Result<Call, AllocError>
        ensures { IfOk result (λ named. bare named ≡ bare call.now) }
    {
        match *call {
            Call::JobCreate { job } => Ok(Call::JobCreate {
                job: self.handle(process, job),
            }),
            Call::Spawn { job, argument } => Ok(Call::Spawn {
                job: self.handle(process, job),
                argument: self.handle(process, argument),
            }),
            Call::JobSetCritical { job, process: task } => Ok(Call::JobSetCritical {
                job: self.handle(process, job),
                process: self.handle(process, task),
            }),
            Call::TaskKill { handle } => Ok(Call::TaskKill {
                handle: self.handle(process, handle),
            }),
            _ => call.copy(),
        }
    }

    /// The message of a process of the log, with the handles of the trace.
    fn parcel(&self, process: u64, parcel: &Parcel) -> Result<Parcel, AllocError>
        ensures bytes { IfOk result (λ named. named.bytes ≡ parcel.now.bytes) }
        ensures handles { IfOk result (λ named. length named.handles ≡ length parcel.now.handles) }
    {
        let bytes = parcel.bytes().copy()?.into_vec();
        let alloc = *bytes.allocator();
        let handles = self.named(alloc, process, parcel.handles().as_slice())?;
        parcel.limits();
        match Parcel::new(bytes, handles) {
            Some(parcel) => Ok(parcel),
            None => unreachable!(),
        }
    }

    /// The handles of a message, in the trace.
    fn named(
        &self,
        alloc: Global,
        process: u64,
        handles: &[HandleValue],
    ) -> Result<Vec<HandleValue>, AllocError>
        ensures { IfOk result (λ named. vec_len named ≡ length handles.now) }
    {
        let mut named = Vec::new(alloc);
        for place in 0..handles.len() {
            push_handle(&mut named, self.sent(process, place, handles[place]))?;
        }
        Ok(named)
    }
}

/// The handle that a reply gives; `NO_HANDLE` if it gives none.
fn given(reply: Option<&Reply>) -> HandleValue {
    match reply {
        Some(Reply::Handle(value)) => *value,
        _ => NO_HANDLE,
    }
}

/// Appends a handle.
fn push_handle(handles: &mut Vec<HandleValue>, handle: HandleValue) -> Result<(), AllocError>
    ensures { OnOk result (vec_len handles.new ≡ suc (vec_len handles.old)) }
{
    match handles.push(handle) {
        Ok(()) => Ok(()),
        Err(_) => Err(AllocError),
    }
}
