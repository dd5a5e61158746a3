//! Calls, replies, commands and answers, with the data that they carry.

ghost use Rattle.std.specs.Prelude.{◌≡◌, ◌↔◌, IfOk, IsSome, IfSome};
ghost use Rattle.zt_rows.specs.Contents.{IsWithinMessage};
ghost use Rattle.zt_rows.specs.Step.{IsCall};
ghost use Rattle.zt_rows.specs.Tests.{status_of};

use crate::items::Items;
use crate::keys::RowKey;
use crate::limits::{MESSAGE_BYTES, MESSAGE_HANDLES};
use crate::numbers::{HandleValue, Koid, Moment};
use crate::rows::{Packet, Row};
use crate::supports::Support;
use std::alloc::AllocError;
use std::marker::Model;
use zt_bits::{Kind, Signals, Status};

/// What a call wants to send: bytes, and values of the caller's handles. It is within the limits of a message.
#[derive(Debug, Drop)]
pub struct Parcel {
    bytes: Items<u8>,
    handles: Items<HandleValue>,
}

impl Model for Parcel {
    ghost use Rattle.zt_rows.specs.Contents.{ParcelContent, IsWithinMessage};

    ghost Value = { ParcelContent };

    ghost view = { λ p. record { bytes = p.bytes; handles = p.handles } };

    ghost invariant = { λ p. IsWithinMessage p.bytes p.handles };
}

impl Parcel {
    /// Makes a parcel of these bytes and handle values; `None` if there are more than 65,536 bytes or 64 handles. Never allocates.
    pub fn new(bytes: Vec<u8>, handles: Vec<HandleValue>) -> Option<Parcel>
        ensures within { IsSome result ↔ IsWithinMessage bytes.items handles.items }
        ensures holds { IfSome result (λ p. (p.bytes ≡ bytes.items) × (p.handles ≡ handles.items)) }
    {
        if bytes.len() <= MESSAGE_BYTES && handles.len() <= MESSAGE_HANDLES {
            let bytes = Items::new(bytes);
            let handles = Items::new(handles);
            Some(Parcel { bytes, handles })
        } else {
            None
        }
    }

    /// The bytes.
    pub fn bytes(&self) -> &Items<u8>
        ensures { result.now ≡ self.now.bytes }
    {
        &self.bytes
    }

    /// The values of the handles, in their order.
    pub fn handles(&self) -> &Items<HandleValue>
        ensures { result.now ≡ self.now.handles }
    {
        &self.handles
    }

    /// States that a parcel is within the limits of a message.
    pub fn limits(&self)
        ensures { IsWithinMessage self.now.bytes self.now.handles }
    {
        let _ = &self.bytes;
    }

    /// Copies the parcel into memory of its own.
    pub fn copy(&self) -> Result<Parcel, AllocError>
        ensures { IfOk result (λ copied. copied ≡ self.now) }
    {
        let bytes = self.bytes.copy()?;
        let handles = self.handles.copy()?;
        Ok(Parcel { bytes, handles })
    }
}

/// A system call with its arguments.
#[derive(Debug, Drop)]
pub enum Call {
    EventCreate,
    EventPairCreate,
    HandleClose {
        handle: HandleValue,
    },
    /// `rights` is a mask of right bits, or 0x80000000 for the same rights.
    HandleDuplicate {
        handle: HandleValue,
        rights: u32,
    },
    /// `rights` is a mask of right bits, or 0x80000000 for the same rights.
    HandleReplace {
        handle: HandleValue,
        rights: u32,
    },
    ObjectSignal {
        handle: HandleValue,
        clear: Signals,
        set: Signals,
    },
    ObjectSignalPeer {
        handle: HandleValue,
        clear: Signals,
        set: Signals,
    },
    ChannelCreate,
    /// The handles of the parcel leave the caller's table, even if the call fails.
    ChannelWrite {
        handle: HandleValue,
        parcel: Parcel,
    },
    /// `bytes` and `handles` are how much the caller has room for. A message that does not fit stays in its queue; with
    /// `discard` it is dropped.
    ChannelRead {
        handle: HandleValue,
        bytes: u32,
        handles: u32,
        discard: bool,
    },
    PortCreate,
    /// The port gets a packet under this key when one of the signals is asserted on the handle's object. With `edge`,
    /// the signal has to rise: it is asserted at a call's end and was not asserted at that call's start.
    ObjectWaitAsync {
        handle: HandleValue,
        port: HandleValue,
        key: u64,
        signals: Signals,
        edge: bool,
    },
    PortQueue {
        port: HandleValue,
        key: u64,
        bytes: [u8; 32],
    },
    /// The deadline has always passed, so a port without packets answers `timed_out` at once.
    PortWait {
        port: HandleValue,
    },
    /// Removes from the port the caller's waits on the handle `source` under this key, and their packets.
    PortCancel {
        port: HandleValue,
        source: HandleValue,
        key: u64,
    },
    JobCreate {
        job: HandleValue,
    },
    /// Makes a process under the job. It receives the handle `argument`, or none if that is 0.
    Spawn {
        job: HandleValue,
        argument: HandleValue,
    },
    /// Makes the process critical to the job, which is above it: the job ends when the process ends.
    JobSetCritical {
        job: HandleValue,
        process: HandleValue,
    },
    /// Ends the process or job, and all that ends together with it. That is whatever is under an ending job, and each
    /// job that an ending process is critical to.
    TaskKill {
        handle: HandleValue,
    },
    /// Ends the caller with this code. Everything else that ends with it is killed.
    ProcessExit {
        code: i64,
    },
}

impl Call {
    /// States that a call is within the limits of its type.
    pub fn limits(&self)
        ensures { IsCall self.now }
    {
        if let Call::ChannelWrite { parcel, .. } = self {
            parcel.limits();
        }
    }

    /// Copies the call into memory of its own.
    pub fn copy(&self) -> Result<Call, AllocError>
        ensures { IfOk result (λ copied. copied ≡ self.now) }
    {
        Ok(match *self {
            Call::EventCreate => Call::EventCreate,
            Call::EventPairCreate => Call::EventPairCreate,
            Call::HandleClose { handle } => Call::HandleClose { handle },
            Call::HandleDuplicate { handle, rights } => Call::HandleDuplicate { handle, rights },
            Call::HandleReplace { handle, rights } => Call::HandleReplace { handle, rights },
            Call::ObjectSignal { handle, clear, set } => Call::ObjectSignal { handle, clear, set },
            Call::ObjectSignalPeer { handle, clear, set } => Call::ObjectSignalPeer {
                handle,
                clear,
                set,
            },
            Call::ChannelCreate => Call::ChannelCreate,
            Call::ChannelWrite { handle, ref parcel } => {
                let parcel = parcel.copy()?;
                Call::ChannelWrite { handle, parcel }
            }
            Call::ChannelRead {
                handle,
                bytes,
                handles,
                discard,
            } => Call::ChannelRead {
                handle,
                bytes,
                handles,
                discard,
            },
            Call::PortCreate => Call::PortCreate,
            Call::ObjectWaitAsync {
                handle,
                port,
                key,
                signals,
                edge,
            } => Call::ObjectWaitAsync {
                handle,
                port,
                key,
                signals,
                edge,
            },
            Call::PortQueue { port, key, bytes } => Call::PortQueue { port, key, bytes },
            Call::PortWait { port } => Call::PortWait { port },
            Call::PortCancel { port, source, key } => Call::PortCancel { port, source, key },
            Call::JobCreate { job } => Call::JobCreate { job },
            Call::Spawn { job, argument } => Call::Spawn { job, argument },
            Call::JobSetCritical { job, process } => Call::JobSetCritical { job, process },
            Call::TaskKill { handle } => Call::TaskKill { handle },
            Call::ProcessExit { code } => Call::ProcessExit { code },
        })
    }
}

/// What a system call answers: its status with the values that go with it.
#[derive(Debug, Drop)]
pub enum Reply {
    /// The status alone.
    Status(Status),
    /// Ok with the new handle.
    Handle(HandleValue),
    /// Ok with the handles of both ends.
    Handles(HandleValue, HandleValue),
    /// Ok with the caller's handle to the new process, and its koid.
    Spawned(HandleValue, Koid),
    /// Ok with a message's bytes and the caller's new handles.
    Message(Items<u8>, Items<HandleValue>),
    /// `buffer_too_small`, with the message's numbers of bytes and of handles.
    TooSmall(u32, u32),
    /// Ok with the packet.
    Packet(Packet),
}

impl Reply {
    /// The status of the reply: `BufferTooSmall` for `TooSmall`, and `Ok` for any other reply that carries values.
    pub fn status(&self) -> Status
        ensures { result ≡ status_of self.now }
    {
        match self {
            Reply::Status(status) => *status,
            Reply::TooSmall(_, _) => Status::BufferTooSmall,
            _ => Status::Ok,
        }
    }

    /// Copies the reply into memory of its own.
    pub fn copy(&self) -> Result<Reply, AllocError>
        ensures { IfOk result (λ copied. copied ≡ self.now) }
    {
        Ok(match self {
            Reply::Status(status) => Reply::Status(*status),
            Reply::Handle(handle) => Reply::Handle(*handle),
            Reply::Handles(first, second) => Reply::Handles(*first, *second),
            Reply::Spawned(handle, koid) => Reply::Spawned(*handle, *koid),
            Reply::Message(bytes, handles) => Reply::Message(bytes.copy()?, handles.copy()?),
            Reply::TooSmall(bytes, handles) => Reply::TooSmall(*bytes, *handles),
            Reply::Packet(packet) => Reply::Packet(*packet),
        })
    }
}

/// Something that happens to an object in one call. Its moment can be asked for.
#[derive(Clone, Copy, Debug)]
pub enum Happening {
    /// The object did not exist before the call, and exists after it.
    Made,
    /// The object existed and had not ended before the call, and has ended or is gone after it.
    Ended,
    /// `PEER_CLOSED` was not asserted on the object before the call, and is asserted after it.
    PeerClosed,
    /// The object was not leaked before the call, and is leaked after it.
    Leaked,
}

/// A moment with the call that made it.
#[derive(Debug, Drop)]
pub struct Event {
    pub moment: Moment,
    pub process: Koid,
    pub call: Call,
}

impl Event {
    /// Copies the event into memory of its own.
    pub fn copy(&self) -> Result<Event, AllocError>
        ensures { IfOk result (λ copied. copied ≡ self.now) }
    {
        let call = self.call.copy()?;
        Ok(Event {
            moment: self.moment,
            process: self.process,
            call,
        })
    }
}

/// What a client asks of the debugger.
#[derive(Debug, Drop)]
pub enum Command {
    /// Runs a call of a process at the head of the branch that the client follows.
    Call(Koid, Call),
    /// Moves the client to a moment. It then follows no branch.
    Goto(Moment),
    /// Moves the client up its path by so many moments. It then follows no branch.
    Back(u32),
    /// Makes a branch of this name at the position. The client follows it from then on.
    Branch(Items<u8>),
    /// Lets the client follow the branch of this name.
    Follow(Items<u8>),
    /// Shows the rows of the state at the position.
    Show,
    /// Shows what keeps the object at the position.
    Holders(Koid),
    /// Shows the leaked objects at the position.
    Leaks,
    /// Finds the moment on the path to the position at which this happened to the object, with its call.
    When(Happening, Koid),
    /// Copies the state at the position. Lines that begin with `pinned` ask this copy.
    Pin,
}

impl Command {
    /// Copies the command into memory of its own.
    pub fn copy(&self) -> Result<Command, AllocError>
        ensures { IfOk result (λ copied. copied ≡ self.now) }
    {
        Ok(match self {
            Command::Call(process, call) => Command::Call(*process, call.copy()?),
            Command::Goto(moment) => Command::Goto(*moment),
            Command::Back(count) => Command::Back(*count),
            Command::Branch(name) => Command::Branch(name.copy()?),
            Command::Follow(name) => Command::Follow(name.copy()?),
            Command::Show => Command::Show,
            Command::Holders(koid) => Command::Holders(*koid),
            Command::Leaks => Command::Leaks,
            Command::When(what, koid) => Command::When(*what, *koid),
            Command::Pin => Command::Pin,
        })
    }
}

/// The answer to a command that was not refused.
#[derive(Debug, Drop)]
pub enum Answer {
    /// The new moment, and the reply of the call.
    Called(Moment, Reply),
    /// The moment of the new position.
    At(Moment),
    /// The new branch, and its head.
    Branched(Items<u8>, Moment),
    /// The branch that the client follows from now on, and its head.
    Followed(Items<u8>, Moment),
    /// The moment of the position, and its rows in the order of their keys.
    Rows(Moment, Items<(RowKey, Row)>),
    /// The object, and what keeps it in this order: entries, handles in messages, live children, itself.
    Holders(Koid, Items<Support>),
    /// The moment of the position, and its leaked objects by rising koid, with their kinds.
    Leaks(Moment, Items<(Koid, Kind)>),
    /// The moment at which it happened, with its call; `None` if it never did.
    When(Option<Event>),
    /// The moment that is pinned from now on.
    Pinned(Moment),
}

impl Answer {
    /// Copies the answer into memory of its own.
    pub fn copy(&self) -> Result<Answer, AllocError>
        ensures { IfOk result (λ copied. copied ≡ self.now) }
    {
        Ok(match self {
            Answer::Called(moment, reply) => Answer::Called(*moment, reply.copy()?),
            Answer::At(moment) => Answer::At(*moment),
            Answer::Branched(name, moment) => Answer::Branched(name.copy()?, *moment),
            Answer::Followed(name, moment) => Answer::Followed(name.copy()?, *moment),
            Answer::Rows(moment, rows) => Answer::Rows(*moment, copied_rows(rows)?),
            Answer::Holders(koid, held) => Answer::Holders(*koid, held.copy()?),
            Answer::Leaks(moment, leaked) => Answer::Leaks(*moment, leaked.copy()?),
            Answer::When(None) => Answer::When(None),
            Answer::When(Some(event)) => Answer::When(Some(event.copy()?)),
            Answer::Pinned(moment) => Answer::Pinned(*moment),
        })
    }
}

/// Copies the rows with their keys into memory of their own.
fn copied_rows(rows: &Items<(RowKey, Row)>) -> Result<Items<(RowKey, Row)>, AllocError>
    ensures { IfOk result (λ copied. copied ≡ rows.now) }
{
    let mut copied = Vec::with_capacity(rows.allocator(), rows.len())?;
    for (key, row) in rows.as_slice() {
        copied.push((*key, row.copy()?))?;
    }
    Ok(Items::new(copied))
}
