//! Rows: what a state has of counters, objects, entries, messages, packets and waits.

ghost use Rattle.std.specs.Prelude.{◌≡◌, ◌≤◌, ◌==◌, ◌||◌, ◌↔◌, IfOk, IsSome, IfSome, length};
ghost use Rattle.std.specs.List.{list_any};
ghost use Rattle.std.specs.Option.{option_copied};
ghost use Rattle.zt_rows.specs.Contents.{IsWithinMessage};
ghost use Rattle.zt_rows.specs.Reads.{as_entry, as_message, as_object, as_packet, as_wait, is_live_job, is_live_process, names};
ghost use Rattle.zt_rows.specs.Support.{root_job};
ghost use Rattle.zt_rows.specs.Tests.{is_task};

use crate::items::Items;
use crate::limits::{MESSAGE_BYTES, MESSAGE_HANDLES, ROOT_JOB};
use crate::numbers::{HandleValue, Koid};
use std::alloc::AllocError;
use std::marker::Model;
use zt_bits::{Kind, Rights, Signals};

/// The numbers that the system gives out next: a koid, and the number of a wait.
#[derive(Clone, Copy, Debug, PartialEq, Eq)]
pub struct Counters {
    pub next_koid: Koid,
    pub next_wait: u64,
}

/// What a handle holds: the koid of the object that it names, and its rights to the object.
#[derive(Clone, Copy, Debug, PartialEq, Eq)]
pub struct Held {
    pub koid: Koid,
    pub rights: Rights,
}

/// Whether a process or a job runs, and how it ended. Objects of other kinds are always `Live`.
#[derive(Clone, Copy, Debug, PartialEq, Eq)]
pub enum Life {
    Live,
    Killed,
    Exited(i64),
}

/// An object. `link` is the peer of an endpoint, the parent of a live process or job, or 0. `next` is the next number
/// of what the object owns: handles of a process, messages of an endpoint, packets of a port. `critical` is the job
/// that ends when this live process ends, or 0.
#[derive(Clone, Copy, Debug, PartialEq, Eq)]
pub struct ObjectRow {
    pub kind: Kind,
    pub signals: Signals,
    pub link: Koid,
    pub life: Life,
    pub next: u64,
    pub critical: Koid,
}

impl ObjectRow {
    ghost use Rattle.zt_rows.specs.Handles.{fresh};

    /// Makes a new live object of this kind and link. It has no signals and owns nothing yet.
    pub fn new(kind: Kind, link: Koid) -> ObjectRow
        ensures { result ≡ fresh kind link }
    {
        ObjectRow {
            kind,
            signals: Signals(0),
            link,
            life: Life::Live,
            next: 0,
            critical: Koid(0),
        }
    }

    /// Whether it is a job or a process.
    #[inline(always)]
    pub fn is_task(&self) -> bool
        ensures { result ≡ is_task self.now.kind }
    {
        self.kind == Kind::Job || self.kind == Kind::Process
    }

    /// Whether it is a job that has not ended.
    #[inline(always)]
    pub fn is_live_job(&self) -> bool
        ensures { result ≡ is_live_job self.now }
    {
        self.kind == Kind::Job && self.life == Life::Live
    }

    /// Whether it is a process that has not ended.
    #[inline(always)]
    pub fn is_live_process(&self) -> bool
        ensures { result ≡ is_live_process self.now }
    {
        self.kind == Kind::Process && self.life == Life::Live
    }

    /// Whether it is a job or a process that has not ended.
    #[inline(always)]
    pub fn is_live_task(&self) -> bool
        ensures { result ≡ (is_live_job self.now || is_live_process self.now) }
    {
        self.is_task() && self.life == Life::Live
    }

    /// Whether the object of this koid supports itself, so that it stays without any handle. The root job does, and so
    /// does a process that has not ended.
    #[inline(always)]
    pub fn keeps_itself(&self, koid: Koid) -> bool
        ensures { result ≡ (is_live_process self.now || (koid == root_job)) }
    {
        self.is_live_process() || koid == ROOT_JOB
    }
}

/// A message in the queue of an endpoint. It is within the limits of a message.
#[derive(Debug, Drop)]
pub struct Message {
    bytes: Items<u8>,
    handles: Items<Held>,
}

impl Model for Message {
    ghost use Rattle.zt_rows.specs.Contents.{MessageContent, IsWithinMessage};

    ghost Value = { MessageContent };

    ghost view = { λ m. record { bytes = m.bytes; handles = m.handles } };

    ghost invariant = { λ m. IsWithinMessage m.bytes m.handles };
}

impl Message {
    ghost use Rattle.zt_rows.specs.Contents.{MessageContent};

    /// Makes a message of these bytes and handles; `None` if there are more than 65,536 bytes or 64 handles.
    pub fn new(bytes: Items<u8>, handles: Items<Held>) -> Option<Message>
        ensures within { IsSome result ↔ IsWithinMessage bytes handles }
        ensures holds { IfSome result (λ m. (m.bytes ≡ bytes) × (m.handles ≡ handles)) }
    {
        if bytes.len() <= MESSAGE_BYTES && handles.len() <= MESSAGE_HANDLES {
            Some(Message { bytes, handles })
        } else {
            None
        }
    }

    /// The bytes.
    pub fn bytes(&self) -> &Items<u8>
        ensures { result.now ≡ self.now.bytes }
    {
        &self.bytes
    }

    /// What the handles in the message hold, in their order.
    pub fn handles(&self) -> &Items<Held>
        ensures value { result.now ≡ self.now.handles }
        ensures within { length result.now ≤ 64 }
    {
        &self.handles
    }

    /// The bytes and the handles.
    pub fn into_parts(self) -> (Items<u8>, Items<Held>)
        ensures bytes { result.0 ≡ self.bytes }
        ensures handles { result.1 ≡ self.handles }
    {
        let Message { bytes, handles } = self;
        (bytes, handles)
    }

    /// Copies the message into memory of its own.
    pub fn copy(&self) -> Result<Message, AllocError>
        ensures { IfOk result (λ copied. copied ≡ self.now) }
    {
        let bytes = self.bytes.copy()?;
        let handles = self.handles.copy()?;
        Ok(Message { bytes, handles })
    }
}

impl PartialEq for Message {
    ghost use Rattle.zt_rows.specs.Same.{content_eq};
    ghost use Rattle.zt_rows.specs.ProofsOnly.SameRows.{content_eq-laws};

    ghost eq = { content_eq };

    ghost laws = { content_eq-laws };

    fn eq(&self, other: &Self) -> bool {
        self.bytes == other.bytes && self.handles == other.handles
    }
}

/// A packet in a port: bytes that a user sent, or the news that a wait fired.
#[derive(Clone, Copy, Debug, PartialEq, Eq)]
pub enum Packet {
    User {
        key: u64,
        bytes: [u8; 32],
    },
    /// `trigger` has the signals that were waited for, `observed` all signals of the object when the wait fired.
    Signal {
        key: u64,
        trigger: Signals,
        observed: Signals,
        process: Koid,
        handle: HandleValue,
    },
}

/// A wait: when one of the signals is asserted on the handle's object, a packet goes to the port. With `edge`, the
/// signal has to rise: it is asserted at a call's end and was not asserted at that call's start.
#[derive(Clone, Copy, Debug, PartialEq, Eq)]
pub struct Wait {
    pub process: Koid,
    pub handle: HandleValue,
    pub port: Koid,
    pub key: u64,
    pub signals: Signals,
    pub edge: bool,
}

/// The row under a key, with one variant for each variant of the key.
#[derive(Debug, Drop)]
pub enum Row {
    Counters(Counters),
    Object(ObjectRow),
    Entry(Held),
    Msg(Message),
    Packet(Packet),
    Wait(Wait),
}

impl Row {
    /// The object, if there is a row and it is an object.
    #[inline(always)]
    pub fn as_object(row: Option<&Row>) -> Option<&ObjectRow>
        ensures { option_copied result ≡ as_object (option_copied row.entry) }
    {
        match row {
            Some(Row::Object(object)) => Some(object),
            _ => None,
        }
    }

    /// What the entry holds, if there is a row and it is an entry.
    #[inline(always)]
    pub fn as_entry(row: Option<&Row>) -> Option<Held>
        ensures { result ≡ as_entry (option_copied row.entry) }
    {
        match row {
            Some(Row::Entry(held)) => Some(*held),
            _ => None,
        }
    }

    /// The message, if there is a row and it is a message.
    #[inline(always)]
    pub fn as_message(row: Option<&Row>) -> Option<&Message>
        ensures { option_copied result ≡ as_message (option_copied row.entry) }
    {
        match row {
            Some(Row::Msg(message)) => Some(message),
            _ => None,
        }
    }

    /// The packet, if there is a row and it is a packet.
    #[inline(always)]
    pub fn as_packet(row: Option<&Row>) -> Option<Packet>
        ensures { result ≡ as_packet (option_copied row.entry) }
    {
        match row {
            Some(Row::Packet(packet)) => Some(*packet),
            _ => None,
        }
    }

    /// The wait, if there is a row and it is a wait.
    #[inline(always)]
    pub fn as_wait(row: Option<&Row>) -> Option<Wait>
        ensures { result ≡ as_wait (option_copied row.entry) }
    {
        match row {
            Some(Row::Wait(wait)) => Some(*wait),
            _ => None,
        }
    }

    /// Whether there is a row and it names the object: it is an entry that does, or a message with a handle that does.
    pub fn names(row: Option<&Row>, koid: Koid) -> bool
        ensures { result ≡ names koid (option_copied row.entry) }
    {
        match row {
            Some(Row::Entry(held)) => held.koid == koid,
            Some(Row::Msg(message)) => any_names(koid, message.handles.as_slice()),
            _ => false,
        }
    }

    /// Copies the row into memory of its own.
    pub fn copy(&self) -> Result<Row, AllocError>
        ensures { IfOk result (λ copied. copied ≡ self.now) }
    {
        Ok(match self {
            Row::Counters(counters) => Row::Counters(*counters),
            Row::Object(object) => Row::Object(*object),
            Row::Entry(held) => Row::Entry(*held),
            Row::Msg(message) => Row::Msg(message.copy()?),
            Row::Packet(packet) => Row::Packet(*packet),
            Row::Wait(wait) => Row::Wait(*wait),
        })
    }
}

/// Whether one of the handles names the object.
fn any_names(koid: Koid, handles: &[Held]) -> bool
    ensures { result ≡ list_any (λ held. held.koid == koid) handles.now }
{
    for held in handles {
        if held.koid == koid {
            return true;
        }
    }
    false
}

impl PartialEq for Row {
    ghost use Rattle.zt_rows.specs.Same.{row_eq};
    ghost use Rattle.zt_rows.specs.ProofsOnly.SameRows.{row_eq-laws};

    ghost eq = { row_eq };

    ghost laws = { row_eq-laws };

    fn eq(&self, other: &Self) -> bool {
        match (self, other) {
            (Row::Counters(a), Row::Counters(b)) => a == b,
            (Row::Object(a), Row::Object(b)) => a == b,
            (Row::Entry(a), Row::Entry(b)) => a == b,
            (Row::Msg(a), Row::Msg(b)) => a == b,
            (Row::Packet(a), Row::Packet(b)) => a == b,
            (Row::Wait(a), Row::Wait(b)) => a == b,
            _ => false,
        }
    }
}
