//! Tells which adopted handles are of one object, by what was done through one handle and seen through the other.

use crate::plan::Plan;
use std::alloc::{AllocError, Global};
use std::collections::HashMap;
use zt_bits::{Kind, Status};
use zt_logs::{LoggedCall, LoggedPacket};
use zt_rows::Call;

/// The objects to which a thing was done: one, or several.
#[derive(Clone, Copy)]
enum Doer {
    One(usize),
    Several,
}

/// Something that was seen at an adopted object.
#[derive(Drop)]
enum Seen {
    Packet { port: usize, key: (u64, Vec<u8>) },
    Signals { event: usize, trigger: u32 },
}

/// The evidence that a log has: what was done to adopted objects, and what was seen at them.
#[derive(Drop)]
pub(crate) struct Evidence {
    /// The port at which each user packet was queued.
    queued: HashMap<(u64, Vec<u8>), Doer>,
    /// The signals that were set on each object.
    set: HashMap<usize, u32>,
    seen: Vec<Seen>,
    /// The object that was last waited on at a port with a key.
    waits: HashMap<(usize, u64), usize>,
}

impl Evidence {
    pub(crate) fn new(alloc: Global) -> Evidence {
        Evidence {
            queued: HashMap::new(alloc),
            set: HashMap::new(alloc),
            seen: Vec::new(alloc),
            waits: HashMap::new(alloc),
        }
    }

    /// Keeps that a packet was queued at a port.
    fn add_queued(&mut self, port: usize, key: u64, bytes: &[u8; 32]) -> Result<(), AllocError> {
        let alloc = *self.seen.allocator();
        let packet = (key, Vec::from_slice(alloc, bytes.as_slice())?);
        let doer = match self.queued.get(&packet).copied() {
            Some(Doer::One(other)) if other == port => Doer::One(port),
            Some(_) => Doer::Several,
            None => Doer::One(port),
        };
        self.queued.insert(packet, doer)?;
        Ok(())
    }

    /// Keeps that signals were set on an object.
    fn add_set(&mut self, object: usize, bits: u32) -> Result<(), AllocError> {
        let before = self.set_of(object);
        self.set.insert(object, before | bits)?;
        Ok(())
    }

    fn set_of(&self, object: usize) -> u32 {
        match self.set.get(&object) {
            Some(bits) => *bits,
            None => 0,
        }
    }

    fn add_wait(&mut self, port: usize, key: u64, object: usize) -> Result<(), AllocError> {
        self.waits.insert((port, key), object)?;
        Ok(())
    }

    fn add_packet(&mut self, port: usize, key: u64, bytes: &[u8; 32]) -> Result<(), AllocError> {
        let alloc = *self.seen.allocator();
        let key = (key, Vec::from_slice(alloc, bytes.as_slice())?);
        self.seen.push(Seen::Packet { port, key })?;
        Ok(())
    }

    fn add_signals(&mut self, event: usize, trigger: u32) -> Result<(), AllocError> {
        self.seen.push(Seen::Signals { event, trigger })?;
        Ok(())
    }

    fn waited(&self, port: usize, key: u64) -> Option<usize> {
        self.waits.get(&(port, key)).copied()
    }

    /// The only port at which a packet was queued, if it is another than the one where it was got.
    fn other_port(&self, port: usize, key: &(u64, Vec<u8>)) -> Option<usize> {
        match self.queued.get(key).copied() {
            Some(Doer::One(other)) if other != port => Some(other),
            _ => None,
        }
    }

    /// The only other event on which one of the signals of `trigger` was set. None if one of them was set on `event`
    /// itself.
    fn other_event(&self, plan: &Plan, event: usize, trigger: u32) -> Option<usize> {
        if self.set_of(event) & trigger != 0 {
            return None;
        }
        let mut found = None;
        for (object, bits) in &self.set {
            if *bits & trigger != 0 && plan.kind(*object).0 == Kind::Event {
                if found.is_some() {
                    return None;
                }
                found = Some(*object);
            }
        }
        found
    }
}

impl Plan {
    /// Keeps what an ok call did to an adopted object, or saw at it.
    pub(crate) fn see_evidence(&mut self, logged: &LoggedCall) -> Result<(), AllocError> {
        if logged.recorded.status != Some(Status::Ok) {
            return Ok(());
        }
        let process = logged.process;
        match &logged.call {
            Call::PortQueue { port, key, bytes } => match self.adopted_of(process, *port) {
                Some(object) => self.evidence.add_queued(object, *key, bytes),
                None => Ok(()),
            },
            Call::ObjectSignal { handle, set, .. } => match self.adopted_of(process, *handle) {
                Some(object) => self.evidence.add_set(object, set.0),
                None => Ok(()),
            },
            Call::ObjectWaitAsync {
                handle,
                port,
                key,
                ..
            } => match (
                self.adopted_of(process, *handle),
                self.object_of(process, *port),
            ) {
                (Some(object), Some(port)) => self.evidence.add_wait(port, *key, object),
                _ => Ok(()),
            },
            Call::PortWait { port } => match (
                self.object_of(process, *port),
                logged.recorded.packet.get(),
            ) {
                (Some(port), Some(packet)) => self.see_packet(port, packet),
                _ => Ok(()),
            },
            _ => Ok(()),
        }
    }

    /// Keeps that a packet was got at a port.
    fn see_packet(&mut self, port: usize, packet: LoggedPacket) -> Result<(), AllocError> {
        match packet {
            LoggedPacket::User { key, bytes } => {
                if self.objects.adopted(port).is_some() {
                    self.evidence.add_packet(port, key, &bytes)?;
                }
                Ok(())
            }
            LoggedPacket::Signal { key, trigger, .. } => match self.evidence.waited(port, key) {
                Some(object) => self.evidence.add_signals(object, trigger.0),
                None => Ok(()),
            },
        }
    }

    /// Pairs of objects that are one. A packet or a signal of an event was seen at the first of a pair, and queued or set
    /// at the second alone.
    pub(crate) fn same_objects(&self, alloc: Global) -> Result<Vec<(usize, usize)>, AllocError> {
        let mut same = Vec::new(alloc);
        for seen in self.evidence.seen.as_slice() {
            if let Some(pair) = self.same_by(seen) {
                same.push(pair)?;
            }
        }
        Ok(same)
    }

    /// The two objects that are one by this evidence.
    fn same_by(&self, seen: &Seen) -> Option<(usize, usize)> {
        match seen {
            Seen::Packet { port, key } => {
                let other = self.evidence.other_port(*port, key)?;
                Some((*port, other))
            }
            Seen::Signals { event, trigger } => {
                if self.kind(*event).0 != Kind::Event {
                    return None;
                }
                let other = self.evidence.other_event(self, *event, *trigger)?;
                Some((*event, other))
            }
        }
    }
}
