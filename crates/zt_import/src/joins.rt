//! Tells which adopted ends are the two ends of one channel, by all that was read and written at them.

use crate::arranged::Arranged;
use crate::plan::Plan;
use crate::seen_objects::{Reading, SeenObjects};
use crate::trail::JoinedEnd;
use std::alloc::{AllocError, Global};
use std::collections::HashMap;
use zt_bits::Kind;
use zt_logs::LoggedCall;
use zt_rows::{Call, HandleValue};

/// An end by the first handle that the log has of it: the process, and the handle value.
pub(crate) type EndName = (u64, u32);

/// Which ends are joined while a plan goes over a log.
#[derive(Drop)]
pub(crate) enum Joins {
    /// An end is joined when a message is read at it first, with the end at which that message was written first. Most logs
    /// come to these joins.
    Guessed,
    /// These ends, each with its other end.
    Found(HashMap<EndName, EndName>),
}

impl Joins {
    pub(crate) fn are_guessed(&self) -> bool {
        matches!(self, Joins::Guessed)
    }

    /// The end that is joined with this one, if the joins are found.
    pub(crate) fn other(&self, end: EndName) -> Option<EndName> {
        match self {
            Joins::Guessed => None,
            Joins::Found(joins) => joins.get(&end).copied(),
        }
    }
}

/// Which ends would do as the other end of an end.
#[derive(Clone, Copy)]
enum Partner {
    Nobody,
    One(usize),
    Several,
}

impl Partner {
    /// Adds an end that would do.
    fn and(self, other: usize) -> Partner {
        match self {
            Partner::Nobody => Partner::One(other),
            Partner::One(known) if known == other => self,
            _ => Partner::Several,
        }
    }
}

/// For each object, which ends would do as its other end, by all that was read and written at both.
#[derive(Drop)]
pub(crate) struct Partners {
    partners: Vec<Partner>,
}

impl Partners {
    fn new(alloc: Global, count: usize) -> Result<Partners, AllocError> {
        Ok(Partners {
            partners: vec![in alloc; Partner::Nobody; count]?,
        })
    }

    /// Adds that each of these two ends would do for the other.
    fn add(&mut self, one: usize, other: usize) {
        if let Some(partner) = self.partners.get_mut(one) {
            *partner = partner.and(other);
        }
        if let Some(partner) = self.partners.get_mut(other) {
            *partner = partner.and(one);
        }
    }

    /// Sets what is known of the other end of this one.
    fn set(&mut self, end: usize, partner: Partner) {
        if let Some(known) = self.partners.get_mut(end) {
            *known = partner;
        }
    }

    fn at(&self, end: usize) -> Partner {
        match self.partners.get(end) {
            Some(partner) => *partner,
            None => Partner::Nobody,
        }
    }

    /// The only end that would do for this one, if this one is also the only end that would do for that.
    pub(crate) fn of(&self, end: usize) -> Option<usize> {
        let Partner::One(other) = self.at(end) else {
            return None;
        };
        match self.at(other) {
            Partner::One(back) if back == end => Some(other),
            _ => None,
        }
    }
}

impl Plan {
    /// Compares all ends with those that may be their other ends.
    pub(crate) fn partners(
        &self,
        alloc: Global,
        calls: &[LoggedCall],
        order: &Arranged,
    ) -> Result<Partners, AllocError> {
        let mut partners = Partners::new(alloc, self.objects.count())?;
        for end in 0..self.objects.count() {
            self.add_partners(&mut partners, calls, order, end)?;
        }
        self.set_told(&mut partners);
        Ok(partners)
    }

    /// If the log tells the koid of an end's peer, only the end with that koid would do.
    fn set_told(&self, partners: &mut Partners) {
        for end in 0..self.objects.count() {
            match self.koids.joined(end) {
                Some(other) => partners.set(end, Partner::One(other)),
                None if self.koids.tells_peer(end) => partners.set(end, Partner::Nobody),
                None => {}
            }
        }
    }

    /// Compares an end with the ends at which the message that it read first was written first. Once two would do, the
    /// others are taken to do without a comparison.
    fn add_partners(
        &self,
        partners: &mut Partners,
        calls: &[LoggedCall],
        order: &Arranged,
        end: usize,
    ) -> Result<(), AllocError> {
        let Some(read) = self.first_read(calls, end) else {
            return Ok(());
        };
        let mut found = 0usize;
        for other in self.writers_of(read)? {
            let other = *other;
            if found > 1 || self.would_do(calls, order, end, other) {
                partners.add(end, other);
                found = found.saturating_add(1);
            }
        }
        Ok(())
    }

    /// The call that read the first message at an end, if the other end may be in the log.
    fn first_read<'a>(&self, calls: &'a [LoggedCall], end: usize) -> Option<&'a LoggedCall> {
        if !self.may_be_joined(calls, end) {
            return None;
        }
        match self.objects.read(end).first() {
            Some(Reading::Message(call)) => calls.get(*call),
            _ => None,
        }
    }

    /// Whether an end is adopted, and the log tells what its first message was. An end without a message may be joined too.
    fn may_be_joined(&self, calls: &[LoggedCall], end: usize) -> bool {
        self.is_named(end)
            && match self.objects.read(end).first() {
                Some(Reading::Message(call)) => tells_bytes(calls, *call),
                Some(Reading::Discarded(_)) => false,
                None => true,
            }
    }

    /// Whether two ends would do as those of one channel: what was read at each was written at the other, in order.
    fn would_do(&self, calls: &[LoggedCall], order: &Arranged, one: usize, other: usize) -> bool {
        one != other
            && self.may_be_joined(calls, other)
            && follows(&self.objects, calls, order, one, other)
            && follows(&self.objects, calls, order, other, one)
    }

    /// Whether the ends that are joined are exactly those for which one other end alone would do.
    pub(crate) fn is_joined_by(&self, partners: &Partners) -> bool {
        for end in 0..self.objects.count() {
            if self.objects.adopted(end).is_some() && self.objects.peer(end) != partners.of(end) {
                return false;
            }
        }
        true
    }

    /// Moves writes ahead of the reads of their messages, at all channels with both ends known. Returns whether one was
    /// moved.
    pub(crate) fn move_writes(
        &self,
        calls: &[LoggedCall],
        order: &mut Arranged,
        partners: &Partners,
    ) -> Result<bool, AllocError> {
        let before = order.moves().len();
        for end in 0..self.objects.count() {
            if let Some(other) = self.other_end(partners, end) {
                self.move_writes_at(calls, order, end, other)?;
            }
        }
        Ok(order.moves().len() > before)
    }

    /// The other end of an end: its peer in the log if the log made it, or the end that it is joined with.
    fn other_end(&self, partners: &Partners, end: usize) -> Option<usize> {
        match self.objects.adopted(end) {
            Some(_) => partners.of(end),
            None => self.objects.peer(end),
        }
    }

    /// Moves the writes at one end ahead of the reads of their messages at the other. Each read takes the next write of its
    /// message.
    fn move_writes_at(
        &self,
        calls: &[LoggedCall],
        order: &mut Arranged,
        reader: usize,
        writer: usize,
    ) -> Result<(), AllocError> {
        let written = self.objects.written(writer);
        let mut next = 0usize;
        for reading in self.objects.read(reader) {
            if let Some((place, write)) = next_same(calls, written, next, *reading) {
                let from = order.place_of(write);
                let to = order.place_of(reading.call());
                let _is_moved = order.move_line(calls, from, to)?;
                next = place.saturating_add(1);
            }
        }
        Ok(())
    }

    /// The joins of all ends with their peers. Both ends of a pair are of channels, or both of event pairs.
    pub(crate) fn joined_ends(
        &self,
        alloc: Global,
        calls: &[LoggedCall],
    ) -> Result<HashMap<usize, JoinedEnd>, AllocError> {
        let mut joined = HashMap::new(alloc);
        for end in 0..self.objects.count() {
            if let Some(by) = self.joined_by(calls, end) {
                insert_joined(&mut joined, end, by)?;
            }
        }
        Ok(joined)
    }

    /// The join of an end with its peer, if both are adopted ends of one kind.
    fn joined_by(&self, calls: &[LoggedCall], end: usize) -> Option<JoinedEnd> {
        let other = self.objects.peer(end)?;
        let (process, handle) = self.objects.adopted(other)?;
        if self.objects.adopted(end).is_none() || !self.are_channels(end, other) {
            return None;
        }
        if self.koids.joined(end).is_some() {
            return Some(JoinedEnd {
                process,
                handle,
                messages: 0,
                written: 0,
                read: 0,
            });
        }
        let (written, read) = self.first_message(end, other)?;
        let here = messages_in(self.objects.read(end));
        let there = messages_in(self.objects.read(other));
        Some(JoinedEnd {
            process,
            handle,
            messages: here.saturating_add(there),
            written: line_of(calls, written),
            read: line_of(calls, read),
        })
    }

    fn are_channels(&self, end: usize, other: usize) -> bool {
        let (one, _) = self.kind(end);
        let (two, _) = self.kind(other);
        one == two && matches!(one, Kind::Channel | Kind::EventPair)
    }

    /// The calls that wrote and read the first message that was read at either of two ends: the write, then the read.
    fn first_message(&self, one: usize, other: usize) -> Option<(usize, usize)> {
        let here = self.first_message_at(one, other);
        let there = self.first_message_at(other, one);
        match (here, there) {
            (Some(here), Some(there)) => Some(if here.1 < there.1 { here } else { there }),
            (Some(here), None) => Some(here),
            (None, there) => there,
        }
    }

    /// The calls that wrote and read the first message at an end: the write at the other end, then the read.
    fn first_message_at(&self, reader: usize, writer: usize) -> Option<(usize, usize)> {
        let written = self.objects.written(writer).first().copied()?;
        match self.objects.read(reader).first() {
            Some(Reading::Message(read)) => Some((written, *read)),
            _ => None,
        }
    }

    /// The ends that are joined, each with its other end, by their names.
    pub(crate) fn joins_of(
        &self,
        alloc: Global,
        partners: &Partners,
    ) -> Result<HashMap<EndName, EndName>, AllocError> {
        let mut joins = HashMap::new(alloc);
        for end in 0..self.objects.count() {
            if let Some(other) = partners.of(end) {
                insert_join(
                    &mut joins,
                    self.objects.adopted(end),
                    self.objects.adopted(other),
                )?;
            }
        }
        Ok(joins)
    }
}

fn insert_joined(
    joined: &mut HashMap<usize, JoinedEnd>,
    end: usize,
    by: JoinedEnd,
) -> Result<(), AllocError> {
    joined.insert(end, by)?;
    Ok(())
}

/// How many messages were read and not discarded.
fn messages_in(read: &[Reading]) -> usize {
    read.iter()
        .filter(|reading| matches!(reading, Reading::Message(_)))
        .count()
}

/// The line of the call with this number; 0 if there is none.
pub(crate) fn line_of(calls: &[LoggedCall], call: usize) -> u64 {
    match calls.get(call) {
        Some(logged) => logged.line,
        None => 0,
    }
}

fn insert_join(
    joins: &mut HashMap<EndName, EndName>,
    one: Option<(u64, HandleValue)>,
    other: Option<(u64, HandleValue)>,
) -> Result<(), AllocError> {
    if let (Some((process, handle)), Some((peer, far))) = (one, other) {
        joins.insert((process, handle.0), (peer, far.0))?;
    }
    Ok(())
}

/// Whether each message that was read or discarded at an end was written at the other before, in order.
fn follows(
    objects: &SeenObjects,
    calls: &[LoggedCall],
    order: &Arranged,
    reader: usize,
    writer: usize,
) -> bool {
    let written = objects.written(writer);
    for (place, reading) in objects.read(reader).iter().enumerate() {
        match written.get(place) {
            Some(write) if is_message(calls, order, *write, *reading) => {}
            _ => return false,
        }
    }
    true
}

/// Whether a call wrote the message that was read, or one that may have been discarded, and stands ahead or may be moved
/// ahead.
fn is_message(calls: &[LoggedCall], order: &Arranged, write: usize, reading: Reading) -> bool {
    match reading {
        Reading::Discarded(read) => is_ahead(calls, order, write, read),
        Reading::Message(read) => {
            is_same(calls.get(write), calls.get(read)) && is_ahead(calls, order, write, read)
        }
    }
}

/// How many writes are searched for the message of a read.
const WRITES: usize = 8;

/// The next write of a message that was read or discarded, with its place among the writes.
fn next_same(
    calls: &[LoggedCall],
    written: &[usize],
    next: usize,
    reading: Reading,
) -> Option<(usize, usize)> {
    for place in next..written.len().min(next.saturating_add(WRITES)) {
        let write = written[place];
        let is_found = match reading {
            Reading::Discarded(_) => true,
            Reading::Message(read) => is_same(calls.get(write), calls.get(read)),
        };
        if is_found {
            return Some((place, write));
        }
    }
    None
}

/// Whether a call stands ahead of another, or may be moved there.
fn is_ahead(calls: &[LoggedCall], order: &Arranged, one: usize, other: usize) -> bool {
    order.precedes(one, other)
        || order.can_move_line(calls, order.place_of(one), order.place_of(other))
}

/// Whether a read has the bytes of a write, as far as the log tells them, and as many handles.
fn is_same(written: Option<&LoggedCall>, read: Option<&LoggedCall>) -> bool {
    let (Some(written), Some(read)) = (written, read) else {
        return false;
    };
    let Call::ChannelWrite { parcel, .. } = &written.call else {
        return false;
    };
    if parcel.handles().len() != read.recorded.handles.len() {
        return false;
    }
    match &read.recorded.bytes {
        Some(bytes) => bytes.as_slice() == parcel.bytes().as_slice(),
        None => true,
    }
}

/// Whether the log tells the bytes that a call read.
fn tells_bytes(calls: &[LoggedCall], read: usize) -> bool {
    match calls.get(read) {
        Some(logged) => logged.recorded.bytes.is_some(),
        None => false,
    }
}
