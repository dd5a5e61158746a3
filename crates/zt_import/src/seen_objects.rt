//! The objects of a log, and what its calls tell of them.

use crate::kind_signs::{KindSigns, Sign};
use std::alloc::{AllocError, Global};
use std::collections::VecDeque;
use zt_bits::Kind;
use zt_rows::{HandleValue, MESSAGE_BYTES, MESSAGE_HANDLES};

/// A message that the log has as written: the objects of its handles, and none for a handle that is not known.
#[derive(Drop)]
pub(crate) struct Sent {
    pub(crate) objects: Vec<Option<usize>>,
}

/// A message for which calls had too little room: the first of these calls and its process. `bytes` is the most room for
/// bytes that one of them had, and `handles` the most room for handles.
#[derive(Clone, Copy)]
pub(crate) struct Unread {
    pub(crate) call: usize,
    pub(crate) process: u64,
    pub(crate) bytes: usize,
    pub(crate) handles: usize,
}

impl Unread {
    /// How many bytes it is made with: one more than there was room for, but not more than a message takes.
    pub(crate) fn size(&self) -> usize {
        self.bytes.saturating_add(1).min(MESSAGE_BYTES)
    }

    /// How many handles it is made with. None, unless there was room for the bytes of any message: then one more than there
    /// was room for.
    pub(crate) fn handle_count(&self) -> usize {
        if self.bytes < MESSAGE_BYTES {
            0
        } else {
            self.handles.saturating_add(1).min(MESSAGE_HANDLES)
        }
    }
}

/// A message that came to an end.
#[derive(Clone, Copy)]
pub(crate) enum Reading {
    /// The call of this number read it.
    Message(usize),
    /// The call of this number had too little room for it and discarded it.
    Discarded(usize),
}

impl Reading {
    /// The call that read or discarded it.
    pub(crate) fn call(self) -> usize {
        match self {
            Reading::Message(call) | Reading::Discarded(call) => call,
        }
    }
}

/// An object, as the log tells of it.
#[derive(Drop)]
pub(crate) struct SeenObject {
    pub(crate) signs: KindSigns,
    /// The first handle that the log has of it, and the process, if it is adopted.
    pub(crate) adopted: Option<(u64, HandleValue)>,
    /// The further handles of it that are adopted, each with its process.
    pub(crate) again: Vec<(u64, HandleValue)>,
    /// The rights of its handles, if it is a stand-in.
    pub(crate) stand_in: Option<u32>,
    /// The other end of its channel or pair, if that is known.
    pub(crate) peer: Option<usize>,
    /// Whether a message from outside came to this end.
    pub(crate) is_outside: bool,
    /// The place of its messages among those of all ends, if it has some.
    end: Option<usize>,
}

/// The messages of an end. Most objects have none.
#[derive(Drop)]
struct EndMessages {
    /// The messages that wait at this end.
    queue: VecDeque<Sent>,
    /// The messages that were written at this end while its peer is not known.
    sent: VecDeque<Sent>,
    /// The first message at this end, if calls had too little room for it and its peer is not known.
    unread: Option<Unread>,
    /// The numbers of the calls that wrote at this end.
    written: Vec<usize>,
    /// The messages that were read or discarded at this end.
    read: Vec<Reading>,
}

impl EndMessages {
    fn none(alloc: Global) -> EndMessages {
        EndMessages {
            queue: VecDeque::new(alloc),
            sent: VecDeque::new(alloc),
            unread: None,
            written: Vec::new(alloc),
            read: Vec::new(alloc),
        }
    }
}

/// The objects of a log, each under a number of its own.
#[derive(Drop)]
pub(crate) struct SeenObjects {
    objects: Vec<SeenObject>,
    ends: Vec<EndMessages>,
    /// Whether one of them was made a stand-in.
    has_stand_ins: bool,
}

impl SeenObjects {
    pub(crate) fn new(alloc: Global) -> SeenObjects {
        SeenObjects {
            objects: Vec::new(alloc),
            ends: Vec::new(alloc),
            has_stand_ins: false,
        }
    }

    /// Adds an object, which is adopted if a handle is given. Returns its number.
    pub(crate) fn add(&mut self, adopted: Option<(u64, HandleValue)>) -> Result<usize, AllocError> {
        let alloc = *self.objects.allocator();
        let number = self.objects.len();
        self.objects.push(SeenObject {
            signs: KindSigns::none(),
            adopted,
            again: Vec::new(alloc),
            stand_in: None,
            peer: None,
            is_outside: false,
            end: None,
        })?;
        Ok(number)
    }

    /// The messages of an end, if it has some.
    fn end(&self, number: usize) -> Option<&EndMessages> {
        match self.objects.get(number) {
            Some(object) => self.ends.get(object.end?),
            None => None,
        }
    }

    /// The messages of an end, if it has some.
    fn end_mut(&mut self, number: usize) -> Option<&mut EndMessages> {
        match self.objects.get(number) {
            Some(object) => {
                let end = object.end?;
                self.ends.get_mut(end)
            }
            None => None,
        }
    }

    /// The messages of an end, which may have none so far. None if there is no such object.
    fn end_made(&mut self, number: usize) -> Result<Option<&mut EndMessages>, AllocError> {
        let place = self.ends.len();
        let Some(object) = self.objects.get_mut(number) else {
            return Ok(None);
        };
        match object.end {
            Some(end) => Ok(self.ends.get_mut(end)),
            None => {
                object.end = Some(place);
                let alloc = *self.ends.allocator();
                self.ends.push(EndMessages::none(alloc))?;
                Ok(self.ends.get_mut(place))
            }
        }
    }

    /// The first handle that the log has of an adopted object, with its process.
    pub(crate) fn adopted(&self, number: usize) -> Option<(u64, HandleValue)> {
        match self.objects.get(number) {
            Some(object) => object.adopted,
            None => None,
        }
    }

    /// Adds a further handle to an adopted object.
    pub(crate) fn add_again(
        &mut self,
        number: usize,
        process: u64,
        handle: HandleValue,
    ) -> Result<(), AllocError> {
        if let Some(object) = self.objects.get_mut(number) {
            object.again.push((process, handle))?;
        }
        Ok(())
    }

    /// The handles of an adopted object, without the first.
    pub(crate) fn again(&self, number: usize) -> &[(u64, HandleValue)] {
        match self.objects.get(number) {
            Some(object) => object.again.as_slice(),
            None => &[],
        }
    }

    /// Makes an object a stand-in with these rights.
    pub(crate) fn set_stand_in(&mut self, number: usize, rights: u32) {
        self.has_stand_ins = true;
        if let Some(object) = self.objects.get_mut(number) {
            object.stand_in = Some(rights);
        }
    }

    /// Whether an object was made a stand-in.
    pub(crate) fn has_stand_ins(&self) -> bool {
        self.has_stand_ins
    }

    /// The rights of an object, if it is a stand-in.
    pub(crate) fn stand_in(&self, number: usize) -> Option<u32> {
        match self.objects.get(number) {
            Some(object) => object.stand_in,
            None => None,
        }
    }

    /// How many objects there are.
    pub(crate) fn count(&self) -> usize {
        self.objects.len()
    }

    /// Adds what a call tells of the object's kind.
    pub(crate) fn add_call(&mut self, number: usize, sign: Sign) {
        if let Some(object) = self.objects.get_mut(number) {
            object.signs.add_call(sign);
        }
    }

    /// Adds what a wait tells of the object's kind.
    pub(crate) fn add_wait(&mut self, number: usize, sign: Sign) {
        if let Some(object) = self.objects.get_mut(number) {
            object.signs.add_wait(sign);
        }
    }

    /// The kind of an object, and whether a use tells it.
    pub(crate) fn kind(&self, number: usize) -> (Kind, bool) {
        match self.objects.get(number) {
            Some(object) => object.signs.kind(),
            None => (Kind::Event, false),
        }
    }

    /// The peer of an object, if it is known.
    pub(crate) fn peer(&self, number: usize) -> Option<usize> {
        match self.objects.get(number) {
            Some(object) => object.peer,
            None => None,
        }
    }

    /// Makes two ends peers. What was written at one waits at the other.
    pub(crate) fn pair(&mut self, first: usize, second: usize) -> Result<(), AllocError> {
        let written = self.link(first, second);
        let answered = self.link(second, first);
        self.put_queue(second, written)?;
        self.put_queue(first, answered)
    }

    /// Sets the peer of an end. Returns the messages that were written at it; none if there are none.
    fn link(&mut self, number: usize, peer: usize) -> Option<VecDeque<Sent>> {
        if let Some(object) = self.objects.get_mut(number) {
            object.peer = Some(peer);
        }
        let alloc = *self.objects.allocator();
        match self.end_mut(number) {
            Some(end) => {
                end.unread = None;
                Some(std::mem::replace(&mut end.sent, VecDeque::new(alloc)))
            }
            None => None,
        }
    }

    /// Makes these the messages that wait at an end. An end where none waits is left as it is if there are none.
    fn put_queue(
        &mut self,
        number: usize,
        queue: Option<VecDeque<Sent>>,
    ) -> Result<(), AllocError> {
        match queue {
            Some(queue) => {
                if let Some(end) = self.end_made(number)? {
                    end.queue = queue;
                }
            }
            None => {
                let alloc = *self.objects.allocator();
                if let Some(end) = self.end_mut(number) {
                    end.queue = VecDeque::new(alloc);
                }
            }
        }
        Ok(())
    }

    /// Whether the object is adopted and its peer may still be found.
    pub(crate) fn is_open(&self, number: usize) -> bool {
        match self.objects.get(number) {
            Some(object) => {
                object.adopted.is_some() && object.peer.is_none() && !object.is_outside
            }
            None => false,
        }
    }

    /// Adds a message that was written at an end.
    pub(crate) fn send(&mut self, number: usize, message: Sent) -> Result<(), AllocError> {
        let is_open = self.is_open(number);
        match self.peer(number) {
            Some(peer) => self.queue(peer, message),
            None if is_open => self.keep_sent(number, message),
            None => Ok(()),
        }
    }

    /// Appends a message to those that wait at an end.
    fn queue(&mut self, number: usize, message: Sent) -> Result<(), AllocError> {
        match self.end_made(number)? {
            Some(end) => {
                end.queue.push_back(message)?;
                Ok(())
            }
            None => Ok(()),
        }
    }

    /// Keeps a message until the peer of its end is known.
    fn keep_sent(&mut self, number: usize, message: Sent) -> Result<(), AllocError> {
        match self.end_made(number)? {
            Some(end) => {
                end.sent.push_back(message)?;
                Ok(())
            }
            None => Ok(()),
        }
    }

    /// Adds a call that wrote at an end. Returns whether it is the first, and the end is adopted.
    pub(crate) fn add_written(&mut self, number: usize, call: usize) -> Result<bool, AllocError> {
        let is_adopted = self.adopted(number).is_some();
        match self.end_made(number)? {
            Some(end) => {
                end.written.push(call)?;
                Ok(is_adopted && end.written.len() == 1)
            }
            None => Ok(false),
        }
    }

    /// Adds a message that was read or discarded at an end.
    pub(crate) fn add_read(&mut self, number: usize, reading: Reading) -> Result<(), AllocError> {
        match self.end_made(number)? {
            Some(end) => {
                end.read.push(reading)?;
                Ok(())
            }
            None => Ok(()),
        }
    }

    /// The calls that wrote at an end.
    pub(crate) fn written(&self, number: usize) -> &[usize] {
        match self.end(number) {
            Some(end) => end.written.as_slice(),
            None => &[],
        }
    }

    /// The messages that were read or discarded at an end.
    pub(crate) fn read(&self, number: usize) -> &[Reading] {
        match self.end(number) {
            Some(end) => end.read.as_slice(),
            None => &[],
        }
    }

    /// Takes the first message that waits at an end.
    pub(crate) fn receive(&mut self, number: usize) -> Option<Sent> {
        match self.end_mut(number) {
            Some(end) => end.queue.pop_front(),
            None => None,
        }
    }

    /// Whether messages can come to an end only from outside, as far as is known.
    pub(crate) fn is_alone(&self, number: usize) -> bool {
        match self.objects.get(number) {
            Some(object) => object.adopted.is_some() && object.peer.is_none(),
            None => false,
        }
    }

    /// Records that messages come to this end from outside, so that its peer is not looked for any more.
    pub(crate) fn set_outside(&mut self, number: usize) {
        if let Some(object) = self.objects.get_mut(number) {
            object.is_outside = true;
        }
    }

    /// Records that a call had too little room for the first message at an end, as earlier calls may have had.
    pub(crate) fn add_unread(&mut self, number: usize, found: Unread) -> Result<(), AllocError> {
        if let Some(end) = self.end_made(number)? {
            end.unread = Some(match end.unread {
                Some(unread) => Unread {
                    call: unread.call,
                    process: unread.process,
                    bytes: unread.bytes.max(found.bytes),
                    handles: unread.handles.max(found.handles),
                },
                None => found,
            });
        }
        Ok(())
    }

    /// Takes the first message at an end, if calls had too little room for it.
    pub(crate) fn take_unread(&mut self, number: usize) -> Option<Unread> {
        match self.end_mut(number) {
            Some(end) => std::mem::replace(&mut end.unread, None),
            None => None,
        }
    }
}
