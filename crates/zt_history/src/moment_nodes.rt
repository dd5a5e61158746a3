//! Stores how each moment was made: the parent, the process, the call, its reply, and the length of the path.

ghost use Rattle.std.specs.Prelude.{◌≡◌, ◌<◌, ◌+◌, ◌++◌, ◌∷◌, [], true, Some, IfOk, OnOk, IfSome, length, slice_get, vec_capacity};
ghost use Rattle.std.specs.Option.{option_copied, option_map};
ghost use Rattle.zt_history.specs.HistoryRefusals.{most_moments};
ghost use Rattle.zt_history.specs.ProofsOnly.Branches.{without_last};
ghost use Rattle.zt_history.specs.ProofsOnly.FourBytes.{four_byte_numbers};
ghost use Rattle.zt_history.specs.ProofsOnly.StoredNodes.{AreWithin, HasShared, IsCut, IsPut, caller_of, no_call, no_reply, shared_calls, shared_replies};

use crate::same_calls::{is_same_call, is_same_reply, may_come_again};
use std::alloc::{AllocError, Global};
use std::marker::Model;
use std::mem;
use zt_bits::Status;
use zt_rows::{Call, Koid, Moment, Reply};

/// How many moments back an equal call or reply is searched for. Drivers and tests loop over a few calls, and each new
/// moment pays for up to this many comparisons.
const NEAR: usize = 12;

/// The stored part of one moment, besides its parent. `call` and `reply` are places in the lists of calls and of
/// replies. An owned call or reply was put into its list for this moment.
#[derive(Clone, Copy)]
pub(crate) struct StoredNode {
    depth: u32,
    process: u32,
    call: u32,
    reply: u32,
    owns_call: bool,
    owns_reply: bool,
}

/// Where a call or a reply stands in its list, and whether it was put there just now.
#[derive(Clone, Copy)]
struct KeptAt {
    place: u32,
    owned: bool,
}

/// The moments after the opening, in the order in which they were made.
///
/// Parents stand in a list of their own, so that a path is read from few bytes. So do calls and replies: the shared
/// ones first, then the others in the order of the moments. A call or reply that equals that of a moment shortly
/// before, as in a loop, is stored once.
#[derive(Drop)]
pub(crate) struct MomentNodes {
    nodes: Vec<StoredNode>,
    parents: Vec<Moment>,
    calls: Vec<Call>,
    replies: Vec<Reply>,
}

impl Model for MomentNodes {
    ghost use Rattle.zt_history.specs.ProofsOnly.StoredNodes.{AreStored, NodeList, has_room, nodes_of};
    ghost use Rattle.std.specs.Prelude.{◌&&◌, vec_capacity};

    ghost Value = { NodeList };

    ghost view = { λ m. record {
      list = nodes_of m.calls.items m.replies.items m.nodes.items m.parents.items;
      room = (has_room m.nodes.items (vec_capacity m.nodes) && has_room m.parents.items (vec_capacity m.parents)) && (has_room m.calls.items (vec_capacity m.calls) && has_room m.replies.items (vec_capacity m.replies));
    } };

    ghost invariant = { λ m. AreStored m.calls.items m.replies.items m.nodes.items m.parents.items };
}

impl MomentNodes {
    /// No moment.
    pub(crate) fn new(alloc: Global) -> Result<MomentNodes, AllocError>
        ensures { IfOk result (λ nodes. nodes.list ≡ []) }
    {
        Ok(MomentNodes {
            nodes: Vec::new(alloc),
            parents: Vec::new(alloc),
            calls: shared_calls(alloc)?,
            replies: shared_replies(alloc)?,
        })
    }

    /// How many moments there are.
    pub(crate) fn len(&self) -> usize
        ensures { result ≡ length self.now.list }
    {
        self.nodes.len()
    }

    /// The parent of the moment in this place.
    pub(crate) fn parent(&self, place: usize) -> Option<Moment>
        ensures { result ≡ option_map (λ n. n.parent) (slice_get self.now.list place) }
    {
        match self.parents.get(place) {
            Some(parent) => Some(*parent),
            None => None,
        }
    }

    /// How many moments there are on the path to the moment in this place.
    pub(crate) fn depth(&self, place: usize) -> Option<u32>
        ensures { result ≡ option_map (λ n. n.depth) (slice_get self.now.list place) }
    {
        match self.nodes.get(place) {
            Some(node) => Some(node.depth),
            None => None,
        }
    }

    /// The call that made the moment in this place, with its process.
    pub(crate) fn call(&self, place: usize) -> Option<(Koid, &Call)>
        ensures { option_map (λ p. (p.0, p.1.now)) result ≡ option_map caller_of (slice_get self.now.list place) }
    {
        match self.nodes.get(place) {
            Some(node) => {
                let process = Koid(u64::from(node.process));
                Some((process, &self.calls[node.call as usize]))
            }
            None => None,
        }
    }

    /// The reply of the call that made the moment in this place.
    pub(crate) fn reply(&self, place: usize) -> Option<&Reply>
        ensures { option_copied result ≡ option_map (λ n. n.reply) (slice_get self.now.list place) }
    {
        match self.nodes.get(place) {
            Some(node) => Some(&self.replies[node.reply as usize]),
            None => None,
        }
    }

    /// Makes room for one more moment.
    pub(crate) fn reserve(&mut self) -> Result<(), AllocError>
        ensures list { self.new.list ≡ self.old.list }
        ensures room { OnOk result (self.new.room ≡ true) }
    {
        self.nodes.reserve(1)?;
        self.parents.reserve(1)?;
        self.calls.reserve(1)?;
        self.replies.reserve(1)?;
        Ok(())
    }

    /// Appends a moment. Moves call and reply out of their places, and leaves others there. Call and reply are large:
    /// passed by value from function to function, they would go through memory at each.
    #[inline(always)]
    pub(crate) fn push(
        &mut self,
        parent: Moment,
        depth: u32,
        process: Koid,
        call: &mut Call,
        reply: &mut Reply,
    )
        requires room { self.old.room ≡ true }
        requires few { length self.old.list < most_moments }
        requires small { process < four_byte_numbers }
        ensures { self.new.list ≡ self.old.list ++ record { parent = parent; depth = depth; process = process; call = call.old; reply = reply.old } ∷ [] }
    {
        let call = put_call(&mut self.calls, &self.nodes, call);
        let reply = put_reply(&mut self.replies, &self.nodes, reply);
        self.parents.push_reserved(parent);
        self.nodes.push_reserved(StoredNode {
            depth,
            process: process.0 as u32,
            call: call.place,
            reply: reply.place,
            owns_call: call.owned,
            owns_reply: reply.owned,
        });
    }

    /// Drops the last moment, if there is any.
    pub(crate) fn pop(&mut self)
        ensures { self.new.list ≡ without_last self.old.list }
    {
        self.parents.pop();
        if let Some(node) = self.nodes.pop() {
            cut(&mut self.calls, node.owns_call);
            cut(&mut self.replies, node.owns_reply);
        }
    }
}

/// The calls that all moments share.
fn shared_calls(alloc: Global) -> Result<Vec<Call>, AllocError>
    ensures { IfOk result (λ calls. calls.items ≡ shared_calls) }
{
    let calls = [
        Call::EventCreate,
        Call::EventPairCreate,
        Call::ChannelCreate,
        Call::PortCreate,
    ];
    Ok(Vec::from_array(alloc, calls)?)
}

/// The replies that all moments share.
fn shared_replies(alloc: Global) -> Result<Vec<Reply>, AllocError>
    ensures { IfOk result (λ replies. replies.items ≡ shared_replies) }
{
    let replies = [
        Reply::Status(Status::Ok),
        Reply::Status(Status::BadHandle),
        Reply::Status(Status::WrongType),
        Reply::Status(Status::AccessDenied),
        Reply::Status(Status::InvalidArgs),
        Reply::Status(Status::NotSupported),
        Reply::Status(Status::PeerClosed),
        Reply::Status(Status::ShouldWait),
        Reply::Status(Status::BufferTooSmall),
        Reply::Status(Status::TimedOut),
        Reply::Status(Status::BadState),
        Reply::Status(Status::OutOfRange),
        Reply::Status(Status::NotFound),
        Reply::Status(Status::AlreadyBound),
    ];
    Ok(Vec::from_array(alloc, replies)?)
}

/// The place of the call, if it is one that all moments share.
fn shared_call(call: &Call) -> Option<u32>
    ensures { IfSome result (λ place. slice_get shared_calls place ≡ Some call.now) }
{
    match call {
        Call::EventCreate => Some(0),
        Call::EventPairCreate => Some(1),
        Call::ChannelCreate => Some(2),
        Call::PortCreate => Some(3),
        _ => None,
    }
}

/// The place of the reply that is this status alone.
#[tactic(auto, using(crate::proofs::SharedLaws::status_shared))]
fn shared_status(status: Status) -> u32
    ensures { slice_get shared_replies result ≡ Some (Reply.Status status) }
{
    u32::from(status.number())
}

/// Finds the place of the call in the list, or moves the call to the list's end. In the second case another call is
/// left where it was taken.
#[inline(always)]
fn put_call(calls: &mut Vec<Call>, nodes: &Vec<StoredNode>, call: &mut Call) -> KeptAt
    requires shared { HasShared shared_calls calls.old.items }
    requires within { AreWithin (λ n. n.call) nodes.now.items calls.old.items }
    requires room { length calls.old.items < vec_capacity calls.old }
    requires few { length calls.old.items < four_byte_numbers }
    ensures { IsPut no_call calls.old.items calls.new.items call.old result.place result.owned }
{
    match call_there(calls, nodes, call) {
        Some(place) => KeptAt {
            place,
            owned: false,
        },
        None => {
            let place = calls.len() as u32;
            calls.push_reserved(mem::replace(call, Call::EventCreate));
            KeptAt { place, owned: true }
        }
    }
}

/// The place at which the call stands already: as one that all moments share, or as that of a moment shortly before.
fn call_there(calls: &Vec<Call>, nodes: &Vec<StoredNode>, call: &Call) -> Option<u32>
    requires shared { HasShared shared_calls calls.now.items }
    requires within { AreWithin (λ n. n.call) nodes.now.items calls.now.items }
    ensures { IfSome result (λ place. slice_get calls.now.items place ≡ Some call.now) }
{
    match shared_call(call) {
        Some(place) => Some(place),
        None if may_come_again(call) => near_call(calls, nodes, call),
        None => None,
    }
}

/// The place of an equal call of one of the last few moments.
fn near_call(calls: &Vec<Call>, nodes: &Vec<StoredNode>, call: &Call) -> Option<u32>
    requires { AreWithin (λ n. n.call) nodes.now.items calls.now.items }
    ensures { IfSome result (λ place. slice_get calls.now.items place ≡ Some call.now) }
{
    for number in nodes.len().saturating_sub(NEAR)..nodes.len() {
        let place = nodes[number].call;
        if is_same_call(&calls[place as usize], call) {
            return Some(place);
        }
    }
    None
}

/// Finds the place of the reply in the list, or moves the reply to the list's end. In the second case another reply is
/// left where it was taken.
#[inline(always)]
fn put_reply(replies: &mut Vec<Reply>, nodes: &Vec<StoredNode>, reply: &mut Reply) -> KeptAt
    requires shared { HasShared shared_replies replies.old.items }
    requires within { AreWithin (λ n. n.reply) nodes.now.items replies.old.items }
    requires room { length replies.old.items < vec_capacity replies.old }
    requires few { length replies.old.items < four_byte_numbers }
    ensures { IsPut no_reply replies.old.items replies.new.items reply.old result.place result.owned }
{
    match reply_there(replies, nodes, reply) {
        Some(place) => KeptAt {
            place,
            owned: false,
        },
        None => {
            let place = replies.len() as u32;
            replies.push_reserved(mem::replace(reply, Reply::Status(Status::Ok)));
            KeptAt { place, owned: true }
        }
    }
}

/// The place at which the reply stands already: as one that all moments share, or as that of a moment shortly before.
fn reply_there(replies: &Vec<Reply>, nodes: &Vec<StoredNode>, reply: &Reply) -> Option<u32>
    requires shared { HasShared shared_replies replies.now.items }
    requires within { AreWithin (λ n. n.reply) nodes.now.items replies.now.items }
    ensures { IfSome result (λ place. slice_get replies.now.items place ≡ Some reply.now) }
{
    match reply {
        Reply::Status(status) => Some(shared_status(*status)),
        Reply::Message(_, _) | Reply::TooSmall(_, _) | Reply::Packet(_) => {
            near_reply(replies, nodes, reply)
        }
        _ => None,
    }
}

/// The place of an equal reply of one of the last few moments.
fn near_reply(replies: &Vec<Reply>, nodes: &Vec<StoredNode>, reply: &Reply) -> Option<u32>
    requires { AreWithin (λ n. n.reply) nodes.now.items replies.now.items }
    ensures { IfSome result (λ place. slice_get replies.now.items place ≡ Some reply.now) }
{
    for number in nodes.len().saturating_sub(NEAR)..nodes.len() {
        let place = nodes[number].reply;
        if is_same_reply(&replies[place as usize], reply) {
            return Some(place);
        }
    }
    None
}

/// Drops the last element, if it was put there for the moment that goes.
fn cut<T: Drop>(list: &mut Vec<T>, owned: bool)
    ensures { IsCut owned list.old.items list.new.items }
{
    if owned {
        list.pop();
    }
}
