//! Lists the messages that came to an endpoint on a path, with what became of each.

ghost use Rattle.std.specs.Prelude.{◌≡◌, ◌⊎◌, ◌++◌, ℕ, map, reverse, if◌then◌else◌, Some, Ok, IfOk, IfErr, OnOk, OnErr};
ghost use Rattle.std.specs.BTreeMap.{get};
ghost use Rattle.std.specs.List.{filter_map};
ghost use Rattle.std.specs.Option.{option_copied, option_map};
ghost use Rattle.std.specs.Ordering.{nat_cmp};
ghost use Rattle.zt_rows.specs.declared.refusals.Refusal.TheVariants as refusal;
ghost use Rattle.zt_rows.specs.Reads.{entry};
ghost use Rattle.zt_rows.specs.State.{row};
ghost use Rattle.zt_history.specs.HistoryRefusals.{moment_on};
ghost use Rattle.zt_history.specs.Timeline.{moved_to, IsPath};
ghost use Rattle.zt_history.specs.Tree.{end_of, parent_at, state_at};
ghost use Rattle.zt_queries.specs.HappeningTimes.{is_known, IsRefusedWhen};
ghost use Rattle.zt_look.specs.Changes.{changes_at};
ghost use Rattle.zt_look.specs.MessageList.{messages_on, messages_along, queued_at, comes, end_at, end_by, reads_at, read_or_discarded};
ghost use Rattle.zt_look.specs.ProofsOnly.MessageEnds.{came_list, goes, end_over, is_number};
ghost use Rattle.zt_look.specs.ProofsOnly.RecordSides.{change_under};

use crate::changes::row_before;
use crate::limits::limits;
use std::alloc::{AllocError, Global};
use std::collections::BTreeMap;
use zt_history::History;
use zt_rows::{
    Call, HandleValue, Held, Koid, Message, Moment, ROOT_JOB, Refusal, Reply, Row, RowKey,
};
use zt_store::{Record, Store};

/// The end of a message that no queue has any more. A call at its endpoint read it, or discarded it since the reader
/// had no room for it, or it was lost with its endpoint.
#[derive(Clone, Copy)]
pub enum MessageEnd {
    Read,
    Discarded,
    Lost,
}

/// A message that was queued at an endpoint on a path: from which moment on, and until which, if it is not there any
/// more.
#[derive(Drop)]
pub struct QueuedMessage {
    pub number: u64,
    pub message: Message,
    pub written: Moment,
    pub ended: Option<(Moment, MessageEnd)>,
}

/// The moments at which messages went, with their ends, under the numbers of the messages.
type Ends = BTreeMap<u64, (Moment, MessageEnd)>;

/// The messages that were queued at an endpoint on the path to `at`, in the order in which they came.
///
/// The history goes back along the path and forth again to `at`, at the cost of the path's records. It does so also
/// after an allocation failure on the way.
///
/// Errors: `NoMoment` if `at` is beyond the last moment, `NoObject` if the koid was not given out by `at`,
/// `OutOfMemory` if an allocation fails.
pub fn messages(
    alloc: Global,
    history: &mut History,
    at: Moment,
    koid: Koid,
) -> Result<Vec<QueuedMessage>, Refusal>
    ensures ok { IfOk result (λ list. messages_on history.old.tree at koid ≡ Ok list.items) }
    ensures refused { IfErr result (IsRefusedWhen (messages_on history.old.tree at koid)) }
    ensures moment { IfErr result (λ refusal. IfErr (moment_on history.old.tree at) (λ reason. refusal ≡ reason)) }
    ensures moved { OnOk result (history.new ≡ moved_to history.old at) }
    ensures stands { OnErr result ((history.new ≡ history.old) ⊎ (history.new ≡ moved_to history.old at)) }
    ensures nowhere { IfErr (moment_on history.old.tree at) (λ _. history.new ≡ history.old) }
    ensures unknown { IfErr result (λ why. why ≡ refusal.NoObject → history.new ≡ moved_to history.old at) }
    ensures tree { OnErr result (history.new.tree ≡ history.old.tree) }
{
    let way = history.path(at)?;
    history.along(way.as_slice());
    if !is_known(history.store(), koid) {
        return Err(Refusal::NoObject);
    }
    let list = messages_along(alloc, history, way.as_slice(), koid)?;
    Ok(list)
}

/// Whether the koid was given out.
pub(crate) fn is_known(store: &Store, koid: Koid) -> bool
    ensures { result ≡ is_known store.now.state koid }
{
    koid >= ROOT_JOB && koid < store.counters().next_koid
}

/// The messages that come on a path. The history goes back along the path and forth again, also after an allocation
/// failure.
fn messages_along(
    alloc: Global,
    history: &mut History,
    way: &[Moment],
    koid: Koid,
) -> Result<Vec<QueuedMessage>, AllocError>
    requires { IsPath history.old.tree.made way.now }
    ensures ok { IfOk result (λ list. list.items ≡ messages_along history.old.tree.made koid way.now) }
    ensures moved { history.new ≡ moved_to history.old (end_of way.now) }
{
    let list = messages_back(alloc, history, way, koid);
    history.along(way);
    list
}

/// The messages that come on a path. The history goes back along the path.
fn messages_back(
    alloc: Global,
    history: &mut History,
    way: &[Moment],
    koid: Koid,
) -> Result<Vec<QueuedMessage>, AllocError>
    requires { IsPath history.old.tree.made way.now }
    ensures ok { IfOk result (λ list. list.items ≡ messages_along history.old.tree.made koid way.now) }
    ensures tree { history.new.tree ≡ history.old.tree }
{
    limits(history);
    let mut ends = BTreeMap::new(alloc);
    let mut list = Vec::new(alloc);
    for place in (0..way.len()).rev() {
        history.along(&way[..place + 1]);
        go_over(&mut list, &mut ends, history, koid)?;
    }
    list.as_mut_slice().reverse();
    Ok(list)
}

/// Appends the messages that come at the position behind those of the later moments, the last one first. Notes the ends
/// of those that go there.
fn go_over(
    list: &mut Vec<QueuedMessage>,
    ends: &mut Ends,
    history: &History,
    koid: Koid,
) -> Result<(), AllocError>
    ensures list { OnOk result (reverse list.new.items ≡
        filter_map (queued_at (get nat_cmp ends.old) koid history.now.position) (changes_at history.now.tree.made history.now.position) ++ reverse list.old.items) }
    ensures ends { OnOk result ((n : ℕ) → get nat_cmp ends.new n ≡ end_over koid n (changes_at history.now.tree.made history.now.position)
        (history.now.position, end_at history.now.tree.made koid history.now.position) (get nat_cmp ends.old n)) }
{
    limits(history);
    let moment = history.position();
    match history.record_of(moment) {
        Some(kept) => {
            let store = history.store();
            push_coming(list, ends, kept, store, koid, moment)?;
            note_going(ends, kept, store, koid, moment, end_here(history, koid))
        }
        None => Ok(()),
    }
}

/// Appends the messages that come under the keys of the record, the last one first.
fn push_coming(
    list: &mut Vec<QueuedMessage>,
    ends: &Ends,
    kept: &Record,
    store: &Store,
    koid: Koid,
    moment: Moment,
) -> Result<(), AllocError>
    ensures { OnOk result (reverse list.new.items ≡
        filter_map (queued_at (get nat_cmp ends.now) koid moment) (map (change_under kept.now store.now.state) (map (λ e. e.0) kept.now)) ++ reverse list.old.items) }
{
    let keys = kept.keys();
    for place in (0..keys.len()).rev() {
        let came = coming(kept, store, &keys[place], koid);
        push_came(list, ends, came, moment)?;
    }
    Ok(())
}

/// Appends a message that comes at this moment with its end, if there is such a message.
fn push_came(
    list: &mut Vec<QueuedMessage>,
    ends: &Ends,
    came: Option<(u64, &Message)>,
    moment: Moment,
) -> Result<(), AllocError>
    ensures { OnOk result (list.new.items ≡ list.old.items ++ came_list (get nat_cmp ends.now) moment (option_map (λ q. (q.0, q.1.now)) came.entry)) }
{
    match came {
        Some((number, message)) => {
            let queued = QueuedMessage {
                number,
                message: message.copy()?,
                written: moment,
                ended: ends.get(&number).copied(),
            };
            list.push(queued)?;
            Ok(())
        }
        None => Ok(()),
    }
}

/// The message that comes under the key, with its number, if it is one of this endpoint.
fn coming<'a>(
    kept: &'a Record,
    store: &'a Store,
    key: &RowKey,
    koid: Koid,
) -> Option<(u64, &'a Message)>
    ensures { option_map (λ q. (q.0, q.1.now)) result ≡ comes koid (change_under kept.now store.now.state key.now) }
{
    let after = store.row(*key);
    let before = row_before(kept, *key, after);
    match key {
        RowKey::Msg(owner, number) => {
            if *owner != koid || Row::as_message(before).is_some() {
                return None;
            }
            match Row::as_message(after) {
                Some(message) => Some((*number, message)),
                None => None,
            }
        }
        _ => None,
    }
}

/// Notes this end for the messages that go under the keys of the record, which the call of this moment changed.
fn note_going(
    ends: &mut Ends,
    kept: &Record,
    store: &Store,
    koid: Koid,
    moment: Moment,
    end: MessageEnd,
) -> Result<(), AllocError>
    ensures { OnOk result ((n : ℕ) → get nat_cmp ends.new n
        ≡ end_over koid n (map (change_under kept.now store.now.state) (map (λ e. e.0) kept.now)) (moment, end) (get nat_cmp ends.old n)) }
{
    for key in kept.keys() {
        note(ends, going(kept, store, key, koid), moment, end)?;
    }
    Ok(())
}

/// Notes this end for the message of the number, if there is a number.
fn note(
    ends: &mut Ends,
    number: Option<u64>,
    moment: Moment,
    end: MessageEnd,
) -> Result<(), AllocError>
    ensures { OnOk result ((n : ℕ) → get nat_cmp ends.new n ≡ (if is_number n number then Some (moment, end) else get nat_cmp ends.old n)) }
{
    match number {
        Some(number) => {
            ends.insert(number, (moment, end))?;
            Ok(())
        }
        None => Ok(()),
    }
}

/// The number of the message that goes under the key, if it is one of this endpoint.
fn going(kept: &Record, store: &Store, key: &RowKey, koid: Koid) -> Option<u64>
    ensures { result ≡ goes koid (change_under kept.now store.now.state key.now) }
{
    let after = store.row(*key);
    let before = row_before(kept, *key, after);
    match key {
        RowKey::Msg(owner, number) => {
            if *owner == koid
                && Row::as_message(before).is_some()
                && Row::as_message(after).is_none()
            {
                Some(*number)
            } else {
                None
            }
        }
        _ => None,
    }
}

/// The end of the endpoint's messages that went in the call of the position.
fn end_here(history: &History, koid: Koid) -> MessageEnd
    ensures { result ≡ end_at history.now.tree.made koid history.now.position }
{
    let moment = history.position();
    match history.call_of(moment) {
        Some((process, call)) => match history.reply_of(moment) {
            Some(reply) => end_by(history, process, call, reply, koid),
            None => MessageEnd::Lost,
        },
        None => MessageEnd::Lost,
    }
}

/// The end of the messages that went in this call of the process, which had this reply.
fn end_by(history: &History, process: Koid, call: &Call, reply: &Reply, koid: Koid) -> MessageEnd
    ensures { result ≡ end_by koid (state_at history.now.tree.made (parent_at history.now.tree.made history.now.position)) process call.now reply.now }
{
    if reads_at(history, process, call, koid) {
        read_or_discarded(reply)
    } else {
        MessageEnd::Lost
    }
}

/// Whether this call of the process, by which the position was made, reads at the endpoint.
fn reads_at(history: &History, process: Koid, call: &Call, koid: Koid) -> bool
    ensures { result ≡ reads_at koid (state_at history.now.tree.made (parent_at history.now.tree.made history.now.position)) process call.now }
{
    match call {
        Call::ChannelRead { handle, .. } => match entry_before(history, process, *handle) {
            Some(held) => held.koid == koid,
            None => false,
        },
        _ => false,
    }
}

/// The entry that the process had under the value before the call of the position.
fn entry_before(history: &History, process: Koid, handle: HandleValue) -> Option<Held>
    ensures { result ≡ entry (state_at history.now.tree.made (parent_at history.now.tree.made history.now.position)) process handle }
{
    Row::as_entry(row_before_call(history, &RowKey::Entry(process, handle)))
}

/// The row that stood under the key before the call of the position.
fn row_before_call<'a>(history: &'a History, key: &RowKey) -> Option<&'a Row>
    ensures { option_copied result ≡ row (state_at history.now.tree.made (parent_at history.now.tree.made history.now.position)) key.now }
{
    limits(history);
    let after = history.store().row(*key);
    match history.record_of(history.position()) {
        Some(kept) => row_before(kept, *key, after),
        None => after,
    }
}

/// The end of a message, from the reply of the call that read at its endpoint.
fn read_or_discarded(reply: &Reply) -> MessageEnd
    ensures { result ≡ read_or_discarded reply.now }
{
    match reply {
        Reply::Message(_, _) => MessageEnd::Read,
        Reply::TooSmall(_, _) => MessageEnd::Discarded,
        _ => MessageEnd::Lost,
    }
}
