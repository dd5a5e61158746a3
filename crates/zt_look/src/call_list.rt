//! Lists the calls of a path that a filter asks for.

ghost use Rattle.std.specs.Prelude.{◌≡◌, ◌⊎◌, ◌++◌, ◌∷◌, [], map, if◌then◌else◌, None, Ok, IfOk, IfErr, OnOk, OnErr};
ghost use Rattle.std.specs.List.{list_any};
ghost use Rattle.zt_history.specs.HistoryRefusals.{IsHistoryRefusal, moment_on};
ghost use Rattle.zt_history.specs.Timeline.{moved_to, IsPath};
ghost use Rattle.zt_history.specs.Tree.{end_of};
ghost use Rattle.zt_rows.specs.Reads.{names};
ghost use Rattle.zt_look.specs.CallList.{calls_on, asked_among, is_asked, is_within, is_failed, is_by, is_about, touched, touches, is_of, if_object, StandsFor};
ghost use Rattle.zt_look.specs.ProofsOnly.RecordSides.{change_under, row_before};
ghost use Rattle.zt_rows.specs.State.{row};

use crate::changes::row_before;
use crate::limits::limits;
use std::alloc::{AllocError, Global};
use zt_bits::Status;
use zt_history::History;
use zt_rows::{Call, Koid, Moment, Refusal, Reply, Row, RowKey};
use zt_store::{Record, Store};

/// A call that was made: its moment, its process, the call and its reply.
#[derive(Drop)]
pub struct CallMade {
    pub moment: Moment,
    pub process: Koid,
    pub call: Call,
    pub reply: Reply,
}

/// Which calls are asked for. These are the calls of the moments from the first to the last. They can be limited to
/// calls that failed, and to those of a process. They can also be limited to calls that changed a row of an object, or
/// of a handle that names it.
#[derive(Clone, Copy)]
pub struct CallFilter {
    pub first: Moment,
    pub last: Moment,
    pub failed: bool,
    pub process: Option<Koid>,
    pub object: Option<Koid>,
}

/// The calls on the path to `at` that are asked for, in the order of the path.
///
/// If an object is asked for, the history goes over the moments that are asked for, at the cost of their records. Then
/// it goes to `at`, also after an allocation failure on the way. Otherwise the history stays where it stands.
///
/// Errors: `NoMoment` if `at` is beyond the last moment, `OutOfMemory` if an allocation fails.
pub fn calls(
    alloc: Global,
    history: &mut History,
    at: Moment,
    asked: &CallFilter,
) -> Result<Vec<CallMade>, Refusal>
    ensures ok { IfOk result (λ list. calls_on history.old.tree at asked.now ≡ Ok list.items) }
    ensures refused { IfErr result (IsHistoryRefusal (calls_on history.old.tree at asked.now)) }
    ensures moved { OnOk result (history.new ≡ if_object asked.now (moved_to history.old at) history.old) }
    ensures stands { OnErr result ((history.new ≡ history.old) ⊎ (history.new ≡ if_object asked.now (moved_to history.old at) history.old)) }
    ensures nowhere { IfErr (moment_on history.old.tree at) (λ _. history.new ≡ history.old) }
    ensures tree { OnErr result (history.new.tree ≡ history.old.tree) }
{
    let way = history.path(at)?;
    let list = match asked.object {
        Some(_) => calls_along(alloc, history, way.as_slice(), asked)?,
        None => calls_standing(alloc, history, way.as_slice(), asked)?,
    };
    Ok(list)
}

/// The calls on a path that are asked for, if no object is asked for.
fn calls_standing(
    alloc: Global,
    history: &History,
    way: &[Moment],
    asked: &CallFilter,
) -> Result<Vec<CallMade>, AllocError>
    requires { asked.now.object ≡ None }
    ensures { IfOk result (λ list. list.items ≡ asked_among history.now.tree.made asked.now way.now) }
{
    let mut list = Vec::new(alloc);
    for place in 0..way.len() {
        push_within(&mut list, history, asked, way[place])?;
    }
    Ok(list)
}

/// Appends the call of a moment, if it is asked for and no object is asked for.
fn push_within(
    list: &mut Vec<CallMade>,
    history: &History,
    asked: &CallFilter,
    moment: Moment,
) -> Result<(), AllocError>
    requires { asked.now.object ≡ None }
    ensures { OnOk result (list.new.items ≡ list.old.items ++ asked_among history.now.tree.made asked.now (moment ∷ [])) }
{
    if is_within(asked, moment) {
        push_asked(list, history, asked, moment)
    } else {
        Ok(())
    }
}

/// The calls on a path that are asked for. The history goes along the path to its end, also after an allocation
/// failure.
fn calls_along(
    alloc: Global,
    history: &mut History,
    way: &[Moment],
    asked: &CallFilter,
) -> Result<Vec<CallMade>, AllocError>
    requires { IsPath history.old.tree.made way.now }
    ensures ok { IfOk result (λ list. list.items ≡ asked_among history.old.tree.made asked.now way.now) }
    ensures moved { history.new ≡ moved_to history.old (end_of way.now) }
{
    let list = calls_over(alloc, history, way, asked);
    history.along(way);
    list
}

/// The calls on a path that are asked for. The history goes to the moments that are asked for.
fn calls_over(
    alloc: Global,
    history: &mut History,
    way: &[Moment],
    asked: &CallFilter,
) -> Result<Vec<CallMade>, AllocError>
    requires { IsPath history.old.tree.made way.now }
    ensures ok { IfOk result (λ list. list.items ≡ asked_among history.old.tree.made asked.now way.now) }
    ensures tree { history.new.tree ≡ history.old.tree }
{
    limits(history);
    let mut list = Vec::new(alloc);
    for place in 0..way.len() {
        push_last(&mut list, history, &way[..place + 1], way[place], asked)?;
    }
    Ok(list)
}

/// Appends the call of the last moment of a path, if it is asked for. The history goes there if the moment is among
/// those that are asked for.
fn push_last(
    list: &mut Vec<CallMade>,
    history: &mut History,
    way: &[Moment],
    last: Moment,
    asked: &CallFilter,
) -> Result<(), AllocError>
    requires path { IsPath history.old.tree.made way.now }
    requires last { end_of way.now ≡ last }
    ensures list { OnOk result (list.new.items ≡ list.old.items ++ asked_among history.old.tree.made asked.now (last ∷ [])) }
    ensures tree { history.new.tree ≡ history.old.tree }
{
    if is_within(asked, last) {
        history.along(way);
        push_asked(list, history, asked, last)
    } else {
        Ok(())
    }
}

/// Appends the call of a moment, if it is asked for. If an object is asked for, the history has to stand at the moment.
fn push_asked(
    list: &mut Vec<CallMade>,
    history: &History,
    asked: &CallFilter,
    moment: Moment,
) -> Result<(), AllocError>
    requires { StandsFor asked.now history.now.position moment }
    ensures { OnOk result (list.new.items ≡ list.old.items ++ asked_among history.now.tree.made asked.now (moment ∷ [])) }
{
    match history.call_of(moment) {
        Some((process, call)) => match history.reply_of(moment) {
            Some(reply) => push_if_asked(list, history, asked, moment, process, call, reply),
            None => Ok(()),
        },
        None => Ok(()),
    }
}

/// Appends this call of the process at a moment, with this reply, if it is asked for.
fn push_if_asked(
    list: &mut Vec<CallMade>,
    history: &History,
    asked: &CallFilter,
    moment: Moment,
    process: Koid,
    call: &Call,
    reply: &Reply,
) -> Result<(), AllocError>
    requires { StandsFor asked.now history.now.position moment }
    ensures { OnOk result (list.new.items ≡ list.old.items
        ++ (if is_asked history.now.tree.made asked.now moment process reply.now
        then record { moment = moment; process = process; call = call.now; reply = reply.now } ∷ [] else [])) }
{
    if is_asked(history, asked, moment, process, reply) {
        push_copy(list, moment, process, call, reply)
    } else {
        Ok(())
    }
}

/// Appends a copy of the call of the process, with a copy of its reply.
fn push_copy(
    list: &mut Vec<CallMade>,
    moment: Moment,
    process: Koid,
    call: &Call,
    reply: &Reply,
) -> Result<(), AllocError>
    ensures { OnOk result (list.new.items ≡ list.old.items ++ record { moment = moment; process = process; call = call.now; reply = reply.now } ∷ []) }
{
    let made = CallMade {
        moment,
        process,
        call: call.copy()?,
        reply: reply.copy()?,
    };
    list.push(made)?;
    Ok(())
}

/// Whether the call of a moment is asked for, with this process and this reply.
fn is_asked(
    history: &History,
    asked: &CallFilter,
    moment: Moment,
    process: Koid,
    reply: &Reply,
) -> bool
    requires { StandsFor asked.now history.now.position moment }
    ensures { result ≡ is_asked history.now.tree.made asked.now moment process reply.now }
{
    is_within(asked, moment)
        && (!asked.failed || is_failed(reply))
        && is_by(asked.process, process)
        && is_about(asked, history, moment)
}

/// Whether the moment is among those that are asked for.
fn is_within(asked: &CallFilter, moment: Moment) -> bool
    ensures { result ≡ is_within asked.now moment }
{
    asked.first <= moment && moment <= asked.last
}

/// Whether the status of the reply is not ok.
fn is_failed(reply: &Reply) -> bool
    ensures { result ≡ is_failed reply.now }
{
    match reply {
        Reply::Status(status) => *status != Status::Ok,
        Reply::TooSmall(_, _) => true,
        _ => false,
    }
}

/// Whether the process is the one that is asked for. If none is asked for, every process is.
fn is_by(asked: Option<Koid>, process: Koid) -> bool
    ensures { result ≡ is_by asked process }
{
    match asked {
        Some(koid) => koid == process,
        None => true,
    }
}

/// Whether the call of a moment changed a row of the object that is asked for, or of a handle that names it. If no
/// object is asked for, every call passes.
fn is_about(asked: &CallFilter, history: &History, moment: Moment) -> bool
    requires { StandsFor asked.now history.now.position moment }
    ensures { result ≡ is_about asked.now.object history.now.tree.made moment }
{
    match asked.object {
        Some(koid) => is_touched(history, koid),
        None => true,
    }
}

/// Whether the call of the position changed a row of the object or of a handle that names it.
fn is_touched(history: &History, koid: Koid) -> bool
    ensures { result ≡ touched koid history.now.tree.made history.now.position }
{
    limits(history);
    match history.record_of(history.position()) {
        Some(kept) => any_touches(kept, history.store(), koid),
        None => false,
    }
}

/// Whether a row under a key of the record, before or after the call, is the object's or that of a handle that names
/// it.
fn any_touches(kept: &Record, store: &Store, koid: Koid) -> bool
    ensures { result ≡ list_any (touches koid) (map (change_under kept.now store.now.state) (map (λ e. e.0) kept.now)) }
{
    for key in kept.keys() {
        if touches(kept, store, key, koid) {
            return true;
        }
    }
    false
}

/// Whether the row under the key, before or after the call, is the object's or that of a handle that names it.
fn touches(kept: &Record, store: &Store, key: &RowKey, koid: Koid) -> bool
    ensures { result ≡ touches koid (change_under kept.now store.now.state key.now) }
{
    is_of(koid, key) || names_before(kept, store, key, koid) || names_after(store, key, koid)
}

/// Whether the row under the key before the call is that of a handle that names the object.
fn names_before(kept: &Record, store: &Store, key: &RowKey, koid: Koid) -> bool
    ensures { result ≡ names koid (row_before kept.now key.now (row store.now.state key.now)) }
{
    Row::names(row_before(kept, *key, store.row(*key)), koid)
}

/// Whether the row under the key after the call is that of a handle that names the object.
fn names_after(store: &Store, key: &RowKey, koid: Koid) -> bool
    ensures { result ≡ names koid (row store.now.state key.now) }
{
    Row::names(store.row(*key), koid)
}

/// Whether the key is that of the object, or of a row that it owns.
fn is_of(koid: Koid, key: &RowKey) -> bool
    ensures { result ≡ is_of koid key.now }
{
    match key {
        RowKey::Object(owner) => *owner == koid,
        RowKey::Entry(owner, _) => *owner == koid,
        RowKey::Msg(owner, _) => *owner == koid,
        RowKey::Packet(owner, _) => *owner == koid,
        _ => false,
    }
}
