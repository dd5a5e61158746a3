//! Answers questions about a history.

ghost use Rattle.std.specs.Prelude.{◌≡◌, false, ◌≤◌, ◌++◌, IfErr, IfOk, OnOk, length};
ghost use Rattle.std.specs.List.{flat_map};
ghost use Rattle.std.specs.Option.{option_map};
ghost use Rattle.zt_rows.specs.declared.refusals.Refusal.TheVariants as refusal;
ghost use Rattle.zt_book.specs.Log.{standing_of};
ghost use Rattle.zt_history.specs.Tree.{name_at};
ghost use Rattle.zt_look.specs.Names.{masks};
ghost use Rattle.zt_look.specs.Lines.{call_made_line, change_lines, when_line};
ghost use Rattle.zt_view.specs.Questions.{IsAnswer, IsUnanswered, branch_text, event_text, found_at, times_text};
ghost use Rattle.zt_view.specs.declared.question.ViewQuestion.TheVariants as question;

use crate::lineages::lineage_lines;
use crate::lives::life_lines;
use crate::path_ranges::path_lines;
use std::alloc::{AllocError, Global};
use zt_book::{Book, TreeLook};
use zt_history::{BranchId, History};
use zt_look::{
    BranchLook, CallFilter, CallMade, Change, EventFilter, Naming, ObjectEvent, ObjectLook,
    branches, calls, changed, events_between, object_at, print_branch, print_call_made,
    print_change, print_event, print_object, print_when,
};
use zt_rows::{Call, HandleValue, Happening, Koid, Moment, Refusal};

/// A question about a history. Its answer has masks, and no names, for rights and signals.
#[derive(Clone, Copy)]
pub enum ViewQuestion {
    /// The rows that the call of a moment changed.
    Change(Moment),
    /// The calls on the path to a moment that the filter selects.
    Calls(Moment, CallFilter),
    /// The events on the path to a moment that the filter selects.
    Events(Moment, EventFilter),
    /// The moments of the path to the first moment, from the second one on.
    Path(Moment, Moment),
    /// An object at a moment.
    Object(Koid, Moment),
    /// The life of a handle of a process on the path to a moment.
    Handle(Koid, HandleValue, Moment),
    /// The handles of an object on the path to a moment, each with the one that it came from.
    Lineage(Koid, Moment),
    /// The branches.
    Branches,
}

/// A question, with the allocator for its answer.
#[derive(Clone, Copy)]
struct Asking {
    alloc: Global,
    question: ViewQuestion,
}

impl TreeLook for Asking {
    ghost use Rattle.std.specs.Prelude.{IfErr, IfOk};
    ghost use Rattle.zt_view.specs.Questions.{IsAnswer, IsUnanswered};

    type Found = Result<Vec<u8>, Refusal>;

    ghost looks = { λ asked from found to. IfOk found (λ text. IsAnswer asked.question from.tree text.items)
        × IfErr found (IsUnanswered asked.question from.tree) };

    fn look(&self, history: &mut History) -> Result<Vec<u8>, Refusal> {
        lines_of(self.alloc, history, &self.question)
    }
}

/// Returns the lines that answer a question. History, clients and log of the book are unchanged.
pub fn found(alloc: Global, book: &mut Book, question: ViewQuestion) -> Result<Vec<u8>, Refusal>
    requires { 1 ≤ length book.old.session.clients }
    ensures answer { IfOk result (λ text. IsAnswer question book.old.session.tree text.items) }
    ensures none { IfErr result (IsUnanswered question book.old.session.tree) }
    ensures standing { standing_of book.new ≡ standing_of book.old }
    ensures clients { 1 ≤ length book.new.session.clients }
{
    book.look(&Asking { alloc, question })
}

/// Returns the lines that answer a question about a history.
fn lines_of(alloc: Global, history: &mut History, asked: &ViewQuestion) -> Result<Vec<u8>, Refusal>
    ensures answer { IfOk result (λ text. IsAnswer asked.now history.old.tree text.items) }
    ensures none { IfErr result (IsUnanswered asked.now history.old.tree) }
    ensures tree { history.new.tree ≡ history.old.tree }
{
    match asked {
        ViewQuestion::Change(moment) => change_lines(alloc, history, *moment),
        ViewQuestion::Calls(at, wanted) => call_lines(alloc, history, *at, wanted),
        ViewQuestion::Events(at, wanted) => event_lines(alloc, history, *at, wanted),
        ViewQuestion::Path(at, from) => path_lines(alloc, history, *at, *from),
        ViewQuestion::Object(koid, at) => object_lines(alloc, history, *koid, *at),
        ViewQuestion::Handle(process, value, at) => {
            life_lines(alloc, history, *process, *value, *at)
        }
        ViewQuestion::Lineage(koid, at) => lineage_lines(alloc, history, *koid, *at),
        ViewQuestion::Branches => branch_lines(alloc, history),
    }
}

/// Prints the rows that the call of a moment changed.
fn change_lines(alloc: Global, history: &mut History, moment: Moment) -> Result<Vec<u8>, Refusal>
    ensures answer { IfOk result (λ text. IsAnswer (question.Change moment) history.old.tree text.items) }
    ensures none { IfErr result (IsUnanswered (question.Change moment) history.old.tree) }
    ensures tree { history.new.tree ≡ history.old.tree }
{
    let list = changed(alloc, history, moment)?;
    let mut text = Vec::new(alloc);
    put_changes(alloc, &mut text, list.as_slice())?;
    Ok(text)
}

/// Appends rows that a call changed.
fn put_changes(alloc: Global, text: &mut Vec<u8>, list: &[Change]) -> Result<(), AllocError>
    ensures { OnOk result (text.new.items ≡ text.old.items ++ flat_map (change_lines masks) list.now) }
{
    for change in list {
        text.extend_from_slice(print_change(alloc, change, Naming::masks())?.as_slice())?;
    }
    Ok(())
}

/// Prints the calls of the path that the filter selects.
fn call_lines(
    alloc: Global,
    history: &mut History,
    at: Moment,
    wanted: &CallFilter,
) -> Result<Vec<u8>, Refusal>
    ensures answer { IfOk result (λ text. IsAnswer (question.Calls at wanted.now) history.old.tree text.items) }
    ensures none { IfErr result (IsUnanswered (question.Calls at wanted.now) history.old.tree) }
    ensures tree { history.new.tree ≡ history.old.tree }
{
    let list = calls(alloc, history, at, wanted)?;
    let mut text = Vec::new(alloc);
    put_calls(alloc, &mut text, list.as_slice())?;
    Ok(text)
}

/// Appends calls.
fn put_calls(alloc: Global, text: &mut Vec<u8>, list: &[CallMade]) -> Result<(), AllocError>
    ensures { OnOk result (text.new.items ≡ text.old.items ++ flat_map (call_made_line masks) list.now) }
{
    for made in list {
        text.extend_from_slice(print_call_made(alloc, made, Naming::masks())?.as_slice())?;
    }
    Ok(())
}

/// Prints the events on the path that the filter selects.
fn event_lines(
    alloc: Global,
    history: &mut History,
    at: Moment,
    wanted: &EventFilter,
) -> Result<Vec<u8>, Refusal>
    ensures answer { IfOk result (λ text. IsAnswer (question.Events at wanted.now) history.old.tree text.items) }
    ensures none { IfErr result (IsUnanswered (question.Events at wanted.now) history.old.tree) }
    ensures tree { history.new.tree ≡ history.old.tree }
{
    let list = events_between(alloc, history, at, wanted)?;
    let mut text = Vec::new(alloc);
    put_events(alloc, &mut text, history, list.as_slice())?;
    Ok(text)
}

/// Appends events, each with the call of its moment.
fn put_events(
    alloc: Global,
    text: &mut Vec<u8>,
    history: &History,
    list: &[ObjectEvent],
) -> Result<(), AllocError>
    ensures { OnOk result (text.new.items ≡ text.old.items ++ flat_map (event_text history.now.tree.made) list.now) }
{
    for event in list {
        put_event(alloc, text, history, event)?;
    }
    Ok(())
}

/// Appends one event, with the call of its moment.
fn put_event(
    alloc: Global,
    text: &mut Vec<u8>,
    history: &History,
    event: &ObjectEvent,
) -> Result<(), AllocError>
    ensures { OnOk result (text.new.items ≡ text.old.items ++ event_text history.now.tree.made event.now) }
{
    match history.call_of(event.moment) {
        Some((process, call)) => {
            let line = print_event(alloc, event, process, call, false)?;
            text.extend_from_slice(line.as_slice())
        }
        None => Ok(()),
    }
}

/// Prints an object at a moment, and when each of the four happenings happened to it.
#[tactic(auto, using(crate::proofs::ObjectLaws::unanswered_way, crate::proofs::ObjectLaws::unanswered_there, crate::proofs::ObjectLaws::unanswered_memory))]
fn object_lines(
    alloc: Global,
    history: &mut History,
    koid: Koid,
    at: Moment,
) -> Result<Vec<u8>, Refusal>
    ensures answer { IfOk result (λ text. IsAnswer (question.Object koid at) history.old.tree text.items) }
    ensures none { IfErr result (IsUnanswered (question.Object koid at) history.old.tree) }
    ensures tree { history.new.tree ≡ history.old.tree }
{
    history.goto(at)?;
    let object = object_at(alloc, history, koid)?;
    let mut text = print_object(alloc, &object, false, history.store())?;
    put_times(alloc, &mut text, history, &object)?;
    Ok(text)
}

/// Appends when each of the four happenings happened to an object.
fn put_times(
    alloc: Global,
    text: &mut Vec<u8>,
    history: &History,
    object: &ObjectLook,
) -> Result<(), AllocError>
    ensures { OnOk result (text.new.items ≡ text.old.items ++ times_text history.now.tree.made object.now) }
{
    put_time(alloc, text, history, Happening::Made, object.made)?;
    put_time(alloc, text, history, Happening::Ended, object.ended)?;
    let lost = object.peer_closed;
    put_time(alloc, text, history, Happening::PeerClosed, lost)?;
    put_time(alloc, text, history, Happening::Leaked, object.leaked)
}

/// Appends when one happening happened.
fn put_time(
    alloc: Global,
    text: &mut Vec<u8>,
    history: &History,
    what: Happening,
    moment: Option<Moment>,
) -> Result<(), AllocError>
    ensures { OnOk result (text.new.items ≡ text.old.items ++ when_line false what (found_at history.now.tree.made moment)) }
{
    let found = call_at(history, moment);
    let line = print_when(alloc, what, &found, false)?;
    text.extend_from_slice(line.as_slice())
}

/// Returns the call of a moment, if there is one.
fn call_at(history: &History, moment: Option<Moment>) -> Option<(Moment, Koid, &Call)>
    ensures { option_map (λ e. (e.0, e.1, e.2.now)) result ≡ found_at history.now.tree.made moment }
{
    match moment {
        Some(moment) => match history.call_of(moment) {
            Some((process, call)) => Some((moment, process, call)),
            None => None,
        },
        None => None,
    }
}

/// Prints the branches.
fn branch_lines(alloc: Global, history: &History) -> Result<Vec<u8>, Refusal>
    ensures answer { IfOk result (λ text. IsAnswer question.Branches history.now.tree text.items) }
    ensures none { IfErr result (λ reason. reason ≡ refusal.OutOfMemory) }
{
    let list = branches(alloc, history)?;
    let mut text = Vec::new(alloc);
    put_branches(alloc, &mut text, history, list.as_slice())?;
    Ok(text)
}

/// Appends branches.
fn put_branches(
    alloc: Global,
    text: &mut Vec<u8>,
    history: &History,
    list: &[BranchLook],
) -> Result<(), AllocError>
    ensures { OnOk result (text.new.items ≡ text.old.items ++ flat_map (branch_text history.now.tree) list.now) }
{
    for branch in list {
        put_branch(alloc, text, history, branch)?;
    }
    Ok(())
}

/// Appends one branch.
fn put_branch(
    alloc: Global,
    text: &mut Vec<u8>,
    history: &History,
    branch: &BranchLook,
) -> Result<(), AllocError>
    ensures { OnOk result (text.new.items ≡ text.old.items ++ branch_text history.now.tree branch.now) }
{
    let leaves = match branch.leaves {
        Some((other, moment)) => Some((name_of(history, other), moment)),
        None => None,
    };
    let line = print_branch(alloc, name_of(history, branch.id), branch.head, &leaves)?;
    text.extend_from_slice(line.as_slice())
}

/// Returns the name of a branch, or no bytes if there is no such branch.
fn name_of(history: &History, id: BranchId) -> &[u8]
    ensures { result.now ≡ name_at history.now.tree.branches id }
{
    if id.0 < history.branches() {
        history.name(id)
    } else {
        &[]
    }
}
