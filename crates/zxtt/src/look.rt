//! Answers one question about a session text.

ghost use Rattle.std.specs.Prelude.{◌≡◌, ◌||◌, IfOk};
ghost use Rattle.zt_history.specs.HistoryRefusals.{moment_on};
ghost use Rattle.zxtt.specs.Finding.{every_call};
ghost use Rattle.zxtt.specs.LookedAt.{head_named, path_end};
ghost use Rattle.zxtt.specs.NotedAnswers.{json_shape, needs_notes, noted_shape, shape_of};
ghost use Rattle.zxtt.specs.Traces.{IsReadOf};

use crate::all_branches::{calls_asked, events_asked};
use crate::answer_lines::{AnswerLines, Stopped};
use crate::files::{load_looked, load_looked_noted};
use crate::leave;
use std::alloc::Global;
use zt_console::Book;
use zt_history::{BranchId, History};
use zt_json::json_lines;
use zt_lineage::{Ending, LifeStep, Place, life};
use zt_look::{
    AliveObject, BranchLook, CallFilter, CallMade, Change, HappeningSet, LineageStep, Naming,
    ObjectEvent, ObjectLook, QueuedMessage, alive, branches, changed, changed_between, handles_at,
    kind_of_call, kinds_between, lineage, messages, object_at, print_alive, print_branch,
    print_call_count, print_call_made, print_change, print_event, print_fate, print_handle,
    print_life_end, print_life_step, print_lineage_step, print_object, print_queued_message,
    print_when, print_whereabouts, summary,
};
use zt_notes::Shape;
use zt_rows::{Call, HandleValue, Happening, Koid, LAST_MOMENT, Moment, Refusal};
use zt_text::Notes;
use zt_words::{Fault, Look, Question};

/// Answers a question on standard output, and returns whether the answer has a line. If nobody reads the output any more, it
/// ends at once without an error.
pub fn look(rt: &HostRuntime, asked: &Look<'_>) -> Result<bool, Fault> {
    let (book, notes) = load_asked(rt, asked)?;
    let mut history = book.into_history();
    let mut told = false;
    let done = answer(rt, &mut history, &notes, asked, &mut told);
    leave(history);
    leave(notes);
    match done {
        Ok(()) | Err(Stopped::Unread) => Ok(told),
        Err(Stopped::By(refusal)) => Err(Fault::Refused(refusal)),
    }
}

/// Loads the session text that is looked at, with its notes if the question needs them.
fn load_asked(rt: &HostRuntime, asked: &Look<'_>) -> Result<(Book, Notes), Fault>
    ensures loaded { IfOk result (λ read. IsReadOf (needs_notes (asked.now.notes || asked.now.json) asked.now.question) 1 read.0 read.1) }
{
    if needs_notes(asked) {
        load_looked_noted(rt, asked.file)
    } else {
        let book = load_looked(rt, asked.file)?;
        Ok((book, Notes::none(rt.alloc())))
    }
}

/// Whether notes are shown, as they are in JSON too, or the question is about notes.
fn needs_notes(asked: &Look<'_>) -> bool
    ensures { result ≡ needs_notes (asked.now.notes || asked.now.json) asked.now.question }
{
    match asked.question {
        Question::Note(_) | Question::Find => true,
        _ => asked.notes || asked.json,
    }
}

/// Returns the shape of the lines in which notes and names are shown, if they are. The lines of a note are shown as they stand.
fn noted_shape(asked: &Look<'_>) -> Option<Shape>
    ensures { result ≡ noted_shape asked.now.notes asked.now.question }
{
    if asked.notes {
        shape_of(asked.question)
    } else {
        None
    }
}

/// Returns the shape of a question's lines, if they show calls, koids or handles.
fn shape_of(question: Question) -> Option<Shape>
    ensures { result ≡ shape_of question }
{
    match question {
        Question::Calls(_) | Question::Find => Some(Shape::Calls),
        Question::Changed(_) | Question::ChangedBetween(_, _) => Some(Shape::Changes),
        Question::Events(_) => Some(Shape::Events),
        Question::Object(_) => Some(Shape::Object),
        Question::Handles(process) => Some(Shape::Handles(process)),
        Question::Messages(_) => Some(Shape::Messages),
        Question::Branches => Some(Shape::Branches),
        Question::Summary => Some(Shape::Summary),
        Question::Alive(_) => Some(Shape::Alive),
        Question::Handle(_, _) => Some(Shape::Life),
        Question::Lineage(_) => Some(Shape::Lineage),
        Question::Note(_) => None,
    }
}

/// Answers a question about a history, and notes whether the answer has a line.
fn answer(
    rt: &HostRuntime,
    history: &mut History,
    notes: &Notes,
    asked: &Look<'_>,
    told: &mut bool,
) -> Result<(), Stopped> {
    let at = path_end(history, asked.at, asked.branch)?;
    if asked.json {
        return answer_in_json(rt, history, notes, at, asked, told);
    }
    let mut lines = AnswerLines::new(rt, notes, noted_shape(asked))?;
    let done = answer_at(rt.alloc(), &mut lines, history, at, asked);
    *told = lines.told();
    done?;
    lines.finish()?;
    Ok(())
}

/// Answers a question in JSON, and notes whether the answer has a line. The answer is asked for twice, since an object has its
/// masks as they are and by the names of their bits.
fn answer_in_json(
    rt: &HostRuntime,
    history: &mut History,
    notes: &Notes,
    at: Moment,
    asked: &Look<'_>,
    told: &mut bool,
) -> Result<(), Stopped> {
    let masked = answer_lines(rt.alloc(), history, notes, at, asked, false)?;
    let named = answer_lines(rt.alloc(), history, notes, at, asked, true)?;
    let mut lines = AnswerLines::new(rt, notes, None)?;
    *told = !masked.is_empty();
    let shape = json_shape(asked.question);
    let text = json_lines(
        rt.alloc(),
        masked.as_slice(),
        named.as_slice(),
        shape,
        notes,
    )?;
    lines.put(text.as_slice())?;
    lines.finish()?;
    Ok(())
}

/// Returns the lines of an answer, with masks or with the names of bits.
fn answer_lines(
    alloc: Global,
    history: &mut History,
    notes: &Notes,
    at: Moment,
    asked: &Look<'_>,
    names: bool,
) -> Result<Vec<u8>, Stopped> {
    let asked = Look { names, ..*asked };
    let mut lines = AnswerLines::in_memory(alloc, notes);
    answer_at(alloc, &mut lines, history, at, &asked)?;
    lines.finish()
}

/// Returns the shape of a question's lines in JSON. The lines of a note have not the form of calls, so each is an object with the
/// line itself.
fn json_shape(question: Question) -> Shape
    ensures { result ≡ json_shape question }
{
    match shape_of(question) {
        Some(shape) => shape,
        None => Shape::Calls,
    }
}

/// Returns the moment at the end of the path.
fn path_end(history: &History, at: Option<Moment>, branch: Option<&str>) -> Result<Moment, Refusal>
    ensures { result ≡ path_end history.now.tree at branch.entry }
{
    match at {
        Some(moment) => moment_there(history, moment),
        None => match branch {
            Some(name) => head_named(history, name),
            None => head_named(history, "main"),
        },
    }
}

/// Returns the moment, or fails with `NoMoment` beyond the last one.
fn moment_there(history: &History, moment: Moment) -> Result<Moment, Refusal>
    ensures { result ≡ moment_on history.now.tree moment }
{
    if moment > history.last() {
        Err(Refusal::NoMoment)
    } else {
        Ok(moment)
    }
}

/// Returns the head of the branch with this name, or fails with `NoBranch`.
fn head_named(history: &History, name: &str) -> Result<Moment, Refusal>
    ensures { result ≡ head_named history.now.tree name.now }
{
    match history.find(name.as_bytes()) {
        Some(branch) => Ok(history.head(branch)),
        None => Err(Refusal::NoBranch),
    }
}

/// Answers the question about the path to a moment.
fn answer_at(
    alloc: Global,
    lines: &mut AnswerLines<'_>,
    history: &mut History,
    at: Moment,
    asked: &Look<'_>,
) -> Result<(), Stopped> {
    let names = asked.names;
    match asked.question {
        Question::Calls(filter) => write_calls(alloc, lines, history, at, &filter, asked),
        Question::Changed(moment) => write_changes(alloc, lines, history, moment, names),
        Question::ChangedBetween(from, to) => {
            write_changes_between(alloc, lines, history, from, to, names)
        }
        Question::Events(wanted) => write_events(alloc, lines, history, at, &wanted, asked),
        Question::Object(koid) => write_object(alloc, lines, history, at, koid, names),
        Question::Handles(process) => write_handles(alloc, lines, history, at, process, names),
        Question::Messages(koid) => write_messages(alloc, lines, history, at, koid, names),
        Question::Branches => write_branches(alloc, lines, history),
        Question::Summary => write_summary(alloc, lines, history, at),
        Question::Alive(since) => write_alive(alloc, lines, history, at, since, names),
        Question::Handle(process, value) => {
            write_life(alloc, lines, history, at, process, value, names)
        }
        Question::Lineage(koid) => write_lineage(alloc, lines, history, at, koid, names),
        Question::Note(moment) => lines.write_note(moment_there(history, moment)?),
        Question::Find => write_found(alloc, lines, history, at, asked),
    }
}

/// Writes the calls that the filter selects, of the path or of all branches.
fn write_calls(
    alloc: Global,
    lines: &mut AnswerLines<'_>,
    history: &mut History,
    at: Moment,
    filter: &CallFilter,
    asked: &Look<'_>,
) -> Result<(), Stopped> {
    let list = calls_asked(alloc, history, at, filter, asked.all)?;
    for made in &list {
        write_call(alloc, lines, history, made, asked.names)?;
    }
    Ok(())
}

/// Writes the calls that have the text in their lines or notes, of the path or of all branches.
fn write_found(
    alloc: Global,
    lines: &mut AnswerLines<'_>,
    history: &mut History,
    at: Moment,
    asked: &Look<'_>,
) -> Result<(), Stopped> {
    let list = calls_asked(alloc, history, at, &every_call(), asked.all)?;
    for made in &list {
        if is_found(alloc, lines, history, made, asked)? {
            write_call(alloc, lines, history, made, asked.names)?;
        }
    }
    Ok(())
}

/// Whether a call has the text in its line or note. In JSON an object has names, and masks as they are.
fn is_found(
    alloc: Global,
    lines: &AnswerLines<'_>,
    history: &mut History,
    made: &CallMade,
    asked: &Look<'_>,
) -> Result<bool, Stopped> {
    let naming = naming_of_call(history, made, asked.names && !asked.json)?;
    let line = print_call_made(alloc, made, naming)?;
    let with_names = asked.notes || asked.json;
    Ok(lines.has(
        line.as_slice(),
        made.moment,
        asked.text.as_bytes(),
        with_names,
    )?)
}

/// Writes a call with its reply.
fn write_call(
    alloc: Global,
    lines: &mut AnswerLines<'_>,
    history: &mut History,
    made: &CallMade,
    names: bool,
) -> Result<(), Stopped> {
    let naming = naming_of_call(history, made, names)?;
    lines.write(print_call_made(alloc, made, naming)?)
}

/// Returns the filter that selects every call of a path.
fn every_call() -> CallFilter
    ensures { result ≡ every_call }
{
    CallFilter {
        first: Moment(1),
        last: Moment(LAST_MOMENT),
        failed: false,
        process: None,
        object: None,
    }
}

/// Returns how to print a call. If names are asked for, the kind of the object decides the names of its signals.
fn naming_of_call(history: &mut History, made: &CallMade, names: bool) -> Result<Naming, Refusal> {
    if !names {
        return Ok(Naming::masks());
    }
    let kind = kind_of_call(history, made)?;
    Ok(Naming { names, kind })
}

/// Writes the rows that the call of a moment changed.
fn write_changes(
    alloc: Global,
    lines: &mut AnswerLines<'_>,
    history: &mut History,
    moment: Moment,
    names: bool,
) -> Result<(), Stopped> {
    let list = changed(alloc, history, moment)?;
    if names {
        let parent = history.parent_of(moment);
        return write_named_changes(alloc, lines, history, parent, moment, list.as_slice());
    }
    write_masked_changes(alloc, lines, list.as_slice())
}

/// Writes the rows that differ between the states of two moments.
fn write_changes_between(
    alloc: Global,
    lines: &mut AnswerLines<'_>,
    history: &mut History,
    from: Moment,
    to: Moment,
    names: bool,
) -> Result<(), Stopped> {
    let list = changed_between(alloc, history, from, to)?;
    if names {
        return write_named_changes(alloc, lines, history, from, to, list.as_slice());
    }
    write_masked_changes(alloc, lines, list.as_slice())
}

/// Writes rows that differ, with masks.
fn write_masked_changes(
    alloc: Global,
    lines: &mut AnswerLines<'_>,
    list: &[Change],
) -> Result<(), Stopped> {
    for change in list {
        lines.write(print_change(alloc, change, Naming::masks())?)?;
    }
    Ok(())
}

/// Writes the rows that differ between two moments, with names.
fn write_named_changes(
    alloc: Global,
    lines: &mut AnswerLines<'_>,
    history: &mut History,
    from: Moment,
    to: Moment,
    list: &[Change],
) -> Result<(), Stopped> {
    let kinds = kinds_between(alloc, history, from, to, list)?;
    for (change, kind) in list.iter().zip(kinds.iter()) {
        let naming = Naming {
            names: true,
            kind: *kind,
        };
        lines.write(print_change(alloc, change, naming)?)?;
    }
    Ok(())
}

/// Writes the wanted happenings to objects, on the path or on all branches.
fn write_events(
    alloc: Global,
    lines: &mut AnswerLines<'_>,
    history: &mut History,
    at: Moment,
    wanted: &HappeningSet,
    asked: &Look<'_>,
) -> Result<(), Stopped> {
    let list = events_asked(alloc, history, at, wanted, asked.all)?;
    for event in &list {
        write_event(alloc, lines, history, event, asked.names)?;
    }
    Ok(())
}

/// Writes one event, with the call of its moment.
fn write_event(
    alloc: Global,
    lines: &mut AnswerLines<'_>,
    history: &History,
    event: &ObjectEvent,
    names: bool,
) -> Result<(), Stopped> {
    match history.call_of(event.moment) {
        Some((process, call)) => lines.write(print_event(alloc, event, process, call, names)?),
        None => Ok(()),
    }
}

/// Writes an object at the end of the path, and when each of the four happenings happened to it.
fn write_object(
    alloc: Global,
    lines: &mut AnswerLines<'_>,
    history: &mut History,
    at: Moment,
    koid: Koid,
    names: bool,
) -> Result<(), Stopped> {
    history.goto(at)?;
    let object = object_at(alloc, history, koid)?;
    lines.write(print_object(alloc, &object, names, history.store())?)?;
    write_times(alloc, lines, history, &object, names)
}

/// Writes when each of the four happenings happened to an object.
fn write_times(
    alloc: Global,
    lines: &mut AnswerLines<'_>,
    history: &History,
    object: &ObjectLook,
    names: bool,
) -> Result<(), Stopped> {
    write_time(alloc, lines, history, Happening::Made, object.made, names)?;
    write_time(alloc, lines, history, Happening::Ended, object.ended, names)?;
    write_time(
        alloc,
        lines,
        history,
        Happening::PeerClosed,
        object.peer_closed,
        names,
    )?;
    write_time(
        alloc,
        lines,
        history,
        Happening::Leaked,
        object.leaked,
        names,
    )
}

/// Writes when one happening happened.
fn write_time(
    alloc: Global,
    lines: &mut AnswerLines<'_>,
    history: &History,
    what: Happening,
    moment: Option<Moment>,
    names: bool,
) -> Result<(), Stopped> {
    let found = call_at(history, moment);
    lines.write(print_when(alloc, what, &found, names)?)
}

/// Returns the call of a moment, if there is one.
fn call_at(history: &History, moment: Option<Moment>) -> Option<(Moment, Koid, &Call)> {
    match moment {
        Some(moment) => match history.call_of(moment) {
            Some((process, call)) => Some((moment, process, call)),
            None => None,
        },
        None => None,
    }
}

/// Writes the handles of a process at the end of the path.
fn write_handles(
    alloc: Global,
    lines: &mut AnswerLines<'_>,
    history: &mut History,
    at: Moment,
    process: Koid,
    names: bool,
) -> Result<(), Stopped> {
    history.goto(at)?;
    let list = handles_at(alloc, history, process)?;
    for handle in &list {
        lines.write(print_handle(alloc, handle, names)?)?;
    }
    Ok(())
}

/// Writes the messages that were queued at an endpoint on the path.
fn write_messages(
    alloc: Global,
    lines: &mut AnswerLines<'_>,
    history: &mut History,
    at: Moment,
    koid: Koid,
    names: bool,
) -> Result<(), Stopped> {
    let list = messages(alloc, history, at, koid)?;
    for queued in &list {
        write_message(alloc, lines, history, queued, names)?;
    }
    Ok(())
}

/// Writes one message, with the call that wrote it and the call that ended it.
fn write_message(
    alloc: Global,
    lines: &mut AnswerLines<'_>,
    history: &History,
    queued: &QueuedMessage,
    names: bool,
) -> Result<(), Stopped> {
    let ended = match queued.ended {
        Some((moment, _)) => history.call_of(moment),
        None => None,
    };
    match history.call_of(queued.written) {
        Some((process, call)) => {
            lines.write(print_queued_message(alloc, queued, process, call, &ended, names)?)
        }
        None => Ok(()),
    }
}

/// Writes the branches of the tree.
fn write_branches(
    alloc: Global,
    lines: &mut AnswerLines<'_>,
    history: &History,
) -> Result<(), Stopped> {
    let list = branches(alloc, history)?;
    for branch in &list {
        write_branch(alloc, lines, history, branch)?;
    }
    Ok(())
}

/// Writes one branch.
fn write_branch(
    alloc: Global,
    lines: &mut AnswerLines<'_>,
    history: &History,
    branch: &BranchLook,
) -> Result<(), Stopped> {
    let leaves = match branch.leaves {
        Some((other, moment)) => Some((name_of(history, other), moment)),
        None => None,
    };
    lines.write(print_branch(alloc, name_of(history, branch.id), branch.head, &leaves)?)
}

/// Returns the name of a branch, or no bytes if there is no such branch.
fn name_of(history: &History, id: BranchId) -> &[u8] {
    if id.0 < history.branches() {
        history.name(id)
    } else {
        &[]
    }
}

/// Writes how the calls of the path were answered, and what became of the objects.
fn write_summary(
    alloc: Global,
    lines: &mut AnswerLines<'_>,
    history: &mut History,
    at: Moment,
) -> Result<(), Stopped> {
    let told = summary(alloc, history, at)?;
    for count in &told.calls {
        lines.write(print_call_count(alloc, count)?)?;
    }
    for object in &told.objects {
        lines.write(print_fate(alloc, object)?)?;
    }
    Ok(())
}

/// Writes what was made behind a moment of the path and is alive at its end, with the calls that made it.
fn write_alive(
    alloc: Global,
    lines: &mut AnswerLines<'_>,
    history: &mut History,
    at: Moment,
    since: Moment,
    names: bool,
) -> Result<(), Stopped> {
    let list = alive(alloc, history, at, since)?;
    for object in &list {
        write_alive_object(alloc, lines, history, object, names)?;
    }
    Ok(())
}

/// Writes one object that is alive, with the call that made it.
fn write_alive_object(
    alloc: Global,
    lines: &mut AnswerLines<'_>,
    history: &History,
    object: &AliveObject,
    names: bool,
) -> Result<(), Stopped> {
    match history.call_of(object.made) {
        Some((process, call)) => lines.write(print_alive(alloc, object, process, call, names)?),
        None => Ok(()),
    }
}

/// Writes the life of a handle on the path: its steps, how it ended, if it did, and where it is at the end of the path.
fn write_life(
    alloc: Global,
    lines: &mut AnswerLines<'_>,
    history: &mut History,
    at: Moment,
    process: Koid,
    value: HandleValue,
    names: bool,
) -> Result<(), Stopped> {
    let told = life(alloc, history, at, Place::Entry(process, value))?;
    let steps = told.steps.as_slice();
    write_steps(alloc, lines, history, steps, names)?;
    let last = steps.last().copied();
    write_whereabouts(alloc, lines, history, &last, &told.ended, names)
}

/// Writes the steps of a handle's life, each with the call of its moment.
fn write_steps(
    alloc: Global,
    lines: &mut AnswerLines<'_>,
    history: &History,
    steps: &[LifeStep],
    names: bool,
) -> Result<(), Stopped> {
    for place in 0..steps.len() {
        let step = &steps[place];
        let before = &steps[place.saturating_sub(1)];
        let by = history.call_of(step.moment);
        lines.write(print_life_step(alloc, step, before.held.rights, &by, names)?)?;
    }
    Ok(())
}

/// Writes how a handle ended after its last step, if it did, and where it is.
fn write_whereabouts(
    alloc: Global,
    lines: &mut AnswerLines<'_>,
    history: &History,
    last: &Option<LifeStep>,
    ended: &Option<(Moment, Ending)>,
    names: bool,
) -> Result<(), Stopped> {
    match (last, ended) {
        (Some(last), Some((moment, how))) => {
            write_end(alloc, lines, history, last, *moment, *how, names)?;
            lines.write(print_whereabouts(alloc, &None, names)?)
        }
        _ => lines.write(print_whereabouts(alloc, last, names)?),
    }
}

/// Writes how a handle ended after its last step, with the call of the moment.
fn write_end(
    alloc: Global,
    lines: &mut AnswerLines<'_>,
    history: &History,
    last: &LifeStep,
    moment: Moment,
    how: Ending,
    names: bool,
) -> Result<(), Stopped> {
    match history.call_of(moment) {
        Some((process, call)) => {
            lines.write(print_life_end(alloc, moment, how, last, process, call, names)?)
        }
        None => Ok(()),
    }
}

/// Writes the handles that named an object on the path, in the order of their tree.
fn write_lineage(
    alloc: Global,
    lines: &mut AnswerLines<'_>,
    history: &mut History,
    at: Moment,
    koid: Koid,
    names: bool,
) -> Result<(), Stopped> {
    let list = lineage(alloc, history, at, koid)?;
    for step in &list {
        write_lineage_step(alloc, lines, history, step, names)?;
    }
    Ok(())
}

/// Writes one handle that named an object, with how it came and how it left.
fn write_lineage_step(
    alloc: Global,
    lines: &mut AnswerLines<'_>,
    history: &History,
    step: &LineageStep,
    names: bool,
) -> Result<(), Stopped> {
    let came = history.call_of(step.handle.moment);
    let left = match step.handle.left {
        Some((moment, _)) => history.call_of(moment),
        None => None,
    };
    lines.write(print_lineage_step(alloc, step, &came, &left, names)?)
}
