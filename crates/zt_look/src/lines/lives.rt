//! The lines of the life of a handle, and of the handles that named an object.

ghost use Rattle.std.specs.Prelude.{◌≡◌, ◌++◌, IfOk, OnOk, string_bytes};
ghost use Rattle.std.specs.Option.{option_map};
ghost use Rattle.zt_look.specs.ProofsOnly.SpacedWords.{behind_spaces};
ghost use Rattle.zt_look.specs.LineageLines.{indent, journey_words, leaving_word, left_words, lineage_step_line, object_handle_line};
ghost use Rattle.zt_look.specs.LifeLines.{coming_word, ending_word, life_end_line, life_step_line, origin_words, passing_word, place_text, rights_at, whereabouts_line};

use crate::handle_tree::LineageStep;
use crate::lines::calls::put_call;
use crate::lines::names::{Naming, put_rights};
use crate::lines::{new_line, put_by};
use crate::object_handles::{Leaving, ObjectHandle};
use std::alloc::{AllocError, Global};
use zt_bits::Rights;
use zt_lineage::{Ending, LifeStep, Origin, Place};
use zt_rows::{Call, Koid, Moment};

/// The line of a step of a handle's life: its moment, how the handle came, the place, the rights there, the place it came
/// from with the rights that it had there, and the call of the moment. A step from the opening on has no call.
pub fn print_life_step(
    alloc: Global,
    step: &LifeStep,
    before: Rights,
    by: &Option<(Koid, &Call)>,
    names: bool,
) -> Result<Vec<u8>, AllocError>
    ensures { IfOk result (λ text. text.items
        ≡ life_step_line names step.now before (option_map (λ e. (e.0, e.1.now)) by.now)) }
{
    let mut text = new_line(alloc)?;
    put_life_step(&mut text, step, before, by, names)?;
    Ok(text.into_bytes())
}

/// Appends the line of a step of a handle's life.
fn put_life_step(
    text: &mut String,
    step: &LifeStep,
    before: Rights,
    by: &Option<(Koid, &Call)>,
    names: bool,
) -> Result<(), AllocError>
    ensures { OnOk result (string_bytes text.new ≡ string_bytes text.old
        ++ life_step_line names step.now before (option_map (λ e. (e.0, e.1.now)) by.now)) }
{
    write!(text, "{} {} ", step.moment.0, coming_word(step.origin, by))?;
    put_rights_at(text, step.place, step.held.rights, names)?;
    put_origin(text, step.origin, before, by, names)?;
    text.push_str("\n")?;
    Ok(())
}

/// The line of a handle's end: its moment, how it ended, where it was with which rights, and the call of the moment.
pub fn print_life_end(
    alloc: Global,
    moment: Moment,
    how: Ending,
    last: &LifeStep,
    process: Koid,
    call: &Call,
    names: bool,
) -> Result<Vec<u8>, AllocError>
    ensures { IfOk result (λ text. text.items ≡ life_end_line names moment how last.now (process, call.now)) }
{
    let mut text = new_line(alloc)?;
    write!(text, "{} {} ", moment.0, ending_word(how))?;
    put_rights_at(&mut text, last.place, last.held.rights, names)?;
    text.push_str(" ")?;
    put_call(&mut text, process, call, Naming::of_any(names))?;
    text.push_str("\n")?;
    Ok(text.into_bytes())
}

/// The line that tells where a handle is at the end of the path: where its last step brought it, or that it is gone if
/// there is no such step.
pub fn print_whereabouts(
    alloc: Global,
    last: &Option<LifeStep>,
    names: bool,
) -> Result<Vec<u8>, AllocError>
    ensures { IfOk result (λ text. text.items ≡ whereabouts_line names last.now) }
{
    let mut text = new_line(alloc)?;
    match last {
        None => text.push_str("gone\n")?,
        Some(step) => {
            text.push_str("held ")?;
            put_rights_at(&mut text, step.place, step.held.rights, names)?;
            text.push_str("\n")?;
        }
    }
    Ok(text.into_bytes())
}

/// The line of a handle that named an object: two spaces for each copy above it, the moment at which it came, how, its
/// place and rights, the place from which it came, if it came from another, and how and when it left, or that it is held.
/// `came` is the call by which it came, and `left` the call by which it left, where there are such calls.
pub fn print_lineage_step(
    alloc: Global,
    step: &LineageStep,
    came: &Option<(Koid, &Call)>,
    left: &Option<(Koid, &Call)>,
    names: bool,
) -> Result<Vec<u8>, AllocError>
    ensures { IfOk result (λ text. text.items
        ≡ lineage_step_line names step.now (option_map (λ e. (e.0, e.1.now)) came.now) (option_map (λ e. (e.0, e.1.now)) left.now)) }
{
    let mut text = new_line(alloc)?;
    put_indent(&mut text, step.depth)?;
    put_object_handle(&mut text, step.handle, came, left, names)?;
    Ok(text.into_bytes())
}

/// Appends the line of a handle that named an object, without its depth.
fn put_object_handle(
    text: &mut String,
    handle: ObjectHandle,
    came: &Option<(Koid, &Call)>,
    left: &Option<(Koid, &Call)>,
    names: bool,
) -> Result<(), AllocError>
    ensures { OnOk result (string_bytes text.new ≡ string_bytes text.old
        ++ object_handle_line names handle (option_map (λ e. (e.0, e.1.now)) came.now) (option_map (λ e. (e.0, e.1.now)) left.now)) }
{
    write!(
        text,
        "{} {} ",
        handle.moment.0,
        coming_word(handle.origin, came)
    )?;
    put_rights_at(text, handle.place, handle.held.rights, names)?;
    put_journey(text, handle.origin, handle.left, left)?;
    text.push_str("\n")?;
    Ok(())
}

/// Appends two spaces for each copy above.
fn put_indent(text: &mut String, depth: u32) -> Result<(), AllocError>
    ensures { OnOk result (string_bytes text.new ≡ string_bytes text.old ++ indent depth) }
{
    for _ in 0..depth {
        text.push_str("  ")?;
    }
    Ok(())
}

/// Appends the place from which a handle came, if it came from another, and how it left. Each has a space ahead.
#[tactic(auto, unfolding(crate::specs::LineageLines::journey_words))]
fn put_journey(
    text: &mut String,
    origin: Origin,
    left: Option<(Moment, Leaving)>,
    by: &Option<(Koid, &Call)>,
) -> Result<(), AllocError>
    ensures { OnOk result (string_bytes text.new ≡ string_bytes text.old
        ++ behind_spaces (journey_words origin left (option_map (λ e. (e.0, e.1.now)) by.now))) }
{
    match origin {
        Origin::From(place) => {
            text.push_str(" from ")?;
            put_place(text, place)?;
            put_left(text, left, by)
        }
        _ => put_left(text, left, by),
    }
}

/// Appends how and at which moment a handle left, or that it is held.
fn put_left(
    text: &mut String,
    left: Option<(Moment, Leaving)>,
    by: &Option<(Koid, &Call)>,
) -> Result<(), AllocError>
    ensures { OnOk result (string_bytes text.new ≡ string_bytes text.old
        ++ behind_spaces (left_words left (option_map (λ e. (e.0, e.1.now)) by.now))) }
{
    match left {
        None => text.push_str(" held"),
        Some((moment, how)) => write!(text, " {} {}", leaving_word(&how, by), moment.0),
    }
}

/// The word of how a handle left by the call, if there is a call.
fn leaving_word(how: &Leaving, by: &Option<(Koid, &Call)>) -> &'static str
    ensures { result.now ≡ leaving_word how.now (option_map (λ e. (e.0, e.1.now)) by.now) }
{
    match how {
        Leaving::Ended(how) => ending_word(*how),
        Leaving::Moved(_) => match by {
            Some((_, call)) => passing_word(call),
            None => "moved",
        },
    }
}

/// Appends a place with the rights of the handle there.
fn put_rights_at(
    text: &mut String,
    place: Place,
    rights: Rights,
    names: bool,
) -> Result<(), AllocError>
    ensures { OnOk result (string_bytes text.new ≡ string_bytes text.old ++ rights_at names place rights) }
{
    put_place(text, place)?;
    text.push_str(" ")?;
    put_rights(text, rights.0, names)
}

/// Appends a place.
fn put_place(text: &mut String, place: Place) -> Result<(), AllocError>
    ensures { OnOk result (string_bytes text.new ≡ string_bytes text.old ++ place_text place) }
{
    match place {
        Place::Entry(process, value) => write!(text, "entry {} {}", process.0, value.0),
        Place::Message(endpoint, number, index) => {
            write!(text, "message {} {number} {index}", endpoint.0)
        }
    }
}

/// Appends the place that a handle came from, if it came from another, with the rights that it had there, and the call, if
/// there is one. Each has a space ahead.
fn put_origin(
    text: &mut String,
    origin: Origin,
    before: Rights,
    by: &Option<(Koid, &Call)>,
    names: bool,
) -> Result<(), AllocError>
    ensures { OnOk result (string_bytes text.new ≡ string_bytes text.old
        ++ behind_spaces (origin_words names origin before (option_map (λ e. (e.0, e.1.now)) by.now))) }
{
    match origin {
        Origin::From(place) => {
            text.push_str(" from ")?;
            put_rights_at(text, place, before, names)?;
            put_by(text, by, names)
        }
        _ => put_by(text, by, names),
    }
}

/// The word of how a handle came to a place by the call, if there is a call.
fn coming_word(origin: Origin, by: &Option<(Koid, &Call)>) -> &'static str
    ensures { result.now ≡ coming_word origin (option_map (λ e. (e.0, e.1.now)) by.now) }
{
    match origin {
        Origin::Stayed => "opening",
        Origin::Made => "made",
        Origin::From(_) => match by {
            Some((_, call)) => passing_word(call),
            None => "came",
        },
    }
}

/// The word of a call that brings a handle from one place to another. No other call does.
fn passing_word(call: &Call) -> &'static str
    ensures { result.now ≡ passing_word call.now }
{
    match call {
        Call::HandleDuplicate { .. } => "duplicated",
        Call::HandleReplace { .. } => "replaced",
        Call::ChannelWrite { .. } => "sent",
        Call::ChannelRead { .. } => "taken",
        Call::Spawn { .. } => "given",
        _ => "came",
    }
}

/// The word of how a handle ended.
fn ending_word(how: Ending) -> &'static str
    ensures { result.now ≡ ending_word how }
{
    match how {
        Ending::Closed => "closed",
        Ending::Failed => "failed",
        Ending::Discarded => "discarded",
        Ending::ProcessEnded => "process_ended",
        Ending::QueueGone => "queue_gone",
    }
}
