//! The values of members, each from a field of a line.
//!
//! A function that gives `false` has found a field without its form. It may have written a part of the value by then.

ghost use Rattle.std.specs.Prelude.{◌≡◌, MatchOption, OnOk};
ghost use Rattle.std.specs.Option.{option_copied};
ghost use Rattle.zt_json.specs.Parts.{parts_of};
ghost use Rattle.zt_json.specs.Values.{number_value, bytes_text, put_strings, names_of, names_value, elements_of, handles_value, halves, mask_members, held_value, all_held_value, behind, name_token, any_named, handle_names_value, name_member, note_value};
ghost use Rattle.zt_json.specs.ProofsOnly.Done.{Gives};
ghost use Rattle.zt_json.specs.Words.{text_of};
ghost use Rattle.json.specs.Token as token;

use crate::names::{handle_name, koid_name};
use crate::parts::Parts;
use crate::words::Word;
use json::{Writer, is_number};
use std::alloc::AllocError;
use zt_rows::Koid;
use zt_text::Notes;

/// Writes a number.
pub fn put_number(writer: &mut Writer, field: &str) -> Result<bool, AllocError>
    ensures value { Gives result (number_value field.now writer.old.tokens) writer.new.tokens }
    ensures before { writer.new.before ≡ writer.old.before }
{
    if !is_number(field) {
        return Ok(false);
    }
    writer.number(field)?;
    Ok(true)
}

/// Writes bytes: their digits, or the empty text for none.
#[tactic(auto, unfolding(crate::specs::Values::bytes_text))]
pub fn put_bytes(writer: &mut Writer, field: &str) -> Result<(), AllocError>
    ensures value { OnOk result (writer.new.tokens ≡ behind (token.string (bytes_text field.now)) writer.old.tokens) }
    ensures before { writer.new.before ≡ writer.old.before }
{
    if field == "-" {
        writer.string("")
    } else {
        writer.string(field)
    }
}

/// Returns the elements of a list; `-` has none.
#[tactic(auto, unfolding(crate::specs::Values::elements_of))]
fn elements<'a>(list: &'a str) -> Parts<'a>
    ensures { result ≡ elements_of list.now }
{
    if list == "-" {
        Parts::none()
    } else {
        Parts::of_list(list)
    }
}

/// Returns the names of a mask's bits; `NONE` has none.
#[tactic(auto, unfolding(crate::specs::Values::names_of))]
fn names_in<'a>(names: &'a str) -> Parts<'a>
    ensures { result ≡ names_of names.now }
{
    if names == "NONE" {
        Parts::none()
    } else {
        Parts::of_names(names)
    }
}

/// Writes the array of the names of a mask's bits.
#[tactic(auto, unfolding(crate::specs::Values::put_strings, crate::specs::Values::names_value))]
pub fn put_names(writer: &mut Writer, names: &str) -> Result<(), AllocError>
    ensures value { OnOk result (writer.new.tokens ≡ names_value names.now writer.old.tokens) }
    ensures before { writer.new.before ≡ writer.old.before }
{
    writer.begin_array()?;
    let mut left = names_in(names);
    while let Some(name) = left.next() {
        writer.string(name)?;
    }
    writer.end_array()
}

/// Writes the array of the handles of a list.
#[tactic(auto, unfolding(crate::specs::Values::put_numbers, crate::specs::Values::handles_value))]
pub fn put_handles(writer: &mut Writer, list: &str) -> Result<bool, AllocError>
    ensures value { Gives result (handles_value list.now writer.old.tokens) writer.new.tokens }
    ensures before { writer.new.before ≡ writer.old.before }
{
    writer.begin_array()?;
    let mut left = elements(list);
    while let Some(handle) = left.next() {
        if !put_number(writer, handle)? {
            return Ok(false);
        }
    }
    writer.end_array()?;
    Ok(true)
}

/// Writes a name; `null` for none.
fn put_name_or_null(writer: &mut Writer, name: Option<&str>) -> Result<(), AllocError>
    ensures value { OnOk result (writer.new.tokens ≡ behind (name_token (option_copied name.entry)) writer.old.tokens) }
    ensures before { writer.new.before ≡ writer.old.before }
{
    match name {
        Some(name) => writer.string(name),
        None => writer.null(),
    }
}

/// Whether a process's handle of this list has a name.
#[tactic(auto, unfolding(crate::specs::Values::any_named))]
pub fn any_named(notes: &Notes, process: Koid, list: &str) -> bool
    ensures { result ≡ any_named notes.now process (elements_of list.now) }
{
    let mut left = elements(list);
    while let Some(handle) = left.next() {
        if handle_name(notes, process, handle).is_some() {
            return true;
        }
    }
    false
}

/// Writes the array of the names of a process's handles, in the order of the list.
#[tactic(auto, unfolding(crate::specs::Values::put_handle_names, crate::specs::Values::handle_names_value))]
pub fn put_handle_names(
    writer: &mut Writer,
    notes: &Notes,
    process: Koid,
    list: &str,
) -> Result<(), AllocError>
    ensures value { OnOk result (writer.new.tokens ≡ handle_names_value notes.now process list.now writer.old.tokens) }
    ensures before { writer.new.before ≡ writer.old.before }
{
    writer.begin_array()?;
    let mut left = elements(list);
    while let Some(handle) = left.next() {
        let name = handle_name(notes, process, handle);
        put_name_or_null(writer, name)?;
    }
    writer.end_array()
}

/// Writes a name as a member, if there is one.
pub fn put_name(writer: &mut Writer, key: Word, name: Option<&str>) -> Result<(), AllocError>
    ensures value { OnOk result (writer.new.tokens ≡ name_member key (option_copied name.entry) writer.old.tokens) }
    ensures before { writer.new.before ≡ writer.old.before }
{
    match name {
        Some(name) => {
            writer.key(key.text())?;
            writer.string(name)
        }
        None => Ok(()),
    }
}

/// Writes the array of the lines of a note.
#[tactic(auto, unfolding(crate::specs::Values::put_lines, crate::specs::Values::note_value))]
pub fn put_note(writer: &mut Writer, note: &str) -> Result<(), AllocError>
    ensures value { OnOk result (writer.new.tokens ≡ note_value note.now writer.old.tokens) }
    ensures before { writer.new.before ≡ writer.old.before }
{
    writer.begin_array()?;
    let mut left = Parts::of_text(note);
    while let Some(line) = left.next() {
        if !line.is_empty() {
            writer.string(line)?;
        }
    }
    writer.end_array()
}

/// Returns what is ahead of a colon, and what is behind it.
pub fn halves_at_colon<'a>(text: &'a str) -> Option<(&'a str, &'a str)>
    ensures { MatchOption result (halves text.now ≡ None) (λ parts. halves text.now ≡ Some (parts.0.now, parts.1.now)) }
{
    let mut parts = Parts::of_held(text);
    let front = parts.next()?;
    let back = parts.next()?;
    Some((front, back))
}

/// Writes the member of a mask, and that of the names of its bits.
pub fn put_mask(
    writer: &mut Writer,
    key: Word,
    names_key: Word,
    mask: &str,
    names: &str,
) -> Result<(), AllocError>
    ensures value { OnOk result (writer.new.tokens ≡ mask_members (text_of key) (text_of names_key) mask.now names.now writer.old.tokens) }
    ensures before { writer.new.before ≡ writer.old.before }
{
    writer.key(key.text())?;
    writer.string(mask)?;
    writer.key(names_key.text())?;
    put_names(writer, names)
}

/// Writes the object of a held handle.
#[tactic(auto, unfolding(crate::specs::Values::held_value))]
fn put_one_held(
    writer: &mut Writer,
    notes: &Notes,
    held: &str,
    named: &str,
) -> Result<bool, AllocError>
    ensures value { Gives result (held_value notes.now held.now named.now writer.old.tokens) writer.new.tokens }
    ensures before { writer.new.before ≡ writer.old.before }
{
    let Some((koid, rights)) = halves_at_colon(held) else {
        return Ok(false);
    };
    let Some((_, names)) = halves_at_colon(named) else {
        return Ok(false);
    };
    writer.begin_object()?;
    writer.key(Word::Koid.text())?;
    if !put_number(writer, koid)? {
        return Ok(false);
    }
    let name = koid_name(notes, koid);
    put_name(writer, Word::KoidName, name)?;
    put_mask(writer, Word::Rights, Word::RightsNames, rights, names)?;
    writer.end_object()?;
    Ok(true)
}

/// Writes the array of the handles that a message holds.
#[tactic(auto, unfolding(crate::specs::Values::put_held, crate::specs::Values::all_held_value))]
pub fn put_held(
    writer: &mut Writer,
    notes: &Notes,
    list: &str,
    named: &str,
) -> Result<bool, AllocError>
    ensures value { Gives result (all_held_value notes.now list.now named.now writer.old.tokens) writer.new.tokens }
    ensures before { writer.new.before ≡ writer.old.before }
{
    writer.begin_array()?;
    let mut left = elements(list);
    let mut others = elements(named);
    while let Some(held) = left.next() {
        let Some(names) = others.next() else {
            return Ok(false);
        };
        if !put_one_held(writer, notes, held, names)? {
            return Ok(false);
        }
    }
    writer.end_array()?;
    Ok(true)
}
