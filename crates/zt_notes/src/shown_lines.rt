//! Prints the lines of an answer with notes ahead of them and names in them.

ghost use Rattle.std.specs.Prelude.{◌≡◌, ◌++◌, OnOk, IfOk, is_some};
ghost use Rattle.zt_text.specs.Fields.{fields_of};
ghost use Rattle.zt_notes.specs.Annotations.{annotated, annotated_element, annotated_field, annotated_fields, annotated_line, in_parentheses, kept_text, shown_element, shown_field, shown_fields, shown_line, shown_text};
ghost use Rattle.zt_notes.specs.Walks.{start};
ghost use Rattle.zt_notes.specs.ProofsOnly.Separators.{separator_ahead};

use crate::cuts::cut;
use crate::elements::name_of;
use crate::shapes::{Field, Shape};
use crate::walks::{LineWalk, moment_shown};
use std::alloc::{AllocError, Global};
use zt_rows::Koid;
use zt_text::Notes;

/// Returns lines that answer a question, with notes and names. The note of a call is ahead of the line that shows the call. Behind
/// each koid and each handle value that has a name is ` (NAME)`; in a list it is behind its element. Fails only if an allocation
/// fails.
#[tactic(auto, using(crate::proofs::KeptLaws::kept_text_is))]
pub fn shown(alloc: Global, text: &[u8], shape: Shape, notes: &Notes) -> Result<Vec<u8>, AllocError>
    ensures shown { IfOk result (λ lines. lines.items ≡ shown_text (annotated notes.now shape text.now)) }
    ensures kept { kept_text (annotated notes.now shape text.now) ≡ text.now }
{
    let mut lines = Vec::new(alloc);
    let mut left = Some(text);
    while let Some(bytes) = left {
        let (line, others) = cut(bytes, b'\n');
        put_line(&mut lines, line, &shape, notes)?;
        put_separator(&mut lines, others, b'\n')?;
        left = others;
    }
    Ok(lines)
}

/// Appends a line, with its note ahead.
fn put_line(
    lines: &mut Vec<u8>,
    line: &[u8],
    shape: &Shape,
    notes: &Notes,
) -> Result<(), AllocError>
    ensures { OnOk result (lines.new.items ≡ lines.old.items ++ shown_line (annotated_line notes.now shape.now line.now)) }
{
    if let Some(moment) = moment_shown(shape, line) {
        lines.extend_from_slice(notes.note(moment))?;
    }
    put_fields(lines, line, shape, notes)
}

/// Appends the fields of a line, with names.
fn put_fields(
    lines: &mut Vec<u8>,
    line: &[u8],
    shape: &Shape,
    notes: &Notes,
) -> Result<(), AllocError>
    ensures { OnOk result (lines.new.items ≡ lines.old.items ++ shown_fields (annotated_fields notes.now (start shape.now) (fields_of line.now))) }
{
    let mut walk = LineWalk::start(shape);
    let mut left = Some(line);
    while let Some(bytes) = left {
        let (word, others) = cut(bytes, b' ');
        put_field(lines, word, &walk, notes)?;
        put_separator(lines, others, b' ')?;
        walk = walk.behind(word);
        left = others;
    }
    Ok(())
}

/// Appends the elements of a field, with names.
fn put_field(
    lines: &mut Vec<u8>,
    word: &[u8],
    walk: &LineWalk,
    notes: &Notes,
) -> Result<(), AllocError>
    ensures { OnOk result (lines.new.items ≡ lines.old.items ++ shown_field (annotated_field notes.now walk.now word.now)) }
{
    let process = walk.process();
    let field = walk.field();
    let mut left = Some(word);
    while let Some(bytes) = left {
        let (element, others) = cut(bytes, b',');
        put_element(lines, element, process, field, notes)?;
        put_separator(lines, others, b',')?;
        left = others;
    }
    Ok(())
}

/// Appends an element of a field, with its name behind it.
fn put_element(
    lines: &mut Vec<u8>,
    element: &[u8],
    process: Koid,
    field: Field,
    notes: &Notes,
) -> Result<(), AllocError>
    ensures { OnOk result (lines.new.items ≡ lines.old.items ++ shown_element (annotated_element notes.now process field element.now)) }
{
    lines.extend_from_slice(element)?;
    match name_of(notes, process, field, element) {
        Some(name) => put_name(lines, name),
        None => Ok(()),
    }
}

/// Appends a name in parentheses.
fn put_name(lines: &mut Vec<u8>, name: &[u8]) -> Result<(), AllocError>
    ensures { OnOk result (lines.new.items ≡ lines.old.items ++ in_parentheses name.now) }
{
    lines.extend_from_slice(b" (")?;
    lines.extend_from_slice(name)?;
    lines.extend_from_slice(b")")
}

/// Appends the separator if other parts follow.
fn put_separator(
    lines: &mut Vec<u8>,
    others: Option<&[u8]>,
    separator: u8,
) -> Result<(), AllocError>
    ensures { OnOk result (lines.new.items ≡ lines.old.items ++ separator_ahead separator (is_some others.entry)) }
{
    match others {
        Some(_) => Ok(lines.push(separator)?),
        None => Ok(()),
    }
}
