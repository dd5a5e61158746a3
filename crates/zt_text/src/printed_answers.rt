//! Prints answers.

ghost use Rattle.std.specs.Prelude.{◌≡◌, ◌++◌, ◌∷◌, [], codes, length, IfOk, OnOk, string_bytes};
ghost use Rattle.std.specs.List.{flat_map};
ghost use Rattle.std.specs.Fmt.{decimal};
ghost use Rattle.zt_text.specs.ShownNumbers.{words};
ghost use Rattle.zt_text.specs.Answers.{as_line, shown_reply, row_line, shown_support, support_line, leak_line, moment_line, name_line, heading, shown_event, shown_answer};

use crate::printed_calls::put_call;
use crate::printed_rows::{put_reply, put_rows};
use crate::printed_words::{put_one, put_three, put_two};
use std::alloc::{AllocError, Global};
use zt_bits::Kind;
use zt_rows::{Answer, Event, Koid, Moment, Reply, Row, RowKey, Support};

/// Prints the lines of an answer.
#[tactic(auto, unfolding(crate::specs::Answers::shown_answer))]
pub fn print_answer(alloc: Global, answer: &Answer) -> Result<Vec<u8>, AllocError>
    ensures { IfOk result (λ text. text.items ≡ shown_answer answer.now) }
{
    match answer {
        Answer::Called(moment, reply) => print_called(alloc, *moment, reply),
        Answer::At(moment) => print_moment(alloc, "at", *moment),
        Answer::Branched(name, moment) => print_name(alloc, "branch", name.as_slice(), *moment),
        Answer::Followed(name, moment) => print_name(alloc, "follow", name.as_slice(), *moment),
        Answer::Rows(moment, rows) => print_rows_at(alloc, *moment, rows.as_slice()),
        Answer::Holders(koid, kept) => print_holders(alloc, *koid, kept.as_slice()),
        Answer::Leaks(moment, leaked) => print_leaks(alloc, *moment, leaked.as_slice()),
        Answer::When(event) => print_event(alloc, event),
        Answer::Pinned(moment) => print_moment(alloc, "pinned", *moment),
    }
}

/// Prints the line of a call's answer.
fn print_called(alloc: Global, moment: Moment, reply: &Reply) -> Result<Vec<u8>, AllocError>
    ensures { IfOk result (λ text. text.items ≡ as_line (words (decimal moment ∷ shown_reply reply.now ∷ []))) }
{
    let mut text = String::new(alloc);
    write!(text, "{} ", moment.0)?;
    put_reply(&mut text, reply)?;
    text.push_str("\n")?;
    Ok(text.into_bytes())
}

/// Prints the line of a word and a moment.
fn print_moment(alloc: Global, word: &str, moment: Moment) -> Result<Vec<u8>, AllocError>
    ensures { IfOk result (λ text. text.items ≡ moment_line word.now moment) }
{
    let mut text = String::new(alloc);
    writeln!(text, "{word} {}", moment.0)?;
    Ok(text.into_bytes())
}

/// Prints the line of a word, a name and a moment. The name may have any bytes.
pub(crate) fn print_name(
    alloc: Global,
    word: &str,
    name: &[u8],
    moment: Moment,
) -> Result<Vec<u8>, AllocError>
    ensures { IfOk result (λ text. text.items ≡ name_line word.now name.now moment) }
{
    let mut number = String::new(alloc);
    writeln!(number, " {}", moment.0)?;
    let mut text = Vec::from_slice(alloc, word.as_bytes())?;
    text.push(b' ')?;
    text.extend_from_slice(name)?;
    text.extend_from_slice(number.as_bytes())?;
    Ok(text)
}

/// Prints the first line of a list: a word, a number, and how many lines follow.
fn heading(alloc: Global, word: &str, number: u64, lines: usize) -> Result<String, AllocError>
    ensures { IfOk result (λ text. string_bytes text ≡ heading word.now number lines) }
{
    let mut text = String::new(alloc);
    writeln!(text, "{word} {number} {lines}")?;
    Ok(text)
}

/// Prints the rows at a moment.
fn print_rows_at(
    alloc: Global,
    moment: Moment,
    rows: &[(RowKey, Row)],
) -> Result<Vec<u8>, AllocError>
    ensures { IfOk result (λ text. text.items ≡ heading (codes "rows") moment (length rows.now) ++ flat_map row_line rows.now) }
{
    let mut text = heading(alloc, "rows", u64::from(moment.0), rows.len())?;
    put_rows(&mut text, rows)?;
    Ok(text.into_bytes())
}

/// Prints what keeps an object.
fn print_holders(alloc: Global, koid: Koid, kept: &[Support]) -> Result<Vec<u8>, AllocError>
    ensures { IfOk result (λ text. text.items ≡ heading (codes "holders") koid (length kept.now) ++ flat_map support_line kept.now) }
{
    let mut text = heading(alloc, "holders", koid.0, kept.len())?;
    put_supports(&mut text, kept)?;
    Ok(text.into_bytes())
}

/// Appends a line for each thing that keeps an object.
pub fn put_supports(text: &mut String, kept: &[Support]) -> Result<(), AllocError>
    ensures { OnOk result (string_bytes text.new ≡ string_bytes text.old ++ flat_map support_line kept.now) }
{
    for support in kept {
        put_support(text, *support)?;
        text.push_str("\n")?;
    }
    Ok(())
}

/// Appends one thing that keeps an object, without a line feed.
#[tactic(auto, unfolding(crate::specs::Answers::shown_support))]
fn put_support(text: &mut String, support: Support) -> Result<(), AllocError>
    ensures { OnOk result (string_bytes text.new ≡ string_bytes text.old ++ shown_support support) }
{
    match support {
        Support::Entry(process, handle) => put_two(text, "entry", process.0, u64::from(handle.0)),
        Support::Message(endpoint, number, index) => {
            put_three(text, "message", endpoint.0, number, index)
        }
        Support::Child(koid) => put_one(text, "child", koid.0),
        Support::Itself => text.push_str("self"),
    }
}

/// Prints the leaked objects at a moment.
fn print_leaks(
    alloc: Global,
    moment: Moment,
    leaked: &[(Koid, Kind)],
) -> Result<Vec<u8>, AllocError>
    ensures { IfOk result (λ text. text.items ≡ heading (codes "leaks") moment (length leaked.now) ++ flat_map leak_line leaked.now) }
{
    let mut text = heading(alloc, "leaks", u64::from(moment.0), leaked.len())?;
    put_leaks(&mut text, leaked)?;
    Ok(text.into_bytes())
}

/// Appends a line for each leaked object.
fn put_leaks(text: &mut String, leaked: &[(Koid, Kind)]) -> Result<(), AllocError>
    ensures { OnOk result (string_bytes text.new ≡ string_bytes text.old ++ flat_map leak_line leaked.now) }
{
    for (koid, kind) in leaked {
        writeln!(text, "{} {}", koid.0, kind.word())?;
    }
    Ok(())
}

/// Prints the line of a moment with its call, or `never` if there is no such moment.
fn print_event(alloc: Global, event: &Option<Event>) -> Result<Vec<u8>, AllocError>
    ensures { IfOk result (λ text. text.items ≡ as_line (shown_event event.now)) }
{
    let mut text = String::new(alloc);
    put_event(&mut text, event)?;
    text.push_str("\n")?;
    Ok(text.into_bytes())
}

/// Appends a moment with its call, or `never` if there is no such moment.
fn put_event(text: &mut String, event: &Option<Event>) -> Result<(), AllocError>
    ensures { OnOk result (string_bytes text.new ≡ string_bytes text.old ++ shown_event event.now) }
{
    match event {
        None => text.push_str("never"),
        Some(event) => {
            write!(text, "{} ", event.moment.0)?;
            put_call(text, event.process, &event.call)
        }
    }
}
