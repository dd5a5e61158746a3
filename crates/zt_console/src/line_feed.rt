//! Cuts what was read at line feeds, answers each line, and writes the answers.

ghost use Rattle.std.specs.Prelude.{◌≡◌, ◌<◌, ◌-◌, ◌^◌, ◌∷◌, [], ◌++◌, true, false, is_ok, Err, OnOk, IfSome, IfNone};
ghost use Rattle.zt_console.specs.ProofsOnly.LineFeed.{decisive_lines, has_no_feed, IsFirstFeed, Passed, Put, Fed};
ghost use Rattle.zt_console.specs.ProofsOnly.Run.{IsWritten, IsSent, IsFailureCounted};

use crate::conversation::{Conversation, text_for};
use crate::counted_faults::Counted;
use crate::line_buffer::LineBuffer;
use crate::responder::Responder;
use std::alloc::{AllocError, Global};
use std::io::Write;
use zt_rows::Refusal;

/// When this many bytes of answers wait, they are written before the next line is answered.
const ENOUGH: usize = 65_536;

/// Answers the lines that end in these bytes, and writes the answers. Fails with `OutOfMemory` or `WriteFault`.
pub(crate) fn answer_chunk<D: Responder, W: Write>(
    alloc: Global,
    client: &mut Conversation<D>,
    part: &mut LineBuffer,
    bytes: &[u8],
    waiting: &mut Vec<u8>,
    writer: &mut Counted<W>,
) -> Result<(), Refusal>
    requires ready { D.ready client.old.responder }
    requires count { writer.old.1 < 2 ^ 64 - 1 }
    ensures fed { Fed D.asks client.old client.new part.old part.new bytes.now waiting.old.items [] (W.contents writer.old.0) (W.contents writer.new.0) (is_ok result) }
    ensures empty { OnOk result (waiting.new.items ≡ []) }
    ensures counted { IsFailureCounted writer.old.1 writer.new.1 result }
    ensures ready { D.ready client.new.responder }
{
    match feed(alloc, client, part, bytes, waiting, writer) {
        Ok(()) => send(waiting, writer),
        Err(refusal) => Err(refusal),
    }
}

/// Answers the text after the last line feed, if there is any, and writes the waiting answers. Fails with `OutOfMemory` or
/// `WriteFault`.
pub(crate) fn answer_rest<D: Responder, W: Write>(
    alloc: Global,
    client: &mut Conversation<D>,
    part: &LineBuffer,
    waiting: &mut Vec<u8>,
    writer: &mut Counted<W>,
) -> Result<(), Refusal>
    requires ready { D.ready client.old.responder }
    requires count { writer.old.1 < 2 ^ 64 - 1 }
    ensures passed { Passed D.asks client.old (decisive_lines part.now) client.new waiting.old.items [] (W.contents writer.old.0) (W.contents writer.new.0) (is_ok result) }
    ensures counted { IsFailureCounted writer.old.1 writer.new.1 result }
    ensures ready { D.ready client.new.responder }
{
    let line = part.bytes();
    if line.is_empty() {
        return send(waiting, writer);
    }
    match answer_line(alloc, client, line, waiting) {
        Ok(()) => send(waiting, writer),
        Err(_) => Err(out_of_memory(waiting, writer)),
    }
}

/// Takes bytes that were read. Each line feed ends a line, which is answered.
fn feed<D: Responder, W: Write>(
    alloc: Global,
    client: &mut Conversation<D>,
    part: &mut LineBuffer,
    bytes: &[u8],
    waiting: &mut Vec<u8>,
    writer: &mut Counted<W>,
) -> Result<(), Refusal>
    requires ready { D.ready client.old.responder }
    requires count { writer.old.1 < 2 ^ 64 - 1 }
    ensures fed { Fed D.asks client.old client.new part.old part.new bytes.now waiting.old.items waiting.new.items (W.contents writer.old.0) (W.contents writer.new.0) (is_ok result) }
    ensures counted { IsFailureCounted writer.old.1 writer.new.1 result }
    ensures ready { D.ready client.new.responder }
{
    let mut rest = bytes;
    while let Some(place) = first_feed(rest) {
        let (line, behind) = rest.split_at(place);
        match end_line(alloc, client, part, line, waiting, writer) {
            Ok(()) => {}
            Err(refusal) => return Err(refusal),
        }
        rest = behind.split_at(1).1;
    }
    match part.add(rest) {
        Ok(()) => Ok(()),
        Err(_) => Err(out_of_memory(waiting, writer)),
    }
}

/// Returns the place of the first line feed.
fn first_feed(bytes: &[u8]) -> Option<usize>
    ensures found { IfSome result (IsFirstFeed bytes.now) }
    ensures none { IfNone result (has_no_feed bytes.now ≡ true) }
{
    for (place, byte) in bytes.iter().enumerate() {
        if *byte == b'\n' {
            return Some(place);
        }
    }
    None
}

/// Takes the last bytes of a line, before its line feed, and answers the line.
fn end_line<D: Responder, W: Write>(
    alloc: Global,
    client: &mut Conversation<D>,
    part: &mut LineBuffer,
    bytes: &[u8],
    waiting: &mut Vec<u8>,
    writer: &mut Counted<W>,
) -> Result<(), Refusal>
    requires ready { D.ready client.old.responder }
    requires count { writer.old.1 < 2 ^ 64 - 1 }
    requires one { has_no_feed bytes.now ≡ true }
    ensures fed { Fed D.asks client.old client.new part.old part.new (bytes.now ++ 10 ∷ []) waiting.old.items waiting.new.items (W.contents writer.old.0) (W.contents writer.new.0) (is_ok result) }
    ensures counted { IsFailureCounted writer.old.1 writer.new.1 result }
    ensures ready { D.ready client.new.responder }
{
    let Ok(()) = part.add(bytes) else {
        return Err(out_of_memory(waiting, writer));
    };
    let answered = answer_line(alloc, client, part.bytes(), waiting);
    part.clear();
    match answered {
        Ok(()) => send_enough(waiting, writer),
        Err(_) => Err(out_of_memory(waiting, writer)),
    }
}

/// Answers a line: appends its text to the waiting answers, and lets the responder hear both.
fn answer_line<D: Responder>(
    alloc: Global,
    client: &mut Conversation<D>,
    line: &[u8],
    waiting: &mut Vec<u8>,
) -> Result<(), AllocError>
    requires { D.ready client.old.responder }
    ensures put { Put D.asks client.old line.now client.new waiting.old.items waiting.new.items (is_ok result) }
    ensures ready { D.ready client.new.responder }
{
    let text = text_for(alloc, client, line)?;
    client.responder.hear(line, text.as_slice());
    waiting.extend_from_slice(text.as_slice())
}

/// After a failed allocation: writes the waiting answers. Returns `OutOfMemory`, or `WriteFault` if a write fails.
fn out_of_memory<W: Write>(waiting: &mut Vec<u8>, writer: &mut Counted<W>) -> Refusal
    requires { writer.old.1 < 2 ^ 64 - 1 }
    ensures written { IsWritten waiting.old.items (W.contents writer.old.0) (W.contents writer.new.0) false }
    ensures counted { IsFailureCounted writer.old.1 writer.new.1 (Err result) }
{
    match send(waiting, writer) {
        Ok(()) => Refusal::OutOfMemory,
        Err(refusal) => refusal,
    }
}

/// Writes the waiting answers if there are many of them.
fn send_enough<W: Write>(waiting: &mut Vec<u8>, writer: &mut Counted<W>) -> Result<(), Refusal>
    requires { writer.old.1 < 2 ^ 64 - 1 }
    ensures sent { IsSent waiting.old.items waiting.new.items (W.contents writer.old.0) (W.contents writer.new.0) (is_ok result) }
    ensures counted { IsFailureCounted writer.old.1 writer.new.1 result }
{
    if waiting.len() < ENOUGH {
        Ok(())
    } else {
        send(waiting, writer)
    }
}

/// Writes the waiting answers.
fn send<W: Write>(waiting: &mut Vec<u8>, writer: &mut Counted<W>) -> Result<(), Refusal>
    requires { writer.old.1 < 2 ^ 64 - 1 }
    ensures written { IsWritten waiting.old.items (W.contents writer.old.0) (W.contents writer.new.0) (is_ok result) }
    ensures empty { OnOk result (waiting.new.items ≡ []) }
    ensures counted { IsFailureCounted writer.old.1 writer.new.1 result }
{
    write_text(waiting.as_slice(), writer)?;
    waiting.clear();
    Ok(())
}

/// Writes the whole text, in as many writes as it takes. Fails with `WriteFault` if a write fails or takes no byte.
fn write_text<W: Write>(text: &[u8], writer: &mut Counted<W>) -> Result<(), Refusal>
    requires { writer.old.1 < 2 ^ 64 - 1 }
    ensures written { IsWritten text.now (W.contents writer.old.0) (W.contents writer.new.0) (is_ok result) }
    ensures counted { IsFailureCounted writer.old.1 writer.new.1 result }
{
    let mut rest = text;
    while !rest.is_empty() {
        match writer.write(rest) {
            Ok(count) if count > 0 => rest = rest.split_at(count).1,
            _ => return Err(Refusal::WriteFault),
        }
    }
    Ok(())
}
