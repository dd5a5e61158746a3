//! The loop of a run: reads bytes, answers their lines, and writes the answers.

ghost use Rattle.std.specs.Prelude.{◌≡◌, ◌<◌, ◌-◌, ◌^◌, length, is_ok, None, IfOk, OnOk, OnErr};
ghost use Rattle.std.specs.Io.KnownBytes.{IsAtEnd};
ghost use Rattle.zt_console.specs.Run.{HasTalked, IsCause};
ghost use Rattle.zt_console.specs.ProofsOnly.Run.{IsRead};

use crate::conversation::Conversation;
use crate::counted_faults::Counted;
use crate::line_buffer::LineBuffer;
use crate::line_feed::{answer_chunk, answer_rest};
use crate::responder::Responder;
use std::alloc::{AllocError, Global};
use std::io::{Read, Write};
use zt_rows::Refusal;

/// A run reads at most this many times: 2^40.
const READS: u64 = 1_099_511_627_776;

/// A read takes at most this many bytes.
const CHUNK: usize = 65_536;

/// How a run ended.
#[derive(Clone, Copy, Debug, PartialEq, Eq)]
pub enum End {
    /// The whole input was read, and each line was answered.
    Finished,
    /// A read, a write, or an allocation for a line failed.
    Stopped(Refusal),
}

/// Answers the reader's lines by the responder until the input ends or something fails. Nothing is pinned at first. Fails with
/// `ReadFault`, `WriteFault` or `OutOfMemory`.
pub(crate) fn answer_all<D: Responder, R: Read, W: Write>(
    alloc: Global,
    responder: D,
    reader: &mut Counted<R>,
    writer: &mut Counted<W>,
) -> (D, Result<(), Refusal>)
    requires ready { D.ready responder }
    requires reads { reader.old.1 < 2 ^ 64 - 1 }
    requires writes { writer.old.1 < 2 ^ 64 - 1 }
    ensures talk { HasTalked D.asks responder result.0 (R.remaining reader.old.0) (W.contents writer.old.0) (W.contents writer.new.0) (is_ok result.1) }
    ensures end { OnOk result.1 (IsAtEnd (R.remaining reader.new.0)) }
    ensures cause { IsCause (reader.old.1, reader.new.1) (writer.old.1, writer.new.1) (R.remaining reader.old.0) result.1 }
    ensures ready { D.ready result.0 }
{
    let mut client = Conversation {
        responder,
        pinned: None,
    };
    let outcome = answer_chunks(alloc, &mut client, reader, writer);
    let Conversation {
        responder,
        pinned: _,
    } = client;
    (responder, outcome)
}

/// Answers the reader's lines until the input ends or something fails.
fn answer_chunks<D: Responder, R: Read, W: Write>(
    alloc: Global,
    client: &mut Conversation<D>,
    reader: &mut Counted<R>,
    writer: &mut Counted<W>,
) -> Result<(), Refusal>
    requires ready { D.ready client.old.responder }
    requires fresh { client.old.pinned ≡ None }
    requires reads { reader.old.1 < 2 ^ 64 - 1 }
    requires writes { writer.old.1 < 2 ^ 64 - 1 }
    ensures talk { HasTalked D.asks client.old.responder client.new.responder (R.remaining reader.old.0) (W.contents writer.old.0) (W.contents writer.new.0) (is_ok result) }
    ensures end { OnOk result (IsAtEnd (R.remaining reader.new.0)) }
    ensures cause { IsCause (reader.old.1, reader.new.1) (writer.old.1, writer.new.1) (R.remaining reader.old.0) result }
    ensures ready { D.ready client.new.responder }
{
    let Ok(mut chunk) = buffer(alloc, CHUNK) else {
        return Err(Refusal::OutOfMemory);
    };
    let mut part = LineBuffer::new(alloc);
    let mut waiting = Vec::new(alloc);
    for _ in 0..READS {
        let Ok(count) = read_some(reader, &mut chunk) else {
            return Err(Refusal::ReadFault);
        };
        if count == 0 {
            return answer_rest(alloc, client, &part, &mut waiting, writer);
        }
        let (bytes, _) = chunk.as_slice().split_at(count);
        match answer_chunk(alloc, client, &mut part, bytes, &mut waiting, writer) {
            Ok(()) => {}
            Err(refusal) => return Err(refusal),
        }
    }
    Err(Refusal::ReadFault)
}

/// Allocates a buffer of this many bytes, all 0.
fn buffer(alloc: Global, size: usize) -> Result<Vec<u8>, AllocError>
    ensures { IfOk result (λ bytes. length bytes.items ≡ size) }
{
    vec![in alloc; 0u8; size]
}

/// Reads into the front of the buffer, and returns how many bytes were read. It is 0 only at the end of the input.
fn read_some<R: Read>(reader: &mut Counted<R>, bytes: &mut Vec<u8>) -> Result<usize, Refusal>
    requires { reader.old.1 < 2 ^ 64 - 1 }
    ensures room { length bytes.new.items ≡ length bytes.old.items }
    ensures ok { IfOk result (IsRead (R.remaining reader.old.0) (R.remaining reader.new.0) bytes.new.items) }
    ensures same { OnOk result (reader.new.1 ≡ reader.old.1) }
    ensures counted { OnErr result (reader.old.1 < reader.new.1) }
{
    match reader.read(bytes.as_mut_slice()) {
        Ok(count) => Ok(count),
        Err(_) => Err(Refusal::ReadFault),
    }
}
