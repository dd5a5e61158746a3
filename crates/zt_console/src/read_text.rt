//! Loads a session text of version 1 as it is read, without the whole text in memory.

ghost use Rattle.std.specs.Prelude.{◌≡◌, ◌≤◌, ◌++◌, [], true, length, take, IfSome};
ghost use Rattle.zt_console.specs.LoadedText.{IsLoadedOfRead};
ghost use Rattle.zt_console.specs.ProofsOnly.Run.{IsRead};
ghost use Rattle.zt_console.specs.ProofsOnly.ReadText.{with_first, AreLoaded, AreTaken, AreWhole, IsReadSoFar, IsRowRead};

use crate::loaded_text::put_calls;
use std::alloc::Global;
use std::io::Read;
use zt_book::{Book, CallsInARow, NoProgress};
use zt_rows::CLIENTS;
use zt_text::SessionCalls;
use zt_text::laws::calls_one_by_one_are_those_of_the_text;

/// The first line of a text of version 1.
const FIRST: &[u8; 7] = b"zxtt 1\n";

/// A read takes at most this many bytes.
const CHUNK: usize = 65_536;

/// A text is read in at most this many reads: 2^40.
const READS: u64 = 1_099_511_627_776;

/// Reads a session text of version 1 to its end, and loads it into a book with this many clients. Each call is loaded as its line
/// is read, and the text is never in memory as a whole.
///
/// Returns `None` after any failure: another version, a parse error, a refused call, a failed read, too many clients, or a failed
/// allocation. The bytes that were read are lost then. To find the fault, read the text again, and give it to `load_text`.
pub fn load_read<R: Read>(alloc: Global, clients: u8, reader: &mut R) -> Option<Book>
    ensures loaded { IfSome result (IsLoadedOfRead clients (R.remaining reader.old) (R.remaining reader.new)) }
    ensures clients { IfSome result (λ book. length book.session.clients ≡ clients) }
{
    calls_one_by_one_are_those_of_the_text();
    if clients > CLIENTS {
        return None;
    }
    let Some(row) = read_row(alloc, reader) else {
        return None;
    };
    match row.finish(alloc, clients) {
        Ok(book) => Some(book),
        Err(_) => None,
    }
}

/// Loads all calls of the text that the reader gives.
fn read_row<R: Read>(alloc: Global, reader: &mut R) -> Option<CallsInARow>
    ensures { IfSome result (IsRowRead (R.remaining reader.old) (R.remaining reader.new)) }
{
    let Ok(mut row) = CallsInARow::new(alloc) else {
        return None;
    };
    let Some(mut chunk) = buffer(alloc) else {
        return None;
    };
    let mut part = Vec::new(alloc);
    if !read_first(alloc, reader, &mut chunk, &mut row, &mut part) {
        return None;
    }
    'chunks: for _ in 0..READS {
        let Some(count) = read_some(reader, &mut chunk) else {
            return None;
        };
        if count == 0 {
            return ended(alloc, row, &part);
        }
        if !take_read(alloc, &mut row, &mut part, &chunk, count) {
            return None;
        }
    }
    None
}

/// Allocates the buffer for reads.
fn buffer(alloc: Global) -> Option<Vec<u8>>
    ensures { IfSome result (λ chunk. length chunk.items ≡ 65536) }
{
    match vec![in alloc; 0u8; CHUNK] {
        Ok(chunk) => Some(chunk),
        Err(_) => None,
    }
}

/// Reads into the front of the buffer, and returns how many bytes were read. It is 0 only at the end of the input. Returns `None`
/// if the read fails.
fn read_some<R: Read>(reader: &mut R, chunk: &mut Vec<u8>) -> Option<usize>
    requires { length chunk.old.items ≡ 65536 }
    ensures room { length chunk.new.items ≡ 65536 }
    ensures read { IfSome result (IsRead (R.remaining reader.old) (R.remaining reader.new) chunk.new.items) }
{
    match reader.read(chunk.as_mut_slice()) {
        Ok(count) => Some(count),
        Err(_) => None,
    }
}

/// Reads the first bytes of a text of version 1, and takes those after its first line.
fn read_first<R: Read>(
    alloc: Global,
    reader: &mut R,
    chunk: &mut Vec<u8>,
    row: &mut CallsInARow,
    part: &mut Vec<u8>,
) -> bool
    requires room { length chunk.old.items ≡ 65536 }
    requires none { row.old ≡ [] }
    requires nothing { part.old.items ≡ [] }
    ensures room { length chunk.new.items ≡ 65536 }
    ensures begun { result ≡ true → IsReadSoFar (R.remaining reader.old) (R.remaining reader.new) row.new part.new.items }
{
    let Some(count) = read_some(reader, chunk) else {
        return false;
    };
    let (bytes, _) = chunk.as_slice().split_at(count);
    let Some(left) = behind_first(bytes) else {
        return false;
    };
    take_bytes(alloc, row, part, left)
}

/// Returns the bytes after the first line of a text of version 1, or `None` if the bytes begin with another line.
fn behind_first(bytes: &[u8]) -> Option<&[u8]>
    ensures { IfSome result (λ left. bytes.now ≡ with_first left.now) }
{
    if bytes.len() < FIRST.len() {
        return None;
    }
    let (first, left) = bytes.split_at(FIRST.len());
    if first == FIRST.as_slice() {
        Some(left)
    } else {
        None
    }
}

/// Loads the last line, which has no line feed, and returns all calls.
fn ended(alloc: Global, row: CallsInARow, part: &Vec<u8>) -> Option<CallsInARow>
    ensures { IfSome result (AreLoaded part.now.items row) }
{
    let mut all = row;
    if put_lines(alloc, &mut all, part.as_slice()) {
        Some(all)
    } else {
        None
    }
}

/// Takes this many bytes of the buffer.
fn take_read(
    alloc: Global,
    row: &mut CallsInARow,
    part: &mut Vec<u8>,
    chunk: &Vec<u8>,
    count: usize,
) -> bool
    requires { count ≤ length chunk.now.items }
    ensures { result ≡ true → AreTaken (part.old.items ++ take count chunk.now.items) row.old row.new part.new.items }
{
    let (bytes, _) = chunk.as_slice().split_at(count);
    take_bytes(alloc, row, part, bytes)
}

/// Takes more bytes of the text; `part` has the earlier bytes of the same line. Loads the calls of each line that ends in these
/// bytes.
fn take_bytes(alloc: Global, row: &mut CallsInARow, part: &mut Vec<u8>, bytes: &[u8]) -> bool
    ensures { result ≡ true → AreTaken (part.old.items ++ bytes.now) row.old row.new part.new.items }
{
    let Some((lines, rest)) = whole_lines(bytes) else {
        return go_on(part, bytes);
    };
    if !take_lines(alloc, row, part, lines) {
        return false;
    }
    part.clear();
    go_on(part, rest)
}

/// Appends bytes to a part of a line.
fn go_on(part: &mut Vec<u8>, bytes: &[u8]) -> bool
    ensures { result ≡ true → part.new.items ≡ part.old.items ++ bytes.now }
{
    match part.extend_from_slice(bytes) {
        Ok(()) => true,
        Err(_) => false,
    }
}

/// Loads lines that end here; `part` has the earlier bytes of the first of them.
fn take_lines(alloc: Global, row: &mut CallsInARow, part: &mut Vec<u8>, lines: &[u8]) -> bool
    ensures { result ≡ true → AreLoaded (part.old.items ++ lines.now) row.old row.new }
{
    let Some((first, others)) = whole_line(lines) else {
        return false;
    };
    if !go_on(part, first) {
        return false;
    }
    if !put_lines(alloc, row, part.as_slice()) {
        return false;
    }
    put_lines(alloc, row, others)
}

/// Splits the bytes after the last line feed.
fn whole_lines(bytes: &[u8]) -> Option<(&[u8], &[u8])>
    ensures { IfSome result (λ parts. AreWhole bytes.now parts.0.now parts.1.now) }
{
    'places: for place in (0..bytes.len()).rev() {
        if bytes[place] == b'\n' {
            return Some(bytes.split_at(place + 1));
        }
    }
    None
}

/// Splits the bytes after the first line feed.
fn whole_line(bytes: &[u8]) -> Option<(&[u8], &[u8])>
    ensures { IfSome result (λ parts. AreWhole bytes.now parts.0.now parts.1.now) }
{
    'places: for place in 0..bytes.len() {
        if bytes[place] == b'\n' {
            return Some(bytes.split_at(place + 1));
        }
    }
    None
}

/// Loads the calls of these lines, and returns whether all were loaded.
fn put_lines(alloc: Global, row: &mut CallsInARow, lines: &[u8]) -> bool
    ensures { result ≡ true → AreLoaded lines.now row.old row.new }
{
    put_calls(
        alloc,
        lines,
        row,
        SessionCalls::of_lines(lines),
        &NoProgress,
    )
    .is_ok()
}
