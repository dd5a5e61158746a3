//! Prints the calls of a log that are not in the trace, since the semantics does not know them.

use crate::used_handles::handles_in;
use std::alloc::{AllocError, Global};
use std::collections::{HashMap, HashSet};
use zt_bits::Status;
use zt_logs::{LoggedCall, SkippedCall};
use zt_rows::HandleValue;

/// How many bytes of a name are shown at most.
const SHOWN_BYTES: usize = 64;

/// A call that the semantics does not know.
#[derive(Clone, Copy, Debug)]
pub(crate) struct SkippedName {
    /// The first line that has it, counted from 0 among the skipped lines.
    pub(crate) first: usize,
    /// How many skipped lines have it.
    pub(crate) count: u64,
    /// Whether one of these lines names a handle that its process has in the log.
    pub(crate) has_handles: bool,
}

/// The handles that each process has in the log: those that it got, and those that a call found.
#[derive(Drop)]
struct KnownHandles {
    handles: HashSet<(u64, u32)>,
}

impl KnownHandles {
    /// The handles of a log. None are collected if no skipped line names a handle.
    fn of(
        alloc: Global,
        calls: &[LoggedCall],
        skipped: &[SkippedCall],
    ) -> Result<KnownHandles, AllocError> {
        let mut known = KnownHandles {
            handles: HashSet::new(alloc),
        };
        if skipped.iter().all(|call| call.handles.is_empty()) {
            return Ok(known);
        }
        for logged in calls {
            known.add_all(logged.process, logged.recorded.handles.as_slice())?;
            if logged.recorded.status != Some(Status::BadHandle) {
                let used = handles_in(alloc, &logged.call)?;
                known.add_all(logged.process, used.as_slice())?;
            }
        }
        Ok(known)
    }

    fn add_all(&mut self, process: u64, handles: &[HandleValue]) -> Result<(), AllocError> {
        for handle in handles {
            self.handles.insert((process, handle.0))?;
        }
        Ok(())
    }

    /// Whether a skipped line names a handle that its process has.
    fn has_one_of(&self, call: &SkippedCall) -> bool {
        let Some(process) = call.process else {
            return false;
        };
        for handle in call.handles.as_slice() {
            if self.handles.contains(&(process, handle.0)) {
                return true;
            }
        }
        false
    }
}

/// Whether a skipped line names a handle that its process has in the log. Then the trace lacks what the call did to the
/// object. The error is an allocation failure.
pub fn skips_handles(
    alloc: Global,
    calls: &[LoggedCall],
    skipped: &[SkippedCall],
) -> Result<bool, AllocError> {
    let known = KnownHandles::of(alloc, calls, skipped)?;
    for call in skipped {
        if known.has_one_of(call) {
            return Ok(true);
        }
    }
    Ok(false)
}

/// The line of the skipped calls, without a line feed: each call once, with how many lines have it. Calls of more lines
/// come first; in a tie, the one that the log has first. The error is an allocation failure.
pub fn print_skipped(
    alloc: Global,
    calls: &[LoggedCall],
    skipped: &[SkippedCall],
) -> Result<String, AllocError> {
    let names = skipped_names(alloc, calls, skipped)?;
    let mut text = String::new(alloc);
    text.push_str("skipped: ")?;
    for place in 0..names.len() {
        if place > 0 {
            text.push_str(", ")?;
        }
        put_skipped(&mut text, skipped, names[place])?;
    }
    Ok(text)
}

/// The skipped calls, each once, in the order in which they are printed.
pub(crate) fn skipped_names(
    alloc: Global,
    calls: &[LoggedCall],
    skipped: &[SkippedCall],
) -> Result<Vec<SkippedName>, AllocError> {
    let known = KnownHandles::of(alloc, calls, skipped)?;
    let mut names = Vec::new(alloc);
    let mut places = HashMap::new(alloc);
    for first in 0..skipped.len() {
        let line = SkippedName {
            first,
            count: 1,
            has_handles: known.has_one_of(&skipped[first]),
        };
        add_line(&mut names, &mut places, skipped[first].name.as_str(), line)?;
    }
    names.sort_by_key(|name| u64::MAX - name.count)?;
    Ok(names)
}

/// Adds a line of this name.
fn add_line(
    names: &mut Vec<SkippedName>,
    places: &mut HashMap<Vec<u8>, usize>,
    name: &str,
    line: SkippedName,
) -> Result<(), AllocError> {
    let key = Vec::from_slice(*names.allocator(), name.as_bytes())?;
    if let Some(place) = places.get(&key).copied() {
        count_line(names, place, line);
        return Ok(());
    }
    places.insert(key, names.len())?;
    names.push(line)?;
    Ok(())
}

/// Counts a line more of the name at this place.
fn count_line(names: &mut Vec<SkippedName>, place: usize, line: SkippedName) {
    if let Some(name) = names.get_mut(place) {
        name.count = name.count.saturating_add(line.count);
        name.has_handles |= line.has_handles;
    }
}

/// Appends a name with how many lines have it.
fn put_skipped(
    text: &mut String,
    skipped: &[SkippedCall],
    name: SkippedName,
) -> Result<(), AllocError> {
    let Some(first) = skipped.get(name.first) else {
        return Ok(());
    };
    write!(text, "{} ", name.count)?;
    put_name(text, first.name.as_str())?;
    if name.has_handles {
        text.push_str(" (with handles of the log)")?;
    }
    Ok(())
}

/// Appends a name. It is quoted, and cut after 64 bytes, unless it has 1 to 64 bytes that are all letters, digits or `_`.
fn put_name(text: &mut String, name: &str) -> Result<(), AllocError> {
    if is_plain(name) {
        return text.push_str(name);
    }
    text.push_str("\"")?;
    for byte in name.bytes().take(SHOWN_BYTES) {
        text.push(shown(byte))?;
    }
    text.push_str(if name.len() > SHOWN_BYTES {
        "..\""
    } else {
        "\""
    })
}

/// Whether a name has 1 to 64 bytes that are all letters, digits or `_`.
fn is_plain(name: &str) -> bool {
    !name.is_empty()
        && name.len() <= SHOWN_BYTES
        && name
            .bytes()
            .all(|byte| byte.is_ascii_alphanumeric() || byte == b'_')
}

/// A byte as it is shown in quotes; `.` if it is a quote or not printable.
fn shown(byte: u8) -> char {
    if byte.is_ascii_graphic() && byte != b'"' || byte == b' ' {
        char::from(byte)
    } else {
        '.'
    }
}
