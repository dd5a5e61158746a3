//! Lines whose calls the semantics does not know: the name of the call, and the handles that the line names.

use crate::json_values::{JsonMembers, JsonValue};
use crate::line_members::LineMembers;
use crate::numbers::narrow_in;
use crate::places::Member;
use std::alloc::{AllocError, Global};
use std::collections::BTreeMap;
use zt_rows::HandleValue;

/// A line whose call the semantics does not know.
#[derive(Debug, Drop)]
pub struct SkippedCall {
    pub name: String,
    /// The process that made the call, if the line tells it.
    pub process: Option<u64>,
    /// The handles that `args` and `out` name.
    pub handles: Vec<HandleValue>,
}

/// The skipped call of a line with this name. The error is an allocation failure.
pub(crate) fn skipped_of(
    alloc: Global,
    name: &str,
    process: Option<u64>,
    line: &LineMembers<'_, '_>,
) -> Result<SkippedCall, AllocError> {
    let mut handles = Vec::new(alloc);
    let (args, out) = line.objects();
    push_named(&mut handles, args)?;
    push_named(&mut handles, out)?;
    Ok(SkippedCall {
        name: String::from_str(alloc, name)?,
        process,
        handles,
    })
}

/// Appends the handles that the members of an object name, ordered by the members' names. If two members have one name, the
/// last counts.
fn push_named(
    handles: &mut Vec<HandleValue>,
    object: Option<&JsonValue<'_, '_>>,
) -> Result<(), AllocError> {
    let Some(object) = object else {
        return Ok(());
    };
    let Some(members) = object.members() else {
        return Ok(());
    };
    let named = named_handles(*handles.allocator(), members)?;
    for value in named.values() {
        push_values(handles, value)?;
    }
    Ok(())
}

/// The members that have the name of a handle or of handles.
fn named_handles<'tape, 'text>(
    alloc: Global,
    members: JsonMembers<'tape, 'text>,
) -> Result<BTreeMap<&'text str, JsonValue<'tape, 'text>>, AllocError> {
    let mut named = BTreeMap::new(alloc);
    let mut rest = members;
    while let Some((name, value)) = rest.next() {
        if is_handle_name(name) {
            named.insert(name, value)?;
        }
    }
    Ok(named)
}

/// Whether a member of this name holds handles.
fn is_handle_name(name: &str) -> bool {
    name == "handle" || name == "handles" || name.ends_with("_handle")
}

/// Appends a handle, or the handles of a list. An item of a list is a handle, or an object that has one as its member
/// `handle`.
fn push_values(
    handles: &mut Vec<HandleValue>,
    value: &JsonValue<'_, '_>,
) -> Result<(), AllocError> {
    let Some(mut list) = value.items() else {
        return push_value(handles, value);
    };
    while let Some(item) = list.next() {
        match item.get(Member::Handle.name()) {
            Some(handle) => push_value(handles, &handle)?,
            None => push_value(handles, &item)?,
        }
    }
    Ok(())
}

/// Appends the handle that a value is, unless it is 0 or no handle.
fn push_value(handles: &mut Vec<HandleValue>, value: &JsonValue<'_, '_>) -> Result<(), AllocError> {
    match narrow_in(value) {
        Some(number) if number != 0 => {
            handles.push(HandleValue(number))?;
            Ok(())
        }
        _ => Ok(()),
    }
}
