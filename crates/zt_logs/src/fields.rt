//! Prints the fields of lines that comments show.

ghost use Rattle.std.specs.Prelude.{◌≤◌, ◌+◌, OnOk, length, string_len};
ghost use Rattle.json.specs.Tree.{HasNumbers};
ghost use Rattle.json.specs.Value.{value_view};

use crate::shown_texts::put_shown;
use json::{Value, to_vec};
use std::alloc::{AllocError, Global};

/// The most bytes that are shown of a field.
const FIELD_BYTES: usize = 4_096;

/// Appends the comments of a field without their `#`, a line feed ahead of each. Those behind the first are indented. A
/// field that is `null` has none.
pub(crate) fn put_field(
    alloc: Global,
    text: &mut String,
    name: &str,
    value: &Value<'_>,
) -> Result<(), AllocError>
    requires { HasNumbers (value_view value.now) }
    ensures { OnOk result (string_len text.new ≤ string_len text.old + (length name.now + 16388)) }
{
    if value.is_null() {
        return Ok(());
    }
    let mut content = String::new(alloc);
    put_content(alloc, &mut content, value)?;
    text.push_str("\n ")?;
    text.push_str(name)?;
    text.push_str(": ")?;
    put_shown(text, without_feed(content.as_str()), FIELD_BYTES, "\n   ")
}

/// The text without the line feed at its end, if it has one.
fn without_feed(text: &str) -> &str {
    match text.strip_suffix("\n") {
        Some(front) => front,
        None => text,
    }
}

/// Appends a list with a line feed between two items, or another value as `put_item` does.
fn put_content(alloc: Global, content: &mut String, value: &Value<'_>) -> Result<(), AllocError>
    requires { HasNumbers (value_view value.now) }
{
    let Value::Array(items) = value else {
        return put_item(alloc, content, value);
    };
    for place in 0..items.len() {
        if place > 0 {
            content.push_str("\n")?;
        }
        match value.at(place) {
            Some(item) => put_item(alloc, content, item)?,
            None => {}
        }
    }
    Ok(())
}

/// Appends the content of a text, or another value as JSON.
fn put_item(alloc: Global, content: &mut String, value: &Value<'_>) -> Result<(), AllocError>
    requires { HasNumbers (value_view value.now) }
{
    if let Some(text) = value.as_str() {
        return content.push_str(text);
    }
    let bytes = to_vec(alloc, value)?;
    match str::from_utf8(bytes.as_slice()) {
        Ok(text) => content.push_str(text),
        Err(_) => Ok(()),
    }
}
