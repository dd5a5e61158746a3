//! Prints texts of a log in comments.

ghost use Rattle.std.specs.Prelude.{◌≤◌, ◌+◌, ◌*◌, OnOk, length, string_len};

use std::alloc::AllocError;

/// Appends a text up to its last character that ends within its first `most` bytes. `feed` stands for each line feed, and
/// `?` for each other control character.
pub(crate) fn put_shown(
    text: &mut String,
    shown: &str,
    most: usize,
    feed: &str,
) -> Result<(), AllocError>
    requires { length feed.now ≤ 4 }
    ensures { OnOk result (string_len text.new ≤ string_len text.old + 4 * most) }
{
    if shown.len() <= most && is_printable(shown) {
        return text.push_str(shown);
    }
    let mut left = most;
    for letter in shown.chars() {
        let len = letter.len_utf8();
        if len > left {
            return Ok(());
        }
        left -= len;
        if letter == '\n' {
            text.push_str(feed)?;
        } else if letter.is_control() {
            text.push_str("?")?;
        } else {
            text.push(letter)?;
        }
    }
    Ok(())
}

/// Whether all characters are printable ones of ASCII, as in most texts.
fn is_printable(shown: &str) -> bool {
    shown
        .as_bytes()
        .iter()
        .all(|byte| matches!(*byte, b' '..=b'~'))
}
