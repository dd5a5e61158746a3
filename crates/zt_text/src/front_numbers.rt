//! Numbers in the front of a line, read while the end of their field is sought.

ghost use Rattle.std.specs.Prelude.{◌≡◌, ◌≤◌, length, take, true, IfSome};
ghost use Rattle.std.specs.Char.{is_ascii_digit};
ghost use Rattle.std.specs.List.{list_all};
ghost use Rattle.std.specs.Str.Parse.{digits_value};
ghost use Rattle.zt_text.specs.Numbers.{decimal_of, mask_of};
ghost use Rattle.zt_text.specs.ProofsOnly.Cut.{IsInFront};

use crate::numbers::{DIGITS_THAT_FIT, digit, has_leading_zero, mask};
use crate::separator::cut_at;

/// How many bytes a mask has: `0x` and eight digits.
const MASK_BYTES: usize = 10;

/// Reads the first field as a number of at most `most`, and returns it with the bytes after the field. It reads the digits while
/// it seeks the end of the field. Returns `None` if the field is not such a number, or has twenty digits.
#[inline(always)]
pub fn number_in_front(bytes: &[u8], most: u64) -> Option<(u64, Option<&[u8]>)>
    ensures read { IfSome result (IsInFront (decimal_of most) bytes.now) }
    ensures within { IfSome result (λ read. read.0 ≤ most) }
{
    let (number, digits) = digits_in_front(bytes);
    match cut_at(bytes, b' ', digits) {
        Some((first, left)) if !first.is_empty() && !has_leading_zero(first) && number <= most => {
            Some((number, left))
        }
        _ => None,
    }
}

/// Reads the digits in the front, at most nineteen. Returns their number and how many they are.
fn digits_in_front(bytes: &[u8]) -> (u64, usize)
    ensures inside { result.1 ≤ length bytes.now }
    ensures digits { list_all is_ascii_digit (take result.1 bytes.now) ≡ true }
    ensures value { result.0 ≡ digits_value 10 (take result.1 bytes.now) }
{
    let most = bytes.len().min(DIGITS_THAT_FIT);
    let mut number = 0u64;
    for place in 0..most {
        match digit(bytes[place]) {
            Some(value) => number = number * 10 + value,
            None => return (number, place),
        }
    }
    (number, most)
}

/// Reads the first field as a mask, and returns its bits with the bytes after the field. Returns `None` if it is no mask.
#[inline(always)]
pub fn mask_in_front(bytes: &[u8]) -> Option<(u32, Option<&[u8]>)>
    ensures { IfSome result (IsInFront mask_of bytes.now) }
{
    if bytes.len() < MASK_BYTES {
        return None;
    }
    match mask(&bytes[..MASK_BYTES]) {
        Some(bits) => match cut_at(bytes, b' ', MASK_BYTES) {
            Some((_, left)) => Some((bits, left)),
            None => None,
        },
        None => None,
    }
}
