//! Cuts texts at separators, and reads decimal numbers.

ghost use Rattle.std.specs.Prelude.{◌≡◌, ◌+◌, ◌-◌, ◌*◌, ◌^◌, ◌<◌, ◌≤◌, ◌==◌, length, position, IfSome, IsTrue};
ghost use Rattle.std.specs.Char.{is_ascii_digit};
ghost use Rattle.std.specs.List.{list_all};
ghost use Rattle.std.specs.Option.{SomeIff, option_map};
ghost use Rattle.std.specs.Str.{bytes_eq};
ghost use Rattle.std.specs.Str.Parse.{digits_value};
ghost use Rattle.zt_text.specs.Numbers.{decimal_of, handle_of, has_leading_zero, koid_of, moment_of};
ghost use Rattle.zt_notes.specs.Cuts.{before, behind};

use zt_rows::{HandleValue, Koid, Moment};

/// Cuts the bytes at the first separator. The second part is `None` if there is no separator.
pub fn cut(bytes: &[u8], separator: u8) -> (&[u8], Option<&[u8]>)
    ensures before { result.0.now ≡ before separator bytes.now }
    ensures behind { option_map (λ rest. rest.now) result.1 ≡ behind separator bytes.now }
    ensures shorter { IfSome result.1 (λ rest. length rest.now < length bytes.now) }
{
    match first_of(bytes, separator) {
        Some(place) => (&bytes[..place], Some(&bytes[place + 1..])),
        None => (bytes, None),
    }
}

/// Returns the place of the first separator.
fn first_of(bytes: &[u8], separator: u8) -> Option<usize>
    ensures at { result ≡ position (λ byte. byte == separator) bytes.now }
    ensures inside { IfSome result (λ place. place < length bytes.now) }
{
    bytes.iter().position(|byte| *byte == separator)
}

/// Whether the bytes are this word.
pub fn is(bytes: &[u8], word: &str) -> bool
    ensures { result ≡ bytes_eq bytes.now word.now }
{
    bytes == word.as_bytes()
}

/// Reads the bytes as a moment.
pub fn moment(bytes: &[u8]) -> Option<Moment>
    ensures { result ≡ moment_of bytes.now }
{
    match decimal(bytes, u64::from(u32::MAX)) {
        Some(number) => Some(Moment(number as u32)),
        None => None,
    }
}

/// Reads the bytes as a koid.
pub fn koid(bytes: &[u8]) -> Option<Koid>
    ensures { result ≡ koid_of bytes.now }
{
    match decimal(bytes, u64::MAX) {
        Some(number) => Some(Koid(number)),
        None => None,
    }
}

/// Reads the bytes as the value of a handle.
pub fn handle(bytes: &[u8]) -> Option<HandleValue>
    ensures { result ≡ handle_of bytes.now }
{
    match decimal(bytes, u64::from(u32::MAX)) {
        Some(number) => Some(HandleValue(number as u32)),
        None => None,
    }
}

/// Reads a decimal number of at most `most`, without leading zeros.
#[tactic(auto, unfolding(zt_text::specs::Numbers::decimal_of))]
fn decimal(bytes: &[u8], most: u64) -> Option<u64>
    ensures value { result ≡ decimal_of most bytes.now }
    ensures within { IfSome result (λ number. number ≤ most) }
{
    if bytes.is_empty() || has_leading_zero(bytes) {
        return None;
    }
    match digits(bytes) {
        Some(number) if number <= most => Some(number),
        _ => None,
    }
}

/// Whether a zero is followed by other digits.
fn has_leading_zero(bytes: &[u8]) -> bool
    ensures { result ≡ has_leading_zero bytes.now }
{
    bytes.len() > 1 && bytes[0] == b'0'
}

/// Returns the number that these bytes write in decimal. Returns `None` if a byte is no digit or the number does not fit.
fn digits(bytes: &[u8]) -> Option<u64>
    ensures { SomeIff result (IsTrue (list_all is_ascii_digit bytes.now) × (digits_value 10 bytes.now < 2 ^ 64))
        (digits_value 10 bytes.now) }
{
    let mut number = 0u64;
    for byte in bytes {
        number = with_digit(number, *byte)?;
    }
    Some(number)
}

/// Appends one more digit to a number. Returns `None` if the byte is no digit or the number does not fit.
fn with_digit(number: u64, byte: u8) -> Option<u64>
    ensures { SomeIff result (IsTrue (is_ascii_digit byte) × (number * 10 + (byte - 48) < 2 ^ 64))
        (number * 10 + (byte - 48)) }
{
    if !byte.is_ascii_digit() {
        return None;
    }
    number.checked_mul(10)?.checked_add(u64::from(byte - b'0'))
}
