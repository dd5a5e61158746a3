//! The names of what fields tell.

ghost use Rattle.std.specs.Prelude.{◌≡◌, ◌*◌, ◌+◌, ◌-◌, ◌^◌, ◌<◌, ◌≤◌, IfSome, IsTrue};
ghost use Rattle.std.specs.Char.{is_ascii_digit};
ghost use Rattle.std.specs.List.{list_all};
ghost use Rattle.std.specs.Option.{SomeIff, option_copied};
ghost use Rattle.std.specs.Str.Parse.{digits_value};
ghost use Rattle.zt_text.specs.Numbers.{decimal_of, handle_of, has_leading_zero, koid_of, moment_of};
ghost use Rattle.zt_json.specs.Names.{readable, koid_name, handle_name};

use zt_rows::{HandleValue, Koid, Moment};
use zt_text::Notes;

/// Returns the name of the object whose koid this is, if it has one.
#[tactic(auto, unfolding(crate::specs::Names::koid_name))]
pub fn koid_name<'a>(notes: &'a Notes, field: &str) -> Option<&'a str>
    ensures { option_copied result ≡ koid_name notes.now field.now }
{
    readable(notes.koid_name(koid(field)?))
}

/// Returns the name of a process's handle whose value this is, if it has one.
#[tactic(auto, unfolding(crate::specs::Names::handle_name))]
pub fn handle_name<'a>(notes: &'a Notes, process: Koid, field: &str) -> Option<&'a str>
    ensures { option_copied result ≡ handle_name notes.now process field.now }
{
    readable(notes.handle_name(process, handle(field)?))
}

/// Returns a name as a text. A name that is not UTF-8 is none.
#[tactic(auto, using(crate::proofs::NameLemmas::utf8, crate::proofs::NameLemmas::not_utf8))]
fn readable<'a>(name: Option<&'a [u8]>) -> Option<&'a str>
    ensures { option_copied result ≡ readable (option_copied name.entry) }
{
    match std::str::from_utf8(name?) {
        Ok(text) => Some(text),
        Err(_) => None,
    }
}

/// Reads a moment.
pub fn moment(field: &str) -> Option<Moment>
    ensures { result ≡ moment_of field.now }
{
    match decimal(field.as_bytes(), u64::from(u32::MAX)) {
        Some(number) => Some(Moment(number as u32)),
        None => None,
    }
}

/// Reads a koid.
pub fn koid(field: &str) -> Option<Koid>
    ensures { result ≡ koid_of field.now }
{
    match decimal(field.as_bytes(), u64::MAX) {
        Some(number) => Some(Koid(number)),
        None => None,
    }
}

/// Reads the value of a handle.
fn handle(field: &str) -> Option<HandleValue>
    ensures { result ≡ handle_of field.now }
{
    match decimal(field.as_bytes(), u64::from(u32::MAX)) {
        Some(number) => Some(HandleValue(number as u32)),
        None => None,
    }
}

/// Reads a decimal number of at most `most`, without leading zeros.
#[tactic(auto, unfolding(zt_text::specs::Numbers::decimal_of))]
fn decimal(bytes: &[u8], most: u64) -> Option<u64>
    ensures value { result ≡ decimal_of most bytes.now }
    ensures within { IfSome result (λ number. number ≤ most) }
{
    if bytes.is_empty() || has_leading_zero(bytes) {
        return None;
    }
    match digits(bytes) {
        Some(number) if number <= most => Some(number),
        _ => None,
    }
}

/// Whether a zero is followed by other digits.
fn has_leading_zero(bytes: &[u8]) -> bool
    ensures { result ≡ has_leading_zero bytes.now }
{
    bytes.len() > 1 && bytes[0] == b'0'
}

/// Returns the number that these bytes write in decimal. Returns `None` if a byte is no digit or the number does not fit.
fn digits(bytes: &[u8]) -> Option<u64>
    ensures { SomeIff result (IsTrue (list_all is_ascii_digit bytes.now) × (digits_value 10 bytes.now < 2 ^ 64))
        (digits_value 10 bytes.now) }
{
    let mut number = 0u64;
    for byte in bytes {
        number = with_digit(number, *byte)?;
    }
    Some(number)
}

/// Appends one more digit to a number. Returns `None` if the byte is no digit or the number does not fit.
fn with_digit(number: u64, byte: u8) -> Option<u64>
    ensures { SomeIff result (IsTrue (is_ascii_digit byte) × (number * 10 + (byte - 48) < 2 ^ 64))
        (number * 10 + (byte - 48)) }
{
    if !byte.is_ascii_digit() {
        return None;
    }
    number.checked_mul(10)?.checked_add(u64::from(byte - b'0'))
}
