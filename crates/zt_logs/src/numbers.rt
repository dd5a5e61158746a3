//! Reads the numbers of a log.

ghost use Rattle.std.specs.Prelude.{◌≡◌, ◌+◌, ◌*◌, ◌<◌, ◌≤◌, Some, IfSome};
ghost use Rattle.std.specs.Char.{digit_value};
ghost use Rattle.zt_logs.specs.ProofsOnly.Tokens.{value_at};
ghost use Rattle.zt_logs.specs.Numbers.{IsWritten, IsNumberText, IsNumber, IsSigned, IsSignedIn};

use crate::json_values::JsonValue;

/// A number of 64 bits: a JSON number without a fraction, or a text of one.
pub(crate) fn number_in(value: &JsonValue<'_, '_>) -> Option<u64>
    ensures { IfSome result (IsNumber (value_at value.now)) }
{
    match value.as_number() {
        Some(digits) => written(digits.as_bytes(), 10),
        None => number_of(value.as_str()?),
    }
}

/// A number of 32 bits, in the forms of `number_in`.
pub(crate) fn narrow_in(value: &JsonValue<'_, '_>) -> Option<u32>
    ensures { IfSome result (IsNumber (value_at value.now)) }
{
    narrow(number_in(value)?)
}

/// The number, if 32 bits hold it.
pub(crate) fn narrow(number: u64) -> Option<u32>
    ensures { IfSome result (λ same. same ≡ number) }
{
    u32::try_from(number).ok()
}

/// A signed number of 64 bits: a JSON number without a fraction, or a text of one.
pub(crate) fn signed_in(value: &JsonValue<'_, '_>) -> Option<i64>
    ensures { IfSome result (λ code. IsSignedIn (Some (value_at value.now)) code) }
{
    match value.as_number() {
        Some(text) => signed_number(text),
        None => signed_of(value.as_str()?),
    }
}

/// The signed number that a JSON number is, if it has no fraction. `-0` is none, since it is a float.
fn signed_number(text: &str) -> Option<i64>
    ensures { IfSome result (IsSigned text.now) }
{
    if text == "-0" {
        return None;
    }
    i64::from_str_radix(text, 10).ok()
}

/// The number that a text writes in decimal digits, or in hexadecimal ones behind `0x`.
pub(crate) fn number_of(text: &str) -> Option<u64>
    ensures { IfSome result (IsNumberText text.now) }
{
    let bytes = text.as_bytes();
    match bytes.strip_prefix(b"0x") {
        Some(digits) => written(digits, 16),
        None => written(bytes, 10),
    }
}

/// The signed number that a text writes. Digits behind `0x` are those of its 64 bits.
fn signed_of(text: &str) -> Option<i64> {
    let bytes = text.as_bytes();
    if let Some(digits) = bytes.strip_prefix(b"0x") {
        return Some(written(digits, 16)?.cast_signed());
    }
    let digits = match bytes.strip_prefix(b"-") {
        Some(digits) => digits,
        None => bytes,
    };
    written(digits, 10)?;
    i64::from_str_radix(text, 10).ok()
}

/// The number of 64 bits that digits of this base write. None if there are no digits, if one is of no such base, or if it
/// does not fit. It is inlined so that the compiler knows the base.
#[inline(always)]
pub(crate) fn written(digits: &[u8], base: u32) -> Option<u64>
    requires low { 2 ≤ base }
    requires high { base ≤ 36 }
    ensures { IfSome result (IsWritten base digits.now) }
{
    if digits.is_empty() {
        return None;
    }
    let mut number = 0u64;
    for byte in digits {
        number = with_digit(number, *byte, base)?;
    }
    Some(number)
}

/// A number with one digit appended. None if it does not fit 64 bits.
#[inline(always)]
fn with_digit(number: u64, digit: u8, base: u32) -> Option<u64>
    requires low { 2 ≤ base }
    requires high { base ≤ 36 }
    ensures { IfSome result (λ more. (digit_value digit < base) × (more ≡ number * base + digit_value digit)) }
{
    let digit = char::from(digit).to_digit(base)?;
    number
        .checked_mul(u64::from(base))?
        .checked_add(u64::from(digit))
}
