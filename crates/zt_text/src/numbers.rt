//! Numbers in a line: decimal numbers, exit codes and masks.

ghost use Rattle.std.specs.Prelude.{◌≡◌, ◌+◌, ◌-◌, ◌*◌, ◌<◌, ◌≤◌, ◌^◌, true, IsTrue, IfSome, length, pos, if◌then◌else◌};
ghost use Rattle.std.specs.Option.{SomeIff, option_map};
ghost use Rattle.std.specs.Char.{digit_value, is_ascii_digit};
ghost use Rattle.std.specs.List.{list_all};
ghost use Rattle.std.specs.Str.Parse.{digits_value};
ghost use Rattle.zt_text.specs.Numbers.{has_leading_zero, decimal_of, negative, code_of, mask_of, is_hex_digit};

/// Every number with at most this many decimal digits fits into 64 bits.
pub const DIGITS_THAT_FIT: usize = 19;

/// The value of a byte that is no digit. It is more than the sum of any eight hexadecimal digits.
const NONE: u8 = 128;

/// The value of each byte as a hexadecimal digit: `0` to `9` are 48 to 57, and `a` to `f` are 97 to 102.
const HEX_VALUES: [u8; 256] = [
    NONE, NONE, NONE, NONE, NONE, NONE, NONE, NONE, NONE, NONE, NONE, NONE, NONE, NONE, NONE, NONE,
    NONE, NONE, NONE, NONE, NONE, NONE, NONE, NONE, NONE, NONE, NONE, NONE, NONE, NONE, NONE, NONE,
    NONE, NONE, NONE, NONE, NONE, NONE, NONE, NONE, NONE, NONE, NONE, NONE, NONE, NONE, NONE, NONE,
    0, 1, 2, 3, 4, 5, 6, 7, 8, 9, NONE, NONE, NONE, NONE, NONE, NONE, NONE, NONE, NONE, NONE, NONE,
    NONE, NONE, NONE, NONE, NONE, NONE, NONE, NONE, NONE, NONE, NONE, NONE, NONE, NONE, NONE, NONE,
    NONE, NONE, NONE, NONE, NONE, NONE, NONE, NONE, NONE, NONE, NONE, NONE, 10, 11, 12, 13, 14, 15,
    NONE, NONE, NONE, NONE, NONE, NONE, NONE, NONE, NONE, NONE, NONE, NONE, NONE, NONE, NONE, NONE,
    NONE, NONE, NONE, NONE, NONE, NONE, NONE, NONE, NONE, NONE, NONE, NONE, NONE, NONE, NONE, NONE,
    NONE, NONE, NONE, NONE, NONE, NONE, NONE, NONE, NONE, NONE, NONE, NONE, NONE, NONE, NONE, NONE,
    NONE, NONE, NONE, NONE, NONE, NONE, NONE, NONE, NONE, NONE, NONE, NONE, NONE, NONE, NONE, NONE,
    NONE, NONE, NONE, NONE, NONE, NONE, NONE, NONE, NONE, NONE, NONE, NONE, NONE, NONE, NONE, NONE,
    NONE, NONE, NONE, NONE, NONE, NONE, NONE, NONE, NONE, NONE, NONE, NONE, NONE, NONE, NONE, NONE,
    NONE, NONE, NONE, NONE, NONE, NONE, NONE, NONE, NONE, NONE, NONE, NONE, NONE, NONE, NONE, NONE,
    NONE, NONE, NONE, NONE, NONE, NONE, NONE, NONE, NONE, NONE, NONE, NONE, NONE, NONE, NONE, NONE,
    NONE, NONE, NONE, NONE, NONE, NONE, NONE, NONE, NONE, NONE, NONE, NONE, NONE, NONE, NONE, NONE,
    NONE, NONE, NONE, NONE, NONE, NONE, NONE, NONE, NONE,
];

/// Reads a decimal number of at most `most`, without leading zeros.
#[inline(never)]
#[tactic(auto, unfolding(crate::specs::Numbers::decimal_of))]
pub fn decimal(bytes: &[u8], most: u64) -> Option<u64>
    ensures value { result ≡ decimal_of most bytes.now }
    ensures within { IfSome result (λ number. number ≤ most) }
{
    if bytes.is_empty() || has_leading_zero(bytes) {
        return None;
    }
    match digits(bytes) {
        Some(number) if number <= most => Some(number),
        _ => None,
    }
}

/// Whether a zero is followed by other digits.
pub fn has_leading_zero(bytes: &[u8]) -> bool
    ensures { result ≡ has_leading_zero bytes.now }
{
    bytes.len() > 1 && bytes[0] == b'0'
}

/// Returns the number that these bytes write in decimal. Returns `None` if a byte is no digit or the number does not fit.
fn digits(bytes: &[u8]) -> Option<u64>
    ensures { SomeIff result (IsTrue (list_all is_ascii_digit bytes.now) × (digits_value 10 bytes.now < 2 ^ 64))
        (digits_value 10 bytes.now) }
{
    if bytes.len() <= DIGITS_THAT_FIT {
        few_digits(bytes)
    } else {
        many_digits(bytes)
    }
}

/// Returns the number that at most nineteen digits write; such a number always fits. Returns `None` if a byte is no digit.
fn few_digits(bytes: &[u8]) -> Option<u64>
    requires { length bytes.now ≤ 19 }
    ensures { SomeIff result (IsTrue (list_all is_ascii_digit bytes.now) × (digits_value 10 bytes.now < 2 ^ 64))
        (digits_value 10 bytes.now) }
{
    let mut number = 0u64;
    for byte in bytes {
        let digit = digit(*byte)?;
        number = number * 10 + digit;
    }
    Some(number)
}

/// Returns the number that these digits write, with a check at each digit. Returns `None` if a byte is no digit or the number
/// does not fit.
fn many_digits(bytes: &[u8]) -> Option<u64>
    ensures { SomeIff result (IsTrue (list_all is_ascii_digit bytes.now) × (digits_value 10 bytes.now < 2 ^ 64))
        (digits_value 10 bytes.now) }
{
    let mut number = 0u64;
    for byte in bytes {
        number = with_digit(number, *byte)?;
    }
    Some(number)
}

/// Returns the value of a decimal digit.
pub fn digit(byte: u8) -> Option<u64>
    ensures { SomeIff result (IsTrue (is_ascii_digit byte)) (byte - 48) }
{
    if byte.is_ascii_digit() {
        Some(u64::from(byte - b'0'))
    } else {
        None
    }
}

/// Appends one more digit to a number. Returns `None` if the byte is no digit or the number does not fit.
fn with_digit(number: u64, byte: u8) -> Option<u64>
    ensures { SomeIff result (IsTrue (is_ascii_digit byte) × (number * 10 + (byte - 48) < 2 ^ 64))
        (number * 10 + (byte - 48)) }
{
    number.checked_mul(10)?.checked_add(digit(byte)?)
}

/// Reads an exit code in decimal, with `-` in front if it is below zero.
#[tactic(auto, unfolding(crate::specs::Numbers::code_of))]
pub fn code(bytes: &[u8]) -> Option<i64>
    ensures { result ≡ code_of bytes.now }
{
    match bytes {
        [] => None,
        [b'-', digits @ ..] => match decimal(digits, 1 << 63) {
            Some(number) => negative(number),
            None => None,
        },
        _ => unsigned(bytes),
    }
}

/// Reads an exit code without a sign.
fn unsigned(bytes: &[u8]) -> Option<i64>
    ensures { result ≡ option_map pos (decimal_of (2 ^ 63 - 1) bytes.now) }
{
    match decimal(bytes, i64::MAX as u64) {
        Some(number) => Some(number as i64),
        None => None,
    }
}

/// Returns the negative of a number that is not 0. Returns `None` for 0: a code has no `-0`.
fn negative(number: u64) -> Option<i64>
    requires { number ≤ 2 ^ 63 }
    ensures { result ≡ negative number }
{
    if number == 0 {
        None
    } else {
        Some(-((number - 1) as i64) - 1)
    }
}

/// Reads a mask: `0x` and eight digits of `0` to `9` and `a` to `f`.
#[tactic(auto, unfolding(crate::specs::Numbers::mask_of))]
pub fn mask(bytes: &[u8]) -> Option<u32>
    ensures { result ≡ mask_of bytes.now }
{
    if bytes.len() != 10 || !bytes.starts_with(b"0x") {
        return None;
    }
    hex_digits(&bytes[2..])
}

/// Returns the number that at most eight digits of `0` to `9` and `a` to `f` write. It reads all bytes and never stops early: a
/// byte that is no digit makes the sum too large.
fn hex_digits(bytes: &[u8]) -> Option<u32>
    requires { length bytes.now ≤ 8 }
    ensures { SomeIff result (IsTrue (list_all is_hex_digit bytes.now)) (digits_value 16 bytes.now) }
{
    let mut number = 0u64;
    let mut sum = 0u64;
    for byte in bytes {
        let value = u64::from(hex_value_or_none(*byte));
        number = number * 16 + value;
        sum += value;
    }
    if sum < u64::from(NONE) {
        Some(number as u32)
    } else {
        None
    }
}

/// Whether this is a digit of `0` to `9` and `a` to `f`.
pub fn is_hex_digit(byte: u8) -> bool
    ensures { result ≡ is_hex_digit byte }
{
    matches!(byte, b'0'..=b'9' | b'a'..=b'f')
}

/// Returns the value of a digit of `0` to `9` and `a` to `f`.
#[inline(always)]
pub fn hex_value(digit: u8) -> u8
    requires { is_hex_digit digit ≡ true }
    ensures { result ≡ digit_value digit }
{
    if digit < b'a' {
        digit - b'0'
    } else {
        digit - b'a' + 10
    }
}

/// Returns the value of a digit of `0` to `9` and `a` to `f`, or `NONE` for any other byte.
#[inline(always)]
fn hex_value_or_none(byte: u8) -> u8
    ensures { result ≡ (if is_hex_digit byte then digit_value byte else 128) }
{
    HEX_VALUES[byte as usize]
}
