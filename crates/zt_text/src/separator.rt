//! Finds the first separator in bytes, and cuts there.

ghost use Rattle.std.specs.Prelude.{◌≡◌, ◌+◌, ◌<◌, ◌≤◌, ◌==◌, true, length, take, position, slice_index, IfSome};
ghost use Rattle.zt_text.specs.ProofsOnly.Cut.{IsCut, IsClear};

use std::simd::prelude::*;

/// How many bytes are checked at once, as long as this many are left.
const MANY: usize = 16;

/// How many bytes are checked at once after that, if this many are left.
const FEW: usize = 8;

/// Cuts the bytes at the first separator. The second part is `None` if there is no separator.
pub fn cut(bytes: &[u8], separator: u8) -> (&[u8], Option<&[u8]>)
    ensures { IsCut separator bytes.now result.0.now result.1 }
{
    match first_of(bytes, separator) {
        Some(place) => (&bytes[..place], Some(&bytes[place + 1..])),
        None => (bytes, None),
    }
}

/// Cuts the bytes at `end` if a separator is there, or if all bytes end there. No separator may be before `end`. Returns `None`
/// if another byte is at `end`.
#[inline(always)]
pub fn cut_at(bytes: &[u8], separator: u8, end: usize) -> Option<(&[u8], Option<&[u8]>)>
    requires inside { end ≤ length bytes.now }
    requires others { IsClear separator bytes.now 0 end }
    ensures cut { IfSome result (λ parts. IsCut separator bytes.now parts.0.now parts.1) }
    ensures first { IfSome result (λ parts. parts.0.now ≡ take end bytes.now) }
{
    if end == bytes.len() {
        Some((&bytes[..end], None))
    } else if bytes[end] == separator {
        Some((&bytes[..end], Some(&bytes[end + 1..])))
    } else {
        None
    }
}

/// Finds the first separator. It checks sixteen bytes at once, then eight, and the last few one by one.
#[tactic(auto, using(crate::proofs::Places::first_place))]
fn first_of(bytes: &[u8], separator: u8) -> Option<usize>
    ensures at { result ≡ position (λ byte. byte == separator) bytes.now }
    ensures inside { IfSome result (λ place. place < length bytes.now) }
{
    let mut seen = 0;
    while bytes.len() - seen >= MANY {
        let others = others_of_many(bytes, separator, seen);
        if others < MANY {
            return Some(seen + others);
        }
        seen += MANY;
    }
    first_of_rest(bytes, separator, seen)
}

/// Finds the first separator; there is none before `from`.
#[tactic(auto, using(crate::proofs::Places::first_place))]
fn first_of_rest(bytes: &[u8], separator: u8, from: usize) -> Option<usize>
    requires inside { from ≤ length bytes.now }
    requires others { IsClear separator bytes.now 0 from }
    ensures at { result ≡ position (λ byte. byte == separator) bytes.now }
    ensures inside { IfSome result (λ place. place < length bytes.now) }
{
    if bytes.len() - from < FEW {
        return first_behind(bytes, separator, from);
    }
    let others = others_of_few(bytes, separator, from);
    if others < FEW {
        Some(from + others)
    } else {
        first_behind(bytes, separator, from + FEW)
    }
}

/// Returns how many of the sixteen bytes from `from` on are before the first separator among them.
fn others_of_many(bytes: &[u8], separator: u8, from: usize) -> usize
    requires { from + 16 ≤ length bytes.now }
    ensures few { result ≤ 16 }
    ensures others { IsClear separator bytes.now from (from + result) }
    ensures separator { result < 16 → (slice_index bytes.now (from + result) == separator) ≡ true }
{
    let separators = u8x16::from_slice(&bytes[from..]).simd_eq(u8x16::splat(separator));
    let marks = separators.to_bitmask();
    if marks == 0 {
        MANY
    } else {
        marks.trailing_zeros() as usize
    }
}

/// Returns how many of the eight bytes from `from` on are before the first separator among them.
fn others_of_few(bytes: &[u8], separator: u8, from: usize) -> usize
    requires { from + 8 ≤ length bytes.now }
    ensures few { result ≤ 8 }
    ensures others { IsClear separator bytes.now from (from + result) }
    ensures separator { result < 8 → (slice_index bytes.now (from + result) == separator) ≡ true }
{
    let separators = u8x8::from_slice(&bytes[from..]).simd_eq(u8x8::splat(separator));
    let marks = separators.to_bitmask();
    if marks == 0 {
        FEW
    } else {
        marks.trailing_zeros() as usize
    }
}

/// Finds the first separator, byte by byte; there is none before `from`.
fn first_behind(bytes: &[u8], separator: u8, from: usize) -> Option<usize>
    requires inside { from ≤ length bytes.now }
    requires others { IsClear separator bytes.now 0 from }
    ensures at { result ≡ position (λ byte. byte == separator) bytes.now }
    ensures inside { IfSome result (λ place. place < length bytes.now) }
{
    for place in from..bytes.len() {
        if bytes[place] == separator {
            return Some(place);
        }
    }
    None
}
