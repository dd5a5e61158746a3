//! Reads when the calls of a log began and returned.

use crate::json_values::JsonValue;
use crate::line_members::LineMembers;
use crate::numbers::number_in;
use crate::rare_members::RareMember;
use std::num::{nearest_u64_to_f64, saturating_f64_to_u64};

/// A time on the clock of a log: whole units, and billionths of a unit.
#[derive(Clone, Copy, Debug, PartialEq, Eq)]
pub struct LogTime {
    pub whole: u64,
    pub part: u64,
}

/// When a call began and returned, as far as its line tells.
#[derive(Clone, Copy, Debug, PartialEq, Eq)]
pub struct CallTimes {
    /// On the clock of `ended`, or the number of a line if `ended` is not told.
    pub began: Option<LogTime>,
    pub ended: Option<LogTime>,
}

/// When the call of a line with these members began and returned. A time of another form counts as left out.
#[inline(always)]
pub(crate) fn times_of(line: &LineMembers<'_, '_>) -> CallTimes {
    CallTimes {
        began: rare_time(line, RareMember::Began),
        ended: ended_in(line),
    }
}

/// When the call returned.
fn ended_in(line: &LineMembers<'_, '_>) -> Option<LogTime> {
    let ended = match line.time() {
        Some(time) => time_in(time),
        None => rare_time(line, RareMember::Timestamp),
    };
    match ended {
        Some(ended) => Some(ended),
        None => rare_time(line, RareMember::ShortTime),
    }
}

/// The time that a rare member tells.
#[inline(always)]
fn rare_time(line: &LineMembers<'_, '_>, member: RareMember) -> Option<LogTime> {
    time_in(&line.rare(member)?)
}

fn time_in(value: &JsonValue<'_, '_>) -> Option<LogTime> {
    if let Some(whole) = number_in(value) {
        return Some(LogTime { whole, part: 0 });
    }
    match value.as_str() {
        Some(text) => time_of(text),
        None => broken_time(value.as_f64()?),
    }
}

/// How many parts a unit has.
const PARTS: f64 = 1_000_000_000.0;

/// The time of a JSON number with a fraction. None if it is negative or not finite.
fn broken_time(time: f64) -> Option<LogTime> {
    if !(time >= 0.0 && time.is_finite()) {
        return None;
    }
    let whole = saturating_f64_to_u64(time);
    let part = saturating_f64_to_u64((time - nearest_u64_to_f64(whole)) * PARTS);
    Some(LogTime { whole, part })
}

/// The time that a text writes: decimal digits, a point and decimal digits.
fn time_of(text: &str) -> Option<LogTime> {
    let (whole, part) = text.split_once(".")?;
    let whole = u64::from_str_radix(whole, 10).ok()?;
    let part = part_of(part.as_bytes())?;
    Some(LogTime { whole, part })
}

/// The digits behind a point, as billionths of a unit. Digits behind the ninth are ignored.
fn part_of(digits: &[u8]) -> Option<u64> {
    if digits.is_empty() || !digits.iter().all(|digit| digit.is_ascii_digit()) {
        return None;
    }
    let mut part = 0u64;
    for place in 0..9usize {
        let digit = match digits.get(place) {
            Some(digit) => u64::from(digit.saturating_sub(b'0')),
            None => 0,
        };
        part = part.saturating_mul(10).saturating_add(digit);
    }
    Some(part)
}
