//! Prints the moments of a path as ranges.

ghost use Rattle.std.specs.Prelude.{◌≡◌, ◌++◌, if◌then◌else◌, IfErr, IfOk, OnOk, Ok, nat_le, reverse, take};
ghost use Rattle.std.specs.List.{flat_map};
ghost use Rattle.zt_history.specs.HistoryRefusals.{IsHistoryRefusal, moment_on};
ghost use Rattle.zt_history.specs.Tree.{path};
ghost use Rattle.zt_view.specs.PathRanges.{begun_by, is_next, most_ranges, range_line, ranges_from};

use std::alloc::{AllocError, Global};
use zt_history::History;
use zt_rows::{Moment, Refusal};

/// How many ranges an answer has at most. To get the rest, ask again from the moment after the last one.
const MOST_RANGES: usize = 16_384;

/// Consecutive moments, from the first to the last.
#[derive(Clone, Copy)]
pub struct MomentRange {
    pub first: Moment,
    pub last: Moment,
}

/// Prints the ranges of the path to `at`, from the moment `from` on; at most `MOST_RANGES` of them. Fails with `NoMoment` if `at`
/// does not exist, and with `OutOfMemory`.
pub fn path_lines(
    alloc: Global,
    history: &History,
    at: Moment,
    from: Moment,
) -> Result<Vec<u8>, Refusal>
    ensures lines { IfOk result (λ text. text.items
        ≡ flat_map range_line (take most_ranges (ranges_from from (path history.now.tree.made at)))) }
    ensures within { OnOk result (moment_on history.now.tree at ≡ Ok at) }
    ensures refused { IfErr result (IsHistoryRefusal (moment_on history.now.tree at)) }
{
    let way = history.path(at)?;
    let mut ranges = ranges_from(alloc, way.as_slice(), from)?;
    ranges.truncate(MOST_RANGES);
    let mut text = Vec::new(alloc);
    put_ranges(alloc, &mut text, ranges.as_slice())?;
    Ok(text)
}

/// Returns the ranges of a path, from this moment on.
fn ranges_from(alloc: Global, way: &[Moment], from: Moment) -> Result<Vec<MomentRange>, AllocError>
    ensures { IfOk result (λ list. list.items ≡ ranges_from from way.now) }
{
    let mut list = Vec::new(alloc);
    for place in (0..way.len()).rev() {
        put_if_from(&mut list, way[place], from)?;
    }
    list.reverse();
    Ok(list)
}

/// Puts a moment in front of the ranges, unless it is before `from`. The list has the ranges in reverse order.
fn put_if_from(list: &mut Vec<MomentRange>, moment: Moment, from: Moment) -> Result<(), AllocError>
    ensures { OnOk result (reverse list.new.items ≡ (if nat_le from moment then begun_by moment (reverse list.old.items) else reverse list.old.items)) }
{
    if moment >= from {
        put_ahead(list, moment)
    } else {
        Ok(())
    }
}

/// Puts a moment in front of the ranges. The list has them in reverse order. If the first range begins with the next moment, it
/// now begins with this one.
fn put_ahead(list: &mut Vec<MomentRange>, moment: Moment) -> Result<(), AllocError>
    ensures { OnOk result (reverse list.new.items ≡ begun_by moment (reverse list.old.items)) }
{
    let range = match list.pop() {
        Some(range) if is_next(moment, range.first) => MomentRange {
            first: moment,
            last: range.last,
        },
        Some(range) => {
            list.push(range)?;
            alone(moment)
        }
        None => alone(moment),
    };
    list.push(range)?;
    Ok(())
}

/// A range of one moment.
fn alone(moment: Moment) -> MomentRange
    ensures first { result.first ≡ moment }
    ensures last { result.last ≡ moment }
{
    MomentRange {
        first: moment,
        last: moment,
    }
}

/// Whether `next` is one more than `moment`.
fn is_next(moment: Moment, next: Moment) -> bool
    ensures { result ≡ is_next moment next }
{
    moment < next && next.0 - moment.0 == 1
}

/// Appends ranges.
fn put_ranges(alloc: Global, text: &mut Vec<u8>, ranges: &[MomentRange]) -> Result<(), AllocError>
    ensures { OnOk result (text.new.items ≡ text.old.items ++ flat_map range_line ranges.now) }
{
    for range in ranges {
        text.extend_from_slice(print_range(alloc, range)?.as_slice())?;
    }
    Ok(())
}

/// Prints the line of a range.
fn print_range(alloc: Global, range: &MomentRange) -> Result<Vec<u8>, AllocError>
    ensures { IfOk result (λ text. text.items ≡ range_line range.now) }
{
    let mut text = String::new(alloc);
    writeln!(text, "{} {}", range.first.0, range.last.0)?;
    Ok(text.into_bytes())
}
