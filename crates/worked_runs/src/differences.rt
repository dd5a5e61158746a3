//! Finds where two texts differ.

ghost use Rattle.std.specs.Prelude.{◌≡◌, ◌↔◌, IsNone};

use std::fmt;
use std::fmt::{Display, Formatter, Write};

/// The first line that differs from what it should be, counted from 1. A text without such a line has ended.
#[derive(Debug, Drop)]
pub struct TextDifference<'a> {
    number: usize,
    told: Option<&'a [u8]>,
    came: Option<&'a [u8]>,
}

/// Where `came` differs from `told`. None exactly if they are the same text.
pub fn first_difference<'a>(told: &'a [u8], came: &'a [u8]) -> Option<TextDifference<'a>>
    ensures { IsNone result ↔ (told.now ≡ came.now) }
{
    if told == came {
        return None;
    }
    let is_feed = |byte: &u8| *byte == b'\n';
    let both = told.split(is_feed).zip(came.split(is_feed));
    let same = both.take_while(|(told, came)| told == came).count();
    Some(TextDifference {
        number: same + 1,
        told: told.split(is_feed).nth(same),
        came: came.split(is_feed).nth(same),
    })
}

impl<'a> Display for TextDifference<'a> {
    fn fmt<W: Write>(&self, f: &mut Formatter<W>) -> fmt::Result {
        let number = self.number;
        write!(f, "line {number}: told ")?;
        show(self.told, f)?;
        f.write_str(", came ")?;
        show(self.came, f)
    }
}

/// Prints the line in quotes, or that the text has ended.
fn show<W: Write>(line: Option<&[u8]>, f: &mut Formatter<W>) -> fmt::Result {
    match line {
        Some(bytes) => write!(f, "\"{}\"", bytes.escape_ascii()),
        None => f.write_str("the end"),
    }
}
