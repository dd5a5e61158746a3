//! Follows where a client stands, by its last answers.

use std::alloc::{AllocError, Global};
use zt_console::Book;
use zt_rows::Cursor;
use zt_words::field;

/// Where a client stands.
#[derive(Drop)]
pub struct Place {
    /// The moment, as it was printed.
    moment: String,
    /// The branch that the client follows, if it follows one.
    branch: Option<String>,
}

impl Place {
    /// Returns where the first client of a book stands. Returns `None` if that cannot be told, as after a failed allocation.
    pub fn in_book(alloc: Global, book: &Book) -> Option<Place> {
        let places = book.save_places().ok()?;
        match places.cursors.as_slice().first()? {
            Cursor::At(moment) => Place::of_number(alloc, moment.0, None),
            Cursor::Follows(name) => {
                let branch = book.history().find(name.as_slice())?;
                let head = book.history().head(branch);
                Place::of_number(alloc, head.0, Some(text_of(alloc, name.as_slice())?))
            }
        }
    }

    fn of_number(alloc: Global, moment: u32, branch: Option<String>) -> Option<Place> {
        let moment = format!(in alloc; "{moment}").ok()?;
        Some(Place { moment, branch })
    }

    /// Returns where the client stands after a line of it was answered with this text. Returns `None` if that cannot be told, as
    /// after a failed allocation.
    pub fn behind(self, alloc: Global, line: &[u8], text: &[u8]) -> Option<Place> {
        let told = text.split(|byte| *byte == b'\n').next().unwrap_or(&[]);
        match field(told, 0) {
            b"at" => Some(Place {
                moment: text_of(alloc, field(told, 1))?,
                branch: None,
            }),
            b"branch" | b"follow" => Some(Place {
                moment: text_of(alloc, field(told, 2))?,
                branch: Some(text_of(alloc, field(told, 1))?),
            }),
            [b'0'..=b'9', ..] if matches!(line, [b'0'..=b'9', ..]) => Some(Place {
                moment: text_of(alloc, field(told, 0))?,
                branch: self.branch,
            }),
            _ => Some(self),
        }
    }

    /// Prints the place in words, with a line feed.
    pub fn shown(&self, alloc: Global) -> Result<String, AllocError> {
        let moment = self.moment.as_str();
        match &self.branch {
            Some(branch) => format!(in alloc; "at moment {moment}, the head of branch {branch}\n"),
            None => format!(in alloc; "at moment {moment}, following no branch\n"),
        }
    }
}

/// Copies these bytes into a string. Returns `None` if they are not UTF-8 or an allocation fails.
fn text_of(alloc: Global, bytes: &[u8]) -> Option<String> {
    String::from_str(alloc, str::from_utf8(bytes).ok()?).ok()
}
