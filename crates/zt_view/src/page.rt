//! The parts of the page that a browser shows.

mod index;
mod script;
mod style;

use crate::responses::Content;
use index::index;
use script::script;
use style::style;

/// A part of the page.
#[derive(Clone, Copy)]
pub enum Part {
    Index,
    Style,
    Script,
}

impl Part {
    /// Returns the text of the part.
    pub fn text(self) -> &'static str {
        match self {
            Part::Index => index(),
            Part::Style => style(),
            Part::Script => script(),
        }
    }

    /// Returns the content type of the part.
    pub fn content(self) -> Content {
        match self {
            Part::Index => Content::Html,
            Part::Style => Content::Css,
            Part::Script => Content::JavaScript,
        }
    }
}
