//! The parts of a text between separators.

ghost use Rattle.std.specs.Prelude.{◌≡◌, ◌∷◌, [], MatchOption};
ghost use Rattle.zt_json.specs.Parts.{parts_of, IsFirst};

use std::marker::Model;

/// The parts of a text that are still to be read. A text without a separator is one part.
#[derive(Drop)]
pub struct Parts<'a> {
    left: Option<&'a str>,
    separator: char,
}

impl<'a> Model for Parts<'a> {
    ghost use Rattle.std.specs.Prelude.{ℕ, List, ◌<◌};
    ghost use Rattle.zt_json.specs.Parts.{parts_left};

    ghost Value = { List (List ℕ) };

    ghost view = { λ p. parts_left p.separator p.left };

    ghost invariant = { λ p. p.separator < 128 };
}

impl<'a> Parts<'a> {
    /// Returns no parts.
    pub fn none() -> Parts<'a>
        ensures { result ≡ [] }
    {
        Parts {
            left: None,
            separator: ' ',
        }
    }

    /// Returns the fields of a line: what is between single spaces.
    pub fn of_line(line: &'a str) -> Parts<'a>
        ensures { result ≡ parts_of 32 line.now }
    {
        Parts {
            left: Some(line),
            separator: ' ',
        }
    }

    /// Returns the elements of a list.
    pub fn of_list(list: &'a str) -> Parts<'a>
        ensures { result ≡ parts_of 44 list.now }
    {
        Parts {
            left: Some(list),
            separator: ',',
        }
    }

    /// Returns the names of a mask's bits.
    pub fn of_names(names: &'a str) -> Parts<'a>
        ensures { result ≡ parts_of 124 names.now }
    {
        Parts {
            left: Some(names),
            separator: '|',
        }
    }

    /// Returns the koid and the rights of a held handle.
    pub fn of_held(held: &'a str) -> Parts<'a>
        ensures { result ≡ parts_of 58 held.now }
    {
        Parts {
            left: Some(held),
            separator: ':',
        }
    }

    /// Returns the lines of a text; behind the last line feed there is one more, empty part.
    pub fn of_text(text: &'a str) -> Parts<'a>
        ensures { result ≡ parts_of 10 text.now }
    {
        Parts {
            left: Some(text),
            separator: '\n',
        }
    }

    /// Takes the first part.
    pub fn next(&mut self) -> Option<&'a str>
        ensures { MatchOption result ((self.old ≡ []) × (self.new ≡ [])) (λ part. self.old ≡ part.now ∷ self.new) }
    {
        let text = self.left?;
        match text.split_once(self.separator) {
            Some((part, left)) => {
                self.left = Some(left);
                Some(part)
            }
            None => {
                self.left = None;
                Some(text)
            }
        }
    }

    /// Returns the first part, without taking it.
    pub fn first(&self) -> Option<&'a str>
        ensures { MatchOption result (self.now ≡ []) (λ part. IsFirst part.now self.now) }
    {
        let text = self.left?;
        match text.split_once(self.separator) {
            Some((part, _)) => Some(part),
            None => Some(text),
        }
    }
}
