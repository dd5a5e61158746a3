//! Goes over the fields of a line, and says what each of them is.

ghost use Rattle.std.specs.Prelude.{◌≡◌, drop};
ghost use Rattle.zt_notes.specs.Walks.{behind, fields_behind, moment_shown, next_field, process_behind, start, values_behind};
ghost use Rattle.zt_text.specs.Fields.{fields_of};

use crate::cuts::{cut, is, koid, moment};
use crate::forms::{
    arguments_of, count_form, form_of, lister_of, message_form, origin_form, place_form, row_form,
    step_form, values_of,
};
use crate::shapes::{Field, Shape};
use std::marker::Model;
use zt_rows::{Koid, Moment};

/// A place between two fields of a line: what the fields behind it are.
#[derive(Drop)]
pub struct LineWalk {
    process: Koid,
    fields: &'static [Field],
    values: &'static [Field],
}

impl Model for LineWalk {
    ghost use Rattle.zt_notes.specs.Walks.{Walk};

    ghost Value = { Walk };

    ghost view = { λ w. record { process = w.process; fields = w.fields.now; values = w.values.now } };
}

impl LineWalk {
    /// The place ahead of the first field of a line.
    pub fn start(shape: &Shape) -> LineWalk
        ensures { result ≡ start shape.now }
    {
        LineWalk {
            process: lister_of(shape),
            fields: form_of(shape),
            values: &[],
        }
    }

    /// The process whose handles the handle values are.
    pub fn process(&self) -> Koid
        ensures { result ≡ self.now.process }
    {
        self.process
    }

    /// What the next field is.
    pub fn field(&self) -> Field
        ensures { result ≡ next_field self.now.fields }
    {
        match self.fields {
            [] => Field::Plain,
            [first, ..] => *first,
        }
    }

    /// The place behind the next field, which is this word.
    pub fn behind(self, word: &[u8]) -> LineWalk
        ensures { result ≡ behind self word.now }
    {
        let field = self.field();
        LineWalk {
            process: self.process_behind(field, word),
            fields: if is(word, "=>") {
                &[Field::Status]
            } else {
                self.fields_behind(field, word)
            },
            values: self.values_behind(field, word),
        }
    }

    /// The process whose handles the handle values behind this word are.
    fn process_behind(&self, field: Field, word: &[u8]) -> Koid
        ensures { result ≡ process_behind self.now field word.now }
    {
        match field {
            Field::Process | Field::Origin => koid(word).unwrap_or(self.process),
            _ => self.process,
        }
    }

    /// What the fields behind this word are, unless it is the sign of a reply.
    fn fields_behind(&self, field: Field, word: &[u8]) -> &'static [Field]
        ensures { result.now ≡ fields_behind self.now field word.now }
    {
        match field {
            Field::Call => arguments_of(word),
            Field::Status if is(word, "ok") => self.values,
            Field::Status => &[],
            Field::Row => row_form(word),
            Field::Message => message_form(word),
            Field::Count => count_form(word),
            Field::Step => step_form(word),
            Field::Origin => origin_form(word),
            Field::Place => place_form(word),
            _ => self.others(),
        }
    }

    /// What the fields behind the next one are.
    fn others(&self) -> &'static [Field]
        ensures { result.now ≡ drop 1 self.now.fields }
    {
        match self.fields {
            [] => &[],
            [_, others @ ..] => others,
        }
    }

    /// What the values of the reply are to the call that is shown.
    fn values_behind(&self, field: Field, word: &[u8]) -> &'static [Field]
        ensures { result.now ≡ values_behind self.now field word.now }
    {
        match field {
            Field::Call => values_of(word),
            _ => self.values,
        }
    }
}

/// The moment whose call the line shows, if it shows one.
pub fn moment_shown(shape: &Shape, line: &[u8]) -> Option<Moment>
    ensures { result ≡ moment_shown (start shape.now) (fields_of line.now) }
{
    let mut walk = LineWalk::start(shape);
    let mut left = Some(line);
    while let Some(bytes) = left {
        let (word, others) = cut(bytes, b' ');
        if let Field::Moment = walk.field() {
            return moment(word);
        }
        walk = walk.behind(word);
        left = others;
    }
    None
}
