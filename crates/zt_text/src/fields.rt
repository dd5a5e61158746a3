//! Reads the fields of a line one after another, from the left.

ghost use Rattle.std.specs.Prelude.{◌≡◌, ◌≤◌, IfOk};
ghost use Rattle.zt_text.specs.Numbers.{decimal_of, handle_of, amount_of, koid_of, key_of, moment_of, code_of, mask_of, signals_of, count_of};
ghost use Rattle.zt_text.specs.Bytes.{bytes_of, packet_bytes_of};
ghost use Rattle.zt_text.specs.Lists.{handles_of};
ghost use Rattle.zt_text.specs.Names.{name_of, happening_of};
ghost use Rattle.zt_text.specs.Fields.{unread, next, field, ended, flag};
ghost use Rattle.zt_text.specs.SavedTexts.{client_of};
ghost use Rattle.std.specs.Str.{bytes_eq};

use crate::bytes::{Digits, packet_bytes};
use crate::front_numbers::{mask_in_front, number_in_front};
use crate::lists::HandleList;
use crate::names::{Name, happening};
use crate::numbers::{code, decimal, mask};
use crate::separator::cut;
use std::marker::Model;
use zt_bits::Signals;
use zt_rows::{CLIENTS, HandleValue, Happening, Koid, LAST_MOMENT, Moment, Refusal};

/// A field of a line, with the column at which it begins.
#[derive(Drop)]
pub struct Field<'a> {
    column: u64,
    bytes: &'a [u8],
}

impl<'a> Model for Field<'a> {
    ghost use Rattle.zt_text.specs.Fields.{Placed};

    ghost Value = { Placed };

    ghost view = { λ f. record { column = f.column; bytes = f.bytes.now } };
}

impl<'a> Field<'a> {
    ghost use Rattle.zt_rows.specs.declared.refusals.Refusal.TheVariants.{BadLine};

    /// Whether the field is this word.
    pub fn is(&self, word: &str) -> bool
        ensures { result ≡ bytes_eq self.now.bytes word.now }
    {
        self.bytes == word.as_bytes()
    }

    /// Returns the field's bytes.
    pub fn bytes(&self) -> &'a [u8]
        ensures { result.now ≡ self.now.bytes }
    {
        self.bytes
    }

    /// Returns `BadLine` at the field's column.
    pub fn fault(&self) -> Refusal
        ensures { result ≡ BadLine self.now.column }
    {
        Refusal::BadLine(self.column)
    }
}

/// The fields of a line that are not read yet. Fields are separated by single spaces.
///
/// A function that reads a field fails with `BadLine` and the field's column if the field has another form. If no field is left,
/// the column is the one after the end of the line.
#[derive(Drop)]
pub struct Fields<'a> {
    left: Option<&'a [u8]>,
    line_len: usize,
}

impl<'a> Model for Fields<'a> {
    ghost use Rattle.zt_text.specs.Fields.{Unread};
    ghost use Rattle.zt_text.specs.ProofsOnly.Cut.{unread_of, IsLeftOfLine};

    ghost Value = { Unread };

    ghost view = { λ f. unread_of f.left f.line_len };

    ghost invariant = { λ f. IsLeftOfLine f.left f.line_len };
}

// `inline(always)` is here because a field and the fields after it would go through memory at a call.
impl<'a> Fields<'a> {
    /// Returns all fields of a line. There is always at least one.
    pub fn new(line: &'a [u8]) -> Fields<'a>
        ensures { result ≡ unread line.now }
    {
        Fields {
            left: Some(line),
            line_len: line.len(),
        }
    }

    /// Returns the next field, and the fields after it.
    #[inline(always)]
    pub fn next(self) -> Result<(Field<'a>, Fields<'a>), Refusal>
        ensures { result ≡ next self.entry }
    {
        let Fields { left, line_len } = self;
        let Some(left) = left else {
            return Err(Refusal::BadLine(line_len as u64 + 1));
        };
        let column = (line_len - left.len()) as u64 + 1;
        let (bytes, left) = cut(left, b' ');
        Ok((Field { column, bytes }, Fields { left, line_len }))
    }

    /// Reads the next field as a number of at most `most`.
    #[inline(always)]
    #[tactic(auto, unfolding(crate::specs::Fields::field))]
    fn number(self, most: u64) -> Result<(u64, Fields<'a>), Refusal>
        ensures ok { result ≡ field (decimal_of most) self.entry }
        ensures within { IfOk result (λ read. read.0 ≤ most) }
    {
        let line_len = self.line_len;
        if let Some(left) = self.left {
            if let Some((number, left)) = number_in_front(left, most) {
                return Ok((number, Fields { left, line_len }));
            }
        }
        number_cut(self, most)
    }

    /// Reads the next field as a handle value.
    #[inline(always)]
    #[tactic(auto, unfolding(crate::specs::Fields::field))]
    pub fn handle(self) -> Result<(HandleValue, Fields<'a>), Refusal>
        ensures { result ≡ field handle_of self.entry }
    {
        let (number, rest) = self.number(u64::from(u32::MAX))?;
        Ok((HandleValue(number as u32), rest))
    }

    /// Reads the next field as the koid of an object.
    #[inline(always)]
    #[tactic(auto, unfolding(crate::specs::Fields::field))]
    pub fn koid(self) -> Result<(Koid, Fields<'a>), Refusal>
        ensures { result ≡ field koid_of self.entry }
    {
        let (number, rest) = self.number(u64::MAX)?;
        Ok((Koid(number), rest))
    }

    /// Reads the next field as the key of a packet.
    #[inline(always)]
    #[tactic(auto, unfolding(crate::specs::Fields::field))]
    pub fn key(self) -> Result<(u64, Fields<'a>), Refusal>
        ensures { result ≡ field key_of self.entry }
    {
        self.number(u64::MAX)
    }

    /// Reads the next field as the exit code of a process.
    #[tactic(auto, unfolding(crate::specs::Fields::field))]
    pub fn code(self) -> Result<(i64, Fields<'a>), Refusal>
        ensures { result ≡ field code_of self.entry }
    {
        let (field, rest) = self.next()?;
        match code(field.bytes()) {
            Some(number) => Ok((number, rest)),
            None => Err(field.fault()),
        }
    }

    /// Reads the next field as a mask, and returns its bits.
    #[inline(always)]
    #[tactic(auto, unfolding(crate::specs::Fields::field))]
    pub fn mask(self) -> Result<(u32, Fields<'a>), Refusal>
        ensures { result ≡ field mask_of self.entry }
    {
        let line_len = self.line_len;
        if let Some(left) = self.left {
            if let Some((bits, left)) = mask_in_front(left) {
                return Ok((bits, Fields { left, line_len }));
            }
        }
        mask_cut(self)
    }

    /// Reads the next field as a mask of signals.
    #[inline(always)]
    #[tactic(auto, unfolding(crate::specs::Fields::field))]
    pub fn signals(self) -> Result<(Signals, Fields<'a>), Refusal>
        ensures { result ≡ field signals_of self.entry }
    {
        let (bits, rest) = self.mask()?;
        Ok((Signals(bits), rest))
    }

    /// Reads the next field as a moment.
    #[inline(always)]
    #[tactic(auto, unfolding(crate::specs::Fields::field))]
    pub fn moment(self) -> Result<(Moment, Fields<'a>), Refusal>
        ensures { result ≡ field moment_of self.entry }
    {
        let (number, rest) = self.number(u64::from(u32::MAX))?;
        Ok((Moment(number as u32), rest))
    }

    /// Reads the next field as a happening.
    #[tactic(auto, unfolding(crate::specs::Fields::field))]
    pub fn happening(self) -> Result<(Happening, Fields<'a>), Refusal>
        ensures { result ≡ field happening_of self.entry }
    {
        let (field, rest) = self.next()?;
        match happening(field.bytes()) {
            Some(what) => Ok((what, rest)),
            None => Err(field.fault()),
        }
    }

    /// Reads the next field as the name of a branch.
    #[tactic(auto, unfolding(crate::specs::Fields::field))]
    pub fn name(self) -> Result<(Name<'a>, Fields<'a>), Refusal>
        ensures { result ≡ field name_of self.entry }
    {
        let (field, rest) = self.next()?;
        match Name::of(field.bytes()) {
            Some(name) => Ok((name, rest)),
            None => Err(field.fault()),
        }
    }

    /// Reads the next field as the client number `wanted`; any other number is an error.
    #[tactic(auto, unfolding(crate::specs::Fields::field))]
    pub fn client(self, wanted: u64) -> Result<(u64, Fields<'a>), Refusal>
        ensures { result ≡ field (client_of wanted) self.entry }
    {
        let (field, rest) = self.next()?;
        match decimal(field.bytes(), u64::from(CLIENTS)) {
            Some(number) if number == wanted => Ok((number, rest)),
            _ => Err(field.fault()),
        }
    }

    /// Reads the next field as a number of moments, of at least 1.
    #[tactic(auto, unfolding(crate::specs::Fields::field))]
    pub fn count(self) -> Result<(u32, Fields<'a>), Refusal>
        ensures { result ≡ field count_of self.entry }
    {
        let (field, rest) = self.next()?;
        match decimal(field.bytes(), u64::from(LAST_MOMENT)) {
            Some(number) if number > 0 => Ok((number as u32, rest)),
            _ => Err(field.fault()),
        }
    }

    /// Reads the next field as a number of bytes or of handles.
    #[inline(always)]
    #[tactic(auto, unfolding(crate::specs::Fields::field))]
    pub fn amount(self) -> Result<(u32, Fields<'a>), Refusal>
        ensures { result ≡ field amount_of self.entry }
    {
        let (number, rest) = self.number(u64::from(u32::MAX))?;
        Ok((number as u32, rest))
    }

    /// Reads the next field as bytes.
    #[tactic(auto, unfolding(crate::specs::Fields::field))]
    pub fn bytes(self) -> Result<(Digits<'a>, Fields<'a>), Refusal>
        ensures { result ≡ field bytes_of self.entry }
    {
        let (field, rest) = self.next()?;
        match Digits::of(field.bytes()) {
            Some(digits) => Ok((digits, rest)),
            None => Err(field.fault()),
        }
    }

    /// Reads the next field as the 32 bytes of a packet.
    #[tactic(auto, unfolding(crate::specs::Fields::field))]
    pub fn packet_bytes(self) -> Result<([u8; 32], Fields<'a>), Refusal>
        ensures { result ≡ field packet_bytes_of self.entry }
    {
        let (field, rest) = self.next()?;
        match packet_bytes(field.bytes()) {
            Some(bytes) => Ok((bytes, rest)),
            None => Err(field.fault()),
        }
    }

    /// Reads the next field as a list of handles.
    #[tactic(auto, unfolding(crate::specs::Fields::field))]
    pub fn handles(self) -> Result<(HandleList<'a>, Fields<'a>), Refusal>
        ensures { result ≡ field handles_of self.entry }
    {
        let (field, rest) = self.next()?;
        match HandleList::of(field.bytes()) {
            Some(list) => Ok((list, rest)),
            None => Err(field.fault()),
        }
    }

    /// Returns whether this word is the last field. The word is optional, but any other field is an error.
    #[tactic(auto, unfolding(crate::specs::Fields::flag, crate::specs::Fields::ended))]
    pub fn flag(self, word: &str) -> Result<bool, Refusal>
        ensures { result ≡ flag word.now self.entry }
    {
        if self.left.is_none() {
            return Ok(false);
        }
        match self.next() {
            Ok((field, rest)) if field.is(word) => {
                rest.end()?;
                Ok(true)
            }
            Ok((field, _)) => Err(field.fault()),
            Err(_) => Ok(false),
        }
    }

    /// Fails if a field is left, with the column of that field.
    #[inline(always)]
    #[tactic(auto, unfolding(crate::specs::Fields::ended))]
    pub fn end(self) -> Result<(), Refusal>
        ensures { result ≡ ended self.entry }
    {
        if self.left.is_none() {
            return Ok(());
        }
        match self.next() {
            Ok((surplus, _)) => Err(surplus.fault()),
            Err(_) => Ok(()),
        }
    }
}

/// Reads the next field as a number of at most `most`: finds the end of the field first, and then reads its digits.
#[inline(always)]
#[tactic(auto, unfolding(crate::specs::Fields::field))]
fn number_cut<'a>(fields: Fields<'a>, most: u64) -> Result<(u64, Fields<'a>), Refusal>
    ensures ok { result ≡ field (decimal_of most) fields.entry }
    ensures within { IfOk result (λ read. read.0 ≤ most) }
{
    let (field, rest) = fields.next()?;
    match decimal(field.bytes(), most) {
        Some(number) => Ok((number, rest)),
        None => Err(field.fault()),
    }
}

/// Reads the next field as a mask: finds the end of the field first, and then reads its digits.
#[inline(always)]
#[tactic(auto, unfolding(crate::specs::Fields::field))]
fn mask_cut<'a>(fields: Fields<'a>) -> Result<(u32, Fields<'a>), Refusal>
    ensures { result ≡ field mask_of fields.entry }
{
    let (field, rest) = fields.next()?;
    match mask(field.bytes()) {
        Some(bits) => Ok((bits, rest)),
        None => Err(field.fault()),
    }
}
