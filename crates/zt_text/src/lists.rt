//! Lists of handles in a line: values with commas between, or `-` for none.

ghost use Rattle.std.specs.Prelude.{◌≡◌, ◌≤◌, length, true, Some, is_some, IfOk, IfErr};
ghost use Rattle.zt_text.specs.Numbers.{handle_of};
ghost use Rattle.zt_text.specs.Lists.{handles_of, listed};
ghost use Rattle.zt_rows.specs.declared.refusals.Refusal.TheVariants.{OutOfMemory};

use crate::numbers::decimal;
use crate::separator::cut;
use std::alloc::{AllocError, Global};
use std::marker::Model;
use zt_rows::{HandleValue, MESSAGE_HANDLES, Refusal};

/// Handle values as the field that lists them, without memory of their own. There are at most as many as a message can have.
#[derive(Drop)]
pub struct HandleList<'a> {
    field: &'a [u8],
}

impl<'a> Model for HandleList<'a> {
    ghost use Rattle.std.specs.Prelude.{◌≡◌, ℕ, List, Some};
    ghost use Rattle.zt_text.specs.Lists.{handles_of};
    ghost use Rattle.zt_text.specs.ProofsOnly.Lists.{handles_in};

    ghost Value = { List ℕ };

    ghost view = { λ l. handles_in l.field.now };

    ghost invariant = { λ l. Some (handles_in l.field.now) ≡ handles_of l.field.now };
}

impl<'a> HandleList<'a> {
    /// Reads a field that lists handle values with commas between, or is `-` for none. Returns `None` for anything else.
    #[tactic(auto, using(crate::proofs::ListLemmas::some_handles, crate::proofs::ListLemmas::no_handles))]
    pub fn of(field: &'a [u8]) -> Option<HandleList<'a>>
        ensures { result ≡ handles_of field.now }
    {
        if is_handles(field) {
            Some(HandleList { field })
        } else {
            None
        }
    }

    /// Copies the values to the heap. Its only error is `OutOfMemory`.
    pub fn to_vec(&self, alloc: Global) -> Result<Vec<HandleValue>, Refusal>
        ensures ok { IfOk result (λ values. values.items ≡ self.now) }
        ensures few { IfOk result (λ values. length values.items ≤ 64) }
        ensures refused { IfErr result (λ refusal. refusal ≡ OutOfMemory) }
    {
        match handles_in(alloc, self.field) {
            Ok(values) => Ok(values),
            Err(_) => Err(Refusal::OutOfMemory),
        }
    }
}

/// Whether the field lists handle values with commas between, or is `-` for none.
#[tactic(auto, unfolding(crate::specs::Lists::handles_of))]
fn is_handles(field: &[u8]) -> bool
    ensures { result ≡ is_some (handles_of field.now) }
{
    field == b"-".as_slice() || is_listed(field)
}

/// Whether the field is handle values with commas between, and at most as many as a message can have.
fn is_listed(field: &[u8]) -> bool
    ensures { result ≡ is_some (listed field.now) }
{
    let mut count = 0;
    let mut left = Some(field);
    while let Some(elements) = left {
        let (element, others) = cut(elements, b',');
        match handle(element) {
            Some(_) => {}
            None => return false,
        }
        if count == MESSAGE_HANDLES {
            return false;
        }
        count += 1;
        left = others;
    }
    true
}

/// Returns the values that the field lists.
#[tactic(auto, unfolding(crate::specs::Lists::handles_of))]
fn handles_in(alloc: Global, field: &[u8]) -> Result<Vec<HandleValue>, AllocError>
    requires { is_some (handles_of field.now) ≡ true }
    ensures { IfOk result (λ values. Some values.items ≡ handles_of field.now) }
{
    if field == b"-".as_slice() {
        Ok(Vec::new(alloc))
    } else {
        listed_in(alloc, field)
    }
}

/// Returns the values between the commas.
fn listed_in(alloc: Global, field: &[u8]) -> Result<Vec<HandleValue>, AllocError>
    requires { is_some (listed field.now) ≡ true }
    ensures { IfOk result (λ values. Some values.items ≡ listed field.now) }
{
    let mut values = Vec::new(alloc);
    let mut left = Some(field);
    while let Some(elements) = left {
        let (element, others) = cut(elements, b',');
        match handle(element) {
            Some(value) => values.push(value)?,
            None => unreachable!(),
        }
        left = others;
    }
    Ok(values)
}

/// Reads one handle value.
fn handle(element: &[u8]) -> Option<HandleValue>
    ensures { result ≡ handle_of element.now }
{
    match decimal(element, u64::from(u32::MAX)) {
        Some(value) => Some(HandleValue(value as u32)),
        None => None,
    }
}
