//! Reads the handles that `channel_write_etc` and `channel_call_etc` send, each with what becomes of it.

ghost use Rattle.std.specs.Prelude.{◌≡◌, ◌++◌, ◌∷◌, [], Some, IfOk, OnOk, map};
ghost use Rattle.std.specs.Option.{option_to_list};
ghost use Rattle.zt_logs.specs.Members.{field};
ghost use Rattle.zt_logs.specs.ProofsOnly.Tokens.{value_at, data_at, items_at};
ghost use Rattle.zt_logs.specs.LineCalls.{IsDisposition, AreDispositions, AreDispositionsIn, copy_of, copies_of, sources_of};

use crate::faults::Cause;
use crate::json_values::{JsonItems, JsonValue};
use crate::line_calls::{PartCall, push_part};
use crate::members::{Members, push_handle};
use crate::places::Member;
use std::alloc::Global;
use zt_rows::{Call, HandleValue};

/// The rights of a disposition that keeps all rights of its handle: `ZX_RIGHT_SAME_RIGHTS`.
pub(crate) const SAME_RIGHTS: u32 = 0x8000_0000;

/// A handle that is sent in a message.
#[derive(Clone, Copy, Debug)]
pub(crate) struct Disposition {
    /// Whether a duplicate is sent, so that the process keeps the handle.
    pub(crate) is_duplicate: bool,
    pub(crate) handle: HandleValue,
    /// The rights that the handle has in the message.
    pub(crate) rights: u32,
}

/// The dispositions of a list; none if the list is left out. The error is `Missing`, `Member` or `OutOfMemory`.
#[tactic(auto, using(crate::proofs::ListedLaws::sent_at, crate::proofs::ListedLaws::no_sent_at))]
pub(crate) fn dispositions(
    alloc: Global,
    args: &Members<'_, '_>,
    name: Member,
) -> Result<Vec<Disposition>, Cause>
    ensures { IfOk result (λ ds. AreDispositionsIn (field name (data_at args.now.value)) ds.items) }
{
    match args.list(name)? {
        Some(list) => dispositions_in(alloc, args, name, list),
        None => Ok(Vec::new(alloc)),
    }
}

/// The dispositions that the values of a list are.
fn dispositions_in<'tape, 'text>(
    alloc: Global,
    args: &Members<'tape, 'text>,
    name: Member,
    list: JsonItems<'tape, 'text>,
) -> Result<Vec<Disposition>, Cause>
    ensures { IfOk result (λ ds. AreDispositions (items_at list.entry) ds.items) }
{
    let mut dispositions = Vec::new(alloc);
    let mut rest = list;
    let mut item = 0usize;
    while let Some(value) = rest.next() {
        let disposition = disposition_in(args, name, item, value)?;
        push_disposition(&mut dispositions, disposition)?;
        item = item.saturating_add(1);
    }
    Ok(dispositions)
}

/// The disposition that an item of a list is. Without `rights` the handle keeps all its rights.
fn disposition_in<'tape, 'text>(
    args: &Members<'tape, 'text>,
    name: Member,
    item: usize,
    value: JsonValue<'tape, 'text>,
) -> Result<Disposition, Cause>
    ensures { IfOk result (IsDisposition (value_at value.entry)) }
{
    let sent = args.item(name, item, value)?;
    let is_duplicate = sent.is_duplicate(Member::Operation)?;
    let handle = sent.handle(Member::Handle)?;
    let rights = if sent.has(Member::Rights) {
        sent.rights(Member::Rights)?
    } else {
        SAME_RIGHTS
    };
    Ok(Disposition {
        is_duplicate,
        handle,
        rights,
    })
}

/// Appends a disposition.
fn push_disposition(
    dispositions: &mut Vec<Disposition>,
    disposition: Disposition,
) -> Result<(), Cause>
    ensures { OnOk result (dispositions.new.items ≡ dispositions.old.items ++ disposition ∷ []) }
{
    match dispositions.push(disposition) {
        Ok(()) => Ok(()),
        Err(_) => Err(Cause::OutOfMemory),
    }
}

/// The calls that make the handles that are sent out of these, in their order.
pub(crate) fn copies_of(alloc: Global, dispositions: &[Disposition]) -> Result<Vec<PartCall>, Cause>
    ensures { IfOk result (λ parts. parts.items ≡ copies_of dispositions.now) }
{
    let mut parts = Vec::new(alloc);
    for place in 0..dispositions.len() {
        push_copy(&mut parts, place, dispositions[place])?;
    }
    Ok(parts)
}

/// Appends the call that makes the handle that is sent. A handle that is sent as it is needs none.
fn push_copy(parts: &mut Vec<PartCall>, place: usize, disposition: Disposition) -> Result<(), Cause>
    ensures { OnOk result (parts.new.items ≡ parts.old.items ++ option_to_list (copy_of place disposition)) }
{
    let Disposition {
        is_duplicate,
        handle,
        rights,
    } = disposition;
    if is_duplicate {
        push_part(parts, Some(place), Call::HandleDuplicate { handle, rights })
    } else if rights == SAME_RIGHTS {
        Ok(())
    } else {
        push_part(parts, Some(place), Call::HandleReplace { handle, rights })
    }
}

/// The handles by the values that the process names.
pub(crate) fn sources_of(
    alloc: Global,
    dispositions: &[Disposition],
) -> Result<Vec<HandleValue>, Cause>
    ensures { IfOk result (λ handles. handles.items ≡ sources_of dispositions.now) }
{
    let mut handles = Vec::new(alloc);
    for place in 0..dispositions.len() {
        push_handle(&mut handles, dispositions[place].handle)?;
    }
    Ok(handles)
}
