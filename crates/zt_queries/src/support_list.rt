//! Lists the supports of an object: the entries, message handles and live children that keep it.

ghost use Rattle.std.specs.Prelude.{◌≡◌, ◌==◌, ◌-◌, ◌++◌, ◌∷◌, [], Some, Ok, IfOk, IfErr, OnOk, length, if◌then◌else◌};
ghost use Rattle.std.specs.List.{cons_option, flat_map};
ghost use Rattle.zt_rows.specs.Change.{keys};
ghost use Rattle.zt_rows.specs.Reads.{object};
ghost use Rattle.zt_rows.specs.State.{row};
ghost use Rattle.zt_rows.specs.Support.{entry_support, child_support, message_supports, places, children, itself, supports};
ghost use Rattle.zt_history.specs.HistoryRefusals.{IsHistoryRefusal};
ghost use Rattle.zt_history.specs.Tree.{state_at};
ghost use Rattle.zt_queries.specs.FrozenCopy.{holders_on};
ghost use Rattle.zt_queries.specs.ProofsOnly.Holders.{AddsUpTo, rows_before, supports_by, supports_at, supports_in};

use crate::frozen::Frozen;
use std::alloc::{AllocError, Global};
use zt_history::History;
use zt_rows::{HandleValue, Held, Items, Koid, ObjectRow, Refusal, Row, RowKey, Support};
use zt_store::Store;

/// The rows from which supports come.
#[derive(Clone, Copy)]
enum Source {
    Entries,
    Messages,
    Children,
}

/// The supports of an object in a frozen copy: entries, handles in messages, live children, and then the object itself.
/// Each kind is in rising order. Errors: `NoObject` if there is no such object, `OutOfMemory` if an allocation fails.
pub fn holders(alloc: Global, frozen: &Frozen, koid: Koid) -> Result<Items<Support>, Refusal>
    ensures ok { IfOk result (λ found. holders_on frozen.now.state koid ≡ Ok found) }
    ensures refused { IfErr result (IsHistoryRefusal (holders_on frozen.now.state koid)) }
{
    match frozen.object(koid) {
        Some(held) => {
            let found = frozen_supports(alloc, frozen, koid, &held)?;
            Ok(Items::new(found))
        }
        None => Err(Refusal::NoObject),
    }
}

/// The supports of an object at a history's position, in the order of `holders`. Errors: `NoObject` if there is no such
/// object, `OutOfMemory` if an allocation fails.
pub fn holders_at(alloc: Global, history: &History, koid: Koid) -> Result<Items<Support>, Refusal>
    ensures ok { IfOk result (λ found. holders_on (state_at history.now.tree.made history.now.position) koid ≡ Ok found) }
    ensures refused { IfErr result (IsHistoryRefusal (holders_on (state_at history.now.tree.made history.now.position) koid)) }
{
    holders_in(alloc, history.store(), koid)
}

/// The supports of an object in a store, in the order of `holders`.
fn holders_in(alloc: Global, store: &Store, koid: Koid) -> Result<Items<Support>, Refusal>
    ensures ok { IfOk result (λ found. holders_on store.now.state koid ≡ Ok found) }
    ensures refused { IfErr result (IsHistoryRefusal (holders_on store.now.state koid)) }
{
    let Some(held) = store.object(koid) else {
        return Err(Refusal::NoObject);
    };
    let found = supports_of(alloc, store, koid, &held)?;
    Ok(Items::new(found))
}

/// The supports of the object of this koid in a frozen copy. `found` is the object's row there.
fn frozen_supports(
    alloc: Global,
    frozen: &Frozen,
    koid: Koid,
    found: &ObjectRow,
) -> Result<Vec<Support>, AllocError>
    requires { object frozen.now.state koid ≡ Some found.now }
    ensures { IfOk result (λ list. list.items ≡ supports frozen.now.state koid) }
{
    let rows = frozen.rows();
    let mut list = Vec::new(alloc);
    add_listed(&mut list, rows, Source::Entries, koid)?;
    add_listed(&mut list, rows, Source::Messages, koid)?;
    add_listed_children(&mut list, rows, koid, found)?;
    add_itself(&mut list, koid, found)?;
    Ok(list)
}

/// Appends the live children of a live job, in the order of the rows.
#[tactic(auto, using(crate::proofs::HoldLaws::children_among))]
fn add_listed_children(
    list: &mut Vec<Support>,
    rows: &[(RowKey, Row)],
    koid: Koid,
    found: &ObjectRow,
) -> Result<(), AllocError>
    ensures { OnOk result (list.new.items ≡ list.old.items ++ children (Some found.now) koid rows.now) }
{
    if found.is_live_job() {
        add_listed(list, rows, Source::Children, koid)?;
    }
    Ok(())
}

/// Appends the supports of the object that come from one kind of rows, in the order of the rows.
fn add_listed(
    list: &mut Vec<Support>,
    rows: &[(RowKey, Row)],
    part: Source,
    koid: Koid,
) -> Result<(), AllocError>
    ensures { OnOk result (list.new.items ≡ list.old.items ++ flat_map (supports_by part koid) rows.now) }
{
    for (key, row) in rows {
        add_given(list, *key, row, part, koid)?;
    }
    Ok(())
}

/// The supports of the object of this koid, whose row is `found`. Each kind is searched until there are as many as the
/// store counts.
fn supports_of(
    alloc: Global,
    store: &Store,
    koid: Koid,
    found: &ObjectRow,
) -> Result<Vec<Support>, AllocError>
    requires { object store.now.state koid ≡ Some found.now }
    ensures { IfOk result (λ list. list.items ≡ supports store.now.state koid) }
{
    let others = store
        .count(koid)
        .saturating_sub(u64::from(found.keeps_itself(koid)));
    let named = without_children(others, store, koid, found);
    let mut list = Vec::new(alloc);
    add_supports(&mut list, store, Source::Entries, koid, named)?;
    add_supports(&mut list, store, Source::Messages, koid, named)?;
    add_children(&mut list, store, koid, found, others)?;
    add_itself(&mut list, koid, found)?;
    Ok(list)
}

/// This number without the live children that keep the object.
fn without_children(others: u64, store: &Store, koid: Koid, found: &ObjectRow) -> u64
    ensures { result ≡ others - length (children (Some found.now) koid store.now.state.rows) }
{
    if found.is_live_job() {
        others
            .saturating_sub(store.child_jobs(koid))
            .saturating_sub(store.child_processes(koid))
    } else {
        others
    }
}

/// The keys of the store, in their order.
pub(crate) fn keys_of(alloc: Global, store: &Store) -> Result<Vec<RowKey>, AllocError>
    ensures { IfOk result (λ list. list.items ≡ keys store.now.state) }
{
    let mut list = Vec::new(alloc);
    let mut next = store.after(None);
    while let Some(key) = next {
        let listed = key;
        list.push(listed)?;
        next = store.after(Some(key));
    }
    Ok(list)
}

/// Appends the live children of a live job, until the list has `most` items.
#[tactic(auto, using(crate::proofs::HoldLaws::children_in))]
fn add_children(
    list: &mut Vec<Support>,
    store: &Store,
    koid: Koid,
    found: &ObjectRow,
    most: u64,
) -> Result<(), AllocError>
    ensures { OnOk result (AddsUpTo list.old.items (children (Some found.now) koid store.now.state.rows) most list.new.items) }
{
    if found.is_live_job() {
        add_supports(list, store, Source::Children, koid, most)?;
    }
    Ok(())
}

/// Appends the object itself, if it keeps itself.
fn add_itself(list: &mut Vec<Support>, koid: Koid, found: &ObjectRow) -> Result<(), AllocError>
    ensures { OnOk result (list.new.items ≡ list.old.items ++ itself (Some found.now) koid) }
{
    if found.keeps_itself(koid) {
        list.push(Support::Itself)?;
    }
    Ok(())
}

/// The key behind which the rows begin that may give supports of this kind. The rows of one kind of key stand together:
/// entries behind objects, and messages behind entries.
fn rows_before(part: Source) -> Option<RowKey>
    ensures { result ≡ rows_before part }
{
    let last = Koid(u64::MAX);
    match part {
        Source::Entries => Some(RowKey::Object(last)),
        Source::Messages => Some(RowKey::Entry(last, HandleValue(u32::MAX))),
        Source::Children => None,
    }
}

/// Appends the supports that come from one kind of rows, in the order of the rows, until the list has `most` items.
/// Looks at no rows before those of this kind.
fn add_supports(
    list: &mut Vec<Support>,
    store: &Store,
    part: Source,
    koid: Koid,
    most: u64,
) -> Result<(), AllocError>
    ensures { OnOk result (AddsUpTo list.old.items (supports_in part koid store.now.state) most list.new.items) }
{
    let mut low = rows_before(part);
    'keys: while (list.len() as u64) < most {
        let Some(key) = store.after(low) else {
            return Ok(());
        };
        let asked = key;
        add_under(list, store, asked, part, koid)?;
        low = Some(key);
    }
    Ok(())
}

/// Appends the supports that the row under the key gives.
fn add_under(
    list: &mut Vec<Support>,
    store: &Store,
    key: RowKey,
    part: Source,
    koid: Koid,
) -> Result<(), AllocError>
    ensures { OnOk result (list.new.items ≡ list.old.items ++ supports_at part koid key (row store.now.state key)) }
{
    let asked = key;
    match store.row(asked) {
        Some(found) => add_given(list, key, found, part, koid),
        None => Ok(()),
    }
}

/// Appends the supports that the row gives.
fn add_given(
    list: &mut Vec<Support>,
    key: RowKey,
    found: &Row,
    part: Source,
    koid: Koid,
) -> Result<(), AllocError>
    ensures { OnOk result (list.new.items ≡ list.old.items ++ supports_by part koid (key, found.now)) }
{
    match part {
        Source::Entries => push_if(list, entry_support(koid, key, found)),
        Source::Messages => add_places(list, koid, key, found),
        Source::Children => push_if(list, child_support(koid, key, found)),
    }
}

/// Appends the support, if there is one.
fn push_if(list: &mut Vec<Support>, support: Option<Support>) -> Result<(), AllocError>
    ensures { OnOk result (list.new.items ≡ list.old.items ++ cons_option support []) }
{
    if let Some(support) = support {
        list.push(support)?;
    }
    Ok(())
}

/// The support by the row, if it is an entry that names the object.
fn entry_support(koid: Koid, key: RowKey, found: &Row) -> Option<Support>
    ensures { result ≡ entry_support koid (key, found.now) }
{
    let RowKey::Entry(process, handle) = key else {
        return None;
    };
    match found {
        Row::Entry(held) => {
            if held.koid == koid {
                Some(Support::Entry(process, handle))
            } else {
                None
            }
        }
        _ => None,
    }
}

/// The support by the row, if it is a live job or process whose parent is the object.
fn child_support(koid: Koid, key: RowKey, found: &Row) -> Option<Support>
    ensures { result ≡ child_support koid (key, found.now) }
{
    let RowKey::Object(child) = key else {
        return None;
    };
    match found {
        Row::Object(task) => {
            if task.is_live_task() && task.link == koid {
                Some(Support::Child(child))
            } else {
                None
            }
        }
        _ => None,
    }
}

/// If the row is a message, appends the places of its handles that name the object.
fn add_places(
    list: &mut Vec<Support>,
    koid: Koid,
    key: RowKey,
    found: &Row,
) -> Result<(), AllocError>
    ensures { OnOk result (list.new.items ≡ list.old.items ++ message_supports koid (key, found.now)) }
{
    let RowKey::Msg(endpoint, number) = key else {
        return Ok(());
    };
    match found {
        Row::Msg(message) => {
            let handles = message.handles().as_slice();
            add_places_in(list, koid, endpoint, number, handles)
        }
        _ => Ok(()),
    }
}

/// Appends the places of the handles that name the object.
fn add_places_in(
    list: &mut Vec<Support>,
    koid: Koid,
    endpoint: Koid,
    number: u64,
    handles: &[Held],
) -> Result<(), AllocError>
    ensures { OnOk result (list.new.items ≡ list.old.items ++ places koid endpoint number 0 handles.now) }
{
    for i in 0..handles.len() {
        add_place(
            list,
            koid,
            Support::Message(endpoint, number, i as u64),
            handles[i],
        )?;
    }
    Ok(())
}

/// Appends the place of a handle, if the handle names the object.
fn add_place(
    list: &mut Vec<Support>,
    koid: Koid,
    place: Support,
    held: Held,
) -> Result<(), AllocError>
    ensures { OnOk result (list.new.items ≡ list.old.items ++ (if held.koid == koid then place ∷ [] else [])) }
{
    if held.koid == koid {
        list.push(place)?;
    }
    Ok(())
}
