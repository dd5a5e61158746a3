//! The search for what is unleaked. A set of koids grows by what rows name, and each koid that comes into it is looked
//! into once.

ghost use Rattle.std.specs.Prelude.{◌≡◌, ℕ, true, not, ◌&&◌, ◌||◌, OnOk, IfOk, []};
ghost use Rattle.std.specs.Ordering.{nat_cmp};
ghost use Rattle.std.specs.BTreeSet.{contains, IsOrdered};
ghost use Rattle.zt_rows.specs.declared.keys.RowKey.TheVariants as keys;
ghost use Rattle.zt_rows.specs.Keys.{first_number};
ghost use Rattle.zt_rows.specs.Consistent.{IsConsistent};
ghost use Rattle.zt_rows.specs.Reads.{message, object};
ghost use Rattle.zt_rows.specs.Tests.{among, next_at};
ghost use Rattle.zt_look.specs.ProofsOnly.UnleakedSearch.{Adds, AreBetween, AreThere, IsNamedAt, IsNamedBy, IsNamedHere, IsOpen, IsSearched, IsSeeded, WaitInside, begun_by, in_set, is_gone, is_gone_at, is_there_after, itself, koid_of, koids, koids_in, named_by, parents};

use std::alloc::{AllocError, Global};
use std::collections::BTreeSet;
use zt_rows::{Held, Koid, ObjectRow, RowKey};
use zt_store::{Record, Store};

/// The state of a search.
///
/// - `set` has the koids that are known to be unleaked.
/// - `waiting` has those of the set that were not looked into.
/// - `found` has the objects that the call leaked: those that it made, and those that came into the set and are there
///   after the call.
#[derive(Drop)]
pub(crate) struct Search {
    pub(crate) set: BTreeSet<u64>,
    pub(crate) waiting: Vec<Koid>,
    pub(crate) found: BTreeSet<u64>,
}

/// Goes over the rows under these keys, and adds what they name. What comes into the set waits.
pub(crate) fn search_from(
    search: &mut Search,
    kept: &Record,
    store: &Store,
    all: &[RowKey],
) -> Result<(), AllocError>
    ensures { OnOk result (IsSeeded store.now.state kept.now all.now search.old search.new) }
{
    for key in all {
        add_by(search, kept, store, *key)?;
    }
    Ok(())
}

/// Looks into what waits, and into what comes into the set then, until nothing waits.
pub(crate) fn go_on(search: &mut Search, kept: &Record, store: &Store) -> Result<(), AllocError>
    requires consistent { IsConsistent store.now.state }
    requires opened { IsOpen store.now.state search.old }
    requires inside { WaitInside search.old }
    requires there { AreThere store.now.state search.old }
    ensures searched { OnOk result (IsSearched store.now.state kept.now search.old search.new) }
    ensures ended { OnOk result (search.new.waiting.items ≡ []) }
{
    while let Some(koid) = search.waiting.pop() {
        look_into(search, kept, store, koid)?;
        in_order(search);
    }
    Ok(())
}

/// States what holds of the set: its koids rise.
fn in_order(search: &Search)
    ensures { IsOrdered nat_cmp search.now.set }
{
    search.set.len();
}

/// Adds what the row under the key names.
fn add_by(search: &mut Search, kept: &Record, store: &Store, key: RowKey) -> Result<(), AllocError>
    ensures { OnOk result (Adds (IsNamedHere store.now.state (in_set search.old) key) kept.now search.old search.new) }
{
    let (begun, asked) = (key, key);
    add_begun(search, kept, store, begun)?;
    let koid = owner(asked);
    if has(search, koid) {
        add_named(search, kept, store, key)?;
        Ok(())
    } else {
        Ok(())
    }
}

/// The number that the key begins with: the koid of the object that has the row or at which the message waits.
fn owner(key: RowKey) -> Koid
    ensures { result ≡ first_number key }
{
    match key {
        RowKey::Counters => Koid(0),
        RowKey::Object(koid) => koid,
        RowKey::Entry(process, _) => process,
        RowKey::Msg(endpoint, _) => endpoint,
        RowKey::Packet(port, _) => port,
        RowKey::Wait(number) => Koid(number),
    }
}

/// Whether the set has the koid.
fn has(search: &Search, koid: Koid) -> bool
    ensures { result ≡ in_set search.now koid }
{
    let number = koid.0;
    search.set.contains(&number)
}

/// Adds what the row under the key names in any case. For an entry, this is the object that the process holds. The root
/// job and a live process name themselves.
fn add_begun(
    search: &mut Search,
    kept: &Record,
    store: &Store,
    key: RowKey,
) -> Result<(), AllocError>
    ensures { OnOk result (Adds (λ x. among (begun_by store.now.state key) x ≡ true) kept.now search.old search.new) }
{
    match key {
        RowKey::Object(koid) => add_itself(search, kept, koid, store.object(koid)),
        RowKey::Entry(process, handle) => add_held(search, kept, store.entry(process, handle)),
        _ => Ok(()),
    }
}

/// Adds the koid, if the object keeps itself.
fn add_itself(
    search: &mut Search,
    kept: &Record,
    koid: Koid,
    object: Option<ObjectRow>,
) -> Result<(), AllocError>
    ensures { OnOk result (Adds (λ x. among (itself koid object) x ≡ true) kept.now search.old search.new) }
{
    match object {
        Some(object) => {
            if object.keeps_itself(koid) {
                add(search, kept, koid)
            } else {
                Ok(())
            }
        }
        None => Ok(()),
    }
}

/// Adds the object that the handle names, if there is a handle.
fn add_held(search: &mut Search, kept: &Record, held: Option<Held>) -> Result<(), AllocError>
    ensures { OnOk result (Adds (λ x. among (koid_of held) x ≡ true) kept.now search.old search.new) }
{
    match held {
        Some(held) => add(search, kept, held.koid),
        None => Ok(()),
    }
}

/// Adds what the row under the key names if its object is unleaked.
fn add_named(
    search: &mut Search,
    kept: &Record,
    store: &Store,
    key: RowKey,
) -> Result<(), AllocError>
    ensures { OnOk result (Adds (λ x. among (named_by store.now.state key) x ≡ true) kept.now search.old search.new) }
{
    match key {
        RowKey::Object(koid) => add_parent(search, kept, store.object(koid)),
        RowKey::Msg(endpoint, number) => add_message(search, kept, store, endpoint, number),
        _ => Ok(()),
    }
}

/// Adds the parent of a job or a process, if it has one.
fn add_parent(
    search: &mut Search,
    kept: &Record,
    object: Option<ObjectRow>,
) -> Result<(), AllocError>
    ensures { OnOk result (Adds (λ x. among (parents object) x ≡ true) kept.now search.old search.new) }
{
    match object {
        Some(object) => {
            if object.is_task() && object.link != Koid(0) {
                add(search, kept, object.link)
            } else {
                Ok(())
            }
        }
        None => Ok(()),
    }
}

/// Adds the objects that a message names, if there is one of this number at the endpoint.
fn add_message(
    search: &mut Search,
    kept: &Record,
    store: &Store,
    endpoint: Koid,
    number: u64,
) -> Result<(), AllocError>
    ensures { OnOk result (Adds (λ x. among (koids_in (message store.now.state endpoint number)) x ≡ true) kept.now search.old search.new) }
{
    match store.message(endpoint, number) {
        Some(message) => add_handles(search, kept, message.handles().as_slice()),
        None => Ok(()),
    }
}

/// Adds the objects that the handles name.
fn add_handles(search: &mut Search, kept: &Record, handles: &[Held]) -> Result<(), AllocError>
    ensures { OnOk result (Adds (λ x. among (koids handles.now) x ≡ true) kept.now search.old search.new) }
{
    for held in handles {
        add(search, kept, held.koid)?;
    }
    Ok(())
}

/// Adds what the rows of an object name: its parent, and the objects that the messages that wait at it name.
fn look_into(
    search: &mut Search,
    kept: &Record,
    store: &Store,
    koid: Koid,
) -> Result<(), AllocError>
    requires { IsConsistent store.now.state }
    ensures { OnOk result (Adds (IsNamedBy store.now.state koid) kept.now search.old search.new) }
{
    add_parent(search, kept, store.object(koid))?;
    add_messages(search, kept, store, koid)?;
    Ok(())
}

/// Adds the objects that the messages that wait at the endpoint name, at the cost of its queue.
fn add_messages(
    search: &mut Search,
    kept: &Record,
    store: &Store,
    endpoint: Koid,
) -> Result<(), AllocError>
    requires { IsConsistent store.now.state }
    ensures { OnOk result (Adds (IsNamedAt store.now.state endpoint) kept.now search.old search.new) }
{
    match store.first_message(endpoint) {
        Some(first) => {
            let next = next_at(store, endpoint);
            add_between(search, kept, store, endpoint, first, next)
        }
        None => Ok(()),
    }
}

/// The next number of what the object owns, or 0 if there is no object.
fn next_at(store: &Store, koid: Koid) -> u64
    ensures { result ≡ next_at store.now.state koid }
{
    match store.object(koid) {
        Some(object) => object.next,
        None => 0,
    }
}

/// Adds the objects that the endpoint's messages name whose numbers are from `first` on and below `next`.
fn add_between(
    search: &mut Search,
    kept: &Record,
    store: &Store,
    endpoint: Koid,
    first: u64,
    next: u64,
) -> Result<(), AllocError>
    requires { AreBetween store.now.state endpoint first next }
    ensures { OnOk result (Adds (IsNamedAt store.now.state endpoint) kept.now search.old search.new) }
{
    for number in first..next {
        add_message(search, kept, store, endpoint, number)?;
    }
    Ok(())
}

/// Adds the koid, unless the set has it. A new koid waits. It is also found, if its object is there after the call.
fn add(search: &mut Search, kept: &Record, koid: Koid) -> Result<(), AllocError>
    ensures { OnOk result (Adds (λ x. x ≡ koid) kept.now search.old search.new) }
{
    if search.set.insert(koid.0)? {
        search.waiting.push(koid)?;
        if is_there_after(kept, koid) {
            search.found.insert(koid.0)?;
        }
    }
    Ok(())
}

/// Whether the object, which was there before the call of the record, is there after it.
fn is_there_after(kept: &Record, koid: Koid) -> bool
    ensures { result ≡ is_there_after kept.now koid }
{
    match kept.held(RowKey::Object(koid)) {
        Some(None) => false,
        _ => true,
    }
}

/// The objects of these keys that are not there and that the set does not have.
pub(crate) fn unknown_gone(
    alloc: Global,
    set: &BTreeSet<u64>,
    store: &Store,
    all: &[RowKey],
) -> Result<BTreeSet<u64>, AllocError>
    ensures { IfOk result (λ found. (x : ℕ) → contains nat_cmp found x ≡ (not (contains nat_cmp set.now x) && is_gone store.now.state all.now x)) }
{
    let mut found = BTreeSet::new(alloc);
    for key in all {
        add_gone(&mut found, set, store, *key)?;
    }
    Ok(found)
}

/// Adds the object of the key, if it is not there and the set does not have it.
fn add_gone(
    found: &mut BTreeSet<u64>,
    set: &BTreeSet<u64>,
    store: &Store,
    key: RowKey,
) -> Result<(), AllocError>
    ensures { OnOk result ((x : ℕ) → contains nat_cmp found.new x ≡ (contains nat_cmp found.old x || (not (contains nat_cmp set.now x) && is_gone_at store.now.state key x))) }
{
    match key {
        RowKey::Object(koid) => {
            let (number, asked) = (koid.0, koid.0);
            if store.object(koid).is_none() && !set.contains(&asked) {
                found.insert(number)?;
            }
            Ok(())
        }
        _ => Ok(()),
    }
}

/// Takes the objects of these keys that are not there out of the set.
pub(crate) fn take_gone(set: &mut BTreeSet<u64>, store: &Store, all: &[RowKey])
    ensures { (x : ℕ) → contains nat_cmp set.new x ≡ (contains nat_cmp set.old x && not (is_gone store.now.state all.now x)) }
{
    for key in all {
        take_if_gone(set, store, *key);
    }
}

/// Takes the object of the key out of the set, if it is not there.
fn take_if_gone(set: &mut BTreeSet<u64>, store: &Store, key: RowKey)
    ensures { (x : ℕ) → contains nat_cmp set.new x ≡ (contains nat_cmp set.old x && not (is_gone_at store.now.state key x)) }
{
    match key {
        RowKey::Object(koid) => {
            if store.object(koid).is_none() {
                let number = koid.0;
                set.remove(&number);
            }
        }
        _ => {}
    }
}
