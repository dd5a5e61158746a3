//! Puts the handles that named an object in the order of a tree: each below the one that it came from.

ghost use Rattle.std.specs.Prelude.{◌≡◌, ◌⊎◌, ◌<◌, ◌++◌, ◌∷◌, [], if◌then◌else◌, Option, None, Some, Ok, IfOk, IfErr, OnOk, OnErr};
ghost use Rattle.zt_rows.specs.declared.refusals.Refusal.TheVariants as refusal;
ghost use Rattle.zt_history.specs.HistoryRefusals.{moment_on};
ghost use Rattle.zt_history.specs.Timeline.{moved_to};
ghost use Rattle.zt_queries.specs.HappeningTimes.{IsRefusedWhen};
ghost use Rattle.zt_look.specs.HandleTree.{came_from, depth_in, level_below, lineage_on, top, tree_of};
ghost use Rattle.zt_look.specs.ProofsOnly.TreeLinks.{first_from, first_in, links_from, pending, source, steps_at, steps_left, visits};

use crate::object_handles::{Leaving, ObjectHandle, object_handles};
use std::alloc::{AllocError, Global};
use std::collections::BTreeMap;
use zt_history::History;
use zt_lineage::{Origin, Place};
use zt_rows::{Koid, Moment, Refusal};

/// A handle that named an object, and how often it was copied from the first handle on: a copy of the first has depth 1. A handle
/// that moves to another place keeps its depth.
#[derive(Clone, Copy)]
pub struct LineageStep {
    pub depth: u32,
    pub handle: ObjectHandle,
}

/// The number of the first handle that came from no other place, and of the first that came from each place.
#[derive(Drop)]
struct Firsts {
    root: Option<usize>,
    below: BTreeMap<Place, usize>,
}

/// The numbers of the first handle that came from this one, and of the next one that came from where this one came from.
#[derive(Clone, Copy)]
struct TreeLink {
    child: Option<usize>,
    next: Option<usize>,
}

/// The number of the first handle that came from no other place, and the links of each handle.
#[derive(Drop)]
struct TreeLinks {
    first: Option<usize>,
    links: Vec<TreeLink>,
}

/// The depth of the handles that came from one: of its copies, and one less of the place to which it moved, if it did.
#[derive(Clone, Copy)]
struct Level {
    copies: u32,
    heir: Option<Place>,
}

/// A handle that is still to be visited, with the level of those that came from where it came from.
#[derive(Clone, Copy)]
struct Pending {
    index: usize,
    level: Level,
}

/// The handles that named the object on the path to `at`, as a tree: each handle stands behind the one that it came from, a
/// copy one deeper. Those that came from one handle are in the order in which they came.
///
/// The history goes back along the path and forth again to `at`, at the cost of the path's records. It does so also after
/// an allocation failure on the way.
///
/// Errors: `NoMoment` if `at` is beyond the last moment, `NoObject` if the koid was not given out by `at`, `OutOfMemory` if
/// an allocation fails.
pub fn lineage(
    alloc: Global,
    history: &mut History,
    at: Moment,
    koid: Koid,
) -> Result<Vec<LineageStep>, Refusal>
    ensures ok { IfOk result (λ list. lineage_on history.old.tree at koid ≡ Ok list.items) }
    ensures refused { IfErr result (IsRefusedWhen (lineage_on history.old.tree at koid)) }
    ensures moment { IfErr result (λ refusal. IfErr (moment_on history.old.tree at) (λ reason. refusal ≡ reason)) }
    ensures moved { OnOk result (history.new ≡ moved_to history.old at) }
    ensures stands { OnErr result ((history.new ≡ history.old) ⊎ (history.new ≡ moved_to history.old at)) }
    ensures nowhere { IfErr (moment_on history.old.tree at) (λ _. history.new ≡ history.old) }
    ensures unknown { IfErr result (λ why. why ≡ refusal.NoObject → history.new ≡ moved_to history.old at) }
    ensures tree { OnErr result (history.new.tree ≡ history.old.tree) }
{
    let list = object_handles(alloc, history, at, koid)?;
    let steps = tree_of(alloc, list.as_slice())?;
    Ok(steps)
}

/// The handles in the order of their tree.
fn tree_of(alloc: Global, list: &[ObjectHandle]) -> Result<Vec<LineageStep>, AllocError>
    ensures { IfOk result (λ steps. steps.items ≡ tree_of list.now) }
{
    let links = links_of(alloc, list)?;
    let steps = walk(alloc, list, &links)?;
    Ok(steps)
}

/// The links of the handles.
fn links_of(alloc: Global, list: &[ObjectHandle]) -> Result<TreeLinks, AllocError>
    ensures first { IfOk result (λ links. links.first ≡ first_from None 0 list.now) }
    ensures links { IfOk result (λ links. links.links.items ≡ links_from 0 list.now) }
{
    let mut firsts = Firsts {
        root: None,
        below: BTreeMap::new(alloc),
    };
    let mut links = Vec::new(alloc);
    for index in (0..list.len()).rev() {
        let handle = &list[index];
        links.push(link_of(&firsts, handle))?;
        put_first(&mut firsts, &handle.origin, index)?;
    }
    links.reverse();
    Ok(TreeLinks {
        first: firsts.root,
        links,
    })
}

/// The links of a handle to those behind it.
fn link_of(firsts: &Firsts, handle: &ObjectHandle) -> TreeLink
    ensures child { result.child ≡ first_in firsts.now (Some handle.now.place) }
    ensures next { result.next ≡ first_in firsts.now (source handle.now.origin) }
{
    let next = match &handle.origin {
        Origin::From(other) => firsts.below.get(other).copied(),
        _ => firsts.root,
    };
    TreeLink {
        child: firsts.below.get(&handle.place).copied(),
        next,
    }
}

/// Notes the number of a handle of this origin as that of the first one.
fn put_first(firsts: &mut Firsts, origin: &Origin, index: usize) -> Result<(), AllocError>
    ensures { OnOk result ((from : Option Place) → first_in firsts.new from ≡ (if came_from from origin.now then Some index else first_in firsts.old from)) }
{
    match origin {
        Origin::From(other) => {
            firsts.below.insert(*other, index)?;
            Ok(())
        }
        _ => {
            firsts.root = Some(index);
            Ok(())
        }
    }
}

/// The handles in the order of the tree that has these links.
fn walk(
    alloc: Global,
    list: &[ObjectHandle],
    links: &TreeLinks,
) -> Result<Vec<LineageStep>, AllocError>
    requires first { links.now.first ≡ first_from None 0 list.now }
    requires links { links.now.links.items ≡ links_from 0 list.now }
    ensures { IfOk result (λ steps. steps.items ≡ tree_of list.now) }
{
    let mut left = Vec::new(alloc);
    let mut steps = Vec::new(alloc);
    push_found(&mut left, links.first, top())?;
    while let Some(next) = left.pop() {
        visit(&mut steps, &mut left, list, links.links.as_slice(), next)?;
    }
    Ok(steps)
}

/// Appends the step of a handle. Behind all that is left to visit, puts the next one that came from where this one came
/// from, and then the first one that came from this one.
fn visit(
    steps: &mut Vec<LineageStep>,
    left: &mut Vec<Pending>,
    list: &[ObjectHandle],
    links: &[TreeLink],
    next: Pending,
) -> Result<(), AllocError>
    requires { links.now ≡ links_from 0 list.now }
    ensures visited { OnOk result (steps.new.items ++ steps_left list.now left.new.items
        ≡ steps.old.items ++ steps_at list.now next ++ steps_left list.now left.old.items) }
    ensures less { OnOk result (visits list.now left.new.items < visits list.now (left.old.items ++ next ∷ [])) }
{
    match (list.get(next.index), links.get(next.index)) {
        (Some(handle), Some(link)) => {
            let depth = depth_in(&next.level, &handle.place);
            steps.push(LineageStep {
                depth,
                handle: *handle,
            })?;
            push_found(left, link.next, next.level)?;
            push_found(left, link.child, level_below(depth, handle))
        }
        _ => Ok(()),
    }
}

/// The level of handles that came from no other place.
fn top() -> Level
    ensures { result ≡ top }
{
    Level {
        copies: 0,
        heir: None,
    }
}

/// The level of what came from a handle at this depth.
fn level_below(depth: u32, handle: &ObjectHandle) -> Level
    ensures { result ≡ level_below depth handle.now }
{
    let heir = match handle.left {
        Some((_, Leaving::Moved(other))) => Some(other),
        _ => None,
    };
    Level {
        copies: depth.saturating_add(1),
        heir,
    }
}

/// The depth of a handle at this level: that of a copy, or one less at the place to which the handle above moved.
fn depth_in(level: &Level, place: &Place) -> u32
    ensures { result ≡ depth_in level.now place.now }
{
    match level.heir {
        Some(other) if other == *place => level.copies.saturating_sub(1),
        _ => level.copies,
    }
}

/// Appends the handle of this number, if there is one.
fn push_found(left: &mut Vec<Pending>, found: Option<usize>, level: Level) -> Result<(), AllocError>
    ensures { OnOk result (left.new.items ≡ left.old.items ++ pending found level) }
{
    match found {
        Some(index) => {
            left.push(Pending { index, level })?;
            Ok(())
        }
        None => Ok(()),
    }
}
