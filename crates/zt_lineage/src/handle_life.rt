//! The life of a handle on a path.

ghost use Rattle.std.specs.Prelude.{◌≡◌, ◌⊎◌, ◌≤◌, ℕ, Ok, IfOk, IfErr, IfSome, OnOk, OnErr, ◌++◌, ◌<◌, length, drop, get_or};
ghost use Rattle.zt_rows.specs.declared.refusals.Refusal.TheVariants as refusal;
ghost use Rattle.zt_history.specs.HistoryRefusals.{moment_on};
ghost use Rattle.zt_history.specs.Timeline.{moved_to, IsPath};
ghost use Rattle.zt_history.specs.Tree.{end_of, parent_at, state_at};
ghost use Rattle.zt_lineage.specs.Lives.{arrival, comings, end_at, held_or, last_held, life_from, life_on, onward, origin_at, step_of, target_at, IsRefused};

use crate::endings::{Ending, ending_by, lost, target};
use crate::limits::limits;
use crate::origins::{Origin, origin_of};
use crate::places::{Place, held_at};
use std::alloc::{AllocError, Global};
use zt_history::History;
use zt_rows::{Held, Items, Moment, Refusal};

/// A step of a handle's life: at this moment it came to the place, with these rights, from there. A step at moment 0, whose
/// origin is `Stayed`, was there from the opening.
#[derive(Clone, Copy)]
pub struct LifeStep {
    pub moment: Moment,
    pub place: Place,
    pub held: Held,
    pub origin: Origin,
}

/// The steps of a handle, oldest first, and at which moment and how it ended, if it did. Else it is where the last step
/// brought it.
#[derive(Drop)]
pub struct HandleLife {
    pub steps: Items<LifeStep>,
    pub ended: Option<(Moment, Ending)>,
}

/// The life of what the place held last on the path to `at`.
///
/// The history goes back along the path and forth again to `at`, at the cost of the path's records. It does so also after
/// an allocation failure on the way.
///
/// Errors: `NoMoment` if `at` is beyond the last moment, `NoObject` if the place never held a handle on the path,
/// `OutOfMemory` if an allocation fails.
pub fn life(
    alloc: Global,
    history: &mut History,
    at: Moment,
    place: Place,
) -> Result<HandleLife, Refusal>
    ensures ok { IfOk result (λ life. life_on history.old.tree at place ≡ Ok life) }
    ensures refused { IfErr result (IsRefused (life_on history.old.tree at place)) }
    ensures moment { IfErr result (λ refusal. IfErr (moment_on history.old.tree at) (λ reason. refusal ≡ reason)) }
    ensures moved { OnOk result (history.new ≡ moved_to history.old at) }
    ensures stands { OnErr result ((history.new ≡ history.old) ⊎ (history.new ≡ moved_to history.old at)) }
    ensures nowhere { IfErr (moment_on history.old.tree at) (λ _. history.new ≡ history.old) }
    ensures tree { OnErr result (history.new.tree ≡ history.old.tree) }
{
    let way = history.path(at)?;
    let Some((n, held)) = last_held(history, way.as_slice(), &place) else {
        history.along(way.as_slice());
        return Err(Refusal::NoObject);
    };
    let life = life_along(alloc, history, way.as_slice(), n, &place, &held)?;
    Ok(life)
}

/// The number of the first moments of the path up to the last one behind which the place holds a handle, with what it
/// holds there.
fn last_held(history: &mut History, way: &[Moment], place: &Place) -> Option<(usize, Held)>
    requires { IsPath history.old.tree.made way.now }
    ensures held { result ≡ last_held history.old.tree.made way.now (length way.now) place.now }
    ensures within { IfSome result (λ w. w.0 ≤ length way.now) }
    ensures tree { history.new.tree ≡ history.old.tree }
{
    limits(history);
    for n in (0..way.len()).rev() {
        history.along(&way[..n + 1]);
        if let Some(held) = held_at(history.store(), place) {
            return Some((n + 1, held));
        }
    }
    history.along(&way[..0]);
    match held_at(history.store(), place) {
        Some(held) => Some((0, held)),
        None => None,
    }
}

/// The life of what the place holds behind the first moments of the path. The history goes along the path, also after an
/// allocation failure.
fn life_along(
    alloc: Global,
    history: &mut History,
    way: &[Moment],
    n: usize,
    place: &Place,
    held: &Held,
) -> Result<HandleLife, AllocError>
    requires path { IsPath history.old.tree.made way.now }
    requires within { n ≤ length way.now }
    ensures ok { IfOk result (λ life. life ≡ life_from history.old.tree.made way.now place.now (n, held.now)) }
    ensures moved { history.new ≡ moved_to history.old (end_of way.now) }
{
    let life = life_found(alloc, history, way, n, place, held);
    history.along(way);
    life
}

/// The life of what the place holds behind the first moments of the path.
fn life_found(
    alloc: Global,
    history: &mut History,
    way: &[Moment],
    n: usize,
    place: &Place,
    held: &Held,
) -> Result<HandleLife, AllocError>
    requires path { IsPath history.old.tree.made way.now }
    requires within { n ≤ length way.now }
    ensures ok { IfOk result (λ life. life ≡ life_from history.old.tree.made way.now place.now (n, held.now)) }
    ensures tree { history.new.tree ≡ history.old.tree }
{
    let mut steps = comings(alloc, history, way, n, place, held)?;
    steps.reverse();
    let ended = push_onward(&mut steps, history, way, n, place)?;
    let steps = Items::new(steps);
    Ok(HandleLife { steps, ended })
}

/// The steps along the first moments of the path by which the place came to hold this, the latest first.
fn comings(
    alloc: Global,
    history: &mut History,
    way: &[Moment],
    n: usize,
    place: &Place,
    held: &Held,
) -> Result<Vec<LifeStep>, AllocError>
    requires path { IsPath history.old.tree.made way.now }
    requires within { n ≤ length way.now }
    ensures ok { IfOk result (λ list. list.items ≡ comings history.old.tree.made way.now n place.now held.now) }
    ensures tree { history.new.tree ≡ history.old.tree }
{
    limits(history);
    let mut list = Vec::new(alloc);
    let mut place = *place;
    let mut held = *held;
    for n in (0..n).rev() {
        let moment = way[n];
        history.along(&way[..n]);
        let origin = origin_at(history, moment, &place);
        match &origin {
            Origin::Stayed => {}
            Origin::Made => {
                list.push(step_of(moment, &place, &held, &origin))?;
                return Ok(list);
            }
            Origin::From(other) => {
                list.push(step_of(moment, &place, &held, &origin))?;
                let before = held_at(history.store(), other);
                held = held_or(&held, before);
                place = *other;
            }
        }
    }
    let moment = Moment(0);
    let origin = Origin::Stayed;
    list.push(step_of(moment, &place, &held, &origin))?;
    Ok(list)
}

/// Where what the place holds behind the moment came from. The history stands at the moment's parent.
pub fn origin_at(history: &History, moment: Moment, place: &Place) -> Origin
    requires { history.now.position ≡ parent_at history.now.tree.made moment }
    ensures { result ≡ origin_at history.now.tree.made moment place.now }
{
    match history.call_of(moment) {
        Some((process, call)) => origin_of(history.store(), process, call, place),
        None => Origin::Stayed,
    }
}

/// What another place held, if it held a handle.
fn held_or(held: &Held, other: Option<Held>) -> Held
    ensures { result ≡ held_or held.now other }
{
    match other {
        Some(other) => other,
        None => *held,
    }
}

/// A step of a handle's life.
fn step_of(moment: Moment, place: &Place, held: &Held, origin: &Origin) -> LifeStep
    ensures { result ≡ step_of moment place.now held.now origin.now }
{
    LifeStep {
        moment,
        place: *place,
        held: *held,
        origin: *origin,
    }
}

/// Appends the steps from the place on, along the moments of the path from this one on, and returns at which moment and
/// how the handle ended, if it did.
fn push_onward(
    steps: &mut Vec<LifeStep>,
    history: &mut History,
    way: &[Moment],
    n: usize,
    place: &Place,
) -> Result<Option<(Moment, Ending)>, AllocError>
    requires path { IsPath history.old.tree.made way.now }
    requires within { n ≤ length way.now }
    ensures steps { OnOk result (steps.new.items ≡ steps.old.items ++ (onward history.old.tree.made (drop n way.now) place.now).steps) }
    ensures ended { IfOk result (λ ended. ended ≡ (onward history.old.tree.made (drop n way.now) place.now).ended) }
    ensures tree { history.new.tree ≡ history.old.tree }
{
    limits(history);
    let mut place = *place;
    history.along(&way[..n]);
    for n in n..way.len() {
        let moment = way[n];
        let to = target_at(history, moment, &place);
        let how = end_at(history, moment, &place);
        history.along(&way[..n + 1]);
        if held_at(history.store(), &place).is_none() {
            match arrival(history, &to) {
                Some((other, held)) => {
                    let origin = Origin::From(place);
                    steps.push(step_of(moment, &other, &held, &origin))?;
                    place = other;
                }
                None => return Ok(Some((moment, how))),
            }
        }
    }
    Ok(None)
}

/// Where what the place held goes by the moment's call. The history stands at the moment's parent.
pub fn target_at(history: &History, moment: Moment, place: &Place) -> Option<Place>
    requires { history.now.position ≡ parent_at history.now.tree.made moment }
    ensures { result ≡ target_at history.now.tree.made moment place.now }
{
    match history.call_of(moment) {
        Some((process, call)) => match history.reply_of(moment) {
            Some(reply) => target(history.store(), process, call, reply, place),
            None => None,
        },
        None => None,
    }
}

/// How what the place held ends by the moment's call. The history stands at the moment's parent.
pub fn end_at(history: &History, moment: Moment, place: &Place) -> Ending
    requires { history.now.position ≡ parent_at history.now.tree.made moment }
    ensures { result ≡ end_at history.now.tree.made moment place.now }
{
    match history.call_of(moment) {
        Some((process, call)) => match history.reply_of(moment) {
            Some(reply) => ending_by(history.store(), process, call, reply, place),
            None => lost(place),
        },
        None => lost(place),
    }
}

/// The place with what it holds at the position, if it holds a handle.
fn arrival(history: &History, place: &Option<Place>) -> Option<(Place, Held)>
    ensures { result ≡ arrival (state_at history.now.tree.made history.now.position) place.now }
{
    match place {
        Some(place) => match held_at(history.store(), place) {
            Some(held) => Some((*place, held)),
            None => None,
        },
        None => None,
    }
}
