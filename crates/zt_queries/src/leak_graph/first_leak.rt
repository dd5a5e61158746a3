//! Finds the moment at which an object was leaked. `leaked_since` goes through these cases in this order, and the first
//! one that tells gives the answer:
//!
//! 1. The object went, and the record of the call by which it went shows that an entry reached it (`never_leaked.rt`,
//!    `record_reach.rt`). It was never leaked.
//! 2. It is there at the position, and is the root job or a process that runs, or an entry names it. The entry was put
//!    by the call that made the object, or by the last one that took a name of it away (`never_leaked.rt`). It was
//!    never leaked.
//! 3. It is there at the position, is no job that has ended, and all its names stand in messages that nothing reaches
//!    (`name_search.rt`). It was leaked by the last call that took one of these names away, or ended what kept it. If
//!    an entry or a running process turns up instead, the object was never leaked.
//! 4. A sign shows that the object was not leaked where it is there last (`unleaked_signs.rt`): its row, an entry at
//!    the position, or a record of the path. It was never leaked.
//! 5. In all other cases a graph tells (`graph.rt`). The records of the path move it (`moved_graph.rt`), and it is
//!    searched for what is reached (`reachability.rt`, `leak_list.rt`). The moment is found by halving, here.

ghost use Rattle.std.specs.Prelude.{◌≡◌, ◌==◌, ◌&&◌, ◌||◌, ◌≤◌, ◌<◌, ◌+◌, true, false, Some, IfOk, IfErr, Ok, None, filter, length};
ghost use Rattle.std.specs.List.{last_or};
ghost use Rattle.zt_rows.specs.declared.calls.Happening.TheVariants as happening;
ghost use Rattle.zt_rows.specs.Reads.{is_process};
ghost use Rattle.zt_rows.specs.State.{State};
ghost use Rattle.zt_rows.specs.Support.{root_job};
ghost use Rattle.zt_queries.specs.Happenings.{leaked};
ghost use Rattle.zt_queries.specs.Leaks.{is_leaked};
ghost use Rattle.zt_queries.specs.HappeningTimes.{IsRefusedWhen, at_moment, happens, last_on, when_on};
ghost use Rattle.zt_queries.specs.LaterMoments.{TellsWhenLeaked};
ghost use Rattle.zt_queries.specs.ProofsOnly.RowHappenings.{AreWays};
ghost use Rattle.zt_queries.specs.ProofsOnly.LeakGraph.{IsGraph};
ghost use Rattle.zt_queries.specs.ProofsOnly.FirstLeak.{state_after, IsLast, IsFirstLeak};

use crate::happening_times::is_known;
use crate::leak_graph::graph::{Graph, GraphNode, copy_of, node_of};
use crate::leak_graph::leak_list::{is_leaked, reachability_of};
use crate::leak_graph::moved_graph::{go_back, go_forth, graph_at};
use crate::leak_graph::name_search::{LeakTime, told_by_names};
use crate::leak_graph::never_leaked::is_never_leaked;
use crate::leak_graph::reachability::entered;
use crate::leak_graph::unleaked_signs::{is_unleaked_at, last_there, unleaked_before};
use crate::path_pair::{PathPair, ways_to};
use std::alloc::{AllocError, Global};
use zt_bits::Kind;
use zt_history::History;
use zt_rows::{Koid, Moment, ROOT_JOB, Refusal};

/// The moment on the path to `at` at which the object was leaked, if it was.
///
/// The object is leaked at no earlier moment of the path. From this moment on no process reaches it, and it is leaked
/// or gone. If the answer is none, it is leaked at no moment up to `at`.
///
/// Errors: `NoObject` if the koid was not given out by `at`, `OutOfMemory` if an allocation fails.
///
/// The cost depends on what tells:
///
/// - An object that went and is no job or process was never leaked, if the call took away an entry that names it. Nor
///   was one that an entry at the position names, if the entry was put when the object was made or last released. Both
///   cost a look at the notes of the object and at the rows of up to two calls. They never allocate.
/// - An object may go together with the endpoint of a message that names it. This endpoint may go with the next one, up
///   to an entry. Then the object was never leaked either. This takes up to 16 passes over the rows of the call, and
///   never allocates.
/// - An object at the position may be neither a job nor a running process. Then the notes tell when it and the
///   endpoints above it were released. These moments lead to the messages that name them. This costs a look at each of
///   the moments, and memory for the endpoints and messages. If an entry turns up among the names, it also costs a walk
///   over the entries up to the first such one.
/// - A live job is treated in the same way. The notes also tell when it and the live jobs below it lost their children.
/// - All other cases need the lists of two paths. Examples are an object that is gone or was released very often, a job
///   that has ended, and a moment other than the position. The object's own row or a record may tell, from the last
///   moment at which the object is there.
/// - If they do not tell, a graph does, which the records of the path move without a store. A leaked object stays
///   leaked. So each look at what is reached halves the moments that are left. This takes memory for two such graphs.
pub fn leaked_since(
    alloc: Global,
    history: &History,
    at: Moment,
    koid: Koid,
) -> Result<Option<Moment>, Refusal>
    requires there { at ≤ length history.now.tree.made }
    ensures ok { IfOk result (λ found. when_on happening.Leaked history.now.tree.made at koid ≡ Ok found) }
    ensures tells { IfOk result (TellsWhenLeaked history.now.tree.made at koid) }
    ensures refused { IfErr result (IsRefusedWhen (when_on happening.Leaked history.now.tree.made at koid)) }
{
    if !is_known(history, at, koid) {
        return Err(Refusal::NoObject);
    }
    if is_never_leaked(history, at, koid) {
        return Ok(None);
    }
    let told = told_by_names(alloc, history, at, koid)?;
    if let LeakTime::Known(found) = told {
        return Ok(found);
    }
    let found = searched_since(alloc, history, at, koid)?;
    Ok(found)
}

/// Finds the moment at which the object was leaked by the lists of two paths, and by a graph if no sign tells.
fn searched_since(
    alloc: Global,
    history: &History,
    at: Moment,
    koid: Koid,
) -> Result<Option<Moment>, Refusal>
    requires there { at ≤ length history.now.tree.made }
    ensures found { IfOk result (λ found. found ≡ last_on (happens happening.Leaked koid) history.now.tree.made at) }
    ensures refused { IfErr result (λ refusal. refusal ≡ Refusal.OutOfMemory) }
{
    let ways = ways_to(history, at)?;
    match last_leaked(alloc, history, &ways, koid) {
        Ok(found) => Ok(found),
        Err(_) => Err(Refusal::OutOfMemory),
    }
}

/// The last moment of the way at which the object was leaked.
fn last_leaked(
    alloc: Global,
    history: &History,
    ways: &PathPair,
    koid: Koid,
) -> Result<Option<Moment>, AllocError>
    requires { AreWays history.now ways.now.way.items ways.now.here.items ways.now.shared }
    ensures { IfOk result (λ found. found ≡ last_or None (filter (at_moment (leaked koid) history.now.tree.made) ways.now.way.items)) }
{
    let last = last_there(history, ways, koid);
    let sure = last.sure;
    if sure {
        return Ok(None);
    }
    if last.place > ways.shared {
        leaked_beyond(alloc, history, ways, koid, last.place)
    } else {
        leaked_within(alloc, history, ways, koid, last.place)
    }
}

/// The last moment of the way at which the object was leaked, if the object is there last at a place that both paths
/// share.
fn leaked_within(
    alloc: Global,
    history: &History,
    ways: &PathPair,
    koid: Koid,
    place: usize,
) -> Result<Option<Moment>, AllocError>
    requires ways { AreWays history.now ways.now.way.items ways.now.here.items ways.now.shared }
    requires last { IsLast history.now.tree.made ways.now.way.items koid place }
    requires shared { place ≤ ways.now.shared }
    ensures { IfOk result (λ found. found ≡ last_or None (filter (at_moment (leaked koid) history.now.tree.made) ways.now.way.items)) }
{
    if is_unleaked_at(history, ways, koid, place) {
        return Ok(None);
    }
    let graph = graph_at(alloc, history, ways, place)?;
    let leaks = leaked_in(alloc, &graph, koid)?;
    if !leaks {
        return Ok(None);
    }
    let moment = first_leak_within(alloc, history, ways, koid, graph, place)?;
    Ok(Some(moment))
}

/// The last moment of the way at which the object was leaked, if the object is there last at a place beyond the shared
/// ones.
fn leaked_beyond(
    alloc: Global,
    history: &History,
    ways: &PathPair,
    koid: Koid,
    place: usize,
) -> Result<Option<Moment>, AllocError>
    requires ways { AreWays history.now ways.now.way.items ways.now.here.items ways.now.shared }
    requires last { IsLast history.now.tree.made ways.now.way.items koid place }
    requires beyond { ways.now.shared < place }
    ensures { IfOk result (λ found. found ≡ last_or None (filter (at_moment (leaked koid) history.now.tree.made) ways.now.way.items)) }
{
    let fork = graph_at(alloc, history, ways, ways.shared)?;
    let early = leaked_in(alloc, &fork, koid)?;
    if early {
        let moment = first_leak_within(alloc, history, ways, koid, fork, ways.shared)?;
        return Ok(Some(moment));
    }
    let late = leaked_forth(alloc, history, ways, koid, &fork, ways.shared, place)?;
    if !late {
        return Ok(None);
    }
    let first_leak = first_leak_forth(alloc, history, ways, koid, fork, place)?;
    Ok(Some(ways.way[first_leak]))
}

/// The moment at which the object was leaked, if it is leaked at this place, which both paths share. `graph` is the
/// graph of the place. Most objects are leaked by the call behind the last sign that they are not, so that call is
/// tried first.
fn first_leak_within(
    alloc: Global,
    history: &History,
    ways: &PathPair,
    koid: Koid,
    graph: Graph,
    place: usize,
) -> Result<Moment, AllocError>
    requires ways { AreWays history.now ways.now.way.items ways.now.here.items ways.now.shared }
    requires shared { place ≤ ways.now.shared }
    requires drawn { IsGraph graph (state_after history.now.tree.made ways.now.way.items place) }
    requires leaked { is_leaked (state_after history.now.tree.made ways.now.way.items place) koid ≡ true }
    ensures { IfOk result (λ moment. Some moment ≡ last_or None (filter (at_moment (leaked koid) history.now.tree.made) ways.now.way.items)) }
{
    let low = unleaked_before(history, ways, koid, place);
    let soon = leaked_back(alloc, history, ways, koid, &graph, place, low + 1)?;
    if soon {
        return Ok(ways.way[low]);
    }
    let first_leak = first_leak_back(alloc, history, ways, koid, graph, low + 1, place)?;
    Ok(ways.way[first_leak])
}

/// The place behind which the object is leaked. It is not leaked at the low place, and it is leaked at the high one.
/// `graph` is the graph of the high place.
fn first_leak_back(
    alloc: Global,
    history: &History,
    ways: &PathPair,
    koid: Koid,
    graph: Graph,
    low: usize,
    high: usize,
) -> Result<usize, AllocError>
    requires ways { AreWays history.now ways.now.way.items ways.now.here.items ways.now.shared }
    requires shared { high ≤ ways.now.shared }
    requires order { low < high }
    requires drawn { IsGraph graph (state_after history.now.tree.made ways.now.way.items high) }
    requires before { is_leaked (state_after history.now.tree.made ways.now.way.items low) koid ≡ false }
    requires after { is_leaked (state_after history.now.tree.made ways.now.way.items high) koid ≡ true }
    ensures { IfOk result (λ first_leak. IsFirstLeak history.now.tree.made ways.now.way.items koid first_leak) }
{
    let mut graph = graph;
    let (mut below, mut above) = (low, high);
    while above - below > 1 {
        let middle = between(below, above);
        let mut other = copy_of(alloc, &graph)?;
        go_back(alloc, &mut other, history, ways, above, middle)?;
        let leaks = leaked_in(alloc, &other, koid)?;
        if leaks {
            graph = other;
            above = middle;
        } else {
            below = middle;
        }
    }
    Ok(below)
}

/// The place behind which the object is leaked, beyond the places that both paths share. `graph` is the graph of the
/// last shared place, at which it is not leaked. It is leaked at the high place.
fn first_leak_forth(
    alloc: Global,
    history: &History,
    ways: &PathPair,
    koid: Koid,
    graph: Graph,
    high: usize,
) -> Result<usize, AllocError>
    requires ways { AreWays history.now ways.now.way.items ways.now.here.items ways.now.shared }
    requires within { high ≤ length ways.now.way.items }
    requires order { ways.now.shared < high }
    requires drawn { IsGraph graph (state_after history.now.tree.made ways.now.way.items ways.now.shared) }
    requires before { is_leaked (state_after history.now.tree.made ways.now.way.items ways.now.shared) koid ≡ false }
    requires after { is_leaked (state_after history.now.tree.made ways.now.way.items high) koid ≡ true }
    ensures { IfOk result (λ first_leak. IsFirstLeak history.now.tree.made ways.now.way.items koid first_leak) }
{
    let mut graph = graph;
    let (mut below, mut above) = (ways.shared, high);
    while above - below > 1 {
        let middle = between(below, above);
        let mut other = copy_of(alloc, &graph)?;
        go_forth(alloc, &mut other, history, ways, below, middle)?;
        let leaks = leaked_in(alloc, &other, koid)?;
        if leaks {
            above = middle;
        } else {
            graph = other;
            below = middle;
        }
    }
    Ok(below)
}

/// The place in the middle between two places that are not next to each other.
fn between(low: usize, high: usize) -> usize
    requires apart { low + 1 < high }
    ensures above { low < result }
    ensures below { result < high }
{
    low + (high - low) / 2
}

/// Whether the object is leaked at an earlier place of those that both paths share. `graph` is the graph of a later
/// one.
fn leaked_back(
    alloc: Global,
    history: &History,
    ways: &PathPair,
    koid: Koid,
    graph: &Graph,
    from: usize,
    to: usize,
) -> Result<bool, AllocError>
    requires ways { AreWays history.now ways.now.way.items ways.now.here.items ways.now.shared }
    requires shared { from ≤ ways.now.shared }
    requires down { to ≤ from }
    requires drawn { IsGraph graph.now (state_after history.now.tree.made ways.now.way.items from) }
    ensures { IfOk result (λ leaked. leaked ≡ is_leaked (state_after history.now.tree.made ways.now.way.items to) koid) }
{
    let mut other = copy_of(alloc, graph)?;
    go_back(alloc, &mut other, history, ways, from, to)?;
    let leaks = leaked_in(alloc, &other, koid)?;
    Ok(leaks)
}

/// Whether the object is leaked at a later place beyond those that both paths share. `graph` is the graph of an earlier
/// one.
fn leaked_forth(
    alloc: Global,
    history: &History,
    ways: &PathPair,
    koid: Koid,
    graph: &Graph,
    from: usize,
    to: usize,
) -> Result<bool, AllocError>
    requires ways { AreWays history.now ways.now.way.items ways.now.here.items ways.now.shared }
    requires beyond { ways.now.shared ≤ from }
    requires up { from ≤ to }
    requires within { to ≤ length ways.now.way.items }
    requires drawn { IsGraph graph.now (state_after history.now.tree.made ways.now.way.items from) }
    ensures { IfOk result (λ leaked. leaked ≡ is_leaked (state_after history.now.tree.made ways.now.way.items to) koid) }
{
    let mut other = copy_of(alloc, graph)?;
    go_forth(alloc, &mut other, history, ways, from, to)?;
    let leaks = leaked_in(alloc, &other, koid)?;
    Ok(leaks)
}

/// Whether the object is leaked in the graph. If there is no such object, or it keeps itself, nothing is searched.
fn leaked_in(alloc: Global, graph: &Graph, koid: Koid) -> Result<bool, AllocError>
    ensures { IfOk result (λ leaked. (S : State) → IsGraph graph.now S → leaked ≡ is_leaked S koid) }
{
    match node_of(graph, koid) {
        Some(node) => {
            if keeps_itself(koid, &node) {
                Ok(false)
            } else {
                searched(alloc, graph, koid)
            }
        }
        None => Ok(false),
    }
}

/// Whether it is the root job, or a process that has not ended.
fn keeps_itself(koid: Koid, node: &GraphNode) -> bool
    ensures { result ≡ ((koid == root_job) || (is_process node.now.kind && node.now.live)) }
{
    koid == ROOT_JOB || (node.kind == Kind::Process && node.live)
}

/// Whether the object is leaked in the graph. It is not if an entry names it. Otherwise a search for what is reached
/// tells.
fn searched(alloc: Global, graph: &Graph, koid: Koid) -> Result<bool, AllocError>
    ensures { IfOk result (λ leaked. (S : State) → IsGraph graph.now S → leaked ≡ is_leaked S koid) }
{
    let named = entered(alloc, graph)?;
    if named.contains(&koid) {
        return Ok(false);
    }
    let found = reachability_of(alloc, graph)?;
    let leaked = is_leaked(graph, &found, koid);
    Ok(leaked)
}
