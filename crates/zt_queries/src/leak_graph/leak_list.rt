//! Lists the leaked objects of a state.

ghost use Rattle.std.specs.Prelude.{◌≡◌, ◌++◌, ◌∷◌, [], IfOk, IfErr, OnOk, Some};
ghost use Rattle.std.specs.List.{filter_map};
ghost use Rattle.std.specs.Ordering.{nat_cmp};
ghost use Rattle.std.specs.BTreeSet.{contains};
ghost use Rattle.zt_rows.specs.Change.{keys};
ghost use Rattle.zt_rows.specs.State.{State};
ghost use Rattle.zt_history.specs.Tree.{state_at};
ghost use Rattle.zt_queries.specs.Leaks.{leaks, is_leaked};
ghost use Rattle.zt_queries.specs.ProofsOnly.LeakGraph.{IsGraph, is_left, left_at};
ghost use Rattle.zt_queries.specs.ProofsOnly.ReachabilitySearch.{IsSurvey};

use crate::frozen::Frozen;
use crate::leak_graph::graph::{Graph, GraphNode, frozen_graph, graph_of, node_of};
use crate::leak_graph::reachability::{above_in, reached_in};
use crate::row_list::keys_among;
use crate::support_list::keys_of;
use std::alloc::{AllocError, Global};
use std::collections::BTreeSet;
use zt_bits::Kind;
use zt_history::History;
use zt_rows::{Items, Koid, ROOT_JOB, Refusal, RowKey};
use zt_store::Store;

/// All leaked objects of a frozen copy by rising koid, with their kinds. The time and memory grow with its objects,
/// handles and messages. Error: `OutOfMemory` if an allocation fails.
pub fn leaks(alloc: Global, frozen: &Frozen) -> Result<Items<(Koid, Kind)>, Refusal>
    ensures ok { IfOk result (λ found. found ≡ leaks frozen.now.state) }
    ensures refused { IfErr result (λ refusal. refusal ≡ Refusal.OutOfMemory) }
{
    Ok(frozen_leaks(alloc, frozen)?)
}

/// All leaked objects at a history's position by rising koid, with their kinds. Error: `OutOfMemory` if an allocation
/// fails.
pub fn leaks_at(alloc: Global, history: &History) -> Result<Items<(Koid, Kind)>, Refusal>
    ensures ok { IfOk result (λ found. found ≡ leaks (state_at history.now.tree.made history.now.position)) }
    ensures refused { IfErr result (λ refusal. refusal ≡ Refusal.OutOfMemory) }
{
    Ok(leaks_in(alloc, history.store())?)
}

/// All leaked objects of a store by rising koid, with their kinds.
fn leaks_in(alloc: Global, store: &Store) -> Result<Items<(Koid, Kind)>, AllocError>
    ensures { IfOk result (λ found. found ≡ leaks store.now.state) }
{
    let graph = graph_of(alloc, store)?;
    let row_keys = keys_of(alloc, store)?;
    leaks_drawn(alloc, &graph, row_keys.as_slice())
}

/// All leaked objects of a frozen copy by rising koid, with their kinds.
fn frozen_leaks(alloc: Global, frozen: &Frozen) -> Result<Items<(Koid, Kind)>, AllocError>
    ensures { IfOk result (λ found. found ≡ leaks frozen.now.state) }
{
    let graph = frozen_graph(alloc, frozen)?;
    let row_keys = keys_among(alloc, frozen.rows())?;
    leaks_drawn(alloc, &graph, row_keys.as_slice())
}

/// All leaked objects of a graph's state by rising koid, with their kinds. `row_keys` are the keys of that state, in
/// order.
fn leaks_drawn(
    alloc: Global,
    graph: &Graph,
    row_keys: &[RowKey],
) -> Result<Items<(Koid, Kind)>, AllocError>
    ensures { IfOk result (λ found. (S : State) → IsGraph graph.now S → row_keys.now ≡ keys S → found ≡ leaks S) }
{
    let found = reachability_of(alloc, graph)?;
    let list = listed(alloc, graph, &found, row_keys)?;
    Ok(Items::new(list))
}

/// The koids of what is reached, and of what is above a live process or above a job that is reached.
#[derive(Drop)]
pub(crate) struct Reachability {
    pub(crate) reached: BTreeSet<u64>,
    pub(crate) above: BTreeSet<u64>,
}

/// The koids of what is reached in a graph, and of what is above a live process or above a job that is reached.
pub(crate) fn reachability_of(alloc: Global, graph: &Graph) -> Result<Reachability, AllocError>
    ensures { IfOk result (λ found. (S : State) → IsGraph graph.now S → IsSurvey found S) }
{
    let reached = reached_in(alloc, graph)?;
    let above = above_in(alloc, graph, &reached)?;
    Ok(Reachability { reached, above })
}

/// Whether there is an object of the koid, and it is leaked.
pub(crate) fn is_leaked(graph: &Graph, found: &Reachability, koid: Koid) -> bool
    ensures { (S : State) → IsGraph graph.now S → IsSurvey found.now S → result ≡ is_leaked S koid }
{
    match node_of(graph, koid) {
        Some(node) => is_left(found, koid, &node),
        None => false,
    }
}

/// Whether the object is neither reached nor kept.
fn is_left(found: &Reachability, koid: Koid, node: &GraphNode) -> bool
    ensures { result ≡ is_left (contains nat_cmp found.now.reached) (contains nat_cmp found.now.above) koid (Some node.now) }
{
    let number = koid.0;
    let runs = node.kind == Kind::Process && node.live;
    let kept = koid == ROOT_JOB || runs || found.above.contains(&number);
    !(found.reached.contains(&number) || kept)
}

/// The leaked objects of these keys, with their kinds.
fn listed(
    alloc: Global,
    graph: &Graph,
    found: &Reachability,
    keys: &[RowKey],
) -> Result<Vec<(Koid, Kind)>, AllocError>
    ensures { IfOk result (λ list. list.items ≡ filter_map (left_at graph.now (contains nat_cmp found.now.reached) (contains nat_cmp found.now.above)) keys.now) }
{
    let mut list = Vec::new(alloc);
    for key in keys {
        push_left(&mut list, graph, found, *key)?;
    }
    Ok(list)
}

/// Appends the object of the key with its kind, if it is neither reached nor kept.
fn push_left(
    list: &mut Vec<(Koid, Kind)>,
    graph: &Graph,
    found: &Reachability,
    key: RowKey,
) -> Result<(), AllocError>
    ensures { OnOk result (list.new.items ≡ list.old.items ++ filter_map (left_at graph.now (contains nat_cmp found.now.reached) (contains nat_cmp found.now.above)) (key ∷ [])) }
{
    match left_at(graph, found, key) {
        Some(leak) => {
            list.push(leak)?;
            Ok(())
        }
        None => Ok(()),
    }
}

/// The object of the key with its kind, if it is neither reached nor kept.
fn left_at(graph: &Graph, found: &Reachability, key: RowKey) -> Option<(Koid, Kind)>
    ensures { result ≡ left_at graph.now (contains nat_cmp found.now.reached) (contains nat_cmp found.now.above) key }
{
    let RowKey::Object(koid) = key else {
        return None;
    };
    match node_of(graph, koid) {
        Some(node) => {
            if is_left(found, koid, &node) {
                Some((koid, node.kind))
            } else {
                None
            }
        }
        None => None,
    }
}
