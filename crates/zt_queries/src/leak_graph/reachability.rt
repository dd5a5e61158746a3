//! Finds what is reached in a graph, by a worklist that looks at each name once. Also finds the koids above live
//! processes and above jobs that are reached.

ghost use Rattle.std.specs.Prelude.{◌≡◌, ◌==◌, ◌||◌, ◌+◌, ◌++◌, [], ℕ, List, IfOk, OnOk, if◌then◌else◌, length};
ghost use Rattle.std.specs.Ordering.{nat_cmp};
ghost use Rattle.std.specs.BTreeMap.{IsOrdered};
ghost use Rattle.std.specs.BTreeSet.{contains};
ghost use Rattle.zt_rows.specs.Keys.{rowkey_cmp};
ghost use Rattle.zt_rows.specs.State.{State};
ghost use Rattle.zt_rows.specs.Tests.{among};
ghost use Rattle.zt_queries.specs.Reachability.{reached};
ghost use Rattle.zt_queries.specs.Leaks.{is_above};
ghost use Rattle.zt_queries.specs.ProofsOnly.LeakGraph.{IsGraph, roots, root_at, names, names_at, waiting, weight, climbed, keeps, keeper_at, is_over};

use crate::leak_graph::graph::{Graph, GraphNode, GraphRow, link};
use std::alloc::{AllocError, Global};
use std::collections::{BTreeMap, BTreeSet};
use zt_bits::Kind;
use zt_rows::{Items, Koid, RowKey};

/// The koids that messages name, under the numbers of the endpoints at which the messages wait.
type Queues = BTreeMap<u64, Items<Koid>>;

/// The koids of all objects that are reached.
pub(crate) fn reached_in(alloc: Global, graph: &Graph) -> Result<BTreeSet<u64>, AllocError>
    ensures { IfOk result (λ set. (S : State) → IsGraph graph.now S → (x : ℕ) → contains nat_cmp set x ≡ among (reached S) x) }
{
    let mut found = entered(alloc, graph)?;
    let mut queues = queued(alloc, graph)?;
    let mut set = BTreeSet::new(alloc);
    while let Some(koid) = found.pop() {
        mark(&mut set, koid)?;
        look_into(&mut found, &mut queues, koid)?;
    }
    Ok(set)
}

/// The koids that the entries name.
pub(crate) fn entered(alloc: Global, graph: &Graph) -> Result<Vec<Koid>, AllocError>
    ensures found { IfOk result (λ found. found.items ≡ roots graph.now) }
    ensures ordered { OnOk result (IsOrdered rowkey_cmp graph.now) }
{
    let mut found = Vec::new(alloc);
    for (key, graph_row) in graph {
        if let Some(koid) = entered_by(*key, graph_row) {
            found.push(koid)?;
        }
    }
    Ok(found)
}

/// The koid that the row names, if it is an entry.
fn entered_by(key: RowKey, graph_row: &GraphRow) -> Option<Koid>
    ensures { result ≡ root_at (key, graph_row.now) }
{
    let RowKey::Entry(_, _) = key else {
        return None;
    };
    match graph_row {
        GraphRow::Entry(koid) => Some(*koid),
        _ => None,
    }
}

/// The koids that messages name, under the endpoints at which the messages wait.
fn queued(alloc: Global, graph: &Graph) -> Result<Queues, AllocError>
    ensures { IfOk result (λ queues. (e : ℕ) → waiting queues e ≡ names graph.now e) }
{
    let mut queues = BTreeMap::new(alloc);
    for (key, graph_row) in graph {
        queue_up(alloc, &mut queues, *key, graph_row)?;
    }
    Ok(queues)
}

/// If the row is a message, appends the koids that it names to those of its endpoint.
fn queue_up(
    alloc: Global,
    queues: &mut Queues,
    key: RowKey,
    graph_row: &GraphRow,
) -> Result<(), AllocError>
    ensures { OnOk result ((e : ℕ) → waiting queues.new e ≡ waiting queues.old e ++ names_at e (key, graph_row.now)) }
{
    let RowKey::Msg(endpoint, _) = key else {
        return Ok(());
    };
    match graph_row {
        GraphRow::Message(named) => put_behind(alloc, queues, endpoint, named.as_slice()),
        _ => Ok(()),
    }
}

/// Appends the koids to those of the endpoint.
fn put_behind(
    alloc: Global,
    queues: &mut Queues,
    endpoint: Koid,
    named: &[Koid],
) -> Result<(), AllocError>
    ensures { OnOk result ((e : ℕ) → waiting queues.new e ≡ waiting queues.old e ++ (if endpoint == e then named.now else [])) }
{
    let number = endpoint.0;
    let mut queue = match queues.remove(&number) {
        Some(queue) => queue.into_vec(),
        None => Vec::new(alloc),
    };
    queue.extend_from_slice(named)?;
    queues.insert(number, Items::new(queue))?;
    Ok(())
}

/// Takes the koids of the endpoint away, and appends them to what is found.
fn look_into(found: &mut Vec<Koid>, queues: &mut Queues, endpoint: Koid) -> Result<(), AllocError>
    ensures found { OnOk result (found.new.items ≡ found.old.items ++ waiting queues.old endpoint) }
    ensures queues { OnOk result ((e : ℕ) → waiting queues.new e ≡ (if endpoint == e then [] else waiting queues.old e)) }
    ensures fewer { OnOk result (weight queues.new + length (waiting queues.old endpoint) ≡ weight queues.old) }
{
    let number = endpoint.0;
    match queues.remove(&number) {
        Some(queue) => {
            found.extend_from_slice(queue.as_slice())?;
            Ok(())
        }
        None => Ok(()),
    }
}

/// The koids above live processes, and above the jobs that are reached.
pub(crate) fn above_in(
    alloc: Global,
    graph: &Graph,
    reached: &BTreeSet<u64>,
) -> Result<BTreeSet<u64>, AllocError>
    ensures { IfOk result (λ set. (S : State) (known : List ℕ) → IsGraph graph.now S → ((x : ℕ) → contains nat_cmp reached.now x ≡ among known x)
        → (x : ℕ) → contains nat_cmp set x ≡ is_above S known x) }
{
    let mut set = BTreeSet::new(alloc);
    for (key, graph_row) in graph {
        let keeper = keeper_of(reached, *key, graph_row);
        add_above(&mut set, graph, keeper)?;
    }
    Ok(set)
}

/// Adds the koids above the object of this koid, if there is one.
fn add_above(set: &mut BTreeSet<u64>, graph: &Graph, keeper: Option<Koid>) -> Result<(), AllocError>
    ensures { OnOk result ((y : ℕ) → contains nat_cmp set.new y ≡ (contains nat_cmp set.old y || is_over graph.now keeper y)) }
{
    match keeper {
        Some(koid) => climb_from(set, graph, koid),
        None => Ok(()),
    }
}

/// The koid of the row, if it is a live process, or a job that is reached.
fn keeper_of(reached: &BTreeSet<u64>, key: RowKey, graph_row: &GraphRow) -> Option<Koid>
    ensures { result ≡ keeper_at (contains nat_cmp reached.now) (key, graph_row.now) }
{
    let RowKey::Object(koid) = key else {
        return None;
    };
    match graph_row {
        GraphRow::Object(node) => {
            if keeps(reached, koid, node) {
                Some(koid)
            } else {
                None
            }
        }
        _ => None,
    }
}

/// Whether the node is a live process, or a job that is reached.
fn keeps(reached: &BTreeSet<u64>, koid: Koid, node: &GraphNode) -> bool
    ensures { result ≡ keeps (contains nat_cmp reached.now) koid node.now }
{
    let number = koid.0;
    (node.kind == Kind::Process && node.live)
        || (node.kind == Kind::Job && reached.contains(&number))
}

/// Adds the koid to the set.
fn mark(set: &mut BTreeSet<u64>, koid: Koid) -> Result<(), AllocError>
    ensures { OnOk result ((y : ℕ) → contains nat_cmp set.new y ≡ (contains nat_cmp set.old y || (koid == y))) }
{
    set.insert(koid.0)?;
    Ok(())
}

/// Adds the koids to which the links lead from this one.
fn climb_from(set: &mut BTreeSet<u64>, graph: &Graph, koid: Koid) -> Result<(), AllocError>
    ensures { OnOk result ((y : ℕ) → contains nat_cmp set.new y ≡ (contains nat_cmp set.old y || among (climbed graph.now koid) y)) }
{
    let mut at = link(graph, koid);
    for _ in 0..koid.0 {
        if at == Koid(0) {
            return Ok(());
        }
        mark(set, at)?;
        at = link(graph, at);
    }
    if at != Koid(0) {
        mark(set, at)?;
    }
    Ok(())
}
