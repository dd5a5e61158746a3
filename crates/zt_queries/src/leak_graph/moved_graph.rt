//! Moves the graph of a state along the paths of a history, by the records of their moments.

ghost use Rattle.std.specs.Prelude.{◌≡◌, ◌≤◌, IfOk, OnOk, length, if◌then◌else◌};
ghost use Rattle.std.specs.BTreeMap.{get};
ghost use Rattle.zt_rows.specs.declared.keys.RowKey.{RowKey};
ghost use Rattle.zt_rows.specs.Keys.{rowkey_cmp, rowkey_eq};
ghost use Rattle.zt_rows.specs.State.{State, row};
ghost use Rattle.zt_store.specs.RecordLook.{held};
ghost use Rattle.zt_history.specs.TreeInvariant.{recorded_at};
ghost use Rattle.zt_queries.specs.ProofsOnly.LeakGraph.{IsGraph, held_over, graph_row_if};
ghost use Rattle.zt_queries.specs.ProofsOnly.FirstLeak.{state_after};
ghost use Rattle.zt_queries.specs.ProofsOnly.RowHappenings.{AreWays, row_over};

use crate::leak_graph::graph::{Graph, graph_of, graph_row_of, place};
use crate::path_pair::PathPair;
use std::alloc::{AllocError, Global};
use zt_history::History;
use zt_rows::{Moment, RowKey};
use zt_store::Record;

/// The graph at a place that both paths share.
pub(crate) fn graph_at(
    alloc: Global,
    history: &History,
    ways: &PathPair,
    place: usize,
) -> Result<Graph, AllocError>
    requires ways { AreWays history.now ways.now.way.items ways.now.here.items ways.now.shared }
    requires shared { place ≤ ways.now.shared }
    ensures { IfOk result (λ graph. IsGraph graph (state_after history.now.tree.made ways.now.way.items place)) }
{
    let mut graph = graph_of(alloc, history.store())?;
    go_back(alloc, &mut graph, history, ways, ways.here.len(), place)?;
    Ok(graph)
}

/// Moves the graph back on the path to the position, from one place to another.
pub(crate) fn go_back(
    alloc: Global,
    graph: &mut Graph,
    history: &History,
    ways: &PathPair,
    from: usize,
    to: usize,
) -> Result<(), AllocError>
    requires ways { AreWays history.now ways.now.way.items ways.now.here.items ways.now.shared }
    requires down { to ≤ from }
    requires within { from ≤ length ways.now.here.items }
    ensures { OnOk result (IsGraph graph.old (state_after history.now.tree.made ways.now.here.items from)
        → IsGraph graph.new (state_after history.now.tree.made ways.now.here.items to)) }
{
    let mut i = from;
    while i > to {
        i -= 1;
        turn(alloc, graph, history, ways.here[i])?;
    }
    Ok(())
}

/// Moves the graph forth on the way, beyond the places that both paths share.
pub(crate) fn go_forth(
    alloc: Global,
    graph: &mut Graph,
    history: &History,
    ways: &PathPair,
    from: usize,
    to: usize,
) -> Result<(), AllocError>
    requires ways { AreWays history.now ways.now.way.items ways.now.here.items ways.now.shared }
    requires beyond { ways.now.shared ≤ from }
    requires up { from ≤ to }
    requires within { to ≤ length ways.now.way.items }
    ensures { OnOk result (IsGraph graph.old (state_after history.now.tree.made ways.now.way.items from)
        → IsGraph graph.new (state_after history.now.tree.made ways.now.way.items to)) }
{
    let mut i = from;
    while i < to {
        turn(alloc, graph, history, ways.way[i])?;
        i += 1;
    }
    Ok(())
}

/// Moves the graph over a moment's call, to the other side of it.
fn turn(
    alloc: Global,
    graph: &mut Graph,
    history: &History,
    moment: Moment,
) -> Result<(), AllocError>
    ensures { OnOk result ((S : State) → IsGraph graph.old S → (k : RowKey)
        → get rowkey_cmp graph.new k ≡ graph_row_if (row_over (recorded_at history.now.tree.made history.now.position moment) k (row S k))) }
{
    let Some(record) = history.record_of(moment) else {
        return Ok(());
    };
    exchange(alloc, graph, record)?;
    Ok(())
}

/// Puts the rows of the record into the graph, under their keys.
fn exchange(alloc: Global, graph: &mut Graph, change: &Record) -> Result<(), AllocError>
    ensures { OnOk result ((q : RowKey) → get rowkey_cmp graph.new q ≡ held_over (held change.now q) (get rowkey_cmp graph.old q)) }
{
    for key in change.keys() {
        redraw(alloc, graph, change, *key)?;
    }
    Ok(())
}

/// Puts the record's row under the key into the graph, if the record has the key.
fn redraw(alloc: Global, graph: &mut Graph, change: &Record, key: RowKey) -> Result<(), AllocError>
    ensures { OnOk result ((q : RowKey) → get rowkey_cmp graph.new q ≡ (if rowkey_eq key q then held_over (held change.now key) (get rowkey_cmp graph.old key) else get rowkey_cmp graph.old q)) }
{
    let asked = key;
    let Some(held) = change.held(asked) else {
        return Ok(());
    };
    let drawn = match held {
        Some(found) => graph_row_of(alloc, found)?,
        None => None,
    };
    drop(place(graph, key, drawn)?);
    Ok(())
}
