//! The graph in which leaks are searched. It has only those parts of each row on which leaks depend, so that a record
//! can move it from one moment to the next.

ghost use Rattle.std.specs.Prelude.{◌≡◌, IfOk, OnOk, Some, None, map, if◌then◌else◌};
ghost use Rattle.std.specs.BTreeMap.{get};
ghost use Rattle.zt_rows.specs.Keys.{rowkey_cmp, rowkey_eq};
ghost use Rattle.zt_rows.specs.State.{row};
ghost use Rattle.zt_rows.specs.declared.keys.RowKey.{RowKey};
ghost use Rattle.zt_queries.specs.ProofsOnly.LeakGraph.{IsGraph, first_of, graph_row, graph_row_if, node, link_of};

use crate::frozen::Frozen;
use crate::support_list::keys_of;
use std::alloc::{AllocError, Global};
use std::collections::BTreeMap;
use zt_bits::Kind;
use zt_rows::{Held, Items, Koid, Life, Row, RowKey};
use zt_store::Store;

/// The parts of an object's row on which leaks depend.
#[derive(Clone, Copy)]
pub(crate) struct GraphNode {
    pub(crate) kind: Kind,
    pub(crate) live: bool,
    pub(crate) link: Koid,
}

/// The parts of a row on which leaks depend: the objects that it names, and the next koid.
#[derive(Drop)]
pub(crate) enum GraphRow {
    Counters(Koid),
    Object(GraphNode),
    Entry(Koid),
    Message(Items<Koid>),
}

/// The graph rows of a state's rows, under the keys of these rows.
pub(crate) type Graph = BTreeMap<RowKey, GraphRow>;

/// The parts of the row on which leaks depend, if there are any.
pub(crate) fn graph_row_of(alloc: Global, row: &Row) -> Result<Option<GraphRow>, AllocError>
    ensures { IfOk result (λ drawn. drawn ≡ graph_row row.now) }
{
    Ok(match row {
        Row::Counters(counters) => Some(GraphRow::Counters(counters.next_koid)),
        Row::Object(object) => Some(GraphRow::Object(GraphNode {
            kind: object.kind,
            live: object.life == Life::Live,
            link: object.link,
        })),
        Row::Entry(held) => Some(GraphRow::Entry(held.koid)),
        Row::Msg(message) => {
            Some(GraphRow::Message(named_by(alloc, message.handles().as_slice())?))
        }
        Row::Packet(_) => None,
        Row::Wait(_) => None,
    })
}

/// The koids that the handles name.
fn named_by(alloc: Global, handles: &[Held]) -> Result<Items<Koid>, AllocError>
    ensures { IfOk result (λ named. named ≡ map (λ held. held.koid) handles.now) }
{
    let named: Vec<Koid> = handles.iter().map(|held| held.koid).collect(alloc)?;
    Ok(Items::new(named))
}

/// The graph of the store.
pub(crate) fn graph_of(alloc: Global, store: &Store) -> Result<Graph, AllocError>
    ensures { IfOk result (λ graph. IsGraph graph store.now.state) }
{
    let keys = keys_of(alloc, store)?;
    let mut graph = BTreeMap::new(alloc);
    for key in &keys {
        draw(alloc, &mut graph, store, *key)?;
    }
    Ok(graph)
}

/// Puts the graph row of the store's row under the key into the graph.
fn draw(alloc: Global, graph: &mut Graph, store: &Store, key: RowKey) -> Result<(), AllocError>
    ensures { OnOk result ((q : RowKey) → get rowkey_cmp graph.new q ≡ (if rowkey_eq key q then graph_row_if (row store.now.state key) else get rowkey_cmp graph.old q)) }
{
    let asked = key;
    let drawn = match store.row(asked) {
        Some(found) => graph_row_of(alloc, found)?,
        None => None,
    };
    drop(place(graph, key, drawn)?);
    Ok(())
}

/// The graph of a frozen copy of a history.
pub(crate) fn frozen_graph(alloc: Global, frozen: &Frozen) -> Result<Graph, AllocError>
    ensures { IfOk result (λ graph. IsGraph graph frozen.now.state) }
{
    let mut graph = BTreeMap::new(alloc);
    for (key, row) in frozen.rows() {
        draw_row(alloc, &mut graph, *key, row)?;
    }
    Ok(graph)
}

/// Puts the graph row of this row under the key into the graph.
fn draw_row(alloc: Global, graph: &mut Graph, key: RowKey, row: &Row) -> Result<(), AllocError>
    ensures { OnOk result ((q : RowKey) → get rowkey_cmp graph.new q ≡ (if rowkey_eq key q then graph_row row.now else get rowkey_cmp graph.old q)) }
{
    let drawn = graph_row_of(alloc, row)?;
    drop(place(graph, key, drawn)?);
    Ok(())
}

/// Puts the graph row, or none, under the key. Returns the graph row that stood there.
pub(crate) fn place(
    graph: &mut Graph,
    key: RowKey,
    drawn: Option<GraphRow>,
) -> Result<Option<GraphRow>, AllocError>
    ensures old { IfOk result (λ old. old ≡ get rowkey_cmp graph.old key) }
    ensures placed { OnOk result ((q : RowKey) → get rowkey_cmp graph.new q ≡ (if rowkey_eq key q then drawn else get rowkey_cmp graph.old q)) }
{
    match drawn {
        Some(drawn) => Ok(graph.insert(key, drawn)?),
        None => Ok(graph.remove(&key)),
    }
}

/// A copy of the graph in memory of its own.
pub(crate) fn copy_of(alloc: Global, graph: &Graph) -> Result<Graph, AllocError>
    ensures { IfOk result (λ copied. (k : RowKey) → get rowkey_cmp copied k ≡ get rowkey_cmp graph.now k) }
{
    let mut copied = BTreeMap::new(alloc);
    for (key, graph_row) in graph {
        put_copy(&mut copied, *key, graph_row)?;
    }
    Ok(copied)
}

/// Puts a copy of the graph row under the key, unless one stands there already.
fn put_copy(copied: &mut Graph, key: RowKey, graph_row: &GraphRow) -> Result<(), AllocError>
    ensures { OnOk result ((q : RowKey) → get rowkey_cmp copied.new q ≡ first_of (get rowkey_cmp copied.old q) (if rowkey_eq key q then Some graph_row.now else None)) }
{
    if copied.get(&key).is_some() {
        return Ok(());
    }
    let equal = copy_graph_row(graph_row)?;
    drop(place(copied, key, Some(equal))?);
    Ok(())
}

/// A copy of the graph row.
fn copy_graph_row(graph_row: &GraphRow) -> Result<GraphRow, AllocError>
    ensures { IfOk result (λ copied. copied ≡ graph_row.now) }
{
    Ok(match graph_row {
        GraphRow::Counters(koid) => GraphRow::Counters(*koid),
        GraphRow::Object(node) => GraphRow::Object(*node),
        GraphRow::Entry(koid) => GraphRow::Entry(*koid),
        GraphRow::Message(named) => GraphRow::Message(named.copy()?),
    })
}

/// The object of the koid in the graph.
pub(crate) fn node_of(graph: &Graph, koid: Koid) -> Option<GraphNode>
    ensures { result ≡ node graph.now koid }
{
    match graph.get(&RowKey::Object(koid)) {
        Some(GraphRow::Object(node)) => Some(*node),
        _ => None,
    }
}

/// The parent or peer of the object of the koid, or 0 if it has none.
pub(crate) fn link(graph: &Graph, koid: Koid) -> Koid
    ensures { result ≡ link_of (node graph.now koid) }
{
    match node_of(graph, koid) {
        Some(node) => node.link,
        None => Koid(0),
    }
}
