//! A frozen copy of a history at its position, as `pin` keeps it.

ghost use Rattle.std.specs.Prelude.{◌≡◌, IfOk, IfErr};
ghost use Rattle.zt_history.specs.Tree.{calls_to};
ghost use Rattle.zt_rows.specs.Reads.{object};
ghost use Rattle.zt_queries.specs.FrozenCopy.{at_position};

use crate::row_list::{object_among, rows_of};
use std::alloc::{AllocError, Global};
use std::marker::Model;
use zt_history::{History, push_call};
use zt_rows::{Call, Koid, Moment, ObjectRow, Refusal, Row, RowKey};

/// A copy of a history at its position: the state there, and the calls on the path to it. Later changes of the history
/// do not change the copy. It takes memory only for the rows that are there and for the calls.
#[derive(Drop)]
pub struct Frozen {
    /// The rows of the state with their keys, in the order of the keys.
    rows: Vec<(RowKey, Row)>,
    moment: Moment,
    calls: Vec<(Koid, Call)>,
}

impl Model for Frozen {
    ghost use Rattle.std.specs.Prelude.{◌≡◌};
    ghost use Rattle.zt_rows.specs.State.{state_of};
    ghost use Rattle.zt_queries.specs.FrozenCopy.{Snapshot};

    ghost Value = { Snapshot };

    ghost view = { λ f. record { moment = f.moment; state = state_of f.rows.items; calls = f.calls.items } };

    ghost invariant = { λ f. (state_of f.rows.items).rows ≡ f.rows.items };
}

impl Frozen {
    /// Copies a history at its position. The copy shares no memory with the history. Error: `OutOfMemory` if an
    /// allocation fails.
    pub fn copy(alloc: Global, history: &History) -> Result<Frozen, Refusal>
        ensures ok { IfOk result (λ frozen. frozen ≡ at_position history.now) }
        ensures refused { IfErr result (λ refusal. refusal ≡ Refusal.OutOfMemory) }
    {
        Ok(copied(alloc, history)?)
    }

    /// The moment at which the history stood. Never allocates.
    pub fn moment(&self) -> Moment
        ensures { result ≡ self.now.moment }
    {
        self.moment
    }

    /// The calls on the path to the moment, each with its process. Never allocates.
    pub fn calls(&self) -> &[(Koid, Call)]
        ensures { result.now ≡ self.now.calls }
    {
        self.calls.as_slice()
    }

    /// The rows of the state with their keys, in the order of the keys. Never allocates.
    pub(crate) fn rows(&self) -> &[(RowKey, Row)]
        ensures { result.now ≡ self.now.state.rows }
    {
        self.rows.as_slice()
    }

    /// The object of this koid in the state. Never allocates.
    pub(crate) fn object(&self, koid: Koid) -> Option<ObjectRow>
        ensures { result ≡ object self.now.state koid }
    {
        object_among(self.rows(), koid)
    }
}

/// Copies a history at its position.
fn copied(alloc: Global, history: &History) -> Result<Frozen, AllocError>
    ensures { IfOk result (λ frozen. frozen ≡ at_position history.now) }
{
    let mut rows = rows_of(alloc, history.store())?;
    rows.shrink_to_fit();
    Ok(Frozen {
        rows,
        moment: history.position(),
        calls: calls_to(alloc, history)?,
    })
}

/// The calls on the path to the position, each with its process.
fn calls_to(alloc: Global, history: &History) -> Result<Vec<(Koid, Call)>, AllocError>
    ensures { IfOk result (λ calls. calls.items ≡ calls_to history.now.tree.made history.now.position) }
{
    let Ok(way) = history.path(history.position()) else {
        return Err(AllocError);
    };
    let mut calls = Vec::with_capacity(alloc, way.len())?;
    for moment in &way {
        push_call(&mut calls, history, *moment)?;
    }
    Ok(calls)
}
