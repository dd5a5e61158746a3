//! Shows all rows of a state.

ghost use Rattle.std.specs.Prelude.{◌≡◌, IfOk, IfErr};
ghost use Rattle.zt_history.specs.Tree.{state_at};

use crate::frozen::Frozen;
use crate::row_list::{copy_of_rows, rows_of};
use std::alloc::{AllocError, Global};
use zt_history::History;
use zt_rows::{Items, Refusal, Row, RowKey};
use zt_store::Store;

/// Copies of the state's rows with their keys, in the order of the keys. Error: `OutOfMemory` if an allocation fails.
pub fn rows(alloc: Global, frozen: &Frozen) -> Result<Items<(RowKey, Row)>, Refusal>
    ensures ok { IfOk result (λ rows. rows ≡ frozen.now.state.rows) }
    ensures refused { IfErr result (λ refusal. refusal ≡ Refusal.OutOfMemory) }
{
    Ok(frozen_rows(alloc, frozen)?)
}

/// Copies of the rows at a history's position with their keys, in the order of the keys. Error: `OutOfMemory` if an
/// allocation fails.
pub fn rows_at(alloc: Global, history: &History) -> Result<Items<(RowKey, Row)>, Refusal>
    ensures ok { IfOk result (λ rows. rows ≡ (state_at history.now.tree.made history.now.position).rows) }
    ensures refused { IfErr result (λ refusal. refusal ≡ Refusal.OutOfMemory) }
{
    Ok(rows_in(alloc, history.store())?)
}

/// Copies of a store's rows with their keys, in the order of the keys.
fn rows_in(alloc: Global, store: &Store) -> Result<Items<(RowKey, Row)>, AllocError>
    ensures { IfOk result (λ rows. rows ≡ store.now.state.rows) }
{
    Ok(Items::new(rows_of(alloc, store)?))
}

/// Copies of the rows of a history's frozen copy with their keys, in the order of the keys.
fn frozen_rows(alloc: Global, frozen: &Frozen) -> Result<Items<(RowKey, Row)>, AllocError>
    ensures { IfOk result (λ rows. rows ≡ frozen.now.state.rows) }
{
    Ok(Items::new(copy_of_rows(alloc, frozen.rows())?))
}
