//! Lists of rows with their keys, in the order of the keys: taken from a store, copied, and looked up.

ghost use Rattle.std.specs.Prelude.{◌≡◌, ◌++◌, ◌∷◌, [], IfOk, IfSome, OnOk, IsSome, map};
ghost use Rattle.std.specs.FinMap.Entries.{find as find_row};
ghost use Rattle.zt_rows.specs.Keys.{rowkey_cmp};
ghost use Rattle.zt_rows.specs.Reads.{as_object};
ghost use Rattle.zt_rows.specs.State.{row};

use std::alloc::{AllocError, Global};
use zt_rows::{Koid, ObjectRow, Row, RowKey};
use zt_store::Store;

/// Copies of the store's rows with their keys, in the order of the keys.
pub(crate) fn rows_of(alloc: Global, store: &Store) -> Result<Vec<(RowKey, Row)>, AllocError>
    ensures { IfOk result (λ rows. rows.items ≡ store.now.state.rows) }
{
    let mut rows = Vec::new(alloc);
    let mut next = store.after(None);
    while let Some(key) = next {
        push_row(&mut rows, store, &key)?;
        next = store.after(Some(key));
    }
    Ok(rows)
}

/// Appends a copy of the row under the key, with the key.
fn push_row(rows: &mut Vec<(RowKey, Row)>, store: &Store, key: &RowKey) -> Result<(), AllocError>
    requires { IsSome (row store.now.state key.now) }
    ensures { OnOk result (IfSome (row store.now.state key.now) (λ r. rows.new.items ≡ rows.old.items ++ (key.now, r) ∷ [])) }
{
    match store.row(*key) {
        Some(row) => {
            rows.push((*key, row.copy()?))?;
            Ok(())
        }
        None => unreachable!(),
    }
}

/// Copies of the rows with their keys.
pub(crate) fn copy_of_rows(
    alloc: Global,
    rows: &[(RowKey, Row)],
) -> Result<Vec<(RowKey, Row)>, AllocError>
    ensures { IfOk result (λ copied. copied.items ≡ rows.now) }
{
    let mut copied = Vec::with_capacity(alloc, rows.len())?;
    for (key, row) in rows {
        copied.push((*key, row.copy()?))?;
    }
    Ok(copied)
}

/// The keys of the rows, in their order.
pub(crate) fn keys_among(alloc: Global, rows: &[(RowKey, Row)]) -> Result<Vec<RowKey>, AllocError>
    ensures { IfOk result (λ list. list.items ≡ map (λ e. e.0) rows.now) }
{
    let mut list = Vec::with_capacity(alloc, rows.len())?;
    for (key, _) in rows {
        list.push(*key)?;
    }
    Ok(list)
}

/// The object of the koid among the rows.
pub(crate) fn object_among(rows: &[(RowKey, Row)], koid: Koid) -> Option<ObjectRow>
    ensures { result ≡ as_object (find_row rowkey_cmp (RowKey.Object koid) rows.now) }
{
    for (key, row) in rows {
        if *key == RowKey::Object(koid) {
            return Row::as_object(Some(row)).copied();
        }
    }
    None
}
