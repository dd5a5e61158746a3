//! Slots: a row or none, kept in the bytes of a row.

ghost use Rattle.std.specs.Prelude.{◌≡◌};
ghost use Rattle.std.specs.Option.{option_copied};
ghost use Rattle.zt_rows.specs.declared.keys.RowKey.{RowKey};
ghost use Rattle.zt_rows.specs.Room.{SuitsKey};
ghost use Rattle.zt_cells.specs.RowSlots.{row_in, decode_slot};

use zt_rows::{Counters, Koid, Row, RowKey};

/// The slot that stands for none, under any key but that of the counters.
pub const NO_ROW: Row = Row::Counters(Counters {
    next_koid: Koid(0),
    next_wait: 0,
});

/// Keeps a row, or none, in the bytes of a row. None becomes a row of counters, which stands for none under any key but theirs.
#[inline(always)]
pub fn encode_slot(row: Option<Row>) -> Row
    ensures { (key : RowKey) → SuitsKey key row → decode_slot key result ≡ row }
{
    match row {
        Some(row) => row,
        None => NO_ROW,
    }
}

/// The row that a slot stands for under the key: itself, or none.
#[inline(always)]
#[tactic(auto, using(crate::proofs::PlaceLaws::row_in_other))]
pub fn decode_slot(key: RowKey, row: &Row) -> Option<&Row>
    ensures { option_copied result ≡ decode_slot key row.now }
{
    match key {
        RowKey::Counters => Some(row),
        _ => row_in(row),
    }
}

/// The row that a slot stands for under any key but that of the counters: a row of counters stands for none.
#[inline(always)]
#[tactic(auto, using(crate::proofs::PlaceLaws::row_in_other))]
pub(crate) fn row_in(row: &Row) -> Option<&Row>
    ensures { option_copied result ≡ row_in row.now }
{
    match row {
        Row::Counters(_) => None,
        row => Some(row),
    }
}
