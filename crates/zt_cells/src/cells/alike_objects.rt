//! The exchange of an object with one of the same kind, life and link.

ghost use Rattle.std.specs.Prelude.{◌≡◌, ◌↔◌, IsTrue, false};
ghost use Rattle.zt_cells.specs.AlikeObjects.{AreAlike};
ghost use Rattle.zt_cells.specs.ProofsOnly.AlikeRows.{AlikeRows};

use std::mem;
use zt_rows::{ObjectRow, Row};

/// If the row is an object that is alike, exchanges the two in place and returns `true`. Else nothing changes.
#[inline(always)]
pub(crate) fn exchange_alike(row: &mut Row, object: &mut ObjectRow) -> bool
    ensures done { IsTrue result → AlikeRows row.old row.new object.old object.new }
    ensures same { result ≡ false → (row.new ≡ row.old) × (object.new ≡ object.old) }
{
    match row {
        Row::Object(there) if are_alike(there, object) => {
            mem::swap(there, object);
            true
        }
        _ => false,
    }
}

/// Whether the objects have the same kind, life and link.
#[inline(always)]
fn are_alike(a: &ObjectRow, b: &ObjectRow) -> bool
    ensures { IsTrue result ↔ AreAlike a.now b.now }
{
    a.kind == b.kind && a.link == b.link && a.life == b.life
}
