//! An account of numbers, if no allocation fails.

ghost use Rattle.std.specs.Prelude.{◌≡◌, ◌<◌, length};
ghost use Rattle.zt_shared.specs.Accounts.{most};
ghost use Rattle.zt_shared.specs.OpenedBook.{IsNamed};

use super::checks::check;
use std::alloc::{AllocError, Global};
use std::marker::Brand;
use zt_shared::account::{Blank, LockSide, Naming, PassSide};

/// Adds a row to both sides, after it has the memory for it.
fn add<N: Naming>(
    alloc: Global,
    ours: &mut LockSide<N, u8>,
    theirs: &mut PassSide<N, u8>,
    row: u8,
) -> Result<bool, AllocError>
    requires { length ours.old.rows < most }
{
    let shown = Box::new(alloc, row)?;
    Ok(ours.reserve(theirs).is_ok() && ours.add(theirs, shown, row).is_ok())
}

/// Whether a row is added to both sides.
fn is_added<N: Naming>(alloc: Global, blank: Blank<u8>) -> bool
    requires { IsNamed N.name N.parts N.cells blank }
{
    let (mut ours, mut theirs) = blank.open::<N>(alloc);
    add(alloc, &mut ours, &mut theirs, 7) == Ok(true) && theirs.rows() == [7].as_slice()
}

/// Whether a row is added to a new account.
fn is_added_to_new(alloc: Global) -> bool {
    match Blank::new(alloc) {
        Ok(blank) => is_added::<Brand>(alloc, blank),
        Err(_) => false,
    }
}

#[test]
fn a_row_is_added_to_an_account(rt: HostRuntime) {
    check(&rt, is_added_to_new(rt.alloc()));
}
