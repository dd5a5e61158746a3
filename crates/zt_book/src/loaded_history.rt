//! Loads calls in a row on `main` into a history.

ghost use Rattle.std.specs.Prelude.{◌≡◌, Ok, IfOk, IfErr};
ghost use Rattle.zt_book.specs.Log.{loaded, IsUnloaded};
ghost use Rattle.zt_book.specs.ProofsOnly.Log.{fault_at};

use std::alloc::Global;
use zt_history::{BranchId, History};
use zt_rows::{Call, Koid, Refusal};

/// The branch that every history has from the start.
pub(crate) const MAIN: BranchId = BranchId(0);

/// Makes a history of these calls, run one after another on `main`. Fails with the first refused call's number, counted from 0,
/// and its refusal; the number is 0 for `OutOfMemory`.
pub(crate) fn history_of(alloc: Global, calls: &[(Koid, Call)]) -> Result<History, (u64, Refusal)>
    ensures ok { IfOk result (λ history. loaded calls.now ≡ Ok history.tree) }
    ensures refused { IfErr result (IsUnloaded 0 (loaded calls.now)) }
{
    let Ok(mut history) = History::new(alloc) else {
        return Err((0, Refusal::OutOfMemory));
    };
    for i in 0..calls.len() {
        let made = &calls[i];
        match history.call(MAIN, made.0, &made.1) {
            Ok(_) => {}
            Err(refusal) => return Err(fault(i as u64, refusal)),
        }
    }
    Ok(history)
}

/// Pairs a refusal with the number of its item. `OutOfMemory` belongs to no item, and gets 0.
pub(crate) fn fault(number: u64, refusal: Refusal) -> (u64, Refusal)
    ensures { result ≡ fault_at number refusal }
{
    if refusal == Refusal::OutOfMemory {
        (0, refusal)
    } else {
        (number, refusal)
    }
}
