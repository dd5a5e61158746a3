//! Makes histories of many calls on `main`.

ghost use Rattle.std.specs.Prelude.{◌<◌, length, IfSome};

use crate::calls::{leak, mixed};
use std::alloc::{AllocError, Global};
use zt_bits::Status;
use zt_history::{BranchId, History};
use zt_rows::{Call, ROOT_PROCESS, Reply};

/// The branch `main`.
#[tactic(auto, using(crate::proofs::Branches::named_within))]
fn main_of(history: &History) -> Option<BranchId>
    ensures { IfSome result (λ id. id < length history.now.tree.branches) }
{
    history.find(b"main")
}

/// Makes a call of the first process on `main`. Returns whether it was answered.
pub(crate) fn makes(history: &mut History, call: &Result<Call, AllocError>) -> bool {
    let Some(id) = main_of(history) else {
        return false;
    };
    match call {
        Ok(call) => history.call(id, ROOT_PROCESS, call).is_ok(),
        Err(_) => false,
    }
}

/// Makes a call, and returns whether it is answered `ok`.
pub(crate) fn does(history: &mut History, call: Call) -> bool {
    if !makes(history, &Ok(call)) {
        return false;
    }
    match history.reply_of(history.last()) {
        Some(Reply::Status(status)) => *status == Status::Ok,
        _ => false,
    }
}

/// Makes this many mixed calls.
pub(crate) fn makes_mixed(alloc: Global, history: &mut History, count: u32) -> bool {
    for number in 0..count {
        if !makes(history, &mixed(alloc, number)) {
            return false;
        }
    }
    true
}

/// Makes this many events, and as many leaked ends of channels.
pub(crate) fn makes_leaks(alloc: Global, history: &mut History, count: u32) -> bool {
    for number in 0..count.saturating_mul(4) {
        if !makes(history, &leak(alloc, number)) {
            return false;
        }
    }
    true
}
