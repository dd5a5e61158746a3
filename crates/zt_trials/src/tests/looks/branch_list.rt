//! The branches of a history of few moments, if no allocation fails.

use std::alloc::Global;
use zt_history::{BranchId, History};
use zt_look::{BranchLook, branches};
use zt_rows::{Call, Moment, ROOT_PROCESS};

/// Whether a branch of this name is made at the moment, with a call on it.
fn is_branched(history: &mut History, name: &[u8], at: Moment) -> bool {
    if history.branch(name, at).is_err() {
        return false;
    }
    match history.find(name) {
        Some(id) => history.call(id, ROOT_PROCESS, &Call::EventCreate).is_ok(),
        None => false,
    }
}

/// Whether the branch leaves this one at the moment.
fn leaves_there(look: &BranchLook, id: BranchId, moment: Moment) -> bool {
    match look.leaves {
        Some((left, last)) => left == id && last == moment,
        None => false,
    }
}

/// Whether these are three branches: `main` at the opening, one that leaves it there, and one that leaves that at its first
/// moment.
fn are_three(list: &[BranchLook]) -> bool {
    match list {
        [main, first, second] => {
            main.leaves.is_none()
                && leaves_there(first, BranchId(0), Moment(0))
                && leaves_there(second, BranchId(1), Moment(1))
                && second.head == Moment(2)
        }
        _ => false,
    }
}

/// Whether the branches of such a history are found.
fn are_told(alloc: Global) -> bool {
    let Ok(mut history) = History::new(alloc) else {
        return false;
    };
    if !is_branched(&mut history, b"first", Moment(0)) {
        return false;
    }
    if !is_branched(&mut history, b"second", Moment(1)) {
        return false;
    }
    match branches(alloc, &history) {
        Ok(list) => are_three(list.as_slice()),
        Err(_) => false,
    }
}

#[test]
fn branches_leave_one_another(rt: HostRuntime) {
    assert!(rt; are_told(rt.alloc()));
}
