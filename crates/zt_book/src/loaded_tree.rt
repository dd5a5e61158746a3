//! Loads the moments and branches of a saved tree into a history.

ghost use Rattle.std.specs.Prelude.{◌≡◌, ◌+◌, ◌<◌, ◌^◌, [], false, Ok, IfOk, IfErr, OnOk, length};
ghost use Rattle.zt_history.specs.HistoryRefusals.{IsHistoryRefusal};
ghost use Rattle.zt_book.specs.SavedSessions.{in_turn, loaded_tree, with_moment, with_main, with_branch, with_branches};
ghost use Rattle.zt_book.specs.Log.{IsUnloadedBy};

use crate::branch_name::is_name;
use crate::calls_in_a_row::make_at;
use crate::load_progress::LoadProgress;
use crate::loaded_history::{MAIN, fault};
use std::alloc::Global;
use zt_history::History;
use zt_rows::{Refusal, SavedBranch, SavedCall};

/// Makes a history of these moments and branches. A moment is dropped once it is made, and unused list memory is freed.
pub(crate) fn tree_of<P: LoadProgress>(
    alloc: Global,
    moments: Vec<SavedCall>,
    branches: &[SavedBranch],
    told: &P,
) -> Result<History, (u64, Refusal)>
    ensures ok { IfOk result (λ history. loaded_tree (record { moments = moments.items; branches = branches.now; cursors = [] }) ≡ Ok history.tree) }
    ensures refused { IfErr result (IsUnloadedBy false (loaded_tree (record { moments = moments.items; branches = branches.now; cursors = [] }))) }
{
    let Ok(mut history) = History::new(alloc) else {
        return Err((0, Refusal::OutOfMemory));
    };
    let number = moments.len() as u64;
    put_moments(&mut history, moments, told)?;
    put_branches(&mut history, number, branches)?;
    Ok(history)
}

/// Makes these moments in order, drops each once it is made, and reports the progress.
fn put_moments<P: LoadProgress>(
    history: &mut History,
    moments: Vec<SavedCall>,
    told: &P,
) -> Result<(), (u64, Refusal)>
    ensures ok { OnOk result (in_turn with_moment 0 history.old.tree moments.items ≡ Ok history.new.tree) }
    ensures refused { IfErr result (IsUnloadedBy false (in_turn with_moment 0 history.old.tree moments.items)) }
{
    let count = moments.len();
    let mut left = moments;
    // Reversed, so that `pop` takes the moments in their order.
    left.as_mut_slice().reverse();
    for place in 0..count {
        let Some(saved) = left.pop() else {
            return Ok(());
        };
        give_back(&mut left);
        match make_at(history, saved.parent, saved.process, saved.call) {
            Ok(()) => told.loaded(place + 1, count),
            Err(reason) => return Err(fault(place as u64, reason)),
        }
    }
    Ok(())
}

/// Frees the unused memory of a list once at most half of it is used.
fn give_back(list: &mut Vec<SavedCall>)
    ensures { list.new.items ≡ list.old.items }
{
    if list.len() <= list.capacity() / 2 {
        list.shrink_to_fit();
    }
}

/// Moves `main` to the first branch's head, and makes the other branches in order. `number` is the first branch's item number.
/// Fails with `NoBranch` if there is no branch.
fn put_branches(
    history: &mut History,
    number: u64,
    branches: &[SavedBranch],
) -> Result<(), (u64, Refusal)>
    requires { number + length branches.now < 2 ^ 64 }
    ensures ok { OnOk result (with_branches number history.old.tree branches.now ≡ Ok history.new.tree) }
    ensures refused { IfErr result (IsUnloadedBy false (with_branches number history.old.tree branches.now)) }
{
    match branches {
        [] => Err((number, Refusal::NoBranch)),
        [first, others @ ..] => match put_main(history, first) {
            Ok(()) => put_others(history, number + 1, others),
            Err(reason) => Err(fault(number, reason)),
        },
    }
}

/// Moves the head of `main`. Fails with `NoBranch` if the saved branch has another name.
fn put_main(history: &mut History, saved: &SavedBranch) -> Result<(), Refusal>
    ensures ok { OnOk result (with_main history.old.tree saved.now ≡ Ok history.new.tree) }
    ensures refused { IfErr result (IsHistoryRefusal (with_main history.old.tree saved.now)) }
{
    if saved.name.as_slice() != b"main".as_slice() {
        return Err(Refusal::NoBranch);
    }
    let _position = history.position();
    history.move_head(MAIN, saved.head)
}

/// Makes these branches in order. `number` is the first one's item number; an error has the number of its branch.
fn put_others(
    history: &mut History,
    number: u64,
    branches: &[SavedBranch],
) -> Result<(), (u64, Refusal)>
    requires { number + length branches.now < 2 ^ 64 }
    ensures ok { OnOk result (in_turn with_branch number history.old.tree branches.now ≡ Ok history.new.tree) }
    ensures refused { IfErr result (IsUnloadedBy false (in_turn with_branch number history.old.tree branches.now)) }
{
    for place in 0..branches.len() {
        match put_branch(history, &branches[place]) {
            Ok(()) => {}
            Err(reason) => return Err(fault(number + place as u64, reason)),
        }
    }
    Ok(())
}

/// Makes one more branch. Fails with `BadName` or `NameTaken` for its name.
fn put_branch(history: &mut History, saved: &SavedBranch) -> Result<(), Refusal>
    ensures ok { OnOk result (with_branch history.old.tree saved.now ≡ Ok history.new.tree) }
    ensures refused { IfErr result (IsHistoryRefusal (with_branch history.old.tree saved.now)) }
{
    if !is_name(saved.name.as_slice()) {
        return Err(Refusal::BadName);
    }
    if history.find(saved.name.as_slice()).is_some() {
        return Err(Refusal::NameTaken);
    }
    history.branch(saved.name.as_slice(), saved.head)?;
    Ok(())
}
