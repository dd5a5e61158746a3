//! Copies calls out of a history.

ghost use Rattle.std.specs.Prelude.{◌≡◌, ◌++◌, [], ◌∷◌, OnOk};
ghost use Rattle.std.specs.List.{filter_map};
ghost use Rattle.zt_history.specs.Tree.{call_at};

use crate::history::History;
use std::alloc::AllocError;
use zt_rows::{Call, Koid, Moment};

/// Appends a copy of the moment's call with its process, if the moment has a call. Fails if an allocation fails.
pub fn push_call(
    calls: &mut Vec<(Koid, Call)>,
    history: &History,
    moment: Moment,
) -> Result<(), AllocError>
    ensures { OnOk result (calls.new.items ≡ calls.old.items ++ filter_map (call_at history.now.tree.made) (moment ∷ [])) }
{
    match history.call_of(moment) {
        Some((process, call)) => push_copy(calls, process, call),
        None => Ok(()),
    }
}

/// Appends a copy of the call with its process.
fn push_copy(calls: &mut Vec<(Koid, Call)>, process: Koid, call: &Call) -> Result<(), AllocError>
    ensures { OnOk result (calls.new.items ≡ calls.old.items ++ (process, call.now) ∷ []) }
{
    let call = call.copy()?;
    calls.push((process, call))?;
    Ok(())
}
