//! Finds the moments at which an object was made, ended and lost its peer, from the notes of the object.

ghost use Rattle.std.specs.Prelude.{◌≡◌, ◌≢◌, ◌≤◌, Ok, IfOk, IfErr, length};
ghost use Rattle.zt_rows.specs.declared.calls.Happening.TheVariants as happening;
ghost use Rattle.zt_rows.specs.declared.refusals.Refusal.TheVariants as refusal;
ghost use Rattle.zt_history.specs.Tree.{state_at};
ghost use Rattle.zt_queries.specs.HappeningTimes.{is_known, when_on, IsRefusedWhen};
ghost use Rattle.zt_queries.specs.ProofsOnly.RowHappenings.{happening_of};

use zt_history::{History, RowHappening};
use zt_rows::{Koid, Moment, ROOT_JOB, Refusal};

/// The moment on the path to `at` at which the object was made. There is none if the object was there at the opening.
/// Never allocates. Error: `NoObject` if the koid was not given out by `at`.
///
/// This costs a look at each note of the object. A note that tells of the making also costs as many parents and jumps
/// as the logarithm of the path's length.
pub fn made(history: &History, at: Moment, koid: Koid) -> Result<Option<Moment>, Refusal>
    requires there { at ≤ length history.now.tree.made }
    ensures ok { IfOk result (λ found. when_on happening.Made history.now.tree.made at koid ≡ Ok found) }
    ensures refused { IfErr result (IsRefusedWhen (when_on happening.Made history.now.tree.made at koid)) }
    ensures memory { IfErr result (λ why. why ≢ refusal.OutOfMemory) }
{
    when(history, at, koid, RowHappening::Made)
}

/// The moment on the path to `at` at which the object ended, or went without having ended. Costs and error are those of
/// `made`.
pub fn ended(history: &History, at: Moment, koid: Koid) -> Result<Option<Moment>, Refusal>
    requires there { at ≤ length history.now.tree.made }
    ensures ok { IfOk result (λ found. when_on happening.Ended history.now.tree.made at koid ≡ Ok found) }
    ensures refused { IfErr result (IsRefusedWhen (when_on happening.Ended history.now.tree.made at koid)) }
    ensures memory { IfErr result (λ why. why ≢ refusal.OutOfMemory) }
{
    when(history, at, koid, RowHappening::Ended)
}

/// The moment on the path to `at` from which on a signal of the object tells that its peer is closed. Costs and error
/// are those of `made`.
pub fn peer_closed(history: &History, at: Moment, koid: Koid) -> Result<Option<Moment>, Refusal>
    requires there { at ≤ length history.now.tree.made }
    ensures ok { IfOk result (λ found. when_on happening.PeerClosed history.now.tree.made at koid ≡ Ok found) }
    ensures refused { IfErr result (IsRefusedWhen (when_on happening.PeerClosed history.now.tree.made at koid)) }
    ensures memory { IfErr result (λ why. why ≢ refusal.OutOfMemory) }
{
    when(history, at, koid, RowHappening::PeerClosed)
}

/// The moment on the path to `at` at which this happened to the object.
fn when(
    history: &History,
    at: Moment,
    koid: Koid,
    what: RowHappening,
) -> Result<Option<Moment>, Refusal>
    requires there { at ≤ length history.now.tree.made }
    ensures ok { IfOk result (λ found. when_on (happening_of what) history.now.tree.made at koid ≡ Ok found) }
    ensures refused { IfErr result (IsRefusedWhen (when_on (happening_of what) history.now.tree.made at koid)) }
    ensures memory { IfErr result (λ why. why ≢ refusal.OutOfMemory) }
{
    if !is_known(history, at, koid) {
        return Err(Refusal::NoObject);
    }
    Ok(history.last_shown(what, koid, at))
}

/// Whether the koid was given out by the moment `at`.
pub(crate) fn is_known(history: &History, at: Moment, koid: Koid) -> bool
    requires { at ≤ length history.now.tree.made }
    ensures { result ≡ is_known (state_at history.now.tree.made at) koid }
{
    let next = history.next_koid_at(at);
    koid >= ROOT_JOB && koid < next
}
