//! Loads the calls of a path one by one, as they are read.

ghost use Rattle.std.specs.Prelude.{◌≡◌, ◌≤◌, ◌<◌, ◌++◌, ◌∷◌, [], ℕ, List, false, Ok, IfOk, IfErr, OnOk, OnErr, length};
ghost use Rattle.zt_rows.specs.CallsInARow.{in_a_row};
ghost use Rattle.zt_rows.specs.declared.calls.Call.{Call};
ghost use Rattle.zt_history.specs.HistoryRefusals.{IsHistoryRefusal};
ghost use Rattle.zt_history.specs.Tree.{head_moved, last_moment};
ghost use Rattle.zt_book.specs.Log.{book_at, IsUnloadedBy};
ghost use Rattle.zt_book.specs.SavedSessions.{loaded_saved, with_moment};
ghost use Rattle.zt_book.specs.Session.{most_clients};

use crate::book::{Book, begin};
use crate::loaded_history::{MAIN, fault};
use crate::session_state::SessionState;
use std::alloc::{AllocError, Global};
use std::marker::Model;
use zt_history::History;
use zt_rows::{Call, Koid, Moment, Refusal};

/// Calls that are loaded one by one. Each is made at the moment of the one before it.
pub struct CallsInARow {
    history: History,
}

/// Drops the history in one call.
impl Drop for CallsInARow {
    fn drop(self) {
        let CallsInARow { history: _history } = self;
    }
}

impl Model for CallsInARow {
    ghost use Rattle.std.specs.Prelude.{ℕ, List};
    ghost use Rattle.zt_rows.specs.declared.calls.Call.{Call};
    ghost use Rattle.zt_book.specs.ProofsOnly.CallsInARow.{calls_of, IsInARow};

    ghost Value = { List (ℕ × Call) };

    ghost view = { λ r. calls_of r.history.tree.made };

    ghost invariant = { λ r. IsInARow r.history.tree };
}

impl CallsInARow {
    /// A row without calls.
    pub fn new(alloc: Global) -> Result<CallsInARow, AllocError>
        ensures { IfOk result (λ row. row ≡ []) }
    {
        let history = History::new(alloc)?;
        Ok(CallsInARow { history })
    }

    /// Returns how many calls are loaded. Never allocates.
    pub fn len(&self) -> usize
        ensures { result ≡ length self.now }
    {
        self.history.last().0 as usize
    }

    /// Loads one more call. If it is refused, the row is unchanged. Fails with the call's number, counted from 0, and the
    /// refusal; the number is 0 for `OutOfMemory`. Loading a tree of all calls can fail in the same way, whatever calls follow
    /// this one.
    #[inline(always)]
    pub fn push(&mut self, process: Koid, call: Call) -> Result<(), (u64, Refusal)>
        ensures ok { OnOk result (self.new ≡ self.old ++ (process, call) ∷ []) }
        ensures refused { IfErr result (λ fault. (clients : ℕ) (behind : List (ℕ × Call)) → clients ≤ most_clients
            → IsUnloadedBy false (loaded_saved clients (in_a_row (self.old ++ (process, call) ∷ behind))) fault) }
        ensures err { OnErr result (self.new ≡ self.old) }
    {
        let parent = self.history.last();
        if let Err(reason) = make_at(&mut self.history, parent, process, call) {
            return Err(fault(u64::from(parent.0), reason));
        }
        Ok(())
    }

    /// Makes a book with this many clients over the tree of these calls. `main` leads to the last call, and all clients follow
    /// it. Fails with `OutOfMemory` if an allocation fails.
    pub fn finish(self, alloc: Global, clients: u8) -> Result<Book, Refusal>
        requires { clients ≤ most_clients }
        ensures ok { IfOk result (λ book. loaded_saved clients (in_a_row self) ≡ Ok book.session) }
        ensures first { IfOk result (λ book. book ≡ book_at book.session) }
        ensures clients { IfOk result (λ book. length book.session.clients ≡ clients) }
        ensures refused { IfErr result (λ refusal. refusal ≡ Refusal.OutOfMemory) }
    {
        let CallsInARow { mut history } = self;
        lead_main_to_last(&mut history);
        let all_clients = SessionState::new(alloc, history, clients)?;
        Ok(begin(alloc, all_clients))
    }
}

/// Runs a call at the moment `parent`, and keeps the call.
#[inline(always)]
pub(crate) fn make_at(
    history: &mut History,
    parent: Moment,
    process: Koid,
    call: Call,
) -> Result<(), Refusal>
    ensures ok { OnOk result (with_moment history.old.tree (record { parent = parent; process = process; call = call }) ≡ Ok history.new.tree) }
    ensures refused { IfErr result (IsHistoryRefusal (with_moment history.old.tree (record { parent = parent; process = process; call = call }))) }
    ensures err { OnErr result (history.new.tree ≡ history.old.tree) }
{
    history.take_call_at(parent, process, call)?;
    Ok(())
}

/// Moves the head of `main` to the last moment.
fn lead_main_to_last(history: &mut History)
    ensures { history.new.tree ≡ head_moved history.old.tree 0 (last_moment history.old.tree) }
{
    let _position = history.position();
    let last = history.last();
    match history.move_head(MAIN, last) {
        Ok(()) => {}
        Err(_) => unreachable!(),
    }
}
