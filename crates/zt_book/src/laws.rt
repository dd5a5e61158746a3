//! Laws of loading: what a saved session loads as. Each law is the contract of a function that does nothing.
ghost use Rattle.std.specs.Prelude.{◌≡◌, ◌≤◌, ℕ, List, length, Ok};
ghost use Rattle.zt_rows.specs.CallsInARow.{in_a_row};
ghost use Rattle.zt_rows.specs.declared.calls.Call.{Call};
ghost use Rattle.zt_rows.specs.declared.saved.Saved.{Saved};
ghost use Rattle.zt_book.specs.declared.log.Recorded.{Recorded};
ghost use Rattle.zt_book.specs.Log.{IsWholeLog, loaded};
ghost use Rattle.zt_book.specs.SavedSessions.{loaded_saved, over_loaded, saved_of_session, unanswered};
ghost use Rattle.zt_book.specs.Session.{Session, most_clients};

/// Loading calls equals loading the saved tree in which each call is made at the moment of the one before it. Both give the same
/// session, or the same first fault.
#[tactic(auto, using(crate::proofs::RowLaws::row_law))]
pub fn calls_are_loaded_as_a_tree_of_them_in_a_row()
    ensures { (clients : ℕ) (calls : List (ℕ × Call)) → clients ≤ most_clients
        → loaded_saved clients (in_a_row calls) ≡ over_loaded clients (loaded calls) }
{}

/// A session that was loaded from a saved tree is saved, and loads again as the same session.
#[tactic(auto, using(crate::proofs::AgainLaws::again))]
pub fn what_was_loaded_is_loaded_again()
    ensures { (clients : ℕ) (saved : Saved) (M : Session) → loaded_saved clients saved ≡ Ok M
        → loaded_saved clients (saved_of_session M) ≡ Ok M }
{}

/// The session of any book, saved and loaded again, has the whole tree, and each client stands where it stood. What was answered
/// and pinned is not loaded again.
pub fn what_is_written_down_is_loaded()
    ensures { (M : Session) (log : List Recorded) → IsWholeLog M log
        → loaded_saved (length M.clients) (saved_of_session M) ≡ Ok (unanswered M) }
{}
