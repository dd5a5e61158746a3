//! Laws of exploring a book. Each law is the contract of a function that does nothing.
ghost use Rattle.std.specs.Prelude.{◌≢◌, ◌↔◌, ◌<◌, Err};
ghost use Rattle.zt_rows.specs.declared.calls.Command.{Command};
ghost use Rattle.zt_rows.specs.declared.refusals.Refusal.{Refusal};
ghost use Rattle.zt_rows.specs.declared.refusals.Refusal.TheVariants as refusal;
ghost use Rattle.zt_book.specs.Log.{BookView};
ghost use Rattle.zt_book.specs.Session.{client_of, most_rows};
ghost use Rattle.zt_console.specs.BookRun.{AsksBook};
ghost use Rattle.zt_console.specs.Conversations.{Given};
ghost use Rattle.zt_console.specs.Explored.{AsksExplored};

/// An explorer is never refused a command with `ClientFull`.
pub fn who_explores_has_room()
    ensures { (M : BookView) (asked : Command) (reason : Refusal) (N : BookView) → AsksExplored M asked (Err reason) N
        → reason ≢ refusal.ClientFull }
{}

/// While client 1 has room for one more answered command, an explorer is answered as in any other run of the book.
pub fn who_has_room_is_answered_by_the_book()
    ensures { (M : BookView) (asked : Command) (given : Given) (N : BookView) → (client_of M.session 1).rows < most_rows
        → AsksExplored M asked given N ↔ AsksBook M asked given N }
{}
