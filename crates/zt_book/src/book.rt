//! A book: it answers the commands of its clients, logs them, and saves and loads the session.

ghost use Rattle.std.specs.Prelude.{◌≡◌, ◌≢◌, ◌≤◌, ◌<◌, ◌↔◌, ◌++◌, ◌∷◌, [], None, Some, Ok, IfOk, IfErr, OnOk, OnErr, IsErrOf, IsSome, is_some, length, nat_lt};
ghost use Rattle.zt_rows.specs.declared.calls.Command.TheVariants as command;
ghost use Rattle.zt_history.specs.Timeline.{Timeline};
ghost use Rattle.zt_history.specs.Tree.{Tree};
ghost use Rattle.zt_book.specs.Session.{serve, client_of, most_clients, most_rows, position_of, IsCommandRefusal};
ghost use Rattle.zt_book.specs.SavedSessions.{loaded_saved, saved_of_session, unanswered, without_moments};
ghost use Rattle.zt_book.specs.Log.{IsBegun, IsCounted, IsWholeLog, standing_of, first_book, book_at, book_over, loaded, snapshot_at, IsUnloaded};

use crate::client::Client;
use crate::load_progress::{LoadProgress, NoProgress};
use crate::loaded_clients::session_of;
use crate::loaded_history::history_of;
use crate::log::Log;
use crate::session_state::SessionState;
use crate::tree_look::TreeLook;
use std::alloc::Global;
use std::marker::Model;
use zt_history::History;
use zt_queries::Frozen;
use zt_rows::{Answer, CLIENT_ROWS, CLIENTS, Call, Command, Koid, Refusal, Saved};

/// The client whose command was answered last, and what the book knew of it before that command.
#[derive(Clone, Copy)]
struct LastServed {
    client: u8,
    was: Client,
}

/// The tree of moments with the clients that stand in it, and the log of their answered commands. Clients are numbered from 1.
pub struct Book {
    all_clients: SessionState,
    log: Log,
    last: Option<LastServed>,
}

/// Drops all parts in one call. So the proof of a function that owns a book need not go through the parts at each return.
impl Drop for Book {
    fn drop(self) {
        let Book {
            all_clients: _all_clients,
            log: _log,
            last: _last,
        } = self;
    }
}

impl Model for Book {
    ghost use Rattle.zt_book.specs.Log.{BookView};
    ghost use Rattle.zt_book.specs.ProofsOnly.SessionState.{kept_of, IsBook};

    ghost Value = { BookView };

    ghost view = { λ b. kept_of b.all_clients b.log b.last };

    ghost invariant = { λ b. IsBook b.all_clients b.log b.last };
}

impl Book {
    /// Makes a book at the opening with this many clients, each following `main`. Fails with `TooManyClients` above four clients,
    /// and with `OutOfMemory` if an allocation fails.
    pub fn new(alloc: Global, clients: u8) -> Result<Book, Refusal>
        ensures ok { IfOk result (λ book. book ≡ first_book clients) }
        ensures few { OnOk result (clients ≤ most_clients) }
        ensures too_many { IsErrOf result Refusal.TooManyClients ↔ (most_clients < clients) }
        ensures refusals { IfErr result (λ refusal. refusal ≢ Refusal.TooManyClients → refusal ≡ Refusal.OutOfMemory) }
    {
        if clients > CLIENTS {
            return Err(Refusal::TooManyClients);
        }
        let history = History::new(alloc)?;
        let all_clients = SessionState::new(alloc, history, clients)?;
        Ok(begin(alloc, all_clients))
    }

    /// Makes a book with this many clients over a tree of these calls, run one after another on `main`. Fails with the first
    /// refused call's number, counted from 0, and its refusal. The number is 0 for `TooManyClients` and for `OutOfMemory`.
    pub fn load(alloc: Global, clients: u8, calls: &[(Koid, Call)]) -> Result<Book, (u64, Refusal)>
        ensures ok { IfOk result (λ book. (tree : Tree) × (loaded calls.now ≡ Ok tree) × (book ≡ book_over tree clients)) }
        ensures few { OnOk result (clients ≤ most_clients) }
        ensures refused { IfErr result (IsUnloaded clients (loaded calls.now)) }
    {
        if clients > CLIENTS {
            return Err((0, Refusal::TooManyClients));
        }
        let history = history_of(alloc, calls)?;
        match SessionState::new(alloc, history, clients) {
            Ok(all_clients) => Ok(begin(alloc, all_clients)),
            Err(_) => Err((0, Refusal::OutOfMemory)),
        }
    }

    /// Makes a book with this many clients over a saved tree. One client stands at each cursor. If there are fewer cursors than
    /// clients, the other clients follow `main`. Cursors beyond the number of clients are checked, and then ignored.
    ///
    /// Fails with the first refused item's number, counted from 0, and its refusal. Moments, branches and cursors are counted
    /// together, in this order. If the saved tree has no branch, the refusal is `NoBranch`, with the number that the first branch
    /// would have. The number is 0 for `TooManyClients` and for `OutOfMemory`.
    pub fn load_saved(alloc: Global, clients: u8, saved: &Saved) -> Result<Book, (u64, Refusal)>
        ensures ok { IfOk result (λ book. loaded_saved clients saved.now ≡ Ok book.session) }
        ensures first { IfOk result (λ book. book ≡ book_at book.session) }
        ensures clients { IfOk result (λ book. length book.session.clients ≡ clients) }
        ensures few { OnOk result (clients ≤ most_clients) }
        ensures refused { IfErr result (IsUnloaded clients (loaded_saved clients saved.now)) }
    {
        if clients > CLIENTS {
            return Err((0, Refusal::TooManyClients));
        }
        match saved.copy() {
            Ok(copied) => Book::take_saved(alloc, clients, copied, &NoProgress),
            Err(_) => Err((0, Refusal::OutOfMemory)),
        }
    }

    /// Loads like `load_saved`, but consumes the tree. After each moment it tells `told` how many of all moments are loaded.
    /// Moments are dropped one by one as they are loaded, so the whole tree and the whole book never exist at once.
    pub fn take_saved<P: LoadProgress>(
        alloc: Global,
        clients: u8,
        saved: Saved,
        told: &P,
    ) -> Result<Book, (u64, Refusal)>
        ensures ok { IfOk result (λ book. loaded_saved clients saved ≡ Ok book.session) }
        ensures first { IfOk result (λ book. book ≡ book_at book.session) }
        ensures clients { IfOk result (λ book. length book.session.clients ≡ clients) }
        ensures few { OnOk result (clients ≤ most_clients) }
        ensures refused { IfErr result (IsUnloaded clients (loaded_saved clients saved)) }
    {
        if clients > CLIENTS {
            return Err((0, Refusal::TooManyClients));
        }
        let Saved {
            moments,
            branches,
            cursors,
        } = saved;
        let (branches, cursors) = (branches.as_slice(), cursors.as_slice());
        let moments = moments.into_vec();
        let all_clients = session_of(alloc, clients, moments, branches, cursors, told)?;
        Ok(begin(alloc, all_clients))
    }

    /// Answers a command of a client, and appends the command with its answer to the log. If the command is refused, session and
    /// log are unchanged.
    pub fn serve(&mut self, client: u8, request: &Command) -> Result<Answer, Refusal>
        requires numbered { 1 ≤ client }
        requires known { client ≤ length self.old.session.clients }
        ensures ok { IfOk result (λ said. serve self.old.session client request.now ≡ Ok (said, self.new.session)) }
        ensures logged { IfOk result (λ said. self.new.log ≡ self.old.log ++ record { client = client; asked = request.now; answered = said } ∷ []) }
        ensures before { OnOk result (self.new.before ≡ Some (standing_of self.old)) }
        ensures refused { IfErr result (IsCommandRefusal (serve self.old.session client request.now)) }
        ensures unchanged { OnErr result (standing_of self.new ≡ standing_of self.old) }
        ensures nothing { OnErr result (self.new.before ≡ None) }
        ensures clients { length self.new.session.clients ≡ length self.old.session.clients }
    {
        self.last = None;
        self.all_clients.limits();
        let was = self.all_clients.client(client);
        let said = self.all_clients.serve(client, request)?;
        match self.log.add(client, request, &said) {
            Ok(()) => {
                self.last = Some(LastServed { client, was });
                Ok(said)
            }
            Err(_) => {
                drop(said);
                self.all_clients.retract(client, was);
                Err(Refusal::OutOfMemory)
            }
        }
    }

    /// Serves `Command::Pin`, and returns its answer with a copy of the history at the client's position. Fails as `serve` does;
    /// then session and log are unchanged.
    pub fn pin(&mut self, client: u8) -> Result<(Answer, Frozen), Refusal>
        requires numbered { 1 ≤ client }
        requires known { client ≤ length self.old.session.clients }
        ensures ok { IfOk result (λ pinned. serve self.old.session client command.Pin ≡ Ok (pinned.0, self.new.session)) }
        ensures frozen { IfOk result (λ pinned. pinned.1 ≡ snapshot_at self.old.session.tree (position_of self.old.session client)) }
        ensures logged { IfOk result (λ pinned. self.new.log ≡ self.old.log ++ record { client = client; asked = command.Pin; answered = pinned.0 } ∷ []) }
        ensures before { OnOk result (self.new.before ≡ Some (standing_of self.old)) }
        ensures refused { IfErr result (IsCommandRefusal (serve self.old.session client command.Pin)) }
        ensures unchanged { OnErr result (standing_of self.new ≡ standing_of self.old) }
        ensures nothing { OnErr result (self.new.before ≡ None) }
        ensures clients { length self.new.session.clients ≡ length self.old.session.clients }
    {
        let frozen = self.frozen(client)?;
        let said = self.serve(client, &Command::Pin)?;
        Ok((said, frozen))
    }

    /// Returns the session as a saved tree: all moments, all branches, and where each client stands. Pinned moments and the log
    /// are left out. Fails with `OutOfMemory` if an allocation fails.
    pub fn save(&self) -> Result<Saved, Refusal>
        ensures ok { IfOk result (λ saved. saved ≡ saved_of_session self.now.session) }
        ensures refused { IfErr result (λ refusal. refusal ≡ Refusal.OutOfMemory) }
    {
        Ok(self.all_clients.saved()?)
    }

    /// Returns a saved tree without moments: the branches, and where each client stands. Fails with `OutOfMemory` if an
    /// allocation fails.
    pub fn save_places(&self) -> Result<Saved, Refusal>
        ensures ok { IfOk result (λ saved. saved ≡ without_moments (saved_of_session self.now.session)) }
        ensures refused { IfErr result (λ refusal. refusal ≡ Refusal.OutOfMemory) }
    {
        Ok(self.all_clients.saved_places()?)
    }

    /// Returns the tree, with a store at one of its moments. Never allocates.
    pub fn history(&self) -> &History
        ensures { result.now.tree ≡ self.now.session.tree }
    {
        self.all_clients.history()
    }

    /// Returns the log of answered commands. Never allocates.
    pub fn log(&self) -> &Log
        ensures { result.now ≡ self.now.log }
    {
        &self.log
    }

    /// Returns the log, and drops the rest of the book. Never allocates.
    pub fn into_log(self) -> Log
        ensures { result ≡ self.log }
    {
        let Book {
            all_clients: _,
            log,
            last: _,
        } = self;
        log
    }

    /// Returns the tree, and drops the rest of the book. The owner of the tree can go to any of its moments. Never allocates.
    pub fn into_history(self) -> History
        ensures { result.tree ≡ self.session.tree }
    {
        let Book {
            all_clients,
            log: _,
            last: _,
        } = self;
        all_clients.into_history()
    }

    /// Returns what `asked` finds in the tree; it may move the store over the tree. Session and log are unchanged. Afterwards
    /// nothing can be taken back.
    pub fn look<L: TreeLook>(&mut self, asked: &L) -> L::Found
        ensures standing { standing_of self.new ≡ standing_of self.old }
        ensures found { (from : Timeline) × (to : Timeline) × (from.tree ≡ self.old.session.tree) × (to.tree ≡ from.tree) × L.looks asked.now from result to }
        ensures nothing { self.new.before ≡ None }
    {
        self.last = None;
        self.all_clients.look(asked)
    }

    /// Forgets all answers: the log is empty, no client has pinned a moment, and each client's count of answered commands is 0.
    /// The tree and the clients' cursors are unchanged. Never allocates.
    pub fn renew(&mut self)
        ensures session { self.new.session ≡ unanswered self.old.session }
        ensures fresh { self.new ≡ book_at self.new.session }
    {
        self.last = None;
        self.log.clear();
        self.all_clients.renew();
    }

    /// Whether the client can be answered one more command. Never allocates.
    pub fn has_room(&self, client: u8) -> bool
        requires numbered { 1 ≤ client }
        requires known { client ≤ length self.now.session.clients }
        ensures { result ≡ nat_lt (client_of self.now.session client).rows most_rows }
    {
        self.all_clients.client(client).rows < CLIENT_ROWS
    }

    /// Returns the number of clients. Never allocates.
    pub fn clients(&self) -> u8
        ensures clients { result ≡ length self.now.session.clients }
        ensures few { result ≤ most_clients }
    {
        self.all_clients.limits();
        self.all_clients.clients()
    }

    /// Whether the last call by `&mut` was `serve` or `pin` and was answered, so that `take_back` can undo it. Never allocates.
    pub fn can_take_back(&self) -> bool
        ensures { result ≡ is_some self.now.before }
    {
        self.last.is_some()
    }

    /// Restores session and log as they were before the last command. Never allocates.
    pub fn take_back(&mut self)
        requires { IsSome self.old.before }
        ensures back { self.old.before ≡ Some (standing_of self.new) }
        ensures once { self.new.before ≡ None }
    {
        match self.last {
            None => unreachable!(),
            Some(last) => {
                self.all_clients.retract(last.client, last.was);
                self.log.remove_last();
                self.last = None;
            }
        }
    }

    /// A law: each client's count of answered commands is its number of rows in the log, and the log has no other rows. Never
    /// allocates.
    pub fn rows_are_counted(&self)
        ensures { IsCounted self.now.session self.now.log }
    {
        let _ = &self.log;
    }

    /// A law: the log replays from a session that loading a saved tree gives, and ends in the book's session. Never allocates.
    pub fn log_replays(&self)
        ensures { IsWholeLog self.now.session self.now.log }
    {
        let _ = &self.log;
    }

    /// Copies the history at a client's position. Session and log are unchanged, but nothing can be taken back. Fails with
    /// `ClientFull` if the client can be answered no more commands, and with `OutOfMemory` if an allocation fails.
    fn frozen(&mut self, client: u8) -> Result<Frozen, Refusal>
        requires numbered { 1 ≤ client }
        requires known { client ≤ length self.old.session.clients }
        ensures ok { IfOk result (λ frozen. frozen ≡ snapshot_at self.old.session.tree (position_of self.old.session client)) }
        ensures refused { IfErr result (IsCommandRefusal (serve self.old.session client command.Pin)) }
        ensures unchanged { standing_of self.new ≡ standing_of self.old }
        ensures nothing { self.new.before ≡ None }
    {
        self.last = None;
        if self.all_clients.client(client).rows >= CLIENT_ROWS {
            return Err(Refusal::ClientFull);
        }
        self.all_clients.frozen(client)
    }
}

/// Makes a book of clients that were answered nothing yet. Its log begins in their session.
pub(crate) fn begin(alloc: Global, all_clients: SessionState) -> Book
    requires { IsBegun all_clients.session }
    ensures { result ≡ book_at all_clients.session }
{
    let log = Log::new(alloc);
    let last = None;
    Book {
        all_clients,
        log,
        last,
    }
}
