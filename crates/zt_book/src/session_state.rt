//! The clients of a session, and the history in which they stand.

ghost use Rattle.std.specs.Prelude.{◌≡◌, ◌≤◌, ◌<◌, ◌-◌, All, IfOk, IfErr, OnOk, length, map};
ghost use Rattle.zt_history.specs.Timeline.{Timeline};
ghost use Rattle.zt_history.specs.TreeInvariant.{IsTree};
ghost use Rattle.zt_book.specs.Session.{client_of, counted, most_clients, most_rows, position_of, session_over, with_client};
ghost use Rattle.zt_book.specs.SavedSessions.{client_at, unanswered};
ghost use Rattle.zt_book.specs.Log.{snapshot_at};
ghost use Rattle.zt_book.specs.ProofsOnly.SessionState.{IsClient, IsCursor, Stand, session_before};

mod commands;
mod saved_session;

use crate::client::{Client, Cursor};
use crate::tree_look::TreeLook;
use std::alloc::{AllocError, Global};
use std::marker::Model;
use zt_history::{BranchId, History};
use zt_queries::Frozen;
use zt_rows::{Moment, Refusal};

/// The history with the clients that stand in it.
#[derive(Drop)]
pub(crate) struct SessionState {
    history: History,
    clients: Vec<Client>,
    /// Whether the last command changed the history.
    grown: bool,
}

impl Model for SessionState {
    ghost use Rattle.zt_book.specs.ProofsOnly.SessionState.{SessionStateView, session_state_view, AreClients};

    ghost Value = { SessionStateView };

    ghost view = { λ d. session_state_view d.history d.clients.items d.grown };

    ghost invariant = { λ d. AreClients d.history d.clients.items d.grown };
}

impl SessionState {
    /// Puts this many clients over a history, each following `main`.
    #[tactic(auto, using(crate::proofs::SessionStateLaws::first_all_clients))]
    pub(crate) fn new(
        alloc: Global,
        history: History,
        clients: u8,
    ) -> Result<SessionState, AllocError>
        requires { clients ≤ most_clients }
        ensures { IfOk result (λ all_clients. all_clients.session ≡ session_over history.tree clients) }
    {
        let _position = history.position();
        let first = Client {
            cursor: Cursor::Follows(BranchId(0)),
            pinned: None,
            rows: 0,
        };
        let clients = vec![in alloc; first; clients as usize]?;
        let grown = false;
        Ok(SessionState {
            history,
            clients,
            grown,
        })
    }

    /// Puts these clients over a history.
    pub(crate) fn over(history: History, clients: Vec<Client>) -> SessionState
        requires few { length clients.items ≤ most_clients }
        requires stand { All (IsClient history.tree) clients.items }
        ensures { result.session ≡ record { tree = history.tree; clients = clients.items } }
    {
        let grown = false;
        SessionState {
            history,
            clients,
            grown,
        }
    }

    /// A law: what holds of all clients and of their history.
    pub(crate) fn limits(&self)
        ensures few { length self.now.session.clients ≤ most_clients }
        ensures stand { Stand self.now.session }
        ensures tree { IsTree self.now.session.tree }
    {
        let _position = self.history.position();
    }

    /// The history.
    pub(crate) fn history(&self) -> &History
        ensures tree { result.now.tree ≡ self.now.session.tree }
        ensures position { result.now.position ≡ self.now.at }
    {
        &self.history
    }

    /// Returns the history, and drops the clients.
    pub(crate) fn into_history(self) -> History
        ensures { result.tree ≡ self.session.tree }
    {
        let SessionState {
            history,
            clients: _,
            grown: _,
        } = self;
        history
    }

    /// How many clients there are.
    pub(crate) fn clients(&self) -> u8
        ensures { result ≡ length self.now.session.clients }
    {
        self.clients.len() as u8
    }

    /// Returns what is known of a client.
    pub(crate) fn client(&self, client: u8) -> Client
        requires numbered { 1 ≤ client }
        requires known { client ≤ length self.now.session.clients }
        ensures client { result ≡ client_of self.now.session client }
        ensures stands { IsClient self.now.session.tree result }
    {
        self.clients[client as usize - 1]
    }

    /// Where a client stands.
    pub(crate) fn cursor(&self, client: u8) -> Cursor
        requires numbered { 1 ≤ client }
        requires known { client ≤ length self.now.session.clients }
        ensures cursor { result ≡ (client_of self.now.session client).cursor }
        ensures stands { IsCursor self.now.session.tree result }
    {
        let known = self.client(client);
        known.cursor
    }

    /// Returns the moment at which a client stands.
    pub(crate) fn position(&self, client: u8) -> Moment
        requires numbered { 1 ≤ client }
        requires known { client ≤ length self.now.session.clients }
        ensures position { result ≡ position_of self.now.session client }
        ensures within { result ≤ length self.now.session.tree.made }
    {
        match self.cursor(client) {
            Cursor::Follows(branch) => self.history.head(branch),
            Cursor::At(moment) => moment,
        }
    }

    /// Moves the store to the moment at which a client stands, and returns that moment. Fails with `OutOfMemory` if an allocation
    /// fails.
    pub(crate) fn go(&mut self, client: u8) -> Result<Moment, Refusal>
        requires numbered { 1 ≤ client }
        requires known { client ≤ length self.old.session.clients }
        ensures ok { IfOk result (λ position. position ≡ position_of self.old.session client) }
        ensures there { IfOk result (λ position. self.new.at ≡ position) }
        ensures session { self.new.session ≡ self.old.session }
        ensures earlier { OnOk result (self.new.earlier ≡ self.old.session.tree) }
        ensures refused { IfErr result (λ refusal. refusal ≡ Refusal.OutOfMemory) }
    {
        self.grown = false;
        let position = self.position(client);
        if self.history.position() == position {
            return Ok(position);
        }
        match self.history.goto(position) {
            Ok(()) => Ok(position),
            Err(_) => Err(Refusal::OutOfMemory),
        }
    }

    /// Copies the history at the moment at which a client stands. Fails with `OutOfMemory` if an allocation fails.
    pub(crate) fn frozen(&mut self, client: u8) -> Result<Frozen, Refusal>
        requires numbered { 1 ≤ client }
        requires known { client ≤ length self.old.session.clients }
        ensures ok { IfOk result (λ frozen. frozen ≡ snapshot_at self.old.session.tree (position_of self.old.session client)) }
        ensures session { self.new.session ≡ self.old.session }
        ensures refused { IfErr result (λ refusal. refusal ≡ Refusal.OutOfMemory) }
    {
        self.go(client)?;
        Frozen::copy(*self.clients.allocator(), &self.history)
    }

    /// Replaces what is known of a client.
    pub(crate) fn put(&mut self, client: u8, to: Client)
        requires numbered { 1 ≤ client }
        requires known { client ≤ length self.old.session.clients }
        requires stands { IsClient self.old.session.tree to }
        ensures session { self.new.session ≡ with_client self.old.session client to }
        ensures earlier { self.new.earlier ≡ self.old.earlier }
    {
        self.clients[client as usize - 1] = to;
    }

    /// Counts one more answered command of a client.
    pub(crate) fn count(&mut self, client: u8)
        requires numbered { 1 ≤ client }
        requires known { client ≤ length self.old.session.clients }
        requires few { (client_of self.old.session client).rows < most_rows }
        ensures session { self.new.session ≡ counted self.old.session client }
        ensures earlier { self.new.earlier ≡ self.old.earlier }
    {
        let mut known = self.client(client);
        known.rows += 1;
        self.put(client, known);
    }

    /// Takes back the last command. `was` is what was known of its client before. Never allocates.
    pub(crate) fn retract(&mut self, client: u8, was: Client)
        requires numbered { 1 ≤ client }
        requires known { client ≤ length self.old.session.clients }
        requires stand { Stand (session_before self.old client was) }
        ensures { self.new.session ≡ session_before self.old client was }
    {
        if self.grown {
            self.history.retract();
            self.grown = false;
        }
        self.clients[client as usize - 1] = was;
    }

    /// Clears each client's pinned moment, and sets its count of answered commands to 0. Cursors are unchanged. Never allocates.
    pub(crate) fn renew(&mut self)
        ensures { self.new.session ≡ unanswered self.old.session }
    {
        forget_answers(&mut self.clients);
    }

    /// Returns what `asked` finds in the history. The session is unchanged.
    pub(crate) fn look<L: TreeLook>(&mut self, asked: &L) -> L::Found
        ensures session { self.new.session ≡ self.old.session }
        ensures found { (from : Timeline) × (to : Timeline) × (from.tree ≡ self.old.session.tree) × (to.tree ≡ from.tree) × L.looks asked.now from result to }
    {
        self.grown = false;
        asked.look(&mut self.history)
    }
}

/// Clears each client's pinned moment, and sets its count of answered commands to 0.
fn forget_answers(clients: &mut Vec<Client>)
    ensures { clients.new.items ≡ map (λ client. client_at client.cursor) clients.old.items }
{
    for client in clients.iter_mut() {
        *client = Client {
            cursor: client.cursor,
            pinned: None,
            rows: 0,
        };
    }
}
