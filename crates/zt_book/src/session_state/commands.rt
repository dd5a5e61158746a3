//! Answers each command of a client.

ghost use Rattle.std.specs.Prelude.{◌≡◌, ◌≤◌, ◌<◌, Ok, IfOk, IfErr, OnOk, OnErr, length};
ghost use Rattle.zt_history.specs.Tree.{path};
ghost use Rattle.zt_history.specs.TreeInvariant.{Falls};
ghost use Rattle.zt_queries.specs.HappeningTimes.{when_on, IsRefusedWhen};
ghost use Rattle.zt_book.specs.Session.{ancestor, asked, serve, event_at, client_of, standing, call_by, goto_by, back_by, branch_by, follow_by, show_to, holders_to, leaks_to, when_to, pin_to, most_rows, IsCommandRefusal};
ghost use Rattle.zt_book.specs.ProofsOnly.SessionState.{IsCursor, IsOneMore, session_before};

use crate::branch_name::is_name;
use crate::client::Cursor;
use crate::session_state::SessionState;
use std::alloc::AllocError;
use zt_history::History;
use zt_queries::{ended, holders_at, leaked_since, leaks_at, made, peer_closed, rows_at};
use zt_rows::{
    Answer, CLIENT_ROWS, Call, Command, Event, Happening, Items, Koid, Moment, Refusal, Reply,
};

impl SessionState {
    /// Answers a command of a client, and counts it. Fails with `ClientFull` if the client can be answered no more commands. If
    /// the command is refused, the session is unchanged.
    pub(crate) fn serve(&mut self, client: u8, request: &Command) -> Result<Answer, Refusal>
        requires numbered { 1 ≤ client }
        requires known { client ≤ length self.old.session.clients }
        ensures ok { IfOk result (λ said. serve self.old.session client request.now ≡ Ok (said, self.new.session)) }
        ensures room { OnOk result ((client_of self.old.session client).rows < most_rows) }
        ensures one_more { OnOk result (IsOneMore self.old.session.clients self.new.session.clients client) }
        ensures back { OnOk result (session_before self.new client (client_of self.old.session client) ≡ self.old.session) }
        ensures refused { IfErr result (IsCommandRefusal (serve self.old.session client request.now)) }
        ensures err { OnErr result (self.new.session ≡ self.old.session) }
    {
        if self.client(client).rows >= CLIENT_ROWS {
            return Err(Refusal::ClientFull);
        }
        let said = self.answer(client, request)?;
        self.count(client);
        Ok(said)
    }

    /// Answers a command of a client without counting it. If the command is refused, the session is unchanged.
    pub(crate) fn answer(&mut self, client: u8, request: &Command) -> Result<Answer, Refusal>
        requires numbered { 1 ≤ client }
        requires known { client ≤ length self.old.session.clients }
        ensures ok { IfOk result (λ said. asked self.old.session client request.now ≡ Ok (said, self.new.session)) }
        ensures earlier { OnOk result (self.new.earlier ≡ self.old.session.tree) }
        ensures refused { IfErr result (IsCommandRefusal (asked self.old.session client request.now)) }
        ensures err { OnErr result (self.new.session ≡ self.old.session) }
    {
        match request {
            Command::Call(process, call) => self.call(client, *process, call),
            Command::Goto(moment) => self.stand_at(client, *moment),
            Command::Back(count) => self.back(client, *count),
            Command::Branch(name) => self.branch(client, name),
            Command::Follow(name) => self.follow(client, name),
            Command::Show => self.show(client),
            Command::Holders(koid) => self.holders(client, *koid),
            Command::Leaks => self.leaks(client),
            Command::When(what, koid) => self.when(client, *what, *koid),
            Command::Pin => self.pin(client),
        }
    }

    /// Runs a call at the head of the branch that the client follows. Fails with `Detached` if it follows none.
    fn call(&mut self, client: u8, process: Koid, call: &Call) -> Result<Answer, Refusal>
        requires numbered { 1 ≤ client }
        requires known { client ≤ length self.old.session.clients }
        ensures ok { IfOk result (λ said. call_by self.old.session client process call.now ≡ Ok (said, self.new.session)) }
        ensures earlier { OnOk result (self.new.earlier ≡ self.old.session.tree) }
        ensures refused { IfErr result (IsCommandRefusal (call_by self.old.session client process call.now)) }
        ensures err { OnErr result (self.new.session ≡ self.old.session) }
    {
        let Cursor::Follows(branch) = self.cursor(client) else {
            return Err(Refusal::Detached);
        };
        self.grown = false;
        let made = self.history.call(branch, process, call)?;
        self.grown = true;
        Ok(new_moment(made))
    }

    /// Detaches the client, and puts it at a moment. Fails with `NoMoment` beyond the last moment.
    fn stand_at(&mut self, client: u8, moment: Moment) -> Result<Answer, Refusal>
        requires numbered { 1 ≤ client }
        requires known { client ≤ length self.old.session.clients }
        ensures ok { IfOk result (λ said. goto_by self.old.session client moment ≡ Ok (said, self.new.session)) }
        ensures earlier { OnOk result (self.new.earlier ≡ self.old.session.tree) }
        ensures refused { IfErr result (IsCommandRefusal (goto_by self.old.session client moment)) }
        ensures err { OnErr result (self.new.session ≡ self.old.session) }
    {
        let end = self.history.last();
        if moment.0 > end.0 {
            return Err(Refusal::NoMoment);
        }
        self.stand(client, Cursor::At(moment));
        Ok(Answer::At(moment))
    }

    /// Detaches the client, and moves it up its path by this many moments. Fails with `AtStart` if the path has fewer.
    fn back(&mut self, client: u8, count: u32) -> Result<Answer, Refusal>
        requires numbered { 1 ≤ client }
        requires known { client ≤ length self.old.session.clients }
        ensures ok { IfOk result (λ said. back_by self.old.session client count ≡ Ok (said, self.new.session)) }
        ensures earlier { OnOk result (self.new.earlier ≡ self.old.session.tree) }
        ensures refused { IfErr result (IsCommandRefusal (back_by self.old.session client count)) }
        ensures err { OnErr result (self.new.session ≡ self.old.session) }
    {
        self.limits();
        let position = self.position(client);
        let depth = self.history.depth_of(position);
        if count > depth {
            return Err(Refusal::AtStart);
        }
        let moment = ancestor(&self.history, position, count);
        self.stand(client, Cursor::At(moment));
        Ok(Answer::At(moment))
    }

    /// Makes a branch at the client's position. From then on the client follows this branch. Fails with `BadName` or `NameTaken`
    /// for the name.
    fn branch(&mut self, client: u8, name: &Items<u8>) -> Result<Answer, Refusal>
        requires numbered { 1 ≤ client }
        requires known { client ≤ length self.old.session.clients }
        ensures ok { IfOk result (λ said. branch_by self.old.session client name.now ≡ Ok (said, self.new.session)) }
        ensures earlier { OnOk result (self.new.earlier ≡ self.old.session.tree) }
        ensures refused { IfErr result (IsCommandRefusal (branch_by self.old.session client name.now)) }
        ensures err { OnErr result (self.new.session ≡ self.old.session) }
    {
        if !is_name(name.as_slice()) {
            return Err(Refusal::BadName);
        }
        let position = self.position(client);
        if self.history.find(name.as_slice()).is_some() {
            return Err(Refusal::NameTaken);
        }
        let named = name.copy()?;
        self.grown = false;
        let branch = self.history.branch(name.as_slice(), position)?;
        self.grown = true;
        self.turn(client, Cursor::Follows(branch));
        Ok(Answer::Branched(named, position))
    }

    /// Makes the client follow the branch of this name. Fails with `NoBranch` if there is none.
    fn follow(&mut self, client: u8, name: &Items<u8>) -> Result<Answer, Refusal>
        requires numbered { 1 ≤ client }
        requires known { client ≤ length self.old.session.clients }
        ensures ok { IfOk result (λ said. follow_by self.old.session client name.now ≡ Ok (said, self.new.session)) }
        ensures earlier { OnOk result (self.new.earlier ≡ self.old.session.tree) }
        ensures refused { IfErr result (IsCommandRefusal (follow_by self.old.session client name.now)) }
        ensures err { OnErr result (self.new.session ≡ self.old.session) }
    {
        let Some(branch) = self.history.find(name.as_slice()) else {
            return Err(Refusal::NoBranch);
        };
        let named = name.copy()?;
        let head = self.history.head(branch);
        self.stand(client, Cursor::Follows(branch));
        Ok(Answer::Followed(named, head))
    }

    /// Returns the rows of the state at the client's position.
    fn show(&mut self, client: u8) -> Result<Answer, Refusal>
        requires numbered { 1 ≤ client }
        requires known { client ≤ length self.old.session.clients }
        ensures ok { IfOk result (λ said. show_to self.old.session client ≡ Ok (said, self.new.session)) }
        ensures earlier { OnOk result (self.new.earlier ≡ self.old.session.tree) }
        ensures refused { IfErr result (IsCommandRefusal (show_to self.old.session client)) }
        ensures err { OnErr result (self.new.session ≡ self.old.session) }
    {
        let position = self.go(client)?;
        let rows = rows_at(*self.clients.allocator(), &self.history)?;
        Ok(Answer::Rows(position, rows))
    }

    /// Returns what keeps an object at the client's position.
    fn holders(&mut self, client: u8, koid: Koid) -> Result<Answer, Refusal>
        requires numbered { 1 ≤ client }
        requires known { client ≤ length self.old.session.clients }
        ensures ok { IfOk result (λ said. holders_to self.old.session client koid ≡ Ok (said, self.new.session)) }
        ensures earlier { OnOk result (self.new.earlier ≡ self.old.session.tree) }
        ensures refused { IfErr result (IsCommandRefusal (holders_to self.old.session client koid)) }
        ensures err { OnErr result (self.new.session ≡ self.old.session) }
    {
        self.go(client)?;
        let held = holders_at(*self.clients.allocator(), &self.history, koid)?;
        Ok(Answer::Holders(koid, held))
    }

    /// Returns the leaked objects at the client's position.
    fn leaks(&mut self, client: u8) -> Result<Answer, Refusal>
        requires numbered { 1 ≤ client }
        requires known { client ≤ length self.old.session.clients }
        ensures ok { IfOk result (λ said. leaks_to self.old.session client ≡ Ok (said, self.new.session)) }
        ensures earlier { OnOk result (self.new.earlier ≡ self.old.session.tree) }
        ensures refused { IfErr result (IsCommandRefusal (leaks_to self.old.session client)) }
        ensures err { OnErr result (self.new.session ≡ self.old.session) }
    {
        let position = self.go(client)?;
        let found = leaks_at(*self.clients.allocator(), &self.history)?;
        Ok(Answer::Leaks(position, found))
    }

    /// Finds the moment on the path to the client's position at which something happened to an object. It moves the store to the
    /// client's position, so that a next question begins there.
    fn when(&mut self, client: u8, what: Happening, koid: Koid) -> Result<Answer, Refusal>
        requires numbered { 1 ≤ client }
        requires known { client ≤ length self.old.session.clients }
        ensures ok { IfOk result (λ said. when_to self.old.session client what koid ≡ Ok (said, self.new.session)) }
        ensures earlier { OnOk result (self.new.earlier ≡ self.old.session.tree) }
        ensures refused { IfErr result (IsCommandRefusal (when_to self.old.session client what koid)) }
        ensures err { OnErr result (self.new.session ≡ self.old.session) }
    {
        self.go(client)?;
        self.told_when(client, what, koid)
    }

    /// Finds the moment on the path to the client's position at which something happened to an object, with a copy of its call.
    #[tactic(auto, using(crate::proofs::SessionStateLaws::when_told, crate::proofs::SessionStateLaws::when_refused, crate::proofs::SessionStateLaws::when_forgotten))]
    fn told_when(&self, client: u8, what: Happening, koid: Koid) -> Result<Answer, Refusal>
        requires numbered { 1 ≤ client }
        requires known { client ≤ length self.now.session.clients }
        ensures ok { IfOk result (λ said. when_to self.now.session client what koid ≡ Ok (said, self.now.session)) }
        ensures refused { IfErr result (IsCommandRefusal (when_to self.now.session client what koid)) }
    {
        let position = self.position(client);
        let found = self.moment_of(what, position, koid)?;
        let event = self.event(found)?;
        Ok(Answer::When(event))
    }

    /// Finds the moment on the path to `at` at which something happened to an object.
    fn moment_of(&self, what: Happening, at: Moment, koid: Koid) -> Result<Option<Moment>, Refusal>
        requires { at ≤ length self.now.session.tree.made }
        ensures ok { IfOk result (λ found. when_on what self.now.session.tree.made at koid ≡ Ok found) }
        ensures refused { IfErr result (IsRefusedWhen (when_on what self.now.session.tree.made at koid)) }
    {
        let alloc = *self.clients.allocator();
        match what {
            Happening::Made => made(&self.history, at, koid),
            Happening::Ended => ended(&self.history, at, koid),
            Happening::PeerClosed => peer_closed(&self.history, at, koid),
            Happening::Leaked => leaked_since(alloc, &self.history, at, koid),
        }
    }

    /// Returns the moment with a copy of its call, or `None` if there is no moment or it has no call.
    #[tactic(auto, using(crate::proofs::SessionStateLaws::event_called))]
    fn event(&self, moment: Option<Moment>) -> Result<Option<Event>, AllocError>
        ensures { IfOk result (λ event. event ≡ event_at self.now.session.tree.made moment) }
    {
        let Some(moment) = moment else {
            return Ok(None);
        };
        match self.history.call_of(moment) {
            Some((process, call)) => {
                let call = call.copy()?;
                Ok(Some(Event {
                    moment,
                    process,
                    call,
                }))
            }
            None => Ok(None),
        }
    }

    /// Pins the client's position.
    fn pin(&mut self, client: u8) -> Result<Answer, Refusal>
        requires numbered { 1 ≤ client }
        requires known { client ≤ length self.old.session.clients }
        ensures ok { IfOk result (λ said. pin_to self.old.session client ≡ Ok (said, self.new.session)) }
        ensures earlier { OnOk result (self.new.earlier ≡ self.old.session.tree) }
        ensures refused { IfErr result (IsCommandRefusal (pin_to self.old.session client)) }
        ensures err { OnErr result (self.new.session ≡ self.old.session) }
    {
        let position = self.position(client);
        let mut known = self.client(client);
        known.pinned = Some(position);
        self.grown = false;
        self.put(client, known);
        Ok(Answer::Pinned(position))
    }

    /// Moves the client to another cursor, and notes that the history is unchanged.
    fn stand(&mut self, client: u8, cursor: Cursor)
        requires numbered { 1 ≤ client }
        requires known { client ≤ length self.old.session.clients }
        requires stands { IsCursor self.old.session.tree cursor }
        ensures session { self.new.session ≡ standing self.old.session client cursor }
        ensures earlier { self.new.earlier ≡ self.old.session.tree }
    {
        self.grown = false;
        self.turn(client, cursor);
    }

    /// Moves the client to another cursor.
    fn turn(&mut self, client: u8, cursor: Cursor)
        requires numbered { 1 ≤ client }
        requires known { client ≤ length self.old.session.clients }
        requires stands { IsCursor self.old.session.tree cursor }
        ensures session { self.new.session ≡ standing self.old.session client cursor }
        ensures earlier { self.new.earlier ≡ self.old.earlier }
    {
        let mut known = self.client(client);
        known.cursor = cursor;
        self.put(client, known);
    }
}

/// Makes the answer to a call that made a moment.
fn new_moment(made: (Moment, Reply)) -> Answer
    ensures { result ≡ Answer.Called made.0 made.1 }
{
    let (moment, reply) = made;
    Answer::Called(moment, reply)
}

/// Returns the moment this many steps up the path of another. Never allocates; takes time linear in the steps.
fn ancestor(history: &History, moment: Moment, count: u32) -> Moment
    requires falls { Falls history.now.tree.made }
    requires far { count ≤ length (path history.now.tree.made moment) }
    ensures { result ≡ ancestor (path history.now.tree.made moment) count }
{
    let mut at = moment;
    for _ in 0..count {
        at = history.parent_of(at);
    }
    at
}
