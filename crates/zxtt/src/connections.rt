//! The connections of the clients that are served.

ghost use Rattle.std.specs.Prelude.{◌≡◌, IfOk};

use std::io;
use std::net::{Shutdown, TcpListener, TcpStream};
use std::sync::atomic::{AtomicU64, Ordering};
use zt_console::Counted;
use zt_shared::Gate;
use zt_words::{Fault, Heading, said_of};

/// The two directions of a client's connection: its reader and its writer.
pub type Directions = (Counted<TcpStream>, Counted<TcpStream>);

/// A client's connection, and how many of the client's lines were heard. Lines are counted only if they are explained.
#[derive(Drop)]
struct Connection {
    end: TcpStream,
    answered: AtomicU64,
}

/// The connections of the clients 1, 2 and so on. Each is shut for writing when its client's session has ended. So the client
/// gets the end of its answers while others are still served.
///
/// Messages on standard error say how many clients are missing, who comes and who goes, and, if asked for, why lines were
/// refused.
#[derive(Drop)]
pub struct Connections<'a, R> {
    rt: &'a R,
    /// How many clients there will be.
    clients: u8,
    /// Whether refused lines are explained.
    explains: bool,
    accepted: Vec<Connection>,
}

impl<'a, R: AllocGlobal + Eprint> Connections<'a, R> {
    /// No connections yet, for this many clients.
    pub fn new(rt: &'a R, clients: u8, explains: bool) -> Connections<'a, R> {
        let accepted = Vec::new(rt.alloc());
        Connections {
            rt,
            clients,
            explains,
            accepted,
        }
    }

    /// Accepts the next connection, which is that of this client. Fails with `Unconnected`, or with `Refused` and `OutOfMemory`.
    pub fn accept(&mut self, listener: &TcpListener, client: u8) -> Result<Directions, Fault>
        ensures { IfOk result (λ ends. (ends.0.1 ≡ 0) × (ends.1.1 ≡ 0)) }
    {
        self.say_who_lacks(client);
        let (connection, address) = match listener.accept() {
            Ok(accepted) => accepted,
            Err(error) => return Err(Fault::Unconnected(error)),
        };
        let directions = self.keep(connection)?;
        let _ = eprintln!(self.rt; "zxtt: client {client} connected from {address}");
        Ok(directions)
    }

    /// Says how many clients are missing: this one and those after it.
    fn say_who_lacks(&self, client: u8) {
        let left = self.clients.saturating_sub(client).saturating_add(1);
        let clients = if left == 1 { "client" } else { "clients" };
        let _ = eprintln!(self.rt; "zxtt: waiting for {left} {clients}");
    }

    /// Keeps a connection, and returns its two directions.
    fn keep(&mut self, connection: TcpStream) -> Result<Directions, Fault>
        ensures { IfOk result (λ ends. (ends.0.1 ≡ 0) × (ends.1.1 ≡ 0)) }
    {
        let (reader, writer) = match both(&connection) {
            Ok(both) => both,
            Err(error) => return Err(Fault::Unconnected(error)),
        };
        let accepted = Connection {
            end: connection,
            answered: AtomicU64::new(0),
        };
        match self.accepted.push(accepted) {
            Ok(()) => Ok((Counted::new(reader), Counted::new(writer))),
            Err(_) => Err(Fault::of_memory()),
        }
    }

    /// Explains a line in one piece if the text of its answer is a refusal. If an allocation fails, it says nothing.
    fn explain(&self, heading: Heading, line: &[u8], text: &[u8]) {
        if let Ok(Some(said)) = said_of(self.rt.alloc(), heading, line, text) {
            let _ = eprint!(self.rt; "{said}");
        }
    }
}

/// Returns two more handles of the connection: one to read and one to write.
fn both(connection: &TcpStream) -> io::Result<(TcpStream, TcpStream)> {
    let reader = connection.try_clone()?;
    let writer = connection.try_clone()?;
    Ok((reader, writer))
}

impl<R> Connections<'_, R> {
    /// Returns the connection of a client.
    fn of_client(&self, client: u8) -> Option<&Connection> {
        self.accepted.get(usize::from(client).saturating_sub(1))
    }
}

impl<R: AllocGlobal + Eprint> Gate for Connections<'_, R> {
    fn before(&self, _client: u8, _n: u32) {}

    fn after(&self, _client: u8, _n: u32) {}

    fn heard(&self, client: u8, line: &[u8], text: &[u8]) {
        if !self.explains {
            return;
        }
        if let Some(connection) = self.of_client(client) {
            let before = connection.answered.fetch_add(1, Ordering::SeqCst);
            let heading = Heading::Client(client, before.saturating_add(1));
            self.explain(heading, line, text);
        }
    }

    fn ended(&self, client: u8) {
        if let Some(connection) = self.of_client(client) {
            // A client that closed its connection has nothing to shut.
            let _ = connection.end.shutdown(Shutdown::Write);
        }
        let _ = eprintln!(self.rt; "zxtt: client {client} disconnected");
    }
}
