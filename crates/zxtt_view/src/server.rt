//! Serves all sockets on one thread.

use crate::socket::{Socket, Turn};
use http_server::{Config, Connection};
use mio::net::{TcpListener, TcpStream};
use mio::{Events, Interest, Poll, Token};
use slab::Slab;
use std::alloc::Global;
use std::hash::RandomState;
use std::io;
use std::net::{Ipv4Addr, Net, SocketAddr};
use std::random::RandomSource;
use std::sync::Wait;
use std::time::{Clock, Duration, Instant};
use zt_view::View;
use zt_words::Fault;

/// How many connections there are at most. One more takes the place of the connection that was idle the longest.
const SOCKETS: usize = 64;

/// After how many seconds an idle connection is dropped.
const IDLE_SECONDS: u64 = 120;

/// How many bytes a body can have at most.
const BODY_BYTES: usize = 16 * 1024 * 1024;

/// How many milliseconds to wait for sockets before idle ones are looked for.
const TICK_MILLISECONDS: u64 = 1000;

/// How many times to wait at the end, a tenth of a tick each, until everything is sent.
const LAST_WAITS: usize = 50;

/// The token of the listening socket. The tokens of the other sockets are their keys.
const LISTENER: Token = Token(usize::MAX);

/// The sockets, and the poll that waits for them.
#[derive(Drop)]
struct Sockets {
    alloc: Global,
    poll: Poll,
    sockets: Slab<Socket>,
}

/// Listens on a port of 127.0.0.1, or on a free one for 0, and returns the port. Fails with `Unlistened`, or with `Unconnected`
/// if the port cannot be told.
pub fn listen<R: Net>(rt: &R, port: u16) -> Result<(TcpListener, u16), Fault> {
    let address = SocketAddr::from((Ipv4Addr::LOCALHOST, port));
    match TcpListener::bind(rt, address) {
        Ok(listener) => {
            let port = listener.local_addr()?.port();
            Ok((listener, port))
        }
        Err(error) => Err(Fault::Unlistened { port, error }),
    }
}

/// Serves the view to all who connect, until it is ended, and returns it. Fails with `Unconnected`, or with `Refused` and
/// `OutOfMemory`.
pub fn serve<R: Net + Wait + Clock + RandomSource + AllocGlobal>(
    rt: &R,
    listener: TcpListener,
    view: View,
) -> Result<View, Fault> {
    let mut listener = listener;
    let mut view = view;
    let poll = Poll::new(rt)?;
    poll.registry()
        .register(&mut listener, LISTENER, Interest::READABLE)?;
    let mut events = match Events::with_capacity(rt.alloc(), SOCKETS + 1) {
        Ok(events) => events,
        Err(_) => return Err(Fault::of_memory()),
    };
    let mut sockets = Sockets {
        alloc: rt.alloc(),
        poll,
        sockets: Slab::new(rt.alloc()),
    };
    for _ in rt.forever() {
        sockets.poll.poll(&mut events, Some(Duration::from_millis(TICK_MILLISECONDS)))?;
        let now = Instant::now(rt)?;
        sockets.accept(rt, &listener, now);
        for event in &events {
            sockets.turn(event.token(), &mut view, now);
        }
        sockets.drop_idle(now);
        if view.is_ended {
            sockets.finish(&mut events)?;
            return Ok(view);
        }
    }
    unreachable!()
}

impl Sockets {
    /// Accepts the connections that wait, at most `SOCKETS` at a time. A connection that cannot be added is dropped.
    fn accept<R: RandomSource>(&mut self, rt: &R, listener: &TcpListener, now: Instant) {
        for _ in 0..SOCKETS {
            match listener.accept() {
                Ok((stream, _)) => {
                    let _ = self.add(rt, stream, now);
                }
                Err(_) => return,
            }
        }
    }

    /// Adds a connection.
    fn add<R: RandomSource>(&mut self, rt: &R, stream: TcpStream, now: Instant) -> io::Result<()> {
        if self.sockets.len() >= SOCKETS {
            self.drop_oldest();
        }
        let _ = stream.set_nodelay(true);
        let connection = Connection::new(self.alloc, RandomState::new(rt)?, config());
        let mut socket = Socket::new(stream, connection, now);
        let key = self.sockets.vacant_key();
        self.poll
            .registry()
            .register(&mut socket.stream, Token(key), both_ways())?;
        match self.sockets.insert(socket) {
            Ok(_) => Ok(()),
            Err(_) => Err(io::ErrorKind::OutOfMemory.into()),
        }
    }

    /// Serves the socket of a token, if there is one.
    fn turn(&mut self, token: Token, view: &mut View, now: Instant) {
        let Token(key) = token;
        let turn = match self.sockets.get_mut(key) {
            Some(socket) => socket.turn(view, now),
            None => return,
        };
        if turn == Turn::Gone || turn == Turn::Goes && !self.asks_again(key) {
            let _ = self.sockets.try_remove(key);
        }
    }

    /// Asks to have a ready socket reported once more.
    fn asks_again(&mut self, key: usize) -> bool {
        match self.sockets.get_mut(key) {
            Some(socket) => self
                .poll
                .registry()
                .reregister(&mut socket.stream, Token(key), both_ways())
                .is_ok(),
            None => false,
        }
    }

    /// Drops the connection that was idle the longest.
    fn drop_oldest(&mut self) {
        let mut oldest: Option<(usize, Instant)> = None;
        for (key, socket) in self.sockets.iter() {
            let is_older = match oldest {
                Some((_, active)) => socket.active < active,
                None => true,
            };
            if is_older {
                oldest = Some((key, socket.active));
            }
        }
        if let Some((key, _)) = oldest {
            let _ = self.sockets.try_remove(key);
        }
    }

    /// Drops idle connections.
    fn drop_idle(&mut self, now: Instant) {
        self.sockets.retain(|_, socket| now.duration_since(socket.active).as_secs() < IDLE_SECONDS);
    }

    /// Sends what is left to send, for at most five seconds of waiting.
    fn finish(&mut self, events: &mut Events) -> Result<(), Fault> {
        for _ in 0..LAST_WAITS {
            self.sockets.retain(|_, socket| is_kept_at_the_end(socket));
            if self.sockets.is_empty() {
                return Ok(());
            }
            self.poll.poll(events, Some(Duration::from_millis(TICK_MILLISECONDS / 10)))?;
        }
        Ok(())
    }
}

/// Writes once, and returns whether more is to be sent.
fn is_kept_at_the_end(socket: &mut Socket) -> bool {
    socket.connection.wants_write() && socket.write() != Turn::Gone
}

/// Returns the limits of a connection.
fn config() -> Config {
    let limits = Config::default();
    Config {
        max_body_len: BODY_BYTES,
        ..limits
    }
}

/// Asks for both readable and writable.
fn both_ways() -> Interest {
    Interest::READABLE | Interest::WRITABLE
}
