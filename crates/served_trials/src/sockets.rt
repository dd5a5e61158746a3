//! Trials with clients that connect over loopback.

use crate::faults::TrialFault;
use crate::gates::NoGate;
use crate::served_clients::serve;
use crate::typed::{ANSWERS, lines, other_lines, other_told, told};
use std::alloc::{AllocError, Global};
use std::io::{BufRead, BufReader, Read, Write};
use std::net::{Ipv4Addr, Net, Shutdown, SocketAddr, TcpListener, TcpStream};
use std::sync::Wait;
use std::thread::{JoinHandle, Threads};
use std::time::Duration;
use std::{io, thread};
use zt_rows::CLIENTS;

/// How many lines each of the four clients types.
const TURNS: usize = 300;

/// The lines that each of the four clients types, in turn. Each is answered by one line.
const TYPED: [&str; 3] = ["1025 event_create\n", "goto 0\n", "follow main\n"];

/// How many seconds a client waits for an answer.
const PATIENCE: u64 = 20;

/// Listens on a free port of 127.0.0.1.
fn listen<R: Net<Listener = TcpListener, Stream = TcpStream>>(rt: &R) -> io::Result<TcpListener> {
    TcpListener::bind(rt, SocketAddr::from((Ipv4Addr::LOCALHOST, 0)))
}

/// Makes a connection: the client's end, and the reader and the writer of the end that serves it.
fn connect<R: Net<Listener = TcpListener, Stream = TcpStream>>(
    rt: &R,
    listener: &TcpListener,
) -> io::Result<(TcpStream, (TcpStream, TcpStream))> {
    let near = TcpStream::connect(rt, listener.local_addr()?)?;
    near.set_read_timeout(Some(Duration::from_secs(PATIENCE)))?;
    let (reader, _) = listener.accept()?;
    let writer = reader.try_clone()?;
    Ok((near, (reader, writer)))
}

/// Makes a connection whose client has typed all its lines.
fn connect_typed<R: Net<Listener = TcpListener, Stream = TcpStream>>(
    rt: &R,
    listener: &TcpListener,
    lines: &[u8],
) -> io::Result<(TcpStream, (TcpStream, TcpStream))> {
    let (mut near, far) = connect(rt, listener)?;
    near.write_all(lines)?;
    near.shutdown(Shutdown::Write)?;
    Ok((near, far))
}

/// Whether the client reads exactly this, up to the end of the connection.
fn is_told(alloc: Global, mut near: TcpStream, told: &[u8]) -> io::Result<bool> {
    let mut came = Vec::new(alloc);
    near.read_to_end(&mut came)?;
    Ok(came.as_slice() == told)
}

/// Serves two clients that type all their lines and then read the answers. Returns how many rows the log has.
pub fn two_clients<
    R: Net<Listener = TcpListener, Stream = TcpStream> + Threads + Wait + AllocGlobal + Sync,
>(rt: &R) -> Result<usize, TrialFault> {
    let alloc = rt.alloc();
    let listener = listen(rt)?;
    let (near, far) = connect_typed(rt, &listener, lines())?;
    let (other_near, other_far) = connect_typed(rt, &listener, other_lines())?;
    let mut ends = Vec::new(alloc);
    ends.push(far)?;
    ends.push(other_far)?;
    let (log, served) = serve(rt, ends, &NoGate)?;
    drop(served);
    let told = told(alloc, ANSWERS.len())?;
    if is_told(alloc, near, told.as_bytes())? && is_told(alloc, other_near, other_told())? {
        Ok(log.len())
    } else {
        Err(TrialFault::LeftOtherwise)
    }
}

/// Types lines, each when the last is answered. Returns how many were answered.
fn talk(alloc: Global, near: TcpStream) -> io::Result<usize> {
    let mut writer = near.try_clone()?;
    let mut answers = BufReader::new(alloc, near)?.lines(alloc);
    for turn in 0..TURNS {
        writer.write_all(TYPED[turn % TYPED.len()].as_bytes())?;
        let Some(Ok(_)) = answers.next() else {
            return Ok(turn);
        };
    }
    Ok(TURNS)
}

/// Starts a client that talks on a thread of its own.
fn start(
    rt: &impl Threads,
    alloc: Global,
    near: TcpStream,
) -> Result<JoinHandle<usize>, AllocError> {
    let client = thread::spawn(rt, move || talk(alloc, near).unwrap_or(0))?;
    Ok(client)
}

/// Serves four clients, each of which types a line when the last is answered. The log has as many rows as answers came.
pub fn four_clients<
    R: Net<Listener = TcpListener, Stream = TcpStream> + Threads + Wait + AllocGlobal + Sync,
>(rt: &R) -> Result<usize, TrialFault> {
    let alloc = rt.alloc();
    let listener = listen(rt)?;
    let mut ends = Vec::new(alloc);
    let mut clients = Vec::new(alloc);
    for _ in 0..CLIENTS {
        let (near, far) = connect(rt, &listener)?;
        ends.push(far)?;
        clients.push(start(rt, alloc, near)?)?;
    }
    let (log, _) = serve(rt, ends, &NoGate)?;
    if log.len() == answers_of(rt, clients) {
        Ok(log.len())
    } else {
        Err(TrialFault::RowsMissing)
    }
}

/// How many answers the clients got, once all have ended.
fn answers_of(rt: &impl Threads, clients: Vec<JoinHandle<usize>>) -> usize {
    let mut answers = 0usize;
    for client in clients {
        answers = answers.saturating_add(client.join(rt));
    }
    answers
}
