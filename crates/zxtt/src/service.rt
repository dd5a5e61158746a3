//! Serves clients that connect to a port, over one history.

ghost use Rattle.std.specs.Prelude.{◌≡◌, map, All, IfOk};
ghost use Rattle.zt_shared.specs.OpenedBook.{IsNamed};
ghost use Rattle.zt_shared.specs.Sharing.{IsFresh};
ghost use Rattle.zt_console.specs.Sessions.{IsCountable};

use crate::connections::Connections;
use std::alloc::Global;
use std::io;
use std::marker::Brand;
use std::net::{Ipv4Addr, Net, SocketAddr, TcpListener, TcpStream};
use std::sync::Wait;
use std::thread::Threads;
use zt_console::{Book, Caller, Counted, sessions};
use zt_rows::Refusal;
use zt_shared::account::Naming;
use zt_shared::{Beginning, Blanks, Pass, open_book};
use zt_words::Fault;

/// Serves this many clients that connect to a port of 127.0.0.1 over the book, and returns the book. When all of them have gone,
/// it prints how many rows the log has. If asked for, it explains refused lines.
///
/// Fails with `Unlistened`, `Unconnected`, or `Refused` with `OutOfMemory` or `WriteFault`.
pub fn serve<
    R: Net<Listener = TcpListener, Stream = TcpStream>
        + Threads
        + Wait
        + AllocGlobal
        + Print
        + Eprint
        + Sync,
>(rt: &R, port: u16, clients: u8, explains: bool, book: Book) -> Result<Book, Fault>
    requires { IsFresh clients book }
{
    let listener = match listen(rt, port) {
        Ok(listener) => listener,
        Err(error) => return Err(Fault::Unlistened { port, error }),
    };
    let blanks = Blanks::new(rt.alloc(), clients)?;
    let connections = Connections::new(rt, clients, explains);
    let book = serve_book::<Brand, Brand, Brand, Brand, R>(
        rt,
        blanks,
        book,
        connections,
        &listener,
    )?;
    let rows = book.log().len();
    match println!(rt; "closed {rows}") {
        Ok(()) => Ok(book),
        Err(_) => Err(Fault::Refused(Refusal::WriteFault)),
    }
}

/// Listens on a port of 127.0.0.1, and says so on standard error.
fn listen<R: Net<Listener = TcpListener, Stream = TcpStream> + Eprint>(
    rt: &R,
    port: u16,
) -> io::Result<TcpListener> {
    let address = SocketAddr::from((Ipv4Addr::LOCALHOST, port));
    let listener = TcpListener::bind(rt, address)?;
    let _ = eprintln!(rt; "zxtt: listening on {address}");
    Ok(listener)
}

/// Serves the clients of the book, and returns the book when all of them have gone.
fn serve_book<
    A: Naming + Beginning + Send + Sync,
    B: Naming + Send + Sync,
    C: Naming + Send + Sync,
    D: Naming + Send + Sync,
    R: Threads + Wait + AllocGlobal + Eprint + Sync,
>(
    rt: &R,
    blanks: Blanks,
    book: Book,
    mut connections: Connections<'_, R>,
    listener: &TcpListener,
) -> Result<Book, Fault>
    requires base { (blanks.base ≡ A.base) × (blanks.clients ≡ A.clients) }
    requires first { IsNamed A.name A.parts A.cells blanks.first }
    requires second { IsNamed B.name B.parts B.cells blanks.second }
    requires third { IsNamed C.name C.parts C.cells blanks.third }
    requires fourth { IsNamed D.name D.parts D.cells blanks.fourth }
    requires fresh { IsFresh blanks.clients book }
{
    let (opened, passes) = match open_book::<A, B, C, D>(rt.alloc(), blanks, book) {
        Ok(whole) => whole,
        Err((_, refusal)) => return Err(Fault::Refused(refusal)),
    };
    let callers = accept_all(rt.alloc(), &mut connections, listener, passes)?;
    match sessions(rt, rt.alloc(), opened, callers, &connections) {
        Ok((book, _)) => Ok(book),
        Err(_) => Err(Fault::of_memory()),
    }
}

/// Accepts a connection for each pass, in the order in which clients connect.
fn accept_all<A: Naming + Beginning, B: Naming, C: Naming, D: Naming, R: AllocGlobal + Eprint>(
    alloc: Global,
    connections: &mut Connections<'_, R>,
    listener: &TcpListener,
    passes: Vec<Pass<A, B, C, D>>,
) -> Result<Vec<Caller<TcpStream, TcpStream, A, B, C, D>>, Fault>
    ensures passes { IfOk result (λ callers. map (λ caller. caller.2) callers.items ≡ passes.items) }
    ensures counts { IfOk result (λ callers. All IsCountable callers.items) }
{
    let mut callers = Vec::new(alloc);
    for pass in passes {
        let (reader, writer) = connections.accept(listener, pass.client())?;
        let Ok(()) = callers.push((reader, writer, pass)) else {
            return Err(Fault::of_memory());
        };
    }
    Ok(callers)
}
