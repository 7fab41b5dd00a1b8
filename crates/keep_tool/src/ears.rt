//! Where a server that stays listens.

ghost use Rattle.std.specs.Prelude.{IfErr};
ghost use Rattle.answer_core.specs.Status.{IsFault};

use crate::ending::say;
use answer_core::failure::ToolFailure;
use answer_core::lack::{Lacking, Wanted};
use answer_core::socket::{Socket, socket_at};
use command_line::request::{Address, Keeping};
use mio::net::{TcpListener as PortListener, UnixListener as PathListener};
use mio_core::own::{FILE_MODE, close_to_others};
use mio_core::stream::ClientListener as Ears;
use std::alloc::{AllocError, Global};
use std::fs::{File, OpenOptions};
use std::io::{self, Write};
use std::net::{Ipv4Addr, SocketAddr};
use std::os::unix::fs::OpenOptionsExt;

// Where a server that keeps objects listens, and its socket, where that has a path.
pub(crate) fn ears_at(
    rt: &HostRuntime,
    address: Address<'_>,
) -> Result<(Ears, Option<Socket>), Lacking>
    ensures { IfErr result (λ lacking. IsFault lacking.failure) }
{
    match address {
        Address::Port(port) => match port_at(rt, port) {
            Ok(listener) => Ok((Ears::Port(listener), None)),
            Err(error) => Err(Lacking::of(Wanted::Port(port), error)),
        },
        Address::Path(path) => match path_at(rt, path) {
            Ok((listener, socket)) => Ok((Ears::Path(listener), Some(socket))),
            Err(error) => Err(Lacking::of(Wanted::Socket, error)),
        },
    }
}

// A port where as many may wait for their turn as the system lets: all clients come at once behind a start.
fn port_at(rt: &HostRuntime, port: u16) -> io::Result<PortListener> {
    PortListener::bind(rt, SocketAddr::from((Ipv4Addr::LOCALHOST, port)))
}

// The file of the lock beside a path, which is made, its owner's alone, where it is not there.
fn lock_beside(rt: &HostRuntime, path: &str) -> io::Result<File> {
    let name = format!(in rt.alloc(); "{path}.lock")?;
    OpenOptions::new()
        .write(true)
        .create(true)
        .mode(FILE_MODE)
        .open(rt, name.as_str())
}

fn path_at(rt: &HostRuntime, path: &str) -> io::Result<(PathListener, Socket)> {
    // Where that cannot be, why is what is said of the lock then.
    let made = lock_beside(rt, path);
    let (listener, socket) = socket_at(rt, path)?;
    if let Ok(file) = &made {
        let _closed = close_to_others(file);
    }
    listener.set_nonblocking(true)?;
    Ok((PathListener::from_std(listener), socket))
}

// The place where it listens.
pub(crate) fn place_text(alloc: Global, asked: Keeping<'_>) -> Result<String, AllocError> {
    match asked.address {
        Address::Port(port) => format!(in alloc; "{port}"),
        Address::Path(path) => format!(in alloc; "{path}"),
    }
}

// `listening PLACE`.
pub(crate) fn tell_place<W: Write>(
    alloc: Global,
    asked: Keeping<'_>,
    writer: &mut W,
) -> Result<(), ToolFailure>
    ensures { IfErr result IsFault }
{
    let place = place_text(alloc, asked)?;
    let line = format!(in alloc; "listening {place}\n")?;
    say(writer, line.as_bytes())
}
