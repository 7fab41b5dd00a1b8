//! Where clients of a server connect.

ghost use Rattle.std.specs.Prelude.{◌≡◌, IfErr, IfOk, string_bytes};
ghost use Rattle.answer_core.specs.Lacks.{Lacks};
ghost use Rattle.answer_core.specs.Places.{IsSocketOf, need_at};

use answer_core::lack::{Lacking, Wanted};
use answer_core::socket::{Socket, socket_at};
use command_line::request::Address;
use serve_core::gate::{Gate, Listener};
use std::io;
use std::net::{Ipv4Addr, TcpListener};

// A gate at a port, for so many connections. With port 0 the system chooses one.
fn gate_at_port(rt: &HostRuntime, port: u16, sessions: usize) -> io::Result<Gate> {
    let listener = TcpListener::bind(rt, (Ipv4Addr::LOCALHOST, port))?;
    let alloc = rt.alloc();
    let place = format!(in alloc; "{port}")?;
    Gate::open(Listener::Port(listener), place, sessions)
}

// A gate at the path of a socket, for so many connections, and the socket.
fn gate_at_path(rt: &HostRuntime, path: &str, sessions: usize) -> io::Result<(Gate, Socket)>
    ensures { IfOk result (λ made. string_bytes made.1.path ≡ path.now) }
{
    let (listener, socket) = socket_at(rt, path)?;
    let place = String::from_str(rt.alloc(), path)?;
    Ok((
        Gate::open(Listener::Path(listener), place, sessions)?,
        socket,
    ))
}

/// A gate where clients are to connect, for so many of them, and its socket, where that has a path. It lacks the port, or
/// the socket.
pub fn gate_at(
    rt: &HostRuntime,
    address: Address<'_>,
    sessions: usize,
) -> Result<(Gate, Option<Socket>), Lacking>
    ensures made { IfOk result (λ made. IsSocketOf address.entry made.1) }
    ensures lacking { IfErr result (λ lacking. Lacks (need_at address.entry) lacking) }
{
    match address {
        Address::Port(port) => match gate_at_port(rt, port, sessions) {
            Ok(gate) => Ok((gate, None)),
            Err(error) => Err(Lacking::of(Wanted::Port(port), error)),
        },
        Address::Path(path) => match gate_at_path(rt, path, sessions) {
            Ok((gate, socket)) => Ok((gate, Some(socket))),
            Err(error) => Err(Lacking::of(Wanted::Socket, error)),
        },
    }
}
