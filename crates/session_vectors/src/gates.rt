//! Which connections a gate gives, and when it is shut.

use serve_core::gate::{Door, Gate, Listener};
use std::io::{self, ErrorKind};
use std::net::{Ipv4Addr, Net, TcpListener, TcpStream};
use std::os::fd::OwnedFd;
use std::process::Abort;
use std::time::Duration;

// How long an `accept` waits for a connection that does not come, in milliseconds.
const WAITS: u64 = 500;

// The port of a listener, whose `accept` fails after a while where no connection comes.
fn port_of(listener: &TcpListener) -> io::Result<u16> {
    let socket = TcpStream::from(OwnedFd::from(listener.try_clone()?));
    socket.set_read_timeout(Some(Duration::from_millis(WAITS)))?;
    Ok(listener.local_addr()?.port())
}

// A gate for so many connections, at a port that is free.
fn gate_for<R: Net<Listener = TcpListener, Stream = TcpStream> + AllocGlobal>(
    rt: &R,
    most: usize,
) -> io::Result<Gate> {
    let listener = TcpListener::bind(rt, (Ipv4Addr::LOCALHOST, 0))?;
    let port = port_of(&listener)?;
    let alloc = rt.alloc();
    let place = format!(in alloc; "{port}")?;
    Gate::open(Listener::Port(listener), place, most)
}

// A client that has connected, where the gate lets it.
fn client<R: Net<Listener = TcpListener, Stream = TcpStream>>(
    rt: &R,
    gate: &Gate,
) -> io::Result<TcpStream> {
    match gate.place().parse::<u16>() {
        Ok(port) => TcpStream::connect(rt, (Ipv4Addr::LOCALHOST, port)),
        Err(_) => Err(io::Error::from(ErrorKind::InvalidInput)),
    }
}

// Whether the gate gives a connection now, and it is that of this client.
fn gives(gate: &Gate, client: &TcpStream) -> bool {
    let Ok(Some(stream)) = gate.accept() else {
        return false;
    };
    match (stream.peer_addr(), client.local_addr()) {
        (Ok(peer), Ok(local)) => peer == local,
        _ => false,
    }
}

// Whether it gives none any more, and nobody can connect.
fn is_shut<R: Net<Listener = TcpListener, Stream = TcpStream>>(rt: &R, gate: &Gate) -> bool {
    let gives_none = match gate.accept() {
        Ok(None) => true,
        _ => false,
    };
    gives_none && client(rt, gate).is_err() && !gate.shut()
}

// Catches `gate_admits_any_number`, `gate_gives_nobody`, `gate_tells_no_place` and `gate_is_not_opened`.
#[test]
fn a_gate_gives_so_many_connections(rt: HostRuntime) {
    for most in 1..4 {
        let gate = gate_for(&rt, most).expect(&rt, "a gate");
        for _ in 0..most {
            let client = client(&rt, &gate).expect(&rt, "a connection");
            assert!(rt; gives(&gate, &client));
        }
        assert!(rt; is_shut(&rt, &gate) && !gate.bell().has_rung());
    }
}

// Catches `shut_does_nothing` and `shut_leaves_the_socket_open`.
#[test]
fn a_gate_that_is_shut_gives_nobody(rt: HostRuntime) {
    let gate = gate_for(&rt, 2).expect(&rt, "a gate");
    let waits = client(&rt, &gate);
    assert!(rt; waits.is_ok() && gate.shut());
    assert!(rt; is_shut(&rt, &gate) && !gate.bell().has_rung());
}

// Catches `stop_does_nothing` and `stop_leaves_the_gate_open`.
#[test]
fn a_gate_that_is_stopped_rings(rt: HostRuntime) {
    let gate = gate_for(&rt, 2).expect(&rt, "a gate");
    assert!(rt; !gate.bell().has_rung());
    gate.stop();
    assert!(rt; is_shut(&rt, &gate) && gate.bell().has_rung());
}

// Catches `error_leaves_the_gate_open`.
#[test]
fn an_error_shuts_a_gate(rt: HostRuntime) {
    let gate = gate_for(&rt, 2).expect(&rt, "a gate");
    assert!(rt; gate.accept().is_err());
    assert!(rt; is_shut(&rt, &gate) && !gate.bell().has_rung());
}
