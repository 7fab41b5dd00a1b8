//! Sockets at a port or at a path.

use mio::net::{TcpListener, TcpStream, UnixListener, UnixStream};
use mio::{Interest, Registry, Token};
use std::io::{self, Read, Write};
use std::net::Shutdown;

/// Where clients connect. Nobody waits in an `accept`.
#[derive(Drop)]
pub enum ClientListener {
    /// At a port.
    Port(TcpListener),
    /// At the path of a socket.
    Path(UnixListener),
}

impl ClientListener {
    /// Has connections that wait be told. The error is that of the system.
    pub(crate) fn register(&mut self, registry: &Registry, token: Token) -> io::Result<()> {
        match self {
            ClientListener::Port(listener) => registry.register(
                listener,
                token,
                Interest::READABLE,
            ),
            ClientListener::Path(listener) => registry.register(
                listener,
                token,
                Interest::READABLE,
            ),
        }
    }

    /// Takes a connection that waits. The error is that of the system: `WouldBlock` where none waits.
    pub(crate) fn accept(&self) -> io::Result<Stream> {
        match self {
            ClientListener::Port(listener) => {
                let (stream, _) = listener.accept()?;
                let _ = stream.set_nodelay(true);
                Ok(Stream::Port(stream))
            }
            ClientListener::Path(listener) => {
                let (stream, _) = listener.accept()?;
                Ok(Stream::Path(stream))
            }
        }
    }
}

/// A connection.
#[derive(Drop)]
pub(crate) enum Stream {
    /// At a port.
    Port(TcpStream),
    /// At the path of a socket.
    Path(UnixStream),
}

impl Stream {
    /// Has it be told when it can be read or written again. The error is that of the system.
    pub(crate) fn register(&mut self, registry: &Registry, token: Token) -> io::Result<()> {
        let interest = Interest::READABLE | Interest::WRITABLE;
        match self {
            Stream::Port(stream) => registry.register(stream, token, interest),
            Stream::Path(stream) => registry.register(stream, token, interest),
        }
    }

    /// Reads once.
    pub(crate) fn read(&mut self, into: &mut [u8]) -> io::Result<usize> {
        match self {
            Stream::Port(stream) => stream.read(into),
            Stream::Path(stream) => stream.read(into),
        }
    }

    /// Writes once.
    pub(crate) fn write(&mut self, bytes: &[u8]) -> io::Result<usize> {
        match self {
            Stream::Port(stream) => stream.write(bytes),
            Stream::Path(stream) => stream.write(bytes),
        }
    }

    /// Writes nothing more.
    pub(crate) fn shut(&self) {
        let _ = match self {
            Stream::Port(stream) => stream.shutdown(Shutdown::Write),
            Stream::Path(stream) => stream.shutdown(Shutdown::Write),
        };
    }
}
