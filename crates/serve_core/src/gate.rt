//! Where connections come from.

use session_text::bell::Bell;
use std::io;
use std::net::{Shutdown, TcpListener, TcpStream};
use std::os::fd::OwnedFd;
use std::os::unix::net::UnixListener;
use std::sync::atomic::{AtomicBool, AtomicUsize, Ordering};

/// Where connections come from.
pub trait Door {
    /// Waits for the next connection. `None`: no more are taken.
    fn accept(&self) -> io::Result<Option<TcpStream>>;

    /// It rings where the sessions are to end.
    fn bell(&self) -> &Bell;
}

/// Where a server listens.
#[derive(Drop)]
pub enum Listener {
    /// At a port.
    Port(TcpListener),
    /// At the path of a socket.
    Path(UnixListener),
}

/// So many connections may wait at a path to be taken.
const WAITING: usize = 1_024;

impl Listener {
    // The next connection. To the system one of a path is a stream like one of a port.
    fn accept(&self) -> io::Result<TcpStream> {
        match self {
            Listener::Port(listener) => match listener.accept() {
                Ok((stream, _)) => Ok(stream),
                Err(error) => Err(error),
            },
            Listener::Path(listener) => match listener.accept() {
                Ok((stream, _)) => Ok(TcpStream::from(OwnedFd::from(stream))),
                Err(error) => Err(error),
            },
        }
    }

    // Its socket once more.
    fn socket(&self) -> io::Result<TcpStream> {
        match self {
            Listener::Port(listener) => Ok(TcpStream::from(OwnedFd::from(listener.try_clone()?))),
            Listener::Path(listener) => Ok(TcpStream::from(OwnedFd::from(listener.try_clone()?))),
        }
    }

    // Lets those go that have connected and were not taken, once its socket is shut. At a port the system does so.
    fn turn_away(&self) {
        if let Listener::Path(listener) = self {
            for _ in 0..WAITING {
                if listener.accept().is_err() {
                    break;
                }
            }
        }
    }
}

/// A listener from which so many connections are taken, and no more once it is shut, which any thread may do.
///
/// Then who waits in `accept` gets none, who connects is refused, and so is who has connected and was not yet taken.
#[derive(Drop)]
pub struct Gate {
    listener: Listener,
    // Where it listens, in the words of who asked for it.
    place: String,
    // The socket of the listener once more: this type can shut it.
    socket: TcpStream,
    is_shut: AtomicBool,
    taken: AtomicUsize,
    most: usize,
    // It rings where the server is to stop.
    bell: Bell,
}

impl Gate {
    /// A gate at which so many connections are taken; `place` is what is told of where it listens. The error is that
    /// the system gives no second handle of the listener.
    pub fn open(listener: Listener, place: String, most: usize) -> io::Result<Gate> {
        let socket = listener.socket()?;
        Ok(Gate {
            listener,
            place,
            socket,
            is_shut: AtomicBool::new(false),
            taken: AtomicUsize::new(0),
            most,
            bell: Bell::new(),
        })
    }

    /// Where it listens: a port, or the path of a socket.
    pub fn place(&self) -> &str {
        self.place.as_str()
    }

    /// Shuts it. It answers whether it was open until now.
    pub fn shut(&self) -> bool {
        let was_open = !self.is_shut.swap(true, Ordering::SeqCst);
        if was_open {
            let _ = self.socket.shutdown(Shutdown::Both);
            self.listener.turn_away();
        }
        was_open
    }

    /// Has the server stop: each session leaves as at the end of its input, and no connection is taken any more.
    pub fn stop(&self) {
        self.bell.ring();
        self.shut();
    }

    // Takes a connection that has come, and shuts where it is the last one.
    fn admit(&self, stream: TcpStream) -> Option<TcpStream> {
        if self.is_shut.load(Ordering::SeqCst) {
            return None;
        }
        let before = self.taken.fetch_add(1, Ordering::SeqCst);
        if before.saturating_add(1) >= self.most {
            self.shut();
        }
        Some(stream)
    }
}

/// An error shuts it.
impl Door for Gate {
    fn accept(&self) -> io::Result<Option<TcpStream>> {
        match self.listener.accept() {
            Ok(stream) => Ok(self.admit(stream)),
            Err(error) => { if self.shut() { Err(error) } else { Ok(None) } }
        }
    }

    fn bell(&self) -> &Bell {
        &self.bell
    }
}
