//! The socket at which clients ask for connections.

use libc::{EBADF, EINVAL, ENOTSOCK};
use mio::net::{TcpListener, TcpStream};
use mio::{Interest, Registry, Token};
use std::io::{Error, ErrorKind, Result};
use std::net::{Net, SocketAddr};
use std::time::{Duration, Instant};

/// The token of the listening socket, which no connection has: that of the last number there could be.
pub(crate) const LISTENER: Token = Token(usize::MAX);

/// For how long nothing is accepted after a failure, in milliseconds, if no connection ends before.
const PAUSE: u64 = 100;

/// What comes of one attempt to accept a client.
#[derive(Drop)]
pub(crate) enum Accepted {
    /// A client with its address.
    Client(TcpStream, SocketAddr),
    /// Nobody: none is there, or it has gone.
    Nobody,
    /// The system gives none for now.
    Failed(Error),
}

/// A socket that listens, and when it is to be asked for a client.
#[derive(Drop)]
pub(crate) struct Acceptor {
    listener: TcpListener,
    address: SocketAddr,
    /// The most connections at once.
    most: usize,
    /// Whether a client may be there.
    may_accept: bool,
    paused_until: Option<Instant>,
}

/// Where a broker is to listen. A socket is bound at once where the system chooses the port, since clients are told that by the
/// broker; else once the broker can answer.
#[derive(Drop)]
pub(crate) struct Entrance {
    address: SocketAddr,
    /// The most connections at once.
    most: usize,
    /// The socket, where it is bound already: then the address is its own.
    bound: Option<Acceptor>,
}

impl Entrance {
    /// A place at this address, for so many connections at once at the most.
    ///
    /// # Errors
    ///
    /// The system chooses the port, and the address isn't this machine's, or it allows no socket more.
    pub(crate) fn new<R: Net>(rt: &R, address: SocketAddr, most: usize) -> Result<Entrance> {
        if address.port() != 0 {
            return Ok(Entrance {
                address,
                most,
                bound: None,
            });
        }
        let acceptor = Acceptor::bind(rt, address, most)?;
        Ok(Entrance {
            address: acceptor.address(),
            most,
            bound: Some(acceptor),
        })
    }

    /// The address at which it listens, or will.
    pub(crate) fn address(&self) -> SocketAddr {
        self.address
    }

    /// Listens from now on, if it doesn't yet.
    ///
    /// # Errors
    ///
    /// As of [`Acceptor::bind`].
    pub(crate) fn open<R: Net>(self, rt: &R) -> Result<Acceptor> {
        let bound = self.bound;
        match bound {
            Some(acceptor) => Ok(acceptor),
            None => Acceptor::bind(rt, self.address, self.most),
        }
    }
}

/// Whether a failed accept says that the socket itself is none to accept from.
fn is_broken(why: &Error) -> bool {
    match why.raw_os_error() {
        Some(code) => code == EBADF || code == EINVAL || code == ENOTSOCK,
        None => false,
    }
}

impl Acceptor {
    /// Listens at an address, for so many connections at once at the most.
    ///
    /// # Errors
    ///
    /// The address is in use or isn't this machine's, or the system allows no socket more.
    pub(crate) fn bind<R: Net>(rt: &R, address: SocketAddr, most: usize) -> Result<Acceptor> {
        let listener = TcpListener::bind(rt, address)?;
        let address = listener.local_addr()?;
        Ok(Acceptor {
            listener,
            address,
            most,
            may_accept: true,
            paused_until: None,
        })
    }

    /// The address at which it listens.
    pub(crate) fn address(&self) -> SocketAddr {
        self.address
    }

    /// Has a poll report clients.
    pub(crate) fn register(&mut self, registry: &Registry) -> Result<()> {
        registry.register(&mut self.listener, LISTENER, Interest::READABLE)
    }

    /// Notes that a client may be there.
    pub(crate) fn note(&mut self) {
        self.may_accept = true;
    }

    /// Notes that a connection has ended, so that there is room for another.
    pub(crate) fn note_end(&mut self) {
        self.paused_until = None;
    }

    /// Whether so many connections are as many as there may be at once.
    pub(crate) fn is_full(&self, count: usize) -> bool {
        count >= self.most
    }

    /// When a client is to be accepted, where so many connections are open: at once, after a pause, or
    /// not until an event or an end of a connection is noted.
    pub(crate) fn due(&self, count: usize, now: Instant) -> Option<Instant> {
        if !self.may_accept || self.is_full(count) {
            return None;
        }
        Some(self.paused_until.unwrap_or(now))
    }

    /// Accepts nothing for a while, or until a connection ends.
    pub(crate) fn pause(&mut self, now: Instant) {
        self.paused_until = now.checked_add(Duration::from_millis(PAUSE));
    }

    /// Accepts a client.
    ///
    /// # Errors
    ///
    /// The socket is none to accept from.
    pub(crate) fn accept(&mut self) -> Result<Accepted> {
        self.paused_until = None;
        let why = match self.listener.accept() {
            Ok((stream, address)) => return Ok(Accepted::Client(stream, address)),
            Err(why) => why,
        };
        if is_broken(&why) {
            return Err(why);
        }
        match why.kind() {
            ErrorKind::WouldBlock => {
                self.may_accept = false;
                Ok(Accepted::Nobody)
            }
            ErrorKind::Interrupted | ErrorKind::ConnectionAborted => Ok(Accepted::Nobody),
            _ => Ok(Accepted::Failed(why)),
        }
    }
}
