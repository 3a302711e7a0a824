//! A listener at a port of this machine.
use crate::ring::Ring;
use mio::net::{TcpListener, TcpStream};
use mio::{Interest, Poll, Token};
use std::io;
use std::io::ErrorKind;
use std::net::{Ipv4Addr, Net, SocketAddr};

/// What a listener gave.
#[derive(Drop)]
pub(crate) enum Knock {
    /// A connection.
    Peer(TcpStream),
    /// None waits.
    Nobody,
    /// The system could not give one, as where no descriptor is left.
    Refused,
}

/// A listener, and where it stands in the rounds.
#[derive(Drop)]
pub(crate) struct Door {
    listener: TcpListener,
    /// Its token stands in the ring.
    pub(crate) is_listed: bool,
    /// A connection may wait at it that cannot be taken for now. The system does not tell of it again, so it is asked in the next
    /// round that begins.
    pub(crate) is_put_off: bool,
}

impl Door {
    /// Listens at a port of loopback, where no other machine can connect.
    pub(crate) fn open<R: Net>(rt: &R, poll: &Poll, port: u16, token: Token) -> io::Result<Door> {
        let mut listener = TcpListener::bind(rt, SocketAddr::from((Ipv4Addr::LOCALHOST, port)))?;
        poll.registry()
            .register(&mut listener, token, Interest::READABLE)?;
        Ok(Door {
            listener,
            is_listed: false,
            is_put_off: false,
        })
    }

    /// Puts its token into the ring, if it is not there.
    pub(crate) fn list(&mut self, token: usize, ring: &mut Ring) {
        if !self.is_listed {
            self.is_listed = ring.push(token);
        }
    }

    /// The next connection that waits.
    pub(crate) fn knock(&self) -> Knock {
        match self.listener.accept() {
            Ok((stream, _)) => Knock::Peer(stream),
            Err(e) if e.kind() == ErrorKind::WouldBlock => Knock::Nobody,
            Err(_) => Knock::Refused,
        }
    }
}
