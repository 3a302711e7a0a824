//! One connection that was accepted.
ghost use Rattle.std.specs.Prelude.{◌≡◌, ◌≤◌, length};
ghost use Rattle.lp_mio_wire.specs.Read.{IsWithin};

use mio::net::TcpStream;
use std::io::{ErrorKind, Read, Write};
use std::net::Shutdown;

/// What has become of a connection.
#[derive(Debug, Clone, Copy, PartialEq, Eq)]
pub(crate) enum Phase {
    /// Its bytes are read and sent.
    Open,
    /// The driver closed it, and it is still to be told as lost.
    Closed,
    /// It was told as lost. What still comes of it is thrown away until its peer has closed too: a socket that is
    /// closed over bytes that nobody read breaks off what its peer has not read yet.
    Leaving,
}

/// What a read of a connection gave.
#[derive(Debug, Clone, Copy, PartialEq, Eq)]
pub(crate) enum Came {
    /// So many bytes, at least one.
    Bytes(usize),
    /// Nothing for now.
    Nothing,
    /// The peer is gone, or sends no more.
    End,
}

/// A connection, its number, and whether it stands among those that may have something.
#[derive(Drop)]
pub(crate) struct Connection {
    stream: TcpStream,
    pub(crate) number: u32,
    /// It came in where WebSockets are expected.
    pub(crate) is_web: bool,
    pub(crate) phase: Phase,
    pub(crate) is_listed: bool,
    /// A write failed: once what had come before is read, it is lost.
    pub(crate) is_broken: bool,
    /// The second in which one that leaves is dropped at the latest.
    pub(crate) until: u64,
}

impl Connection {
    /// An open connection.
    pub(crate) fn new(stream: TcpStream, number: u32, is_web: bool) -> Connection {
        Connection {
            stream,
            number,
            is_web,
            phase: Phase::Open,
            is_listed: false,
            is_broken: false,
            until: 0,
        }
    }

    /// Reads into a buffer that has room. An error is the end of the connection.
    pub(crate) fn read(&mut self, into: &mut [u8]) -> Came
        ensures within { IsWithin result (length into.old) }
        ensures len { length into.new ≡ length into.old }
    {
        match self.stream.read(into) {
            Ok(0) => Came::End,
            Ok(n) => Came::Bytes(n),
            Err(e) if e.kind() == ErrorKind::WouldBlock && !self.is_broken => Came::Nothing,
            Err(_) => Came::End,
        }
    }

    /// Writes once: how many bytes the system took.
    pub(crate) fn write(&mut self, piece: &[u8]) -> usize
        ensures { result ≤ length piece.now }
    {
        match self.stream.write(piece) {
            Ok(n) => n,
            Err(e) => {
                self.is_broken = e.kind() != ErrorKind::WouldBlock;
                0
            }
        }
    }

    /// Ends what is sent, behind all that the system still holds of it.
    pub(crate) fn end(&mut self, until: u64) {
        let _ = self.stream.shutdown(Shutdown::Write);
        self.phase = Phase::Closed;
        self.until = until;
    }
}
