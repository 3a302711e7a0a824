//! The stream of a connection whose bytes come in pieces of a wire.
ghost use Rattle.std.specs.Prelude.{◌≡◌};

use lp_wire::outbox::Outbox;
use lp_wire::wire::Wire;
use std::alloc::{AllocError, Global};
use std::io;
use std::io::{ErrorKind, Read, Write};
use std::marker::Model;

/// What came and was not read, and what was written and is still to be sent. A read where nothing is left would block; a write never
/// does.
#[derive(Drop)]
pub(crate) struct Pipe {
    incoming: Vec<u8>,
    at: usize,
    outgoing: Outbox,
    is_dry: bool,
}

impl Model for Pipe {
    ghost use Rattle.std.specs.Prelude.{◌≤◌, List, ℕ, length};

    ghost Value = { List ℕ };

    ghost view = { λ p. p.outgoing };

    ghost invariant = { λ p. p.at ≤ length p.incoming.items };
}

impl Pipe {
    /// Nothing came, and nothing was written. Takes no memory.
    pub(crate) fn new(alloc: Global) -> Pipe {
        Pipe {
            incoming: Vec::new(alloc),
            at: 0,
            outgoing: Outbox::new(alloc),
            is_dry: false,
        }
    }

    /// More bytes came.
    pub(crate) fn feed(&mut self, bytes: &[u8]) -> Result<(), AllocError> {
        if self.at == self.incoming.len() {
            self.incoming.clear();
            self.at = 0;
        }
        self.incoming.extend_from_slice(bytes)
    }

    /// Whether the last read would have blocked since this was asked last.
    pub(crate) fn was_dry(&mut self) -> bool {
        std::mem::replace(&mut self.is_dry, false)
    }

    /// Whether bytes wait to be sent.
    pub(crate) fn is_pending(&self) -> bool {
        self.outgoing.pending() > 0
    }

    /// Offers what waits to be sent to the wire.
    pub(crate) fn offer<N: Wire>(&mut self, wire: &mut N, k: u32)
        ensures faults { N.faults wire.new ≡ N.faults wire.old }
        ensures first { N.first wire.new ≡ N.first wire.old }
    {
        self.outgoing.offer(wire, k);
    }
}

impl Read for Pipe {
    fn read(&mut self, buf: &mut [u8]) -> io::Result<usize> {
        let n = (self.incoming.len() - self.at).min(buf.len());
        if n == 0 {
            self.is_dry = true;
            return Err(io::Error::from(ErrorKind::WouldBlock));
        }
        buf[..n].copy_from_slice(&self.incoming[self.at..self.at + n]);
        self.at += n;
        Ok(n)
    }
}

impl Write for Pipe {
    fn write(&mut self, buf: &[u8]) -> io::Result<usize> {
        match self.outgoing.answer(buf) {
            Ok(()) => Ok(buf.len()),
            Err(_) => Err(io::Error::from(ErrorKind::OutOfMemory)),
        }
    }

    fn flush(&mut self) -> io::Result<()> {
        Ok(())
    }
}
