//! A stream in memory.
use std::alloc::{AllocError, Global};
use std::io;
use std::io::{ErrorKind, Read, Write};

/// What a client asks with, by the specification of the protocol.
pub const REQUEST: &[u8] =
    b"GET /chat HTTP/1.1\r\nHost: server.example.com\r\nUpgrade: websocket\r\nConnection: Upgrade\r\nSec-WebSocket-Key: dGhlIHNhbXBsZSBub25jZQ==\r\nSec-WebSocket-Version: 13\r\n\r\n";

/// The key with which a server answers that.
pub const ACCEPTED: &[u8] = b"s3pPLMBiTxaQ9kYGzzhZRbK+xOo=";

/// A masked text message `Hello`.
pub const HELLO: &[u8] = b"\x81\x85\x37\xfa\x21\x3d\x7f\x9f\x4d\x51\x58";

/// A stream that gives one listed piece a read, and then ends; it keeps what is written.
#[derive(Drop)]
pub struct Pieces {
    pieces: Vec<Vec<u8>>,
    given: usize,
    pub written: Vec<u8>,
}

impl Pieces {
    /// A stream of these pieces, each of at most 4096 bytes.
    pub fn new(alloc: Global, pieces: &[&[u8]]) -> Result<Pieces, AllocError> {
        let mut own = Vec::new(alloc);
        for piece in pieces {
            own.push(piece.to_vec(alloc)?)?;
        }
        Ok(Pieces {
            pieces: own,
            given: 0,
            written: Vec::new(alloc),
        })
    }
}

impl Read for Pieces {
    fn read(&mut self, buf: &mut [u8]) -> io::Result<usize> {
        let piece = match self.pieces.get(self.given) {
            Some(piece) => piece,
            None => return Ok(0),
        };
        if buf.len() < piece.len() {
            return Err(io::Error::from(ErrorKind::InvalidInput));
        }
        buf[..piece.len()].copy_from_slice(piece.as_slice());
        self.given = self.given.saturating_add(1);
        Ok(piece.len())
    }
}

impl Write for Pieces {
    fn write(&mut self, buf: &[u8]) -> io::Result<usize> {
        match self.written.extend_from_slice(buf) {
            Ok(()) => Ok(buf.len()),
            Err(_) => Err(io::Error::from(ErrorKind::OutOfMemory)),
        }
    }

    fn flush(&mut self) -> io::Result<()> {
        Ok(())
    }
}

/// A frame of a client, masked with four bytes 0: the payload as it is. It has at most 65535 bytes.
pub fn frame(alloc: Global, kind: u8, payload: &[u8]) -> Result<Vec<u8>, AllocError> {
    let mut bytes = Vec::new(alloc);
    bytes.push(kind)?;
    if payload.len() < 126 {
        bytes.push(128 | payload.len() as u8)?;
    } else {
        bytes.push(128 | 126)?;
        bytes.push((payload.len() / 256 % 256) as u8)?;
        bytes.push((payload.len() % 256) as u8)?;
    }
    bytes.extend_from_slice(&[0, 0, 0, 0])?;
    bytes.extend_from_slice(payload)?;
    Ok(bytes)
}
