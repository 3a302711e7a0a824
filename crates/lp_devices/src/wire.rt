//! A wire in memory, whose connections may take little.
ghost use Rattle.std.specs.Prelude.{Some, None, if◌then◌else◌};

use crate::bounds::Bounds;
use lp_wire::{Happening, MemWire, Wire, WireCall, WireError};
use std::alloc::{AllocError, Global};
use std::collections::BTreeMap;

/// A wire in memory of which the sends of each connection by itself may be bounded. Where none is it is `MemWire`, and tells its calls;
/// else it tells nothing, as one over sockets.
#[derive(Drop)]
pub struct TestWire {
    memory: MemWire,
    bounds: Bounds,
    tells: bool,
}

// Adds bytes to those that were taken for a connection.
fn add(
    alloc: Global,
    taken: &mut BTreeMap<u32, Vec<u8>>,
    k: u32,
    bytes: &[u8],
) -> Result<(), AllocError> {
    match taken.get_mut(&k) {
        Some(before) => before.extend_from_slice(bytes),
        None => match taken.insert(k, bytes.to_vec(alloc)?) {
            Ok(_) => Ok(()),
            Err(_) => Err(AllocError),
        },
    }
}

// What was taken for each connection.
fn add_all(
    alloc: Global,
    taken: &mut BTreeMap<u32, Vec<u8>>,
    calls: &[WireCall],
) -> Result<(), AllocError> {
    for call in calls {
        if let WireCall::Took(k, bytes, _) = call {
            add(alloc, taken, *k, bytes.as_slice())?;
        }
    }
    Ok(())
}

// A block for each connection for which something was taken.
fn put_blocks(
    alloc: Global,
    text: &mut Vec<u8>,
    taken: &BTreeMap<u32, Vec<u8>>,
) -> Result<(), AllocError> {
    for (k, bytes) in taken.iter() {
        let len = bytes.len();
        if len > 0 {
            let head = format!(in alloc; "to {k} {len}\n")?;
            text.extend_from_slice(head.as_str().as_bytes())?;
            text.extend_from_slice(bytes.as_slice())?;
            text.push(b'\n')?;
        }
    }
    Ok(())
}

// A line for each connection that was closed.
fn put_closings(alloc: Global, text: &mut Vec<u8>, calls: &[WireCall]) -> Result<(), AllocError> {
    for call in calls {
        if let WireCall::Closed(k) = call {
            let line = format!(in alloc; "close {k}\n")?;
            text.extend_from_slice(line.as_str().as_bytes())?;
        }
    }
    Ok(())
}

// What was taken and closed.
fn put_calls(alloc: Global, text: &mut Vec<u8>, calls: &[WireCall]) -> Result<(), AllocError> {
    let mut taken = BTreeMap::new(alloc);
    let added = add_all(alloc, &mut taken, calls);
    let put = match added {
        Ok(()) => put_blocks(alloc, text, &taken),
        Err(e) => Err(e),
    };
    drop(taken);
    match put {
        Ok(()) => put_closings(alloc, text, calls),
        Err(e) => Err(e),
    }
}

impl TestWire {
    /// A wire with these bounds over one in memory that has none.
    pub fn new(memory: MemWire, bounds: Bounds) -> TestWire {
        let tells = bounds.is_empty();
        TestWire {
            memory,
            bounds,
            tells,
        }
    }

    /// What was taken, as a transcript has it: by rising number `to K BYTES` and the bytes for each connection for which something was
    /// taken, and then a line `close K` for each connection that was closed, in order. It is an error where there was no memory to note
    /// a call.
    pub fn taken(&self, alloc: Global) -> Result<Vec<u8>, AllocError> {
        let mut text = Vec::new(alloc);
        let put = match self.memory.calls() {
            Some(calls) => put_calls(alloc, &mut text, calls),
            None => Err(AllocError),
        };
        match put {
            Ok(()) => Ok(text),
            Err(e) => {
                drop(text);
                Err(e)
            }
        }
    }
}

impl Wire for TestWire {
    ghost faults = { λ w. w.memory.polls.failed };

    ghost first = { λ w. w.memory.moment };

    ghost calls = { λ w. if w.tells then w.memory.calls else None };

    fn opening(&self) -> u64 {
        self.memory.opening()
    }

    fn poll(&mut self) -> Result<Happening, WireError> {
        self.memory.poll()
    }

    /// Takes as many bytes as the next bound of the connection lets it.
    fn send(&mut self, k: u32, piece: &[u8]) -> usize {
        if self.tells {
            return self.memory.send(k, piece);
        }
        let room = self.bounds.room(k, piece.len());
        self.memory.send(k, &piece[..room])
    }

    fn close(&mut self, k: u32) {
        self.memory.close(k);
    }
}
