//! A wire that has players of both kinds.
ghost use Rattle.std.specs.Prelude.{None};

use crate::stream::{HELLO, REQUEST, frame};
use lp_events::octets::Octets;
use lp_mio_wire::Entrances;
use lp_wire::happening::Happening;
use lp_wire::memory::MemWire;
use lp_wire::wire::{Wire, WireError};
use lp_wsdoor::DoorWire;
use std::alloc::{AllocError, Global};
use std::test::Fail;

/// A wire in memory at which each second connection comes in by a WebSocket. It tells nothing.
#[derive(Drop)]
struct Entered {
    wire: MemWire,
}

impl Wire for Entered {
    ghost faults = { λ w. w.wire.polls.failed };

    ghost first = { λ w. w.wire.moment };

    ghost calls = { λ _. None };

    fn opening(&self) -> u64 {
        self.wire.opening()
    }

    fn poll(&mut self) -> Result<Happening, WireError> {
        self.wire.poll()
    }

    fn send(&mut self, k: u32, piece: &[u8]) -> usize {
        self.wire.send(k, piece)
    }

    fn close(&mut self, k: u32) {
        self.wire.close(k);
    }
}

impl Entrances for Entered {
    fn is_web(&self, k: u32) -> bool {
        k % 2 == 0
    }
}

fn piece(alloc: Global, k: u32, bytes: &[u8]) -> Result<Happening, AllocError> {
    Ok(Happening::Piece(k, Octets::from_slice(alloc, bytes)?))
}

// What comes inside: one of telnet, a handshake that is not at its end, a second one of telnet, the rest of the handshake, lines, a close.
fn coming(alloc: Global) -> Result<Vec<Happening>, AllocError> {
    let mut all = Vec::new(alloc);
    all.push(Happening::Accept(1))?;
    all.push(Happening::Accept(2))?;
    all.push(piece(alloc, 2, &REQUEST[..20])?)?;
    all.push(Happening::Accept(3))?;
    all.push(piece(alloc, 3, b"look\r\n".as_slice())?)?;
    all.push(piece(alloc, 2, &REQUEST[20..])?)?;
    all.push(piece(alloc, 2, HELLO)?)?;
    all.push(piece(alloc, 0, b"stop\n".as_slice())?)?;
    all.push(piece(alloc, 2, &HELLO[..4])?)?;
    all.push(piece(alloc, 2, &HELLO[4..])?)?;
    all.push(piece(
        alloc,
        2,
        frame(alloc, 0x88, b"\x03\xe8".as_slice())?.as_slice(),
    )?)?;
    all.push(Happening::Lost(1))?;
    all.push(Happening::Lost(2))?;
    all.push(Happening::Accept(4))?;
    all.push(Happening::Tick(5))?;
    all.push(Happening::Tick(11))?;
    all.push(Happening::Lost(4))?;
    Ok(all)
}

// The next happening that is one.
fn next<N: Wire>(wire: &mut N) -> Happening {
    for _ in 0..20 {
        match wire.poll() {
            Ok(Happening::Idle) => {}
            Ok(happening) => return happening,
            Err(_) => return Happening::Idle,
        }
    }
    Happening::Idle
}

fn accepts<N: Wire>(wire: &mut N, number: u32) -> bool {
    matches!(next(wire), Happening::Accept(k) if k == number)
}

fn loses<N: Wire>(wire: &mut N, number: u32) -> bool {
    matches!(next(wire), Happening::Lost(k) if k == number)
}

fn hears<N: Wire>(wire: &mut N, number: u32, text: &[u8]) -> bool {
    match next(wire) {
        Happening::Piece(k, bytes) => k == number && bytes.as_slice() == text,
        _ => false,
    }
}

fn ticks<N: Wire>(wire: &mut N, moment: u64) -> bool {
    matches!(next(wire), Happening::Tick(now) if now == moment)
}

#[test]
fn players_of_both_kinds(rt: HostRuntime) -> Result<(), Fail> {
    let alloc = rt.alloc();
    let inside = MemWire::new(alloc, 0, coming(alloc)?, Vec::new(alloc), Vec::new(alloc));
    let mut wire = DoorWire::new(alloc, Entered { wire: inside });
    assert!(rt; accepts(&mut wire, 1) && accepts(&mut wire, 2));
    assert!(rt; hears(&mut wire, 2, b"look\r\n".as_slice()));
    assert!(rt; wire.send(3, b"x".as_slice()) == 0);
    assert!(rt; accepts(&mut wire, 3));
    assert!(rt; wire.send(1, b"Hi\r\n".as_slice()) == 4 && wire.send(3, b"Hi\r\n".as_slice()) == 4);
    assert!(rt; hears(&mut wire, 3, b"Hello\r\n".as_slice()));
    assert!(rt; hears(&mut wire, 0, b"stop\n".as_slice()));
    assert!(rt; hears(&mut wire, 3, b"Hello\r\n".as_slice()));
    assert!(rt; loses(&mut wire, 3));
    assert!(rt; loses(&mut wire, 1));
    assert!(rt; ticks(&mut wire, 5) && ticks(&mut wire, 11));
    assert!(rt; matches!(next(&mut wire), Happening::Idle));
    Ok(())
}
