//! A whole talk over one door.
use crate::stream::{ACCEPTED, HELLO, Pieces, REQUEST, frame};
use lp_wsdoor::{Door, DoorFault, DoorIn};
use std::alloc::{AllocError, Global};
use std::test::Fail;

// Whether a read gives this line.
fn hears(door: &mut Door<Pieces>, line: &[u8]) -> bool {
    match door.read() {
        Ok(DoorIn::Line(heard)) => heard.as_slice() == line,
        _ => false,
    }
}

fn ignores(door: &mut Door<Pieces>) -> bool {
    matches!(door.read(), Ok(DoorIn::Ignored))
}

fn closes(door: &mut Door<Pieces>) -> bool {
    matches!(door.read(), Ok(DoorIn::Closing))
}

// Whether what was written ends with these bytes, which are then forgotten.
fn wrote(door: &mut Door<Pieces>, bytes: &[u8]) -> bool {
    let written = &mut door.stream().written;
    let same = written.as_slice() == bytes;
    written.clear();
    same
}

// The frames of a player: a line in two pieces, nothing, one that a ping parts, bytes that no line has, a long one, a pong.
fn player(alloc: Global) -> Result<Vec<Vec<u8>>, AllocError> {
    let long = vec![in alloc; 120; 4097]?;
    let mut pieces = Vec::new(alloc);
    pieces.push(frame(alloc, 0x81, b"".as_slice())?)?;
    pieces.push(frame(alloc, 0x01, b"lo".as_slice())?)?;
    pieces.push(frame(alloc, 0x89, b"abc".as_slice())?)?;
    pieces.push(frame(alloc, 0x80, b"ok".as_slice())?)?;
    pieces.push(frame(alloc, 0x81, b"a\0b\r\nc".as_slice())?)?;
    let whole = frame(alloc, 0x81, long.as_slice())?;
    let cut = whole.len().min(4000);
    pieces.push(whole[..cut].to_vec(alloc)?)?;
    pieces.push(whole[cut..].to_vec(alloc)?)?;
    pieces.push(frame(alloc, 0x8A, b"".as_slice())?)?;
    Ok(pieces)
}

// A talk that ends with a frame; what is to come of it is told by the caller.
fn opened(alloc: Global, last: &[u8]) -> Result<Result<Door<Pieces>, DoorFault>, AllocError> {
    let mut all = Vec::new(alloc);
    all.push(REQUEST.to_vec(alloc)?)?;
    all.push(HELLO[..3].to_vec(alloc)?)?;
    all.push(HELLO[3..].to_vec(alloc)?)?;
    for piece in player(alloc)? {
        all.push(piece)?;
    }
    all.push(last.to_vec(alloc)?)?;
    let mut slices = Vec::new(alloc);
    for piece in &all {
        slices.push(piece.as_slice())?;
    }
    Ok(Door::accept(alloc, Pieces::new(alloc, slices.as_slice())?))
}

// What was read of the player, and what was sent.
fn talks(alloc: Global, door: &mut Door<Pieces>) -> Result<bool, AllocError> {
    let long = vec![in alloc; 120; 4096]?;
    let greeted = door
        .stream()
        .written
        .windows(ACCEPTED.len())
        .any(|w| w == ACCEPTED);
    door.stream().written.clear();
    let heard = hears(door, b"Hello".as_slice()) && hears(door, b"".as_slice());
    let said = door.send(b"Hello".as_slice()).is_ok() && wrote(door, b"\x81\x05Hello".as_slice());
    let marked = door.send(b"Hi\r\n\xff\xfb\x01".as_slice()).is_ok()
        && wrote(door, b"\x81\x04Hi\n\x02".as_slice());
    let pinged = ignores(door) && hears(door, b"look".as_slice());
    let ponged = wrote(door, b"\x8a\x03abc".as_slice());
    let rest = hears(door, b"abc".as_slice()) && hears(door, long.as_slice()) && ignores(door);
    Ok(greeted && heard && said && marked && pinged && ponged && rest)
}

#[test]
fn a_binary_message_ends_a_talk(rt: HostRuntime) -> Result<(), Fail> {
    let alloc = rt.alloc();
    let last = frame(alloc, 0x82, b"abc".as_slice())?;
    let mut door = match opened(alloc, last.as_slice())? {
        Ok(door) => door,
        Err(_) => panic!(rt; "the handshake is refused"),
    };
    assert!(rt; talks(alloc, &mut door)?);
    assert!(rt; closes(&mut door));
    assert!(rt; wrote(&mut door, b"\x88\x02\x03\xeb".as_slice()));
    Ok(())
}

#[test]
fn a_close_ends_a_talk(rt: HostRuntime) -> Result<(), Fail> {
    let alloc = rt.alloc();
    let last = frame(alloc, 0x88, b"\x03\xe8".as_slice())?;
    let mut door = match opened(alloc, last.as_slice())? {
        Ok(door) => door,
        Err(_) => panic!(rt; "the handshake is refused"),
    };
    assert!(rt; talks(alloc, &mut door)?);
    assert!(rt; closes(&mut door));
    assert!(rt; door.flush().is_ok());
    assert!(rt; wrote(&mut door, b"\x88\x02\x03\xe8".as_slice()));
    Ok(())
}

#[test]
fn what_asks_for_no_socket_is_refused(rt: HostRuntime) -> Result<(), Fail> {
    let alloc = rt.alloc();
    let stream = Pieces::new(alloc, &[b"GET / HTTP/1.1\r\nHost: x\r\n\r\n".as_slice()])?;
    assert!(rt; matches!(Door::accept(alloc, stream), Err(DoorFault::Socket)));
    Ok(())
}
