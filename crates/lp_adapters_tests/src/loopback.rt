use lp_mio_wire::MioWire;
use lp_wire::happening::Happening;
use lp_wire::wire::Wire;
use std::io;
use std::io::{Read, Write};
use std::net::TcpStream;
use std::test::Fail;

const PORT: u16 = 41925;

const CONTROL: u16 = 41926;

// The next happening of connections, within a few seconds.
fn next<N: Wire>(wire: &mut N) -> Happening {
    for _ in 0..100 {
        match wire.poll() {
            Ok(Happening::Tick(_) | Happening::Idle) => {}
            Ok(happening) => return happening,
            Err(_) => return Happening::Idle,
        }
    }
    Happening::Idle
}

// Whether the next happening is that a connection opens.
fn accepts<N: Wire>(wire: &mut N, number: u32) -> bool {
    matches!(next(wire), Happening::Accept(k) if k == number)
}

// Whether the next happening is that a connection was lost.
fn loses<N: Wire>(wire: &mut N, number: u32) -> bool {
    matches!(next(wire), Happening::Lost(k) if k == number)
}

// Whether the next happening is a whole piece.
fn hears<N: Wire>(wire: &mut N, number: u32, text: &[u8]) -> bool {
    match next(wire) {
        Happening::Piece(k, bytes) => k == number && bytes.as_slice() == text,
        _ => false,
    }
}

// A player comes, is greeted, says something and leaves.
fn player_plays<N: Wire>(rt: &HostRuntime, wire: &mut N) -> io::Result<bool> {
    let mut player = TcpStream::connect(rt, ("127.0.0.1", PORT))?;
    let accepted = accepts(wire, 1);
    let sent = wire.send(1, b"Hello".as_slice());
    let mut heard = [0; 5];
    player.read_exact(&mut heard)?;
    player.write_all(b"look\r\n".as_slice())?;
    let said = hears(wire, 1, b"look\r\n".as_slice());
    drop(player);
    let lost = loses(wire, 1);
    let late = wire.send(1, b"Hello".as_slice());
    Ok(accepted && sent == 5 && heard == *b"Hello" && said && lost && late == 0)
}

// An operator comes and says something, a second one is turned away, and the first is closed here.
fn operators_come<N: Wire>(rt: &HostRuntime, wire: &mut N) -> io::Result<bool> {
    let mut operator = TcpStream::connect(rt, ("127.0.0.1", CONTROL))?;
    let accepted = accepts(wire, 0);
    let mut second = TcpStream::connect(rt, ("127.0.0.1", CONTROL))?;
    operator.write_all(b"stop\n".as_slice())?;
    let said = hears(wire, 0, b"stop\n".as_slice());
    let mut heard = [0; 5];
    let turned_away = second.read(&mut heard)? == 0;
    wire.close(0);
    let lost = loses(wire, 0);
    let ended = operator.read(&mut heard)? == 0;
    Ok(accepted && said && turned_away && lost && ended)
}

#[test]
fn a_player_and_two_operators(rt: HostRuntime) -> Result<(), Fail> {
    let mut wire = match MioWire::listen(rt.clone()?, rt.alloc(), PORT, CONTROL, 0) {
        Ok(wire) => wire,
        Err(_) => panic!(rt; "the ports are taken"),
    };
    let played = player_plays(&rt, &mut wire);
    let operated = operators_come(&rt, &mut wire);
    drop(wire);
    assert!(rt; matches!(played, Ok(true)));
    assert!(rt; matches!(operated, Ok(true)));
    Ok(())
}
