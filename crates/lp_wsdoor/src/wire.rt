//! A wire that has players in a browser beside those of telnet.
ghost use Rattle.std.specs.Prelude.{◌≡◌, ◌≤◌, ◌+◌, ◌^◌, None, IfOk, IfSome, OnErr, length, min};
ghost use Rattle.lp_io.specs.Counts.{Counts};
ghost use Rattle.lp_wire.specs.Wires.{is_failed};
ghost use Rattle.lp_mio_wire.specs.Given.{IsNumbered};
ghost use Rattle.lp_wire.specs.declared.happening.Happening.TheVariants as idle;

use crate::guest::{Answer, Care, Guest, Phase};
use crate::guests::Guests;
use lp_events::octets::Octets;
use lp_mio_wire::Entrances;
use lp_wire::happening::Happening;
use lp_wire::wire::{Wire, WireError};
use std::alloc::{AllocError, Global};

/// In which second behind its first a handshake that is not at its end is dropped, so that it has 10 seconds, and never 12.
const KNOCK: u64 = 11;

/// How many seconds a connection that is closed may take to close too.
const LEAVE: u64 = 2;

/// A wire over another one. Connections that ask for a WebSocket are told once their handshake is done, and from then on are as any
/// other: their text messages are lines, and what is sent to them goes in whole text messages. All have numbers of one counter, which
/// is this wire's own. It tells nothing of its calls.
#[derive(Drop)]
pub struct DoorWire<N> {
    alloc: Global,
    wire: N,
    guests: Guests,
    highest: u32,
    second: u64,
    /// Something may be left to be sent, or a connection may be at its end.
    is_busy: bool,
}

impl<N: Wire + Entrances> DoorWire<N> {
    /// A wire over one that has given nothing yet. Takes no memory.
    pub fn new(alloc: Global, wire: N) -> DoorWire<N>
        ensures wire { result.wire ≡ wire }
        ensures highest { result.highest ≡ 0 }
    {
        let second = wire.opening();
        DoorWire {
            alloc,
            wire,
            guests: Guests::new(alloc),
            highest: 0,
            second,
            is_busy: false,
        }
    }

    // A connection opens inside: one of telnet has the next number, one that asks for a WebSocket has none yet.
    fn come(&mut self, inner: u32) -> Happening
        ensures faults { N.faults self.new.wire ≡ N.faults self.old.wire }
        ensures first { N.first self.new.wire ≡ N.first self.old.wire }
        ensures numbered { IsNumbered result self.old.highest self.new.highest }
    {
        let is_web = self.wire.is_web(inner);
        match self.add(inner, is_web) {
            Ok(_) if is_web => Happening::Idle,
            Ok(key) => self.admit(key),
            Err(_) => {
                self.wire.close(inner);
                Happening::Idle
            }
        }
    }

    // Takes a connection in, under a key.
    fn add(&mut self, inner: u32, is_web: bool) -> Result<usize, AllocError>
        ensures wire { self.new.wire ≡ self.old.wire }
        ensures highest { self.new.highest ≡ self.old.highest }
    {
        if is_web {
            let until = self.second.saturating_add(KNOCK);
            let guest = Guest::knocking(self.alloc, inner, until)?;
            self.guests.add(guest)
        } else {
            self.guests.add(Guest::plain(inner))
        }
    }

    // Tells a connection under the next number. Where there is none, or no memory, it is closed.
    fn admit(&mut self, key: usize) -> Happening
        ensures faults { N.faults self.new.wire ≡ N.faults self.old.wire }
        ensures first { N.first self.new.wire ≡ N.first self.old.wire }
        ensures numbered { IsNumbered result self.old.highest self.new.highest }
    {
        if self.highest == u32::MAX {
            return self.refuse(key);
        }
        let number = self.highest + 1;
        match self.guests.name(key, number) {
            Ok(()) => {
                self.highest = number;
                Happening::Accept(number)
            }
            Err(_) => self.refuse(key),
        }
    }

    // Closes a connection that was not told.
    fn refuse(&mut self, key: usize) -> Happening
        ensures faults { N.faults self.new.wire ≡ N.faults self.old.wire }
        ensures first { N.first self.new.wire ≡ N.first self.old.wire }
        ensures highest { self.new.highest ≡ self.old.highest }
        ensures idle { result ≡ idle.Idle }
    {
        if let Some((inner, _)) = self.guests.remove(key) {
            self.wire.close(inner);
        }
        Happening::Idle
    }

    // Bytes came inside.
    fn take(&mut self, inner: u32, bytes: Octets) -> Result<Happening, AllocError>
        ensures faults { N.faults self.new.wire ≡ N.faults self.old.wire }
        ensures first { N.first self.new.wire ≡ N.first self.old.wire }
        ensures numbered { IfOk result (λ h. IsNumbered h self.old.highest self.new.highest) }
        ensures kept { OnErr result (self.new.highest ≡ self.old.highest) }
    {
        let (key, phase, number) = match self.guest_inside(inner) {
            Some(found) => found,
            None => return Ok(Happening::Idle),
        };
        match phase {
            Phase::Plain => Ok(Happening::Piece(number, bytes)),
            Phase::Knocking => Ok(self.greet(key, bytes)),
            Phase::Open | Phase::Leaving => self.hear(key, bytes),
            Phase::Over => Ok(Happening::Idle),
        }
    }

    // The key, the phase and the number of a connection by its number inside.
    fn guest_inside(&mut self, inner: u32) -> Option<(usize, Phase, u32)>
        ensures wire { self.new.wire ≡ self.old.wire }
        ensures highest { self.new.highest ≡ self.old.highest }
    {
        let key = match self.guests.key_inside(inner) {
            Some(key) => key,
            None => return None,
        };
        match self.guests.get_mut(key) {
            Some(guest) => Some((key, guest.phase, guest.number)),
            None => None,
        }
    }

    // Goes on with a handshake: at its end the connection is told.
    fn greet(&mut self, key: usize, bytes: Octets) -> Happening
        ensures faults { N.faults self.new.wire ≡ N.faults self.old.wire }
        ensures first { N.first self.new.wire ≡ N.first self.old.wire }
        ensures numbered { IsNumbered result self.old.highest self.new.highest }
    {
        match self.answer(key, bytes) {
            Answer::Waits => Happening::Idle,
            Answer::Opens => self.admit(key),
            Answer::Refused => self.refuse(key),
        }
    }

    // What a handshake comes to by these bytes. What it answers is sent.
    fn answer(&mut self, key: usize, bytes: Octets) -> Answer
        ensures faults { N.faults self.new.wire ≡ N.faults self.old.wire }
        ensures first { N.first self.new.wire ≡ N.first self.old.wire }
        ensures highest { self.new.highest ≡ self.old.highest }
    {
        let guest = match self.guests.get_mut(key) {
            Some(guest) => guest,
            None => return Answer::Refused,
        };
        let answer = guest.greet(self.alloc, bytes.as_slice());
        if guest.offer(&mut self.wire) {
            self.is_busy = true;
        }
        answer
    }

    // The lines of what came of a WebSocket, as a piece of a telnet stream; none of one that the driver has closed.
    fn hear(&mut self, key: usize, bytes: Octets) -> Result<Happening, AllocError>
        ensures faults { N.faults self.new.wire ≡ N.faults self.old.wire }
        ensures first { N.first self.new.wire ≡ N.first self.old.wire }
        ensures numbered { IfOk result (λ h. IsNumbered h self.old.highest self.new.highest) }
        ensures kept { OnErr result (self.new.highest ≡ self.old.highest) }
    {
        let until = self.second.saturating_add(LEAVE);
        let guest = match self.guests.get_mut(key) {
            Some(guest) => guest,
            None => return Ok(Happening::Idle),
        };
        let is_leaving = guest.phase == Phase::Leaving;
        let number = guest.number;
        let lines = guest.hear(self.alloc, bytes.as_slice(), until)?;
        if guest.offer(&mut self.wire) || guest.phase == Phase::Over {
            self.is_busy = true;
        }
        if is_leaving || lines.is_empty() {
            return Ok(Happening::Idle);
        }
        Ok(Happening::Piece(number, Octets::from_vec(lines)))
    }

    // A connection was lost inside.
    fn lose(&mut self, inner: u32) -> Happening
        ensures wire { self.new.wire ≡ self.old.wire }
        ensures numbered { IsNumbered result self.old.highest self.new.highest }
    {
        let key = match self.guests.key_inside(inner) {
            Some(key) => key,
            None => return Happening::Idle,
        };
        match self.guests.remove(key) {
            Some((_, 0)) => Happening::Idle,
            Some((_, number)) => Happening::Lost(number),
            None => Happening::Idle,
        }
    }

    // Something came of the wire inside.
    fn pass_on(&mut self, came: Happening) -> Result<Happening, AllocError>
        ensures faults { N.faults self.new.wire ≡ N.faults self.old.wire }
        ensures first { N.first self.new.wire ≡ N.first self.old.wire }
        ensures numbered { IfOk result (λ h. IsNumbered h self.old.highest self.new.highest) }
        ensures kept { OnErr result (self.new.highest ≡ self.old.highest) }
    {
        match came {
            Happening::Accept(0) => Ok(Happening::Accept(0)),
            Happening::Accept(inner) => Ok(self.come(inner)),
            Happening::Piece(0, bytes) => Ok(Happening::Piece(0, bytes)),
            Happening::Piece(inner, bytes) => self.take(inner, bytes),
            Happening::Lost(0) => Ok(Happening::Lost(0)),
            Happening::Lost(inner) => Ok(self.lose(inner)),
            Happening::Tick(moment) => {
                self.second = moment;
                self.is_busy = true;
                Ok(Happening::Tick(moment))
            }
            Happening::Idle => Ok(Happening::Idle),
        }
    }

    // Sends what waits, and looks for connections that are at their end: the number of one that is to be told as lost, closed inside.
    fn attend(&mut self) -> Option<u32>
        ensures faults { N.faults self.new.wire ≡ N.faults self.old.wire }
        ensures first { N.first self.new.wire ≡ N.first self.old.wire }
        ensures highest { self.new.highest ≡ self.old.highest }
    {
        self.is_busy = false;
        for key in 0..self.guests.end() {
            if let Some(number) = self.attend_one(key) {
                self.is_busy = true;
                return Some(number);
            }
        }
        None
    }

    // The same for one connection.
    fn attend_one(&mut self, key: usize) -> Option<u32>
        ensures faults { N.faults self.new.wire ≡ N.faults self.old.wire }
        ensures first { N.first self.new.wire ≡ N.first self.old.wire }
        ensures highest { self.new.highest ≡ self.old.highest }
    {
        let care = match self.guests.get_mut(key) {
            Some(guest) => guest.attend(&mut self.wire, self.second),
            None => Care::Rests,
        };
        match care {
            Care::Rests => None,
            Care::Waits => {
                self.is_busy = true;
                None
            }
            Care::Ends => self.end(key),
        }
    }

    // Closes a connection inside: its number, if it was told.
    fn end(&mut self, key: usize) -> Option<u32>
        ensures faults { N.faults self.new.wire ≡ N.faults self.old.wire }
        ensures first { N.first self.new.wire ≡ N.first self.old.wire }
        ensures highest { self.new.highest ≡ self.old.highest }
    {
        let (inner, number) = match self.guests.remove(key) {
            Some(both) => both,
            None => return None,
        };
        self.wire.close(inner);
        if number == 0 { None } else { Some(number) }
    }

    // The key, the phase and the number inside of a connection that was told.
    fn guest_told(&mut self, number: u32) -> Option<(usize, Phase, u32)>
        ensures wire { self.new.wire ≡ self.old.wire }
        ensures highest { self.new.highest ≡ self.old.highest }
    {
        let key = match self.guests.key_told(number) {
            Some(key) => key,
            None => return None,
        };
        match self.guests.get_mut(key) {
            Some(guest) => Some((key, guest.phase, guest.inner)),
            None => None,
        }
    }

    // Sends a piece to a WebSocket as one message: how many bytes of it were taken, all or none.
    fn say(&mut self, key: usize, piece: &[u8]) -> usize
        ensures within { result ≤ length piece.now }
        ensures faults { N.faults self.new.wire ≡ N.faults self.old.wire }
        ensures first { N.first self.new.wire ≡ N.first self.old.wire }
        ensures highest { self.new.highest ≡ self.old.highest }
    {
        let until = self.second.saturating_add(LEAVE);
        let guest = match self.guests.get_mut(key) {
            Some(guest) => guest,
            None => return 0,
        };
        let is_taken = guest.say(&mut self.wire, piece, until);
        if guest.offer(&mut self.wire) || guest.phase == Phase::Over {
            self.is_busy = true;
        }
        if is_taken { piece.len() } else { 0 }
    }

    // Begins the close of a WebSocket.
    fn leave(&mut self, key: usize)
        ensures faults { N.faults self.new.wire ≡ N.faults self.old.wire }
        ensures first { N.first self.new.wire ≡ N.first self.old.wire }
        ensures highest { self.new.highest ≡ self.old.highest }
    {
        let until = self.second.saturating_add(LEAVE);
        if let Some(guest) = self.guests.get_mut(key) {
            guest.leave(until);
            if guest.offer(&mut self.wire) {
                self.is_busy = true;
            }
        }
    }
}

impl<N: Wire + Entrances> Wire for DoorWire<N> {
    ghost faults = { λ w. N.faults w.wire };

    ghost first = { λ w. N.first w.wire };

    ghost calls = { λ _. None };

    fn opening(&self) -> u64 {
        self.wire.opening()
    }

    /// The next happening: one that is told as lost of a WebSocket that is at its end, else what comes of the wire inside, by its
    /// handshakes and messages. It fails where that fails.
    fn poll(&mut self) -> Result<Happening, WireError>
        ensures faults { Counts (is_failed result) (N.faults self.old.wire) (N.faults self.new.wire) }
        ensures no_fall { N.faults self.old.wire ≤ N.faults self.new.wire }
        ensures first { N.first self.new.wire ≡ N.first self.old.wire }
        ensures numbered { IfOk result (λ h. IsNumbered h self.old.highest self.new.highest) }
        ensures kept { OnErr result (self.new.highest ≡ self.old.highest) }
    {
        if self.is_busy {
            if let Some(number) = self.attend() {
                return Ok(Happening::Lost(number));
            }
        }
        let came = match self.wire.poll() {
            Ok(came) => came,
            Err(e) => return Err(e),
        };
        match self.pass_on(came) {
            Ok(next) => Ok(next),
            Err(_) => Err(WireError::NoMemory),
        }
    }

    /// Offers bytes to the wire inside, or, for a WebSocket, takes all of them as one text message, or none where an earlier one still
    /// waits to be sent.
    fn send(&mut self, k: u32, piece: &[u8]) -> usize
        ensures within { result ≤ length piece.now }
        ensures faults { N.faults self.new.wire ≡ N.faults self.old.wire }
        ensures first { N.first self.new.wire ≡ N.first self.old.wire }
        ensures highest { self.new.highest ≡ self.old.highest }
    {
        if k == 0 {
            return self.wire.send(0, piece);
        }
        match self.guest_told(k) {
            Some((_, Phase::Plain, inner)) => self.wire.send(inner, piece),
            Some((key, _, _)) => self.say(key, piece),
            None => 0,
        }
    }

    /// Closes a connection of the wire inside; a WebSocket is sent a close, and has 2 seconds to answer it.
    fn close(&mut self, k: u32)
        ensures faults { N.faults self.new.wire ≡ N.faults self.old.wire }
        ensures first { N.first self.new.wire ≡ N.first self.old.wire }
        ensures highest { self.new.highest ≡ self.old.highest }
    {
        if k == 0 {
            self.wire.close(0);
            return;
        }
        match self.guest_told(k) {
            Some((_, Phase::Plain, inner)) => self.wire.close(inner),
            Some((key, _, _)) => self.leave(key),
            None => {}
        }
    }
}
