//! One connection of the wire inside, and how far it has come.
ghost use Rattle.std.specs.Prelude.{◌≡◌, ◌≤◌, length};

use crate::door::{Door, DoorFault, DoorIn};
use crate::knocking::{Greeted, Knocking};
use crate::pipe::Pipe;
use lp_door::wire_of;
use lp_wire::wire::Wire;
use std::alloc::{AllocError, Global};

/// How many pings and pongs may come of a player while replies wait to be sent. One who sends more and reads nothing is lost, so that
/// what waits stays bounded.
const MOST_IGNORED: u32 = 1024;

/// How far a connection has come.
#[derive(Debug, Clone, Copy, PartialEq, Eq)]
pub(crate) enum Phase {
    /// One of telnet.
    Plain,
    /// The handshake of a WebSocket is not at its end; it has no number yet.
    Knocking,
    /// A WebSocket.
    Open,
    /// The driver closed it, and the other side has not answered that yet.
    Leaving,
    /// Nothing more is read of it. It is told as lost once what waits is sent.
    Over,
}

/// What a handshake has come to.
#[derive(Debug, Clone, Copy, PartialEq, Eq)]
pub(crate) enum Answer {
    /// It is not at its end.
    Waits,
    /// There is a door.
    Opens,
    /// There will be none.
    Refused,
}

/// What is to be done with a connection.
#[derive(Debug, Clone, Copy, PartialEq, Eq)]
pub(crate) enum Care {
    /// Nothing.
    Rests,
    /// It is to be looked at again at the next poll.
    Waits,
    /// It is to be closed inside, and told as lost if it has a number.
    Ends,
}

/// A connection of the wire inside.
#[derive(Drop)]
pub(crate) struct Guest {
    /// Its number inside.
    pub(crate) inner: u32,
    /// The number under which it was told, or 0.
    pub(crate) number: u32,
    pub(crate) phase: Phase,
    /// The second in which a handshake, or one that leaves, is at its end at the latest.
    until: u64,
    ignored: u32,
    knocking: Option<Box<Knocking<Pipe>>>,
    door: Option<Box<Door<Pipe>>>,
}

impl Guest {
    /// One of telnet. Takes no memory.
    pub(crate) fn plain(inner: u32) -> Guest {
        Guest {
            inner,
            number: 0,
            phase: Phase::Plain,
            until: 0,
            ignored: 0,
            knocking: None,
            door: None,
        }
    }

    /// One that asks for a WebSocket, until a second at the latest.
    pub(crate) fn knocking(alloc: Global, inner: u32, until: u64) -> Result<Guest, AllocError> {
        let knocking = Box::new(alloc, Knocking::new(alloc, Pipe::new(alloc)))?;
        Ok(Guest {
            inner,
            number: 0,
            phase: Phase::Knocking,
            until,
            ignored: 0,
            knocking: Some(knocking),
            door: None,
        })
    }

    /// Offers what waits to be sent to the wire. Tells whether something is left.
    pub(crate) fn offer<N: Wire>(&mut self, wire: &mut N) -> bool
        ensures faults { N.faults wire.new ≡ N.faults wire.old }
        ensures first { N.first wire.new ≡ N.first wire.old }
    {
        match &mut self.door {
            Some(door) => {
                door.stream().offer(wire, self.inner);
                door.stream().is_pending()
            }
            None => match &mut self.knocking {
                Some(knocking) => {
                    knocking.stream().offer(wire, self.inner);
                    knocking.stream().is_pending()
                }
                None => false,
            },
        }
    }

    /// Goes on with the handshake, by what came.
    pub(crate) fn greet(&mut self, alloc: Global, bytes: &[u8]) -> Answer {
        let mut knocking = match self.knocking.take() {
            Some(knocking) => knocking,
            None => return Answer::Refused,
        };
        if knocking.stream().feed(bytes).is_err() {
            return Answer::Refused;
        }
        match Box::into_inner(knocking).go_on() {
            Greeted::Open(door) => self.open(alloc, door),
            Greeted::Waiting(knocking) => self.wait(alloc, knocking),
            Greeted::Refused(_) => Answer::Refused,
        }
    }

    // The handshake is at its end.
    fn open(&mut self, alloc: Global, door: Door<Pipe>) -> Answer {
        match Box::new(alloc, door) {
            Ok(door) => {
                self.door = Some(door);
                self.phase = Phase::Open;
                Answer::Opens
            }
            Err(_) => Answer::Refused,
        }
    }

    // The handshake is to go on with what comes next.
    fn wait(&mut self, alloc: Global, knocking: Knocking<Pipe>) -> Answer {
        match Box::new(alloc, knocking) {
            Ok(knocking) => {
                self.knocking = Some(knocking);
                Answer::Waits
            }
            Err(_) => Answer::Refused,
        }
    }

    /// The lines of what came, as the bytes of a telnet stream. Where nothing more will come the connection is over, which lasts until
    /// a second at the latest.
    pub(crate) fn hear(
        &mut self,
        alloc: Global,
        bytes: &[u8],
        until: u64,
    ) -> Result<Vec<u8>, AllocError> {
        let mut lines = Vec::new(alloc);
        let door = match &mut self.door {
            Some(door) => door,
            None => return Ok(lines),
        };
        door.stream().feed(bytes)?;
        let (ignored, is_over) = read_all(alloc, door, &mut lines)?;
        self.ignored = self.ignored.saturating_add(ignored);
        if is_over || self.ignored > MOST_IGNORED {
            self.end(until);
        }
        Ok(lines)
    }

    // Nothing more is read.
    fn end(&mut self, until: u64) {
        self.phase = Phase::Over;
        self.until = until;
    }

    /// Sends the bytes of whole outputs as one message, unless an earlier one still waits to be sent. Tells whether it was taken.
    pub(crate) fn say<N: Wire>(&mut self, wire: &mut N, piece: &[u8], until: u64) -> bool
        ensures faults { N.faults wire.new ≡ N.faults wire.old }
        ensures first { N.first wire.new ≡ N.first wire.old }
    {
        if self.phase != Phase::Open || self.offer(wire) {
            return false;
        }
        self.ignored = 0;
        match self.send(piece) {
            Ok(()) => true,
            Err(DoorFault::NoMemory) => false,
            Err(DoorFault::Socket) => {
                self.end(until);
                false
            }
        }
    }

    // Sends by the door.
    fn send(&mut self, piece: &[u8]) -> Result<(), DoorFault> {
        match &mut self.door {
            Some(door) => door.send(piece),
            None => Err(DoorFault::Socket),
        }
    }

    /// The driver closes an open connection: a close goes out behind all that waits, and the other side is to answer until a second at
    /// the latest.
    pub(crate) fn leave(&mut self, until: u64) {
        if self.phase == Phase::Open {
            self.phase = Phase::Leaving;
            self.until = until;
            if let Some(door) = &mut self.door {
                door.close();
            }
        }
    }

    // Has the reply to a close put behind what waits to be sent.
    fn flush(&mut self) {
        if let Some(door) = &mut self.door {
            let _ = door.flush();
        }
    }

    /// Sends what waits, and says what is to be done with the connection in this second.
    pub(crate) fn attend<N: Wire>(&mut self, wire: &mut N, now: u64) -> Care
        ensures faults { N.faults wire.new ≡ N.faults wire.old }
        ensures first { N.first wire.new ≡ N.first wire.old }
    {
        if self.phase == Phase::Over {
            self.flush();
        }
        let is_left = self.offer(wire);
        let is_late = self.until <= now;
        match self.phase {
            Phase::Plain => Care::Rests,
            Phase::Open => care_of(is_left),
            Phase::Knocking | Phase::Leaving => {
                if is_late {
                    Care::Ends
                } else {
                    care_of(is_left)
                }
            }
            Phase::Over => {
                if is_late || !is_left {
                    Care::Ends
                } else {
                    Care::Waits
                }
            }
        }
    }
}

// What is to be done with a connection of which something is left to be sent, or nothing.
fn care_of(is_left: bool) -> Care {
    if is_left { Care::Waits } else { Care::Rests }
}

/// What one read of a door came to.
#[derive(Debug, Clone, Copy, PartialEq, Eq)]
enum Came {
    /// A line.
    Line,
    /// Nothing that concerns a game.
    Ignored,
    /// Its stream has nothing more for now.
    Nothing,
    /// Nothing more will come.
    End,
}

// Puts the bytes of a line behind others.
fn put_line(alloc: Global, line: &[u8], lines: &mut Vec<u8>) -> Result<Came, AllocError> {
    let bytes = wire_of(alloc, line)?;
    lines.extend_from_slice(bytes.as_slice())?;
    Ok(Came::Line)
}

// What a read came to that failed.
fn came_of(fault: DoorFault, was_dry: bool) -> Result<Came, AllocError> {
    match fault {
        DoorFault::Socket if was_dry => Ok(Came::Nothing),
        DoorFault::Socket => Ok(Came::End),
        DoorFault::NoMemory => Err(AllocError),
    }
}

// What came of a door; a line is put behind others.
fn taken(alloc: Global, came: DoorIn, lines: &mut Vec<u8>) -> Result<Came, AllocError> {
    match came {
        DoorIn::Line(line) => put_line(alloc, line.as_slice(), lines),
        DoorIn::Ignored => Ok(Came::Ignored),
        DoorIn::Closing => Ok(Came::End),
    }
}

// Reads a door once.
fn read_one(alloc: Global, door: &mut Door<Pipe>, lines: &mut Vec<u8>) -> Result<Came, AllocError> {
    let _ = door.stream().was_dry();
    match door.read() {
        Ok(came) => taken(alloc, came, lines),
        Err(fault) => came_of(fault, door.stream().was_dry()),
    }
}

// Reads a door until its stream has nothing more: puts the lines behind others, counts what is ignored, and tells whether nothing more
// will come.
fn read_all(
    alloc: Global,
    door: &mut Door<Pipe>,
    lines: &mut Vec<u8>,
) -> Result<(u32, bool), AllocError> {
    let mut ignored = 0u32;
    for _ in 0..usize::MAX {
        match read_one(alloc, door, lines)? {
            Came::Line => {}
            Came::Ignored => ignored = ignored.saturating_add(1),
            Came::Nothing => return Ok((ignored, false)),
            Came::End => return Ok((ignored, true)),
        }
    }
    Ok((ignored, true))
}
