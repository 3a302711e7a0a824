//! The listeners and the connections, and what comes of them.
ghost use Rattle.std.specs.Prelude.{◌≡◌, ◌≤◌, ◌+◌, ◌⊎◌, ℕ, length, IfOk, OnErr, None};
ghost use Rattle.lp_mio_wire.specs.Given.{MayCome};

use crate::connection::{Came, Connection, Phase};
use crate::door::{Door, Knock};
use crate::ring::Ring;
use lp_events::octets::Octets;
use lp_wire::happening::Happening;
use mio::net::TcpStream;
use mio::{Events, Interest, Poll, Registry, Token};
use slab::Slab;
use std::alloc::{AllocError, Global};
use std::collections::BTreeMap;
use std::io;
use std::time::Duration;

/// The token of the players' listener. No key of a slab is so large.
pub(crate) const PLAYERS: usize = usize::MAX;

/// The token of the operator's listener.
pub(crate) const OPERATOR: usize = usize::MAX - 1;

/// The token of the listener of WebSockets.
pub(crate) const WEB: usize = usize::MAX - 2;

/// The most bytes of one piece.
const PIECE: usize = 4096;

/// The most connections of players that are held at a time, those that leave among them. Further ones wait in the system.
const MOST: usize = 512;

/// The most of all, so that the operator still comes in where the players' are all there.
const MOST_OF_ALL: usize = MOST + 8;

/// How long a round waits for something to come, in milliseconds.
const PATIENCE: u64 = 100;

/// Connections under keys, which are the tokens of their sockets, and found by their numbers.
#[derive(Drop)]
pub(crate) struct Connections {
    slots: Slab<Connection>,
    /// The keys of those that were not told as lost.
    keys: BTreeMap<u32, usize>,
    ring: Ring,
}

/// All sockets of a wire.
#[derive(Drop)]
pub(crate) struct Sockets {
    alloc: Global,
    poll: Poll,
    events: Events,
    players: Door,
    operator: Door,
    web: Option<Door>,
    connections: Connections,
    highest: u32,
    refused: u64,
}

impl Connections {
    /// None. Takes no memory.
    pub(crate) fn new(alloc: Global) -> Connections {
        Connections {
            slots: Slab::new(alloc),
            keys: BTreeMap::new(alloc),
            ring: Ring::new(alloc),
        }
    }

    // Makes room in the ring for one more connection and all listeners.
    fn make_room(&mut self) -> Result<(), AllocError> {
        self.ring.make_room(self.slots.len().saturating_add(4))
    }

    // Takes a connection in under its number. All room is made first, so that its key can always be listed.
    fn take_in(
        &mut self,
        registry: &Registry,
        mut stream: TcpStream,
        number: u32,
        is_web: bool,
    ) -> io::Result<()> {
        let key = self.slots.vacant_key();
        let _ = stream.set_nodelay(true);
        self.make_room()?;
        self.slots.reserve(1)?;
        self.keys.insert(number, key)?;
        let both = Interest::READABLE | Interest::WRITABLE;
        match registry.register(&mut stream, Token(key), both) {
            Ok(()) => {
                self.slots
                    .insert_reserved(Connection::new(stream, number, is_web));
                Ok(())
            }
            Err(e) => {
                self.keys.remove(&number);
                Err(e)
            }
        }
    }

    /// Whether a connection that was not told as lost came in at the listener of WebSockets.
    pub(crate) fn is_web(&self, number: u32) -> bool {
        match self.keys.get(&number) {
            Some(key) => match self.slots.get(*key) {
                Some(connection) => connection.is_web,
                None => false,
            },
            None => false,
        }
    }

    // Puts the key of a connection into the ring, if it is not there.
    fn list(&mut self, key: usize) {
        if let Some(connection) = self.slots.get_mut(key) {
            if !connection.is_listed {
                connection.is_listed = self.ring.push(key);
            }
        }
    }

    // A connection that stood in the ring has its turn: what it has come to.
    fn turn(&mut self, key: usize) -> Option<Phase> {
        match self.slots.get_mut(key) {
            Some(connection) => {
                connection.is_listed = false;
                Some(connection.phase)
            }
            None => None,
        }
    }

    // A piece of an open connection, or that it is lost.
    fn read(&mut self, alloc: Global, key: usize) -> Result<Option<Happening>, AllocError>
        ensures { IfOk result (λ next. (n : ℕ) → MayCome next n n) }
    {
        let mut bytes = match vec![in alloc; 0; PIECE] {
            Ok(bytes) => bytes,
            Err(e) => {
                self.list(key);
                return Err(e);
            }
        };
        let (number, came) = match self.slots.get_mut(key) {
            Some(connection) => (connection.number, connection.read(&mut bytes)),
            None => return Ok(None),
        };
        match came {
            Came::Nothing => Ok(None),
            Came::Bytes(n) => {
                self.list(key);
                bytes.truncate(n);
                Ok(Some(Happening::Piece(number, Octets::from_vec(bytes))))
            }
            Came::End => {
                self.slots.try_remove(key);
                self.keys.remove(&number);
                Ok(Some(Happening::Lost(number)))
            }
        }
    }

    // A connection that was closed here is told as lost, and leaves.
    fn tell_lost(&mut self, key: usize) -> Option<Happening>
        ensures { (n : ℕ) → MayCome result n n }
    {
        let number = match self.slots.get_mut(key) {
            Some(connection) => {
                connection.phase = Phase::Leaving;
                connection.number
            }
            None => return None,
        };
        self.keys.remove(&number);
        self.list(key);
        Some(Happening::Lost(number))
    }

    // Throws away a piece of a connection that leaves, or drops it, where it is at its end or its time is over.
    fn drain(&mut self, key: usize, now: u64) {
        let mut buffer = [0; PIECE];
        let came = match self.slots.get_mut(key) {
            Some(connection) if now < connection.until => connection.read(&mut buffer),
            _ => Came::End,
        };
        match came {
            Came::Bytes(_) => self.list(key),
            Came::Nothing => {}
            Came::End => {
                self.slots.try_remove(key);
            }
        }
    }

    /// Has those looked at that leave and whose time is over.
    pub(crate) fn list_overdue(&mut self, now: u64) {
        for key in 0..self.slots.capacity() {
            let is_overdue = match self.slots.get(key) {
                Some(connection) => {
                    connection.phase == Phase::Leaving && connection.until <= now
                }
                None => false,
            };
            if is_overdue {
                self.list(key);
            }
        }
    }

    /// Sends once: how many bytes the system took. A connection that is not open takes none. Where a send failed the
    /// connection is read, which tells whether it is lost.
    pub(crate) fn send(&mut self, number: u32, piece: &[u8]) -> usize
        ensures { result ≤ length piece.now }
    {
        let key = match self.keys.get(&number) {
            Some(key) => *key,
            None => return 0,
        };
        let (sent, is_broken) = match self.slots.get_mut(key) {
            Some(connection) if connection.phase == Phase::Open => {
                (connection.write(piece), connection.is_broken)
            }
            _ => return 0,
        };
        if is_broken {
            self.list(key);
        }
        sent
    }

    /// Closes an open connection, which then leaves until a second at the latest.
    pub(crate) fn close(&mut self, number: u32, until: u64) {
        let key = match self.keys.get(&number) {
            Some(key) => *key,
            None => return,
        };
        if let Some(connection) = self.slots.get_mut(key) {
            if connection.phase == Phase::Open {
                connection.end(until);
            }
        }
        self.list(key);
    }
}

// Has the listener of WebSockets looked at, where there is one.
fn list_web(web: &mut Option<Door>, connections: &mut Connections) {
    if let Some(web) = web {
        web.list(WEB, &mut connections.ring);
    }
}

// Has all looked at of which the system told.
fn list_told(
    events: &Events,
    players: &mut Door,
    operator: &mut Door,
    web: &mut Option<Door>,
    connections: &mut Connections,
) {
    for event in events {
        match event.token().0 {
            PLAYERS => players.list(PLAYERS, &mut connections.ring),
            OPERATOR => operator.list(OPERATOR, &mut connections.ring),
            WEB => list_web(web, connections),
            key => connections.list(key),
        }
    }
}

impl Sockets {
    /// The sockets of these listeners, which were registered with the poll.
    pub(crate) fn new(
        alloc: Global,
        poll: Poll,
        events: Events,
        players: Door,
        operator: Door,
        web: Option<Door>,
    ) -> Sockets
        ensures { result.highest ≡ 0 }
    {
        Sockets {
            alloc,
            poll,
            events,
            players,
            operator,
            web,
            connections: Connections::new(alloc),
            highest: 0,
            refused: 0,
        }
    }

    /// Whether the round is over.
    pub(crate) fn is_over(&self) -> bool {
        self.connections.ring.left() == 0
    }

    /// Begins a round over what may have something. Where that is nothing, it waits until something comes, for a while.
    pub(crate) fn begin(&mut self) -> io::Result<()>
        ensures { self.new.highest ≡ self.old.highest }
    {
        let patience = if self.connections.ring.is_empty() {
            PATIENCE
        } else {
            0
        };
        self.poll
            .poll(&mut self.events, Some(Duration::from_millis(patience)))?;
        self.list_put_off();
        list_told(
            &self.events,
            &mut self.players,
            &mut self.operator,
            &mut self.web,
            &mut self.connections,
        );
        self.connections.ring.begin();
        Ok(())
    }

    // Has the listeners asked again that could not be served before.
    fn list_put_off(&mut self)
        ensures { self.new.highest ≡ self.old.highest }
    {
        if self.players.is_put_off {
            self.players.is_put_off = false;
            self.players.list(PLAYERS, &mut self.connections.ring);
        }
        if self.operator.is_put_off {
            self.operator.is_put_off = false;
            self.operator.list(OPERATOR, &mut self.connections.ring);
        }
        if let Some(web) = &mut self.web {
            if web.is_put_off {
                web.is_put_off = false;
                web.list(WEB, &mut self.connections.ring);
            }
        }
    }

    /// Goes on with the round: the next that has something, or nothing where the round is over.
    pub(crate) fn next(&mut self, now: u64) -> Result<Option<Happening>, AllocError>
        ensures ok { IfOk result (λ next. MayCome next self.old.highest self.new.highest) }
        ensures err { OnErr result (self.new.highest ≡ self.old.highest) }
    {
        for _ in 0..self.connections.ring.left() {
            let key = match self.connections.ring.next() {
                Some(key) => key,
                None => return Ok(None),
            };
            if let Some(next) = self.look(key, now)? {
                return Ok(Some(next));
            }
        }
        Ok(None)
    }

    // What one key of the round has.
    fn look(&mut self, key: usize, now: u64) -> Result<Option<Happening>, AllocError>
        ensures ok { IfOk result (λ next. MayCome next self.old.highest self.new.highest) }
        ensures err { OnErr result (self.new.highest ≡ self.old.highest) }
    {
        match key {
            PLAYERS => Ok(self.accept_player()),
            OPERATOR => Ok(self.accept_operator()),
            WEB => Ok(self.accept_web()),
            _ => match self.connections.turn(key) {
                Some(Phase::Open) => self.connections.read(self.alloc, key),
                Some(Phase::Closed) => Ok(self.connections.tell_lost(key)),
                Some(Phase::Leaving) => {
                    self.connections.drain(key, now);
                    Ok(None)
                }
                None => Ok(None),
            },
        }
    }

    // The next player who waits, under the next number.
    fn accept_player(&mut self) -> Option<Happening>
        ensures { MayCome result self.old.highest self.new.highest }
    {
        self.players.is_listed = false;
        if self.connections.slots.len() >= MOST || self.highest == u32::MAX {
            self.players.is_put_off = true;
            return None;
        }
        match self.players.knock() {
            Knock::Peer(stream) => {
                self.players.list(PLAYERS, &mut self.connections.ring);
                self.take_in(stream, self.highest + 1, false)
            }
            Knock::Nobody => None,
            Knock::Refused => {
                self.players.is_put_off = true;
                self.refuse()
            }
        }
    }

    // The next who waits at the listener of WebSockets, under the next number.
    fn accept_web(&mut self) -> Option<Happening>
        ensures { MayCome result self.old.highest self.new.highest }
    {
        let is_full = self.connections.slots.len() >= MOST || self.highest == u32::MAX;
        let web = match &mut self.web {
            Some(web) => web,
            None => return None,
        };
        web.is_listed = false;
        if is_full {
            web.is_put_off = true;
            return None;
        }
        match web.knock() {
            Knock::Peer(stream) => {
                web.list(WEB, &mut self.connections.ring);
                self.take_in(stream, self.highest + 1, true)
            }
            Knock::Nobody => None,
            Knock::Refused => {
                web.is_put_off = true;
                self.refuse()
            }
        }
    }

    // The operator who waits, where none is connected; a second one is closed at once.
    fn accept_operator(&mut self) -> Option<Happening>
        ensures { MayCome result self.old.highest self.new.highest }
    {
        self.operator.is_listed = false;
        if self.connections.slots.len() >= MOST_OF_ALL {
            self.operator.is_put_off = true;
            return None;
        }
        match self.operator.knock() {
            Knock::Peer(stream) => {
                self.operator.list(OPERATOR, &mut self.connections.ring);
                if self.connections.keys.contains_key(&0) {
                    return None;
                }
                self.take_in(stream, 0, false)
            }
            Knock::Nobody => None,
            Knock::Refused => {
                self.operator.is_put_off = true;
                self.refuse()
            }
        }
    }

    // Takes a connection in, which is the operator's or has the next number.
    fn take_in(&mut self, stream: TcpStream, number: u32, is_web: bool) -> Option<Happening>
        requires { (number ≡ 0) ⊎ (number ≡ self.old.highest + 1) }
        ensures { MayCome result self.old.highest self.new.highest }
    {
        match self
            .connections
            .take_in(self.poll.registry(), stream, number, is_web)
        {
            Ok(()) => {
                self.highest = self.highest.max(number);
                Some(Happening::Accept(number))
            }
            Err(_) => self.refuse(),
        }
    }

    // Counts a connection that could not be taken in.
    fn refuse(&mut self) -> Option<Happening>
        ensures nothing { result ≡ None }
        ensures highest { self.new.highest ≡ self.old.highest }
    {
        self.refused = self.refused.saturating_add(1);
        None
    }

    /// How many connections could not be taken in; the count stands still at `u64::MAX`.
    pub(crate) fn refused(&self) -> u64
        ensures { result ≡ self.now.refused }
    {
        self.refused
    }

    /// Whether a connection that was not told as lost came in at the listener of WebSockets.
    pub(crate) fn is_web(&self, number: u32) -> bool {
        self.connections.is_web(number)
    }

    /// Has those looked at that leave and whose time is over.
    pub(crate) fn list_overdue(&mut self, now: u64)
        ensures { self.new.highest ≡ self.old.highest }
    {
        self.connections.list_overdue(now);
    }

    /// Sends once: how many bytes the system took.
    pub(crate) fn send(&mut self, number: u32, piece: &[u8]) -> usize
        ensures within { result ≤ length piece.now }
        ensures highest { self.new.highest ≡ self.old.highest }
    {
        self.connections.send(number, piece)
    }

    /// Closes an open connection, which then leaves until a second at the latest.
    pub(crate) fn close(&mut self, number: u32, until: u64)
        ensures { self.new.highest ≡ self.old.highest }
    {
        self.connections.close(number, until);
    }
}
