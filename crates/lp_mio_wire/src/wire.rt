//! The wire itself.
ghost use Rattle.std.specs.Prelude.{◌≡◌, ◌<◌, ◌≤◌, ◌^◌, None, IfOk, IfSome, IfErr, OnErr, length, min};
ghost use Rattle.lp_io.specs.Counts.{Counts};
ghost use Rattle.lp_wire.specs.Wires.{is_failed};
ghost use Rattle.lp_mio_wire.specs.Given.{IsBounded, IsDue, IsNumbered};
ghost use Rattle.lp_mio_wire.specs.Faults.{Names};

use crate::door::Door;
use crate::entrances::Entrances;
use crate::sockets::{OPERATOR, PLAYERS, Sockets, WEB};
use lp_wire::happening::Happening;
use lp_wire::wire::{Wire, WireError};
use mio::{Events, Poll, Token};
use std::alloc::Global;
use std::io::ErrorKind;
use std::net::Net;
use std::time::Clock;
use thiserror::Error;

/// The last moment of a run, in seconds.
const LAST_MOMENT: u64 = 1000000000000;

/// How many seconds a connection that was closed here may take to close too.
const LEAVE: u64 = 2;

/// Why no wire could be made.
#[derive(Debug, Drop, Error)]
pub enum ListenFault {
    /// Nothing can listen at this port, as where another program does.
    #[error("cannot listen on 127.0.0.1:{port}: {kind}")]
    Port { port: u16, kind: ErrorKind },
    /// The system gives no way to wait for sockets, or does not tell the time.
    #[error("cannot wait for connections: {0}")]
    System(ErrorKind),
    /// There was no memory.
    #[error("out of memory")]
    NoMemory,
}

/// Sockets on loopback and the clock of a runtime. It tells nothing.
#[derive(Drop)]
pub struct MioWire<R> {
    rt: R,
    sockets: Sockets,
    opening: u64,
    second: u64,
    faults: u64,
}

// Listens at a port.
fn open_door<R: Net>(rt: &R, poll: &Poll, port: u16, token: usize) -> Result<Door, ListenFault>
    ensures { IfErr result (Names port port port) }
{
    match Door::open(rt, poll, port, Token(token)) {
        Ok(door) => Ok(door),
        Err(e) => Err(ListenFault::Port {
            port,
            kind: e.kind(),
        }),
    }
}

// Listens at the port of WebSockets, unless that is 0.
fn open_web<R: Net>(rt: &R, poll: &Poll, ws: u16) -> Result<Option<Door>, ListenFault>
    ensures { IfErr result (Names ws ws ws) }
{
    if ws == 0 {
        return Ok(None);
    }
    match open_door(rt, poll, ws, WEB) {
        Ok(door) => Ok(Some(door)),
        Err(fault) => Err(fault),
    }
}

// Listens at all ports.
fn open_sockets<R: Net>(
    rt: &R,
    alloc: Global,
    port: u16,
    control: u16,
    ws: u16,
) -> Result<Sockets, ListenFault>
    ensures highest { IfOk result (λ sockets. sockets.highest ≡ 0) }
    ensures names { IfErr result (Names port control ws) }
{
    let events = match Events::with_capacity(alloc, 256) {
        Ok(events) => events,
        Err(_) => return Err(ListenFault::NoMemory),
    };
    let poll = match Poll::new(rt) {
        Ok(poll) => poll,
        Err(e) => return Err(ListenFault::System(e.kind())),
    };
    let players = open_door(rt, &poll, port, PLAYERS)?;
    let operator = open_door(rt, &poll, control, OPERATOR)?;
    let web = open_web(rt, &poll, ws)?;
    Ok(Sockets::new(alloc, poll, events, players, operator, web))
}

impl<R: Net + Clock + Drop> MioWire<R> {
    /// A wire that listens at ports of loopback, the players' and the operator's, and one for WebSockets unless that is 0, and whose
    /// first moment is the present second. The fault names the port at which nothing can listen.
    pub fn listen(
        rt: R,
        alloc: Global,
        port: u16,
        control: u16,
        ws: u16,
    ) -> Result<MioWire<R>, ListenFault>
        ensures faults { IfOk result (λ wire. wire.faults ≡ 0) }
        ensures second { IfOk result (λ wire. wire.second ≡ wire.opening) }
        ensures highest { IfOk result (λ wire. wire.sockets.highest ≡ 0) }
        ensures names { IfErr result (Names port control ws) }
    {
        let opening = match rt.since_1970() {
            Ok(now) => now.as_secs(),
            Err(e) => return Err(ListenFault::System(e.kind())),
        };
        let sockets = open_sockets(&rt, alloc, port, control, ws)?;
        Ok(MioWire {
            rt,
            sockets,
            opening,
            second: opening,
            faults: 0,
        })
    }
}

impl<R: Net + Clock> MioWire<R> {
    /// How many connections could not be taken in, as where no descriptor was left.
    pub fn refused(&self) -> u64
        ensures { result ≡ self.now.sockets.refused }
    {
        self.sockets.refused()
    }

    // The present second, if it is above the last that was told.
    fn tick(&self) -> Option<u64>
        ensures { IfSome result (λ now. (self.now.second < now) × (now ≤ 10 ^ 12)) }
    {
        match self.rt.since_1970() {
            Ok(now) if self.second < now.as_secs() && now.as_secs() <= LAST_MOMENT => {
                Some(now.as_secs())
            }
            _ => None,
        }
    }
}

impl<R: Net + Clock> Wire for MioWire<R> {
    ghost faults = { λ w. w.faults };

    ghost first = { λ w. min w.opening 1000000000000 };

    ghost calls = { λ _. None };

    fn opening(&self) -> u64 {
        self.opening.min(LAST_MOMENT)
    }

    /// The next happening: a tick where the second has risen, else what comes of the sockets, for which it waits 100 milliseconds at
    /// most. It fails where the system does not wait.
    fn poll(&mut self) -> Result<Happening, WireError>
        ensures faults { Counts (is_failed result) self.old.faults self.new.faults }
        ensures no_fall { self.old.faults ≤ self.new.faults }
        ensures opening { self.new.opening ≡ self.old.opening }
        ensures due { IfOk result (λ h. IsDue h self.old.second self.new.second) }
        ensures numbered { IfOk result (λ h. IsNumbered h self.old.sockets.highest self.new.sockets.highest) }
        ensures bounded { IfOk result IsBounded }
        ensures kept_second { OnErr result (self.new.second ≡ self.old.second) }
        ensures kept_highest { OnErr result (self.new.sockets.highest ≡ self.old.sockets.highest) }
    {
        if let Some(now) = self.tick() {
            self.second = now;
            self.sockets.list_overdue(now);
            return Ok(Happening::Tick(now));
        }
        if self.sockets.is_over() && self.sockets.begin().is_err() {
            self.faults = self.faults.saturating_add(1);
            return Err(WireError::Failed);
        }
        match self.sockets.next(self.second) {
            Ok(Some(next)) => Ok(next),
            Ok(None) => Ok(Happening::Idle),
            Err(_) => Err(WireError::NoMemory),
        }
    }

    /// Writes once. It takes nothing for a connection that is not open, where there is no room, and where the write fails; the
    /// connection is then lost.
    fn send(&mut self, k: u32, piece: &[u8]) -> usize
        ensures within { result ≤ length piece.now }
        ensures faults { self.new.faults ≡ self.old.faults }
        ensures opening { self.new.opening ≡ self.old.opening }
        ensures second { self.new.second ≡ self.old.second }
        ensures highest { self.new.sockets.highest ≡ self.old.sockets.highest }
    {
        self.sockets.send(k, piece)
    }

    /// Ends a connection behind what the system has of it, and does not wait for that. It is told as lost at a later poll.
    fn close(&mut self, k: u32)
        ensures faults { self.new.faults ≡ self.old.faults }
        ensures opening { self.new.opening ≡ self.old.opening }
        ensures second { self.new.second ≡ self.old.second }
        ensures highest { self.new.sockets.highest ≡ self.old.sockets.highest }
    {
        self.sockets.close(k, self.second.saturating_add(LEAVE));
    }
}

impl<R: Net + Clock> Entrances for MioWire<R> {
    fn is_web(&self, k: u32) -> bool {
        self.sockets.is_web(k)
    }
}
