//! All connections of a server.
ghost use Rattle.std.specs.Prelude.{◌≡◌, ◌<◌, ◌++◌, ◌∷◌, ℕ, List, [], length, get_or, slice_set, IfOk, IfSome, IfNone, OnOk, OnErr, nat_lt, Bool, if◌then◌else◌};
ghost use Rattle.std.specs.List.{remove};
ghost use Rattle.lp_telnet.specs.Lines.{Place, lines_from};
ghost use Rattle.lp_sessions.specs.All.{AreOther, Fed, TakesOuts, TakesSome, TellsAll, numbers};
ghost use Rattle.lp_sessions.specs.Table.{Connections, IsTable, no_connections, with_new};
ghost use Rattle.lp_sessions.specs.Serving.{AreQuick, IsSlowest};
ghost use Rattle.lp_sessions.specs.declared.session.Session.{Session as S};

use crate::each::{forget_idle, offer_listed, place_among, slowest_listed, take_each};
use crate::session::{Phase, Session};
use lp_events::out::Outs;
use lp_io::Octets;
use lp_wire::wire::Wire;
use std::alloc::{AllocError, Global};
use std::marker::Model;

/// The most bytes that may be pending for one connection.
pub const MOST_PENDING: u64 = 262144;

/// The connections that are not gone, by rising numbers, and the highest number so far. A connection is found by its number in
/// logarithmic time, and named by its place until one is taken in or out. An index has the numbers of those for which something is
/// pending, so that offers look at no others.
#[derive(Drop)]
pub struct Sessions {
    alloc: Global,
    sessions: Vec<Session>,
    listed: Vec<u32>,
    highest: u32,
}

impl Model for Sessions {
    ghost use Rattle.lp_sessions.specs.Index.{IsIndex};
    ghost use Rattle.lp_sessions.specs.Table.{Connections, IsTable};

    ghost Value = { Connections };

    ghost view = { λ s. record { sessions = s.sessions.items; highest = s.highest } };

    ghost invariant = { λ s. IsTable (record { sessions = s.sessions.items; highest = s.highest }) × IsIndex s.listed.items s.sessions.items };
}

impl Sessions {
    /// No connections. Takes no memory.
    pub fn new(alloc: Global) -> Sessions
        ensures { result ≡ no_connections }
    {
        Sessions {
            alloc,
            sessions: Vec::new(alloc),
            listed: Vec::new(alloc),
            highest: 0,
        }
    }

    /// The highest number of a connection so far, or 0. Takes no memory.
    pub fn highest(&self) -> u32
        ensures { result ≡ self.now.highest }
    {
        self.highest
    }

    /// The connections, by rising numbers from 1 upwards, none above the highest so far. Takes no memory.
    pub fn as_slice(&self) -> &[Session]
        ensures all { result.now ≡ self.now.sessions }
        ensures table { IsTable self.now }
    {
        self.sessions.as_slice()
    }

    /// A connection opens, where its number is above all before it, and the answer tells whether it is. Where memory is wanting
    /// nothing changes. Takes constant time, one addition with another.
    pub fn accept(&mut self, number: u32) -> Result<bool, AllocError>
        ensures fresh { IfOk result (λ is_new. is_new ≡ nat_lt self.old.highest number) }
        ensures ok { IfOk result (λ is_new. self.new ≡ (if is_new then with_new number self.old else self.old)) }
        ensures err { OnErr result (self.new ≡ self.old) }
    {
        if number <= self.highest {
            return Ok(false);
        }
        self.sessions.push(Session::new(self.alloc, number))?;
        self.highest = number;
        Ok(true)
    }

    /// The place of a connection, or none where the number is not there. Takes no memory, and time logarithmic in how many there are.
    pub fn place_of(&self, number: u32) -> Option<usize>
        ensures within { IfSome result (λ i. i < length self.now.sessions) }
        ensures found { IfSome result (λ i. (d : S) → (get_or self.now.sessions i d).number ≡ number) }
        ensures none { IfNone result (AreOther number self.now.sessions) }
    {
        place_among(self.sessions.as_slice(), number)
    }

    /// How far the connection at a place has come.
    pub fn phase(&self, at: usize) -> Phase
        requires { at < length self.now.sessions }
        ensures { (d : S) → result ≡ (get_or self.now.sessions at d).phase }
    {
        self.sessions[at].phase
    }

    /// The lines that end in the next piece of the stream of the connection at a place. Where memory is wanting nothing changes.
    pub fn feed(&mut self, at: usize, bytes: &[u8]) -> Result<Vec<Octets>, AllocError>
        requires { at < length self.now.sessions }
        ensures fed { IfOk result (λ lines. Fed at bytes.now lines.items self.old.sessions self.new.sessions) }
        ensures highest { self.new.highest ≡ self.old.highest }
        ensures err { OnErr result (self.new ≡ self.old) }
    {
        self.sessions[at].telnet.feed(bytes)
    }

    /// Takes the connection at a place out; its number does not come again. Takes no memory, and moves those behind it.
    pub fn remove(&mut self, at: usize) -> Session
        requires { at < length self.now.sessions }
        ensures was { (d : S) → result ≡ get_or self.old.sessions at d }
        ensures rest { self.new ≡ record self.old { sessions = remove self.old.sessions at } }
    {
        self.sessions.remove(at)
    }

    /// Takes the outputs of a turn in, each by the connection that it is for; those for a connection that is not there, or
    /// behind its own close, go nowhere. Where memory is wanting those before the first that found none were taken in.
    /// Takes time in proportion to the bytes of the outputs, and for each output logarithmic in how many connections there are; an
    /// output for a connection for which nothing was pending moves the numbers of those above it for which something is.
    pub fn take_outs(&mut self, outs: &Outs) -> Result<(), AllocError>
        ensures ok { OnOk result (TakesOuts outs.now self.old.sessions self.new.sessions) }
        ensures numbers { numbers self.new.sessions ≡ numbers self.old.sessions }
        ensures highest { self.new.highest ≡ self.old.highest }
        ensures err { OnErr result (TakesSome outs.now self.old.sessions self.new.sessions) }
    {
        take_each(&mut self.sessions, &mut self.listed, outs.as_slice())
    }

    /// Offers each connection what is pending for it, one after another, by rising numbers. Takes no memory. Looks at those alone
    /// for which something is pending, each found in logarithmic time.
    pub fn offer_all<N: Wire>(&mut self, wire: &mut N)
        ensures tells { TellsAll self.old.sessions self.new.sessions (N.calls wire.old) (N.calls wire.new) }
        ensures numbers { numbers self.new.sessions ≡ numbers self.old.sessions }
        ensures highest { self.new.highest ≡ self.old.highest }
        ensures faults { N.faults wire.new ≡ N.faults wire.old }
        ensures first { N.first wire.new ≡ N.first wire.old }
    {
        offer_listed(&mut self.sessions, self.listed.as_slice(), wire);
        forget_idle(&mut self.listed, self.sessions.as_slice());
    }

    /// The place of the first connection for which more than `MOST_PENDING` bytes are pending. Takes no memory. Looks at those alone
    /// for which something is pending.
    pub fn slowest(&self) -> Option<usize>
        ensures some { IfSome result (λ i. IsSlowest i self.now.sessions) }
        ensures none { IfNone result (AreQuick self.now.sessions) }
    {
        slowest_listed(self.sessions.as_slice(), self.listed.as_slice())
    }
}
