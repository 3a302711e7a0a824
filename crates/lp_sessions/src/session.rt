//! One connection of a server.
ghost use Rattle.std.specs.Prelude.{◌≡◌, ℕ, List, [], OnOk, OnErr, ◌++◌, false};
ghost use Rattle.lp_wire.specs.WireText.{Link, behind_out, wire_bytes};
ghost use Rattle.lp_wire.specs.Wires.{IsRest};
ghost use Rattle.lp_sessions.specs.Index.{IsIdle};
ghost use Rattle.lp_sessions.specs.Tied.{HasText, TellsOne, closed_phase as phase_closed, new_session};

use lp_events::out::Out;
use lp_telnet::Telnet;
use lp_wire::outbox::Outbox;
use lp_wire::wire::Wire;
use std::alloc::{AllocError, Global};

/// How far a connection has come.
#[derive(Debug, Clone, Copy, PartialEq, Eq)]
pub enum Phase {
    /// Its lines are events, and outputs are for it.
    Open,
    /// The driver has closed it, and not all of its text was taken.
    Closing,
    /// The driver has closed it, and so has the wire.
    Over,
}

/// A connection: its number, the stream of its bytes, what is pending for it, and how far it has come.
#[derive(Drop)]
pub struct Session {
    /// Its number, from 1 upwards.
    pub number: u32,
    /// Where its stream stands.
    pub telnet: Telnet,
    /// What is pending for it.
    pub outbox: Outbox,
    /// How far it has come.
    pub phase: Phase,
}

// The phase behind a close by the driver.
fn closed_phase(phase: Phase) -> Phase
    ensures { result ≡ phase_closed phase }
{
    match phase {
        Phase::Open => Phase::Closing,
        Phase::Closing => Phase::Closing,
        Phase::Over => Phase::Over,
    }
}

impl Session {
    /// A connection that opens: nothing came of it, and nothing is pending for it. Takes no memory.
    pub fn new(alloc: Global, number: u32) -> Session
        ensures { result ≡ new_session number }
    {
        Session {
            number,
            telnet: Telnet::new(alloc),
            outbox: Outbox::new(alloc),
            phase: Phase::Open,
        }
    }

    // Puts the bytes of an output into the outbox, unless the driver has closed the connection.
    fn put(&mut self, out: &Out) -> Result<(), AllocError>
        ensures ok { OnOk result (self.new ≡ record self.old { outbox = self.new.outbox }) }
        ensures open { OnOk result (self.old.phase ≡ Phase.Open → self.new.outbox ≡ self.old.outbox ++ wire_bytes out.now) }
        ensures other { (self.old.phase ≡ Phase.Open → ⊥) → self.new ≡ self.old }
        ensures err { OnErr result (self.new ≡ self.old) }
    {
        match self.phase {
            Phase::Open => self.outbox.add(out),
            Phase::Closing => Ok(()),
            Phase::Over => Ok(()),
        }
    }

    /// Takes an output in, if it is for this connection and the driver has not closed it: its bytes become pending, or the
    /// connection is closed once they are taken. Where memory is wanting nothing changes.
    pub fn take_out(&mut self, out: &Out) -> Result<(), AllocError>
        ensures number { self.new.number ≡ self.old.number }
        ensures telnet { self.new.telnet ≡ self.old.telnet }
        ensures text { OnOk result ((l : Link) (t : List ℕ) → HasText self.old.phase self.old.outbox l t
            → HasText self.new.phase self.new.outbox (behind_out self.old.number l out.now) t) }
        ensures err { OnErr result (self.new ≡ self.old) }
    {
        match out {
            Out::Text(k, _) if *k == self.number => self.put(out),
            Out::Hide(k) if *k == self.number => self.put(out),
            Out::Show(k) if *k == self.number => self.put(out),
            Out::Close(k) if *k == self.number => {
                self.phase = closed_phase(self.phase);
                Ok(())
            }
            _ => Ok(()),
        }
    }

    /// Offers what is pending to the wire. Where the driver has closed the connection and nothing is left, it is closed on the
    /// wire. Takes no memory.
    pub fn offer<N: Wire>(&mut self, wire: &mut N)
        ensures tells { TellsOne self.old self.new (N.calls wire.old) (N.calls wire.new) }
        ensures number { self.new.number ≡ self.old.number }
        ensures telnet { self.new.telnet ≡ self.old.telnet }
        ensures rest { IsRest self.new.outbox self.old.outbox }
        ensures faults { N.faults wire.new ≡ N.faults wire.old }
        ensures first { N.first wire.new ≡ N.first wire.old }
    {
        match self.phase {
            Phase::Open => self.outbox.offer(wire, self.number),
            Phase::Closing => {
                self.outbox.offer(wire, self.number);
                if self.outbox.pending() == 0 {
                    wire.close(self.number);
                    self.phase = Phase::Over;
                }
            }
            Phase::Over => {}
        }
    }

    /// Whether something is to be done for it at the next offers: bytes are pending, or its close is. Takes no memory.
    pub(crate) fn is_waiting(&self) -> bool
        ensures { result ≡ false → IsIdle self.now }
    {
        match self.phase {
            Phase::Open => self.outbox.pending() > 0,
            Phase::Closing => true,
            Phase::Over => self.outbox.pending() > 0,
        }
    }
}
