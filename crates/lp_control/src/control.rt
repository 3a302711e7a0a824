//! The operator's connection.
ghost use Rattle.std.specs.Prelude.{◌≡◌, IfOk, OnErr, OnOk};
ghost use Rattle.lp_control.specs.Operator.{IsFed, TellsOperator, new_operator, with_answer};

use lp_io::Octets;
use lp_sessions::MOST_PENDING;
use lp_telnet::Telnet;
use lp_wire::outbox::Outbox;
use lp_wire::wire::Wire;
use std::alloc::{AllocError, Global};
use std::marker::Model;

/// The operator's connection since its stream last began: where the stream stands, what is pending for it, and whether it was closed
/// on the wire, because more than `MOST_PENDING` bytes were pending. Then nothing is pending for it, and its lines have no answers.
#[derive(Drop)]
pub struct Control {
    alloc: Global,
    telnet: Telnet,
    outbox: Outbox,
    is_closed: bool,
}

impl Model for Control {
    ghost use Rattle.lp_control.specs.Operator.{Operator};

    ghost Value = { Operator };

    ghost view = { λ c. record { place = c.telnet; pending = c.outbox; is_closed = c.is_closed } };
}

impl Control {
    /// A stream at its beginning, and nothing pending. Takes no memory.
    pub fn new(alloc: Global) -> Control
        ensures { result ≡ new_operator }
    {
        Control {
            alloc,
            telnet: Telnet::new(alloc),
            outbox: Outbox::new(alloc),
            is_closed: false,
        }
    }

    /// The stream begins anew: what is pending is dropped. Takes no memory.
    pub fn renew(&mut self)
        ensures { self.new ≡ new_operator }
    {
        self.telnet = Telnet::new(self.alloc);
        self.outbox.clear();
        self.is_closed = false;
    }

    /// The lines that end in the next piece of the stream. Where memory is wanting nothing changes.
    pub fn feed(&mut self, bytes: &[u8]) -> Result<Vec<Octets>, AllocError>
        ensures fed { IfOk result (λ lines. IsFed bytes.now lines.items self.old self.new) }
        ensures err { OnErr result (self.new ≡ self.old) }
    {
        self.telnet.feed(bytes)
    }

    /// An answer is to go out, unless the connection was closed. Where memory is wanting nothing changes.
    pub fn answer(&mut self, text: &[u8]) -> Result<(), AllocError>
        ensures ok { OnOk result (self.new ≡ with_answer text.now self.old) }
        ensures err { OnErr result (self.new ≡ self.old) }
    {
        if self.is_closed {
            return Ok(());
        }
        self.outbox.answer(text)
    }

    /// Offers the wire what is pending, in one send. Where more than `MOST_PENDING` bytes are left the connection is closed on the wire, and
    /// they are dropped. Takes no memory.
    pub fn offer<N: Wire>(&mut self, wire: &mut N)
        ensures tells { TellsOperator self.old self.new (N.calls wire.old) (N.calls wire.new) }
        ensures faults { N.faults wire.new ≡ N.faults wire.old }
        ensures first { N.first wire.new ≡ N.first wire.old }
    {
        if self.is_closed {
            return;
        }
        self.outbox.offer(wire, 0);
        if self.outbox.pending() > MOST_PENDING {
            wire.close(0);
            self.outbox.clear();
            self.is_closed = true;
        }
    }
}
