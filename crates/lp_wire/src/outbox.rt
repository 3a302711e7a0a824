//! What is pending for a connection: bytes that are to go out and that the wire has not taken.
ghost use Rattle.std.specs.Prelude.{◌≡◌, ◌≤◌, ◌++◌, ◌∷◌, [], ℕ, List, length, take, drop, OnOk, OnErr, nat_eq, if◌then◌else◌, ◌==◌};
ghost use Rattle.std.specs.Str.{encode_utf8_all};
ghost use Rattle.lp_wire.specs.WireText.{with_returns, wire_bytes};
ghost use Rattle.lp_wire.specs.Wires.{IsRest, TellsOffer};

use crate::wire::Wire;
use lp_events::out::Out;
use std::alloc::{AllocError, Global};
use std::marker::Model;

/// The bytes that are pending for a connection, in order. What was taken lies before a mark, so that taking moves
/// nothing; an addition forgets it where it is more than half of all, and moves then fewer bytes than were taken since the
/// last time. So additions take time in proportion to what they add, one with another.
#[derive(Debug, Drop)]
pub struct Outbox {
    bytes: Vec<u8>,
    at: usize,
}

impl Model for Outbox {
    ghost use Rattle.std.specs.Prelude.{List, ℕ, drop, length, ◌≤◌};

    ghost Value = { List ℕ };

    ghost view = { λ o. drop o.at o.bytes.items };

    ghost invariant = { λ o. o.at ≤ length o.bytes.items };
}

// Adds bytes, each newline as 13 10. Where memory is wanting a front of them was added.
#[tactic(auto, using(crate::proofs::Returns::begins_on))]
fn add_with_returns(out: &mut Vec<u8>, bytes: &[u8]) -> Result<(), AllocError>
    ensures ok { OnOk result (out.new.items ≡ out.old.items ++ with_returns bytes.now) }
    ensures begun { take (length out.old.items) out.new.items ≡ out.old.items }
{
    for byte in bytes {
        if *byte == 10 {
            out.extend_from_slice(&[13, 10])?;
        } else {
            out.push(*byte)?;
        }
    }
    Ok(())
}

// Adds characters in UTF-8, each newline as 13 10. Where memory is wanting a front of their bytes was added.
#[tactic(auto, using(crate::proofs::Returns::begins_on, crate::proofs::Returns::with_returns_append))]
fn add_chars(out: &mut Vec<u8>, chars: &[char]) -> Result<(), AllocError>
    ensures ok { OnOk result (out.new.items ≡ out.old.items ++ with_returns (encode_utf8_all chars.now)) }
    ensures begun { take (length out.old.items) out.new.items ≡ out.old.items }
{
    for c in chars {
        let mut one = [0; 4];
        add_with_returns(out, c.encode_utf8(&mut one).as_bytes())?;
    }
    Ok(())
}

// Adds the bytes of an output. Where memory is wanting a front of them was added.
fn add_out(out: &mut Vec<u8>, what: &Out) -> Result<(), AllocError>
    ensures ok { OnOk result (out.new.items ≡ out.old.items ++ wire_bytes what.now) }
    ensures begun { take (length out.old.items) out.new.items ≡ out.old.items }
{
    match what {
        Out::Text(_, text) => add_chars(out, text.as_slice()),
        Out::Hide(_) => out.extend_from_slice(&[255, 251, 1]),
        Out::Show(_) => out.extend_from_slice(&[255, 252, 1]),
        Out::Close(_) => Ok(()),
        Out::Log(_) => Ok(()),
    }
}

impl Outbox {
    /// Nothing is pending. Takes no memory.
    pub fn new(alloc: Global) -> Outbox
        ensures { result ≡ [] }
    {
        Outbox {
            bytes: Vec::new(alloc),
            at: 0,
        }
    }

    /// How many bytes are pending. Takes no memory and looks at none of them.
    pub fn pending(&self) -> u64
        ensures { result ≡ length self.now }
    {
        (self.bytes.len() - self.at) as u64
    }

    // Forgets what was taken, where that is all or more than half of the bytes.
    fn tidy(&mut self)
        ensures { self.new ≡ self.old }
    {
        if self.at == self.bytes.len() {
            self.bytes.clear();
            self.at = 0;
        } else if self.at > self.bytes.len() / 2 {
            self.bytes.drain(..self.at);
            self.at = 0;
        }
    }

    /// Adds the bytes of an output, whichever connection it names: a text in UTF-8 with each newline as 13 10, or that the
    /// other side is to hide its input or to show it; a close or a log record has none. Where memory is wanting nothing
    /// changes.
    pub fn add(&mut self, out: &Out) -> Result<(), AllocError>
        ensures ok { OnOk result (self.new ≡ self.old ++ wire_bytes out.now) }
        ensures err { OnErr result (self.new ≡ self.old) }
    {
        self.tidy();
        let len = self.bytes.len();
        match add_out(&mut self.bytes, out) {
            Ok(()) => Ok(()),
            Err(e) => {
                self.bytes.truncate(len);
                Err(e)
            }
        }
    }

    /// Adds bytes as they are: an answer to the operator. Where memory is wanting nothing changes.
    pub fn answer(&mut self, text: &[u8]) -> Result<(), AllocError>
        ensures ok { OnOk result (self.new ≡ self.old ++ text.now) }
        ensures err { OnErr result (self.new ≡ self.old) }
    {
        self.tidy();
        self.bytes.extend_from_slice(text)
    }

    /// Offers all that is pending to the wire, in one send, where anything is; what it takes is pending no more. A wire that takes
    /// less has stalled, so it is not asked again. Takes no memory.
    #[tactic(auto, using(crate::proofs::Offers::offered_lem, crate::proofs::Offers::nothing_lem))]
    pub fn offer<N: Wire>(&mut self, wire: &mut N, k: u32)
        ensures offers { TellsOffer k self.old self.new (N.calls wire.old) (N.calls wire.new) }
        ensures rest { IsRest self.new self.old }
        ensures fewer { length self.new ≤ length self.old }
        ensures faults { N.faults wire.new ≡ N.faults wire.old }
        ensures first { N.first wire.new ≡ N.first wire.old }
    {
        if self.at < self.bytes.len() {
            let n = wire.send(k, &self.bytes[self.at..]);
            self.at += n;
        }
    }

    /// Drops what is pending. Takes no memory.
    pub fn clear(&mut self)
        ensures { self.new ≡ [] }
    {
        self.bytes.clear();
        self.at = 0;
    }
}
