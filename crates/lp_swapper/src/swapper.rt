//! Bytes out to a swap file, and back.
ghost use Rattle.std.specs.Prelude.{◌≡◌, ℕ, ◌≤◌, ◌^◌, [], ◌∷◌, ◌++◌, List, length, OnOk, OnErr};
ghost use Rattle.std.specs.Bool.{OnTrue, OnFalse};
ghost use Rattle.std.specs.Result.{is_err};
ghost use Rattle.lp_swapfile.specs.Counts.{Counts};
ghost use Rattle.lp_swapfile.specs.Device.{last_of, AreSameOutside, IsHonestRead, IsTold, IsTrueRead};
ghost use Rattle.lp_swapfile.specs.Room.{after_give_back, is_full, place_for, AreRuns, AreTaken, EndBy, IsTaken};
ghost use Rattle.lp_swapfile.specs.declared.extent.Extent.{Extent};
ghost use Rattle.lp_swapper.specs.Swap.{extent_of, is_kept_fault, is_kept_full, is_read_fault, IsBackAnswer, IsHonestAnswer, IsOut, IsOutAt, IsRoomAfterOut, AreTicketsAfter, IsTrueAnswer};

use crate::bytes::Octets;
use crate::ticket::Ticket;
use lp_swapfile::{ExtentFault, Extents, Failed, SwapFile};
use sha2::{Digest, Sha256};
use std::alloc::{AllocError, Global};
use std::marker::Model;
use thiserror::Error;

/// What became of bytes that were to go out.
#[derive(Debug, PartialEq, Eq, Drop)]
pub enum OutAnswer {
    /// They stand in the swap file.
    Out(Ticket),
    /// They were kept, since the write failed.
    KeptFault,
    /// They were kept, since there is no room.
    KeptFull,
}

/// Why bytes did not come back.
#[derive(Debug, PartialEq, Eq, Drop, Error)]
pub enum BackFault {
    #[error("the swap file could not be read")]
    ReadFault,
    #[error("the swap file holds other bytes")]
    Changed { found: Octets },
    #[error("out of memory")]
    NoMemory,
}

/// The room in a swap file, and what goes out there.
#[derive(Drop)]
pub struct Swapper {
    alloc: Global,
    room: Extents,
}

impl Model for Swapper {
    ghost use Rattle.lp_swapfile.specs.Room.{Room};

    ghost Value = { Room };

    ghost view = { λ s. s.room };
}

impl Swapper {
    /// Nothing is out. Takes no memory.
    pub fn new(alloc: Global) -> Swapper
        ensures empty { result ≡ record { holes = []; end = 0; taken = 0 } }
        ensures parted { AreTaken [] result }
    {
        Swapper {
            alloc,
            room: Extents::new(alloc),
        }
    }

    /// Writes bytes where the first hole by rising place fits them, else at the end. Its memory is
    /// taken before the write.
    ///
    /// - `Out`: they stand there, and the ticket is what brings them back.
    /// - `KeptFault`: the write failed, and the count of write faults rose. The room that was taken
    ///   for them is given back.
    /// - `KeptFull`: no hole has so many bytes, and behind the end they would pass 2^40. Nothing
    ///   has changed, nor has it where memory is wanting.
    pub fn out<W: SwapFile>(&mut self, swap: &mut W, bytes: &[u8]) -> Result<OutAnswer, AllocError>
        ensures out { IsOut bytes.now self.old (W.content swap.new) result }
        ensures room { IsRoomAfterOut bytes.now self.old self.new result }
        ensures taken { AreTicketsAfter self.old self.new result }
        ensures full { is_kept_full result ≡ is_full (length bytes.now) self.old }
        ensures faults { Counts (is_kept_fault result) (W.write_faults swap.old) (W.write_faults swap.new) }
        ensures read_faults { W.read_faults swap.new ≡ W.read_faults swap.old }
        ensures others { AreSameOutside (place_for (length bytes.now) self.old) (length bytes.now) (W.content swap.old) (W.content swap.new) }
        ensures honest { W.is_honest swap.new → W.is_honest swap.old }
        ensures truthful { W.is_truthful swap.new → W.is_truthful swap.old }
    {
        let len = bytes.len() as u64;
        let place = match self.room.take(len) {
            Ok(place) => place,
            Err(ExtentFault::Full) => return Ok(OutAnswer::KeptFull),
            Err(ExtentFault::NoMemory) => return Err(AllocError),
        };
        if swap.write_at(place, bytes).is_err() {
            undo(&mut self.room, place, len);
            return Ok(OutAnswer::KeptFault);
        }
        Ok(OutAnswer::Out(Ticket {
            place,
            len,
            digest: Sha256::digest(bytes),
        }))
    }

    /// Reads what went out for a ticket, which stays out.
    ///
    /// - `ReadFault`: the read failed, and the count of read faults rose.
    /// - `Changed`: what was read is not what went out, as its digest shows.
    pub fn look<W: SwapFile>(&self, swap: &mut W, t: &Ticket) -> Result<Octets, BackFault>
        ensures answer { IsBackAnswer t.now (W.content swap.old) (W.last swap.new) result }
        ensures faults { Counts (is_read_fault result) (W.read_faults swap.old) (W.read_faults swap.new) }
        ensures write_faults { W.write_faults swap.new ≡ W.write_faults swap.old }
        ensures kept { W.content swap.new ≡ W.content swap.old }
        ensures honest { W.is_honest swap.new → W.is_honest swap.old × ((was : List ℕ) → IsOutAt (W.content swap.old) t.now was → IsHonestAnswer was result) }
        ensures truthful { W.is_truthful swap.new → W.is_truthful swap.old × ((was : List ℕ) → IsOutAt (W.content swap.old) t.now was → IsTrueAnswer was result) }
    {
        let mut bytes = match vec![in self.alloc; 0u8; t.len as usize] {
            Ok(bytes) => bytes,
            Err(_) => return Err(BackFault::NoMemory),
        };
        if read_whole(swap, t.place, &mut bytes).is_err() {
            return Err(BackFault::ReadFault);
        }
        if Sha256::digest(bytes.as_slice()) != t.digest {
            return Err(BackFault::Changed {
                found: Octets::from_vec(bytes),
            });
        }
        Ok(Octets::from_vec(bytes))
    }

    /// Brings back what went out for a ticket, and gives its room back. It needs a ticket whose
    /// extent is taken. After a refusal nothing has changed but the device, by the read.
    ///
    /// - `ReadFault`: the read failed, and the count of read faults rose.
    /// - `Changed`: what was read is not what went out, as its digest shows.
    pub fn back<W: SwapFile>(&mut self, swap: &mut W, t: &Ticket) -> Result<Octets, BackFault>
        requires taken { IsTaken (extent_of t.now) self.old }
        ensures after { OnOk result (self.new ≡ after_give_back (extent_of t.now) self.old) }
        ensures parted { OnOk result ((ds es : List Extent) → AreTaken (ds ++ extent_of t.now ∷ es) self.old → AreTaken (ds ++ es) self.new) }
        ensures same { OnErr result (self.new ≡ self.old) }
        ensures answer { IsBackAnswer t.now (W.content swap.old) (W.last swap.new) result }
        ensures faults { Counts (is_read_fault result) (W.read_faults swap.old) (W.read_faults swap.new) }
        ensures write_faults { W.write_faults swap.new ≡ W.write_faults swap.old }
        ensures kept { W.content swap.new ≡ W.content swap.old }
        ensures honest { W.is_honest swap.new → W.is_honest swap.old × ((was : List ℕ) → IsOutAt (W.content swap.old) t.now was → IsHonestAnswer was result) }
        ensures truthful { W.is_truthful swap.new → W.is_truthful swap.old × ((was : List ℕ) → IsOutAt (W.content swap.old) t.now was → IsTrueAnswer was result) }
    {
        match self.look(swap, t) {
            Ok(bytes) => {
                self.drop_ticket(t);
                Ok(bytes)
            }
            Err(fault) => Err(fault),
        }
    }

    /// Gives the room of a ticket back. It needs a ticket whose extent is taken, and takes no memory.
    pub fn drop_ticket(&mut self, t: &Ticket)
        requires taken { IsTaken (extent_of t.now) self.old }
        ensures after { self.new ≡ after_give_back (extent_of t.now) self.old }
        ensures parted { (ds es : List Extent) → AreTaken (ds ++ extent_of t.now ∷ es) self.old → AreTaken (ds ++ es) self.new }
    {
        self.room.give_back(t.place, t.len);
    }

    /// Whether the extent of a ticket can be given back: it lies before the end and in no hole, and
    /// something is out.
    pub fn is_out(&self, t: &Ticket) -> bool
        ensures yes { OnTrue result (IsTaken (extent_of t.now) self.now) }
        ensures no { OnFalse result (IsTaken (extent_of t.now) self.now → ⊥) }
    {
        self.room.is_taken(t.place, t.len)
    }

    /// A law, which does nothing: the holes are longest free runs before the end, which is at most
    /// 2^40, and each extent that is taken can be given back.
    pub fn law(&self)
        ensures runs { AreRuns self.now.holes }
        ensures inside { EndBy self.now.end self.now.holes }
        ensures limit { self.now.end ≤ 2 ^ 40 }
        ensures taken { (ds es : List Extent) (e : Extent) → AreTaken (ds ++ e ∷ es) self.now → IsTaken e self.now }
    {
        self.room.law();
    }
}

// Gives back what was taken last.
fn undo(room: &mut Extents, place: u64, len: u64)
    requires { IsTaken (record { place = place; len = len }) room.old }
    ensures after { room.new ≡ after_give_back (record { place = place; len = len }) room.old }
    ensures parted { (es : List Extent) → AreTaken (record { place = place; len = len } ∷ es) room.old → AreTaken es room.new }
{
    room.give_back(place, len);
}

// Fills all of a vector from a place on.
fn read_whole<W: SwapFile>(swap: &mut W, place: u64, bytes: &mut Vec<u8>) -> Result<(), Failed>
    ensures len { length bytes.new.items ≡ length bytes.old.items }
    ensures kept { W.content swap.new ≡ W.content swap.old }
    ensures honest { W.is_honest swap.new → W.is_honest swap.old × OnOk result (IsHonestRead (W.content swap.old) place bytes.new.items) }
    ensures truthful { W.is_truthful swap.new → W.is_truthful swap.old × OnOk result (IsTrueRead (W.content swap.old) place bytes.new.items) }
    ensures last { IsTold (W.content swap.old) → W.last swap.new ≡ last_of place bytes.new.items result }
    ensures faults { Counts (is_err result) (W.read_faults swap.old) (W.read_faults swap.new) }
    ensures write_faults { W.write_faults swap.new ≡ W.write_faults swap.old }
{
    swap.read_at(place, bytes.as_mut_slice())
}
