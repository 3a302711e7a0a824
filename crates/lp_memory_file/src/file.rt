//! A swap file in memory that tells what it holds.
ghost use Rattle.std.specs.Prelude.{◌≡◌, ◌⊎◌, ℕ, ◌+◌, ◌<◌, ◌≤◌, Some, [], length, slice_get, OnErr, OnOk, drop, take, true, ⊤, vec_len};
ghost use Rattle.std.specs.Bool.{OnFalse, OnTrue};
ghost use Rattle.std.specs.Result.{is_err};
ghost use Rattle.lp_swapfile.specs.Counts.{Counts};
ghost use Rattle.lp_swapfile.specs.Device.{last_of, AreSameOutside, Holds, HoldsWhereTold, IsHonestRead, IsTold, IsTrueRead, Nothing};
ghost use Rattle.lp_memory_file.specs.Holding.{file_of};

use lp_asking::truth::Truthful;
use lp_swapfile::{Failed, SwapFile};
use std::alloc::{AllocError, Global};
use std::marker::Model;

// What the latest read was. What it gave stands in the file still, for a write makes it nothing.
#[derive(Debug, Drop)]
pub(crate) enum LastRead {
    Nothing,
    Gave(u64, u64),
    FailedAt(u64, u64),
}

/// A swap file in memory: a vector of bytes that grows. It tells what it holds, and never gives other bytes.
#[derive(Drop)]
pub struct MemoryFile {
    bytes: Vec<u8>,
    last: LastRead,
    read_faults: u64,
    write_faults: u64,
}

impl Model for MemoryFile {
    ghost use Rattle.lp_memory_file.specs.Holding.{Holding, last_read};

    ghost Value = { Holding };

    ghost view = { λ m. record { held = m.bytes.items; last = last_read m.last m.bytes.items; read_faults = m.read_faults; write_faults = m.write_faults } };
}

impl MemoryFile {
    /// An empty one, without a fault so far. Takes no memory.
    pub fn new(alloc: Global) -> MemoryFile
        ensures { result ≡ record { held = []; last = Nothing; read_faults = 0; write_faults = 0 } }
    {
        MemoryFile {
            bytes: Vec::new(alloc),
            last: LastRead::Nothing,
            read_faults: 0,
            write_faults: 0,
        }
    }
}

impl SwapFile for MemoryFile {
    ghost content = { λ m. Some (file_of m.held) };

    ghost last = { λ m. m.last };

    ghost read_faults = { λ m. m.read_faults };

    ghost write_faults = { λ m. m.write_faults };

    ghost is_honest = { λ _. ⊤ };

    ghost is_truthful = { λ _. ⊤ };

    /// Fails exactly where the range reaches behind the end. Else it gives what was last written. Takes no memory.
    fn read_at(&mut self, place: u64, into: &mut [u8]) -> Result<(), Failed>
        ensures kept { Some (file_of self.new.held) ≡ Some (file_of self.old.held) }
        ensures honest { ⊤ → ⊤ × OnOk result (IsHonestRead (Some (file_of self.old.held)) place into.new) }
        ensures truthful { ⊤ → ⊤ × OnOk result (IsTrueRead (Some (file_of self.old.held)) place into.new) }
        ensures last { IsTold (Some (file_of self.old.held)) → self.new.last ≡ last_of place into.new result }
        ensures read_faults { Counts (is_err result) self.old.read_faults self.new.read_faults }
        ensures no_fall { self.old.read_faults ≤ self.new.read_faults }
        ensures write_faults { self.new.write_faults ≡ self.old.write_faults }
        ensures same { self.new.held ≡ self.old.held }
        ensures given { OnOk result (into.new ≡ take (length into.old) (drop place self.old.held)) }
        ensures inside { OnOk result (place + length into.old ≤ length self.old.held) }
        ensures fails { OnErr result (length self.old.held < place + length into.old) }
    {
        if !read_bytes(&self.bytes, place, into) {
            self.read_faults = self.read_faults.saturating_add(1);
            self.last = LastRead::FailedAt(place, into.len() as u64);
            return Err(Failed);
        }
        self.last = LastRead::Gave(place, into.len() as u64);
        Ok(())
    }

    /// Fails where the place lies behind the end, and where there is no memory for the piece.
    fn write_at(&mut self, place: u64, piece: &[u8]) -> Result<(), Failed>
        ensures written { OnOk result (HoldsWhereTold (Some (file_of self.new.held)) place piece.now) }
        ensures others { AreSameOutside place (length piece.now) (Some (file_of self.old.held)) (Some (file_of self.new.held)) }
        ensures honest { ⊤ → ⊤ }
        ensures truthful { ⊤ → ⊤ }
        ensures last { IsTold (Some (file_of self.old.held)) → self.new.last ≡ Nothing }
        ensures write_faults { Counts (is_err result) self.old.write_faults self.new.write_faults }
        ensures no_fall { self.old.write_faults ≤ self.new.write_faults }
        ensures read_faults { self.new.read_faults ≡ self.old.read_faults }
        ensures behind { length self.old.held < place → is_err result ≡ true }
    {
        self.last = LastRead::Nothing;
        if write_bytes(&mut self.bytes, place, piece).is_err() {
            self.write_faults = self.write_faults.saturating_add(1);
            return Err(Failed);
        }
        Ok(())
    }
}

impl Truthful for MemoryFile {
    fn tells_truth(&self) -> bool {
        true
    }

    fn tells(&self) -> bool {
        true
    }
}

// Copies the bytes from `place` on, where there are so many.
fn read_bytes(bytes: &[u8], place: u64, into: &mut [u8]) -> bool
    ensures given { OnTrue result (into.new ≡ take (length into.old) (drop place bytes.now)) }
    ensures inside { OnTrue result (place + length into.old ≤ length bytes.now) }
    ensures len { length into.new ≡ length into.old }
    ensures outside { OnFalse result (length bytes.now < place + length into.old) }
{
    let place = place as usize;
    if place > bytes.len() || into.len() > bytes.len() - place {
        return false;
    }
    let end = place + into.len();
    into.copy_from_slice(&bytes[place..end]);
    true
}

// Writes a piece where it begins at the end or before, and makes the file longer where it reaches behind that. Without
// memory a front of the piece may be written.
fn write_bytes(bytes: &mut Vec<u8>, place: u64, piece: &[u8]) -> Result<(), AllocError>
    ensures written { OnOk result (Holds (file_of bytes.new.items) place piece.now) }
    ensures others { (i : ℕ) → (i < place) ⊎ (place + length piece.now ≤ i) → file_of bytes.new.items i ≡ file_of bytes.old.items i }
    ensures behind { vec_len bytes.old < place → is_err result ≡ true }
{
    let place = place as usize;
    if place > bytes.len() {
        return Err(AllocError);
    }
    for k in 0..piece.len() {
        put_byte(bytes, place + k, piece[k])?;
    }
    Ok(())
}

// Writes a byte, at the end or before it.
fn put_byte(bytes: &mut Vec<u8>, place: usize, byte: u8) -> Result<(), AllocError>
    requires { place ≤ vec_len bytes.old }
    ensures written { OnOk result (slice_get bytes.new.items place ≡ Some byte) }
    ensures others { (i : ℕ) → (i < place) ⊎ (place < i) → slice_get bytes.new.items i ≡ slice_get bytes.old.items i }
    ensures longer { OnOk result (place < vec_len bytes.new) }
{
    if place < bytes.len() {
        bytes[place] = byte;
        return Ok(());
    }
    bytes.push(byte)?;
    Ok(())
}
