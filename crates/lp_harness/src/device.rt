//! A swap file in memory, of which a read or a write fails, or a read lies.
ghost use Rattle.std.specs.Prelude.{◌≡◌, Some, false};
ghost use Rattle.lp_swapfile.specs.Counts.{one_more};
ghost use Rattle.lp_swapfile.specs.Memory.{file_of, tells_lie};

use lp_asking::truth::Truthful;
use lp_swapfile::{Failed, MemSwap, SwapFile};
use std::alloc::{AllocError, Global};
use std::marker::Model;

/// Which calls of a swap file go wrong, by their numbers from 1: reads that fail, a read whose first byte has each bit flipped, or 0
/// where none lies, and writes that fail.
#[derive(Clone, Copy)]
pub struct Troubles<'a> {
    pub reads: &'a [u64],
    pub lie: u64,
    pub writes: &'a [u64],
}

/// A swap file in memory of which such calls go wrong. It tells the truth up to its lie.
#[derive(Drop)]
pub struct TestSwap {
    memory: MemSwap,
    lying: u64,
    lied: bool,
}

impl Model for TestSwap {
    ghost use Rattle.std.specs.Prelude.{◌≡◌, [], ◌∷◌, false};
    ghost use Rattle.lp_swapfile.specs.Calls.{Memory};

    ghost Value = { Memory };

    ghost view = { λ s. s.memory };

    ghost invariant = { λ s. (s.memory.lies ≡ (s.lying, 0) ∷ []) × (s.lied ≡ false → s.memory.hidden ≡ false) };
}

impl TestSwap {
    /// An empty one.
    pub fn new(alloc: Global, troubles: Troubles<'_>) -> Result<TestSwap, AllocError> {
        let lies = vec![in alloc; (troubles.lie, 0)]?;
        let reads = troubles.reads.to_vec(alloc)?;
        let writes = troubles.writes.to_vec(alloc)?;
        Ok(TestSwap {
            memory: MemSwap::new(alloc, reads, writes, lies),
            lying: troubles.lie,
            lied: false,
        })
    }

    /// Whether the next read lies.
    fn lies_next(&self) -> bool
        ensures { result ≡ tells_lie (one_more self.now.reads.made) self.now.lies }
    {
        let number = self.memory.reads().saturating_add(1);
        self.lying == number
    }
}

impl SwapFile for TestSwap {
    ghost content = { λ m. Some (file_of m.held) };

    ghost last = { λ m. m.last };

    ghost read_faults = { λ m. m.reads.failed };

    ghost write_faults = { λ m. m.writes.failed };

    ghost is_honest = { λ m. m.lied ≡ false };

    ghost is_truthful = { λ m. m.hidden ≡ false };

    fn read_at(&mut self, place: u64, into: &mut [u8]) -> Result<(), Failed> {
        let lied = self.lied || self.lies_next();
        let answer = self.memory.read_at(place, into);
        self.lied = lied;
        answer
    }

    fn write_at(&mut self, place: u64, piece: &[u8]) -> Result<(), Failed> {
        self.memory.write_at(place, piece)
    }
}

impl Truthful for TestSwap {
    fn tells_truth(&self) -> bool {
        !self.lied
    }

    fn tells(&self) -> bool {
        true
    }
}
