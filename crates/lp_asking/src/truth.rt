//! Devices that say whether they told the truth.
ghost use Rattle.std.specs.Prelude.{IsTrue};

use lp_swapfile::{DiskSwap, SwapFile};

/// A swap file that says whether each of its reads so far gave what was last written, or bytes of another digest. That
/// fails only where other bytes have the digest of a record; a call then ends as at want of memory.
pub trait Truthful: SwapFile {
    ghost use Rattle.std.specs.Prelude.{IsTrue};
    ghost use Rattle.lp_swapfile.specs.Device.{IsTold};

    /// Whether that is so. Takes no memory.
    fn tells_truth(&self) -> bool
        ensures { IsTrue result → Self.is_truthful self.now };

    /// Whether the file tells what it holds. Of what is out in one that does not tell, nothing stands, so nothing is to go out
    /// there. Takes no memory.
    fn tells(&self) -> bool
        ensures told { IsTrue result → IsTold (Self.content self.now) }
        ensures silent { IsTold (Self.content self.now) → IsTrue result };
}

impl Truthful for DiskSwap {
    fn tells_truth(&self) -> bool {
        true
    }

    fn tells(&self) -> bool {
        false
    }
}
