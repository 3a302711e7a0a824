//! Sources and sinks of bytes, with what each call promises.
ghost use Rattle.std.specs.Prelude.{◌≡◌, ℕ, ◌<◌, ◌≤◌, Bool, List, Option, length, take, IfOk, OnOk, OnErr};
ghost use Rattle.std.specs.Result.{is_err};
ghost use Rattle.lp_io.specs.Counts.{Counts};

/// A device failed. Nothing was read, written or lost by the call that answers it.
#[derive(Clone, Copy, Debug, PartialEq, Eq)]
pub struct Failed;

/// Where bytes come from, each once and in order.
///
/// A source counts its faults in `faults`. The count never falls, and stands still at `u64::MAX`.
/// A source in memory tells in `remaining` the bytes that are left to be read; one over a real
/// device tells `None`, and then no clause says which bytes it gives.
pub trait Source {
    ghost use Rattle.lp_io.specs.Told.{before_giving, IsAtEnd};

    ghost faults: { Self → ℕ };

    ghost remaining: { Self → Option (List ℕ) };

    /// Puts the next bytes at the front of `into` and returns how many, at most `into.len()`.
    /// It returns 0 for a buffer that has room only at the end of the input. What stands in `into`
    /// behind the bytes that were given is left open.
    ///
    /// It fails only where the count of faults rises, and then what is left is what was left.
    fn read(&mut self, into: &mut [u8]) -> Result<usize, Failed>
        ensures within { IfOk result (λ n. n ≤ length into.new) }
        ensures given { IfOk result (λ n. remaining self.old ≡ before_giving (take n into.new) (remaining self.new)) }
        ensures end { IfOk result (λ n. n ≡ 0 → 0 < length into.new → IsAtEnd (remaining self.new)) }
        ensures kept { OnErr result (remaining self.new ≡ remaining self.old) }
        ensures faults { Counts (is_err result) (faults self.old) (faults self.new) }
        ensures no_fall { faults self.old ≤ faults self.new };
}

/// Where bytes go, each once and in order.
///
/// A sink counts its faults in `faults`, and in `zeros` the writes that took no byte of a piece
/// that has some. Neither count ever falls, and each stands still at `u64::MAX`. A sink in memory
/// tells in `written` the bytes that it has taken, and in `passed` whether a flush has passed all of
/// them on; one over a real device tells `None`.
pub trait Sink {
    ghost use Rattle.lp_io.specs.Told.{after_adding, took_none, IsPassedOn};

    ghost faults: { Self → ℕ };

    ghost zeros: { Self → ℕ };

    ghost written: { Self → Option (List ℕ) };

    ghost passed: { Self → Option Bool };

    /// Takes bytes from the front of `piece` and returns how many, at most `piece.len()`.
    ///
    /// It fails only where the count of faults rises, and has then taken nothing.
    fn write(&mut self, piece: &[u8]) -> Result<usize, Failed>
        ensures within { IfOk result (λ n. n ≤ length piece.now) }
        ensures taken { IfOk result (λ n. written self.new ≡ after_adding (written self.old) (take n piece.now)) }
        ensures kept { OnErr result (written self.new ≡ written self.old) }
        ensures faults { Counts (is_err result) (faults self.old) (faults self.new) }
        ensures no_fall { faults self.old ≤ faults self.new }
        ensures zeros { Counts (took_none piece.now result) (zeros self.old) (zeros self.new) }
        ensures zeros_no_fall { zeros self.old ≤ zeros self.new };

    /// Passes on what the sink may hold back. It takes nothing, and fails only where the count of
    /// faults rises.
    fn flush(&mut self) -> Result<(), Failed>
        ensures kept { written self.new ≡ written self.old }
        ensures faults { Counts (is_err result) (faults self.old) (faults self.new) }
        ensures no_fall { faults self.old ≤ faults self.new }
        ensures zeros { zeros self.new ≡ zeros self.old }
        ensures passed { OnOk result (IsPassedOn (passed self.new)) };
}
