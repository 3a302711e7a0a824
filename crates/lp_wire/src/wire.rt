//! The outside of a server: its connections and the clock.
ghost use Rattle.std.specs.Prelude.{◌≡◌, ◌≤◌, ◌^◌, ℕ, List, Option, [], ◌∷◌, IfOk, OnErr, length, take};
ghost use Rattle.lp_io.specs.Counts.{Counts};
ghost use Rattle.lp_wire.specs.Wires.{Adds, is_failed};
ghost use Rattle.lp_wire.specs.declared.happening.WireCall.{WireCall};
ghost use Rattle.lp_wire.specs.declared.happening.WireCall.TheVariants.{Gave, Took, Closed};

use crate::happening::Happening;

/// Why a poll gave nothing.
#[derive(Debug, Clone, Copy, PartialEq, Eq)]
pub enum WireError {
    /// The wire failed.
    Failed,
    /// There was no memory.
    NoMemory,
}

/// Connections and a clock. Connections have rising numbers, from 1 upwards; number 0 is the operator's connection, of
/// which there is at most one at a time.
///
/// A wire counts the polls that failed; the count never falls, and stands still at `u64::MAX`. It tells its calls in
/// order, or it tells nothing: a form in memory tells them, one over sockets does not. A wire that tells may stop
/// telling, and then never tells again, so whoever reads what is told at the end knows that every call is there.
///
/// What no clause can ask: once a connection was closed, a wire gives `Lost` for it, once, so that its number is forgotten; and
/// the moments of its ticks do not fall. A server passes over what does not fit.
pub trait Wire {
    ghost use Rattle.lp_wire.specs.declared.happening.WireCall.{WireCall};

    ghost faults: { Self → ℕ };

    ghost first: { Self → ℕ };

    ghost calls: { Self → Option (List WireCall) };

    /// The moment at which the wire begins, in seconds, at most 10^12.
    fn opening(&self) -> u64
        ensures moment { result ≡ first self.now }
        ensures most { result ≤ 10 ^ 12 };

    /// The next happening; `Idle` where nothing came for a while. It fails only where the count of faults rises.
    fn poll(&mut self) -> Result<Happening, WireError>
        ensures gave { IfOk result (λ h. Adds (calls self.old) (calls self.new) (Gave h ∷ [])) }
        ensures kept { OnErr result (Adds (calls self.old) (calls self.new) []) }
        ensures faults { Counts (is_failed result) (faults self.old) (faults self.new) }
        ensures no_fall { faults self.old ≤ faults self.new }
        ensures first { first self.new ≡ first self.old };

    /// Offers bytes for a connection: it takes so many of them, from the front.
    fn send(&mut self, k: u32, piece: &[u8]) -> usize
        ensures within { result ≤ length piece.now }
        ensures took { Adds (calls self.old) (calls self.new) (Took k (take result piece.now) (length piece.now) ∷ []) }
        ensures faults { faults self.new ≡ faults self.old }
        ensures first { first self.new ≡ first self.old };

    /// Closes a connection.
    fn close(&mut self, k: u32)
        ensures closed { Adds (calls self.old) (calls self.new) (Closed k ∷ []) }
        ensures faults { faults self.new ≡ faults self.old }
        ensures first { first self.new ≡ first self.old };
}
