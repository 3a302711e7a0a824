//! A wire that is not there.
ghost use Rattle.std.specs.Prelude.{◌≡◌, ◌≤◌, Err, None};
ghost use Rattle.lp_io.specs.Counts.{one_more};
ghost use Rattle.lp_wire.specs.declared.wire.WireError.TheVariants as errors;

use crate::happening::Happening;
use crate::wire::{Wire, WireError};

/// A wire that fails at every poll, takes nothing, and tells nothing. For a program whose wire could not be made, or
/// that needs none.
#[derive(Drop)]
pub struct NoWire {
    pub faults: u64,
}

impl NoWire {
    /// Such a wire, without a fault so far.
    pub fn new() -> NoWire
        ensures { result.faults ≡ 0 }
    {
        NoWire { faults: 0 }
    }
}

impl Wire for NoWire {
    ghost faults = { λ w. w.faults };

    ghost first = { λ _. 0 };

    ghost calls = { λ _. None };

    fn opening(&self) -> u64 {
        0
    }

    /// Fails, always.
    fn poll(&mut self) -> Result<Happening, WireError>
        ensures fails { result ≡ Err errors.Failed }
        ensures counts { self.new.faults ≡ one_more self.old.faults }
        ensures no_fall { self.old.faults ≤ self.new.faults }
    {
        self.faults = self.faults.saturating_add(1);
        Err(WireError::Failed)
    }

    /// Takes nothing.
    fn send(&mut self, _k: u32, _piece: &[u8]) -> usize
        ensures none { result ≡ 0 }
        ensures same { self.new ≡ self.old }
    {
        0
    }

    /// Does nothing.
    fn close(&mut self, _k: u32)
        ensures same { self.new ≡ self.old }
    {}
}
