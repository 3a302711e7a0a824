//! What a wire gives, and the calls that it had.
ghost use Rattle.std.specs.Prelude.{◌≡◌, IfOk};

use lp_events::octets::Octets;
use std::alloc::{AllocError, Global};

/// What comes from a wire, one at a time. Connections are named by their numbers, from 1 upwards; number 0 is the
/// operator's connection.
#[derive(Debug, Drop)]
pub enum Happening {
    /// A connection opens.
    Accept(u32),
    /// Bytes came of a connection: a piece of its stream, cut anywhere.
    Piece(u32, Octets),
    /// A connection was lost.
    Lost(u32),
    /// The clock has reached a moment, in seconds.
    Tick(u64),
    /// Nothing came.
    Idle,
}

impl Happening {
    /// A copy. Takes memory for the bytes of a piece, and time in proportion to them.
    pub fn copy(&self, alloc: Global) -> Result<Happening, AllocError>
        ensures { IfOk result (λ h. h ≡ self.now) }
    {
        match self {
            Happening::Accept(k) => Ok(Happening::Accept(*k)),
            Happening::Piece(k, bytes) => Ok(Happening::Piece(
                *k,
                Octets::from_slice(alloc, bytes.as_slice())?,
            )),
            Happening::Lost(k) => Ok(Happening::Lost(*k)),
            Happening::Tick(moment) => Ok(Happening::Tick(*moment)),
            Happening::Idle => Ok(Happening::Idle),
        }
    }
}

/// A call of a wire that did something.
#[derive(Debug, Drop)]
pub enum WireCall {
    /// A poll gave this happening.
    Gave(Happening),
    /// A send for a connection took these bytes, of so many that were offered.
    Took(u32, Octets, usize),
    /// A connection was closed.
    Closed(u32),
}
