//! A source and a sink that never fail, for calls that need none.
ghost use Rattle.std.specs.Prelude.{◌≡◌, [], Some, None};

use crate::outside::{Failed, Sink, Source};

/// A source that is at its end. Its count of faults is 0 for ever.
#[derive(Clone, Copy, Debug)]
pub struct QuietSource;

impl Source for QuietSource {
    ghost faults = { λ _. 0 };

    ghost remaining = { λ _. Some [] };

    /// Gives nothing, and leaves `into` as it was.
    fn read(&mut self, into: &mut [u8]) -> Result<usize, Failed>
        ensures value { result ≡ Ok 0 }
        ensures same { into.new ≡ into.old }
    {
        Ok(0)
    }
}

/// A sink that takes all and keeps nothing. Its counts are 0 for ever.
#[derive(Clone, Copy, Debug)]
pub struct QuietSink;

impl Sink for QuietSink {
    ghost faults = { λ _. 0 };

    ghost zeros = { λ _. 0 };

    ghost written = { λ _. None };

    ghost passed = { λ _. None };

    fn write(&mut self, piece: &[u8]) -> Result<usize, Failed> {
        Ok(piece.len())
    }

    fn flush(&mut self) -> Result<(), Failed> {
        Ok(())
    }
}
