//! A source that keeps a copy of what it gives.
ghost use Rattle.std.specs.Prelude.{◌≡◌, ◌++◌, IfSome};

use lp_io::{Failed, Source};
use std::alloc::Global;

/// A source that gives what another one gives, and keeps a copy of it for as long as there is memory for that.
#[derive(Drop)]
pub struct KeptSource<S> {
    source: S,
    kept: Option<Vec<u8>>,
}

impl<S: Source> KeptSource<S> {
    /// A source over another one, of which nothing was read yet. It takes no memory.
    pub fn new(alloc: Global, source: S) -> KeptSource<S>
        ensures { result.source ≡ source }
    {
        KeptSource {
            source,
            kept: Some(Vec::new(alloc)),
        }
    }

    /// All bytes that were given, in order, or none where there was no memory to keep them.
    pub fn kept(&self) -> Option<&[u8]> {
        match &self.kept {
            Some(kept) => Some(kept.as_slice()),
            None => None,
        }
    }

    // Keeps these bytes too. Where there is no memory for them nothing is kept from now on.
    fn keep(&mut self, bytes: &[u8])
        ensures source { self.new.source ≡ self.old.source }
        ensures kept { IfSome self.new.kept (λ new. IfSome self.old.kept (λ old. new.items ≡ old.items ++ bytes.now)) }
    {
        let fails = match &mut self.kept {
            Some(kept) => kept.extend_from_slice(bytes).is_err(),
            None => false,
        };
        if fails {
            self.kept = None;
        }
    }
}

impl<S: Source> Source for KeptSource<S> {
    ghost faults = { λ s. S.faults s.source };

    ghost remaining = { λ s. S.remaining s.source };

    /// Gives what the other source gives.
    fn read(&mut self, into: &mut [u8]) -> Result<usize, Failed> {
        match self.source.read(into) {
            Ok(n) => {
                self.keep(&into[..n]);
                Ok(n)
            }
            Err(failed) => Err(failed),
        }
    }
}
