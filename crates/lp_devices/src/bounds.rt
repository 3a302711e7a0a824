//! How much the sends for each connection take.
ghost use Rattle.std.specs.Prelude.{◌≤◌};

use std::alloc::{AllocError, Global};
use std::collections::BTreeMap;

/// The bounds of one connection's sends, one after another; the last holds for all that follow.
#[derive(Drop)]
struct Bound {
    takes: Vec<u64>,
    sends: usize,
}

impl Bound {
    // The bound of the next send, which is then over.
    fn next(&mut self) -> Option<u64> {
        let bound = self.takes.get(self.sends).copied();
        if self.takes.len().saturating_sub(self.sends) > 1 {
            self.sends = self.sends.saturating_add(1);
        }
        bound
    }
}

/// The bounds of the sends of each connection by itself.
#[derive(Drop)]
pub struct Bounds {
    each: BTreeMap<u32, Bound>,
}

impl Bounds {
    /// No send is bounded. Takes no memory.
    pub fn new(alloc: Global) -> Bounds {
        Bounds {
            each: BTreeMap::new(alloc),
        }
    }

    /// The sends of a connection take so many bytes at most, one after another, and the last number bounds all that follow. With no
    /// number they take all.
    pub fn bound(&mut self, k: u32, takes: Vec<u64>) -> Result<(), AllocError> {
        match self.each.insert(k, Bound { takes, sends: 0 }) {
            Ok(_) => Ok(()),
            Err(_) => Err(AllocError),
        }
    }

    /// Whether no send is bounded.
    pub fn is_empty(&self) -> bool {
        self.each.is_empty()
    }

    /// How many of so many bytes the next send of a connection takes; that send is then over.
    pub fn room(&mut self, k: u32, len: usize) -> usize
        ensures { result ≤ len }
    {
        let next = match self.each.get_mut(&k) {
            Some(bound) => bound.next(),
            None => None,
        };
        match next {
            Some(most) if most < len as u64 => most as usize,
            _ => len,
        }
    }
}
