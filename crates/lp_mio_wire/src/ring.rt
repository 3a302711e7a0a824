//! What may have something, in turn.
use std::alloc::{AllocError, Global};
use std::collections::VecDeque;

/// Keys of what may have something. They are looked at in rounds: what is put in during a round comes in the next one.
#[derive(Drop)]
pub(crate) struct Ring {
    keys: VecDeque<usize>,
    left: usize,
}

impl Ring {
    /// No keys. Takes no memory.
    pub(crate) fn new(alloc: Global) -> Ring {
        Ring {
            keys: VecDeque::new(alloc),
            left: 0,
        }
    }

    /// Makes room, so that so many keys can stand in it.
    pub(crate) fn make_room(&mut self, count: usize) -> Result<(), AllocError> {
        self.keys.reserve(count.saturating_sub(self.keys.len()))
    }

    /// Puts a key in at the end, and tells whether there was memory for it.
    pub(crate) fn push(&mut self, key: usize) -> bool {
        self.keys.push_back(key).is_ok()
    }

    /// Begins a round over all keys.
    pub(crate) fn begin(&mut self) {
        self.left = self.keys.len();
    }

    /// How many keys of this round are left.
    pub(crate) fn left(&self) -> usize {
        self.left
    }

    /// Takes the next key of this round out.
    pub(crate) fn next(&mut self) -> Option<usize> {
        if self.left == 0 {
            return None;
        }
        self.left -= 1;
        self.keys.pop_front()
    }

    /// Whether there is no key.
    pub(crate) fn is_empty(&self) -> bool {
        self.keys.is_empty()
    }
}
