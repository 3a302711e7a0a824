//! The connections of the wire inside, found by their numbers there and by those that were told.
ghost use Rattle.std.specs.Prelude.{◌≡◌};

use crate::guest::Guest;
use slab::Slab;
use std::alloc::{AllocError, Global};
use std::collections::BTreeMap;

/// Connections under keys.
#[derive(Drop)]
pub(crate) struct Guests {
    slots: Slab<Guest>,
    inside: BTreeMap<u32, usize>,
    told: BTreeMap<u32, usize>,
}

impl Guests {
    /// None. Takes no memory.
    pub(crate) fn new(alloc: Global) -> Guests {
        Guests {
            slots: Slab::new(alloc),
            inside: BTreeMap::new(alloc),
            told: BTreeMap::new(alloc),
        }
    }

    /// One more, whose key is given.
    pub(crate) fn add(&mut self, guest: Guest) -> Result<usize, AllocError> {
        self.slots.reserve(1)?;
        let key = self.slots.vacant_key();
        self.inside.insert(guest.inner, key)?;
        Ok(self.slots.insert_reserved(guest))
    }

    /// The key of one by its number inside.
    pub(crate) fn key_inside(&self, inner: u32) -> Option<usize> {
        match self.inside.get(&inner) {
            Some(key) => Some(*key),
            None => None,
        }
    }

    /// The key of one by the number under which it was told.
    pub(crate) fn key_told(&self, number: u32) -> Option<usize> {
        match self.told.get(&number) {
            Some(key) => Some(*key),
            None => None,
        }
    }

    /// One by its key.
    pub(crate) fn get_mut(&mut self, key: usize) -> Option<&mut Guest> {
        self.slots.get_mut(key)
    }

    /// Gives one the number under which it is told.
    pub(crate) fn name(&mut self, key: usize, number: u32) -> Result<(), AllocError> {
        self.told.insert(number, key)?;
        if let Some(guest) = self.slots.get_mut(key) {
            guest.number = number;
        }
        Ok(())
    }

    /// Takes one out: its number inside and the one under which it was told, or 0.
    pub(crate) fn remove(&mut self, key: usize) -> Option<(u32, u32)> {
        let guest = match self.slots.try_remove(key) {
            Some(guest) => guest,
            None => return None,
        };
        let (inner, number) = (guest.inner, guest.number);
        drop(guest);
        self.inside.remove(&inner);
        self.told.remove(&number);
        Some((inner, number))
    }

    /// All keys are below this.
    pub(crate) fn end(&self) -> usize {
        self.slots.capacity()
    }
}
