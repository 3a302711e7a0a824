//! Call-outs by the names of their functions.
ghost use Rattle.std.specs.Prelude.{◌≡◌, List, ℕ, OnOk, OnErr, IsTrue, []};
ghost use Rattle.std.specs.List.Sorted.{IsStrictlySortedBy};
ghost use Rattle.lp_timers.specs.Spots.{spot_cmp, first_spot as first_in};
ghost use Rattle.lp_timers.specs.Functions.{spots_at, HasAlso, HasNot, HasSame};

use crate::spot::{Spot, first_spot};
use lp_values::text::Text;
use std::alloc::{AllocError, Global};
use std::collections::{BTreeSet, HashMap};

/// For each function the call-outs of each object that call it.
#[derive(Drop)]
pub(crate) struct Functions {
    alloc: Global,
    spots: HashMap<Text, BTreeSet<Spot>>,
}

impl Functions {
    /// No call-outs. Takes no memory.
    pub(crate) fn new(alloc: Global) -> Functions
        ensures { (fun : List ℕ) → spots_at result fun ≡ [] }
    {
        Functions {
            alloc,
            spots: HashMap::new(alloc),
        }
    }

    // Puts a call-out to those of a function.
    fn extend(&mut self, fun: &Text, spot: Spot) -> Result<(), AllocError>
        ensures ok { OnOk result (HasAlso self.old self.new fun.now spot) }
        ensures err { OnErr result (HasSame self.old self.new) }
    {
        match self.spots.get_mut(fun) {
            Some(spots) => match spots.insert(spot) {
                Ok(_) => Ok(()),
                Err(_) => Err(AllocError),
            },
            None => Err(AllocError),
        }
    }

    // Puts a call-out to a function that has none.
    fn begin(&mut self, fun: &Text, spot: Spot) -> Result<(), AllocError>
        ensures ok { spots_at self.old fun.now ≡ [] → OnOk result (HasAlso self.old self.new fun.now spot) }
        ensures err { OnErr result (HasSame self.old self.new) }
    {
        let mut spots = BTreeSet::new(self.alloc);
        spots.insert(spot)?;
        self.spots.insert(fun.copy()?, spots)?;
        Ok(())
    }

    /// Puts a call-out in.
    pub(crate) fn add(&mut self, fun: &Text, spot: Spot) -> Result<(), AllocError>
        ensures ok { OnOk result (HasAlso self.old self.new fun.now spot) }
        ensures err { OnErr result (HasSame self.old self.new) }
    {
        match self.spots.get(fun) {
            Some(_) => self.extend(fun, spot),
            None => self.begin(fun, spot),
        }
    }

    // Takes a call-out out, and tells whether its function has no more.
    fn leave(&mut self, fun: &Text, spot: Spot) -> bool
        ensures has { HasNot self.old self.new fun.now spot }
        ensures last { IsTrue result → spots_at self.new fun.now ≡ [] }
    {
        match self.spots.get_mut(fun) {
            Some(spots) => {
                spots.remove(&spot);
                spots.is_empty()
            }
            None => false,
        }
    }

    // Forgets a function that has no call-outs.
    fn forget(&mut self, fun: &Text)
        ensures { spots_at self.old fun.now ≡ [] → HasSame self.old self.new }
    {
        self.spots.remove(fun);
    }

    /// Takes a call-out out. Takes no memory.
    pub(crate) fn remove(&mut self, fun: &Text, spot: Spot)
        ensures { HasNot self.old self.new fun.now spot }
    {
        if self.leave(fun, spot) {
            self.forget(fun);
        }
    }

    /// The first call-out of a function of an object.
    pub(crate) fn first_of(&self, fun: &Text, object: u64) -> Option<Spot>
        ensures first { result ≡ first_in object (spots_at self.now fun.now) }
        ensures ordered { IsStrictlySortedBy spot_cmp (spots_at self.now fun.now) }
    {
        match self.spots.get(fun) {
            Some(spots) => first_spot(spots, object),
            None => None,
        }
    }
}
