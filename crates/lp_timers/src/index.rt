//! Call-outs in order: all of them, those of each object, and those of each function of it.
ghost use Rattle.std.specs.Prelude.{◌≡◌, List, ℕ, IfOk, OnOk, OnErr, false, filter, map};
ghost use Rattle.std.specs.List.Sorted.{IsStrictlySortedBy};
ghost use Rattle.lp_timers.specs.Spots.{spot_cmp, first_spot as first_in, is_among};
ghost use Rattle.lp_timers.specs.declared.spot.Spot.{Spot};
ghost use Rattle.lp_timers.specs.Index.{HasAlsoIn, HasNotIn, HasSameIn, IsNewIn, all_in, objects_in, function_in, is_due};

use crate::functions::Functions;
use crate::spot::{Spot, first_spot};
use lp_values::text::Text;
use std::alloc::{AllocError, Global};
use std::collections::BTreeSet;

/// Call-outs by their moments and numbers: all, of each object, and of each function of it.
#[derive(Drop)]
pub(crate) struct Index {
    all: BTreeSet<Spot>,
    objects: BTreeSet<Spot>,
    functions: Functions,
}

// The same spot in the group of all.
fn among_all(spot: Spot) -> Spot
    ensures { result ≡ record { group = 0; due = spot.due; number = spot.number } }
{
    Spot {
        group: 0,
        due: spot.due,
        number: spot.number,
    }
}

impl Index {
    /// No call-outs. Takes no memory.
    pub(crate) fn new(alloc: Global) -> Index
        ensures all { (s : Spot) → is_among (all_in result) s ≡ false }
        ensures objects { (s : Spot) → is_among (objects_in result) s ≡ false }
        ensures functions { (fun : List ℕ) (s : Spot) → is_among (function_in result fun) s ≡ false }
    {
        Index {
            all: BTreeSet::new(alloc),
            objects: BTreeSet::new(alloc),
            functions: Functions::new(alloc),
        }
    }

    /// Puts a call-out in: the spot has its object as its group. Where memory is wanting nothing
    /// changes, if it was not there.
    pub(crate) fn add(&mut self, fun: &Text, spot: Spot) -> Result<(), AllocError>
        ensures ok { OnOk result (HasAlsoIn self.old self.new fun.now spot) }
        ensures err { IsNewIn self.old spot → OnErr result (HasSameIn self.old self.new) }
    {
        let alike = among_all(spot);
        self.all.insert(alike)?;
        match self.objects.insert(spot) {
            Ok(_) => {}
            Err(_) => {
                self.all.remove(&alike);
                return Err(AllocError);
            }
        }
        match self.functions.add(fun, spot) {
            Ok(_) => Ok(()),
            Err(_) => {
                self.all.remove(&alike);
                self.objects.remove(&spot);
                Err(AllocError)
            }
        }
    }

    /// Takes a call-out out. Takes no memory.
    pub(crate) fn remove(&mut self, fun: &Text, spot: Spot)
        ensures { HasNotIn self.old self.new fun.now spot }
    {
        self.all.remove(&among_all(spot));
        self.objects.remove(&spot);
        self.functions.remove(fun, spot);
    }

    /// The numbers of the call-outs that are due at a moment, by their moments, among those whose
    /// numbers are below the next one.
    pub(crate) fn due(&self, alloc: Global, t: u64, next: u64) -> Result<Vec<u64>, AllocError>
        ensures numbers { IfOk result (λ v. v.items ≡ map (λ s. s.number) (filter (is_due t next) (all_in self.now))) }
        ensures ordered { IsStrictlySortedBy spot_cmp (all_in self.now) }
    {
        let first = Spot {
            group: 0,
            due: 0,
            number: 0,
        };
        let end = Spot {
            group: 0,
            due: t,
            number: next,
        };
        self.all
            .range(first..end)
            .map(|spot| spot.number)
            .collect(alloc)
    }

    /// The first call-out of an object.
    pub(crate) fn first_of(&self, object: u64) -> Option<Spot>
        ensures first { result ≡ first_in object (objects_in self.now) }
        ensures ordered { IsStrictlySortedBy spot_cmp (objects_in self.now) }
    {
        first_spot(&self.objects, object)
    }

    /// The first call-out of a function of an object.
    pub(crate) fn first_of_function(&self, fun: &Text, object: u64) -> Option<Spot>
        ensures first { result ≡ first_in object (function_in self.now fun.now) }
        ensures ordered { IsStrictlySortedBy spot_cmp (function_in self.now fun.now) }
    {
        self.functions.first_of(fun, object)
    }
}
