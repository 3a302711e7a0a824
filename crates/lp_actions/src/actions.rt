//! All actions that are held.
ghost use Rattle.std.specs.Prelude.{◌≡◌, ◌+◌, ◌∷◌, [], List, ℕ, IfOk, OnOk, OnErr, map};
ghost use Rattle.lp_actions.specs.Actions.{Sentence as Action, holds, kept_by, matching, sentences_without};
ghost use Rattle.lp_actions.specs.Held.{Lists, IsSame, next_in};
ghost use Rattle.lp_actions.specs.Stored.{sentence_of, first_place};

use crate::reach::Reach;
use crate::sentence::{Deed, Place, Sentence};
use lp_values::id::ObjId;
use lp_values::text::Text;
use std::alloc::{AllocError, Global};
use std::collections::BTreeMap;

/// The actions of all living objects. Each is found by its holder and its number.
#[derive(Drop)]
pub struct Actions {
    alloc: Global,
    next: u64,
    deeds: BTreeMap<Place, Deed>,
}

impl Actions {
    /// No actions; the first one will have the number 1. Takes no memory.
    pub fn new(alloc: Global) -> Actions
        ensures none { Lists result [] }
        ensures next { next_in result ≡ 1 }
    {
        Actions {
            alloc,
            next: 1,
            deeds: BTreeMap::new(alloc),
        }
    }

    /// A living object, the holder, may do what a function of the giver does, and answers the number of
    /// this action. It is the latest of all. Where it cannot be put there, nothing changes; it cannot
    /// where its number would be 2^64 - 1.
    pub fn add(
        &mut self,
        holder: ObjId,
        giver: ObjId,
        fun: &Text,
        verb: &Text,
        flag: bool,
    ) -> Result<u64, AllocError>
        ensures number { IfOk result (λ n. (n ≡ next_in self.old) × (next_in self.new ≡ next_in self.old + 1)) }
        ensures first { OnOk result ((ss : List Action) → Lists self.old ss → Lists self.new (record { number = next_in self.old; holder = holder; giver = giver; function = fun.now; verb = verb.now; is_front = flag } ∷ ss)) }
        ensures err { OnErr result (IsSame self.old self.new) }
    {
        let number = self.next;
        if number == u64::MAX {
            return Err(AllocError);
        }
        let deed = Deed {
            giver,
            fun: fun.copy()?,
            verb: verb.copy()?,
            flag,
        };
        let place = Place {
            holder: holder.0,
            number,
        };
        self.deeds.insert(place, deed)?;
        self.next = number + 1;
        Ok(number)
    }

    /// The actions of an object that a typed word calls for, the latest first. Costs what the object
    /// holds, and a logarithm of all.
    pub fn matching(&self, holder: ObjId, typed: &[char]) -> Result<Vec<Sentence>, AllocError>
        ensures { IfOk result (λ found. (ss : List Action) → Lists self.now ss → map (sentence_of holder) found.items ≡ matching ss holder typed.now) }
    {
        let first = Place {
            holder: holder.0,
            number: 0,
        };
        let end = Place {
            holder: holder.0,
            number: self.next,
        };
        let mut found = Vec::new(self.alloc);
        for (place, deed) in self.deeds.range(first..end) {
            if deed.matches(typed) {
                found.push(deed.sentence(place.number)?)?;
            }
        }
        found.reverse();
        Ok(found)
    }

    /// Whether an object still holds the action with a number. Takes no memory, and time by the
    /// logarithm of how many actions there are.
    pub fn held(&self, holder: ObjId, number: u64) -> bool
        ensures { (ss : List Action) → Lists self.now ss → result ≡ holds ss holder number }
    {
        self.deeds.contains_key(&Place {
            holder: holder.0,
            number,
        })
    }

    /// Drops each action whose giver is not in reach of its holder. Looks at each action once, and
    /// takes no memory.
    pub fn keep_reach<R: Reach>(&mut self, reach: &R)
        ensures kept { (ss : List Action) → Lists self.old ss → Lists self.new (kept_by (R.reaches reach.now) ss) }
        ensures next { next_in self.new ≡ next_in self.old }
    {
        self.deeds.retain(|place, deed| reach.in_reach(ObjId(place.holder), deed.giver));
    }

    // The first action of an object.
    fn first_of(&self, holder: ObjId) -> Option<Place>
        ensures { result ≡ first_place holder self.now.deeds.entries }
    {
        let first = Place {
            holder: holder.0,
            number: 0,
        };
        match self.deeds.range(first..).next() {
            Some((place, _)) if place.holder == holder.0 => Some(*place),
            _ => None,
        }
    }

    /// Drops the actions that an object holds. Takes no memory, and time by their number and a
    /// logarithm of all.
    pub fn drop_of(&mut self, holder: ObjId)
        ensures dropped { (ss : List Action) → Lists self.old ss → Lists self.new (sentences_without ss holder) }
        ensures next { next_in self.new ≡ next_in self.old }
    {
        while let Some(place) = self.first_of(holder) {
            self.deeds.remove(&place);
        }
    }
}
