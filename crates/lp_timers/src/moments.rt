//! What is to come for objects: heart beats, resets and clean-ups.
ghost use Rattle.std.specs.Prelude.{◌≡◌, ◌+◌, ◌∷◌, ◌++◌, [], IfOk, OnOk, OnErr, None, MatchOption, if◌then◌else◌};
ghost use Rattle.lp_timers.specs.Lines.{due_objects, has_line, has_line_by, lines_next, lines_set, lines_without};
ghost use Rattle.lp_timers.specs.Marked.{mark_of};
ghost use Rattle.lp_timers.specs.Marks.{number_of, HasNone, IsAlone};

use crate::kind::Kind;
use crate::line::Line;
use crate::tree::{Branch, Tree};
use lp_values::id::ObjId;
use std::alloc::{AllocError, Global};
use std::collections::BTreeMap;
use std::marker::Model;
use std::mem;

/// Whose line one is, and of which kind, by that kind's place.
#[derive(Clone, Copy, Debug, PartialEq, Eq, PartialOrd, Ord)]
pub(crate) struct Mark {
    ob: u64,
    place: u64,
}

impl Mark {
    // The mark of an object and a kind.
    fn of(ob: ObjId, kind: Kind) -> Mark
        ensures { result ≡ mark_of kind ob.0 }
    {
        Mark {
            ob: ob.0,
            place: kind.place(),
        }
    }
}

/// What is to come for objects, each thing with its moment, in order of putting: at most one of each
/// kind for an object. They are found by their objects, and by their moments.
#[derive(Drop)]
pub(crate) struct Moments {
    alloc: Global,
    // The number of the next line.
    next: u64,
    lines: Tree,
    numbers: BTreeMap<Mark, u64>,
    // The latest rank that was drawn.
    rank: u64,
}

impl Model for Moments {
    ghost use Rattle.lp_timers.specs.Tree.{lines_of};
    ghost use Rattle.lp_timers.specs.Marks.{Putting};
    ghost use Rattle.lp_timers.specs.Marked.{IsMarked};

    ghost Value = { Putting };

    ghost view = { λ m. record { next = m.next; lines = lines_of m.lines } };

    ghost invariant = { λ m. IsMarked m.next m.lines m.numbers.entries };
}

impl Moments {
    /// Nothing is to come. Takes no memory.
    pub(crate) fn new(alloc: Global) -> Moments
        ensures { result ≡ record { next = 0; lines = [] } }
    {
        Moments {
            alloc,
            next: 0,
            lines: Tree::Leaf,
            numbers: BTreeMap::new(alloc),
            rank: 0,
        }
    }

    // The number of an object's line of a kind, if there is one.
    fn number(&self, ob: ObjId, kind: Kind) -> Option<u64>
        ensures number { result ≡ number_of kind ob.0 self.now.lines }
        ensures alone { MatchOption result (HasNone kind ob.0 self.now.lines) (λ n. IsAlone kind ob.0 n self.now.lines) }
    {
        self.numbers.get(&Mark::of(ob, kind)).copied()
    }

    /// Whether something of a kind is to come for an object.
    pub(crate) fn has(&self, ob: ObjId, kind: Kind) -> bool
        ensures { result ≡ has_line self.now.lines kind ob }
    {
        self.number(ob, kind).is_some()
    }

    /// Whether it is to come by a moment.
    pub(crate) fn has_by(&self, ob: ObjId, kind: Kind, t: u64) -> bool
        ensures { result ≡ has_line_by self.now.lines kind ob t }
    {
        match self.number(ob, kind) {
            Some(number) => match self.lines.moment(number) {
                Some(next) => next <= t,
                None => false,
            },
            None => false,
        }
    }

    /// The objects for which something of a kind is due at a moment, in order of putting. Costs how
    /// much of any kind is due, and a logarithm of how much is to come.
    pub(crate) fn due(&self, kind: Kind, t: u64) -> Result<Vec<ObjId>, AllocError>
        ensures { IfOk result (λ v. v.items ≡ due_objects kind t self.now.lines) }
    {
        let mut found = Vec::new(self.alloc);
        self.lines.tell_due(kind, t, &mut found)?;
        Ok(found)
    }

    // Another moment for the line with a number.
    fn set_number(&mut self, number: u64, at: u64)
        ensures { self.new ≡ record { next = self.old.next; lines = lines_set self.old.lines number at } }
    {
        let lines = mem::replace(&mut self.lines, Tree::Leaf);
        self.lines = lines.set(number, at);
    }

    // One more line, for an object that has none of the kind.
    fn add(&mut self, ob: ObjId, kind: Kind, at: u64) -> Result<(), AllocError>
        requires { number_of kind ob.0 self.old.lines ≡ None }
        ensures ok { OnOk result (self.new ≡ record { next = self.old.next + 1; lines = self.old.lines ++ record { number = self.old.next; ob = ob; kind = kind; next = at } ∷ [] }) }
        ensures err { OnErr result (self.new ≡ self.old) }
    {
        let number = self.next;
        if number == u64::MAX {
            return Err(AllocError);
        }
        let spare = Box::new(self.alloc, Branch::empty())?;
        self.numbers.insert(Mark::of(ob, kind), number)?;
        self.rank = next_rank(self.rank);
        let lines = mem::replace(&mut self.lines, Tree::Leaf);
        self.lines = lines.with_last(
            spare,
            Line {
                number,
                ob,
                kind,
                next: at,
            },
            self.rank,
        );
        self.next = number + 1;
        Ok(())
    }

    /// What is to come for an object comes at a moment. Where something of the kind is to come already,
    /// it keeps its place, and takes no memory. Where memory is wanting nothing changes.
    pub(crate) fn put(&mut self, ob: ObjId, kind: Kind, at: u64) -> Result<(), AllocError>
        ensures ok { OnOk result (self.new ≡ (if has_line self.old.lines kind ob then record { next = self.old.next; lines = lines_next self.old.lines kind ob at } else record { next = self.old.next + 1; lines = self.old.lines ++ record { number = self.old.next; ob = ob; kind = kind; next = at } ∷ [] })) }
        ensures err { OnErr result (self.new ≡ self.old) }
    {
        match self.number(ob, kind) {
            Some(number) => {
                self.set_number(number, at);
                Ok(())
            }
            None => self.add(ob, kind, at),
        }
    }

    /// Another moment for what is to come for an object, if it is. Takes no memory.
    pub(crate) fn set(&mut self, ob: ObjId, kind: Kind, at: u64)
        ensures { self.new ≡ record { next = self.old.next; lines = lines_next self.old.lines kind ob at } }
    {
        match self.number(ob, kind) {
            Some(number) => self.set_number(number, at),
            None => {}
        }
    }

    /// Nothing of a kind is to come for an object any more. Takes no memory.
    pub(crate) fn remove(&mut self, ob: ObjId, kind: Kind)
        ensures { self.new ≡ record { next = self.old.next; lines = lines_without self.old.lines kind ob } }
    {
        let Some(number) = self.numbers.remove(&Mark::of(ob, kind)) else {
            return;
        };
        let lines = mem::replace(&mut self.lines, Tree::Leaf);
        self.lines = lines.cut(number);
    }
}

// The next of a row of numbers that look drawn at random: a linear congruence.
fn next_rank(rank: u64) -> u64 {
    rank.wrapping_mul(6364136223846793005)
        .wrapping_add(1442695040888963407)
}
