//! The steps of a tick, as they stand between the calls of the driver.
ghost use Rattle.std.specs.Prelude.{◌≡◌, ◌^◌, ◌≤◌, ◌∷◌, [], MatchOption, reverse};

use lp_values::id::ObjId;
use lp_values::value::Value;
use std::marker::Model;

/// Numbers of call-outs, the first of which comes next.
#[derive(Drop)]
pub struct Numbers {
    left: Vec<u64>,
}

impl Model for Numbers {
    ghost use Rattle.std.specs.Prelude.{List, ℕ, reverse};

    ghost Value = { List ℕ };

    ghost view = { λ n. reverse n.left.items };
}

impl Numbers {
    /// The numbers in a vector that has the first of them last. Takes no memory.
    pub(crate) fn from_last(left: Vec<u64>) -> Numbers
        ensures { result ≡ reverse left.items }
    {
        Numbers { left }
    }

    /// The next number. Takes no memory.
    pub(crate) fn next(&mut self) -> Option<u64>
        ensures { MatchOption result ((self.old ≡ []) × (self.new ≡ [])) (λ n. self.old ≡ n ∷ self.new) }
    {
        self.left.pop()
    }
}

/// Objects whose turn in a step of a tick is still to come, the first of which comes next, with the moment of the tick: in seconds,
/// up to 10^12.
#[derive(Drop)]
pub struct DueObjects {
    moment: u64,
    left: Vec<ObjId>,
}

impl Model for DueObjects {
    ghost use Rattle.std.specs.Prelude.{◌^◌, ◌≤◌, reverse};
    ghost use Rattle.lp_turn.specs.Due.{Due};

    ghost Value = { Due };

    ghost view = { λ d. record { moment = d.moment; objects = reverse d.left.items } };

    ghost invariant = { λ d. d.moment ≤ 10 ^ 12 };
}

impl DueObjects {
    /// The objects in a vector that has the first of them last. Takes no memory.
    pub(crate) fn from_last(moment: u64, left: Vec<ObjId>) -> DueObjects
        requires { moment ≤ 10 ^ 12 }
        ensures { result ≡ record { moment = moment; objects = reverse left.items } }
    {
        DueObjects { moment, left }
    }

    /// The next object. Takes no memory.
    pub(crate) fn next(&mut self) -> Option<ObjId>
        ensures moment { self.new.moment ≡ self.old.moment }
        ensures objects { MatchOption result ((self.old.objects ≡ []) × (self.new.objects ≡ [])) (λ o. self.old.objects ≡ o ∷ self.new.objects) }
    {
        self.left.pop()
    }

    /// The moment of the tick, in seconds.
    pub(crate) fn moment(&self) -> u64
        ensures value { result ≡ self.now.moment }
        ensures within { result ≤ 10 ^ 12 }
    {
        self.moment
    }
}

/// Where a step of a tick goes on.
#[derive(Drop)]
pub enum TickGoing {
    /// The call-outs with these numbers are called, those of them that wait still.
    CallOuts(Numbers),
    /// The hearts of these objects beat, those of them that are to still.
    Beats(DueObjects),
    /// The heart of an object has beaten, with an uncaught end or not; then those of these.
    Beaten(ObjId, bool, DueObjects),
    /// These objects are reset, those of them that are to be still.
    Resets(DueObjects),
    /// These objects are asked whether they clean up, those of them that are to be still.
    CleanUps(DueObjects),
    /// An object has answered that; then these are asked.
    CleanedUp(ObjId, Value, DueObjects),
}

/// What a step of a tick waits for.
#[derive(Drop)]
pub enum TickWaiting {
    /// A call-out. Those with these numbers come behind it.
    CallOut(Numbers),
    /// The heart beat of an object, for this `this_player()`. Those of these objects come behind it.
    Beat(ObjId, Option<ObjId>, DueObjects),
    /// The reset of an object. These come behind it.
    Reset(DueObjects),
    /// The answer of an object whether it cleans up. These come behind it.
    CleanUp(ObjId, DueObjects),
}
