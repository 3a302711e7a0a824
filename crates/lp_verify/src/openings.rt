//! Lists of open catches, by numbers: lists are the same where their numbers are.
ghost use Rattle.std.specs.Prelude.{◌≡◌, ◌<◌, ◌^◌, ◌↔◌, ◌∷◌, [], IfOk, OnErr, OnOk, IsTrue, MatchOption, MatchResult, Some, length, slice_get};
ghost use Rattle.lp_verify.specs.Openings.{Adds, GoesOn, list_at};

use indexmap::IndexSet;
use std::alloc::{AllocError, Global};
use std::marker::Model;

/// A catch that is open: where it goes on, the height of the stack at its begin, and the number of the list round it.
#[derive(Clone, Copy, Debug, PartialEq, Eq, Hash)]
pub(crate) struct Opening {
    pub(crate) to: u32,
    pub(crate) height: u32,
    pub(crate) outer: usize,
}

/// The place of an opening, which is put last where it was not there.
fn put(rows: &mut IndexSet<Opening>, opening: Opening) -> Result<usize, AllocError>
    ensures adds { OnOk result (Adds rows.old.keys opening rows.new.keys) }
    ensures at { IfOk result (λ k. slice_get rows.new.keys k ≡ Some opening) }
    ensures few { IfOk result (λ k. k < 2 ^ 63) }
    ensures err { OnErr result (rows.new.keys ≡ rows.old.keys) }
{
    let (at, _) = rows.insert_full(opening)?;
    let _count = rows.len();
    Ok(at)
}

/// All lists of open catches that were met. The list with number 0 is empty.
#[derive(Drop)]
pub(crate) struct Openings {
    rows: IndexSet<Opening>,
}

impl Model for Openings {
    ghost use Rattle.std.specs.Prelude.{List};
    ghost use Rattle.lp_instr.specs.Code.{Catching};
    ghost use Rattle.lp_verify.specs.Openings.{AreOpenings, lists_of};

    ghost Value = { List (List Catching) };

    ghost view = { λ o. lists_of o.rows.keys };

    ghost invariant = { λ o. AreOpenings o.rows.keys };
}

impl Openings {
    /// The empty list alone.
    pub(crate) fn new(alloc: Global) -> Openings
        ensures { result ≡ [] ∷ [] }
    {
        Openings {
            rows: IndexSet::new(alloc),
        }
    }

    /// The number of the list in which one more catch is open.
    pub(crate) fn open(&mut self, opening: Opening) -> Result<usize, AllocError>
        requires { opening.outer < length self.old }
        ensures list { IfOk result (λ k. slice_get self.new k ≡ Some (record { place = opening.to; height = opening.height } ∷ list_at self.old opening.outer)) }
        ensures more { GoesOn self.old self.new }
    {
        let at = put(&mut self.rows, opening)?;
        Ok(at + 1)
    }

    /// The innermost catch of a list, if one is open.
    pub(crate) fn innermost(&self, number: usize) -> Option<Opening>
        requires { number < length self.now }
        ensures { MatchOption result (list_at self.now number ≡ []) (λ o. (list_at self.now number ≡ record { place = o.to; height = o.height } ∷ list_at self.now o.outer) × (o.outer < length self.now)) }
    {
        let rows = &self.rows;
        if number == 0 {
            return None;
        }
        rows.get_index(number - 1).copied()
    }

    /// Whether two numbers are of the same list.
    pub(crate) fn is_same(&self, one: usize, other: usize) -> bool
        requires one_in { one < length self.now }
        requires other_in { other < length self.now }
        ensures { IsTrue result ↔ (list_at self.now one ≡ list_at self.now other) }
    {
        let _rows = &self.rows;
        one == other
    }
}
