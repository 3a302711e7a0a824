//! A walk along the paths through code.
ghost use Rattle.std.specs.Prelude.{◌≡◌, ◌<◌, [], ◌∷◌, OnOk, length};
ghost use Rattle.lp_verify.specs.Walks.{IsIn, IsWalk, Moves, known_of};

use crate::openings::Openings;
use crate::seen::{Seen, join, says};
use std::alloc::AllocError;

/// What is known of each place, and the places that are still to be looked at.
#[derive(Drop)]
pub(crate) struct Walk {
    pub(crate) openings: Openings,
    pub(crate) seen: Vec<Seen>,
    pub(crate) todo: Vec<usize>,
}

impl Walk {
    /// Something is learned of a place.
    pub(crate) fn learn(&mut self, to: usize, value: Seen) -> Result<(), AllocError>
        requires walk { IsWalk self.old }
        requires inside { to < length self.old.seen.items }
        requires value_in { IsIn self.old.openings value }
        ensures { OnOk result (Moves (record { to = to; known = known_of self.old.openings value } ∷ []) self.old self.new) }
    {
        let old = self.seen[to];
        if says(&self.openings, old, value) {
            return Ok(());
        }
        self.todo.push(to)?;
        self.seen[to] = join(&self.openings, old, value);
        Ok(())
    }
}
