//! The items that were read.
ghost use Rattle.std.specs.Prelude.{◌≡◌, OnOk};
ghost use Rattle.lp_tree.specs.UnitView.{item_of};
ghost use Rattle.lp_parser.specs.Machine.{Top, start, turned, with_item};
ghost use Rattle.lp_parser.specs.View.{before_of, phase_of};

use lp_tree::unit::Item;
use std::alloc::{AllocError, Global};

/// Which items may come.
#[derive(Clone, Copy, Debug, PartialEq, Eq)]
pub enum Phase {
    /// Each.
    Inherits,
    /// No `inherit` any more.
    Definitions,
}

/// The items that were read, and which may come.
#[derive(Drop)]
pub struct Before {
    /// The items, in their order.
    pub items: Vec<Item>,
    /// Which may come.
    pub phase: Phase,
}

// A variable or a function ends the phase in which an `inherit` may come.
fn phase_behind(phase: Phase, item: &Item) -> Phase
    ensures { phase_of result ≡ turned (phase_of phase) (item_of item.now) }
{
    match item {
        Item::Inherit { .. } | Item::Proto { .. } => phase,
        Item::Fun { .. } | Item::Var { .. } => Phase::Definitions,
    }
}

impl Before {
    /// No items: each may come.
    pub fn new(alloc: Global) -> Before
        ensures { Top (before_of result) ≡ start }
    {
        Before {
            items: Vec::new(alloc),
            phase: Phase::Inherits,
        }
    }

    /// One more item. On `Err` the items are as they were.
    pub fn push(&mut self, item: Item) -> Result<(), AllocError>
        ensures { OnOk result (before_of self.new ≡ with_item (before_of self.old) (item_of item)) }
    {
        let phase = phase_behind(self.phase, &item);
        self.items.push(item)?;
        self.phase = phase;
        Ok(())
    }
}
