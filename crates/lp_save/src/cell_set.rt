//! Cells in the order in which they came.
ghost use Rattle.std.specs.Prelude.{◌≡◌, ◌<◌, ◌^◌, IfSome, [], ◌++◌, ◌∷◌, OnOk, OnErr, filter, if◌then◌else◌};
ghost use Rattle.lp_save.specs.SaveText.{is_among, share_number};

use indexmap::IndexSet;
use lp_values::id::CellId;
use std::alloc::{AllocError, Global};
use std::marker::Model;

/// Cells in the order in which they came, each once, found by hashing.
#[derive(Drop)]
pub(crate) struct CellSet {
    cells: IndexSet<CellId>,
}

impl Model for CellSet {
    ghost use Rattle.std.specs.Prelude.{List};
    ghost use Rattle.lp_values.specs.declared.id.CellId.{CellId as C};

    ghost Value = { List C };

    ghost view = { λ s. s.cells.keys };
}

impl CellSet {
    /// No cells. Takes no memory.
    pub(crate) fn new(alloc: Global) -> CellSet
        ensures { result ≡ [] }
    {
        CellSet {
            cells: IndexSet::new(alloc),
        }
    }

    /// Whether a cell came.
    pub(crate) fn contains(&self, c: CellId) -> bool
        ensures { result ≡ is_among c self.now }
    {
        self.cells.contains(&c)
    }

    /// The place of a cell, from 0, if it came.
    pub(crate) fn place(&self, c: CellId) -> Option<usize>
        ensures value { result ≡ share_number self.now c }
        ensures small { IfSome result (λ i. i < 2 ^ 63) }
    {
        // The set's length comes with how large it is at most.
        let _count = self.cells.len();
        self.cells.get_index_of(&c)
    }

    /// A cell comes, for the first time or again.
    pub(crate) fn add(&mut self, c: CellId) -> Result<(), AllocError>
        ensures ok { OnOk result (self.new ≡ (if is_among c self.old then self.old else self.old ++ c ∷ [])) }
        ensures err { OnErr result (self.new ≡ self.old) }
    {
        self.cells.insert(c)?;
        Ok(())
    }

    /// Keeps the cells that came to others as well. Takes no memory.
    pub(crate) fn keep_in(&mut self, others: &CellSet)
        ensures { self.new ≡ filter (λ c. is_among c others.now) self.old }
    {
        self.cells.retain(|c| others.contains(*c));
    }
}
