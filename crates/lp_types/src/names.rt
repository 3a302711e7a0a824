//! Sets of names.
ghost use Rattle.std.specs.Prelude.{◌≡◌, ℕ, List, ◌||◌, false, OnOk};
ghost use Rattle.lp_instr.specs.EfunList.{is_name};
ghost use Rattle.lp_types.specs.NameSets.{is_in};

use lp_tree::chars::Chars;
use std::alloc::{AllocError, Global};
use std::collections::HashSet;

/// Names and texts, found in the time of one look-up.
#[derive(Drop)]
pub(crate) struct NameSet {
    names: HashSet<Vec<char>>,
}

impl NameSet {
    /// No names.
    pub(crate) fn new(alloc: Global) -> NameSet
        ensures { (w : List ℕ) → is_in result w ≡ false }
    {
        NameSet {
            names: HashSet::new(alloc),
        }
    }

    /// Whether a name is one of them.
    pub(crate) fn has(&self, name: &Chars) -> bool
        ensures { result ≡ is_in self.now name.now }
    {
        self.names.contains(name.as_slice())
    }

    /// One name more.
    pub(crate) fn add(&mut self, alloc: Global, name: &Chars) -> Result<(), AllocError>
        ensures { OnOk result ((w : List ℕ) → is_in self.new w ≡ (is_name w name.now || is_in self.old w)) }
    {
        if self.has(name) {
            return Ok(());
        }
        let key = name.as_slice().to_vec(alloc)?;
        self.names.insert(key)?;
        Ok(())
    }
}
