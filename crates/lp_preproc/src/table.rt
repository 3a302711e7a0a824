//! The table of macros.
ghost use Rattle.std.specs.Prelude.{◌≡◌, OnOk};
ghost use Rattle.std.specs.Option.{option_copied};
ghost use Rattle.lp_preproc.specs.Macros.{macro_of, no_macros, with_macro, without};
ghost use Rattle.lp_preproc.specs.Tables.{macros_in};

use crate::macros::Macro;
use std::alloc::{AllocError, Global};
use std::collections::BTreeMap;

/// Macros by their names.
#[derive(Drop)]
pub struct Table {
    macros: BTreeMap<Vec<char>, Macro>,
}

impl Table {
    /// No macros. Takes no memory.
    pub fn new(alloc: Global) -> Table
        ensures { macros_in result ≡ no_macros }
    {
        Table {
            macros: BTreeMap::new(alloc),
        }
    }

    /// What stands for a name.
    pub fn find(&self, name: &[char]) -> Option<&Macro>
        ensures { option_copied result ≡ macro_of name.now (macros_in self.now) }
    {
        self.macros.get(name)
    }

    /// Takes a name out. Takes no memory.
    pub fn remove(&mut self, name: &[char])
        ensures { macros_in self.new ≡ without name.now (macros_in self.old) }
    {
        self.macros.remove(name);
    }

    /// A name stands for this from now on.
    pub fn put(&mut self, alloc: Global, name: &[char], meaning: Macro) -> Result<(), AllocError>
        ensures { OnOk result (macros_in self.new ≡ with_macro name.now meaning (macros_in self.old)) }
    {
        self.macros.insert(Vec::from_slice(alloc, name)?, meaning)?;
        Ok(())
    }
}
