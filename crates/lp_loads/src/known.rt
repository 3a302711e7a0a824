//! The loads that ended.
ghost use Rattle.std.specs.Prelude.{◌≡◌, ◌∷◌, [], IfOk, OnOk, is_some};
ghost use Rattle.lp_loads.specs.Known.{FoundIn, HasFoundInside, HasOptionInside, HasVersionInside, IsKnown, found_of, load_as};
ghost use Rattle.lp_loads.specs.Loads.{Loaded, found_version, load_of};

use lp_code::tables::Tables;
use lp_front::copies::copy_tables;
use lp_tree::fault::{Fault, FaultKind};
use std::alloc::{AllocError, Global};
use std::collections::BTreeMap;

/// How the load of a file ended: with the tables of its version, if it has one, and its own faults.
#[derive(Drop)]
pub struct Ended {
    /// The tables of its version, if it has one.
    pub version: Option<Tables>,
    /// Its own faults, in the order of the tokens.
    pub faults: Vec<Fault>,
}

/// What an `inherit` leads to.
#[derive(Drop)]
pub enum Found {
    /// A parent with a version, whose tables these are.
    Stands(Tables),
    /// The inheriting file itself has this fault here.
    Wrong(FaultKind),
    /// A parent without a version.
    Lacks,
}

/// The loads that ended, by their files.
#[derive(Drop)]
pub struct Known {
    /// How the load of each file ended.
    pub files: BTreeMap<String, Ended>,
    /// How many loads ended: the number of the next version.
    pub count: u64,
}

// A copy of a version's tables, if there is one.
fn copied(alloc: Global, version: &Option<Tables>) -> Result<Found, AllocError>
    ensures found { IfOk result (λ f. found_of f ≡ found_version version.now) }
    ensures inside { HasVersionInside version.now → IfOk result HasFoundInside }
{
    match version {
        None => Ok(Found::Lacks),
        Some(tables) => Ok(Found::Stands(copy_tables(alloc, tables)?)),
    }
}

impl Known {
    /// No loads. Takes no memory.
    pub fn new(alloc: Global) -> Known
        ensures { IsKnown [] result }
    {
        Known {
            files: BTreeMap::new(alloc),
            count: 0,
        }
    }

    /// What an `inherit` of a file leads to whose load ended, or None.
    pub fn found(&self, alloc: Global, file: &str) -> Result<Option<Found>, AllocError>
        ensures found { (ls : Loaded) → IsKnown ls self.now → IfOk result (FoundIn (load_of ls file.now)) }
        ensures inside { (ls : Loaded) → IsKnown ls self.now → IfOk result HasOptionInside }
    {
        match self.files.get(file) {
            None => Ok(None),
            Some(ended) => Ok(Some(copied(alloc, &ended.version)?)),
        }
    }

    /// Whether the load of a file ended. Takes no memory.
    pub fn has(&self, file: &str) -> bool
        ensures { (ls : Loaded) → IsKnown ls self.now → result ≡ is_some (load_of ls file.now) }
    {
        self.files.contains_key(file)
    }

    /// One more load that ended. After `Err` nothing is said of the loads.
    pub fn add(&mut self, alloc: Global, file: &str, ended: Ended) -> Result<(), AllocError>
        requires { HasVersionInside ended.version }
        ensures { (ls : Loaded) → IsKnown ls self.old → OnOk result (IsKnown (load_as file.now ended ∷ ls) self.new) }
    {
        let count = match self.count.checked_add(1) {
            Some(count) => count,
            None => return Err(AllocError),
        };
        self.files.insert(String::from_str(alloc, file)?, ended)?;
        self.count = count;
        Ok(())
    }
}
