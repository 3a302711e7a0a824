//! Files that are not there.
ghost use Rattle.std.specs.Prelude.{◌≡◌, ◌≤◌, Err, None};
ghost use Rattle.lp_io.specs.Counts.{one_more};
ghost use Rattle.lp_folder.specs.declared.outside.FilesError.TheVariants as errors;

use crate::outside::{Files, FilesError, Loaded};
use lp_events::octets::Octets;

/// Files that fail at every call, and tell nothing. For a program whose folder could not be opened, or that needs none.
#[derive(Drop)]
pub struct NoFiles {
    pub faults: u64,
}

impl NoFiles {
    /// Such files, without a fault so far.
    pub fn new() -> NoFiles
        ensures { result.faults ≡ 0 }
    {
        NoFiles { faults: 0 }
    }

    // One more fault.
    fn fail(&mut self)
        ensures counts { self.new.faults ≡ one_more self.old.faults }
        ensures no_fall { self.old.faults ≤ self.new.faults }
    {
        self.faults = self.faults.saturating_add(1);
    }
}

impl Files for NoFiles {
    ghost faults = { λ f. f.faults };

    ghost held = { λ _. None };

    /// Fails, always.
    fn load_all(&mut self) -> Result<Vec<Loaded>, FilesError>
        ensures fails { result ≡ Err errors.Failed }
        ensures counts { self.new.faults ≡ one_more self.old.faults }
        ensures no_fall { self.old.faults ≤ self.new.faults }
    {
        self.fail();
        Err(FilesError::Failed)
    }

    /// Fails, always.
    fn read(&mut self, _path: &str) -> Result<Octets, FilesError>
        ensures fails { result ≡ Err errors.Failed }
        ensures counts { self.new.faults ≡ one_more self.old.faults }
        ensures no_fall { self.old.faults ≤ self.new.faults }
    {
        self.fail();
        Err(FilesError::Failed)
    }

    /// Fails, always.
    fn write(&mut self, _path: &str, _bytes: &[u8]) -> Result<(), FilesError>
        ensures fails { result ≡ Err errors.Failed }
        ensures counts { self.new.faults ≡ one_more self.old.faults }
        ensures no_fall { self.old.faults ≤ self.new.faults }
    {
        self.fail();
        Err(FilesError::Failed)
    }

    /// Fails, always.
    fn remove(&mut self, _path: &str) -> Result<(), FilesError>
        ensures fails { result ≡ Err errors.Failed }
        ensures counts { self.new.faults ≡ one_more self.old.faults }
        ensures no_fall { self.old.faults ≤ self.new.faults }
    {
        self.fail();
        Err(FilesError::Failed)
    }
}
