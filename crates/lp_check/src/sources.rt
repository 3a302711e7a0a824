//! The files of a script, and their report.
ghost use Rattle.std.specs.Prelude.{◌≡◌, ◌++◌, ◌∷◌, [], ℕ, List, IfOk, OnOk};
ghost use Rattle.std.specs.Option.{option_copied};
ghost use Rattle.lp_check.specs.Report.{IsReport, is_source as source_path};
ghost use Rattle.lp_check.specs.Sources.{AreFiles};

use crate::all::load_all;
use crate::lines::{put_counts, put_known};
use crate::simul::load_simul;
use lp_files::store::Store;
use lp_loads::known::Known;
use lp_tree::path::FilePath;
use std::alloc::{AllocError, Global};

/// The files of a script, and the paths of those that are compiled.
#[derive(Drop)]
pub struct Sources {
    store: Store,
    paths: Vec<FilePath>,
}

// Whether a file is compiled.
fn is_source(path: &str) -> bool
    ensures { result ≡ source_path path.now }
{
    path.as_bytes().ends_with(b".c")
}

impl Sources {
    /// No files. Takes no memory.
    pub fn new(alloc: Global) -> Sources
        ensures { AreFiles [] result }
    {
        Sources {
            store: Store::new(alloc),
            paths: Vec::new(alloc),
        }
    }

    /// One more file. It replaces one with its path. After `Err` nothing is said of the files.
    pub fn add(&mut self, path: FilePath, bytes: &[u8]) -> Result<(), AllocError>
        ensures { (files : List (List ℕ × List ℕ)) → AreFiles files self.old → OnOk result (AreFiles (files ++ (path, bytes.now) ∷ []) self.new) }
    {
        self.store.write(path.as_str(), bytes)?;
        if is_source(path.as_str()) {
            self.paths.push(path)?;
        }
        Ok(())
    }

    /// The files. Takes no memory.
    pub fn store(&self) -> &Store
        ensures { result.now ≡ self.now.store }
    {
        &self.store
    }

    /// The paths of those that are compiled, in their order. Takes no memory.
    pub fn paths(&self) -> &[FilePath]
        ensures { result.now ≡ self.now.paths.items }
    {
        self.paths.as_slice()
    }

    /// The report of the files: a line `FILE line N: TEXT` for each fault that loading those finds that are compiled, their
    /// parents first and running nothing, by the paths of the files, and the line `F files, E faults`, where F counts the
    /// files that are compiled. Where `simul` is the path of one of them, it is loaded before the others, and each other
    /// file may call the functions of its version that any object may call. Takes time in proportion to the files with what
    /// they include, and to the tables of their parents.
    pub fn report(&self, alloc: Global, simul: Option<&str>) -> Result<Vec<u8>, AllocError>
        ensures { (files : List (List ℕ × List ℕ)) → AreFiles files self.now → IfOk result (λ v. IsReport (option_copied simul.entry) files v.items) }
    {
        let mut known = Known::new(alloc);
        let names = load_simul(alloc, &self.store, self.paths.as_slice(), simul, &mut known)?;
        load_all(
            alloc,
            &self.store,
            &names,
            self.paths.as_slice(),
            &mut known,
        )?;
        let mut out = Vec::new(alloc);
        let faults = put_known(alloc, &mut out, &known)?;
        put_counts(alloc, &mut out, self.paths.len() as u64, faults)?;
        Ok(out)
    }
}
