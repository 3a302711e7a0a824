//! The loads of files, one after another.
ghost use Rattle.std.specs.Prelude.{◌≡◌, ◌∷◌, [], OnOk};
ghost use Rattle.lp_loads.specs.Known.{Grown, IsKnown, SomeKnown};
ghost use Rattle.lp_loads.specs.Loads.{Loaded, Loads, LoadsAll};

use lp_code::names::Names2;
use lp_files::store::Store;
use lp_loads::known::Known;
use lp_loads::loads::load;
use lp_tree::path::FilePath;
use std::alloc::{AllocError, Global};

/// Loads a file, inside no other load. After `Err` nothing is said of the loads.
pub(crate) fn load_first(
    alloc: Global,
    files: &Store,
    simuls: &Names2,
    file: &str,
    known: &mut Known,
) -> Result<(), AllocError>
    requires { SomeKnown known.old }
    ensures { (ls : Loaded) → IsKnown ls known.old → OnOk result (Grown (Loads files.now simuls.now [] file.now ls) known.new) }
{
    let mut under = Vec::new(alloc);
    load(alloc, files, simuls, &mut under, file, known)
}

// Loads a file whose load did not end yet.
fn load_one(
    alloc: Global,
    files: &Store,
    simuls: &Names2,
    file: &str,
    known: &mut Known,
) -> Result<(), AllocError>
    requires { SomeKnown known.old }
    ensures { (ls : Loaded) → IsKnown ls known.old → OnOk result (Grown (LoadsAll files.now simuls.now (file.now ∷ []) ls) known.new) }
{
    if known.has(file) {
        return Ok(());
    }
    load_first(alloc, files, simuls, file, known)
}

/// Loads the files whose loads did not end yet, one after another. After `Err` nothing is said of the loads.
pub fn load_all(
    alloc: Global,
    files: &Store,
    simuls: &Names2,
    paths: &[FilePath],
    known: &mut Known,
) -> Result<(), AllocError>
    requires { SomeKnown known.old }
    ensures { (ls : Loaded) → IsKnown ls known.old → OnOk result (Grown (LoadsAll files.now simuls.now paths.now ls) known.new) }
{
    for path in paths {
        load_one(alloc, files, simuls, path.as_str(), known)?;
    }
    Ok(())
}
