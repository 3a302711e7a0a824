//! The tables of the files that a file inherits.
ghost use Rattle.std.specs.Prelude.{◌≡◌, ◌∷◌, [], IfErr, IfOk, Some, length};
ghost use Rattle.lp_layout.specs.Layout.{AreInside};
ghost use Rattle.lp_unit_laws.specs.Versions.{AreOfVersions, IsOfVersion};
ghost use Rattle.lp_compile.specs.Known.{AreGiven, AreNotGiven, IsNotGiven};

use crate::fault::CompileFault;
use crate::loaded::Loaded;
use lp_code::tables::Tables;
use lp_front::copies::copy_tables;
use lp_front::parents::Parent;
use std::alloc::Global;

// A copy of the tables of the version of a file.
fn tables_of<L: Loaded>(alloc: Global, file: &str, loaded: &L) -> Result<Tables, CompileFault>
    ensures known { IfOk result (λ t. L.known loaded.now file.now ≡ Some t) }
    ensures inside { IfOk result (λ t. AreInside (t ∷ [])) }
    ensures of { IfOk result (λ t. IsOfVersion t) }
    ensures fault { IfErr result (IsNotGiven (L.known loaded.now) file.now) }
{
    match loaded.parent(file) {
        Some((_, tables)) => Ok(copy_tables(alloc, tables)?),
        None => Err(CompileFault::Need(String::from_str(alloc, file)?)),
    }
}

/// Copies of the tables of parents, in their order. `Need` is the file of the first one that is not loaded.
pub(crate) fn tables_of_parents<L: Loaded>(
    alloc: Global,
    parents: &[Parent],
    loaded: &L,
) -> Result<Vec<Tables>, CompileFault>
    ensures known { IfOk result (λ v. AreGiven (L.known loaded.now) parents.now v.items) }
    ensures inside { IfOk result (λ v. AreInside v.items) }
    ensures of { IfOk result (λ v. AreOfVersions v.items) }
    ensures count { IfOk result (λ v. length v.items ≡ length parents.now) }
    ensures fault { IfErr result (AreNotGiven (L.known loaded.now) parents.now) }
{
    let mut all = Vec::with_capacity(alloc, parents.len())?;
    for parent in parents {
        let tables = tables_of(alloc, parent.file.as_str(), loaded)?;
        all.push(tables)?;
    }
    Ok(all)
}
