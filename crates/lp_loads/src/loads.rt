//! Loads of files, with their parents first.
ghost use Rattle.std.specs.Prelude.{◌≡◌, ◌∷◌, ◌≤◌, IfOk, OnOk, length};
ghost use Rattle.lp_layout.specs.Layout.{AreInside, IsSpelled, inherits};
ghost use Rattle.lp_front.specs.Reading.{items_of};
ghost use Rattle.lp_front.specs.Settling.{faults_of};
ghost use Rattle.lp_loads.specs.Family.{HasFamilyInside, LoadsDeclared, family_of};
ghost use Rattle.lp_loads.specs.Known.{Grown, HasFoundInside, IsKnown, SomeKnown, found_of};
ghost use Rattle.lp_loads.specs.Loads.{Loaded, Loads, LoadsParent, LoadsParents, ended, is_under_way as is_loaded_now, settled, with_fault};

use crate::known::{Ended, Found, Known};
use lp_code::names::Names2;
use lp_code::tables::Tables;
use lp_files::store::Store;
use lp_front::parents::{Parent, parents_of};
use lp_front::read::{Declared, ReadFault, read_file};
use lp_front::settle::{SettleFault, settle};
use lp_tree::fault::{Fault, FaultKind};
use lp_tree::path::FilePath;
use lp_values::id::ProgId;
use std::alloc::{AllocError, Global};

/// So many loads for an `inherit` may be under way inside one another.
const MOST_NESTED: usize = 64;

/// What the parents of a file lead to.
#[derive(Drop)]
pub enum Family {
    /// Versions, whose tables these are, one for each `inherit`.
    Whole(Vec<Tables>),
    /// A fault of the file itself, at the line of an `inherit`.
    Broken(FaultKind, u32),
    /// A parent without a version.
    Lacking,
}

// Whether the load of a file is under way.
fn is_under_way(under: &[FilePath], file: &str) -> bool
    ensures { result ≡ is_loaded_now under.now file.now }
{
    under.iter().any(|one| one.as_str() == file)
}

// The load of a file ends with one fault.
fn end_with(alloc: Global, file: &str, fault: Fault, known: &mut Known) -> Result<(), AllocError>
    ensures { (ls : Loaded) → IsKnown ls known.old → OnOk result (IsKnown (with_fault file.now fault ∷ ls) known.new) }
{
    let mut faults = Vec::new(alloc);
    faults.push(fault)?;
    known.add(
        alloc,
        file,
        Ended {
            version: None,
            faults,
        },
    )
}

// The load of a file ends whose parents all have versions.
fn end_whole(
    alloc: Global,
    file: &str,
    declared: &Declared,
    parents: &[Tables],
    simuls: &Names2,
    known: &mut Known,
) -> Result<(), AllocError>
    requires inside { AreInside parents.now }
    requires each { length parents.now ≡ inherits (items_of declared.now) }
    requires spelled { IsSpelled (items_of declared.now) }
    ensures { (ls : Loaded) → IsKnown ls known.old → OnOk result (IsKnown (settled file.now (items_of declared.now) declared.now.pragmas parents.now (length ls) (faults_of file.now (items_of declared.now) declared.now.pragmas parents.now simuls.now) ∷ ls) known.new) }
{
    match settle(alloc, file, declared, parents, ProgId(known.count), simuls) {
        Ok(tables) => known.add(
            alloc,
            file,
            Ended {
                version: Some(tables),
                faults: Vec::new(alloc),
            },
        ),
        Err(SettleFault::NoMemory) => Err(AllocError),
        Err(SettleFault::Faults(faults)) => known.add(
            alloc,
            file,
            Ended {
                version: None,
                faults,
            },
        ),
    }
}

// The load of a file ends whose parents lead to this.
fn end_family(
    alloc: Global,
    file: &str,
    declared: &Declared,
    family: Family,
    simuls: &Names2,
    known: &mut Known,
) -> Result<(), AllocError>
    requires inside { HasFamilyInside (inherits (items_of declared.now)) family }
    requires spelled { IsSpelled (items_of declared.now) }
    ensures { (ls : Loaded) → IsKnown ls known.old → OnOk result (IsKnown (ended simuls.now file.now (items_of declared.now) declared.now.pragmas (length ls) (family_of family) ∷ ls) known.new) }
{
    match family {
        Family::Lacking => known.add(
            alloc,
            file,
            Ended {
                version: None,
                faults: Vec::new(alloc),
            },
        ),
        Family::Broken(kind, line) => {
            let path = FilePath::from_str(alloc, file)?;
            end_with(
                alloc,
                file,
                Fault {
                    file: path,
                    line,
                    kind,
                },
                known,
            )
        }
        Family::Whole(parents) => {
            end_whole(alloc, file, declared, parents.as_slice(), simuls, known)
        }
    }
}

/// Loads a file, inside the loads that are under way, the outermost first, of which there are at most 64. Parents whose
/// loads did not end yet are loaded first, so each file is read once. After `Err` nothing is said of the loads.
#[cycle(loads)]
pub fn load(
    alloc: Global,
    files: &Store,
    simuls: &Names2,
    under: &mut Vec<FilePath>,
    file: &str,
    known: &mut Known,
) -> Result<(), AllocError>
    requires room { length under.old.items ≤ 64 }
    requires known { SomeKnown known.old }
    ensures loads { (ls : Loaded) → IsKnown ls known.old → OnOk result (Grown (Loads files.now simuls.now under.old.items file.now ls) known.new) }
    ensures under { OnOk result (under.new.items ≡ under.old.items) }
{
    match read_file(alloc, files, file) {
        Ok(declared) => load_declared(alloc, files, simuls, under, file, &declared, known),
        Err(ReadFault::NoMemory) => Err(AllocError),
        Err(ReadFault::At(fault)) => end_with(alloc, file, fault, known),
    }
}

// Loads a file that declares this.
#[cycle(loads)]
fn load_declared(
    alloc: Global,
    files: &Store,
    simuls: &Names2,
    under: &mut Vec<FilePath>,
    file: &str,
    declared: &Declared,
    known: &mut Known,
) -> Result<(), AllocError>
    requires room { length under.old.items ≤ 64 }
    requires spelled { IsSpelled (items_of declared.now) }
    requires known { SomeKnown known.old }
    ensures loads { (ls : Loaded) → IsKnown ls known.old → OnOk result (Grown (LoadsDeclared files.now simuls.now under.old.items file.now declared.now ls) known.new) }
    ensures under { OnOk result (under.new.items ≡ under.old.items) }
{
    let parents = parents_of(alloc, declared.unit.items.as_slice())?;
    under.push(FilePath::from_str(alloc, file)?)?;
    let family = load_parents(alloc, files, simuls, under, parents.as_slice(), known)?;
    under.pop();
    end_family(alloc, file, declared, family, simuls, known)
}

// Loads the parents of the innermost load, up to the first that has no version.
#[cycle(loads)]
fn load_parents(
    alloc: Global,
    files: &Store,
    simuls: &Names2,
    under: &mut Vec<FilePath>,
    parents: &[Parent],
    known: &mut Known,
) -> Result<Family, AllocError>
    requires room { length under.old.items ≤ 65 }
    requires known { SomeKnown known.old }
    ensures loads { (ls : Loaded) → IsKnown ls known.old → IfOk result (λ f. Grown (λ after. LoadsParents files.now simuls.now under.old.items parents.now ls after (family_of f)) known.new) }
    ensures inside { IfOk result (HasFamilyInside (length parents.now)) }
    ensures under { OnOk result (under.new.items ≡ under.old.items) }
{
    let mut tables = Vec::new(alloc);
    for parent in parents {
        match load_parent(alloc, files, simuls, under, parent.file.as_str(), known)? {
            Found::Stands(one) => tables.push(one)?,
            Found::Wrong(kind) => return Ok(Family::Broken(kind, parent.line)),
            Found::Lacks => return Ok(Family::Lacking),
        }
    }
    Ok(Family::Whole(tables))
}

// Loads a parent of the innermost load, if that has to be.
#[cycle(loads)]
fn load_parent(
    alloc: Global,
    files: &Store,
    simuls: &Names2,
    under: &mut Vec<FilePath>,
    file: &str,
    known: &mut Known,
) -> Result<Found, AllocError>
    requires room { length under.old.items ≤ 65 }
    requires known { SomeKnown known.old }
    ensures loads { (ls : Loaded) → IsKnown ls known.old → IfOk result (λ f. Grown (λ after. LoadsParent files.now simuls.now under.old.items file.now ls after (found_of f)) known.new) }
    ensures inside { IfOk result HasFoundInside }
    ensures under { OnOk result (under.new.items ≡ under.old.items) }
{
    if let Some(found) = known.found(alloc, file)? {
        return Ok(found);
    }
    if is_under_way(under.as_slice(), file) {
        return Ok(Found::Wrong(FaultKind::Cycle));
    }
    if under.len() > MOST_NESTED {
        return Ok(Found::Wrong(FaultKind::InheritDepth));
    }
    load(alloc, files, simuls, under, file, known)?;
    match known.found(alloc, file)? {
        Some(found) => Ok(found),
        None => Err(AllocError),
    }
}
