//! What a unit is with its parents.
ghost use Rattle.std.specs.Prelude.{◌≡◌, ◌∷◌, ◌++◌, [], IfErr, IfOk, OnOk, length, map};
ghost use Rattle.lp_layout.specs.Layout.{AreInside, IsSpelled, inherits};
ghost use Rattle.lp_front.specs.Reading.{items_of};
ghost use Rattle.lp_front.specs.Settling.{IsLaid, IsLayoutTold, IsSettled, IsSettledFault, IsToldAs, finished, in_file, path_of as path_in, versions_of as versions_in, with_version};

use crate::read::Declared;
use lp_code::listed::Listed;
use lp_code::names::Names2;
use lp_code::tables::Tables;
use lp_layout::fault::InheritFault;
use lp_layout::layout::layout;
use lp_tree::fault::Fault;
use lp_tree::path::FilePath;
use lp_tree::pragma::Pragmas;
use lp_types::check::check;
use lp_types::fault::TypeFaults;
use lp_types_expr::fault::FaultAt;
use lp_values::id::ProgId;
use std::alloc::{AllocError, Global};
use thiserror::Error;

/// Why a file has no version.
#[derive(Debug, Drop, Error)]
pub enum SettleFault {
    /// Its faults, in the order of the tokens: all of its types, or else the first of its layout.
    #[error("faults in the file")]
    Faults(Vec<Fault>),
    #[error("out of memory")]
    NoMemory,
}

// Faults, named by their file.
fn named(alloc: Global, file: &str, faults: &[FaultAt]) -> Result<Vec<Fault>, AllocError>
    ensures { IfOk result (λ v. v.items ≡ map (in_file file.now) faults.now) }
{
    let mut all = Vec::new(alloc);
    for fault in faults {
        all.push(Fault {
            file: FilePath::from_str(alloc, file)?,
            line: fault.line,
            kind: fault.kind,
        })?;
    }
    Ok(all)
}

// What is told of these faults.
fn told(alloc: Global, file: &str, faults: &[FaultAt]) -> SettleFault
    ensures { IsToldAs (map (in_file file.now) faults.now) result }
{
    match named(alloc, file, faults) {
        Ok(all) => SettleFault::Faults(all),
        Err(_) => SettleFault::NoMemory,
    }
}

// The path of a version: that of its file without `.c`.
fn path_of(alloc: Global, file: &str) -> Result<FilePath, AllocError>
    ensures { IfOk result (λ p. p ≡ path_in file.now) }
{
    match file.strip_suffix(".c") {
        Some(path) => FilePath::from_str(alloc, path),
        None => FilePath::from_str(alloc, file),
    }
}

// Puts a version behind others, if there is one.
fn add_version(all: &mut Vec<ProgId>, version: Option<ProgId>) -> Result<(), AllocError>
    ensures { OnOk result (all.new.items ≡ all.old.items ++ with_version version []) }
{
    match version {
        None => Ok(()),
        Some(version) => Ok(all.push(version)?),
    }
}

// The versions of parents, each of which is the last part of its tables.
fn versions_of(alloc: Global, parents: &[Tables]) -> Result<Vec<ProgId>, AllocError>
    ensures { IfOk result (λ v. v.items ≡ versions_in parents.now) }
{
    let mut all = Vec::new(alloc);
    for parent in parents {
        add_version(&mut all, parent.parts.as_slice().last().copied())?;
    }
    Ok(all)
}

// The tables of a unit, with what only who compiles it knows.
fn finish(
    alloc: Global,
    file: &str,
    laid: Tables,
    pragmas: Pragmas,
    parents: &[Tables],
    own: ProgId,
) -> Result<Tables, AllocError>
    ensures { IfOk result (λ t. t ≡ finished file.now laid pragmas parents.now own) }
{
    let mut parts = laid.parts.into_vec();
    parts.push(own)?;
    Ok(Tables {
        path: path_of(alloc, file)?,
        parents: Listed::from_vec(versions_of(alloc, parents)?),
        parts: Listed::from_vec(parts),
        slots: laid.slots,
        vars: laid.vars,
        pragmas,
    })
}

// The tables of a unit whose types are without fault.
fn laid(
    alloc: Global,
    file: &str,
    declared: &Declared,
    parents: &[Tables],
    own: ProgId,
) -> Result<Tables, SettleFault>
    requires inside { AreInside parents.now }
    requires each { length parents.now ≡ inherits (items_of declared.now) }
    requires spelled { IsSpelled (items_of declared.now) }
    ensures tables { IfOk result (IsLaid file.now declared.now parents.now own) }
    ensures inside { IfOk result (λ t. AreInside (t ∷ [])) }
    ensures faults { IfErr result (IsLayoutTold file.now declared.now parents.now) }
{
    match layout(alloc, &declared.unit, parents) {
        Ok(tables) => match finish(alloc, file, tables, declared.pragmas, parents, own) {
            Ok(tables) => Ok(tables),
            Err(_) => Err(SettleFault::NoMemory),
        },
        Err(InheritFault::NoMemory) => Err(SettleFault::NoMemory),
        Err(InheritFault::At { line, kind }) => Err(told(alloc, file, &[FaultAt { line, kind }])),
    }
}

/// The tables of the version that a file's unit makes with these parents, one for each `inherit`, and these names of
/// simul efuns; `own` is the version's number; its tables are fine for its children. `Faults` comes exactly where there are some.
pub fn settle(
    alloc: Global,
    file: &str,
    declared: &Declared,
    parents: &[Tables],
    own: ProgId,
    simuls: &Names2,
) -> Result<Tables, SettleFault>
    requires inside { AreInside parents.now }
    requires each { length parents.now ≡ inherits (items_of declared.now) }
    requires spelled { IsSpelled (items_of declared.now) }
    ensures tables { IfOk result (IsSettled file.now declared.now parents.now own simuls.now) }
    ensures inside { IfOk result (λ t. AreInside (t ∷ [])) }
    ensures faults { IfErr result (IsSettledFault file.now declared.now parents.now simuls.now) }
{
    match check(alloc, &declared.unit, &declared.pragmas, parents, simuls) {
        Ok(()) => laid(alloc, file, declared, parents, own),
        Err(TypeFaults::NoMemory) => Err(SettleFault::NoMemory),
        Err(TypeFaults::Faults(faults)) => Err(told(alloc, file, faults.as_slice())),
    }
}
