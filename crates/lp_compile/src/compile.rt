//! From a file to its program.
ghost use Rattle.std.specs.Prelude.{◌≡◌, ◌∷◌, [], IfErr, IfOk, length, map};
ghost use Rattle.lp_tree.specs.UnitView.{item_of};
ghost use Rattle.lp_code.specs.Programs.{IsProgram};
ghost use Rattle.lp_layout.specs.Layout.{AreInside, IsSpelled, inherits};
ghost use Rattle.lp_front.specs.Reading.{items_of};
ghost use Rattle.lp_compile.specs.Compiles.{Compiles, IsRefused, IsWant};
ghost use Rattle.lp_unit_laws.specs.Versions.{AreOfVersions};
ghost use Rattle.lp_compile.specs.Outcomes.{IsAlone, IsMade, IsMadeOf, IsMadeOver, IsRefusedOf, IsRefusedOver};
ghost use Rattle.lp_compile.specs.Settled.{IsOfTokens, IsSettledUnit};

use crate::family::tables_of_parents;
use crate::fault::CompileFault;
use crate::generate::generate;
use crate::laws::law_code;
use crate::loaded::Loaded;
use lp_code::names::Names2;
use lp_code::program::{Program, RawProgram};
use lp_code::tables::Tables;
use lp_codegen_expr::code::GenFault;
use lp_files::store::Store;
use lp_front::parents::parents_of;
use lp_front::read::{Declared, ReadFault, read_file};
use lp_front::settle::{SettleFault, settle};
use lp_tree::fault::Fault;
use lp_tree::unit::Item;
use lp_unit_laws::law_programs;
use lp_values::id::ProgId;
use lp_verify::fault::VerifyFault;
use lp_verify::verify::verify;
use std::alloc::Global;

// One fault alone.
fn one_fault(alloc: Global, fault: Fault) -> CompileFault
    ensures { IsAlone fault result }
{
    let mut faults = Vec::new(alloc);
    match faults.push(fault) {
        Ok(()) => CompileFault::Faults(faults),
        Err(_) => CompileFault::NoMemory,
    }
}

// The program of parts that are sound, so that it is refused for want of memory alone.
fn verified(alloc: Global, raw: RawProgram) -> Result<Program, CompileFault>
    requires sound { IsProgram raw }
    ensures program { IfOk result (λ p. p ≡ raw) }
    ensures sound { IfOk result (λ p. IsProgram p) }
    ensures fault { IfErr result (λ f. f ≡ CompileFault.NoMemory) }
{
    match verify(alloc, raw) {
        Ok(program) => Ok(program),
        Err(VerifyFault::NoMemory) => Err(CompileFault::NoMemory),
        Err(VerifyFault::Unsound { .. }) => unreachable!(),
    }
}

// The program of a unit that has these tables. It is refused for want of memory or room alone.
fn make(
    alloc: Global,
    items: &Vec<Item>,
    tables: Tables,
    parents: &[Tables],
    simuls: &Names2,
) -> Result<Program, CompileFault>
    requires settled { IsSettledUnit (map item_of items.now.items) tables parents.now simuls.now }
    ensures program { IfOk result (IsMade (map item_of items.now.items) tables parents.now simuls.now) }
    ensures fault { IfErr result IsWant }
{
    law_code();
    law_programs();
    match generate(alloc, items, tables, parents, simuls.as_slice()) {
        Ok(raw) => {
            let program = verified(alloc, raw)?;
            Ok(program)
        }
        Err(GenFault::NoMemory) => Err(CompileFault::NoMemory),
        Err(GenFault::TooLarge) => Err(CompileFault::TooLarge),
        Err(GenFault::Unclear) => unreachable!(),
    }
}

// The program of a file that declares this, with the tables of its parents.
fn compile_over(
    alloc: Global,
    path: &str,
    declared: &Declared,
    own: ProgId,
    parents: &[Tables],
    simuls: &Names2,
) -> Result<Program, CompileFault>
    requires inside { AreInside parents.now }
    requires each { length parents.now ≡ inherits (items_of declared.now) }
    requires spelled { IsSpelled (items_of declared.now) }
    requires tokens { IsOfTokens (items_of declared.now) }
    requires of { AreOfVersions parents.now }
    ensures program { IfOk result (IsMadeOver path.now declared.now own parents.now simuls.now) }
    ensures fault { IfErr result (IsRefusedOver path.now declared.now parents.now simuls.now) }
{
    match settle(alloc, path, declared, parents, own, simuls) {
        Ok(tables) => {
            let program = make(alloc, &declared.unit.items, tables, parents, simuls)?;
            Ok(program)
        }
        Err(SettleFault::Faults(faults)) => Err(CompileFault::Faults(faults)),
        Err(SettleFault::NoMemory) => Err(CompileFault::NoMemory),
    }
}

// The program of a file that declares this.
fn compile_declared<L: Loaded>(
    alloc: Global,
    path: &str,
    declared: &Declared,
    own: ProgId,
    loaded: &L,
) -> Result<Program, CompileFault>
    requires spelled { IsSpelled (items_of declared.now) }
    requires tokens { IsOfTokens (items_of declared.now) }
    ensures program { IfOk result (IsMadeOf path.now declared.now own (L.known loaded.now) (L.simuls loaded.now)) }
    ensures fault { IfErr result (IsRefusedOf path.now declared.now (L.known loaded.now) (L.simuls loaded.now)) }
{
    let list = parents_of(alloc, declared.unit.items.as_slice())?;
    let parents = tables_of_parents(alloc, list.as_slice(), loaded)?;
    let simuls = loaded.simul();
    let program = compile_over(alloc, path, declared, own, parents.as_slice(), simuls)?;
    Ok(program)
}

/// The program of a file of a store, where `own` is the number that its version is to have. Nothing changes in what is loaded.
/// Takes time in proportion to the file with what it includes, and to the tables of its parents.
///
/// # Errors
///
/// `Faults` with its one first fault where it declares no unit. Else `Need` with the first of its parents that is not loaded.
/// Else `Faults` with all faults of its types, or else the first of its layout. Else it has a program: the generators find all
/// of it clear, and the verifier refuses nothing that they make. But then `TooLarge` may come, where an instruction or a row
/// has no room for a number; and `NoMemory` at any time, for want of memory.
pub fn compile<L: Loaded>(
    alloc: Global,
    files: &Store,
    path: &str,
    own: ProgId,
    loaded: &L,
) -> Result<Program, CompileFault>
    ensures program { IfOk result (Compiles files.now path.now own (L.known loaded.now) (L.simuls loaded.now)) }
    ensures fault { IfErr result (IsRefused files.now path.now (L.known loaded.now) (L.simuls loaded.now)) }
{
    match read_file(alloc, files, path) {
        Ok(declared) => {
            let program = compile_declared(alloc, path, &declared, own, loaded)?;
            Ok(program)
        }
        Err(ReadFault::At(fault)) => Err(one_fault(alloc, fault)),
        Err(ReadFault::NoMemory) => Err(CompileFault::NoMemory),
    }
}
