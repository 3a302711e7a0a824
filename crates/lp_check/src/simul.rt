//! The names of the simul efuns.
ghost use Rattle.std.specs.Prelude.{◌≡◌, ◌<◌, ◌∷◌, ◌++◌, [], IfOk, OnOk, Some};
ghost use Rattle.std.specs.Option.{option_copied};
ghost use Rattle.lp_files.specs.Paths.{lists};
ghost use Rattle.lp_types_expr.specs.Signatures.{has_bit as has_bit_of};
ghost use Rattle.lp_loads.specs.Known.{Grown, IsKnown};
ghost use Rattle.lp_loads.specs.Loads.{Loaded, Loads, load_of};
ghost use Rattle.lp_check.specs.Report.{LoadsSimul, callable_names, is_callable as callable, load_names, simul_file, version_names};

use crate::all::load_first;
use lp_code::name::Name;
use lp_code::names::Names2;
use lp_code::tables::{Slot, Tables};
use lp_files::store::Store;
use lp_loads::known::Known;
use lp_tree::path::FilePath;
use std::alloc::{AllocError, Global};

/// The place among a part's functions that is none.
const NO_FUNCTION: u16 = 65535;

// Whether a number of modifiers has one's bit, whose value is a power of 2.
fn has_bit(value: u16, mods: u16) -> bool
    requires { 0 < value }
    ensures { result ≡ has_bit_of value mods }
{
    (mods / value) % 2 == 1
}

// Whether every other object may call the function of a row.
fn is_callable(slot: &Slot) -> bool
    ensures { result ≡ callable slot.now }
{
    slot.fun != NO_FUNCTION
        && !has_bit(1, slot.mods)
        && !has_bit(2, slot.mods)
        && !has_bit(8, slot.mods)
}

// Puts the name of a row behind others, if every other object may call its function.
fn add_name(alloc: Global, names: &mut Vec<Name>, slot: &Slot) -> Result<(), AllocError>
    ensures { OnOk result (names.new.items ≡ names.old.items ++ callable_names (slot.now ∷ [])) }
{
    if is_callable(slot) {
        names.push(slot.name.copy(alloc)?)?;
    }
    Ok(())
}

// The names of the functions that every other object may call, in the order of the rows.
fn names_of_rows(alloc: Global, slots: &[Slot]) -> Result<Vec<Name>, AllocError>
    ensures { IfOk result (λ v. v.items ≡ callable_names slots.now) }
{
    let mut names = Vec::new(alloc);
    for slot in slots {
        add_name(alloc, &mut names, slot)?;
    }
    Ok(names)
}

// The names of a version, if there is one.
fn names_of_version(alloc: Global, version: &Option<Tables>) -> Result<Vec<Name>, AllocError>
    ensures { IfOk result (λ v. v.items ≡ version_names version.now) }
{
    match version {
        None => Ok(Vec::new(alloc)),
        Some(tables) => names_of_rows(alloc, tables.slots.as_slice()),
    }
}

// The names that the load of a file leads to.
fn names_of_load(alloc: Global, known: &Known, file: &str) -> Result<Vec<Name>, AllocError>
    ensures { (ls : Loaded) → IsKnown ls known.now → IfOk result (λ v. v.items ≡ load_names (load_of ls file.now)) }
{
    match known.files.get(file) {
        None => Ok(Vec::new(alloc)),
        Some(ended) => names_of_version(alloc, &ended.version),
    }
}

// Loads a file and its parents while no names are known.
fn load_unnamed(
    alloc: Global,
    files: &Store,
    file: &str,
    known: &mut Known,
) -> Result<(), AllocError>
    requires { IsKnown [] known.old }
    ensures { OnOk result (Grown (Loads files.now [] [] file.now []) known.new) }
{
    let none = Names2::from_vec(alloc, Vec::new(alloc))?;
    load_first(alloc, files, &none, file, known)
}

// Loads the file of the simul efuns, and gives its names.
fn load_file(
    alloc: Global,
    files: &Store,
    file: &str,
    known: &mut Known,
) -> Result<Names2, AllocError>
    requires { IsKnown [] known.old }
    ensures { IfOk result (λ n. Grown (λ ls. LoadsSimul files.now (Some file.now) ls n) known.new) }
{
    load_unnamed(alloc, files, file, known)?;
    Names2::from_vec(alloc, names_of_load(alloc, known, file)?)
}

// Whether a path is in a list.
fn is_listed(paths: &[FilePath], path: &str) -> bool
    ensures { result ≡ lists path.now paths.now }
{
    paths.iter().any(|one| one.as_str() == path)
}

// Loads the file with this path, if it is among those that are compiled, and gives its names.
fn load_listed(
    alloc: Global,
    files: &Store,
    paths: &[FilePath],
    path: &str,
    known: &mut Known,
) -> Result<Names2, AllocError>
    requires { IsKnown [] known.old }
    ensures { IfOk result (λ n. Grown (λ ls. LoadsSimul files.now (simul_file paths.now (Some path.now)) ls n) known.new) }
{
    if is_listed(paths, path) {
        return load_file(alloc, files, path, known);
    }
    Names2::from_vec(alloc, Vec::new(alloc))
}

/// Loads the file of the simul efuns, if there is one: that with the path that is given, if it is among those that are
/// compiled. Gives its names, or none. After `Err` nothing is said of the loads.
pub fn load_simul(
    alloc: Global,
    files: &Store,
    paths: &[FilePath],
    simul: Option<&str>,
    known: &mut Known,
) -> Result<Names2, AllocError>
    requires { IsKnown [] known.old }
    ensures { IfOk result (λ n. Grown (λ ls. LoadsSimul files.now (simul_file paths.now (option_copied simul.entry)) ls n) known.new) }
{
    match simul {
        None => Names2::from_vec(alloc, Vec::new(alloc)),
        Some(path) => load_listed(alloc, files, paths, path, known),
    }
}
