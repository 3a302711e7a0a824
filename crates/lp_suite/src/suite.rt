//! The tests of the files of a mudlib.
ghost use Rattle.std.specs.Prelude.{◌≡◌, ◌<◌, ◌∷◌, ◌++◌, [], ℕ, List, IfOk, OnOk, length};
ghost use Rattle.std.specs.Option.{option_copied};
ghost use Rattle.lp_check.specs.Report.{load_faults};
ghost use Rattle.lp_check.specs.Sources.{AreFiles};
ghost use Rattle.lp_front.specs.Reading.{items_of};
ghost use Rattle.lp_loads.specs.Known.{IsKnown};
ghost use Rattle.lp_loads.specs.Loads.{Loaded, load_of};
ghost use Rattle.lp_suite.specs.Suite.{AddsEntries, AddsFile, IsSuite, tests_in};

use crate::names::add_items;
use lp_check::{Sources, load_all, load_simul};
use lp_code::name::Name;
use lp_files::store::Store;
use lp_front::read::{Declared, ReadFault, read_file};
use lp_loads::known::Known;
use lp_tree::path::FilePath;
use std::alloc::{AllocError, Global};

/// What is told of a mudlib, one line each: a faulty file, or a test.
#[derive(Debug, Drop)]
pub enum Entry {
    /// The file with this path is faulty.
    Faulty(FilePath),
    /// In the file with this path the function with this name is a test.
    Test(FilePath, Name),
}

// How many faults the load of a file found.
fn faults_of(known: &Known, path: &str) -> usize
    ensures { (ls : Loaded) → IsKnown ls known.now → result ≡ length (load_faults (load_of ls path.now)) }
{
    match known.files.get(path) {
        Some(ended) => ended.faults.len(),
        None => 0,
    }
}

// Puts a faulty file behind others.
fn add_faulty(alloc: Global, entries: &mut Vec<Entry>, path: &str) -> Result<(), AllocError>
    ensures { OnOk result (entries.new.items ≡ entries.old.items ++ Entry.Faulty path.now ∷ []) }
{
    entries.push(Entry::Faulty(FilePath::from_str(alloc, path)?))?;
    Ok(())
}

// Puts the tests of a file that declares this behind others.
fn add_declared(
    alloc: Global,
    entries: &mut Vec<Entry>,
    path: &str,
    declared: &Declared,
) -> Result<(), AllocError>
    ensures { OnOk result (entries.new.items ≡ entries.old.items ++ tests_in path.now (items_of declared.now)) }
{
    add_items(alloc, entries, path, declared.unit.items.as_slice())
}

// Puts what is told of a file whose load found no fault behind others.
fn add_read(
    alloc: Global,
    entries: &mut Vec<Entry>,
    files: &Store,
    path: &str,
) -> Result<(), AllocError>
    ensures { (ls : Loaded) → length (load_faults (load_of ls path.now)) ≡ 0 → OnOk result (AddsFile files.now ls path.now entries.old.items entries.new.items) }
{
    match read_file(alloc, files, path) {
        Ok(declared) => add_declared(alloc, entries, path, &declared),
        Err(ReadFault::At(_)) => add_faulty(alloc, entries, path),
        Err(ReadFault::NoMemory) => Err(AllocError),
    }
}

// Puts what is told of a file behind others.
fn add_file(
    alloc: Global,
    entries: &mut Vec<Entry>,
    files: &Store,
    known: &Known,
    path: &str,
) -> Result<(), AllocError>
    ensures { (ls : Loaded) → IsKnown ls known.now → OnOk result (AddsFile files.now ls path.now entries.old.items entries.new.items) }
{
    if faults_of(known, path) > 0 {
        return add_faulty(alloc, entries, path);
    }
    add_read(alloc, entries, files, path)
}

// Puts what is told of files behind others, in their order.
fn add_files(
    alloc: Global,
    entries: &mut Vec<Entry>,
    files: &Store,
    known: &Known,
    paths: &[FilePath],
) -> Result<(), AllocError>
    requires { entries.old.items ≡ [] }
    ensures { (ls : Loaded) → IsKnown ls known.now → OnOk result (AddsEntries files.now ls paths.now entries.new.items) }
{
    for path in paths {
        add_file(alloc, entries, files, known, path.as_str())?;
    }
    Ok(())
}

/// The tests of a mudlib, by the paths of its files and in their order in a file, and in the place of its tests each file that a
/// check finds faulty. A test is a function with a body that a file which ends in `.c` has itself, with a name that begins with
/// `test_`, without parameters and not private. Where `simul` is the path of a file, the others see its functions as simul efuns.
/// Takes the time of two checks.
pub fn entries_of(
    alloc: Global,
    sources: &Sources,
    simul: Option<&str>,
) -> Result<Vec<Entry>, AllocError>
    ensures { (files : List (List ℕ × List ℕ)) → AreFiles files sources.now → IfOk result (λ v. IsSuite (option_copied simul.entry) files v.items) }
{
    let mut known = Known::new(alloc);
    let names = load_simul(alloc, sources.store(), sources.paths(), simul, &mut known)?;
    load_all(alloc, sources.store(), &names, sources.paths(), &mut known)?;
    let mut entries = Vec::new(alloc);
    add_files(
        alloc,
        &mut entries,
        sources.store(),
        &known,
        sources.paths(),
    )?;
    Ok(entries)
}
