//! Parents for which a load ends: where their `inherit` stands, and the fault.
ghost use Rattle.std.specs.Prelude.{◌≡◌, IfErr, IfOk, List, Option, Some, nat_lt, suc, ℕ};
ghost use Rattle.std.specs.Option.{option_map};
ghost use Rattle.lp_asking.specs.declared.asker.Loading.{Loading as Loads};
ghost use Rattle.lp_efuns.specs.declared.caller.Turn.{Turn};
ghost use Rattle.lp_front.specs.Names.{parents_in};
ghost use Rattle.lp_front.specs.Reading.{items_of};
ghost use Rattle.lp_front_end.specs.Parents.{file_bytes};
ghost use Rattle.lp_loading.specs.Telling.{IsDeviceless};
ghost use Rattle.lp_loading.specs.Going.{Goes};
ghost use Rattle.lp_loading.specs.Lines.{IsFaultOf, IsLineOf, IsTooFar, first_of};
ghost use Rattle.lp_loading.specs.Reads.{HasRead};
ghost use Rattle.lp_loading.specs.Steps.{AsksOrFails};
ghost use Rattle.lp_loading.specs.declared.compiling.Compiled.TheVariants as compiled;
ghost use Rattle.lp_loading.specs.declared.job.Going.TheVariants as stages;
ghost use Rattle.lp_loading.specs.declared.job.LoadJob.{LoadJob as Job};
ghost use Rattle.lp_meaning.specs.Limits.{max_nested};
ghost use Rattle.lp_swapfile.specs.Device.{Bytes};
ghost use Rattle.lp_world.specs.Closed.{IsClosed};
ghost use Rattle.lp_world.specs.declared.live.Live.{Live as L};

use crate::faults::end_faulty;
use crate::job::{LoadFault, LoadJob, Step};
use crate::laws::law_missing_goes_on;
use crate::reading::{ask_missing, file_of, parent_name};
use crate::simuls::is_under_way;
use lp_asking::asker::Loading;
use lp_files::store::Store;
use lp_front::parents::{Parent, parents_of};
use lp_front::read::{Declared, read_file};
use lp_front_end::{law_files_are_of_names, law_names_have_files, law_stores_are_read};
use lp_tree::fault::{Fault, FaultKind};
use lp_tree::path::FilePath;
use lp_world::live::Live;
use std::alloc::{AllocError, Global};

/// The line of the first of these parents that has a file.
fn line_in(parents: &[Parent], file: &str) -> Option<u32>
    ensures { result ≡ option_map (λ p. p.line) (first_of file.now parents.now) }
{
    match parents {
        [p, rest @ ..] => {
            if p.file.as_str() == file {
                Some(p.line)
            } else {
                line_in(rest, file)
            }
        }
        [] => None,
    }
}

/// The line of the first `inherit` of a parent's file, in what was read of a file.
fn line_of(alloc: Global, declared: &Declared, file: &str) -> Result<u32, LoadFault>
    ensures line { IfOk result (λ line. Some line ≡ option_map (λ p. p.line) (first_of file.now (parents_in (items_of declared.now)))) }
    ensures deviceless { IfErr result IsDeviceless }
{
    let parents = parents_of(alloc, declared.unit.items.as_slice())?;
    match line_in(parents.as_slice(), file) {
        Some(line) => Ok(line),
        None => Err(LoadFault::NoMemory),
    }
}

/// The line of the first `inherit` of a parent's file, in the file at a path, which is read for it.
///
/// # Errors
/// `NoMemory`, also where the file cannot be read or names no such parent.
fn parent_line(alloc: Global, files: &Store, path: &str, file: &str) -> Result<u32, LoadFault>
    ensures line { IfOk result (IsLineOf files.now path.now file.now) }
    ensures deviceless { IfErr result IsDeviceless }
{
    match read_file(alloc, files, path) {
        Ok(d) => line_of(alloc, &d, file),
        Err(_) => Err(LoadFault::NoMemory),
    }
}

/// One fault of the file of a load.
fn one_fault(
    alloc: Global,
    name: &[char],
    line: u32,
    kind: FaultKind,
) -> Result<Vec<Fault>, AllocError>
    ensures { IfOk result (λ fs. IsFaultOf name.now line kind fs.items) }
{
    let file = FilePath::from_string(file_of(alloc, name)?);
    let mut faults = Vec::new(alloc);
    faults.push(Fault { file, line, kind })?;
    Ok(faults)
}

/// The fault of a parent that cannot be loaded ends the load: it is logged, with the line of its first `inherit`.
fn end_at(
    live: &mut Live,
    name: &[char],
    line: u32,
    kind: FaultKind,
    file: &str,
) -> Result<Step, AllocError>
    requires closed { IsClosed live.old }
    requires line { IsLineOf live.old.store (file_bytes name.now) file.now line }
    ensures goes { IfOk result (λ r. (job : Job) (loads : List Loads) (told0 : Option Bytes) (live0 : L) (told1 : Option Bytes) (budget : ℕ) (turn : Turn) → job.name ≡ name.now → HasRead (compiled.Missing file.now) job loads told0 live0 told1 live.old
        → IsTooFar kind file.now job loads → Goes r job stages.Read loads told0 live0 budget told1 live.new budget turn) }
    ensures asks { IfOk result AsksOrFails }
    ensures closed { IsClosed live.new }
    ensures objects { live.new.objects ≡ live.old.objects }
    ensures cells { live.new.cells ≡ live.old.cells }
{
    law_missing_goes_on();
    law_names_have_files();
    law_files_are_of_names();
    law_stores_are_read();
    let faults = one_fault(live.alloc, name, line, kind)?;
    end_faulty(live, faults)
}

/// A parent that cannot be loaded, since its load is under way or loads are nested too deep, ends the load with a fault of this
/// kind.
pub(crate) fn end_missing(
    live: &mut Live,
    name: &[char],
    kind: FaultKind,
    file: &str,
) -> Result<Step, LoadFault>
    requires closed { IsClosed live.old }
    ensures goes { IfOk result (λ r. (job : Job) (loads : List Loads) (told0 : Option Bytes) (live0 : L) (told1 : Option Bytes) (budget : ℕ) (turn : Turn) → job.name ≡ name.now → HasRead (compiled.Missing file.now) job loads told0 live0 told1 live.old
        → IsTooFar kind file.now job loads → Goes r job stages.Read loads told0 live0 budget told1 live.new budget turn) }
    ensures asks { IfOk result AsksOrFails }
    ensures deviceless { IfErr result IsDeviceless }
    ensures closed { IsClosed live.new }
    ensures objects { live.new.objects ≡ live.old.objects }
    ensures cells { live.new.cells ≡ live.old.cells }
{
    let path = file_of(live.alloc, name)?;
    let line = parent_line(live.alloc, &live.store, path.as_str(), file)?;
    Ok(end_at(live, name, line, kind, file)?)
}

/// A parent of the file that was read is missing: it is asked for, or ends the load with a fault where its load is under way, or
/// where loads are nested too deep.
///
/// # Errors
/// `NoMemory`, also where the file cannot be read again.
pub(crate) fn go_missing(
    job: &LoadJob,
    live: &mut Live,
    loads: &[Loading],
    file: &str,
) -> Result<Step, LoadFault>
    requires closed { IsClosed live.old }
    ensures goes { IfOk result (λ r. (told0 : Option Bytes) (live0 : L) (told1 : Option Bytes) (budget : ℕ) (turn : Turn) → HasRead (compiled.Missing file.now) job.now loads.now told0 live0 told1 live.old
        → Goes r job.now stages.Read loads.now told0 live0 budget told1 live.new budget turn) }
    ensures asks { IfOk result AsksOrFails }
    ensures deviceless { IfErr result IsDeviceless }
    ensures closed { IsClosed live.new }
    ensures objects { live.new.objects ≡ live.old.objects }
    ensures cells { live.new.cells ≡ live.old.cells }
{
    let own = job.name.as_slice();
    let name = parent_name(live.alloc, file)?;
    if is_under_way(name.as_slice(), loads) {
        return end_missing(live, own, FaultKind::Cycle, file);
    }
    if is_too_deep(job.nested) {
        return end_missing(live, own, FaultKind::InheritDepth, file);
    }
    Ok(ask_missing(name)?)
}

/// Whether one more load for an `inherit` would be nested too deep.
fn is_too_deep(nested: u32) -> bool
    ensures { result ≡ nat_lt max_nested (suc nested) }
{
    nested >= 64
}
