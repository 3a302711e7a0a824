//! Where a function was running.
ghost use Rattle.std.specs.Prelude.{◌≡◌, ◌++◌, List, OnOk, Some, codes};
ghost use Rattle.std.specs.Option.{option_copied};
ghost use Rattle.std.specs.Str.{chars};
ghost use Rattle.lp_code.specs.declared.program.RawProgram.{RawProgram as Raw};
ghost use Rattle.lp_swapfile.specs.Device.{Bytes};
ghost use Rattle.lp_language.specs.Course.{Place as CoursePlace};
ghost use Rattle.lp_language.specs.Resolve.{without_c};
ghost use Rattle.lp_language.specs.World.{World};
ghost use Rattle.lp_asking.specs.Endings.{IsPlace};
ghost use Rattle.lp_meaning.specs.Askers.{place_text};
ghost use Rattle.lp_targets.specs.Brought.{program_at};
ghost use Rattle.lp_world.specs.Stands.{Stands};
ghost use Rattle.lp_records.specs.Records.{PutsPlace, function_in};

use crate::texts::{put_name, put_path, put_words};
use lp_asking::ending::Place;
use lp_code::name::Name;
use lp_values::id::ProgId;
use lp_world::live::Live;
use lp_world::shared::SharedProgram;
use lp_world::versions::{ProgramState, VersionTable};
use std::alloc::{AllocError, Global};

/// The program of a version that is in memory.
fn program_of(versions: &VersionTable, p: ProgId) -> Option<&SharedProgram>
    ensures { option_copied result ≡ program_at versions.now p }
{
    match versions.get(p) {
        Some(v) => match &v.state {
            ProgramState::Resident(program) => Some(program),
            ProgramState::Swapped(_) => None,
        },
        None => None,
    }
}

/// The name of a function of a program.
fn function_of(program: &SharedProgram, fun: u16) -> Option<&Name>
    ensures { option_copied result ≡ function_in (Some program.now) fun }
{
    match program.raw().funs.as_slice().get(fun as usize) {
        Some(row) => Some(&row.name),
        None => None,
    }
}

/// The name of a function of a version whose program is in memory.
fn function_named(versions: &VersionTable, p: ProgId, fun: u16) -> Option<&Name>
    ensures { option_copied result ≡ function_in (program_at versions.now p) fun }
{
    match program_of(versions, p) {
        Some(program) => function_of(program, fun),
        None => None,
    }
}

/// The parts of a place come behind others.
fn put_parts(
    alloc: Global,
    text: &mut Vec<char>,
    function: &Name,
    path: &[char],
    object: &str,
) -> Result<(), AllocError>
    ensures { OnOk result (text.new.items ≡ text.old.items ++ place_text (Some (record { function = function.now; program = without_c path.now; object = chars object.now }))) }
{
    put_words(alloc, text, " [")?;
    put_name(text, function.as_str().as_bytes())?;
    put_words(alloc, text, " of ")?;
    put_path(text, path)?;
    put_words(alloc, text, ", object ")?;
    put_words(alloc, text, object)?;
    put_words(alloc, text, "]")
}

/// A place comes behind others, with the name of its function.
fn put_function(
    alloc: Global,
    text: &mut Vec<char>,
    live: &Live,
    at: Place,
    function: &Name,
) -> Result<(), AllocError>
    requires function { function_in (program_at live.now.versions at.program) at.fun ≡ Some function.now }
    ensures { OnOk result (PutsPlace live.now at text.old.items text.new.items) }
{
    match live.versions.path(at.program) {
        Some(path) => match live.names.name(at.this) {
            Some(object) => put_parts(alloc, text, function, path.as_slice(), object),
            None => Err(AllocError),
        },
        None => Err(AllocError),
    }
}

/// A place whose program is in memory comes behind others. The answer is want of memory too where the state does not have its
/// function, its path or the name of its object.
pub(crate) fn put_place(
    alloc: Global,
    text: &mut Vec<char>,
    live: &Live,
    at: Place,
) -> Result<(), AllocError>
    ensures { OnOk result (PutsPlace live.now at text.old.items text.new.items) }
{
    match function_named(&live.versions, at.program, at.fun) {
        Some(function) => put_function(alloc, text, live, at, function),
        None => Err(AllocError),
    }
}
