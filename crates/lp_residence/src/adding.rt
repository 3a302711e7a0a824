//! Versions and objects come to the state.
ghost use Rattle.std.specs.Prelude.{◌≡◌, ◌∷◌, ◌++◌, [], ◌+◌, ◌<◌, ◌≤◌, All, IfErr, IfOk, IfSome, IsSome, List, OnErr, OnOk, Option, length};
ghost use Rattle.std.specs.Bool.{OnTrue};
ghost use Rattle.std.specs.Str.{chars};
ghost use Rattle.lp_objects.specs.Objects.{Named};
ghost use Rattle.lp_objects.specs.Stands.{IsNotAdded, Stands as Name};
ghost use Rattle.lp_values.specs.declared.id.ProgId.{ProgId as P};
ghost use Rattle.lp_code.specs.declared.program.RawProgram.{RawProgram as Raw};
ghost use Rattle.lp_world.specs.declared.objects.Object.{Object as O};
ghost use Rattle.lp_world.specs.declared.versions.ProgramState.TheVariants as programs_of;
ghost use Rattle.lp_world.specs.declared.versions.Version.{Version as V};
ghost use Rattle.lp_world.specs.Closed.{IsClosed, IsProgramClosed, IsVersionClosed, parts_in, parts_together, variables_in, variables_together};
ghost use Rattle.lp_world.specs.Rows.{row_at};
ghost use Rattle.lp_residence.specs.Adding.{AreRight, IsClosedAt, IsNamed, IsNewVersion, IsRefused, with_names, with_object};

use crate::fitting::fits;
use crate::unpacking::are_fit;
use lp_cells::content::Items;
use lp_objects::fault::ObjectFault;
use lp_values::id::{ObjId, ProgId};
use lp_values::text::Text;
use lp_values::value::Value;
use lp_world::live::Live;
use lp_world::shared::SharedProgram;
use lp_world::versions::{ProgramState, Version, VersionTable};
use std::alloc::{AllocError, Global};

/// Whether a version has a lower number.
fn is_lower(p: ProgId, number: u64) -> bool
    ensures { OnTrue result (p.0 < number) }
{
    p.0 < number
}

/// Whether each parent has a lower number.
fn are_parents_lower(parents: &[ProgId], number: u64) -> bool
    ensures { OnTrue result (All (λ (p : P). p.0 < number) parents.now) }
{
    for p in parents {
        if !is_lower(*p, number) {
            return false;
        }
    }
    true
}

/// Whether each parent is there.
fn are_parents_there(versions: &VersionTable, parents: &[ProgId]) -> bool
    ensures { OnTrue result (All (λ (p : P). IsSome (row_at versions.now p.0)) parents.now) }
{
    for p in parents {
        if versions.get(*p).is_none() {
            return false;
        }
    }
    true
}

/// How many parts a version has.
fn part_count(versions: &VersionTable, p: ProgId) -> u32
    ensures { result ≡ parts_in (row_at versions.now p.0) }
{
    match versions.get(p) {
        Some(v) => v.outline.parts,
        None => 0,
    }
}

/// How many variables a version has.
fn variable_count(versions: &VersionTable, p: ProgId) -> u32
    ensures { result ≡ variables_in (row_at versions.now p.0) }
{
    match versions.get(p) {
        Some(v) => v.outline.variables,
        None => 0,
    }
}

/// How many parts these have together, below 2^64.
fn count_parts(versions: &VersionTable, parents: &[ProgId]) -> Option<u64>
    ensures { IfSome result (λ n. n ≡ parts_together versions.now parents.now) }
{
    let mut total: u64 = 0;
    for p in parents {
        total = total.checked_add(part_count(versions, *p) as u64)?;
    }
    Some(total)
}

/// How many variables these have together, below 2^64.
fn count_variables(versions: &VersionTable, parents: &[ProgId]) -> Option<u64>
    ensures { IfSome result (λ n. n ≡ variables_together versions.now parents.now) }
{
    let mut total: u64 = 0;
    for p in parents {
        total = total.checked_add(variable_count(versions, *p) as u64)?;
    }
    Some(total)
}

/// Whether a number of parts is one more than those of the parents together.
fn are_parts_right(versions: &VersionTable, parents: &[ProgId], parts: u32) -> bool
    ensures { OnTrue result (parts ≡ parts_together versions.now parents.now + 1) }
{
    match count_parts(versions, parents) {
        Some(n) => n < parts as u64 && n + 1 == parts as u64,
        None => false,
    }
}

/// Whether there are as many variables as the parents have together, or more.
fn are_variables_enough(versions: &VersionTable, parents: &[ProgId], variables: u32) -> bool
    ensures { OnTrue result (variables_together versions.now parents.now ≤ variables) }
{
    match count_variables(versions, parents) {
        Some(n) => n <= variables as u64,
        None => false,
    }
}

/// Whether the parents of a version with a number are there, each with a lower one.
fn are_parents_right(versions: &VersionTable, number: u64, version: &Version) -> bool
    ensures lower { OnTrue result (All (λ (p : P). p.0 < number) version.now.outline.parents) }
    ensures there { OnTrue result (All (λ (p : P). IsSome (row_at versions.now p.0)) version.now.outline.parents) }
    ensures parts { OnTrue result (version.now.outline.parts ≡ parts_together versions.now version.now.outline.parents + 1) }
    ensures variables { OnTrue result (variables_together versions.now version.now.outline.parents ≤ version.now.outline.variables) }
{
    let parents = version.outline.parents.as_slice();
    if !are_parents_lower(parents, number) {
        return false;
    }
    if !are_parents_there(versions, parents) {
        return false;
    }
    if !are_parts_right(versions, parents, version.outline.parts) {
        return false;
    }
    are_variables_enough(versions, parents, version.outline.variables)
}

/// Whether what the program of a version names is there, where it is in memory.
fn is_program_right(
    alloc: Global,
    versions: &VersionTable,
    version: &Version,
) -> Result<bool, AllocError>
    ensures { IfOk result (λ b. OnTrue b ((p : Raw) → version.now.state ≡ programs_of.Resident p → IsProgramClosed versions.now version.now p)) }
{
    match &version.state {
        ProgramState::Resident(program) => fits(alloc, versions, version, program.raw()),
        ProgramState::Swapped(_) => Ok(false),
    }
}

/// Whether what a version names is there.
fn is_right(
    alloc: Global,
    versions: &VersionTable,
    number: u64,
    version: &Version,
) -> Result<bool, AllocError>
    ensures { IfOk result (λ b. OnTrue b (IsVersionClosed versions.now number version.now)) }
{
    if !are_parents_right(versions, number, version) {
        return Ok(false);
    }
    is_program_right(alloc, versions, version)
}

/// Whether what the version with a number names is there.
fn is_right_at(alloc: Global, versions: &VersionTable, p: ProgId) -> Result<bool, AllocError>
    ensures { IfOk result (λ b. OnTrue b (IsClosedAt versions.now p.0)) }
{
    match versions.get(p) {
        Some(version) => is_right(alloc, versions, p.0, version),
        None => Ok(false),
    }
}

/// The version with a number stays where what it names is there, else the one that was added last is gone again.
fn keep_right(versions: &mut VersionTable, alloc: Global, p: ProgId) -> Result<ProgId, AllocError>
    ensures number { IfOk result (λ n. n ≡ p) }
    ensures same { OnOk result (versions.new ≡ versions.old) }
    ensures right { OnOk result (IsClosedAt versions.new p.0) }
    ensures err { OnErr result ((rows : List (Option V)) (row : Option V) → versions.old ≡ rows ++ row ∷ [] → versions.new ≡ rows) }
{
    match is_right_at(alloc, versions, p) {
        Ok(true) => Ok(p),
        _ => {
            versions.take_back();
            Err(AllocError)
        }
    }
}

/// A version of a program in memory that was compiled from the file with a path comes to the state, with the next
/// number and made at its clock. After want of memory nothing has changed. It also comes where the program names
/// what is not there: a parent without a version or with a higher number, a function of a part or a slot of a
/// parent that has none such, other parts than those of its parents and itself, or fewer variables than they have.
pub fn add_version(
    live: &mut Live,
    path: Text,
    program: SharedProgram,
) -> Result<ProgId, AllocError>
    requires closed { IsClosed live.old }
    ensures number { IfOk result (λ p. p.0 ≡ length live.old.versions) }
    ensures ok { OnOk result (IsNewVersion live.old live.new path program) }
    ensures err { OnErr result (live.new ≡ live.old) }
    ensures closed { IsClosed live.new }
{
    let number = live.versions.add(live.alloc, live.clock, path, program)?;
    keep_right(&mut live.versions, live.alloc, number)
}

/// Whether an object of a version can have these variables: the version is there, they are as many as it says,
/// and each array and mapping is there.
fn are_variables_right(live: &Live, program: ProgId, values: &[Value]) -> bool
    ensures { OnTrue result (AreRight live.now program values.now) }
{
    match live.versions.get(program) {
        Some(v) => are_fit(&live.cells, values, v.outline.variables),
        None => false,
    }
}

/// The name of an object that was added comes to the table of names, or the object is gone again.
fn name_new(live: &mut Live, name: &str, program: ProgId, id: ObjId) -> Result<ObjId, ObjectFault>
    ensures serial { IfOk result (λ n. n ≡ id) }
    ensures ok { OnOk result (live.new ≡ with_names live.old live.new.names) }
    ensures err { OnErr result ((rows : List (Option O)) (row : Option O) → live.old.objects ≡ rows ++ row ∷ [] → live.new ≡ record (with_names live.old live.new.names) { objects = rows }) }
    ensures named { OnOk result ((objects : List Named) → Name live.old.names objects → IsNamed live.new.names objects (chars name.now) program) }
    ensures refused { IfErr result (λ e. (objects : List Named) → Name live.old.names objects → IsNotAdded live.new.names objects (chars name.now) e) }
{
    match live.names.add(name, program) {
        Ok(_) => Ok(id),
        Err(e) => {
            live.objects.take_back();
            Err(e)
        }
    }
}

/// A live object of a version comes to the state, in memory with these variables, with the next serial and made
/// at the state's clock. It is not living.
///
/// - `NameTaken`, `TooMany`: exactly where the table of names refuses it so.
/// - `NoMemory`: memory ran out. It also comes where the version is not there, has another number of variables,
///   or a variable names an array or a mapping that is not there.
///
/// After a refusal all is as it was, but for memory that the table of names took.
pub fn add_object(
    live: &mut Live,
    name: &str,
    program: ProgId,
    variables: Items,
) -> Result<ObjId, ObjectFault>
    requires closed { IsClosed live.old }
    ensures serial { IfOk result (λ id. id.0 ≡ length live.old.objects) }
    ensures ok { OnOk result (live.new ≡ with_object live.old program variables live.new.names) }
    ensures err { OnErr result (live.new ≡ with_names live.old live.new.names) }
    ensures named { OnOk result ((objects : List Named) → Name live.old.names objects → IsNamed live.new.names objects (chars name.now) program) }
    ensures refused { IfErr result (λ e. (objects : List Named) → Name live.old.names objects → IsRefused live.new.names objects (chars name.now) e) }
    ensures closed { IsClosed live.new }
{
    if !are_variables_right(live, program, variables.as_slice()) {
        return Err(ObjectFault::NoMemory);
    }
    match live.objects.add(program, live.clock, variables) {
        Ok(id) => name_new(live, name, program, id),
        Err(_) => Err(ObjectFault::NoMemory),
    }
}
