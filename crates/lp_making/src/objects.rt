//! An object is made.
ghost use Rattle.std.specs.Prelude.{◌≡◌, ◌∷◌, ◌++◌, [], IfErr, IfOk, IsSome, List, OnErr, OnOk, Option, Some, length};
ghost use Rattle.std.specs.Str.{chars};
ghost use Rattle.lp_objects.specs.Objects.{Named};
ghost use Rattle.lp_objects.specs.Stands.{IsAdded, IsNotAdded, Stands as Name, next_clone_in};
ghost use Rattle.lp_types_expr.specs.Signatures.{has_function as has_row};
ghost use Rattle.lp_values.specs.declared.id.ObjId.{ObjId as Id};
ghost use Rattle.lp_world.specs.declared.objects.Object.{Object as O};
ghost use Rattle.lp_world.specs.Additions.{new_object};
ghost use Rattle.lp_world.specs.Closed.{IsClosed, variables_in};
ghost use Rattle.lp_world.specs.Rows.{row_at};
ghost use Rattle.lp_making.specs.Objects.{IsRefused, IsWanted, IsWantedOf, StandsStill, StandsWithObject, has_function as has, program_at, with_object, zeros as zero_values};

use crate::watches::{is_unwatched, unwatch, watch_new};
use lp_cells::content::Items;
use lp_code::program::RawProgram;
use lp_code::tables::Slot;
use lp_objects::fault::ObjectFault;
use lp_objects::objects::Objects;
use lp_values::id::{ObjId, ProgId};
use lp_values::value::Value;
use lp_world::live::Live;
use lp_world::objects::ObjectTable;
use lp_world::versions::{ProgramState, VersionTable};
use std::alloc::{AllocError, Global};

/// What a new object is watched for: whether its program has `reset`, and `clean_up`.
#[derive(Clone, Copy, Debug, PartialEq, Eq)]
pub(crate) struct Wanted {
    pub(crate) reset: bool,
    pub(crate) clean_up: bool,
}

/// How many variables an object of a version has.
fn variable_count(versions: &VersionTable, p: ProgId) -> u32
    ensures { result ≡ variables_in (row_at versions.now p.0) }
{
    match versions.get(p) {
        Some(v) => v.outline.variables,
        None => 0,
    }
}

/// So many variables that are 0.
#[tactic(auto, using(crate::proofs::NewObject::one_zero))]
fn zeros(alloc: Global, count: u32) -> Result<Items, AllocError>
    ensures { IfOk result (λ vs. vs ≡ zero_values count) }
{
    let mut values = Vec::with_capacity(alloc, count as usize)?;
    for _i in 0..count {
        values.push(Value::Int(0))?;
    }
    Ok(Items::from_vec(values))
}

/// Whether a row is that of a function.
fn is_function(slot: &Slot) -> bool
    ensures { result ≡ has_row slot.now }
{
    slot.fun != 65535
}

/// Whether a program has a function of a name. Takes no longer with more functions.
fn has_function(raw: &RawProgram, name: &str) -> bool
    ensures { result ≡ has raw.now name.now }
{
    match raw.tables.slots.place(name) {
        Some(place) => is_function(&raw.tables.slots.as_slice()[place]),
        None => false,
    }
}

/// What an object of a program is watched for.
fn wanted_by(raw: &RawProgram) -> Wanted
    ensures { IsWanted raw.now result.reset result.clean_up }
{
    Wanted {
        reset: has_function(raw, "reset"),
        clean_up: has_function(raw, "clean_up"),
    }
}

/// What an object of a version in memory is watched for.
fn wanted_at(versions: &VersionTable, p: ProgId) -> Wanted
    requires { IsSome (program_at versions.now p) }
    ensures { IsWantedOf (program_at versions.now p) result.reset result.clean_up }
{
    match versions.get(p) {
        Some(v) => match &v.state {
            ProgramState::Resident(program) => wanted_by(program.raw()),
            ProgramState::Swapped(_) => unreachable!(),
        },
        None => unreachable!(),
    }
}

/// An object that was added last has its name, or is gone again.
fn name_new(
    objects: &mut ObjectTable,
    names: &mut Objects,
    name: &str,
    program: ProgId,
    id: ObjId,
) -> Result<ObjId, ObjectFault>
    ensures serial { IfOk result (λ n. n ≡ id) }
    ensures ok { OnOk result (objects.new ≡ objects.old) }
    ensures err { OnErr result ((rows : List (Option O)) (row : Option O) → objects.old ≡ rows ++ row ∷ [] → objects.new ≡ rows) }
    ensures named { OnOk result ((all : List Named) → Name names.old all → (n : Id) × IsAdded names.new all (chars name.now) program n) }
    ensures refused { IfErr result (λ e. (all : List Named) → Name names.old all → IsNotAdded names.new all (chars name.now) e) }
    ensures clones { next_clone_in names.new ≡ next_clone_in names.old }
{
    match names.add(name, program) {
        Ok(_) => Ok(id),
        Err(e) => {
            objects.take_back();
            Err(e)
        }
    }
}

/// A live object in memory comes behind the others, and has its name. After a refusal all is as it was, but for memory that
/// the table of names took.
fn add_named(
    objects: &mut ObjectTable,
    names: &mut Objects,
    name: &str,
    program: ProgId,
    clock: u64,
    variables: Items,
) -> Result<ObjId, ObjectFault>
    ensures serial { IfOk result (λ id. id.0 ≡ length objects.old) }
    ensures ok { OnOk result (objects.new ≡ objects.old ++ Some (new_object program clock variables) ∷ []) }
    ensures err { OnErr result (objects.new ≡ objects.old) }
    ensures named { OnOk result ((all : List Named) → Name names.old all → (n : Id) × IsAdded names.new all (chars name.now) program n) }
    ensures refused { IfErr result (λ e. (all : List Named) → Name names.old all → IsRefused names.new all (chars name.now) e) }
    ensures clones { next_clone_in names.new ≡ next_clone_in names.old }
{
    match objects.add(program, clock, variables) {
        Ok(id) => name_new(objects, names, name, program, id),
        Err(_) => Err(ObjectFault::NoMemory),
    }
}

/// A live object of a version whose program is in memory comes to the state, with the next serial and made at its clock. Its
/// variables are 0, as many as the version has; it is not living, is nowhere, and is watched for `reset` and `clean_up` where
/// its program has these functions. Takes time in proportion to its variables, and the logarithm of what is there.
///
/// - `NameTaken`: a live object has the name.
/// - `TooMany`: no live object has it, and 100000 are live.
/// - `NoMemory`: memory ran out. It also comes where something of an object with the next serial is to come already.
///
/// After a refusal the state stands for the same worlds.
pub fn new_object(live: &mut Live, name: &str, program: ProgId) -> Result<ObjId, ObjectFault>
    requires closed { IsClosed live.old }
    requires inside { IsSome (program_at live.old.versions program) }
    ensures serial { IfOk result (λ id. id.0 ≡ length live.old.objects) }
    ensures after { OnOk result (live.new ≡ with_object live.old program (zero_values (variables_in (row_at live.old.versions program.0))) live.new.names live.new.timers) }
    ensures stands { OnOk result (StandsWithObject live.old live.new (chars name.now) program) }
    ensures refused { IfErr result (λ e. StandsStill live.old live.new (chars name.now) e) }
    ensures same { OnErr result (live.new ≡ record live.old { names = live.new.names }) }
    ensures closed { IsClosed live.new }
{
    let ob = ObjId(live.objects.len() as u64);
    if !is_unwatched(&live.timers, ob) {
        return Err(ObjectFault::NoMemory);
    }
    let values = zeros(live.alloc, variable_count(&live.versions, program))?;
    let wanted = wanted_at(&live.versions, program);
    watch_new(
        &mut live.timers,
        wanted.reset,
        wanted.clean_up,
        ob,
        live.clock,
    )?;
    match add_named(
        &mut live.objects,
        &mut live.names,
        name,
        program,
        live.clock,
        values,
    ) {
        Ok(id) => Ok(id),
        Err(e) => {
            unwatch(&mut live.timers, ob);
            Err(e)
        }
    }
}
