//! The names that a file sees of the simul-efun object: the functions that every object may call there.
ghost use Rattle.std.specs.Prelude.{◌≡◌, IfOk, List, None, OnOk, Option, Some, ℕ};
ghost use Rattle.std.specs.Str.{chars, encode_utf8_all};
ghost use Rattle.std.specs.String.{string_bytes};
ghost use Rattle.lp_code.specs.declared.program.RawProgram.{RawProgram as Raw};
ghost use Rattle.lp_language.specs.Resolve.{callable_names, heritage};
ghost use Rattle.lp_language.specs.World.{World, object_named as named};
ghost use Rattle.lp_making.specs.Objects.{program_at};
ghost use Rattle.lp_meaning.specs.FileLoads.{is_under_way as under_way};
ghost use Rattle.lp_swapfile.specs.Device.{Bytes};
ghost use Rattle.lp_targets.specs.Brought.{Brings};
ghost use Rattle.lp_targets.specs.Callees.{IsWorldOf};
ghost use Rattle.lp_world.specs.Closed.{IsClosed};
ghost use Rattle.lp_world.specs.Stands.{Stands};
ghost use Rattle.lp_beginning.specs.Beginning.{StandsStill};
ghost use Rattle.lp_loading.specs.Telling.{brought_by};
ghost use Rattle.lp_loading.specs.Loads.{loads_of};
ghost use Rattle.lp_loading.specs.Present.{KeepsWorlds};
ghost use Rattle.lp_loading.specs.Simuls.{IsProgramNow, PutsTree, SeesSimuls, names_seen, seen_simul};

use crate::compiling::bring;
use crate::job::LoadFault;
use crate::own::{law_names, law_open, put_names};
use crate::present::version_of_object;
use lp_asking::asker::Loading;
use lp_asking::truth::Truthful;
use lp_code::name::Name;
use lp_code::names::Names2;
use lp_values::id::{ObjId, ProgId};
use lp_world::live::Live;
use lp_world::shared::SharedProgram;
use lp_world::versions::{ProgramState, VersionTable};
use std::alloc::{AllocError, Global};

/// Whether a load of this name is under way.
pub(crate) fn is_under_way(name: &[char], loads: &[Loading]) -> bool
    ensures { result ≡ under_way name.now (loads_of loads.now) }
{
    match loads {
        [l, rest @ ..] => {
            if l.name.as_slice() == name {
                return true;
            }
            is_under_way(name, rest)
        }
        [] => false,
    }
}

/// Characters as a text of the program.
pub(crate) fn text_of(alloc: Global, all: &[char]) -> Result<String, AllocError>
    ensures chars { IfOk result (λ s. all.now ≡ chars (string_bytes s)) }
    ensures bytes { IfOk result (λ s. string_bytes s ≡ encode_utf8_all all.now) }
{
    let mut s = String::new(alloc);
    for c in all {
        s.push(*c)?;
    }
    Ok(s)
}

/// The live object with a name.
pub(crate) fn object_named(live: &Live, name: &[char]) -> Result<Option<ObjId>, AllocError>
    ensures { IfOk result (λ o. (told : Option Bytes) (programs : List Raw) (w : World) → Stands told programs live.now w → o ≡ named w name.now) }
{
    let text = text_of(live.alloc, name)?;
    Ok(live.names.find(text.as_str()))
}

/// The simul-efun object, where its own load is not under way.
fn simul_seen(live: &Live, loads: &[Loading]) -> Result<Option<ObjId>, AllocError>
    ensures { IfOk result (λ o. (told : Option Bytes) (programs : List Raw) (w : World) → Stands told programs live.now w → o ≡ seen_simul w (loads_of loads.now)) }
{
    match &live.simul {
        Some(name) => {
            if is_under_way(name.as_slice(), loads) {
                Ok(None)
            } else {
                object_named(live, name.as_slice())
            }
        }
        None => Ok(None),
    }
}

/// The program of a version that is in memory, to keep.
fn share_program(versions: &VersionTable, p: ProgId) -> Result<SharedProgram, AllocError>
    ensures { IfOk result (λ code. program_at versions.now p ≡ Some code) }
{
    match versions.get(p) {
        Some(v) => match &v.state {
            ProgramState::Resident(program) => program.share(),
            ProgramState::Swapped(_) => Err(AllocError),
        },
        None => Err(AllocError),
    }
}

/// Brings the program of a version into memory, where it is out and the device tells the truth, and gives it.
///
/// `NoMemory` also comes where the state has the version no more.
pub(crate) fn bring_shared<W: Truthful>(
    live: &mut Live,
    swap: &mut W,
    p: ProgId,
) -> Result<SharedProgram, LoadFault>
    requires closed { IsClosed live.old }
    ensures closed { IsClosed live.new }
    ensures worlds { OnOk result (KeepsWorlds (W.content swap.old) live.old (W.content swap.new) live.new) }
    ensures store { live.new.store ≡ live.old.store }
    ensures outputs { live.new.outputs ≡ live.old.outputs }
    ensures objects { live.new.objects ≡ live.old.objects }
    ensures cells { live.new.cells ≡ live.old.cells }
    ensures brings { Brings (W.content swap.old) (W.content swap.new) (W.last swap.new) (W.read_faults swap.old) (W.read_faults swap.new) (W.write_faults swap.old) (W.write_faults swap.new)
        (W.is_truthful swap.old) (W.is_truthful swap.new) (W.is_honest swap.old) (W.is_honest swap.new) live.old live.new (brought_by result) }
    ensures stands { W.is_truthful swap.new → StandsStill (W.content swap.old) live.old (W.content swap.new) live.new }
    ensures code { IfOk result (IsProgramNow (W.content swap.old) live.old p) }
{
    match bring(live, swap, p) {
        Ok(()) => Ok(share_program(&live.versions, p)?),
        Err(e) => Err(e),
    }
}

/// Puts the names of the functions in the tree of a version behind others, down to a depth, that every object may call in an
/// object of a program.
fn put_tree<W: Truthful>(
    live: &mut Live,
    swap: &mut W,
    whole: &SharedProgram,
    depth: u64,
    version: ProgId,
    names: &mut Vec<Name>,
) -> Result<(), LoadFault>
    requires closed { IsClosed live.old }
    ensures closed { IsClosed live.new }
    ensures worlds { OnOk result (KeepsWorlds (W.content swap.old) live.old (W.content swap.new) live.new) }
    ensures store { live.new.store ≡ live.old.store }
    ensures outputs { live.new.outputs ≡ live.old.outputs }
    ensures objects { live.new.objects ≡ live.old.objects }
    ensures cells { live.new.cells ≡ live.old.cells }
    ensures brings { Brings (W.content swap.old) (W.content swap.new) (W.last swap.new) (W.read_faults swap.old) (W.read_faults swap.new) (W.write_faults swap.old) (W.write_faults swap.new)
        (W.is_truthful swap.old) (W.is_truthful swap.new) (W.is_honest swap.old) (W.is_honest swap.new) live.old live.new (brought_by result) }
    ensures stands { W.is_truthful swap.new → StandsStill (W.content swap.old) live.old (W.content swap.new) live.new }
    ensures names { OnOk result (PutsTree (W.content swap.old) live.old whole.now depth version names.old.items names.new.items) }
{
    law_names();
    let program = bring_shared(live, swap, version)?;
    put_names(live.alloc, whole.raw(), program.raw(), names)?;
    if depth == 0 {
        return Ok(());
    }
    let parents = program.raw().tables.parents.as_slice();
    for p in parents {
        put_tree(live, swap, whole, depth - 1, *p, names)?;
    }
    Ok(())
}

/// The names of the functions of a version that every object may call in an object of it.
fn names_of_version<W: Truthful>(
    live: &mut Live,
    swap: &mut W,
    v: ProgId,
) -> Result<Names2, LoadFault>
    requires closed { IsClosed live.old }
    ensures closed { IsClosed live.new }
    ensures worlds { OnOk result (KeepsWorlds (W.content swap.old) live.old (W.content swap.new) live.new) }
    ensures store { live.new.store ≡ live.old.store }
    ensures outputs { live.new.outputs ≡ live.old.outputs }
    ensures objects { live.new.objects ≡ live.old.objects }
    ensures cells { live.new.cells ≡ live.old.cells }
    ensures brings { Brings (W.content swap.old) (W.content swap.new) (W.last swap.new) (W.read_faults swap.old) (W.read_faults swap.new) (W.write_faults swap.old) (W.write_faults swap.new)
        (W.is_truthful swap.old) (W.is_truthful swap.new) (W.is_honest swap.old) (W.is_honest swap.new) live.old live.new (brought_by result) }
    ensures stands { W.is_truthful swap.new → StandsStill (W.content swap.old) live.old (W.content swap.new) live.new }
    ensures names { IfOk result (λ names. (programs : List Raw) (w : World) → IsWorldOf (W.content swap.old) programs live.old w → names ≡ callable_names (heritage w v)) }
{
    law_open();
    let whole = bring_shared(live, swap, v)?;
    let mut names = Vec::new(live.alloc);
    put_tree(live, swap, &whole, v.0, v, &mut names)?;
    Ok(Names2::from_vec(live.alloc, names)?)
}

/// No names.
fn no_names(alloc: Global) -> Result<Names2, AllocError>
    ensures { IfOk result (λ names. (w : World) → names ≡ names_seen w None) }
{
    Names2::from_vec(alloc, Vec::new(alloc))
}

/// The names of the functions of an object that every object may call there.
fn names_of_object<W: Truthful>(
    live: &mut Live,
    swap: &mut W,
    ob: ObjId,
) -> Result<Names2, LoadFault>
    requires closed { IsClosed live.old }
    ensures closed { IsClosed live.new }
    ensures worlds { OnOk result (KeepsWorlds (W.content swap.old) live.old (W.content swap.new) live.new) }
    ensures store { live.new.store ≡ live.old.store }
    ensures outputs { live.new.outputs ≡ live.old.outputs }
    ensures objects { live.new.objects ≡ live.old.objects }
    ensures cells { live.new.cells ≡ live.old.cells }
    ensures brings { Brings (W.content swap.old) (W.content swap.new) (W.last swap.new) (W.read_faults swap.old) (W.read_faults swap.new) (W.write_faults swap.old) (W.write_faults swap.new)
        (W.is_truthful swap.old) (W.is_truthful swap.new) (W.is_honest swap.old) (W.is_honest swap.new) live.old live.new (brought_by result) }
    ensures stands { W.is_truthful swap.new → StandsStill (W.content swap.old) live.old (W.content swap.new) live.new }
    ensures names { IfOk result (λ names. (programs : List Raw) (w : World) (n : List ℕ) → IsWorldOf (W.content swap.old) programs live.old w → named w n ≡ Some ob → names ≡ names_seen w (Some ob)) }
{
    match version_of_object(&live.objects, ob) {
        Some(v) => names_of_version(live, swap, v),
        None => Ok(no_names(live.alloc)?),
    }
}

/// The names that a file sees of the simul-efun object, while these loads are under way. Programs of its version and what that
/// inherits come into memory for them. Takes time in proportion to all their functions.
///
/// # Errors
/// `Swap` where the read of a program that was out failed, or gave other bytes. `NoMemory`.
pub(crate) fn simul_names<W: Truthful>(
    live: &mut Live,
    swap: &mut W,
    loads: &[Loading],
) -> Result<Names2, LoadFault>
    requires closed { IsClosed live.old }
    ensures closed { IsClosed live.new }
    ensures worlds { OnOk result (KeepsWorlds (W.content swap.old) live.old (W.content swap.new) live.new) }
    ensures store { live.new.store ≡ live.old.store }
    ensures outputs { live.new.outputs ≡ live.old.outputs }
    ensures objects { live.new.objects ≡ live.old.objects }
    ensures cells { live.new.cells ≡ live.old.cells }
    ensures brings { Brings (W.content swap.old) (W.content swap.new) (W.last swap.new) (W.read_faults swap.old) (W.read_faults swap.new) (W.write_faults swap.old) (W.write_faults swap.new)
        (W.is_truthful swap.old) (W.is_truthful swap.new) (W.is_honest swap.old) (W.is_honest swap.new) live.old live.new (brought_by result) }
    ensures stands { W.is_truthful swap.new → StandsStill (W.content swap.old) live.old (W.content swap.new) live.new }
    ensures sees { IfOk result (SeesSimuls (W.content swap.old) live.old loads.now) }
{
    let seen = simul_seen(live, loads)?;
    match seen {
        Some(ob) => names_of_object(live, swap, ob),
        None => Ok(no_names(live.alloc)?),
    }
}
