//! A clone of an object is made.
ghost use Rattle.std.specs.Prelude.{◌≡◌, IfErr, IfOk, IsSome, Some};
ghost use Rattle.std.specs.Str.{chars};
ghost use Rattle.lp_code.specs.declared.program.RawProgram.{RawProgram as Raw};
ghost use Rattle.lp_meaning.specs.FileLoads.{clone_name, cloning};
ghost use Rattle.lp_step.specs.Steps.{KeepsVariables};
ghost use Rattle.lp_targets.specs.Brought.{program_at};
ghost use Rattle.lp_world.specs.Closed.{IsClosed};
ghost use Rattle.lp_world.specs.Rows.{row_at};
ghost use Rattle.lp_world.specs.declared.objects.Object.{Object};
ghost use Rattle.lp_cloning.specs.Beginning.{IsError, IsReady, StartsAs, made_named, made_numbered, made_of, made_roomy};
ghost use Rattle.lp_cloning.specs.Faults.{IsNoMemory, IsTakenFor, Tells, brought_by};
ghost use Rattle.lp_cloning.specs.Feeding.{IsMaking, begun_of};

use crate::fault::CloningFault;
use crate::job::{Begun, Cloning};
use crate::naming::clone_name;
use lp_asking::ending::{Cause, Ending, Stop};
use lp_asking::truth::Truthful;
use lp_beginning::begin::begin as make;
use lp_beginning::job::{Begun as Made, LoadKind};
use lp_beginning::{bring_program, program_of};
use lp_values::error::{ErrorKind, RunError};
use lp_values::id::{ObjId, ProgId};
use lp_world::live::Live;
use lp_world::objects::ObjectTable;
use lp_world::versions::VersionTable;
use std::alloc::Global;

/// It ends with an error of this kind.
pub(crate) fn error_begun(alloc: Global, kind: ErrorKind) -> Result<Begun, CloningFault>
    ensures error { IfOk result (IsError kind) }
    ensures fault { IfErr result IsNoMemory }
{
    let error = RunError::plain(alloc, kind)?;
    Ok(Begun::Ends(Ending::Stopped(Stop {
        cause: Cause::Failed(error),
        place: None,
    })))
}

/// How a clone begins that was made.
fn begun_of(made: Made) -> Begun
    ensures { result ≡ begun_of made }
{
    match made {
        Made::Ends(e) => Begun::Ends(e),
        Made::Runs(job) => Begun::Runs(Cloning::Make(job)),
    }
}

/// An object of a version and with a name of its own is made for LPC, and begins.
fn clone_named<W: Truthful>(
    live: &mut Live,
    swap: &mut W,
    name: &str,
    version: ProgId,
) -> Result<Begun, CloningFault>
    requires closed { IsClosed live.old }
    ensures starts { IfOk result (λ r. StartsAs r (made_named (chars name.now) version) (W.content swap.old) live.old live.new) }
    ensures ready { IfOk result (IsReady live.new.objects) }
    ensures making { IfOk result IsMaking }
    ensures closed { IsClosed live.new }
    ensures cells { live.new.cells ≡ live.old.cells }
    ensures variables { KeepsVariables live.old.objects live.new.objects }
    ensures tells { Tells (W.content swap.old) (W.content swap.new) (W.last swap.new) (W.read_faults swap.old) (W.read_faults swap.new) (W.write_faults swap.old) (W.write_faults swap.new)
        (W.is_truthful swap.old) (W.is_truthful swap.new) (W.is_honest swap.old) (W.is_honest swap.new) live.old live.new (brought_by result) }
    ensures refused { IfErr result (IsTakenFor (W.content swap.old) live.old (λ w. chars name.now)) }
    ensures kept { W.content swap.new ≡ W.content swap.old }
{
    match make(live, swap, LoadKind::Wanted, name, version) {
        Ok(made) => Ok(begun_of(made)),
        Err(e) => Err(CloningFault::from(e)),
    }
}

/// A clone of an object of this name and of a version is made, for which there is room: it gets the next number.
fn clone_numbered<W: Truthful>(
    live: &mut Live,
    swap: &mut W,
    name: &str,
    version: ProgId,
) -> Result<Begun, CloningFault>
    requires closed { IsClosed live.old }
    ensures starts { IfOk result (λ r. StartsAs r (made_numbered (chars name.now) version) (W.content swap.old) live.old live.new) }
    ensures ready { IfOk result (IsReady live.new.objects) }
    ensures making { IfOk result IsMaking }
    ensures closed { IsClosed live.new }
    ensures cells { live.new.cells ≡ live.old.cells }
    ensures variables { KeepsVariables live.old.objects live.new.objects }
    ensures tells { Tells (W.content swap.old) (W.content swap.new) (W.last swap.new) (W.read_faults swap.old) (W.read_faults swap.new) (W.write_faults swap.old) (W.write_faults swap.new)
        (W.is_truthful swap.old) (W.is_truthful swap.new) (W.is_honest swap.old) (W.is_honest swap.new) live.old live.new (brought_by result) }
    ensures refused { IfErr result (IsTakenFor (W.content swap.old) live.old (λ w. clone_name w (chars name.now))) }
    ensures kept { W.content swap.new ≡ W.content swap.old }
{
    match live.names.next_clone() {
        Some(number) => match clone_name(live.alloc, name, number) {
            Ok(full) => clone_named(live, swap, full.as_str(), version),
            Err(_) => Err(CloningFault::NoMemory),
        },
        None => Err(CloningFault::NoMemory),
    }
}

/// A clone is made where there is room for one, which is an error else.
fn clone_roomy<W: Truthful>(
    live: &mut Live,
    swap: &mut W,
    name: &str,
    version: ProgId,
) -> Result<Begun, CloningFault>
    requires closed { IsClosed live.old }
    ensures starts { IfOk result (λ r. StartsAs r (made_roomy (chars name.now) version) (W.content swap.old) live.old live.new) }
    ensures ready { IfOk result (IsReady live.new.objects) }
    ensures making { IfOk result IsMaking }
    ensures closed { IsClosed live.new }
    ensures cells { live.new.cells ≡ live.old.cells }
    ensures variables { KeepsVariables live.old.objects live.new.objects }
    ensures tells { Tells (W.content swap.old) (W.content swap.new) (W.last swap.new) (W.read_faults swap.old) (W.read_faults swap.new) (W.write_faults swap.old) (W.write_faults swap.new)
        (W.is_truthful swap.old) (W.is_truthful swap.new) (W.is_honest swap.old) (W.is_honest swap.new) live.old live.new (brought_by result) }
    ensures refused { IfErr result (IsTakenFor (W.content swap.old) live.old (λ w. clone_name w (chars name.now))) }
    ensures kept { W.content swap.new ≡ W.content swap.old }
{
    if live.names.has_room() {
        return clone_numbered(live, swap, name, version);
    }
    error_begun(live.alloc, ErrorKind::TooMany)
}

/// Whether a version whose program is in memory has the pragma `no_clone`.
fn is_no_clone(versions: &VersionTable, p: ProgId) -> bool
    ensures { (raw : Raw) → program_at versions.now p ≡ Some raw → result ≡ raw.tables.pragmas.no_clone }
{
    match program_of(versions, p) {
        Some(program) => program.raw().tables.pragmas.no_clone,
        None => false,
    }
}

/// A clone is made of an object of a version whose program is in memory, where the pragma `no_clone` does not forbid that.
fn clone_inside<W: Truthful>(
    live: &mut Live,
    swap: &mut W,
    name: &str,
    version: ProgId,
) -> Result<Begun, CloningFault>
    requires closed { IsClosed live.old }
    requires here { IsSome (program_at live.old.versions version) }
    ensures starts { IfOk result (λ r. StartsAs r (made_of (chars name.now) version) (W.content swap.old) live.old live.new) }
    ensures ready { IfOk result (IsReady live.new.objects) }
    ensures making { IfOk result IsMaking }
    ensures closed { IsClosed live.new }
    ensures cells { live.new.cells ≡ live.old.cells }
    ensures variables { KeepsVariables live.old.objects live.new.objects }
    ensures tells { Tells (W.content swap.old) (W.content swap.new) (W.last swap.new) (W.read_faults swap.old) (W.read_faults swap.new) (W.write_faults swap.old) (W.write_faults swap.new)
        (W.is_truthful swap.old) (W.is_truthful swap.new) (W.is_honest swap.old) (W.is_honest swap.new) live.old live.new (brought_by result) }
    ensures refused { IfErr result (IsTakenFor (W.content swap.old) live.old (λ w. clone_name w (chars name.now))) }
    ensures kept { W.content swap.new ≡ W.content swap.old }
{
    if !is_no_clone(&live.versions, version) {
        return clone_roomy(live, swap, name, version);
    }
    error_begun(live.alloc, ErrorKind::NoClone)
}

/// The same of any version. Its program comes into memory.
fn clone_version<W: Truthful>(
    live: &mut Live,
    swap: &mut W,
    name: &str,
    version: ProgId,
) -> Result<Begun, CloningFault>
    requires closed { IsClosed live.old }
    ensures starts { IfOk result (λ r. StartsAs r (made_of (chars name.now) version) (W.content swap.old) live.old live.new) }
    ensures ready { IfOk result (IsReady live.new.objects) }
    ensures making { IfOk result IsMaking }
    ensures closed { IsClosed live.new }
    ensures cells { live.new.cells ≡ live.old.cells }
    ensures variables { KeepsVariables live.old.objects live.new.objects }
    ensures tells { Tells (W.content swap.old) (W.content swap.new) (W.last swap.new) (W.read_faults swap.old) (W.read_faults swap.new) (W.write_faults swap.old) (W.write_faults swap.new)
        (W.is_truthful swap.old) (W.is_truthful swap.new) (W.is_honest swap.old) (W.is_honest swap.new) live.old live.new (brought_by result) }
    ensures refused { IfErr result (IsTakenFor (W.content swap.old) live.old (λ w. clone_name w (chars name.now))) }
    ensures kept { W.content swap.new ≡ W.content swap.old }
{
    match bring_program(live, swap, version) {
        Ok(()) => clone_inside(live, swap, name, version),
        Err(e) => Err(CloningFault::from(e)),
    }
}

/// The version of an object that the state has.
fn version_of(objects: &ObjectTable, o: ObjId) -> Option<ProgId>
    ensures { (p : ProgId) → result ≡ Some p → (x : Object) × (row_at objects.now o.0 ≡ Some x) × (x.program ≡ p) }
{
    match objects.get(o) {
        Some(x) => Some(x.program),
        None => None,
    }
}

/// A clone of an object is made, whose blueprint has this name, and begins. A program with the pragma `no_clone` is not cloned, which is
/// an error, and so is it that there is no room; only then the clone gets its number, which is never given again. The programs of the
/// object come into memory.
///
/// # Errors
/// `NameTaken` where a live object has the name of the clone. `Swap` where the read of a program failed, or gave other bytes than were
/// written; that one is out still. `NoMemory` where memory ran out, or numbers for clones did, and where the device did not tell the
/// truth; also where the state does not have the object. Nothing is said of the state then.
pub(crate) fn clone_live<W: Truthful>(
    live: &mut Live,
    swap: &mut W,
    name: &str,
    o: ObjId,
) -> Result<Begun, CloningFault>
    requires closed { IsClosed live.old }
    ensures starts { IfOk result (λ r. StartsAs r (λ by s. cloning by (chars name.now) o s) (W.content swap.old) live.old live.new) }
    ensures ready { IfOk result (IsReady live.new.objects) }
    ensures making { IfOk result IsMaking }
    ensures closed { IsClosed live.new }
    ensures cells { live.new.cells ≡ live.old.cells }
    ensures variables { KeepsVariables live.old.objects live.new.objects }
    ensures tells { Tells (W.content swap.old) (W.content swap.new) (W.last swap.new) (W.read_faults swap.old) (W.read_faults swap.new) (W.write_faults swap.old) (W.write_faults swap.new)
        (W.is_truthful swap.old) (W.is_truthful swap.new) (W.is_honest swap.old) (W.is_honest swap.new) live.old live.new (brought_by result) }
    ensures refused { IfErr result (IsTakenFor (W.content swap.old) live.old (λ w. clone_name w (chars name.now))) }
    ensures kept { W.content swap.new ≡ W.content swap.old }
{
    match version_of(&live.objects, o) {
        Some(version) => clone_version(live, swap, name, version),
        None => Err(CloningFault::NoMemory),
    }
}
