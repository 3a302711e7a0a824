//! Jobs of `clone_object` are told what was answered.
ghost use Rattle.std.specs.Prelude.{◌≡◌, IfErr, IfOk, IsSome};
ghost use Rattle.std.specs.Str.{chars};
ghost use Rattle.std.specs.String.{string_bytes};
ghost use Rattle.lp_language.specs.Resolve.{without_c};
ghost use Rattle.lp_meaning.specs.FileLoads.{clone_name, failed_name};
ghost use Rattle.lp_step.specs.Steps.{KeepsVariables};
ghost use Rattle.lp_world.specs.Closed.{IsClosed};
ghost use Rattle.lp_world.specs.Rows.{live_in, variables_at};
ghost use Rattle.lp_cloning.specs.Beginning.{Continues, Feeds, IsHome, IsReady, LeavesLess, StartsAs};
ghost use Rattle.lp_cloning.specs.Faults.{IsTakenFor, Tells, brought_by};
ghost use Rattle.lp_cloning.specs.Feeding.{ClonedAs, IsFaultIn, IsMaking, IsUnloaded, LoadedAs, live_in_value};
ghost use Rattle.lp_cloning.specs.Jobs.{IsWanted, clone_loaded};

use crate::clone::{clone_live, error_begun};
use crate::fault::CloningFault;
use crate::job::{Answered, Begun, Cloning};
use lp_asking::ending::{Cause, Ending, Stop};
use lp_asking::truth::Truthful;
use lp_beginning::feed::take;
use lp_beginning::job::{Fed, LoadKind, Making};
use lp_efuns::names::ends_in_c;
use lp_tree::fault::Fault;
use lp_values::error::{ErrorKind, RunError};
use lp_values::id::ObjId;
use lp_values::text::code_points;
use lp_values::value::{Living, Value};
use lp_world::live::Live;
use lp_world::objects::ObjectTable;
use std::alloc::{AllocError, Global};

/// The live object that a value is.
fn object_in(v: &Value, objects: &ObjectTable) -> Option<ObjId>
    ensures { result ≡ live_in_value (live_in objects.now) v.now }
{
    match v {
        Value::Obj(o) => if objects.is_live(*o) { Some(*o) } else { None },
        _ => None,
    }
}

/// A path without `.c` at its end.
fn without_c(path: &[char]) -> &[char]
    ensures { result.now ≡ without_c path.now }
{
    if ends_in_c(path) {
        return &path[..path.len() - 2];
    }
    path
}

/// The name of the object whose file failed.
fn failed_name(alloc: Global, name: &str, faults: &[Fault]) -> Result<Vec<char>, AllocError>
    ensures { IfOk result (λ v. v.items ≡ failed_name (chars name.now) faults.now) }
{
    match faults.get(0) {
        Some(fault) => {
            let path = code_points(alloc, fault.file.as_str())?;
            without_c(path.as_slice()).to_vec(alloc)
        }
        None => code_points(alloc, name),
    }
}

/// A load that failed is an error.
fn load_failed(alloc: Global, name: &str, faults: &[Fault]) -> Result<Begun, AllocError>
    ensures { IfOk result (IsUnloaded (chars name.now) faults.now) }
{
    let words = failed_name(alloc, name, faults)?;
    let error = RunError::new(alloc, ErrorKind::CouldNotLoad, words.as_slice())?;
    Ok(Begun::Ends(Ending::Stopped(Stop {
        cause: Cause::Failed(error),
        place: None,
    })))
}

/// The blueprint was loaded, which is to live then.
fn clone_value<W: Truthful>(
    live: &mut Live,
    swap: &mut W,
    name: &str,
    v: Value,
) -> Result<Begun, CloningFault>
    requires closed { IsClosed live.old }
    ensures starts { IfOk result (λ r. StartsAs r (λ by s. clone_loaded by (chars name.now) v s) (W.content swap.old) live.old live.new) }
    ensures ready { IfOk result (IsReady live.new.objects) }
    ensures making { IfOk result IsMaking }
    ensures closed { IsClosed live.new }
    ensures cells { live.new.cells ≡ live.old.cells }
    ensures variables { KeepsVariables live.old.objects live.new.objects }
    ensures tells { Tells (W.content swap.old) (W.content swap.new) (W.last swap.new) (W.read_faults swap.old) (W.read_faults swap.new) (W.write_faults swap.old) (W.write_faults swap.new)
        (W.is_truthful swap.old) (W.is_truthful swap.new) (W.is_honest swap.old) (W.is_honest swap.new) live.old live.new (brought_by result) }
    ensures refused { IfErr result (IsTakenFor (W.content swap.old) live.old (λ w. clone_name w (chars name.now))) }
    ensures kept { W.content swap.new ≡ W.content swap.old }
{
    match object_in(&v, &live.objects) {
        Some(o) => clone_live(live, swap, name, o),
        None => error_begun(live.alloc, ErrorKind::BadTarget),
    }
}

/// The blueprint was loaded, or was not.
fn answered<W: Truthful>(
    live: &mut Live,
    swap: &mut W,
    name: String,
    answer: Answered,
) -> Result<Begun, CloningFault>
    requires closed { IsClosed live.old }
    ensures goes { IfOk result (λ r. Continues r (Cloning.Load name) answer (W.content swap.old) live.old live.new) }
    ensures ready { IfOk result (IsReady live.new.objects) }
    ensures making { IfOk result IsMaking }
    ensures closed { IsClosed live.new }
    ensures cells { live.new.cells ≡ live.old.cells }
    ensures variables { KeepsVariables live.old.objects live.new.objects }
    ensures tells { Tells (W.content swap.old) (W.content swap.new) (W.last swap.new) (W.read_faults swap.old) (W.read_faults swap.new) (W.write_faults swap.old) (W.write_faults swap.new)
        (W.is_truthful swap.old) (W.is_truthful swap.new) (W.is_honest swap.old) (W.is_honest swap.new) live.old live.new (brought_by result) }
    ensures refused { IfErr result (IsTakenFor (W.content swap.old) live.old (λ w. clone_name w (chars (string_bytes name)))) }
    ensures kept { W.content swap.new ≡ W.content swap.old }
{
    match answer {
        Answered::Value(v) => clone_value(live, swap, name.as_str(), v),
        Answered::Faults(faults) => match load_failed(
            live.alloc,
            name.as_str(),
            faults.as_slice(),
        ) {
            Ok(begun) => Ok(begun),
            Err(_) => Err(CloningFault::NoMemory),
        },
    }
}

/// The load of a blueprint with this name ended, with a value or with a stop. The blueprint is cloned then, where it lives, which is
/// an error else; a stop ends the job.
///
/// # Errors
/// As of `begin`.
pub fn loaded<W: Truthful>(
    live: &mut Live,
    swap: &mut W,
    name: String,
    ending: Ending,
) -> Result<Begun, CloningFault>
    requires closed { IsClosed live.old }
    ensures loaded { IfOk result (λ r. LoadedAs r (chars (string_bytes name)) ending (W.content swap.old) live.old live.new) }
    ensures ready { IfOk result (IsReady live.new.objects) }
    ensures making { IfOk result IsMaking }
    ensures closed { IsClosed live.new }
    ensures cells { live.new.cells ≡ live.old.cells }
    ensures variables { KeepsVariables live.old.objects live.new.objects }
    ensures tells { Tells (W.content swap.old) (W.content swap.new) (W.last swap.new) (W.read_faults swap.old) (W.read_faults swap.new) (W.write_faults swap.old) (W.write_faults swap.new)
        (W.is_truthful swap.old) (W.is_truthful swap.new) (W.is_honest swap.old) (W.is_honest swap.new) live.old live.new (brought_by result) }
    ensures refused { IfErr result (IsTakenFor (W.content swap.old) live.old (λ w. clone_name w (chars (string_bytes name)))) }
    ensures kept { W.content swap.new ≡ W.content swap.old }
{
    match ending {
        Ending::Value(v) => clone_value(live, swap, name.as_str(), v),
        Ending::Stopped(stop) => Ok(Begun::Ends(Ending::Stopped(stop))),
    }
}

/// What was asked for the clone is done.
fn made(mut job: Making) -> Begun
    ensures goes { (answer : _) (told : _) (live : _) → job.kind ≡ LoadKind.Wanted → Continues result (Cloning.Make job) answer told live live }
    ensures ready { (objects : _) → job.kind ≡ LoadKind.Wanted → IsSome (variables_at objects job.object) → IsReady objects result }
    ensures less { LeavesLess result (Cloning.Make job) }
{
    match take(&mut job) {
        Fed::Goes => Begun::Runs(Cloning::Make(job)),
        Fed::Ends(e) => Begun::Ends(e),
    }
}

/// A job is told what its question was answered, where it was not a stop; it goes on as this job, or it ends. Its blueprint was loaded,
/// and is cloned then; or the next part of the clone has begun. A stop stops the job.
///
/// # Errors
/// As of `begin`.
pub fn feed<W: Truthful>(
    live: &mut Live,
    swap: &mut W,
    job: Cloning,
    answer: Answered,
) -> Result<Begun, CloningFault>
    requires closed { IsClosed live.old }
    requires wanted { IsWanted job }
    requires home { IsHome live.old.objects job }
    ensures feeds { IfOk result (λ r. Feeds r job answer (W.content swap.old) live.old live.new) }
    ensures ready { IfOk result (IsReady live.new.objects) }
    ensures less { IfOk result (λ r. LeavesLess r job) }
    ensures closed { IsClosed live.new }
    ensures cells { live.new.cells ≡ live.old.cells }
    ensures variables { KeepsVariables live.old.objects live.new.objects }
    ensures tells { Tells (W.content swap.old) (W.content swap.new) (W.last swap.new) (W.read_faults swap.old) (W.read_faults swap.new) (W.write_faults swap.old) (W.write_faults swap.new)
        (W.is_truthful swap.old) (W.is_truthful swap.new) (W.is_honest swap.old) (W.is_honest swap.new) live.old live.new (brought_by result) }
    ensures refused { IfErr result (IsFaultIn job (W.content swap.old) live.old) }
    ensures kept { W.content swap.new ≡ W.content swap.old }
{
    match job {
        Cloning::Load(name) => answered(live, swap, name, answer),
        Cloning::Make(job) => Ok(made(job)),
    }
}

/// A clone was made, and has begun to its end: `clone_object` ends with it, or with the stop. Its value costs nothing more. Takes
/// no memory.
pub fn cloned(ending: Ending) -> Ending
    ensures same { result ≡ ending }
    ensures cloned { ClonedAs ending result }
{
    ending
}
