//! A load takes the answer of a load that it asked for: that of the simul-efun object, or of a parent.
ghost use Rattle.std.specs.Prelude.{◌≡◌, IfErr, IfOk, List, None, Option, Some, ℕ};
ghost use Rattle.lp_code.specs.declared.program.RawProgram.{RawProgram as Raw};
ghost use Rattle.lp_efuns.specs.declared.caller.Turn.{Turn};
ghost use Rattle.lp_language.specs.World.{World, object_named as named};
ghost use Rattle.lp_cells.specs.Cells.{Store};
ghost use Rattle.lp_loading.specs.Going.{IsAnswerThere, Takes};
ghost use Rattle.lp_loading.specs.Steps.{EndsThere, GoesReading, IsSameLoad};
ghost use Rattle.lp_loading.specs.Telling.{IsDeviceless};
ghost use Rattle.lp_meaning.specs.FileLoads.{object_of_value};
ghost use Rattle.lp_loading.specs.declared.job.Answer.TheVariants as answers;
ghost use Rattle.lp_loading.specs.declared.job.Waiting.TheVariants as waitings;
ghost use Rattle.lp_swapfile.specs.Device.{Bytes};
ghost use Rattle.lp_values.specs.declared.value.Value.{Value as V};
ghost use Rattle.lp_values.specs.declared.id.ObjId.{ObjId as Oid};
ghost use Rattle.lp_world.specs.Stands.{Stands};

use crate::job::{Answer, Fed, Going, LoadFault, LoadJob, MadeFor};
use crate::present::version_of_object;
use crate::simuls::object_named;
use lp_values::id::ObjId;
use lp_values::text::Text;
use lp_values::value::Value;
use lp_world::live::Live;
use std::alloc::AllocError;

/// The object that a value is, live or not.
fn object_of(v: &Value) -> Option<ObjId>
    ensures { result ≡ object_of_value v.now }
{
    match v {
        Value::Obj(o) => Some(*o),
        _ => None,
    }
}

/// The simul-efun object was loaded: the load ends with the object of its own name, where one lives by then, or reads its file.
fn after_simul(job: &LoadJob, live: &Live) -> Result<Fed, AllocError>
    ensures takes { IfOk result (λ r. (v : V) (o : Oid) (told : Option Bytes) (turn : Turn) (budget : ℕ) → object_of_value v ≡ Some o
        → Takes r job.now waitings.Simul (answers.Value v) told live.now job.now turn budget) }
    ensures reads { IfOk result GoesReading }
    ensures there { IfOk result (λ r. (cells : Store) → EndsThere cells r) }
{
    let own = object_named(live, job.name.as_slice())?;
    match own {
        Some(o) => Ok(Fed::Ends(Answer::Value(Value::Obj(o)))),
        None => Ok(Fed::Goes(Going::Read)),
    }
}

/// A load takes the value of the load of the simul-efun object.
fn simul_value(job: &LoadJob, live: &Live, v: &Value) -> Result<Fed, AllocError>
    ensures takes { IfOk result (λ r. (told : Option Bytes) (turn : Turn) (budget : ℕ) → Takes r job.now waitings.Simul (answers.Value v.now) told live.now job.now turn budget) }
    ensures reads { IfOk result GoesReading }
    ensures there { IfOk result (λ r. (cells : Store) → EndsThere cells r) }
{
    match object_of(v) {
        Some(_) => after_simul(job, live),
        None => Ok(Fed::Ends(Answer::Value(Value::Int(0)))),
    }
}

/// A load takes the answer of the load of the simul-efun object.
pub(crate) fn take_simul(job: &LoadJob, live: &Live, answer: Answer) -> Result<Fed, AllocError>
    ensures takes { IfOk result (λ r. (told : Option Bytes) (turn : Turn) (budget : ℕ) → Takes r job.now waitings.Simul answer told live.now job.now turn budget) }
    ensures reads { IfOk result GoesReading }
    ensures there { IfOk result (λ r. (cells : Store) → IsAnswerThere cells answer → EndsThere cells r) }
{
    match answer {
        Answer::Value(v) => simul_value(job, live, &v),
        Answer::Faulty(faults) => Ok(Fed::Ends(Answer::Faulty(faults))),
        Answer::Stopped(stop) => Ok(Fed::Ends(Answer::Stopped(stop))),
    }
}

/// A parent was loaded, and no object of the load's own name lives: its version is noted, and the file is read again.
fn note_parent(job: &mut LoadJob, live: &Live, name: Text, ob: ObjId) -> Result<Fed, LoadFault>
    requires none { (told : Option Bytes) (programs : List Raw) (w : World) → Stands told programs live.now w → None ≡ named w job.old.name }
    ensures takes { IfOk result (λ r. (v : V) (told : Option Bytes) (turn : Turn) (budget : ℕ) → object_of_value v ≡ Some ob
        → Takes r job.old (waitings.Parent name) (answers.Value v) told live.now job.new turn budget) }
    ensures same { IsSameLoad job.old job.new }
    ensures reads { IfOk result GoesReading }
    ensures there { IfOk result (λ r. (cells : Store) → EndsThere cells r) }
    ensures fault { IfErr result IsDeviceless }
{
    match version_of_object(&live.objects, ob) {
        Some(version) => {
            job.made.insert(0, MadeFor { name, version })?;
            Ok(Fed::Goes(Going::Read))
        }
        None => Err(LoadFault::NoMemory),
    }
}

/// A parent was loaded: the load ends with the object of its own name, where one lives by then, or reads its file again.
fn after_parent(job: &mut LoadJob, live: &Live, name: Text, ob: ObjId) -> Result<Fed, LoadFault>
    ensures takes { IfOk result (λ r. (v : V) (told : Option Bytes) (turn : Turn) (budget : ℕ) → object_of_value v ≡ Some ob
        → Takes r job.old (waitings.Parent name) (answers.Value v) told live.now job.new turn budget) }
    ensures same { IsSameLoad job.old job.new }
    ensures reads { IfOk result GoesReading }
    ensures there { IfOk result (λ r. (cells : Store) → EndsThere cells r) }
    ensures fault { IfErr result IsDeviceless }
{
    let own = object_named(live, job.name.as_slice())?;
    match own {
        Some(o) => Ok(Fed::Ends(Answer::Value(Value::Obj(o)))),
        None => note_parent(job, live, name, ob),
    }
}

/// A load takes the value of the load of a parent.
fn parent_value(job: &mut LoadJob, live: &Live, name: Text, v: &Value) -> Result<Fed, LoadFault>
    ensures takes { IfOk result (λ r. (told : Option Bytes) (turn : Turn) (budget : ℕ)
        → Takes r job.old (waitings.Parent name) (answers.Value v.now) told live.now job.new turn budget) }
    ensures same { IsSameLoad job.old job.new }
    ensures reads { IfOk result GoesReading }
    ensures there { IfOk result (λ r. (cells : Store) → EndsThere cells r) }
    ensures fault { IfErr result IsDeviceless }
{
    match object_of(v) {
        Some(o) => after_parent(job, live, name, o),
        None => Ok(Fed::Ends(Answer::Value(Value::Int(0)))),
    }
}

/// A load takes the answer of the load of a parent.
///
/// # Errors
/// `NoMemory`, also where nothing is left of the parent's object.
pub(crate) fn take_parent(
    job: &mut LoadJob,
    live: &Live,
    name: Text,
    answer: Answer,
) -> Result<Fed, LoadFault>
    ensures takes { IfOk result (λ r. (told : Option Bytes) (turn : Turn) (budget : ℕ)
        → Takes r job.old (waitings.Parent name) answer told live.now job.new turn budget) }
    ensures same { IsSameLoad job.old job.new }
    ensures reads { IfOk result GoesReading }
    ensures there { IfOk result (λ r. (cells : Store) → IsAnswerThere cells answer → EndsThere cells r) }
    ensures fault { IfErr result IsDeviceless }
{
    match answer {
        Answer::Value(v) => parent_value(job, live, name, &v),
        Answer::Faulty(faults) => Ok(Fed::Ends(Answer::Faulty(faults))),
        Answer::Stopped(stop) => Ok(Fed::Ends(Answer::Stopped(stop))),
    }
}
