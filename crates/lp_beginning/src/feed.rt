//! Jobs are told how their questions ended.
ghost use Rattle.std.specs.Prelude.{◌≡◌, IfOk, OnOk};
ghost use Rattle.lp_step.specs.Steps.{KeepsVariables};
ghost use Rattle.lp_world.specs.Closed.{IsClosed};
ghost use Rattle.lp_beginning.specs.Beginning.{BringsFirst, entered_by};
ghost use Rattle.lp_beginning.specs.Feeding.{Feeds, IsLogged, LeavesLess, StopsAs, Takes, caught, earlier_place};

use crate::job::{Fed, LoadKind, Making};
use crate::report::stop_text;
use lp_asking::ending::{Cause, Ending, Place, Stop};
use lp_asking::truth::Truthful;
use lp_events::out::Out;
use lp_residence::answers::EnterFault;
use lp_values::id::ObjId;
use lp_values::value::Value;
use lp_world::live::Live;

/// A job is told that its question was answered with a value. It asks again, or it ends with the object. Takes no memory.
pub fn take(job: &mut Making) -> Fed
    ensures takes { Takes result job.old job.new }
    ensures less { LeavesLess result job.old job.new }
{
    if job.done < job.parts.len() {
        job.done += 1;
        return Fed::Goes;
    }
    Fed::Ends(Ending::Value(Value::Obj(job.object)))
}

/// Whether a stop is logged, and the object comes of it all the same.
fn is_logged(kind: LoadKind, cause: &Cause) -> bool
    ensures { result ≡ caught kind cause.now }
{
    match kind {
        LoadKind::Wanted => false,
        LoadKind::Inherited => match cause {
            Cause::Spent => false,
            _ => true,
        },
    }
}

/// Where a stop was, or else who asked.
fn earlier_place(place: Option<Place>, asker: Option<Place>) -> Option<Place>
    ensures { result ≡ earlier_place place asker }
{
    match place {
        Some(at) => Some(at),
        None => asker,
    }
}

/// A stop is logged.
fn log<W: Truthful>(
    live: &mut Live,
    swap: &mut W,
    cause: &Cause,
    at: Option<Place>,
) -> Result<(), EnterFault>
    requires closed { IsClosed live.old }
    ensures logged { OnOk result (IsLogged (W.content swap.old) live.old live.new cause.now at) }
    ensures brings { BringsFirst (W.content swap.old) (W.content swap.new) (W.last swap.new) (W.read_faults swap.old) (W.read_faults swap.new) (W.write_faults swap.old) (W.write_faults swap.new)
        (W.is_truthful swap.old) (W.is_truthful swap.new) (W.is_honest swap.old) (W.is_honest swap.new) live.old live.new (entered_by result) }
    ensures closed { IsClosed live.new }
    ensures cells { live.new.cells ≡ live.old.cells }
    ensures names { live.new.names ≡ live.old.names }
    ensures variables { KeepsVariables live.old.objects live.new.objects }
{
    match stop_text(live, swap, cause, at) {
        Ok(text) => match live.outputs.push(Out::Log(text)) {
            Ok(()) => Ok(()),
            Err(_) => Err(EnterFault::NoMemory),
        },
        Err(e) => Err(e),
    }
}

/// A question was answered with a stop.
fn stopped<W: Truthful>(
    kind: LoadKind,
    object: ObjId,
    live: &mut Live,
    swap: &mut W,
    asker: Option<Place>,
    stop: Stop,
) -> Result<Ending, EnterFault>
    requires closed { IsClosed live.old }
    ensures stops { IfOk result (λ e. StopsAs kind object stop asker e (W.content swap.old) live.old live.new) }
    ensures brings { BringsFirst (W.content swap.old) (W.content swap.new) (W.last swap.new) (W.read_faults swap.old) (W.read_faults swap.new) (W.write_faults swap.old) (W.write_faults swap.new)
        (W.is_truthful swap.old) (W.is_truthful swap.new) (W.is_honest swap.old) (W.is_honest swap.new) live.old live.new (entered_by result) }
    ensures closed { IsClosed live.new }
    ensures cells { live.new.cells ≡ live.old.cells }
    ensures names { live.new.names ≡ live.old.names }
    ensures variables { KeepsVariables live.old.objects live.new.objects }
{
    if !is_logged(kind, &stop.cause) {
        return Ok(Ending::Stopped(stop));
    }
    let at = earlier_place(stop.place, asker);
    match log(live, swap, &stop.cause, at) {
        Ok(()) => Ok(Ending::Value(Value::Obj(object))),
        Err(e) => Err(e),
    }
}

/// A job is told how its question ended. It asks again, or it ends: with the object, which may be dead by then; or with the
/// stop. Where the object was made for an `inherit`, an error or a thrown value is logged, and the object comes of it all the
/// same; a spent budget is not caught. For the log the place of who asks is given, if a function does; the program in
/// whose text the place of the stop is comes into memory.
///
/// # Errors
/// `Swap` where the read of that program failed, or gave other bytes than were written. `NoMemory` where memory ran out, and
/// where the device did not tell the truth. The job is of no use then.
pub fn feed<W: Truthful>(
    job: &mut Making,
    live: &mut Live,
    swap: &mut W,
    asker: Option<Place>,
    ending: Ending,
) -> Result<Fed, EnterFault>
    requires closed { IsClosed live.old }
    ensures feeds { IfOk result (λ r. Feeds r job.old ending asker (W.content swap.old) live.old job.new live.new) }
    ensures less { IfOk result (λ r. LeavesLess r job.old job.new) }
    ensures brings { BringsFirst (W.content swap.old) (W.content swap.new) (W.last swap.new) (W.read_faults swap.old) (W.read_faults swap.new) (W.write_faults swap.old) (W.write_faults swap.new)
        (W.is_truthful swap.old) (W.is_truthful swap.new) (W.is_honest swap.old) (W.is_honest swap.new) live.old live.new (entered_by result) }
    ensures closed { IsClosed live.new }
    ensures cells { live.new.cells ≡ live.old.cells }
    ensures names { live.new.names ≡ live.old.names }
    ensures variables { KeepsVariables live.old.objects live.new.objects }
{
    match ending {
        Ending::Value(_) => Ok(take(job)),
        Ending::Stopped(stop) => {
            match stopped(job.kind, job.object, live, swap, asker, stop) {
                Ok(e) => Ok(Fed::Ends(e)),
                Err(e) => Err(e),
            }
        }
    }
}
