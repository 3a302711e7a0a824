//! An object is made.
ghost use Rattle.std.specs.Prelude.{◌≡◌, IfErr, IfOk, IsSome, List, OnErr, OnOk, Option};
ghost use Rattle.std.specs.Str.{chars};
ghost use Rattle.lp_step.specs.Steps.{KeepsVariables};
ghost use Rattle.lp_swapfile.specs.Device.{Bytes};
ghost use Rattle.lp_targets.specs.Brought.{program_at};
ghost use Rattle.lp_world.specs.Closed.{IsClosed};
ghost use Rattle.lp_world.specs.Rows.{variables_at};
ghost use Rattle.lp_beginning.specs.Beginning.{Begins, BringsFirst, HasMade, IsBegunFor, IsBegunHome, IsFull, IsRefusal, IsRefusedFor, StandsStill, brought_by, refusal_of};

use crate::fault::MakingFault;
use crate::job::{Begun, LoadKind, Making};
use crate::parts::initialised_parts;
use lp_asking::ending::{Cause, Ending, Stop};
use lp_asking::truth::Truthful;
use lp_making::objects::new_object;
use lp_objects::fault::ObjectFault;
use lp_values::error::{ErrorKind, RunError};
use lp_values::id::ProgId;
use lp_world::live::Live;
use std::alloc::Global;

/// Why an object that was to be made was refused. That there is no room is known before.
fn refusal_of(e: ObjectFault) -> MakingFault
    ensures is { result ≡ refusal_of e }
    ensures refusal { IsRefusal result }
{
    match e {
        ObjectFault::NameTaken => MakingFault::NameTaken,
        ObjectFault::TooMany => MakingFault::NoMemory,
        ObjectFault::NoMemory => MakingFault::NoMemory,
    }
}

/// An object of a version whose program is in memory is made, and begins; these parts of the program have initialisers.
fn make(
    live: &mut Live,
    kind: LoadKind,
    name: &str,
    version: ProgId,
    parts: Vec<u16>,
) -> Result<Making, MakingFault>
    requires closed { IsClosed live.old }
    requires inside { IsSome (program_at live.old.versions version) }
    ensures made { IfOk result (λ job. HasMade job kind (chars name.now) version parts.items live.old live.new) }
    ensures home { IfOk result (λ job. IsSome (variables_at live.new.objects job.object)) }
    ensures kind { IfOk result (λ job. job.kind ≡ kind) }
    ensures refused { IfErr result (λ e. (told : Option Bytes) → IsRefusedFor told live.old (chars name.now) e) }
    ensures refusal { IfErr result IsRefusal }
    ensures still { OnErr result ((told : Option Bytes) → StandsStill told live.old told live.new) }
    ensures closed { IsClosed live.new }
    ensures cells { live.new.cells ≡ live.old.cells }
    ensures outputs { live.new.outputs ≡ live.old.outputs }
    ensures variables { KeepsVariables live.old.objects live.new.objects }
{
    match new_object(live, name, version) {
        Ok(object) => Ok(Making {
            kind,
            object,
            parts,
            done: 0,
        }),
        Err(e) => Err(refusal_of(e)),
    }
}

/// That there is no room for one more object is an error.
fn full(alloc: Global) -> Result<Begun, MakingFault>
    ensures full { IfOk result IsFull }
    ensures fault { IfErr result (λ e. e ≡ MakingFault.NoMemory) }
{
    let error = RunError::plain(alloc, ErrorKind::TooMany)?;
    Ok(Begun::Ends(Ending::Stopped(Stop {
        cause: Cause::Failed(error),
        place: None,
    })))
}

/// An object of a version is made, with this name, and begins. Where there is no room for it, it is not, which is an error. For
/// it the program of the version and that of each part of it come into memory. Takes time in proportion to the parts and
/// variables of the version, and to what is read.
///
/// # Errors
/// `NameTaken` where a live object has the name. `Swap` where the read of a program failed, or gave other bytes than were
/// written; that one is out still. `NoMemory` where memory ran out, and where the device did not tell the truth. Then no object
/// is made.
pub fn begin<W: Truthful>(
    live: &mut Live,
    swap: &mut W,
    kind: LoadKind,
    name: &str,
    version: ProgId,
) -> Result<Begun, MakingFault>
    requires closed { IsClosed live.old }
    ensures begins { IfOk result (λ r. Begins r kind (chars name.now) version (W.content swap.old) live.old live.new) }
    ensures home { IfOk result (IsBegunHome live.new.objects) }
    ensures kind { IfOk result (IsBegunFor kind) }
    ensures refused { IfErr result (IsRefusedFor (W.content swap.old) live.old (chars name.now)) }
    ensures still { OnErr result (W.is_truthful swap.new → StandsStill (W.content swap.old) live.old (W.content swap.new) live.new) }
    ensures brings { BringsFirst (W.content swap.old) (W.content swap.new) (W.last swap.new) (W.read_faults swap.old) (W.read_faults swap.new) (W.write_faults swap.old) (W.write_faults swap.new)
        (W.is_truthful swap.old) (W.is_truthful swap.new) (W.is_honest swap.old) (W.is_honest swap.new) live.old live.new (brought_by result) }
    ensures closed { IsClosed live.new }
    ensures cells { live.new.cells ≡ live.old.cells }
    ensures outputs { live.new.outputs ≡ live.old.outputs }
    ensures variables { KeepsVariables live.old.objects live.new.objects }
    ensures truthful { OnOk result (W.is_truthful swap.old → W.is_truthful swap.new) }
{
    if !live.names.has_room() {
        return full(live.alloc);
    }
    match initialised_parts(live, swap, version) {
        Ok(parts) => match make(live, kind, name, version, parts) {
            Ok(job) => Ok(Begun::Runs(job)),
            Err(e) => Err(e),
        },
        Err(e) => Err(MakingFault::from(e)),
    }
}
