//! An object is made for a load, which hands it over to a job of its own.
ghost use Rattle.std.specs.Prelude.{◌≡◌, IfOk, List};
ghost use Rattle.lp_code.specs.declared.program.RawProgram.{RawProgram as Raw};
ghost use Rattle.lp_language.specs.Course.{End, Reply};
ghost use Rattle.lp_asking.specs.Endings.{IsEndingThere};
ghost use Rattle.lp_beginning.specs.Ends.{IsReplyEnd};
ghost use Rattle.lp_cells.specs.Cells.{Store};
ghost use Rattle.lp_beginning.specs.Beginning.{BringsFirst};
ghost use Rattle.lp_loading.specs.Telling.{brought_by};
ghost use Rattle.lp_loading.specs.Going.{IsAnswerOf, IsAnswerThere, MakesAs};
ghost use Rattle.lp_loading.specs.Steps.{AsksInOrder, MakesFor, MakesHome, answer_of as answer_meant, fault_of as fault_meant, making_kind as kind_meant, step_of as step_meant};
ghost use Rattle.lp_loading.specs.declared.job.Going.{Going as Stage};
ghost use Rattle.lp_step.specs.Steps.{KeepsVariables};
ghost use Rattle.lp_world.specs.Closed.{IsClosed};

use crate::job::{Answer, LoadFault, LoadJob, Purpose, Step};
use crate::simuls::text_of;
use lp_asking::ending::Ending;
use lp_asking::truth::Truthful;
use lp_beginning::begin::begin;
use lp_beginning::fault::MakingFault;
use lp_beginning::job::{Begun, LoadKind};
use lp_values::id::ProgId;
use lp_world::live::Live;

/// For what the job of an object makes it.
fn making_kind(purpose: Purpose) -> LoadKind
    ensures { result ≡ kind_meant purpose }
{
    match purpose {
        Purpose::Wanted => LoadKind::Wanted,
        Purpose::Inherited => LoadKind::Inherited,
    }
}

/// The answer of a load whose object's job ended so. Takes no memory.
pub fn answer_of(ending: Ending) -> Answer
    ensures is { result ≡ answer_meant ending }
    ensures same { (programs : List Raw) (e : End Reply) → IsReplyEnd programs ending e → IsAnswerOf programs result e }
    ensures there { (cells : Store) → IsEndingThere cells ending → IsAnswerThere cells result }
{
    match ending {
        Ending::Value(v) => Answer::Value(v),
        Ending::Stopped(stop) => Answer::Stopped(stop),
    }
}

/// What a load does next whose object began so.
fn step_of(begun: Begun) -> Step
    ensures { result ≡ step_meant begun }
{
    match begun {
        Begun::Ends(ending) => Step::Ends(answer_of(ending)),
        Begun::Runs(making) => Step::Makes(making),
    }
}

/// Why a load is not carried out whose object was not made.
fn fault_of(e: MakingFault) -> LoadFault
    ensures { result ≡ fault_meant e }
{
    match e {
        MakingFault::NameTaken => LoadFault::NoMemory,
        MakingFault::Swap(cause) => LoadFault::Swap(cause),
        MakingFault::NoMemory => LoadFault::NoMemory,
    }
}

/// An object of a version is made for a load, with its name.
///
/// # Errors
/// `Swap` where the read of a program that was out failed, or gave other bytes. `NoMemory`, also where a live object has the name.
pub(crate) fn make_object<W: Truthful>(
    live: &mut Live,
    swap: &mut W,
    job: &LoadJob,
    version: ProgId,
) -> Result<Step, LoadFault>
    requires closed { IsClosed live.old }
    ensures makes { IfOk result (λ r. MakesAs r job.now version (W.content swap.old) live.old (W.content swap.new) live.new) }
    ensures order { (going : Stage) → IfOk result (AsksInOrder going) }
    ensures home { IfOk result (MakesHome live.new.objects) }
    ensures kind { IfOk result (MakesFor job.now.purpose) }
    ensures closed { IsClosed live.new }
    ensures cells { live.new.cells ≡ live.old.cells }
    ensures variables { KeepsVariables live.old.objects live.new.objects }
    ensures brings { BringsFirst (W.content swap.old) (W.content swap.new) (W.last swap.new) (W.read_faults swap.old) (W.read_faults swap.new) (W.write_faults swap.old) (W.write_faults swap.new)
        (W.is_truthful swap.old) (W.is_truthful swap.new) (W.is_honest swap.old) (W.is_honest swap.new) live.old live.new (brought_by result) }
{
    let name = text_of(live.alloc, job.name.as_slice())?;
    match begin(live, swap, making_kind(job.purpose), name.as_str(), version) {
        Ok(begun) => Ok(step_of(begun)),
        Err(e) => Err(fault_of(e)),
    }
}
