//! Loads: how they begin, what they do by themselves, and how they take what was answered.
ghost use Rattle.std.specs.Prelude.{◌≡◌, ◌++◌, ◌∷◌, [], IfErr, IfOk, List, None, OnOk, Option, ℕ};
ghost use Rattle.lp_asking.specs.declared.asker.Loading.{Loading as L};
ghost use Rattle.lp_asking.specs.declared.ending.Cause.TheVariants as causes;
ghost use Rattle.lp_cells.specs.Cells.{Store};
ghost use Rattle.lp_asking.specs.Endings.{IsEndingThere};
ghost use Rattle.lp_efuns.specs.declared.caller.Turn.{Turn};
ghost use Rattle.lp_loading.specs.declared.job.Answer.TheVariants as answers;
ghost use Rattle.lp_loading.specs.Going.{IsAnswerThere, Takes};
ghost use Rattle.lp_loading.specs.Steps.{EndsThere, GoesReading, IsSameLoad, MakesHome, answer_of};
ghost use Rattle.lp_loading.specs.Present.{HasWorld};
ghost use Rattle.lp_step.specs.Steps.{KeepsVariables};
ghost use Rattle.lp_swapfile.specs.Device.{Bytes};
ghost use Rattle.lp_world.specs.Closed.{IsClosed};
ghost use Rattle.lp_vm.specs.Causes.{IsReadless, Tells, read_of};
ghost use Rattle.lp_vm.specs.LoadFaults.{load_fault};
ghost use Rattle.lp_vm.specs.Loading.{LeadsOn, LoadBegins};

use crate::fault::VmFault;
use lp_asking::asker::{Asker, Loading};
use lp_asking::ending::{Cause, Ending, Stop};
use lp_asking::truth::Truthful;
use lp_loading::begin::begin;
use lp_loading::feed::feed;
use lp_loading::job::{Answer, Begun, Fed, Going, LoadFault, LoadJob, Purpose, Step, Waiting};
use lp_loading::next::next;
use lp_values::text::Text;
use lp_world::live::Live;
use std::alloc::{AllocError, Global};

impl From<LoadFault> for VmFault {
    ghost from_gives = { λ x e. e ≡ load_fault x };

    fn from(e: LoadFault) -> VmFault {
        match e {
            LoadFault::Swap(cause) => VmFault::Swap(cause),
            LoadFault::NoMemory => VmFault::NoMemory,
        }
    }
}

/// A load is the innermost under way.
fn push_load(alloc: Global, asker: &mut Asker, name: &[char], nested: u32) -> Result<(), AllocError>
    ensures loads { OnOk result (asker.new ≡ record asker.old { loads = asker.new.loads }) }
    ensures items { OnOk result (asker.new.loads.items ≡ asker.old.loads.items ++ record { name = name.now; nested = nested } ∷ []) }
{
    let name = Text::from_slice(alloc, name)?;
    asker.loads.push(Loading { name, nested })?;
    Ok(())
}

/// A load begins on behalf of who asks: its price is paid, and it is the innermost under way; or the budget is spent.
///
/// # Errors
/// `NoMemory`, also where 2^32 loads led to it.
pub fn begin_load(
    alloc: Global,
    asker: &mut Asker,
    name: &[char],
    purpose: Purpose,
    budget: &mut u64,
) -> Result<Begun, VmFault>
    ensures begins { IfOk result (λ r. LoadBegins r name.now purpose asker.old budget.old asker.new budget.new) }
    ensures fault { IfErr result IsReadless }
{
    match begin(alloc, name, purpose, asker.loads.as_slice(), budget)? {
        Begun::Runs(job) => {
            push_load(alloc, asker, name, job.nested)?;
            Ok(Begun::Runs(job))
        }
        Begun::Spent => Ok(Begun::Spent),
    }
}

/// The innermost load is under way no more.
pub fn pop_load(asker: &mut Asker)
    ensures turn { asker.new.turn ≡ asker.old.turn }
    ensures interactive { asker.new.interactive ≡ asker.old.interactive }
    ensures callers { asker.new.callers ≡ asker.old.callers }
    ensures depth { asker.new.depth ≡ asker.old.depth }
    ensures loads { (before : List L) (l : L) → asker.old.loads.items ≡ before ++ l ∷ [] → asker.new.loads.items ≡ before }
{
    asker.loads.pop();
}

/// A load whose price cannot be paid.
pub fn unpaid() -> Answer
    ensures { result ≡ answers.Stopped (record { cause = causes.Spent; place = None }) }
{
    Answer::Stopped(Stop {
        cause: Cause::Spent,
        place: None,
    })
}

/// A load goes on until it asks for another load, has made its object, or ends.
///
/// # Errors
/// `NoMemory`, also where a live object has the name already, or a number of the program has no room; `Swap` where a read of the swap
/// file failed, or gave other bytes than were written.
pub fn step_load<W: Truthful>(
    live: &mut Live,
    swap: &mut W,
    asker: &Asker,
    job: &LoadJob,
    going: Going,
) -> Result<Step, VmFault>
    requires closed { IsClosed live.old }
    requires world { HasWorld (W.content swap.old) live.old }
    ensures leads { IfOk result (λ r. LeadsOn r job.now going asker.now.loads.items (W.content swap.old) live.old (W.content swap.new) live.new) }
    ensures made { IfOk result (MakesHome live.new.objects) }
    ensures closed { IsClosed live.new }
    ensures cells { live.new.cells ≡ live.old.cells }
    ensures home { KeepsVariables live.old.objects live.new.objects }
    ensures tells { Tells (W.content swap.new) (W.last swap.new) (W.read_faults swap.old) (W.read_faults swap.new) (W.write_faults swap.old) (W.write_faults swap.new)
        (W.is_truthful swap.old) (W.is_truthful swap.new) (W.is_honest swap.old) (W.is_honest swap.new) live.new (read_of result) }
{
    Ok(next(live, swap, job, going, asker.loads.as_slice())?)
}

/// A load takes what the load that it asked for answered: it goes on, or ends.
///
/// # Errors
/// `NoMemory`.
pub fn feed_load(
    job: &mut LoadJob,
    live: &Live,
    waiting: Waiting,
    answer: Answer,
) -> Result<Fed, VmFault>
    ensures takes { IfOk result (λ r. (told : Option Bytes) (turn : Turn) (budget : ℕ) → Takes r job.old waiting answer told live.now job.new turn budget) }
    ensures same { IsSameLoad job.old job.new }
    ensures reads { IfOk result GoesReading }
    ensures there { IfOk result (λ r. (cells : Store) → IsAnswerThere cells answer → EndsThere cells r) }
    ensures fault { IfErr result IsReadless }
{
    Ok(feed(job, live, waiting, answer)?)
}

/// How the job of a load's object ends is the answer of the load. Takes no memory.
pub fn answer_of(ending: Ending) -> Answer
    ensures answer { result ≡ answer_of ending }
    ensures there { (cells : Store) → IsEndingThere cells ending → IsAnswerThere cells result }
{
    match ending {
        Ending::Value(v) => Answer::Value(v),
        Ending::Stopped(stop) => Answer::Stopped(stop),
    }
}
