//! Jobs that save or restore the variables of their object end, for which the object and its program come into memory.
ghost use Rattle.std.specs.Prelude.{◌≡◌, ◌≤◌, IfOk, OnOk, true};
ghost use Rattle.lp_calling.specs.Jobs.{IsJobOn, needs_program};
ghost use Rattle.lp_efuns.specs.Plain.{IsAnswerThere};
ghost use Rattle.lp_saving.specs.Saving.{Keeps, Reads};
ghost use Rattle.lp_step.specs.Steps.{IsFit, KeepsVariables};
ghost use Rattle.lp_vm.specs.Causes.{Tells, read_of};
ghost use Rattle.lp_vm.specs.Cycle.{Works};
ghost use Rattle.lp_vm.specs.Working.{CanWork};

use crate::efuns::ending_of;
use crate::fault::VmFault;
use lp_asking::asker::Asker;
use lp_asking::ending::{Ending, Place};
use lp_asking::truth::Truthful;
use lp_calling::job::Job;
use lp_efuns::answer::Answer;
use lp_residence::answers::EnterFault;
use lp_saving::keeping::keep;
use lp_values::value::Value;
use lp_world::live::Live;

/// How such a job ends, where the device tells the truth.
fn kept<W: Truthful>(
    job: &Job,
    live: &mut Live,
    swap: &mut W,
    stack: &mut Vec<Value>,
    budget: &mut u64,
) -> Result<Answer, EnterFault>
    requires needs { needs_program job.now ≡ true }
    requires on { IsJobOn job.now stack.old.items }
    requires fit { IsFit live.old stack.old.items }
    ensures reads { Reads (W.content swap.old) (W.content swap.new) (W.last swap.new) (W.read_faults swap.old) (W.read_faults swap.new) (W.write_faults swap.old) (W.write_faults swap.new)
        (W.is_truthful swap.old) (W.is_truthful swap.new) (W.is_honest swap.old) (W.is_honest swap.new) live.old live.new result }
    ensures keeps { IfOk result (λ a. Keeps a job.now (W.content swap.old) live.old stack.old.items budget.old live.new stack.new.items budget.new) }
    ensures fit { OnOk result (IsFit live.new stack.new.items) }
    ensures there { IfOk result (IsAnswerThere live.new.cells) }
    ensures variables { KeepsVariables live.old.objects live.new.objects }
    ensures spends { OnOk result (budget.new ≤ budget.old) }
{
    match keep(job, live, swap, stack, budget) {
        Ok(a) => {
            if swap.tells_truth() {
                Ok(a)
            } else {
                Err(EnterFault::NoMemory)
            }
        }
        Err(e) => Err(e),
    }
}

/// A job that saves or restores the variables of its object ends. The function at this place called its efun.
///
/// # Errors
/// `Swap` where the read of the object or of its program failed, or gave other bytes than were written; it is out still.
/// `NoMemory`, also where the device did not tell the truth.
pub fn keep_job<W: Truthful>(
    job: &Job,
    live: &mut Live,
    swap: &mut W,
    stack: &mut Vec<Value>,
    asker: &Asker,
    at: Place,
    budget: &mut u64,
) -> Result<Ending, VmFault>
    requires needs { needs_program job.now ≡ true }
    requires on { IsJobOn job.now stack.old.items }
    requires fit { IsFit live.old stack.old.items }
    requires can { CanWork at job.now (W.content swap.old) live.old stack.old.items asker.now budget.old }
    ensures works { IfOk result (λ e. Works at job.now (W.content swap.old) live.old stack.old.items asker.now budget.old (W.content swap.new) live.new stack.new.items asker.now budget.new e) }
    ensures tells { Tells (W.content swap.new) (W.last swap.new) (W.read_faults swap.old) (W.read_faults swap.new) (W.write_faults swap.old) (W.write_faults swap.new)
        (W.is_truthful swap.old) (W.is_truthful swap.new) (W.is_honest swap.old) (W.is_honest swap.new) live.new (read_of result) }
{
    let answer = kept(job, live, swap, stack, budget)?;
    Ok(ending_of(answer))
}
