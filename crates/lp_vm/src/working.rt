//! Jobs of efuns go on by one question after another.
ghost use Rattle.std.specs.Prelude.{◌≡◌, IfErr, IfOk, IfSome, IsSome, OnOk};
ghost use Rattle.lp_calling.specs.declared.job.Question.TheVariants as questions;
ghost use Rattle.lp_calling.specs.Jobs.{IsAsking, IsJobOn, IsReady};
ghost use Rattle.lp_calling.specs.Questions.{object_of};
ghost use Rattle.lp_step.specs.Steps.{IsFit, KeepsVariables};
ghost use Rattle.lp_world.specs.Closed.{IsClosed};
ghost use Rattle.lp_world.specs.Rows.{row_at};
ghost use Rattle.lp_asking.specs.Endings.{IsEndingThere};
ghost use Rattle.lp_loading.specs.Going.{IsAnswerThere};
ghost use Rattle.lp_vm.specs.declared.fault.VmFault.TheVariants.{NoMemory};
ghost use Rattle.lp_vm.specs.Causes.{Tells, read_of};
ghost use Rattle.lp_vm.specs.Jobs.{AsksFor, FedOn, Feeds, IsStepThere, StepsTo, asker_back};
ghost use Rattle.lp_vm.specs.Loaded.{loaded_ending};
ghost use Rattle.lp_vm.specs.Working.{CanReach, CanWork};

use crate::asking::{reach_applied, reach_other};
use crate::efuns::ending_of;
use crate::fault::VmFault;
use crate::keeping::keep_job;
use crate::loaded::loaded_ending;
use lp_asking::asker::Asker;
use lp_asking::ending::{Ending, Place};
use lp_asking::truth::Truthful;
use lp_calling::feed::feed;
use lp_calling::job::{Applied, Job, Question, Step};
use lp_calling::next::{needs_program, next, stop};
use lp_loading::job::Answer;
use lp_reaching::reached::Reached;
use lp_values::id::ObjId;
use lp_values::text::Text;
use lp_values::value::Value;
use lp_world::live::Live;
use std::alloc::Global;

/// How far a job came.
#[derive(Drop)]
pub enum Stepped {
    /// It ended.
    Ended(Ending),
    /// It asks what reaches this, with so many arguments on top of the stack.
    Asks(Option<Reached>, u32),
    /// It asks for a load by this name.
    Loads(Text),
}

/// A count of arguments as the machine has it.
///
/// # Errors
/// `NoMemory` where there are too many.
fn count_of(n: usize) -> Result<u32, VmFault>
    ensures count { IfOk result (λ k. k ≡ n) }
    ensures fault { IfErr result (λ f. f ≡ NoMemory) }
{
    match u32::try_from(n) {
        Ok(k) => Ok(k),
        Err(_) => Err(VmFault::NoMemory),
    }
}

/// A question for a function of another object, with so many arguments.
fn ask_other<W: Truthful>(
    live: &mut Live,
    swap: &mut W,
    this: ObjId,
    ob: ObjId,
    name: &Text,
    args: u32,
) -> Result<Stepped, VmFault>
    requires closed { IsClosed live.old }
    requires object { IsSome (row_at live.old.objects ob.0) }
    requires can { CanReach this (questions.Other ob name.now) (W.content swap.old) live.old }
    ensures asks { IfOk result (λ r. AsksFor r this (questions.Other ob name.now) args (W.content swap.old) live.old (W.content swap.new) live.new) }
    ensures there { IfOk result (IsStepThere live.new) }
    ensures closed { IsClosed live.new }
    ensures home { KeepsVariables live.old.objects live.new.objects }
    ensures cells { live.new.cells ≡ live.old.cells }
    ensures outputs { live.new.outputs ≡ live.old.outputs }
    ensures tells { Tells (W.content swap.new) (W.last swap.new) (W.read_faults swap.old) (W.read_faults swap.new) (W.write_faults swap.old) (W.write_faults swap.new)
        (W.is_truthful swap.old) (W.is_truthful swap.new) (W.is_honest swap.old) (W.is_honest swap.new) live.new (read_of result) }
{
    let reached = reach_other(live, swap, this, ob, name)?;
    Ok(Stepped::Asks(reached, args))
}

/// A question for a function of an object as it is applied, with so many arguments.
fn ask_applied<W: Truthful>(
    live: &mut Live,
    swap: &mut W,
    this: ObjId,
    ob: ObjId,
    applied: Applied,
    args: u32,
) -> Result<Stepped, VmFault>
    requires closed { IsClosed live.old }
    requires object { IsSome (row_at live.old.objects ob.0) }
    requires can { CanReach this (questions.Apply ob applied) (W.content swap.old) live.old }
    ensures asks { IfOk result (λ r. AsksFor r this (questions.Apply ob applied) args (W.content swap.old) live.old (W.content swap.new) live.new) }
    ensures there { IfOk result (IsStepThere live.new) }
    ensures closed { IsClosed live.new }
    ensures home { KeepsVariables live.old.objects live.new.objects }
    ensures cells { live.new.cells ≡ live.old.cells }
    ensures outputs { live.new.outputs ≡ live.old.outputs }
    ensures tells { Tells (W.content swap.new) (W.last swap.new) (W.read_faults swap.old) (W.read_faults swap.new) (W.write_faults swap.old) (W.write_faults swap.new)
        (W.is_truthful swap.old) (W.is_truthful swap.new) (W.is_honest swap.old) (W.is_honest swap.new) live.new (read_of result) }
{
    let reached = reach_applied(live, swap, this, ob, applied)?;
    Ok(Stepped::Asks(reached, args))
}

/// What a question of a job asks for, with so many arguments: what reaches a function, or a load. A function of this object called
/// the job's efun. What is needed for a function comes into memory.
///
/// # Errors
/// `NoMemory` and `Swap` as where a running function asks.
fn ask<W: Truthful>(
    live: &mut Live,
    swap: &mut W,
    this: ObjId,
    question: Question,
    args: u32,
) -> Result<Stepped, VmFault>
    requires closed { IsClosed live.old }
    requires object { IfSome (object_of question) (λ o. IsSome (row_at live.old.objects o.0)) }
    requires can { CanReach this question (W.content swap.old) live.old }
    ensures asks { IfOk result (λ r. AsksFor r this question args (W.content swap.old) live.old (W.content swap.new) live.new) }
    ensures there { IfOk result (IsStepThere live.new) }
    ensures closed { IsClosed live.new }
    ensures home { KeepsVariables live.old.objects live.new.objects }
    ensures cells { live.new.cells ≡ live.old.cells }
    ensures outputs { live.new.outputs ≡ live.old.outputs }
    ensures tells { Tells (W.content swap.new) (W.last swap.new) (W.read_faults swap.old) (W.read_faults swap.new) (W.write_faults swap.old) (W.write_faults swap.new)
        (W.is_truthful swap.old) (W.is_truthful swap.new) (W.is_honest swap.old) (W.is_honest swap.new) live.new (read_of result) }
{
    match question {
        Question::Other(ob, name) => ask_other(live, swap, this, ob, &name, args),
        Question::Apply(ob, applied) => ask_applied(live, swap, this, ob, applied, args),
        Question::Load(name) => Ok(Stepped::Loads(name)),
    }
}

/// A job goes on until it asks or ends. The function at this place called its efun. `this_player()` may be another one while it
/// asks. For one that saves or restores the variables of its object that comes into memory, with its program.
///
/// # Errors
/// `NoMemory`, and `Swap` as that of what it asks, or of what comes into memory.
pub fn step_job<W: Truthful>(
    live: &mut Live,
    swap: &mut W,
    stack: &mut Vec<Value>,
    asker: &mut Asker,
    at: Place,
    job: &mut Job,
    budget: &mut u64,
) -> Result<Stepped, VmFault>
    requires on { IsJobOn job.old stack.old.items }
    requires ready { IsReady live.old.objects job.old }
    requires fit { IsFit live.old stack.old.items }
    requires can { CanWork at job.old (W.content swap.old) live.old stack.old.items asker.old budget.old }
    ensures steps { IfOk result (λ r. StepsTo r at job.old (W.content swap.old) live.old stack.old.items asker.old budget.old job.new (W.content swap.new) live.new stack.new.items asker.new budget.new) }
    ensures tells { Tells (W.content swap.new) (W.last swap.new) (W.read_faults swap.old) (W.read_faults swap.new) (W.write_faults swap.old) (W.write_faults swap.new)
        (W.is_truthful swap.old) (W.is_truthful swap.new) (W.is_honest swap.old) (W.is_honest swap.new) live.new (read_of result) }
{
    if needs_program(job) {
        let ending = keep_job(job, live, swap, stack, asker, at, budget)?;
        return Ok(Stepped::Ended(ending));
    }
    match next(job, live, &mut asker.turn, stack, budget)? {
        Step::Ends(answer) => Ok(Stepped::Ended(ending_of(answer))),
        Step::Asks(question, n) => {
            let args = count_of(n)?;
            ask(live, swap, at.this, question, args)
        }
    }
}

/// A job goes on with what it was answered, whose arguments are gone: it takes the value; or it ends with the stop, and nothing
/// is left of it on the stack. Where `this_player()` was another one for the question it is put back.
///
/// # Errors
/// `NoMemory`.
pub fn feed_back(
    job: &mut Job,
    live: &Live,
    stack: &mut Vec<Value>,
    asker: &mut Asker,
    ending: Ending,
) -> Result<Option<Ending>, VmFault>
    requires on { IsJobOn job.old stack.old.items }
    requires asking { IsAsking job.old }
    requires fit { IsFit live.now stack.old.items }
    requires there { IsEndingThere live.now.cells ending }
    ensures feeds { IfOk result (λ r. Feeds r ending job.old live.now stack.old.items job.new stack.new.items) }
    ensures back { asker.new ≡ asker_back job.old asker.old }
    ensures on { IfOk result (λ r. FedOn r job.old job.new live.now stack.new.items) }
    ensures fit { OnOk result (IsFit live.now stack.new.items) }
    ensures same { IfOk result (λ r. IfSome r (λ e. e ≡ ending)) }
    ensures fault { IfErr result (λ f. f ≡ NoMemory) }
{
    match ending {
        Ending::Value(v) => {
            feed(job, live, &mut asker.turn, stack, v)?;
            Ok(None)
        }
        Ending::Stopped(s) => {
            stop(job, &mut asker.turn, stack);
            Ok(Some(Ending::Stopped(s)))
        }
    }
}

/// A job goes on with how its load by this name ended: faults of the file are an error of its efun.
///
/// # Errors
/// `NoMemory`.
pub fn feed_loaded(
    alloc: Global,
    job: &mut Job,
    live: &Live,
    stack: &mut Vec<Value>,
    asker: &mut Asker,
    name: Text,
    answer: Answer,
) -> Result<Option<Ending>, VmFault>
    requires on { IsJobOn job.old stack.old.items }
    requires asking { IsAsking job.old }
    requires fit { IsFit live.now stack.old.items }
    requires there { IsAnswerThere live.now.cells answer }
    ensures feeds { IfOk result (λ r. Feeds r (loaded_ending name answer) job.old live.now stack.old.items job.new stack.new.items) }
    ensures back { OnOk result (asker.new ≡ asker_back job.old asker.old) }
    ensures on { IfOk result (λ r. FedOn r job.old job.new live.now stack.new.items) }
    ensures fit { OnOk result (IsFit live.now stack.new.items) }
    ensures there { IfOk result (λ r. IfSome r (IsEndingThere live.now.cells)) }
    ensures fault { IfErr result (λ f. f ≡ NoMemory) }
{
    let ending = loaded_ending(alloc, &name, answer)?;
    feed_back(job, live, stack, asker, ending)
}
