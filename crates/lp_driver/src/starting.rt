//! The start goes on to its end.
ghost use Rattle.std.specs.Prelude.{◌≡◌, [], All, IfOk, IsTrue, OnOk, nat_eq};
ghost use Rattle.lp_cells.specs.Cells.{IsThere};
ghost use Rattle.lp_meaning.specs.EventTurns.{starting};
ghost use Rattle.lp_world.specs.Closed.{IsClosed};
ghost use Rattle.lp_turn.specs.Calls.{IsAskedThere, IsCallEndThere};
ghost use Rattle.lp_turn.specs.Left.{AsksLess, LeavesNoMore, stages_behind, texts_behind};
ghost use Rattle.lp_turn.specs.Starting.{AreStartValuesThere, IsStartThere, StartTakes};
ghost use Rattle.lp_vm.specs.Causes.{Tells, read_of};
ghost use Rattle.lp_driver.specs.Carrying.{RestsForOne};
ghost use Rattle.lp_driver.specs.Knowing.{KnowsFor};
ghost use Rattle.lp_driver.specs.Starting.{IsLastStep, IsStartAskedThere, StartConcludes, StartContinues, StartEnds, StartGoesOn, StartSteps, asking_start};

use crate::carrying::carry;
use crate::knowing::knows_all;
use lp_asking::truth::Truthful;
use lp_front_end::law_there_is_one;
use lp_meaning::outcomes_can_be;
use lp_tree::fault::Fault;
use lp_turn::job::{Call, CallEnd};
use lp_turn::start_feed::take_end;
use lp_turn::start_job::{StartFunction, StartGoing, StartStep, StartWaiting};
use lp_turn::starting::{go_on, start};
use lp_values::value::Value;
use lp_vm::fault::VmFault;
use lp_world::live::Live;

/// How the start ends.
#[derive(Drop)]
pub enum Started {
    /// The driver has started.
    Begins,
    /// There is no master, for these faults.
    NoMaster(Vec<Fault>),
}

/// Where the first load of the master has ended, whether all objects are known by their names still.
fn knows_for(live: &Live, waiting: &StartWaiting) -> bool
    ensures { IsTrue result → KnowsFor waiting.now live.now }
{
    match waiting {
        StartWaiting::First => knows_all(live),
        StartWaiting::Load(_) => true,
        StartWaiting::Master(_) => true,
        StartWaiting::Simul(_) => true,
    }
}

/// The start is told how its call ended.
///
/// # Errors
/// `NoMemory`, also where the swap file gave other bytes of the same digest; `Swap` where it failed or gave bytes of another
/// digest.
fn tell_start<W: Truthful>(
    live: &mut Live,
    swap: &mut W,
    waiting: StartWaiting,
    end: CallEnd,
) -> Result<StartGoing, VmFault>
    requires closed { IsClosed live.old }
    requires rests { RestsForOne (W.content swap.old) live.old }
    requires knows { KnowsFor waiting live.old }
    requires there { IsCallEndThere live.old.cells end }
    ensures takes { IfOk result (λ g. StartTakes waiting end (W.content swap.old) live.old (W.content swap.new) live.new g) }
    ensures no_more { IfOk result (λ g. LeavesNoMore g waiting) }
    ensures there { IfOk result (λ g. IsStartThere live.new.cells g) }
    ensures closed { OnOk result (IsClosed live.new) }
    ensures tells { Tells (W.content swap.new) (W.last swap.new) (W.read_faults swap.old) (W.read_faults swap.new) (W.write_faults swap.old) (W.write_faults swap.new)
        (W.is_truthful swap.old) (W.is_truthful swap.new) (W.is_honest swap.old) (W.is_honest swap.new) live.new (read_of result) }
{
    let going = take_end(waiting, end, live, swap)?;
    if !swap.tells_truth() {
        return Err(VmFault::NoMemory);
    }
    Ok(going)
}

/// A call that the start asks for is carried out, and the start is told how it ended.
///
/// # Errors
/// As where a call is carried out; `NoMemory` also where after the first load of the master an object is known no longer, which no
/// call brings about.
fn ask<W: Truthful>(
    live: &mut Live,
    swap: &mut W,
    stack: &mut Vec<Value>,
    call: Call,
    waiting: StartWaiting,
) -> Result<StartGoing, VmFault>
    requires closed { IsClosed live.old }
    requires empty { stack.old.items ≡ [] }
    requires rests { RestsForOne (W.content swap.old) live.old }
    requires object { IsAskedThere live.old.objects call.asked }
    requires values { All (IsThere live.old.cells) call.arguments.items }
    ensures goes { IfOk result (λ g. StartGoesOn (asking_start call waiting) (W.content swap.old) live.old (W.content swap.new) live.new g) }
    ensures no_more { IfOk result (λ g. LeavesNoMore g waiting) }
    ensures there { IfOk result (λ g. IsStartThere live.new.cells g) }
    ensures closed { OnOk result (IsClosed live.new) }
    ensures empty { OnOk result (stack.new.items ≡ []) }
    ensures rests { OnOk result (RestsForOne (W.content swap.new) live.new) }
    ensures tells { Tells (W.content swap.new) (W.last swap.new) (W.read_faults swap.old) (W.read_faults swap.new) (W.write_faults swap.old) (W.write_faults swap.new)
        (W.is_truthful swap.old) (W.is_truthful swap.new) (W.is_honest swap.old) (W.is_honest swap.new) live.new (read_of result) }
{
    law_there_is_one();
    outcomes_can_be();
    let end = carry(live, swap, stack, call)?;
    if !knows_for(live, &waiting) {
        return Err(VmFault::NoMemory);
    }
    tell_start(live, swap, waiting, end)
}

/// A call is carried out, and the start goes on to its next step.
///
/// # Errors
/// As where a call of the start is carried out.
fn ask_on<W: Truthful>(
    live: &mut Live,
    swap: &mut W,
    stack: &mut Vec<Value>,
    call: Call,
    waiting: StartWaiting,
) -> Result<StartStep, VmFault>
    requires closed { IsClosed live.old }
    requires empty { stack.old.items ≡ [] }
    requires rests { RestsForOne (W.content swap.old) live.old }
    requires object { IsAskedThere live.old.objects call.asked }
    requires values { All (IsThere live.old.cells) call.arguments.items }
    ensures steps { IfOk result (λ r. StartSteps (asking_start call waiting) (W.content swap.old) live.old (W.content swap.new) live.new r) }
    ensures less { IfOk result (λ r. AsksLess r (stages_behind waiting) (texts_behind waiting)) }
    ensures object { IfOk result (λ r. IsStartAskedThere live.new.objects r) }
    ensures values { IfOk result (λ r. AreStartValuesThere live.new.cells r) }
    ensures closed { OnOk result (IsClosed live.new) }
    ensures empty { OnOk result (stack.new.items ≡ []) }
    ensures rests { OnOk result (RestsForOne (W.content swap.new) live.new) }
    ensures tells { Tells (W.content swap.new) (W.last swap.new) (W.read_faults swap.old) (W.read_faults swap.new) (W.write_faults swap.old) (W.write_faults swap.new)
        (W.is_truthful swap.old) (W.is_truthful swap.new) (W.is_honest swap.old) (W.is_honest swap.new) live.new (read_of result) }
{
    let going = ask(live, swap, stack, call, waiting)?;
    Ok(go_on(going, live)?)
}

/// Whether the start waits in its last stage, where texts are preloaded.
fn is_last(waiting: &StartWaiting) -> bool
    ensures { result ≡ nat_eq (stages_behind waiting.now) 0 }
{
    match waiting {
        StartWaiting::First => false,
        StartWaiting::Load(StartFunction::Preload(_, _)) => true,
        StartWaiting::Load(_) => false,
        StartWaiting::Master(StartFunction::Preload(_, _)) => true,
        StartWaiting::Master(_) => false,
        StartWaiting::Simul(_) => false,
    }
}

/// The start goes on to its last stage, where texts are preloaded, or to its end.
///
/// # Errors
/// As where a call of the start is carried out.
fn run_stages<W: Truthful>(
    live: &mut Live,
    swap: &mut W,
    stack: &mut Vec<Value>,
    step: StartStep,
) -> Result<StartStep, VmFault>
    requires closed { IsClosed live.old }
    requires empty { stack.old.items ≡ [] }
    requires rests { RestsForOne (W.content swap.old) live.old }
    requires object { IsStartAskedThere live.old.objects step }
    requires values { AreStartValuesThere live.old.cells step }
    ensures steps { IfOk result (λ r. StartContinues step (W.content swap.old) live.old (W.content swap.new) live.new r) }
    ensures last { IfOk result (λ r. IsLastStep r) }
    ensures object { IfOk result (λ r. IsStartAskedThere live.new.objects r) }
    ensures values { IfOk result (λ r. AreStartValuesThere live.new.cells r) }
    ensures closed { OnOk result (IsClosed live.new) }
    ensures empty { OnOk result (stack.new.items ≡ []) }
    ensures rests { OnOk result (RestsForOne (W.content swap.new) live.new) }
    ensures tells { Tells (W.content swap.new) (W.last swap.new) (W.read_faults swap.old) (W.read_faults swap.new) (W.write_faults swap.old) (W.write_faults swap.new)
        (W.is_truthful swap.old) (W.is_truthful swap.new) (W.is_honest swap.old) (W.is_honest swap.new) live.new (read_of result) }
{
    match step {
        StartStep::Asks(call, waiting) => {
            if is_last(&waiting) {
                return Ok(StartStep::Asks(call, waiting));
            }
            let more = ask_on(live, swap, stack, call, waiting)?;
            run_stages(live, swap, stack, more)
        }
        StartStep::Begins => Ok(StartStep::Begins),
        StartStep::NoMaster(faults) => Ok(StartStep::NoMaster(faults)),
    }
}

/// Texts are preloaded, one after another, to the end of the start.
///
/// # Errors
/// As where a call of the start is carried out.
fn run_texts<W: Truthful>(
    live: &mut Live,
    swap: &mut W,
    stack: &mut Vec<Value>,
    mut step: StartStep,
) -> Result<Started, VmFault>
    requires closed { IsClosed live.old }
    requires empty { stack.old.items ≡ [] }
    requires rests { RestsForOne (W.content swap.old) live.old }
    requires last { IsLastStep step }
    requires object { IsStartAskedThere live.old.objects step }
    requires values { AreStartValuesThere live.old.cells step }
    ensures ends { IfOk result (λ r. StartConcludes step (W.content swap.old) live.old (W.content swap.new) live.new r) }
    ensures closed { OnOk result (IsClosed live.new) }
    ensures empty { OnOk result (stack.new.items ≡ []) }
    ensures tells { Tells (W.content swap.new) (W.last swap.new) (W.read_faults swap.old) (W.read_faults swap.new) (W.write_faults swap.old) (W.write_faults swap.new)
        (W.is_truthful swap.old) (W.is_truthful swap.new) (W.is_honest swap.old) (W.is_honest swap.new) live.new (read_of result) }
{
    'texts: loop {
        match step {
            StartStep::Asks(call, waiting) => {
                let more = ask_on(live, swap, stack, call, waiting)?;
                step = more;
            }
            StartStep::Begins => return Ok(Started::Begins),
            StartStep::NoMaster(faults) => return Ok(Started::NoMaster(faults)),
        }
    }
}

/// The start goes on to its end: the driver has started, or there is no master.
///
/// # Errors
/// As where a call of the start is carried out.
pub(crate) fn run_start<W: Truthful>(
    live: &mut Live,
    swap: &mut W,
    stack: &mut Vec<Value>,
) -> Result<Started, VmFault>
    requires closed { IsClosed live.old }
    requires empty { stack.old.items ≡ [] }
    requires rests { RestsForOne (W.content swap.old) live.old }
    ensures ends { IfOk result (λ r. StartEnds starting (W.content swap.old) live.old (W.content swap.new) live.new r) }
    ensures closed { OnOk result (IsClosed live.new) }
    ensures empty { OnOk result (stack.new.items ≡ []) }
    ensures tells { Tells (W.content swap.new) (W.last swap.new) (W.read_faults swap.old) (W.read_faults swap.new) (W.write_faults swap.old) (W.write_faults swap.new)
        (W.is_truthful swap.old) (W.is_truthful swap.new) (W.is_honest swap.old) (W.is_honest swap.new) live.new (read_of result) }
{
    let first = start(live)?;
    let last = run_stages(live, swap, stack, first)?;
    run_texts(live, swap, stack, last)
}
