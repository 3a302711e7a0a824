//! Instructions one after another.
//!
//! A function of a sound program that runs is carried out until it asks or ends. What a step of the machine needs is
//! there each time, so that nothing is looked at twice.
#![tactic(auto)]

ghost use Rattle.std.specs.Prelude.{◌≤◌, IfOk, OnOk};
ghost use Rattle.lp_step.specs.Steps.{IsEndThere, IsFit, KeepsVariables};
ghost use Rattle.lp_run.specs.Kept.{MachineKeeps};
ghost use Rattle.lp_run.specs.Runs.{CanRun, IsLast, RunsTo, Went};

pub mod catches;
mod common;
mod items;
mod taking;

use crate::taking::take_many;
use lp_step::fault::StepFault;
use lp_step::next::Next;
use lp_step::step::step;
use lp_values::value::Value;
use lp_world::frame::Frame;
use lp_world::live::Live;

/// Carries out one instruction of a function that runs.
#[inline(always)]
fn go(
    live: &mut Live,
    stack: &mut Vec<Value>,
    frame: &mut Frame,
    budget: &mut u64,
) -> Result<Next, StepFault>
    requires { CanRun live.old stack.old.items frame.old budget.old }
    ensures went { IfOk result (λ n. Went live.old stack.old.items frame.old budget.old n live.new stack.new.items frame.new budget.new) }
    ensures home { OnOk result (KeepsVariables live.old.objects live.new.objects) }
    ensures there { IfOk result (λ n. IsEndThere live.new n) }
{
    step(live, stack, frame, budget)
}

/// Carries out instructions of a function that runs until it asks, ends, meets an error, or has spent the budget. Takes
/// memory only where an instruction does.
pub fn run(
    live: &mut Live,
    stack: &mut Vec<Value>,
    frame: &mut Frame,
    budget: &mut u64,
) -> Result<Next, StepFault>
    requires { CanRun live.old stack.old.items frame.old budget.old }
    ensures came { IfOk result (λ n. RunsTo live.old stack.old.items frame.old budget.old n live.new stack.new.items frame.new budget.new) }
    ensures last { IfOk result IsLast }
    ensures home { OnOk result (KeepsVariables live.old.objects live.new.objects) }
    ensures there { IfOk result (λ n. IsEndThere live.new n) }
    ensures spends { OnOk result (budget.new ≤ budget.old) }
    ensures fit { OnOk result (IsFit live.new stack.new.items) }
{
    'steps: loop {
        frame.at = take_many(live, stack, frame, budget)?;
        match go(live, stack, frame, budget)? {
            Next::Again => {}
            next => return Ok(next),
        }
    }
}

/// Law: no instruction loses anything of the world, or wins budget.
pub fn law_machine_keeps()
    ensures { MachineKeeps }
{}
