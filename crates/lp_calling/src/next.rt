//! What jobs do next.
ghost use Rattle.std.specs.Prelude.{◌≡◌, ◌≤◌, IfOk, OnOk, false, length, take};
ghost use Rattle.lp_cells.specs.Cells.{KeepsThere};
ghost use Rattle.lp_world.specs.Closed.{IsClosed};
ghost use Rattle.lp_step.specs.Steps.{IsFit, KeepsVariables};
ghost use Rattle.lp_calling.specs.Entering.{IsPoised, JobEnters};
ghost use Rattle.lp_calling.specs.Going.{Goes, IsAskedThere, IsStepThere, StageGoes, Waits};
ghost use Rattle.lp_calling.specs.Jobs.{IsJobOn, IsReady, IsStageOn, IsStageReady, needs_program, player_back, questions_left};

use crate::audience::ask_listener;
use crate::call::ask_call;
use crate::ends::{end_error, end_value, end_zero};
use crate::enter::enter;
use crate::feed::player_back;
use crate::items::step_items;
use crate::job::{Job, Stage, Step};
use crate::laying::cut;
use crate::leave::{ask_master, load_master};
use crate::load::ask_load;
use crate::messages::{step_tell, step_write};
use crate::moving::ask_moving;
use crate::search::ask_object;
use crate::wish::FileDeed;
use lp_efuns::caller::Turn;
use lp_instr::efun::Efun;
use lp_values::value::Value;
use lp_world::live::Live;
use std::alloc::AllocError;
use std::mem;

/// What is done at a stage that asks or ends as it stands.
fn go(
    efun: Efun,
    stage: &Stage,
    live: &mut Live,
    turn: &mut Turn,
    stack: &mut Vec<Value>,
    low: usize,
    budget: &mut u64,
) -> Result<Step, AllocError>
    requires on { IsStageOn stage.now low (length stack.old.items) }
    requires ready { IsStageReady live.old.objects stage.now }
    requires poised { IsPoised stage.now live.old turn.old }
    requires fit { IsFit live.old stack.old.items }
    ensures goes { IfOk result (λ r. StageGoes r efun stage.now low live.old turn.old stack.old.items budget.old live.new turn.new stack.new.items budget.new) }
    ensures closed { IsClosed live.new }
    ensures fit { OnOk result (IsFit live.new stack.new.items) }
    ensures there { IfOk result (IsStepThere live.new.cells) }
    ensures asked { IfOk result (IsAskedThere live.new.objects) }
    ensures stay { KeepsThere live.old.cells live.new.cells }
    ensures spends { budget.new ≤ budget.old }
    ensures objects { live.new.objects ≡ live.old.objects }
    ensures names { live.new.names ≡ live.old.names }
{
    match stage {
        Stage::Call(o, name) => ask_call(efun, *o, name, stack, low),
        Stage::Target(name, _) => ask_load(name),
        Stage::Load(name) => ask_load(name),
        Stage::Move(moving) => ask_moving(moving, live, turn, stack, low),
        Stage::Items(round) => step_items(efun, round, live, stack, low, budget),
        Stage::Tell(o, text) => step_tell(efun, *o, text, live, stack, low, budget),
        Stage::Write(text) => step_write(efun, text, live, turn, stack, low, budget),
        Stage::Say(_, _) => unreachable!(),
        Stage::TellEach(audience) => ask_listener(audience, live, stack, low),
        Stage::Seek(search) => ask_object(search, live, stack, low),
        Stage::MasterLoad(wish) => load_master(live.alloc, wish),
        Stage::Master(m, wish) => ask_master(live.alloc, efun, *m, wish, stack, low),
        Stage::File(_, _) => unreachable!(),
        Stage::Shadow(_, _) => unreachable!(),
        Stage::Value => Ok(end_value(efun, live, stack, low, budget)),
        Stage::Zero => Ok(end_zero(efun, live, stack, low, budget)),
        Stage::Error(kind) => end_error(live.alloc, stack, low, *kind),
    }
}

/// A job comes to where it asks or ends.
fn enter_job(
    job: &mut Job,
    live: &mut Live,
    turn: &mut Turn,
    stack: &mut Vec<Value>,
) -> Result<(), AllocError>
    requires plain { needs_program job.old ≡ false }
    requires on { IsJobOn job.old stack.old.items }
    requires ready { IsReady live.old.objects job.old }
    requires fit { IsFit live.old stack.old.items }
    ensures enters { OnOk result (JobEnters job.old live.old turn.old stack.old.items job.new live.new turn.new stack.new.items) }
    ensures poised { OnOk result (IsPoised job.new.stage live.new turn.new) }
    ensures on { OnOk result (IsJobOn job.new stack.new.items) }
    ensures ready { OnOk result (IsReady live.new.objects job.new) }
    ensures left { questions_left job.new ≤ questions_left job.old }
    ensures closed { IsClosed live.new }
    ensures fit { OnOk result (IsFit live.new stack.new.items) }
    ensures stay { KeepsThere live.old.cells live.new.cells }
    ensures variables { KeepsVariables live.old.objects live.new.objects }
    ensures names { live.new.names ≡ live.old.names }
{
    let stage = mem::replace(&mut job.stage, Stage::Zero);
    job.stage = enter(job.efun, stage, live, turn, stack, job.low)?;
    Ok(())
}

/// Whether the program of an object is to come into memory before a job goes on: it saves or restores the variables of the object then.
/// Such a job does not go on here. Takes no memory.
pub fn needs_program(job: &Job) -> bool
    ensures { result ≡ needs_program job.now }
{
    match &job.stage {
        Stage::File(FileDeed::Save(_), _) => true,
        Stage::File(FileDeed::Restore(_), _) => true,
        _ => false,
    }
}

/// A job goes on: it tells what it asks, with how many arguments on top of the stack, or how it ends. Then nothing is left of
/// it on the stack, and the price of its value is paid. Where that cannot be paid the budget is spent. Those whom it tells something by
/// their connections are told at once. `this_player()` may be another one while it asks.
///
/// # Errors
/// Where memory runs out, after which the state is closed; the job is of no use then.
pub fn next(
    job: &mut Job,
    live: &mut Live,
    turn: &mut Turn,
    stack: &mut Vec<Value>,
    budget: &mut u64,
) -> Result<Step, AllocError>
    requires plain { needs_program job.old ≡ false }
    requires on { IsJobOn job.old stack.old.items }
    requires ready { IsReady live.old.objects job.old }
    requires fit { IsFit live.old stack.old.items }
    ensures goes { IfOk result (λ r. Goes r job.old live.old turn.old stack.old.items budget.old job.new live.new turn.new stack.new.items budget.new) }
    ensures waits { IfOk result (λ r. Waits r job.new stack.new.items) }
    ensures left { questions_left job.new ≤ questions_left job.old }
    ensures closed { IsClosed live.new }
    ensures fit { OnOk result (IsFit live.new stack.new.items) }
    ensures there { IfOk result (IsStepThere live.new.cells) }
    ensures asked { IfOk result (IsAskedThere live.new.objects) }
    ensures stay { KeepsThere live.old.cells live.new.cells }
    ensures spends { budget.new ≤ budget.old }
    ensures variables { KeepsVariables live.old.objects live.new.objects }
    ensures names { live.new.names ≡ live.old.names }
{
    enter_job(job, live, turn, stack)?;
    go(job.efun, &job.stage, live, turn, stack, job.low, budget)
}

/// A job ends without an answer, as where its question was not answered with a value: nothing is left of it on the stack, and
/// `this_player()` is put back where it was another one for the question. Takes no memory.
pub fn stop(job: &Job, turn: &mut Turn, stack: &mut Vec<Value>)
    ensures items { stack.new.items ≡ take job.now.low stack.old.items }
    ensures back { turn.new ≡ record turn.old { player = player_back job.now.stage turn.old.player } }
    ensures fit { (live : _) → IsFit live stack.old.items → IsFit live stack.new.items }
{
    turn.player = player_back(&job.stage, turn.player);
    cut(stack, job.low);
}
