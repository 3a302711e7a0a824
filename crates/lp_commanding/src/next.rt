//! What commands do next.
ghost use Rattle.std.specs.Prelude.{◌≡◌, ◌≤◌, ◌++◌, ◌∷◌, [], IfOk, OnOk, false};
ghost use Rattle.lp_meaning.specs.MovesAndCommands.{argument_value};
ghost use Rattle.lp_world.specs.Closed.{IsClosed};
ghost use Rattle.lp_step.specs.Steps.{IsFit, KeepsVariables};
ghost use Rattle.lp_commanding.specs.Going.{Goes, IsAskedThere, IsStepThere};
ghost use Rattle.lp_commanding.specs.Jobs.{questions_left};
ghost use Rattle.lp_commanding.specs.Trying.{IsNext};
ghost use Rattle.lp_commanding.specs.declared.job.Step.{Step as S};

use crate::job::{Commanding, Question, Step};
use crate::telling::{end_zero, tell_holder};
use crate::trying::{argument_value, question_of, skip};
use lp_efuns::caller::Turn;
use lp_values::text::Text;
use lp_values::value::Value;
use lp_world::live::Live;
use std::alloc::AllocError;

/// A question is asked with the argument of the line on top.
fn ask(
    question: Question,
    argument: &Option<Text>,
    stack: &mut Vec<Value>,
) -> Result<Step, AllocError>
    ensures asks { IfOk result (λ r. (r ≡ S.Asks question) × (stack.new.items ≡ stack.old.items ++ argument_value argument.now ∷ [])) }
{
    stack.push(argument_value(argument)?)?;
    Ok(Step::Asks(question))
}

/// The next action is asked, or the object is told that there is none.
fn ask_or_tell(
    job: &mut Commanding,
    live: &mut Live,
    turn: &mut Turn,
    stack: &mut Vec<Value>,
) -> Result<Step, AllocError>
    requires fit { IsFit live.old stack.old.items }
    requires untold { job.old.is_told ≡ false }
    requires next { IsNext live.old job.old.holder job.old.left.items }
    ensures goes { IfOk result (λ r. Goes r job.old live.old turn.old stack.old.items job.new live.new turn.new stack.new.items) }
    ensures left { job.new.left.items ≡ job.old.left.items }
    ensures fit { OnOk result (IsFit live.new stack.new.items) }
    ensures closed { IsClosed live.new }
    ensures there { IfOk result (IsStepThere live.new.cells) }
    ensures asked { IfOk result (IsAskedThere live.new.objects) }
    ensures same { live.new ≡ record live.old { outputs = live.new.outputs } }
{
    match question_of(job.left.as_slice())? {
        Some(question) => ask(question, &job.argument, stack),
        None => tell_holder(job, live, turn, stack),
    }
}

/// A command goes on that has not told its object that no action did it.
fn go(
    job: &mut Commanding,
    live: &mut Live,
    turn: &mut Turn,
    stack: &mut Vec<Value>,
) -> Result<Step, AllocError>
    requires fit { IsFit live.old stack.old.items }
    requires untold { job.old.is_told ≡ false }
    ensures goes { IfOk result (λ r. Goes r job.old live.old turn.old stack.old.items job.new live.new turn.new stack.new.items) }
    ensures left { questions_left job.new ≤ questions_left job.old }
    ensures fit { OnOk result (IsFit live.new stack.new.items) }
    ensures closed { IsClosed live.new }
    ensures there { IfOk result (IsStepThere live.new.cells) }
    ensures asked { IfOk result (IsAskedThere live.new.objects) }
    ensures same { live.new ≡ record live.old { outputs = live.new.outputs } }
{
    skip(live, job.holder, &mut job.left);
    ask_or_tell(job, live, turn, stack)
}

/// A command goes on: it asks for the function of its next action that is still held and whose giver is live, with the argument of the
/// line, or 0, on top of the stack. Where there is none, the object is told so with the text that the innermost command shows: by its
/// connection, or else it is asked for `catch_tell` with the text; one that was destructed gets none. Then the answer is 0, and the
/// command runs no longer. Costs the actions that it passes, each by the logarithm of all.
///
/// # Errors
/// Where memory runs out, after which the state is closed.
pub fn next(
    job: &mut Commanding,
    live: &mut Live,
    turn: &mut Turn,
    stack: &mut Vec<Value>,
) -> Result<Step, AllocError>
    requires fit { IsFit live.old stack.old.items }
    ensures goes { IfOk result (λ r. Goes r job.old live.old turn.old stack.old.items job.new live.new turn.new stack.new.items) }
    ensures left { questions_left job.new ≤ questions_left job.old }
    ensures fit { OnOk result (IsFit live.new stack.new.items) }
    ensures closed { IsClosed live.new }
    ensures there { IfOk result (IsStepThere live.new.cells) }
    ensures asked { IfOk result (IsAskedThere live.new.objects) }
    ensures same { live.new ≡ record live.old { outputs = live.new.outputs } }
    ensures variables { KeepsVariables live.old.objects live.new.objects }
    ensures objects { live.new.objects ≡ live.old.objects }
    ensures cells { live.new.cells ≡ live.old.cells }
    ensures names { live.new.names ≡ live.old.names }
{
    if job.is_told {
        return Ok(end_zero(turn));
    }
    go(job, live, turn, stack)
}
