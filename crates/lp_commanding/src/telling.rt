//! An object is told that no action did its command.
ghost use Rattle.std.specs.Prelude.{◌≡◌, ◌++◌, ◌∷◌, [], IfOk, List, OnOk, Option, codes, false, pos, true, unwrap_or};
ghost use Rattle.lp_cells.specs.Cells.{Store};
ghost use Rattle.lp_events.specs.declared.out.Out.TheVariants as outs;
ghost use Rattle.lp_world.specs.declared.objects.Object.{Object};
ghost use Rattle.lp_step.specs.Steps.{IsFit};
ghost use Rattle.lp_meaning.specs.MovesAndCommands.{fail_text};
ghost use Rattle.lp_world.specs.Closed.{IsClosed};
ghost use Rattle.lp_world.specs.Rows.{live_in};
ghost use Rattle.lp_efuns.specs.Turns.{commands_of};
ghost use Rattle.lp_commanding.specs.Going.{Goes, IsAskedThere, IsPopped, IsStepThere};
ghost use Rattle.lp_commanding.specs.Jobs.{actions_left};
ghost use Rattle.lp_commanding.specs.declared.job.Question.{Question as Q};
ghost use Rattle.lp_commanding.specs.declared.job.Step.{Step as S};
ghost use Rattle.lp_values.specs.declared.value.Value.{Value as V};

use crate::feed::pop_command;
use crate::job::{Commanding, Question, Step};
use lp_efuns::caller::{Command, Turn};
use lp_events::out::Out;
use lp_values::text::Text;
use lp_values::value::{Living, Value};
use lp_world::live::Live;
use std::alloc::{AllocError, Global};

/// The text that is shown where none was given.
fn what(alloc: Global) -> Result<Text, AllocError>
    ensures { IfOk result (λ t. t ≡ codes "What?\n") }
{
    Text::from_str(alloc, "What?\n")
}

/// The text that a command shows where no action did it.
fn shown(alloc: Global, command: &Command) -> Result<Text, AllocError>
    ensures { IfOk result (λ t. t ≡ unwrap_or command.now.fail (codes "What?\n")) }
{
    match &command.fail {
        Some(text) => text.copy(),
        None => what(alloc),
    }
}

/// The text that is shown where no action did the innermost command.
fn fail_text(alloc: Global, turn: &Turn) -> Result<Text, AllocError>
    ensures { IfOk result (λ t. t ≡ fail_text (commands_of turn.now.commands.items)) }
{
    match turn.commands.as_slice().last() {
        Some(command) => shown(alloc, command),
        None => what(alloc),
    }
}

/// One more output.
fn put_out(live: &mut Live, out: Out) -> Result<(), AllocError>
    requires closed { IsClosed live.old }
    ensures out { OnOk result (live.new ≡ record live.old { outputs = live.old.outputs ++ out ∷ [] }) }
    ensures closed { IsClosed live.new }
    ensures same { live.new ≡ record live.old { outputs = live.new.outputs } }
{
    live.outputs.push(out)
}

/// A command ends with 0, and runs no longer.
pub(crate) fn end_zero(turn: &mut Turn) -> Step
    ensures ends { result ≡ S.Ends (V.Int (pos 0)) }
    ensures popped { IsPopped turn.old turn.new }
    ensures there { (cells : Store) → IsStepThere cells result }
    ensures asked { (objects : List (Option Object)) → IsAskedThere objects result }
{
    pop_command(turn);
    Step::Ends(Value::Int(0))
}

/// An object is asked for `catch_tell`, with a text on top.
fn ask_tell(job: &mut Commanding, text: Text, stack: &mut Vec<Value>) -> Result<Step, AllocError>
    ensures asks { IfOk result (λ r. (r ≡ S.Asks (Q.CatchTell job.old.holder)) × (stack.new.items ≡ stack.old.items ++ V.Str text ∷ []) × (job.new ≡ record job.old { is_told = true })) }
    ensures left { job.new.left.items ≡ job.old.left.items }
{
    stack.push(Value::Str(text))?;
    job.is_told = true;
    Ok(Step::Asks(Question::CatchTell(job.holder)))
}

/// An object is told by its connection with this number, and its command ends.
fn tell_connection(
    live: &mut Live,
    turn: &mut Turn,
    number: u32,
    text: Text,
) -> Result<Step, AllocError>
    requires closed { IsClosed live.old }
    ensures told { IfOk result (λ r. (r ≡ S.Ends (V.Int (pos 0))) × (live.new ≡ record live.old { outputs = live.old.outputs ++ outs.Text number text ∷ [] }) × IsPopped turn.old turn.new) }
    ensures closed { IsClosed live.new }
    ensures there { IfOk result (λ r. (cells : Store) → IsStepThere cells r) }
    ensures asked { IfOk result (λ r. (objects : List (Option Object)) → IsAskedThere objects r) }
    ensures same { live.new ≡ record live.old { outputs = live.new.outputs } }
{
    put_out(live, Out::Text(number, text))?;
    Ok(end_zero(turn))
}

/// No action of a command of a live object is left: it is told so, by its connection or by `catch_tell`.
fn tell_live(
    job: &mut Commanding,
    live: &mut Live,
    turn: &mut Turn,
    stack: &mut Vec<Value>,
) -> Result<Step, AllocError>
    requires fit { IsFit live.old stack.old.items }
    requires untold { job.old.is_told ≡ false }
    requires none { actions_left job.old ≡ [] }
    requires live { live_in live.old.objects job.old.holder ≡ true }
    ensures goes { IfOk result (λ r. Goes r job.old live.old turn.old stack.old.items job.new live.new turn.new stack.new.items) }
    ensures left { job.new.left.items ≡ job.old.left.items }
    ensures fit { OnOk result (IsFit live.new stack.new.items) }
    ensures closed { IsClosed live.new }
    ensures there { IfOk result (IsStepThere live.new.cells) }
    ensures asked { IfOk result (IsAskedThere live.new.objects) }
    ensures same { live.new ≡ record live.old { outputs = live.new.outputs } }
{
    let text = fail_text(live.alloc, turn)?;
    match live.connections.of(job.holder) {
        Some(number) => tell_connection(live, turn, number, text),
        None => ask_tell(job, text, stack),
    }
}

/// No action of a command is left: its object is told so, by its connection or by `catch_tell`, and one that was destructed is not.
pub(crate) fn tell_holder(
    job: &mut Commanding,
    live: &mut Live,
    turn: &mut Turn,
    stack: &mut Vec<Value>,
) -> Result<Step, AllocError>
    requires fit { IsFit live.old stack.old.items }
    requires untold { job.old.is_told ≡ false }
    requires none { actions_left job.old ≡ [] }
    ensures goes { IfOk result (λ r. Goes r job.old live.old turn.old stack.old.items job.new live.new turn.new stack.new.items) }
    ensures left { job.new.left.items ≡ job.old.left.items }
    ensures fit { OnOk result (IsFit live.new stack.new.items) }
    ensures closed { IsClosed live.new }
    ensures there { IfOk result (IsStepThere live.new.cells) }
    ensures asked { IfOk result (IsAskedThere live.new.objects) }
    ensures same { live.new ≡ record live.old { outputs = live.new.outputs } }
{
    if !live.objects.is_live(job.holder) {
        return Ok(end_zero(turn));
    }
    tell_live(job, live, turn, stack)
}
