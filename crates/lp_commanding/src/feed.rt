//! Commands are told what was answered, and end.
ghost use Rattle.std.specs.Prelude.{◌≡◌};
ghost use Rattle.lp_cells.specs.Cells.{Store};
ghost use Rattle.lp_commanding.specs.Going.{IsFedThere, IsPopped, LeavesLess, Takes};
ghost use Rattle.lp_commanding.specs.Jobs.{IsAsking};
ghost use Rattle.lp_commanding.specs.declared.job.Fed.{Fed as F};

use crate::job::{Commanding, Fed};
use lp_efuns::caller::Turn;
use lp_values::value::{Value, is_zero};
use lp_world::live::Live;

/// The innermost command runs no longer.
pub(crate) fn pop_command(turn: &mut Turn)
    ensures { IsPopped turn.old turn.new }
{
    turn.commands.pop();
}

/// A command ends with a value, and runs no longer.
fn end_with(turn: &mut Turn, v: Value) -> Fed
    ensures ends { result ≡ F.Ends v }
    ensures popped { IsPopped turn.old turn.new }
{
    pop_command(turn);
    Fed::Ends(v)
}

/// A command is told the value that its question was answered with; the argument is gone from the stack. An answer of an action that is
/// not 0 ends it with 1, and any answer of `catch_tell` with 0: it runs no longer then. Else the next action is to be tried. Takes no memory.
pub fn feed(job: &mut Commanding, live: &Live, turn: &mut Turn, v: Value) -> Fed
    requires asking { IsAsking job.old }
    ensures takes { Takes result job.old v live.now turn.old job.new turn.new }
    ensures less { LeavesLess result job.old job.new }
    ensures there { (cells : Store) → IsFedThere cells result }
{
    if job.is_told {
        return end_with(turn, Value::Int(0));
    }
    if !is_zero(&v, &live.objects) {
        return end_with(turn, Value::Int(1));
    }
    job.left.pop();
    Fed::Goes
}

/// A command ends without an answer, as where its question was stopped: it runs no longer. Takes no memory.
pub fn stop(turn: &mut Turn)
    ensures { IsPopped turn.old turn.new }
{
    pop_command(turn);
}
