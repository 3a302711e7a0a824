//! Commands begin.
ghost use Rattle.std.specs.Prelude.{◌≡◌, IfOk, List, OnErr, OnOk};
ghost use Rattle.lp_actions.specs.Actions.{Sentence as Action, matching};
ghost use Rattle.lp_actions.specs.Held.{Lists};
ghost use Rattle.lp_cells.specs.Cells.{Store};
ghost use Rattle.lp_commanding.specs.Beginning.{Begins, IsBegunThere, IsSameTurn, Pushes};
ghost use Rattle.lp_commanding.specs.Trying.{actions_in};

use crate::job::{Begun, Commanding};
use crate::line::{argument_of, verb_of};
use lp_actions::sentence::Sentence;
use lp_efuns::caller::{Command, Turn};
use lp_values::id::ObjId;
use lp_values::text::Text;
use lp_values::value::Value;
use lp_world::live::Live;
use std::alloc::{AllocError, Global};

/// A command with this verb runs, within those that run already.
fn push_command(alloc: Global, turn: &mut Turn, verb: &[char]) -> Result<(), AllocError>
    ensures pushes { OnOk result (Pushes verb.now turn.old turn.new) }
    ensures err { OnErr result (IsSameTurn turn.old turn.new) }
{
    let verb = Text::from_slice(alloc, verb)?;
    turn.commands.push(Command { verb, fail: None })?;
    Ok(())
}

/// The actions of an object that a verb calls for, the latest last.
fn actions_for(live: &Live, holder: ObjId, verb: &[char]) -> Result<Vec<Sentence>, AllocError>
    ensures { IfOk result (λ found. (ss : List Action) → Lists live.now.actions ss → actions_in holder found.items ≡ matching ss holder verb.now) }
{
    let mut found = live.actions.matching(holder, verb)?;
    found.reverse();
    Ok(found)
}

/// A living object carries out a line: an empty line does nothing, and the answer is 0; with another one a command begins, within those
/// that run already, which tries the actions that the object holds for the verb of the line. Costs what the object holds, a logarithm
/// of all actions, and the length of the line.
///
/// # Errors
/// Where memory runs out; then no command was begun.
pub fn begin(
    live: &Live,
    turn: &mut Turn,
    holder: ObjId,
    line: &[char],
) -> Result<Begun, AllocError>
    ensures begins { IfOk result (λ r. Begins r holder line.now live.now turn.old turn.new) }
    ensures there { IfOk result (λ r. (cells : Store) → IsBegunThere cells r) }
    ensures err { OnErr result (IsSameTurn turn.old turn.new) }
{
    if line.is_empty() {
        return Ok(Begun::Ends(Value::Int(0)));
    }
    let verb = verb_of(line);
    let left = actions_for(live, holder, verb)?;
    let argument = argument_of(live.alloc, line)?;
    push_command(live.alloc, turn, verb)?;
    Ok(Begun::Runs(Commanding {
        holder,
        argument,
        left,
        is_told: false,
    }))
}
