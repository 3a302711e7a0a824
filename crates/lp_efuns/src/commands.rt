//! Efuns of running commands.
ghost use Rattle.std.specs.Prelude.{◌≡◌, IfOk, List};
ghost use Rattle.lp_values.specs.declared.value.Value.{Value as V};
ghost use Rattle.lp_cells.specs.Cells.{Store};
ghost use Rattle.lp_ops.specs.Effects.{IsEffectThere};
ghost use Rattle.lp_meaning.specs.WorldEfuns.{with_fail};
ghost use Rattle.lp_efuns.specs.Deeds.{Does, Looks};
ghost use Rattle.lp_efuns.specs.Plain.{IsDidThere};
ghost use Rattle.lp_efuns.specs.Turns.{commands_of};
ghost use Rattle.lp_efuns.specs.declared.caller.Caller.{Caller as C};

use crate::answer::{Did, EfunFault};
use crate::arguments::text_shared;
use crate::caller::{Command, Turn};
use lp_instr::efun::Efun;
use lp_ops::effect::Effect;
use lp_ops::int::int;
use lp_values::text::Text;
use lp_values::value::Value;
use lp_world::live::Live;
use std::alloc::AllocError;

/// `query_verb`: the verb of the innermost running command, or 0.
pub(crate) fn query_verb(turn: &Turn, live: &Live) -> Result<Effect, AllocError>
    ensures looks { IfOk result (λ e. (caller : C) (vs : List V) → Looks Efun.QueryVerb caller vs live.now turn.now e) }
    ensures there { IfOk result (λ e. (cells : Store) → IsEffectThere cells e) }
{
    match turn.commands.as_slice().last() {
        Some(command) => Ok(Effect::Gives(Value::Str(command.verb.copy()?))),
        None => Ok(int(0)),
    }
}

/// Gives the innermost command another text that it shows where no action does it.
fn set_fail(commands: &mut Vec<Command>, fail: Text)
    ensures { commands_of commands.new.items ≡ with_fail fail (commands_of commands.old.items) }
{
    let n = commands.len();
    if n > 0 {
        commands[n - 1].fail = Some(fail);
    }
}

/// `notify_fail`: the text that the innermost command shows where no action does it.
pub(crate) fn notify_fail(turn: &mut Turn, args: &[Value], live: &Live) -> Result<Did, EfunFault>
    ensures does { IfOk result (λ d. (caller : C) → Does Efun.NotifyFail caller args.now live.now turn.old d live.now turn.new) }
    ensures there { IfOk result (λ d. (cells : Store) → IsDidThere cells d) }
{
    let fail = text_shared(live.alloc, args, 0)?;
    set_fail(&mut turn.commands, fail);
    Ok(Did::Value(Value::Int(0)))
}
