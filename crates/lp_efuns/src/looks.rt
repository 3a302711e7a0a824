//! Efuns that look at the world and change nothing of it.
ghost use Rattle.std.specs.Prelude.{◌≡◌, ◌<◌, ◌≤◌, ◌^◌, IfOk, List, pos, true};
ghost use Rattle.lp_values.specs.declared.value.Value.{Value as V};
ghost use Rattle.lp_cells.specs.Cells.{Store};
ghost use Rattle.lp_ops.specs.Effects.{IsEffectThere};
ghost use Rattle.lp_ops.specs.Integers.{int};
ghost use Rattle.lp_world.specs.Closed.{IsClosed};
ghost use Rattle.lp_efuns.specs.Deeds.{Looks};
ghost use Rattle.lp_efuns.specs.Plain.{is_look};
ghost use Rattle.lp_efuns.specs.declared.caller.Caller.{Caller as C};
ghost use Rattle.lp_efuns.specs.declared.caller.Turn.{Turn as T};

use crate::arguments::text_at;
use crate::caller::{Caller, Turn};
use crate::commands::query_verb;
use crate::connections::users;
use crate::names::find_object;
use crate::objects::{
    interactive, living, load_name, object_name, previous_object, program_name, this_interactive,
    this_object, this_player,
};
use crate::places::{all_inventory, environment, first_inventory, next_inventory, query_shadowing};
use crate::timing::find_call_out;
use lp_instr::efun::Efun;
use lp_ops::effect::Effect;
use lp_ops::int::int;
use lp_values::error::{ErrorKind, RunError};
use lp_values::value::Value;
use lp_world::live::Live;
use std::alloc::{AllocError, Global};

/// Whether an efun that is carried out here looks at the world alone.
pub(crate) fn is_look(efun: Efun) -> bool
    ensures { result ≡ is_look efun }
{
    match efun {
        Efun::ThisObject
        | Efun::ThisPlayer
        | Efun::ThisInteractive
        | Efun::PreviousObject
        | Efun::FindObject
        | Efun::ObjectName
        | Efun::LoadName
        | Efun::ProgramName
        | Efun::Living
        | Efun::Interactive => true,
        Efun::Environment
        | Efun::AllInventory
        | Efun::FirstInventory
        | Efun::NextInventory
        | Efun::QueryShadowing => true,
        Efun::QueryVerb | Efun::Users | Efun::FindCallOut | Efun::Time | Efun::RaiseError => true,
        _ => false,
    }
}

/// A number from 0 up as an effect.
pub(crate) fn count_effect(n: u64) -> Effect
    requires { n < 2 ^ 63 }
    ensures value { result ≡ int (pos n) }
    ensures there { (cells : Store) → IsEffectThere cells result }
{
    int(n as i64)
}

/// `time`: the clock, in seconds.
fn time(live: &Live) -> Effect
    requires { live.now.clock ≤ 10 ^ 12 }
    ensures looks { (caller : C) (vs : List V) (turn : T) → Looks Efun.Time caller vs live.now turn result }
    ensures there { (cells : Store) → IsEffectThere cells result }
{
    count_effect(live.clock)
}

/// `raise_error`: an error with a text of its own.
fn raised(alloc: Global, args: &[Value], live: &Live) -> Result<Effect, AllocError>
    ensures looks { IfOk result (λ e. (caller : C) (turn : T) → Looks Efun.RaiseError caller args.now live.now turn e) }
    ensures there { IfOk result (λ e. (cells : Store) → IsEffectThere cells e) }
{
    Ok(Effect::Fault(RunError::new(alloc, ErrorKind::Raised, text_at(args, 0))?))
}

/// The effect of an efun that looks at the world alone.
pub(crate) fn look(
    live: &Live,
    turn: &Turn,
    caller: &Caller<'_>,
    efun: Efun,
    args: &[Value],
) -> Result<Effect, AllocError>
    requires look { is_look efun ≡ true }
    requires closed { IsClosed live.now }
    ensures looks { IfOk result (λ e. Looks efun caller.now args.now live.now turn.now e) }
    ensures there { IfOk result (λ e. (cells : Store) → IsEffectThere cells e) }
{
    match efun {
        Efun::ThisObject => Ok(this_object(caller, live)),
        Efun::ThisPlayer => Ok(this_player(turn, live)),
        Efun::ThisInteractive => Ok(this_interactive(caller, live)),
        Efun::PreviousObject => Ok(previous_object(caller, args, live)),
        Efun::FindObject => find_object(args, live),
        Efun::ObjectName => object_name(caller, args, live),
        Efun::LoadName => load_name(caller, args, live),
        Efun::ProgramName => program_name(caller, args, live),
        Efun::Living => Ok(living(args, live)),
        Efun::Interactive => interactive(caller, args, live),
        Efun::Environment => environment(caller, args, live),
        Efun::AllInventory => all_inventory(caller, args, live),
        Efun::FirstInventory => first_inventory(caller, args, live),
        Efun::NextInventory => next_inventory(caller, args, live),
        Efun::QueryShadowing => Ok(query_shadowing(args, live)),
        Efun::QueryVerb => query_verb(turn, live),
        Efun::Users => users(live),
        Efun::FindCallOut => find_call_out(caller, args, live),
        Efun::Time => Ok(time(live)),
        Efun::RaiseError => raised(live.alloc, args, live),
        _ => unreachable!(),
    }
}
