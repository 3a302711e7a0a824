//! `input_to`.
ghost use Rattle.std.specs.Prelude.{◌≡◌, ◌∷◌, ◌++◌, [], All, IfOk, List, OnErr, OnOk, ℕ, drop, if◌then◌else◌};
ghost use Rattle.lp_cells.specs.Cells.{IsThere, Store};
ghost use Rattle.lp_events.specs.declared.out.Out.TheVariants as outs;
ghost use Rattle.lp_language.specs.Course.{State};
ghost use Rattle.lp_meaning.specs.WorldEfuns.{free_connection, unless_awaited};
ghost use Rattle.lp_values.specs.declared.value.Value.{Value as V};
ghost use Rattle.lp_world.specs.Closed.{IsClosed};
ghost use Rattle.lp_efuns.specs.Plain.{IsDidThere};
ghost use Rattle.lp_efuns.specs.Turns.{At, Setting};
ghost use Rattle.lp_efuns.specs.declared.caller.Turn.{Turn as T};
ghost use Rattle.lp_putting.specs.Plans.{CarriesPlan, IsFitPlanned, IsOnlyPut, IsPlanned, IsPlannedThere, IsWaiting, StandsStill};
ghost use Rattle.lp_putting.specs.declared.plans.Plan.TheVariants as plans;

use crate::adding::flag_at;
use crate::plans::{Plan, Planned};
use lp_cells::content::Items;
use lp_efuns::answer::Did;
use lp_efuns::arguments::text_shared;
use lp_efuns::caller::{Caller, Turn};
use lp_events::out::Out;
use lp_instr::efun::Efun;
use lp_ops::list::copies;
use lp_values::id::ObjId;
use lp_values::value::Value;
use lp_world::connections::Waiting;
use lp_world::live::Live;
use std::alloc::{AllocError, Global};

/// A connection for whose next line nothing waits.
fn unless_awaited(live: &Live, number: Option<u32>) -> Option<u32>
    ensures { (g : Setting) (turn : T) (budget : ℕ) (s : State) → At g live.now turn budget s → result ≡ unless_awaited s.world number }
{
    match number {
        Some(k) => if live.connections.is_awaited(k) {
            None
        } else {
            Some(k)
        },
        None => None,
    }
}

/// That of the player.
fn free_connection(live: &Live, player: Option<ObjId>) -> Option<u32>
    ensures { (g : Setting) (turn : T) (budget : ℕ) (s : State) → At g live.now turn budget s → result ≡ free_connection s.world player }
{
    match player {
        Some(p) => unless_awaited(live, live.connections.of(p)),
        None => None,
    }
}

/// What `input_to` comes to before it is asked whether this object has the function: 0 where `this_player()` has no connection, or
/// a function waits for its next line.
pub(crate) fn plan_line(live: &Live, turn: &Turn, caller: &Caller<'_>) -> Planned
    ensures planned { (vs : List V) → IsPlanned Efun.InputTo caller.now vs live.now turn.now result }
    ensures fit { IsFitPlanned result }
    ensures there { (cells : Store) → IsPlannedThere cells result }
{
    match free_connection(live, turn.player) {
        Some(k) => Planned::Asks(Plan::Line(k)),
        None => Planned::Ends(Did::Value(Value::Int(0))),
    }
}

/// The arguments behind the second one.
fn behind(args: &[Value]) -> &[Value]
    ensures { result.now ≡ drop 2 args.now }
{
    if args.len() < 2 {
        return &[];
    }
    &args[2..]
}

/// The arguments behind the second one, to keep.
pub(crate) fn kept_behind(alloc: Global, args: &[Value]) -> Result<Vec<Value>, AllocError>
    ensures { IfOk result (λ v. v.items ≡ drop 2 args.now) }
{
    copies(alloc, behind(args))
}

/// What waits.
fn waiting_of(
    alloc: Global,
    number: u32,
    this: ObjId,
    args: &[Value],
    hides: bool,
) -> Result<Waiting, AllocError>
    ensures { IfOk result (λ x. IsWaiting number this hides args.now x) }
{
    Ok(Waiting {
        connection: number,
        object: this,
        function: text_shared(alloc, args, 0)?,
        hides,
        arguments: Items::from_vec(kept_behind(alloc, args)?),
    })
}

/// The input of a connection is hidden, where that is wanted.
fn hide(live: &mut Live, number: u32, hides: bool) -> Result<(), AllocError>
    ensures ok { OnOk result (live.new ≡ record live.old { outputs = live.old.outputs ++ (if hides then outs.Hide number ∷ [] else []) }) }
    ensures err { OnErr result (live.new ≡ live.old) }
{
    if !hides {
        return Ok(());
    }
    live.outputs.push(Out::Hide(number))?;
    Ok(())
}

/// `input_to` of a function that this object has: it waits for the next line of the connection, with the arguments behind the
/// second one, and with the flag the input is hidden. After want of memory nothing waits.
pub(crate) fn await_line(
    live: &mut Live,
    number: u32,
    this: ObjId,
    args: &[Value],
) -> Result<Did, AllocError>
    requires closed { IsClosed live.old }
    requires there { All (IsThere live.old.cells) args.now }
    ensures does { IfOk result (λ d. CarriesPlan (plans.Line number) this args.now live.old d live.new) }
    ensures still { OnErr result ((told : _) → StandsStill told live.old live.new) }
    ensures put { IsOnlyPut live.old live.new }
    ensures closed { IsClosed live.new }
    ensures there { IfOk result (λ d. (cells : Store) → IsDidThere cells d) }
{
    let hides = flag_at(args, 1);
    let waiting = waiting_of(live.alloc, number, this, args, hides)?;
    hide(live, number, hides)?;
    live.connections.wait(waiting)?;
    Ok(Did::Value(Value::Int(1)))
}
