//! Efuns that look at places and shadows.
ghost use Rattle.std.specs.Prelude.{◌≡◌, IfOk, List};
ghost use Rattle.lp_values.specs.declared.value.Value.{Value as V};
ghost use Rattle.lp_cells.specs.Cells.{Store};
ghost use Rattle.lp_ops.specs.Effects.{IsEffectThere};
ghost use Rattle.lp_language.specs.World.{World};
ghost use Rattle.lp_meaning.specs.WorldEfuns.{first_of, next_beside, object_values};
ghost use Rattle.lp_places.specs.Stands.{Stands as Place};
ghost use Rattle.lp_world.specs.Closed.{IsClosed};
ghost use Rattle.lp_efuns.specs.Deeds.{Does, Looks};
ghost use Rattle.lp_efuns.specs.Plain.{IsDidThere};
ghost use Rattle.lp_efuns.specs.declared.caller.Caller.{Caller as C};
ghost use Rattle.lp_efuns.specs.declared.caller.Turn.{Turn as T};

use crate::answer::Did;
use crate::caller::Caller;
use crate::subjects::{object_at, object_effect, subject};
use lp_instr::efun::Efun;
use lp_ops::effect::{Effect, array};
use lp_ops::int::int;
use lp_places::places::Places;
use lp_value_efuns::argument::bad;
use lp_values::id::ObjId;
use lp_values::value::Value;
use lp_world::live::Live;
use std::alloc::{AllocError, Global};

/// `environment`: the object in which an object is.
pub(crate) fn environment(
    caller: &Caller<'_>,
    args: &[Value],
    live: &Live,
) -> Result<Effect, AllocError>
    ensures looks { IfOk result (λ e. (turn : T) → Looks Efun.Environment caller.now args.now live.now turn e) }
    ensures there { IfOk result (λ e. (cells : Store) → IsEffectThere cells e) }
{
    match subject(args, 0, caller.this, &live.objects) {
        Some(o) => Ok(object_effect(live.places.environment(o), &live.objects)),
        None => bad(live.alloc, Efun::Environment, 1),
    }
}

/// Objects as values.
fn object_values(alloc: Global, objects: &[ObjId]) -> Result<Vec<Value>, AllocError>
    ensures { IfOk result (λ v. v.items ≡ object_values objects.now) }
{
    objects.iter().map(|o| Value::Obj(*o)).collect(alloc)
}

/// `all_inventory`: what is in an object, what was moved there last first.
pub(crate) fn all_inventory(
    caller: &Caller<'_>,
    args: &[Value],
    live: &Live,
) -> Result<Effect, AllocError>
    ensures looks { IfOk result (λ e. (turn : T) → Looks Efun.AllInventory caller.now args.now live.now turn e) }
    ensures there { IfOk result (λ e. (cells : Store) → IsEffectThere cells e) }
{
    match subject(args, 0, caller.this, &live.objects) {
        Some(o) => Ok(array(object_values(live.alloc, live.places.inventory(o))?)),
        None => bad(live.alloc, Efun::AllInventory, 1),
    }
}

/// The first of some objects.
fn first_of(objects: &[ObjId]) -> Option<ObjId>
    ensures { result ≡ first_of objects.now }
{
    match objects {
        [] => None,
        [o, ..] => Some(*o),
    }
}

/// `first_inventory`: what was moved into an object last.
pub(crate) fn first_inventory(
    caller: &Caller<'_>,
    args: &[Value],
    live: &Live,
) -> Result<Effect, AllocError>
    ensures looks { IfOk result (λ e. (turn : T) → Looks Efun.FirstInventory caller.now args.now live.now turn e) }
    ensures there { IfOk result (λ e. (cells : Store) → IsEffectThere cells e) }
{
    match subject(args, 0, caller.this, &live.objects) {
        Some(o) => Ok(object_effect(first_of(live.places.inventory(o)), &live.objects)),
        None => bad(live.alloc, Efun::FirstInventory, 1),
    }
}

/// The object behind another one in the inventory of its environment.
fn next_beside(places: &Places, ob: ObjId) -> Option<ObjId>
    ensures { (w : World) → Place places.now w.places w.shadows → result ≡ next_beside w ob }
{
    places.next(ob)
}

/// `next_inventory`: what stands behind an object in the inventory of its environment.
pub(crate) fn next_inventory(
    caller: &Caller<'_>,
    args: &[Value],
    live: &Live,
) -> Result<Effect, AllocError>
    ensures looks { IfOk result (λ e. (turn : T) → Looks Efun.NextInventory caller.now args.now live.now turn e) }
    ensures there { IfOk result (λ e. (cells : Store) → IsEffectThere cells e) }
{
    match subject(args, 0, caller.this, &live.objects) {
        Some(o) => Ok(object_effect(next_beside(&live.places, o), &live.objects)),
        None => bad(live.alloc, Efun::NextInventory, 1),
    }
}

/// `query_shadowing`: whom an object shadows.
pub(crate) fn query_shadowing(args: &[Value], live: &Live) -> Effect
    ensures looks { (caller : C) (turn : T) → Looks Efun.QueryShadowing caller args.now live.now turn result }
    ensures there { (cells : Store) → IsEffectThere cells result }
{
    match object_at(args, 0, &live.objects) {
        Some(o) => object_effect(live.places.shadowing(o), &live.objects),
        None => int(0),
    }
}

/// `unshadow`: this object shadows nothing any more, and its chain closes up.
pub(crate) fn unshadow(live: &mut Live, caller: &Caller<'_>) -> Did
    requires closed { IsClosed live.old }
    ensures does { (vs : List V) (turn : T) → Does Efun.Unshadow caller.now vs live.old turn result live.new turn }
    ensures closed { IsClosed live.new }
    ensures there { (cells : Store) → IsDidThere cells result }
    ensures cells { live.new.cells ≡ live.old.cells }
    ensures objects { live.new.objects ≡ live.old.objects }
    ensures names { live.new.names ≡ live.old.names }
{
    live.places.unshadow(caller.this);
    Did::Value(Value::Int(0))
}
