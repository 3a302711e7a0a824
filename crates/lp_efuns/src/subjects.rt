//! Objects that arguments name, and objects as values.
ghost use Rattle.std.specs.Prelude.{◌≡◌, Bool, IfSome, map, true};
ghost use Rattle.lp_values.specs.declared.id.ObjId.{ObjId};
ghost use Rattle.lp_cells.specs.Cells.{IsThere, Store};
ghost use Rattle.lp_ops.specs.Effects.{IsEffectThere};
ghost use Rattle.lp_ops.specs.Operands.{operand};
ghost use Rattle.lp_ops.specs.declared.effect.Effect.{Effect as E};
ghost use Rattle.lp_meaning.specs.EfunArguments.{object_arg, object_in};
ghost use Rattle.lp_efuns.specs.Subjects.{object_read, subject, this_live};

use lp_ops::effect::Effect;
use lp_values::id::ObjId;
use lp_values::value::{Living, Value};

/// An object as a value: one that is not live reads as 0, and so does none.
pub fn object_effect<L: Living>(o: Option<ObjId>, live: &L) -> Effect
    ensures value { result ≡ E.Gives (object_read (L.live live.now) o) }
    ensures there { (cells : Store) → IsEffectThere cells result }
{
    match o {
        Some(o) => Effect::Gives(Value::Obj(o).into_read(live)),
        None => Effect::Gives(Value::Int(0)),
    }
}

/// The live object that a value is, or none.
fn object_of<L: Living>(v: &Value, live: &L) -> Option<ObjId>
    ensures value { (cells : Store) → result ≡ object_in (operand (L.live live.now) cells v.now) }
    ensures live { IfSome result (λ o. L.live live.now o ≡ true) }
{
    match v {
        Value::Obj(o) => if live.is_live(*o) { Some(*o) } else { None },
        _ => None,
    }
}

/// The live object that an argument is, or none. Arguments count from 0.
pub fn object_at<L: Living>(args: &[Value], i: usize, live: &L) -> Option<ObjId>
    ensures value { (cells : Store) → result ≡ object_arg (map (operand (L.live live.now) cells) args.now) i }
    ensures live { IfSome result (λ o. L.live live.now o ≡ true) }
{
    match args.get(i) {
        Some(v) => object_of(v, live),
        None => None,
    }
}

/// This object, where it is live.
fn this_live<L: Living>(this: ObjId, live: &L) -> Option<ObjId>
    ensures value { result ≡ this_live (L.live live.now) this }
    ensures live { IfSome result (λ o. L.live live.now o ≡ true) }
{
    if live.is_live(this) { Some(this) } else { None }
}

/// The live object that an argument is, or none; where the argument is missing, this object.
pub fn subject<L: Living>(args: &[Value], i: usize, this: ObjId, live: &L) -> Option<ObjId>
    ensures value { (cells : Store) → result ≡ subject (L.live live.now) this (map (operand (L.live live.now) cells) args.now) i }
    ensures live { IfSome result (λ o. L.live live.now o ≡ true) }
{
    match args.get(i) {
        Some(v) => object_of(v, live),
        None => this_live(this, live),
    }
}
