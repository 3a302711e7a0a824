//! Targets of calls.
ghost use Rattle.std.specs.Prelude.{◌≡◌, map};
ghost use Rattle.std.specs.Str.{chars};
ghost use Rattle.lp_cells.specs.Cells.{Store};
ghost use Rattle.lp_ops.specs.Operands.{operand};
ghost use Rattle.lp_meaning.specs.EfunArguments.{arg};
ghost use Rattle.lp_meaning.specs.WorldSteps.{is_clone_name};
ghost use Rattle.lp_calling.specs.Targets.{IsTargetLive, target_of};

use lp_values::id::ObjId;
use lp_values::value::{Living, Value};

/// What `call_other` calls.
#[derive(Clone, Copy)]
pub enum CallTarget {
    /// A live object.
    Live(ObjId),
    /// The object that a text names.
    Named,
    /// No object.
    Nothing,
}

/// What a value names as the target of a call.
pub(crate) fn target_of<L: Living>(v: &Value, live: &L) -> CallTarget
    ensures value { (cells : Store) → result ≡ target_of (operand (L.live live.now) cells v.now) }
    ensures live { IsTargetLive (L.live live.now) result }
{
    match v {
        Value::Obj(o) => if live.is_live(*o) {
            CallTarget::Live(*o)
        } else {
            CallTarget::Nothing
        },
        Value::Str(_) => CallTarget::Named,
        _ => CallTarget::Nothing,
    }
}

/// What the first argument names as the target of a call. Takes no memory.
pub(crate) fn target<L: Living>(args: &[Value], live: &L) -> CallTarget
    ensures value { (cells : Store) → result ≡ target_of (arg (map (operand (L.live live.now) cells) args.now) 0) }
    ensures live { IsTargetLive (L.live live.now) result }
{
    match args.get(0) {
        Some(v) => target_of(v, live),
        None => CallTarget::Nothing,
    }
}

/// Whether a `#` stands in a name, as in those of clones alone.
pub(crate) fn is_clone_name(name: &str) -> bool
    ensures { result ≡ is_clone_name (chars name.now) }
{
    let mut rest = name.chars();
    while let Some(c) = rest.next() {
        if c == '#' {
            return true;
        }
    }
    false
}
