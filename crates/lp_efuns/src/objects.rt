//! Efuns that look at objects.
ghost use Rattle.std.specs.Prelude.{◌≡◌, ◌≤◌, [], IfOk, List, Some, length, reverse, true, unwrap_or, ℕ};
ghost use Rattle.std.specs.List.{position_or_len};
ghost use Rattle.std.specs.Option.{option_copied, option_map};
ghost use Rattle.std.specs.Str.{chars};
ghost use Rattle.lp_values.specs.declared.value.Value.{Value as V};
ghost use Rattle.lp_cells.specs.Cells.{Store};
ghost use Rattle.lp_ops.specs.Effects.{IsEffectThere};
ghost use Rattle.lp_ops.specs.declared.effect.Effect.{Effect as E};
ghost use Rattle.lp_meaning.specs.WorldEfuns.{caller_at};
ghost use Rattle.lp_meaning.specs.WorldSteps.{is_hash, load_name};
ghost use Rattle.lp_world.specs.Closed.{IsClosed};
ghost use Rattle.lp_world.specs.Rows.{live_in, row_at};
ghost use Rattle.lp_efuns.specs.Deeds.{Looks};
ghost use Rattle.lp_efuns.specs.Subjects.{is_living_row, path_at};
ghost use Rattle.lp_efuns.specs.declared.caller.Caller.{Caller as C};
ghost use Rattle.lp_efuns.specs.declared.caller.Turn.{Turn as T};

use crate::arguments::int_at;
use crate::caller::{Caller, Turn};
use crate::subjects::{object_at, object_effect, subject};
use lp_instr::efun::Efun;
use lp_ops::effect::Effect;
use lp_ops::int::{int, truth};
use lp_value_efuns::argument::bad;
use lp_values::id::ObjId;
use lp_values::text::{Text, code_points};
use lp_values::value::Value;
use lp_world::live::Live;
use lp_world::objects::ObjectTable;
use std::alloc::{AllocError, Global};

/// `this_object`: this object, or 0 where it is destructed.
pub(crate) fn this_object(caller: &Caller<'_>, live: &Live) -> Effect
    ensures looks { (vs : List V) (turn : T) → Looks Efun.ThisObject caller.now vs live.now turn result }
    ensures there { (cells : Store) → IsEffectThere cells result }
{
    object_effect(Some(caller.this), &live.objects)
}

/// `this_player`.
pub(crate) fn this_player(turn: &Turn, live: &Live) -> Effect
    ensures looks { (caller : C) (vs : List V) → Looks Efun.ThisPlayer caller vs live.now turn.now result }
    ensures there { (cells : Store) → IsEffectThere cells result }
{
    object_effect(turn.player, &live.objects)
}

/// `this_interactive`.
pub(crate) fn this_interactive(caller: &Caller<'_>, live: &Live) -> Effect
    ensures looks { (vs : List V) (turn : T) → Looks Efun.ThisInteractive caller.now vs live.now turn result }
    ensures there { (cells : Store) → IsEffectThere cells result }
{
    object_effect(caller.interactive, &live.objects)
}

/// The caller with a number, the latest being 0.
fn caller_at(caller: &Caller<'_>, n: i64) -> Option<ObjId>
    ensures { result ≡ caller_at (reverse caller.now.callers.now) n }
{
    if n < 0 {
        return None;
    }
    let len = caller.callers.len() as u64;
    if len <= n as u64 {
        return None;
    }
    Some(caller.callers[(len - 1 - n as u64) as usize])
}

/// `previous_object`: the caller with a number, 0 for the latest.
pub(crate) fn previous_object(caller: &Caller<'_>, args: &[Value], live: &Live) -> Effect
    ensures looks { (turn : T) → Looks Efun.PreviousObject caller.now args.now live.now turn result }
    ensures there { (cells : Store) → IsEffectThere cells result }
{
    object_effect(caller_at(caller, int_at(args, 0)), &live.objects)
}

/// A name as a value.
fn name_effect(alloc: Global, name: Option<&str>) -> Result<Effect, AllocError>
    ensures { IfOk result (λ e. e ≡ E.Gives (V.Str (unwrap_or (option_map (λ s. chars s.now) name.entry) []))) }
{
    match name {
        Some(name) => Ok(Effect::Gives(Value::Str(Text::from_str(alloc, name)?))),
        None => Ok(Effect::Gives(Value::Str(Text::from_slice(alloc, &[])?))),
    }
}

/// `object_name`: the name of an object.
pub(crate) fn object_name(
    caller: &Caller<'_>,
    args: &[Value],
    live: &Live,
) -> Result<Effect, AllocError>
    ensures looks { IfOk result (λ e. (turn : T) → Looks Efun.ObjectName caller.now args.now live.now turn e) }
    ensures there { IfOk result (λ e. (cells : Store) → IsEffectThere cells e) }
{
    match subject(args, 0, caller.this, &live.objects) {
        Some(o) => name_effect(live.alloc, live.names.name(o)),
        None => bad(live.alloc, Efun::ObjectName, 1),
    }
}

/// Whether an object that the state has is living.
pub fn is_living(objects: &ObjectTable, o: ObjId) -> bool
    ensures { result ≡ is_living_row (row_at objects.now o.0) }
{
    match objects.get(o) {
        Some(row) => row.is_living,
        None => false,
    }
}

/// `living`: whether an object is living.
pub(crate) fn living(args: &[Value], live: &Live) -> Effect
    ensures looks { (caller : C) (turn : T) → Looks Efun.Living caller args.now live.now turn result }
    ensures there { (cells : Store) → IsEffectThere cells result }
{
    match object_at(args, 0, &live.objects) {
        Some(o) => truth(is_living(&live.objects, o)),
        None => int(0),
    }
}

/// `interactive`: whether an object has a connection.
pub(crate) fn interactive(
    caller: &Caller<'_>,
    args: &[Value],
    live: &Live,
) -> Result<Effect, AllocError>
    ensures looks { IfOk result (λ e. (turn : T) → Looks Efun.Interactive caller.now args.now live.now turn e) }
    ensures there { IfOk result (λ e. (cells : Store) → IsEffectThere cells e) }
{
    match subject(args, 0, caller.this, &live.objects) {
        Some(o) => Ok(truth(live.connections.of(o).is_some())),
        None => bad(live.alloc, Efun::Interactive, 1),
    }
}

/// How many characters of a name stand before its `#`: all of them where it has none.
fn load_name_len(name: &[char]) -> usize
    ensures value { result ≡ position_or_len is_hash name.now }
    ensures within { result ≤ length name.now }
{
    let mut n = 0;
    while n < name.len() && name[n] != '#' {
        n += 1;
    }
    n
}

/// The name of the blueprint of an object with this name, as a value.
fn load_name_value(alloc: Global, name: &str) -> Result<Value, AllocError>
    ensures { IfOk result (λ v. v ≡ V.Str (load_name (chars name.now))) }
{
    let mut all = code_points(alloc, name)?;
    let n = load_name_len(all.as_slice());
    all.truncate(n);
    Ok(Value::Str(Text::from_vec(alloc, all)?))
}

/// The same, where there is a name, and else the empty text.
fn load_name_effect(alloc: Global, name: Option<&str>) -> Result<Effect, AllocError>
    ensures { IfOk result (λ e. e ≡ E.Gives (V.Str (load_name (unwrap_or (option_map (λ s. chars s.now) name.entry) [])))) }
{
    match name {
        Some(name) => Ok(Effect::Gives(load_name_value(alloc, name)?)),
        None => Ok(Effect::Gives(Value::Str(Text::from_slice(alloc, &[])?))),
    }
}

/// `load_name`: the name of the blueprint of an object.
pub(crate) fn load_name(
    caller: &Caller<'_>,
    args: &[Value],
    live: &Live,
) -> Result<Effect, AllocError>
    ensures looks { IfOk result (λ e. (turn : T) → Looks Efun.LoadName caller.now args.now live.now turn e) }
    ensures there { IfOk result (λ e. (cells : Store) → IsEffectThere cells e) }
{
    match subject(args, 0, caller.this, &live.objects) {
        Some(o) => load_name_effect(live.alloc, live.names.name(o)),
        None => bad(live.alloc, Efun::LoadName, 1),
    }
}

/// The path of the file from which the version of an object was compiled, where the state has both.
fn path_of(live: &Live, o: ObjId) -> Option<&Text>
    ensures { option_copied result ≡ path_at live.now o }
{
    match live.objects.get(o) {
        Some(row) => live.versions.path(row.program),
        None => None,
    }
}

/// A path as a value. The answer is want of memory too where there is none: each live object has one.
fn path_effect(path: Option<&Text>) -> Result<Effect, AllocError>
    ensures value { IfOk result (λ e. (t : List ℕ) → option_copied path.entry ≡ Some t → e ≡ E.Gives (V.Str t)) }
    ensures there { IfOk result (λ e. (cells : Store) → IsEffectThere cells e) }
{
    match path {
        Some(path) => Ok(Effect::Gives(Value::Str(path.copy()?))),
        None => Err(AllocError),
    }
}

/// `program_name`: the path of the program of an object.
pub(crate) fn program_name(
    caller: &Caller<'_>,
    args: &[Value],
    live: &Live,
) -> Result<Effect, AllocError>
    requires closed { IsClosed live.now }
    ensures looks { IfOk result (λ e. (turn : T) → Looks Efun.ProgramName caller.now args.now live.now turn e) }
    ensures there { IfOk result (λ e. (cells : Store) → IsEffectThere cells e) }
{
    match subject(args, 0, caller.this, &live.objects) {
        Some(o) => path_effect(path_of(live, o)),
        None => bad(live.alloc, Efun::ProgramName, 1),
    }
}
