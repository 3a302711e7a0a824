//! Efuns that change the world or the turn, and those that throw.
ghost use Rattle.std.specs.Prelude.{◌≡◌, ◌<◌, ◌^◌, ◌||◌, Bool, pos, All, IfOk, IfSome, map, true};
ghost use Rattle.rand_xoshiro.specs.SplitMix64.{mix_u64};
ghost use Rattle.lp_values.specs.declared.id.ObjId.{ObjId};
ghost use Rattle.lp_values.specs.declared.value.Value.{Value as V};
ghost use Rattle.lp_ops.specs.Operands.{operand};
ghost use Rattle.lp_meaning.specs.ComputingEfuns.{from_zero};
ghost use Rattle.lp_meaning.specs.EfunArguments.{int_arg};
ghost use Rattle.lp_efuns.specs.declared.answer.Did.{Did as D};
ghost use Rattle.lp_cells.specs.Cells.{IsThere, KeepsThere, Store};
ghost use Rattle.lp_meaning.specs.Questions.{group, OfWorld};
ghost use Rattle.lp_step.specs.Steps.{KeepsVariables};
ghost use Rattle.lp_world.specs.Closed.{IsClosed};
ghost use Rattle.lp_efuns.specs.Deeds.{Does, HasDropped};
ghost use Rattle.lp_efuns.specs.Plain.{IsDidThere, is_change, is_deed, is_look};
ghost use Rattle.lp_efuns.specs.Subjects.{mapping_arg, mapping_in};
ghost use Rattle.lp_efuns.specs.declared.caller.Caller.{Caller as C};
ghost use Rattle.lp_efuns.specs.declared.caller.Turn.{Turn as T};

use crate::answer::{Did, EfunFault};
use crate::arguments::{int_at, value_at};
use crate::caller::{Caller, Turn};
use crate::carrying::carry;
use crate::commands::notify_fail;
use crate::connections::{exec, remove_interactive};
use crate::enabling::enable_commands;
use crate::looks::{is_look, look};
use crate::places::unshadow;
use crate::timing::{remove_call_out, set_heart_beat};
use lp_instr::efun::Efun;
use lp_values::id::CellId;
use lp_values::value::Value;
use lp_world::live::Live;
use rand_core::SeedableRng;
use rand_core::utils::NextWord;
use rand_xoshiro::SplitMix64;

/// What an efun comes to that looks at the world alone.
fn looked(
    live: &mut Live,
    turn: &Turn,
    caller: &Caller<'_>,
    efun: Efun,
    args: &[Value],
) -> Result<Did, EfunFault>
    requires look { is_look efun ≡ true }
    requires world { group efun ≡ OfWorld }
    requires closed { IsClosed live.old }
    ensures does { IfOk result (λ d. Does efun caller.now args.now live.old turn.now d live.new turn.now) }
    ensures closed { IsClosed live.new }
    ensures stay { KeepsThere live.old.cells live.new.cells }
    ensures there { IfOk result (IsDidThere live.new.cells) }
    ensures objects { live.new.objects ≡ live.old.objects }
    ensures names { live.new.names ≡ live.old.names }
{
    let effect = look(live, turn, caller, efun, args)?;
    carry(live.alloc, effect, &mut live.cells)
}

/// The next word of the generator.
fn next_word(generator: &mut u64) -> u64
    ensures { (result, generator.new) ≡ mix_u64 generator.old }
{
    let mut rng = SplitMix64::seed_from_u64(*generator);
    let word = rng.next_word();
    *generator = u64::from_le_bytes(rng.state());
    word
}

/// The bound of `random`: an argument above 0, or 0.
fn bound(args: &[Value]) -> u64
    ensures value { (live : ObjId → Bool) (cells : Store) → result ≡ from_zero (int_arg (map (operand live cells) args.now) 0) }
    ensures small { result < 2 ^ 63 }
{
    let n = int_at(args, 0);
    if n < 0 { 0 } else { n as u64 }
}

/// A number from 0 up, as what an efun comes to.
fn count_did(n: u64) -> Did
    requires { n < 2 ^ 63 }
    ensures value { result ≡ D.Value (V.Int (pos n)) }
    ensures there { (cells : Store) → IsDidThere cells result }
{
    Did::Value(Value::Int(n as i64))
}

/// `random`: a word of the generator modulo a number above 0, and else 0 without a word.
fn random(live: &mut Live, args: &[Value]) -> Did
    requires closed { IsClosed live.old }
    ensures does { (caller : C) (turn : T) → Does Efun.Random caller args.now live.old turn result live.new turn }
    ensures closed { IsClosed live.new }
    ensures there { IsDidThere live.new.cells result }
    ensures cells { live.new.cells ≡ live.old.cells }
    ensures objects { live.new.objects ≡ live.old.objects }
    ensures names { live.new.names ≡ live.old.names }
{
    let n = bound(args);
    if n == 0 {
        return Did::Value(Value::Int(0));
    }
    let word = next_word(&mut live.generator);
    count_did(word % n)
}

/// `throw`: the value as it was given.
fn thrown(args: &[Value], live: &Live) -> Result<Did, EfunFault>
    requires there { All (IsThere live.now.cells) args.now }
    ensures does { IfOk result (λ d. (caller : C) (turn : T) → Does Efun.Throw caller args.now live.now turn d live.now turn) }
    ensures there { IfOk result (IsDidThere live.now.cells) }
{
    Ok(Did::Thrown(value_at(args, 0)?))
}

/// Drops a key of a mapping.
fn drop_key(live: &mut Live, id: CellId, k: &Value)
    requires closed { IsClosed live.old }
    requires there { IsThere live.old.cells (V.Map id) }
    ensures drops { HasDropped live.old id k.now live.new }
    ensures closed { IsClosed live.new }
    ensures stay { KeepsThere live.old.cells live.new.cells }
    ensures objects { live.new.objects ≡ live.old.objects }
    ensures names { live.new.names ≡ live.old.names }
{
    live.cells.map_drop(id, k, &live.objects);
}

/// The mapping that a value is.
fn mapping_in(v: &Value) -> Option<CellId>
    ensures value { result ≡ mapping_in v.now }
    ensures there { (cells : Store) → IsThere cells v.now → IfSome result (λ c. IsThere cells (V.Map c)) }
{
    match v {
        Value::Map(c) => Some(*c),
        _ => None,
    }
}

/// The mapping that an argument is. Arguments count from 0.
fn mapping_at(args: &[Value], i: usize) -> Option<CellId>
    ensures value { result ≡ mapping_arg args.now i }
    ensures there { (cells : Store) → All (IsThere cells) args.now → IfSome result (λ c. IsThere cells (V.Map c)) }
{
    match args.get(i) {
        Some(v) => mapping_in(v),
        None => None,
    }
}

/// `m_delete`: a key of a mapping goes, and the answer is the same mapping.
fn m_delete(live: &mut Live, args: &[Value]) -> Result<Did, EfunFault>
    requires closed { IsClosed live.old }
    requires there { All (IsThere live.old.cells) args.now }
    ensures does { IfOk result (λ d. (caller : C) (turn : T) → Does Efun.MDelete caller args.now live.old turn d live.new turn) }
    ensures closed { IsClosed live.new }
    ensures stay { KeepsThere live.old.cells live.new.cells }
    ensures there { IfOk result (IsDidThere live.new.cells) }
    ensures objects { live.new.objects ≡ live.old.objects }
    ensures names { live.new.names ≡ live.old.names }
{
    let key = value_at(args, 1)?;
    match mapping_at(args, 0) {
        Some(id) => {
            drop_key(live, id, &key);
            Ok(Did::Value(Value::Map(id)))
        }
        None => Ok(Did::Value(Value::Int(0))),
    }
}

/// What an efun comes to that looks at the world or changes it, but no object.
fn of_tables(
    live: &mut Live,
    turn: &mut Turn,
    caller: &Caller<'_>,
    efun: Efun,
    args: &[Value],
) -> Result<Did, EfunFault>
    requires deed { (is_look efun || is_change efun) ≡ true }
    requires world { group efun ≡ OfWorld }
    requires closed { IsClosed live.old }
    requires there { All (IsThere live.old.cells) args.now }
    ensures does { IfOk result (λ d. Does efun caller.now args.now live.old turn.old d live.new turn.new) }
    ensures closed { IsClosed live.new }
    ensures stay { KeepsThere live.old.cells live.new.cells }
    ensures there { IfOk result (IsDidThere live.new.cells) }
    ensures objects { live.new.objects ≡ live.old.objects }
    ensures names { live.new.names ≡ live.old.names }
{
    if is_look(efun) {
        return looked(live, turn, caller, efun, args);
    }
    changed(live, turn, caller, efun, args)
}

/// What an efun comes to that looks at the world or changes it.
pub(crate) fn of_world(
    live: &mut Live,
    turn: &mut Turn,
    caller: &Caller<'_>,
    efun: Efun,
    args: &[Value],
) -> Result<Did, EfunFault>
    requires deed { is_deed efun ≡ true }
    requires world { group efun ≡ OfWorld }
    requires closed { IsClosed live.old }
    requires there { All (IsThere live.old.cells) args.now }
    ensures does { IfOk result (λ d. Does efun caller.now args.now live.old turn.old d live.new turn.new) }
    ensures closed { IsClosed live.new }
    ensures stay { KeepsThere live.old.cells live.new.cells }
    ensures there { IfOk result (IsDidThere live.new.cells) }
    ensures variables { KeepsVariables live.old.objects live.new.objects }
    ensures names { live.new.names ≡ live.old.names }
{
    match efun {
        Efun::EnableCommands => Ok(enable_commands(live, turn, caller)),
        _ => of_tables(live, turn, caller, efun, args),
    }
}

/// What an efun comes to that changes the world or the turn, or throws.
fn changed(
    live: &mut Live,
    turn: &mut Turn,
    caller: &Caller<'_>,
    efun: Efun,
    args: &[Value],
) -> Result<Did, EfunFault>
    requires change { is_change efun ≡ true }
    requires closed { IsClosed live.old }
    requires there { All (IsThere live.old.cells) args.now }
    ensures does { IfOk result (λ d. Does efun caller.now args.now live.old turn.old d live.new turn.new) }
    ensures closed { IsClosed live.new }
    ensures stay { KeepsThere live.old.cells live.new.cells }
    ensures there { IfOk result (IsDidThere live.new.cells) }
    ensures objects { live.new.objects ≡ live.old.objects }
    ensures names { live.new.names ≡ live.old.names }
{
    match efun {
        Efun::Unshadow => Ok(unshadow(live, caller)),
        Efun::NotifyFail => notify_fail(turn, args, live),
        Efun::Exec => Ok(exec(live, args)),
        Efun::RemoveInteractive => remove_interactive(live, args),
        Efun::RemoveCallOut => remove_call_out(live, caller, args),
        Efun::SetHeartBeat => set_heart_beat(live, caller, args),
        Efun::Random => Ok(random(live, args)),
        Efun::Throw => thrown(args, live),
        Efun::MDelete => m_delete(live, args),
        _ => unreachable!(),
    }
}

/// Whether an efun that is carried out here changes the world or the turn, or throws.
pub(crate) fn is_change(efun: Efun) -> bool
    ensures { result ≡ is_change efun }
{
    match efun {
        Efun::Unshadow
        | Efun::NotifyFail
        | Efun::Exec
        | Efun::RemoveInteractive
        | Efun::SetHeartBeat
        | Efun::RemoveCallOut => true,
        Efun::Random | Efun::Throw | Efun::MDelete => true,
        _ => false,
    }
}
