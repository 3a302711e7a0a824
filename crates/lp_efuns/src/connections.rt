//! Efuns of connections.
ghost use Rattle.std.specs.Prelude.{◌≡◌, IfOk, List, OnOk, map};
ghost use Rattle.lp_values.specs.declared.value.Value.{Value as V};
ghost use Rattle.lp_cells.specs.Cells.{Store};
ghost use Rattle.lp_ops.specs.Effects.{IsEffectThere};
ghost use Rattle.lp_world.specs.Closed.{IsClosed};
ghost use Rattle.lp_efuns.specs.Deeds.{Does, HandsOver, Looks};
ghost use Rattle.lp_efuns.specs.Plain.{IsDidThere};
ghost use Rattle.lp_efuns.specs.Subjects.{IsGivenUnless, IsHungUp};
ghost use Rattle.lp_efuns.specs.declared.caller.Caller.{Caller as C};
ghost use Rattle.lp_efuns.specs.declared.caller.Turn.{Turn as T};

use crate::answer::{Did, EfunFault};
use crate::subjects::object_at;
use lp_events::out::Out;
use lp_instr::efun::Efun;
use lp_ops::effect::{Effect, array};
use lp_values::id::ObjId;
use lp_values::limits::MAX_ITEMS;
use lp_values::value::Value;
use lp_world::connections::Connection;
use lp_world::live::Live;
use std::alloc::{AllocError, Global};

/// Closes the connection of an object, where it has one, and tells so. Where memory is wanting nothing changes.
fn hang_up(live: &mut Live, o: ObjId) -> Result<(), AllocError>
    requires closed { IsClosed live.old }
    ensures hangs { OnOk result (IsHungUp live.old o live.new) }
    ensures closed { IsClosed live.new }
    ensures cells { live.new.cells ≡ live.old.cells }
    ensures objects { live.new.objects ≡ live.old.objects }
    ensures names { live.new.names ≡ live.old.names }
{
    match live.connections.of(o) {
        Some(number) => {
            live.outputs.push(Out::Close(number))?;
            live.connections.close(number);
            Ok(())
        }
        None => Ok(()),
    }
}

/// `remove_interactive`: the connection of an object is closed.
pub(crate) fn remove_interactive(live: &mut Live, args: &[Value]) -> Result<Did, EfunFault>
    requires closed { IsClosed live.old }
    ensures does { IfOk result (λ d. (caller : C) (turn : T) → Does Efun.RemoveInteractive caller args.now live.old turn d live.new turn) }
    ensures closed { IsClosed live.new }
    ensures there { IfOk result (λ d. (cells : Store) → IsDidThere cells d) }
    ensures cells { live.new.cells ≡ live.old.cells }
    ensures objects { live.new.objects ≡ live.old.objects }
    ensures names { live.new.names ≡ live.old.names }
{
    match object_at(args, 0, &live.objects) {
        Some(o) => {
            hang_up(live, o)?;
            Ok(Did::Value(Value::Int(0)))
        }
        None => Ok(Did::Value(Value::Int(0))),
    }
}

/// The objects of connections as values.
fn holders(alloc: Global, opened: &[Connection]) -> Result<Vec<Value>, AllocError>
    ensures { IfOk result (λ v. v.items ≡ map (λ c. V.Obj c.object) opened.now) }
{
    opened.iter().map(|c| Value::Obj(c.object)).collect(alloc)
}

/// `users`: the objects with connections, by the numbers of these. The answer is want of memory too where more than
/// 10000 are open: at most 200 ever are.
pub(crate) fn users(live: &Live) -> Result<Effect, AllocError>
    ensures looks { IfOk result (λ e. (caller : C) (vs : List V) (turn : T) → Looks Efun.Users caller vs live.now turn e) }
    ensures there { IfOk result (λ e. (cells : Store) → IsEffectThere cells e) }
{
    let opened = live.connections.opened();
    if opened.len() > MAX_ITEMS {
        return Err(AllocError);
    }
    Ok(array(holders(live.alloc, opened)?))
}

/// Gives a connection to an object that has none: 1, or 0 where it has one.
fn give_unless_connected(live: &mut Live, number: u32, to: ObjId) -> Did
    requires closed { IsClosed live.old }
    ensures gives { IsGivenUnless live.old number to result live.new }
    ensures closed { IsClosed live.new }
    ensures there { (cells : Store) → IsDidThere cells result }
    ensures cells { live.new.cells ≡ live.old.cells }
    ensures objects { live.new.objects ≡ live.old.objects }
    ensures names { live.new.names ≡ live.old.names }
{
    if live.connections.of(to).is_some() {
        return Did::Value(Value::Int(0));
    }
    live.connections.give(number, to);
    Did::Value(Value::Int(1))
}

/// The connection of one object goes to another: 1, or 0 where the one has none or the other has one.
fn hand_over(live: &mut Live, to: ObjId, from: ObjId) -> Did
    requires closed { IsClosed live.old }
    ensures hands { HandsOver to from live.old result live.new }
    ensures closed { IsClosed live.new }
    ensures there { (cells : Store) → IsDidThere cells result }
    ensures cells { live.new.cells ≡ live.old.cells }
    ensures objects { live.new.objects ≡ live.old.objects }
    ensures names { live.new.names ≡ live.old.names }
{
    match live.connections.of(from) {
        Some(number) => give_unless_connected(live, number, to),
        None => Did::Value(Value::Int(0)),
    }
}

/// `exec`: the connection of the second object goes to the first.
pub(crate) fn exec(live: &mut Live, args: &[Value]) -> Did
    requires closed { IsClosed live.old }
    ensures does { (caller : C) (turn : T) → Does Efun.Exec caller args.now live.old turn result live.new turn }
    ensures closed { IsClosed live.new }
    ensures there { (cells : Store) → IsDidThere cells result }
    ensures cells { live.new.cells ≡ live.old.cells }
    ensures objects { live.new.objects ≡ live.old.objects }
    ensures names { live.new.names ≡ live.old.names }
{
    match object_at(args, 0, &live.objects) {
        Some(to) => match object_at(args, 1, &live.objects) {
            Some(from) => hand_over(live, to, from),
            None => Did::Value(Value::Int(0)),
        },
        None => Did::Value(Value::Int(0)),
    }
}
