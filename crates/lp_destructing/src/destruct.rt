//! `destruct`.
ghost use Rattle.std.specs.Prelude.{◌≡◌, All, IfOk, OnOk, true};
ghost use Rattle.lp_cells.specs.Cells.{IsThere};
ghost use Rattle.lp_step.specs.Steps.{KeepsVariables};
ghost use Rattle.lp_world.specs.Closed.{IsClosed};
ghost use Rattle.lp_world.specs.Rows.{live_in};
ghost use Rattle.lp_efuns.specs.Deeds.{Does};
ghost use Rattle.lp_efuns.specs.Plain.{CallsEfun, IsAnswerThere, IsDidThere};
ghost use Rattle.lp_efuns.specs.declared.caller.Caller.{Caller as C};
ghost use Rattle.lp_efuns.specs.declared.caller.Turn.{Turn as T};
ghost use Rattle.lp_destructing.specs.Ends.{EndsObject};

use lp_efuns::answer::{Answer, Did, EfunFault};
use lp_efuns::caller::{Caller, Turn};
use lp_efuns::plain::{bad_argument, finish, pay_wide};
use lp_efuns::subjects::object_at;
use lp_events::out::Out;
use lp_instr::efun::Efun;
use lp_residence::ending::destroy;
use lp_value_efuns::fit::first_bad;
use lp_value_efuns::price::price_before;
use lp_values::id::ObjId;
use lp_values::value::Value;
use lp_world::live::Live;
use std::alloc::AllocError;

/// A live object ends. Its connection, if it has one, is closed, and that is told.
fn end(live: &mut Live, ob: ObjId) -> Result<(), AllocError>
    requires closed { IsClosed live.old }
    requires live { live_in live.old.objects ob ≡ true }
    ensures ends { OnOk result (EndsObject ob live.old live.new) }
    ensures closed { IsClosed live.new }
    ensures variables { KeepsVariables live.old.objects live.new.objects }
    ensures cells { live.new.cells ≡ live.old.cells }
{
    match destroy(live, ob) {
        Some(number) => live.outputs.push(Out::Close(number)),
        None => Ok(()),
    }
}

/// What `destruct` comes to: 0. Its argument is a live object.
fn destruct(live: &mut Live, args: &[Value]) -> Result<Did, EfunFault>
    requires closed { IsClosed live.old }
    ensures does { IfOk result (λ d. (caller : C) (turn : T) → Does Efun.Destruct caller args.now live.old turn d live.new turn) }
    ensures closed { IsClosed live.new }
    ensures there { IfOk result (IsDidThere live.new.cells) }
    ensures variables { KeepsVariables live.old.objects live.new.objects }
    ensures cells { live.new.cells ≡ live.old.cells }
{
    match object_at(args, 0, &live.objects) {
        Some(ob) => {
            end(live, ob)?;
            Ok(Did::Value(Value::Int(0)))
        }
        None => Ok(Did::Value(Value::Int(0))),
    }
}

/// Carries out `destruct`, with these arguments, first to last.
///
/// The price before is paid first; then an argument of another kind than a live object is an error; then the object ends, and
/// at last the price of the result, 0, is paid. The object's variables stay in memory where they are, so that functions of it
/// which run go on.
///
/// # Errors
/// `NoMemory`, after which the state is closed.
pub fn call_destruct(
    live: &mut Live,
    turn: &Turn,
    caller: &Caller<'_>,
    args: &[Value],
    budget: &mut u64,
) -> Result<Answer, EfunFault>
    requires closed { IsClosed live.old }
    requires there { All (IsThere live.old.cells) args.now }
    ensures calls { IfOk result (λ a. CallsEfun Efun.Destruct caller.now args.now live.old turn.now budget.old a live.new turn.now budget.new) }
    ensures closed { IsClosed live.new }
    ensures there { IfOk result (IsAnswerThere live.new.cells) }
    ensures variables { KeepsVariables live.old.objects live.new.objects }
    ensures cells { live.new.cells ≡ live.old.cells }
{
    let before = price_before(Efun::Destruct, args, &live.cells, &live.objects);
    let is_paid = pay_wide(budget, before);
    if !is_paid {
        return Ok(Answer::Spent);
    }
    match first_bad(Efun::Destruct, args, &live.objects) {
        Some(number) => bad_argument(live.alloc, Efun::Destruct, number),
        None => {
            let did = destruct(live, args)?;
            Ok(finish(Efun::Destruct, did, &live.cells, &live.objects, budget))
        }
    }
}
