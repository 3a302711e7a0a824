//! The efun `command`.
ghost use Rattle.std.specs.Prelude.{◌≡◌, ◌≤◌, All, IfOk, OnOk, drop, length, map, take, true};
ghost use Rattle.lp_cells.specs.Cells.{IsThere, Store};
ghost use Rattle.lp_values.specs.Errors.{bad_arg};
ghost use Rattle.lp_instr.specs.EfunKinds.{kinds};
ghost use Rattle.lp_instr.specs.EfunList.{efun_name};
ghost use Rattle.lp_efuns.specs.declared.answer.Answer.{Answer as A};
ghost use Rattle.lp_commanding.specs.declared.job.CommandBegun.{CommandBegun as B};
ghost use Rattle.lp_language.specs.Course.{State};
ghost use Rattle.lp_language.specs.Operations.{cells_of, living};
ghost use Rattle.lp_meaning.specs.EfunArguments.{first_bad, price_before};
ghost use Rattle.lp_ops.specs.Operands.{operand};
ghost use Rattle.lp_world.specs.Rows.{live_in};
ghost use Rattle.lp_step.specs.Steps.{IsFit};
ghost use Rattle.lp_efuns.specs.Plain.{IsAnswerThere};
ghost use Rattle.lp_commanding.specs.Efuns.{ActsCommand, BeginsCommand, CanCommand, EndsCommand, IsBegunReady, IsBegunThere};

use crate::job::CommandBegun;
use lp_calling::job::CallingFault;
use lp_cells::cells::Cells;
use lp_efuns::answer::{Answer, Did};
use lp_efuns::arguments::text_shared;
use lp_efuns::caller::Caller;
use lp_efuns::objects::is_living;
use lp_efuns::plain::{bad_argument, finish, pay_wide};
use lp_instr::efun::Efun;
use lp_value_efuns::fit::first_bad;
use lp_value_efuns::price::price_before;
use lp_values::id::ObjId;
use lp_values::value::{Living, Value};
use lp_world::live::Live;
use lp_world::objects::ObjectTable;

/// Takes all values from a place on.
fn cut(stack: &mut Vec<Value>, low: usize)
    ensures items { stack.new.items ≡ take low stack.old.items }
    ensures keeps { (live : _) → IsFit live stack.old.items → IsFit live stack.new.items }
{
    stack.truncate(low);
}

/// The values from a place on.
fn above(stack: &Vec<Value>, low: usize) -> &[Value]
    requires { low ≤ length stack.now.items }
    ensures { result.now ≡ drop low stack.now.items }
{
    &stack[low..]
}

/// What `command` costs before it acts, with the arguments above a place.
fn price_above(stack: &Vec<Value>, low: usize, cells: &Cells, objects: &ObjectTable) -> u128
    requires low { low ≤ length stack.now.items }
    requires there { All (IsThere cells.now) stack.now.items }
    ensures { (s : State) → living s ≡ live_in objects.now → cells_of s ≡ cells.now → result ≡ price_before Efun.Command (drop low stack.now.items) s }
{
    price_before(Efun::Command, above(stack, low), cells, objects)
}

/// The number, counted from 1, of the first argument above a place that is no text.
fn bad_above(stack: &Vec<Value>, low: usize, objects: &ObjectTable) -> Option<u64>
    requires low { low ≤ length stack.now.items }
    ensures { (cells : Store) → result ≡ first_bad 1 (kinds Efun.Command) (map (operand (live_in objects.now) cells) (drop low stack.now.items)) }
{
    first_bad(Efun::Command, above(stack, low), objects)
}

/// Whether an object can carry out lines: it is live and living.
fn can_command(live: &Live, o: ObjId) -> bool
    ensures can { CanCommand result live.now o }
    ensures live { result ≡ true → live_in live.now.objects o ≡ true }
{
    if !live.objects.is_live(o) {
        return false;
    }
    is_living(&live.objects, o)
}

/// A line was carried out with this value, and `this_player()` was put back: `command` ends with it, once its price is paid. Where that
/// cannot be paid the budget is spent. Takes no memory.
pub fn end_efun(live: &Live, value: Value, budget: &mut u64) -> Answer
    requires there { IsThere live.now.cells value }
    ensures ends { EndsCommand result value live.now budget.old budget.new }
    ensures there { IsAnswerThere live.now.cells result }
    ensures spends { budget.new ≤ budget.old }
{
    finish(
        Efun::Command,
        Did::Value(value),
        &live.cells,
        &live.objects,
        budget,
    )
}

/// `command` acts, whose arguments are paid and of their kinds.
fn act(
    live: &Live,
    caller: &Caller<'_>,
    stack: &mut Vec<Value>,
    low: usize,
    budget: &mut u64,
) -> Result<CommandBegun, CallingFault>
    requires low { low ≤ length stack.old.items }
    requires fit { IsFit live.now stack.old.items }
    ensures acts { IfOk result (λ r. ActsCommand r caller.now live.now low stack.old.items budget.old stack.new.items budget.new) }
    ensures fit { OnOk result (IsFit live.now stack.new.items) }
    ensures there { IfOk result (IsBegunThere live.now.cells) }
    ensures ready { IfOk result (IsBegunReady live.now.objects) }
    ensures spends { budget.new ≤ budget.old }
{
    if !can_command(live, caller.this) {
        cut(stack, low);
        return Ok(CommandBegun::Ends(end_efun(live, Value::Int(0), budget)));
    }
    let line = text_shared(live.alloc, above(stack, low), 0)?;
    cut(stack, low);
    Ok(CommandBegun::Runs(caller.this, line))
}

/// An argument of `command` is no text, which is an error. Arguments count from 1.
fn refuse(
    live: &Live,
    stack: &mut Vec<Value>,
    low: usize,
    number: u64,
) -> Result<CommandBegun, CallingFault>
    ensures ends { IfOk result (λ r. (r ≡ B.Ends (A.Error (bad_arg number (efun_name Efun.Command)))) × (stack.new.items ≡ take low stack.old.items)) }
    ensures there { IfOk result (IsBegunThere live.now.cells) }
    ensures ready { IfOk result (IsBegunReady live.now.objects) }
    ensures keeps { OnOk result ((live : _) → IsFit live stack.old.items → IsFit live stack.new.items) }
{
    let answer = bad_argument(live.alloc, Efun::Command, number)?;
    cut(stack, low);
    Ok(CommandBegun::Ends(answer))
}

/// `command` begins, with so many arguments on top of the stack, which are gone then.
///
/// The price before is paid first; then an argument that is no text is an error; then the object of the caller is to carry out the line,
/// as `this_player()`, where it is live and living, and else the value is 0, whose price is paid.
///
/// # Errors
/// `NoMemory`.
pub fn begin_efun(
    live: &Live,
    caller: &Caller<'_>,
    stack: &mut Vec<Value>,
    args: usize,
    budget: &mut u64,
) -> Result<CommandBegun, CallingFault>
    requires args { args ≤ length stack.old.items }
    requires fit { IsFit live.now stack.old.items }
    ensures begins { IfOk result (λ r. BeginsCommand r caller.now live.now stack.old.items args budget.old stack.new.items budget.new) }
    ensures fit { OnOk result (IsFit live.now stack.new.items) }
    ensures there { IfOk result (IsBegunThere live.now.cells) }
    ensures ready { IfOk result (IsBegunReady live.now.objects) }
    ensures spends { budget.new ≤ budget.old }
{
    let low = stack.len() - args;
    let before = price_above(stack, low, &live.cells, &live.objects);
    let is_paid = pay_wide(budget, before);
    if !is_paid {
        cut(stack, low);
        return Ok(CommandBegun::Ends(Answer::Spent));
    }
    match bad_above(stack, low, &live.objects) {
        Some(number) => refuse(live, stack, low, number),
        None => act(live, caller, stack, low, budget),
    }
}
