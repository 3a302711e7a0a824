//! `shadow` begins.
ghost use Rattle.std.specs.Prelude.{◌≡◌, ◌≤◌, All, IfOk, IsSome, OnOk, Some, drop, length, map, take};
ghost use Rattle.lp_cells.specs.Cells.{IsThere, Store};
ghost use Rattle.lp_instr.specs.EfunKinds.{kinds};
ghost use Rattle.lp_language.specs.Course.{State};
ghost use Rattle.lp_language.specs.Operations.{cells_of, living};
ghost use Rattle.lp_meaning.specs.EfunArguments.{first_bad, price_before};
ghost use Rattle.lp_ops.specs.Operands.{operand};
ghost use Rattle.lp_world.specs.Closed.{IsClosed};
ghost use Rattle.lp_world.specs.Rows.{live_in, row_at};
ghost use Rattle.lp_step.specs.Steps.{IsFit};
ghost use Rattle.lp_targets.specs.Brought.{Brings};
ghost use Rattle.lp_calling.specs.Beginning.{IsBegunReady, IsBegunThere};
ghost use Rattle.lp_calling.specs.declared.job.Begun.{Begun as B};
ghost use Rattle.lp_shadowing.specs.Shadowing.{ActsShadow, BeginsShadow, IsJobFor, NamesObject, StandsOver};

use crate::barring::is_barred;
use lp_calling::job::{Begun, Job, Stage};
use lp_calling::leave::ask_to_shadow;
use lp_cells::cells::Cells;
use lp_efuns::answer::Answer;
use lp_efuns::caller::Caller;
use lp_efuns::plain::{bad_argument, pay_wide};
use lp_efuns::subjects::object_at;
use lp_instr::efun::Efun;
use lp_residence::answers::EnterFault;
use lp_swapfile::SwapFile;
use lp_value_efuns::fit::first_bad;
use lp_value_efuns::price::price_before;
use lp_values::id::ObjId;
use lp_values::value::Value;
use lp_world::live::Live;
use lp_world::objects::ObjectTable;

/// Takes all values from a place on.
fn cut(stack: &mut Vec<Value>, low: usize)
    ensures items { stack.new.items ≡ take low stack.old.items }
    ensures keeps { (live : _) → IsFit live stack.old.items → IsFit live stack.new.items }
{
    stack.truncate(low);
}

/// The values from a place on.
fn above(stack: &Vec<Value>, low: usize) -> &[Value]
    requires { low ≤ length stack.now.items }
    ensures { result.now ≡ drop low stack.now.items }
{
    &stack[low..]
}

/// What `shadow` costs before it acts, with the arguments above a place.
fn price_above(stack: &Vec<Value>, low: usize, cells: &Cells, objects: &ObjectTable) -> u128
    requires low { low ≤ length stack.now.items }
    requires there { All (IsThere cells.now) stack.now.items }
    ensures { (s : State) → living s ≡ live_in objects.now → cells_of s ≡ cells.now → result ≡ price_before Efun.Shadow (drop low stack.now.items) s }
{
    price_before(Efun::Shadow, above(stack, low), cells, objects)
}

/// The number, counted from 1, of the first argument above a place that is no object.
fn bad_above(stack: &Vec<Value>, low: usize, objects: &ObjectTable) -> Option<u64>
    requires low { low ≤ length stack.now.items }
    ensures { (cells : Store) → result ≡ first_bad 1 (kinds Efun.Shadow) (map (operand (live_in objects.now) cells) (drop low stack.now.items)) }
{
    first_bad(Efun::Shadow, above(stack, low), objects)
}

/// The job that has come to 0.
fn nothing(low: usize) -> Begun
    ensures value { result ≡ B.Runs (record { efun = Efun.Shadow; low = low; stage = Stage.Zero }) }
    ensures there { (cells : Store) → IsBegunThere cells result }
    ensures ready { (objects : _) → IsBegunReady objects result }
{
    Begun::Runs(Job {
        efun: Efun::Shadow,
        low,
        stage: Stage::Zero,
    })
}

/// The job of `shadow` of an object: it has come to 0 where something stands in the way, and else asks the master.
fn shadow_begun(live: &Live, low: usize, this: ObjId, o: ObjId, barred: bool) -> Begun
    ensures begun { IsJobFor result live.now low this o barred }
    ensures there { (cells : Store) → IsBegunThere cells result }
    ensures ready { IsBegunReady live.now.objects result }
{
    if barred {
        return nothing(low);
    }
    Begun::Runs(ask_to_shadow(live, low, this, o))
}

/// `shadow` of an object goes on as a job.
fn shadow<W: SwapFile>(
    live: &mut Live,
    swap: &mut W,
    caller: &Caller<'_>,
    stack: &Vec<Value>,
    low: usize,
    o: ObjId,
) -> Result<Begun, EnterFault>
    requires low { low ≤ length stack.now.items }
    requires closed { IsClosed live.old }
    requires here { IsSome (row_at live.old.objects caller.now.this.0) }
    requires other { IsSome (row_at live.old.objects o.0) }
    requires names { NamesObject live.old (drop low stack.now.items) (Some o) }
    ensures brings { Brings (W.content swap.old) (W.content swap.new) (W.last swap.new) (W.read_faults swap.old) (W.read_faults swap.new) (W.write_faults swap.old) (W.write_faults swap.new)
        (W.is_truthful swap.old) (W.is_truthful swap.new) (W.is_honest swap.old) (W.is_honest swap.new) live.old live.new result }
    ensures closed { IsClosed live.new }
    ensures stands { W.is_truthful swap.new → StandsOver (W.content swap.old) live.old (W.content swap.new) live.new }
    ensures acts { W.is_truthful swap.new → IfOk result (λ r. ActsShadow r caller.now (W.content swap.old) live.old live.new low stack.now.items stack.now.items) }
    ensures there { IfOk result (λ r. (cells : Store) → IsBegunThere cells r) }
    ensures ready { IfOk result (IsBegunReady live.new.objects) }
{
    match is_barred(live, swap, caller.this, o) {
        Ok(barred) => Ok(shadow_begun(live, low, caller.this, o, barred)),
        Err(e) => Err(e),
    }
}

/// `shadow` acts, whose arguments are paid and of their kinds.
fn act<W: SwapFile>(
    live: &mut Live,
    swap: &mut W,
    caller: &Caller<'_>,
    stack: &Vec<Value>,
    low: usize,
) -> Result<Begun, EnterFault>
    requires low { low ≤ length stack.now.items }
    requires closed { IsClosed live.old }
    requires here { IsSome (row_at live.old.objects caller.now.this.0) }
    ensures brings { Brings (W.content swap.old) (W.content swap.new) (W.last swap.new) (W.read_faults swap.old) (W.read_faults swap.new) (W.write_faults swap.old) (W.write_faults swap.new)
        (W.is_truthful swap.old) (W.is_truthful swap.new) (W.is_honest swap.old) (W.is_honest swap.new) live.old live.new result }
    ensures closed { IsClosed live.new }
    ensures stands { W.is_truthful swap.new → StandsOver (W.content swap.old) live.old (W.content swap.new) live.new }
    ensures acts { W.is_truthful swap.new → IfOk result (λ r. ActsShadow r caller.now (W.content swap.old) live.old live.new low stack.now.items stack.now.items) }
    ensures there { IfOk result (λ r. (cells : Store) → IsBegunThere cells r) }
    ensures ready { IfOk result (IsBegunReady live.new.objects) }
{
    match object_at(above(stack, low), 0, &live.objects) {
        Some(o) => shadow(live, swap, caller, stack, low, o),
        None => Ok(nothing(low)),
    }
}

/// `shadow` ends before it asks. Its arguments are taken from the stack.
fn end(stack: &mut Vec<Value>, low: usize, answer: Answer) -> Begun
    ensures answer { result ≡ B.Ends answer }
    ensures items { stack.new.items ≡ take low stack.old.items }
    ensures keeps { (live : _) → IsFit live stack.old.items → IsFit live stack.new.items }
{
    cut(stack, low);
    Begun::Ends(answer)
}

/// `shadow` begins, with so many arguments on top of the stack.
///
/// The price before is paid first; then an argument that is no object is an error; then 0 is answered where the places or the chains do not
/// allow that the object of the caller shadows the other one; then the programs of both come into memory, where they are out, and 0 is
/// answered where a nomask function or the pragma `no_shadow` of the other one stands in the way; else a job asks the master. Where it ends
/// its arguments are gone from the stack. The job's values lie above what lay below them.
///
/// # Errors
/// `Swap` where the read of a program failed, or gave other bytes than were written; it is out still. `NoMemory` also where
/// bytes of the right digest are none that fit. The state is closed after each, stands for the same world, and what was in memory is
/// there still.
pub fn begin_shadow<W: SwapFile>(
    live: &mut Live,
    swap: &mut W,
    caller: &Caller<'_>,
    stack: &mut Vec<Value>,
    args: usize,
    budget: &mut u64,
) -> Result<Begun, EnterFault>
    requires args { args ≤ length stack.old.items }
    requires fit { IsFit live.old stack.old.items }
    requires here { IsSome (row_at live.old.objects caller.now.this.0) }
    ensures brings { Brings (W.content swap.old) (W.content swap.new) (W.last swap.new) (W.read_faults swap.old) (W.read_faults swap.new) (W.write_faults swap.old) (W.write_faults swap.new)
        (W.is_truthful swap.old) (W.is_truthful swap.new) (W.is_honest swap.old) (W.is_honest swap.new) live.old live.new result }
    ensures closed { IsClosed live.new }
    ensures stands { W.is_truthful swap.new → StandsOver (W.content swap.old) live.old (W.content swap.new) live.new }
    ensures begins { W.is_truthful swap.new → IfOk result (λ r. BeginsShadow r caller.now (W.content swap.old) live.old stack.old.items args budget.old live.new stack.new.items budget.new) }
    ensures fit { OnOk result (IsFit live.new stack.new.items) }
    ensures there { IfOk result (IsBegunThere live.new.cells) }
    ensures ready { IfOk result (IsBegunReady live.new.objects) }
    ensures spends { budget.new ≤ budget.old }
{
    let low = stack.len() - args;
    let before = price_above(stack, low, &live.cells, &live.objects);
    let is_paid = pay_wide(budget, before);
    if !is_paid {
        return Ok(end(stack, low, Answer::Spent));
    }
    match bad_above(stack, low, &live.objects) {
        Some(number) => match bad_argument(live.alloc, Efun::Shadow, number) {
            Ok(answer) => Ok(end(stack, low, answer)),
            Err(_) => Err(EnterFault::NoMemory),
        },
        None => act(live, swap, caller, stack, low),
    }
}
