//! `clone_object` begins.
ghost use Rattle.std.specs.Prelude.{◌≡◌, ◌-◌, ◌≤◌, All, IfErr, IfOk, OnOk, drop, length, map, slice_get, take};
ghost use Rattle.std.specs.Option.{option_copied};
ghost use Rattle.std.specs.Str.{chars};
ghost use Rattle.std.specs.String.{string_bytes};
ghost use Rattle.lp_cells.specs.Cells.{IsThere, Store};
ghost use Rattle.lp_values.specs.declared.value.Value.{Value as V};
ghost use Rattle.lp_instr.specs.EfunKinds.{kinds};
ghost use Rattle.lp_language.specs.Course.{State};
ghost use Rattle.lp_language.specs.Operations.{cells_of, living};
ghost use Rattle.lp_meaning.specs.EfunArguments.{first_bad, price_before};
ghost use Rattle.lp_meaning.specs.FileLoads.{clone_name, clone_of};
ghost use Rattle.lp_ops.specs.Operands.{operand};
ghost use Rattle.lp_world.specs.Closed.{IsClosed};
ghost use Rattle.lp_world.specs.Rows.{live_in};
ghost use Rattle.lp_step.specs.Steps.{IsFit, KeepsVariables};
ghost use Rattle.lp_cloning.specs.Arguments.{ActsAs, IsBlueprintName, IsRefused, IsSpent, IsTakenIf, NamesBlueprint, RefusesOn};
ghost use Rattle.lp_cloning.specs.Beginning.{Begins, IsReady, StartsAs};
ghost use Rattle.lp_cloning.specs.Faults.{IsTakenFor, Tells, brought_by};

use crate::clone::{clone_live, error_begun};
use crate::fault::CloningFault;
use crate::job::{Begun, Cloning};
use crate::naming::{is_clone_name, load_name};
use lp_asking::ending::{Cause, Ending, Stop};
use lp_asking::truth::Truthful;
use lp_beginning::report::object_name;
use lp_cells::cells::Cells;
use lp_efuns::names::as_name;
use lp_efuns::plain::pay_wide;
use lp_instr::efun::Efun;
use lp_value_efuns::fit::first_bad;
use lp_value_efuns::price::price_before;
use lp_values::error::{ErrorKind, RunError};
use lp_values::id::ObjId;
use lp_values::value::{Living, Value};
use lp_world::live::Live;
use lp_world::objects::ObjectTable;
use std::alloc::{AllocError, Global};

/// The values above a place.
fn above(stack: &Vec<Value>, low: usize) -> &[Value]
    requires { low ≤ length stack.now.items }
    ensures { result.now ≡ drop low stack.now.items }
{
    &stack[low..]
}

/// Takes all values above a place.
fn cut(stack: &mut Vec<Value>, low: usize)
    ensures items { stack.new.items ≡ take low stack.old.items }
    ensures keeps { (live : _) → IsFit live stack.old.items → IsFit live stack.new.items }
{
    stack.truncate(low);
}

/// What the efun costs before it acts, with the arguments above a place.
fn price_above(stack: &Vec<Value>, low: usize, cells: &Cells, objects: &ObjectTable) -> u128
    requires low { low ≤ length stack.now.items }
    requires there { All (IsThere cells.now) stack.now.items }
    ensures { (s : State) → living s ≡ live_in objects.now → cells_of s ≡ cells.now → result ≡ price_before Efun.CloneObject (drop low stack.now.items) s }
{
    price_before(Efun::CloneObject, above(stack, low), cells, objects)
}

/// The number, counted from 1, of the first argument above a place that is of another kind than the efun takes.
fn bad_above(stack: &Vec<Value>, low: usize, objects: &ObjectTable) -> Option<u64>
    requires low { low ≤ length stack.now.items }
    ensures { (cells : Store) → result ≡ first_bad 1 (kinds Efun.CloneObject) (map (operand (live_in objects.now) cells) (drop low stack.now.items)) }
{
    first_bad(Efun::CloneObject, above(stack, low), objects)
}

/// The budget is spent.
fn spent() -> Begun
    ensures { IsSpent result }
{
    Begun::Ends(Ending::Stopped(Stop {
        cause: Cause::Spent,
        place: None,
    }))
}

/// A refusal of an argument. Arguments count from 1.
fn refused(alloc: Global, number: u64) -> Result<Begun, AllocError>
    ensures { IfOk result (IsRefused number) }
{
    let error = RunError::bad_arg(alloc, number, Efun::CloneObject.name())?;
    Ok(Begun::Ends(Ending::Stopped(Stop {
        cause: Cause::Failed(error),
        place: None,
    })))
}

/// The name of the blueprint of a live object. Of one that is not live the answer is want of memory.
fn object_blueprint(live: &Live, o: ObjId) -> Result<String, AllocError>
    ensures { IfOk result (λ s. NamesBlueprint live.now (V.Obj o) (chars (string_bytes s))) }
{
    if !live.objects.is_live(o) {
        return Err(AllocError);
    }
    let name = object_name(live, o)?;
    load_name(live.alloc, name)
}

/// The name of the blueprint that a value names: a text names one, an object has one. Of another value the answer is want of memory.
fn value_blueprint(live: &Live, v: &Value) -> Result<String, AllocError>
    ensures { IfOk result (λ s. NamesBlueprint live.now v.now (chars (string_bytes s))) }
{
    match v {
        Value::Str(t) => as_name(live.alloc, t.as_slice()),
        Value::Obj(o) => object_blueprint(live, *o),
        _ => Err(AllocError),
    }
}

/// The first of some arguments.
fn first_of(args: &[Value]) -> Option<&Value>
    ensures { option_copied result ≡ slice_get args.now 0 }
{
    args.get(0)
}

/// The name of the blueprint that the first of some arguments names.
fn blueprint_name(live: &Live, args: &[Value]) -> Result<String, AllocError>
    ensures { IfOk result (λ s. IsBlueprintName live.now args.now (chars (string_bytes s))) }
{
    match first_of(args) {
        Some(v) => value_blueprint(live, v),
        None => Err(AllocError),
    }
}

/// A clone of the blueprint with a name: it is loaded where it does not live. A clone's name is an error.
fn clone_of<W: Truthful>(live: &mut Live, swap: &mut W, name: String) -> Result<Begun, CloningFault>
    requires closed { IsClosed live.old }
    ensures starts { IfOk result (λ r. StartsAs r (λ by s. clone_of by (chars (string_bytes name)) s) (W.content swap.old) live.old live.new) }
    ensures ready { IfOk result (IsReady live.new.objects) }
    ensures closed { IsClosed live.new }
    ensures cells { live.new.cells ≡ live.old.cells }
    ensures variables { KeepsVariables live.old.objects live.new.objects }
    ensures tells { Tells (W.content swap.old) (W.content swap.new) (W.last swap.new) (W.read_faults swap.old) (W.read_faults swap.new) (W.write_faults swap.old) (W.write_faults swap.new)
        (W.is_truthful swap.old) (W.is_truthful swap.new) (W.is_honest swap.old) (W.is_honest swap.new) live.old live.new (brought_by result) }
    ensures refused { IfErr result (IsTakenFor (W.content swap.old) live.old (λ w. clone_name w (chars (string_bytes name)))) }
    ensures kept { W.content swap.new ≡ W.content swap.old }
{
    if is_clone_name(name.as_str()) {
        return error_begun(live.alloc, ErrorKind::BadTarget);
    }
    match live.names.find(name.as_str()) {
        Some(o) => clone_live(live, swap, name.as_str(), o),
        None => Ok(Begun::Runs(Cloning::Load(name))),
    }
}

/// The efun acts, whose arguments are paid and of their kinds. They are taken from the stack.
fn act<W: Truthful>(
    live: &mut Live,
    swap: &mut W,
    stack: &mut Vec<Value>,
    low: usize,
) -> Result<Begun, CloningFault>
    requires low { low ≤ length stack.old.items }
    requires fit { IsFit live.old stack.old.items }
    requires kinds { (cells : Store) → first_bad 1 (kinds Efun.CloneObject) (map (operand (live_in live.old.objects) cells) (drop low stack.old.items)) ≡ None }
    ensures acts { IfOk result (λ r. ActsAs r (W.content swap.old) live.old low stack.old.items live.new stack.new.items) }
    ensures ready { IfOk result (IsReady live.new.objects) }
    ensures fit { OnOk result (IsFit live.new stack.new.items) }
    ensures variables { KeepsVariables live.old.objects live.new.objects }
    ensures tells { Tells (W.content swap.old) (W.content swap.new) (W.last swap.new) (W.read_faults swap.old) (W.read_faults swap.new) (W.write_faults swap.old) (W.write_faults swap.new)
        (W.is_truthful swap.old) (W.is_truthful swap.new) (W.is_honest swap.old) (W.is_honest swap.new) live.old live.new (brought_by result) }
    ensures refused { IfErr result (IsTakenIf (W.content swap.old) live.old (drop low stack.old.items)) }
    ensures kept { W.content swap.new ≡ W.content swap.old }
{
    match blueprint_name(live, above(stack, low)) {
        Ok(name) => {
            cut(stack, low);
            clone_of(live, swap, name)
        }
        Err(_) => Err(CloningFault::NoMemory),
    }
}

/// `clone_object` begins, with so many arguments on top of the stack, which are taken. The price before is paid first; then the
/// first argument of another kind than the efun takes is an error; then the blueprint is loaded, or the clone is made.
///
/// # Errors
/// `NameTaken` where a live object has the name of the clone, which LPC can bring about only by an `inherit` of a file whose name has a
/// `#`. `Swap` where the read of a program failed, or gave other bytes than were written; that one is out still. `NoMemory` where memory
/// ran out, or numbers for clones did, and where the device did not tell the truth. Nothing is said of the state then.
pub fn begin<W: Truthful>(
    live: &mut Live,
    swap: &mut W,
    stack: &mut Vec<Value>,
    args: usize,
    budget: &mut u64,
) -> Result<Begun, CloningFault>
    requires args { args ≤ length stack.old.items }
    requires fit { IsFit live.old stack.old.items }
    ensures begins { IfOk result (λ r. Begins r (W.content swap.old) live.old stack.old.items args budget.old live.new stack.new.items budget.new) }
    ensures ready { IfOk result (IsReady live.new.objects) }
    ensures fit { OnOk result (IsFit live.new stack.new.items) }
    ensures spends { budget.new ≤ budget.old }
    ensures variables { KeepsVariables live.old.objects live.new.objects }
    ensures tells { Tells (W.content swap.old) (W.content swap.new) (W.last swap.new) (W.read_faults swap.old) (W.read_faults swap.new) (W.write_faults swap.old) (W.write_faults swap.new)
        (W.is_truthful swap.old) (W.is_truthful swap.new) (W.is_honest swap.old) (W.is_honest swap.new) live.old live.new (brought_by result) }
    ensures refused { IfErr result (RefusesOn (W.content swap.old) live.old stack.old.items args) }
    ensures kept { W.content swap.new ≡ W.content swap.old }
{
    let low = stack.len() - args;
    let before = price_above(stack, low, &live.cells, &live.objects);
    if !pay_wide(budget, before) {
        cut(stack, low);
        return Ok(spent());
    }
    match bad_above(stack, low, &live.objects) {
        Some(number) => {
            cut(stack, low);
            Ok(refused(live.alloc, number)?)
        }
        None => act(live, swap, stack, low),
    }
}
