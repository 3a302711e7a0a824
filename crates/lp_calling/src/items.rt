//! `filter` and `map`.
ghost use Rattle.std.specs.Prelude.{◌≡◌, ◌+◌, ◌-◌, ◌<◌, ◌≤◌, ◌++◌, All, IfOk, List, OnOk, Option, Some, drop, false, length, map, slice_get, take, true};
ghost use Rattle.lp_values.specs.declared.value.Value.{Value as V};
ghost use Rattle.lp_cells.specs.Cells.{IsClosed as AreClosed};
ghost use Rattle.lp_cells.specs.Cells.{IsThere, KeepsThere, Store, with_cell};
ghost use Rattle.lp_cells.specs.declared.content.Content.{Content as X};
ghost use Rattle.lp_ops.specs.Operands.{operand};
ghost use Rattle.lp_meaning.specs.EfunArguments.{items_arg};
ghost use Rattle.lp_world.specs.Closed.{IsClosed};
ghost use Rattle.lp_world.specs.Rows.{live_in};
ghost use Rattle.lp_world.specs.declared.live.Live.{Live as L};
ghost use Rattle.lp_world.specs.declared.objects.Object.{Object};
ghost use Rattle.lp_efuns.specs.Subjects.{subject};
ghost use Rattle.lp_efuns.specs.declared.caller.Caller.{Caller as C};
ghost use Rattle.lp_efuns.specs.declared.caller.Turn.{Turn};
ghost use Rattle.lp_step.specs.Steps.{IsFit};
ghost use Rattle.lp_calling.specs.Beginning.{IsBegunReady, IsBegunThere, Starts};
ghost use Rattle.lp_calling.specs.Going.{IsAskedThere, IsStepThere, StageGoes, StageTakes};
ghost use Rattle.lp_calling.specs.Jobs.{IsStageOn, IsStageReady, added, round_efun, stage_left};

use crate::ends::{begin_bad, end_error};
use crate::job::{Begun, CallingFault, Job, Question, Round, Stage, Step};
use crate::laying::{above, copy_up, cut, put_all};
use lp_cells::cells::Cells;
use lp_efuns::answer::Did;
use lp_efuns::arguments::text_shared;
use lp_efuns::caller::Caller;
use lp_efuns::plain::finish;
use lp_efuns::subjects::subject;
use lp_instr::efun::Efun;
use lp_value_efuns::argument::{argument, items_in};
use lp_values::error::ErrorKind;
use lp_values::id::ObjId;
use lp_values::value::{Living, Value, is_zero};
use lp_world::live::Live;
use lp_world::objects::ObjectTable;
use std::alloc::AllocError;

// Beginning

/// The efun of a round.
fn efun_of(is_filter: bool) -> Efun
    ensures { result ≡ round_efun is_filter }
{
    if is_filter { Efun::Filter } else { Efun::Map }
}

/// Puts the items of the array that the first argument is on top, and tells how many they are.
fn lay_items(
    stack: &mut Vec<Value>,
    low: usize,
    cells: &Cells,
    objects: &ObjectTable,
) -> Result<usize, AllocError>
    requires low { low ≤ length stack.old.items }
    requires there { All (IsThere cells.now) stack.old.items }
    requires closed { AreClosed cells.now }
    ensures items { OnOk result (stack.new.items ≡ stack.old.items ++ items_arg (map (operand (live_in objects.now) cells.now) (drop low stack.old.items)) 0) }
    ensures count { IfOk result (λ n. n ≡ length (items_arg (map (operand (live_in objects.now) cells.now) (drop low stack.old.items)) 0)) }
    ensures there { OnOk result (All (IsThere cells.now) stack.new.items) }
{
    let array = argument(above(stack, low), 0, objects)?;
    let items = items_in(&array, cells);
    put_all(stack, items)?;
    Ok(items.len())
}

/// `filter` or `map` goes on as a job, with this object. Its values are the arguments and the items of the array as it stands.
fn begin_round(
    live: &Live,
    stack: &mut Vec<Value>,
    low: usize,
    is_filter: bool,
    o: ObjId,
) -> Result<Begun, CallingFault>
    requires low { low ≤ length stack.old.items }
    requires fit { IsFit live.now stack.old.items }
    ensures starts { IfOk result (λ r. (caller : C) → ((cells : Store) → Some o ≡ subject (live_in live.now.objects) caller.this (map (operand (live_in live.now.objects) cells) (drop low stack.old.items)) 2) → Starts r (round_efun is_filter) caller live.now low stack.old.items stack.new.items) }
    ensures fit { OnOk result (IsFit live.now stack.new.items) }
    ensures there { IfOk result (λ r. (cells : Store) → IsBegunThere cells r) }
    ensures ready { IfOk result (λ r. (objects : List (Option Object)) → IsBegunReady objects r) }
{
    let arguments = stack.len() - low;
    let function = text_shared(live.alloc, above(stack, low), 1)?;
    let count = lay_items(stack, low, &live.cells, &live.objects)?;
    Ok(Begun::Runs(Job {
        efun: efun_of(is_filter),
        low,
        stage: Stage::Items(Round {
            object: o,
            function,
            arguments,
            count,
            done: 0,
            is_filter,
        }),
    }))
}

/// `filter` or `map` begins. Where no object is given and this one is not live, the third argument is bad.
pub(crate) fn begin_items(
    live: &Live,
    caller: &Caller<'_>,
    stack: &mut Vec<Value>,
    low: usize,
    is_filter: bool,
) -> Result<Begun, CallingFault>
    requires low { low ≤ length stack.old.items }
    requires fit { IsFit live.now stack.old.items }
    ensures starts { IfOk result (λ r. Starts r (round_efun is_filter) caller.now live.now low stack.old.items stack.new.items) }
    ensures fit { OnOk result (IsFit live.now stack.new.items) }
    ensures there { IfOk result (λ r. (cells : Store) → IsBegunThere cells r) }
    ensures ready { IfOk result (λ r. (objects : List (Option Object)) → IsBegunReady objects r) }
{
    match subject(above(stack, low), 2, caller.this, &live.objects) {
        Some(o) => begin_round(live, stack, low, is_filter, o),
        None => begin_bad(live.alloc, stack, low, efun_of(is_filter), 3),
    }
}

// Going on

/// Puts the arguments of the efun behind the third one on top.
fn lay_further(stack: &mut Vec<Value>, low: usize, arguments: usize) -> Result<(), AllocError>
    requires { low + arguments ≤ length stack.old.items }
    ensures { OnOk result (stack.new.items ≡ stack.old.items ++ take (arguments - 3) (drop (low + 3) stack.old.items)) }
{
    if 3 < arguments {
        return copy_up(stack, low + 3, low + arguments);
    }
    Ok(())
}

/// Puts the value at a place on top, and above it the arguments of the efun behind the third one.
fn lay_question(
    stack: &mut Vec<Value>,
    low: usize,
    arguments: usize,
    at: usize,
) -> Result<(), AllocError>
    requires arguments { low + arguments ≤ length stack.old.items }
    requires at { at < length stack.old.items }
    ensures { OnOk result (stack.new.items ≡ stack.old.items ++ (take 1 (drop at stack.old.items) ++ take (arguments - 3) (drop (low + 3) stack.old.items))) }
{
    copy_up(stack, at, at + 1)?;
    lay_further(stack, low, arguments)
}

/// The next item asks.
fn ask_item(round: &Round, stack: &mut Vec<Value>, low: usize) -> Result<Step, AllocError>
    requires room { low + (round.now.arguments + round.now.count) ≤ length stack.old.items }
    requires left { round.now.done < round.now.count }
    ensures goes { IfOk result (λ r. (efun : _) (live : L) (turn : Turn) (budget : _) → live_in live.objects round.now.object ≡ true → StageGoes r efun (Stage.Items round.now) low live turn stack.old.items budget live turn stack.new.items budget) }
    ensures fit { OnOk result ((l : L) → IsFit l stack.old.items → IsFit l stack.new.items) }
    ensures there { IfOk result (λ r. (cells : Store) → IsStepThere cells r) }
    ensures asked { IfOk result (λ r. (objects : List (Option Object)) → live_in objects round.now.object ≡ true → IsAskedThere objects r) }
{
    let item = low + (round.arguments + round.done);
    lay_question(stack, low, round.arguments, item)?;
    Ok(Step::Asks(
        Question::Other(round.object, round.function.copy()?),
        1 + round.arguments.saturating_sub(3),
    ))
}

/// A new array of the values from a place on, which are taken from the stack. So many values as no operation makes answer as
/// where memory is wanting.
fn array_above(cells: &mut Cells, stack: &mut Vec<Value>, at: usize) -> Result<Value, AllocError>
    requires at { at ≤ length stack.old.items }
    requires there { All (IsThere cells.old) stack.old.items }
    requires closed { AreClosed cells.old }
    ensures value { IfOk result (λ v. v ≡ V.Arr (record { 0 = length cells.old })) }
    ensures made { OnOk result (cells.new ≡ with_cell cells.old (X.Array (drop at stack.old.items))) }
    ensures rest { OnOk result (stack.new.items ≡ take at stack.old.items) }
    ensures there { IfOk result (IsThere cells.new) }
    ensures stay { KeepsThere cells.old cells.new }
    ensures closed { AreClosed cells.new }
{
    let items = stack.split_off(at)?;
    match cells.new_array(items) {
        Ok(c) => Ok(Value::Arr(c)),
        Err(_) => Err(AllocError),
    }
}

/// All items are done: what was taken is the value.
fn end_items(
    efun: Efun,
    round: &Round,
    live: &mut Live,
    stack: &mut Vec<Value>,
    low: usize,
    budget: &mut u64,
) -> Result<Step, AllocError>
    requires room { low + (round.now.arguments + round.now.count) ≤ length stack.old.items }
    requires done { round.now.count ≤ round.now.done }
    requires fit { IsFit live.old stack.old.items }
    ensures goes { IfOk result (λ r. (turn : Turn) → StageGoes r efun (Stage.Items round.now) low live.old turn stack.old.items budget.old live.new turn stack.new.items budget.new) }
    ensures closed { IsClosed live.new }
    ensures fit { OnOk result (IsFit live.new stack.new.items) }
    ensures there { IfOk result (IsStepThere live.new.cells) }
    ensures asked { IfOk result (IsAskedThere live.new.objects) }
    ensures stay { KeepsThere live.old.cells live.new.cells }
    ensures spends { budget.new ≤ budget.old }
    ensures objects { live.new.objects ≡ live.old.objects }
    ensures names { live.new.names ≡ live.old.names }
{
    let at = low + (round.arguments + round.count);
    let v = array_above(&mut live.cells, stack, at)?;
    cut(stack, low);
    Ok(Step::Ends(finish(efun, Did::Value(v), &live.cells, &live.objects, budget)))
}

/// The object is not live, which is an error.
fn end_dead(
    round: &Round,
    live: &Live,
    stack: &mut Vec<Value>,
    low: usize,
) -> Result<Step, AllocError>
    requires room { low + (round.now.arguments + round.now.count) ≤ length stack.old.items }
    requires left { round.now.done < round.now.count }
    requires dead { live_in live.now.objects round.now.object ≡ false }
    ensures goes { IfOk result (λ r. (efun : _) (turn : Turn) (budget : _) → StageGoes r efun (Stage.Items round.now) low live.now turn stack.old.items budget live.now turn stack.new.items budget) }
    ensures fit { OnOk result ((l : L) → IsFit l stack.old.items → IsFit l stack.new.items) }
    ensures there { IfOk result (λ r. (cells : Store) → IsStepThere cells r) }
    ensures asked { IfOk result (λ r. (objects : List (Option Object)) → IsAskedThere objects r) }
{
    end_error(live.alloc, stack, low, ErrorKind::BadTarget)
}

/// The next item asks, or the object is not live, which is an error; after the last item the efun ends.
pub(crate) fn step_items(
    efun: Efun,
    round: &Round,
    live: &mut Live,
    stack: &mut Vec<Value>,
    low: usize,
    budget: &mut u64,
) -> Result<Step, AllocError>
    requires room { low + (round.now.arguments + round.now.count) ≤ length stack.old.items }
    requires done { round.now.done ≤ round.now.count }
    requires fit { IsFit live.old stack.old.items }
    ensures goes { IfOk result (λ r. (turn : Turn) → StageGoes r efun (Stage.Items round.now) low live.old turn stack.old.items budget.old live.new turn stack.new.items budget.new) }
    ensures closed { IsClosed live.new }
    ensures fit { OnOk result (IsFit live.new stack.new.items) }
    ensures there { IfOk result (IsStepThere live.new.cells) }
    ensures asked { IfOk result (IsAskedThere live.new.objects) }
    ensures stay { KeepsThere live.old.cells live.new.cells }
    ensures spends { budget.new ≤ budget.old }
    ensures objects { live.new.objects ≡ live.old.objects }
    ensures names { live.new.names ≡ live.old.names }
{
    if round.count <= round.done {
        return end_items(efun, round, live, stack, low, budget);
    }
    if !live.objects.is_live(round.object) {
        return end_dead(round, live, stack, low);
    }
    ask_item(round, stack, low)
}

// Answers

/// Puts what an answer adds on top: of a filter the item at a place, where the answer is not 0; else the answer.
fn lay_answer(
    is_filter: bool,
    at: usize,
    objects: &ObjectTable,
    stack: &mut Vec<Value>,
    v: Value,
) -> Result<(), AllocError>
    requires { at < length stack.old.items }
    ensures adds { OnOk result ((x : V) → slice_get stack.old.items at ≡ Some x → stack.new.items ≡ stack.old.items ++ added is_filter (live_in objects.now) x v) }
    ensures fit { OnOk result ((l : L) → IsThere l.cells v → IsFit l stack.old.items → IsFit l stack.new.items) }
    ensures more { OnOk result (length stack.old.items ≤ length stack.new.items) }
{
    if !is_filter {
        stack.push(v)?;
        return Ok(());
    }
    if is_zero(&v, objects) {
        return Ok(());
    }
    copy_up(stack, at, at + 1)
}

/// An item is done.
pub(crate) fn take_item(
    round: Round,
    objects: &ObjectTable,
    stack: &mut Vec<Value>,
    low: usize,
    v: Value,
) -> Result<Stage, AllocError>
    requires room { low + (round.arguments + round.count) ≤ length stack.old.items }
    requires left { round.done < round.count }
    ensures takes { IfOk result (λ t. StageTakes (Stage.Items round) v (live_in objects.now) low stack.old.items t stack.new.items) }
    ensures on { IfOk result (λ t. IsStageOn t low (length stack.new.items)) }
    ensures less { IfOk result (λ t. stage_left t < round.count - round.done) }
    ensures ready { IfOk result (λ t. (objects : List (Option Object)) → IsStageReady objects t) }
    ensures fit { OnOk result ((l : L) → IsThere l.cells v → IsFit l stack.old.items → IsFit l stack.new.items) }
{
    let at = low + (round.arguments + round.done);
    lay_answer(round.is_filter, at, objects, stack, v)?;
    Ok(Stage::Items(Round {
        object: round.object,
        function: round.function,
        arguments: round.arguments,
        count: round.count,
        done: round.done + 1,
        is_filter: round.is_filter,
    }))
}
