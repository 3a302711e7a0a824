//! Calls begin and end.
ghost use Rattle.std.specs.Prelude.{◌≡◌, ◌≤◌, IfErr, IfOk, None, OnOk, Some, length, take};
ghost use Rattle.lp_step.specs.Steps.{IsFit, KeepsVariables};
ghost use Rattle.lp_asking.specs.Beginning.{HasCaller, HasNoCaller, IsPlaced};
ghost use Rattle.lp_reaching.specs.Reaching.{IsInMemory};
ghost use Rattle.lp_vm.specs.declared.request.Request.TheVariants as requests;
ghost use Rattle.lp_vm.specs.Answering.{Begins};
ghost use Rattle.lp_vm.specs.declared.fault.VmFault.TheVariants.{NoMemory};
ghost use Rattle.lp_vm.specs.Beginning.{CanStart, IsBegun, Starts, left_behind};

use crate::fault::VmFault;
use lp_asking::asker::Asker;
use lp_asking::ending::{Cause, Ending, Place, Stop};
use lp_asking::entry::{finish, pay_entry, place_of, placed, push_caller};
use lp_asking::resume::drop_top;
use lp_frames::entry::enter;
use lp_reaching::marking::mark;
use lp_reaching::reached::Reached;
use lp_values::error::{ErrorKind, RunError};
use lp_values::value::Value;
use lp_world::frame::Frame;
use lp_world::live::Live;
use std::alloc::Global;

/// How deep calls may lie in one another.
const MAX_DEPTH: u32 = 100;

/// How a function begins.
#[derive(Drop)]
pub enum Begun {
    /// It does not: this stops it.
    Stopped(Stop),
    /// It runs.
    Runs(Frame),
}

/// What is to be done where a function ends that was entered.
#[derive(Clone, Copy)]
pub struct Left {
    /// Where the function stands.
    pub place: Place,
    /// How high the stack was below its arguments.
    pub bottom: usize,
    /// Whether a caller came with it.
    pub is_called: bool,
}

/// How a call begins.
#[derive(Drop)]
pub enum Started {
    /// It is answered at once.
    Answered(Ending),
    /// Its function runs.
    Runs(Frame, Left),
}

/// A stop of a call that did not begin.
fn unbegun(cause: Cause) -> Stop
    ensures { result ≡ record { cause = cause; place = None } }
{
    Stop { cause, place: None }
}

/// Begins a function whose arguments lie on top of the stack. 1 is paid, and else the budget is spent; at a depth above 100
/// it is an error. Then the entry counts, and the function runs, one deeper.
fn begin(
    alloc: Global,
    live: &mut Live,
    stack: &mut Vec<Value>,
    asker: &mut Asker,
    reached: Reached,
    args: u32,
    budget: &mut u64,
) -> Result<Begun, VmFault>
    requires fit { IsFit live.old stack.old.items }
    requires arguments { args ≤ length stack.old.items }
    requires there { IsInMemory live.old reached.callee reached.code }
    ensures begins { IfOk result (λ r. Begins r reached.callee reached.code reached.caller args live.old stack.old.items asker.old budget.old live.new stack.new.items asker.new budget.new) }
    ensures begun { IfOk result (λ r. IsBegun r reached.caller live.new stack.new.items asker.old budget.old asker.new budget.new) }
    ensures home { OnOk result (KeepsVariables live.old.objects live.new.objects) }
    ensures fault { IfErr result (λ f. f ≡ NoMemory) }
{
    let is_paid = pay_entry(budget);
    if !is_paid {
        drop_top(stack, args as usize);
        return Ok(Begun::Stopped(unbegun(Cause::Spent)));
    }
    if asker.depth >= MAX_DEPTH {
        drop_top(stack, args as usize);
        let error = RunError::plain(alloc, ErrorKind::TooDeep)?;
        return Ok(Begun::Stopped(unbegun(Cause::Failed(error))));
    }
    mark(live, reached.callee.this, reached.callee.program);
    push_caller(asker, reached.caller)?;
    let frame = enter(alloc, stack, reached.code, reached.callee, args)?;
    Ok(Begun::Runs(frame))
}

/// What is to be done where this function ends, with so many arguments on top of the stack.
fn left_at(reached: &Reached, stack: &Vec<Value>, args: u32) -> Left
    requires { args ≤ length stack.now.items }
    ensures { result ≡ left_behind reached.now (length stack.now.items) args }
{
    Left {
        place: place_of(&reached.callee),
        bottom: stack.len() - args as usize,
        is_called: reached.caller.is_some(),
    }
}

/// Begins a call of a function.
fn start_function(
    alloc: Global,
    live: &mut Live,
    stack: &mut Vec<Value>,
    asker: &mut Asker,
    reached: Reached,
    args: u32,
    budget: &mut u64,
) -> Result<Started, VmFault>
    requires fit { IsFit live.old stack.old.items }
    requires can { CanStart live.old stack.old.items asker.old budget.old (requests.Function (Some reached)) args }
    ensures starts { IfOk result (λ r. Starts r (Some reached) args live.old stack.old.items asker.old budget.old live.new stack.new.items asker.new budget.new) }
    ensures fault { IfErr result (λ f. f ≡ NoMemory) }
{
    let left = left_at(&reached, stack, args);
    match begin(alloc, live, stack, asker, reached, args, budget)? {
        Begun::Stopped(stop) => Ok(Started::Answered(Ending::Stopped(stop))),
        Begun::Runs(frame) => Ok(Started::Runs(frame, left)),
    }
}

/// Begins a call whose arguments lie on top of the stack: what reaches no function is answered 0.
///
/// # Errors
/// `NoMemory`.
pub fn start(
    alloc: Global,
    live: &mut Live,
    stack: &mut Vec<Value>,
    asker: &mut Asker,
    reached: Option<Reached>,
    args: u32,
    budget: &mut u64,
) -> Result<Started, VmFault>
    requires fit { IsFit live.old stack.old.items }
    requires can { CanStart live.old stack.old.items asker.old budget.old (requests.Function reached) args }
    ensures starts { IfOk result (λ r. Starts r reached args live.old stack.old.items asker.old budget.old live.new stack.new.items asker.new budget.new) }
    ensures fault { IfErr result (λ f. f ≡ NoMemory) }
{
    match reached {
        None => {
            drop_top(stack, args as usize);
            Ok(Started::Answered(Ending::Value(Value::Int(0))))
        }
        Some(reached) => start_function(alloc, live, stack, asker, reached, args, budget),
    }
}

/// A function that was entered ended: nothing is left of it on the stack, who asks is as before, and a stop without a place
/// was in it.
pub fn close(stack: &mut Vec<Value>, asker: &mut Asker, left: Left, ending: Ending) -> Ending
    requires depth { 1 ≤ asker.old.depth }
    requires bottom { left.bottom ≤ length stack.old.items }
    ensures stack { stack.new.items ≡ take left.bottom stack.old.items }
    ensures asker { (was : _) (caller : _) → HasCaller caller was asker.old → HasNoCaller left.is_called caller was asker.old asker.new }
    ensures placed { IsPlaced left.place ending result }
    ensures keeps { (live : _) → IsFit live stack.old.items → IsFit live stack.new.items }
{
    finish(stack, asker, left.bottom, left.is_called);
    placed(ending, left.place)
}
