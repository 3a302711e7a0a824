//! What lies below the arguments of a call that goes through `call_other`.
ghost use Rattle.std.specs.Prelude.{◌≡◌, ◌+◌, ◌-◌, ◌<◌, ◌≤◌, ◌++◌, ◌∷◌, IfErr, IfOk, OnOk, Some, drop, length, slice_get, take};
ghost use Rattle.lp_values.specs.declared.value.Value.TheVariants.{Str};
ghost use Rattle.lp_cells.specs.Cells.{IsThere, Store};
ghost use Rattle.lp_language.specs.Eval.{name_or_zero};
ghost use Rattle.lp_step.specs.Steps.{IsFit};
ghost use Rattle.lp_vm.specs.declared.fault.VmFault.TheVariants.{NoMemory};
ghost use Rattle.lp_vm.specs.Laying.{HasText, Lays};

use crate::fault::VmFault;
use lp_step::next::Target;
use lp_values::text::Text;
use lp_values::value::Value;
use lp_world::live::Live;
use lp_world::shared::SharedProgram;
use std::alloc::AllocError;

/// Puts two values in at a place of the stack.
fn put_two(
    stack: &mut Vec<Value>,
    low: usize,
    first: Value,
    second: Value,
) -> Result<(), AllocError>
    requires { low ≤ length stack.old.items }
    ensures items { OnOk result (stack.new.items ≡ take low stack.old.items ++ first ∷ second ∷ drop low stack.old.items) }
    ensures keeps { OnOk result ((l : _) → IsThere l.cells first → IsThere l.cells second → IsFit l stack.old.items → IsFit l stack.new.items) }
{
    stack.insert(low, second)?;
    stack.insert(low, first)?;
    Ok(())
}

/// A text of a program, in the same memory.
fn text_at(program: &SharedProgram, k: u32) -> Result<Value, AllocError>
    requires { k < length program.now.consts }
    ensures value { IfOk result (λ v. (name : _) → slice_get program.now.consts k ≡ Some name → v ≡ Str name) }
    ensures there { IfOk result (λ v. (cells : Store) → IsThere cells v) }
{
    Ok(Value::Str(program.raw().consts.as_slice()[k as usize].copy()?))
}

/// A name as a value, or 0 where there is none.
fn name_or_zero(name: &Option<Text>) -> Result<Value, AllocError>
    ensures value { IfOk result (λ v. v ≡ name_or_zero name.now) }
    ensures there { IfOk result (λ v. (cells : Store) → IsThere cells v) }
{
    match name {
        Some(name) => Ok(Value::Str(name.copy()?)),
        None => Ok(Value::Int(0)),
    }
}

/// How many arguments there are with two more.
///
/// # Errors
/// `NoMemory` where that has no number.
fn two_more(args: u32) -> Result<u32, VmFault>
    ensures sum { IfOk result (λ n. n ≡ args + 2) }
    ensures fault { IfErr result (λ f. f ≡ NoMemory) }
{
    match args.checked_add(2) {
        Some(n) => Ok(n),
        None => Err(VmFault::NoMemory),
    }
}

/// The name of the simul-efun object, and that of the function, come below the arguments.
fn lay_simul(
    live: &Live,
    stack: &mut Vec<Value>,
    program: &SharedProgram,
    k: u32,
    args: u32,
) -> Result<u32, VmFault>
    requires arguments { args ≤ length stack.old.items }
    requires text { k < length program.now.consts }
    ensures lays { IfOk result (λ n. Lays (Target.Simul k) program.now live.now args stack.old.items n stack.new.items) }
    ensures keeps { OnOk result ((l : _) → IsFit l stack.old.items → IsFit l stack.new.items) }
    ensures fault { IfErr result (λ f. f ≡ NoMemory) }
{
    let name = text_at(program, k)?;
    let object = name_or_zero(&live.simul)?;
    let low = stack.len() - args as usize;
    put_two(stack, low, object, name)?;
    two_more(args)
}

/// What a call takes besides its arguments lies below them, as arguments of `call_other`: the object and the name, which lie
/// there already, or the simul-efun object's name and that of its function. Tells how many arguments there are with those. A
/// call that stays in its object takes nothing besides.
///
/// # Errors
/// `NoMemory`, also where so many arguments have no number.
pub fn lay_below(
    live: &Live,
    stack: &mut Vec<Value>,
    program: &SharedProgram,
    target: Target,
    args: u32,
) -> Result<u32, VmFault>
    requires arguments { args ≤ length stack.old.items }
    requires text { HasText target program.now }
    ensures lays { IfOk result (λ n. Lays target program.now live.now args stack.old.items n stack.new.items) }
    ensures keeps { OnOk result ((l : _) → IsFit l stack.old.items → IsFit l stack.new.items) }
    ensures fault { IfErr result (λ f. f ≡ NoMemory) }
{
    match target {
        Target::Slot(_) => Ok(args),
        Target::Fixed(_, _) => Ok(args),
        Target::Other => two_more(args),
        Target::Simul(k) => lay_simul(live, stack, program, k, args),
    }
}
