//! Entries of functions.
ghost use Rattle.std.specs.Prelude.{◌≡◌, ◌+◌, ◌-◌, ◌<◌, ◌≤◌, ◌^◌, ◌++◌, IfOk, IsFalse, IsTrue, OnOk, Some, drop, length, replicate, slice_get, take};
ghost use Rattle.lp_language.specs.Course.{zero_value};
ghost use Rattle.lp_frames.specs.Entries.{BeginsAsWritten, CanRunFrom, Enters, IsOfRow, LaysOut, RunsFrom, begun_locals};

use lp_code::program::{FunRow, RawProgram};
use lp_step::fault::StepFault;
use lp_step::stack::push;
use lp_values::id::{ObjId, ProgId};
use lp_values::value::Value;
use lp_world::frame::Frame;
use lp_world::shared::SharedProgram;
use std::alloc::Global;

/// The function that is called, and where it runs.
#[derive(Clone, Copy, Debug, PartialEq, Eq)]
pub struct Callee {
    /// The object.
    pub this: ObjId,
    /// The version in whose text the function stands.
    pub program: ProgId,
    /// The part of the object's version that it is.
    pub part: u16,
    /// Where its variables begin among those of the object.
    pub base: u32,
    /// The function's row.
    pub fun: u16,
}

/// A row of the functions.
fn row_at(code: &RawProgram, fun: u16) -> &FunRow
    requires { fun < length code.now.funs }
    ensures { slice_get code.now.funs fun ≡ Some result.now }
{
    &code.funs.as_slice()[fun as usize]
}

/// Whether each height of the stack has a number of 32 bits while a function with so many locals and operands runs.
fn has_heights(bottom: usize, locals: usize, operands: usize) -> bool
    requires locals { locals < 2 ^ 16 }
    requires operands { operands < 2 ^ 32 }
    ensures yes { IsTrue result → bottom + locals + operands < 2 ^ 32 }
    ensures no { IsFalse result → 2 ^ 32 ≤ bottom + locals + operands }
{
    if bottom > u32::MAX as usize {
        return false;
    }
    bottom + locals + operands <= u32::MAX as usize
}

/// Puts zeros on top until the stack is as high as this.
fn fill(stack: &mut Vec<Value>, height: usize) -> Result<(), StepFault>
    ensures { OnOk result (stack.new.items ≡ stack.old.items ++ replicate (height - length stack.old.items) zero_value) }
{
    while stack.len() < height {
        push(stack, Value::Int(0))?;
    }
    Ok(())
}

/// Makes the values from the bottom on the first locals of a function.
fn begin_locals(
    stack: &mut Vec<Value>,
    bottom: usize,
    params: usize,
    locals: usize,
) -> Result<(), StepFault>
    requires bottom { bottom ≤ length stack.old.items }
    requires few { bottom + locals < 2 ^ 32 }
    requires params { params ≤ locals }
    ensures { OnOk result (stack.new.items ≡ take bottom stack.old.items ++ begun_locals params locals (drop bottom stack.old.items)) }
{
    stack.truncate(bottom + params);
    fill(stack, bottom + locals)?;
    Ok(())
}

/// Enters a function with so many arguments, which lie on top of the stack: they become its first locals where they lie.
/// Surplus ones are dropped, missing ones are 0, and so is each other local. Takes memory only where the stack grows.
///
/// # Errors
/// `NoMemory` also where the stack would become higher than 32 bits count.
pub fn enter(
    alloc: Global,
    stack: &mut Vec<Value>,
    code: SharedProgram,
    callee: Callee,
    args: u32,
) -> Result<Frame, StepFault>
    requires function { callee.fun < length code.funs }
    requires arguments { args ≤ length stack.old.items }
    ensures stack { IfOk result (λ frame. LaysOut code callee args stack.old.items stack.new.items frame) }
    ensures enters { IfOk result (λ frame. Enters code callee args stack.old.items stack.new.items frame) }
    ensures runs { IfOk result (λ frame. RunsFrom code callee args stack.old.items stack.new.items frame) }
    ensures of { OnOk result (IsOfRow code callee args stack.old.items) }
    ensures can { IfOk result (λ frame. CanRunFrom code callee args stack.old.items stack.new.items frame) }
{
    let raw = code.raw();
    let row = row_at(raw, callee.fun);
    let at = row.from;
    let params = row.params as usize;
    let locals = row.locals as usize;
    let bottom = stack.len() - args as usize;
    let fits = has_heights(bottom, locals, raw.max_height as usize);
    if !fits {
        return Err(StepFault::NoMemory);
    }
    begin_locals(stack, bottom, params, locals)?;
    Ok(Frame {
        this: callee.this,
        program: callee.program,
        part: callee.part,
        base: callee.base,
        at,
        bottom: bottom as u32,
        fun: callee.fun,
        catches: Vec::new(alloc),
        code,
    })
}

/// Law: the locals with which a function is entered are those with which the language begins its body.
pub fn law_begins_as_written()
    ensures { BeginsAsWritten }
{}
