//! Runs, step by step.
ghost use Rattle.std.specs.Prelude.{◌≡◌, ◌+◌, ◌<◌, ◌^◌, All, IfOk, IfSome, IsTrue, Some};
ghost use Rattle.lp_cells.specs.Cells.{IsThere, Store};
ghost use Rattle.lp_instr.specs.Sound as sound;
ghost use Rattle.lp_step.specs.Steps.{CanStep, Finds, IsFit, instr_at};

use crate::build::frame;
use lp_instr::instr::{EndKind, Instr};
use lp_step::fault::StepFault;
use lp_step::next::{CallOf, EfunCall, Next};
use lp_step::step::step;
use lp_values::error::ErrorKind;
use lp_values::value::Value;
use lp_world::additions::empty_state;
use lp_world::frame::Frame;
use lp_world::live::Live;
use std::alloc::{AllocError, Global};

/// What a function comes to.
#[derive(Clone, Copy, Debug, PartialEq, Eq)]
pub enum Course {
    /// An integer.
    Int(i64),
    /// Another value.
    Other,
    /// An error.
    Error(ErrorKind),
    /// A call.
    Calls(CallOf),
    /// A call of an efun.
    Efun(EfunCall),
    /// The budget is spent.
    Spent,
    /// It is unsound, does not find its operands, or comes to no end in thirty thousand instructions.
    Stuck,
}

/// How many values an end of a range takes.
fn end_count(kind: EndKind) -> usize
    ensures { result ≡ sound.end_count kind }
{
    match kind {
        EndKind::Start => 1,
        EndKind::Back => 1,
        EndKind::Open => 0,
    }
}

/// Whether an instruction finds what it needs. Variables of objects are not looked at.
fn finds(live: &Live, stack: &Vec<Value>, frame: &Frame, instr: Instr) -> bool
    ensures { IsTrue result → Finds live.now stack.now.items frame.now instr }
{
    let _live = live;
    let height = stack.len();
    match instr {
        Instr::PushInt(_) => true,
        Instr::PushText(k) => (k as usize) < frame.code.raw().consts.as_slice().len(),
        Instr::PushLocal(k) => frame.bottom as usize + (k as usize) < height,
        Instr::SetLocal(k) => frame.bottom as usize + (k as usize) < height,
        Instr::Pop => 1 <= height,
        Instr::Dup => 1 <= height,
        Instr::Dup2 => 2 <= height,
        Instr::Jump(_) => true,
        Instr::JumpIfZero(_) => 1 <= height,
        Instr::JumpIfNotZero(_) => 1 <= height,
        Instr::KeepIfZero(_) => 1 <= height,
        Instr::KeepIfNotZero(_) => 1 <= height,
        Instr::LoopTurn => true,
        Instr::CallSlot(_, _) => true,
        Instr::CallFixed(_, _, _) => true,
        Instr::CallOther(_) => true,
        Instr::CallEfun(_, _) => true,
        Instr::CallSimul(_, _) => true,
        Instr::CatchBegin(_) => height < 100000,
        Instr::CatchEnd => 1 <= frame.catches.len(),
        Instr::Return => 1 <= height,
        Instr::ReturnZero => true,
        Instr::Index(_) => 2 <= height,
        Instr::Binary(_) => 2 <= height,
        Instr::Unary(_) => 1 <= height,
        Instr::Step(_) => 1 <= height,
        Instr::SetIndex(_) => 3 <= height,
        Instr::MakeArray(n) => n as usize <= height,
        Instr::MakeMap(n) => 2 * n as usize <= height,
        Instr::Range(from, to) => 1 + end_count(from) + end_count(to) <= height,
        Instr::Rotate(n) => 1 <= n && n as usize <= height,
        Instr::Switch(k) => {
            1 <= height && (k as usize) < frame.code.raw().switches.as_slice().len()
        }
        Instr::Scan(_) => 2 <= height,
        Instr::EachBegin(_) => 1 <= height,
        Instr::EachNext(_, _) => 2 <= height,
        Instr::PushGlobal(_) => false,
        Instr::SetGlobal(_) => false,
    }
}

/// The next instruction, if there is one and the place behind it has a number.
fn next_instr(frame: &Frame) -> Option<Instr>
    ensures { IfSome result (λ i. (instr_at frame.now ≡ Some i) × (frame.now.at + 1 < 2 ^ 32)) }
{
    if frame.at == u32::MAX {
        return None;
    }
    frame
        .code
        .raw()
        .instrs
        .as_slice()
        .get(frame.at as usize)
        .copied()
}

/// Whether one step can be taken.
fn can_step(live: &Live, stack: &Vec<Value>, frame: &Frame) -> bool
    ensures { IsTrue result → IsFit live.now stack.now.items → CanStep live.now stack.now.items frame.now }
{
    match next_instr(frame) {
        Some(instr) => finds(live, stack, frame, instr),
        None => false,
    }
}

/// What a value is.
fn course_of(v: &Value) -> Course {
    match v {
        Value::Int(n) => Course::Int(*n),
        _ => Course::Other,
    }
}

/// One step, if one can be taken; what the function comes to, where it ends.
fn advance(
    live: &mut Live,
    stack: &mut Vec<Value>,
    frame: &mut Frame,
    budget: &mut u64,
) -> Result<Option<Course>, StepFault>
    requires { IsFit live.old stack.old.items }
    ensures { IfOk result (λ c. IsFit live.new stack.new.items) }
{
    let can = can_step(live, stack, frame);
    if !can {
        return Ok(Some(Course::Stuck));
    }
    match step(live, stack, frame, budget)? {
        Next::Again => Ok(None),
        Next::Done(v) => Ok(Some(course_of(&v))),
        Next::Error(e) => Ok(Some(Course::Error(e.kind))),
        Next::Spent => Ok(Some(Course::Spent)),
        Next::Call(c) => Ok(Some(Course::Calls(c))),
        Next::Back(c) => Ok(Some(Course::Efun(c))),
    }
}

/// Steps until the function ends.
fn run(
    live: &mut Live,
    stack: &mut Vec<Value>,
    frame: &mut Frame,
    budget: &mut u64,
) -> Result<Course, StepFault>
    requires { IsFit live.old stack.old.items }
{
    for _turn in 0..30000 {
        if let Some(course) = advance(live, stack, frame, budget)? {
            return Ok(course);
        }
    }
    Ok(Course::Stuck)
}

/// Locals that were never assigned.
fn locals(alloc: Global) -> Result<Vec<Value>, AllocError>
    ensures { IfOk result (λ vs. (cells : Store) → All (IsThere cells) vs.items) }
{
    Ok(vec![in alloc; Value::Int(0), Value::Int(0), Value::Int(0)]?)
}

/// What a function of these instructions comes to, and what is left of a budget.
pub fn run_alone(alloc: Global, instrs: &[Instr], budget: u64) -> Result<(Course, u64), StepFault> {
    let Some(frame) = frame(alloc, instrs)? else {
        return Ok((Course::Stuck, budget));
    };
    let mut frame = frame;
    let mut live = empty_state(alloc, 0, 0);
    let mut stack = locals(alloc)?;
    let mut left = budget;
    let course = run(&mut live, &mut stack, &mut frame, &mut left)?;
    Ok((course, left))
}
