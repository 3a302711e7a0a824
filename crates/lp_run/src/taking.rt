//! Common instructions one after another.
ghost use Rattle.std.specs.Prelude.{◌≡◌, ◌≤◌, IfOk, IsSome, Some, slice_get};
ghost use Rattle.lp_step.specs.Steps.{CanStep};
ghost use Rattle.lp_step.specs.declared.next.Next.TheVariants as nexts;
ghost use Rattle.lp_run.specs.Runs.{CanRun, RunsTo, left_of};
ghost use Rattle.lp_run.specs.Takes.{TakesOne, at_place};

use crate::common::{
    again_one, at_index, binary_operator, drop_value, jump, jump_if_not_zero, jump_if_zero,
    keep_if_not_zero, keep_if_zero, loop_turn, push_global, push_int, push_local, rotate,
    set_local, step_operator,
};
use lp_instr::instr::Instr;
use lp_step::fault::StepFault;
use lp_values::value::Value;
use lp_world::frame::Frame;
use lp_world::live::Live;

/// The instruction at a place.
#[inline(always)]
fn fetch(code: &[Instr], at: u32) -> Instr
    requires { IsSome (slice_get code.now at) }
    ensures { slice_get code.now at ≡ Some result }
{
    code[at as usize]
}

/// Takes the instruction at this place of the code, if it is a common one that neither errs nor ends nor spends what is not left. Tells
/// whether it did; nothing changes where it did not.
#[inline(always)]
fn take(
    live: &Live,
    stack: &mut Vec<Value>,
    frame: &Frame,
    code: &[Instr],
    at: &mut u32,
    left: &mut u64,
) -> Result<bool, StepFault>
    requires code { code.now ≡ frame.now.code.instrs }
    requires can { CanStep live.now stack.old.items (at_place frame.now at.old) }
    ensures { IfOk result (λ b. TakesOne live.now stack.old.items frame.now at.old left.old b stack.new.items at.new left.new) }
{
    match fetch(code, *at) {
        Instr::PushInt(z) => push_int(stack, frame, at, z),
        Instr::PushLocal(k) => push_local(stack, frame, at, k),
        Instr::SetLocal(k) => set_local(stack, frame, at, k),
        Instr::PushGlobal(k) => push_global(live, stack, frame, at, k),
        Instr::Pop => {
            drop_value(stack, frame, at);
            Ok(true)
        }
        Instr::Jump(to) => {
            jump(stack, frame, at, to);
            Ok(true)
        }
        Instr::Dup => again_one(stack, frame, at),
        Instr::Rotate(n) => Ok(rotate(stack, frame, at, n)),
        Instr::Index(edge) => at_index(live, stack, frame, at, left, edge),
        Instr::JumpIfZero(to) => {
            jump_if_zero(live, stack, frame, at, to);
            Ok(true)
        }
        Instr::JumpIfNotZero(to) => {
            jump_if_not_zero(live, stack, frame, at, to);
            Ok(true)
        }
        Instr::KeepIfZero(to) => {
            keep_if_zero(live, stack, frame, at, to);
            Ok(true)
        }
        Instr::KeepIfNotZero(to) => {
            keep_if_not_zero(live, stack, frame, at, to);
            Ok(true)
        }
        Instr::LoopTurn => Ok(loop_turn(stack, frame, at, left)),
        Instr::Binary(op) => Ok(binary_operator(live, stack, frame, at, left, op)),
        Instr::Step(step) => Ok(step_operator(live, stack, frame, at, left, step)),
        _ => Ok(false),
    }
}

/// Takes common instructions of a function that runs, up to one that is left to `step`, and gives its place. The frame's own place stays
/// where it was.
#[inline(always)]
pub(crate) fn take_many(
    live: &Live,
    stack: &mut Vec<Value>,
    frame: &Frame,
    budget: &mut u64,
) -> Result<u32, StepFault>
    requires { CanRun live.now stack.old.items frame.now budget.old }
    ensures came { IfOk result (λ at. RunsTo live.now stack.old.items frame.now budget.old nexts.Again live.now stack.new.items (at_place frame.now at) budget.new) }
    ensures can { IfOk result (λ at. CanRun live.now stack.new.items (at_place frame.now at) budget.new) }
    ensures less { IfOk result (λ at. left_of (at_place frame.now at) budget.new ≤ left_of frame.now budget.old) }
{
    let code = frame.code.raw().instrs.as_slice();
    let mut at = frame.at;
    let mut left = *budget;
    'taken: loop {
        if !take(live, stack, frame, code, &mut at, &mut left)? {
            *budget = left;
            return Ok(at);
        }
    }
}
