//! One instruction.
ghost use Rattle.std.specs.Prelude.{◌≡◌, ◌<◌, IfOk, IsSome, Some};
ghost use Rattle.lp_step.specs.Steps.{CanStep, Keeps, KeepsVariables, Steps, instr_at};

use crate::binaries::binary_operator;
use crate::calls::{call_efun, call_fixed, call_other, call_simul, call_slot};
use crate::copies::each_begin;
use crate::counting::step_operator;
use crate::fault::StepFault;
use crate::globals::{push_global, set_global};
use crate::indexing::at_index;
use crate::jumps::{
    catch_begin, catch_end, jump, jump_if_not_zero, jump_if_zero, keep_if_not_zero, keep_if_zero,
    loop_turn, returns, returns_zero,
};
use crate::literals::{make_array, make_map};
use crate::next::Next;
use crate::pushes::{again_one, again_two, drop_value, push_int, push_local, push_text, set_local};
use crate::ranges::cut_range;
use crate::rotation::rotate;
use crate::scans::scan_operator;
use crate::switches::switch_on;
use crate::turns::each_next;
use crate::unaries::unary_operator;
use crate::writes::set_index;
use lp_instr::instr::Instr;
use lp_values::value::Value;
use lp_world::frame::Frame;
use lp_world::live::Live;

/// The instruction that comes next.
#[inline(always)]
fn fetch(frame: &Frame) -> Instr
    requires { IsSome (instr_at frame.now) }
    ensures { instr_at frame.now ≡ Some result }
{
    frame.code.raw().instrs.as_slice()[frame.at as usize]
}

/// Carries out one instruction.
#[inline(always)]
pub fn step(
    live: &mut Live,
    stack: &mut Vec<Value>,
    frame: &mut Frame,
    budget: &mut u64,
) -> Result<Next, StepFault>
    requires { CanStep live.old stack.old.items frame.old }
    ensures table { IfOk result (λ n. Steps live.old stack.old.items frame.old budget.old n live.new stack.new.items frame.new budget.new) }
    ensures keeps { IfOk result (λ n. Keeps live.old stack.old.items n live.new stack.new.items) }
    ensures home { IfOk result (λ n. KeepsVariables live.old.objects live.new.objects) }
{
    match fetch(frame) {
        Instr::PushInt(z) => push_int(stack, frame, z),
        Instr::PushText(k) => push_text(stack, frame, k),
        Instr::PushLocal(k) => push_local(stack, frame, k),
        Instr::SetLocal(k) => set_local(stack, frame, k),
        Instr::Pop => Ok(drop_value(stack, frame)),
        Instr::Dup => again_one(stack, frame),
        Instr::Dup2 => again_two(stack, frame),
        Instr::Jump(to) => Ok(jump(stack, frame, to)),
        Instr::JumpIfZero(to) => Ok(jump_if_zero(live, stack, frame, to)),
        Instr::JumpIfNotZero(to) => Ok(jump_if_not_zero(live, stack, frame, to)),
        Instr::KeepIfZero(to) => Ok(keep_if_zero(live, stack, frame, to)),
        Instr::KeepIfNotZero(to) => Ok(keep_if_not_zero(live, stack, frame, to)),
        Instr::LoopTurn => Ok(loop_turn(stack, frame, budget)),
        Instr::CallSlot(k, n) => Ok(call_slot(stack, frame, k, n)),
        Instr::CallFixed(parent, j, n) => Ok(call_fixed(stack, frame, parent, j, n)),
        Instr::CallOther(n) => Ok(call_other(stack, frame, n)),
        Instr::CallEfun(efun, n) => Ok(call_efun(stack, frame, efun, n)),
        Instr::CallSimul(k, n) => Ok(call_simul(stack, frame, k, n)),
        Instr::CatchBegin(to) => catch_begin(stack, frame, to),
        Instr::CatchEnd => Ok(catch_end(stack, frame)),
        Instr::Return => Ok(returns(stack, frame)),
        Instr::ReturnZero => Ok(returns_zero(stack, frame)),
        Instr::Switch(k) => Ok(switch_on(live, stack, frame, k)),
        Instr::Scan(n) => scan_operator(live, stack, frame, budget, n),
        Instr::EachBegin(_) => each_begin(live, stack, frame),
        Instr::EachNext(to, n) => each_next(live, stack, frame, to, n),
        Instr::PushGlobal(k) => push_global(live, stack, frame, k),
        Instr::SetGlobal(k) => set_global(live, stack, frame, k),
        Instr::Index(edge) => at_index(live, stack, frame, budget, edge),
        Instr::Binary(op) => binary_operator(live, stack, frame, budget, op),
        Instr::Unary(op) => unary_operator(live, stack, frame, budget, op),
        Instr::Step(up) => step_operator(live, stack, frame, budget, up),
        Instr::SetIndex(edge) => set_index(live, stack, frame, budget, edge),
        Instr::MakeArray(n) => make_array(live, stack, frame, budget, n),
        Instr::MakeMap(n) => make_map(live, stack, frame, budget, n),
        Instr::Range(from, to) => cut_range(live, stack, frame, budget, from, to),
        Instr::Rotate(n) => rotate(stack, frame, n),
    }
}
