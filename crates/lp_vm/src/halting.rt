//! A function runs until it asks or ends.
ghost use Rattle.std.specs.Prelude.{IfErr, IfOk, IfSome, IsSome, OnOk, ◌≡◌};
ghost use Rattle.lp_step.specs.Steps.{IsFit, KeepsVariables};
ghost use Rattle.lp_world.specs.Closed.{IsClosed};
ghost use Rattle.lp_world.specs.Rows.{row_at};
ghost use Rattle.lp_reaching.specs.Reaching.{CanAsk, Finds, IsInMemory};
ghost use Rattle.lp_asking.specs.Endings.{IsEndingThere};
ghost use Rattle.lp_asking.specs.Resuming.{Resumes};
ghost use Rattle.lp_vm.specs.declared.fault.VmFault.TheVariants.{NoMemory};
ghost use Rattle.lp_vm.specs.Causes.{Tells, read_of};
ghost use Rattle.lp_vm.specs.Requests.{place_in};
ghost use Rattle.lp_vm.specs.Turns.{CanHalt, Halts};

use crate::fault::VmFault;
use crate::laying::lay_below;
use crate::request::Request;
use lp_asking::advance::{Halt, advance};
use lp_asking::ending::{Ending, Place};
use lp_asking::question::{Question, question_of};
use lp_asking::resume::resume;
use lp_asking::truth::Truthful;
use lp_instr::efun::Efun;
use lp_reaching::finding::find;
use lp_reaching::reached::Reached;
use lp_values::value::Value;
use lp_world::frame::Frame;
use lp_world::live::Live;
use std::alloc::Global;

/// Why a function does not go on by itself.
#[derive(Drop)]
pub enum Halted {
    /// It ended.
    Ended(Ending),
    /// It asks this, with so many arguments on top of the stack.
    Asks(Request, u32),
}

/// What a question of a running function reaches in its object, if it reaches something. What is needed for it comes into memory.
fn reach_inside<W: Truthful>(
    live: &mut Live,
    swap: &mut W,
    frame: &Frame,
    question: Question,
) -> Result<Option<Reached>, VmFault>
    requires closed { IsClosed live.old }
    requires object { IsSome (row_at live.old.objects frame.now.this.0) }
    requires can { CanAsk (W.content swap.old) live.old frame.now.this frame.now.part frame.now.code question }
    ensures found { IfOk result (λ r. Finds frame.now.this frame.now.part frame.now.code question (W.content swap.old) live.old (W.content swap.new) live.new r) }
    ensures there { IfOk result (λ r. IfSome r (λ x. IsInMemory live.new x.callee x.code)) }
    ensures closed { IsClosed live.new }
    ensures home { KeepsVariables live.old.objects live.new.objects }
    ensures cells { live.new.cells ≡ live.old.cells }
    ensures outputs { live.new.outputs ≡ live.old.outputs }
    ensures tells { Tells (W.content swap.new) (W.last swap.new) (W.read_faults swap.old) (W.read_faults swap.new) (W.write_faults swap.old) (W.write_faults swap.new)
        (W.is_truthful swap.old) (W.is_truthful swap.new) (W.is_honest swap.old) (W.is_honest swap.new) live.new (read_of result) }
{
    Ok(find(live, swap, frame.this, frame.part, &frame.code, question)?)
}

/// Where the function of a frame stands.
fn place_in(frame: &Frame) -> Place
    ensures { result ≡ place_in frame.now }
{
    Place {
        this: frame.this,
        program: frame.program,
        fun: frame.fun,
    }
}

/// A function runs until it asks or ends. A call of another object, or of a simul efun, is `call_other`.
pub fn run_to_halt<W: Truthful>(
    alloc: Global,
    live: &mut Live,
    swap: &mut W,
    stack: &mut Vec<Value>,
    frame: &mut Frame,
    budget: &mut u64,
) -> Result<Halted, VmFault>
    requires { CanHalt (W.content swap.old) live.old stack.old.items frame.old budget.old }
    ensures halts { IfOk result (λ h. Halts h (W.content swap.old) live.old stack.old.items frame.old budget.old (W.content swap.new) live.new stack.new.items frame.new budget.new) }
    ensures tells { Tells (W.content swap.new) (W.last swap.new) (W.read_faults swap.old) (W.read_faults swap.new) (W.write_faults swap.old) (W.write_faults swap.new)
        (W.is_truthful swap.old) (W.is_truthful swap.new) (W.is_honest swap.old) (W.is_honest swap.new) live.new (read_of result) }
{
    match advance(alloc, live, stack, frame, budget)? {
        Halt::Ended(ending) => Ok(Halted::Ended(ending)),
        Halt::Back(call) => Ok(Halted::Asks(Request::Efun(place_in(frame), call.efun), call.args)),
        Halt::Call(call) => match question_of(call.target) {
            None => {
                let args = lay_below(live, stack, &frame.code, call.target, call.args)?;
                Ok(Halted::Asks(Request::Efun(place_in(frame), Efun::CallOther), args))
            }
            Some(question) => {
                let reached = reach_inside(live, swap, frame, question)?;
                Ok(Halted::Asks(Request::Function(reached), call.args))
            }
        },
    }
}

/// A function goes on with what it was answered, whose arguments are gone: the value comes on top, or a stop comes to it.
pub fn go_back(
    alloc: Global,
    stack: &mut Vec<Value>,
    frame: &mut Frame,
    ending: Ending,
) -> Result<Option<Ending>, VmFault>
    ensures table { IfOk result (λ r. Resumes r 0 ending stack.old.items frame.old stack.new.items frame.new) }
    ensures keeps { OnOk result ((live : _) → IsEndingThere live.cells ending → IsFit live stack.old.items → IsFit live stack.new.items) }
    ensures same { IfOk result (λ r. IfSome r (λ e. e ≡ ending)) }
    ensures fault { IfErr result (λ f. f ≡ NoMemory) }
{
    Ok(resume(alloc, stack, frame, 0, ending)?)
}
