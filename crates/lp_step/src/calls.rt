//! Calls: what is asked. Operands stay on the stack.
ghost use Rattle.std.specs.Prelude.{◌+◌, ◌<◌, ◌^◌};
ghost use Rattle.lp_step.specs.Steps.{Keeps, Performs};

use crate::next::{CallOf, EfunCall, Next, Target};
use lp_instr::efun::Efun;
use lp_instr::instr::Instr;
use lp_values::value::Value;
use lp_world::frame::Frame;

/// Calls a function of the program's own table.
#[inline(always)]
pub fn call_slot(stack: &mut Vec<Value>, frame: &mut Frame, k: u32, n: u32) -> Next
    requires room { frame.old.at + 1 < 2 ^ 32 }
    ensures table { (live : _) (budget : _) → Performs (Instr.CallSlot k n) live stack.old.items frame.old budget result live stack.new.items frame.new budget }
    ensures keeps { (live : _) → Keeps live stack.old.items result live stack.new.items }
{
    frame.at += 1;
    Next::Call(CallOf {
        target: Target::Slot(k),
        args: n,
    })
}

/// Calls a function of a parent's table.
#[inline(always)]
pub fn call_fixed(stack: &mut Vec<Value>, frame: &mut Frame, parent: u32, j: u32, n: u32) -> Next
    requires room { frame.old.at + 1 < 2 ^ 32 }
    ensures table { (live : _) (budget : _) → Performs (Instr.CallFixed parent j n) live stack.old.items frame.old budget result live stack.new.items frame.new budget }
    ensures keeps { (live : _) → Keeps live stack.old.items result live stack.new.items }
{
    frame.at += 1;
    Next::Call(CallOf {
        target: Target::Fixed(parent, j),
        args: n,
    })
}

/// Calls a function of an object.
#[inline(always)]
pub fn call_other(stack: &mut Vec<Value>, frame: &mut Frame, n: u32) -> Next
    requires room { frame.old.at + 1 < 2 ^ 32 }
    ensures table { (live : _) (budget : _) → Performs (Instr.CallOther n) live stack.old.items frame.old budget result live stack.new.items frame.new budget }
    ensures keeps { (live : _) → Keeps live stack.old.items result live stack.new.items }
{
    frame.at += 1;
    Next::Call(CallOf {
        target: Target::Other,
        args: n,
    })
}

/// Calls a function of the simul-efun object.
#[inline(always)]
pub fn call_simul(stack: &mut Vec<Value>, frame: &mut Frame, k: u32, n: u32) -> Next
    requires room { frame.old.at + 1 < 2 ^ 32 }
    ensures table { (live : _) (budget : _) → Performs (Instr.CallSimul k n) live stack.old.items frame.old budget result live stack.new.items frame.new budget }
    ensures keeps { (live : _) → Keeps live stack.old.items result live stack.new.items }
{
    frame.at += 1;
    Next::Call(CallOf {
        target: Target::Simul(k),
        args: n,
    })
}

/// Calls an efun.
#[inline(always)]
pub fn call_efun(stack: &mut Vec<Value>, frame: &mut Frame, efun: Efun, n: u32) -> Next
    requires room { frame.old.at + 1 < 2 ^ 32 }
    ensures table { (live : _) (budget : _) → Performs (Instr.CallEfun efun n) live stack.old.items frame.old budget result live stack.new.items frame.new budget }
    ensures keeps { (live : _) → Keeps live stack.old.items result live stack.new.items }
{
    frame.at += 1;
    Next::Back(EfunCall { efun, args: n })
}
