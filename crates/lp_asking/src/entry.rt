//! What the entry of a function pays and hands down, and what its end gives back.
ghost use Rattle.std.specs.Prelude.{◌≡◌, ◌<◌, ◌≤◌, None, OnOk, length, take};
ghost use Rattle.lp_step.specs.Steps.{IsFit};
ghost use Rattle.lp_asking.specs.Beginning.{HasCaller, HasNoCaller, IsPaid, IsPlaced};

use crate::asker::Asker;
use crate::ending::{Ending, Place, Stop};
use lp_frames::entry::Callee;
use lp_values::id::ObjId;
use lp_values::value::Value;
use std::alloc::AllocError;

/// A call is one deeper, with a new caller if one is given. Its depth is at most 100.
pub fn push_caller(asker: &mut Asker, caller: Option<ObjId>) -> Result<(), AllocError>
    requires { asker.old.depth < 100 }
    ensures { OnOk result (HasCaller caller asker.old asker.new) }
{
    if let Some(ob) = caller {
        asker.callers.push(ob)?;
    }
    asker.depth += 1;
    Ok(())
}

/// A call ended: depth and callers are as before it. Takes no memory.
pub fn pop_caller(asker: &mut Asker, is_called: bool)
    requires { 1 ≤ asker.old.depth }
    ensures { (was : _) (caller : _) → HasCaller caller was asker.old → HasNoCaller is_called caller was asker.old asker.new }
{
    if is_called {
        asker.callers.pop();
    }
    asker.depth -= 1;
}

/// An entry pays 1. Tells whether there was so much; else the budget is spent.
pub fn pay_entry(budget: &mut u64) -> bool
    ensures { IsPaid result budget.old budget.new }
{
    if *budget == 0 {
        return false;
    }
    *budget -= 1;
    true
}

/// Where a function stands, by numbers. Takes no memory.
pub fn place_of(callee: &Callee) -> Place
    ensures { result ≡ record { this = callee.now.this; program = callee.now.program; fun = callee.now.fun } }
{
    Place {
        this: callee.this,
        program: callee.program,
        fun: callee.fun,
    }
}

/// A stop without a place was in this function. Takes no memory.
pub fn placed(ending: Ending, place: Place) -> Ending
    ensures { IsPlaced place ending result }
{
    match ending {
        Ending::Value(v) => Ending::Value(v),
        Ending::Stopped(stop) => Ending::Stopped(Stop {
            cause: stop.cause,
            place: match stop.place {
                Some(at) => Some(at),
                None => Some(place),
            },
        }),
    }
}

/// A function that began ended: nothing is left of it on the stack from `bottom` on, and who asks is as before. Takes no memory.
pub fn finish(stack: &mut Vec<Value>, asker: &mut Asker, bottom: usize, is_called: bool)
    requires depth { 1 ≤ asker.old.depth }
    requires bottom { bottom ≤ length stack.old.items }
    ensures stack { stack.new.items ≡ take bottom stack.old.items }
    ensures asker { (was : _) (caller : _) → HasCaller caller was asker.old → HasNoCaller is_called caller was asker.old asker.new }
    ensures keeps { (live : _) → IsFit live stack.old.items → IsFit live stack.new.items }
{
    stack.truncate(bottom);
    pop_caller(asker, is_called);
}
