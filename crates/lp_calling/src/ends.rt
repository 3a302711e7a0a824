//! Ends of efuns.
ghost use Rattle.std.specs.Prelude.{◌≡◌, ◌<◌, ◌≤◌, IfOk, List, OnOk, Option, length, take, ℕ};
ghost use Rattle.lp_values.specs.Errors.{bad_arg, plain};
ghost use Rattle.lp_cells.specs.Cells.{Store};
ghost use Rattle.lp_instr.specs.EfunList.{efun_name};
ghost use Rattle.lp_instr.specs.declared.efun.Efun.{Efun as Ef};
ghost use Rattle.lp_efuns.specs.declared.answer.Answer.{Answer as A};
ghost use Rattle.lp_efuns.specs.declared.caller.Turn.{Turn};
ghost use Rattle.lp_step.specs.Steps.{IsFit};
ghost use Rattle.lp_world.specs.declared.live.Live.{Live as L};
ghost use Rattle.lp_world.specs.declared.objects.Object.{Object};
ghost use Rattle.lp_calling.specs.Beginning.{IsBegunReady, IsBegunThere};
ghost use Rattle.lp_calling.specs.Going.{IsAskedThere, IsStepThere, StageGoes};
ghost use Rattle.lp_calling.specs.declared.job.Begun.{Begun as B};
ghost use Rattle.lp_calling.specs.declared.job.Step.{Step as S};

use crate::job::{Begun, CallingFault, Stage, Step};
use crate::laying::{cut, take_at};
use lp_efuns::answer::{Answer, Did};
use lp_efuns::plain::{bad_argument, finish};
use lp_instr::efun::Efun;
use lp_values::error::{ErrorKind, RunError};
use lp_values::value::Value;
use lp_world::live::Live;
use std::alloc::{AllocError, Global};

/// An efun ends before it asks. Its arguments are taken from the stack.
pub(crate) fn begin_end(stack: &mut Vec<Value>, low: usize, answer: Answer) -> Begun
    ensures answer { result ≡ B.Ends answer }
    ensures stack { stack.new.items ≡ take low stack.old.items }
    ensures keeps { (live : _) → IsFit live stack.old.items → IsFit live stack.new.items }
{
    cut(stack, low);
    Begun::Ends(answer)
}

/// An efun ends with an error of this kind before it asks.
pub(crate) fn begin_error(
    alloc: Global,
    stack: &mut Vec<Value>,
    low: usize,
    kind: ErrorKind,
) -> Result<Begun, CallingFault>
    ensures ends { IfOk result (λ r. (r ≡ B.Ends (A.Error (plain kind))) × (stack.new.items ≡ take low stack.old.items)) }
    ensures there { IfOk result (λ r. (cells : Store) → IsBegunThere cells r) }
    ensures ready { IfOk result (λ r. (objects : List (Option Object)) → IsBegunReady objects r) }
    ensures keeps { OnOk result ((live : _) → IsFit live stack.old.items → IsFit live stack.new.items) }
{
    let error = RunError::plain(alloc, kind)?;
    Ok(begin_end(stack, low, Answer::Error(error)))
}

/// An efun ends with a refusal of an argument before it asks. Arguments count from 1.
pub(crate) fn begin_bad(
    alloc: Global,
    stack: &mut Vec<Value>,
    low: usize,
    efun: Efun,
    number: u64,
) -> Result<Begun, CallingFault>
    ensures ends { IfOk result (λ r. (r ≡ B.Ends (A.Error (bad_arg number (efun_name efun)))) × (stack.new.items ≡ take low stack.old.items)) }
    ensures there { IfOk result (λ r. (cells : Store) → IsBegunThere cells r) }
    ensures ready { IfOk result (λ r. (objects : List (Option Object)) → IsBegunReady objects r) }
    ensures keeps { OnOk result ((live : _) → IsFit live stack.old.items → IsFit live stack.new.items) }
{
    let answer = bad_argument(alloc, efun, number)?;
    Ok(begin_end(stack, low, answer))
}

/// A job ends with the first of its values, once the price of that is paid.
pub(crate) fn end_value(
    efun: Efun,
    live: &Live,
    stack: &mut Vec<Value>,
    low: usize,
    budget: &mut u64,
) -> Step
    requires low { low < length stack.old.items }
    requires fit { IsFit live.now stack.old.items }
    ensures goes { (turn : Turn) → StageGoes result efun Stage.Value low live.now turn stack.old.items budget.old live.now turn stack.new.items budget.new }
    ensures fit { IsFit live.now stack.new.items }
    ensures there { IsStepThere live.now.cells result }
    ensures asked { (objects : List (Option Object)) → IsAskedThere objects result }
    ensures spends { budget.new ≤ budget.old }
{
    let v = take_at(stack, low);
    Step::Ends(finish(efun, Did::Value(v), &live.cells, &live.objects, budget))
}

/// A job ends with 0, once the price of that is paid.
pub(crate) fn end_zero(
    efun: Efun,
    live: &Live,
    stack: &mut Vec<Value>,
    low: usize,
    budget: &mut u64,
) -> Step
    requires fit { IsFit live.now stack.old.items }
    ensures goes { (turn : Turn) → StageGoes result efun Stage.Zero low live.now turn stack.old.items budget.old live.now turn stack.new.items budget.new }
    ensures fit { IsFit live.now stack.new.items }
    ensures there { IsStepThere live.now.cells result }
    ensures asked { (objects : List (Option Object)) → IsAskedThere objects result }
    ensures spends { budget.new ≤ budget.old }
{
    cut(stack, low);
    Step::Ends(finish(
        efun,
        Did::Value(Value::Int(0)),
        &live.cells,
        &live.objects,
        budget,
    ))
}

/// A job ends with an error of this kind.
pub(crate) fn end_error(
    alloc: Global,
    stack: &mut Vec<Value>,
    low: usize,
    kind: ErrorKind,
) -> Result<Step, AllocError>
    ensures ends { IfOk result (λ r. (r ≡ S.Ends (A.Error (plain kind))) × (stack.new.items ≡ take low stack.old.items)) }
    ensures goes { IfOk result (λ r. (efun : Ef) (live : L) (turn : Turn) (budget : ℕ) → StageGoes r efun (Stage.Error kind) low live turn stack.old.items budget live turn stack.new.items budget) }
    ensures there { IfOk result (λ r. (cells : Store) → IsStepThere cells r) }
    ensures asked { IfOk result (λ r. (objects : List (Option Object)) → IsAskedThere objects r) }
    ensures keeps { OnOk result ((live : _) → IsFit live stack.old.items → IsFit live stack.new.items) }
{
    let error = RunError::plain(alloc, kind)?;
    cut(stack, low);
    Ok(Step::Ends(Answer::Error(error)))
}
