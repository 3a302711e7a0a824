//! Calls of efuns that call no LPC.
ghost use Rattle.std.specs.Prelude.{◌≡◌, All, IfOk, true};
ghost use Rattle.lp_values.specs.Errors.{bad_arg};
ghost use Rattle.lp_values.specs.declared.value.Value.{Value as V};
ghost use Rattle.lp_cells.specs.Cells.{IsThere, KeepsThere};
ghost use Rattle.lp_instr.specs.EfunList.{efun_name};
ghost use Rattle.lp_meaning.specs.Questions.{group};
ghost use Rattle.lp_world.specs.Closed.{IsClosed};
ghost use Rattle.lp_world.specs.Rows.{live_in};
ghost use Rattle.lp_step.specs.Steps.{KeepsVariables, Pays};
ghost use Rattle.lp_efuns.specs.Deeds.{Does};
ghost use Rattle.lp_efuns.specs.Names.{AreNamed};
ghost use Rattle.lp_efuns.specs.Plain.{CallsEfun, Finishes, IsAnswerThere, IsDidThere, is_change, is_computing, is_enable, is_look, is_plain};
ghost use Rattle.lp_efuns.specs.declared.answer.Answer.{Answer as A};

use crate::answer::{Answer, Did, EfunFault};
use crate::caller::{Caller, Turn};
use crate::changes::{is_change, of_world};
use crate::computed::computed;
use crate::looks::is_look;
use lp_cells::cells::Cells;
use lp_instr::efun::Efun;
use lp_step::stack::pay;
use lp_value_efuns::fit::first_bad;
use lp_value_efuns::price::{price_before, price_of_result};
use lp_values::error::RunError;
use lp_values::value::{Living, Value};
use lp_world::live::Live;
use std::alloc::Global;

/// Whether an efun computes.
fn is_computing(efun: Efun) -> bool
    ensures { result ≡ is_computing (group efun) }
{
    match efun {
        Efun::Clonep
        | Efun::Objectp
        | Efun::Intp
        | Efun::Stringp
        | Efun::Pointerp
        | Efun::Mappingp => true,
        Efun::Strlen
        | Efun::Explode
        | Efun::Implode
        | Efun::LowerCase
        | Efun::UpperCase
        | Efun::Capitalize
        | Efun::Strstr
        | Efun::Trim
        | Efun::Sprintf
        | Efun::ToInt
        | Efun::ToString => true,
        Efun::Sizeof
        | Efun::Allocate
        | Efun::Member
        | Efun::Copy
        | Efun::MIndices
        | Efun::MValues
        | Efun::Mkmapping => true,
        Efun::Min | Efun::Max | Efun::Abs => true,
        _ => false,
    }
}

/// Whether an efun makes an object living.
fn is_enable(efun: Efun) -> bool
    ensures { result ≡ is_enable efun }
{
    matches!(efun, Efun::EnableCommands)
}

/// Whether an efun is carried out by `call_plain`: those that compute, those that look at the world alone which `is_look`
/// lists, those that change something or throw which `is_change` lists, and `enable_commands`. None of them calls LPC or uses files.
pub fn is_plain(efun: Efun) -> bool
    ensures { result ≡ is_plain efun }
{
    is_computing(efun) || is_enable(efun) || is_look(efun) || is_change(efun)
}

/// Pays a price that may be above 64 bits, or tells that the budget is spent: then nothing is left of it.
pub fn pay_wide(budget: &mut u64, n: u128) -> bool
    ensures { Pays n budget.old result budget.new }
{
    if (*budget as u128) < n {
        *budget = 0;
        return false;
    }
    *budget -= n as u64;
    true
}

/// The price of a result is paid, or the budget is spent, with the result made.
fn pay_result<L: Living>(efun: Efun, v: Value, cells: &Cells, live: &L, budget: &mut u64) -> Answer
    requires there { IsThere cells.now v }
    ensures finishes { Finishes efun (L.live live.now) cells.now (Did.Value v) budget.old result budget.new }
    ensures there { IsAnswerThere cells.now result }
{
    let after = price_of_result(efun, &v, cells, live);
    let is_paid = pay(budget, after);
    if is_paid {
        return Answer::Value(v);
    }
    Answer::Spent
}

/// The answer of what an efun came to, once the price of its result is paid.
pub fn finish<L: Living>(efun: Efun, did: Did, cells: &Cells, live: &L, budget: &mut u64) -> Answer
    requires there { IsDidThere cells.now did }
    ensures finishes { Finishes efun (L.live live.now) cells.now did budget.old result budget.new }
    ensures there { IsAnswerThere cells.now result }
{
    match did {
        Did::Value(v) => pay_result(efun, v, cells, live, budget),
        Did::Error(e) => Answer::Error(e),
        Did::Thrown(v) => Answer::Thrown(v),
    }
}

/// A refusal of an argument. Arguments count from 1.
pub fn bad_argument(alloc: Global, efun: Efun, number: u64) -> Result<Answer, EfunFault>
    ensures { IfOk result (λ a. a ≡ A.Error (bad_arg number (efun_name efun))) }
{
    Ok(Answer::Error(RunError::bad_arg(alloc, number, efun.name())?))
}

/// What an efun comes to.
fn did(
    live: &mut Live,
    turn: &mut Turn,
    caller: &Caller<'_>,
    efun: Efun,
    args: &[Value],
) -> Result<Did, EfunFault>
    requires plain { is_plain efun ≡ true }
    requires named { AreNamed live.old.names }
    requires closed { IsClosed live.old }
    requires there { All (IsThere live.old.cells) args.now }
    ensures does { IfOk result (λ d. Does efun caller.now args.now live.old turn.old d live.new turn.new) }
    ensures closed { IsClosed live.new }
    ensures stay { KeepsThere live.old.cells live.new.cells }
    ensures there { IfOk result (IsDidThere live.new.cells) }
    ensures variables { KeepsVariables live.old.objects live.new.objects }
    ensures names { live.new.names ≡ live.old.names }
{
    if is_computing(efun) {
        return computed(live, efun, args);
    }
    of_world(live, turn, caller, efun, args)
}

/// Carries out an efun that calls no LPC, with these arguments, first to last.
///
/// The price before is paid first; then the first argument of another kind than the efun takes is an error; then the
/// efun acts, and at last the price of its result is paid. Where that cannot be paid the budget is spent, and what the
/// efun did stays. The outputs and the changes of the turn are those of the efun.
///
/// # Errors
/// `NoMemory`, after which the state is closed, and what it names stays there.
pub fn call_plain(
    live: &mut Live,
    turn: &mut Turn,
    caller: &Caller<'_>,
    efun: Efun,
    args: &[Value],
    budget: &mut u64,
) -> Result<Answer, EfunFault>
    requires plain { is_plain efun ≡ true }
    requires named { AreNamed live.old.names }
    requires closed { IsClosed live.old }
    requires there { All (IsThere live.old.cells) args.now }
    ensures calls { IfOk result (λ a. CallsEfun efun caller.now args.now live.old turn.old budget.old a live.new turn.new budget.new) }
    ensures closed { IsClosed live.new }
    ensures stay { KeepsThere live.old.cells live.new.cells }
    ensures there { IfOk result (IsAnswerThere live.new.cells) }
    ensures variables { KeepsVariables live.old.objects live.new.objects }
    ensures names { live.new.names ≡ live.old.names }
{
    let before = price_before(efun, args, &live.cells, &live.objects);
    let is_paid = pay_wide(budget, before);
    if !is_paid {
        return Ok(Answer::Spent);
    }
    match first_bad(efun, args, &live.objects) {
        Some(number) => bad_argument(live.alloc, efun, number),
        None => {
            let did = did(live, turn, caller, efun, args)?;
            Ok(finish(efun, did, &live.cells, &live.objects, budget))
        }
    }
}
