//! Efuns that a running function calls begin.
ghost use Rattle.std.specs.Prelude.{◌≡◌, ◌-◌, ◌≤◌, IfErr, IfOk, None, drop, false, length, true};
ghost use Rattle.std.specs.Bool.{OnTrue};
ghost use Rattle.lp_cells.specs.Cells.{Store};
ghost use Rattle.lp_efuns.specs.Plain.{IsAnswerThere, is_plain};
ghost use Rattle.lp_calling.specs.Beginning.{is_calling};
ghost use Rattle.lp_instr.specs.declared.efun.Efun.TheVariants as efuns;
ghost use Rattle.lp_step.specs.Steps.{IsFit};
ghost use Rattle.lp_asking.specs.declared.ending.Ending.TheVariants as endings;
ghost use Rattle.lp_asking.specs.Endings.{IsEndingThere};
ghost use Rattle.lp_vm.specs.declared.fault.VmFault.TheVariants.{NoMemory};
ghost use Rattle.lp_vm.specs.declared.request.Request.TheVariants as requests;
ghost use Rattle.lp_vm.specs.Beginning.{CanStart};
ghost use Rattle.lp_vm.specs.Causes.{IsReadless};
ghost use Rattle.lp_vm.specs.Efuns.{BringsNothing, StartsEfun, ending_of, is_ending};

use crate::fault::VmFault;
use lp_asking::asker::Asker;
use lp_asking::ending::{Cause, Ending, Place, Stop};
use lp_asking::resume::drop_top;
use lp_calling::begin::{begin, is_calling};
use lp_calling::job::{Begun, Job};
use lp_destructing::destruct::call_destruct;
use lp_efuns::answer::Answer;
use lp_efuns::caller::Caller;
use lp_efuns::plain::{call_plain, is_plain};
use lp_instr::efun::Efun;
use lp_values::value::Value;
use lp_world::live::Live;

/// How an efun begins.
#[derive(Drop)]
pub enum EfunBegun {
    /// It is answered at once.
    Answered(Ending),
    /// It goes on as this job.
    Works(Job),
}

/// A stop of an efun, which no function of its own has.
fn stopped(cause: Cause) -> Ending
    ensures { result ≡ endings.Stopped (record { cause = cause; place = None }) }
{
    Ending::Stopped(Stop { cause, place: None })
}

/// The answer of an efun as how its call ends. Takes no memory.
pub fn ending_of(answer: Answer) -> Ending
    ensures ending { result ≡ ending_of answer }
    ensures there { (cells : Store) → IsAnswerThere cells answer → IsEndingThere cells result }
{
    match answer {
        Answer::Value(v) => Ending::Value(v),
        Answer::Error(e) => stopped(Cause::Failed(e)),
        Answer::Thrown(v) => stopped(Cause::Thrown(v)),
        Answer::Spent => stopped(Cause::Spent),
    }
}

/// So many values on top, the topmost last.
pub(crate) fn topmost(stack: &Vec<Value>, n: u32) -> &[Value]
    requires { n ≤ length stack.now.items }
    ensures { result.now ≡ drop (length stack.now.items - n) stack.now.items }
{
    let low = stack.len() - n as usize;
    &stack[low..]
}

/// An efun that calls no LPC is carried out.
fn plain(
    live: &mut Live,
    stack: &mut Vec<Value>,
    asker: &mut Asker,
    at: Place,
    efun: Efun,
    args: u32,
    budget: &mut u64,
) -> Result<EfunBegun, VmFault>
    requires plain { is_plain efun ≡ true }
    requires fit { IsFit live.old stack.old.items }
    requires can { CanStart live.old stack.old.items asker.old budget.old (requests.Efun at efun) args }
    ensures starts { IfOk result (λ r. StartsEfun r at efun args live.old stack.old.items asker.old budget.old live.new stack.new.items asker.new budget.new) }
    ensures fault { IfErr result (λ f. f ≡ NoMemory) }
{
    let caller = Caller {
        this: at.this,
        interactive: asker.interactive,
        callers: asker.callers.as_slice(),
    };
    let answer = call_plain(
        live,
        &mut asker.turn,
        &caller,
        efun,
        topmost(stack, args),
        budget,
    )?;
    drop_top(stack, args as usize);
    Ok(EfunBegun::Answered(ending_of(answer)))
}

/// An efun that calls LPC begins.
fn calling(
    live: &Live,
    stack: &mut Vec<Value>,
    asker: &Asker,
    at: Place,
    efun: Efun,
    args: u32,
    budget: &mut u64,
) -> Result<EfunBegun, VmFault>
    requires calling { is_calling efun ≡ true }
    requires fit { IsFit live.now stack.old.items }
    requires can { CanStart live.now stack.old.items asker.now budget.old (requests.Efun at efun) args }
    ensures starts { IfOk result (λ r. StartsEfun r at efun args live.now stack.old.items asker.now budget.old live.now stack.new.items asker.now budget.new) }
    ensures fault { IfErr result (λ f. f ≡ NoMemory) }
{
    let caller = Caller {
        this: at.this,
        interactive: asker.interactive,
        callers: asker.callers.as_slice(),
    };
    match begin(live, &caller, stack, efun, args as usize, budget)? {
        Begun::Ends(answer) => Ok(EfunBegun::Answered(ending_of(answer))),
        Begun::Runs(job) => Ok(EfunBegun::Works(job)),
    }
}

/// An object is destructed.
fn destructing(
    live: &mut Live,
    stack: &mut Vec<Value>,
    asker: &Asker,
    at: Place,
    args: u32,
    budget: &mut u64,
) -> Result<EfunBegun, VmFault>
    requires fit { IsFit live.old stack.old.items }
    requires can { CanStart live.old stack.old.items asker.now budget.old (requests.Efun at Efun.Destruct) args }
    ensures starts { IfOk result (λ r. StartsEfun r at Efun.Destruct args live.old stack.old.items asker.now budget.old live.new stack.new.items asker.now budget.new) }
    ensures fault { IfErr result (λ f. f ≡ NoMemory) }
{
    let caller = Caller {
        this: at.this,
        interactive: asker.interactive,
        callers: asker.callers.as_slice(),
    };
    let answer = call_destruct(live, &asker.turn, &caller, topmost(stack, args), budget)?;
    drop_top(stack, args as usize);
    Ok(EfunBegun::Answered(ending_of(answer)))
}

/// Whether an efun ends an object.
fn is_ending(efun: Efun) -> bool
    ensures value { result ≡ is_ending efun }
    ensures only { OnTrue result (efun ≡ efuns.Destruct) }
{
    match efun {
        Efun::Destruct => true,
        _ => false,
    }
}

/// The answer to a call of `sscanf` as an efun, which no function makes, since `sscanf` has an instruction of its own.
fn unasked(efun: Efun) -> VmFault
    requires sscanf { efun ≡ efuns.Sscanf }
    ensures { result ≡ NoMemory }
{
    let _efun = efun;
    VmFault::NoMemory
}

/// An efun begins that the function at a place calls, with so many arguments on top of the stack, which are taken: it is
/// answered, or goes on as a job. For it no program comes into memory, and no steps of the cycle are for it alone.
///
/// # Errors
/// `NoMemory`, also of `sscanf`, which has an instruction of its own and is not called so.
pub fn begin_efun(
    live: &mut Live,
    stack: &mut Vec<Value>,
    asker: &mut Asker,
    at: Place,
    efun: Efun,
    args: u32,
    budget: &mut u64,
) -> Result<EfunBegun, VmFault>
    requires nothing { BringsNothing efun }
    requires fit { IsFit live.old stack.old.items }
    requires can { CanStart live.old stack.old.items asker.old budget.old (requests.Efun at efun) args }
    ensures starts { IfOk result (λ r. StartsEfun r at efun args live.old stack.old.items asker.old budget.old live.new stack.new.items asker.new budget.new) }
    ensures fault { IfErr result IsReadless }
{
    if is_plain(efun) {
        return plain(live, stack, asker, at, efun, args, budget);
    }
    if is_calling(efun) {
        return calling(live, stack, asker, at, efun, args, budget);
    }
    if is_ending(efun) {
        return destructing(live, stack, asker, at, args, budget);
    }
    Err(unasked(efun))
}
