//! What is asked is answered: functions run, efuns work, commands are carried out, and files are loaded.
ghost use Rattle.std.specs.Prelude.{IfOk, IsSome, Some};
ghost use Rattle.lp_calling.specs.Jobs.{IsAsking, IsJobOn, IsReady};
ghost use Rattle.lp_cloning.specs.declared.job.Cloning.TheVariants as stages;
ghost use Rattle.lp_instr.specs.declared.efun.Efun.TheVariants as efuns;
ghost use Rattle.lp_loading.specs.declared.job.Going.TheVariants as goings;
ghost use Rattle.lp_step.specs.Steps.{IsFit};
ghost use Rattle.lp_world.specs.Rows.{variables_at};
ghost use Rattle.lp_vm.specs.declared.request.Request.TheVariants as requests;
ghost use Rattle.lp_vm.specs.Answering.{CanServe};
ghost use Rattle.lp_vm.specs.Causes.{Tells, read_of};
ghost use Rattle.lp_vm.specs.Cloning.{CanClone, Clones};
ghost use Rattle.lp_vm.specs.Commanding.{CanCarryOut, CanObey, CarriesOut, Obeys};
ghost use Rattle.lp_vm.specs.Cycle.{Answers, Finishes, Works};
ghost use Rattle.lp_vm.specs.Going.{CanGo};
ghost use Rattle.lp_vm.specs.Jobs.{StaysOn, StaysOnLoaded, TakesAnswer, TakesLoad, WorkTurnsTo};
ghost use Rattle.lp_vm.specs.Loading.{CanLoad, CanLoadOn, Loads, LoadsOn};
ghost use Rattle.lp_vm.specs.Making.{CanMake, Makes};
ghost use Rattle.lp_vm.specs.Working.{CanWork};

use crate::cloning::{begin_clone, clone_loaded, is_clone};
use crate::command_efun::{begin_command_efun, end_command_efun, is_command, put_player};
use crate::commanding::{Commanded, begin_command, feed_command, step_command};
use crate::efuns::{EfunBegun, ending_of};
use crate::entering::{Started, close, start};
use crate::fault::VmFault;
use crate::halting::{Halted, go_back, run_to_halt};
use crate::loaded::loaded_ending;
use crate::loading::{answer_of, begin_load, feed_load, pop_load, step_load, unpaid};
use crate::looking::start_efun;
use crate::making::{ask_next, feed_on};
use crate::request::Request;
use crate::working::{Stepped, feed_back, feed_loaded, step_job};
use lp_asking::asker::Asker;
use lp_asking::ending::{Ending, Place};
use lp_asking::truth::Truthful;
use lp_beginning::job::{Fed as Made, Making};
use lp_calling::job::Job;
use lp_cloning::feed::cloned;
use lp_cloning::job::{Begun as CloneBegun, Cloning};
use lp_cloning::laws::law_loads_through;
use lp_commanding::job::{Begun as Commandment, CommandBegun, Commanding};
use lp_instr::efun::Efun;
use lp_loading::job::{Answer, Begun, Fed, Going, LoadJob, Purpose, Step};
use lp_reaching::reached::Reached;
use lp_values::id::ObjId;
use lp_values::text::Text;
use lp_values::value::Value;
use lp_world::frame::Frame;
use lp_world::live::Live;
use std::alloc::Global;

/// Answers a question that reaches this, with so many arguments on top of the stack, which are taken.
///
/// # Errors
/// `NoMemory`, also where the swap file gave other bytes of the same digest; `Swap` where it failed or gave bytes of another
/// digest. Nothing is said of the state then.
#[cycle(calls)]
pub fn answer<W: Truthful>(
    alloc: Global,
    live: &mut Live,
    swap: &mut W,
    stack: &mut Vec<Value>,
    asker: &mut Asker,
    reached: Option<Reached>,
    args: u32,
    budget: &mut u64,
) -> Result<Ending, VmFault>
    requires fit { IsFit live.old stack.old.items }
    requires can { CanServe (W.content swap.old) live.old stack.old.items asker.old budget.old (requests.Function reached) args }
    ensures answers { IfOk result (λ e. Answers (requests.Function reached) args (W.content swap.old) live.old stack.old.items asker.old budget.old (W.content swap.new) live.new stack.new.items asker.new budget.new e) }
    ensures tells { Tells (W.content swap.new) (W.last swap.new) (W.read_faults swap.old) (W.read_faults swap.new) (W.write_faults swap.old) (W.write_faults swap.new)
        (W.is_truthful swap.old) (W.is_truthful swap.new) (W.is_honest swap.old) (W.is_honest swap.new) live.new (read_of result) }
{
    match start(alloc, live, stack, asker, reached, args, budget)? {
        Started::Answered(ending) => Ok(ending),
        Started::Runs(frame, left) => {
            let ending = go(alloc, live, swap, stack, asker, frame, budget)?;
            Ok(close(stack, asker, left, ending))
        }
    }
}

/// A job asks what reaches this, with so many arguments on top of the stack, which are taken: it goes on with what it is answered,
/// or ends with that. Where `this_player()` was another one for the question it is put back.
#[cycle(calls)]
fn answer_job<W: Truthful>(
    alloc: Global,
    live: &mut Live,
    swap: &mut W,
    stack: &mut Vec<Value>,
    asker: &mut Asker,
    job: &mut Job,
    reached: Option<Reached>,
    args: u32,
    budget: &mut u64,
) -> Result<Option<Ending>, VmFault>
    requires asking { IsAsking job.old }
    requires fit { IsFit live.old stack.old.items }
    requires can { CanServe (W.content swap.old) live.old stack.old.items asker.old budget.old (requests.Function reached) args }
    requires on { StaysOn reached args job.old (W.content swap.old) live.old stack.old.items asker.old budget.old }
    ensures takes { IfOk result (λ r. TakesAnswer r reached args job.old (W.content swap.old) live.old stack.old.items asker.old budget.old job.new (W.content swap.new) live.new stack.new.items asker.new budget.new) }
    ensures tells { Tells (W.content swap.new) (W.last swap.new) (W.read_faults swap.old) (W.read_faults swap.new) (W.write_faults swap.old) (W.write_faults swap.new)
        (W.is_truthful swap.old) (W.is_truthful swap.new) (W.is_honest swap.old) (W.is_honest swap.new) live.new (read_of result) }
{
    let ending = answer(alloc, live, swap, stack, asker, reached, args, budget)?;
    feed_back(job, live, stack, asker, ending)
}

/// A job asks for a load by this name on behalf of the function at a place that called its efun: it goes on with how that ended, or
/// ends with that. Where `this_player()` was another one for the question it is put back.
#[cycle(calls)]
fn load_job<W: Truthful>(
    alloc: Global,
    live: &mut Live,
    swap: &mut W,
    stack: &mut Vec<Value>,
    asker: &mut Asker,
    at: Place,
    job: &mut Job,
    name: Text,
    budget: &mut u64,
) -> Result<Option<Ending>, VmFault>
    requires asking { IsAsking job.old }
    requires fit { IsFit live.old stack.old.items }
    requires can { CanLoad (Some at.this) (Some at) (W.content swap.old) live.old asker.old budget.old }
    requires on { StaysOnLoaded at name job.old (W.content swap.old) live.old stack.old.items asker.old budget.old }
    ensures takes { IfOk result (λ r. TakesLoad r at name job.old (W.content swap.old) live.old stack.old.items asker.old budget.old job.new (W.content swap.new) live.new stack.new.items asker.new budget.new) }
    ensures tells { Tells (W.content swap.new) (W.last swap.new) (W.read_faults swap.old) (W.read_faults swap.new) (W.write_faults swap.old) (W.write_faults swap.new)
        (W.is_truthful swap.old) (W.is_truthful swap.new) (W.is_honest swap.old) (W.is_honest swap.new) live.new (read_of result) }
{
    let answer = load(
        alloc,
        live,
        swap,
        stack,
        asker,
        Some(at.this),
        Some(at),
        name.as_slice(),
        Purpose::Wanted,
        budget,
    )?;
    feed_loaded(alloc, job, live, stack, asker, name, answer)
}

/// A job of an efun that the function at a place called takes one step: it ends, or asks, and goes on with what it is answered, or
/// ends with that.
#[cycle(calls)]
fn turn_job<W: Truthful>(
    alloc: Global,
    live: &mut Live,
    swap: &mut W,
    stack: &mut Vec<Value>,
    asker: &mut Asker,
    at: Place,
    job: &mut Job,
    budget: &mut u64,
) -> Result<Option<Ending>, VmFault>
    requires on { IsJobOn job.old stack.old.items }
    requires ready { IsReady live.old.objects job.old }
    requires fit { IsFit live.old stack.old.items }
    requires can { CanWork at job.old (W.content swap.old) live.old stack.old.items asker.old budget.old }
    ensures turns { IfOk result (λ r. WorkTurnsTo r at job.old (W.content swap.old) live.old stack.old.items asker.old budget.old job.new (W.content swap.new) live.new stack.new.items asker.new budget.new) }
    ensures tells { Tells (W.content swap.new) (W.last swap.new) (W.read_faults swap.old) (W.read_faults swap.new) (W.write_faults swap.old) (W.write_faults swap.new)
        (W.is_truthful swap.old) (W.is_truthful swap.new) (W.is_honest swap.old) (W.is_honest swap.new) live.new (read_of result) }
{
    match step_job(live, swap, stack, asker, at, job, budget)? {
        Stepped::Ended(ending) => Ok(Some(ending)),
        Stepped::Asks(reached, args) => answer_job(
            alloc, live, swap, stack, asker, job, reached, args, budget,
        ),
        Stepped::Loads(name) => load_job(alloc, live, swap, stack, asker, at, job, name, budget),
    }
}

/// A job of an efun that the function at a place called goes on to its end.
#[cycle(calls)]
fn work<W: Truthful>(
    alloc: Global,
    live: &mut Live,
    swap: &mut W,
    stack: &mut Vec<Value>,
    asker: &mut Asker,
    at: Place,
    mut job: Job,
    budget: &mut u64,
) -> Result<Ending, VmFault>
    requires on { IsJobOn job stack.old.items }
    requires ready { IsReady live.old.objects job }
    requires fit { IsFit live.old stack.old.items }
    requires can { CanWork at job (W.content swap.old) live.old stack.old.items asker.old budget.old }
    ensures works { IfOk result (λ e. Works at job (W.content swap.old) live.old stack.old.items asker.old budget.old (W.content swap.new) live.new stack.new.items asker.new budget.new e) }
    ensures tells { Tells (W.content swap.new) (W.last swap.new) (W.read_faults swap.old) (W.read_faults swap.new) (W.write_faults swap.old) (W.write_faults swap.new)
        (W.is_truthful swap.old) (W.is_truthful swap.new) (W.is_honest swap.old) (W.is_honest swap.new) live.new (read_of result) }
{
    'questions: loop {
        if let Some(ending) = turn_job(alloc, live, swap, stack, asker, at, &mut job, budget)? {
            return Ok(ending);
        }
    }
}

/// An efun that the function at a place calls is carried out, with so many arguments on top of the stack, which are taken.
#[cycle(calls)]
fn call_efun<W: Truthful>(
    alloc: Global,
    live: &mut Live,
    swap: &mut W,
    stack: &mut Vec<Value>,
    asker: &mut Asker,
    at: Place,
    efun: Efun,
    args: u32,
    budget: &mut u64,
) -> Result<Ending, VmFault>
    requires fit { IsFit live.old stack.old.items }
    requires can { CanServe (W.content swap.old) live.old stack.old.items asker.old budget.old (requests.Efun at efun) args }
    ensures answers { IfOk result (λ e. Answers (requests.Efun at efun) args (W.content swap.old) live.old stack.old.items asker.old budget.old (W.content swap.new) live.new stack.new.items asker.new budget.new e) }
    ensures tells { Tells (W.content swap.new) (W.last swap.new) (W.read_faults swap.old) (W.read_faults swap.new) (W.write_faults swap.old) (W.write_faults swap.new)
        (W.is_truthful swap.old) (W.is_truthful swap.new) (W.is_honest swap.old) (W.is_honest swap.new) live.new (read_of result) }
{
    if is_clone(efun) {
        return call_clone(alloc, live, swap, stack, asker, at, args, budget);
    }
    if is_command(efun) {
        return call_command(alloc, live, swap, stack, asker, at, args, budget);
    }
    match start_efun(live, swap, stack, asker, at, efun, args, budget)? {
        EfunBegun::Answered(ending) => Ok(ending),
        EfunBegun::Works(job) => work(alloc, live, swap, stack, asker, at, job, budget),
    }
}

/// What a running function asks is answered.
#[cycle(calls)]
fn serve<W: Truthful>(
    alloc: Global,
    live: &mut Live,
    swap: &mut W,
    stack: &mut Vec<Value>,
    asker: &mut Asker,
    request: Request,
    args: u32,
    budget: &mut u64,
) -> Result<Ending, VmFault>
    requires fit { IsFit live.old stack.old.items }
    requires can { CanServe (W.content swap.old) live.old stack.old.items asker.old budget.old request args }
    ensures answers { IfOk result (λ e. Answers request args (W.content swap.old) live.old stack.old.items asker.old budget.old (W.content swap.new) live.new stack.new.items asker.new budget.new e) }
    ensures tells { Tells (W.content swap.new) (W.last swap.new) (W.read_faults swap.old) (W.read_faults swap.new) (W.write_faults swap.old) (W.write_faults swap.new)
        (W.is_truthful swap.old) (W.is_truthful swap.new) (W.is_honest swap.old) (W.is_honest swap.new) live.new (read_of result) }
{
    match request {
        Request::Function(reached) => answer(
            alloc, live, swap, stack, asker, reached, args, budget,
        ),
        Request::Efun(at, efun) => call_efun(
            alloc, live, swap, stack, asker, at, efun, args, budget,
        ),
    }
}

/// A function runs to its end.
#[cycle(calls)]
fn go<W: Truthful>(
    alloc: Global,
    live: &mut Live,
    swap: &mut W,
    stack: &mut Vec<Value>,
    asker: &mut Asker,
    mut frame: Frame,
    budget: &mut u64,
) -> Result<Ending, VmFault>
    requires { CanGo (W.content swap.old) live.old stack.old.items frame asker.old budget.old }
    ensures finishes { IfOk result (λ e. Finishes (W.content swap.old) live.old stack.old.items frame asker.old budget.old (W.content swap.new) live.new stack.new.items asker.new budget.new e) }
    ensures tells { Tells (W.content swap.new) (W.last swap.new) (W.read_faults swap.old) (W.read_faults swap.new) (W.write_faults swap.old) (W.write_faults swap.new)
        (W.is_truthful swap.old) (W.is_truthful swap.new) (W.is_honest swap.old) (W.is_honest swap.new) live.new (read_of result) }
{
    'turns: loop {
        match run_to_halt(alloc, live, swap, stack, &mut frame, budget)? {
            Halted::Ended(ending) => return Ok(ending),
            Halted::Asks(request, args) => {
                let ending = serve(alloc, live, swap, stack, asker, request, args, budget)?;
                if let Some(ending) = go_back(alloc, stack, &mut frame, ending)? {
                    return Ok(ending);
                }
            }
        }
    }
}

/// An object that was made begins: its job goes on to its end. The caller is the object for which an efun makes it, if one does,
/// and for the log the place of who asks is given.
#[cycle(calls)]
fn make<W: Truthful>(
    alloc: Global,
    live: &mut Live,
    swap: &mut W,
    stack: &mut Vec<Value>,
    asker: &mut Asker,
    caller: Option<ObjId>,
    at: Option<Place>,
    mut making: Making,
    budget: &mut u64,
) -> Result<Ending, VmFault>
    requires object { IsSome (variables_at live.old.objects making.object) }
    requires fit { IsFit live.old stack.old.items }
    requires can { CanMake caller at making (W.content swap.old) live.old asker.old budget.old }
    ensures makes { IfOk result (λ e. Makes caller at making (W.content swap.old) live.old stack.old.items asker.old budget.old (W.content swap.new) live.new stack.new.items asker.new budget.new e) }
    ensures tells { Tells (W.content swap.new) (W.last swap.new) (W.read_faults swap.old) (W.read_faults swap.new) (W.write_faults swap.old) (W.write_faults swap.new)
        (W.is_truthful swap.old) (W.is_truthful swap.new) (W.is_honest swap.old) (W.is_honest swap.new) live.new (read_of result) }
{
    'parts: loop {
        let reached = ask_next(live, swap, caller, &making)?;
        let ending = answer(alloc, live, swap, stack, asker, reached, 0, budget)?;
        match feed_on(&mut making, live, swap, at, ending)? {
            Made::Goes => {}
            Made::Ends(ending) => return Ok(ending),
        }
    }
}

/// A load that was paid for goes on to its end. The caller is the object for which an efun asks for it, if one does, and for the
/// log the place of who asks is given.
#[cycle(calls)]
fn load_on<W: Truthful>(
    alloc: Global,
    live: &mut Live,
    swap: &mut W,
    stack: &mut Vec<Value>,
    asker: &mut Asker,
    caller: Option<ObjId>,
    at: Option<Place>,
    mut job: LoadJob,
    budget: &mut u64,
) -> Result<Answer, VmFault>
    requires fit { IsFit live.old stack.old.items }
    requires can { CanLoadOn caller at job (W.content swap.old) live.old asker.old budget.old }
    ensures loads { IfOk result (λ r. LoadsOn caller at job goings.Simul (W.content swap.old) live.old stack.old.items asker.old budget.old (W.content swap.new) live.new stack.new.items asker.new budget.new r) }
    ensures tells { Tells (W.content swap.new) (W.last swap.new) (W.read_faults swap.old) (W.read_faults swap.new) (W.write_faults swap.old) (W.write_faults swap.new)
        (W.is_truthful swap.old) (W.is_truthful swap.new) (W.is_honest swap.old) (W.is_honest swap.new) live.new (read_of result) }
{
    let mut going = Going::Simul;
    'loads: loop {
        match step_load(live, swap, asker, &job, going)? {
            Step::Ends(answer) => return Ok(answer),
            Step::Makes(making) => {
                let ending = make(alloc, live, swap, stack, asker, caller, at, making, budget)?;
                return Ok(answer_of(ending));
            }
            Step::Asks(name, waiting) => {
                let answer = load(
                    alloc,
                    live,
                    swap,
                    stack,
                    asker,
                    caller,
                    at,
                    name.as_slice(),
                    Purpose::Inherited,
                    budget,
                )?;
                match feed_load(&mut job, live, waiting, answer)? {
                    Fed::Goes(next) => going = next,
                    Fed::Ends(answer) => return Ok(answer),
                }
            }
        }
    }
}

/// A file is loaded by its name on behalf of who asks: 1000 are paid first, or the budget is spent. The caller is the object for
/// which an efun asks for it, if one does, and for the log the place of who asks is given.
///
/// # Errors
/// `NoMemory`, also where the swap file gave other bytes of the same digest, a number of a program has no room, or a live
/// object has the name already; `Swap` where the swap file failed or gave bytes of another digest. Nothing is said of the state then.
#[cycle(calls)]
pub fn load<W: Truthful>(
    alloc: Global,
    live: &mut Live,
    swap: &mut W,
    stack: &mut Vec<Value>,
    asker: &mut Asker,
    caller: Option<ObjId>,
    at: Option<Place>,
    name: &[char],
    purpose: Purpose,
    budget: &mut u64,
) -> Result<Answer, VmFault>
    requires fit { IsFit live.old stack.old.items }
    requires can { CanLoad caller at (W.content swap.old) live.old asker.old budget.old }
    ensures loads { IfOk result (λ r. Loads caller at name.now purpose (W.content swap.old) live.old stack.old.items asker.old budget.old (W.content swap.new) live.new stack.new.items asker.new budget.new r) }
    ensures tells { Tells (W.content swap.new) (W.last swap.new) (W.read_faults swap.old) (W.read_faults swap.new) (W.write_faults swap.old) (W.write_faults swap.new)
        (W.is_truthful swap.old) (W.is_truthful swap.new) (W.is_honest swap.old) (W.is_honest swap.new) live.new (read_of result) }
{
    match begin_load(alloc, asker, name, purpose, budget)? {
        Begun::Spent => Ok(unpaid()),
        Begun::Runs(job) => {
            let answer = load_on(alloc, live, swap, stack, asker, caller, at, job, budget)?;
            pop_load(asker);
            Ok(answer)
        }
    }
}

/// `clone_object` goes on with the load of its blueprint, and with what that gave.
#[cycle(calls)]
fn load_clone<W: Truthful>(
    alloc: Global,
    live: &mut Live,
    swap: &mut W,
    stack: &mut Vec<Value>,
    asker: &mut Asker,
    at: Place,
    name: String,
    budget: &mut u64,
) -> Result<Ending, VmFault>
    requires fit { IsFit live.old stack.old.items }
    requires can { CanClone at (stages.Load name) (W.content swap.old) live.old asker.old budget.old }
    ensures clones { IfOk result (λ e. Clones at (stages.Load name) (W.content swap.old) live.old stack.old.items asker.old budget.old (W.content swap.new) live.new stack.new.items asker.new budget.new e) }
    ensures tells { Tells (W.content swap.new) (W.last swap.new) (W.read_faults swap.old) (W.read_faults swap.new) (W.write_faults swap.old) (W.write_faults swap.new)
        (W.is_truthful swap.old) (W.is_truthful swap.new) (W.is_honest swap.old) (W.is_honest swap.new) live.new (read_of result) }
{
    law_loads_through();
    let text = Text::from_str(alloc, name.as_str())?;
    let answer = load(
        alloc,
        live,
        swap,
        stack,
        asker,
        Some(at.this),
        Some(at),
        text.as_slice(),
        Purpose::Wanted,
        budget,
    )?;
    let ending = loaded_ending(alloc, &text, answer)?;
    match clone_loaded(live, swap, name, ending)? {
        CloneBegun::Ends(ending) => Ok(ending),
        CloneBegun::Runs(cloning) => match cloning {
            Cloning::Make(making) => {
                let ending = make(
                    alloc,
                    live,
                    swap,
                    stack,
                    asker,
                    Some(at.this),
                    Some(at),
                    making,
                    budget,
                )?;
                Ok(cloned(ending))
            }
            Cloning::Load(_) => Err(VmFault::NoMemory),
        },
    }
}

/// `clone_object`, which the function at a place calls, is carried out, with so many arguments on top of the stack, which are taken.
#[cycle(calls)]
fn call_clone<W: Truthful>(
    alloc: Global,
    live: &mut Live,
    swap: &mut W,
    stack: &mut Vec<Value>,
    asker: &mut Asker,
    at: Place,
    args: u32,
    budget: &mut u64,
) -> Result<Ending, VmFault>
    requires fit { IsFit live.old stack.old.items }
    requires can { CanServe (W.content swap.old) live.old stack.old.items asker.old budget.old (requests.Efun at efuns.CloneObject) args }
    ensures answers { IfOk result (λ e. Answers (requests.Efun at efuns.CloneObject) args (W.content swap.old) live.old stack.old.items asker.old budget.old (W.content swap.new) live.new stack.new.items asker.new budget.new e) }
    ensures tells { Tells (W.content swap.new) (W.last swap.new) (W.read_faults swap.old) (W.read_faults swap.new) (W.write_faults swap.old) (W.write_faults swap.new)
        (W.is_truthful swap.old) (W.is_truthful swap.new) (W.is_honest swap.old) (W.is_honest swap.new) live.new (read_of result) }
{
    match begin_clone(live, swap, stack, args, budget)? {
        CloneBegun::Ends(ending) => Ok(ending),
        CloneBegun::Runs(cloning) => match cloning {
            Cloning::Load(name) => load_clone(alloc, live, swap, stack, asker, at, name, budget),
            Cloning::Make(making) => {
                let ending = make(
                    alloc,
                    live,
                    swap,
                    stack,
                    asker,
                    Some(at.this),
                    Some(at),
                    making,
                    budget,
                )?;
                Ok(cloned(ending))
            }
        },
    }
}

/// The job of a command goes on to its end. The caller is the object for which an efun asks that a line is carried out, if one does.
#[cycle(calls)]
fn carry_out<W: Truthful>(
    alloc: Global,
    live: &mut Live,
    swap: &mut W,
    stack: &mut Vec<Value>,
    asker: &mut Asker,
    caller: Option<ObjId>,
    mut job: Commanding,
    budget: &mut u64,
) -> Result<Ending, VmFault>
    requires fit { IsFit live.old stack.old.items }
    requires can { CanCarryOut caller (W.content swap.old) live.old asker.old budget.old }
    ensures carries { IfOk result (λ e. CarriesOut caller job (W.content swap.old) live.old stack.old.items asker.old budget.old (W.content swap.new) live.new stack.new.items asker.new budget.new e) }
    ensures tells { Tells (W.content swap.new) (W.last swap.new) (W.read_faults swap.old) (W.read_faults swap.new) (W.write_faults swap.old) (W.write_faults swap.new)
        (W.is_truthful swap.old) (W.is_truthful swap.new) (W.is_honest swap.old) (W.is_honest swap.new) live.new (read_of result) }
{
    'actions: loop {
        match step_command(live, swap, stack, asker, caller, &mut job)? {
            Commanded::Ended(ending) => return Ok(ending),
            Commanded::Asks(reached) => {
                let ending = answer(alloc, live, swap, stack, asker, reached, 1, budget)?;
                if let Some(ending) = feed_command(&mut job, live, asker, ending) {
                    return Ok(ending);
                }
            }
        }
    }
}

/// A living object carries out a line on behalf of who asks. The caller is the object for which an efun asks so, if one does.
///
/// # Errors
/// `NoMemory`, also where the swap file gave other bytes of the same digest; `Swap` where it failed or gave bytes of another
/// digest. Nothing is said of the state then.
#[cycle(calls)]
pub fn obey<W: Truthful>(
    alloc: Global,
    live: &mut Live,
    swap: &mut W,
    stack: &mut Vec<Value>,
    asker: &mut Asker,
    caller: Option<ObjId>,
    holder: ObjId,
    line: &[char],
    budget: &mut u64,
) -> Result<Ending, VmFault>
    requires fit { IsFit live.old stack.old.items }
    requires can { CanObey caller holder line.now (W.content swap.old) live.old stack.old.items asker.old budget.old }
    ensures obeys { IfOk result (λ e. Obeys caller holder line.now (W.content swap.old) live.old stack.old.items asker.old budget.old (W.content swap.new) live.new stack.new.items asker.new budget.new e) }
    ensures tells { Tells (W.content swap.new) (W.last swap.new) (W.read_faults swap.old) (W.read_faults swap.new) (W.write_faults swap.old) (W.write_faults swap.new)
        (W.is_truthful swap.old) (W.is_truthful swap.new) (W.is_honest swap.old) (W.is_honest swap.new) live.new (read_of result) }
{
    match begin_command(live, asker, holder, line)? {
        Commandment::Ends(v) => Ok(Ending::Value(v)),
        Commandment::Runs(job) => carry_out(alloc, live, swap, stack, asker, caller, job, budget),
    }
}

/// `command`, which the function at a place calls, is carried out, with so many arguments on top of the stack, which are taken.
#[cycle(calls)]
fn call_command<W: Truthful>(
    alloc: Global,
    live: &mut Live,
    swap: &mut W,
    stack: &mut Vec<Value>,
    asker: &mut Asker,
    at: Place,
    args: u32,
    budget: &mut u64,
) -> Result<Ending, VmFault>
    requires fit { IsFit live.old stack.old.items }
    requires can { CanServe (W.content swap.old) live.old stack.old.items asker.old budget.old (requests.Efun at efuns.Command) args }
    ensures answers { IfOk result (λ e. Answers (requests.Efun at efuns.Command) args (W.content swap.old) live.old stack.old.items asker.old budget.old (W.content swap.new) live.new stack.new.items asker.new budget.new e) }
    ensures tells { Tells (W.content swap.new) (W.last swap.new) (W.read_faults swap.old) (W.read_faults swap.new) (W.write_faults swap.old) (W.write_faults swap.new)
        (W.is_truthful swap.old) (W.is_truthful swap.new) (W.is_honest swap.old) (W.is_honest swap.new) live.new (read_of result) }
{
    match begin_command_efun(live, stack, asker, at, args, budget)? {
        CommandBegun::Ends(answer) => Ok(ending_of(answer)),
        CommandBegun::Runs(holder, line) => {
            let player = put_player(asker, Some(holder));
            let ending = obey(
                alloc,
                live,
                swap,
                stack,
                asker,
                Some(at.this),
                holder,
                line.as_slice(),
                budget,
            )?;
            Ok(end_command_efun(live, asker, player, ending, budget))
        }
    }
}
