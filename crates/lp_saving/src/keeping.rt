//! Jobs save and restore the variables of objects.
ghost use Rattle.std.specs.Prelude.{◌≡◌, ◌≤◌, IfOk, IfSome, IsAscii, IsSome, IsTrue, OnErr, OnOk, string_bytes, take, true};
ghost use Rattle.std.specs.Option.{option_copied, option_map};
ghost use Rattle.lp_cells.specs.Cells.{KeepsThere, Store};
ghost use Rattle.lp_filing.specs.Filing.{IsOutcomeThere, StandsStill};
ghost use Rattle.lp_world.specs.Closed.{IsClosed};
ghost use Rattle.lp_world.specs.Rows.{live_in, variables_at};
ghost use Rattle.lp_step.specs.Steps.{IsFit, KeepsVariables};
ghost use Rattle.lp_efuns.specs.Plain.{Finishes, IsAnswerThere, IsDidThere};
ghost use Rattle.lp_calling.specs.Jobs.{needs_program};
ghost use Rattle.lp_calling.specs.Leave.{is_keeping};
ghost use Rattle.lp_saving.specs.Saving.{IsOnlyKept, Keeps, KeepsOver, KeepsWith, Reads, StandsOver, did_of};

use crate::keeper::bring_keeper;
use lp_calling::job::{Job, Stage};
use lp_calling::wish::FileDeed;
use lp_code::program::RawProgram;
use lp_efuns::answer::{Answer, Did};
use lp_efuns::plain::finish;
use lp_filing::outcome::Outcome;
use lp_filing::restoring::restore_object;
use lp_filing::saving::save_object;
use lp_instr::efun::Efun;
use lp_residence::answers::EnterFault;
use lp_swapfile::SwapFile;
use lp_values::id::ObjId;
use lp_values::value::Value;
use lp_world::live::Live;
use std::alloc::AllocError;

/// What a deed came to, before the price of its value is paid.
fn did_of(outcome: Outcome) -> Did
    ensures value { result ≡ did_of outcome }
    ensures there { (cells : Store) → IsOutcomeThere cells outcome → IsDidThere cells result }
{
    match outcome {
        Outcome::Value(v) => Did::Value(v),
        Outcome::Error(e) => Did::Error(e),
    }
}

/// A job ends with what its deed came to, once the price of that is paid. Its values are taken from the stack.
fn end_with(
    efun: Efun,
    outcome: Outcome,
    live: &Live,
    stack: &mut Vec<Value>,
    low: usize,
    budget: &mut u64,
) -> Answer
    requires there { IsOutcomeThere live.now.cells outcome }
    ensures finishes { Finishes efun (live_in live.now.objects) live.now.cells (did_of outcome) budget.old result budget.new }
    ensures items { stack.new.items ≡ take low stack.old.items }
    ensures there { IsAnswerThere live.now.cells result }
    ensures spends { budget.new ≤ budget.old }
{
    stack.truncate(low);
    finish(efun, did_of(outcome), &live.cells, &live.objects, budget)
}

/// A text that there may be.
fn text_of(text: &Option<String>) -> Option<&str>
    ensures { option_copied result ≡ option_map string_bytes text.now }
{
    match text {
        Some(t) => Some(t.as_str()),
        None => None,
    }
}

/// The saved variables of an object become the file at a path, and the job ends.
fn save(
    efun: Efun,
    this: ObjId,
    code: &RawProgram,
    path: Option<&str>,
    live: &mut Live,
    stack: &mut Vec<Value>,
    low: usize,
    budget: &mut u64,
) -> Result<Answer, AllocError>
    requires closed { IsClosed live.old }
    requires variables { IsSome (variables_at live.old.objects this) }
    ensures keeps { IfOk result (λ a. KeepsWith a efun (FileDeed.Save this) (option_copied path.entry) this code.now live.old stack.old.items low budget.old live.new stack.new.items budget.new) }
    ensures only { IsOnlyKept live.old live.new }
    ensures closed { IsClosed live.new }
    ensures there { IfOk result (IsAnswerThere live.new.cells) }
    ensures stay { KeepsThere live.old.cells live.new.cells }
    ensures variables { KeepsVariables live.old.objects live.new.objects }
    ensures still { OnErr result (StandsStill live.old live.new) }
    ensures items { OnOk result (stack.new.items ≡ take low stack.old.items) }
    ensures spends { budget.new ≤ budget.old }
{
    let outcome = save_object(live, this, code, path)?;
    Ok(end_with(efun, outcome, live, stack, low, budget))
}

/// The saved variables of an object come from the file at a path, and the job ends.
fn restore(
    efun: Efun,
    this: ObjId,
    code: &RawProgram,
    path: Option<&str>,
    live: &mut Live,
    stack: &mut Vec<Value>,
    low: usize,
    budget: &mut u64,
) -> Result<Answer, AllocError>
    requires closed { IsClosed live.old }
    requires variables { IsSome (variables_at live.old.objects this) }
    requires path { IfSome (option_copied path) IsAscii }
    ensures keeps { IfOk result (λ a. KeepsWith a efun (FileDeed.Restore this) (option_copied path.entry) this code.now live.old stack.old.items low budget.old live.new stack.new.items budget.new) }
    ensures only { IsOnlyKept live.old live.new }
    ensures closed { IsClosed live.new }
    ensures there { IfOk result (IsAnswerThere live.new.cells) }
    ensures stay { KeepsThere live.old.cells live.new.cells }
    ensures variables { KeepsVariables live.old.objects live.new.objects }
    ensures still { OnErr result (StandsStill live.old live.new) }
    ensures items { OnOk result (stack.new.items ≡ take low stack.old.items) }
    ensures spends { budget.new ≤ budget.old }
{
    let outcome = restore_object(live, this, code, path)?;
    Ok(end_with(efun, outcome, live, stack, low, budget))
}

/// Whether a text is of ASCII alone, as each path is.
fn is_plain(text: Option<&str>) -> bool
    ensures { IsTrue result → IfSome (option_copied text.entry) IsAscii }
{
    match text {
        Some(t) => t.is_ascii(),
        None => true,
    }
}

/// A job saves the variables of an object, which comes into memory with its program.
fn keep_saved<W: SwapFile>(
    efun: Efun,
    this: ObjId,
    path: &Option<String>,
    live: &mut Live,
    swap: &mut W,
    stack: &mut Vec<Value>,
    low: usize,
    budget: &mut u64,
) -> Result<Answer, EnterFault>
    requires closed { IsClosed live.old }
    ensures reads { Reads (W.content swap.old) (W.content swap.new) (W.last swap.new) (W.read_faults swap.old) (W.read_faults swap.new) (W.write_faults swap.old) (W.write_faults swap.new)
        (W.is_truthful swap.old) (W.is_truthful swap.new) (W.is_honest swap.old) (W.is_honest swap.new) live.old live.new result }
    ensures keeps { W.is_truthful swap.new → IfOk result (λ a. KeepsOver a efun (FileDeed.Save this) (option_map string_bytes path.now) (W.content swap.old) live.old stack.old.items low budget.old live.new stack.new.items budget.new) }
    ensures closed { IsClosed live.new }
    ensures there { IfOk result (IsAnswerThere live.new.cells) }
    ensures stay { KeepsThere live.old.cells live.new.cells }
    ensures variables { KeepsVariables live.old.objects live.new.objects }
    ensures still { W.is_truthful swap.new → OnErr result (StandsOver (W.content swap.old) live.old (W.content swap.new) live.new) }
    ensures items { OnOk result (stack.new.items ≡ take low stack.old.items) }
    ensures spends { budget.new ≤ budget.old }
{
    match bring_keeper(live, swap, this) {
        Ok(code) => match save(
            efun,
            this,
            code.raw(),
            text_of(path),
            live,
            stack,
            low,
            budget,
        ) {
            Ok(a) => {
                drop(code);
                Ok(a)
            }
            Err(_) => {
                drop(code);
                Err(EnterFault::NoMemory)
            }
        },
        Err(e) => Err(e),
    }
}

/// A job restores the variables of an object, which comes into memory with its program. A path that is not of ASCII, as none is, is
/// refused as want of memory is.
fn keep_restored<W: SwapFile>(
    efun: Efun,
    this: ObjId,
    path: &Option<String>,
    live: &mut Live,
    swap: &mut W,
    stack: &mut Vec<Value>,
    low: usize,
    budget: &mut u64,
) -> Result<Answer, EnterFault>
    requires closed { IsClosed live.old }
    ensures reads { Reads (W.content swap.old) (W.content swap.new) (W.last swap.new) (W.read_faults swap.old) (W.read_faults swap.new) (W.write_faults swap.old) (W.write_faults swap.new)
        (W.is_truthful swap.old) (W.is_truthful swap.new) (W.is_honest swap.old) (W.is_honest swap.new) live.old live.new result }
    ensures keeps { W.is_truthful swap.new → IfOk result (λ a. KeepsOver a efun (FileDeed.Restore this) (option_map string_bytes path.now) (W.content swap.old) live.old stack.old.items low budget.old live.new stack.new.items budget.new) }
    ensures closed { IsClosed live.new }
    ensures there { IfOk result (IsAnswerThere live.new.cells) }
    ensures stay { KeepsThere live.old.cells live.new.cells }
    ensures variables { KeepsVariables live.old.objects live.new.objects }
    ensures still { W.is_truthful swap.new → OnErr result (StandsOver (W.content swap.old) live.old (W.content swap.new) live.new) }
    ensures items { OnOk result (stack.new.items ≡ take low stack.old.items) }
    ensures spends { budget.new ≤ budget.old }
{
    if !is_plain(text_of(path)) {
        return Err(EnterFault::NoMemory);
    }
    match bring_keeper(live, swap, this) {
        Ok(code) => match restore(
            efun,
            this,
            code.raw(),
            text_of(path),
            live,
            stack,
            low,
            budget,
        ) {
            Ok(a) => {
                drop(code);
                Ok(a)
            }
            Err(_) => {
                drop(code);
                Err(EnterFault::NoMemory)
            }
        },
        Err(e) => Err(e),
    }
}

/// A deed on the saved variables of an object, which comes into memory with its program, and the job ends.
fn keep_deed<W: SwapFile>(
    efun: Efun,
    deed: &FileDeed,
    path: &Option<String>,
    live: &mut Live,
    swap: &mut W,
    stack: &mut Vec<Value>,
    low: usize,
    budget: &mut u64,
) -> Result<Answer, EnterFault>
    requires keeping { is_keeping deed.now ≡ true }
    requires closed { IsClosed live.old }
    ensures reads { Reads (W.content swap.old) (W.content swap.new) (W.last swap.new) (W.read_faults swap.old) (W.read_faults swap.new) (W.write_faults swap.old) (W.write_faults swap.new)
        (W.is_truthful swap.old) (W.is_truthful swap.new) (W.is_honest swap.old) (W.is_honest swap.new) live.old live.new result }
    ensures keeps { W.is_truthful swap.new → IfOk result (λ a. KeepsOver a efun deed.now (option_map string_bytes path.now) (W.content swap.old) live.old stack.old.items low budget.old live.new stack.new.items budget.new) }
    ensures closed { IsClosed live.new }
    ensures there { IfOk result (IsAnswerThere live.new.cells) }
    ensures stay { KeepsThere live.old.cells live.new.cells }
    ensures variables { KeepsVariables live.old.objects live.new.objects }
    ensures still { W.is_truthful swap.new → OnErr result (StandsOver (W.content swap.old) live.old (W.content swap.new) live.new) }
    ensures items { OnOk result (stack.new.items ≡ take low stack.old.items) }
    ensures spends { budget.new ≤ budget.old }
{
    match deed {
        FileDeed::Save(this) => keep_saved(efun, *this, path, live, swap, stack, low, budget),
        FileDeed::Restore(this) => keep_restored(efun, *this, path, live, swap, stack, low, budget),
        FileDeed::Read => unreachable!(),
        FileDeed::Size => unreachable!(),
        FileDeed::Write(_) => unreachable!(),
        FileDeed::Remove => unreachable!(),
    }
}

/// A job that needs the program of its object goes on, and ends: it saves or restores the variables of the object, which comes into memory
/// with its program, and pays the price of its value. Where that cannot be paid the budget is spent. Nothing is left of it on the stack.
///
/// # Errors
/// `Swap` where the read of the object or of its program failed, or gave other bytes than were written; it is out still. `NoMemory` also
/// where bytes of the right digest are none that fit. After each the state is closed and stands for the same world, and the job is of no
/// use but to be stopped.
pub fn keep<W: SwapFile>(
    job: &Job,
    live: &mut Live,
    swap: &mut W,
    stack: &mut Vec<Value>,
    budget: &mut u64,
) -> Result<Answer, EnterFault>
    requires needs { needs_program job.now ≡ true }
    requires fit { IsFit live.old stack.old.items }
    ensures reads { Reads (W.content swap.old) (W.content swap.new) (W.last swap.new) (W.read_faults swap.old) (W.read_faults swap.new) (W.write_faults swap.old) (W.write_faults swap.new)
        (W.is_truthful swap.old) (W.is_truthful swap.new) (W.is_honest swap.old) (W.is_honest swap.new) live.old live.new result }
    ensures keeps { W.is_truthful swap.new → IfOk result (λ a. Keeps a job.now (W.content swap.old) live.old stack.old.items budget.old live.new stack.new.items budget.new) }
    ensures closed { IsClosed live.new }
    ensures there { IfOk result (IsAnswerThere live.new.cells) }
    ensures fit { OnOk result (IsFit live.new stack.new.items) }
    ensures stay { KeepsThere live.old.cells live.new.cells }
    ensures variables { KeepsVariables live.old.objects live.new.objects }
    ensures still { W.is_truthful swap.new → OnErr result (StandsOver (W.content swap.old) live.old (W.content swap.new) live.new) }
    ensures spends { budget.new ≤ budget.old }
{
    match &job.stage {
        Stage::File(deed, path) => {
            keep_deed(job.efun, deed, path, live, swap, stack, job.low, budget)
        }
        _ => unreachable!(),
    }
}
