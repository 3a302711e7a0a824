//! Commands of living objects: what their jobs ask, and how they take what was answered.
ghost use Rattle.std.specs.Prelude.{◌≡◌, ◌≤◌, IfErr, IfOk, IfSome, IsSome, OnErr, OnOk};
ghost use Rattle.lp_cells.specs.Cells.{Store};
ghost use Rattle.lp_commanding.specs.Beginning.{Begins, IsBegunThere};
ghost use Rattle.lp_commanding.specs.Jobs.{IsAsking, object_of};
ghost use Rattle.lp_step.specs.Steps.{IsFit, KeepsVariables};
ghost use Rattle.lp_world.specs.Closed.{IsClosed};
ghost use Rattle.lp_world.specs.Rows.{row_at};
ghost use Rattle.lp_asking.specs.Endings.{IsEndingThere};
ghost use Rattle.lp_reaching.specs.Reaching.{CanApply, FindsApplied, IsInMemory};
ghost use Rattle.lp_vm.specs.declared.fault.VmFault.TheVariants.{NoMemory};
ghost use Rattle.lp_vm.specs.Answering.{IsSameAsker};
ghost use Rattle.lp_vm.specs.Causes.{Tells, read_of};
ghost use Rattle.lp_vm.specs.Commanding.{AsksLess, CanStep, CommandSteps, FeedsCommand, name_asked};

use crate::asking::reach_named;
use crate::fault::VmFault;
use lp_asking::asker::Asker;
use lp_asking::ending::Ending;
use lp_asking::truth::Truthful;
use lp_commanding::begin::begin;
use lp_commanding::feed::{feed, stop};
use lp_commanding::job::{Begun, Commanding, Fed, Question, Step};
use lp_commanding::next::next;
use lp_reaching::applying::find_applied;
use lp_reaching::reached::Reached;
use lp_values::id::ObjId;
use lp_values::value::Value;
use lp_world::live::Live;

/// How far a command came.
#[derive(Drop)]
pub enum Commanded {
    /// It ended.
    Ended(Ending),
    /// It asks what reaches this, with one argument on top of the stack.
    Asks(Option<Reached>),
}

/// `catch_tell` of the object that carries out the line.
fn reach_holder<W: Truthful>(
    live: &mut Live,
    swap: &mut W,
    caller: Option<ObjId>,
    holder: ObjId,
) -> Result<Option<Reached>, VmFault>
    requires closed { IsClosed live.old }
    requires object { IsSome (row_at live.old.objects holder.0) }
    requires can { CanApply (W.content swap.old) live.old caller holder (name_asked (Question.CatchTell holder)) }
    ensures found { IfOk result (λ r. FindsApplied caller holder (name_asked (Question.CatchTell holder)) (W.content swap.old) live.old (W.content swap.new) live.new r) }
    ensures there { IfOk result (λ r. IfSome r (λ x. IsInMemory live.new x.callee x.code)) }
    ensures closed { IsClosed live.new }
    ensures home { KeepsVariables live.old.objects live.new.objects }
    ensures cells { live.new.cells ≡ live.old.cells }
    ensures outputs { live.new.outputs ≡ live.old.outputs }
    ensures tells { Tells (W.content swap.new) (W.last swap.new) (W.read_faults swap.old) (W.read_faults swap.new) (W.write_faults swap.old) (W.write_faults swap.new)
        (W.is_truthful swap.old) (W.is_truthful swap.new) (W.is_honest swap.old) (W.is_honest swap.new) live.new (read_of result) }
{
    Ok(find_applied(live, swap, caller, holder, "catch_tell")?)
}

/// The function that a question of a command reaches, if there is one. What is needed for it comes into memory.
///
/// # Errors
/// `NoMemory` and `Swap` as where a running function asks.
fn reach_asked<W: Truthful>(
    live: &mut Live,
    swap: &mut W,
    caller: Option<ObjId>,
    question: Question,
) -> Result<Option<Reached>, VmFault>
    requires closed { IsClosed live.old }
    requires object { IsSome (row_at live.old.objects (object_of question).0) }
    requires can { CanApply (W.content swap.old) live.old caller (object_of question) (name_asked question) }
    ensures found { IfOk result (λ r. FindsApplied caller (object_of question) (name_asked question) (W.content swap.old) live.old (W.content swap.new) live.new r) }
    ensures there { IfOk result (λ r. IfSome r (λ x. IsInMemory live.new x.callee x.code)) }
    ensures closed { IsClosed live.new }
    ensures home { KeepsVariables live.old.objects live.new.objects }
    ensures cells { live.new.cells ≡ live.old.cells }
    ensures outputs { live.new.outputs ≡ live.old.outputs }
    ensures tells { Tells (W.content swap.new) (W.last swap.new) (W.read_faults swap.old) (W.read_faults swap.new) (W.write_faults swap.old) (W.write_faults swap.new)
        (W.is_truthful swap.old) (W.is_truthful swap.new) (W.is_honest swap.old) (W.is_honest swap.new) live.new (read_of result) }
{
    match question {
        Question::Action(giver, name) => reach_named(live, swap, caller, giver, &name),
        Question::CatchTell(holder) => reach_holder(live, swap, caller, holder),
    }
}

/// A living object begins to carry out a line: it ends at once, or its command is a job, and runs within those that run already.
///
/// # Errors
/// `NoMemory`.
pub fn begin_command(
    live: &Live,
    asker: &mut Asker,
    holder: ObjId,
    line: &[char],
) -> Result<Begun, VmFault>
    ensures begins { IfOk result (λ r. Begins r holder line.now live.now asker.old.turn asker.new.turn) }
    ensures there { IfOk result (λ r. (cells : Store) → IsBegunThere cells r) }
    ensures same { asker.new ≡ record asker.old { turn = asker.new.turn } }
    ensures fault { IfErr result (λ f. f ≡ NoMemory) }
{
    Ok(begin(live, &mut asker.turn, holder, line)?)
}

/// A command goes on until it asks or ends, on behalf of who asks, with `caller` as the latest caller, if one is given.
///
/// # Errors
/// `NoMemory` and `Swap` as where a running function asks.
pub fn step_command<W: Truthful>(
    live: &mut Live,
    swap: &mut W,
    stack: &mut Vec<Value>,
    asker: &mut Asker,
    caller: Option<ObjId>,
    job: &mut Commanding,
) -> Result<Commanded, VmFault>
    requires fit { IsFit live.old stack.old.items }
    requires can { CanStep caller (W.content swap.old) live.old asker.old }
    ensures steps { IfOk result (λ r. CommandSteps r caller job.old (W.content swap.old) live.old stack.old.items asker.old job.new (W.content swap.new) live.new stack.new.items asker.new) }
    ensures tells { Tells (W.content swap.new) (W.last swap.new) (W.read_faults swap.old) (W.read_faults swap.new) (W.write_faults swap.old) (W.write_faults swap.new)
        (W.is_truthful swap.old) (W.is_truthful swap.new) (W.is_honest swap.old) (W.is_honest swap.new) live.new (read_of result) }
{
    match next(job, live, &mut asker.turn, stack)? {
        Step::Ends(v) => Ok(Commanded::Ended(Ending::Value(v))),
        Step::Asks(question) => {
            let reached = reach_asked(live, swap, caller, question)?;
            Ok(Commanded::Asks(reached))
        }
    }
}

/// A command goes on with what it was answered, whose argument is gone: with a value it asks again, or ends; a stop ends it. Where
/// it ends it runs no longer.
pub fn feed_command(
    job: &mut Commanding,
    live: &Live,
    asker: &mut Asker,
    ending: Ending,
) -> Option<Ending>
    requires asking { IsAsking job.old }
    requires there { IsEndingThere live.now.cells ending }
    ensures feeds { FeedsCommand result ending job.old live.now asker.old job.new asker.new }
    ensures same { asker.new ≡ record asker.old { turn = asker.new.turn } }
    ensures less { AsksLess result job.old job.new }
    ensures there { IfSome result (IsEndingThere live.now.cells) }
{
    match ending {
        Ending::Value(v) => match feed(job, live, &mut asker.turn, v) {
            Fed::Goes => None,
            Fed::Ends(v) => Some(Ending::Value(v)),
        },
        Ending::Stopped(s) => {
            stop(&mut asker.turn);
            Some(Ending::Stopped(s))
        }
    }
}
