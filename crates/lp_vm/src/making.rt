//! Objects that were made begin: what their jobs ask, and how they take what was answered.
ghost use Rattle.std.specs.Prelude.{◌≡◌, IfOk, IfSome, IsSome, OnOk};
ghost use Rattle.lp_step.specs.Steps.{KeepsVariables};
ghost use Rattle.lp_world.specs.Closed.{IsClosed};
ghost use Rattle.lp_world.specs.Rows.{row_at};
ghost use Rattle.lp_reaching.specs.Reaching.{IsInMemory};
ghost use Rattle.lp_beginning.specs.declared.job.Question.TheVariants as questions;
ghost use Rattle.lp_beginning.specs.Feeding.{Feeds, LeavesLess};
ghost use Rattle.lp_vm.specs.Causes.{Tells, read_of};
ghost use Rattle.lp_vm.specs.Making.{CanAskNext, CanReachFor, FindsFor, MakeAsks, StandsForOne, object_for};

use crate::fault::VmFault;
use lp_asking::ending::{Ending, Place};
use lp_asking::truth::Truthful;
use lp_beginning::feed::feed;
use lp_beginning::job::{Fed, Making, Question};
use lp_beginning::next::next;
use lp_reaching::applying::find_applied;
use lp_reaching::initialising::find_initialisers;
use lp_reaching::reached::Reached;
use lp_values::id::ObjId;
use lp_world::live::Live;

/// The initialisers of a part of a new object's program.
fn reach_initialisers<W: Truthful>(
    live: &mut Live,
    swap: &mut W,
    caller: Option<ObjId>,
    ob: ObjId,
    part: u16,
) -> Result<Option<Reached>, VmFault>
    requires closed { IsClosed live.old }
    requires object { IsSome (row_at live.old.objects ob.0) }
    requires can { CanReachFor caller (questions.Initialise ob part) (W.content swap.old) live.old }
    ensures found { IfOk result (λ r. FindsFor caller (questions.Initialise ob part) (W.content swap.old) live.old (W.content swap.new) live.new r) }
    ensures there { IfOk result (λ r. IfSome r (λ x. IsInMemory live.new x.callee x.code)) }
    ensures closed { IsClosed live.new }
    ensures home { KeepsVariables live.old.objects live.new.objects }
    ensures cells { live.new.cells ≡ live.old.cells }
    ensures outputs { live.new.outputs ≡ live.old.outputs }
    ensures tells { Tells (W.content swap.new) (W.last swap.new) (W.read_faults swap.old) (W.read_faults swap.new) (W.write_faults swap.old) (W.write_faults swap.new)
        (W.is_truthful swap.old) (W.is_truthful swap.new) (W.is_honest swap.old) (W.is_honest swap.new) live.new (read_of result) }
{
    Ok(find_initialisers(live, swap, caller, ob, part)?)
}

/// `create` of a new object.
fn reach_create<W: Truthful>(
    live: &mut Live,
    swap: &mut W,
    caller: Option<ObjId>,
    ob: ObjId,
) -> Result<Option<Reached>, VmFault>
    requires closed { IsClosed live.old }
    requires object { IsSome (row_at live.old.objects ob.0) }
    requires can { CanReachFor caller (questions.Create ob) (W.content swap.old) live.old }
    ensures found { IfOk result (λ r. FindsFor caller (questions.Create ob) (W.content swap.old) live.old (W.content swap.new) live.new r) }
    ensures there { IfOk result (λ r. IfSome r (λ x. IsInMemory live.new x.callee x.code)) }
    ensures closed { IsClosed live.new }
    ensures home { KeepsVariables live.old.objects live.new.objects }
    ensures cells { live.new.cells ≡ live.old.cells }
    ensures outputs { live.new.outputs ≡ live.old.outputs }
    ensures tells { Tells (W.content swap.new) (W.last swap.new) (W.read_faults swap.old) (W.read_faults swap.new) (W.write_faults swap.old) (W.write_faults swap.new)
        (W.is_truthful swap.old) (W.is_truthful swap.new) (W.is_honest swap.old) (W.is_honest swap.new) live.new (read_of result) }
{
    Ok(find_applied(live, swap, caller, ob, "create")?)
}

/// The function that a question of a job reaches, if there is one.
fn reach_for<W: Truthful>(
    live: &mut Live,
    swap: &mut W,
    caller: Option<ObjId>,
    question: Question,
) -> Result<Option<Reached>, VmFault>
    requires closed { IsClosed live.old }
    requires object { IsSome (row_at live.old.objects (object_for question).0) }
    requires can { CanReachFor caller question (W.content swap.old) live.old }
    ensures found { IfOk result (λ r. FindsFor caller question (W.content swap.old) live.old (W.content swap.new) live.new r) }
    ensures there { IfOk result (λ r. IfSome r (λ x. IsInMemory live.new x.callee x.code)) }
    ensures closed { IsClosed live.new }
    ensures home { KeepsVariables live.old.objects live.new.objects }
    ensures cells { live.new.cells ≡ live.old.cells }
    ensures outputs { live.new.outputs ≡ live.old.outputs }
    ensures tells { Tells (W.content swap.new) (W.last swap.new) (W.read_faults swap.old) (W.read_faults swap.new) (W.write_faults swap.old) (W.write_faults swap.new)
        (W.is_truthful swap.old) (W.is_truthful swap.new) (W.is_honest swap.old) (W.is_honest swap.new) live.new (read_of result) }
{
    match question {
        Question::Initialise(ob, part) => reach_initialisers(live, swap, caller, ob, part),
        Question::Create(ob) => reach_create(live, swap, caller, ob),
    }
}

/// What the job of a new object asks next reaches this function, if there is one. What is needed for it comes into memory.
///
/// # Errors
/// `NoMemory` and `Swap` as where a running function asks.
pub fn ask_next<W: Truthful>(
    live: &mut Live,
    swap: &mut W,
    caller: Option<ObjId>,
    making: &Making,
) -> Result<Option<Reached>, VmFault>
    requires closed { IsClosed live.old }
    requires object { IsSome (row_at live.old.objects making.now.object.0) }
    requires can { CanAskNext caller making.now (W.content swap.old) live.old }
    ensures asks { IfOk result (λ r. MakeAsks r caller making.now (W.content swap.old) live.old (W.content swap.new) live.new) }
    ensures there { IfOk result (λ r. IfSome r (λ x. IsInMemory live.new x.callee x.code)) }
    ensures closed { IsClosed live.new }
    ensures home { KeepsVariables live.old.objects live.new.objects }
    ensures cells { live.new.cells ≡ live.old.cells }
    ensures outputs { live.new.outputs ≡ live.old.outputs }
    ensures tells { Tells (W.content swap.new) (W.last swap.new) (W.read_faults swap.old) (W.read_faults swap.new) (W.write_faults swap.old) (W.write_faults swap.new)
        (W.is_truthful swap.old) (W.is_truthful swap.new) (W.is_honest swap.old) (W.is_honest swap.new) live.new (read_of result) }
{
    reach_for(live, swap, caller, next(making))
}

/// The job of a new object is told how its question ended: it asks again, or ends. For the log the place of who asks is given.
///
/// # Errors
/// `NoMemory` and `Swap` as where the program of the place of a stop comes into memory.
pub fn feed_on<W: Truthful>(
    making: &mut Making,
    live: &mut Live,
    swap: &mut W,
    at: Option<Place>,
    ending: Ending,
) -> Result<Fed, VmFault>
    requires closed { IsClosed live.old }
    requires stands { StandsForOne (W.content swap.old) live.old }
    ensures feeds { IfOk result (λ r. Feeds r making.old ending at (W.content swap.old) live.old making.new live.new) }
    ensures less { IfOk result (λ r. LeavesLess r making.old making.new) }
    ensures told { W.content swap.new ≡ W.content swap.old }
    ensures closed { IsClosed live.new }
    ensures cells { live.new.cells ≡ live.old.cells }
    ensures home { KeepsVariables live.old.objects live.new.objects }
    ensures tells { Tells (W.content swap.new) (W.last swap.new) (W.read_faults swap.old) (W.read_faults swap.new) (W.write_faults swap.old) (W.write_faults swap.new)
        (W.is_truthful swap.old) (W.is_truthful swap.new) (W.is_honest swap.old) (W.is_honest swap.new) live.new (read_of result) }
{
    Ok(feed(making, live, swap, at, ending)?)
}
