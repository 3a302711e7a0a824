//! What a question of a job for a function reaches.
ghost use Rattle.std.specs.Prelude.{◌≡◌, ◌≤◌, IfOk, IfSome, IsSome, length};
ghost use Rattle.lp_calling.specs.declared.job.Question.TheVariants as questions;
ghost use Rattle.lp_step.specs.Steps.{KeepsVariables};
ghost use Rattle.lp_world.specs.Closed.{IsClosed};
ghost use Rattle.lp_world.specs.Rows.{row_at};
ghost use Rattle.lp_reaching.specs.Reaching.{CanApply, FindsApplied, IsInMemory};
ghost use Rattle.lp_vm.specs.Causes.{Tells, read_of};
ghost use Rattle.lp_vm.specs.Working.{CanReach, FindsAsked};

use crate::fault::VmFault;
use crate::naming::{name_of, spell};
use lp_asking::truth::Truthful;
use lp_calling::job::Applied;
use lp_reaching::applying::find_applied;
use lp_reaching::outside::find_outside;
use lp_reaching::reached::Reached;
use lp_values::id::ObjId;
use lp_values::text::Text;
use lp_world::live::Live;

/// A function of an object, by its name of at most 64 letters, as the object of the efun's caller calls it. The name takes no
/// memory.
fn reach_short<W: Truthful>(
    live: &mut Live,
    swap: &mut W,
    this: ObjId,
    ob: ObjId,
    name: &Text,
) -> Result<Option<Reached>, VmFault>
    requires closed { IsClosed live.old }
    requires object { IsSome (row_at live.old.objects ob.0) }
    requires can { CanReach this (questions.Other ob name.now) (W.content swap.old) live.old }
    requires few { length name.now ≤ 64 }
    ensures found { IfOk result (λ r. FindsAsked this (questions.Other ob name.now) (W.content swap.old) live.old (W.content swap.new) live.new r) }
    ensures there { IfOk result (λ r. IfSome r (λ x. IsInMemory live.new x.callee x.code)) }
    ensures closed { IsClosed live.new }
    ensures home { KeepsVariables live.old.objects live.new.objects }
    ensures cells { live.new.cells ≡ live.old.cells }
    ensures outputs { live.new.outputs ≡ live.old.outputs }
    ensures tells { Tells (W.content swap.new) (W.last swap.new) (W.read_faults swap.old) (W.read_faults swap.new) (W.write_faults swap.old) (W.write_faults swap.new)
        (W.is_truthful swap.old) (W.is_truthful swap.new) (W.is_honest swap.old) (W.is_honest swap.new) live.new (read_of result) }
{
    let mut room = [0; 64];
    let letters = name.as_slice();
    if !spell(letters, &mut room) {
        return Ok(None);
    }
    match str::from_utf8(&room[..letters.len()]) {
        Ok(spelled) => Ok(find_outside(live, swap, this, ob, spelled)?),
        Err(_) => Ok(None),
    }
}

/// The same by a name of any length.
fn reach_long<W: Truthful>(
    live: &mut Live,
    swap: &mut W,
    this: ObjId,
    ob: ObjId,
    name: &Text,
) -> Result<Option<Reached>, VmFault>
    requires closed { IsClosed live.old }
    requires object { IsSome (row_at live.old.objects ob.0) }
    requires can { CanReach this (questions.Other ob name.now) (W.content swap.old) live.old }
    ensures found { IfOk result (λ r. FindsAsked this (questions.Other ob name.now) (W.content swap.old) live.old (W.content swap.new) live.new r) }
    ensures there { IfOk result (λ r. IfSome r (λ x. IsInMemory live.new x.callee x.code)) }
    ensures closed { IsClosed live.new }
    ensures home { KeepsVariables live.old.objects live.new.objects }
    ensures cells { live.new.cells ≡ live.old.cells }
    ensures outputs { live.new.outputs ≡ live.old.outputs }
    ensures tells { Tells (W.content swap.new) (W.last swap.new) (W.read_faults swap.old) (W.read_faults swap.new) (W.write_faults swap.old) (W.write_faults swap.new)
        (W.is_truthful swap.old) (W.is_truthful swap.new) (W.is_honest swap.old) (W.is_honest swap.new) live.new (read_of result) }
{
    match name_of(live.alloc, name)? {
        Some(name) => Ok(find_outside(live, swap, this, ob, name.as_str())?),
        None => Ok(None),
    }
}

/// A function of an object, by its name, as an object calls it in which a function called the job's efun. What is needed for the
/// function comes into memory. A name that is not of ASCII is that of no function.
///
/// # Errors
/// `NoMemory` and `Swap` as where a running function asks.
pub fn reach_other<W: Truthful>(
    live: &mut Live,
    swap: &mut W,
    this: ObjId,
    ob: ObjId,
    name: &Text,
) -> Result<Option<Reached>, VmFault>
    requires closed { IsClosed live.old }
    requires object { IsSome (row_at live.old.objects ob.0) }
    requires can { CanReach this (questions.Other ob name.now) (W.content swap.old) live.old }
    ensures found { IfOk result (λ r. FindsAsked this (questions.Other ob name.now) (W.content swap.old) live.old (W.content swap.new) live.new r) }
    ensures there { IfOk result (λ r. IfSome r (λ x. IsInMemory live.new x.callee x.code)) }
    ensures closed { IsClosed live.new }
    ensures home { KeepsVariables live.old.objects live.new.objects }
    ensures cells { live.new.cells ≡ live.old.cells }
    ensures outputs { live.new.outputs ≡ live.old.outputs }
    ensures tells { Tells (W.content swap.new) (W.last swap.new) (W.read_faults swap.old) (W.read_faults swap.new) (W.write_faults swap.old) (W.write_faults swap.new)
        (W.is_truthful swap.old) (W.is_truthful swap.new) (W.is_honest swap.old) (W.is_honest swap.new) live.new (read_of result) }
{
    if name.as_slice().len() <= 64 {
        return reach_short(live, swap, this, ob, name);
    }
    reach_long(live, swap, this, ob, name)
}

/// A function of an object, as an efun of this object applies it. What is needed for the function comes into memory.
///
/// # Errors
/// `NoMemory` and `Swap` as where a running function asks.
pub fn reach_applied<W: Truthful>(
    live: &mut Live,
    swap: &mut W,
    this: ObjId,
    ob: ObjId,
    applied: Applied,
) -> Result<Option<Reached>, VmFault>
    requires closed { IsClosed live.old }
    requires object { IsSome (row_at live.old.objects ob.0) }
    requires can { CanReach this (questions.Apply ob applied) (W.content swap.old) live.old }
    ensures found { IfOk result (λ r. FindsAsked this (questions.Apply ob applied) (W.content swap.old) live.old (W.content swap.new) live.new r) }
    ensures there { IfOk result (λ r. IfSome r (λ x. IsInMemory live.new x.callee x.code)) }
    ensures closed { IsClosed live.new }
    ensures home { KeepsVariables live.old.objects live.new.objects }
    ensures cells { live.new.cells ≡ live.old.cells }
    ensures outputs { live.new.outputs ≡ live.old.outputs }
    ensures tells { Tells (W.content swap.new) (W.last swap.new) (W.read_faults swap.old) (W.read_faults swap.new) (W.write_faults swap.old) (W.write_faults swap.new)
        (W.is_truthful swap.old) (W.is_truthful swap.new) (W.is_honest swap.old) (W.is_honest swap.new) live.new (read_of result) }
{
    Ok(find_applied(live, swap, Some(this), ob, applied.name())?)
}

/// A function of an object, by its name, as it is applied. What is needed for the function comes into memory. A name that is not of
/// ASCII is that of no function.
///
/// # Errors
/// `NoMemory` and `Swap` as where a running function asks.
pub fn reach_named<W: Truthful>(
    live: &mut Live,
    swap: &mut W,
    caller: Option<ObjId>,
    ob: ObjId,
    name: &Text,
) -> Result<Option<Reached>, VmFault>
    requires closed { IsClosed live.old }
    requires object { IsSome (row_at live.old.objects ob.0) }
    requires can { CanApply (W.content swap.old) live.old caller ob name.now }
    ensures found { IfOk result (λ r. FindsApplied caller ob name.now (W.content swap.old) live.old (W.content swap.new) live.new r) }
    ensures there { IfOk result (λ r. IfSome r (λ x. IsInMemory live.new x.callee x.code)) }
    ensures closed { IsClosed live.new }
    ensures home { KeepsVariables live.old.objects live.new.objects }
    ensures cells { live.new.cells ≡ live.old.cells }
    ensures outputs { live.new.outputs ≡ live.old.outputs }
    ensures tells { Tells (W.content swap.new) (W.last swap.new) (W.read_faults swap.old) (W.read_faults swap.new) (W.write_faults swap.old) (W.write_faults swap.new)
        (W.is_truthful swap.old) (W.is_truthful swap.new) (W.is_honest swap.old) (W.is_honest swap.new) live.new (read_of result) }
{
    match name_of(live.alloc, name)? {
        Some(name) => Ok(find_applied(live, swap, caller, ob, name.as_str())?),
        None => Ok(None),
    }
}
