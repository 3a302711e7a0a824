//! Calls from outside.
ghost use Rattle.std.specs.Prelude.{◌≡◌, IfOk, IfSome, IsSome, OnOk};
ghost use Rattle.lp_step.specs.Steps.{KeepsVariables};
ghost use Rattle.lp_world.specs.Closed.{IsClosed};
ghost use Rattle.lp_world.specs.Rows.{row_at};
ghost use Rattle.lp_targets.specs.Brought.{Brings};
ghost use Rattle.lp_reaching.specs.Reaching.{CanAskOutside, FindsOutside, IsInMemory};

use crate::finding::bring_found;
use crate::reached::Reached;
use lp_asking::truth::Truthful;
use lp_residence::answers::EnterFault;
use lp_targets::outside::outside_target;
use lp_values::id::ObjId;
use lp_world::live::Live;

/// The function that a call of another object from outside reaches, if there is one: the first function of the name in the
/// chain of that object's shadows which the caller may call. The caller is the latest caller then. What is needed for it comes
/// into memory: the programs that are looked at, the object, and the program in whose text the function stands.
///
/// # Errors
/// `Swap` where the read of one of these failed, or gave other bytes than were written; that one is out still. `NoMemory`
/// where memory ran out, and where the device did not tell the truth.
pub fn find_outside<W: Truthful>(
    live: &mut Live,
    swap: &mut W,
    caller: ObjId,
    ob: ObjId,
    name: &str,
) -> Result<Option<Reached>, EnterFault>
    requires closed { IsClosed live.old }
    requires object { IsSome (row_at live.old.objects ob.0) }
    requires can { CanAskOutside (W.content swap.old) live.old caller ob name.now }
    ensures found { IfOk result (λ r. FindsOutside caller ob name.now (W.content swap.old) live.old (W.content swap.new) live.new r) }
    ensures there { IfOk result (λ r. IfSome r (λ x. IsInMemory live.new x.callee x.code)) }
    ensures brings { Brings (W.content swap.old) (W.content swap.new) (W.last swap.new) (W.read_faults swap.old) (W.read_faults swap.new) (W.write_faults swap.old) (W.write_faults swap.new)
        (W.is_truthful swap.old) (W.is_truthful swap.new) (W.is_honest swap.old) (W.is_honest swap.new) live.old live.new result }
    ensures closed { IsClosed live.new }
    ensures home { KeepsVariables live.old.objects live.new.objects }
    ensures cells { live.new.cells ≡ live.old.cells }
    ensures outputs { live.new.outputs ≡ live.old.outputs }
    ensures truthful { OnOk result (W.is_truthful swap.new) }
{
    match outside_target(live, swap, caller, ob, name) {
        Ok(callee) => bring_found(live, swap, callee, Some(caller)),
        Err(e) => Err(e),
    }
}
