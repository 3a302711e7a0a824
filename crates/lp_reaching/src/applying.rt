//! Applies of the driver and of efuns.
ghost use Rattle.std.specs.Prelude.{◌≡◌, IfOk, IfSome, IsSome, OnOk};
ghost use Rattle.lp_step.specs.Steps.{KeepsVariables};
ghost use Rattle.lp_world.specs.Closed.{IsClosed};
ghost use Rattle.lp_world.specs.Rows.{row_at};
ghost use Rattle.lp_targets.specs.Brought.{Brings};
ghost use Rattle.lp_reaching.specs.Reaching.{CanApply, FindsApplied, IsInMemory};

use crate::finding::bring_found;
use crate::reached::Reached;
use lp_asking::truth::Truthful;
use lp_residence::answers::EnterFault;
use lp_targets::applies::apply_target;
use lp_values::id::ObjId;
use lp_world::live::Live;

/// The function that an apply of a name reaches, whatever its modifiers: `init`, `logon` and `catch_tell` of the outermost
/// shadow that has it, every other one of the object itself. The caller, where an efun applies, is the latest caller then.
/// What is needed for it comes into memory: the programs that are looked at, the object, and the program in whose text the
/// function stands.
///
/// # Errors
/// `Swap` where the read of one of these failed, or gave other bytes than were written; that one is out still. `NoMemory`
/// where memory ran out, and where the device did not tell the truth.
pub fn find_applied<W: Truthful>(
    live: &mut Live,
    swap: &mut W,
    caller: Option<ObjId>,
    ob: ObjId,
    name: &str,
) -> Result<Option<Reached>, EnterFault>
    requires closed { IsClosed live.old }
    requires object { IsSome (row_at live.old.objects ob.0) }
    requires can { CanApply (W.content swap.old) live.old caller ob name.now }
    ensures found { IfOk result (λ r. FindsApplied caller ob name.now (W.content swap.old) live.old (W.content swap.new) live.new r) }
    ensures there { IfOk result (λ r. IfSome r (λ x. IsInMemory live.new x.callee x.code)) }
    ensures brings { Brings (W.content swap.old) (W.content swap.new) (W.last swap.new) (W.read_faults swap.old) (W.read_faults swap.new) (W.write_faults swap.old) (W.write_faults swap.new)
        (W.is_truthful swap.old) (W.is_truthful swap.new) (W.is_honest swap.old) (W.is_honest swap.new) live.old live.new result }
    ensures closed { IsClosed live.new }
    ensures home { KeepsVariables live.old.objects live.new.objects }
    ensures cells { live.new.cells ≡ live.old.cells }
    ensures outputs { live.new.outputs ≡ live.old.outputs }
    ensures truthful { OnOk result (W.is_truthful swap.new) }
{
    match apply_target(live, swap, ob, name) {
        Ok(callee) => bring_found(live, swap, callee, caller),
        Err(e) => Err(e),
    }
}
