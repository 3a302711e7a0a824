//! Questions of a running function that stay in its object.
ghost use Rattle.std.specs.Prelude.{◌≡◌, IfOk, IfSome, IsSome, List, None, OnOk, Option, Some};
ghost use Rattle.lp_code.specs.declared.program.RawProgram.{RawProgram as Raw};
ghost use Rattle.lp_language.specs.Course.{Ask};
ghost use Rattle.lp_asking.specs.declared.asker.Asker.{Asker};
ghost use Rattle.lp_step.specs.Steps.{KeepsVariables};
ghost use Rattle.lp_world.specs.Closed.{IsClosed};
ghost use Rattle.lp_world.specs.Rows.{row_at};
ghost use Rattle.lp_targets.specs.Brought.{Brings};
ghost use Rattle.lp_targets.specs.Callees.{IsCalleeThere, IsWorldOf};
ghost use Rattle.lp_reaching.specs.Leading.{CanLead, Leads};
ghost use Rattle.lp_reaching.specs.Reaching.{AsksInside, CanAsk, Finds, IsInMemory, ReachesIf};

use crate::reached::Reached;
use lp_asking::question::Question;
use lp_asking::truth::Truthful;
use lp_frames::entry::Callee;
use lp_residence::answers::EnterFault;
use lp_swapfile::SwapFile;
use lp_targets::bringing::bring_in;
use lp_targets::internal::internal_target;
use lp_targets::parents::parent_target;
use lp_values::id::ObjId;
use lp_world::live::Live;
use lp_world::shared::SharedProgram;

/// Where a question leads. The programs that are looked at come into memory.
fn lead<W: SwapFile>(
    live: &mut Live,
    swap: &mut W,
    this: ObjId,
    part: u16,
    code: &SharedProgram,
    question: Question,
) -> Result<Option<Callee>, EnterFault>
    requires closed { IsClosed live.old }
    requires object { IsSome (row_at live.old.objects this.0) }
    ensures brings { Brings (W.content swap.old) (W.content swap.new) (W.last swap.new) (W.read_faults swap.old) (W.read_faults swap.new) (W.write_faults swap.old) (W.write_faults swap.new)
        (W.is_truthful swap.old) (W.is_truthful swap.new) (W.is_honest swap.old) (W.is_honest swap.new) live.old live.new result }
    ensures closed { IsClosed live.new }
    ensures there { IfOk result (λ o. IfSome o (IsCalleeThere live.new.versions)) }
    ensures stands { W.is_truthful swap.new → (programs : List Raw) (asker : Asker) (a : Ask) → AsksInside programs asker this part code.now question a → IsWorldOf (W.content swap.old) programs live.old a.world
        → IsWorldOf (W.content swap.new) programs live.new a.world }
    ensures leads { W.is_truthful swap.new → (programs : List Raw) (asker : Asker) (a : Ask) → AsksInside programs asker this part code.now question a → IsWorldOf (W.content swap.old) programs live.old a.world
        → IfOk result (λ o. Leads programs live.new.objects asker None a o) }
{
    match question {
        Question::Internal(slot) => internal_target(live, swap, this, part, code, slot),
        Question::Parent(parent, slot) => parent_target(live, swap, this, part, code, parent, slot),
    }
}

/// Brings in what a function needs that was found, where the device tells the truth.
fn bring_callee<W: Truthful>(
    live: &mut Live,
    swap: &mut W,
    callee: Callee,
    caller: Option<ObjId>,
) -> Result<Option<Reached>, EnterFault>
    requires closed { IsClosed live.old }
    requires there { IsCalleeThere live.old.versions callee }
    requires can { CanLead (W.content swap.old) live.old caller (Some callee) }
    ensures brings { Brings (W.content swap.old) (W.content swap.new) (W.last swap.new) (W.read_faults swap.old) (W.read_faults swap.new) (W.write_faults swap.old) (W.write_faults swap.new)
        (W.is_truthful swap.old) (W.is_truthful swap.new) (W.is_honest swap.old) (W.is_honest swap.new) live.old live.new result }
    ensures closed { IsClosed live.new }
    ensures found { IfOk result (λ r. (programs : List Raw) (asker : Asker) (a : Ask) → Leads programs live.old.objects asker caller a (Some callee) → IsWorldOf (W.content swap.old) programs live.old a.world
        → ReachesIf (W.content swap.new) programs live.new asker a r) }
    ensures there { IfOk result (λ r. IfSome r (λ x. IsInMemory live.new x.callee x.code)) }
    ensures truthful { OnOk result (W.is_truthful swap.new) }
{
    match bring_in(live, swap, callee) {
        Ok(code) => {
            if swap.tells_truth() {
                Ok(Some(Reached {
                    callee,
                    code,
                    caller,
                }))
            } else {
                Err(EnterFault::NoMemory)
            }
        }
        Err(e) => Err(e),
    }
}

/// The same of whatever was found.
pub(crate) fn bring_found<W: Truthful>(
    live: &mut Live,
    swap: &mut W,
    callee: Option<Callee>,
    caller: Option<ObjId>,
) -> Result<Option<Reached>, EnterFault>
    requires closed { IsClosed live.old }
    requires there { IfSome callee (IsCalleeThere live.old.versions) }
    requires can { W.is_truthful swap.old → CanLead (W.content swap.old) live.old caller callee }
    ensures brings { Brings (W.content swap.old) (W.content swap.new) (W.last swap.new) (W.read_faults swap.old) (W.read_faults swap.new) (W.write_faults swap.old) (W.write_faults swap.new)
        (W.is_truthful swap.old) (W.is_truthful swap.new) (W.is_honest swap.old) (W.is_honest swap.new) live.old live.new result }
    ensures closed { IsClosed live.new }
    ensures found { IfOk result (λ r. (programs : List Raw) (asker : Asker) (a : Ask) → Leads programs live.old.objects asker caller a callee → IsWorldOf (W.content swap.old) programs live.old a.world
        → ReachesIf (W.content swap.new) programs live.new asker a r) }
    ensures there { IfOk result (λ r. IfSome r (λ x. IsInMemory live.new x.callee x.code)) }
    ensures truthful { OnOk result (W.is_truthful swap.new) }
{
    if !swap.tells_truth() {
        return Err(EnterFault::NoMemory);
    }
    match callee {
        Some(callee) => bring_callee(live, swap, callee, caller),
        None => Ok(None),
    }
}

/// The function that a question of a running function reaches, if there is one. What is needed for it comes into memory: the
/// programs that are looked at, the object, and the program in whose text the function stands.
///
/// # Errors
/// `Swap` where the read of one of these failed, or gave other bytes than were written; that one is out still. `NoMemory`
/// where memory ran out, and where the device did not tell the truth.
pub fn find<W: Truthful>(
    live: &mut Live,
    swap: &mut W,
    this: ObjId,
    part: u16,
    code: &SharedProgram,
    question: Question,
) -> Result<Option<Reached>, EnterFault>
    requires closed { IsClosed live.old }
    requires object { IsSome (row_at live.old.objects this.0) }
    requires can { CanAsk (W.content swap.old) live.old this part code.now question }
    ensures found { IfOk result (λ r. Finds this part code.now question (W.content swap.old) live.old (W.content swap.new) live.new r) }
    ensures there { IfOk result (λ r. IfSome r (λ x. IsInMemory live.new x.callee x.code)) }
    ensures brings { Brings (W.content swap.old) (W.content swap.new) (W.last swap.new) (W.read_faults swap.old) (W.read_faults swap.new) (W.write_faults swap.old) (W.write_faults swap.new)
        (W.is_truthful swap.old) (W.is_truthful swap.new) (W.is_honest swap.old) (W.is_honest swap.new) live.old live.new result }
    ensures closed { IsClosed live.new }
    ensures home { KeepsVariables live.old.objects live.new.objects }
    ensures cells { live.new.cells ≡ live.old.cells }
    ensures outputs { live.new.outputs ≡ live.old.outputs }
    ensures truthful { OnOk result (W.is_truthful swap.new) }
{
    match lead(live, swap, this, part, code, question) {
        Ok(callee) => bring_found(live, swap, callee, None),
        Err(e) => Err(e),
    }
}
