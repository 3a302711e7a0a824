//! Calls from outside.
ghost use Rattle.std.specs.Prelude.{IfOk, IfSome, IsSome, List};
ghost use Rattle.lp_code.specs.declared.program.RawProgram.{RawProgram as Raw};
ghost use Rattle.lp_language.specs.Resolve.{shadow_target};
ghost use Rattle.lp_language.specs.World.{World};
ghost use Rattle.lp_world.specs.Closed.{IsClosed};
ghost use Rattle.lp_world.specs.Rows.{row_at};
ghost use Rattle.lp_world.specs.Stands.{Stands};
ghost use Rattle.lp_targets.specs.Brought.{Brings};
ghost use Rattle.lp_targets.specs.Callees.{IsCalleeThere, IsTargetAnswer, IsWorldOf};

use crate::chains::{search_from, shadow_count, start_of};
use crate::wants::Seeker;
use lp_frames::entry::Callee;
use lp_residence::answers::EnterFault;
use lp_swapfile::SwapFile;
use lp_values::id::ObjId;
use lp_world::live::Live;

/// Where a call of another object leads: to the first object of the chain of its shadows, the outermost first and itself last,
/// that has a function of the name which the caller may call. Where the caller is a shadow of the chain, the search begins just
/// inside it. The programs of the versions of the objects that are looked at come into memory, one after another.
///
/// # Errors
/// Those of the reads of these programs.
pub fn outside_target<W: SwapFile>(
    live: &mut Live,
    swap: &mut W,
    caller: ObjId,
    ob: ObjId,
    name: &str,
) -> Result<Option<Callee>, EnterFault>
    requires closed { IsClosed live.old }
    requires there { IsSome (row_at live.old.objects ob.0) }
    ensures brings { Brings (W.content swap.old) (W.content swap.new) (W.last swap.new) (W.read_faults swap.old) (W.read_faults swap.new) (W.write_faults swap.old) (W.write_faults swap.new)
        (W.is_truthful swap.old) (W.is_truthful swap.new) (W.is_honest swap.old) (W.is_honest swap.new) live.old live.new result }
    ensures closed { IsClosed live.new }
    ensures there { IfOk result (λ o. IfSome o (IsCalleeThere live.new.versions)) }
    ensures stands { W.is_truthful swap.new → (programs : List Raw) (w : World) → Stands (W.content swap.old) programs live.old w → Stands (W.content swap.new) programs live.new w }
    ensures found { W.is_truthful swap.new → (programs : List Raw) (w : World) → IsWorldOf (W.content swap.old) programs live.old w → IfOk result (λ o. IsTargetAnswer programs w o (shadow_target w caller ob name.now)) }
{
    let at = start_of(live, caller, ob);
    let count = shadow_count(live, ob);
    if count < at {
        return Ok(None);
    }
    search_from(live, swap, Seeker::Caller(caller), ob, at, count - at, name)
}
