//! Applies of the driver and of efuns.
ghost use Rattle.std.specs.Prelude.{◌≡◌, IfOk, IfSome, IsSome, List};
ghost use Rattle.lp_code.specs.declared.program.RawProgram.{RawProgram as Raw};
ghost use Rattle.lp_language.specs.World.{World};
ghost use Rattle.lp_meaning.specs.FunctionCalls.{goes_to_shadows};
ghost use Rattle.lp_world.specs.Closed.{IsClosed};
ghost use Rattle.lp_world.specs.Rows.{row_at};
ghost use Rattle.lp_world.specs.Stands.{Stands};
ghost use Rattle.lp_targets.specs.Brought.{Brings};
ghost use Rattle.lp_targets.specs.Callees.{IsCalleeThere, IsTargetAnswer, IsWorldOf, applied};

use crate::chains::search_all;
use crate::functions::function_in;
use crate::wants::{Seeker, Want};
use lp_frames::entry::Callee;
use lp_residence::answers::EnterFault;
use lp_swapfile::SwapFile;
use lp_values::id::ObjId;
use lp_world::live::Live;

/// Whether an apply of a name goes to the shadows first.
fn goes_to_shadows(name: &str) -> bool
    ensures { result ≡ goes_to_shadows name.now }
{
    name == "init" || name == "logon" || name == "catch_tell"
}

/// Where an apply of a name leads, whatever the modifiers of the function: `init`, `logon` and `catch_tell` to the outermost shadow
/// that has the function, every other one to the object itself. The programs of the versions of the objects that are looked at
/// come into memory, one after another.
///
/// # Errors
/// Those of the reads of these programs.
pub fn apply_target<W: SwapFile>(
    live: &mut Live,
    swap: &mut W,
    ob: ObjId,
    name: &str,
) -> Result<Option<Callee>, EnterFault>
    requires closed { IsClosed live.old }
    requires there { IsSome (row_at live.old.objects ob.0) }
    ensures brings { Brings (W.content swap.old) (W.content swap.new) (W.last swap.new) (W.read_faults swap.old) (W.read_faults swap.new) (W.write_faults swap.old) (W.write_faults swap.new)
        (W.is_truthful swap.old) (W.is_truthful swap.new) (W.is_honest swap.old) (W.is_honest swap.new) live.old live.new result }
    ensures closed { IsClosed live.new }
    ensures there { IfOk result (λ o. IfSome o (IsCalleeThere live.new.versions)) }
    ensures stands { W.is_truthful swap.new → (programs : List Raw) (w : World) → Stands (W.content swap.old) programs live.old w → Stands (W.content swap.new) programs live.new w }
    ensures found { W.is_truthful swap.new → (programs : List Raw) (w : World) → IsWorldOf (W.content swap.old) programs live.old w → IfOk result (λ o. IsTargetAnswer programs w o (applied w ob name.now)) }
{
    if goes_to_shadows(name) {
        search_all(live, swap, Seeker::Anyone, ob, name)
    } else {
        function_in(live, swap, ob, Want::Any, name)
    }
}
