//! Whether objects have functions.
ghost use Rattle.std.specs.Prelude.{◌≡◌, IfOk, IsSome, List};
ghost use Rattle.lp_code.specs.declared.program.RawProgram.{RawProgram as Raw};
ghost use Rattle.lp_language.specs.World.{World};
ghost use Rattle.lp_world.specs.Closed.{IsClosed};
ghost use Rattle.lp_world.specs.Rows.{row_at};
ghost use Rattle.lp_world.specs.Stands.{Stands};
ghost use Rattle.lp_targets.specs.Brought.{Brings};
ghost use Rattle.lp_object_efuns.specs.Called.{IsFunctionAsked};

use crate::names::{is_plain, text_of};
use lp_residence::answers::EnterFault;
use lp_swapfile::SwapFile;
use lp_targets::functions::function_in;
use lp_targets::wants::Want;
use lp_values::id::ObjId;
use lp_world::live::Live;

/// Whether an object has a function of a name, whatever its modifiers. The program of the object's version comes into memory.
fn has_named<W: SwapFile>(
    live: &mut Live,
    swap: &mut W,
    ob: ObjId,
    name: &str,
) -> Result<bool, EnterFault>
    requires closed { IsClosed live.old }
    requires there { IsSome (row_at live.old.objects ob.0) }
    ensures brings { Brings (W.content swap.old) (W.content swap.new) (W.last swap.new) (W.read_faults swap.old) (W.read_faults swap.new) (W.write_faults swap.old) (W.write_faults swap.new)
        (W.is_truthful swap.old) (W.is_truthful swap.new) (W.is_honest swap.old) (W.is_honest swap.new) live.old live.new result }
    ensures closed { IsClosed live.new }
    ensures stands { W.is_truthful swap.new → (programs : List Raw) (w : World) → Stands (W.content swap.old) programs live.old w → Stands (W.content swap.new) programs live.new w }
    ensures found { W.is_truthful swap.new → IfOk result (λ b. IsFunctionAsked (W.content swap.old) live.old ob name.now b) }
{
    match function_in(live, swap, ob, Want::Any, name) {
        Ok(callee) => Ok(callee.is_some()),
        Err(e) => Err(e),
    }
}

/// The same by a text. One that is not of ASCII is the name of no function, and then nothing is read.
pub(crate) fn has_function<W: SwapFile>(
    live: &mut Live,
    swap: &mut W,
    ob: ObjId,
    name: &[char],
) -> Result<bool, EnterFault>
    requires closed { IsClosed live.old }
    requires there { IsSome (row_at live.old.objects ob.0) }
    ensures brings { Brings (W.content swap.old) (W.content swap.new) (W.last swap.new) (W.read_faults swap.old) (W.read_faults swap.new) (W.write_faults swap.old) (W.write_faults swap.new)
        (W.is_truthful swap.old) (W.is_truthful swap.new) (W.is_honest swap.old) (W.is_honest swap.new) live.old live.new result }
    ensures closed { IsClosed live.new }
    ensures stands { W.is_truthful swap.new → (programs : List Raw) (w : World) → Stands (W.content swap.old) programs live.old w → Stands (W.content swap.new) programs live.new w }
    ensures found { W.is_truthful swap.new → IfOk result (λ b. IsFunctionAsked (W.content swap.old) live.old ob name.now b) }
{
    if !is_plain(name) {
        return Ok(false);
    }
    match text_of(live.alloc, name) {
        Ok(text) => has_named(live, swap, ob, text.as_str()),
        Err(_) => Err(EnterFault::NoMemory),
    }
}
