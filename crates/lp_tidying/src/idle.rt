//! What is idle goes out.
ghost use Rattle.std.specs.Prelude.{◌≡◌, IfOk, List, OnOk};
ghost use Rattle.lp_code.specs.declared.program.RawProgram.{RawProgram as Raw};
ghost use Rattle.lp_language.specs.World.{World};
ghost use Rattle.lp_world.specs.Closed.{IsClosed};
ghost use Rattle.lp_targets.specs.Callees.{IsWorldOf};
ghost use Rattle.lp_residence.specs.Idling.{going};
ghost use Rattle.lp_tidying.specs.Putting.{AreIdlePut};

use crate::counting::none_out;
use lp_asking::truth::Truthful;
use lp_residence::answers::Idled;
use lp_residence::idling::idle;
use lp_world::live::Live;
use std::alloc::AllocError;

/// What is idle goes out between turns, where the swap file says that it tells what it holds: what is live and in memory, and whose latest clock
/// lies the swap time or more behind the clock, objects by serial and then versions by number. The swap time 0 means never. It
/// answers how many went out, and how many were kept for each cause. The live state stands for the same world.
///
/// After want of memory some may have gone out.
pub fn put_idle<W: Truthful>(
    live: &mut Live,
    swap: &mut W,
    swap_time: u64,
) -> Result<Idled, AllocError>
    requires closed { IsClosed live.old }
    ensures put { IfOk result (AreIdlePut (going swap_time live.old) live.old (record { told = W.content swap.old; faults = W.write_faults swap.old }) live.new (record { told = W.content swap.new; faults = W.write_faults swap.new })) }
    ensures world { (programs : List Raw) (w : World) → IsWorldOf (W.content swap.old) programs live.old w → IsWorldOf (W.content swap.new) programs live.new w }
    ensures closed { IsClosed live.new }
    ensures outputs { OnOk result (live.new.outputs ≡ live.old.outputs) }
    ensures read_faults { W.read_faults swap.new ≡ W.read_faults swap.old }
    ensures honest { W.is_honest swap.new → W.is_honest swap.old }
    ensures truthful { W.is_truthful swap.new → W.is_truthful swap.old }
{
    if !swap.tells() {
        return Ok(none_out());
    }
    idle(live, swap, swap_time)
}
