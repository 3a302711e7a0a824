//! Objects and programs go out.
ghost use Rattle.std.specs.Prelude.{◌≡◌, List, true};
ghost use Rattle.lp_code.specs.declared.program.RawProgram.{RawProgram as Raw};
ghost use Rattle.lp_language.specs.World.{World};
ghost use Rattle.lp_swapfile.specs.Counts.{Counts};
ghost use Rattle.lp_swapfile.specs.Device.{IsTold};
ghost use Rattle.lp_world.specs.Closed.{IsClosed};
ghost use Rattle.lp_world.specs.Stands.{Stands};
ghost use Rattle.lp_residence.specs.Puts.{AreTakenStill, IsPut, IsWrittenFree, is_kept_fault, is_quiet};

use crate::answers::PutOut;
use crate::objects::put_out_object;
use crate::owner::Owner;
use crate::programs::put_out_program;
use lp_swapfile::SwapFile;
use lp_world::live::Live;
use std::alloc::AllocError;

/// Puts a live object, or the program of a version that the state has, out to the swap file. It is to be called
/// between turns, where no function runs. Memory is taken before the write.
///
/// - `Out`: only a ticket is left of it in memory, and of an object the list of the cells that its record names.
/// - `NotThere`, `Already`: the object is not live, or the state does not have the version; it is out. The swap
///   file is not touched.
/// - `KeptFault`: the write failed, and the count of write faults rose. The room that was taken is given back.
/// - `KeptFull`: no hole in the file fits its image, and behind the end it would pass 2^40.
///
/// Where it did not go out, nothing has changed but the room, as said, and the device, where nothing was taken.
pub fn put_out<W: SwapFile>(live: &mut Live, swap: &mut W, who: Owner) -> Result<PutOut, AllocError>
    requires closed { IsClosed live.old }
    ensures answer { IsPut who live.old live.new (W.content swap.new) result }
    ensures closed { IsClosed live.new }
    ensures stands { IsTold (W.content swap.old) → (programs : List Raw) (w : World) → Stands (W.content swap.old) programs live.old w → Stands (W.content swap.new) programs live.new w }
    ensures quiet { is_quiet result ≡ true → swap.new ≡ swap.old }
    ensures written { IsWrittenFree live.old.swapper (W.content swap.old) (W.content swap.new) }
    ensures faults { Counts (is_kept_fault result) (W.write_faults swap.old) (W.write_faults swap.new) }
    ensures read_faults { W.read_faults swap.new ≡ W.read_faults swap.old }
    ensures honest { W.is_honest swap.new → W.is_honest swap.old }
    ensures truthful { W.is_truthful swap.new → W.is_truthful swap.old }
{
    match who {
        Owner::Object(ob) => put_out_object(live, swap, ob),
        Owner::Program(p) => put_out_program(live, swap, p),
    }
}
