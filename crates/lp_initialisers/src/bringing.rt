//! Programs come into memory.
ghost use Rattle.std.specs.Prelude.{IsSome, List, OnOk};
ghost use Rattle.lp_code.specs.declared.program.RawProgram.{RawProgram as Raw};
ghost use Rattle.lp_language.specs.World.{World};
ghost use Rattle.lp_targets.specs.Brought.{Brings, program_at};
ghost use Rattle.lp_world.specs.Closed.{IsClosed};
ghost use Rattle.lp_world.specs.Rows.{row_at};
ghost use Rattle.lp_world.specs.Stands.{Stands};

use crate::looking::is_version;
use lp_asking::truth::Truthful;
use lp_residence::answers::EnterFault;
use lp_residence::returning::enter_program;
use lp_swapfile::SwapFile;
use lp_values::id::ProgId;
use lp_world::live::Live;

/// Brings the program of a version that the state has into memory.
fn enter_known<W: SwapFile>(live: &mut Live, swap: &mut W, p: ProgId) -> Result<(), EnterFault>
    requires closed { IsClosed live.old }
    requires there { IsSome (row_at live.old.versions p.0) }
    ensures brings { Brings (W.content swap.old) (W.content swap.new) (W.last swap.new) (W.read_faults swap.old) (W.read_faults swap.new) (W.write_faults swap.old) (W.write_faults swap.new)
        (W.is_truthful swap.old) (W.is_truthful swap.new) (W.is_honest swap.old) (W.is_honest swap.new) live.old live.new result }
    ensures closed { IsClosed live.new }
    ensures stands { W.is_truthful swap.new → (programs : List Raw) (w : World) → Stands (W.content swap.old) programs live.old w → Stands (W.content swap.new) programs live.new w }
    ensures here { OnOk result (IsSome (program_at live.new.versions p)) }
{
    enter_program(live, swap, p)
}

/// Brings the program of a version into memory.
///
/// # Errors
/// `Swap` where its read failed, or gave other bytes than were written; it is out still. `NoMemory` where memory ran out, and
/// where the state does not have the version, or the device did not tell the truth.
pub fn bring_program<W: Truthful>(
    live: &mut Live,
    swap: &mut W,
    p: ProgId,
) -> Result<(), EnterFault>
    requires closed { IsClosed live.old }
    ensures brings { Brings (W.content swap.old) (W.content swap.new) (W.last swap.new) (W.read_faults swap.old) (W.read_faults swap.new) (W.write_faults swap.old) (W.write_faults swap.new)
        (W.is_truthful swap.old) (W.is_truthful swap.new) (W.is_honest swap.old) (W.is_honest swap.new) live.old live.new result }
    ensures closed { IsClosed live.new }
    ensures stands { W.is_truthful swap.new → (programs : List Raw) (w : World) → Stands (W.content swap.old) programs live.old w → Stands (W.content swap.new) programs live.new w }
    ensures here { OnOk result (IsSome (program_at live.new.versions p)) }
    ensures truthful { OnOk result (W.is_truthful swap.new) }
{
    if !is_version(&live.versions, p) {
        return Err(EnterFault::NoMemory);
    }
    match enter_known(live, swap, p) {
        Ok(()) => {
            if swap.tells_truth() {
                Ok(())
            } else {
                Err(EnterFault::NoMemory)
            }
        }
        Err(e) => Err(e),
    }
}
