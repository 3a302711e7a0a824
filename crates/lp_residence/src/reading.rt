//! What the swap file gives for a ticket.
ghost use Rattle.std.specs.Prelude.{◌≡◌, IfErr, IfOk, List, ℕ};
ghost use Rattle.lp_swapfile.specs.Counts.{Counts};
ghost use Rattle.lp_swapper.specs.Swap.{IsOutAt};
ghost use Rattle.lp_residence.specs.Entering.{IsCaused, IsHonest, is_read_fault};

use crate::answers::{EnterFault, SwapCause};
use crate::owner::Owner;
use lp_swapfile::SwapFile;
use lp_swapper::{BackFault, Octets, Swapper, Ticket};

/// Reads what went out for the ticket of an owner, which stays out.
///
/// - `Swap(Read)`: the read failed, and the count of read faults rose.
/// - `Swap(Changed)`: what was read is not what went out, as its digest shows.
pub fn look_at<W: SwapFile>(
    swapper: &Swapper,
    swap: &mut W,
    who: Owner,
    ticket: &Ticket,
) -> Result<Octets, EnterFault>
    ensures cause { IfErr result (λ e. IsCaused who ticket.now (W.content swap.old) (W.last swap.new) e) }
    ensures faults { Counts (is_read_fault result) (W.read_faults swap.old) (W.read_faults swap.new) }
    ensures write_faults { W.write_faults swap.new ≡ W.write_faults swap.old }
    ensures kept { W.content swap.new ≡ W.content swap.old }
    ensures honest { W.is_honest swap.new → W.is_honest swap.old × ((was : List ℕ) → IsOutAt (W.content swap.old) ticket.now was → IsHonest result) }
    ensures truthful { W.is_truthful swap.new → W.is_truthful swap.old × ((was : List ℕ) → IsOutAt (W.content swap.old) ticket.now was → IfOk result (λ bytes. bytes ≡ was)) }
{
    match swapper.look(swap, ticket) {
        Ok(bytes) => Ok(bytes),
        Err(BackFault::ReadFault) => Err(EnterFault::Swap(SwapCause::Read)),
        Err(BackFault::Changed { found }) => Err(EnterFault::Swap(SwapCause::Changed {
            owner: who,
            found,
        })),
        Err(BackFault::NoMemory) => Err(EnterFault::NoMemory),
    }
}
