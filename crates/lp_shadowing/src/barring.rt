//! Whether something stands in the way of a shadow.
ghost use Rattle.std.specs.Prelude.{◌≡◌, IfOk, IsSome, Option};
ghost use Rattle.lp_language.specs.Resolve.{Heritage};
ghost use Rattle.lp_masking.specs.Masks.{is_forbidden_in};
ghost use Rattle.lp_part_laws.specs.Versions.{FitsVersion};
ghost use Rattle.lp_swapfile.specs.Device.{Bytes};
ghost use Rattle.lp_world.specs.Closed.{IsClosed};
ghost use Rattle.lp_world.specs.Rows.{row_at};
ghost use Rattle.lp_targets.specs.Brought.{Brings};
ghost use Rattle.lp_shadowing.specs.Shadowing.{IsBarred, IsForbidden, StandsOver};

use crate::programs::{bring_both, program_in};
use lp_code::program::RawProgram;
use lp_masking::masking::forbids;
use lp_residence::answers::EnterFault;
use lp_shadows::shadows::may_begin;
use lp_swapfile::SwapFile;
use lp_values::id::ObjId;
use lp_world::live::Live;
use std::alloc::AllocError;

/// More rows than this no table of a program has.
const MOST_ROWS: usize = 65535;

/// Whether a program forbids that an object of another one shadows its objects. A table with more rows than one can have is refused as
/// want of memory is.
fn program_forbids(victim: &RawProgram, other: &RawProgram) -> Result<bool, AllocError>
    ensures { IfOk result (λ b. (h k : Heritage) → FitsVersion h victim.now → FitsVersion k other.now → b ≡ is_forbidden_in h k) }
{
    if MOST_ROWS < other.tables.slots.as_slice().len() {
        return Err(AllocError);
    }
    Ok(forbids(victim, other))
}

/// Whether the program of one object forbids that another object shadows it. Where one of the two programs is not in memory it is not
/// known.
fn is_forbidden(live: &Live, this: ObjId, o: ObjId) -> Result<bool, AllocError>
    requires this { IsSome (row_at live.now.objects this.0) }
    requires other { IsSome (row_at live.now.objects o.0) }
    ensures { IfOk result (λ b. (told : Option Bytes) → IsForbidden b told live.now this o) }
{
    match program_in(live, o) {
        Some(victim) => match program_in(live, this) {
            Some(own) => program_forbids(victim.raw(), own.raw()),
            None => Err(AllocError),
        },
        None => Err(AllocError),
    }
}

/// The same, once the programs of both came into memory.
fn look<W: SwapFile>(
    live: &mut Live,
    swap: &mut W,
    this: ObjId,
    o: ObjId,
) -> Result<bool, EnterFault>
    requires closed { IsClosed live.old }
    requires this { IsSome (row_at live.old.objects this.0) }
    requires other { IsSome (row_at live.old.objects o.0) }
    ensures brings { Brings (W.content swap.old) (W.content swap.new) (W.last swap.new) (W.read_faults swap.old) (W.read_faults swap.new) (W.write_faults swap.old) (W.write_faults swap.new)
        (W.is_truthful swap.old) (W.is_truthful swap.new) (W.is_honest swap.old) (W.is_honest swap.new) live.old live.new result }
    ensures closed { IsClosed live.new }
    ensures stands { W.is_truthful swap.new → StandsOver (W.content swap.old) live.old (W.content swap.new) live.new }
    ensures forbidden { W.is_truthful swap.new → IfOk result (λ b. IsForbidden b (W.content swap.old) live.old this o) }
{
    match bring_both(live, swap, o, this) {
        Ok(()) => match is_forbidden(live, this, o) {
            Ok(b) => Ok(b),
            Err(_) => Err(EnterFault::NoMemory),
        },
        Err(e) => Err(e),
    }
}

/// Whether something stands in the way of a shadow before the master is asked: the places and the chains do not allow it, the other object
/// has a nomask function whose name this one has a function of, or its file says `no_shadow`. The programs of both come into memory where
/// the places and the chains allow it.
pub(crate) fn is_barred<W: SwapFile>(
    live: &mut Live,
    swap: &mut W,
    this: ObjId,
    o: ObjId,
) -> Result<bool, EnterFault>
    requires closed { IsClosed live.old }
    requires this { IsSome (row_at live.old.objects this.0) }
    requires other { IsSome (row_at live.old.objects o.0) }
    ensures brings { Brings (W.content swap.old) (W.content swap.new) (W.last swap.new) (W.read_faults swap.old) (W.read_faults swap.new) (W.write_faults swap.old) (W.write_faults swap.new)
        (W.is_truthful swap.old) (W.is_truthful swap.new) (W.is_honest swap.old) (W.is_honest swap.new) live.old live.new result }
    ensures closed { IsClosed live.new }
    ensures stands { W.is_truthful swap.new → StandsOver (W.content swap.old) live.old (W.content swap.new) live.new }
    ensures barred { W.is_truthful swap.new → IfOk result (λ b. IsBarred b (W.content swap.old) live.old this o) }
{
    if !may_begin(live, this, o) {
        return Ok(true);
    }
    look(live, swap, this, o)
}
