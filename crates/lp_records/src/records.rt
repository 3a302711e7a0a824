//! Records in the log.
ghost use Rattle.std.specs.Prelude.{◌≡◌, IfOk, IsSome, List, Ok, OnOk};
ghost use Rattle.lp_code.specs.declared.program.RawProgram.{RawProgram as Raw};
ghost use Rattle.lp_language.specs.World.{World};
ghost use Rattle.lp_residence.specs.declared.owner.Owner.TheVariants as owners;
ghost use Rattle.lp_targets.specs.Brought.{Brings};
ghost use Rattle.lp_world.specs.Closed.{IsClosed};
ghost use Rattle.lp_world.specs.Rows.{row_at};
ghost use Rattle.lp_world.specs.Stands.{Stands};
ghost use Rattle.lp_records.specs.Records.{IsRecordIn, PutsPlaceIf};

use crate::places::put_place;
use crate::texts::{put_cause, put_words};
use lp_asking::ending::{Place, Stop};
use lp_events::out::Out;
use lp_residence::answers::EnterFault;
use lp_residence::returning::enter_program;
use lp_swapfile::SwapFile;
use lp_values::id::ProgId;
use lp_values::text::Text;
use lp_world::live::Live;
use std::alloc::{AllocError, Global};

/// A place, where there is one, comes behind others.
fn put_place_if(
    alloc: Global,
    text: &mut Vec<char>,
    live: &Live,
    place: Option<Place>,
) -> Result<(), AllocError>
    ensures { OnOk result (PutsPlaceIf live.now place text.old.items text.new.items) }
{
    match place {
        Some(at) => put_place(alloc, text, live, at),
        None => Ok(()),
    }
}

/// The record of a stop, where the program of its place is in memory.
pub(crate) fn record_in(live: &Live, stop: &Stop) -> Result<Out, AllocError>
    ensures { IfOk result (λ out. IsRecordIn live.now stop.now out) }
{
    let mut text = Vec::new(live.alloc);
    put_words(live.alloc, &mut text, "error: ")?;
    put_cause(live.alloc, &mut text, &stop.cause)?;
    put_place_if(live.alloc, &mut text, live, stop.place)?;
    Ok(Out::Log(Text::from_vec(live.alloc, text)?))
}

/// Brings the program of a version that is there into memory.
fn bring_program<W: SwapFile>(live: &mut Live, swap: &mut W, p: ProgId) -> Result<(), EnterFault>
    requires closed { IsClosed live.old }
    requires there { IsSome (row_at live.old.versions p.0) }
    ensures brings { Brings (W.content swap.old) (W.content swap.new) (W.last swap.new) (W.read_faults swap.old) (W.read_faults swap.new) (W.write_faults swap.old) (W.write_faults swap.new)
        (W.is_truthful swap.old) (W.is_truthful swap.new) (W.is_honest swap.old) (W.is_honest swap.new) live.old live.new result }
    ensures closed { IsClosed live.new }
    ensures stands { W.is_truthful swap.new → (programs : List Raw) (w : World) → Stands (W.content swap.old) programs live.old w → Stands (W.content swap.new) programs live.new w }
{
    enter_program(live, swap, p)
}

/// Brings the program of a version into memory, where the state has the version.
fn bring_if_there<W: SwapFile>(live: &mut Live, swap: &mut W, p: ProgId) -> Result<(), EnterFault>
    requires closed { IsClosed live.old }
    ensures brings { Brings (W.content swap.old) (W.content swap.new) (W.last swap.new) (W.read_faults swap.old) (W.read_faults swap.new) (W.write_faults swap.old) (W.write_faults swap.new)
        (W.is_truthful swap.old) (W.is_truthful swap.new) (W.is_honest swap.old) (W.is_honest swap.new) live.old live.new result }
    ensures closed { IsClosed live.new }
    ensures stands { W.is_truthful swap.new → (programs : List Raw) (w : World) → Stands (W.content swap.old) programs live.old w → Stands (W.content swap.new) programs live.new w }
{
    if live.versions.get(p).is_some() {
        return bring_program(live, swap, p);
    }
    Ok(())
}

/// Brings the program of a place into memory, where there is one.
pub(crate) fn bring_place<W: SwapFile>(
    live: &mut Live,
    swap: &mut W,
    place: Option<Place>,
) -> Result<(), EnterFault>
    requires closed { IsClosed live.old }
    ensures brings { Brings (W.content swap.old) (W.content swap.new) (W.last swap.new) (W.read_faults swap.old) (W.read_faults swap.new) (W.write_faults swap.old) (W.write_faults swap.new)
        (W.is_truthful swap.old) (W.is_truthful swap.new) (W.is_honest swap.old) (W.is_honest swap.new) live.old live.new result }
    ensures closed { IsClosed live.new }
    ensures stands { W.is_truthful swap.new → (programs : List Raw) (w : World) → Stands (W.content swap.old) programs live.old w → Stands (W.content swap.new) programs live.new w }
{
    match place {
        Some(at) => bring_if_there(live, swap, at.program),
        None => Ok(()),
    }
}
