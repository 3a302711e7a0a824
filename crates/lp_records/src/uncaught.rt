//! What is told of an end that nobody caught.
ghost use Rattle.std.specs.Prelude.{◌≡◌, IfOk, List, OnOk};
ghost use Rattle.lp_code.specs.declared.program.RawProgram.{RawProgram as Raw};
ghost use Rattle.lp_language.specs.World.{World};
ghost use Rattle.lp_targets.specs.Brought.{Brings};
ghost use Rattle.lp_world.specs.Closed.{IsClosed};
ghost use Rattle.lp_world.specs.Stands.{Stands};
ghost use Rattle.lp_records.specs.Records.{IsNoticeIn, IsRecordFor};

use crate::records::{bring_place, record_in};
use lp_asking::ending::Stop;
use lp_events::out::Out;
use lp_residence::answers::EnterFault;
use lp_swapfile::SwapFile;
use lp_values::id::ObjId;
use lp_values::text::Text;
use lp_world::live::Live;
use std::alloc::AllocError;

/// The record of a stop in the log: `error: `, its cause, and where it was. The program of that place is brought into memory,
/// where its function's name stands; nothing else changes, and no output is made.
///
/// # Errors
/// `Swap` where the read of the program failed, or gave other bytes than were written; it is out still. `NoMemory` where memory
/// ran out, where bytes of the right digest are none that fit, and where the state has not what the place names: a function of
/// the version, or the name of the object.
pub fn error_record<W: SwapFile>(
    live: &mut Live,
    swap: &mut W,
    stop: &Stop,
) -> Result<Out, EnterFault>
    requires closed { IsClosed live.old }
    ensures record { W.is_truthful swap.new → IfOk result (λ out. IsRecordFor (W.content swap.old) live.old stop.now out) }
    ensures brings { Brings (W.content swap.old) (W.content swap.new) (W.last swap.new) (W.read_faults swap.old) (W.read_faults swap.new) (W.write_faults swap.old) (W.write_faults swap.new)
        (W.is_truthful swap.old) (W.is_truthful swap.new) (W.is_honest swap.old) (W.is_honest swap.new) live.old live.new result }
    ensures closed { IsClosed live.new }
    ensures stands { W.is_truthful swap.new → (programs : List Raw) (w : World) → Stands (W.content swap.old) programs live.old w → Stands (W.content swap.new) programs live.new w }
{
    match bring_place(live, swap, stop.place) {
        Ok(()) => match record_in(live, stop) {
            Ok(out) => Ok(out),
            Err(_) => Err(EnterFault::NoMemory),
        },
        Err(e) => Err(e),
    }
}

/// What a player is told of an end that nobody caught: a text to its connection, where it still has one.
///
/// # Errors
/// Where memory runs out.
pub fn notice(live: &Live, player: Option<ObjId>) -> Result<Option<Out>, AllocError>
    ensures { IfOk result (λ out. IsNoticeIn live.now player out) }
{
    match player {
        Some(o) => match live.connections.of(o) {
            Some(number) => {
                let text = Text::from_str(
                    live.alloc,
                    "Your sensitive mind notices a wrongness in the fabric of space.\n",
                )?;
                Ok(Some(Out::Text(number, text)))
            }
            None => Ok(None),
        },
        None => Ok(None),
    }
}
