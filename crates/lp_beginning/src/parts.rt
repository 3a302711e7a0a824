//! The parts of a program that have initialisers.
ghost use Rattle.std.specs.Prelude.{◌≡◌, ◌++◌, ◌∷◌, [], IfOk, IsSome, List, OnOk, if◌then◌else◌};
ghost use Rattle.lp_code.specs.declared.program.RawProgram.{RawProgram as Raw};
ghost use Rattle.lp_language.specs.World.{World};
ghost use Rattle.lp_targets.specs.Brought.{Brings, program_at};
ghost use Rattle.lp_world.specs.Closed.{IsClosed};
ghost use Rattle.lp_world.specs.Stands.{Stands};
ghost use Rattle.lp_beginning.specs.Beginning.{ArePartsBelow, ArePartsOf, NotesPart, TellsPart, TellsVersion};

use crate::looking::{has_initialisers, part_count};
use lp_asking::truth::Truthful;
use lp_reaching::{bring_program, part_version};
use lp_residence::answers::EnterFault;
use lp_values::id::ProgId;
use lp_world::live::Live;
use std::alloc::AllocError;

/// Whether a version has initialisers. Its program comes into memory.
fn look_at_version<W: Truthful>(
    live: &mut Live,
    swap: &mut W,
    p: ProgId,
) -> Result<bool, EnterFault>
    requires closed { IsClosed live.old }
    ensures brings { Brings (W.content swap.old) (W.content swap.new) (W.last swap.new) (W.read_faults swap.old) (W.read_faults swap.new) (W.write_faults swap.old) (W.write_faults swap.new)
        (W.is_truthful swap.old) (W.is_truthful swap.new) (W.is_honest swap.old) (W.is_honest swap.new) live.old live.new result }
    ensures closed { IsClosed live.new }
    ensures stands { W.is_truthful swap.new → (programs : List Raw) (w : World) → Stands (W.content swap.old) programs live.old w → Stands (W.content swap.new) programs live.new w }
    ensures tells { IfOk result (λ b. TellsVersion (W.content swap.old) live.old p b) }
    ensures truthful { OnOk result (W.is_truthful swap.new) }
{
    match bring_program(live, swap, p) {
        Ok(()) => Ok(has_initialisers(&live.versions, p)),
        Err(e) => Err(e),
    }
}

/// Whether a part of a version's program that is in memory has initialisers. The program of that part comes into memory.
fn look_at_part<W: Truthful>(
    live: &mut Live,
    swap: &mut W,
    version: ProgId,
    part: u16,
) -> Result<bool, EnterFault>
    requires closed { IsClosed live.old }
    requires here { IsSome (program_at live.old.versions version) }
    ensures brings { Brings (W.content swap.old) (W.content swap.new) (W.last swap.new) (W.read_faults swap.old) (W.read_faults swap.new) (W.write_faults swap.old) (W.write_faults swap.new)
        (W.is_truthful swap.old) (W.is_truthful swap.new) (W.is_honest swap.old) (W.is_honest swap.new) live.old live.new result }
    ensures closed { IsClosed live.new }
    ensures stands { W.is_truthful swap.new → (programs : List Raw) (w : World) → Stands (W.content swap.old) programs live.old w → Stands (W.content swap.new) programs live.new w }
    ensures tells { IfOk result (λ b. TellsPart (W.content swap.old) live.old version part b) }
    ensures truthful { OnOk result (W.is_truthful swap.new) }
{
    match part_version(&live.versions, version, part as usize) {
        Some(p) => look_at_version(live, swap, p),
        None => Err(EnterFault::NoMemory),
    }
}

/// Notes a part that has initialisers.
fn note(found: &mut Vec<u16>, part: u16, has: bool) -> Result<(), AllocError>
    ensures { OnOk result (found.new.items ≡ found.old.items ++ (if has then part ∷ [] else [])) }
{
    if has {
        found.push(part)?;
    }
    Ok(())
}

/// Notes whether a part of a version's program that is in memory has initialisers. The program of that part comes into memory.
fn look_on<W: Truthful>(
    live: &mut Live,
    swap: &mut W,
    version: ProgId,
    part: u16,
    found: &mut Vec<u16>,
) -> Result<(), EnterFault>
    requires closed { IsClosed live.old }
    requires here { IsSome (program_at live.old.versions version) }
    ensures brings { Brings (W.content swap.old) (W.content swap.new) (W.last swap.new) (W.read_faults swap.old) (W.read_faults swap.new) (W.write_faults swap.old) (W.write_faults swap.new)
        (W.is_truthful swap.old) (W.is_truthful swap.new) (W.is_honest swap.old) (W.is_honest swap.new) live.old live.new result }
    ensures closed { IsClosed live.new }
    ensures stands { W.is_truthful swap.new → (programs : List Raw) (w : World) → Stands (W.content swap.old) programs live.old w → Stands (W.content swap.new) programs live.new w }
    ensures more { OnOk result (NotesPart (W.content swap.old) live.old version part found.old.items found.new.items) }
    ensures truthful { OnOk result (W.is_truthful swap.new) }
{
    match look_at_part(live, swap, version, part) {
        Ok(has) => match note(found, part, has) {
            Ok(()) => Ok(()),
            Err(_) => Err(EnterFault::NoMemory),
        },
        Err(e) => Err(e),
    }
}

/// The parts below a number that have initialisers, of a version's program that is in memory. Their programs come into memory.
fn parts_below<W: Truthful>(
    live: &mut Live,
    swap: &mut W,
    version: ProgId,
    end: u16,
) -> Result<Vec<u16>, EnterFault>
    requires closed { IsClosed live.old }
    requires here { IsSome (program_at live.old.versions version) }
    requires truthful { W.is_truthful swap.old }
    ensures brings { Brings (W.content swap.old) (W.content swap.new) (W.last swap.new) (W.read_faults swap.old) (W.read_faults swap.new) (W.write_faults swap.old) (W.write_faults swap.new)
        (W.is_truthful swap.old) (W.is_truthful swap.new) (W.is_honest swap.old) (W.is_honest swap.new) live.old live.new result }
    ensures closed { IsClosed live.new }
    ensures stands { W.is_truthful swap.new → (programs : List Raw) (w : World) → Stands (W.content swap.old) programs live.old w → Stands (W.content swap.new) programs live.new w }
    ensures parts { IfOk result (λ v. ArePartsBelow (W.content swap.old) live.old version end v.items) }
    ensures truthful { OnOk result (W.is_truthful swap.new) }
{
    let mut found = Vec::new(live.alloc);
    for part in 0..end {
        match look_on(live, swap, version, part, &mut found) {
            Ok(()) => {}
            Err(e) => return Err(e),
        }
    }
    Ok(found)
}

/// The parts of a version's program that have initialisers, in order. The program of the version and that of each part come into
/// memory. Takes time in proportion to the parts, and to what is read.
///
/// # Errors
/// `Swap` where the read of a program failed, or gave other bytes than were written; that one is out still. `NoMemory` where
/// memory ran out, and where the device did not tell the truth.
pub fn initialised_parts<W: Truthful>(
    live: &mut Live,
    swap: &mut W,
    version: ProgId,
) -> Result<Vec<u16>, EnterFault>
    requires closed { IsClosed live.old }
    ensures brings { Brings (W.content swap.old) (W.content swap.new) (W.last swap.new) (W.read_faults swap.old) (W.read_faults swap.new) (W.write_faults swap.old) (W.write_faults swap.new)
        (W.is_truthful swap.old) (W.is_truthful swap.new) (W.is_honest swap.old) (W.is_honest swap.new) live.old live.new result }
    ensures closed { IsClosed live.new }
    ensures stands { W.is_truthful swap.new → (programs : List Raw) (w : World) → Stands (W.content swap.old) programs live.old w → Stands (W.content swap.new) programs live.new w }
    ensures parts { IfOk result (λ v. ArePartsOf (W.content swap.old) live.old version v.items) }
    ensures here { OnOk result (IsSome (program_at live.new.versions version)) }
    ensures truthful { OnOk result (W.is_truthful swap.new) }
{
    match bring_program(live, swap, version) {
        Ok(()) => {
            let end = part_count(&live.versions, version);
            parts_below(live, swap, version, end)
        }
        Err(e) => Err(e),
    }
}
