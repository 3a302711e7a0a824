//! Programs go out.
ghost use Rattle.std.specs.Prelude.{◌≡◌, IfOk, IsSome, codes, false, true};
ghost use Rattle.lp_encoding.specs.Programs.{IsEncoding};
ghost use Rattle.lp_swapfile.specs.Counts.{Counts};
ghost use Rattle.lp_world.specs.Rows.{row_at, version_state};
ghost use Rattle.lp_residence.specs.Owners.{IsProgramImage, IsVersionImage};
ghost use Rattle.lp_residence.specs.Puts.{AreTakenStill, IsPut, IsWrittenFree, is_kept_fault, is_quiet};
ghost use Rattle.lp_residence.specs.declared.owner.Owner.TheVariants as owners;

use crate::answers::PutOut;
use crate::residence::{Residence, version_residence};
use lp_code::program::Program;
use lp_encoding::encode;
use lp_swapfile::SwapFile;
use lp_swapper::OutAnswer;
use lp_values::id::ProgId;
use lp_world::live::Live;
use lp_world::versions::{ProgramState, VersionTable};
use std::alloc::{AllocError, Global};

/// The image of a program: a mark, and its encoding.
fn image_of(alloc: Global, program: &Program) -> Result<Vec<u8>, AllocError>
    ensures { IfOk result (λ v. IsProgramImage program.now v.items) }
{
    let encoding = encode(alloc, program)?;
    let mut image = Vec::new(alloc);
    image.extend_from_slice(b"LPP1")?;
    image.extend_from_slice(encoding.as_slice())?;
    Ok(image)
}

/// The image of the program of a version that is in memory.
fn packed_program(alloc: Global, versions: &VersionTable, p: ProgId) -> Result<Vec<u8>, AllocError>
    ensures { IfOk result (λ v. IsVersionImage (version_state (row_at versions.now p.0)) v.items) }
{
    match versions.get(p) {
        Some(v) => match &v.state {
            ProgramState::Resident(program) => image_of(alloc, program.program()),
            ProgramState::Swapped(_) => Err(AllocError),
        },
        None => Err(AllocError),
    }
}

/// Writes the image of a program in memory, which then is out.
fn write_program<W: SwapFile>(
    live: &mut Live,
    swap: &mut W,
    p: ProgId,
    image: &[u8],
) -> Result<PutOut, AllocError>
    requires packed { IsVersionImage (version_state (row_at live.old.versions p.0)) image.now }
    ensures answer { IsPut (owners.Program p) live.old live.new (W.content swap.new) result }
    ensures asked { is_quiet result ≡ false }
    ensures written { IsWrittenFree live.old.swapper (W.content swap.old) (W.content swap.new) }
    ensures taken { AreTakenStill result live.old.swapper live.new.swapper }
    ensures faults { Counts (is_kept_fault result) (W.write_faults swap.old) (W.write_faults swap.new) }
    ensures read_faults { W.read_faults swap.new ≡ W.read_faults swap.old }
    ensures honest { W.is_honest swap.new → W.is_honest swap.old }
    ensures truthful { W.is_truthful swap.new → W.is_truthful swap.old }
{
    match live.swapper.out(swap, image) {
        Ok(OutAnswer::Out(ticket)) => {
            live.versions
                .replace_state(p, ProgramState::Swapped(ticket));
            Ok(PutOut::Out)
        }
        Ok(OutAnswer::KeptFault) => Ok(PutOut::KeptFault),
        Ok(OutAnswer::KeptFull) => Ok(PutOut::KeptFull),
        Err(e) => Err(e),
    }
}

/// Packs a program in memory and writes it out.
fn send_program<W: SwapFile>(live: &mut Live, swap: &mut W, p: ProgId) -> Result<PutOut, AllocError>
    ensures answer { IsPut (owners.Program p) live.old live.new (W.content swap.new) result }
    ensures asked { is_quiet result ≡ false }
    ensures written { IsWrittenFree live.old.swapper (W.content swap.old) (W.content swap.new) }
    ensures taken { AreTakenStill result live.old.swapper live.new.swapper }
    ensures faults { Counts (is_kept_fault result) (W.write_faults swap.old) (W.write_faults swap.new) }
    ensures read_faults { W.read_faults swap.new ≡ W.read_faults swap.old }
    ensures honest { W.is_honest swap.new → W.is_honest swap.old }
    ensures truthful { W.is_truthful swap.new → W.is_truthful swap.old }
{
    match packed_program(live.alloc, &live.versions, p) {
        Ok(image) => write_program(live, swap, p, image.as_slice()),
        Err(e) => Err(e),
    }
}

/// Puts the program of a version out.
pub(crate) fn put_out_program<W: SwapFile>(
    live: &mut Live,
    swap: &mut W,
    p: ProgId,
) -> Result<PutOut, AllocError>
    ensures answer { IsPut (owners.Program p) live.old live.new (W.content swap.new) result }
    ensures quiet { is_quiet result ≡ true → swap.new ≡ swap.old }
    ensures written { IsWrittenFree live.old.swapper (W.content swap.old) (W.content swap.new) }
    ensures taken { AreTakenStill result live.old.swapper live.new.swapper }
    ensures faults { Counts (is_kept_fault result) (W.write_faults swap.old) (W.write_faults swap.new) }
    ensures read_faults { W.read_faults swap.new ≡ W.read_faults swap.old }
    ensures honest { W.is_honest swap.new → W.is_honest swap.old }
    ensures truthful { W.is_truthful swap.new → W.is_truthful swap.old }
{
    match version_residence(&live.versions, p) {
        Residence::Missing => Ok(PutOut::NotThere),
        Residence::Outside => Ok(PutOut::Already),
        Residence::Inside => send_program(live, swap, p),
    }
}
