//! Objects go out.
ghost use Rattle.std.specs.Prelude.{◌≡◌, IfOk, IsSome, false, true};
ghost use Rattle.lp_swapfile.specs.Counts.{Counts};
ghost use Rattle.lp_world.specs.Rows.{live_in, variables_at};
ghost use Rattle.lp_residence.specs.Puts.{AreTakenStill, IsPut, IsWrittenFree, is_kept_fault, is_quiet};
ghost use Rattle.lp_residence.specs.Residence.{IsPacked};
ghost use Rattle.lp_residence.specs.declared.owner.Owner.TheVariants as owners;

use crate::answers::PutOut;
use crate::packing::{cells_named, image_of};
use crate::residence::{Residence, object_residence};
use lp_io::Octets;
use lp_swapfile::SwapFile;
use lp_swapper::OutAnswer;
use lp_values::id::ObjId;
use lp_world::live::Live;
use lp_world::objects::{ObjectState, ObjectTable};
use lp_world::serials::Serials;
use std::alloc::{AllocError, Global};

/// The image of an object in memory, and the cells that it names.
fn packed_object(
    alloc: Global,
    objects: &ObjectTable,
    ob: ObjId,
) -> Result<(Octets, Serials), AllocError>
    requires { IsSome (variables_at objects.now ob) }
    ensures { IfOk result (λ p. IsPacked objects.now ob p.0 p.1) }
{
    let values = objects.variables(ob);
    let image = image_of(alloc, ob, values)?;
    let shared = cells_named(alloc, values)?;
    Ok((image, shared))
}

/// Writes the image of an object in memory, which then is out.
fn write_object<W: SwapFile>(
    live: &mut Live,
    swap: &mut W,
    ob: ObjId,
    image: &[u8],
    shared: Serials,
) -> Result<PutOut, AllocError>
    requires live { live_in live.old.objects ob ≡ true }
    requires packed { IsPacked live.old.objects ob image.now shared }
    ensures answer { IsPut (owners.Object ob) live.old live.new (W.content swap.new) result }
    ensures asked { is_quiet result ≡ false }
    ensures written { IsWrittenFree live.old.swapper (W.content swap.old) (W.content swap.new) }
    ensures taken { AreTakenStill result live.old.swapper live.new.swapper }
    ensures faults { Counts (is_kept_fault result) (W.write_faults swap.old) (W.write_faults swap.new) }
    ensures read_faults { W.read_faults swap.new ≡ W.read_faults swap.old }
    ensures honest { W.is_honest swap.new → W.is_honest swap.old }
    ensures truthful { W.is_truthful swap.new → W.is_truthful swap.old }
{
    match live.swapper.out(swap, image) {
        Ok(OutAnswer::Out(ticket)) => {
            let own = Serials::from_vec(Vec::new(live.alloc));
            live.objects.replace_state(
                ob,
                ObjectState::Swapped {
                    ticket,
                    shared,
                    own,
                },
            );
            Ok(PutOut::Out)
        }
        Ok(OutAnswer::KeptFault) => Ok(PutOut::KeptFault),
        Ok(OutAnswer::KeptFull) => Ok(PutOut::KeptFull),
        Err(e) => Err(e),
    }
}

/// Packs an object in memory and writes it out.
fn send_object<W: SwapFile>(live: &mut Live, swap: &mut W, ob: ObjId) -> Result<PutOut, AllocError>
    requires live { live_in live.old.objects ob ≡ true }
    requires inside { IsSome (variables_at live.old.objects ob) }
    ensures answer { IsPut (owners.Object ob) live.old live.new (W.content swap.new) result }
    ensures asked { is_quiet result ≡ false }
    ensures written { IsWrittenFree live.old.swapper (W.content swap.old) (W.content swap.new) }
    ensures taken { AreTakenStill result live.old.swapper live.new.swapper }
    ensures faults { Counts (is_kept_fault result) (W.write_faults swap.old) (W.write_faults swap.new) }
    ensures read_faults { W.read_faults swap.new ≡ W.read_faults swap.old }
    ensures honest { W.is_honest swap.new → W.is_honest swap.old }
    ensures truthful { W.is_truthful swap.new → W.is_truthful swap.old }
{
    match packed_object(live.alloc, &live.objects, ob) {
        Ok((image, shared)) => write_object(live, swap, ob, image.as_slice(), shared),
        Err(e) => Err(e),
    }
}

/// Puts an object out.
pub(crate) fn put_out_object<W: SwapFile>(
    live: &mut Live,
    swap: &mut W,
    ob: ObjId,
) -> Result<PutOut, AllocError>
    ensures answer { IsPut (owners.Object ob) live.old live.new (W.content swap.new) result }
    ensures quiet { is_quiet result ≡ true → swap.new ≡ swap.old }
    ensures written { IsWrittenFree live.old.swapper (W.content swap.old) (W.content swap.new) }
    ensures taken { AreTakenStill result live.old.swapper live.new.swapper }
    ensures faults { Counts (is_kept_fault result) (W.write_faults swap.old) (W.write_faults swap.new) }
    ensures read_faults { W.read_faults swap.new ≡ W.read_faults swap.old }
    ensures honest { W.is_honest swap.new → W.is_honest swap.old }
    ensures truthful { W.is_truthful swap.new → W.is_truthful swap.old }
{
    match object_residence(&live.objects, ob) {
        Residence::Missing => Ok(PutOut::NotThere),
        Residence::Outside => Ok(PutOut::Already),
        Residence::Inside => send_object(live, swap, ob),
    }
}
