//! What a script names goes out.
ghost use Rattle.std.specs.Prelude.{◌≡◌, ◌<◌, ◌≤◌, ◌+◌, ◌-◌, ◌^◌, ◌∷◌, IfOk, IsOk, List, None};
ghost use Rattle.std.specs.Str.{chars};
ghost use Rattle.lp_code.specs.declared.program.RawProgram.{RawProgram as Raw};
ghost use Rattle.lp_language.specs.World.{World};
ghost use Rattle.lp_objects.specs.Objects.{Named, object_named};
ghost use Rattle.lp_objects.specs.Stands.{Stands as AreNamed};
ghost use Rattle.lp_swapfile.specs.Device.{IsTold};
ghost use Rattle.lp_world.specs.Closed.{IsClosed};
ghost use Rattle.lp_world.specs.Rows.{row_at};
ghost use Rattle.lp_targets.specs.Callees.{IsWorldOf};
ghost use Rattle.lp_residence.specs.Idling.{none_yet, together};
ghost use Rattle.lp_residence.specs.declared.owner.Owner.TheVariants as owners;
ghost use Rattle.lp_tidying.specs.Putting.{ArePutOut, ArePutWhereTold, IsPutOut, named_owners, version_in, version_owners};

use crate::counting::{counted, none_out};
use lp_asking::truth::Truthful;
use lp_residence::answers::Idled;
use lp_residence::owner::Owner;
use lp_residence::putting::put_out;
use lp_swapfile::SwapFile;
use lp_values::id::{ObjId, ProgId};
use lp_world::live::Live;
use lp_world::objects::ObjectTable;
use std::alloc::AllocError;

/// The live object of this name goes out between turns, and then its version, where the swap file says that it tells what it holds. Each goes
/// out or stays for a cause, as `put_out` of `lp_residence` says, and how many went and were kept is answered: of two at most, since what is
/// out already does not count. Where no object has the name, nothing is done, without memory. The live state stands for the same world.
///
/// After want of memory the object may have gone out.
pub fn put_named<W: Truthful>(
    live: &mut Live,
    swap: &mut W,
    name: &str,
) -> Result<Idled, AllocError>
    requires closed { IsClosed live.old }
    ensures puts { IfOk result (λ n. (objects : List Named) → AreNamed live.old.names objects
        → ArePutWhereTold (named_owners live.old (object_named objects (chars name.now))) live.old (record { told = W.content swap.old; faults = W.write_faults swap.old }) live.new (record { told = W.content swap.new; faults = W.write_faults swap.new }) n) }
    ensures quiet { (objects : List Named) → AreNamed live.old.names objects → object_named objects (chars name.now) ≡ None → IsOk result }
    ensures world { (programs : List Raw) (w : World) → IsWorldOf (W.content swap.old) programs live.old w → IsWorldOf (W.content swap.new) programs live.new w }
    ensures closed { IsClosed live.new }
    ensures outputs { live.new.outputs ≡ live.old.outputs }
    ensures read_faults { W.read_faults swap.new ≡ W.read_faults swap.old }
    ensures honest { W.is_honest swap.new → W.is_honest swap.old }
    ensures truthful { W.is_truthful swap.new → W.is_truthful swap.old }
{
    if !swap.tells() {
        return Ok(none_out());
    }
    match live.names.find(name) {
        Some(o) => put_both(live, swap, o),
        None => Ok(none_out()),
    }
}

/// The version of an object. Takes no memory.
fn version_of(objects: &ObjectTable, o: ObjId) -> Option<ProgId>
    ensures { result ≡ version_in (row_at objects.now o.0) }
{
    match objects.get(o) {
        Some(object) => Some(object.program),
        None => None,
    }
}

/// An object goes out, and then its version.
fn put_both<W: SwapFile>(live: &mut Live, swap: &mut W, o: ObjId) -> Result<Idled, AllocError>
    requires closed { IsClosed live.old }
    requires told { IsTold (W.content swap.old) }
    ensures puts { IfOk result (ArePutOut (owners.Object o ∷ version_owners (version_in (row_at live.old.objects o.0))) live.old (record { told = W.content swap.old; faults = W.write_faults swap.old }) none_yet live.new (record { told = W.content swap.new; faults = W.write_faults swap.new })) }
    ensures world { (programs : List Raw) (w : World) → IsWorldOf (W.content swap.old) programs live.old w → IsWorldOf (W.content swap.new) programs live.new w }
    ensures closed { IsClosed live.new }
    ensures outputs { live.new.outputs ≡ live.old.outputs }
    ensures read_faults { W.read_faults swap.new ≡ W.read_faults swap.old }
    ensures honest { W.is_honest swap.new → W.is_honest swap.old }
    ensures truthful { W.is_truthful swap.new → W.is_truthful swap.old }
{
    let version = version_of(&live.objects, o);
    let counts = put_one(live, swap, Owner::Object(o), none_out())?;
    put_version(live, swap, version, counts)
}

/// A version goes out, if there is one, and is counted.
fn put_version<W: SwapFile>(
    live: &mut Live,
    swap: &mut W,
    version: Option<ProgId>,
    counts: Idled,
) -> Result<Idled, AllocError>
    requires closed { IsClosed live.old }
    requires told { IsTold (W.content swap.old) }
    requires few { together counts < 2 ^ 64 - 1 }
    ensures puts { IfOk result (ArePutOut (version_owners version) live.old (record { told = W.content swap.old; faults = W.write_faults swap.old }) counts live.new (record { told = W.content swap.new; faults = W.write_faults swap.new })) }
    ensures world { (programs : List Raw) (w : World) → IsWorldOf (W.content swap.old) programs live.old w → IsWorldOf (W.content swap.new) programs live.new w }
    ensures closed { IsClosed live.new }
    ensures outputs { live.new.outputs ≡ live.old.outputs }
    ensures read_faults { W.read_faults swap.new ≡ W.read_faults swap.old }
    ensures honest { W.is_honest swap.new → W.is_honest swap.old }
    ensures truthful { W.is_truthful swap.new → W.is_truthful swap.old }
{
    match version {
        Some(p) => put_one(live, swap, Owner::Program(p), counts),
        None => Ok(counts),
    }
}

/// One goes out, and is counted.
fn put_one<W: SwapFile>(
    live: &mut Live,
    swap: &mut W,
    who: Owner,
    counts: Idled,
) -> Result<Idled, AllocError>
    requires closed { IsClosed live.old }
    requires told { IsTold (W.content swap.old) }
    requires few { together counts < 2 ^ 64 - 1 }
    ensures put { IfOk result (IsPutOut who live.old (record { told = W.content swap.old; faults = W.write_faults swap.old }) counts live.new (record { told = W.content swap.new; faults = W.write_faults swap.new })) }
    ensures few { IfOk result (λ n. together n ≤ together counts + 1) }
    ensures told { IsTold (W.content swap.new) }
    ensures world { (programs : List Raw) (w : World) → IsWorldOf (W.content swap.old) programs live.old w → IsWorldOf (W.content swap.new) programs live.new w }
    ensures closed { IsClosed live.new }
    ensures outputs { live.new.outputs ≡ live.old.outputs }
    ensures read_faults { W.read_faults swap.new ≡ W.read_faults swap.old }
    ensures honest { W.is_honest swap.new → W.is_honest swap.old }
    ensures truthful { W.is_truthful swap.new → W.is_truthful swap.old }
{
    match put_out(live, swap, who) {
        Ok(answer) => Ok(counted(counts, answer)),
        Err(e) => Err(e),
    }
}
