//! Functions of an object, by their names.
ghost use Rattle.std.specs.Prelude.{◌≡◌, IfOk, IfSome, IsSome, List, Option, Some};
ghost use Rattle.lp_code.specs.declared.program.RawProgram.{RawProgram as Raw};
ghost use Rattle.lp_isa.specs.Programs.{IsReached};
ghost use Rattle.lp_language.specs.Resolve.{Found, function_of, heritage_of};
ghost use Rattle.lp_language.specs.World.{World};
ghost use Rattle.lp_swapfile.specs.Device.{Bytes};
ghost use Rattle.lp_world.specs.Closed.{IsClosed, IsFunctionThere};
ghost use Rattle.lp_world.specs.Rows.{row_at};
ghost use Rattle.lp_world.specs.Stands.{Stands, reached_of};
ghost use Rattle.lp_world.specs.declared.objects.Object.{Object};
ghost use Rattle.lp_targets.specs.Brought.{Brings, program_at};
ghost use Rattle.lp_targets.specs.Callees.{AreInText, IsAnswer, IsCalleeThere, IsKeepable, IsWorldOf, wanted};

use crate::bringing::{bring_program, program_of, version_of};
use crate::callees::callee_at;
use crate::rows::wanted;
use crate::wants::Want;
use lp_frames::entry::Callee;
use lp_residence::answers::EnterFault;
use lp_swapfile::SwapFile;
use lp_values::id::{ObjId, ProgId};
use lp_world::live::Live;
use lp_world::targets::FunAt;

/// The callee of a function that was found in the program of an object's version.
fn callee_in_version(live: &Live, version: ProgId, this: ObjId, f: FunAt) -> Option<Callee>
    ensures there { IfSome result (IsCalleeThere live.now.versions) }
    ensures function { (whole : Raw) → IsSome result → program_at live.now.versions version ≡ Some whole → IsFunctionThere live.now.versions whole.tables.parts f.part f.fun }
    ensures is { (told : Option Bytes) (programs : List Raw) (w : World) (o : Object) (whole : Raw) (x : Option Found) → IsWorldOf told programs live.now w → IsClosed live.now → row_at live.now.objects this.0 ≡ Some o → o.program ≡ version
        → program_at live.now.versions version ≡ Some whole → AreInText (heritage_of w this) x → IsReached (heritage_of w this) x (reached_of (Some f)) → IsAnswer programs w this result x }
{
    match program_of(&live.versions, version) {
        Some(whole) => callee_at(&live.versions, whole.raw(), this, f),
        None => None,
    }
}

/// The callee of what was found in the program of an object's version, if something was.
pub(crate) fn callee_of(
    live: &Live,
    version: ProgId,
    this: ObjId,
    at: Option<FunAt>,
) -> Option<Callee>
    ensures there { IfSome result (IsCalleeThere live.now.versions) }
    ensures function { IsSome result → IsKeepable live.now.versions (program_at live.now.versions version) at }
    ensures is { (told : Option Bytes) (programs : List Raw) (w : World) (o : Object) (whole : Raw) (x : Option Found) → IsWorldOf told programs live.now w → IsClosed live.now → row_at live.now.objects this.0 ≡ Some o → o.program ≡ version
        → program_at live.now.versions version ≡ Some whole → AreInText (heritage_of w this) x → IsReached (heritage_of w this) x (reached_of at) → IsAnswer programs w this result x }
{
    match at {
        Some(f) => callee_in_version(live, version, this, f),
        None => None,
    }
}

/// What a name reaches in the program of a version that is in memory, where it is wanted.
fn named_in(live: &Live, version: ProgId, name: &str, want: Want) -> Option<FunAt>
    ensures { (told : Option Bytes) (programs : List Raw) (w : World) (this : ObjId) (o : Object) → IsWorldOf told programs live.now w → row_at live.now.objects this.0 ≡ Some o → o.program ≡ version
        → IsSome (program_at live.now.versions version) → IsReached (heritage_of w this) (wanted want (function_of w this name.now)) (reached_of result) }
{
    match program_of(&live.versions, version) {
        Some(whole) => wanted(whole.raw(), name, want),
        None => None,
    }
}

/// The function of a name in an object, where it is wanted. The program of the object's version comes into memory for it.
pub fn function_in<W: SwapFile>(
    live: &mut Live,
    swap: &mut W,
    ob: ObjId,
    want: Want,
    name: &str,
) -> Result<Option<Callee>, EnterFault>
    requires closed { IsClosed live.old }
    requires there { IsSome (row_at live.old.objects ob.0) }
    ensures brings { Brings (W.content swap.old) (W.content swap.new) (W.last swap.new) (W.read_faults swap.old) (W.read_faults swap.new) (W.write_faults swap.old) (W.write_faults swap.new)
        (W.is_truthful swap.old) (W.is_truthful swap.new) (W.is_honest swap.old) (W.is_honest swap.new) live.old live.new result }
    ensures closed { IsClosed live.new }
    ensures there { IfOk result (λ o. IfSome o (IsCalleeThere live.new.versions)) }
    ensures stands { W.is_truthful swap.new → (programs : List Raw) (w : World) → Stands (W.content swap.old) programs live.old w → Stands (W.content swap.new) programs live.new w }
    ensures found { W.is_truthful swap.new → (programs : List Raw) (w : World) → IsWorldOf (W.content swap.old) programs live.old w → IfOk result (λ o. IsAnswer programs w ob o (wanted want (function_of w ob name.now))) }
{
    let version = version_of(live, ob);
    match bring_program(live, swap, version) {
        Ok(()) => {
            let at = named_in(live, version, name, want);
            Ok(callee_of(live, version, ob, at))
        }
        Err(e) => Err(e),
    }
}
