//! Chains of shadows.
ghost use Rattle.std.specs.Prelude.{◌≡◌, ◌+◌, ◌<◌, ◌≤◌, ◌^◌, IfOk, IfSome, IsSome, List, Some, drop, length, slice_get, ℕ};
ghost use Rattle.lp_code.specs.declared.program.RawProgram.{RawProgram as Raw};
ghost use Rattle.lp_language.specs.Resolve.{chain_of};
ghost use Rattle.lp_language.specs.World.{World};
ghost use Rattle.lp_places.specs.Places.{Lying, Shadowing, shadows_of};
ghost use Rattle.lp_places.specs.Stands as places;
ghost use Rattle.lp_values.specs.declared.id.ObjId.{ObjId as O};
ghost use Rattle.lp_world.specs.Closed.{IsClosed};
ghost use Rattle.lp_world.specs.Rows.{row_at};
ghost use Rattle.lp_world.specs.Stands.{Stands};
ghost use Rattle.lp_targets.specs.Brought.{Brings};
ghost use Rattle.lp_targets.specs.Callees.{IsCalleeThere, IsTargetAnswer, IsWorldOf, first_wanted, found_at};

use crate::functions::function_in;
use crate::wants::Seeker;
use lp_frames::entry::Callee;
use lp_residence::answers::EnterFault;
use lp_swapfile::SwapFile;
use lp_values::id::ObjId;
use lp_world::live::Live;

/// The place behind an object in a list whose first item has a place, or 0 where it is not there.
fn place_behind(shadows: &[ObjId], caller: ObjId, first: usize) -> usize
    requires { first + length shadows.now < 2 ^ 64 }
    ensures { result ≡ found_at first shadows.now caller }
{
    match shadows {
        [s, rest @ ..] => {
            if *s == caller {
                first + 1
            } else {
                place_behind(rest, caller, first + 1)
            }
        }
        [] => 0,
    }
}

/// A shadow of an object that is there, by its place in the chain.
fn shadow_at(live: &Live, ob: ObjId, at: usize) -> Option<ObjId>
    ensures inside { IfSome result (λ s. IsSome (row_at live.now.objects s.0)) }
    ensures is { (lyings : List Lying) (shadows : List Shadowing) (s : O) → places.Stands live.now.places lyings shadows → slice_get (shadows_of shadows ob) at ≡ Some s → IsSome (row_at live.now.objects s.0) → result ≡ Some s }
{
    match live.places.shadows(ob).get(at) {
        Some(s) => {
            if live.objects.get(*s).is_some() {
                Some(*s)
            } else {
                None
            }
        }
        None => None,
    }
}

/// The first object of a chain of shadows, from a place on with so many shadows left and the shadowed object last, that has what
/// is wanted. The programs of the objects' versions come into memory, one after another.
pub(crate) fn search_from<W: SwapFile>(
    live: &mut Live,
    swap: &mut W,
    seeker: Seeker,
    ob: ObjId,
    at: usize,
    left: usize,
    name: &str,
) -> Result<Option<Callee>, EnterFault>
    requires closed { IsClosed live.old }
    requires there { IsSome (row_at live.old.objects ob.0) }
    requires few { at + left < 2 ^ 64 }
    ensures brings { Brings (W.content swap.old) (W.content swap.new) (W.last swap.new) (W.read_faults swap.old) (W.read_faults swap.new) (W.write_faults swap.old) (W.write_faults swap.new)
        (W.is_truthful swap.old) (W.is_truthful swap.new) (W.is_honest swap.old) (W.is_honest swap.new) live.old live.new result }
    ensures closed { IsClosed live.new }
    ensures there { IfOk result (λ o. IfSome o (IsCalleeThere live.new.versions)) }
    ensures stands { W.is_truthful swap.new → (programs : List Raw) (w : World) → Stands (W.content swap.old) programs live.old w → Stands (W.content swap.new) programs live.new w }
    ensures found { W.is_truthful swap.new → (programs : List Raw) (w : World) → IsWorldOf (W.content swap.old) programs live.old w → at + left ≡ length (shadows_of w.shadows ob)
        → IfOk result (λ o. IsTargetAnswer programs w o (first_wanted seeker w (drop at (chain_of w ob)) name.now)) }
{
    if left == 0 {
        return function_in(live, swap, ob, seeker.want(ob), name);
    }
    match shadow_at(live, ob, at) {
        Some(s) => match function_in(live, swap, s, seeker.want(s), name) {
            Ok(Some(callee)) => Ok(Some(callee)),
            Ok(None) => search_from(live, swap, seeker, ob, at + 1, left - 1, name),
            Err(e) => Err(e),
        },
        None => Ok(None),
    }
}

/// How many shadows an object has.
pub(crate) fn shadow_count(live: &Live, ob: ObjId) -> usize
    ensures { (lyings : List Lying) (shadows : List Shadowing) → places.Stands live.now.places lyings shadows → result ≡ length (shadows_of shadows ob) }
{
    live.places.shadows(ob).len()
}

/// The first object of a chain of shadows that has what is wanted.
pub(crate) fn search_all<W: SwapFile>(
    live: &mut Live,
    swap: &mut W,
    seeker: Seeker,
    ob: ObjId,
    name: &str,
) -> Result<Option<Callee>, EnterFault>
    requires closed { IsClosed live.old }
    requires there { IsSome (row_at live.old.objects ob.0) }
    ensures brings { Brings (W.content swap.old) (W.content swap.new) (W.last swap.new) (W.read_faults swap.old) (W.read_faults swap.new) (W.write_faults swap.old) (W.write_faults swap.new)
        (W.is_truthful swap.old) (W.is_truthful swap.new) (W.is_honest swap.old) (W.is_honest swap.new) live.old live.new result }
    ensures closed { IsClosed live.new }
    ensures there { IfOk result (λ o. IfSome o (IsCalleeThere live.new.versions)) }
    ensures stands { W.is_truthful swap.new → (programs : List Raw) (w : World) → Stands (W.content swap.old) programs live.old w → Stands (W.content swap.new) programs live.new w }
    ensures found { W.is_truthful swap.new → (programs : List Raw) (w : World) → IsWorldOf (W.content swap.old) programs live.old w
        → IfOk result (λ o. IsTargetAnswer programs w o (first_wanted seeker w (chain_of w ob) name.now)) }
{
    let left = shadow_count(live, ob);
    search_from(live, swap, seeker, ob, 0, left, name)
}

/// Where the search of an object that calls begins in a chain of shadows.
pub(crate) fn start_of(live: &Live, caller: ObjId, ob: ObjId) -> usize
    ensures { (lyings : List Lying) (shadows : List Shadowing) → places.Stands live.now.places lyings shadows → result ≡ found_at 0 (shadows_of shadows ob) caller }
{
    place_behind(live.places.shadows(ob), caller, 0)
}
