//! Who is in reach of whom.
ghost use Rattle.std.specs.Prelude.{◌≡◌, List};
ghost use Rattle.lp_places.specs.Places.{Lying, Shadowing, in_reach, is_at};
ghost use Rattle.lp_places.specs.Stands.{Stands};

use lp_places::places::Places;
use lp_values::id::ObjId;

/// Whether a place is an object.
fn is_at(place: Option<ObjId>, ob: ObjId) -> bool
    ensures { result ≡ is_at place ob }
{
    match place {
        Some(p) => p == ob,
        None => false,
    }
}

/// Whether the giver of an action is in reach of its holder: it is the holder, or in it, or the holder's environment, or in that.
/// Takes no memory.
pub(crate) fn is_in_reach(places: &Places, holder: ObjId, giver: ObjId) -> bool
    ensures { (ps : List Lying) (ss : List Shadowing) → Stands places.now ps ss → result ≡ in_reach ps holder giver }
{
    let place = places.environment(giver);
    if giver == holder {
        return true;
    }
    if is_at(place, holder) {
        return true;
    }
    match places.environment(holder) {
        Some(e) => giver == e || is_at(place, e),
        None => false,
    }
}
