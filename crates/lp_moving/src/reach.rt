//! Who is in reach of whom, by the places.
ghost use Rattle.std.specs.Prelude.{◌≡◌, List};
ghost use Rattle.lp_actions.specs.Actions.{Sentence, kept_in_reach};
ghost use Rattle.lp_actions.specs.Held.{Lists, next_in};
ghost use Rattle.lp_places.specs.Places.{Lying, Shadowing, is_at, is_object};
ghost use Rattle.lp_places.specs.Stands.{Stands as Place};
ghost use Rattle.lp_world.specs.Closed.{ArePlaced};
ghost use Rattle.lp_moving.specs.Reaching.{is_beside, place_in, reaches_by};

use lp_actions::actions::Actions;
use lp_actions::reach::Reach;
use lp_places::places::Places;
use lp_values::id::ObjId;

/// The reach of objects, by their places.
#[derive(Clone, Copy)]
pub(crate) struct ByPlaces<'a> {
    pub(crate) places: &'a Places,
    ghost placed: { ∥ ArePlaced places.now ∥₁ },
}

/// Whether a place is an object.
pub(crate) fn is_at(place: Option<ObjId>, ob: ObjId) -> bool
    ensures { result ≡ is_at place ob }
{
    match place {
        Some(p) => p == ob,
        None => false,
    }
}

/// Whether the giver of an action is the environment of its holder, or in it.
fn is_beside(around: Option<ObjId>, place: Option<ObjId>, giver: ObjId) -> bool
    ensures { result ≡ is_beside around place giver }
{
    match around {
        Some(e) => {
            if giver == e {
                return true;
            }
            is_at(place, e)
        }
        None => false,
    }
}

/// Whether the giver of an action is in reach of its holder, where both are.
fn reaches_by(around: Option<ObjId>, place: Option<ObjId>, holder: ObjId, giver: ObjId) -> bool
    ensures { result ≡ reaches_by around place holder giver }
{
    if giver == holder {
        return true;
    }
    if is_at(place, holder) {
        return true;
    }
    is_beside(around, place, giver)
}

/// The object in which an object is.
fn place_of(reach: ByPlaces<'_>, ob: ObjId) -> Option<ObjId>
    ensures { result ≡ place_in reach.entry.places.now ob }
{
    reach.places.environment(ob)
}

impl Reach for ByPlaces<'_> {
    ghost use Rattle.lp_moving.specs.Reaching.{reached_in};

    ghost reaches = { λ r. reached_in r.places.now };

    fn in_reach(&self, holder: ObjId, giver: ObjId) -> bool {
        let around = place_of(*self, holder);
        let place = place_of(*self, giver);
        reaches_by(around, place, holder, giver)
    }
}

/// Drops the actions whose givers are out of reach of their holders, as the places have them. Looks at
/// each action once, and takes no memory.
pub fn drop_unreached(actions: &mut Actions, places: &Places)
    requires { ArePlaced places.now }
    ensures kept { (ps : List Lying) (ss : List Shadowing) (acts : List Sentence) → Place places.now ps ss → Lists actions.old acts → Lists actions.new (kept_in_reach ps acts) }
    ensures next { next_in actions.new ≡ next_in actions.old }
{
    actions.keep_reach(&ByPlaces { places });
}
