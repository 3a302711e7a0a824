//! The calls of `init` that follow a move.
ghost use Rattle.std.specs.Prelude.{◌≡◌, ◌∷◌, ◌++◌, [], IfOk, List, OnOk, Option, map, true};
ghost use Rattle.lp_language.specs.World.{World};
ghost use Rattle.lp_meaning.specs.MovesAndCommands.{may_init};
ghost use Rattle.lp_places.specs.Places.{inits_between};
ghost use Rattle.lp_swapfile.specs.Device.{Bytes};
ghost use Rattle.lp_code.specs.declared.program.RawProgram.{RawProgram as Raw};
ghost use Rattle.lp_world.specs.Rows.{live_in, row_at};
ghost use Rattle.lp_world.specs.Stands.{Stands};
ghost use Rattle.lp_moving.specs.Moving.{calls_among, init_of, is_living_row, is_made, others_in};

use crate::reach::is_at;
use lp_values::id::ObjId;
use lp_values::value::Living;
use lp_world::live::Live;
use lp_world::objects::ObjectTable;
use std::alloc::{AllocError, Global};

/// A call of `init`: in which object, and for whom, who is `this_player()` in it.
#[derive(Clone, Copy, Debug, PartialEq, Eq)]
pub struct InitCall {
    /// The object that is called.
    pub of: ObjId,
    /// The one for whom it is called.
    pub player: ObjId,
}

/// For an object in the destination: the item's `init` for it, then its `init` for the item. The item
/// itself, which may be there already, is passed over.
fn push_between(calls: &mut Vec<InitCall>, item: ObjId, o: ObjId) -> Result<(), AllocError>
    ensures { OnOk result (map init_of calls.new.items ≡ map init_of calls.old.items ++ inits_between item (others_in item (o ∷ []))) }
{
    if o != item {
        calls.push(InitCall {
            of: item,
            player: o,
        })?;
        calls.push(InitCall {
            of: o,
            player: item,
        })?;
    }
    Ok(())
}

/// The calls of `init` after an item came into its destination, in their order: the destination's for
/// the item; those between it and the others there; the item's for the destination. Costs what is there.
pub(crate) fn calls_of(
    alloc: Global,
    item: ObjId,
    dest: ObjId,
    others: &[ObjId],
) -> Result<Vec<InitCall>, AllocError>
    ensures { IfOk result (λ v. map init_of v.items ≡ calls_among item dest others.now) }
{
    let mut calls = Vec::new(alloc);
    calls.push(InitCall {
        of: dest,
        player: item,
    })?;
    for o in others {
        push_between(&mut calls, item, *o)?;
    }
    calls.push(InitCall {
        of: item,
        player: dest,
    })?;
    Ok(calls)
}

/// Whether an object is living.
fn is_living(objects: &ObjectTable, o: ObjId) -> bool
    ensures { result ≡ is_living_row (row_at objects.now o.0) }
{
    match objects.get(o) {
        Some(row) => row.is_living,
        None => false,
    }
}

/// Whether a call of `init` is made, where the item is at a place.
fn is_made(
    place: Option<ObjId>,
    objects: &ObjectTable,
    item: ObjId,
    dest: ObjId,
    of: ObjId,
    player: ObjId,
) -> bool
    ensures { result ≡ is_made place objects.now item dest of player }
{
    is_at(place, dest)
        && objects.is_live(item)
        && objects.is_live(dest)
        && objects.is_live(of)
        && objects.is_live(player)
        && is_living(objects, player)
}

/// Whether a call of `init` in an object, for a player, is still made after an item was moved into its
/// destination: the item is still there, it, the destination and the two are live, and the player is
/// living. Takes no memory, and time as a few look-ups.
pub fn may_init(live: &Live, item: ObjId, dest: ObjId, of: ObjId, player: ObjId) -> bool
    ensures is { (told : Option Bytes) (programs : List Raw) (w : World) → Stands told programs live.now w → result ≡ may_init w item dest (record { of = of; player = player }) }
    ensures lives { result ≡ true → live_in live.now.objects of ≡ true }
{
    is_made(
        live.places.environment(item),
        &live.objects,
        item,
        dest,
        of,
        player,
    )
}
