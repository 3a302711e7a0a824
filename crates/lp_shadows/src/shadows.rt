//! An object begins to shadow another one.
ghost use Rattle.std.specs.Prelude.{◌≡◌, ◌&&◌, IfOk, List, OnErr, Option, is_some, not, true};
ghost use Rattle.lp_code.specs.declared.program.RawProgram.{RawProgram as Raw};
ghost use Rattle.lp_language.specs.World.{World};
ghost use Rattle.lp_meaning.specs.CallingEfuns.{may_begin};
ghost use Rattle.lp_places.specs.Places.{Lying, Shadowing, may_shadow};
ghost use Rattle.lp_places.specs.Stands.{Stands as Place};
ghost use Rattle.lp_swapfile.specs.Device.{Bytes};
ghost use Rattle.lp_world.specs.Closed.{IsClosed};
ghost use Rattle.lp_world.specs.Rows.{live_in};
ghost use Rattle.lp_world.specs.Stands.{Stands};
ghost use Rattle.lp_shadows.specs.Shadows.{shadowed_if};

use lp_places::places::Places;
use lp_values::id::ObjId;
use lp_values::value::Living;
use lp_world::live::Live;
use lp_world::objects::ObjectTable;
use std::alloc::AllocError;

/// Whether two objects are live.
fn are_live(objects: &ObjectTable, this: ObjId, victim: ObjId) -> bool
    ensures { result ≡ (live_in objects.now this && live_in objects.now victim) }
{
    let first = objects.is_live(this);
    let second = objects.is_live(victim);
    first && second
}

/// Whether the places and chains allow that an object shadows another one.
fn may_shadow(places: &Places, this: ObjId, victim: ObjId) -> bool
    ensures { (ps : List Lying) (ss : List Shadowing) → Place places.now ps ss → result ≡ not (is_some (may_shadow ps ss this victim)) }
{
    places.may_shadow(this, victim).is_ok()
}

/// Whether an object may begin to shadow another one: both are live, and the places and chains allow it. Takes no memory.
pub fn may_begin(live: &Live, this: ObjId, victim: ObjId) -> bool
    ensures value { (told : Option Bytes) (programs : List Raw) (w : World) → Stands told programs live.now w → result ≡ may_begin w this victim }
    ensures live { result ≡ true → (live_in live.now.objects this ≡ true) × (live_in live.now.objects victim ≡ true) }
{
    if !are_live(&live.objects, this, victim) {
        return false;
    }
    may_shadow(&live.places, this, victim)
}

/// An object begins to shadow another one, as its outermost shadow, where it may: then the answer is true, and else nothing changes.
/// After want of memory all is as it was.
pub fn begin_shadowing(live: &mut Live, this: ObjId, victim: ObjId) -> Result<bool, AllocError>
    requires closed { IsClosed live.old }
    ensures begins { IfOk result (λ b. (told : Option Bytes) (programs : List Raw) (w : World) → Stands told programs live.old w → (b ≡ may_begin w this victim) × Stands told programs live.new (shadowed_if b w this victim)) }
    ensures err { OnErr result ((told : Option Bytes) (programs : List Raw) (w : World) → Stands told programs live.old w → Stands told programs live.new w) }
    ensures closed { IsClosed live.new }
    ensures others { live.new ≡ record live.old { places = live.new.places } }
{
    if !are_live(&live.objects, this, victim) {
        return Ok(false);
    }
    if !may_shadow(&live.places, this, victim) {
        return Ok(false);
    }
    match live.places.shadow(this, victim) {
        Ok(()) => Ok(true),
        Err(_) => Err(AllocError),
    }
}
