//! The end of an object.
ghost use Rattle.std.specs.Prelude.{◌≡◌, IsSome, List, Option, slice_set, true};
ghost use Rattle.lp_actions.specs.Actions.{Sentence, kept_in_reach, sentences_without};
ghost use Rattle.lp_actions.specs.Held.{Lists, next_in};
ghost use Rattle.lp_code.specs.declared.program.RawProgram.{RawProgram as Raw};
ghost use Rattle.lp_language.specs.World.{World};
ghost use Rattle.lp_meaning.specs.WorldSteps.{connection_of, destructed};
ghost use Rattle.lp_places.specs.Places.{Lying, Shadowing, places_without, shadows_without};
ghost use Rattle.lp_places.specs.Stands.{Stands as Place};
ghost use Rattle.lp_swapfile.specs.Device.{Bytes};
ghost use Rattle.lp_world.specs.Closed.{AreNumberedOnce, ArePlaced, IsClosed};
ghost use Rattle.lp_world.specs.Rows.{live_in, row_after_death, row_at, state_in};
ghost use Rattle.lp_world.specs.Stands.{Stands};
ghost use Rattle.lp_residence.specs.Ending.{timing_without, without_number};
ghost use Rattle.lp_residence.specs.Entering.{AreTakenWithout, CanGiveBack, room_back};
ghost use Rattle.lp_residence.specs.Owners.{ticket_at, ticket_of_state};
ghost use Rattle.lp_residence.specs.declared.owner.Owner.TheVariants as owners;

use crate::entering::out_ticket;
use crate::reach::ByPlaces;
use lp_actions::actions::Actions;
use lp_places::places::Places;
use lp_swapper::Swapper;
use lp_timers::timers::Timers;
use lp_values::id::ObjId;
use lp_world::connections::Connections;
use lp_world::live::Live;
use lp_world::objects::ObjectTable;

/// Nothing of an object is to come any more.
fn end_timers(timers: &mut Timers, ob: ObjId)
    requires { AreNumberedOnce timers.old.call_outs }
    ensures { timers.new ≡ timing_without timers.old ob }
{
    while timers.drop_of(ob).is_some() {}
}

/// Drops the actions whose givers are out of reach.
fn drop_unreached(actions: &mut Actions, places: &Places)
    requires { ArePlaced places.now }
    ensures kept { (ps : List Lying) (ss : List Shadowing) (acts : List Sentence) → Place places.now ps ss → Lists actions.old acts → Lists actions.new (kept_in_reach ps acts) }
    ensures next { next_in actions.new ≡ next_in actions.old }
{
    actions.keep_reach(&ByPlaces { places });
}

/// An object is nowhere, holds no actions, and each action that then is out of reach ends.
fn leave(places: &mut Places, actions: &mut Actions, ob: ObjId)
    requires { ArePlaced places.old }
    ensures places { (ps : List Lying) (ss : List Shadowing) → Place places.old ps ss → Place places.new (places_without ps ob) (shadows_without ss ob) }
    ensures actions { (ps : List Lying) (ss : List Shadowing) (acts : List Sentence) → Place places.old ps ss → Lists actions.old acts → Lists actions.new (kept_in_reach (places_without ps ob) (sentences_without acts ob)) }
    ensures next { next_in actions.new ≡ next_in actions.old }
{
    places.take_out(ob);
    actions.drop_of(ob);
    drop_unreached(actions, places);
}

/// Closes the connection that there may be.
fn close(connections: &mut Connections, number: Option<u32>)
    ensures { connections.new ≡ without_number connections.old number }
{
    if let Some(k) = number {
        connections.close(k);
    }
}

/// The room of an object that is out is free.
fn free_room(swapper: &mut Swapper, objects: &ObjectTable, ob: ObjId)
    requires { CanGiveBack (ticket_of_state (state_in (row_at objects.now ob.0))) swapper.old }
    ensures after { swapper.new ≡ room_back (ticket_of_state (state_in (row_at objects.now ob.0))) swapper.old }
    ensures taken { AreTakenWithout (ticket_of_state (state_in (row_at objects.now ob.0))) swapper.old swapper.new }
{
    if let Some(ticket) = out_ticket(objects, ob) {
        swapper.drop_ticket(ticket);
    }
}

/// Destructs a live object: it leaves its environment and what is in it is nowhere, it leaves its chain of
/// shadows and its own shadows shadow nothing any more, its call-outs, heart beat, watches and the actions that
/// it holds end, and each action whose giver is then out of reach. Answers the connection that it had, which is
/// open no longer: that the line is closed the caller tells. Takes no memory, and reads nothing: the room of an
/// object that is out is free.
pub fn destroy(live: &mut Live, ob: ObjId) -> Option<u32>
    requires closed { IsClosed live.old }
    requires live { live_in live.old.objects ob ≡ true }
    ensures stands { (told : Option Bytes) (programs : List Raw) (w : World) → Stands told programs live.old w → Stands told programs live.new (destructed w ob) × (result ≡ connection_of w ob) }
    ensures closed { IsClosed live.new }
    ensures room { live.new.swapper ≡ room_back (ticket_at live.old (owners.Object ob)) live.old.swapper }
    ensures row { live.new.objects ≡ slice_set live.old.objects ob.0 (row_after_death (row_at live.old.objects ob.0)) }
    ensures cells { live.new.cells ≡ live.old.cells }
    ensures versions { live.new.versions ≡ live.old.versions }
    ensures store { live.new.store ≡ live.old.store }
    ensures outputs { live.new.outputs ≡ live.old.outputs }
{
    live.swapper.law();
    let connection = live.connections.of(ob);
    live.names.kill(ob);
    end_timers(&mut live.timers, ob);
    leave(&mut live.places, &mut live.actions, ob);
    close(&mut live.connections, connection);
    free_room(&mut live.swapper, &live.objects, ob);
    live.objects.kill(ob);
    connection
}
