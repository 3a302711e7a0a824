//! What is done between turns.
ghost use Rattle.std.specs.Prelude.{◌≡◌, [], IfOk, IsOk, List, OnOk, false, length, true};
ghost use Rattle.lp_language.specs.World.{World};
ghost use Rattle.lp_objects.specs.Objects.{Named};
ghost use Rattle.lp_objects.specs.Stands.{Stands as AreNamed};
ghost use Rattle.lp_world.specs.Closed.{IsClosed};
ghost use Rattle.lp_residence.specs.Idling.{going};
ghost use Rattle.lp_tidying.specs.Putting.{AreIdlePut};
ghost use Rattle.lp_driver.specs.Driving.{IsAtRest};
ghost use Rattle.lp_world.specs.declared.live.Live.{Live as L};
ghost use Rattle.lp_driver.specs.Turning.{NamesNobody};
ghost use Rattle.lp_driver.specs.Tidying.{HasNeededAlone, IsOver, IsTidied, ReadsNothing, drops_behind, is_reload};

use lp_asking::truth::Truthful;
use lp_events::event::Event;
use lp_events::out::Outs;
use lp_keeping::dropping::drop_unneeded;
use lp_residence::answers::Idled;
use lp_tidying::counting::none_out;
use lp_tidying::ended::forget_ended;
use lp_tidying::idle::put_idle;
use lp_tidying::naming::put_named;
use lp_world::live::Live;
use std::alloc::AllocError;
use std::mem;

/// Takes the outputs of a turn. Takes no memory.
fn take_outputs(live: &mut Live) -> Outs
    requires closed { IsClosed live.old }
    ensures outs { result ≡ live.old.outputs }
    ensures only { live.new ≡ record live.old { outputs = [] } }
    ensures closed { IsClosed live.new }
{
    mem::replace(&mut live.outputs, Outs::new(live.alloc))
}

/// A turn is over: its outputs are given, and what ended in it is forgotten. Takes no memory, and time by how many objects ended.
pub(crate) fn end_turn(live: &mut Live) -> Outs
    requires closed { IsClosed live.old }
    ensures outs { result ≡ live.old.outputs }
    ensures over { IsOver live.old live.new }
    ensures versions { live.new.versions ≡ live.old.versions }
    ensures names { (objects : List Named) → AreNamed live.old.names objects → AreNamed live.new.names objects }
    ensures closed { IsClosed live.new }
{
    let outs = take_outputs(live);
    forget_ended(live);
    outs
}

/// Whether an event is a reload.
fn is_reload(event: &Event) -> bool
    ensures { result ≡ is_reload event.now }
{
    matches!(event, Event::Reload(_, _))
}

/// Whether versions are looked through behind the turn of an event: it is a reload, or a version was made in it. So many had been made
/// before it, and by its end.
fn drops_behind(event: &Event, before: usize, behind: usize) -> bool
    ensures { result ≡ drops_behind event.now before behind }
{
    is_reload(event) || behind != before
}

/// The versions that nothing needs go behind the turn of an event, if it is a reload or a version was made in it; before it so many
/// had been made. The live state stands for the same worlds. Takes time by how many objects and versions were ever made, and a byte of
/// memory for each version meanwhile; behind another turn it takes neither.
///
/// # Errors
/// Want of memory. The state stands as before.
pub(crate) fn drop_versions(live: &mut Live, event: &Event, before: usize) -> Result<(), AllocError>
    requires closed { IsClosed live.old }
    ensures needed { OnOk result (drops_behind event.now before (length live.new.versions) ≡ true → HasNeededAlone live.new) }
    ensures over { (first : L) → IsOver first live.old → IsOver first live.new }
    ensures quiet { drops_behind event.now before (length live.old.versions) ≡ false → IsOk result × (live.new ≡ live.old) }
    ensures closed { IsClosed live.new }
{
    if drops_behind(event, before, live.versions.len()) {
        return drop_unneeded(live.alloc, live);
    }
    Ok(())
}

/// What is idle goes out, where the swap file tells what it holds.
fn put_what_is_idle<W: Truthful>(
    live: &mut Live,
    swap: &mut W,
    swap_time: u64,
) -> Result<Idled, AllocError>
    requires closed { IsClosed live.old }
    ensures tidied { IfOk result (AreIdlePut (going swap_time live.old) live.old (record { told = W.content swap.old; faults = W.write_faults swap.old }) live.new (record { told = W.content swap.new; faults = W.write_faults swap.new })) }
    ensures rest { OnOk result ((w : World) → IsAtRest (W.content swap.old) live.old w → IsAtRest (W.content swap.new) live.new w) }
    ensures closed { IsClosed live.new }
    ensures reads { ReadsNothing (W.read_faults swap.old) (W.read_faults swap.new) (W.is_truthful swap.old) (W.is_truthful swap.new) (W.is_honest swap.old) (W.is_honest swap.new) }
{
    match put_idle(live, swap, swap_time) {
        Ok(idled) => Ok(idled),
        Err(e) => Err(e),
    }
}

/// What is to go out behind the turn of an event goes out, where the swap file tells what it holds: behind a tick what is idle, and
/// for a swap item what it names. Each goes out or stays for a cause, and how many did is answered. The live state stands for the same
/// world. A swap item of a name that no live object has takes no memory.
///
/// After want of memory some may have gone out.
pub(crate) fn tidy<W: Truthful>(
    live: &mut Live,
    swap: &mut W,
    swap_time: u64,
    event: &Event,
) -> Result<Idled, AllocError>
    requires closed { IsClosed live.old }
    ensures tidied { IfOk result (IsTidied swap_time event.now live.old (record { told = W.content swap.old; faults = W.write_faults swap.old }) live.new (record { told = W.content swap.new; faults = W.write_faults swap.new })) }
    ensures quiet { NamesNobody event.now live.old.names → IsOk result }
    ensures rest { OnOk result ((w : World) → IsAtRest (W.content swap.old) live.old w → IsAtRest (W.content swap.new) live.new w) }
    ensures closed { IsClosed live.new }
    ensures reads { ReadsNothing (W.read_faults swap.old) (W.read_faults swap.new) (W.is_truthful swap.old) (W.is_truthful swap.new) (W.is_honest swap.old) (W.is_honest swap.new) }
{
    match event {
        Event::Connect(_) => Ok(none_out()),
        Event::Line(_, _) => Ok(none_out()),
        Event::Gone(_) => Ok(none_out()),
        Event::Tick(_) => put_what_is_idle(live, swap, swap_time),
        Event::Reload(_, _) => Ok(none_out()),
        Event::Swap(name) => put_named(live, swap, name.as_str()),
    }
}
