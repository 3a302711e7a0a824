//! The heart beats of a tick, one after another.
ghost use Rattle.std.specs.Prelude.{◌≡◌, ◌+◌, ◌<◌, IfOk, IfSome, OnOk, length, true};
ghost use Rattle.lp_cells.specs.Cells.{Store};
ghost use Rattle.lp_turn.specs.Going.{AreStepValuesThere, BeginsWith, Goes};
ghost use Rattle.lp_turn.specs.Left.{AsksFewer};
ghost use Rattle.lp_turn.specs.TickSteps.{HasBeatAt, HasNoBeat, IsPlayerIn, beating, beats_still, first_such, with_others};
ghost use Rattle.lp_world.specs.Closed.{IsClosed};
ghost use Rattle.lp_world.specs.Rows.{live_in};

use crate::job::{Asked, Call, Going, Step, Waiting};
use crate::tick_job::{DueObjects, TickGoing, TickWaiting};
use lp_efuns::objects::is_living;
use lp_values::id::ObjId;
use lp_values::text::Text;
use lp_values::value::Living;
use lp_world::live::Live;
use std::alloc::AllocError;

/// Whether the heart of an object is to beat still.
fn is_to_beat(live: &Live, moment: u64, o: ObjId) -> bool
    ensures { result ≡ beats_still live.now moment o }
{
    live.objects.is_live(o) && live.timers.beats_by(o, moment)
}

/// The first of some objects whose heart is to beat still. Those behind it are left.
fn next_heart(live: &Live, due: &mut DueObjects) -> Option<ObjId>
    ensures first { with_others result due.new.objects ≡ first_such (beats_still live.now due.old.moment) due.old.objects }
    ensures moment { due.new.moment ≡ due.old.moment }
    ensures fewer { IfSome result (λ o. length due.new.objects < length due.old.objects) }
    ensures live { IfSome result (λ o. live_in live.now.objects o ≡ true) }
{
    while let Some(o) = due.next() {
        if is_to_beat(live, due.moment(), o) {
            return Some(o);
        }
    }
    None
}

/// The next beat of an object is at a moment, in seconds.
fn set_beat(live: &mut Live, o: ObjId, at: u64)
    requires closed { IsClosed live.old }
    ensures set { HasBeatAt o at live.old live.new }
    ensures closed { IsClosed live.new }
{
    live.timers.next_beat(o, at);
}

/// The heart of an object beats no longer.
fn end_beat(live: &mut Live, o: ObjId) -> Result<(), AllocError>
    requires closed { IsClosed live.old }
    ensures ends { OnOk result (HasNoBeat o live.old live.new) }
    ensures closed { IsClosed live.new }
{
    live.timers.beat(o, false, 0)?;
    Ok(())
}

/// `this_player()` of a beat: its object, where that is living.
fn player_of(live: &Live, o: ObjId) -> Option<ObjId>
    requires live { live_in live.now.objects o ≡ true }
    ensures { IsPlayerIn live.now o result }
{
    if is_living(&live.objects, o) {
        return Some(o);
    }
    None
}

/// The heart of a live object beats, with its next beat two seconds later.
fn beat(live: &mut Live, o: ObjId, due: DueObjects) -> Result<Step, AllocError>
    requires closed { IsClosed live.old }
    requires live { live_in live.old.objects o ≡ true }
    ensures begins { IfOk result (λ r. BeginsWith (beating o due) live.old live.new r) }
    ensures fewer { IfOk result (λ r. AsksFewer r (1 + length due.objects)) }
    ensures there { IfOk result (λ r. (cells : Store) → AreStepValuesThere cells r) }
    ensures closed { IsClosed live.new }
{
    let name = Text::from_str(live.alloc, "heart_beat")?;
    let player = player_of(live, o);
    set_beat(live, o, due.moment() + 2);
    Ok(Step::Asks(
        Call {
            asked: Asked::Apply(o, name),
            player,
            interactive: None,
            arguments: Vec::new(live.alloc),
        },
        Waiting::Tick(TickWaiting::Beat(o, player, due)),
    ))
}

/// The heart beats of a tick go on: the next heart that is to beat still beats.
pub(crate) fn beat_next(live: &mut Live, mut due: DueObjects) -> Result<Step, AllocError>
    requires closed { IsClosed live.old }
    ensures goes { IfOk result (λ r. Goes r (Going.Tick (TickGoing.Beats due)) live.old live.new) }
    ensures fewer { IfOk result (λ r. AsksFewer r (length due.objects)) }
    ensures there { IfOk result (λ r. (cells : Store) → AreStepValuesThere cells r) }
    ensures closed { IsClosed live.new }
{
    match next_heart(live, &mut due) {
        Some(o) => beat(live, o, due),
        None => Ok(Step::Ends),
    }
}

/// They go on behind a beat with an uncaught end: that heart beats no longer.
fn beat_without(live: &mut Live, o: ObjId, due: DueObjects) -> Result<Step, AllocError>
    requires closed { IsClosed live.old }
    ensures goes { IfOk result (λ r. Goes r (Going.Tick (TickGoing.Beaten o true due)) live.old live.new) }
    ensures fewer { IfOk result (λ r. AsksFewer r (length due.objects)) }
    ensures there { IfOk result (λ r. (cells : Store) → AreStepValuesThere cells r) }
    ensures closed { IsClosed live.new }
{
    end_beat(live, o)?;
    beat_next(live, due)
}

/// They go on behind a beat: after an uncaught end that heart beats no longer.
pub(crate) fn beat_after(
    live: &mut Live,
    o: ObjId,
    is_uncaught: bool,
    due: DueObjects,
) -> Result<Step, AllocError>
    requires closed { IsClosed live.old }
    ensures goes { IfOk result (λ r. Goes r (Going.Tick (TickGoing.Beaten o is_uncaught due)) live.old live.new) }
    ensures fewer { IfOk result (λ r. AsksFewer r (length due.objects)) }
    ensures there { IfOk result (λ r. (cells : Store) → AreStepValuesThere cells r) }
    ensures closed { IsClosed live.new }
{
    if is_uncaught {
        return beat_without(live, o, due);
    }
    beat_next(live, due)
}
