//! The resets and the clean-ups of a tick, one after another.
ghost use Rattle.std.specs.Prelude.{◌≡◌, ◌+◌, ◌∷◌, ◌<◌, [], IfOk, IfSome, OnOk, length, pos, true, if◌then◌else◌};
ghost use Rattle.lp_cells.specs.Cells.{IsThere, Store};
ghost use Rattle.lp_timers.specs.Timers.{is_watched};
ghost use Rattle.lp_timers.specs.Timing.{watch_kind};
ghost use Rattle.lp_turn.specs.Going.{AreStepValuesThere, BeginsWith, Goes};
ghost use Rattle.lp_turn.specs.Left.{AsksFewer};
ghost use Rattle.lp_turn.specs.TickSteps.{HasNoWatch, HasWatchAt, IsArgumentIn, IsCloneIn, cleaning_up, cleaning_up_without, first_such, resetting, watched_still, with_others};
ghost use Rattle.lp_values.specs.declared.value.Value.{Value as V};
ghost use Rattle.lp_world.specs.Closed.{IsClosed};
ghost use Rattle.lp_world.specs.Rows.{live_in};

use crate::job::{Asked, Call, Going, Step, Waiting};
use crate::simul::is_clone_name;
use crate::start_master::one;
use crate::tick_job::{DueObjects, TickGoing, TickWaiting};
use lp_timers::kind::Watch;
use lp_values::id::ObjId;
use lp_values::text::{Text, code_points};
use lp_values::value::{Living, Value, is_zero};
use lp_world::live::Live;
use std::alloc::AllocError;

// Which object is next

/// Whether an object is to be called still for what it is watched for.
fn is_to_be_called(live: &Live, kind: Watch, o: ObjId) -> bool
    ensures { result ≡ watched_still live.now (watch_kind kind) o }
{
    live.objects.is_live(o) && live.timers.is_watched(o, kind)
}

/// The first of some objects that is to be called still. Those behind it are left.
fn next_watched(live: &Live, kind: Watch, due: &mut DueObjects) -> Option<ObjId>
    ensures first { with_others result due.new.objects ≡ first_such (watched_still live.now (watch_kind kind)) due.old.objects }
    ensures moment { due.new.moment ≡ due.old.moment }
    ensures fewer { IfSome result (λ o. length due.new.objects < length due.old.objects) }
    ensures live { IfSome result (λ o. live_in live.now.objects o ≡ true) }
    ensures watched { IfSome result (λ o. is_watched live.now.timers.watches (watch_kind kind) o ≡ true) }
{
    while let Some(o) = due.next() {
        if is_to_be_called(live, kind, o) {
            return Some(o);
        }
    }
    None
}

/// The next moment of a watch, in seconds.
fn set_watch(live: &mut Live, kind: Watch, o: ObjId, at: u64) -> Result<(), AllocError>
    requires closed { IsClosed live.old }
    requires watched { is_watched live.old.timers.watches (watch_kind kind) o ≡ true }
    ensures set { OnOk result (HasWatchAt (watch_kind kind) o at live.old live.new) }
    ensures closed { IsClosed live.new }
{
    live.timers.watch(o, kind, at)?;
    Ok(())
}

// Resets

/// A live object is reset, with its next reset 1800 seconds later.
fn reset(live: &mut Live, o: ObjId, due: DueObjects) -> Result<Step, AllocError>
    requires closed { IsClosed live.old }
    requires live { live_in live.old.objects o ≡ true }
    requires watched { is_watched live.old.timers.watches (watch_kind Watch.Reset) o ≡ true }
    ensures begins { IfOk result (λ r. BeginsWith (resetting o due) live.old live.new r) }
    ensures fewer { IfOk result (λ r. AsksFewer r (1 + length due.objects)) }
    ensures there { IfOk result (λ r. (cells : Store) → AreStepValuesThere cells r) }
    ensures closed { IsClosed live.new }
{
    let name = Text::from_str(live.alloc, "reset")?;
    set_watch(live, Watch::Reset, o, due.moment() + 1800)?;
    Ok(Step::Asks(
        Call {
            asked: Asked::Apply(o, name),
            player: None,
            interactive: None,
            arguments: Vec::new(live.alloc),
        },
        Waiting::Tick(TickWaiting::Reset(due)),
    ))
}

/// The resets of a tick go on: the next object that is to be reset still is.
pub(crate) fn reset_next(live: &mut Live, mut due: DueObjects) -> Result<Step, AllocError>
    requires closed { IsClosed live.old }
    ensures goes { IfOk result (λ r. Goes r (Going.Tick (TickGoing.Resets due)) live.old live.new) }
    ensures fewer { IfOk result (λ r. AsksFewer r (length due.objects)) }
    ensures there { IfOk result (λ r. (cells : Store) → AreStepValuesThere cells r) }
    ensures closed { IsClosed live.new }
{
    match next_watched(live, Watch::Reset, &mut due) {
        Some(o) => reset(live, o, due),
        None => Ok(Step::Ends),
    }
}

// Clean-ups

/// Whether a live object is a clone, by its name.
fn is_clone(live: &Live, o: ObjId) -> Result<bool, AllocError>
    requires live { live_in live.now.objects o ≡ true }
    ensures { IfOk result (λ b. IsCloneIn live.now o b) }
{
    match live.names.name(o) {
        Some(name) => {
            let points = code_points(live.alloc, name)?;
            Ok(is_clone_name(points.as_slice()))
        }
        None => Ok(false),
    }
}

/// What `clean_up` is called with: 0 in a clone, 1 in a blueprint.
fn argument_of(is_clone: bool) -> Value
    ensures value { result ≡ (if is_clone then V.Int (pos 0) else V.Int (pos 1)) }
    ensures there { (cells : Store) → IsThere cells result }
{
    if is_clone {
        return Value::Int(0);
    }
    Value::Int(1)
}

/// What `clean_up` of a live object is called with.
fn argument_for(live: &Live, o: ObjId) -> Result<Value, AllocError>
    requires live { live_in live.now.objects o ≡ true }
    ensures value { IfOk result (λ v. IsArgumentIn live.now o v) }
    ensures there { IfOk result (λ v. (cells : Store) → IsThere cells v) }
{
    let is_clone = is_clone(live, o)?;
    Ok(argument_of(is_clone))
}

/// A live object is asked whether it cleans up, the next time 3600 seconds later.
fn clean_up(live: &mut Live, o: ObjId, due: DueObjects) -> Result<Step, AllocError>
    requires closed { IsClosed live.old }
    requires live { live_in live.old.objects o ≡ true }
    requires watched { is_watched live.old.timers.watches (watch_kind Watch.CleanUp) o ≡ true }
    ensures begins { IfOk result (λ r. BeginsWith (cleaning_up o due) live.old live.new r) }
    ensures fewer { IfOk result (λ r. AsksFewer r (1 + length due.objects)) }
    ensures there { IfOk result (λ r. (cells : Store) → AreStepValuesThere cells r) }
    ensures closed { IsClosed live.new }
{
    let name = Text::from_str(live.alloc, "clean_up")?;
    let argument = argument_for(live, o)?;
    let arguments = one(live.alloc, argument)?;
    set_watch(live, Watch::CleanUp, o, due.moment() + 3600)?;
    Ok(Step::Asks(
        Call {
            asked: Asked::Apply(o, name),
            player: None,
            interactive: None,
            arguments,
        },
        Waiting::Tick(TickWaiting::CleanUp(o, due)),
    ))
}

/// The clean-ups of a tick go on: the next object that is to be asked still is.
pub(crate) fn clean_up_next(live: &mut Live, mut due: DueObjects) -> Result<Step, AllocError>
    requires closed { IsClosed live.old }
    ensures goes { IfOk result (λ r. Goes r (Going.Tick (TickGoing.CleanUps due)) live.old live.new) }
    ensures fewer { IfOk result (λ r. AsksFewer r (length due.objects)) }
    ensures there { IfOk result (λ r. (cells : Store) → AreStepValuesThere cells r) }
    ensures closed { IsClosed live.new }
{
    match next_watched(live, Watch::CleanUp, &mut due) {
        Some(o) => clean_up(live, o, due),
        None => Ok(Step::Ends),
    }
}

/// An object is not asked again.
fn end_watch(live: &mut Live, o: ObjId)
    requires closed { IsClosed live.old }
    ensures ends { HasNoWatch (watch_kind Watch.CleanUp) o live.old live.new }
    ensures closed { IsClosed live.new }
{
    live.timers.unwatch(o, Watch::CleanUp);
}

/// They go on behind an answer 0: that object is not asked again.
fn clean_up_without(live: &mut Live, o: ObjId, due: DueObjects) -> Result<Step, AllocError>
    requires closed { IsClosed live.old }
    ensures begins { IfOk result (λ r. BeginsWith (cleaning_up_without o due) live.old live.new r) }
    ensures fewer { IfOk result (λ r. AsksFewer r (length due.objects)) }
    ensures there { IfOk result (λ r. (cells : Store) → AreStepValuesThere cells r) }
    ensures closed { IsClosed live.new }
{
    end_watch(live, o);
    clean_up_next(live, due)
}

/// They go on behind an answer: after 0 that object is not asked again.
pub(crate) fn clean_up_after(
    live: &mut Live,
    o: ObjId,
    v: &Value,
    due: DueObjects,
) -> Result<Step, AllocError>
    requires closed { IsClosed live.old }
    ensures goes { IfOk result (λ r. Goes r (Going.Tick (TickGoing.CleanedUp o v.now due)) live.old live.new) }
    ensures fewer { IfOk result (λ r. AsksFewer r (length due.objects)) }
    ensures there { IfOk result (λ r. (cells : Store) → AreStepValuesThere cells r) }
    ensures closed { IsClosed live.new }
{
    if is_zero(v, &live.objects) {
        return clean_up_without(live, o, due);
    }
    clean_up_next(live, due)
}
