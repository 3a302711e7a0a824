//! The steps of a tick begin. Each is a turn of its own, and they follow one another in this order: the call-outs, the heart beats,
//! the resets, the clean-ups. Each goes by what is due when it begins.
ghost use Rattle.std.specs.Prelude.{◌≡◌, ◌^◌, ◌≤◌, IfOk};
ghost use Rattle.lp_lasting_laws.specs.Numbers.{calls_due};
ghost use Rattle.lp_turn.specs.Going.{BeginsAs};
ghost use Rattle.lp_turn.specs.Ticks.{beats_due, clean_ups_due, resets_due};
ghost use Rattle.lp_turn.specs.TickSteps.{AreCallOutsNumbered};
ghost use Rattle.lp_world.specs.Closed.{IsClosed};

use crate::job::Going;
use crate::tick_job::{DueObjects, Numbers, TickGoing};
use lp_timers::kind::Watch;
use lp_values::id::ObjId;
use lp_world::live::Live;
use std::alloc::AllocError;

/// The clock stands at a moment, in seconds.
fn set_clock(live: &mut Live, moment: u64)
    requires moment { moment ≤ 10 ^ 12 }
    requires closed { IsClosed live.old }
    ensures set { live.new ≡ record live.old { clock = moment } }
    ensures closed { IsClosed live.new }
{
    live.clock = moment;
}

/// Objects in their order, the first of which comes next.
fn due_objects(moment: u64, mut objects: Vec<ObjId>) -> DueObjects
    requires moment { moment ≤ 10 ^ 12 }
    ensures { result ≡ record { moment = moment; objects = objects.items } }
{
    objects.reverse();
    DueObjects::from_last(moment, objects)
}

/// Numbers in their order, the first of which comes next.
fn numbers(mut numbers: Vec<u64>) -> Numbers
    ensures { result ≡ numbers.items }
{
    numbers.reverse();
    Numbers::from_last(numbers)
}

/// A tick begins: the clock is set, and the call-outs that are due at the moment are called, by their moments and then in order of
/// making; each is taken out by its number when its turn comes, if it waits still. `moment` is in seconds. Costs how many call-outs
/// are due, and a logarithm of how many wait.
///
/// # Errors
/// Where memory runs out; the state is closed then.
pub fn tick(live: &mut Live, moment: u64) -> Result<Going, AllocError>
    requires moment { moment ≤ 10 ^ 12 }
    requires closed { IsClosed live.old }
    ensures begins { IfOk result (λ g. BeginsAs (calls_due moment) live.old live.new g) }
    ensures numbered { AreCallOutsNumbered live.old }
    ensures closed { IsClosed live.new }
{
    let due = live.timers.due(moment)?;
    set_clock(live, moment);
    Ok(Going::Tick(TickGoing::CallOuts(numbers(due))))
}

/// The heart beats of a tick begin: the hearts of the objects beat that are due at the moment, in order of switching on. `moment` is
/// in seconds. Costs how much is due, and a logarithm of how much is to come.
///
/// # Errors
/// Where memory runs out.
pub fn beats(live: &Live, moment: u64) -> Result<Going, AllocError>
    requires moment { moment ≤ 10 ^ 12 }
    ensures begins { IfOk result (λ g. BeginsAs (beats_due moment) live.now live.now g) }
{
    let due = live.timers.beats(moment)?;
    Ok(Going::Tick(TickGoing::Beats(due_objects(moment, due))))
}

/// The resets of a tick begin: `reset` is called in the objects whose moment has come, by age. `moment` is in seconds. Costs how
/// much is due, and a logarithm of how much is to come.
///
/// # Errors
/// Where memory runs out.
pub fn resets(live: &Live, moment: u64) -> Result<Going, AllocError>
    requires moment { moment ≤ 10 ^ 12 }
    ensures begins { IfOk result (λ g. BeginsAs (resets_due moment) live.now live.now g) }
{
    let due = live.timers.watched(Watch::Reset, moment)?;
    Ok(Going::Tick(TickGoing::Resets(due_objects(moment, due))))
}

/// The clean-ups of a tick begin: `clean_up` is called in the objects whose moment has come, by age. `moment` is in seconds. Costs
/// how much is due, and a logarithm of how much is to come.
///
/// # Errors
/// Where memory runs out.
pub fn clean_ups(live: &Live, moment: u64) -> Result<Going, AllocError>
    requires moment { moment ≤ 10 ^ 12 }
    ensures begins { IfOk result (λ g. BeginsAs (clean_ups_due moment) live.now live.now g) }
{
    let due = live.timers.watched(Watch::CleanUp, moment)?;
    Ok(Going::Tick(TickGoing::CleanUps(due_objects(moment, due))))
}
