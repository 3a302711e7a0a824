//! What the steps of a tick do next.
ghost use Rattle.std.specs.Prelude.{IfOk};
ghost use Rattle.lp_turn.specs.Going.{AreStepValuesThere, Goes};
ghost use Rattle.lp_turn.specs.Left.{AsksFewer};
ghost use Rattle.lp_turn.specs.Ticks.{tick_calls_left};
ghost use Rattle.lp_world.specs.Closed.{IsClosed};

use crate::call_outs::call_next;
use crate::heart_beats::{beat_after, beat_next};
use crate::job::{Going, Step};
use crate::tick_job::TickGoing;
use crate::watches::{clean_up_after, clean_up_next, reset_next};
use lp_world::live::Live;
use std::alloc::AllocError;

/// A step of a tick goes on: it tells which call it asks for, or that it is over.
pub(crate) fn tick_on(live: &mut Live, going: TickGoing) -> Result<Step, AllocError>
    requires closed { IsClosed live.old }
    ensures goes { IfOk result (λ r. Goes r (Going.Tick going) live.old live.new) }
    ensures fewer { IfOk result (λ r. AsksFewer r (tick_calls_left going)) }
    ensures there { IfOk result (λ r. AreStepValuesThere live.new.cells r) }
    ensures closed { IsClosed live.new }
{
    match going {
        TickGoing::CallOuts(numbers) => call_next(live, numbers),
        TickGoing::Beats(due) => beat_next(live, due),
        TickGoing::Beaten(o, is_uncaught, due) => beat_after(live, o, is_uncaught, due),
        TickGoing::Resets(due) => reset_next(live, due),
        TickGoing::CleanUps(due) => clean_up_next(live, due),
        TickGoing::CleanedUp(o, v, due) => clean_up_after(live, o, &v, due),
    }
}
