//! What turns do next.
ghost use Rattle.std.specs.Prelude.{IfOk};
ghost use Rattle.lp_turn.specs.Going.{AreStepValuesThere, Goes};
ghost use Rattle.lp_turn.specs.Left.{AsksFewer, calls_left};
ghost use Rattle.lp_world.specs.Closed.{IsClosed};

use crate::connecting::{admit, logged};
use crate::job::{Going, Step};
use crate::master::{call_loaded, call_master};
use crate::tick_next::tick_on;
use lp_world::live::Live;
use std::alloc::AllocError;

/// A turn goes on: it tells which call it asks for, or that it is over.
///
/// # Errors
/// Where memory runs out, and where a call-out waits for an object that the state does not have; the state is closed then.
pub fn next(going: Going, live: &mut Live) -> Result<Step, AllocError>
    requires closed { IsClosed live.old }
    ensures goes { IfOk result (λ r. Goes r going live.old live.new) }
    ensures fewer { IfOk result (λ r. AsksFewer r (calls_left going)) }
    ensures there { IfOk result (λ r. AreStepValuesThere live.new.cells r) }
    ensures closed { IsClosed live.new }
{
    match going {
        Going::Master(f) => call_master(live, f),
        Going::Loaded(f) => call_loaded(live, f),
        Going::Admit(number, v) => admit(live, number, &v),
        Going::Logged(number, v) => logged(live, number, &v),
        Going::Tick(going) => tick_on(live, going),
        Going::Done => Ok(Step::Ends),
    }
}
