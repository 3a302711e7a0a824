//! Turns begin.
ghost use Rattle.std.specs.Prelude.{◌≡◌, IfOk};
ghost use Rattle.lp_meaning.specs.EventTurns.{connect_turn, gone_turn, line_turn};
ghost use Rattle.lp_turn.specs.Connections.{HasForgotten};
ghost use Rattle.lp_turn.specs.Going.{AreStepValuesThere, BeginsAs, BeginsWith};
ghost use Rattle.lp_world.specs.Closed.{IsClosed};

use crate::connecting::{close, has_place, note_number};
use crate::job::{Going, MasterFunction, Step};
use crate::lines::line_of;
use crate::outputs::tell;
use lp_events::out::Out;
use lp_world::live::Live;
use std::alloc::AllocError;

/// A number is connected: where 200 connections are open it is closed, and else the master's `connect` answers its object.
///
/// # Errors
/// Where memory runs out; the state is closed then.
pub fn connect(live: &mut Live, number: u32) -> Result<Going, AllocError>
    requires closed { IsClosed live.old }
    ensures begins { IfOk result (λ g. BeginsAs (connect_turn number) live.old live.new g) }
    ensures closed { IsClosed live.new }
{
    let has_place = has_place(&live.connections);
    note_number(live, number)?;
    if has_place {
        return Ok(Going::Master(MasterFunction::Connect(number)));
    }
    tell(live, Out::Close(number))?;
    Ok(Going::Done)
}

/// A number is gone. Its connection, if it is open, stays so.
fn forget(live: &mut Live, number: u32)
    requires closed { IsClosed live.old }
    ensures forgets { HasForgotten number live.old live.new }
    ensures closed { IsClosed live.new }
{
    live.connections.forget(number);
}

/// A connection is lost: its object, where it has one still, loses it, and the master's `disconnect` is called. Where the driver
/// closed it, nothing more is done. Takes no memory.
pub fn gone(live: &mut Live, number: u32) -> Going
    requires closed { IsClosed live.old }
    ensures begins { BeginsAs (gone_turn number) live.old live.new result }
    ensures closed { IsClosed live.new }
{
    forget(live, number);
    match live.connections.holder(number) {
        Some(o) => {
            close(live, number);
            Going::Master(MasterFunction::Disconnect(o))
        }
        None => Going::Done,
    }
}

/// A line came from a connection: what waits for it takes it, or it is a command of the connection's object. Where the driver
/// closed the connection, nothing is done. Takes time in proportion to the line and what was kept for it.
///
/// # Errors
/// Where memory runs out; the state is closed then.
pub fn line(live: &mut Live, number: u32, bytes: &[u8]) -> Result<Step, AllocError>
    requires closed { IsClosed live.old }
    ensures begins { IfOk result (λ r. BeginsWith (line_turn number bytes.now) live.old live.new r) }
    ensures there { IfOk result (λ r. AreStepValuesThere live.new.cells r) }
    ensures closed { IsClosed live.new }
{
    match live.connections.holder(number) {
        Some(o) => line_of(live, number, o, bytes),
        None => Ok(Step::Ends),
    }
}
