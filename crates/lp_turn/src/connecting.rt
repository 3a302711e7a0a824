//! Connections come, get their objects, and are closed.
ghost use Rattle.std.specs.Prelude.{◌≡◌, IfOk, IfSome, None, OnOk, Some, length, nat_lt, true};
ghost use Rattle.lp_cells.specs.Cells.{Store};
ghost use Rattle.lp_meaning.specs.EventTurns.{admitted};
ghost use Rattle.lp_meaning.specs.Limits.{max_connections};
ghost use Rattle.lp_turn.specs.Connections.{HasClosed, HasGiven, HasNumbered, IsFreeObject, IsFreeOf, closed_then_done};
ghost use Rattle.lp_turn.specs.Going.{AreStepValuesThere, BeginsWith, Goes};
ghost use Rattle.lp_turn.specs.Left.{AsksFewer};
ghost use Rattle.lp_world.specs.Closed.{IsClosed};
ghost use Rattle.lp_world.specs.Rows.{live_in};

use crate::job::{Asked, Call, Going, Step, Waiting};
use crate::outputs::tell;
use lp_events::out::Out;
use lp_values::id::ObjId;
use lp_values::text::Text;
use lp_values::value::{Living, Value, is_zero};
use lp_world::connections::Connections;
use lp_world::live::Live;
use std::alloc::AllocError;

/// Whether one more connection may be open: fewer than 200 are.
pub(crate) fn has_place(connections: &Connections) -> bool
    ensures { result ≡ nat_lt (length connections.now.opened) max_connections }
{
    connections.opened().len() < 200
}

/// A number was connected: it is the highest so far, and is not gone.
pub(crate) fn note_number(live: &mut Live, number: u32) -> Result<(), AllocError>
    requires closed { IsClosed live.old }
    ensures numbered { OnOk result (HasNumbered number live.old live.new) }
    ensures closed { IsClosed live.new }
{
    live.connections.number(number)
}

/// An object gets a connection.
fn give(live: &mut Live, number: u32, o: ObjId) -> Result<(), AllocError>
    requires closed { IsClosed live.old }
    ensures given { OnOk result (HasGiven number o live.old live.new) }
    ensures closed { IsClosed live.new }
{
    live.connections.open(number, o)
}

/// A connection is open no longer.
pub(crate) fn close(live: &mut Live, number: u32)
    requires closed { IsClosed live.old }
    ensures closes { HasClosed number live.old live.new }
    ensures closed { IsClosed live.new }
{
    live.connections.close(number);
}

/// An object, where it is live and has no connection.
fn free(live: &Live, o: ObjId) -> Option<ObjId>
    ensures free { IsFreeOf live.now o result }
    ensures live { IfSome result (λ o. live_in live.now.objects o ≡ true) }
{
    if !live.objects.is_live(o) {
        return None;
    }
    if live.connections.of(o).is_some() {
        return None;
    }
    Some(o)
}

/// The object that an answer is, where it is live and has no connection.
fn free_object(live: &Live, v: &Value) -> Option<ObjId>
    ensures free { IsFreeObject live.now v.now result }
    ensures live { IfSome result (λ o. live_in live.now.objects o ≡ true) }
{
    match v {
        Value::Obj(o) => free(live, *o),
        _ => None,
    }
}

/// An object gets a connection, and `logon` is called in it.
fn log_on(live: &mut Live, number: u32, o: ObjId) -> Result<Step, AllocError>
    requires closed { IsClosed live.old }
    requires live { live_in live.old.objects o ≡ true }
    ensures begins { IfOk result (λ r. BeginsWith (admitted number (Some o)) live.old live.new r) }
    ensures fewer { IfOk result (λ r. AsksFewer r 1) }
    ensures there { IfOk result (λ r. (cells : Store) → AreStepValuesThere cells r) }
    ensures closed { IsClosed live.new }
{
    let name = Text::from_str(live.alloc, "logon")?;
    give(live, number, o)?;
    Ok(Step::Asks(
        Call {
            asked: Asked::Apply(o, name),
            player: Some(o),
            interactive: Some(o),
            arguments: Vec::new(live.alloc),
        },
        Waiting::Logon(number, o),
    ))
}

/// A connection is closed that no object got.
fn refuse(live: &mut Live, number: u32) -> Result<Step, AllocError>
    requires closed { IsClosed live.old }
    ensures begins { IfOk result (λ r. BeginsWith (admitted number None) live.old live.new r) }
    ensures fewer { IfOk result (λ r. AsksFewer r 1) }
    ensures there { IfOk result (λ r. (cells : Store) → AreStepValuesThere cells r) }
    ensures closed { IsClosed live.new }
{
    tell(live, Out::Close(number))?;
    Ok(Step::Ends)
}

/// The object that `connect` answered gets the connection, and `logon` is called in it; without one the connection is closed.
pub(crate) fn admit(live: &mut Live, number: u32, v: &Value) -> Result<Step, AllocError>
    requires closed { IsClosed live.old }
    ensures goes { IfOk result (λ r. Goes r (Going.Admit number v.now) live.old live.new) }
    ensures fewer { IfOk result (λ r. AsksFewer r 1) }
    ensures there { IfOk result (λ r. (cells : Store) → AreStepValuesThere cells r) }
    ensures closed { IsClosed live.new }
{
    match free_object(live, v) {
        Some(o) => log_on(live, number, o),
        None => refuse(live, number),
    }
}

/// A connection is closed by the driver, and the turn ends.
fn close_and_end(live: &mut Live, number: u32) -> Result<Step, AllocError>
    requires closed { IsClosed live.old }
    ensures begins { IfOk result (λ r. BeginsWith (closed_then_done number) live.old live.new r) }
    ensures fewer { IfOk result (λ r. AsksFewer r 0) }
    ensures there { IfOk result (λ r. (cells : Store) → AreStepValuesThere cells r) }
    ensures closed { IsClosed live.new }
{
    tell(live, Out::Close(number))?;
    close(live, number);
    Ok(Step::Ends)
}

/// `logon` has answered: where it answered 0 and the connection is still open, that is closed.
pub(crate) fn logged(live: &mut Live, number: u32, v: &Value) -> Result<Step, AllocError>
    requires closed { IsClosed live.old }
    ensures goes { IfOk result (λ r. Goes r (Going.Logged number v.now) live.old live.new) }
    ensures fewer { IfOk result (λ r. AsksFewer r 0) }
    ensures there { IfOk result (λ r. (cells : Store) → AreStepValuesThere cells r) }
    ensures closed { IsClosed live.new }
{
    if !is_zero(v, &live.objects) {
        return Ok(Step::Ends);
    }
    match live.connections.holder(number) {
        Some(_) => close_and_end(live, number),
        None => Ok(Step::Ends),
    }
}
