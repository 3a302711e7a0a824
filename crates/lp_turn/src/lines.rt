//! Lines of connections.
ghost use Rattle.std.specs.Prelude.{◌≡◌, ◌∷◌, All, IfOk, OnOk, Some, find, nat_eq};
ghost use Rattle.lp_cells.specs.Cells.{IsThere};
ghost use Rattle.lp_meaning.specs.EventTurns.{line_of, line_taken, line_text};
ghost use Rattle.lp_turn.specs.Connections.{HasTakenLine};
ghost use Rattle.lp_turn.specs.Going.{AreStepValuesThere, BeginsWith};
ghost use Rattle.lp_turn.specs.Lines.{IsShown, commanding};
ghost use Rattle.lp_values.specs.declared.value.Value.{Value as V};
ghost use Rattle.lp_world.specs.Closed.{IsClosed};
ghost use Rattle.lp_world.specs.Stands.{waiting_of};

use crate::job::{Asked, Call, Step, Waiting};
use crate::outputs::tell;
use lp_cells::content::Items;
use lp_events::out::Out;
use lp_line_text::text_of_line;
use lp_values::id::ObjId;
use lp_values::text::Text;
use lp_values::value::{Living, Value};
use lp_world::connections::{Connections, Waiting as Taker};
use lp_world::live::Live;
use std::alloc::{AllocError, Global};

/// The same values.
fn copies(alloc: Global, values: &[Value]) -> Result<Vec<Value>, AllocError>
    ensures { IfOk result (λ v. v.items ≡ values.now) }
{
    let mut all = Vec::with_capacity(alloc, values.len())?;
    for v in values {
        all.push(v.copy()?)?;
    }
    Ok(all)
}

/// The same that waits.
fn copy(alloc: Global, x: &Taker) -> Result<Taker, AllocError>
    ensures { IfOk result (λ y. y ≡ x.now) }
{
    Ok(Taker {
        connection: x.connection,
        object: x.object,
        function: x.function.copy()?,
        hides: x.hides,
        arguments: Items::from_vec(copies(alloc, x.arguments.as_slice())?),
    })
}

/// What waits for the next line of a connection.
fn taker(alloc: Global, connections: &Connections, number: u32) -> Result<Option<Taker>, AllocError>
    ensures { IfOk result (λ x. x ≡ find (λ x. nat_eq x.connection number) connections.now.waiting) }
{
    match connections.waiting_for(number) {
        Some(x) => Ok(Some(copy(alloc, x)?)),
        None => Ok(None),
    }
}

/// The input of a connection is shown again, where it was hidden.
fn show(live: &mut Live, number: u32, hides: bool) -> Result<(), AllocError>
    requires closed { IsClosed live.old }
    ensures shown { OnOk result (IsShown number hides live.old live.new) }
    ensures closed { IsClosed live.new }
{
    if hides {
        return tell(live, Out::Show(number));
    }
    Ok(())
}

/// Nothing waits for a line any more.
fn take_line(live: &mut Live, number: u32)
    requires closed { IsClosed live.old }
    ensures takes { HasTakenLine number live.old live.new }
    ensures closed { IsClosed live.new }
{
    live.connections.take_line(number);
}

/// The call of a function that waited, with the line and what was kept for it.
fn call_of(o: ObjId, x: Taker, text: Text) -> Result<Call, AllocError>
    ensures { IfOk result (λ c. c ≡ record { asked = Asked.Apply x.object x.function; player = Some o; interactive = Some o; arguments = c.arguments } × (c.arguments.items ≡ V.Str text ∷ x.arguments)) }
{
    let mut arguments = x.arguments.into_vec();
    arguments.insert(0, Value::Str(text))?;
    Ok(Call {
        asked: Asked::Apply(x.object, x.function),
        player: Some(o),
        interactive: Some(o),
        arguments,
    })
}

/// A function that waited takes the line, or nothing does where its object is destructed.
fn take(live: &mut Live, number: u32, o: ObjId, x: Taker, text: Text) -> Result<Step, AllocError>
    requires closed { IsClosed live.old }
    requires there { All (IsThere live.old.cells) x.arguments }
    ensures begins { IfOk result (λ r. BeginsWith (line_taken number o (waiting_of x) text) live.old live.new r) }
    ensures there { IfOk result (λ r. AreStepValuesThere live.new.cells r) }
    ensures closed { IsClosed live.new }
{
    show(live, number, x.hides)?;
    take_line(live, number);
    if !live.objects.is_live(x.object) {
        return Ok(Step::Ends);
    }
    Ok(Step::Asks(call_of(o, x, text)?, Waiting::Line(o)))
}

/// The line is a command of the connection's object.
fn command(alloc: Global, o: ObjId, text: Text) -> Step
    ensures begins { (live : _) → BeginsWith (commanding o text) live live result }
    ensures there { (cells : _) → AreStepValuesThere cells result }
{
    Step::Asks(
        Call {
            asked: Asked::Command(o, text),
            player: Some(o),
            interactive: Some(o),
            arguments: Vec::new(alloc),
        },
        Waiting::Line(o),
    )
}

/// What waits for a line takes it, or it is a command of the connection's object.
pub(crate) fn line_of(
    live: &mut Live,
    number: u32,
    o: ObjId,
    bytes: &[u8],
) -> Result<Step, AllocError>
    requires closed { IsClosed live.old }
    ensures begins { IfOk result (λ r. BeginsWith (line_of number o (line_text bytes.now)) live.old live.new r) }
    ensures there { IfOk result (λ r. AreStepValuesThere live.new.cells r) }
    ensures closed { IsClosed live.new }
{
    let points = text_of_line(live.alloc, bytes)?;
    let text = Text::from_vec(live.alloc, points)?;
    match taker(live.alloc, &live.connections, number)? {
        Some(x) => take(live, number, o, x, text),
        None => Ok(command(live.alloc, o, text)),
    }
}
