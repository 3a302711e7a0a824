//! `tell_room` and `say`: objects are given a text, one after another.
ghost use Rattle.std.specs.Prelude.{◌≡◌, ◌-◌, ◌<◌, ◌≤◌, IfOk, IfSome, List, OnOk, Option, Some, None, drop, length, map, true};
ghost use Rattle.lp_cells.specs.Cells.{Store};
ghost use Rattle.lp_ops.specs.Operands.{operand};
ghost use Rattle.lp_meaning.specs.EfunArguments.{object_arg, text_arg};
ghost use Rattle.lp_places.specs.Places.{is_at};
ghost use Rattle.lp_world.specs.Closed.{IsClosed};
ghost use Rattle.lp_world.specs.Rows.{live_in};
ghost use Rattle.lp_world.specs.declared.live.Live.{Live as L};
ghost use Rattle.lp_world.specs.declared.objects.Object.{Object};
ghost use Rattle.lp_efuns.specs.declared.caller.Turn.{Turn as T};
ghost use Rattle.lp_step.specs.Steps.{IsFit};
ghost use Rattle.lp_calling.specs.Audiences.{Hears, IsAudienceIn, IsHeard, Speaks, told_by};
ghost use Rattle.lp_calling.specs.Beginning.{IsBegunReady, IsBegunThere, Starts};
ghost use Rattle.lp_calling.specs.Entering.{Advances, IsAudiencePoised, IsPoised, IsTold};
ghost use Rattle.lp_calling.specs.Going.{IsAskedThere, IsStepThere, StageGoes, StageTakes};
ghost use Rattle.lp_calling.specs.Jobs.{IsStageOn, IsStageReady, stage_left, unknown_many};

use crate::job::{Audience, Begun, CallingFault, Job, Stage, Step};
use crate::laying::above;
use crate::messages::{ask_tell, put_out, reader};
use lp_efuns::arguments::text_shared;
use lp_efuns::caller::{Caller, Turn};
use lp_efuns::objects::is_living;
use lp_efuns::subjects::object_at;
use lp_events::out::Out;
use lp_instr::efun::Efun;
use lp_values::id::ObjId;
use lp_values::text::Text;
use lp_values::value::{Living, Value};
use lp_world::live::Live;
use std::alloc::AllocError;

// Beginning

/// All who lie in an object, but one, to be told a text.
fn audience_in(
    live: &Live,
    place: ObjId,
    but: Option<ObjId>,
    text: Text,
) -> Result<Audience, AllocError>
    ensures { IfOk result (λ a. IsAudienceIn a live.now place but text) }
{
    let listeners = live.places.inventory(place).to_vec(live.alloc)?;
    Ok(Audience {
        text,
        but,
        listeners,
        done: 0,
    })
}

/// `tell_room` of a live object goes on as a job.
fn begin_in(
    live: &Live,
    stack: &Vec<Value>,
    low: usize,
    place: ObjId,
) -> Result<Begun, CallingFault>
    requires low { low ≤ length stack.now.items }
    requires place { (cells : Store) → Some place ≡ object_arg (map (operand (live_in live.now.objects) cells) (drop low stack.now.items)) 0 }
    ensures starts { IfOk result (λ r. (caller : _) → Starts r Efun.TellRoom caller live.now low stack.now.items stack.now.items) }
    ensures there { IfOk result (λ r. (cells : Store) → IsBegunThere cells r) }
    ensures ready { IfOk result (λ r. (objects : List (Option Object)) → IsBegunReady objects r) }
{
    let text = text_shared(live.alloc, above(stack, low), 1)?;
    let audience = audience_in(live, place, None, text)?;
    Ok(Begun::Runs(Job {
        efun: Efun::TellRoom,
        low,
        stage: Stage::TellEach(audience),
    }))
}

/// `tell_room` goes on as a job.
pub(crate) fn begin_room(live: &Live, stack: &Vec<Value>, low: usize) -> Result<Begun, CallingFault>
    requires low { low ≤ length stack.now.items }
    ensures starts { IfOk result (λ r. (caller : _) → Starts r Efun.TellRoom caller live.now low stack.now.items stack.now.items) }
    ensures there { IfOk result (λ r. (cells : Store) → IsBegunThere cells r) }
    ensures ready { IfOk result (λ r. (objects : List (Option Object)) → IsBegunReady objects r) }
{
    match object_at(above(stack, low), 0, &live.objects) {
        Some(place) => begin_in(live, stack, low, place),
        None => Ok(Begun::Runs(Job {
            efun: Efun::TellRoom,
            low,
            stage: Stage::Zero,
        })),
    }
}

/// `say` goes on as a job.
pub(crate) fn begin_say(
    live: &Live,
    caller: &Caller<'_>,
    stack: &Vec<Value>,
    low: usize,
) -> Result<Begun, CallingFault>
    requires low { low ≤ length stack.now.items }
    ensures starts { IfOk result (λ r. Starts r Efun.Say caller.now live.now low stack.now.items stack.now.items) }
    ensures there { IfOk result (λ r. (cells : Store) → IsBegunThere cells r) }
    ensures ready { IfOk result (λ r. (objects : List (Option Object)) → IsBegunReady objects r) }
{
    let text = text_shared(live.alloc, above(stack, low), 0)?;
    Ok(Begun::Runs(Job {
        efun: Efun::Say,
        low,
        stage: Stage::Say(caller.this, text),
    }))
}

// Who is told

/// Whether an object is the one that there may be.
pub(crate) fn is_at(place: Option<ObjId>, o: ObjId) -> bool
    ensures { result ≡ is_at place o }
{
    match place {
        Some(p) => p == o,
        None => false,
    }
}

/// Whether an object is told: it is live and living, and not the one that is left out.
fn is_told(live: &Live, but: Option<ObjId>, o: ObjId) -> bool
    ensures told { IsTold result live.now but o }
    ensures lives { result ≡ true → live_in live.now.objects o ≡ true }
{
    if !live.objects.is_live(o) {
        return false;
    }
    if is_at(but, o) {
        return false;
    }
    is_living(&live.objects, o)
}

/// An object with this connection is told.
fn tell_number(text: &Text, live: &mut Live, number: u32) -> Result<(), AllocError>
    requires closed { IsClosed live.old }
    ensures out { OnOk result (live.new ≡ told_by live.old number text.now) }
    ensures closed { IsClosed live.new }
    ensures same { live.new ≡ record live.old { outputs = live.new.outputs } }
{
    put_out(live, Out::Text(number, text.copy()?))
}

/// A listener is told by its connection: whether it has one. One without is to be asked.
fn tell_listener(audience: &Audience, live: &mut Live, o: ObjId) -> Result<bool, AllocError>
    requires closed { IsClosed live.old }
    requires told { IsTold true live.old audience.now.but o }
    requires lives { live_in live.old.objects o ≡ true }
    ensures hears { IfOk result (λ b. Hears b audience.now live.old live.new o) }
    ensures closed { IsClosed live.new }
    ensures same { live.new ≡ record live.old { outputs = live.new.outputs } }
{
    match live.connections.of(o) {
        Some(number) => {
            tell_number(&audience.text, live, number)?;
            Ok(true)
        }
        None => Ok(false),
    }
}

/// An object is told or passed: whether it is done. Else it is to be asked.
fn hear(audience: &Audience, live: &mut Live, o: ObjId) -> Result<bool, AllocError>
    requires closed { IsClosed live.old }
    ensures hears { IfOk result (λ b. Hears b audience.now live.old live.new o) }
    ensures closed { IsClosed live.new }
    ensures same { live.new ≡ record live.old { outputs = live.new.outputs } }
{
    if !is_told(live, audience.but, o) {
        return Ok(true);
    }
    tell_listener(audience, live, o)
}

/// How many objects are done, once all up to one that is to be asked are told or passed. Costs a look at each.
fn hear_all(audience: &Audience, live: &mut Live) -> Result<usize, AllocError>
    requires closed { IsClosed live.old }
    ensures heard { IfOk result (λ n. IsHeard audience.now live.old live.new n) }
    ensures closed { IsClosed live.new }
    ensures same { live.new ≡ record live.old { outputs = live.new.outputs } }
{
    let mut n = audience.done;
    while n < audience.listeners.len() {
        if !hear(audience, live, audience.listeners[n])? {
            return Ok(n);
        }
        n += 1;
    }
    Ok(n)
}

// Going on

/// Objects are told up to one that is to be asked, if there is one.
pub(crate) fn enter_audience(audience: Audience, live: &mut Live) -> Result<Stage, AllocError>
    requires closed { IsClosed live.old }
    ensures advances { IfOk result (λ t. (turn : T) → Advances (Stage.TellEach audience) live.old turn t live.new turn) }
    ensures poised { IfOk result (λ t. (turn : T) → IsPoised t live.new turn) }
    ensures on { IfOk result (λ t. (low n : _) → low ≤ n → IsStageOn t low n) }
    ensures ready { IfOk result (λ t. (objects : List (Option Object)) → IsStageReady objects t) }
    ensures left { IfOk result (λ t. stage_left t ≤ length audience.listeners.items - audience.done) }
    ensures few { IfOk result (λ t. stage_left t ≤ unknown_many) }
    ensures closed { IsClosed live.new }
    ensures same { live.new ≡ record live.old { outputs = live.new.outputs } }
{
    let n = hear_all(&audience, live)?;
    if n < audience.listeners.len() {
        return Ok(Stage::TellEach(Audience {
            text: audience.text,
            but: audience.but,
            listeners: audience.listeners,
            done: n,
        }));
    }
    Ok(Stage::Zero)
}

/// Who says something: `this_player()`, or this object where that is not live.
fn speaker(live: &Live, turn: &Turn, this: ObjId) -> ObjId
    ensures { Speaks result live.now turn.now this }
{
    match reader(turn.player, &live.objects) {
        Some(o) => o,
        None => this,
    }
}

/// Something is said by an object: to those in its environment, where it has one.
fn say_by(live: &mut Live, o: ObjId, text: Text) -> Result<Stage, AllocError>
    requires closed { IsClosed live.old }
    ensures says { IfOk result (λ t. (turn : T) (this : _) → Speaks o live.old turn this → Advances (Stage.Say this text) live.old turn t live.new turn) }
    ensures poised { IfOk result (λ t. (turn : T) → IsPoised t live.new turn) }
    ensures on { IfOk result (λ t. (low n : _) → low ≤ n → IsStageOn t low n) }
    ensures ready { IfOk result (λ t. (objects : List (Option Object)) → IsStageReady objects t) }
    ensures left { IfOk result (λ t. stage_left t ≤ unknown_many) }
    ensures closed { IsClosed live.new }
    ensures same { live.new ≡ record live.old { outputs = live.new.outputs } }
{
    match live.places.environment(o) {
        Some(place) => {
            let audience = audience_in(live, place, Some(o), text)?;
            enter_audience(audience, live)
        }
        None => Ok(Stage::Zero),
    }
}

/// Something is said by `this_player()`, or by this object.
pub(crate) fn enter_say(
    live: &mut Live,
    turn: &Turn,
    this: ObjId,
    text: Text,
) -> Result<Stage, AllocError>
    requires closed { IsClosed live.old }
    ensures advances { IfOk result (λ t. Advances (Stage.Say this text) live.old turn.now t live.new turn.now) }
    ensures poised { IfOk result (λ t. (turn : T) → IsPoised t live.new turn) }
    ensures on { IfOk result (λ t. (low n : _) → low ≤ n → IsStageOn t low n) }
    ensures ready { IfOk result (λ t. (objects : List (Option Object)) → IsStageReady objects t) }
    ensures left { IfOk result (λ t. stage_left t ≤ unknown_many) }
    ensures closed { IsClosed live.new }
    ensures same { live.new ≡ record live.old { outputs = live.new.outputs } }
{
    let o = speaker(live, turn, this);
    say_by(live, o, text)
}

/// The next object is asked for `catch_tell`, with the text on top.
pub(crate) fn ask_listener(
    audience: &Audience,
    live: &Live,
    stack: &mut Vec<Value>,
    low: usize,
) -> Result<Step, AllocError>
    requires low { low ≤ length stack.old.items }
    requires poised { IsAudiencePoised audience.now live.now }
    ensures goes { IfOk result (λ r. (efun : _) (turn : T) (budget : _) → StageGoes r efun (Stage.TellEach audience.now) low live.now turn stack.old.items budget live.now turn stack.new.items budget) }
    ensures fit { OnOk result ((l : L) → IsFit l stack.old.items → IsFit l stack.new.items) }
    ensures there { IfOk result (λ r. (cells : Store) → IsStepThere cells r) }
    ensures asked { IfOk result (IsAskedThere live.now.objects) }
{
    ask_tell(audience.listeners[audience.done], &audience.text, stack)
}

/// An object was asked: the next one is to be told.
pub(crate) fn take_told(audience: Audience) -> Stage
    requires { audience.done < length audience.listeners.items }
    ensures takes { (v : _) (live : _) (low : _) (stack : _) → StageTakes (Stage.TellEach audience) v live low stack result stack }
    ensures on { (low n : _) → low ≤ n → IsStageOn result low n }
    ensures less { stage_left result < length audience.listeners.items - audience.done }
    ensures ready { (objects : List (Option Object)) → IsStageReady objects result }
{
    Stage::TellEach(Audience {
        text: audience.text,
        but: audience.but,
        listeners: audience.listeners,
        done: audience.done + 1,
    })
}
