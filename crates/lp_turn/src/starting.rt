//! The start goes on.
ghost use Rattle.std.specs.Prelude.{◌≡◌, ◌++◌, ◌∷◌, [], IfOk, OnOk, Some};
ghost use Rattle.std.specs.Option.{option_copied};
ghost use Rattle.std.specs.Str.{chars};
ghost use Rattle.std.specs.String.{string_bytes};
ghost use Rattle.lp_cells.specs.Cells.{IsThere, Store};
ghost use Rattle.lp_meaning.specs.EventTurns.{items_in, simul_answered, simul_set, starting, text_in};
ghost use Rattle.lp_turn.specs.Left.{AsksLess, stages_left, stages_loaded, texts_left, texts_loaded};
ghost use Rattle.lp_turn.specs.StartSteps.{HasSimul, LoadsSimul, loading_simul, start_without, untargeted};
ghost use Rattle.lp_turn.specs.Starting.{AreStartValuesThere, IsStartThere, StartGoes, StartsWith};
ghost use Rattle.lp_turn.specs.Starts.{texts_of};
ghost use Rattle.lp_world.specs.Closed.{IsClosed};

use crate::job::{Asked, Call};
use crate::master::master;
use crate::outputs::tell;
use crate::simul::{as_name, is_clone_name, string_of};
use crate::start_job::{StartFunction, StartGoing, StartStep, StartWaiting, Texts};
use crate::start_master::{apply, call_master, preload};
use lp_cells::cells::Cells;
use lp_code::name::Name;
use lp_events::out::Out;
use lp_values::text::Text;
use lp_values::value::Value;
use lp_world::live::Live;
use std::alloc::{AllocError, Global};
use std::mem;

/// The start begins with a load of the master.
///
/// # Errors
/// Where memory runs out.
pub fn start(live: &Live) -> Result<StartStep, AllocError>
    ensures begins { IfOk result (λ r. StartsWith starting live.now live.now r) }
    ensures less { IfOk result (λ r. AsksLess r 9 0) }
    ensures there { IfOk result (λ r. (cells : Store) → AreStartValuesThere cells r) }
{
    let name = Text::from_str(live.alloc, "/secure/master")?;
    Ok(StartStep::Asks(
        Call {
            asked: Asked::Load(name),
            player: None,
            interactive: None,
            arguments: Vec::new(live.alloc),
        },
        StartWaiting::First,
    ))
}

// The simul-efun object

/// The simul-efun object has a name.
fn note_simul(live: &mut Live, name: Text)
    requires closed { IsClosed live.old }
    ensures named { HasSimul name live.old live.new }
    ensures closed { IsClosed live.new }
{
    drop(mem::replace(&mut live.simul, Some(name)));
}

/// A name of the simul-efun object is no target: that is an uncaught error. Then the master is asked what is to be preloaded.
fn no_target(live: &mut Live) -> Result<StartStep, AllocError>
    requires closed { IsClosed live.old }
    ensures begins { IfOk result (λ r. StartsWith untargeted live.old live.new r) }
    ensures less { IfOk result (λ r. AsksLess r 4 0) }
    ensures there { IfOk result (λ r. (cells : Store) → AreStartValuesThere cells r) }
    ensures closed { IsClosed live.new }
{
    let text = Text::from_str(live.alloc, "error: Bad target")?;
    tell(live, Out::Log(text))?;
    call_master(live, StartFunction::Epilog)
}

/// The simul-efun object is loaded by its name, which no live object has.
fn ask_simul(alloc: Global, name: &[char], text: String) -> Result<StartStep, AllocError>
    requires text { name.now ≡ chars (string_bytes text) }
    ensures loads { IfOk result (λ r. LoadsSimul name.now r) }
    ensures less { IfOk result (λ r. AsksLess r 4 0) }
    ensures there { IfOk result (λ r. (cells : Store) → AreStartValuesThere cells r) }
{
    let wanted = Text::from_slice(alloc, name)?;
    Ok(StartStep::Asks(
        Call {
            asked: Asked::Load(wanted),
            player: None,
            interactive: None,
            arguments: Vec::new(alloc),
        },
        StartWaiting::Simul(Name::from_string(text)),
    ))
}

/// The simul-efun object is loaded by a name, as a text that the driver has. Where an object of the name that it means lives,
/// nothing is loaded.
fn load_simul(live: &mut Live, name: &[char]) -> Result<StartStep, AllocError>
    requires closed { IsClosed live.old }
    ensures begins { IfOk result (λ r. StartsWith (loading_simul name.now) live.old live.new r) }
    ensures less { IfOk result (λ r. AsksLess r 4 0) }
    ensures there { IfOk result (λ r. (cells : Store) → AreStartValuesThere cells r) }
    ensures closed { IsClosed live.new }
{
    let meant = as_name(live.alloc, name)?;
    let text = string_of(live.alloc, meant.as_slice())?;
    if live.names.find(text.as_str()).is_some() {
        return call_master(live, StartFunction::Epilog);
    }
    if is_clone_name(meant.as_slice()) {
        return no_target(live);
    }
    ask_simul(live.alloc, meant.as_slice(), text)
}

/// The simul-efun object is loaded where it does not live.
fn set_simul(live: &mut Live, name: &[char]) -> Result<StartStep, AllocError>
    requires closed { IsClosed live.old }
    ensures begins { IfOk result (λ r. StartsWith (simul_set name.now) live.old live.new r) }
    ensures less { IfOk result (λ r. AsksLess r 4 0) }
    ensures there { IfOk result (λ r. (cells : Store) → AreStartValuesThere cells r) }
    ensures closed { IsClosed live.new }
{
    let text = string_of(live.alloc, name)?;
    if live.names.find(text.as_str()).is_some() {
        return call_master(live, StartFunction::Epilog);
    }
    load_simul(live, name)
}

/// A text names the simul-efun object.
fn name_simul(live: &mut Live, t: &Text) -> Result<StartStep, AllocError>
    requires closed { IsClosed live.old }
    ensures begins { IfOk result (λ r. StartsWith (simul_answered (Some t.now)) live.old live.new r) }
    ensures less { IfOk result (λ r. AsksLess r 4 0) }
    ensures there { IfOk result (λ r. (cells : Store) → AreStartValuesThere cells r) }
    ensures closed { IsClosed live.new }
{
    let name = as_name(live.alloc, t.as_slice())?;
    let known = Text::from_slice(live.alloc, name.as_slice())?;
    note_simul(live, known);
    set_simul(live, name.as_slice())
}

/// The text that a value is.
fn text_in(v: &Value) -> Option<&Text>
    ensures { option_copied result ≡ text_in v.now }
{
    match v {
        Value::Str(t) => Some(t),
        _ => None,
    }
}

/// `get_simul_efun` has answered: a text names the simul-efun object, another answer names none.
fn answered(live: &mut Live, v: &Value) -> Result<StartStep, AllocError>
    requires closed { IsClosed live.old }
    ensures goes { IfOk result (λ r. StartGoes r (StartGoing.Answered v.now) live.old live.new) }
    ensures less { IfOk result (λ r. AsksLess r 4 0) }
    ensures there { IfOk result (λ r. (cells : Store) → AreStartValuesThere cells r) }
    ensures closed { IsClosed live.new }
{
    match text_in(v) {
        Some(t) => name_simul(live, t),
        None => call_master(live, StartFunction::Epilog),
    }
}

// What is preloaded

/// The items of an array, or none.
fn items_of<'a>(cells: &'a Cells, v: &Value) -> &'a [Value]
    requires { IsThere cells.now v.now }
    ensures { result.now ≡ items_in cells.now v.now }
{
    match v {
        Value::Arr(c) => cells.items(*c),
        _ => &[],
    }
}

/// A value comes behind texts, where it is one.
fn put_text(all: &mut Vec<Text>, v: &Value) -> Result<(), AllocError>
    ensures { OnOk result (all.new.items ≡ all.old.items ++ texts_of (v.now ∷ [])) }
{
    match v {
        Value::Str(t) => {
            all.push(t.copy()?)?;
            Ok(())
        }
        _ => Ok(()),
    }
}

/// The texts among values.
fn texts_in(alloc: Global, values: &[Value]) -> Result<Vec<Text>, AllocError>
    ensures { IfOk result (λ ts. ts.items ≡ texts_of values.now) }
{
    let mut all = Vec::new(alloc);
    for v in values {
        put_text(&mut all, v)?;
    }
    Ok(all)
}

/// The texts among values, the first of which comes next.
fn texts_among(alloc: Global, values: &[Value]) -> Result<Texts, AllocError>
    ensures { IfOk result (λ ts. ts ≡ texts_of values.now) }
{
    let mut all = texts_in(alloc, values)?;
    all.reverse();
    Ok(Texts::from_last(all))
}

/// `epilog` has answered: each text of an array is preloaded.
fn listed(live: &Live, v: &Value) -> Result<StartStep, AllocError>
    requires there { IsThere live.now.cells v.now }
    ensures goes { IfOk result (λ r. StartGoes r (StartGoing.Listed v.now) live.now live.now) }
    ensures less { IfOk result (λ r. AsksLess r 1 0) }
    ensures there { IfOk result (λ r. (cells : Store) → AreStartValuesThere cells r) }
{
    let texts = texts_among(live.alloc, items_of(&live.cells, v))?;
    preload(live, texts)
}

// Going on

/// A function of the master has no answer, since there is none.
fn unanswered(live: &Live, f: StartFunction) -> Result<StartStep, AllocError>
    ensures begins { IfOk result (λ r. StartsWith (start_without f) live.now live.now r) }
    ensures less { IfOk result (λ r. AsksLess r (stages_loaded f) (texts_loaded f)) }
    ensures there { IfOk result (λ r. (cells : Store) → AreStartValuesThere cells r) }
{
    match f {
        StartFunction::Inaugurate => call_master(live, StartFunction::SimulEfun),
        StartFunction::SimulEfun => call_master(live, StartFunction::Epilog),
        StartFunction::Epilog => Ok(StartStep::Begins),
        StartFunction::Preload(_, texts) => preload(live, texts),
    }
}

/// A function of the master is called after its load; where it does not live then either, the answer is 0.
fn call_loaded(live: &Live, f: StartFunction) -> Result<StartStep, AllocError>
    ensures goes { IfOk result (λ r. StartGoes r (StartGoing.Loaded f) live.now live.now) }
    ensures less { IfOk result (λ r. AsksLess r (stages_loaded f) (texts_loaded f)) }
    ensures there { IfOk result (λ r. (cells : Store) → AreStartValuesThere cells r) }
{
    match master(&live.names) {
        Some(m) => apply(live.alloc, m, f),
        None => unanswered(live, f),
    }
}

/// The start goes on: it tells which call it asks for, or how it ends.
///
/// # Errors
/// Where memory runs out; the state is closed then.
pub fn go_on(going: StartGoing, live: &mut Live) -> Result<StartStep, AllocError>
    requires closed { IsClosed live.old }
    requires there { IsStartThere live.old.cells going }
    ensures goes { IfOk result (λ r. StartGoes r going live.old live.new) }
    ensures less { IfOk result (λ r. AsksLess r (stages_left going) (texts_left going)) }
    ensures there { IfOk result (λ r. (cells : Store) → AreStartValuesThere cells r) }
    ensures closed { IsClosed live.new }
{
    match going {
        StartGoing::Master(f) => call_master(live, f),
        StartGoing::Loaded(f) => call_loaded(live, f),
        StartGoing::Answered(v) => answered(live, &v),
        StartGoing::Listed(v) => listed(live, &v),
        StartGoing::Preloading(texts) => preload(live, texts),
        StartGoing::NoMaster(faults) => Ok(StartStep::NoMaster(faults)),
    }
}
