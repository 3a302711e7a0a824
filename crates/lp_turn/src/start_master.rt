//! Functions of the master at the start.
ghost use Rattle.std.specs.Prelude.{◌≡◌, ◌+◌, ◌*◌, ◌∷◌, [], IfOk, length};
ghost use Rattle.lp_cells.specs.Cells.{Store};
ghost use Rattle.lp_values.specs.declared.value.Value.{Value as V};
ghost use Rattle.lp_turn.specs.Left.{AsksLess, stages_called, stages_loaded, texts_loaded};
ghost use Rattle.lp_turn.specs.StartSteps.{StartApplies, StartLoads};
ghost use Rattle.lp_turn.specs.Starting.{AreStartValuesThere, StartGoes};
ghost use Rattle.lp_turn.specs.Starts.{start_arguments, start_name};

use crate::job::{Asked, Call};
use crate::master::master;
use crate::start_job::{StartFunction, StartGoing, StartStep, StartWaiting, Texts};
use lp_values::id::ObjId;
use lp_values::text::Text;
use lp_values::value::Value;
use lp_world::live::Live;
use std::alloc::{AllocError, Global};

/// The name of a function of the master.
fn name_of(alloc: Global, f: &StartFunction) -> Result<Text, AllocError>
    ensures { IfOk result (λ t. t ≡ start_name f.now) }
{
    match f {
        StartFunction::Inaugurate => Text::from_str(alloc, "inaugurate_master"),
        StartFunction::SimulEfun => Text::from_str(alloc, "get_simul_efun"),
        StartFunction::Epilog => Text::from_str(alloc, "epilog"),
        StartFunction::Preload(_, _) => Text::from_str(alloc, "preload"),
    }
}

/// One argument.
pub(crate) fn one(alloc: Global, v: Value) -> Result<Vec<Value>, AllocError>
    ensures { IfOk result (λ vs. vs.items ≡ v ∷ []) }
{
    let mut arguments = Vec::new(alloc);
    arguments.push(v)?;
    Ok(arguments)
}

/// A text as the one argument.
fn one_text(alloc: Global, t: &Text) -> Result<Vec<Value>, AllocError>
    ensures { IfOk result (λ vs. vs.items ≡ V.Str t.now ∷ []) }
{
    let text = t.copy()?;
    one(alloc, Value::Str(text))
}

/// What a function of the master is called with.
fn arguments_of(alloc: Global, f: &StartFunction) -> Result<Vec<Value>, AllocError>
    ensures { IfOk result (λ vs. vs.items ≡ start_arguments f.now) }
{
    match f {
        StartFunction::Inaugurate => one(alloc, Value::Int(0)),
        StartFunction::SimulEfun => Ok(Vec::new(alloc)),
        StartFunction::Epilog => one(alloc, Value::Int(0)),
        StartFunction::Preload(t, _) => one_text(alloc, t),
    }
}

/// A function of the master is called.
pub(crate) fn apply(alloc: Global, m: ObjId, f: StartFunction) -> Result<StartStep, AllocError>
    ensures applies { IfOk result (λ r. StartApplies m f r) }
    ensures less { IfOk result (λ r. AsksLess r (stages_loaded f) (texts_loaded f)) }
    ensures there { IfOk result (λ r. (cells : Store) → AreStartValuesThere cells r) }
{
    let name = name_of(alloc, &f)?;
    let arguments = arguments_of(alloc, &f)?;
    Ok(StartStep::Asks(
        Call {
            asked: Asked::Apply(m, name),
            player: None,
            interactive: None,
            arguments,
        },
        StartWaiting::Master(f),
    ))
}

/// The master is loaded, for a function of it.
fn load(alloc: Global, f: StartFunction) -> Result<StartStep, AllocError>
    ensures loads { IfOk result (λ r. StartLoads f r) }
    ensures less { IfOk result (λ r. AsksLess r (stages_called f) (texts_loaded f + 1)) }
    ensures there { IfOk result (λ r. (cells : Store) → AreStartValuesThere cells r) }
{
    let name = Text::from_str(alloc, "/secure/master")?;
    Ok(StartStep::Asks(
        Call {
            asked: Asked::Load(name),
            player: None,
            interactive: None,
            arguments: Vec::new(alloc),
        },
        StartWaiting::Load(f),
    ))
}

/// A function of the master is called; the master is loaded first where it does not live.
pub(crate) fn call_master(live: &Live, f: StartFunction) -> Result<StartStep, AllocError>
    ensures goes { IfOk result (λ r. StartGoes r (StartGoing.Master f) live.now live.now) }
    ensures less { IfOk result (λ r. AsksLess r (stages_called f) (texts_loaded f + 1)) }
    ensures there { IfOk result (λ r. (cells : Store) → AreStartValuesThere cells r) }
{
    match master(&live.names) {
        Some(m) => apply(live.alloc, m, f),
        None => load(live.alloc, f),
    }
}

/// The texts that are left are preloaded, or the driver has started.
pub(crate) fn preload(live: &Live, mut texts: Texts) -> Result<StartStep, AllocError>
    ensures goes { IfOk result (λ r. StartGoes r (StartGoing.Preloading texts) live.now live.now) }
    ensures less { IfOk result (λ r. AsksLess r 0 (2 * length texts + 1)) }
    ensures there { IfOk result (λ r. (cells : Store) → AreStartValuesThere cells r) }
{
    match texts.next() {
        Some(t) => call_master(live, StartFunction::Preload(t, texts)),
        None => Ok(StartStep::Begins),
    }
}
