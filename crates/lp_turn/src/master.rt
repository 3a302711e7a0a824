//! Functions of the master.
ghost use Rattle.std.specs.Prelude.{◌≡◌, ◌+◌, IfOk};
ghost use Rattle.lp_cells.specs.Cells.{Store};
ghost use Rattle.lp_turn.specs.Going.{AreStepValuesThere, BeginsWith, Goes};
ghost use Rattle.lp_turn.specs.Left.{AsksFewer, calls_after, calls_left};
ghost use Rattle.lp_turn.specs.Masters.{Applies, IsMasterOf, Loads, without_master};
ghost use Rattle.lp_turn.specs.Turns.{arguments_of, name_of};
ghost use Rattle.lp_world.specs.Closed.{IsClosed};

use crate::connecting::admit;
use crate::job::{Asked, Call, Going, MasterFunction, Step, Waiting};
use lp_objects::objects::Objects;
use lp_values::id::ObjId;
use lp_values::text::Text;
use lp_values::value::Value;
use lp_world::live::Live;
use std::alloc::{AllocError, Global};

/// The master, where it lives.
pub(crate) fn master(names: &Objects) -> Option<ObjId>
    ensures { IsMasterOf names.now result }
{
    names.find("/secure/master")
}

/// The name of a function of the master.
fn name_of(alloc: Global, f: MasterFunction) -> Result<Text, AllocError>
    ensures { IfOk result (λ t. t ≡ name_of f) }
{
    match f {
        MasterFunction::Connect(_) => Text::from_str(alloc, "connect"),
        MasterFunction::Disconnect(_) => Text::from_str(alloc, "disconnect"),
    }
}

/// What `disconnect` is called with.
fn of_disconnect(alloc: Global, o: ObjId) -> Result<Vec<Value>, AllocError>
    ensures { IfOk result (λ v. v.items ≡ arguments_of (MasterFunction.Disconnect o)) }
{
    let mut arguments = Vec::new(alloc);
    arguments.push(Value::Obj(o))?;
    arguments.push(Value::Str(Text::from_str(alloc, "")?))?;
    Ok(arguments)
}

/// What a function of the master is called with.
fn arguments_of(alloc: Global, f: MasterFunction) -> Result<Vec<Value>, AllocError>
    ensures { IfOk result (λ v. v.items ≡ arguments_of f) }
{
    match f {
        MasterFunction::Connect(_) => Ok(Vec::new(alloc)),
        MasterFunction::Disconnect(o) => of_disconnect(alloc, o),
    }
}

/// A function of the master is called.
fn apply(alloc: Global, m: ObjId, f: MasterFunction) -> Result<Step, AllocError>
    ensures applies { IfOk result (λ r. Applies m f r) }
    ensures fewer { IfOk result (λ r. AsksFewer r (1 + calls_after f)) }
    ensures there { IfOk result (λ r. (cells : Store) → AreStepValuesThere cells r) }
{
    let name = name_of(alloc, f)?;
    let arguments = arguments_of(alloc, f)?;
    Ok(Step::Asks(
        Call {
            asked: Asked::Apply(m, name),
            player: None,
            interactive: None,
            arguments,
        },
        Waiting::Master(f),
    ))
}

/// The master is loaded, for a function of it.
fn load(alloc: Global, f: MasterFunction) -> Result<Step, AllocError>
    ensures loads { IfOk result (λ r. Loads f r) }
    ensures fewer { IfOk result (λ r. AsksFewer r (2 + calls_after f)) }
    ensures there { IfOk result (λ r. (cells : Store) → AreStepValuesThere cells r) }
{
    let name = Text::from_str(alloc, "/secure/master")?;
    Ok(Step::Asks(
        Call {
            asked: Asked::Load(name),
            player: None,
            interactive: None,
            arguments: Vec::new(alloc),
        },
        Waiting::Load(f),
    ))
}

/// A function of the master is called; the master is loaded first where it does not live.
pub(crate) fn call_master(live: &Live, f: MasterFunction) -> Result<Step, AllocError>
    ensures goes { IfOk result (λ r. Goes r (Going.Master f) live.now live.now) }
    ensures fewer { IfOk result (λ r. AsksFewer r (calls_left (Going.Master f))) }
    ensures there { IfOk result (λ r. AreStepValuesThere live.now.cells r) }
{
    match master(&live.names) {
        Some(m) => apply(live.alloc, m, f),
        None => load(live.alloc, f),
    }
}

/// A function of the master has no answer, since there is none.
fn unanswered(live: &mut Live, f: MasterFunction) -> Result<Step, AllocError>
    requires closed { IsClosed live.old }
    ensures begins { IfOk result (λ r. BeginsWith (without_master f) live.old live.new r) }
    ensures fewer { IfOk result (λ r. AsksFewer r (1 + calls_after f)) }
    ensures there { IfOk result (λ r. (cells : Store) → AreStepValuesThere cells r) }
    ensures closed { IsClosed live.new }
{
    match f {
        MasterFunction::Connect(number) => admit(live, number, &Value::Int(0)),
        MasterFunction::Disconnect(_) => Ok(Step::Ends),
    }
}

/// A function of the master is called after its load; where it does not live then either, the answer is 0.
pub(crate) fn call_loaded(live: &mut Live, f: MasterFunction) -> Result<Step, AllocError>
    requires closed { IsClosed live.old }
    ensures goes { IfOk result (λ r. Goes r (Going.Loaded f) live.old live.new) }
    ensures fewer { IfOk result (λ r. AsksFewer r (calls_left (Going.Loaded f))) }
    ensures there { IfOk result (λ r. AreStepValuesThere live.new.cells r) }
    ensures closed { IsClosed live.new }
{
    match master(&live.names) {
        Some(m) => apply(live.alloc, m, f),
        None => unanswered(live, f),
    }
}
