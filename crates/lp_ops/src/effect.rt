//! What an operator does, and how it is carried out.
ghost use Rattle.std.specs.Prelude.{◌≡◌, ℕ, List, IfOk, if◌then◌else◌};
ghost use Rattle.lp_text.specs.Gives.{GivesText};
ghost use Rattle.lp_values.specs.Errors.{plain};
ghost use Rattle.lp_cells.specs.Cells.{IsClosed, IsThere, KeepsThere};
ghost use Rattle.lp_ops.specs.Effects.{Answers, IsEffectThere, Meets, Refuses, refused, within, within_value};

use crate::fault::OpFault;
use lp_cells::cells::Cells;
use lp_cells::content::{Content, Items};
use lp_cells::fault::CellFault;
use lp_cells::pairs::Pairs;
use lp_text::fault::TextFault;
use lp_values::error::{ErrorKind, RunError};
use lp_values::limits::MAX_CODE_POINTS;
use lp_values::text::Text;
use lp_values::value::Value;
use std::alloc::{AllocError, Global};

/// What an operator does, apart from memory.
#[derive(Drop)]
pub enum Effect {
    /// It gives a value.
    Gives(Value),
    /// It makes a new cell and gives the reference.
    Makes(Content),
    /// It is refused.
    Fault(RunError),
}

/// A refusal of this kind.
pub fn refused(alloc: Global, kind: ErrorKind) -> Result<Effect, AllocError>
    ensures { IfOk result (λ e. e ≡ refused kind) }
{
    Ok(Effect::Fault(RunError::plain(alloc, kind)?))
}

/// What a text function answered, as an effect: its text, or the refusal of one that is too long.
pub fn from_text(alloc: Global, text: Result<Text, TextFault>) -> Result<Effect, AllocError>
    requires { (cs : List ℕ) × GivesText text cs }
    ensures { (cs : List ℕ) → GivesText text cs → IfOk result (λ e. within e ≡ within (Effect.Gives (Value.Str cs))) }
{
    match text {
        Ok(text) => Ok(Effect::Gives(Value::Str(text))),
        Err(TextFault::TooLong) => refused(alloc, ErrorKind::TextTooLong),
        Err(TextFault::NoMemory) => Err(AllocError),
        Err(TextFault::BadFormat { .. }) => unreachable!(),
    }
}

/// A new array of these items.
pub fn array(items: Vec<Value>) -> Effect
    ensures { result ≡ Effect.Makes (Content.Array items.items) }
{
    Effect::Makes(Content::Array(Items::from_vec(items)))
}

/// A new mapping of these pairs.
pub fn mapping(pairs: Pairs) -> Effect
    ensures { result ≡ Effect.Makes (Content.Mapping pairs) }
{
    Effect::Makes(Content::Mapping(pairs))
}

/// The error of this kind.
pub fn fault(alloc: Global, kind: ErrorKind) -> OpFault
    ensures { Refuses (refused kind) result }
{
    match RunError::plain(alloc, kind) {
        Ok(error) => OpFault::Run(error),
        Err(_) => OpFault::NoMemory,
    }
}

/// Carries an effect out. A result that is too long is an error in its place. Nothing changes on a refusal.
pub fn carry_out(alloc: Global, effect: Effect, cells: &mut Cells) -> Result<Value, OpFault>
    ensures value { Meets (within effect) cells.old cells.new result }
    ensures stay { KeepsThere cells.old cells.new }
    ensures closed { IsClosed cells.old → IsEffectThere cells.old (within effect) → IsClosed cells.new × IfOk result (IsThere cells.new) }
{
    match effect {
        Effect::Gives(v) => give(alloc, v),
        Effect::Makes(content) => make(alloc, content, cells),
        Effect::Fault(error) => Err(OpFault::Run(error)),
    }
}

/// Gives a value that is no text above the limit.
fn give(alloc: Global, v: Value) -> Result<Value, OpFault>
    ensures { Answers (within_value v) result }
{
    if is_too_long(&v) {
        return Err(fault(alloc, ErrorKind::TextTooLong));
    }
    Ok(v)
}

/// Whether a value is a text above the limit.
fn is_too_long(v: &Value) -> bool
    ensures { within_value v.now ≡ (if result then refused ErrorKind.TextTooLong else Effect.Gives v.now) }
{
    match v {
        Value::Str(s) => s.as_slice().len() > MAX_CODE_POINTS,
        _ => false,
    }
}

/// Makes a cell.
fn make(alloc: Global, content: Content, cells: &mut Cells) -> Result<Value, OpFault>
    ensures { Meets (within (Effect.Makes content)) cells.old cells.new result }
{
    match content {
        Content::Array(items) => match cells.new_array(items.into_vec()) {
            Ok(c) => Ok(Value::Arr(c)),
            Err(CellFault::TooLong) => Err(fault(alloc, ErrorKind::TooLong)),
            Err(_) => Err(OpFault::NoMemory),
        },
        Content::Mapping(pairs) => match cells.new_mapping(pairs) {
            Ok(c) => Ok(Value::Map(c)),
            Err(CellFault::TooLong) => Err(fault(alloc, ErrorKind::TooLong)),
            Err(_) => Err(OpFault::NoMemory),
        },
    }
}
