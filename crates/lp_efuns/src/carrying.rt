//! What an efun comes to, from its effect.
ghost use Rattle.std.specs.Prelude.{IfOk};
ghost use Rattle.lp_cells.specs.Cells.{IsClosed, IsThere, KeepsThere, Store};
ghost use Rattle.lp_ops.specs.Effects.{IsEffectThere, Meets};
ghost use Rattle.lp_ops.specs.declared.effect.Effect.{Effect};
ghost use Rattle.lp_efuns.specs.Deeds.{CarriesOut, bounded};
ghost use Rattle.lp_efuns.specs.Plain.{IsDidThere};

use crate::answer::{Did, EfunFault};
use lp_cells::cells::Cells;
use lp_ops::effect::{Effect, carry_out};
use lp_ops::fault::OpFault;
use lp_values::value::Value;
use std::alloc::Global;

/// What an operation on cells answered, as what an efun comes to.
pub(crate) fn did_of(answer: Result<Value, OpFault>) -> Result<Did, EfunFault>
    ensures carries { (e : Effect) (old new : Store) → Meets e old new answer → IfOk result (λ d. CarriesOut e old d new) }
    ensures there { (cells : Store) → IfOk answer (IsThere cells) → IfOk result (IsDidThere cells) }
{
    match answer {
        Ok(v) => Ok(Did::Value(v)),
        Err(OpFault::Run(e)) => Ok(Did::Error(e)),
        Err(OpFault::NoMemory) => Err(EfunFault::NoMemory),
    }
}

/// Carries an effect out. An array or a mapping that is too long is an error in its place.
pub(crate) fn carry(alloc: Global, effect: Effect, cells: &mut Cells) -> Result<Did, EfunFault>
    ensures carries { IfOk result (λ d. CarriesOut (bounded effect) cells.old d cells.new) }
    ensures stay { KeepsThere cells.old cells.new }
    ensures closed { IsClosed cells.old → IsEffectThere cells.old effect → IsClosed cells.new × IfOk result (IsDidThere cells.new) }
{
    match effect {
        Effect::Gives(v) => Ok(Did::Value(v)),
        Effect::Fault(e) => Ok(Did::Error(e)),
        made => did_of(carry_out(alloc, made, cells)),
    }
}
