//! What efuns about functions of objects come to.
ghost use Rattle.std.specs.Prelude.{◌≡◌, All, IfOk, IsSome, OnErr, true};
ghost use Rattle.lp_cells.specs.Cells.{IsThere, Store};
ghost use Rattle.lp_world.specs.Closed.{IsClosed};
ghost use Rattle.lp_world.specs.Rows.{row_at};
ghost use Rattle.lp_targets.specs.Brought.{Brings};
ghost use Rattle.lp_efuns.specs.Plain.{IsDidThere};
ghost use Rattle.lp_object_efuns.specs.Called.{AnswersOver, DoesWithProgram, StandsOver, brought, is_with_program};
ghost use Rattle.lp_putting.specs.Plans.{IsFitPlan, is_own_function};

use crate::exists;
use crate::functions::has_function;
use lp_efuns::answer::Did;
use lp_efuns::arguments::text_at;
use lp_efuns::caller::{Caller, Turn};
use lp_instr::efun::Efun;
use lp_putting::plans::{Plan, Planned};
use lp_putting::putting::{answer, planned};
use lp_residence::answers::EnterFault;
use lp_swapfile::SwapFile;
use lp_values::id::ObjId;
use lp_values::value::Value;
use lp_world::live::Live;

/// What is planned is done where this object has the function, and else is an error. Its program comes into memory for that.
fn ask<W: SwapFile>(
    live: &mut Live,
    swap: &mut W,
    plan: Plan,
    this: ObjId,
    args: &[Value],
) -> Result<Did, EnterFault>
    requires fit { IsFitPlan plan }
    requires closed { IsClosed live.old }
    requires here { IsSome (row_at live.old.objects this.0) }
    requires there { All (IsThere live.old.cells) args.now }
    ensures brings { Brings (W.content swap.old) (W.content swap.new) (W.last swap.new) (W.read_faults swap.old) (W.read_faults swap.new) (W.write_faults swap.old) (W.write_faults swap.new)
        (W.is_truthful swap.old) (W.is_truthful swap.new) (W.is_honest swap.old) (W.is_honest swap.new) live.old (brought live.old live.new) result }
    ensures closed { IsClosed live.new }
    ensures still { W.is_truthful swap.new → OnErr result (StandsOver (W.content swap.old) live.old (W.content swap.new) live.new) }
    ensures does { W.is_truthful swap.new → IfOk result (λ d. AnswersOver plan this args.now (W.content swap.old) live.old d live.new) }
    ensures there { IfOk result (λ d. (cells : Store) → IsDidThere cells d) }
{
    match has_function(live, swap, this, text_at(args, 0)) {
        Ok(has) => match answer(live, plan, this, args, has) {
            Ok(d) => Ok(d),
            Err(_) => Err(EnterFault::NoMemory),
        },
        Err(e) => Err(e),
    }
}

/// What an efun comes to that puts a function of this object somewhere.
fn own_function<W: SwapFile>(
    live: &mut Live,
    swap: &mut W,
    turn: &Turn,
    caller: &Caller<'_>,
    efun: Efun,
    args: &[Value],
) -> Result<Did, EnterFault>
    requires own { is_own_function efun ≡ true }
    requires closed { IsClosed live.old }
    requires here { IsSome (row_at live.old.objects caller.now.this.0) }
    requires there { All (IsThere live.old.cells) args.now }
    ensures brings { Brings (W.content swap.old) (W.content swap.new) (W.last swap.new) (W.read_faults swap.old) (W.read_faults swap.new) (W.write_faults swap.old) (W.write_faults swap.new)
        (W.is_truthful swap.old) (W.is_truthful swap.new) (W.is_honest swap.old) (W.is_honest swap.new) live.old (brought live.old live.new) result }
    ensures closed { IsClosed live.new }
    ensures still { W.is_truthful swap.new → OnErr result (StandsOver (W.content swap.old) live.old (W.content swap.new) live.new) }
    ensures does { W.is_truthful swap.new → IfOk result (λ d. DoesWithProgram efun caller.now args.now (W.content swap.old) live.old turn.now d live.new) }
    ensures there { IfOk result (λ d. IsDidThere live.new.cells d) }
{
    match planned(live, turn, caller, efun, args) {
        Ok(p) => match p {
            Planned::Ends(d) => Ok(d),
            Planned::Asks(plan) => ask(live, swap, plan, caller.this, args),
        },
        Err(_) => Err(EnterFault::NoMemory),
    }
}

/// What an efun about functions of objects comes to.
pub(crate) fn did<W: SwapFile>(
    live: &mut Live,
    swap: &mut W,
    turn: &Turn,
    caller: &Caller<'_>,
    efun: Efun,
    args: &[Value],
) -> Result<Did, EnterFault>
    requires with_program { is_with_program efun ≡ true }
    requires closed { IsClosed live.old }
    requires here { IsSome (row_at live.old.objects caller.now.this.0) }
    requires there { All (IsThere live.old.cells) args.now }
    ensures brings { Brings (W.content swap.old) (W.content swap.new) (W.last swap.new) (W.read_faults swap.old) (W.read_faults swap.new) (W.write_faults swap.old) (W.write_faults swap.new)
        (W.is_truthful swap.old) (W.is_truthful swap.new) (W.is_honest swap.old) (W.is_honest swap.new) live.old (brought live.old live.new) result }
    ensures closed { IsClosed live.new }
    ensures still { W.is_truthful swap.new → OnErr result (StandsOver (W.content swap.old) live.old (W.content swap.new) live.new) }
    ensures does { W.is_truthful swap.new → IfOk result (λ d. DoesWithProgram efun caller.now args.now (W.content swap.old) live.old turn.now d live.new) }
    ensures there { IfOk result (λ d. IsDidThere live.new.cells d) }
{
    match efun {
        Efun::FunctionExists => exists::did(live, swap, caller, args),
        _ => own_function(live, swap, turn, caller, efun, args),
    }
}
