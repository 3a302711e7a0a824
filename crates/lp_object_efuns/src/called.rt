//! Calls of efuns about functions of objects.
ghost use Rattle.std.specs.Prelude.{◌≡◌, All, IfOk, IsSome, OnErr, true};
ghost use Rattle.lp_cells.specs.Cells.{IsThere};
ghost use Rattle.lp_world.specs.Closed.{IsClosed};
ghost use Rattle.lp_world.specs.Rows.{row_at};
ghost use Rattle.lp_targets.specs.Brought.{Brings};
ghost use Rattle.lp_efuns.specs.Plain.{IsAnswerThere};
ghost use Rattle.lp_object_efuns.specs.Called.{CallsWithProgram, StandsOver, brought, is_with_program};

use crate::asking::did;
use lp_efuns::answer::Answer;
use lp_efuns::caller::{Caller, Turn};
use lp_efuns::plain::{bad_argument, finish, pay_wide};
use lp_instr::efun::Efun;
use lp_residence::answers::EnterFault;
use lp_swapfile::SwapFile;
use lp_value_efuns::fit::first_bad;
use lp_value_efuns::price::price_before;
use lp_values::value::Value;
use lp_world::live::Live;

/// Whether an efun is carried out by `call_with_program`: `function_exists`, `add_action`, `input_to` and `call_out`.
pub fn is_with_program(efun: Efun) -> bool
    ensures { result ≡ is_with_program efun }
{
    match efun {
        Efun::FunctionExists | Efun::AddAction | Efun::InputTo | Efun::CallOut => true,
        _ => false,
    }
}

/// Carries out an efun about a function of an object, with these arguments, first to last.
///
/// - `function_exists`: the path without `.c` of the program in whose text the function of the name stands that a call in the object
///   would reach, or 0 where it has none or a private one.
/// - `add_action`, `input_to`, `call_out`: a function of this object becomes an action of `this_player()`, waits for the next line of
///   its connection, or is called after some seconds. That this object has none of the name is an error.
///
/// The price before is paid first; then the first argument of another kind than the efun takes is an error; then 0 is answered where
/// the efun does nothing, and a negative delay is an error; then the program of the object's version comes into memory, where it is
/// out. Costs what the arguments cost, and a logarithm of the actions and call-outs that there are.
///
/// # Errors
/// `Swap` where the read of the program failed, or gave other bytes than were written; it is out still. `NoMemory` also where
/// bytes of the right digest are none that fit. The state is closed after each, stands for the same world, and what was in memory is
/// there still.
pub fn call_with_program<W: SwapFile>(
    live: &mut Live,
    swap: &mut W,
    turn: &Turn,
    caller: &Caller<'_>,
    efun: Efun,
    args: &[Value],
    budget: &mut u64,
) -> Result<Answer, EnterFault>
    requires with_program { is_with_program efun ≡ true }
    requires closed { IsClosed live.old }
    requires here { IsSome (row_at live.old.objects caller.now.this.0) }
    requires there { All (IsThere live.old.cells) args.now }
    ensures brings { Brings (W.content swap.old) (W.content swap.new) (W.last swap.new) (W.read_faults swap.old) (W.read_faults swap.new) (W.write_faults swap.old) (W.write_faults swap.new)
        (W.is_truthful swap.old) (W.is_truthful swap.new) (W.is_honest swap.old) (W.is_honest swap.new) live.old (brought live.old live.new) result }
    ensures closed { IsClosed live.new }
    ensures still { W.is_truthful swap.new → OnErr result (StandsOver (W.content swap.old) live.old (W.content swap.new) live.new) }
    ensures calls { W.is_truthful swap.new → IfOk result (λ a. CallsWithProgram efun caller.now args.now (W.content swap.old) live.old turn.now budget.old a live.new budget.new) }
    ensures there { IfOk result (λ a. IsAnswerThere live.new.cells a) }
{
    let before = price_before(efun, args, &live.cells, &live.objects);
    let is_paid = pay_wide(budget, before);
    if !is_paid {
        return Ok(Answer::Spent);
    }
    match first_bad(efun, args, &live.objects) {
        Some(number) => match bad_argument(live.alloc, efun, number) {
            Ok(a) => Ok(a),
            Err(_) => Err(EnterFault::NoMemory),
        },
        None => match did(live, swap, turn, caller, efun, args) {
            Ok(d) => Ok(finish(efun, d, &live.cells, &live.objects, budget)),
            Err(e) => Err(e),
        },
    }
}
