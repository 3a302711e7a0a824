//! Efuns that call LPC begin.
ghost use Rattle.std.specs.Prelude.{◌≡◌, ◌≤◌, All, IfOk, OnOk, drop, length, map, true};
ghost use Rattle.lp_cells.specs.Cells.{IsThere, Store};
ghost use Rattle.lp_instr.specs.EfunKinds.{kinds};
ghost use Rattle.lp_language.specs.Course.{State};
ghost use Rattle.lp_language.specs.Operations.{cells_of, living};
ghost use Rattle.lp_meaning.specs.EfunArguments.{first_bad, price_before};
ghost use Rattle.lp_ops.specs.Operands.{operand};
ghost use Rattle.lp_world.specs.Rows.{live_in};
ghost use Rattle.lp_step.specs.Steps.{IsFit};
ghost use Rattle.lp_efuns.specs.Names.{AreNamed};
ghost use Rattle.lp_calling.specs.Beginning.{Begins, IsBegunReady, IsBegunThere, Starts, is_calling};

use crate::audience::{begin_room, begin_say};
use crate::call::begin_call;
use crate::ends::{begin_bad, begin_end};
use crate::items::begin_items;
use crate::job::{Begun, CallingFault};
use crate::laying::above;
use crate::leave::{begin_append, begin_read, begin_remove, begin_restore, begin_save, begin_size};
use crate::load::begin_load;
use crate::messages::{begin_printf, begin_tell, begin_write};
use crate::moving::begin_move;
use crate::search::begin_present;
use lp_cells::cells::Cells;
use lp_efuns::answer::Answer;
use lp_efuns::caller::Caller;
use lp_efuns::plain::pay_wide;
use lp_instr::efun::Efun;
use lp_value_efuns::fit::first_bad;
use lp_value_efuns::price::price_before;
use lp_values::value::Value;
use lp_world::live::Live;
use lp_world::objects::ObjectTable;

/// Whether an efun is carried out by a job: `call_other`, `load_object`, `move_object`, `filter`, `map`, `tell_object`, `write`, `printf`,
/// `tell_room`, `say`, `present`, `read_file`, `file_size`, `write_file`, `rm`, `save_object`
/// and `restore_object` are.
pub fn is_calling(efun: Efun) -> bool
    ensures { result ≡ is_calling efun }
{
    match efun {
        Efun::CallOther
        | Efun::LoadObject
        | Efun::MoveObject
        | Efun::Filter
        | Efun::Map
        | Efun::TellObject
        | Efun::Write
        | Efun::Printf
        | Efun::TellRoom
        | Efun::Say
        | Efun::Present => true,
        Efun::ReadFile | Efun::FileSize | Efun::WriteFile | Efun::Rm => true,
        Efun::SaveObject | Efun::RestoreObject => true,
        _ => false,
    }
}

/// An efun begins whose arguments are paid and of their kinds.
fn start(
    live: &Live,
    caller: &Caller<'_>,
    stack: &mut Vec<Value>,
    low: usize,
    efun: Efun,
) -> Result<Begun, CallingFault>
    requires calling { is_calling efun ≡ true }
    requires named { AreNamed live.now.names }
    requires low { low ≤ length stack.old.items }
    requires fit { IsFit live.now stack.old.items }
    ensures starts { IfOk result (λ r. Starts r efun caller.now live.now low stack.old.items stack.new.items) }
    ensures fit { OnOk result (IsFit live.now stack.new.items) }
    ensures there { IfOk result (λ r. (cells : Store) → IsBegunThere cells r) }
    ensures ready { IfOk result (IsBegunReady live.now.objects) }
{
    match efun {
        Efun::CallOther => begin_call(live, stack, low),
        Efun::LoadObject => begin_load(live, stack, low),
        Efun::MoveObject => begin_move(live, stack, low),
        Efun::Filter => begin_items(live, caller, stack, low, true),
        Efun::Map => begin_items(live, caller, stack, low, false),
        Efun::TellObject => begin_tell(live, stack, low),
        Efun::Write => begin_write(live, stack, low),
        Efun::Printf => begin_printf(live, stack, low),
        Efun::TellRoom => begin_room(live, stack, low),
        Efun::Say => begin_say(live, caller, stack, low),
        Efun::Present => begin_present(live, caller, stack, low),
        Efun::ReadFile => begin_read(live, caller, stack, low),
        Efun::FileSize => begin_size(live, caller, stack, low),
        Efun::WriteFile => begin_append(live, caller, stack, low),
        Efun::Rm => begin_remove(live, caller, stack, low),
        Efun::SaveObject => begin_save(live, caller, stack, low),
        Efun::RestoreObject => begin_restore(live, caller, stack, low),
        _ => unreachable!(),
    }
}

/// What an efun costs before it acts, with the arguments above a place.
fn price_above(
    efun: Efun,
    stack: &Vec<Value>,
    low: usize,
    cells: &Cells,
    objects: &ObjectTable,
) -> u128
    requires low { low ≤ length stack.now.items }
    requires there { All (IsThere cells.now) stack.now.items }
    ensures { (s : State) → living s ≡ live_in objects.now → cells_of s ≡ cells.now → result ≡ price_before efun (drop low stack.now.items) s }
{
    price_before(efun, above(stack, low), cells, objects)
}

/// The number, counted from 1, of the first argument above a place that is of another kind than the efun takes.
fn bad_above(efun: Efun, stack: &Vec<Value>, low: usize, objects: &ObjectTable) -> Option<u64>
    requires low { low ≤ length stack.now.items }
    ensures { (cells : Store) → result ≡ first_bad 1 (kinds efun) (map (operand (live_in objects.now) cells) (drop low stack.now.items)) }
{
    first_bad(efun, above(stack, low), objects)
}

/// An efun that calls LPC begins, with so many arguments on top of the stack.
///
/// The price before is paid first; then the first argument of another kind than the efun takes is an error; then the efun goes
/// on as a job, or ends. Where it ends its arguments are gone from the stack. The job's values lie above what lay below them.
///
/// # Errors
/// `NoMemory`.
pub fn begin(
    live: &Live,
    caller: &Caller<'_>,
    stack: &mut Vec<Value>,
    efun: Efun,
    args: usize,
    budget: &mut u64,
) -> Result<Begun, CallingFault>
    requires calling { is_calling efun ≡ true }
    requires named { AreNamed live.now.names }
    requires args { args ≤ length stack.old.items }
    requires fit { IsFit live.now stack.old.items }
    ensures begins { IfOk result (λ r. Begins r efun caller.now live.now stack.old.items args budget.old stack.new.items budget.new) }
    ensures fit { OnOk result (IsFit live.now stack.new.items) }
    ensures there { IfOk result (IsBegunThere live.now.cells) }
    ensures spends { budget.new ≤ budget.old }
    ensures ready { IfOk result (IsBegunReady live.now.objects) }
{
    let low = stack.len() - args;
    let before = price_above(efun, stack, low, &live.cells, &live.objects);
    let is_paid = pay_wide(budget, before);
    if !is_paid {
        return Ok(begin_end(stack, low, Answer::Spent));
    }
    match bad_above(efun, stack, low, &live.objects) {
        Some(number) => begin_bad(live.alloc, stack, low, efun, number),
        None => start(live, caller, stack, low, efun),
    }
}
