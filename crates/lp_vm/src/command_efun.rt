//! The efun `command`: how it begins, whom it makes `this_player()`, and how it ends.
ghost use Rattle.std.specs.Prelude.{◌≡◌, ◌≤◌, IfErr, IfOk, OnOk, length};
ghost use Rattle.std.specs.Bool.{OnTrue};
ghost use Rattle.lp_instr.specs.declared.efun.Efun.TheVariants as efuns;
ghost use Rattle.lp_step.specs.Steps.{IsFit};
ghost use Rattle.lp_asking.specs.Endings.{IsEndingThere};
ghost use Rattle.lp_commanding.specs.Efuns.{IsBegunThere};
ghost use Rattle.lp_vm.specs.declared.fault.VmFault.TheVariants.{NoMemory};
ghost use Rattle.lp_vm.specs.CommandEfun.{BeginsAt, EndsAs, with_player};
ghost use Rattle.lp_vm.specs.Efuns.{is_command};

use crate::efuns::ending_of;
use crate::fault::VmFault;
use lp_asking::asker::Asker;
use lp_asking::ending::{Ending, Place};
use lp_commanding::efun::{begin_efun, end_efun};
use lp_commanding::job::CommandBegun;
use lp_efuns::caller::Caller;
use lp_instr::efun::Efun;
use lp_values::id::ObjId;
use lp_values::value::Value;
use lp_world::live::Live;

/// Whether an efun carries out a line.
pub fn is_command(efun: Efun) -> bool
    ensures value { result ≡ is_command efun }
    ensures only { OnTrue result (efun ≡ efuns.Command) }
{
    match efun {
        Efun::Command => true,
        _ => false,
    }
}

/// `command` begins, which the function at a place calls, with so many arguments on top of the stack, which are taken.
///
/// # Errors
/// `NoMemory`.
pub fn begin_command_efun(
    live: &Live,
    stack: &mut Vec<Value>,
    asker: &Asker,
    at: Place,
    args: u32,
    budget: &mut u64,
) -> Result<CommandBegun, VmFault>
    requires args { args ≤ length stack.old.items }
    requires fit { IsFit live.now stack.old.items }
    ensures begins { IfOk result (λ r. BeginsAt r at asker.now live.now stack.old.items args budget.old stack.new.items budget.new) }
    ensures there { IfOk result (IsBegunThere live.now.cells) }
    ensures fit { OnOk result (IsFit live.now stack.new.items) }
    ensures spends { budget.new ≤ budget.old }
    ensures fault { IfErr result (λ f. f ≡ NoMemory) }
{
    let caller = Caller {
        this: at.this,
        interactive: asker.interactive,
        callers: asker.callers.as_slice(),
    };
    Ok(begin_efun(live, &caller, stack, args as usize, budget)?)
}

/// Another `this_player()` is put in the place of the one that was, which is answered.
pub fn put_player(asker: &mut Asker, player: Option<ObjId>) -> Option<ObjId>
    ensures was { result ≡ asker.old.turn.player }
    ensures put { asker.new ≡ with_player player asker.old }
{
    let was = asker.turn.player;
    asker.turn.player = player;
    was
}

/// `command` ends as its line was carried out, with this `this_player()` put back: with the value once its price is paid, or with the
/// stop.
pub fn end_command_efun(
    live: &Live,
    asker: &mut Asker,
    player: Option<ObjId>,
    ending: Ending,
    budget: &mut u64,
) -> Ending
    requires there { IsEndingThere live.now.cells ending }
    ensures back { asker.new ≡ with_player player asker.old }
    ensures ends { EndsAs ending live.now budget.old result budget.new }
    ensures there { IsEndingThere live.now.cells result }
    ensures spends { budget.new ≤ budget.old }
{
    asker.turn.player = player;
    match ending {
        Ending::Value(v) => ending_of(end_efun(live, v, budget)),
        Ending::Stopped(s) => Ending::Stopped(s),
    }
}
