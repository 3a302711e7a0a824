//! The driver asks: its arguments, and who it is.
ghost use Rattle.std.specs.Prelude.{◌≡◌, ◌++◌, IfOk, IfErr, OnOk, length};
ghost use Rattle.lp_vm.specs.declared.fault.VmFault.TheVariants.{NoMemory};
ghost use Rattle.lp_driver.specs.Carrying.{IsDriver};

use lp_asking::asker::Asker;
use lp_efuns::caller::Turn;
use lp_values::id::ObjId;
use lp_values::value::Value;
use lp_vm::fault::VmFault;
use std::alloc::Global;

/// Who asks where the driver does, for a `this_player()` and a `this_interactive()`. Takes no memory.
pub(crate) fn asker_for(alloc: Global, player: Option<ObjId>, interactive: Option<ObjId>) -> Asker
    ensures { IsDriver player interactive result }
{
    Asker {
        turn: Turn {
            player,
            commands: Vec::new(alloc),
        },
        interactive,
        loads: Vec::new(alloc),
        callers: Vec::new(alloc),
        depth: 0,
    }
}

/// Arguments come on top of the stack. It tells how many they are.
///
/// # Errors
/// `NoMemory`, also where that has no number.
pub(crate) fn lay(stack: &mut Vec<Value>, mut arguments: Vec<Value>) -> Result<u32, VmFault>
    ensures laid { OnOk result (stack.new.items ≡ stack.old.items ++ arguments.items) }
    ensures many { IfOk result (λ n. n ≡ length arguments.items) }
    ensures fault { IfErr result (λ e. e ≡ NoMemory) }
{
    let many = arguments.len();
    if many > 4294967295 {
        return Err(VmFault::NoMemory);
    }
    stack.append(&mut arguments)?;
    Ok(many as u32)
}
