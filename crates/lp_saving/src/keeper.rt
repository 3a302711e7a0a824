//! An object comes into memory with its program.
ghost use Rattle.std.specs.Prelude.{◌≡◌, IfOk, IsSome, OnOk, Some};
ghost use Rattle.lp_world.specs.Closed.{IsClosed};
ghost use Rattle.lp_world.specs.Rows.{row_at, variables_at};
ghost use Rattle.lp_world.specs.declared.objects.Object.{Object};
ghost use Rattle.lp_targets.specs.Brought.{Brings, program_at};
ghost use Rattle.lp_saving.specs.Saving.{IsKeeper, StandsOver};

use lp_residence::answers::EnterFault;
use lp_residence::entering::enter;
use lp_residence::returning::enter_program;
use lp_swapfile::SwapFile;
use lp_values::id::{ObjId, ProgId};
use lp_world::live::Live;
use lp_world::shared::SharedProgram;
use lp_world::versions::{ProgramState, VersionTable};
use std::alloc::AllocError;

/// The program of a version that is in memory, to keep.
fn share_program(versions: &VersionTable, p: ProgId) -> Result<SharedProgram, AllocError>
    ensures { IfOk result (λ code. program_at versions.now p ≡ Some code) }
{
    match versions.get(p) {
        Some(v) => match &v.state {
            ProgramState::Resident(program) => program.share(),
            ProgramState::Swapped(_) => Err(AllocError),
        },
        None => Err(AllocError),
    }
}

/// Brings an object into memory.
fn bring_object<W: SwapFile>(live: &mut Live, swap: &mut W, ob: ObjId) -> Result<(), EnterFault>
    requires closed { IsClosed live.old }
    requires there { IsSome (row_at live.old.objects ob.0) }
    ensures brings { Brings (W.content swap.old) (W.content swap.new) (W.last swap.new) (W.read_faults swap.old) (W.read_faults swap.new) (W.write_faults swap.old) (W.write_faults swap.new)
        (W.is_truthful swap.old) (W.is_truthful swap.new) (W.is_honest swap.old) (W.is_honest swap.new) live.old live.new result }
    ensures closed { IsClosed live.new }
    ensures stands { W.is_truthful swap.new → StandsOver (W.content swap.old) live.old (W.content swap.new) live.new }
    ensures here { OnOk result (IsSome (variables_at live.new.objects ob)) }
{
    enter(live, swap, ob)
}

/// Brings the program of a version into memory.
fn bring_program<W: SwapFile>(live: &mut Live, swap: &mut W, p: ProgId) -> Result<(), EnterFault>
    requires closed { IsClosed live.old }
    requires there { IsSome (row_at live.old.versions p.0) }
    ensures brings { Brings (W.content swap.old) (W.content swap.new) (W.last swap.new) (W.read_faults swap.old) (W.read_faults swap.new) (W.write_faults swap.old) (W.write_faults swap.new)
        (W.is_truthful swap.old) (W.is_truthful swap.new) (W.is_honest swap.old) (W.is_honest swap.new) live.old live.new result }
    ensures closed { IsClosed live.new }
    ensures stands { W.is_truthful swap.new → StandsOver (W.content swap.old) live.old (W.content swap.new) live.new }
{
    enter_program(live, swap, p)
}

/// The version of an object.
fn version_of(live: &Live, ob: ObjId) -> ProgId
    requires { IsSome (row_at live.now.objects ob.0) }
    ensures { (o : Object) → row_at live.now.objects ob.0 ≡ Some o → result ≡ o.program }
{
    match live.objects.get(ob) {
        Some(o) => o.program,
        None => unreachable!(),
    }
}

/// The program of an object that is in memory, which comes into memory.
fn bring_own<W: SwapFile>(
    live: &mut Live,
    swap: &mut W,
    ob: ObjId,
) -> Result<SharedProgram, EnterFault>
    requires closed { IsClosed live.old }
    requires here { IsSome (variables_at live.old.objects ob) }
    ensures brings { Brings (W.content swap.old) (W.content swap.new) (W.last swap.new) (W.read_faults swap.old) (W.read_faults swap.new) (W.write_faults swap.old) (W.write_faults swap.new)
        (W.is_truthful swap.old) (W.is_truthful swap.new) (W.is_honest swap.old) (W.is_honest swap.new) live.old live.new result }
    ensures closed { IsClosed live.new }
    ensures stands { W.is_truthful swap.new → StandsOver (W.content swap.old) live.old (W.content swap.new) live.new }
    ensures keeper { IfOk result (λ code. IsKeeper live.new ob code) }
{
    let version = version_of(live, ob);
    match bring_program(live, swap, version) {
        Ok(()) => match share_program(&live.versions, version) {
            Ok(code) => Ok(code),
            Err(_) => Err(EnterFault::NoMemory),
        },
        Err(e) => Err(e),
    }
}

/// An object that has its row comes into memory with its program.
fn bring_there<W: SwapFile>(
    live: &mut Live,
    swap: &mut W,
    ob: ObjId,
) -> Result<SharedProgram, EnterFault>
    requires closed { IsClosed live.old }
    requires there { IsSome (row_at live.old.objects ob.0) }
    ensures brings { Brings (W.content swap.old) (W.content swap.new) (W.last swap.new) (W.read_faults swap.old) (W.read_faults swap.new) (W.write_faults swap.old) (W.write_faults swap.new)
        (W.is_truthful swap.old) (W.is_truthful swap.new) (W.is_honest swap.old) (W.is_honest swap.new) live.old live.new result }
    ensures closed { IsClosed live.new }
    ensures stands { W.is_truthful swap.new → StandsOver (W.content swap.old) live.old (W.content swap.new) live.new }
    ensures keeper { IfOk result (λ code. IsKeeper live.new ob code) }
{
    match bring_object(live, swap, ob) {
        Ok(()) => bring_own(live, swap, ob),
        Err(e) => Err(e),
    }
}

/// An object comes into memory with its program, which is given. Where the state has no such object it is refused as want of memory is.
pub(crate) fn bring_keeper<W: SwapFile>(
    live: &mut Live,
    swap: &mut W,
    ob: ObjId,
) -> Result<SharedProgram, EnterFault>
    requires closed { IsClosed live.old }
    ensures brings { Brings (W.content swap.old) (W.content swap.new) (W.last swap.new) (W.read_faults swap.old) (W.read_faults swap.new) (W.write_faults swap.old) (W.write_faults swap.new)
        (W.is_truthful swap.old) (W.is_truthful swap.new) (W.is_honest swap.old) (W.is_honest swap.new) live.old live.new result }
    ensures closed { IsClosed live.new }
    ensures stands { W.is_truthful swap.new → StandsOver (W.content swap.old) live.old (W.content swap.new) live.new }
    ensures keeper { IfOk result (λ code. IsKeeper live.new ob code) }
{
    if live.objects.get(ob).is_none() {
        return Err(EnterFault::NoMemory);
    }
    bring_there(live, swap, ob)
}
