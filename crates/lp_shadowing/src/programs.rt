//! Programs of objects come into memory.
ghost use Rattle.std.specs.Prelude.{◌≡◌, IsSome, Some};
ghost use Rattle.std.specs.Option.{option_copied};
ghost use Rattle.lp_world.specs.Closed.{IsClosed};
ghost use Rattle.lp_world.specs.Rows.{row_at};
ghost use Rattle.lp_world.specs.declared.objects.Object.{Object};
ghost use Rattle.lp_targets.specs.Brought.{Brings, program_at};
ghost use Rattle.lp_shadowing.specs.Shadowing.{StandsOver};

use lp_residence::answers::EnterFault;
use lp_residence::returning::enter_program;
use lp_swapfile::SwapFile;
use lp_values::id::{ObjId, ProgId};
use lp_world::live::Live;
use lp_world::shared::SharedProgram;
use lp_world::versions::{ProgramState, VersionTable};

/// The program of a version that is in memory.
fn program_of(versions: &VersionTable, p: ProgId) -> Option<&SharedProgram>
    ensures { option_copied result ≡ program_at versions.now p }
{
    match versions.get(p) {
        Some(v) => match &v.state {
            ProgramState::Resident(program) => Some(program),
            ProgramState::Swapped(_) => None,
        },
        None => None,
    }
}

/// The version of an object.
fn version_of(live: &Live, ob: ObjId) -> ProgId
    requires { IsSome (row_at live.now.objects ob.0) }
    ensures { (o : Object) → row_at live.now.objects ob.0 ≡ Some o → result ≡ o.program }
{
    match live.objects.get(ob) {
        Some(o) => o.program,
        None => unreachable!(),
    }
}

/// The program of an object's version, where it is in memory.
pub(crate) fn program_in(live: &Live, ob: ObjId) -> Option<&SharedProgram>
    requires { IsSome (row_at live.now.objects ob.0) }
    ensures { (o : Object) → row_at live.now.objects ob.0 ≡ Some o → option_copied result ≡ program_at live.now.versions o.program }
{
    program_of(&live.versions, version_of(live, ob))
}

/// Brings the program of a version into memory.
fn bring_program<W: SwapFile>(live: &mut Live, swap: &mut W, p: ProgId) -> Result<(), EnterFault>
    requires closed { IsClosed live.old }
    requires there { IsSome (row_at live.old.versions p.0) }
    ensures brings { Brings (W.content swap.old) (W.content swap.new) (W.last swap.new) (W.read_faults swap.old) (W.read_faults swap.new) (W.write_faults swap.old) (W.write_faults swap.new)
        (W.is_truthful swap.old) (W.is_truthful swap.new) (W.is_honest swap.old) (W.is_honest swap.new) live.old live.new result }
    ensures closed { IsClosed live.new }
    ensures stands { W.is_truthful swap.new → StandsOver (W.content swap.old) live.old (W.content swap.new) live.new }
{
    enter_program(live, swap, p)
}

/// Brings the program of an object's version into memory.
fn bring_own<W: SwapFile>(live: &mut Live, swap: &mut W, ob: ObjId) -> Result<(), EnterFault>
    requires closed { IsClosed live.old }
    requires there { IsSome (row_at live.old.objects ob.0) }
    ensures brings { Brings (W.content swap.old) (W.content swap.new) (W.last swap.new) (W.read_faults swap.old) (W.read_faults swap.new) (W.write_faults swap.old) (W.write_faults swap.new)
        (W.is_truthful swap.old) (W.is_truthful swap.new) (W.is_honest swap.old) (W.is_honest swap.new) live.old live.new result }
    ensures closed { IsClosed live.new }
    ensures stands { W.is_truthful swap.new → StandsOver (W.content swap.old) live.old (W.content swap.new) live.new }
{
    let version = version_of(live, ob);
    bring_program(live, swap, version)
}

/// Brings the programs of two objects' versions into memory.
pub(crate) fn bring_both<W: SwapFile>(
    live: &mut Live,
    swap: &mut W,
    first: ObjId,
    second: ObjId,
) -> Result<(), EnterFault>
    requires closed { IsClosed live.old }
    requires first { IsSome (row_at live.old.objects first.0) }
    requires second { IsSome (row_at live.old.objects second.0) }
    ensures brings { Brings (W.content swap.old) (W.content swap.new) (W.last swap.new) (W.read_faults swap.old) (W.read_faults swap.new) (W.write_faults swap.old) (W.write_faults swap.new)
        (W.is_truthful swap.old) (W.is_truthful swap.new) (W.is_honest swap.old) (W.is_honest swap.new) live.old live.new result }
    ensures closed { IsClosed live.new }
    ensures stands { W.is_truthful swap.new → StandsOver (W.content swap.old) live.old (W.content swap.new) live.new }
{
    match bring_own(live, swap, first) {
        Ok(()) => bring_own(live, swap, second),
        Err(e) => Err(e),
    }
}
