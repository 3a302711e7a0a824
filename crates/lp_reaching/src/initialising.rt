//! Calls of initialisers.
ghost use Rattle.std.specs.Prelude.{◌≡◌, IfOk, IfSome, IsSome, List, OnOk, Some, slice_get};
ghost use Rattle.lp_code.specs.declared.program.RawProgram.{RawProgram as Raw};
ghost use Rattle.lp_language.specs.Course.{Ask};
ghost use Rattle.lp_asking.specs.declared.asker.Asker.{Asker};
ghost use Rattle.lp_step.specs.Steps.{KeepsVariables};
ghost use Rattle.lp_world.specs.Closed.{IsClosed};
ghost use Rattle.lp_world.specs.Rows.{row_at};
ghost use Rattle.lp_world.specs.declared.objects.Object.{Object};
ghost use Rattle.lp_targets.specs.Brought.{Brings, program_at};
ghost use Rattle.lp_targets.specs.Callees.{IsCalleeThere, IsWorldOf};
ghost use Rattle.lp_reaching.specs.Leading.{CanLeadToInitialisers, LeadsToInitialisers};
ghost use Rattle.lp_reaching.specs.Reaching.{CanInitialise, FindsInitialisers, IsInMemory, ReachesIf};

use crate::reached::Reached;
use lp_asking::truth::Truthful;
use lp_frames::entry::Callee;
use lp_initialisers::bringing::bring_program;
use lp_initialisers::looking::part_version;
use lp_initialisers::parts::initialisers_of;
use lp_residence::answers::EnterFault;
use lp_targets::bringing::bring_in;
use lp_values::id::{ObjId, ProgId};
use lp_world::live::Live;

/// The version of an object.
fn version_of(live: &Live, ob: ObjId) -> ProgId
    requires { IsSome (row_at live.now.objects ob.0) }
    ensures { (o : Object) → row_at live.now.objects ob.0 ≡ Some o → result ≡ o.program }
{
    match live.objects.get(ob) {
        Some(o) => o.program,
        None => unreachable!(),
    }
}

/// Brings in what initialisers need that were found, where the device tells the truth.
fn bring_initialisers<W: Truthful>(
    live: &mut Live,
    swap: &mut W,
    callee: Callee,
    caller: Option<ObjId>,
) -> Result<Option<Reached>, EnterFault>
    requires closed { IsClosed live.old }
    requires object { IsSome (row_at live.old.objects callee.this.0) }
    requires there { IsCalleeThere live.old.versions callee }
    requires can { CanLeadToInitialisers (W.content swap.old) live.old caller callee }
    ensures brings { Brings (W.content swap.old) (W.content swap.new) (W.last swap.new) (W.read_faults swap.old) (W.read_faults swap.new) (W.write_faults swap.old) (W.write_faults swap.new)
        (W.is_truthful swap.old) (W.is_truthful swap.new) (W.is_honest swap.old) (W.is_honest swap.new) live.old live.new result }
    ensures closed { IsClosed live.new }
    ensures found { IfOk result (λ r. (programs : List Raw) (asker : Asker) (a : Ask) → LeadsToInitialisers programs asker caller a callee → IsWorldOf (W.content swap.old) programs live.old a.world
        → ReachesIf (W.content swap.new) programs live.new asker a r) }
    ensures there { IfOk result (λ r. IfSome r (λ x. IsInMemory live.new x.callee x.code)) }
    ensures truthful { OnOk result (W.is_truthful swap.new) }
{
    match bring_in(live, swap, callee) {
        Ok(code) => {
            if swap.tells_truth() {
                Ok(Some(Reached {
                    callee,
                    code,
                    caller,
                }))
            } else {
                Err(EnterFault::NoMemory)
            }
        }
        Err(e) => Err(e),
    }
}

/// The initialisers of a part, which is of this version by the tables of the program of the object's version, where that is in
/// memory. The program of the part comes into memory, and what its initialisers need.
fn initialisers_in<W: Truthful>(
    live: &mut Live,
    swap: &mut W,
    caller: Option<ObjId>,
    ob: ObjId,
    part: u16,
    version: ProgId,
    program: ProgId,
) -> Result<Option<Reached>, EnterFault>
    requires closed { IsClosed live.old }
    requires object { IsSome (row_at live.old.objects ob.0) }
    requires version { (o : Object) → row_at live.old.objects ob.0 ≡ Some o → version ≡ o.program }
    requires here { IsSome (program_at live.old.versions version) }
    requires listed { (raw : Raw) → program_at live.old.versions version ≡ Some raw → Some program ≡ slice_get raw.tables.parts part }
    requires can { CanInitialise (W.content swap.old) live.old caller ob part }
    ensures brings { Brings (W.content swap.old) (W.content swap.new) (W.last swap.new) (W.read_faults swap.old) (W.read_faults swap.new) (W.write_faults swap.old) (W.write_faults swap.new)
        (W.is_truthful swap.old) (W.is_truthful swap.new) (W.is_honest swap.old) (W.is_honest swap.new) live.old live.new result }
    ensures closed { IsClosed live.new }
    ensures found { IfOk result (λ r. FindsInitialisers caller ob part (W.content swap.old) live.old (W.content swap.new) live.new r) }
    ensures there { IfOk result (λ r. IfSome r (λ x. IsInMemory live.new x.callee x.code)) }
    ensures truthful { OnOk result (W.is_truthful swap.new) }
{
    match bring_program(live, swap, program) {
        Ok(()) => match initialisers_of(&live.versions, version, ob, part, program) {
            Some(callee) => bring_initialisers(live, swap, callee, caller),
            None => Ok(None),
        },
        Err(e) => Err(e),
    }
}

/// The initialisers of a part of an object's program, which has some. The caller, where an efun calls them, is the latest caller
/// then. What is needed for them comes into memory: the program of the object's version, that in whose text they stand, and
/// the object.
///
/// # Errors
/// `Swap` where the read of one of these failed, or gave other bytes than were written; that one is out still. `NoMemory`
/// where memory ran out, and where the device did not tell the truth.
pub fn find_initialisers<W: Truthful>(
    live: &mut Live,
    swap: &mut W,
    caller: Option<ObjId>,
    ob: ObjId,
    part: u16,
) -> Result<Option<Reached>, EnterFault>
    requires closed { IsClosed live.old }
    requires object { IsSome (row_at live.old.objects ob.0) }
    requires can { CanInitialise (W.content swap.old) live.old caller ob part }
    ensures found { IfOk result (λ r. FindsInitialisers caller ob part (W.content swap.old) live.old (W.content swap.new) live.new r) }
    ensures there { IfOk result (λ r. IfSome r (λ x. IsInMemory live.new x.callee x.code)) }
    ensures brings { Brings (W.content swap.old) (W.content swap.new) (W.last swap.new) (W.read_faults swap.old) (W.read_faults swap.new) (W.write_faults swap.old) (W.write_faults swap.new)
        (W.is_truthful swap.old) (W.is_truthful swap.new) (W.is_honest swap.old) (W.is_honest swap.new) live.old live.new result }
    ensures closed { IsClosed live.new }
    ensures home { KeepsVariables live.old.objects live.new.objects }
    ensures cells { live.new.cells ≡ live.old.cells }
    ensures outputs { live.new.outputs ≡ live.old.outputs }
    ensures truthful { OnOk result (W.is_truthful swap.new) }
{
    let version = version_of(live, ob);
    match bring_program(live, swap, version) {
        Ok(()) => match part_version(&live.versions, version, part as usize) {
            Some(program) => initialisers_in(live, swap, caller, ob, part, version, program),
            None => Ok(None),
        },
        Err(e) => Err(e),
    }
}
