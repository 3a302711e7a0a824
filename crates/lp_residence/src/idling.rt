//! What is idle goes out.
ghost use Rattle.std.specs.Prelude.{◌≡◌, ◌<◌, ◌≤◌, ◌+◌, ◌-◌, ◌^◌, IfOk, List, None, OnOk, filter, length, true};
ghost use Rattle.std.specs.Bool.{OnTrue};
ghost use Rattle.lp_code.specs.declared.program.RawProgram.{RawProgram as Raw};
ghost use Rattle.lp_language.specs.World.{World};
ghost use Rattle.lp_meaning.specs.IdleAndKept.{is_idle};
ghost use Rattle.lp_swapfile.specs.Device.{IsTold};
ghost use Rattle.lp_world.specs.Closed.{IsClosed};
ghost use Rattle.lp_world.specs.Rows.{row_at};
ghost use Rattle.lp_world.specs.Stands.{Stands};
ghost use Rattle.lp_residence.specs.Idling.{ArePut, AreUntouched, IsPutOne, IsTurn, IsUntouched, counted, first_objects, first_versions, goes, going, is_idle_object, is_idle_version, none_yet, together};
ghost use Rattle.lp_residence.specs.Owners.{is_there, ticket_at};

use crate::answers::{Idled, PutOut};
use crate::owner::Owner;
use crate::putting::put_out;
use lp_swapfile::SwapFile;
use lp_values::id::{ObjId, ProgId};
use lp_world::live::Live;
use lp_world::objects::ObjectState;
use lp_world::versions::ProgramState;
use std::alloc::AllocError;

/// Whether a clock is so far behind that what has it is idle.
fn is_long_ago(swap_time: u64, clock: u64, latest: u64) -> bool
    ensures { result ≡ is_idle swap_time clock latest }
{
    if swap_time == 0 {
        return false;
    }
    swap_time <= clock.saturating_sub(latest)
}

/// Whether an object goes.
fn object_goes(live: &Live, swap_time: u64, ob: ObjId) -> bool
    ensures { result ≡ is_idle_object swap_time live.now.clock (row_at live.now.objects ob.0) }
{
    match live.objects.get(ob) {
        Some(o) => {
            if !o.is_live {
                return false;
            }
            match &o.state {
                ObjectState::Resident(_) => is_long_ago(swap_time, live.clock, o.latest),
                ObjectState::Swapped { .. } => false,
            }
        }
        None => false,
    }
}

/// Whether a version goes.
fn version_goes(live: &Live, swap_time: u64, p: ProgId) -> bool
    ensures { result ≡ is_idle_version swap_time live.now.clock (row_at live.now.versions p.0) }
{
    match live.versions.get(p) {
        Some(v) => match &v.state {
            ProgramState::Resident(_) => is_long_ago(swap_time, live.clock, v.latest),
            ProgramState::Swapped(_) => false,
        },
        None => false,
    }
}

/// Whether an object or a version goes.
fn owner_goes(live: &Live, swap_time: u64, who: Owner) -> bool
    ensures { result ≡ goes swap_time live.now who }
{
    match who {
        Owner::Object(ob) => object_goes(live, swap_time, ob),
        Owner::Program(p) => version_goes(live, swap_time, p),
    }
}

/// Counts one more.
fn count(counts: &mut Idled, answer: PutOut)
    requires { together counts.old < 2 ^ 64 - 1 }
    ensures { counts.new ≡ counted answer counts.old }
{
    match answer {
        PutOut::Out => counts.out += 1,
        PutOut::KeptFault => counts.fault += 1,
        PutOut::KeptFull => counts.full += 1,
        PutOut::NotThere => {}
        PutOut::Already => {}
    }
}

/// Puts one that goes out, and counts it.
fn put_one<W: SwapFile>(
    live: &mut Live,
    swap: &mut W,
    who: Owner,
    counts: &mut Idled,
) -> Result<(), AllocError>
    requires closed { IsClosed live.old }
    requires there { is_there live.old who ≡ true }
    requires here { ticket_at live.old who ≡ None }
    requires few { together counts.old < 2 ^ 64 - 1 }
    ensures closed { IsClosed live.new }
    ensures stands { IsTold (W.content swap.old) → IsTold (W.content swap.new) × ((programs : List Raw) (w : World) → Stands (W.content swap.old) programs live.old w → Stands (W.content swap.new) programs live.new w) }
    ensures put { OnOk result (IsPutOne who live.old (record { told = W.content swap.old; faults = W.write_faults swap.old }) counts.old live.new (record { told = W.content swap.new; faults = W.write_faults swap.new }) counts.new) }
    ensures read_faults { W.read_faults swap.new ≡ W.read_faults swap.old }
    ensures honest { W.is_honest swap.new → W.is_honest swap.old }
    ensures truthful { W.is_truthful swap.new → W.is_truthful swap.old }
{
    match put_out(live, swap, who) {
        Ok(answer) => {
            count(counts, answer);
            Ok(())
        }
        Err(e) => Err(e),
    }
}

/// Puts one out where it goes.
fn take_turn<W: SwapFile>(
    live: &mut Live,
    swap: &mut W,
    swap_time: u64,
    who: Owner,
    counts: &mut Idled,
) -> Result<(), AllocError>
    requires closed { IsClosed live.old }
    requires few { together counts.old < 2 ^ 64 - 1 }
    ensures closed { IsClosed live.new }
    ensures stands { IsTold (W.content swap.old) → IsTold (W.content swap.new) × ((programs : List Raw) (w : World) → Stands (W.content swap.old) programs live.old w → Stands (W.content swap.new) programs live.new w) }
    ensures turn { OnOk result (IsTurn (goes swap_time live.old who) who live.old (record { told = W.content swap.old; faults = W.write_faults swap.old }) counts.old live.new (record { told = W.content swap.new; faults = W.write_faults swap.new }) counts.new) }
    ensures read_faults { W.read_faults swap.new ≡ W.read_faults swap.old }
    ensures honest { W.is_honest swap.new → W.is_honest swap.old }
    ensures truthful { W.is_truthful swap.new → W.is_truthful swap.old }
{
    if owner_goes(live, swap_time, who) {
        return put_one(live, swap, who, counts);
    }
    Ok(())
}

/// Puts the objects out that go, by serial.
fn idle_objects<W: SwapFile>(
    live: &mut Live,
    swap: &mut W,
    swap_time: u64,
    counts: &mut Idled,
) -> Result<(), AllocError>
    requires closed { IsClosed live.old }
    requires none { counts.old ≡ none_yet }
    ensures closed { IsClosed live.new }
    ensures stands { IsTold (W.content swap.old) → IsTold (W.content swap.new) × ((programs : List Raw) (w : World) → Stands (W.content swap.old) programs live.old w → Stands (W.content swap.new) programs live.new w) }
    ensures put { OnOk result (ArePut (filter (goes swap_time live.old) (first_objects (length live.old.objects))) live.old (record { told = W.content swap.old; faults = W.write_faults swap.old }) none_yet live.new (record { told = W.content swap.new; faults = W.write_faults swap.new }) counts.new) }
    ensures untouched { OnOk result (IsUntouched (length live.old.objects) live.old live.new) }
    ensures few { OnOk result (together counts.new ≤ length live.old.objects) }
    ensures read_faults { W.read_faults swap.new ≡ W.read_faults swap.old }
    ensures honest { W.is_honest swap.new → W.is_honest swap.old }
    ensures truthful { W.is_truthful swap.new → W.is_truthful swap.old }
{
    let count = live.objects.len() as u64;
    for n in 0..count {
        take_turn(live, swap, swap_time, Owner::Object(ObjId(n)), counts)?;
    }
    Ok(())
}

/// Puts the programs of versions out that go, by number.
fn idle_versions<W: SwapFile>(
    live: &mut Live,
    swap: &mut W,
    swap_time: u64,
    counts: &mut Idled,
) -> Result<(), AllocError>
    requires closed { IsClosed live.old }
    requires few { together counts.old + length live.old.versions < 2 ^ 64 - 1 }
    ensures closed { IsClosed live.new }
    ensures stands { IsTold (W.content swap.old) → IsTold (W.content swap.new) × ((programs : List Raw) (w : World) → Stands (W.content swap.old) programs live.old w → Stands (W.content swap.new) programs live.new w) }
    ensures put { OnOk result (ArePut (filter (goes swap_time live.old) (first_versions (length live.old.versions))) live.old (record { told = W.content swap.old; faults = W.write_faults swap.old }) counts.old live.new (record { told = W.content swap.new; faults = W.write_faults swap.new }) counts.new) }
    ensures read_faults { W.read_faults swap.new ≡ W.read_faults swap.old }
    ensures honest { W.is_honest swap.new → W.is_honest swap.old }
    ensures truthful { W.is_truthful swap.new → W.is_truthful swap.old }
{
    let count = live.versions.len() as u64;
    for n in 0..count {
        take_turn(live, swap, swap_time, Owner::Program(ProgId(n)), counts)?;
    }
    Ok(())
}

/// How many objects and versions are counted at most.
const MOST: usize = 1152921504606846976;

/// Whether the objects and the versions are few enough to be counted.
fn are_few(live: &Live) -> bool
    ensures { OnTrue result ((length live.now.objects ≤ 1152921504606846976) × (length live.now.versions ≤ 1152921504606846976)) }
{
    if live.objects.len() > MOST {
        return false;
    }
    live.versions.len() <= MOST
}

/// Puts out what is idle, objects by serial and then versions by number: what is live and in memory, and whose
/// latest clock lies the swap time or more behind the clock of the state. The swap time 0 means never. It is to be
/// called between turns, where no function runs. Answers how many went out, and how many were kept for each cause.
///
/// After want of memory some may have gone out.
pub fn idle<W: SwapFile>(live: &mut Live, swap: &mut W, swap_time: u64) -> Result<Idled, AllocError>
    requires closed { IsClosed live.old }
    ensures closed { IsClosed live.new }
    ensures stands { IsTold (W.content swap.old) → (programs : List Raw) (w : World) → Stands (W.content swap.old) programs live.old w → Stands (W.content swap.new) programs live.new w }
    ensures put { IfOk result (λ n. ArePut (going swap_time live.old) live.old (record { told = W.content swap.old; faults = W.write_faults swap.old }) none_yet live.new (record { told = W.content swap.new; faults = W.write_faults swap.new }) n) }
    ensures all { IfOk result (λ n. together n ≡ length (going swap_time live.old)) }
    ensures read_faults { W.read_faults swap.new ≡ W.read_faults swap.old }
    ensures honest { W.is_honest swap.new → W.is_honest swap.old }
    ensures truthful { W.is_truthful swap.new → W.is_truthful swap.old }
{
    if !are_few(live) {
        return Err(AllocError);
    }
    let mut counts = Idled {
        out: 0,
        fault: 0,
        full: 0,
    };
    idle_objects(live, swap, swap_time, &mut counts)?;
    idle_versions(live, swap, swap_time, &mut counts)?;
    Ok(counts)
}
