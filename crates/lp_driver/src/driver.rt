//! The driver: its start, and its turns.
ghost use Rattle.std.specs.Prelude.{◌≡◌, ◌≤◌, ◌^◌, [], IfErr, IfOk, IsOk, List, OnOk, length, true};
ghost use Rattle.lp_objects.specs.Objects.{Named};
ghost use Rattle.lp_objects.specs.Stands.{Stands as AreNamed, died_in};
ghost use Rattle.lp_first.specs.First.{HasFiles};
ghost use Rattle.lp_language.specs.World.{File, World};
ghost use Rattle.lp_world.specs.Closed.{IsClosed};
ghost use Rattle.lp_vm.specs.Causes.{Tells, read_of};
ghost use Rattle.lp_vm.specs.declared.fault.VmFault.TheVariants.{NoMemory};
ghost use Rattle.lp_driver.specs.Driving.{HasNoMasterIf, IsAtRest, IsNoMasterOf, StartTells, StartsAs, TurnsAs, start_answer};
ghost use Rattle.lp_driver.specs.Tidying.{HasBegun, HasNeededAlone, HasTidied, TurnTells, drops_behind};
ghost use Rattle.lp_driver.specs.Turning.{IsSwap, MayCome, NamesNobody};

use crate::events::carry_out;
use crate::starting::{Started, run_start};
use crate::tidying::{drop_versions, end_turn, tidy};
use lp_asking::truth::Truthful;
use lp_events::event::Event;
use lp_events::out::Outs;
use lp_files::store::Store;
use lp_first::first::first_state;
use lp_front_end::law_there_is_one;
use lp_residence::answers::Idled;
use lp_tree::fault::Fault;
use lp_vm::fault::VmFault;
use lp_world::live::Live;
use std::alloc::Global;

/// Why the driver did not start.
#[derive(Drop)]
pub enum StartFault {
    /// There is no master, for these faults.
    NoMaster {
        /// The faults.
        faults: Vec<Fault>,
    },
    /// A call was not carried out.
    Stopped(VmFault),
}

/// The turn of an event is carried out, and is over. Behind a reload, and behind a turn that made a version, the versions that nothing
/// needs are gone. The turn of a swap item does nothing, and takes no memory.
///
/// # Errors
/// As `turn`.
fn carry_turn<W: Truthful>(live: &mut Live, swap: &mut W, event: &Event) -> Result<Outs, VmFault>
    requires may { MayCome event.now }
    requires closed { IsClosed live.old }
    requires rest { (w : World) × IsAtRest (W.content swap.old) live.old w }
    ensures turns { IfOk result (λ outs. TurnsAs event.now (W.content swap.old) live.old (W.content swap.new) live.new outs) }
    ensures forgotten { OnOk result (died_in live.new.names ≡ []) }
    ensures needed { OnOk result (drops_behind event.now (length live.old.versions) (length live.new.versions) ≡ true → HasNeededAlone live.new) }
    ensures swaps { IsSwap event.now → IfOk result (λ outs. outs ≡ []) × IsOk result × ((objects : List Named) → AreNamed live.old.names objects → AreNamed live.new.names objects) }
    ensures closed { OnOk result (IsClosed live.new) }
    ensures rest { OnOk result ((w : World) × IsAtRest (W.content swap.new) live.new w) }
    ensures tells { Tells (W.content swap.new) (W.last swap.new) (W.read_faults swap.old) (W.read_faults swap.new) (W.write_faults swap.old) (W.write_faults swap.new)
        (W.is_truthful swap.old) (W.is_truthful swap.new) (W.is_honest swap.old) (W.is_honest swap.new) live.new (read_of result) }
{
    law_there_is_one();
    let before = live.versions.len();
    let mut stack = Vec::new(live.alloc);
    carry_out(live, swap, &mut stack, event)?;
    let outs = end_turn(live);
    match drop_versions(live, event, before) {
        Ok(()) => Ok(outs),
        Err(_) => {
            drop(outs);
            Err(VmFault::NoMemory)
        }
    }
}

/// One turn carries out one event, and gives its outputs, with how many objects and versions went out behind it and how many were kept.
/// The moment of a tick is at most 10^12 seconds. Behind it what ended is forgotten; behind a reload, and where a version was made in
/// the turn, each version goes that no object has and no needed version names; and where the swap file tells what it holds, what is to go
/// out goes out: behind a tick what is live and in memory and had no entry for `swap_time` seconds (0 means never), objects by serial
/// and then versions by number; for a swap item the live object of its name, and then its version. Each goes out or stays for a cause,
/// and the live state stands for the same world. A swap item has no outputs, and takes no memory where no live object has its name.
///
/// # Errors
/// `NoMemory`, also where the swap file gave other bytes of the same digest; `Swap` where it failed or gave bytes of another
/// digest; for a swap item `NoMemory` alone. Nothing is said of the state then.
pub fn turn<W: Truthful>(
    live: &mut Live,
    swap: &mut W,
    swap_time: u64,
    event: &Event,
) -> Result<(Outs, Idled), VmFault>
    requires may { MayCome event.now }
    requires closed { IsClosed live.old }
    requires rest { (w : World) × IsAtRest (W.content swap.old) live.old w }
    ensures turns { IfOk result (λ r. TurnsAs event.now (W.content swap.old) live.old (W.content swap.new) live.new r.0) }
    ensures tidies { IfOk result (λ r. HasTidied swap_time event.now (W.content swap.old) (W.write_faults swap.old) live.old (W.content swap.new) (W.write_faults swap.new) live.new r.1) }
    ensures swaps { IsSwap event.now → IfOk result (λ r. r.0 ≡ []) × IfErr result (λ f. f ≡ NoMemory) }
    ensures quiet { NamesNobody event.now live.old.names → IsOk result }
    ensures closed { OnOk result (IsClosed live.new) }
    ensures rest { OnOk result ((w : World) × IsAtRest (W.content swap.new) live.new w) }
    ensures tells { TurnTells (W.content swap.new) (W.last swap.new) (W.read_faults swap.old) (W.read_faults swap.new)
        (W.is_truthful swap.old) (W.is_truthful swap.new) (W.is_honest swap.old) (W.is_honest swap.new) live.new (read_of result) }
{
    let outs = carry_turn(live, swap, event)?;
    match tidy(live, swap, swap_time, event) {
        Ok(idled) => Ok((outs, idled)),
        Err(_) => {
            drop(outs);
            Err(VmFault::NoMemory)
        }
    }
}

/// How a start ended: with the live state and its outputs, or with a fault.
fn finish(mut live: Live, end: Started) -> Result<(Live, Outs), StartFault>
    requires closed { IsClosed live }
    ensures begins { IfOk result (λ r. HasBegun end live r.0 r.1) }
    ensures none { IfErr result (IsNoMasterOf end) }
    ensures closed { IfOk result (λ r. IsClosed r.0) }
{
    match end {
        Started::Begins => {
            let outs = end_turn(&mut live);
            Ok((live, outs))
        }
        Started::NoMaster(faults) => Err(StartFault::NoMaster { faults }),
    }
}

/// The driver starts on files, with a seed of its generator and at a moment: the master is loaded, and what it names. It gives the
/// live state and the outputs.
///
/// # Errors
/// `NoMaster` where no object of the master's name was made, with the faults of the file at which its load ended, or that of an
/// aborted load. `Stopped` with `NoMemory`, also where the swap file gave other bytes of the same digest; with `Swap` where it
/// failed or gave bytes of another digest.
pub fn start<W: Truthful>(
    alloc: Global,
    store: Store,
    seed: u64,
    moment: u64,
    swap: &mut W,
) -> Result<(Live, Outs), StartFault>
    requires moment { moment ≤ 10 ^ 12 }
    requires files { (files : List File) × HasFiles store files }
    ensures starts { IfOk result (λ r. StartsAs store seed moment (W.content swap.new) r.0 r.1) }
    ensures none { IfErr result (HasNoMasterIf store seed moment) }
    ensures closed { IfOk result (λ r. IsClosed r.0) }
    ensures rest { IfOk result (λ r. (w : World) × IsAtRest (W.content swap.new) r.0 w) }
    ensures tells { StartTells (W.content swap.new) (W.last swap.new) (W.read_faults swap.old) (W.read_faults swap.new) (W.write_faults swap.old) (W.write_faults swap.new)
        (W.is_truthful swap.old) (W.is_truthful swap.new) (W.is_honest swap.old) (W.is_honest swap.new) (start_answer result) }
{
    law_there_is_one();
    let mut live = first_state(alloc, store, seed, moment);
    let mut stack = Vec::new(alloc);
    match run_start(&mut live, swap, &mut stack) {
        Ok(end) => finish(live, end),
        Err(fault) => Err(StartFault::Stopped(fault)),
    }
}
