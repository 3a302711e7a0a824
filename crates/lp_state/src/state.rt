//! The state, and its turns.
ghost use Rattle.std.specs.Prelude.{◌≡◌, ◌≤◌, ◌^◌, [], Err, IfErr, IfOk, IsOk, List, OnOk, Option, false, is_err, map, string_bytes, true, ℕ};
ghost use Rattle.std.specs.Option.{option_map};
ghost use Rattle.lp_files.specs.Paths.{without_path};
ghost use Rattle.lp_files.specs.Store.{changed_in, file_at};
ghost use Rattle.lp_first.specs.First.{HasFiles};
ghost use Rattle.lp_language.specs.World.{File, World};
ghost use Rattle.lp_swapfile.specs.Device.{Bytes};
ghost use Rattle.lp_report.specs.Report.{Reports};
ghost use Rattle.lp_residence.specs.Idling.{none_yet};
ghost use Rattle.lp_driver.specs.Driving.{HasNoMasterIf, IsAtRest, StartTells, StartsAs, TurnsAs, start_answer};
ghost use Rattle.lp_driver.specs.Tidying.{HasTidied, TurnTells};
ghost use Rattle.lp_driver.specs.Turning.{IsSwap, MayCome, NamesNobody};
ghost use Rattle.lp_state.specs.Faults.{reads_of};
ghost use Rattle.lp_state.specs.States.{AreSameEnds, GoesOn, IsAsBefore, has_failed_in, idled_in, live_in, swap_time_in};
ghost use Rattle.lp_state.specs.declared.fault.TurnFault.TheVariants.{HasFailed, NoMemory};

use crate::fault::{TurnFault, of_driver};
use lp_asking::truth::Truthful;
use lp_driver::VmFault;
use lp_driver::driver::{self, StartFault};
use lp_events::event::Event;
use lp_events::out::Outs;
use lp_files::store::Store;
use lp_report::report::{Report, report_of};
use lp_residence::answers::Idled;
use lp_tidying::counting::none_out;
use lp_world::live::Live;
use std::alloc::{AllocError, Global};

/// The state of a game between its turns.
#[derive(Drop)]
pub struct State {
    live: Live,
    swap_time: u64,
    has_failed: bool,
    idled: Idled,
}

/// The driver starts on files, with a seed of its generator and at a moment, at most 10^12 seconds. What has no entry for `swap_time`
/// seconds goes out behind each tick, where the swap file tells what it holds; 0 means never. It gives the state and the outputs.
///
/// # Errors
/// As the start of `lp_driver`.
pub fn start<W: Truthful>(
    alloc: Global,
    store: Store,
    seed: u64,
    moment: u64,
    swap_time: u64,
    swap: &mut W,
) -> Result<(State, Outs), StartFault>
    requires moment { moment ≤ 10 ^ 12 }
    requires files { (files : List File) × HasFiles store files }
    ensures starts { IfOk result (λ r. StartsAs store seed moment (W.content swap.new) (live_in r.0) r.1) }
    ensures goes { IfOk result (λ r. GoesOn (W.content swap.new) r.0) }
    ensures fresh { IfOk result (λ r. (has_failed_in r.0 ≡ false) × (swap_time_in r.0 ≡ swap_time) × (idled_in r.0 ≡ none_yet)) }
    ensures none { IfErr result (HasNoMasterIf store seed moment) }
    ensures tells { StartTells (W.content swap.new) (W.last swap.new) (W.read_faults swap.old) (W.read_faults swap.new) (W.write_faults swap.old) (W.write_faults swap.new)
        (W.is_truthful swap.old) (W.is_truthful swap.new) (W.is_honest swap.old) (W.is_honest swap.new) (start_answer result) }
{
    match driver::start(alloc, store, seed, moment, swap) {
        Ok((live, outs)) => Ok((
            State {
                live,
                swap_time,
                has_failed: false,
                idled: none_out(),
            },
            outs,
        )),
        Err(fault) => Err(fault),
    }
}

/// How a turn ended, noted in the state: what went out behind it, or that it failed.
fn note(state: &mut State, ended: Result<(Outs, Idled), VmFault>) -> Result<Outs, TurnFault>
    ensures live { (live_in state.new) ≡ (live_in state.old) }
    ensures time { swap_time_in state.new ≡ swap_time_in state.old }
    ensures fails { has_failed_in state.new ≡ is_err result }
    ensures same { AreSameEnds ended result }
    ensures idled { IfOk ended (λ r. idled_in state.new ≡ r.1) }
    ensures stays { IfErr ended (λ f. idled_in state.new ≡ idled_in state.old) }
{
    match ended {
        Ok((outs, idled)) => {
            state.idled = idled;
            state.has_failed = false;
            Ok(outs)
        }
        Err(fault) => {
            state.has_failed = true;
            Err(of_driver(fault))
        }
    }
}

/// One event has its turn, and its outputs are given. The moment of a tick is at most 10^12 seconds. What goes out behind it, `idled` tells.
///
/// # Errors
/// `HasFailed` exactly where an earlier turn of this state ended with a fault, and then nothing is done. `NoMemory`, also where the swap
/// file gave other bytes of the same digest; `Swap` where it failed or gave bytes of another digest; for a swap item `NoMemory` alone.
/// The state has failed then.
pub fn turn<W: Truthful>(state: &mut State, swap: &mut W, event: &Event) -> Result<Outs, TurnFault>
    requires may { MayCome event.now }
    requires goes { GoesOn (W.content swap.old) state.old }
    ensures goes { GoesOn (W.content swap.new) state.new }
    ensures turns { IfOk result (λ outs. TurnsAs event.now (W.content swap.old) (live_in state.old) (W.content swap.new) (live_in state.new) outs) }
    ensures tidies { OnOk result (HasTidied (swap_time_in state.old) event.now (W.content swap.old) (W.write_faults swap.old) (live_in state.old) (W.content swap.new) (W.write_faults swap.new) (live_in state.new) (idled_in state.new)) }
    ensures time { swap_time_in state.new ≡ swap_time_in state.old }
    ensures fails { has_failed_in state.new ≡ is_err result }
    ensures failed { has_failed_in state.old ≡ true → (result ≡ Err HasFailed) × (state.new ≡ state.old) × (swap.new ≡ swap.old) }
    ensures only { result ≡ Err HasFailed → has_failed_in state.old ≡ true }
    ensures swaps { has_failed_in state.old ≡ false → IsSwap event.now → IfOk result (λ outs. outs ≡ []) × IfErr result (λ f. f ≡ NoMemory) }
    ensures quiet { has_failed_in state.old ≡ false → NamesNobody event.now (live_in state.old).names → IsOk result }
    ensures tells { TurnTells (W.content swap.new) (W.last swap.new) (W.read_faults swap.old) (W.read_faults swap.new)
        (W.is_truthful swap.old) (W.is_truthful swap.new) (W.is_honest swap.old) (W.is_honest swap.new) (live_in state.new) (reads_of result) }
{
    if state.has_failed {
        return Err(TurnFault::HasFailed);
    }
    let ended = driver::turn(&mut state.live, swap, state.swap_time, event);
    note(state, ended)
}

impl State {
    /// The paths of the files that were written or removed and not told as written since, in rising order. Takes no memory.
    pub fn changed(&self) -> &[String]
        ensures { map string_bytes result.now ≡ changed_in (live_in self.now).store }
    {
        self.live.store.changed()
    }

    /// The bytes of a file. Takes no memory.
    pub fn bytes(&self, path: &str) -> Option<&[u8]>
        ensures { option_map (λ b. b.now) result ≡ file_at (live_in self.now).store path.now }
    {
        self.live.store.read(path)
    }

    /// Takes a path off the changed list, as one that is kept outside as it is here. Takes no memory.
    pub fn written(&mut self, path: &str)
        ensures files { (q : List ℕ) → file_at (live_in self.new).store q ≡ file_at (live_in self.old).store q }
        ensures changed { changed_in (live_in self.new).store ≡ without_path path.now (changed_in (live_in self.old).store) }
        ensures others { IsAsBefore self.old self.new }
        ensures goes { (told : Option Bytes) → GoesOn told self.old → GoesOn told self.new }
        ensures rest { (told : Option Bytes) (w : World) → IsAtRest told (live_in self.old) w → IsAtRest told (live_in self.new) w }
    {
        self.live.store.written(path);
    }

    /// The four numbers of a report: how many objects are live, how many of them are out, how many versions are kept, and how many of
    /// them are out. Takes time by how many objects and versions were ever made, and a byte of memory for each version meanwhile.
    pub fn report(&self) -> Result<Report, AllocError>
        ensures { IfOk result (Reports (live_in self.now)) }
    {
        report_of(self.live.alloc, &self.live)
    }

    /// How much went out behind the latest turn that was carried out, and how much was kept for each cause. Takes no memory.
    pub fn idled(&self) -> Idled
        ensures { result ≡ idled_in self.now }
    {
        self.idled
    }

    /// The live state, to be looked at. Takes no memory.
    pub fn live(&self) -> &Live
        ensures { result.now ≡ (live_in self.now) }
    {
        &self.live
    }
}
