//! The run of a server, from its files to its end.
ghost use Rattle.std.specs.Prelude.{◌≡◌, ◌≤◌, ◌^◌, [], Err, IfErr, IfOk, List, OnOk, Option, ℕ, Bool};
ghost use Rattle.lp_core.specs.Turning.{Origin};
ghost use Rattle.lp_driver.specs.Driving.{HasNoMasterIf, StartsAs};
ghost use Rattle.lp_files.specs.Store.{file_at};
ghost use Rattle.lp_folder.specs.Held.{loaded_at};
ghost use Rattle.lp_folder.specs.declared.outside.Loaded.{Loaded as L};
ghost use Rattle.lp_front_end.specs.FrontEnds.{IsFrontEnd};
ghost use Rattle.lp_host.specs.Causes.{BlamesFiles, HasNoMaster, IsInOrder, IsNoMaster, IsQuiet, NothingFailed, SwapTells, is_output_end, is_wire_end};
ghost use Rattle.lp_host.specs.CutGames.{CutsGame, HasGone, WasHosted, WasPlayed};
ghost use Rattle.lp_host.specs.Hosting.{AsHosted, IsHosted, IsUnloaded, LeavesFiles, hosted_of, opening_written, stopped_of, unstarted_of};
ghost use Rattle.lp_host.specs.Playing.{HasPlayed, IsPlayed, world_files};
ghost use Rattle.lp_io.specs.Counts.{Counts};
ghost use Rattle.lp_io.specs.Told.{after_adding};
ghost use Rattle.lp_events.specs.declared.out.Out.{Out as O};
ghost use Rattle.lp_meaning.specs.Closing.{MakesNoMaster};
ghost use Rattle.lp_meaning.specs.FrontEnd.{FrontEnd};
ghost use Rattle.lp_recording.specs.Recorded.{ending, files_in};
ghost use Rattle.lp_script.specs.Put.{Puts};
ghost use Rattle.lp_serve.specs.CutRuns.{HasKept};
ghost use Rattle.lp_serving.specs.Causes.{OutputTells};
ghost use Rattle.lp_state.specs.States.{GoesOn, live_in};

use crate::state::HostedState;
use lp_asking::truth::Truthful;
use lp_core::Stop;
use lp_driver::VmFault;
use lp_driver::driver::StartFault;
use lp_events::out::Outs;
use lp_files::store::Store;
use lp_folder::{Files, FilesError, Loaded, store_of};
use lp_io::{PutFault, Sink};
use lp_recording::{Keeps, write_logs, write_opening};
use lp_residence::answers::SwapCause;
use lp_serve::{Served, serve};
use lp_state::state::{State, start};
use lp_tree::fault::Fault;
use lp_wire::Wire;
use std::alloc::Global;

/// How a game is hosted.
#[derive(Clone, Copy, Debug, PartialEq, Eq)]
pub struct Hosting {
    /// The seed of the generator of random numbers.
    pub seed: u64,
    /// After so many seconds without an entry an object or a program goes out, where the swap file tells what it holds; 0 means never.
    pub swap_time: u64,
    /// What is written of the run.
    pub keeps: Keeps,
    /// How often the wire is polled at most.
    pub turns: u64,
}

/// How a hosted game ended.
#[derive(Debug, Drop)]
pub enum Hosted {
    /// The operator stopped it, and no changed file is unwritten.
    Done,
    /// The master could not be made.
    NoMaster { faults: Vec<Fault> },
    /// The output failed, or took nothing.
    OutputFault,
    /// The swap file did not give what was written.
    SwapFault { cause: SwapCause },
    /// The files could not be loaded, which has the path `/`, or this changed file could not be written.
    FilesFault { path: String },
    /// A poll of the wire failed.
    WireFault,
    /// The wire was polled as often as it was to be.
    TurnsSpent,
    /// There was no memory.
    NoMemory,
}

// The end of a turn that was not carried out. Takes no memory.
fn stopped(why: Stop, cause: Option<SwapCause>) -> Hosted
    ensures { result ≡ stopped_of why cause }
{
    match why {
        Stop::NoMemory => {
            drop(cause);
            Hosted::NoMemory
        }
        Stop::Swap => match cause {
            Some(cause) => Hosted::SwapFault { cause },
            None => Hosted::NoMemory,
        },
    }
}

// The end of the loop as that of the whole. Takes no memory.
fn ended(served: Served, cause: Option<SwapCause>) -> Hosted
    ensures { result ≡ hosted_of served cause }
{
    match served {
        Served::Done => {
            drop(cause);
            Hosted::Done
        }
        Served::OutputFault => {
            drop(cause);
            Hosted::OutputFault
        }
        Served::FilesFault { path } => {
            drop(cause);
            Hosted::FilesFault { path }
        }
        Served::WireFault => {
            drop(cause);
            Hosted::WireFault
        }
        Served::TurnsSpent => {
            drop(cause);
            Hosted::TurnsSpent
        }
        Served::Stopped(why) => stopped(why, cause),
        Served::NoMemory => {
            drop(cause);
            Hosted::NoMemory
        }
    }
}

// The end where the files could not be loaded.
fn no_files(alloc: Global) -> Hosted
    ensures { IsUnloaded result }
{
    match String::from_str(alloc, "/") {
        Ok(path) => Hosted::FilesFault { path },
        Err(_) => Hosted::NoMemory,
    }
}

// The end where the start was not carried out. Takes no memory.
fn not_started(fault: StartFault) -> Hosted
    ensures { result ≡ unstarted_of fault }
{
    match fault {
        StartFault::NoMaster { faults } => Hosted::NoMaster { faults },
        StartFault::Stopped(VmFault::NoMemory) => Hosted::NoMemory,
        StartFault::Stopped(VmFault::Swap(cause)) => Hosted::SwapFault { cause },
    }
}

// Writes what stands before the first happening. Takes no memory.
fn write_beginning<K: Sink>(
    out: &mut K,
    hosting: &Hosting,
    moment: u64,
    files: &[Loaded],
    outs: &Outs,
) -> Result<(), PutFault>
    ensures { Puts (record { written = K.written out.old; faults = K.faults out.old; zeros = K.zeros out.old })
        (record { written = K.written out.new; faults = K.faults out.new; zeros = K.zeros out.new })
        result (opening_written hosting.now.keeps hosting.now.seed moment files.now outs.now) }
{
    match hosting.keeps {
        Keeps::Record => write_opening(out, hosting.seed, moment, files),
        Keeps::Log => write_logs(out, outs),
    }
}

// Serves a game that has begun.
fn play<K: Sink, F: Files, W: Truthful, N: Wire>(
    alloc: Global,
    hosting: &Hosting,
    state: State,
    out: &mut K,
    files: &mut F,
    swap: &mut W,
    wire: &mut N,
) -> Hosted
    requires ready { GoesOn (W.content swap.now) state }
    ensures run { (origin : Origin) → HasPlayed origin (W.content swap.old) (live_in state) [] → AsHosted result
        (λ end stops polls left. IsPlayed (N.first wire.old) origin hosting.now.keeps (K.written out.old) (K.written out.new) end stops polls left (N.calls wire.old) (N.calls wire.new))
        (LeavesFiles (F.faults files.old) (F.held files.new) (F.faults files.new)) ⊥ (ending hosting.now.keeps) hosting.now.turns }
    ensures cut { (origin : Origin) → HasPlayed origin (W.content swap.old) (live_in state) [] → CutsGame result (HasKept (WasPlayed origin) hosting.now.keeps) hosting.now.keeps (K.written out.old) (K.written out.new) }
    ensures output { OutputTells (is_output_end result) (K.faults out.old) (K.faults out.new) (K.zeros out.old) (K.zeros out.new) }
    ensures files { BlamesFiles result (F.faults files.old) (F.faults files.new) }
    ensures wire { Counts (is_wire_end result) (N.faults wire.old) (N.faults wire.new) }
    ensures swap { (from : W) → IsQuiet (W.read_faults from) (W.read_faults swap.old) (W.is_truthful from) (W.is_truthful swap.old) (W.is_honest from) (W.is_honest swap.old)
        → SwapTells result (W.content swap.new) (W.last swap.new) (W.read_faults from) (W.read_faults swap.new) (W.is_truthful from) (W.is_truthful swap.new) (W.is_honest from) (W.is_honest swap.new) }
    ensures master { IsNoMaster result (λ faults. ⊥) ⊥ }
{
    let mut core = HostedState::new(state);
    let served = serve(
        alloc,
        &mut core,
        swap,
        files,
        wire,
        out,
        hosting.keeps,
        hosting.turns,
    );
    ended(served, core.into_cause())
}

// Starts the driver on the files that were loaded, writes what stands before the first happening, and serves the game.
fn begin<K: Sink, F: Files, W: Truthful, N: Wire>(
    alloc: Global,
    hosting: &Hosting,
    loaded: Vec<Loaded>,
    store: Store,
    out: &mut K,
    files: &mut F,
    swap: &mut W,
    wire: &mut N,
) -> Hosted
    requires stored { (q : List ℕ) → file_at store q ≡ loaded_at loaded.items q }
    ensures run { AsHosted result (λ end stops polls left. (outs : List O) × IsPlayed (N.first wire.old) (record { seed = hosting.now.seed; moment = N.first wire.old; files = files_in loaded.items; outputs = outs }) hosting.now.keeps
        (after_adding (K.written out.old) (opening_written hosting.now.keeps hosting.now.seed (N.first wire.old) loaded.items outs)) (K.written out.new) end stops polls left (N.calls wire.old) (N.calls wire.new))
        (LeavesFiles (F.faults files.old) (F.held files.new) (F.faults files.new)) ⊥ (ending hosting.now.keeps) hosting.now.turns }
    ensures cut { CutsGame result (HasGone hosting.now.seed hosting.now.keeps (N.first wire.old) loaded.items) hosting.now.keeps (K.written out.old) (K.written out.new) }
    ensures output { OutputTells (is_output_end result) (K.faults out.old) (K.faults out.new) (K.zeros out.old) (K.zeros out.new) }
    ensures files { BlamesFiles result (F.faults files.old) (F.faults files.new) }
    ensures wire { Counts (is_wire_end result) (N.faults wire.old) (N.faults wire.new) }
    ensures swap { SwapTells result (W.content swap.new) (W.last swap.new) (W.read_faults swap.old) (W.read_faults swap.new) (W.is_truthful swap.old) (W.is_truthful swap.new) (W.is_honest swap.old) (W.is_honest swap.new) }
    ensures master { IsNoMaster result (λ faults. (front : FrontEnd) → IsFrontEnd front → MakesNoMaster front (world_files (files_in loaded.items)) hosting.now.seed (N.first wire.old) faults) ((wire.new ≡ wire.old) × (out.new ≡ out.old)) }
{
    let moment = wire.opening();
    let started = start(alloc, store, hosting.seed, moment, hosting.swap_time, swap);
    let (state, outs) = match started {
        Ok(both) => both,
        Err(fault) => {
            drop(loaded);
            return not_started(fault);
        }
    };
    let written = write_beginning(out, hosting, moment, loaded.as_slice(), &outs);
    drop(loaded);
    drop(outs);
    match written {
        Ok(()) => play(alloc, hosting, state, out, files, swap, wire),
        Err(_) => {
            drop(state);
            Hosted::OutputFault
        }
    }
}

/// Hosts a game: loads the files, starts the driver on them at the wire's opening moment, and serves what comes of the wire until the operator
/// stops it, a poll fails, or the wire was polled as often as it was to be.
pub fn host<K: Sink, F: Files, W: Truthful, N: Wire>(
    alloc: Global,
    hosting: &Hosting,
    out: &mut K,
    files: &mut F,
    swap: &mut W,
    wire: &mut N,
) -> Hosted
    ensures hosts { AsHosted result
        (λ end stops polls left. IsHosted hosting.now.seed hosting.now.keeps (F.held files.old) (N.first wire.old) (K.written out.old) (K.written out.new) end stops polls left (N.calls wire.old) (N.calls wire.new))
        (LeavesFiles (F.faults files.old) (F.held files.new) (F.faults files.new)) ((wire.new ≡ wire.old) × (out.new ≡ out.old)) (ending hosting.now.keeps) hosting.now.turns }
    ensures cut { CutsGame result (WasHosted hosting.now.seed hosting.now.keeps (F.held files.old) (N.first wire.old)) hosting.now.keeps (K.written out.old) (K.written out.new) }
    ensures output_fault { OutputTells (is_output_end result) (K.faults out.old) (K.faults out.new) (K.zeros out.old) (K.zeros out.new) }
    ensures files_fault { BlamesFiles result (F.faults files.old) (F.faults files.new) }
    ensures wire_fault { Counts (is_wire_end result) (N.faults wire.old) (N.faults wire.new) }
    ensures swap_fault { SwapTells result (W.content swap.new) (W.last swap.new) (W.read_faults swap.old) (W.read_faults swap.new) (W.is_truthful swap.old) (W.is_truthful swap.new) (W.is_honest swap.old) (W.is_honest swap.new) }
    ensures no_master { IsNoMaster result (HasNoMaster hosting.now.seed (N.first wire.old) (F.held files.old)) ((wire.new ≡ wire.old) × (out.new ≡ out.old)) }
    ensures complete { NothingFailed (K.faults out.old) (K.faults out.new) (K.zeros out.old) (K.zeros out.new) (F.faults files.old) (F.faults files.new) (N.faults wire.old) (N.faults wire.new)
        (W.read_faults swap.old) (W.read_faults swap.new) (W.is_truthful swap.new) (W.is_honest swap.new) → IsInOrder result }
{
    let loaded = match files.load_all() {
        Ok(loaded) => loaded,
        Err(FilesError::Failed) => return no_files(alloc),
        Err(FilesError::NoMemory) => return Hosted::NoMemory,
    };
    match store_of(alloc, loaded.as_slice()) {
        Ok(store) => begin(alloc, hosting, loaded, store, out, files, swap, wire),
        Err(_) => {
            drop(loaded);
            Hosted::NoMemory
        }
    }
}
