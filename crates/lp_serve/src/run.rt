//! The loop of a served run.
ghost use Rattle.std.specs.Prelude.{◌≡◌, ◌≤◌, ◌<◌, ℕ, List, [], Option, IfOk, OnOk, OnErr};
ghost use Rattle.lp_io.specs.Counts.{Counts, Rose};
ghost use Rattle.lp_io.specs.Told.{after_adding};
ghost use Rattle.lp_core.specs.Turning.{Origin, Turn};
ghost use Rattle.lp_files.specs.Store.{changed_in, file_at};
ghost use Rattle.lp_recording.specs.Recorded.{ending};
ghost use Rattle.lp_serving.specs.Causes.{OutputTells};
ghost use Rattle.lp_serving.specs.CutShort.{CutsShort};
ghost use Rattle.lp_serving.specs.Recorded.{Recorded};
ghost use Rattle.lp_wire.specs.Wires.{Adds};
ghost use Rattle.lp_serve.specs.Causes.{EarlyTells, FilesTell, HasNotRisen, IsBlameless, SwapTells, TriedLast, is_early_output, is_output_fault, is_wire_fault};
ghost use Rattle.lp_serve.specs.CutRuns.{CutsRun, EndsUpTo, IfCut};
ghost use Rattle.lp_serve.specs.Served.{AsEnded, GoesRound, HasRun, IfStopped, IfVain, LeavesUnwritten, early_served, is_vain};

use crate::game::Game;
use lp_core::{Core, Stop};
use lp_flush::{write_changed, write_last};
use lp_folder::outside::Files;
use lp_io::Sink;
use lp_recording::{Keeps, write_end};
use lp_serving::End;
use lp_wire::{Wire, WireError};
use std::alloc::Global;

/// How a served run ended.
#[derive(Debug, Drop)]
pub enum Served {
    /// The operator stopped it, and no changed file is unwritten.
    Done,
    /// The output failed, or took nothing.
    OutputFault,
    /// This changed file could not be written.
    FilesFault { path: String },
    /// A poll failed.
    WireFault,
    /// So many polls were made.
    TurnsSpent,
    /// A turn was not carried out.
    Stopped(Stop),
    /// There was no memory.
    NoMemory,
}

/// Why a round was not gone to its end.
#[derive(Debug, Clone, Copy, PartialEq, Eq)]
pub enum Early {
    /// The poll failed, and nothing else was done.
    Wire,
    /// It ended at a happening.
    At(End),
}

fn served_early(early: Early) -> Served
    ensures { result ≡ early_served early }
{
    match early {
        Early::Wire => Served::WireFault,
        Early::At(End::Output) => Served::OutputFault,
        Early::At(End::Stopped(stop)) => Served::Stopped(stop),
        Early::At(End::NoMemory) => Served::NoMemory,
    }
}

// One poll and what it gave, and once more all that is pending is offered, and changed files are written; whether the run is to stop.
fn round<W, C: Core<W>, F: Files, N: Wire, K: Sink>(
    alloc: Global,
    game: &mut Game,
    core: &mut C,
    swap: &mut W,
    files: &mut F,
    wire: &mut N,
    out: &mut K,
) -> Result<bool, Early>
    requires running { C.goes core.now swap.now }
    ensures goes { IfOk result (λ stops. (origin : Origin) (from : Option (List ℕ)) → GoesRound (Recorded (C.ran core.old swap.old origin) game.old.server.keeps from (K.written out.old)) (Recorded (C.ran core.new swap.new origin) game.old.server.keeps from (K.written out.new)) game.old game.new stops (N.calls wire.old) (N.calls wire.new)) }
    ensures vain { IfVain result ((game.new ≡ game.old) × (core.new ≡ core.old) × (swap.new ≡ swap.old) × (out.new ≡ out.old) × Adds (N.calls wire.old) (N.calls wire.new) []) }
    ensures running { C.goes core.new swap.new }
    ensures keeps { game.new.server.keeps ≡ game.old.server.keeps }
    ensures faults { Counts (is_vain result) (N.faults wire.old) (N.faults wire.new) }
    ensures first { N.first wire.new ≡ N.first wire.old }
    ensures cut { IfCut result (CutsShort (C.ran core.old swap.old) (λ origin turns. (c : C) × (w : W) × C.ran c w origin turns) game.old.server.keeps (K.written out.old) (K.written out.new)) }
    ensures output { OutputTells (is_early_output result) (K.faults out.old) (K.faults out.new) (K.zeros out.old) (K.zeros out.new) }
    ensures files { F.faults files.old ≤ F.faults files.new }
    ensures swap { (from : W) → C.quiet from swap.old → EarlyTells result (C.quiet from swap.new) (C.blames core.new from swap.new) }
{
    let happening = match wire.poll() {
        Ok(happening) => happening,
        Err(WireError::Failed) => return Err(Early::Wire),
        Err(WireError::NoMemory) => return Err(Early::At(End::NoMemory)),
    };
    let stops = match game.happen(core, swap, files, wire, out, &happening) {
        Ok(stops) => stops,
        Err(end) => return Err(Early::At(end)),
    };
    game.offer(wire);
    match write_changed(alloc, core, files) {
        Ok(()) => Ok(stops),
        Err(_) => Err(Early::At(End::NoMemory)),
    }
}

// The operator has stopped the run: changed files are tried a last time, and what is written ends.
fn stop<W, C: Core<W>, F: Files, K: Sink>(
    alloc: Global,
    core: &mut C,
    files: &mut F,
    out: &mut K,
    keeps: Keeps,
) -> Served
    ensures goes { (swap : W) → C.goes core.old swap → C.goes core.new swap }
    ensures ran { (swap : W) (origin : Origin) (turns : List Turn) → C.ran core.old swap origin turns → C.ran core.new swap origin turns }
    ensures unwritten { LeavesUnwritten result (changed_in (C.stored core.new)) }
    ensures written { IfStopped result (K.written out.new ≡ after_adding (K.written out.old) (ending keeps)) }
    ensures cut { EndsUpTo result (ending keeps) (K.written out.old) (K.written out.new) }
    ensures output { OutputTells (is_output_fault result) (K.faults out.old) (K.faults out.new) (K.zeros out.old) (K.zeros out.new) }
    ensures files { FilesTell result (λ failed. TriedLast failed (file_at (C.stored core.new)) (F.faults files.old) (changed_in (C.stored core.new)) (F.held files.new) (F.faults files.new)) (Rose (F.faults files.old) (F.faults files.new)) }
    ensures no_fall { F.faults files.old ≤ F.faults files.new }
{
    match write_last(alloc, core, files) {
        Ok(None) => match write_end(out, keeps) {
            Ok(()) => Served::Done,
            Err(_) => Served::OutputFault,
        },
        Ok(Some(path)) => match write_end(out, keeps) {
            Ok(()) => Served::FilesFault { path },
            Err(_) => Served::OutputFault,
        },
        Err(_) => Served::NoMemory,
    }
}

/// Serves: takes what the wire gives, one happening after another; gives each event its turn; sends the outputs, in one send each for all that
/// is pending; writes the record or the log; and writes files that were changed. Until the operator stops it, a poll fails, or so many polls
/// were made. What a round takes is in proportion to what came and what it made, and to how many connections something is pending for.
///
/// - `Done`: the operator stopped it.
/// - `FilesFault`: it did, and this changed file could not be written at the last try.
/// - `TurnsSpent`: so many polls were made.
/// - `WireFault`: a poll failed, which its count of faults tells.
/// - `OutputFault`, `Stopped`, `NoMemory`: the output failed or took nothing, a turn was not carried out, or there was no memory.
pub fn serve<W, C: Core<W>, F: Files, N: Wire, K: Sink>(
    alloc: Global,
    core: &mut C,
    swap: &mut W,
    files: &mut F,
    wire: &mut N,
    out: &mut K,
    keeps: Keeps,
    turns: u64,
) -> Served
    requires running { C.goes core.now swap.now }
    ensures run { (origin : Origin) → C.ran core.old swap.old origin [] → AsEnded result
        (λ end stops polls. HasRun (N.first wire.old) (C.ran core.new swap.new origin) keeps (K.written out.old) (K.written out.new) end stops polls (N.calls wire.old) (N.calls wire.new)) (ending keeps) turns }
    ensures cut { (origin : Origin) → C.ran core.old swap.old origin [] → CutsRun result (λ turns. (c : C) × (w : W) × C.ran c w origin turns) keeps (K.written out.old) (K.written out.new) }
    ensures unwritten { LeavesUnwritten result (changed_in (C.stored core.new)) }
    ensures running { C.goes core.new swap.new }
    ensures output_fault { OutputTells (is_output_fault result) (K.faults out.old) (K.faults out.new) (K.zeros out.old) (K.zeros out.new) }
    ensures files_fault { FilesTell result (λ failed. TriedLast failed (file_at (C.stored core.new)) (F.faults files.old) (changed_in (C.stored core.new)) (F.held files.new) (F.faults files.new)) (Rose (F.faults files.old) (F.faults files.new)) }
    ensures files_no_fall { F.faults files.old ≤ F.faults files.new }
    ensures wire_fault { Counts (is_wire_fault result) (N.faults wire.old) (N.faults wire.new) }
    ensures swap_fault { (from : W) → C.quiet from swap.old → SwapTells result (C.quiet from swap.new) (C.blames core.new from swap.new) }
    ensures complete { HasNotRisen (K.faults out.old) (K.faults out.new) → HasNotRisen (K.zeros out.old) (K.zeros out.new) → HasNotRisen (F.faults files.old) (F.faults files.new) → HasNotRisen (N.faults wire.old) (N.faults wire.new) → IsBlameless result }
{
    let mut game = Game::new(alloc, wire.opening(), keeps);
    for polls in 0..turns {
        match round(alloc, &mut game, core, swap, files, wire, out) {
            Ok(false) => {}
            Ok(true) => return stop(alloc, core, files, out, keeps),
            Err(early) => return served_early(early),
        }
    }
    match write_end(out, keeps) {
        Ok(()) => Served::TurnsSpent,
        Err(_) => Served::OutputFault,
    }
}
