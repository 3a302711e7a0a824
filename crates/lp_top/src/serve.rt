//! The command `serve`: serves players.
ghost use Rattle.std.specs.Prelude.{◌≡◌};
ghost use Rattle.lp_io.specs.Counts.{Counts};
ghost use Rattle.lp_io.specs.Told.{IsPassedOn};
ghost use Rattle.lp_host.specs.Causes.{NothingFailed};
ghost use Rattle.lp_host.specs.Hosting.{LeavesFiles};
ghost use Rattle.lp_top.specs.Causes.{BlamesFiles, BlamesOutput, SwapTells, is_wire_fault};
ghost use Rattle.lp_top.specs.Serves.{HandsOn, IsServeEnd, IsServedInOrder, Serves, keeps_with, status_of_end};

use crate::status::{Faults, Status};
use lp_asking::truth::Truthful;
use lp_folder::Files;
use lp_host::{Hosted, Hosting, host};
use lp_io::Sink;
use lp_recording::Keeps;
use lp_serve_words::Serving;
use lp_tree::path::FilePath;
use lp_wire::Wire;
use std::alloc::Global;

// What is written of a run. Takes no memory.
fn keeps_of(script_file: &Option<FilePath>) -> Keeps
    ensures { result ≡ keeps_with script_file.now }
{
    match script_file {
        Some(_) => Keeps::Record,
        None => Keeps::Log,
    }
}

// The status of a game that was hosted. Takes no memory.
fn status_of(end: Hosted) -> Status
    ensures { result ≡ status_of_end end }
{
    match end {
        Hosted::Done => Status::Done,
        Hosted::NoMaster { faults } => Status::NoMaster {
            faults: Faults::from_vec(faults),
        },
        Hosted::OutputFault => Status::OutputFault,
        Hosted::SwapFault { cause } => Status::SwapFault { cause },
        Hosted::FilesFault { path } => Status::FilesFault { path },
        Hosted::WireFault => Status::WireFault,
        Hosted::TurnsSpent => Status::TurnsSpent,
        Hosted::NoMemory => Status::NoMemory,
    }
}

// Has the sink pass on what it may hold back.
fn hand_on<K: Sink>(out: &mut K) -> Status
    ensures ends { HandsOn result (K.faults out.old) (K.faults out.new) }
    ensures kept { K.written out.new ≡ K.written out.old }
    ensures passed { result ≡ Status.Done → IsPassedOn (K.passed out.new) }
{
    match out.flush() {
        Ok(()) => Status::Done,
        Err(_) => Status::OutputFault,
    }
}

/// Serves players: hosts the game of the files, over this wire, as the words say.
pub(crate) fn serve<K: Sink, F: Files, W: Truthful, N: Wire>(
    alloc: Global,
    serving: &Serving,
    out: &mut K,
    files: &mut F,
    swap: &mut W,
    wire: &mut N,
) -> Status
    ensures serves { Serves serving.now (F.held files.old) (N.first wire.old) (K.written out.old) (K.written out.new) (N.calls wire.old) (N.calls wire.new)
        (LeavesFiles (F.faults files.old) (F.held files.new) (F.faults files.new)) ((wire.new ≡ wire.old) × (out.new ≡ out.old)) result }
    ensures kind { IsServeEnd result }
    ensures passed { result ≡ Status.Done → IsPassedOn (K.passed out.new) }
    ensures output_cause { BlamesOutput result (K.faults out.old) (K.faults out.new) (K.zeros out.old) (K.zeros out.new) }
    ensures files_cause { BlamesFiles result (F.faults files.old) (F.faults files.new) }
    ensures wire_cause { Counts (is_wire_fault result) (N.faults wire.old) (N.faults wire.new) }
    ensures swap { SwapTells result (W.content swap.new) (W.last swap.new) (W.read_faults swap.old) (W.read_faults swap.new)
        (W.is_truthful swap.old) (W.is_truthful swap.new) (W.is_honest swap.old) (W.is_honest swap.new) }
    ensures complete { NothingFailed (K.faults out.old) (K.faults out.new) (K.zeros out.old) (K.zeros out.new) (F.faults files.old) (F.faults files.new) (N.faults wire.old) (N.faults wire.new)
        (W.read_faults swap.old) (W.read_faults swap.new) (W.is_truthful swap.new) (W.is_honest swap.new) → IsServedInOrder result }
{
    let hosting = Hosting {
        seed: serving.seed,
        swap_time: serving.swap_time as u64,
        keeps: keeps_of(&serving.record_file),
        turns: serving.turns,
    };
    match host(alloc, &hosting, out, files, swap, wire) {
        Hosted::Done => hand_on(out),
        end => status_of(end),
    }
}
