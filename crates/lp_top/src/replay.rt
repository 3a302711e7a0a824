//! The command `replay`: reads a script, and writes its transcript.
ghost use Rattle.std.specs.Prelude.{◌≡◌, ℕ, ◌≤◌, List, [], ◌∷◌, ◌++◌, Some, IfErr, OnOk, Option};
ghost use Rattle.lp_events.specs.declared.item.Item.{Item as I};
ghost use Rattle.lp_events.specs.declared.out.Out.{Out as O};
ghost use Rattle.lp_io.specs.Told.{IsPassedOn};
ghost use Rattle.lp_language.specs.World.{World};
ghost use Rattle.lp_world.specs.Closed.{IsClosed};
ghost use Rattle.lp_driver.specs.Driving.{IsAtRest};
ghost use Rattle.lp_driver.specs.Turning.{MayCome};
ghost use Rattle.lp_script.specs.Reader.{GoneAtMost, Reads};
ghost use Rattle.lp_top.specs.Causes.{BlamesInput, BlamesOutput, SwapTells, end_in, stop_status};
ghost use Rattle.lp_top.specs.Replay.{AreOf, Interrupts, IsAtStart, IsDone, IsGoing, IsReplayEnd, IsRunning, Replays};

use crate::conclude::conclude;
use crate::opening::{Opening, next_item, open};
use crate::status::{Faults, Status};
use lp_asking::truth::Truthful;
use lp_driver::VmFault;
use lp_driver::driver::{StartFault, start, turn};
use lp_events::event::Event;
use lp_events::item::Item;
use lp_events::out::Outs;
use lp_io::{Sink, Source};
use lp_script::{Reader, write_outs};
use lp_world::live::Live;
use std::alloc::Global;

// The end of a start, or of a turn, that was not carried out.
fn stopped(fault: VmFault) -> Status
    ensures { result ≡ stop_status fault }
{
    match fault {
        VmFault::NoMemory => Status::NoMemory,
        VmFault::Swap(cause) => Status::SwapFault { cause },
    }
}

// Carries out one event, and writes its block.
fn carry_out<K: Sink, W: Truthful>(
    live: &mut Live,
    event: &Event,
    out: &mut K,
    swap: &mut W,
    swap_time: u64,
) -> Result<(), Status>
    requires may { MayCome event.now }
    requires closed { IsClosed live.old }
    requires rest { (w : World) × IsAtRest (W.content swap.old) live.old w }
    ensures done { OnOk result (IsDone swap_time event.now (W.content swap.old) live.old (W.content swap.new) live.new (K.written out.old) (K.written out.new)) }
    ensures end { IfErr result (Interrupts (AreOf event.now (W.content swap.old) live.old) (K.written out.old) (K.written out.new)) }
    ensures cause { IfErr result (λ s. BlamesOutput s (K.faults out.old) (K.faults out.new) (K.zeros out.old) (K.zeros out.new)) }
    ensures no_fall { K.faults out.old ≤ K.faults out.new }
    ensures zeros_no_fall { K.zeros out.old ≤ K.zeros out.new }
    ensures swap { SwapTells (end_in result) (W.content swap.new) (W.last swap.new) (W.read_faults swap.old) (W.read_faults swap.new)
        (W.is_truthful swap.old) (W.is_truthful swap.new) (W.is_honest swap.old) (W.is_honest swap.new) }
{
    match turn(live, swap, swap_time, event) {
        Ok((outs, _idled)) => match write_outs(out, &outs) {
            Ok(()) => Ok(()),
            Err(_) => Err(Status::OutputFault),
        },
        Err(fault) => Err(stopped(fault)),
    }
}

// The same with an event that is used up.
fn carry<K: Sink, W: Truthful>(
    live: &mut Live,
    event: Event,
    out: &mut K,
    swap: &mut W,
    swap_time: u64,
) -> Result<(), Status>
    requires may { MayCome event }
    requires closed { IsClosed live.old }
    requires rest { (w : World) × IsAtRest (W.content swap.old) live.old w }
    ensures done { OnOk result (IsDone swap_time event (W.content swap.old) live.old (W.content swap.new) live.new (K.written out.old) (K.written out.new)) }
    ensures end { IfErr result (Interrupts (AreOf event (W.content swap.old) live.old) (K.written out.old) (K.written out.new)) }
    ensures cause { IfErr result (λ s. BlamesOutput s (K.faults out.old) (K.faults out.new) (K.zeros out.old) (K.zeros out.new)) }
    ensures no_fall { K.faults out.old ≤ K.faults out.new }
    ensures zeros_no_fall { K.zeros out.old ≤ K.zeros out.new }
    ensures swap { SwapTells (end_in result) (W.content swap.new) (W.last swap.new) (W.read_faults swap.old) (W.read_faults swap.new)
        (W.is_truthful swap.old) (W.is_truthful swap.new) (W.is_honest swap.old) (W.is_honest swap.new) }
{
    carry_out(live, &event, out, swap, swap_time)
}

// Carries out the events up to the end.
fn events<S: Source, K: Sink, W: Truthful>(
    reader: &mut Reader,
    input: &mut S,
    out: &mut K,
    swap: &mut W,
    swap_time: u64,
    asks_report: bool,
    live: Live,
) -> Status
    requires { (from : Option (List ℕ)) × IsRunning swap_time reader.old (W.content swap.old) live from (K.written out.old) }
    ensures replays { (b : List ℕ) (from : Option (List ℕ)) → IsRunning swap_time reader.old (W.content swap.old) live from (K.written out.old) → Reads b reader.old (S.remaining input.old) → Replays swap_time asks_report b result from (K.written out.new) }
    ensures whole { result ≡ Status.Done → (b : List ℕ) → Reads b reader.old (S.remaining input.old) → S.remaining input.new ≡ Some [] }
    ensures most { (b : List ℕ) → Reads b reader.old (S.remaining input.old) → GoneAtMost b (S.remaining input.new) }
    ensures passed { result ≡ Status.Done → IsPassedOn (K.passed out.new) }
    ensures kind { IsReplayEnd result }
    ensures input_cause { BlamesInput result (S.faults input.old) (S.faults input.new) }
    ensures output_cause { BlamesOutput result (K.faults out.old) (K.faults out.new) (K.zeros out.old) (K.zeros out.new) }
    ensures swap { SwapTells result (W.content swap.new) (W.last swap.new) (W.read_faults swap.old) (W.read_faults swap.new)
        (W.is_truthful swap.old) (W.is_truthful swap.new) (W.is_honest swap.old) (W.is_honest swap.new) }
{
    let mut live = live;
    loop {
        let item = match next_item(reader, input) {
            Ok(item) => item,
            Err(status) => return status,
        };
        match item {
            Item::Event(event) => match carry(&mut live, event, out, swap, swap_time) {
                Ok(()) => {}
                Err(status) => return status,
            },
            Item::End => return conclude(out, &live, asks_report),
            Item::Head(_, _) => unreachable!(),
            Item::File(_path, _bytes) => unreachable!(),
            Item::Start => unreachable!(),
        }
    }
}

// Writes the block of the start, and carries out the events.
fn begun<S: Source, K: Sink, W: Truthful>(
    reader: &mut Reader,
    input: &mut S,
    out: &mut K,
    swap: &mut W,
    swap_time: u64,
    asks_report: bool,
    live: Live,
    outs: &Outs,
) -> Status
    requires { (xs : List I) × IsGoing swap_time reader.old (W.content swap.old) live xs (outs.now ∷ []) }
    ensures replays { (b : List ℕ) → Reads b reader.old (S.remaining input.old) → Replays swap_time asks_report b result (K.written out.old) (K.written out.new) }
    ensures whole { result ≡ Status.Done → (b : List ℕ) → Reads b reader.old (S.remaining input.old) → S.remaining input.new ≡ Some [] }
    ensures most { (b : List ℕ) → GoneAtMost b (S.remaining input.old) → Reads b reader.old (S.remaining input.old) → GoneAtMost b (S.remaining input.new) }
    ensures passed { result ≡ Status.Done → IsPassedOn (K.passed out.new) }
    ensures kind { IsReplayEnd result }
    ensures input_cause { BlamesInput result (S.faults input.old) (S.faults input.new) }
    ensures output_cause { BlamesOutput result (K.faults out.old) (K.faults out.new) (K.zeros out.old) (K.zeros out.new) }
    ensures swap { SwapTells result (W.content swap.new) (W.last swap.new) (W.read_faults swap.old) (W.read_faults swap.new)
        (W.is_truthful swap.old) (W.is_truthful swap.new) (W.is_honest swap.old) (W.is_honest swap.new) }
{
    match write_outs(out, outs) {
        Ok(()) => events(reader, input, out, swap, swap_time, asks_report, live),
        Err(_) => Status::OutputFault,
    }
}

// Starts the driver, and carries out the events.
fn begin<S: Source, K: Sink, W: Truthful>(
    alloc: Global,
    opening: Opening,
    reader: &mut Reader,
    input: &mut S,
    out: &mut K,
    swap: &mut W,
    swap_time: u64,
    asks_report: bool,
) -> Status
    requires { IsAtStart reader.old opening }
    ensures replays { (b : List ℕ) → Reads b reader.old (S.remaining input.old) → Replays swap_time asks_report b result (K.written out.old) (K.written out.new) }
    ensures whole { result ≡ Status.Done → (b : List ℕ) → Reads b reader.old (S.remaining input.old) → S.remaining input.new ≡ Some [] }
    ensures most { (b : List ℕ) → GoneAtMost b (S.remaining input.old) → Reads b reader.old (S.remaining input.old) → GoneAtMost b (S.remaining input.new) }
    ensures passed { result ≡ Status.Done → IsPassedOn (K.passed out.new) }
    ensures kind { IsReplayEnd result }
    ensures input_cause { BlamesInput result (S.faults input.old) (S.faults input.new) }
    ensures output_cause { BlamesOutput result (K.faults out.old) (K.faults out.new) (K.zeros out.old) (K.zeros out.new) }
    ensures swap { SwapTells result (W.content swap.new) (W.last swap.new) (W.read_faults swap.old) (W.read_faults swap.new)
        (W.is_truthful swap.old) (W.is_truthful swap.new) (W.is_honest swap.old) (W.is_honest swap.new) }
{
    let Opening {
        store,
        seed,
        moment,
    } = opening;
    match start(alloc, store, seed, moment, swap) {
        Ok((live, outs)) => begun(
            reader,
            input,
            out,
            swap,
            swap_time,
            asks_report,
            live,
            &outs,
        ),
        Err(StartFault::NoMaster { faults }) => Status::NoMaster {
            faults: Faults::from_vec(faults),
        },
        Err(StartFault::Stopped(fault)) => stopped(fault),
    }
}

/// Carries out a script. What had no entry for `swap_time` seconds goes out after a tick, where the swap file tells what it holds;
/// 0 means never. Where a report is asked for, its line follows the transcript.
pub(crate) fn replay<S: Source, K: Sink, W: Truthful>(
    alloc: Global,
    swap_time: u64,
    asks_report: bool,
    input: &mut S,
    out: &mut K,
    swap: &mut W,
) -> Status
    ensures replays { (b : List ℕ) → S.remaining input.old ≡ Some b → Replays swap_time asks_report b result (K.written out.old) (K.written out.new) }
    ensures whole { result ≡ Status.Done → (b : List ℕ) → S.remaining input.old ≡ Some b → S.remaining input.new ≡ Some [] }
    ensures most { (b : List ℕ) → S.remaining input.old ≡ Some b → GoneAtMost b (S.remaining input.new) }
    ensures passed { result ≡ Status.Done → IsPassedOn (K.passed out.new) }
    ensures kind { IsReplayEnd result }
    ensures input_cause { BlamesInput result (S.faults input.old) (S.faults input.new) }
    ensures output_cause { BlamesOutput result (K.faults out.old) (K.faults out.new) (K.zeros out.old) (K.zeros out.new) }
    ensures swap { SwapTells result (W.content swap.new) (W.last swap.new) (W.read_faults swap.old) (W.read_faults swap.new)
        (W.is_truthful swap.old) (W.is_truthful swap.new) (W.is_honest swap.old) (W.is_honest swap.new) }
{
    let mut reader = Reader::new(alloc);
    let opening = match open(alloc, &mut reader, input) {
        Ok(opening) => opening,
        Err(status) => return status,
    };
    begin(
        alloc,
        opening,
        &mut reader,
        input,
        out,
        swap,
        swap_time,
        asks_report,
    )
}
