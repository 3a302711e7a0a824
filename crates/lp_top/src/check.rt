//! The command `check`: reads a script, and tells what is wrong with its files.
ghost use Rattle.std.specs.Prelude.{◌≡◌, ℕ, ◌≤◌, List, [], ◌∷◌, ◌++◌, Some, IfOk, IfErr, OnOk};
ghost use Rattle.std.specs.Option.{option_copied};
ghost use Rattle.lp_events.specs.declared.item.Item.{Item as I};
ghost use Rattle.lp_events.specs.Script.{files_of};
ghost use Rattle.lp_io.specs.Told.{IsPassedOn};
ghost use Rattle.lp_check.specs.Sources.{AreFiles};
ghost use Rattle.lp_script.specs.Reader.{GoneAtMost, Reads, fresh};
ghost use Rattle.lp_top.specs.Causes.{BlamesInput, BlamesOutput};
ghost use Rattle.lp_top.specs.Check.{Checks, EndsGathering, IsCheckEnd, IsGathered};
ghost use Rattle.lp_top.specs.Replay.{IsReadingEnd};

use crate::finish::finish;
use crate::items::{is_end, status_of};
use crate::status::Status;
use lp_check::Sources;
use lp_events::item::Item;
use lp_io::{Sink, Source};
use lp_script::Reader;
use std::alloc::{AllocError, Global};

// Takes the file that an item is, if it is one.
fn gathered(sources: &mut Sources, item: Item) -> Result<(), AllocError>
    ensures { (xs : List I) → AreFiles (files_of xs) sources.old → OnOk result (AreFiles (files_of (xs ++ item ∷ [])) sources.new) }
{
    match item {
        Item::File(path, bytes) => sources.add(path, bytes.as_slice()),
        Item::Head(_, _) => Ok(()),
        Item::Start => Ok(()),
        Item::Event(_event) => Ok(()),
        Item::End => Ok(()),
    }
}

// Reads a script to its end, and gathers its files.
fn gather<S: Source>(alloc: Global, reader: &mut Reader, input: &mut S) -> Result<Sources, Status>
    requires { reader.old ≡ fresh }
    ensures gathered { (b : List ℕ) → S.remaining input.old ≡ Some b → IfOk result (IsGathered b) }
    ensures whole { (b : List ℕ) → S.remaining input.old ≡ Some b → OnOk result (S.remaining input.new ≡ Some []) }
    ensures end { (b : List ℕ) → S.remaining input.old ≡ Some b → IfErr result (EndsGathering b) }
    ensures kind { IfErr result IsReadingEnd }
    ensures cause { IfErr result (λ s. BlamesInput s (S.faults input.old) (S.faults input.new)) }
    ensures most { (b : List ℕ) → S.remaining input.old ≡ Some b → GoneAtMost b (S.remaining input.new) }
{
    let mut sources = Sources::new(alloc);
    loop {
        let item = match reader.next(input) {
            Ok(item) => item,
            Err(fault) => return Err(status_of(fault)),
        };
        if is_end(&item) {
            return Ok(sources);
        }
        match gathered(&mut sources, item) {
            Ok(()) => {}
            Err(_) => return Err(Status::NoMemory),
        }
    }
}

/// Checks a script: reads the whole of it, and then writes the report of its files, where this path
/// is given for the simul efuns.
pub(crate) fn check<S: Source, K: Sink>(
    alloc: Global,
    simul: Option<&str>,
    input: &mut S,
    out: &mut K,
) -> Status
    ensures checks { (b : List ℕ) → S.remaining input.old ≡ Some b → Checks (option_copied simul.entry) b result (K.written out.old) (K.written out.new) }
    ensures whole { result ≡ Status.Done → (b : List ℕ) → S.remaining input.old ≡ Some b → S.remaining input.new ≡ Some [] }
    ensures most { (b : List ℕ) → S.remaining input.old ≡ Some b → GoneAtMost b (S.remaining input.new) }
    ensures passed { result ≡ Status.Done → IsPassedOn (K.passed out.new) }
    ensures kind { IsCheckEnd result }
    ensures input_cause { BlamesInput result (S.faults input.old) (S.faults input.new) }
    ensures output_cause { BlamesOutput result (K.faults out.old) (K.faults out.new) (K.zeros out.old) (K.zeros out.new) }
{
    let mut reader = Reader::new(alloc);
    let sources = match gather(alloc, &mut reader, input) {
        Ok(sources) => sources,
        Err(status) => return status,
    };
    // the script's bytes are copied in the sources
    drop(reader);
    match sources.report(alloc, simul) {
        Ok(report) => finish(out, report.as_slice()),
        Err(_) => Status::NoMemory,
    }
}
