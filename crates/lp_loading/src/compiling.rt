//! A load compiles its file. Programs of parents that are out come into memory for it.
ghost use Rattle.std.specs.Prelude.{◌≡◌, ◌<◌, IfErr, IfOk, IsSome, List, MatchOption, None, OnErr, OnOk, string_bytes, ℕ};
ghost use Rattle.std.specs.Bool.{OnTrue};
ghost use Rattle.lp_compile.specs.Compiles.{Compiles, IsRefused};
ghost use Rattle.lp_making.specs.Objects.{program_at};
ghost use Rattle.lp_efuns.specs.Names.{AreNamed};
ghost use Rattle.lp_front_end.specs.Parents.{file_bytes};
ghost use Rattle.lp_world.specs.Closed.{IsClosed};
ghost use Rattle.lp_world.specs.Rows.{row_at};
ghost use Rattle.lp_beginning.specs.Beginning.{StandsStill};
ghost use Rattle.lp_residence.specs.Entering.{IsEntered};
ghost use Rattle.lp_residence.specs.Owners.{ticket_at};
ghost use Rattle.lp_residence.specs.declared.owner.Owner.TheVariants as owners;
ghost use Rattle.lp_targets.specs.Brought.{Brings};
ghost use Rattle.lp_loading.specs.Telling.{IsDeviceless, brought_by, fault_of};
ghost use Rattle.lp_loading.specs.Compiling.{CompilesTo, IsMissingHere, IsRefusedTo, IsUnknown};
ghost use Rattle.lp_loading.specs.Present.{HasWorld, IsReadyFor, KeepsWorlds, all_made, known_of, out_count};

use crate::job::{LoadFault, MadeFor};
use crate::present::{present_in, version_of_file};
use lp_asking::truth::Truthful;
use lp_code::names::Names2;
use lp_code::program::Program;
use lp_compile::compile::compile;
use lp_compile::fault::CompileFault;
use lp_compile_laws::{law_compiled_is_sound, law_refused_is_told};
use lp_front_end::{law_files_are_of_names, law_stores_are_read};
use lp_residence::answers::EnterFault;
use lp_residence::returning::enter_program;
use lp_swapfile::SwapFile;
use lp_tree::fault::Fault;
use lp_tree::path::FilePath;
use lp_values::id::ProgId;
use lp_world::live::Live;
use lp_world::versions::VersionTable;

/// What compiling a file gives a load.
#[derive(Drop)]
pub enum Compiled {
    /// Its program.
    Made(Program),
    /// Its faults, of which there is one at least.
    Faulty(Vec<Fault>),
    /// The file of the first of its parents that is not known.
    Missing(FilePath),
}

/// The program of a file, with what is loaded of the state.
fn compile_present(
    live: &Live,
    made: &[MadeFor],
    path: &str,
    own: ProgId,
    simuls: &Names2,
) -> Result<Program, CompileFault>
    requires ready { IsReadyFor live.now }
    ensures program { IfOk result (Compiles live.now.store path.now own (known_of (all_made made.now) live.now) simuls.now) }
    ensures fault { IfErr result (IsRefused live.now.store path.now (known_of (all_made made.now) live.now) simuls.now) }
{
    let present = present_in(live, made, simuls);
    compile(live.alloc, &live.store, path, own, &present)
}

/// Whether the state has a version.
fn has_version(versions: &VersionTable, p: ProgId) -> bool
    ensures { OnTrue result (IsSome (row_at versions.now p.0)) }
{
    versions.get(p).is_some()
}

/// Why a program was not brought in, as why a load is not carried out.
fn load_fault(e: EnterFault) -> LoadFault
    ensures { result ≡ fault_of e }
{
    match e {
        EnterFault::Swap(cause) => LoadFault::Swap(cause),
        EnterFault::NoMemory => LoadFault::NoMemory,
    }
}

/// That the device told the truth, or else want of memory.
fn told_truth<W: Truthful>(swap: &W) -> Result<(), LoadFault>
    ensures truthful { OnOk result (W.is_truthful swap.now) }
    ensures deviceless { IfErr result IsDeviceless }
{
    if swap.tells_truth() {
        Ok(())
    } else {
        Err(LoadFault::NoMemory)
    }
}

/// Brings the program of a version that the state has into memory.
fn enter_known<W: SwapFile>(live: &mut Live, swap: &mut W, p: ProgId) -> Result<(), EnterFault>
    requires closed { IsClosed live.old }
    requires there { IsSome (row_at live.old.versions p.0) }
    ensures entered { OnOk result (IsEntered (owners.Program p) live.old live.new (ticket_at live.old (owners.Program p))) }
    ensures same { OnErr result (live.new ≡ live.old) }
    ensures closed { IsClosed live.new }
    ensures brings { Brings (W.content swap.old) (W.content swap.new) (W.last swap.new) (W.read_faults swap.old) (W.read_faults swap.new) (W.write_faults swap.old) (W.write_faults swap.new)
        (W.is_truthful swap.old) (W.is_truthful swap.new) (W.is_honest swap.old) (W.is_honest swap.new) live.old live.new result }
    ensures stands { W.is_truthful swap.new → StandsStill (W.content swap.old) live.old (W.content swap.new) live.new }
{
    enter_program(live, swap, p)
}

/// Brings the program of a version into memory, where it is out and the device tells the truth.
///
/// `NoMemory` also comes where the state has the version no more.
pub(crate) fn bring<W: Truthful>(live: &mut Live, swap: &mut W, p: ProgId) -> Result<(), LoadFault>
    requires closed { IsClosed live.old }
    ensures closed { IsClosed live.new }
    ensures there { OnOk result (IsSome (row_at live.old.versions p.0)) }
    ensures entered { OnOk result (IsEntered (owners.Program p) live.old live.new (ticket_at live.old (owners.Program p))) }
    ensures worlds { OnOk result (KeepsWorlds (W.content swap.old) live.old (W.content swap.new) live.new) }
    ensures store { live.new.store ≡ live.old.store }
    ensures outputs { live.new.outputs ≡ live.old.outputs }
    ensures objects { live.new.objects ≡ live.old.objects }
    ensures cells { live.new.cells ≡ live.old.cells }
    ensures brings { Brings (W.content swap.old) (W.content swap.new) (W.last swap.new) (W.read_faults swap.old) (W.read_faults swap.new) (W.write_faults swap.old) (W.write_faults swap.new)
        (W.is_truthful swap.old) (W.is_truthful swap.new) (W.is_honest swap.old) (W.is_honest swap.new) live.old live.new (brought_by result) }
    ensures stands { W.is_truthful swap.new → StandsStill (W.content swap.old) live.old (W.content swap.new) live.new }
{
    if !has_version(&live.versions, p) {
        return Err(LoadFault::NoMemory);
    }
    match enter_known(live, swap, p) {
        Ok(()) => told_truth(swap),
        Err(e) => Err(load_fault(e)),
    }
}

/// Brings the program of a version into memory that is out.
///
/// `NoMemory` also comes where the state has the version no more.
fn bring_out<W: Truthful>(live: &mut Live, swap: &mut W, p: ProgId) -> Result<(), LoadFault>
    requires closed { IsClosed live.old }
    requires out { program_at live.old.versions p ≡ None }
    ensures closed { IsClosed live.new }
    ensures worlds { OnOk result (KeepsWorlds (W.content swap.old) live.old (W.content swap.new) live.new) }
    ensures less { OnOk result (out_count live.new.versions < out_count live.old.versions) }
    ensures store { live.new.store ≡ live.old.store }
    ensures outputs { live.new.outputs ≡ live.old.outputs }
    ensures objects { live.new.objects ≡ live.old.objects }
    ensures cells { live.new.cells ≡ live.old.cells }
    ensures brings { Brings (W.content swap.old) (W.content swap.new) (W.last swap.new) (W.read_faults swap.old) (W.read_faults swap.new) (W.write_faults swap.old) (W.write_faults swap.new)
        (W.is_truthful swap.old) (W.is_truthful swap.new) (W.is_honest swap.old) (W.is_honest swap.new) live.old live.new (brought_by result) }
    ensures stands { W.is_truthful swap.new → StandsStill (W.content swap.old) live.old (W.content swap.new) live.new }
{
    bring(live, swap, p)
}

/// A parent's tables are not at hand: its program is out and comes in, or its file is the answer, since it is not known.
fn needed<W: Truthful>(
    live: &mut Live,
    swap: &mut W,
    made: &[MadeFor],
    file: String,
) -> Result<Option<Compiled>, LoadFault>
    requires closed { IsClosed live.old }
    requires named { AreNamed live.old.names }
    requires unknown { known_of (all_made made.now) live.old (string_bytes file) ≡ None }
    ensures closed { IsClosed live.new }
    ensures worlds { OnOk result (KeepsWorlds (W.content swap.old) live.old (W.content swap.new) live.new) }
    ensures store { live.new.store ≡ live.old.store }
    ensures outputs { live.new.outputs ≡ live.old.outputs }
    ensures objects { live.new.objects ≡ live.old.objects }
    ensures cells { live.new.cells ≡ live.old.cells }
    ensures brings { Brings (W.content swap.old) (W.content swap.new) (W.last swap.new) (W.read_faults swap.old) (W.read_faults swap.new) (W.write_faults swap.old) (W.write_faults swap.new)
        (W.is_truthful swap.old) (W.is_truthful swap.new) (W.is_honest swap.old) (W.is_honest swap.new) live.old live.new (brought_by result) }
    ensures stands { W.is_truthful swap.new → StandsStill (W.content swap.old) live.old (W.content swap.new) live.new }
    ensures found { IfOk result (λ o. MatchOption o (out_count live.new.versions < out_count live.old.versions) (λ r. IsMissingHere r (all_made made.now) live.old (string_bytes file))) }
{
    match version_of_file(live, made, file.as_str()) {
        Some(p) => {
            bring_out(live, swap, p)?;
            Ok(None)
        }
        None => Ok(Some(Compiled::Missing(FilePath::from_string(file)))),
    }
}

/// What a refusal of a file leads to: its faults, or that its first parent is not known; or None where a program came into memory.
fn refused<W: Truthful>(
    live: &mut Live,
    swap: &mut W,
    made: &[MadeFor],
    fault: CompileFault,
) -> Result<Option<Compiled>, LoadFault>
    requires closed { IsClosed live.old }
    requires named { AreNamed live.old.names }
    requires unknown { IsUnknown fault (all_made made.now) live.old }
    ensures closed { IsClosed live.new }
    ensures worlds { OnOk result (KeepsWorlds (W.content swap.old) live.old (W.content swap.new) live.new) }
    ensures store { live.new.store ≡ live.old.store }
    ensures outputs { live.new.outputs ≡ live.old.outputs }
    ensures objects { live.new.objects ≡ live.old.objects }
    ensures cells { live.new.cells ≡ live.old.cells }
    ensures brings { Brings (W.content swap.old) (W.content swap.new) (W.last swap.new) (W.read_faults swap.old) (W.read_faults swap.new) (W.write_faults swap.old) (W.write_faults swap.new)
        (W.is_truthful swap.old) (W.is_truthful swap.new) (W.is_honest swap.old) (W.is_honest swap.new) live.old live.new (brought_by result) }
    ensures stands { W.is_truthful swap.new → StandsStill (W.content swap.old) live.old (W.content swap.new) live.new }
    ensures found { IfOk result (λ o. MatchOption o (out_count live.new.versions < out_count live.old.versions) (λ r. IsRefusedTo r fault (all_made made.now) live.old)) }
{
    match fault {
        CompileFault::Faults(faults) => Ok(Some(Compiled::Faulty(faults))),
        CompileFault::Need(file) => needed(live, swap, made, file),
        CompileFault::TooLarge => Err(LoadFault::NoMemory),
        CompileFault::NoMemory => Err(LoadFault::NoMemory),
    }
}

/// Compiles a file once: what that gives, or None where the program of a parent came into memory for it.
fn attempt<W: Truthful>(
    live: &mut Live,
    swap: &mut W,
    made: &[MadeFor],
    path: &str,
    own: ProgId,
    simuls: &Names2,
) -> Result<Option<Compiled>, LoadFault>
    requires closed { IsClosed live.old }
    requires world { HasWorld (W.content swap.old) live.old }
    ensures closed { IsClosed live.new }
    ensures worlds { OnOk result (KeepsWorlds (W.content swap.old) live.old (W.content swap.new) live.new) }
    ensures store { live.new.store ≡ live.old.store }
    ensures outputs { live.new.outputs ≡ live.old.outputs }
    ensures objects { live.new.objects ≡ live.old.objects }
    ensures cells { live.new.cells ≡ live.old.cells }
    ensures brings { Brings (W.content swap.old) (W.content swap.new) (W.last swap.new) (W.read_faults swap.old) (W.read_faults swap.new) (W.write_faults swap.old) (W.write_faults swap.new)
        (W.is_truthful swap.old) (W.is_truthful swap.new) (W.is_honest swap.old) (W.is_honest swap.new) live.old live.new (brought_by result) }
    ensures stands { W.is_truthful swap.new → StandsStill (W.content swap.old) live.old (W.content swap.new) live.new }
    ensures found { IfOk result (λ o. MatchOption o (out_count live.new.versions < out_count live.old.versions)
        (λ r. (name : List ℕ) → path.now ≡ file_bytes name → CompilesTo r (all_made made.now) name own simuls.now (W.content swap.old) live.old (W.content swap.new) live.new)) }
{
    law_compiled_is_sound();
    law_refused_is_told();
    law_stores_are_read();
    law_files_are_of_names();
    match compile_present(live, made, path, own, simuls) {
        Ok(program) => Ok(Some(Compiled::Made(program))),
        Err(fault) => refused(live, swap, made, fault),
    }
}

/// Compiles the file of a load for the version with a number, over the versions that the load made for parents and those of live
/// blueprints. Programs of these that are out come into memory, and nothing else changes. The file is read once more for each.
///
/// # Errors
/// `Swap` where the read of a program that was out failed, or gave other bytes. `NoMemory`, also where the file has no fault, but a
/// number of it no room.
pub(crate) fn compile_file<W: Truthful>(
    live: &mut Live,
    swap: &mut W,
    made: &[MadeFor],
    path: &str,
    own: ProgId,
    simuls: &Names2,
) -> Result<Compiled, LoadFault>
    requires closed { IsClosed live.old }
    requires world { HasWorld (W.content swap.old) live.old }
    ensures closed { IsClosed live.new }
    ensures compiles { IfOk result (λ r. (name : List ℕ) → path.now ≡ file_bytes name → CompilesTo r (all_made made.now) name own simuls.now (W.content swap.old) live.old (W.content swap.new) live.new) }
    ensures worlds { OnOk result (KeepsWorlds (W.content swap.old) live.old (W.content swap.new) live.new) }
    ensures store { live.new.store ≡ live.old.store }
    ensures outputs { live.new.outputs ≡ live.old.outputs }
    ensures objects { live.new.objects ≡ live.old.objects }
    ensures cells { live.new.cells ≡ live.old.cells }
    ensures brings { Brings (W.content swap.old) (W.content swap.new) (W.last swap.new) (W.read_faults swap.old) (W.read_faults swap.new) (W.write_faults swap.old) (W.write_faults swap.new)
        (W.is_truthful swap.old) (W.is_truthful swap.new) (W.is_honest swap.old) (W.is_honest swap.new) live.old live.new (brought_by result) }
    ensures stands { W.is_truthful swap.new → StandsStill (W.content swap.old) live.old (W.content swap.new) live.new }
{
    match attempt(live, swap, made, path, own, simuls) {
        Ok(Some(r)) => Ok(r),
        Ok(None) => compile_file(live, swap, made, path, own, simuls),
        Err(e) => Err(e),
    }
}
