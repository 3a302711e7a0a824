//! The start is told how its calls ended.
ghost use Rattle.std.specs.Prelude.{◌≡◌, IfOk, List, false};
ghost use Rattle.std.specs.List.{list_any};
ghost use Rattle.std.specs.Str.{chars};
ghost use Rattle.lp_instr.specs.EfunList.{is_name};
ghost use Rattle.lp_meaning.specs.WorldSteps.{master_name};
ghost use Rattle.lp_cells.specs.Cells.{IsThere, Store};
ghost use Rattle.lp_language.specs.Course.{State};
ghost use Rattle.lp_meaning.specs.EventTurns.{Done, aborted};
ghost use Rattle.lp_objects.specs.Objects.{Named};
ghost use Rattle.lp_objects.specs.Stands.{Stands as Names, known_at};
ghost use Rattle.lp_targets.specs.Brought.{Brings};
ghost use Rattle.lp_turn.specs.Calls.{IsCallEndThere};
ghost use Rattle.lp_turn.specs.Left.{LeavesNoMore};
ghost use Rattle.lp_turn.specs.StartEnds.{AreFaultsFor, TakesMade, WasMade, is_master_name};
ghost use Rattle.lp_turn.specs.Starting.{IsStartThere, StartTakes};
ghost use Rattle.lp_turn.specs.Starts.{start_behind, start_going};
ghost use Rattle.lp_world.specs.Closed.{IsClosed};

use crate::ends::{loaded, value_of};
use crate::job::CallEnd;
use crate::master::master;
use crate::start_job::{StartFunction, StartGoing, StartWaiting};
use lp_code::name::Name;
use lp_objects::objects::Objects;
use lp_residence::answers::EnterFault;
use lp_swapfile::SwapFile;
use lp_tree::fault::{Fault, FaultKind};
use lp_tree::path::FilePath;
use lp_values::id::ObjId;
use lp_values::text::Text;
use lp_values::value::Value;
use lp_world::live::Live;
use std::alloc::{AllocError, Global};

// The first load

/// Whether a name is the master's.
fn is_master_name(alloc: Global, name: &str) -> Result<bool, AllocError>
    ensures { IfOk result (λ b. b ≡ is_name (chars name.now) master_name) }
{
    let points = Text::from_str(alloc, name)?;
    let wanted = Text::from_str(alloc, "/secure/master")?;
    Ok(points == wanted)
}

/// Whether an object that is known has it.
fn is_master(alloc: Global, names: &Objects, o: ObjId) -> Result<bool, AllocError>
    ensures { IfOk result (λ b. (objects : List Named) → Names names.now objects → b ≡ is_master_name (known_at names.now objects o.0)) }
{
    match names.name(o) {
        Some(name) => is_master_name(alloc, name),
        None => Ok(false),
    }
}

/// Whether one of some objects that are known has it.
fn is_among(alloc: Global, names: &Objects, objects: &[ObjId]) -> Result<bool, AllocError>
    ensures { IfOk result (λ b. (all : List Named) → Names names.now all → b ≡ list_any (λ o. is_master_name (known_at names.now all o.0)) objects.now) }
{
    match objects {
        [o, rest @ ..] => {
            if is_master(alloc, names, *o)? {
                return Ok(true);
            }
            is_among(alloc, names, rest)
        }
        [] => Ok(false),
    }
}

/// Whether an object of the master's name was made, live or not, where all that were made are known.
fn was_made(alloc: Global, names: &Objects) -> Result<bool, AllocError>
    ensures { IfOk result (λ b. WasMade names.now b) }
{
    if master(names).is_some() {
        return Ok(true);
    }
    is_among(alloc, names, names.died())
}

/// The fault of a load of the master that was aborted.
fn aborted(alloc: Global) -> Result<Vec<Fault>, AllocError>
    ensures { IfOk result (λ fs. fs.items ≡ aborted) }
{
    let mut faults = Vec::new(alloc);
    faults.push(Fault {
        file: FilePath::from_str(alloc, "/secure/master.c")?,
        line: 0,
        kind: FaultKind::Aborted,
    })?;
    Ok(faults)
}

/// The faults for which there is no master.
fn faults_for(alloc: Global, end: CallEnd) -> Result<Vec<Fault>, AllocError>
    ensures { IfOk result (λ fs. AreFaultsFor end fs.items) }
{
    match end {
        CallEnd::Faulty(faults) => Ok(faults),
        CallEnd::Ended(_) => aborted(alloc),
    }
}

/// The first load of the master ended, and an object of its name was made.
fn take_made<W: SwapFile>(
    live: &mut Live,
    swap: &mut W,
    end: CallEnd,
) -> Result<StartGoing, EnterFault>
    requires closed { IsClosed live.old }
    ensures takes { W.is_truthful swap.new → IfOk result (λ g. TakesMade end (W.content swap.old) live.old (W.content swap.new) live.new g) }
    ensures no_more { IfOk result (λ g. LeavesNoMore g StartWaiting.First) }
    ensures there { IfOk result (λ g. (cells : Store) → IsCallEndThere cells end → IsStartThere cells g) }
    ensures brings { Brings (W.content swap.old) (W.content swap.new) (W.last swap.new) (W.read_faults swap.old) (W.read_faults swap.new) (W.write_faults swap.old) (W.write_faults swap.new)
        (W.is_truthful swap.old) (W.is_truthful swap.new) (W.is_honest swap.old) (W.is_honest swap.new) live.old (record live.new { outputs = live.old.outputs }) result }
    ensures closed { IsClosed live.new }
{
    match loaded(live, swap, "/secure/master", end) {
        Ok(()) => Ok(StartGoing::Master(StartFunction::Inaugurate)),
        Err(e) => Err(e),
    }
}

/// The first load of the master ended, and no object of its name was made.
fn no_master<W: SwapFile>(
    live: &mut Live,
    swap: &mut W,
    end: CallEnd,
) -> Result<StartGoing, EnterFault>
    requires closed { IsClosed live.old }
    requires made { WasMade live.old.names false }
    ensures takes { W.is_truthful swap.new → IfOk result (λ g. StartTakes StartWaiting.First end (W.content swap.old) live.old (W.content swap.new) live.new g) }
    ensures no_more { IfOk result (λ g. LeavesNoMore g StartWaiting.First) }
    ensures there { IfOk result (λ g. (cells : Store) → IsCallEndThere cells end → IsStartThere cells g) }
    ensures brings { Brings (W.content swap.old) (W.content swap.new) (W.last swap.new) (W.read_faults swap.old) (W.read_faults swap.new) (W.write_faults swap.old) (W.write_faults swap.new)
        (W.is_truthful swap.old) (W.is_truthful swap.new) (W.is_honest swap.old) (W.is_honest swap.new) live.old (record live.new { outputs = live.old.outputs }) result }
    ensures closed { IsClosed live.new }
{
    match faults_for(live.alloc, end) {
        Ok(faults) => Ok(StartGoing::NoMaster(faults)),
        Err(_) => Err(EnterFault::NoMemory),
    }
}

/// The first load of the master ended.
fn take_first<W: SwapFile>(
    live: &mut Live,
    swap: &mut W,
    end: CallEnd,
) -> Result<StartGoing, EnterFault>
    requires closed { IsClosed live.old }
    ensures takes { W.is_truthful swap.new → IfOk result (λ g. StartTakes StartWaiting.First end (W.content swap.old) live.old (W.content swap.new) live.new g) }
    ensures no_more { IfOk result (λ g. LeavesNoMore g StartWaiting.First) }
    ensures there { IfOk result (λ g. (cells : Store) → IsCallEndThere cells end → IsStartThere cells g) }
    ensures brings { Brings (W.content swap.old) (W.content swap.new) (W.last swap.new) (W.read_faults swap.old) (W.read_faults swap.new) (W.write_faults swap.old) (W.write_faults swap.new)
        (W.is_truthful swap.old) (W.is_truthful swap.new) (W.is_honest swap.old) (W.is_honest swap.new) live.old (record live.new { outputs = live.old.outputs }) result }
    ensures closed { IsClosed live.new }
{
    match was_made(live.alloc, &live.names) {
        Ok(true) => take_made(live, swap, end),
        Ok(false) => no_master(live, swap, end),
        Err(_) => Err(EnterFault::NoMemory),
    }
}

// Later calls

/// Where the start goes on behind the value of a function of the master.
fn behind(f: StartFunction, v: Value) -> StartGoing
    ensures course { (d : Done) (s : State) → d.value ≡ v → start_behind f d s ≡ start_going result s }
    ensures no_more { LeavesNoMore result (StartWaiting.Master f) }
    ensures there { (cells : Store) → IsThere cells v → IsStartThere cells result }
{
    match f {
        StartFunction::Inaugurate => StartGoing::Master(StartFunction::SimulEfun),
        StartFunction::SimulEfun => StartGoing::Answered(v),
        StartFunction::Epilog => StartGoing::Listed(v),
        StartFunction::Preload(_, texts) => StartGoing::Preloading(texts),
    }
}

/// The master was loaded, or not, for a function of it.
fn take_load<W: SwapFile>(
    live: &mut Live,
    swap: &mut W,
    f: StartFunction,
    end: CallEnd,
) -> Result<StartGoing, EnterFault>
    requires closed { IsClosed live.old }
    ensures takes { W.is_truthful swap.new → IfOk result (λ g. StartTakes (StartWaiting.Load f) end (W.content swap.old) live.old (W.content swap.new) live.new g) }
    ensures no_more { IfOk result (λ g. LeavesNoMore g (StartWaiting.Load f)) }
    ensures there { IfOk result (λ g. (cells : Store) → IsCallEndThere cells end → IsStartThere cells g) }
    ensures brings { Brings (W.content swap.old) (W.content swap.new) (W.last swap.new) (W.read_faults swap.old) (W.read_faults swap.new) (W.write_faults swap.old) (W.write_faults swap.new)
        (W.is_truthful swap.old) (W.is_truthful swap.new) (W.is_honest swap.old) (W.is_honest swap.new) live.old (record live.new { outputs = live.old.outputs }) result }
    ensures closed { IsClosed live.new }
{
    match loaded(live, swap, "/secure/master", end) {
        Ok(()) => Ok(StartGoing::Loaded(f)),
        Err(e) => Err(e),
    }
}

/// A function of the master ended.
fn take_master<W: SwapFile>(
    live: &mut Live,
    swap: &mut W,
    f: StartFunction,
    end: CallEnd,
) -> Result<StartGoing, EnterFault>
    requires closed { IsClosed live.old }
    ensures takes { W.is_truthful swap.new → IfOk result (λ g. StartTakes (StartWaiting.Master f) end (W.content swap.old) live.old (W.content swap.new) live.new g) }
    ensures no_more { IfOk result (λ g. LeavesNoMore g (StartWaiting.Master f)) }
    ensures there { IfOk result (λ g. (cells : Store) → IsCallEndThere cells end → IsStartThere cells g) }
    ensures brings { Brings (W.content swap.old) (W.content swap.new) (W.last swap.new) (W.read_faults swap.old) (W.read_faults swap.new) (W.write_faults swap.old) (W.write_faults swap.new)
        (W.is_truthful swap.old) (W.is_truthful swap.new) (W.is_honest swap.old) (W.is_honest swap.new) live.old (record live.new { outputs = live.old.outputs }) result }
    ensures closed { IsClosed live.new }
{
    match value_of(live, swap, None, end) {
        Ok(v) => Ok(behind(f, v)),
        Err(e) => Err(e),
    }
}

/// The simul-efun object was loaded, or not.
fn take_simul<W: SwapFile>(
    live: &mut Live,
    swap: &mut W,
    name: &Name,
    end: CallEnd,
) -> Result<StartGoing, EnterFault>
    requires closed { IsClosed live.old }
    ensures takes { W.is_truthful swap.new → IfOk result (λ g. StartTakes (StartWaiting.Simul name.now) end (W.content swap.old) live.old (W.content swap.new) live.new g) }
    ensures no_more { IfOk result (λ g. LeavesNoMore g (StartWaiting.Simul name.now)) }
    ensures there { IfOk result (λ g. (cells : Store) → IsCallEndThere cells end → IsStartThere cells g) }
    ensures brings { Brings (W.content swap.old) (W.content swap.new) (W.last swap.new) (W.read_faults swap.old) (W.read_faults swap.new) (W.write_faults swap.old) (W.write_faults swap.new)
        (W.is_truthful swap.old) (W.is_truthful swap.new) (W.is_honest swap.old) (W.is_honest swap.new) live.old (record live.new { outputs = live.old.outputs }) result }
    ensures closed { IsClosed live.new }
{
    match loaded(live, swap, name.as_str(), end) {
        Ok(()) => Ok(StartGoing::Master(StartFunction::Epilog)),
        Err(e) => Err(e),
    }
}

/// The start is told how its call ended. A stop is told to the log; then the start goes on as with 0. The program in which it
/// stopped is brought into memory. After the first load there is no master where no object of its name was made.
///
/// # Errors
/// `Swap` where the read of that program failed, or gave other bytes than were written. `NoMemory` where memory ran out, and where
/// the state has not what the place of the stop names. The start is of no use then.
pub fn take_end<W: SwapFile>(
    waiting: StartWaiting,
    end: CallEnd,
    live: &mut Live,
    swap: &mut W,
) -> Result<StartGoing, EnterFault>
    requires closed { IsClosed live.old }
    ensures takes { W.is_truthful swap.new → IfOk result (λ g. StartTakes waiting end (W.content swap.old) live.old (W.content swap.new) live.new g) }
    ensures no_more { IfOk result (λ g. LeavesNoMore g waiting) }
    ensures there { IfOk result (λ g. (cells : Store) → IsCallEndThere cells end → IsStartThere cells g) }
    ensures brings { Brings (W.content swap.old) (W.content swap.new) (W.last swap.new) (W.read_faults swap.old) (W.read_faults swap.new) (W.write_faults swap.old) (W.write_faults swap.new)
        (W.is_truthful swap.old) (W.is_truthful swap.new) (W.is_honest swap.old) (W.is_honest swap.new) live.old (record live.new { outputs = live.old.outputs }) result }
    ensures closed { IsClosed live.new }
{
    match waiting {
        StartWaiting::First => take_first(live, swap, end),
        StartWaiting::Load(f) => take_load(live, swap, f, end),
        StartWaiting::Master(f) => take_master(live, swap, f, end),
        StartWaiting::Simul(name) => take_simul(live, swap, &name, end),
    }
}
