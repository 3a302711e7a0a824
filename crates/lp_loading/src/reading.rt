//! The file of a load is read: its faults end the load, or a parent that is missing is asked for.
ghost use Rattle.std.specs.Prelude.{◌≡◌, IfErr, IfOk, List, Option, false, nat_lt, suc, ℕ};
ghost use Rattle.std.specs.String.{string_bytes};
ghost use Rattle.lp_asking.specs.declared.asker.Loading.{Loading as Loads};
ghost use Rattle.lp_efuns.specs.declared.caller.Turn.{Turn};
ghost use Rattle.lp_front_end.specs.Parents.{file_bytes};
ghost use Rattle.lp_beginning.specs.Beginning.{StandsStill};
ghost use Rattle.lp_loading.specs.Telling.{IsDeviceless, brought_by};
ghost use Rattle.lp_loading.specs.Going.{Goes};
ghost use Rattle.lp_loading.specs.Present.{HasWorld};
ghost use Rattle.lp_loading.specs.Reads.{HasRead};
ghost use Rattle.lp_loading.specs.Steps.{AsksOrFails};
ghost use Rattle.lp_loading.specs.declared.compiling.Compiled.TheVariants as compiled;
ghost use Rattle.lp_loading.specs.declared.job.Going.TheVariants as stages;
ghost use Rattle.lp_loading.specs.declared.job.LoadJob.{LoadJob as Job};
ghost use Rattle.lp_loading.specs.Loads.{loads_of};
ghost use Rattle.lp_meaning.specs.FileLoads.{is_under_way as under_way};
ghost use Rattle.lp_meaning.specs.Limits.{max_nested};
ghost use Rattle.lp_swapfile.specs.Device.{Bytes};
ghost use Rattle.lp_targets.specs.Brought.{Brings};
ghost use Rattle.lp_world.specs.Closed.{IsClosed};
ghost use Rattle.lp_world.specs.declared.live.Live.{Live as L};

use crate::asking::ask_parent;
use crate::compiling::{Compiled, compile_file};
use crate::faults::end_faulty;
use crate::job::{LoadFault, LoadJob, Step};
use crate::laws::law_faulty_ends;
use crate::simuls::{simul_names, text_of};
use lp_asking::asker::Loading;
use lp_asking::truth::Truthful;
use lp_tree::fault::Fault;
use lp_values::id::ProgId;
use lp_values::text::Text;
use lp_world::live::Live;
use std::alloc::{AllocError, Global};

/// The file of a name.
pub(crate) fn file_of(alloc: Global, name: &[char]) -> Result<String, AllocError>
    ensures { IfOk result (λ s. string_bytes s ≡ file_bytes name.now) }
{
    let mut path = text_of(alloc, name)?;
    path.push_str(".c")?;
    Ok(path)
}

/// Reads and compiles the file of a load, while these loads are under way. Programs of parents, and those of the simul-efun
/// object, come into memory for it.
///
/// # Errors
/// Those of `simul_names` and `compile_file`.
pub(crate) fn compile_own<W: Truthful>(
    job: &LoadJob,
    live: &mut Live,
    swap: &mut W,
    loads: &[Loading],
) -> Result<Compiled, LoadFault>
    requires closed { IsClosed live.old }
    requires world { HasWorld (W.content swap.old) live.old }
    ensures read { IfOk result (λ r. HasRead r job.now loads.now (W.content swap.old) live.old (W.content swap.new) live.new) }
    ensures closed { IsClosed live.new }
    ensures objects { live.new.objects ≡ live.old.objects }
    ensures cells { live.new.cells ≡ live.old.cells }
    ensures brings { Brings (W.content swap.old) (W.content swap.new) (W.last swap.new) (W.read_faults swap.old) (W.read_faults swap.new) (W.write_faults swap.old) (W.write_faults swap.new)
        (W.is_truthful swap.old) (W.is_truthful swap.new) (W.is_honest swap.old) (W.is_honest swap.new) live.old live.new (brought_by result) }
    ensures stands { W.is_truthful swap.new → StandsStill (W.content swap.old) live.old (W.content swap.new) live.new }
{
    let simuls = simul_names(live, swap, loads)?;
    let path = file_of(live.alloc, job.name.as_slice())?;
    let own = ProgId(live.versions.len() as u64);
    compile_file(live, swap, job.made.as_slice(), path.as_str(), own, &simuls)
}

/// The faults of the file that was read are logged, and end the load.
pub(crate) fn tell_faults(live: &mut Live, faults: Vec<Fault>) -> Result<Step, LoadFault>
    requires closed { IsClosed live.old }
    ensures goes { IfOk result (λ r. (job : Job) (loads : List Loads) (told0 : Option Bytes) (live0 : L) (told1 : Option Bytes) (budget : ℕ) (turn : Turn) → HasRead (compiled.Faulty faults) job loads told0 live0 told1 live.old
        → Goes r job stages.Read loads told0 live0 budget told1 live.new budget turn) }
    ensures asks { IfOk result AsksOrFails }
    ensures deviceless { IfErr result IsDeviceless }
    ensures closed { IsClosed live.new }
    ensures objects { live.new.objects ≡ live.old.objects }
    ensures cells { live.new.cells ≡ live.old.cells }
{
    law_faulty_ends();
    Ok(end_faulty(live, faults)?)
}

/// The name of a parent, by its file.
///
/// # Errors
/// `NoMemory`, also where the path does not end in `.c`, as each file of a name does.
pub(crate) fn parent_name(alloc: Global, file: &str) -> Result<Text, LoadFault>
    ensures file { IfOk result (λ n. file.now ≡ file_bytes n) }
    ensures deviceless { IfErr result IsDeviceless }
{
    match file.strip_suffix(".c") {
        Some(name) => Ok(Text::from_str(alloc, name)?),
        None => Err(LoadFault::NoMemory),
    }
}

/// A load asks for the first of its parents that is missing, as the file that was read tells, where no load of it is under way and
/// loads are not nested too deep.
pub(crate) fn ask_missing(name: Text) -> Result<Step, AllocError>
    ensures goes { IfOk result (λ r. (file : List ℕ) (job : Job) (loads : List Loads) (told0 : Option Bytes) (live0 : L) (told1 : Option Bytes) (live1 : L) (budget : ℕ) (turn : Turn) → HasRead (compiled.Missing file) job loads told0 live0 told1 live1
        → file ≡ file_bytes name → under_way name (loads_of loads) ≡ false → nat_lt max_nested (suc job.nested) ≡ false → Goes r job stages.Read loads told0 live0 budget told1 live1 budget turn) }
    ensures asks { IfOk result AsksOrFails }
{
    ask_parent(name)
}
