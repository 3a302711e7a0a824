//! What a load does next.
ghost use Rattle.std.specs.Prelude.{◌≡◌, IfOk, List, Option, ℕ};
ghost use Rattle.lp_asking.specs.declared.asker.Loading.{Loading as Loads};
ghost use Rattle.lp_efuns.specs.declared.caller.Turn.{Turn};
ghost use Rattle.lp_beginning.specs.Beginning.{BringsFirst};
ghost use Rattle.lp_loading.specs.Telling.{brought_by};
ghost use Rattle.lp_loading.specs.Going.{Goes};
ghost use Rattle.lp_loading.specs.Present.{HasWorld};
ghost use Rattle.lp_loading.specs.Reads.{HasRead};
ghost use Rattle.lp_loading.specs.Steps.{AsksInOrder, MakesFor, MakesHome};
ghost use Rattle.lp_loading.specs.declared.compiling.Compiled.TheVariants as compiled;
ghost use Rattle.lp_loading.specs.declared.job.Going.TheVariants as stages;
ghost use Rattle.lp_step.specs.Steps.{KeepsVariables};
ghost use Rattle.lp_swapfile.specs.Device.{Bytes};
ghost use Rattle.lp_world.specs.Closed.{IsClosed};
ghost use Rattle.lp_world.specs.declared.live.Live.{Live as L};

use crate::asking::{ask_simul, simul_missing};
use crate::compiling::Compiled;
use crate::job::{Going, LoadFault, LoadJob, Step};
use crate::laws::law_sound_goes_on;
use crate::lines::go_missing;
use crate::objects::make_object;
use crate::reading::{compile_own, tell_faults};
use crate::versions::make_version;
use lp_asking::asker::Loading;
use lp_asking::truth::Truthful;
use lp_code::program::Program;
use lp_world::live::Live;

/// The file of a load has no fault: its program becomes a version, and an object of that is made.
fn make_both<W: Truthful>(
    live: &mut Live,
    swap: &mut W,
    job: &LoadJob,
    program: Program,
) -> Result<Step, LoadFault>
    requires closed { IsClosed live.old }
    ensures goes { IfOk result (λ r. (loads : List Loads) (told0 : Option Bytes) (live0 : L) (budget : ℕ) (turn : Turn) → HasRead (compiled.Made program) job.now loads told0 live0 (W.content swap.old) live.old
        → Goes r job.now stages.Read loads told0 live0 budget (W.content swap.new) live.new budget turn) }
    ensures order { IfOk result (AsksInOrder stages.Read) }
    ensures home { IfOk result (MakesHome live.new.objects) }
    ensures kind { IfOk result (MakesFor job.now.purpose) }
    ensures closed { IsClosed live.new }
    ensures cells { live.new.cells ≡ live.old.cells }
    ensures variables { KeepsVariables live.old.objects live.new.objects }
    ensures brings { BringsFirst (W.content swap.old) (W.content swap.new) (W.last swap.new) (W.read_faults swap.old) (W.read_faults swap.new) (W.write_faults swap.old) (W.write_faults swap.new)
        (W.is_truthful swap.old) (W.is_truthful swap.new) (W.is_honest swap.old) (W.is_honest swap.new) live.old live.new (brought_by result) }
{
    law_sound_goes_on();
    match make_version(live, job.name.as_slice(), program) {
        Ok(version) => make_object(live, swap, job, version),
        Err(e) => Err(e),
    }
}

/// The file of a load was read, while these loads are under way.
fn go_on<W: Truthful>(
    live: &mut Live,
    swap: &mut W,
    job: &LoadJob,
    loads: &[Loading],
    read: Compiled,
) -> Result<Step, LoadFault>
    requires closed { IsClosed live.old }
    ensures goes { IfOk result (λ r. (told0 : Option Bytes) (live0 : L) (budget : ℕ) (turn : Turn) → HasRead read job.now loads.now told0 live0 (W.content swap.old) live.old
        → Goes r job.now stages.Read loads.now told0 live0 budget (W.content swap.new) live.new budget turn) }
    ensures order { IfOk result (AsksInOrder stages.Read) }
    ensures home { IfOk result (MakesHome live.new.objects) }
    ensures kind { IfOk result (MakesFor job.now.purpose) }
    ensures closed { IsClosed live.new }
    ensures cells { live.new.cells ≡ live.old.cells }
    ensures variables { KeepsVariables live.old.objects live.new.objects }
    ensures brings { BringsFirst (W.content swap.old) (W.content swap.new) (W.last swap.new) (W.read_faults swap.old) (W.read_faults swap.new) (W.write_faults swap.old) (W.write_faults swap.new)
        (W.is_truthful swap.old) (W.is_truthful swap.new) (W.is_honest swap.old) (W.is_honest swap.new) live.old live.new (brought_by result) }
{
    match read {
        Compiled::Made(program) => make_both(live, swap, job, program),
        Compiled::Faulty(faults) => tell_faults(live, faults),
        Compiled::Missing(file) => go_missing(job, live, loads, file.as_str()),
    }
}

/// The file of a load is read, while these loads are under way.
fn read_on<W: Truthful>(
    live: &mut Live,
    swap: &mut W,
    job: &LoadJob,
    loads: &[Loading],
) -> Result<Step, LoadFault>
    requires closed { IsClosed live.old }
    requires world { HasWorld (W.content swap.old) live.old }
    ensures goes { IfOk result (λ r. (budget : ℕ) (turn : Turn) → Goes r job.now stages.Read loads.now (W.content swap.old) live.old budget (W.content swap.new) live.new budget turn) }
    ensures order { IfOk result (AsksInOrder stages.Read) }
    ensures home { IfOk result (MakesHome live.new.objects) }
    ensures kind { IfOk result (MakesFor job.now.purpose) }
    ensures closed { IsClosed live.new }
    ensures cells { live.new.cells ≡ live.old.cells }
    ensures variables { KeepsVariables live.old.objects live.new.objects }
    ensures brings { BringsFirst (W.content swap.old) (W.content swap.new) (W.last swap.new) (W.read_faults swap.old) (W.read_faults swap.new) (W.write_faults swap.old) (W.write_faults swap.new)
        (W.is_truthful swap.old) (W.is_truthful swap.new) (W.is_honest swap.old) (W.is_honest swap.new) live.old live.new (brought_by result) }
{
    match compile_own(job, live, swap, loads) {
        Ok(read) => go_on(live, swap, job, loads, read),
        Err(e) => Err(e),
    }
}

/// The simul-efun object comes first, where it is missing; else the file is read.
fn begin_on<W: Truthful>(
    live: &mut Live,
    swap: &mut W,
    job: &LoadJob,
    loads: &[Loading],
) -> Result<Step, LoadFault>
    requires closed { IsClosed live.old }
    requires world { HasWorld (W.content swap.old) live.old }
    ensures goes { IfOk result (λ r. (budget : ℕ) (turn : Turn) → Goes r job.now stages.Simul loads.now (W.content swap.old) live.old budget (W.content swap.new) live.new budget turn) }
    ensures order { IfOk result (AsksInOrder stages.Simul) }
    ensures home { IfOk result (MakesHome live.new.objects) }
    ensures kind { IfOk result (MakesFor job.now.purpose) }
    ensures closed { IsClosed live.new }
    ensures cells { live.new.cells ≡ live.old.cells }
    ensures variables { KeepsVariables live.old.objects live.new.objects }
    ensures brings { BringsFirst (W.content swap.old) (W.content swap.new) (W.last swap.new) (W.read_faults swap.old) (W.read_faults swap.new) (W.write_faults swap.old) (W.write_faults swap.new)
        (W.is_truthful swap.old) (W.is_truthful swap.new) (W.is_honest swap.old) (W.is_honest swap.new) live.old live.new (brought_by result) }
{
    let missing = simul_missing(live, loads)?;
    match missing {
        Some(name) => Ok(ask_simul(name)),
        None => read_on(live, swap, job, loads),
    }
}

/// What a load does next, while these loads are under way, itself the innermost, which is the last. It asks for the load of another
/// object; or its object was made, whose job is handed over; or it ends: with the faults of its file, which are logged, or with the
/// error that there are too many objects.
///
/// It asks for the simul-efun object at most once, and first. Each other question is for a parent, whose load pays 1000. Programs of
/// parents, and those of the simul-efun object, come into memory. Takes time in proportion to what it reads.
///
/// # Errors
/// `Swap` where the read of a program that was out failed, or gave other bytes than were written. `NoMemory`, also where the file has
/// no fault, but a number of it no room or its name letters beyond ASCII, and where a live object has the name by then.
/// The state is closed then, and what is in memory is there still; versions may have come to it.
pub fn next<W: Truthful>(
    live: &mut Live,
    swap: &mut W,
    job: &LoadJob,
    going: Going,
    loads: &[Loading],
) -> Result<Step, LoadFault>
    requires closed { IsClosed live.old }
    requires world { HasWorld (W.content swap.old) live.old }
    ensures goes { IfOk result (λ r. (budget : ℕ) (turn : Turn) → Goes r job.now going loads.now (W.content swap.old) live.old budget (W.content swap.new) live.new budget turn) }
    ensures order { IfOk result (AsksInOrder going) }
    ensures home { IfOk result (MakesHome live.new.objects) }
    ensures kind { IfOk result (MakesFor job.now.purpose) }
    ensures closed { IsClosed live.new }
    ensures cells { live.new.cells ≡ live.old.cells }
    ensures variables { KeepsVariables live.old.objects live.new.objects }
    ensures brings { BringsFirst (W.content swap.old) (W.content swap.new) (W.last swap.new) (W.read_faults swap.old) (W.read_faults swap.new) (W.write_faults swap.old) (W.write_faults swap.new)
        (W.is_truthful swap.old) (W.is_truthful swap.new) (W.is_honest swap.old) (W.is_honest swap.new) live.old live.new (brought_by result) }
{
    match going {
        Going::Simul => begin_on(live, swap, job, loads),
        Going::Read => read_on(live, swap, job, loads),
    }
}
