//! A load asks for the load of the simul-efun object first, where that is missing.
ghost use Rattle.std.specs.Prelude.{◌≡◌, IfOk, List, Option, Some, ℕ};
ghost use Rattle.lp_asking.specs.declared.asker.Loading.{Loading as Loads};
ghost use Rattle.lp_code.specs.declared.program.RawProgram.{RawProgram as Raw};
ghost use Rattle.lp_language.specs.World.{World};
ghost use Rattle.lp_efuns.specs.declared.caller.Turn.{Turn};
ghost use Rattle.lp_loading.specs.Going.{Goes};
ghost use Rattle.lp_loading.specs.Parents.{AsksParent};
ghost use Rattle.lp_loading.specs.Loads.{loads_of};
ghost use Rattle.lp_loading.specs.Simuls.{missing_if};
ghost use Rattle.lp_loading.specs.Steps.{AsksOrFails};
ghost use Rattle.lp_loading.specs.declared.job.Going.TheVariants as stages;
ghost use Rattle.lp_loading.specs.declared.job.LoadJob.{LoadJob as Job};
ghost use Rattle.lp_loading.specs.declared.job.Step.TheVariants as steps;
ghost use Rattle.lp_loading.specs.declared.job.Waiting.TheVariants as waitings;
ghost use Rattle.lp_meaning.specs.FileLoads.{simul_missing as missing};
ghost use Rattle.lp_swapfile.specs.Device.{Bytes};
ghost use Rattle.lp_world.specs.Stands.{Stands};
ghost use Rattle.lp_world.specs.declared.live.Live.{Live as L};

use crate::job::{Step, Waiting};
use crate::laws::law_missing_goes_on;
use crate::simuls::{is_under_way, object_named};
use lp_asking::asker::Loading;
use lp_front_end::law_names_have_files;
use lp_values::text::Text;
use lp_world::live::Live;
use std::alloc::AllocError;

/// The name of the simul-efun object, where it has to be loaded: it is not live, and its own load is not under way.
fn missing_named(live: &Live, loads: &[Loading], name: &Text) -> Result<Option<Text>, AllocError>
    ensures { IfOk result (λ o. (told : Option Bytes) (programs : List Raw) (w : World) → Stands told programs live.now w → o ≡ missing_if w name.now (loads_of loads.now)) }
{
    if is_under_way(name.as_slice(), loads) {
        return Ok(None);
    }
    match object_named(live, name.as_slice())? {
        Some(_) => Ok(None),
        None => Ok(Some(name.copy()?)),
    }
}

/// The name of the simul-efun object, where there is one that has to be loaded before a file is read.
pub(crate) fn simul_missing(live: &Live, loads: &[Loading]) -> Result<Option<Text>, AllocError>
    ensures { IfOk result (λ o. (told : Option Bytes) (programs : List Raw) (w : World) → Stands told programs live.now w → o ≡ missing w (loads_of loads.now)) }
{
    match &live.simul {
        Some(name) => missing_named(live, loads, name),
        None => Ok(None),
    }
}

/// A load asks for the load of the simul-efun object, which has this name and is missing. Takes no memory.
pub(crate) fn ask_simul(name: Text) -> Step
    ensures goes { (job : Job) (loads : List Loads) (told : Option Bytes) (live : L) (budget : ℕ) (turn : Turn) → ((t : Option Bytes) (programs : List Raw) (w : World) → Stands t programs live w → Some name ≡ missing w (loads_of loads))
        → Goes result job stages.Simul loads told live budget told live budget turn }
    ensures is { result ≡ steps.Asks name waitings.Simul }
{
    Step::Asks(name, Waiting::Simul)
}

/// A load asks for the load of the first of its parents that is not known, which has this name.
pub(crate) fn ask_parent(name: Text) -> Result<Step, AllocError>
    ensures goes { IfOk result (λ r. (job : Job) (loads : List Loads) (told : Option Bytes) (live : L) (budget : ℕ) (turn : Turn) → AsksParent job loads told live name → Goes r job stages.Read loads told live budget told live budget turn) }
    ensures asks { IfOk result AsksOrFails }
{
    law_missing_goes_on();
    law_names_have_files();
    let parent = name.copy()?;
    Ok(Step::Asks(name, Waiting::Parent(parent)))
}
