//! Loads are told how a load that they asked for ended.
ghost use Rattle.std.specs.Prelude.{IfErr, IfOk, Option, ℕ};
ghost use Rattle.lp_cells.specs.Cells.{Store};
ghost use Rattle.lp_efuns.specs.declared.caller.Turn.{Turn};
ghost use Rattle.lp_loading.specs.Going.{IsAnswerThere, Takes};
ghost use Rattle.lp_loading.specs.Steps.{EndsThere, GoesReading, IsSameLoad};
ghost use Rattle.lp_loading.specs.Telling.{IsDeviceless};
ghost use Rattle.lp_swapfile.specs.Device.{Bytes};

use crate::job::{Answer, Fed, LoadFault, LoadJob, Waiting};
use crate::taking::{take_parent, take_simul};
use lp_world::live::Live;

/// A load is told how the load that it asked for ended, with the state as it is then. Where an object of its own name lives by
/// then, it ends with that; faults and stops end it too; else it reads its file, and has the version of a parent that was made.
///
/// The job stays the same load but for the versions that it made for parents. Takes memory for one of these, and for the name.
///
/// # Errors
/// `NoMemory`, also where nothing is left of the object of a parent.
pub fn feed(
    job: &mut LoadJob,
    live: &Live,
    waiting: Waiting,
    answer: Answer,
) -> Result<Fed, LoadFault>
    ensures takes { IfOk result (λ r. (told : Option Bytes) (turn : Turn) (budget : ℕ) → Takes r job.old waiting answer told live.now job.new turn budget) }
    ensures same { IsSameLoad job.old job.new }
    ensures reads { IfOk result GoesReading }
    ensures there { IfOk result (λ r. (cells : Store) → IsAnswerThere cells answer → EndsThere cells r) }
    ensures fault { IfErr result IsDeviceless }
{
    match waiting {
        Waiting::Simul => Ok(take_simul(job, live, answer)?),
        Waiting::Parent(name) => take_parent(job, live, name, answer),
    }
}
