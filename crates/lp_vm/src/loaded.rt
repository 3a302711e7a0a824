//! How loads end for LPC.
ghost use Rattle.std.specs.Prelude.{◌≡◌, IfErr, IfOk, None};
ghost use Rattle.std.specs.Str.{chars};
ghost use Rattle.lp_cells.specs.Cells.{Store};
ghost use Rattle.lp_language.specs.Resolve.{without_c};
ghost use Rattle.lp_meaning.specs.FileLoads.{could_not_load, failed_name};
ghost use Rattle.lp_asking.specs.declared.ending.Cause.TheVariants as causes;
ghost use Rattle.lp_asking.specs.Endings.{IsEndingThere};
ghost use Rattle.lp_loading.specs.Going.{IsAnswerThere};
ghost use Rattle.lp_vm.specs.declared.fault.VmFault.TheVariants.{NoMemory};
ghost use Rattle.lp_vm.specs.Loaded.{loaded_ending};

use crate::fault::VmFault;
use lp_asking::ending::{Cause, Ending, Stop};
use lp_efuns::names::ends_in_c;
use lp_loading::job::Answer;
use lp_tree::fault::Fault;
use lp_values::error::{ErrorKind, RunError};
use lp_values::text::{Text, code_points};
use std::alloc::{AllocError, Global};

/// The path of a file without `.c`, as code points.
fn name_of_file(alloc: Global, path: &str) -> Result<Vec<char>, AllocError>
    ensures { IfOk result (λ v. v.items ≡ without_c (chars path.now)) }
{
    let mut all = code_points(alloc, path)?;
    if ends_in_c(all.as_slice()) {
        let n = all.len();
        all.truncate(n.saturating_sub(2));
    }
    Ok(all)
}

/// The name whose file failed: that of the first fault, or the one that was loaded.
fn name_failed(alloc: Global, name: &Text, faults: &[Fault]) -> Result<Vec<char>, AllocError>
    ensures { IfOk result (λ v. v.items ≡ failed_name name.now faults.now) }
{
    match faults {
        [f, ..] => name_of_file(alloc, f.file.as_str()),
        [] => name.as_slice().to_vec(alloc),
    }
}

/// The stop of a load that found faults: an error, in no function of its own.
fn load_failed(alloc: Global, name: &Text, faults: &[Fault]) -> Result<Stop, AllocError>
    ensures { IfOk result (λ s. s ≡ record { cause = causes.Failed (could_not_load name.now faults.now); place = None }) }
{
    let failed = name_failed(alloc, name, faults)?;
    let error = RunError::new(alloc, ErrorKind::CouldNotLoad, failed.as_slice())?;
    Ok(Stop {
        cause: Cause::Failed(error),
        place: None,
    })
}

/// How a load of this name ends, as LPC has it: faults of its file are an error.
///
/// # Errors
/// `NoMemory`.
pub fn loaded_ending(alloc: Global, name: &Text, answer: Answer) -> Result<Ending, VmFault>
    ensures ending { IfOk result (λ e. e ≡ loaded_ending name.now answer) }
    ensures there { IfOk result (λ e. (cells : Store) → IsAnswerThere cells answer → IsEndingThere cells e) }
    ensures fault { IfErr result (λ f. f ≡ NoMemory) }
{
    match answer {
        Answer::Value(v) => Ok(Ending::Value(v)),
        Answer::Faulty(faults) => {
            let stop = load_failed(alloc, name, faults.as_slice())?;
            Ok(Ending::Stopped(stop))
        }
        Answer::Stopped(stop) => Ok(Ending::Stopped(stop)),
    }
}
