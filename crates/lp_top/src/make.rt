//! The command `make`: writes the script of a workload.
ghost use Rattle.std.specs.Prelude.{◌≡◌};
ghost use Rattle.lp_io.specs.Told.{IsPassedOn};
ghost use Rattle.lp_top.specs.Causes.{BlamesOutput};
ghost use Rattle.lp_top.specs.Make.{IsMakeEnd, Makes};

use crate::status::Status;
use lp_io::Sink;
use lp_workload::{WorkloadFault, write_workload};
use std::alloc::Global;

/// Writes the script of the workload of so many events, which a generator with this seed chooses.
pub(crate) fn make<K: Sink>(alloc: Global, count: u32, seed: u64, out: &mut K) -> Status
    ensures makes { Makes count seed result (K.written out.old) (K.written out.new) }
    ensures kind { IsMakeEnd result }
    ensures passed { result ≡ Status.Done → IsPassedOn (K.passed out.new) }
    ensures output_cause { BlamesOutput result (K.faults out.old) (K.faults out.new) (K.zeros out.old) (K.zeros out.new) }
{
    match write_workload(alloc, out, count, seed) {
        Ok(()) => {}
        Err(WorkloadFault::NoMemory) => return Status::NoMemory,
        Err(WorkloadFault::Failed) => return Status::OutputFault,
        Err(WorkloadFault::ZeroTaken) => return Status::OutputFault,
    }
    match out.flush() {
        Ok(()) => Status::Done,
        Err(_) => Status::OutputFault,
    }
}
