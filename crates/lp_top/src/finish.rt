//! The last piece of an output.
ghost use Rattle.std.specs.Prelude.{◌≡◌, ◌≤◌};
ghost use Rattle.lp_io.specs.Told.{IsPassedOn};
ghost use Rattle.lp_top.specs.Causes.{BlamesOutput};
ghost use Rattle.lp_top.specs.Replay.{Finishes};

use crate::status::Status;
use lp_io::{Sink, put_all};

/// Writes the last piece of an output, and hands on what the sink may hold back.
pub(crate) fn finish<K: Sink>(out: &mut K, last: &[u8]) -> Status
    ensures end { Finishes last.now (K.written out.old) (K.written out.new) result }
    ensures cause { BlamesOutput result (K.faults out.old) (K.faults out.new) (K.zeros out.old) (K.zeros out.new) }
    ensures no_fall { K.faults out.old ≤ K.faults out.new }
    ensures zeros_no_fall { K.zeros out.old ≤ K.zeros out.new }
    ensures passed { result ≡ Status.Done → IsPassedOn (K.passed out.new) }
{
    match put_all(out, last) {
        Ok(()) => {}
        Err(_) => return Status::OutputFault,
    }
    match out.flush() {
        Ok(()) => Status::Done,
        Err(_) => Status::OutputFault,
    }
}
