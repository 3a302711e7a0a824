//! The lines at the end of a transcript.
ghost use Rattle.std.specs.Prelude.{◌≡◌, ◌≤◌, ◌++◌, IfOk, OnOk, codes};
ghost use Rattle.std.specs.Fmt.{decimal};
ghost use Rattle.lp_io.specs.Told.{IsPassedOn};
ghost use Rattle.lp_report.specs.Report.{Reports};
ghost use Rattle.lp_report.specs.declared.report.Report.{Report as R};
ghost use Rattle.lp_top.specs.Causes.{BlamesOutput};
ghost use Rattle.lp_top.specs.Replay.{Concludes};
ghost use Rattle.lp_top.specs.Reports.{report_line};

use crate::finish::finish;
use crate::status::Status;
use lp_io::Sink;
use lp_report::report::{Report, report_of};
use lp_world::live::Live;
use std::alloc::{AllocError, Global};

// Adds a number behind some bytes.
fn put_number(
    alloc: Global,
    out: &mut Vec<u8>,
    before: &[u8],
    number: u64,
) -> Result<(), AllocError>
    ensures { OnOk result (out.new.items ≡ out.old.items ++ before.now ++ decimal number) }
{
    out.extend_from_slice(before)?;
    let text = number.to_string(alloc)?;
    out.extend_from_slice(text.as_bytes())
}

// Adds the line of a report.
fn put_report(alloc: Global, out: &mut Vec<u8>, report: Report) -> Result<(), AllocError>
    ensures { OnOk result (out.new.items ≡ out.old.items ++ report_line report) }
{
    put_number(alloc, out, b"report ", report.live)?;
    put_number(alloc, out, b" ", report.live_out)?;
    put_number(alloc, out, b" ", report.kept)?;
    put_number(alloc, out, b" ", report.kept_out)?;
    out.extend_from_slice(b"\n")
}

// Adds the line at the end of a transcript, and that of a report.
fn put_lines(alloc: Global, out: &mut Vec<u8>, report: Report) -> Result<(), AllocError>
    ensures { OnOk result (out.new.items ≡ out.old.items ++ (codes "end\n" ++ report_line report)) }
{
    out.extend_from_slice(b"end\n")?;
    put_report(alloc, out, report)
}

// The lines at the end, with the report of a state.
fn lines_of(live: &Live) -> Result<Vec<u8>, AllocError>
    ensures { IfOk result (λ lines. (r : R) × Reports live.now r × (lines.items ≡ codes "end\n" ++ report_line r)) }
{
    let report = report_of(live.alloc, live)?;
    let mut lines = Vec::new(live.alloc);
    match put_lines(live.alloc, &mut lines, report) {
        Ok(()) => Ok(lines),
        Err(e) => {
            drop(lines);
            Err(e)
        }
    }
}

/// Writes the line at the end of a transcript, and where a report is asked for the line of its numbers, which are those of this state.
/// Hands on what the sink may hold back.
pub(crate) fn conclude<K: Sink>(out: &mut K, live: &Live, asks_report: bool) -> Status
    ensures end { Concludes asks_report live.now (K.written out.old) (K.written out.new) result }
    ensures cause { BlamesOutput result (K.faults out.old) (K.faults out.new) (K.zeros out.old) (K.zeros out.new) }
    ensures no_fall { K.faults out.old ≤ K.faults out.new }
    ensures zeros_no_fall { K.zeros out.old ≤ K.zeros out.new }
    ensures passed { result ≡ Status.Done → IsPassedOn (K.passed out.new) }
{
    if !asks_report {
        return finish(out, b"end\n");
    }
    match lines_of(live) {
        Ok(lines) => finish(out, lines.as_slice()),
        Err(_) => Status::NoMemory,
    }
}
