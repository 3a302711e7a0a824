//! The lines of a report.
ghost use Rattle.std.specs.Prelude.{◌≡◌, ◌++◌, ◌+◌, IfOk, OnOk, flat_map};
ghost use Rattle.std.specs.Fmt.{decimal};
ghost use Rattle.lp_loads.specs.Known.{IsKnown};
ghost use Rattle.lp_loads.specs.Loads.{Loaded};
ghost use Rattle.lp_check.specs.Report.{counts_line, fault_line};
ghost use Rattle.lp_check.specs.Told.{IsTold};

use lp_loads::known::Known;
use lp_tree::fault::Fault;
use std::alloc::{AllocError, Global};

// Adds a number in decimal.
fn put_number(alloc: Global, out: &mut Vec<u8>, n: u64) -> Result<(), AllocError>
    ensures { OnOk result (out.new.items ≡ out.old.items ++ decimal n) }
{
    let text = n.to_string(alloc)?;
    out.extend_from_slice(text.as_bytes())
}

// Adds the line of a fault.
fn put_fault(alloc: Global, out: &mut Vec<u8>, fault: &Fault) -> Result<(), AllocError>
    ensures { OnOk result (out.new.items ≡ out.old.items ++ fault_line fault.now) }
{
    out.extend_from_slice(fault.file.as_str().as_bytes())?;
    out.extend_from_slice(b" line ")?;
    put_number(alloc, out, fault.line as u64)?;
    out.extend_from_slice(b": ")?;
    out.extend_from_slice(fault.kind.text().as_bytes())?;
    out.extend_from_slice(b"\n")
}

// Adds the lines of faults, in their order.
fn put_faults(alloc: Global, out: &mut Vec<u8>, faults: &[Fault]) -> Result<(), AllocError>
    ensures { OnOk result (out.new.items ≡ out.old.items ++ flat_map fault_line faults.now) }
{
    for fault in faults {
        put_fault(alloc, out, fault)?;
    }
    Ok(())
}

// A count and so many more.
fn added(count: u64, more: usize) -> Result<u64, AllocError>
    ensures { IfOk result (λ n. n ≡ count + more) }
{
    match count.checked_add(more as u64) {
        Some(count) => Ok(count),
        None => Err(AllocError),
    }
}

/// Adds the lines of the faults of all loads that ended, by the paths of their files, and tells how many they are.
pub(crate) fn put_known(alloc: Global, out: &mut Vec<u8>, known: &Known) -> Result<u64, AllocError>
    ensures { (ls : Loaded) → IsKnown ls known.now → IfOk result (λ n. IsTold ls out.old.items out.new.items n) }
{
    let mut count = 0;
    for (_path, ended) in known.files.iter() {
        let faults = ended.faults.as_slice();
        put_faults(alloc, out, faults)?;
        count = added(count, faults.len())?;
    }
    Ok(count)
}

/// Adds the line of counts.
pub(crate) fn put_counts(
    alloc: Global,
    out: &mut Vec<u8>,
    files: u64,
    faults: u64,
) -> Result<(), AllocError>
    ensures { OnOk result (out.new.items ≡ out.old.items ++ counts_line files faults) }
{
    put_number(alloc, out, files)?;
    out.extend_from_slice(b" files, ")?;
    put_number(alloc, out, faults)?;
    out.extend_from_slice(b" faults\n")
}
