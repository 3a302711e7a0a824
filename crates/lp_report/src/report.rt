//! The numbers of a report.
ghost use Rattle.std.specs.Prelude.{◌≡◌, IfOk, false, length, replicate};
ghost use Rattle.lp_report.specs.Report.{IsKept, Reports};

use crate::counting::{count_live, count_out};
use crate::keeping::{Kept, count_kept};
use crate::marking::{mark_live, unmarked};
use lp_world::live::Live;
use std::alloc::{AllocError, Global};

/// The numbers of a report.
#[derive(Clone, Copy, Debug, PartialEq, Eq)]
pub struct Report {
    /// How many objects are live.
    pub live: u64,
    /// How many of them are out.
    pub live_out: u64,
    /// How many versions are kept: those of live objects, and the parents of kept ones.
    pub kept: u64,
    /// How many of them are out.
    pub kept_out: u64,
}

/// How many versions are kept, and how many of them are out. No version is marked yet.
fn kept_of(live: &Live, needed: &mut [bool]) -> Kept
    requires { needed.old ≡ replicate (length live.now.versions) false }
    ensures { IsKept live.now result }
{
    mark_live(&live.objects, needed);
    count_kept(&live.versions, needed)
}

/// Counts what is live, and what is kept, of a state between turns; and what of that is out. Takes time by how many objects and versions
/// were ever made, and a byte of memory for each version.
pub fn report_of(alloc: Global, live: &Live) -> Result<Report, AllocError>
    ensures { IfOk result (Reports live.now) }
{
    let mut needed = unmarked(alloc, live.versions.len())?;
    let kept = kept_of(live, needed.as_mut_slice());
    drop(needed);
    Ok(Report {
        live: count_live(&live.objects),
        live_out: count_out(&live.objects),
        kept: kept.all,
        kept_out: kept.out,
    })
}
