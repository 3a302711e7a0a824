//! Kept versions are counted.
ghost use Rattle.std.specs.Prelude.{◌≡◌, ◌+◌, ◌<◌, ◌≤◌, ◌^◌, ◌-◌, length, filter, suc};
ghost use Rattle.std.specs.Option.{option_copied};
ghost use Rattle.lp_report.specs.Needed.{kept_rows};
ghost use Rattle.lp_report.specs.Report.{is_out_at, is_out_version, is_ticket};

use crate::counting::counted;
use crate::marking::{is_marked, mark_parents};
use lp_values::id::ProgId;
use lp_world::versions::{ProgramState, Version, VersionTable};

/// How many versions are kept, and how many of them are out.
#[derive(Clone, Copy, Debug, PartialEq, Eq)]
pub(crate) struct Kept {
    pub(crate) all: u64,
    pub(crate) out: u64,
}

/// Whether a program is out.
fn is_ticket(state: &ProgramState) -> bool
    ensures { result ≡ is_ticket state.now }
{
    match state {
        ProgramState::Resident(_) => false,
        ProgramState::Swapped(_) => true,
    }
}

/// Whether there is a version, and its program is out.
fn is_out(version: Option<&Version>) -> bool
    ensures { result ≡ is_out_version (option_copied version.entry) }
{
    match version {
        Some(v) => is_ticket(&v.state),
        None => false,
    }
}

/// The version with this number is counted, where it is needed, and then its parents are needed.
fn take_version(versions: &VersionTable, n: usize, needed: &mut [bool], kept: &mut Kept)
    requires few { kept.old.all < 2 ^ 64 - 1 }
    requires fewer { kept.old.out ≤ kept.old.all }
    ensures all { kept.new.all + length (kept_rows versions.now n needed.new) ≡ kept.old.all + length (kept_rows versions.now (suc n) needed.old) }
    ensures out { kept.new.out + length (filter (is_out_at versions.now) (kept_rows versions.now n needed.new)) ≡ kept.old.out + length (filter (is_out_at versions.now) (kept_rows versions.now (suc n) needed.old)) }
    ensures more { kept.new.all ≤ kept.old.all + 1 }
    ensures fewer { kept.new.out ≤ kept.new.all }
{
    if is_marked(needed, n) {
        let version = versions.get(ProgId(n as u64));
        kept.all += 1;
        kept.out = counted(kept.out, is_out(version));
        mark_parents(needed, version);
    }
}

/// How many versions are kept, where the marked ones are needed, and how many of them are out. A parent has a lower number than its
/// child, so the highest number comes first.
pub(crate) fn count_kept(versions: &VersionTable, needed: &mut [bool]) -> Kept
    ensures all { result.all ≡ length (kept_rows versions.now (length versions.now) needed.old) }
    ensures out { result.out ≡ length (filter (is_out_at versions.now) (kept_rows versions.now (length versions.now) needed.old)) }
{
    let mut kept = Kept { all: 0, out: 0 };
    let mut n = versions.len();
    'versions: while n > 0 {
        n -= 1;
        take_version(versions, n, needed, &mut kept);
    }
    kept
}
