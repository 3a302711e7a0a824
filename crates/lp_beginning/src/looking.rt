//! Whether a version has initialisers, and how many parts it has.
ghost use Rattle.std.specs.Prelude.{◌≡◌, ◌≤◌, Some, length};
ghost use Rattle.lp_code.specs.declared.program.RawProgram.{RawProgram as Raw};
ghost use Rattle.lp_language.specs.Resolve.{Heritage};
ghost use Rattle.lp_part_laws.specs.Versions.{FitsVersion};
ghost use Rattle.lp_targets.specs.Brought.{program_at};
ghost use Rattle.lp_reaching.specs.Rows.{has_initialisers};

use lp_reaching::{initialiser_row, program_of};
use lp_values::id::ProgId;
use lp_world::versions::VersionTable;

/// Whether a version has initialisers whose program is in memory.
pub(crate) fn has_initialisers(versions: &VersionTable, p: ProgId) -> bool
    ensures { (raw : Raw) (h : Heritage) → program_at versions.now p ≡ Some raw → FitsVersion h raw → result ≡ has_initialisers h }
{
    match program_of(versions, p) {
        Some(program) => initialiser_row(program.raw()).is_some(),
        None => false,
    }
}

/// How many parts the program of a version has that is in memory, where they are few enough to be numbered.
pub(crate) fn part_count(versions: &VersionTable, p: ProgId) -> u16
    ensures { (raw : Raw) → program_at versions.now p ≡ Some raw → length raw.tables.parts ≤ 65535 → result ≡ length raw.tables.parts }
{
    match program_of(versions, p) {
        Some(program) => counted(program.raw().tables.parts.as_slice().len()),
        None => 0,
    }
}

/// A number of parts, where it is small enough.
fn counted(n: usize) -> u16
    ensures { n ≤ 65535 → result ≡ n }
{
    if n > 65535 {
        return 0;
    }
    n as u16
}
