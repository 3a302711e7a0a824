//! Looks at programs that are in memory.
ghost use Rattle.std.specs.Prelude.{◌≡◌, Some, is_some, slice_get};
ghost use Rattle.std.specs.Option.{option_copied};
ghost use Rattle.lp_code.specs.declared.program.RawProgram.{RawProgram as Raw};
ghost use Rattle.lp_targets.specs.Brought.{program_at};
ghost use Rattle.lp_world.specs.Rows.{row_at};

use lp_values::id::ProgId;
use lp_world::shared::SharedProgram;
use lp_world::versions::{ProgramState, VersionTable};

/// The program of a version that is in memory.
pub fn program_of(versions: &VersionTable, p: ProgId) -> Option<&SharedProgram>
    ensures { option_copied result ≡ program_at versions.now p }
{
    match versions.get(p) {
        Some(v) => match &v.state {
            ProgramState::Resident(program) => Some(program),
            ProgramState::Swapped(_) => None,
        },
        None => None,
    }
}

/// Whether the state has a version.
pub fn is_version(versions: &VersionTable, p: ProgId) -> bool
    ensures { result ≡ is_some (row_at versions.now p.0) }
{
    versions.get(p).is_some()
}

/// The version of a part of a version's program that is in memory.
pub fn part_version(versions: &VersionTable, p: ProgId, part: usize) -> Option<ProgId>
    ensures { (raw : Raw) → program_at versions.now p ≡ Some raw → result ≡ slice_get raw.tables.parts part }
{
    match program_of(versions, p) {
        Some(program) => program.raw().tables.parts.as_slice().get(part).copied(),
        None => None,
    }
}
