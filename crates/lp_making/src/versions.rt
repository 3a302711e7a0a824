//! A compiled program becomes a version.
ghost use Rattle.std.specs.Prelude.{◌≡◌, ◌<◌, ◌^◌, IfOk, OnErr, OnOk, length};
ghost use Rattle.std.specs.Bool.{OnTrue};
ghost use Rattle.lp_code.specs.Programs.{IsProgram};
ghost use Rattle.lp_residence.specs.Adding.{IsNewVersion};
ghost use Rattle.lp_world.specs.Closed.{IsClosed};
ghost use Rattle.lp_making.specs.Versions.{StandsWithVersion, StandsWithVersionOf};

use lp_code::program::RawProgram;
use lp_residence::adding::add_version;
use lp_values::id::ProgId;
use lp_values::text::Text;
use lp_world::live::Live;
use lp_world::shared::SharedProgram;
use std::alloc::AllocError;

/// Whether the places of a program are numbers below 2^32.
fn has_places(raw: &RawProgram) -> bool
    ensures { OnTrue result (length raw.now.instrs < 2 ^ 32) }
{
    raw.instrs.as_slice().len() < 4294967296
}

/// A program in memory that was compiled from the file with a path becomes the version with the next number, made at the
/// state's clock. The state then stands for the world with that version more, whose path is this one and whose parents are those
/// of the program's tables. Takes time in proportion to the program.
///
/// `AllocError`: memory ran out, and nothing has changed. It also comes where the program has 2^32 instructions or more, or
/// names what is not there, as `add_version` says.
pub fn new_version(
    live: &mut Live,
    path: Text,
    program: SharedProgram,
) -> Result<ProgId, AllocError>
    requires closed { IsClosed live.old }
    ensures number { IfOk result (λ p. p.0 ≡ length live.old.versions) }
    ensures new { OnOk result (IsNewVersion live.old live.new path program) }
    ensures stands { OnOk result (StandsWithVersion live.old live.new path program) }
    ensures file { OnOk result (StandsWithVersionOf live.old live.new path program) }
    ensures places { OnOk result (length program.instrs < 2 ^ 32) }
    ensures same { OnErr result (live.new ≡ live.old) }
    ensures closed { IsClosed live.new }
{
    if !has_places(program.raw()) {
        return Err(AllocError);
    }
    add_version(live, path, program)
}
