//! The file of a load becomes a version.
ghost use Rattle.std.specs.Prelude.{◌≡◌, IfErr, IfOk, OnErr, OnOk};
ghost use Rattle.std.specs.Char.{is_ascii as ascii};
ghost use Rattle.std.specs.List.{list_all};
ghost use Rattle.std.specs.Str.{IsAscii};
ghost use Rattle.lp_meaning.specs.WorldSteps.{file_of_name};
ghost use Rattle.lp_world.specs.Closed.{IsClosed};
ghost use Rattle.lp_targets.specs.Brought.{StaysInMemory};
ghost use Rattle.lp_loading.specs.Telling.{IsDeviceless, StandsFor};
ghost use Rattle.lp_loading.specs.Versions.{MakesVersion};

use crate::job::LoadFault;
use lp_code::program::Program;
use lp_fits::law_fits;
use lp_making::calls::calls_find_rows;
use lp_making::versions::new_version;
use lp_values::id::ProgId;
use lp_values::text::Text;
use lp_world::live::Live;
use lp_world::shared::SharedProgram;
use std::alloc::{AllocError, Global};

/// Whether a name has letters of ASCII alone.
fn is_ascii(name: &[char]) -> bool
    ensures { result ≡ list_all ascii name.now }
{
    name.iter().all(|c| c.is_ascii())
}

/// The file of a name of letters of ASCII: no other name has a file that becomes a version, since each path of a store is of ASCII,
/// and for another one there is no memory.
fn file_text(alloc: Global, name: &[char]) -> Result<Text, AllocError>
    ensures file { IfOk result (λ t. t ≡ file_of_name name.now) }
    ensures ascii { OnOk result (IsAscii name.now) }
{
    if !is_ascii(name) {
        return Err(AllocError);
    }
    let mut path = Vec::from_slice(alloc, name)?;
    path.push('.')?;
    path.push('c')?;
    Text::from_vec(alloc, path)
}

/// A program that was compiled from the file of a name, for the next number, becomes the version with that number. The state then
/// stands for the world with the version more, and programs fit their versions.
///
/// # Errors
/// `NoMemory`, also where the name has letters beyond ASCII, and where the program has 2^32 instructions or more, or names what is
/// not there, as `add_version` says; then nothing has changed.
pub(crate) fn make_version(
    live: &mut Live,
    name: &[char],
    program: Program,
) -> Result<ProgId, LoadFault>
    requires closed { IsClosed live.old }
    ensures makes { IfOk result (MakesVersion live.old live.new name.now program) }
    ensures same { OnErr result (live.new ≡ live.old) }
    ensures closed { IsClosed live.new }
    ensures objects { live.new.objects ≡ live.old.objects }
    ensures cells { live.new.cells ≡ live.old.cells }
    ensures outputs { live.new.outputs ≡ live.old.outputs }
    ensures stays { OnOk result (StaysInMemory live.old live.new) }
    ensures stands { OnOk result (StandsFor live.old live.new) }
    ensures deviceless { IfErr result IsDeviceless }
{
    law_fits();
    calls_find_rows();
    let path = file_text(live.alloc, name)?;
    let shared = SharedProgram::new(live.alloc, program)?;
    Ok(new_version(live, path, shared)?)
}
