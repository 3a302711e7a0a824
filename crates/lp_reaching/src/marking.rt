//! Entries of functions count.
ghost use Rattle.std.specs.Prelude.{◌≡◌, IsSome, List, Option};
ghost use Rattle.lp_code.specs.declared.program.RawProgram.{RawProgram as Raw};
ghost use Rattle.lp_language.specs.World.{World};
ghost use Rattle.lp_meaning.specs.WorldSteps.{entered};
ghost use Rattle.lp_swapfile.specs.Device.{Bytes};
ghost use Rattle.lp_targets.specs.Callees.{IsWorldOf};
ghost use Rattle.lp_world.specs.Closed.{IsClosed};
ghost use Rattle.lp_world.specs.Rows.{row_at};
ghost use Rattle.lp_reaching.specs.Reaching.{HasSameVariables, Marks};

use lp_making::entries::count_entry;
use lp_values::id::{ObjId, ProgId};
use lp_world::live::Live;

/// An entry counts: for the object, for its version, and for the version in whose text the function stands. Takes no memory,
/// and always the same time.
pub fn mark(live: &mut Live, this: ObjId, program: ProgId)
    requires closed { IsClosed live.old }
    requires object { IsSome (row_at live.old.objects this.0) }
    requires version { IsSome (row_at live.old.versions program.0) }
    ensures stands { (told : Option Bytes) (programs : List Raw) (w : World) → IsWorldOf told programs live.old w → Marks told programs live.new w (entered w this program) }
    ensures closed { IsClosed live.new }
    ensures variables { HasSameVariables live.old.objects live.new.objects }
    ensures cells { live.new.cells ≡ live.old.cells }
    ensures outputs { live.new.outputs ≡ live.old.outputs }
{
    count_entry(live, this, program);
}
