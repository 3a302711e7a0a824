//! A function entry counts for latest clocks; and laws of it, each of which has a clause and nothing to do.
ghost use Rattle.std.specs.Prelude.{◌≡◌, IsSome};
ghost use Rattle.lp_world.specs.Closed.{IsClosed};
ghost use Rattle.lp_world.specs.Rows.{row_at};
ghost use Rattle.lp_making.specs.Entries.{EntryKeepsVersions, EntryStands, EntryStaysClosed, StandsEntered, entry_counted, program_in};

use lp_values::id::{ObjId, ProgId};
use lp_world::live::Live;
use lp_world::objects::ObjectTable;

/// The version of an object that is there. Takes no memory.
fn program_of(objects: &ObjectTable, ob: ObjId) -> ProgId
    requires { IsSome (row_at objects.now ob.0) }
    ensures { result ≡ program_in (row_at objects.now ob.0) }
{
    match objects.get(ob) {
        Some(o) => o.program,
        None => unreachable!(),
    }
}

/// An entry of a function of an object, in the text of a version, counts: the latest clocks of the object, of its version and of
/// that version are the state's clock. Nothing else changes. Takes no memory, and always the same time.
pub fn count_entry(live: &mut Live, ob: ObjId, program: ProgId)
    requires closed { IsClosed live.old }
    requires there { IsSome (row_at live.old.objects ob.0) }
    requires text { IsSome (row_at live.old.versions program.0) }
    ensures after { live.new ≡ entry_counted live.old ob program }
    ensures stands { StandsEntered live.old live.new ob program }
    ensures closed { IsClosed live.new }
{
    let own = program_of(&live.objects, ob);
    live.objects.note_entry(ob, live.clock);
    live.versions.note_entry(own, live.clock);
    live.versions.note_entry(program, live.clock);
}

/// The state with an entry counted stands for the world after the entry, where it has the object.
pub fn entry_stands()
    ensures { EntryStands }
{}

/// It stays closed.
pub fn entry_stays_closed()
    ensures { EntryStaysClosed }
{}

/// In the world nothing but clocks changes in the versions.
pub fn entry_keeps_versions()
    ensures { EntryKeepsVersions }
{}
