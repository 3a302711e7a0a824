//! What ended is forgotten.
ghost use Rattle.std.specs.Prelude.{◌≡◌, [], List, Option, Some};
ghost use Rattle.lp_code.specs.declared.program.RawProgram.{RawProgram as Raw};
ghost use Rattle.lp_language.specs.World.{World};
ghost use Rattle.lp_objects.specs.Objects.{Named};
ghost use Rattle.lp_objects.specs.Stands.{Stands as AreNamed, died_in};
ghost use Rattle.lp_swapfile.specs.Device.{Bytes};
ghost use Rattle.lp_world.specs.Closed.{IsClosed};
ghost use Rattle.lp_world.specs.Rows.{row_at};
ghost use Rattle.lp_targets.specs.Callees.{IsWorldOf};
ghost use Rattle.lp_tidying.specs.Ended.{is_ended, without_row, without_rows};

use lp_values::id::ObjId;
use lp_world::live::Live;
use lp_world::objects::{Object, ObjectState, ObjectTable};

/// The objects that ended in a turn are forgotten when it is over: their names and versions, and what their rows hold. The live
/// state stands for the same world. Takes no memory, and time by how many ended.
pub fn forget_ended(live: &mut Live)
    requires closed { IsClosed live.old }
    ensures rows { live.new.objects ≡ without_rows live.old.objects (died_in live.old.names) }
    ensures names { died_in live.new.names ≡ [] }
    ensures named { (objects : List Named) → AreNamed live.old.names objects → AreNamed live.new.names objects }
    ensures only { live.new ≡ record live.old { names = live.new.names; objects = live.new.objects } }
    ensures world { (told : Option Bytes) (programs : List Raw) (w : World) → IsWorldOf told programs live.old w → IsWorldOf told programs live.new w }
    ensures closed { IsClosed live.new }
{
    forget_rows(&mut live.objects, live.names.died());
    live.names.forget_dead();
}

/// Forgets what the rows of these objects hold.
fn forget_rows(objects: &mut ObjectTable, died: &[ObjId])
    ensures { objects.new ≡ without_rows objects.old died.now }
{
    for o in died {
        forget_row(objects, *o);
    }
}

/// Forgets what the row of an object holds, if it ended.
fn forget_row(objects: &mut ObjectTable, o: ObjId)
    ensures { objects.new ≡ without_row objects.old o }
{
    if has_ended(objects, o) {
        objects.forget(o);
    }
}

/// Whether an object ended, and its variables are in memory still.
fn has_ended(objects: &ObjectTable, o: ObjId) -> bool
    ensures { result ≡ is_ended (row_at objects.now o.0) }
{
    match objects.get(o) {
        Some(object) => has_ended_here(object),
        None => false,
    }
}

/// The same of the object.
fn has_ended_here(object: &Object) -> bool
    ensures { result ≡ is_ended (Some object.now) }
{
    if object.is_live {
        return false;
    }
    matches!(object.state, ObjectState::Resident(_))
}
