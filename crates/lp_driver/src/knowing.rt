//! Whether each object that was made is known by its name.
ghost use Rattle.std.specs.Prelude.{◌≡◌, IsTrue, List, true};
ghost use Rattle.lp_objects.specs.Objects.{Named};
ghost use Rattle.lp_objects.specs.Stands.{Stands as AreNames, is_known};
ghost use Rattle.lp_driver.specs.Knowing.{KnowsAll};

use lp_objects::objects::Objects;
use lp_values::id::ObjId;
use lp_world::live::Live;

/// Whether an object is known by its name.
fn is_known(names: &Objects, n: usize) -> bool
    ensures { IsTrue result → (objects : List Named) → AreNames names.now objects → is_known names.now objects n ≡ true }
{
    match names.name(ObjId(n as u64)) {
        Some(_) => true,
        None => false,
    }
}

/// Whether each object that was made is known by its name, live or dead. Takes time by how many were made.
pub(crate) fn knows_all(live: &Live) -> bool
    ensures { IsTrue result → KnowsAll live.now }
{
    for n in 0..live.objects.len() {
        if !is_known(&live.names, n) {
            return false;
        }
    }
    true
}
