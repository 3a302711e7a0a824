//! Which objects are live, and what they are called.
ghost use Rattle.std.specs.Prelude.{◌≡◌};
ghost use Rattle.lp_efuns.specs.Names.{AreNamed};

use lp_format::names::Names;
use lp_objects::objects::Objects;
use lp_values::id::ObjId;
use lp_values::value::Living;
use lp_world::objects::ObjectTable;

/// The objects of a live state, with their names.
#[derive(Clone, Copy)]
pub struct KnownObjects<'a> {
    /// The objects.
    pub objects: &'a ObjectTable,
    /// Their names.
    pub names: &'a Objects,
    ghost named: { ∥ AreNamed names.now ∥₁ },
}

impl Living for KnownObjects<'_> {
    ghost use Rattle.lp_world.specs.Rows.{live_in};

    ghost live = { λ k. live_in k.objects.now };

    fn is_live(&self, id: ObjId) -> bool {
        self.objects.is_live(id)
    }
}

impl Names for KnownObjects<'_> {
    ghost use Rattle.lp_efuns.specs.Names.{name_at};

    ghost name = { λ k. name_at k.names.now };

    fn name_of(&self, id: ObjId) -> Option<&str> {
        self.names.name(id)
    }
}
