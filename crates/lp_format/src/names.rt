//! What objects are called.
ghost use Rattle.std.specs.Prelude.{◌≡◌};
ghost use Rattle.std.specs.Option.{option_map};
ghost use Rattle.std.specs.Str.{chars};

use lp_values::id::ObjId;

/// The names of objects.
pub trait Names {
    ghost use Rattle.std.specs.Prelude.{List, Option, ℕ};
    ghost use Rattle.lp_values.specs.declared.id.ObjId.{ObjId};

    ghost name: { Self → ObjId → Option (List ℕ) };

    /// The name of an object, as `/secure/master`, or none where it has none. Takes no memory.
    fn name_of(&self, id: ObjId) -> Option<&str>
        ensures { option_map (λ s. chars s.now) result ≡ name self.now id };
}
