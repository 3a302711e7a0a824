//! Which objects reach which.
ghost use Rattle.std.specs.Prelude.{◌≡◌};

use lp_values::id::ObjId;

/// Which objects are in reach of a living object.
pub trait Reach {
    ghost use Rattle.std.specs.Prelude.{Bool};
    ghost use Rattle.lp_values.specs.declared.id.ObjId.{ObjId};

    ghost reaches: { Self → ObjId → ObjId → Bool };

    /// Whether the giver of an action is in reach of its holder.
    fn in_reach(&self, holder: ObjId, giver: ObjId) -> bool
        ensures { result ≡ reaches self.now holder giver };
}
