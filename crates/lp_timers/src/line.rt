//! One thing that is to come.
ghost use Rattle.std.specs.Prelude.{◌≡◌, ◌∷◌, ◌++◌, [], OnOk};
ghost use Rattle.lp_timers.specs.Lines.{due_objects, is_due_for};

use crate::kind::Kind;
use lp_values::id::ObjId;
use std::alloc::AllocError;

/// What is to come for an object, its moment in seconds, and the number of its putting.
#[derive(Clone, Copy, Debug)]
pub(crate) struct Line {
    pub(crate) number: u64,
    pub(crate) ob: ObjId,
    pub(crate) kind: Kind,
    pub(crate) next: u64,
}

impl Line {
    /// Whether it is of this kind and due at a moment.
    fn is_due(self, kind: Kind, t: u64) -> bool
        ensures { result ≡ is_due_for kind t self }
    {
        self.kind.is(kind) && self.next <= t
    }

    /// Puts its object behind others, if it is of this kind and due at a moment.
    pub(crate) fn tell_due(
        self,
        kind: Kind,
        t: u64,
        found: &mut Vec<ObjId>,
    ) -> Result<(), AllocError>
        ensures { OnOk result (found.new.items ≡ found.old.items ++ due_objects kind t (self ∷ [])) }
    {
        if self.is_due(kind, t) {
            found.push(self.ob)?;
        }
        Ok(())
    }
}
