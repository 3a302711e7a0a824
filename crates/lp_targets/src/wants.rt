//! What is looked for in an object.
ghost use Rattle.std.specs.Prelude.{◌≡◌};
ghost use Rattle.lp_targets.specs.Callees.{want_of};

use lp_values::id::ObjId;

/// Which functions of a name count.
#[derive(Clone, Copy, Debug, PartialEq, Eq)]
pub enum Want {
    /// Each one.
    Any,
    /// Those that are not private.
    NotPrivate,
    /// Those that a call from outside may call: of its own object, or of another one.
    Callable(bool),
}

/// Who looks through a chain of shadows.
#[derive(Clone, Copy, Debug, PartialEq, Eq)]
pub enum Seeker {
    /// The driver or an efun, to whom each function counts.
    Anyone,
    /// An object that calls from outside.
    Caller(ObjId),
}

impl Seeker {
    /// What counts in an object.
    pub fn want(self, ob: ObjId) -> Want
        ensures { result ≡ want_of self ob }
    {
        match self {
            Seeker::Anyone => Want::Any,
            Seeker::Caller(c) => Want::Callable(c == ob),
        }
    }
}
