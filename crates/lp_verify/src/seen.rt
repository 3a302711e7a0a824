//! What is known of how a place is reached.
ghost use Rattle.std.specs.Prelude.{◌≡◌, ◌↔◌, IsTrue};
ghost use Rattle.lp_verify.specs.Paths.{Fits, joined};
ghost use Rattle.lp_verify.specs.Walks.{IsIn, known_of};

use crate::openings::Openings;

/// A height of the stack, and the number of the list of open catches.
#[derive(Clone, Copy, Debug, PartialEq, Eq)]
pub(crate) struct Form {
    pub(crate) height: u32,
    pub(crate) open: usize,
}

/// What is known of how a place is reached.
#[derive(Clone, Copy, Debug, PartialEq, Eq)]
pub(crate) enum Seen {
    /// No path to it is known.
    Never,
    /// Each known path comes in this form.
    Once(Form),
    /// Paths come in two forms, or through a place where they do.
    Mixed,
}

/// Whether what is known of a place already says this.
pub(crate) fn says(openings: &Openings, old: Seen, new: Seen) -> bool
    requires old_in { IsIn openings.now old }
    requires new_in { IsIn openings.now new }
    ensures { IsTrue result ↔ Fits (known_of openings.now new) (known_of openings.now old) }
{
    match (old, new) {
        (_, Seen::Never) => true,
        (Seen::Mixed, _) => true,
        (Seen::Once(a), Seen::Once(b)) => a.height == b.height && openings.is_same(a.open, b.open),
        _ => false,
    }
}

/// What is known of a place when this is learned too.
pub(crate) fn join(openings: &Openings, old: Seen, new: Seen) -> Seen
    ensures same { known_of openings.now result ≡ joined (known_of openings.now old) (known_of openings.now new) }
    ensures inside { IsIn openings.now new → IsIn openings.now result }
{
    let _lists = openings;
    match old {
        Seen::Never => new,
        _ => Seen::Mixed,
    }
}
