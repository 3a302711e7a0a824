//! What may be to come for an object.
ghost use Rattle.std.specs.Prelude.{◌≡◌};
ghost use Rattle.lp_timers.specs.Lines.{kind_of, kind_place, same_kind};

/// What an object may be watched for.
#[derive(Clone, Copy, Debug, PartialEq, Eq)]
pub enum Watch {
    /// Its `reset`.
    Reset,
    /// Its `clean_up`.
    CleanUp,
}

/// What may be to come for an object: a heart beat, or what it is watched for.
#[derive(Clone, Copy, Debug, PartialEq, Eq)]
pub(crate) enum Kind {
    Beat,
    Reset,
    CleanUp,
}

impl Kind {
    /// What an object is watched for.
    pub(crate) fn of(watch: Watch) -> Kind
        ensures { result ≡ kind_of watch }
    {
        match watch {
            Watch::Reset => Kind::Reset,
            Watch::CleanUp => Kind::CleanUp,
        }
    }

    /// Its place among the kinds.
    pub(crate) fn place(self) -> u64
        ensures { result ≡ kind_place self }
    {
        match self {
            Kind::Beat => 0,
            Kind::Reset => 1,
            Kind::CleanUp => 2,
        }
    }

    /// Whether the two are one.
    pub(crate) fn is(self, other: Kind) -> bool
        ensures { result ≡ same_kind self other }
    {
        match (self, other) {
            (Kind::Beat, Kind::Beat) => true,
            (Kind::Reset, Kind::Reset) => true,
            (Kind::CleanUp, Kind::CleanUp) => true,
            _ => false,
        }
    }
}
