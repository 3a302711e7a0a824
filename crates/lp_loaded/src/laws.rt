//! Laws of what is loaded. Each has a clause and nothing to do.
ghost use Rattle.lp_loaded.specs.Present.{KnownIsBlueprints, StandingIsReady};

/// A state is ready where it stands for a world whose programs have the tables of their versions.
pub fn standing_is_ready()
    ensures { StandingIsReady }
{}

/// Tables that are known are those of the live blueprint's version; and where that version's program is in memory they are known.
pub fn known_is_blueprints()
    ensures { KnownIsBlueprints }
{}
