//! Laws of what a version's tree and the kept versions are told by. Each has a clause and nothing to do.
ghost use Rattle.lp_world.specs.Bare.{TheSameHeritage, TheSameKept};

/// The inheritance tree of a version in a world is that among its versions.
pub fn same_heritage()
    ensures { TheSameHeritage }
{}

/// A version is kept in a world exactly where it is by its objects and versions.
pub fn same_kept()
    ensures { TheSameKept }
{}
