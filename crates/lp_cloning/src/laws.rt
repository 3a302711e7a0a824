//! A law of loads of blueprints: it has a clause and nothing to do.
ghost use Rattle.lp_cloning.specs.Feeding.{LoadsThrough};

/// Law: what the load of a blueprint ends with, and what follows that, the job ends with that loads it.
pub fn law_loads_through()
    ensures { LoadsThrough }
{}
