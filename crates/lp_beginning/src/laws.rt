//! A law of the parts of new objects: it has a clause and nothing to do.
ghost use Rattle.lp_beginning.specs.Beginning.{PartsStay};

/// Law: the parts that the job of a new object has at its beginning have initialisers in each later world.
pub fn law_parts_stay()
    ensures { PartsStay }
{}
