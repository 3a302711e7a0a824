//! A law of calls of parents' rows, which has a clause and nothing to do.
ghost use Rattle.lp_making.specs.Calls.{CallsFindRows};

/// The calls of parents' rows in a program that is in memory find them in the tables of its parents.
pub fn calls_find_rows()
    ensures { CallsFindRows }
{}
