//! What the grammar promises.
ghost use Rattle.lp_parser.specs.Theorem.{SpellsOne};

/// The law of the grammar: a list of tokens spells one unit at most.
pub fn one_unit_law()
    ensures { SpellsOne }
{}
