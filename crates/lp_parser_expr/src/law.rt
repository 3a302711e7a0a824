//! What the machine promises those who build on it.
ghost use Rattle.lp_parser_expr.specs.Theorem.{ReadsExactly, SpellsOne};

/// The law of the machine: it reads exactly what is spelled, and each front can be ended as shallow as it says.
pub fn machine_law()
    ensures { ReadsExactly }
{}

/// The law of the grammar: a list of tokens spells one expression at most.
pub fn one_tree_law()
    ensures { SpellsOne }
{}
