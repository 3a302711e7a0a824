//! Laws of the grammar.
ghost use Rattle.lp_tree.specs.Statements.{Around};
ghost use Rattle.lp_tree.specs.Laws.{HaveFirstLines, AreSpelled};

/// The law of lines: the line of a tree is that of its first token.
pub fn law_lines()
    ensures { HaveFirstLines }
{}

/// Small sources spell the trees that they should.
pub fn law_examples()
    ensures { (a : Around) → AreSpelled a }
{}
