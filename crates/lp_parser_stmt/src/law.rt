//! What the machines promise those who build on them.
ghost use Rattle.lp_parser_stmt.specs.Theorem.{ReadsBlocks, ReadsNames};

/// The law of declared names: they are read exactly where they are spelled, and each front can be ended as shallow as
/// it says.
pub fn names_law()
    ensures { ReadsNames }
{}

/// The law of statements: a function's statements are read exactly where they are spelled, and each front can be ended
/// as shallow as it says.
pub fn statements_law()
    ensures { ReadsBlocks }
{}
