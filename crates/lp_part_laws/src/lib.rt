//! The parts of an inheritance tree: where they stand, which variables are before them, and what the rows of tables and
//! names reach in them. And what it says that a program fits a version.
#![tactic(auto)]

ghost use Rattle.lp_part_laws.specs.Parts.{FoundInText, NamesReach, PartsSplit, RowsAreFunctions, TreesOfVersions};
ghost use Rattle.lp_part_laws.specs.Versions.{NamesAreSpelled, StayCompiled};

/// The law of clocks: programs still fit where the latest clocks of versions changed.
pub fn law_latest()
    ensures { StayCompiled }
{}

/// The law of trees: each part's tree is that of its version, where parents have lower numbers.
pub fn law_trees()
    ensures { TreesOfVersions }
{}

/// The law of variables: those of a part begin where the rows of variables come to the parts of its tree, and are among those
/// of the whole.
pub fn law_variables()
    ensures { PartsSplit }
{}

/// The law of texts: what a name means stands in the text of its part, as the first function of the name.
pub fn law_texts()
    ensures { FoundInText }
{}

/// The law of names: the row of a name in a program that fits reaches what the name means.
pub fn law_names()
    ensures { NamesReach }
{}

/// The law of functions: a row of a program that fits is that of the function at its place in the file.
pub fn law_functions()
    ensures { RowsAreFunctions }
{}

/// The law of spelling: a name that means a function of a version is of letters of ASCII, so that its code points are its bytes.
pub fn law_spelled()
    ensures { NamesAreSpelled }
{}
