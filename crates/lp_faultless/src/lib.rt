//! What is so of the inheritance tree of a version whose unit has no fault.
#![tactic(auto)]

ghost use Rattle.lp_faultless.specs.Trees.{FaultlessIsFine};

/// The law of faultless units: where the checks of types and of the layout find no fault in the text of a version, and the trees
/// of its parents are fine, so is its own: no file has more functions than rows can number, two functions of one name, or a
/// variable's name that is used twice, and rows can number its parts and its variables.
pub fn law_faultless()
    ensures { FaultlessIsFine }
{}
