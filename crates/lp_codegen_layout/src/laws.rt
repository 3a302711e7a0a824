//! What layouts say, and what the check of types gives to those who make code.
ghost use Rattle.lp_codegen_layout.specs.Laid.{LastCounts, PathsAreNames};
ghost use Rattle.lp_codegen_layout.specs.Meant.{FaultlessIsClear};

/// The law of clear trees: an expression in which no fault is found is clear, so that no generator refuses it but for want of
/// memory or room.
pub fn law_clear()
    ensures { FaultlessIsClear }
{}

/// The law of layouts: what a layout says of a name is what the last entry of that name has.
pub fn law_last()
    ensures { LastCounts }
{}

/// The law of paths: of the parents that a name calls, the last counts.
pub fn law_paths()
    ensures { PathsAreNames }
{}
