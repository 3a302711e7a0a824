//! What the script of a workload is.
ghost use Rattle.lp_workload.specs.Laws.{Examples, IsOneScript, IsWithinAnInput};

/// The workload is a script, whatever its number of events and its seed, and at most 200000 events
/// make one that is not too large.
pub fn one_script()
    ensures script { IsOneScript }
    ensures short { IsWithinAnInput }
{}

/// Two examples, computed by hand.
pub fn examples()
    ensures { Examples }
{}
