//! Laws of the written meaning on what lasts over a question: no number of a call-out is used again, and a call-out that waits does
//! not change.
#![tactic(auto)]

ghost use Rattle.lp_lasting_laws.specs.Lasting.{CallOutsLast};
ghost use Rattle.lp_lasting_laws.specs.Numbers.{NumbersAreEnough};

/// A call-out that waits after a question, and whose number had been given out before it, waited before it and is the same.
pub fn law_call_outs_last()
    ensures { CallOutsLast }
{}

/// The call-outs of a tick may be called by their numbers, each looked up when its turn comes: that ends as the meaning has it, where
/// each call-out has a number of its own.
pub fn law_numbers_are_enough()
    ensures { NumbersAreEnough }
{}
