//! The efun `destruct` on the live state: an object ends, in the middle of a call too.
#![tactic(auto)]

ghost use Rattle.lp_destructing.specs.Ends.{DestructSettles};

pub mod destruct;

/// Law: where an object is destructed no version changes, and shadows that were live are live after it.
pub fn law_destruct_settles()
    ensures { DestructSettles }
{}
