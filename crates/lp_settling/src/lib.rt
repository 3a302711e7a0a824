//! What efuns that call no LPC keep of a world: all that calls and loads rest on. Laws; each has clauses and nothing to do.
#![tactic(auto)]

ghost use Rattle.lp_settling.specs.Settling.{EfunsSettle, SettlesItself, SettlesOn};

/// Law: an efun that calls no LPC changes no version, and shadows that were live are live after it.
pub fn law_efuns_settle()
    ensures { EfunsSettle }
{}

/// Law: a world settles from itself, and from one from which another one settled that settled from it.
pub fn law_settling_composes()
    ensures itself { SettlesItself }
    ensures on { SettlesOn }
{}
