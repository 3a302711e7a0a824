//! The meaning of LPC's expressions and statements: what they do in a world, and what they ask.
//!
//! The definitions stand in `specs/`. No code runs here: what carries them out stands above. The
//! functions are laws of the definitions: each has a clause and nothing to do.
#![tactic(auto)]

ghost use Rattle.lp_language.specs.Afterwards.{BodiesKeep, InitialisersKeep};

/// A function's body removes nothing from the world, adds nothing to the budget, and changes of the
/// running commands at most the text of the innermost one.
pub fn bodies_keep_what_was()
    ensures { BodiesKeep }
{}

/// So do initialisers.
pub fn initialisers_keep_what_was()
    ensures { InitialisersKeep }
{}
